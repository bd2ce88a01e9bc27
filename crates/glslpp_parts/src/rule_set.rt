//! The rules by which a source is read.

ghost use Rattle.std.specs.Prelude.{◌≡◌, ◌-◌, ◌^◌, ◌<◌, false, length, IfOk};
ghost use Rattle.pp_rs.specs.Kept.{is_spent, rules_of};
ghost use Rattle.glslpp_parts.specs.RuleSets.{rules_for};

use crate::changes::Definition;
use crate::version::Version;
use pp_rs::pp::Preprocessor;
use pp_rs::rules::{Profile, Rules};
use std::alloc::{AllocError, Global};

/// Whose rules a source is read by.
#[derive(Clone, Copy, PartialEq, Eq)]
pub enum RuleSet {
    /// GLSL's.
    Glsl,
    /// Those of the Rust crate pp-rs.
    PpRs,
}

impl RuleSet {
    /// The rules for a source of this version. GLSL's are those with includes. A version that names no profile has that
    /// of the desktop.
    pub fn rules_for(self, version: Version) -> Rules
        ensures { result ≡ rules_for self version }
    {
        match self {
            RuleSet::Glsl => {
                Rules::glsl(
                    version.number,
                    version.profile.unwrap_or(Profile::Core),
                ).with_includes()
            }
            RuleSet::PpRs => Rules::PP_RS,
        }
    }
}

/// What a source is read with.
#[derive(Clone, Copy)]
pub struct Setting<'a> {
    /// The rules by which it and the contents of its definitions are read.
    pub rules: Rules,
    /// The definitions before it.
    pub definitions: &'a [Definition<'a>],
    /// The extensions whose macros its `#extension` lines define.
    pub extensions: &'a [&'a str],
    /// How many steps it may take, if they are bounded.
    pub budget: Option<u64>,
}

impl<'a> Setting<'a> {
    /// Returns a preprocessor of a source by the rules and within the budget. The definitions aren't added.
    pub fn begin<'s>(self, alloc: Global, source: &'s str) -> Result<Preprocessor<'s>, AllocError>
        requires { length source.now < 2 ^ 32 - 1 }
        ensures unspent { IfOk result (λ items. is_spent items ≡ false) }
        ensures rules { IfOk result (λ items. rules_of items ≡ self.entry.rules) }
    {
        let mut items = Preprocessor::with_rules(alloc, source, self.rules);
        let Some(steps) = self.budget else {
            return Ok(items);
        };
        if items.set_budget(steps).is_err() {
            drop(items);
            return Err(AllocError);
        }
        Ok(items)
    }
}
