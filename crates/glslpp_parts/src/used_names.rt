//! The names that a source uses, besides defining them.

ghost use Rattle.std.specs.Prelude.{◌-◌, ◌^◌, ◌<◌, length};

use crate::reading::{TokenReader, read_tokens};
use pp_rs::lexer::{Token, TokenValue};
use pp_rs::rules::Rules;
use std::alloc::{AllocError, Global};
use std::collections::BTreeSet;

/// The names that occur in a source in another place than after `#define` or `#undef` or in their own `#define`.
#[derive(Drop)]
pub struct UsedNames {
    alloc: Global,
    names: BTreeSet<String>,
}

impl UsedNames {
    /// No names.
    pub(crate) fn none(alloc: Global) -> UsedNames {
        UsedNames {
            alloc,
            names: BTreeSet::new(alloc),
        }
    }

    /// The names of this source, which is read by these rules.
    pub fn of(alloc: Global, rules: Rules, source: &str) -> Result<UsedNames, AllocError>
        requires { length source.now < 2 ^ 32 - 1 }
    {
        let mut used = UsedNames::none(alloc);
        used.read(rules, source)?;
        Ok(used)
    }

    /// Adds the names of a source, which is read by these rules.
    pub(crate) fn read(&mut self, rules: Rules, source: &str) -> Result<(), AllocError>
        requires { length source.now < 2 ^ 32 - 1 }
    {
        let alloc = self.alloc;
        let mut reader = Reader {
            alloc,
            stage: Stage::Text,
            own: String::new(alloc),
            used: self,
        };
        let end = read_tokens(alloc, rules, source, &mut reader);
        drop(reader);
        end
    }

    /// Whether a name is among them.
    pub fn has(&self, name: &str) -> bool {
        self.names.contains(name)
    }

    /// Adds a name.
    pub(crate) fn add(&mut self, name: &str) -> Result<(), AllocError> {
        if !self.has(name) {
            self.names.insert(String::from_str(self.alloc, name)?)?;
        }
        Ok(())
    }
}

/// How far a line was read.
#[derive(Clone, Copy)]
enum Stage {
    /// Into its text.
    Text,
    /// Up to the `#`.
    Hash,
    /// Up to the word `define`.
    Define,
    /// Up to the word `undef`.
    Undef,
}

/// What reads a source, and notes the names in it.
#[derive(Drop)]
struct Reader<'u> {
    alloc: Global,
    stage: Stage,
    // The name whose `#define` this line is, or nothing.
    own: String,
    used: &'u mut UsedNames,
}

impl<'u> TokenReader for Reader<'u> {
    fn take(&mut self, token: &Token) -> Result<(), AllocError> {
        self.stage = match (self.stage, &token.value) {
            (_, TokenValue::NewLine) => {
                self.own.clear();
                Stage::Text
            }
            (_, TokenValue::Hash) if token.start_of_line => Stage::Hash,
            (Stage::Hash, TokenValue::Ident(word)) => stage_after(word.as_str()),
            (Stage::Define, TokenValue::Ident(name)) => {
                self.own = String::from_str(self.alloc, name.as_str())?;
                Stage::Text
            }
            (Stage::Text, TokenValue::Ident(name)) => {
                self.use_name(name.as_str())?;
                Stage::Text
            }
            _ => Stage::Text,
        };
        Ok(())
    }
}

impl<'u> Reader<'u> {
    fn use_name(&mut self, name: &str) -> Result<(), AllocError> {
        if self.own.as_str() == name {
            return Ok(());
        }
        self.used.add(name)
    }
}

// The stage after the word of a directive.
fn stage_after(word: &str) -> Stage {
    match word {
        "define" => Stage::Define,
        "undef" => Stage::Undef,
        _ => Stage::Text,
    }
}
