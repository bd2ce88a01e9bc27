//! How a caller in C wants a source to be preprocessed.

ghost use Rattle.std.specs.Prelude.{◌≡◌, IfSome, None};
ghost use Rattle.pp_c.specs.Options.{rules_numbered, unless_zero, all_unless_zero, says_text};
ghost use Rattle.pp_c.specs.Options.{AreOptions, AreStreamOptions};
ghost use Rattle.pp_c.specs.inner.Settings.{setting_in, asking_setting, stream_setting};

use pp_rs::rules::{Profile, Rules};

/// The bytes that [`Options`] take.
pub(crate) const SIZE: u64 = 32;

/// The flag that asks `#include` lines for their texts.
pub(crate) const ASK_INCLUDES: u32 = 1;

/// The flag that says that a source or a text is UTF-8.
pub(crate) const IS_UTF8: u32 = 2;

/// How a source is preprocessed.
#[repr(C)]
#[derive(Clone, Copy)]
pub struct Options {
    /// The bytes that these options take. A later library may know longer ones.
    pub size: u64,
    /// Whose rules the source and the contents of the definitions are read by: 0 for those of pp-rs, and 1, 2 and 3 for
    /// GLSL's of the profile `core`, `compatibility` and `es`.
    pub rules: u32,
    /// The version of GLSL, by its number in `#version`. Those of pp-rs have none.
    pub version: u32,
    /// How many steps the items may take, or 0 if any number.
    pub budget: u64,
    /// After how many items to stop, or 0 at the end. Items that belong to another item don't count.
    pub most_items: u64,
}

/// What options ask for.
#[derive(Clone, Copy)]
pub(crate) struct Setting {
    /// The rules by which the source and the contents of the definitions are read.
    pub(crate) rules: Rules,
    /// How many steps the items may take, if they are bounded.
    pub(crate) budget: Option<u64>,
    /// After how many items to stop, if not at the end.
    pub(crate) most_items: Option<u64>,
    /// How many `#include` lines to pass before the one to stop at, if they ask for texts.
    pub(crate) passes: Option<u64>,
}

impl Setting {
    /// What a call without options asks for.
    pub(crate) const PLAIN: Setting = Setting {
        rules: Rules::PP_RS,
        budget: None,
        most_items: None,
        passes: None,
    };
}

impl Options {
    /// What these options ask for, or `None` if this library doesn't know them.
    pub(crate) fn setting(&self) -> Option<Setting>
        ensures known { IfSome result (λ setting. AreOptions self.now × (setting ≡ setting_in self.now)) }
        ensures unknown { result ≡ None → ¬ (AreOptions self.now) }
    {
        if self.size != SIZE || self.rules > 3 {
            return None;
        }
        Some(Setting {
            rules: rules_numbered(self.rules, self.version),
            budget: unless_zero(self.budget),
            most_items: unless_zero(self.most_items),
            passes: None,
        })
    }

    /// What they ask for in a stream with these flags.
    pub(crate) fn stream_setting(&self, flags: u32) -> Option<Setting>
        ensures known { IfSome result (λ setting.
            AreStreamOptions self.now flags × (setting ≡ stream_setting self.now flags)) }
        ensures unknown { result ≡ None → ¬ (AreStreamOptions self.now flags) }
    {
        if flags > (ASK_INCLUDES | IS_UTF8) || self.most_items != 0 {
            return None;
        }
        let mut setting = self.setting()?;
        if flags & ASK_INCLUDES == ASK_INCLUDES {
            setting.rules = setting.rules.with_includes();
        }
        Some(setting)
    }

    /// What they ask for in a call that asks for texts and stops after so many lines.
    pub(crate) fn asking_setting(&self, passes: u64) -> Option<Setting>
        ensures known { IfSome result (λ setting.
            AreOptions self.now × (setting ≡ asking_setting self.now passes)) }
        ensures unknown { result ≡ None → ¬ (AreOptions self.now) }
    {
        let setting = self.setting()?;
        Some(Setting {
            rules: setting.rules.with_includes(),
            budget: setting.budget,
            most_items: Some(most_asking(self.most_items)),
            passes: Some(passes),
        })
    }
}

/// Whether the flags say that a source or a text is UTF-8.
pub(crate) fn says_text(flags: u32) -> bool
    ensures { result ≡ says_text flags }
{
    flags & IS_UTF8 == IS_UTF8
}

// The rules with this number.
fn rules_numbered(number: u32, version: u32) -> Rules
    ensures { result ≡ rules_numbered number version }
{
    match number {
        1 => Rules::glsl(version as u64, Profile::Core),
        2 => Rules::glsl(version as u64, Profile::Compatibility),
        3 => Rules::glsl(version as u64, Profile::Es),
        _ => Rules::PP_RS,
    }
}

// The count, unless it is 0.
fn unless_zero(count: u64) -> Option<u64>
    ensures { result ≡ unless_zero count }
{
    if count == 0 { None } else { Some(count) }
}

/// After how many items a call stops that names this number, or any number if it is 0.
pub(crate) fn most_asking(most_items: u64) -> u64
    ensures { result ≡ all_unless_zero most_items }
{
    if most_items == 0 {
        u64::MAX
    } else {
        most_items
    }
}
