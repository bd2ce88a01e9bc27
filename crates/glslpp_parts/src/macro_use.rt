//! Where a macro was used from which an error comes.

ghost use Rattle.std.specs.Prelude.{◌≡◌, IfOk, option_map};

use crate::diagnostic::Site;
use crate::texts::Texts;
use pp_rs::pp::Origin;
use std::alloc::{AllocError, Global};

/// A use of a macro, in the text or on the line of a directive.
#[derive(Drop)]
pub struct MacroUse<'a> {
    /// The 1-based line of the call, as a token that the macro gives has it.
    pub line: u32,
    /// The number of the text of the call.
    pub text: u32,
    /// What is said of it.
    pub message: String,
    /// Where the macro's name is.
    pub site: Site<'a>,
}

impl<'a> MacroUse<'a> {
    /// Returns the use of the macro from which an item with this origin comes, or `None` if it comes from no macro.
    pub fn of(
        alloc: Global,
        texts: &Texts<'a>,
        origin: Origin,
    ) -> Result<Option<MacroUse<'a>>, AllocError>
        ensures { IfOk result (λ used. option_map (λ found. found.line) used
            ≡ option_map (λ call. call.line) origin.call) }
    {
        let Some(call) = origin.call else {
            return Ok(None);
        };
        let site = Site::of(texts, call.text, call.name);
        let name = site.place().map_or("", |place| place.here);
        Ok(Some(MacroUse {
            line: call.line,
            text: call.text,
            message: format!(in alloc; "in expansion of macro `{name}`")?,
            site,
        }))
    }
}
