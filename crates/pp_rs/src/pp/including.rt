//! Texts that are included.

ghost use Rattle.std.specs.Prelude.{◌≡◌, ◌-◌, ◌^◌, ◌<◌, Some, length};
ghost use Rattle.pp_rs.specs.Including.{IsIncluded, IsTriedInclude, include_sentence};
ghost use Rattle.pp_rs.specs.Kept.{asked_line};

use crate::SOURCE_LIMIT;
use crate::pp::preprocessor::Preprocessor;
use crate::token::Location;
use pp_directives::limit::INCLUDE_LIMIT;
use std::error::Error;
use std::{fmt, io};

/// Why a text was not included.
#[derive(PartialEq, Eq, Debug, Clone, Copy, Drop)]
pub enum IncludeError {
    /// The text has [`SOURCE_LIMIT`] bytes or more.
    TooLong,
    /// 200 texts are around already.
    TooDeep,
    /// An allocation failed.
    OutOfMemory,
}

impl fmt::Display for IncludeError {
    ghost output = { λ e. Some (include_sentence e) };

    fn fmt<W: fmt::Write>(&self, f: &mut fmt::Formatter<W>) -> fmt::Result {
        f.write_str(match self {
            IncludeError::TooLong => "the text is too long",
            IncludeError::TooDeep => "texts are included more than 200 deep",
            IncludeError::OutOfMemory => "an allocation failed",
        })
    }
}

impl Error for IncludeError {}

impl<'a> Preprocessor<'a> {
    /// Returns the place of the rest of the line of an `#include` that the last call of `next` returned: from the end
    /// of the word to the line's end, with blanks and comments, in byte offsets and a 1-based line of the text that
    /// [`origin`](Preprocessor::origin) says.
    ///
    /// That call returned the error `UnknownDirective` at the word. It is `None` after anything else, and by rules
    /// without [`Rules::with_includes`](crate::rules::Rules::with_includes). An `#include` line in the arguments of a
    /// call is an error that asks for nothing.
    pub fn include_line(&self) -> Option<Location>
        ensures { result ≡ asked_line self.now }
    {
        self.last.asks()
    }

    /// Makes the text come next. Behind its end reading goes on where it was.
    ///
    /// Called after `next` returned an `#include` line, it puts the text in place of that line; a caller that doesn't
    /// call it goes on after the line. It may also be called at any other time: what was already found in the search
    /// for the `(` of a call comes first then. Definitions are of all texts. Blocks are a text's own: one that is open
    /// at the text's end is the error `UnfinishedBlock`, and no `#else`, `#elif` or `#endif` meets a block of the text
    /// around. What `#line` says holds to the end of its text.
    ///
    /// The text must have fewer than 2^32 - 1 bytes; [`origin`](Preprocessor::origin) has the next number for it, of
    /// those that contents have too. It is copied nowhere, and read by the preprocessor's rules. The errors are
    /// `TooDeep`, if 200 texts are around what is read, and `OutOfMemory`, also if memory ran out for an item. After an
    /// error nothing is changed.
    pub fn include(&mut self, text: &'a str) -> Result<(), IncludeError>
        requires { length text.now < 2 ^ 32 - 1 }
        ensures { IsIncluded self.old text.now result self.new }
    {
        if self.is_spent() {
            return Err(IncludeError::OutOfMemory);
        }
        if self.source.depth() >= INCLUDE_LIMIT {
            return Err(IncludeError::TooDeep);
        }
        if self.source.include(text).is_err() {
            return Err(IncludeError::OutOfMemory);
        }
        self.expander.forget_end();
        self.last.set_end();
        self.in_text = false;
        Ok(())
    }

    /// Does the same as `include`, but returns `TooLong` for a text of [`SOURCE_LIMIT`] bytes or more.
    pub fn try_include(&mut self, text: &'a str) -> Result<(), IncludeError>
        ensures { IsTriedInclude self.old text.now result self.new }
    {
        if text.len() >= SOURCE_LIMIT {
            return Err(IncludeError::TooLong);
        }
        self.include(text)
    }
}
