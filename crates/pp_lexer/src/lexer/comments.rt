//! The places of the comments of a source.

ghost use Rattle.std.specs.Prelude.{◌≡◌, ◌-◌, ◌^◌, ◌<◌, ◌↔◌, length, IsSome, IfSome};
ghost use Rattle.std.specs.Iterator.{at_most};
ghost use Rattle.pp_lexer.specs.CommentPlaces.{marks_from, comment_places, first_place, after_first};

use crate::lexer::SOURCE_LIMIT;
use crate::lexer::replace_comments::{COMMENT_SENTINEL_VALUE, ReplaceComments};
use crate::token::Location;
use std::marker::Model;

/// An iterator of the places of the comments of a source, in order. pp-rs 0.2.1 has no such
/// iterator.
///
/// A comment is what [`ReplaceComments`] replaces by a mark. Its place begins where the character
/// before it ends, so it includes a continuation right before the comment, and ends after the
/// comment's last character. The newline after a `//` comment is outside. Its line is that of its
/// first slash. Places are byte offsets and 1-based lines.
///
/// It allocates nothing, and after its `None` stays at its end.
#[derive(Drop)]
pub struct Comments<'a> {
    inner: ReplaceComments<'a>,
}

impl<'a> Model for Comments<'a> {
    ghost use Rattle.std.specs.Prelude.{List};
    ghost use Rattle.pp_lexer.specs.CommentPlaces.{marks_from};
    ghost use Rattle.pp_lexer.specs.declared.token.Location.{Location};

    ghost Value = { List Location };

    ghost view = { λ s. marks_from s.inner.offset s.inner.rest };
}

// The place of the next comment.
fn next_comment(inner: &mut ReplaceComments<'_>) -> Option<Location>
    ensures value { result ≡ first_place (marks_from inner.old.offset inner.old.rest) }
    ensures state { marks_from inner.new.offset inner.new.rest
        ≡ after_first (marks_from inner.old.offset inner.old.rest) }
{
    'characters: loop {
        let start = inner.get_current_offset();
        let (current, line) = inner.next_item()?;
        let end = inner.get_current_offset();
        if current == COMMENT_SENTINEL_VALUE {
            return Some(Location {
                start: start as u32,
                end: end as u32,
                line,
            });
        }
    }
}

impl<'a> Comments<'a> {
    /// Returns an iterator of the comments of a source of fewer than 2^32 - 1 bytes. It reads
    /// nothing yet.
    pub fn new(input: &'a str) -> Self
        requires { length input.now < 2 ^ 32 - 1 }
        ensures { result ≡ comment_places input.now }
    {
        Comments {
            inner: ReplaceComments::new(input),
        }
    }

    /// Does the same as `new`, but returns `None` for a longer source.
    pub fn try_new(input: &'a str) -> Option<Self>
        ensures short { IsSome result ↔ (length input.now < 2 ^ 32 - 1) }
        ensures value { IfSome result (λ comments. comments ≡ comment_places input.now) }
    {
        if input.len() >= SOURCE_LIMIT {
            return None;
        }
        Some(Comments::new(input))
    }
}

impl<'a> Iterator for Comments<'a> {
    type Item = Location;

    ghost next_gives = { λ s r t. (r ≡ first_place s) × (t ≡ after_first s) };

    ghost remaining = { λ s. at_most (length s) };

    fn next(&mut self) -> Option<Location> {
        next_comment(&mut self.inner)
    }
}
