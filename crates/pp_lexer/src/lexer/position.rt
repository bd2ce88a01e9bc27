//! Byte offsets as lines and columns.

ghost use Rattle.std.specs.Prelude.{◌≡◌, ◌-◌, ◌^◌, ◌<◌, ◌↔◌, length, IsSome, IfSome};
ghost use Rattle.std.specs.Str.{chars};
ghost use Rattle.pp_lexer.specs.Lines.{lines};
ghost use Rattle.pp_lexer.specs.Positions.{line_column};
ghost use Rattle.pp_lexer.specs.inner.Positions.{position_from};

use crate::lexer::SOURCE_LIMIT;
use crate::lexer::chars_and_line::CharsAndLine;

/// Returns the line and the column of a byte of the source, both from 1, or `None` for a source of
/// [`SOURCE_LIMIT`] bytes or more. pp-rs 0.2.1 has no such function.
///
/// Lines are those of [`Location`](crate::token::Location), and columns count characters. A byte
/// inside a character is at that character, and an offset past the source is at its end.
pub fn line_column(source: &str, offset: usize) -> Option<(u32, u32)>
    ensures short { IsSome result ↔ (length source.now < 2 ^ 32 - 1) }
    ensures value { IfSome result (λ position. position ≡ line_column source.now offset) }
{
    if source.len() >= SOURCE_LIMIT {
        return None;
    }
    Some(position(source, offset))
}

// The line and the column of a byte.
fn position(source: &str, offset: usize) -> (u32, u32)
    requires { length source.now < 2 ^ 32 - 1 }
    ensures { result ≡ position_from 1 1 offset (lines (chars source.now)) }
{
    let mut reader = CharsAndLine::new(source);
    let (mut line, mut column) = (1, 1);
    'characters: while let Some((current, _)) = reader.next_item() {
        if reader.get_current_offset() > offset {
            return (line, column);
        }
        if current == '\n' {
            line += 1;
            column = 1;
        } else {
            column += 1;
        }
    }
    (line, column)
}
