//! Identifiers.

ghost use Rattle.std.specs.Prelude.{◌≡◌, ◌++◌, IsTrue, IfOk, OnOk, take};
ghost use Rattle.unicode_ident.specs.Ident.{is_xid_continue};
ghost use Rattle.pp_lexer.specs.Identifiers.{is_identifier, begins_identifier};
ghost use Rattle.pp_lexer.specs.Longest.{longest, front_len};
ghost use Rattle.pp_lexer.specs.Reading.{letters, advanced};

use crate::lexer::char_iterator::LexerCharIterator;
use crate::token::Text;
use std::alloc::{AllocError, Global};
use unicode_ident::is_xid_continue as continues;

// Takes the characters that may continue an identifier.
fn take_continue(text: &mut Text, inner: &mut LexerCharIterator<'_>) -> Result<(), AllocError>
    ensures text { OnOk result (text.new
        ≡ text.old ++ take (front_len is_xid_continue (letters inner.old.rest))
        (letters inner.old.rest)) }
    ensures state { OnOk result (inner.new
        ≡ advanced (front_len is_xid_continue (letters inner.old.rest)) inner.old) }
{
    'letters: loop {
        let Some(c) = inner.peek_char() else {
            return Ok(());
        };
        if !continues(c) {
            return Ok(());
        }
        text.push(c)?;
        inner.next_char();
    }
}

/// Takes the longest identifier here. The only error is that its text could not be allocated. Some of its characters
/// may have been taken then.
pub fn parse_identifier(
    alloc: Global,
    inner: &mut LexerCharIterator<'_>,
) -> Result<Text, AllocError>
    requires { IsTrue (begins_identifier (letters inner.old.rest)) }
    ensures text { IfOk result (λ t. t ≡ take (longest is_identifier (letters inner.old.rest))
        (letters inner.old.rest)) }
    ensures state { OnOk result (inner.new
        ≡ advanced (longest is_identifier (letters inner.old.rest)) inner.old) }
{
    let mut text = Text::new(alloc);
    let Some(first) = inner.next_char() else {
        unreachable!()
    };
    text.push(first)?;
    take_continue(&mut text, inner)?;
    Ok(text)
}
