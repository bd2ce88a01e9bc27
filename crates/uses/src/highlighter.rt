//! A source as HTML, with its comments, numbers and errors marked.

ghost use Rattle.std.specs.Prelude.{◌≡◌, ◌++◌, true, OnOk, IfOk, length, string_bytes};
ghost use Rattle.std.specs.Str.{chars};
ghost use Rattle.uses.specs.Pages.{IsWritten, Shows, escaped_character, stay_in_tag};

use pp_rs::lexer::{Comments, Lexer, LexerItem, TokenValue};
use std::alloc::{AllocError, Global};

// What was written of a source, up to a byte of it.
#[derive(Drop)]
struct Page<'a> {
    text: String,
    source: &'a str,
    done: usize,
}

/// A source as HTML. One that is too long for the lexer is not marked.
pub fn highlight(alloc: Global, source: &str) -> Result<String, AllocError>
    ensures { IfOk result (λ text. Shows (chars (string_bytes text)) (chars source.now)) }
{
    let mut page = Page {
        text: String::new(alloc),
        source,
        done: 0,
    };
    if let Some(lexer) = Lexer::try_new(alloc, source) {
        page.mark_tokens(lexer)?;
    }
    page.push_gap(source.len())?;
    Ok(page.text)
}

// The class of what the lexer gives, or the empty text for what isn't marked.
fn class_of(item: &LexerItem) -> &'static str
    ensures { stay_in_tag (chars result.now) ≡ true }
{
    match item {
        Ok(token) => match &token.value {
            TokenValue::Integer(_) | TokenValue::Float(_) => "number",
            TokenValue::Hash => "directive",
            _ => "",
        },
        Err(_) => "error",
    }
}

// Writes a character.
fn push_escaped(text: &mut String, c: char) -> Result<(), AllocError>
    ensures { OnOk result (chars (string_bytes text.new) ≡ chars (string_bytes text.old) ++ escaped_character c) }
{
    match c {
        '<' => text.push_str("&lt;"),
        '&' => text.push_str("&amp;"),
        _ => text.push(c),
    }
}

impl<'a> Page<'a> {
    // Writes the source up to its last token, and marks what the lexer gives.
    fn mark_tokens(&mut self, mut lexer: Lexer<'_>) -> Result<(), AllocError>
        requires { IsWritten self.old }
        ensures written { OnOk result (IsWritten self.new) }
        ensures source { OnOk result (self.new.source.now ≡ self.old.source.now) }
    {
        'items: while let Some(item) = lexer.next() {
            let place = lexer.place();
            self.push_gap(place.start as usize)?;
            self.mark(place.start as usize, place.end as usize, class_of(&item))?;
        }
        Ok(())
    }

    // Writes the blanks and comments up to a byte, and marks the comments.
    fn push_gap(&mut self, end: usize) -> Result<(), AllocError>
        requires { IsWritten self.old }
        ensures written { OnOk result (IsWritten self.new) }
        ensures source { OnOk result (self.new.source.now ≡ self.old.source.now) }
        ensures whole { OnOk result (end ≡ length self.old.source.now → self.new.done ≡ end) }
    {
        let start = self.done;
        let gap = self.source.get(start..end).unwrap_or("");
        if let Some(comments) = Comments::try_new(gap) {
            'comments: for place in comments {
                let first = start.saturating_add(place.start as usize);
                let behind = start.saturating_add(place.end as usize);
                self.mark(first, behind, "comment")?;
            }
        }
        self.push_up_to(end)
    }

    // Writes the source up to a byte, and marks what comes after another byte.
    fn mark(&mut self, start: usize, end: usize, class: &str) -> Result<(), AllocError>
        requires written { IsWritten self.old }
        requires class { stay_in_tag (chars class.now) ≡ true }
        ensures written { OnOk result (IsWritten self.new) }
        ensures source { OnOk result (self.new.source.now ≡ self.old.source.now) }
    {
        if class.is_empty() {
            return self.push_up_to(end);
        }
        self.push_up_to(start)?;
        write!(self.text, "<span class=\"{class}\">")?;
        self.push_up_to(end)?;
        self.text.push_str("</span>")
    }

    // Writes the source up to a byte, unless more of it is written.
    fn push_up_to(&mut self, end: usize) -> Result<(), AllocError>
        requires { IsWritten self.old }
        ensures written { OnOk result (IsWritten self.new) }
        ensures source { OnOk result (self.new.source.now ≡ self.old.source.now) }
        ensures whole { OnOk result (end ≡ length self.old.source.now → self.new.done ≡ end) }
    {
        let piece = self.source.get(self.done..end).unwrap_or("");
        'characters: for c in piece.chars() {
            push_escaped(&mut self.text, c)?;
        }
        self.done += piece.len();
        Ok(())
    }
}
