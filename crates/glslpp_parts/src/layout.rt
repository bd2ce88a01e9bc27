//! Words on their lines.

ghost use Rattle.std.specs.Prelude.{◌≡◌, ◌++◌, [], false, IsTrue, OnOk, IfOk, string_bytes};
ghost use Rattle.std.proofs.Math.ListN.{replicate};
ghost use Rattle.glslpp_parts.specs.Layout.{at_line, with_word, on_line, on_next_line, with_directive, with_mark};
ghost use Rattle.glslpp_parts.specs.Layout.{finished};

use std::alloc::{AllocError, Global};
use std::marker::Model;

/// Whether there is a space between a word and the one before it.
#[derive(Clone, Copy, PartialEq, Eq)]
pub enum Gap {
    /// A space.
    Space,
    /// Nothing.
    Nothing,
}

/// A text to which words are appended, each on its line as long as line numbers rise.
#[derive(Drop)]
pub struct Layout {
    text: String,
    line: u32,
    is_line_begun: bool,
}

impl Model for Layout {
    ghost use Rattle.std.specs.Prelude.{string_bytes};
    ghost use Rattle.glslpp_parts.specs.Layout.{Laid};

    ghost Value = { Laid };

    ghost view = { λ l. record { text = string_bytes l.text; line = l.line; is_line_begun = l.is_line_begun } };
}

impl Layout {
    /// Returns an empty layout, on line 1.
    pub fn new(alloc: Global) -> Layout
        ensures { result ≡ record { text = []; line = 1; is_line_begun = false } }
    {
        Layout {
            text: String::new(alloc),
            line: 1,
            is_line_begun: false,
        }
    }

    /// The text.
    pub fn text(&self) -> &str {
        self.text.as_str()
    }

    /// Returns the line on which the text ends.
    pub fn line(&self) -> u32
        ensures { result ≡ self.now.line }
    {
        self.line
    }

    /// Appends a word on its line, or after the last word if the text is already past that line.
    #[inline(always)]
    pub fn push_word(&mut self, line: u32, gap: Gap, word: &str) -> Result<(), AllocError>
        ensures { OnOk result (self.new ≡ on_line self.old line gap word.now) }
    {
        self.go_to(line)?;
        self.append(gap, word)
    }

    // Appends a word.
    #[inline(always)]
    fn append(&mut self, gap: Gap, word: &str) -> Result<(), AllocError>
        ensures { OnOk result (self.new ≡ with_word self.old gap word.now) }
    {
        if self.is_line_begun && gap == Gap::Space {
            self.text.push(' ')?;
        }
        push_text(&mut self.text, word)?;
        self.is_line_begun = true;
        Ok(())
    }

    /// Whether the text has come to this line, and has memory for one letter more.
    #[inline(always)]
    pub(crate) fn takes_letter(&self, line: u32) -> bool
        ensures { IsTrue result → at_line self.now line ≡ self.now }
    {
        line <= self.line && self.text.len() < self.text.capacity()
    }

    /// Appends a word to the last line, without a gap.
    #[inline(always)]
    pub(crate) fn push_beside(&mut self, word: &str) -> Result<(), AllocError>
        ensures { OnOk result (self.new ≡ with_word self.old Gap.Nothing word.now) }
    {
        push_text(&mut self.text, word)?;
        self.is_line_begun = true;
        Ok(())
    }

    /// Appends a directive on a line of its own.
    pub fn push_directive(&mut self, line: u32, word: &str) -> Result<(), AllocError>
        ensures { OnOk result (self.new ≡ with_directive self.old line word.now) }
    {
        if self.is_line_begun {
            self.go_on()?;
        }
        self.push_word(line, Gap::Space, word)?;
        self.go_on()
    }

    /// Appends a line of its own, by which the line after it is this one.
    pub fn push_mark(&mut self, mark: &str, line: u32) -> Result<(), AllocError>
        ensures { OnOk result (self.new ≡ with_mark self.old mark.now line) }
    {
        if self.is_line_begun {
            self.text.push('\n')?;
        }
        self.text.push_str(mark)?;
        self.text.push('\n')?;
        self.line = line;
        self.is_line_begun = false;
        Ok(())
    }

    // Moves to the next line.
    fn go_on(&mut self) -> Result<(), AllocError>
        ensures { OnOk result (self.new ≡ on_next_line self.old) }
    {
        if self.line == u32::MAX {
            return Ok(());
        }
        self.go_to(self.line + 1)
    }

    // Moves to the line, if it lies ahead.
    #[inline(always)]
    fn go_to(&mut self, line: u32) -> Result<(), AllocError>
        ensures { OnOk result (self.new ≡ at_line self.old line) }
    {
        if line > self.line {
            push_line_ends(&mut self.text, line - self.line)?;
            self.line = line;
            self.is_line_begun = false;
        }
        Ok(())
    }

    /// Returns the text, with a final line end if its last line has a word.
    pub fn finish(mut self) -> Result<String, AllocError>
        ensures { IfOk result (λ text. string_bytes text ≡ finished self) }
    {
        if self.is_line_begun {
            self.text.push('\n')?;
        }
        Ok(self.text)
    }
}

// Appends a text. Many words have one character, for which no text is copied.
#[inline(always)]
fn push_text(text: &mut String, word: &str) -> Result<(), AllocError>
    ensures { OnOk result (string_bytes text.new ≡ string_bytes text.old ++ word.now) }
{
    let bytes = word.as_bytes();
    if bytes.len() == 1 && bytes[0] < 128 {
        return text.push(bytes[0] as char);
    }
    text.push_str(word)
}

#[inline(never)]
fn push_line_ends(text: &mut String, count: u32) -> Result<(), AllocError>
    ensures { OnOk result (string_bytes text.new ≡ string_bytes text.old ++ replicate count 10) }
{
    for done in 0..count {
        text.push('\n')?;
    }
    Ok(())
}
