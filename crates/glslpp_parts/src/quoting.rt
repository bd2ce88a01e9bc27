//! Characters in messages.

use std::alloc::AllocError;

/// Appends a character in backquotes, or its number if the character can't be seen.
pub(crate) fn push_char(text: &mut String, c: char) -> Result<(), AllocError> {
    if c.is_control() || is_unseen(c) {
        write!(text, "U+{:04X}", c as u32)
    } else {
        write!(text, "`{c}`")
    }
}

// Blanks other than the space, and marks that only act on others.
fn is_unseen(c: char) -> bool {
    matches!(c, '\u{a0}' | '\u{300}'..='\u{36f}' | '\u{2000}'..='\u{200f}' | '\u{2028}'..='\u{202f}' | '\u{feff}')
}

/// Appends a name between quotation marks, as C writes it: with a backslash before each backslash and mark in it.
pub(crate) fn push_quoted(text: &mut String, name: &str) -> Result<(), AllocError> {
    text.push('"')?;
    for c in name.chars() {
        if c == '"' || c == '\\' {
            text.push('\\')?;
        }
        text.push(c)?;
    }
    text.push('"')
}

/// Whether it is a typographic quote, which word processors write for `"` and `'`.
pub(crate) fn is_typographic_quote(c: char) -> bool {
    matches!(c, '\u{2018}'..='\u{201f}')
}

/// Whether an ASCII name can have it.
pub(crate) fn is_name_char(c: char) -> bool {
    c == '_' || c.is_ascii_alphanumeric()
}
