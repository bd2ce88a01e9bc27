//! The text of a source, from the bytes of its file.

ghost use Rattle.std.specs.Prelude.{◌≡◌, [], IfOk, string_bytes};
ghost use Rattle.std.specs.Str.{IsUtf8};
ghost use Rattle.glslpp_parts.specs.Texts.{IsAfterMark};

use std::alloc::{AllocError, Global};

// The mark that a text in UTF-8 may begin with, U+FEFF.
const MARK: &[u8] = b"\xef\xbb\xbf";

// What stands for a byte that isn't UTF-8: the character SUB, of one byte. GLSL allows any bytes in comments (GLSL ES
// 3.20, 3.1), and this character is refused elsewhere.
const SUBSTITUTE: char = '\x1a';

/// The text of a source.
#[derive(Drop)]
pub struct Source {
    /// The text as the file has it, with the character SUB for each byte that isn't UTF-8.
    pub whole: String,
    /// The byte offsets of these bytes in [`Source::text`], rising.
    pub replaced: Vec<usize>,
}

impl Source {
    /// Returns the text of the bytes of a file.
    pub fn from_bytes(alloc: Global, bytes: Vec<u8>) -> Result<Source, AllocError>
        ensures whole { IfOk result (λ source. IsUtf8 bytes.items → string_bytes source.whole ≡ bytes.items) }
        ensures none_replaced { IfOk result (λ source. IsUtf8 bytes.items → source.replaced.items ≡ []) }
    {
        match String::from_utf8(bytes) {
            Ok(whole) => Ok(Source {
                whole,
                replaced: Vec::new(alloc),
            }),
            Err(error) => Source::with_substitutes(alloc, error.as_bytes()),
        }
    }

    // The text of bytes that aren't all UTF-8.
    fn with_substitutes(alloc: Global, bytes: &[u8]) -> Result<Source, AllocError> {
        let mark = if bytes.starts_with(MARK) {
            MARK.len()
        } else {
            0
        };
        let mut whole = String::new(alloc);
        let mut replaced = Vec::new(alloc);
        for chunk in bytes.utf8_chunks() {
            whole.push_str(chunk.valid())?;
            for _ in chunk.invalid() {
                replaced.push(whole.len().saturating_sub(mark))?;
                whole.push(SUBSTITUTE)?;
            }
        }
        Ok(Source { whole, replaced })
    }

    /// The text without the mark of UTF-8 at its start.
    pub fn text(&self) -> &str
        ensures { IsAfterMark (string_bytes self.now.whole) result.now }
    {
        let whole = self.whole.as_str();
        match whole.strip_prefix('\u{feff}') {
            Some(rest) => rest,
            None => whole,
        }
    }
}
