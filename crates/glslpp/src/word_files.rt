//! Words of the command line in files.

use glslpp_parts::failure::{Failure, failure_of};
use glslpp_parts::word_file::words_of_file;
use std::alloc::Global;
use std::fs;

// How many files of words are read at most.
const MOST_FILES: usize = 200;

/// Puts the words of its file in place of each word `@FILE` after the first. Such a word in a file is replaced too, and
/// one whose file can't be read stays as it is, as with gcc. It fails at a file that isn't UTF-8, and at the 201st.
pub(crate) fn expand_words(rt: &HostRuntime, words: &mut Vec<String>) -> Result<(), Failure> {
    for _ in 0..MOST_FILES {
        if !expand_first(rt, words)? {
            return Ok(());
        }
    }
    Err(failure_of(rt.alloc(), "@FILE", "more than 200 files of words"))
}

// Replaces the first such word, and returns whether there was one.
fn expand_first(rt: &HostRuntime, words: &mut Vec<String>) -> Result<bool, Failure> {
    for index in 1..words.len() {
        let Some(word) = words.get(index) else {
            return Ok(false);
        };
        if let Some(found) = read_words(rt, word.as_str())? {
            drop(words.splice(index..=index, found)?);
            return Ok(true);
        }
    }
    Ok(false)
}

// The words of the file that the word names, if it names one, without a byte order mark before them.
fn read_words(rt: &HostRuntime, word: &str) -> Result<Option<Vec<String>>, Failure> {
    let Some(file) = word.strip_prefix('@') else {
        return Ok(None);
    };
    let Ok(bytes) = fs::read(rt, file) else {
        return Ok(None);
    };
    let words = words_in(rt.alloc(), word, bytes.as_slice());
    drop(bytes);
    Ok(Some(words?))
}

// The words of the file that a word names.
fn words_in(alloc: Global, word: &str, file: &[u8]) -> Result<Vec<String>, Failure> {
    match str::from_utf8(file) {
        Ok(text) => Ok(words_of_file(alloc, text.strip_prefix('\u{feff}').unwrap_or(text))?),
        Err(_) => Err(failure_of(alloc, word, "the file isn't UTF-8")),
    }
}
