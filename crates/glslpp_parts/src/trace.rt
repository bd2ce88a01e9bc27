//! What a page shows of the tokens: what the uses of macros became, and what is printed for each line.

use crate::macro_uses::MacroUses;
use pp_rs::pp::{TokenRef, TokenSink};
use std::alloc::{AllocError, Global};

/// What is printed for a line of a text.
#[derive(Drop)]
pub struct PrintedLine {
    /// The number of the text.
    pub text: u32,
    /// The line.
    pub line: u32,
    /// The words that are printed for it.
    pub words: String,
}

/// What a page shows of the tokens so far.
#[derive(Drop)]
pub struct Trace {
    alloc: Global,
    /// The uses of macros that gave tokens.
    pub uses: MacroUses,
    /// What is printed for lines, in its order. A line may be there more than once.
    pub lines: Vec<PrintedLine>,
}

impl Trace {
    /// Nothing yet.
    pub fn new(alloc: Global) -> Trace {
        Trace {
            alloc,
            uses: MacroUses::new(alloc),
            lines: Vec::new(alloc),
        }
    }

    // Takes a token on a line of a text, with what was printed for it, which ends with its word.
    pub(crate) fn add(
        &mut self,
        token: TokenRef<'_>,
        text: u32,
        line: u32,
        printed: &str,
    ) -> Result<(), AllocError> {
        self.uses.take(token)?;
        let word = match printed.rsplit_once('\n') {
            Some((_, word)) => word,
            None => printed,
        };
        self.add_words(text, line, word)
    }

    // Takes what was printed for a line of a text, with the blank before it.
    pub(crate) fn add_words(
        &mut self,
        text: u32,
        line: u32,
        words: &str,
    ) -> Result<(), AllocError> {
        if let Some(last) = self.lines.last_mut()
            && last.text == text
            && last.line == line
        {
            return last.words.push_str(words);
        }
        let words = String::from_str(self.alloc, words.trim_start())?;
        self.lines.push(PrintedLine { text, line, words })?;
        Ok(())
    }
}
