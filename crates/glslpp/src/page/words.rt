//! The numbers, directives and names of macros that are marked in a text.

use crate::page::Sight;
use crate::page::defined::Defined;
use crate::page::marks::plain_mark;
use crate::page::sheet::Sheet;
use glslpp_html::source::{Class, Mark, Note};
use glslpp_parts::condition::{Branch, BranchWord};
use pp_rs::lexer::{Lexer, LexerItem, Token, TokenValue};
use pp_rs::token::{Location, PreprocessorError};
use std::alloc::{AllocError, Global};

/// Returns the token of an item, or `None` for an error of the text.
pub(crate) fn token_of(item: LexerItem) -> Result<Option<Token>, AllocError> {
    match item {
        Ok(token) => Ok(Some(token)),
        Err((error, _)) => {
            let is_of_text = !matches!(error, PreprocessorError::OutOfMemory);
            drop(error);
            if is_of_text {
                Ok(None)
            } else {
                Err(AllocError)
            }
        }
    }
}

// The words of a text so far.
#[derive(Drop)]
struct Words<'m> {
    alloc: Global,
    // The number of the text.
    number: u32,
    // What is marked there already, in its order.
    marked: &'m [Mark],
    // The byte offset of the `#` before the next word.
    hash: Option<usize>,
    marks: Vec<Mark>,
}

impl<'m> Words<'m> {
    // Whether a mark begins at a byte offset already.
    fn is_marked(&self, start: u32) -> bool {
        let before = self
            .marked
            .partition_point(|mark| mark.start < start as usize);
        match self.marked.get(before) {
            Some(mark) => mark.start == start as usize,
            None => false,
        }
    }

    fn push(&mut self, start: usize, end: usize, class: Class) -> Result<(), AllocError> {
        self.marks.push(plain_mark(self.alloc, start, end, class))?;
        Ok(())
    }
}

impl<'p, 'a> Sight<'p, 'a> {
    /// Appends marks for the words of a file, which has these marks already, in their order.
    pub(crate) fn push_words(
        &self,
        marks: &mut Vec<Mark>,
        sheet: &Sheet<'_>,
    ) -> Result<(), AllocError> {
        let mut words = Words {
            alloc: self.alloc,
            number: sheet.number,
            marked: marks.as_slice(),
            hash: None,
            marks: Vec::new(self.alloc),
        };
        self.find_words(&mut words, sheet.file.text)?;
        let Words {
            marks: mut found,
            ..
        } = words;
        marks.append(&mut found)
    }

    fn find_words(&self, words: &mut Words<'_>, text: &str) -> Result<(), AllocError> {
        let Some(mut lexer) = Lexer::try_with_rules(self.alloc, text, self.rules) else {
            return Ok(());
        };
        let end = self.take_items(words, &mut lexer);
        drop(lexer);
        end
    }

    fn take_items(&self, words: &mut Words<'_>, lexer: &mut Lexer<'_>) -> Result<(), AllocError> {
        'words: while let Some(item) = lexer.next() {
            self.take_item(words, item)?;
        }
        Ok(())
    }

    fn take_item(&self, words: &mut Words<'_>, item: LexerItem) -> Result<(), AllocError> {
        let token = token_of(item)?;
        let end = match &token {
            Some(token) => self.take_token(words, token),
            None => {
                words.hash = None;
                Ok(())
            }
        };
        drop(token);
        end
    }

    // Takes the next token, which may be the word of a directive.
    fn take_token(&self, words: &mut Words<'_>, token: &Token) -> Result<(), AllocError> {
        let hash = words.hash.take();
        match (&token.value, hash) {
            (TokenValue::Hash, _) if token.start_of_line => {
                words.hash = Some(token.location.start as usize);
                Ok(())
            }
            (TokenValue::Ident(_), Some(first)) => self.take_word(words, first, token.location),
            (TokenValue::Ident(name), None) => self.take_name(words, name.as_str(), token.location),
            (TokenValue::Integer(_) | TokenValue::Float(_), _) => words.push(
                token.location.start as usize,
                token.location.end as usize,
                Class::Number,
            ),
            _ => Ok(()),
        }
    }

    // Takes the word of a directive whose `#` is at a byte offset. That of an `#include` is marked already, by what it
    // includes.
    fn take_word(
        &self,
        words: &mut Words<'_>,
        first: usize,
        word: Location,
    ) -> Result<(), AllocError> {
        if words.is_marked(word.start) {
            return words.push(first, word.start as usize, Class::Directive);
        }
        words.push(first, word.end as usize, Class::Directive)?;
        match words.marks.last_mut() {
            Some(mark) => self.push_block(&mut mark.title, words.number, word.start),
            None => Ok(()),
        }
    }

    // Takes a name, if it is a macro that isn't marked yet.
    fn take_name(
        &self,
        words: &mut Words<'_>,
        name: &str,
        place: Location,
    ) -> Result<(), AllocError> {
        if words.is_marked(place.start) {
            return Ok(());
        }
        match self.defined_elsewhere(name, words.number, place.start) {
            Some(defined) => self.push_macro(&mut words.marks, words.number, name, place, defined),
            None => Ok(()),
        }
    }

    /// Appends a mark for a macro at a place of a text, which shows its definition.
    pub(crate) fn push_macro(
        &self,
        marks: &mut Vec<Mark>,
        number: u32,
        name: &str,
        place: Location,
        defined: Defined<'_>,
    ) -> Result<(), AllocError> {
        let (start, end) = (place.start as usize, place.end as usize);
        marks.push(plain_mark(self.alloc, start, end, Class::Macro))?;
        match marks.last_mut() {
            Some(mark) => self.push_definition(&mut mark.title, name, defined, number),
            None => Ok(()),
        }
    }

    // Appends the directive that begins the block of the one whose word begins at a byte offset of a text, if that goes
    // on with a block or ends it.
    fn push_block(&self, title: &mut Note, number: u32, start: u32) -> Result<(), AllocError> {
        match first_of_block(self.conditions.branches(number), start) {
            Some(first) => {
                self.sheets
                    .push_directive(title, number, first.start, first.end, number)
            }
            None => Ok(()),
        }
    }
}

// The directive that begins a block of the one whose word begins at a byte offset, if that goes on with it or ends it.
fn first_of_block(branches: &[Branch], start: u32) -> Option<&Branch> {
    let branch = branches.get(branches.partition_point(|branch| branch.start < start))?;
    if branch.start != start || !goes_on(branch) {
        return None;
    }
    branches.get(branch.first)
}

fn goes_on(branch: &Branch) -> bool {
    matches!(
        branch.word,
        BranchWord::Elif | BranchWord::Else | BranchWord::Endif
    )
}
