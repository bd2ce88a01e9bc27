//! The directives of a source, in live and dead text, for messages.

use crate::columns::Columns;
use crate::reading::{TokenReader, read_tokens};
use pp_rs::SOURCE_LIMIT;
use pp_rs::lexer::{Token, TokenValue};
use pp_rs::rules::Rules;
use pp_rs::token::{Location, Punct};
use std::alloc::{AllocError, Global};
use std::collections::BTreeMap;

/// A `#define` of a source.
#[derive(Clone, Copy)]
pub(crate) struct Define {
    /// The place of its name.
    pub location: Location,
    /// The column of its name, in characters from 1.
    pub column: usize,
    /// How many parameters it has, or `None` if it has no `(`.
    pub parameters: Option<usize>,
}

/// The directives of a source.
#[derive(Drop)]
pub(crate) struct Outline {
    alloc: Global,
    // In the order of the source.
    defines: Vec<Define>,
    // For each name the indices of its definitions, rising.
    by_name: BTreeMap<String, Vec<usize>>,
    // The byte offsets of the words `elif`, `else` and `endif` of the lines before which no block is open.
    strays: Vec<u32>,
    // The place of the name in the first macro call that doesn't end.
    unterminated: Option<Location>,
}

impl Outline {
    /// The directives of this text, which is read by these rules. Of one that is too long it has none.
    pub(crate) fn of(alloc: Global, rules: Rules, text: &str) -> Result<Outline, AllocError> {
        let mut outline = Outline {
            alloc,
            defines: Vec::new(alloc),
            by_name: BTreeMap::new(alloc),
            strays: Vec::new(alloc),
            unterminated: None,
        };
        outline.read(rules, text)?;
        Ok(outline)
    }

    // Reads a text, unless it is too long.
    fn read(&mut self, rules: Rules, text: &str) -> Result<(), AllocError> {
        if text.len() >= SOURCE_LIMIT {
            return Ok(());
        }
        let alloc = self.alloc;
        let mut reader = Reader::new(alloc, text, self);
        let end = read_tokens(alloc, rules, text, &mut reader);
        reader.note_unterminated();
        drop(reader);
        end
    }

    /// The place of the name in the first macro call of the source that doesn't end.
    pub(crate) fn unterminated(&self) -> Option<Location> {
        self.unterminated
    }

    /// The names that are defined, each with the byte offset of each definition's name.
    pub(crate) fn names(&self) -> Result<Vec<(&str, u32)>, AllocError> {
        let mut names = Vec::new(self.alloc);
        for (name, indices) in self.by_name.iter() {
            for index in indices.as_slice() {
                if let Some(define) = self.defines.get(*index) {
                    names.push((name.as_str(), define.location.start))?;
                }
            }
        }
        Ok(names)
    }

    /// The last definition of a name before this byte offset.
    pub(crate) fn last_define(&self, name: &str, before: u32) -> Option<Define> {
        let indices = self.by_name.get(name)?;
        let defines = self.defines.as_slice();
        let count = indices
            .as_slice()
            .partition_point(|index| match defines.get(*index) {
                Some(define) => define.location.start < before,
                None => false,
            });
        let last = indices.as_slice().get(count.checked_sub(1)?)?;
        defines.get(*last).copied()
    }

    /// Whether no block is open before the `#elif`, `#else` or `#endif` whose word begins at this byte offset.
    pub(crate) fn is_stray(&self, start: u32) -> bool {
        self.strays.as_slice().binary_search(&start).is_ok()
    }
}

/// How far a line was read.
#[derive(Clone, Copy)]
enum Stage {
    /// Its directive, if it has one, is none that counts here, or was read whole.
    Text,
    /// Up to the `#`.
    Hash,
    /// Up to the word `define`.
    Define,
    /// Up to the name of a definition.
    Name,
    /// Into the parameters of a definition.
    Parameters,
}

/// What reads a source, and notes its outline.
#[derive(Drop)]
struct Reader<'o, 'a> {
    alloc: Global,
    columns: Columns<'a>,
    stage: Stage,
    // How many blocks are open.
    open: usize,
    is_in_directive: bool,
    // The name of a macro with parameters, if the last token is one.
    name: Option<Location>,
    // For each parenthesis of the text that is open the name of the macro that is called by it, if one is.
    calls: Vec<Option<Location>>,
    outline: &'o mut Outline,
}

impl<'o, 'a> TokenReader for Reader<'o, 'a> {
    fn take(&mut self, token: &Token) -> Result<(), AllocError> {
        match token.value {
            TokenValue::Hash if token.start_of_line => self.is_in_directive = true,
            TokenValue::NewLine => self.is_in_directive = false,
            _ if !self.is_in_directive => self.take_text(token)?,
            _ => {}
        }
        self.stage = self.next_stage(token)?;
        Ok(())
    }
}

impl<'o, 'a> Reader<'o, 'a> {
    fn new(alloc: Global, source: &'a str, outline: &'o mut Outline) -> Reader<'o, 'a> {
        Reader {
            alloc,
            columns: Columns::new(source),
            stage: Stage::Text,
            open: 0,
            is_in_directive: false,
            name: None,
            calls: Vec::new(alloc),
            outline,
        }
    }

    // Notes the first call that doesn't end.
    fn note_unterminated(&mut self) {
        self.outline.unterminated = self.calls.iter().find_map(|name| *name);
    }

    // How far the line is read with this token.
    fn next_stage(&mut self, token: &Token) -> Result<Stage, AllocError> {
        Ok(match (self.stage, &token.value) {
            (_, TokenValue::Hash) if token.start_of_line => Stage::Hash,
            (Stage::Hash, TokenValue::Ident(word)) => {
                self.take_directive(word.as_str(), token.location)?
            }
            (Stage::Define, TokenValue::Ident(name)) => {
                self.push_define(name.as_str(), token.location)?;
                Stage::Name
            }
            (Stage::Name, TokenValue::Punct(Punct::LeftParen)) if !token.leading_whitespace => {
                self.count_parameters(0);
                Stage::Parameters
            }
            (Stage::Parameters, TokenValue::Ident(_)) => {
                self.count_parameters(1);
                Stage::Parameters
            }
            (Stage::Parameters, TokenValue::Punct(Punct::Comma)) => Stage::Parameters,
            _ => Stage::Text,
        })
    }

    // Takes a token that isn't on the line of a directive.
    fn take_text(&mut self, token: &Token) -> Result<(), AllocError> {
        let called = self.name.take();
        match &token.value {
            TokenValue::Ident(name) => {
                if self.is_with_parameters(name.as_str(), token.location.start) {
                    self.name = Some(token.location);
                }
            }
            TokenValue::Punct(Punct::LeftParen) => self.calls.push(called)?,
            TokenValue::Punct(Punct::RightParen) => {
                self.calls.pop();
            }
            _ => {}
        }
        Ok(())
    }

    // Whether the last definition of a name before this byte offset has parameters.
    fn is_with_parameters(&self, name: &str, before: u32) -> bool {
        match self.outline.last_define(name, before) {
            Some(define) => define.parameters.is_some(),
            None => false,
        }
    }

    // Takes the word of a directive.
    fn take_directive(&mut self, word: &str, place: Location) -> Result<Stage, AllocError> {
        match word {
            "define" => return Ok(Stage::Define),
            "if" | "ifdef" | "ifndef" => self.open = self.open.saturating_add(1),
            "elif" | "else" | "endif" if self.open == 0 => {
                self.outline.strays.push(place.start)?;
            }
            "endif" => self.open = self.open.saturating_sub(1),
            _ => {}
        }
        Ok(Stage::Text)
    }

    fn push_define(&mut self, name: &str, location: Location) -> Result<(), AllocError> {
        let index = self.outline.defines.len();
        let column = self.columns.column(location.start as usize);
        self.outline.defines.push(Define {
            location,
            column,
            parameters: None,
        })?;
        let name = String::from_str(self.alloc, name)?;
        let entry = self.outline.by_name.entry(name)?;
        entry.or_insert(Vec::new(self.alloc)).push(index)?;
        Ok(())
    }

    fn count_parameters(&mut self, more: usize) {
        if let Some(define) = self.outline.defines.last_mut() {
            let before = define.parameters.unwrap_or(0);
            define.parameters = Some(before.saturating_add(more));
        }
    }
}
