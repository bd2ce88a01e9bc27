//! The line of a directive, token by token, for messages.

ghost use Rattle.std.specs.Prelude.{◌-◌, ◌^◌, ◌<◌, length};

use crate::diagnostic::Site;
use crate::place::Place;
use pp_rs::SOURCE_LIMIT;
use pp_rs::lexer::{Lexer, LexerItem, Token, TokenValue};
use pp_rs::rules::Rules;
use pp_rs::token::{PreprocessorError, Punct};
use std::alloc::{AllocError, Global};

/// A line of a file that begins with `#`.
#[derive(Drop)]
pub(crate) struct DirectiveLine<'a> {
    /// The rules by which it is read.
    pub(crate) rules: Rules,
    // A place on it.
    place: Place<'a>,
    // Its byte offset in its text.
    offset: usize,
    // Its number, from 1.
    number: u32,
    text: &'a str,
    // Its tokens but for the `#`, up to its end.
    tokens: Vec<Token>,
}

impl<'a> DirectiveLine<'a> {
    /// The line of a place of a file, which these rules read, or `None` if no directive is there.
    pub(crate) fn of(
        alloc: Global,
        rules: Rules,
        site: Site<'a>,
    ) -> Result<Option<DirectiveLine<'a>>, AllocError> {
        let Site::InSource(number, _, place) = site else {
            return Ok(None);
        };
        let offset = place.start.saturating_sub(place.before.len());
        let length = place.before.len().saturating_add(place.here.len());
        let end = offset
            .saturating_add(length)
            .saturating_add(place.behind.len());
        let text = place.text.get(offset..end).unwrap_or("");
        if !text.trim_start().starts_with('#') || text.len() >= SOURCE_LIMIT {
            return Ok(None);
        }
        let mut line = DirectiveLine {
            rules,
            place,
            offset,
            number,
            text,
            tokens: Vec::new(alloc),
        };
        match line.read(alloc) {
            Ok(()) => Ok(Some(line)),
            Err(error) => {
                drop(line);
                Err(error)
            }
        }
    }

    // Reads the tokens up to the first error.
    fn read(&mut self, alloc: Global) -> Result<(), AllocError>
        requires { length self.old.text.now < 2 ^ 32 - 1 }
    {
        let mut lexer = Lexer::with_rules(alloc, self.text, self.rules);
        'tokens: while let Some(item) = lexer.next() {
            if !self.take_item(item)? {
                return Ok(());
            }
        }
        Ok(())
    }

    // Takes a token. Returns whether there is one, and no error.
    fn take_item(&mut self, item: LexerItem) -> Result<bool, AllocError> {
        match item {
            Ok(token) => {
                self.take_token(token)?;
                Ok(true)
            }
            Err((PreprocessorError::OutOfMemory, _)) => Err(AllocError),
            Err((_error, _)) => Ok(false),
        }
    }

    fn take_token(&mut self, token: Token) -> Result<(), AllocError> {
        if !is_of_directive(&token) {
            drop(token);
            return Ok(());
        }
        self.tokens.push(token)?;
        Ok(())
    }

    /// The word of the directive, such as `if`.
    pub(crate) fn word(&self) -> &str {
        match self.tokens.first() {
            Some(token) => name_of(token).unwrap_or(""),
            None => "",
        }
    }

    /// Whether it is an `#if`, an `#elif` or a `#line`.
    pub(crate) fn has_expression(&self) -> bool {
        matches!(self.word(), "if" | "elif" | "line")
    }

    /// The tokens after the word.
    pub(crate) fn tokens(&self) -> &[Token] {
        self.tokens.as_slice().get(1..).unwrap_or(&[])
    }

    /// The tokens before a place, and the one that begins there.
    pub(crate) fn split_at(&self, place: Place<'_>) -> Option<(&[Token], &Token)> {
        let tokens = self.tokens();
        let index = tokens
            .iter()
            .position(|token| self.start_of(token) == place.start)?;
        match tokens.split_at_checked(index)? {
            (before, [token, ..]) => Some((before, token)),
            _ => None,
        }
    }

    // The byte offset at which a token begins in the text that the line is in.
    fn start_of(&self, token: &Token) -> usize {
        self.offset.saturating_add(token.location.start as usize)
    }

    /// The text of a token.
    pub(crate) fn text_of(&self, token: &Token) -> &'a str {
        let (start, end) = (token.location.start as usize, token.location.end as usize);
        self.text.get(start..end).unwrap_or("")
    }

    /// The site of a token of the line.
    pub(crate) fn site_of(&self, token: &Token) -> Site<'a> {
        self.site(token.location.start as usize, token.location.end as usize)
    }

    /// The site of the end of the line's last token.
    pub(crate) fn end_site(&self) -> Site<'a> {
        let end = match self.tokens.last() {
            Some(token) => token.location.end as usize,
            None => self.text.len(),
        };
        self.site(end, end)
    }

    fn site(&self, start: usize, end: usize) -> Site<'a> {
        let place = Place {
            start: self.offset.saturating_add(start),
            before: self.text.get(..start).unwrap_or(""),
            here: self.text.get(start..end).unwrap_or(""),
            behind: self.text.get(end..).unwrap_or(""),
            ..self.place
        };
        Site::InSource(self.number, place.column(), place)
    }
}

/// Whether a token is one of a directive after its `#`.
pub(crate) fn is_of_directive(token: &Token) -> bool {
    match token.value {
        TokenValue::Hash => !token.start_of_line,
        TokenValue::NewLine => false,
        _ => true,
    }
}

/// The name that a token is.
pub(crate) fn name_of(token: &Token) -> Option<&str> {
    match &token.value {
        TokenValue::Ident(name) => Some(name.as_str()),
        _ => None,
    }
}

/// Whether a token is this punctuator.
pub(crate) fn is_punct(token: &Token, punct: Punct) -> bool {
    match token.value {
        TokenValue::Punct(other) => other == punct,
        _ => false,
    }
}
