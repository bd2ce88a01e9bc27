//! What uses of macros became, step by step.
//!
//! Each step is left to the preprocessor, which reads what the step before gave with the definitions alone of the
//! macros that it replaces.

use crate::page::Sight;
use crate::page::marks::{empty_note, plain_mark};
use crate::page::sheet::Sheet;
use crate::page::words::token_of;
use glslpp_html::source::{Class, Mark, Note};
use glslpp_parts::macro_uses::MacroUsed;
use pp_rs::SOURCE_LIMIT;
use pp_rs::lexer::{Lexer, LexerItem, Token as LexerToken, TokenValue};
use pp_rs::pp::{Preprocessor, PreprocessorItem};
use pp_rs::token::{Punct, Token};
use std::alloc::{AllocError, Global};

// How many steps of a use are shown.
const MOST_STEPS: usize = 8;

// How much work a step may take, as `Preprocessor::set_budget` counts it.
const MOST_WORK: u64 = 10_000;

// How long a text may be of which a step is made.
const MOST_BYTES: usize = 4_000;

// A use that is opened step by step.
#[derive(Drop)]
struct Opening<'u> {
    used: &'u MacroUsed,
    // What it is so far.
    text: String,
    opened: Opened,
}

// The macros of a use that were opened.
#[derive(Drop)]
struct Opened {
    names: Vec<String>,
    // The definitions of those that the next step opens.
    definitions: String,
}

impl Opened {
    fn has(&self, name: &str) -> bool {
        self.names.iter().any(|other| other.as_str() == name)
    }
}

impl<'u> Opening<'u> {
    fn is_at_end(&self) -> bool {
        self.text.as_str() == self.used.tokens.as_str()
    }

    // Goes on with what a step gave, and returns whether that is something else, or the end.
    fn go_on(&mut self, next: String) -> bool {
        let is_same = next.as_str() == self.text.as_str();
        self.text = next;
        !is_same || self.is_at_end()
    }
}

impl<'p, 'a> Sight<'p, 'a> {
    /// Appends marks for the uses of macros in a file.
    pub(crate) fn push_uses(
        &self,
        marks: &mut Vec<Mark>,
        sheet: &Sheet<'_>,
    ) -> Result<(), AllocError> {
        for used in self.view.trace.uses.uses.as_slice() {
            if used.text == sheet.number {
                self.push_use(marks, sheet, used)?;
            }
        }
        Ok(())
    }

    fn push_use(
        &self,
        marks: &mut Vec<Mark>,
        sheet: &Sheet<'_>,
        used: &MacroUsed,
    ) -> Result<(), AllocError> {
        let (start, end) = (used.name.start as usize, used.name.end as usize);
        marks.push(plain_mark(self.alloc, start, end, Class::Macro))?;
        match marks.last_mut() {
            Some(mark) => self.open_use(mark, sheet, used),
            None => Ok(()),
        }
    }

    // Puts on the mark of a use what it became.
    fn open_use(
        &self,
        mark: &mut Mark,
        sheet: &Sheet<'_>,
        used: &MacroUsed,
    ) -> Result<(), AllocError> {
        let name = sheet.file.text.get(mark.start..mark.end).unwrap_or("");
        self.push_definition_of(mark, name, used)?;
        self.push_steps(&mut mark.steps, sheet, used, name)?;
        self.push_step(&mut mark.steps, used.tokens.as_str())
    }

    fn push_definition_of(
        &self,
        mark: &mut Mark,
        name: &str,
        used: &MacroUsed,
    ) -> Result<(), AllocError> {
        let Some(defined) = self.definition_at(name, used.text, used.name.start) else {
            return Ok(());
        };
        mark.steps.push(empty_note(self.alloc))?;
        match mark.steps.last_mut() {
            Some(step) => {
                self.push_definition(step, name, defined, used.text)?;
                mark.title.text.push_str(step.text.as_str())
            }
            None => Ok(()),
        }
    }

    fn push_step(&self, steps: &mut Vec<Note>, text: &str) -> Result<(), AllocError> {
        steps.push(empty_note(self.alloc))?;
        match steps.last_mut() {
            Some(step) => write!(step.text, "→ {text}"),
            None => Ok(()),
        }
    }

    // Appends what a use became in between, if the last of these steps gives what it became.
    fn push_steps(
        &self,
        steps: &mut Vec<Note>,
        sheet: &Sheet<'_>,
        used: &MacroUsed,
        name: &str,
    ) -> Result<(), AllocError> {
        if used.is_cut {
            return Ok(());
        }
        let before = steps.len();
        let mut opening = Opening {
            used,
            text: String::new(self.alloc),
            opened: Opened {
                names: Vec::new(self.alloc),
                definitions: String::new(self.alloc),
            },
        };
        opening.text.push_str(self.call_text(sheet, used)?)?;
        if !self.open(steps, &mut opening, name)? {
            steps.truncate(before);
        }
        Ok(())
    }

    // Opens a use of this macro, appends each step before the last, and returns whether that gives what it became.
    fn open(
        &self,
        steps: &mut Vec<Note>,
        opening: &mut Opening<'_>,
        name: &str,
    ) -> Result<bool, AllocError> {
        self.open_name(&mut opening.opened, name, opening.used)?;
        for _ in 0..MOST_STEPS {
            if !self.open_once(opening)? {
                return Ok(false);
            }
            if opening.is_at_end() {
                return Ok(true);
            }
            self.push_step(steps, opening.text.as_str())?;
            self.open_names(&mut opening.opened, opening.text.as_str(), opening.used)?;
        }
        Ok(false)
    }

    // Makes one step, and returns whether it gives something else, or the end.
    fn open_once(&self, opening: &mut Opening<'_>) -> Result<bool, AllocError> {
        let definitions = opening.opened.definitions.as_str();
        match self.replaced(definitions, opening.text.as_str())? {
            Some(next) => Ok(opening.go_on(next)),
            None => Ok(false),
        }
    }

    // The text of a use: the name, with what is in parentheses behind it.
    fn call_text<'s>(&self, sheet: &Sheet<'s>, used: &MacroUsed) -> Result<&'s str, AllocError> {
        let start = used.name.start as usize;
        let rest = first_bytes(sheet.file.text.get(start..).unwrap_or(""));
        let name = (used.name.end as usize).saturating_sub(start);
        let end = self.end_of_call(rest)?.unwrap_or(name);
        Ok(rest.get(..end).unwrap_or(""))
    }

    // The byte offset behind the call with which a text begins, if it does.
    fn end_of_call(&self, text: &str) -> Result<Option<usize>, AllocError> {
        let Some(mut lexer) = Lexer::try_with_rules(self.alloc, text, self.rules) else {
            return Ok(None);
        };
        let end = Call::new().read(&mut lexer);
        drop(lexer);
        end
    }

    // Finds the definitions of the macros that a text names and that were not opened before, which are from now on.
    fn open_names(
        &self,
        opened: &mut Opened,
        text: &str,
        used: &MacroUsed,
    ) -> Result<(), AllocError> {
        opened.definitions.clear();
        let Some(mut lexer) = Lexer::try_with_rules(self.alloc, text, self.rules) else {
            return Ok(());
        };
        let end = self.open_items(opened, &mut lexer, used);
        drop(lexer);
        end
    }

    // Takes the items of that text, up to one with an error.
    fn open_items(
        &self,
        opened: &mut Opened,
        lexer: &mut Lexer<'_>,
        used: &MacroUsed,
    ) -> Result<(), AllocError> {
        'words: while let Some(item) = lexer.next() {
            if !self.open_item(opened, item, used)? {
                return Ok(());
            }
        }
        Ok(())
    }

    // Takes the next item of that text, and returns whether it has no error.
    fn open_item(
        &self,
        opened: &mut Opened,
        item: LexerItem,
        used: &MacroUsed,
    ) -> Result<bool, AllocError> {
        let token = token_of(item)?;
        let end = match &token {
            Some(token) => self.open_token(opened, token, used),
            None => Ok(false),
        };
        drop(token);
        end
    }

    fn open_token(
        &self,
        opened: &mut Opened,
        token: &LexerToken,
        used: &MacroUsed,
    ) -> Result<bool, AllocError> {
        if let TokenValue::Ident(name) = &token.value {
            self.open_name(opened, name.as_str(), used)?;
        }
        Ok(true)
    }

    fn open_name(
        &self,
        opened: &mut Opened,
        name: &str,
        used: &MacroUsed,
    ) -> Result<(), AllocError> {
        if opened.has(name) {
            return Ok(());
        }
        match self.definition_at(name, used.text, used.name.start) {
            Some(defined) => {
                opened.names.push(String::from_str(self.alloc, name)?)?;
                self.push_definition_line(&mut opened.definitions, name, defined)
            }
            None => Ok(()),
        }
    }

    // What a text becomes by these definitions, with a space between each two tokens, if it has no error and isn't
    // long.
    fn replaced(&self, definitions: &str, text: &str) -> Result<Option<String>, AllocError> {
        if definitions.len().saturating_add(text.len()) >= MOST_BYTES {
            return Ok(None);
        }
        let source = format!(in self.alloc; "{definitions}{text}\n")?;
        self.preprocessed(source.as_str())
    }

    // What a source becomes, if it has no error.
    fn preprocessed(&self, source: &str) -> Result<Option<String>, AllocError> {
        if source.len() >= SOURCE_LIMIT {
            return Ok(None);
        }
        let mut items = Preprocessor::with_rules(self.alloc, source, self.rules);
        let spelled = match items.set_budget(MOST_WORK) {
            Ok(()) => spelled(self.alloc, &mut items),
            Err(_) => Err(AllocError),
        };
        drop(items);
        spelled
    }
}

// A call of a macro that is read up to its end.
#[derive(Clone, Copy)]
struct Call {
    // How many parentheses are open.
    depth: usize,
    // Whether only the macro's name was read.
    is_name: bool,
    // The byte offset behind it, once that is known.
    end: Option<usize>,
}

impl Call {
    // A call of which nothing was read.
    fn new() -> Call {
        Call {
            depth: 0,
            is_name: false,
            end: None,
        }
    }

    // Reads the call, and returns its end if it has one.
    fn read(&mut self, lexer: &mut Lexer<'_>) -> Result<Option<usize>, AllocError> {
        'words: while let Some(item) = lexer.next() {
            if !self.goes_on(item)? {
                return Ok(self.end);
            }
        }
        Ok(None)
    }

    // Takes the next item, and returns whether the call goes on.
    fn goes_on(&mut self, item: LexerItem) -> Result<bool, AllocError> {
        let token = token_of(item)?;
        let goes_on = match &token {
            Some(token) => self.goes_on_behind(token),
            None => false,
        };
        drop(token);
        Ok(goes_on)
    }

    fn goes_on_behind(&mut self, token: &LexerToken) -> bool {
        match &token.value {
            TokenValue::NewLine => return true,
            TokenValue::Punct(Punct::LeftParen) => self.depth = self.depth.saturating_add(1),
            TokenValue::Punct(Punct::RightParen) => self.close(token.location.end as usize),
            _ => {}
        }
        let is_inside = self.depth > 0 || !self.is_name;
        self.is_name = true;
        is_inside && self.end.is_none()
    }

    // Closes a parenthesis that ends at a byte offset.
    fn close(&mut self, end: usize) {
        if self.depth == 1 {
            self.end = Some(end);
        }
        self.depth = self.depth.saturating_sub(1);
    }
}

// The beginning of a text that is as long as a step may be.
fn first_bytes(text: &str) -> &str {
    for fewer in 0..4usize {
        if let Some(first) = text.get(..MOST_BYTES.saturating_sub(fewer)) {
            return first;
        }
    }
    text
}

// The items, with a space between each two, if there is no error among them.
fn spelled(alloc: Global, items: &mut Preprocessor<'_>) -> Result<Option<String>, AllocError> {
    let mut text = String::new(alloc);
    if push_items(&mut text, items)? {
        return Ok(Some(text));
    }
    Ok(None)
}

// Appends the items, and returns whether there is no error among them.
fn push_items(text: &mut String, items: &mut Preprocessor<'_>) -> Result<bool, AllocError> {
    for _ in 0..MOST_WORK {
        let Some(item) = items.next() else {
            return Ok(true);
        };
        let is_pushed = push_item(text, &item);
        drop(item);
        if !is_pushed? {
            return Ok(false);
        }
    }
    Ok(false)
}

// Appends an item, and returns whether it is no error.
fn push_item(text: &mut String, item: &PreprocessorItem) -> Result<bool, AllocError> {
    match item {
        Ok(token) => {
            push_token(text, token)?;
            Ok(true)
        }
        Err(_) => Ok(false),
    }
}

fn push_token(text: &mut String, token: &Token) -> Result<(), AllocError> {
    if !text.is_empty() {
        text.push(' ')?;
    }
    write!(text, "{}", token.value)
}
