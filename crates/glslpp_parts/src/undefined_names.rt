//! Names in conditions that are not defined, and count as 0, and the branches of blocks that are read.
//!
//! Whether a name is defined where a condition is computed, and whether the condition is computed at all, is left to
//! the preprocessor, which reads a [`Probe`] with a line for each name of a condition. The names that it gives for such
//! a line are not defined, and it gives none where the condition isn't computed. It includes the probes of files where
//! the source includes these.

use crate::changes::Definition;
use crate::condition::{Branch, BranchWord, note_taken};
use crate::definitions::add_definitions;
use crate::extensions::EXTENSION_CONTENT;
use crate::failure::Failure;
use crate::include_line::{Asked, asked_file};
use crate::macro_history::MacroHistory;
use crate::probe::Probe;
use crate::texts::{File, Inclusion, Texts};
use pp_rs::SOURCE_LIMIT;
use pp_rs::pp::{Origin, Preprocessor, SOURCE_TEXT};
use pp_rs::rules::Rules;
use pp_rs::token::{Location, Token, TokenValue};
use std::alloc::{AllocError, Global};
use std::mem;

/// A name in a condition that is not defined.
#[derive(Drop)]
pub struct UndefinedName {
    /// The number of the text that it is in.
    pub text: u32,
    /// Its place there.
    pub location: Location,
    /// What is said of it.
    pub message: String,
}

/// What is found in the conditions of a source and the files that it includes.
#[derive(Drop)]
pub struct Conditions {
    /// The names that are not defined.
    pub undefined: Vec<UndefinedName>,
    /// The branches of each text, with its number, in the order of these.
    pub branches: Vec<(u32, Vec<Branch>)>,
    /// Whether they are known: the search came to the end or to a condition with an error, and none had `__LINE__`,
    /// whose value is another in the text that asks.
    pub are_known: bool,
    /// Where macros are defined, if conditions are explained.
    pub history: MacroHistory,
}

impl Conditions {
    /// Nothing, as of a source that wasn't searched.
    pub fn none(alloc: Global) -> Conditions {
        Conditions {
            undefined: Vec::new(alloc),
            branches: Vec::new(alloc),
            are_known: false,
            history: MacroHistory::new(alloc),
        }
    }

    /// The branches of the text with this number.
    pub fn branches(&self, text: u32) -> &[Branch] {
        let branches = self.branches.as_slice();
        match branches.get(branches.partition_point(|(other, _)| *other < text)) {
            Some((other, found)) if *other == text => found.as_slice(),
            _ => &[],
        }
    }
}

/// The names that are found so far, and the probes of the texts that were read so far.
#[derive(Drop)]
pub struct UndefinedNames<'a> {
    alloc: Global,
    rules: Rules,
    texts: Texts<'a>,
    // Each with the number of its text, in the order of these.
    probes: Vec<(u32, Probe)>,
    // The text and the line in its probe that gave the last name.
    answered: Option<(u32, u32)>,
    found: Vec<UndefinedName>,
    is_explaining: bool,
    has_line_numbers: bool,
    history: MacroHistory,
    // The text and the line in its probe of the condition with an error at which the search ended.
    ended_at: Option<(u32, u32)>,
}

impl<'a> UndefinedNames<'a> {
    /// No names of a source that is read by these rules, and whether its conditions are explained.
    pub fn new(
        alloc: Global,
        rules: Rules,
        source: File<'a>,
        is_explaining: bool,
    ) -> Result<UndefinedNames<'a>, AllocError> {
        let mut names = UndefinedNames {
            alloc,
            rules,
            texts: Texts::new(alloc, source),
            probes: Vec::new(alloc),
            answered: None,
            found: Vec::new(alloc),
            is_explaining,
            has_line_numbers: false,
            history: MacroHistory::new(alloc),
            ended_at: None,
        };
        match names.begin(source) {
            Ok(()) => Ok(names),
            Err(error) => {
                drop(names);
                Err(error)
            }
        }
    }

    // Begins with the source.
    fn begin(&mut self, source: File<'a>) -> Result<(), AllocError> {
        self.push_probe(SOURCE_TEXT, source)?;
        self.history.begin(SOURCE_TEXT, None)
    }

    // Makes the probe of a text. One that is too long has none.
    fn push_probe(&mut self, number: u32, file: File<'a>) -> Result<(), AllocError> {
        if file.read.len() < SOURCE_LIMIT {
            let probe = Probe::of(self.alloc, self.rules, file.read, self.is_explaining)?;
            self.probes.push((number, probe))?;
        }
        Ok(())
    }

    fn probe(&self, number: u32) -> Option<&Probe> {
        let probes = self.probes.as_slice();
        match probes.get(probes.partition_point(|(other, _)| *other < number)) {
            Some((other, probe)) if *other == number => Some(probe),
            _ => None,
        }
    }

    fn probe_mut(&mut self, number: u32) -> Option<&mut Probe> {
        let probes = self.probes.as_mut_slice();
        let before = probes.partition_point(|(other, _)| *other < number);
        let found = probes.get_mut(before)?;
        if found.0 != number {
            return None;
        }
        Some(&mut found.1)
    }

    /// The text of the probe of the text with this number.
    pub fn probe_text(&self, number: u32) -> &str {
        match self.probe(number) {
            Some(probe) => probe.text.as_str(),
            None => "",
        }
    }

    /// The texts.
    pub fn texts(&self) -> &Texts<'a> {
        &self.texts
    }

    /// Adds the definitions before the source.
    pub fn define(
        &mut self,
        items: &mut Preprocessor<'_>,
        definitions: &[Definition<'a>],
    ) -> Result<(), Failure> {
        add_definitions(self.alloc, items, &mut self.texts, definitions)
    }

    /// Adds the macro of an extension, whose line is on a line of the probe of a text.
    pub fn add_extension(&mut self, text: u32, line: u32) -> Result<(), AllocError> {
        self.texts.add(EXTENSION_CONTENT)?;
        self.note_definition(text, line)
    }

    /// Adds a file that is included, and returns the number of its text.
    pub fn include(
        &mut self,
        file: File<'a>,
        inclusion: Option<Inclusion>,
    ) -> Result<u32, AllocError> {
        let number = self.texts.count();
        let from = self.offset_of(inclusion);
        self.history.begin(number, from)?;
        self.texts.include(file, inclusion)?;
        self.push_probe(number, file)?;
        Ok(number)
    }

    // The text and the byte offset of an `#include`. What is included before the source is so at its start.
    fn offset_of(&self, inclusion: Option<Inclusion>) -> Option<(u32, u32)> {
        let Some(inclusion) = inclusion else {
            return Some((SOURCE_TEXT, 0));
        };
        let probe = self.probe(inclusion.text)?;
        let rest = probe.inclusion(inclusion.location.line)?;
        Some((inclusion.text, rest.start))
    }

    /// Takes what the preprocessor gives for a question, if it is the first for this.
    pub fn take(&mut self, token: &Token, origin: Origin) -> Result<(), AllocError> {
        let (text, line) = match origin.call {
            Some(call) => (call.text, call.line),
            None => (origin.text, token.location.line),
        };
        if self.is_explaining && self.take_value(text, line, token, origin)? {
            return Ok(());
        }
        let TokenValue::Ident(name) = &token.value else {
            if let Some(probe) = self.probe_mut(text) {
                probe.note_line(line);
            }
            return self.note_definition(text, line);
        };
        if self.answered == Some((text, line)) {
            return Ok(());
        }
        let Some(question) = self.probe(text).and_then(|probe| probe.question(line)) else {
            return Ok(());
        };
        let found = UndefinedName {
            text,
            location: question.location,
            message: message_of(self.alloc, name.as_str(), question.name.as_str())?,
        };
        self.answered = Some((text, line));
        self.found.push(found)?;
        Ok(())
    }

    // Takes a token of what a condition became. Returns whether it is one.
    fn take_value(
        &mut self,
        text: u32,
        line: u32,
        token: &Token,
        origin: Origin,
    ) -> Result<bool, AllocError> {
        let is_line_number = self.is_line_number(token, origin);
        let Some(probe) = self.probe_mut(text) else {
            return Ok(false);
        };
        let Some(branch) = probe.explained_by(line) else {
            return Ok(false);
        };
        let start = if origin.text == text {
            Some(token.location.start)
        } else {
            None
        };
        branch.push_value(&token.value, start)?;
        self.has_line_numbers = self.has_line_numbers || is_line_number;
        Ok(true)
    }

    // Whether a token is a `__LINE__`.
    fn is_line_number(&self, token: &Token, origin: Origin) -> bool {
        let text = match self.probe(origin.text) {
            Some(probe) => probe.text.as_str(),
            None => self.texts.text(origin.text),
        };
        let (start, end) = (token.location.start as usize, token.location.end as usize);
        text.get(start..end) == Some("__LINE__")
    }

    // Takes the definition that was read if a line of the probe of a text was.
    fn note_definition(&mut self, text: u32, line: u32) -> Result<(), AllocError> {
        let Some(probe) = self.probe(text) else {
            return Ok(());
        };
        let Some(definition) = probe.definition_read(line) else {
            return Ok(());
        };
        let name = String::from_str(self.alloc, definition.name.as_str())?;
        let (start, end, is_definition) = (
            definition.start,
            definition.end,
            definition.is_definition,
        );
        self.history.push(text, name, start, end, is_definition)
    }

    /// Takes an error with this place and origin. Returns whether what comes after it can be told: it isn't that of a
    /// condition.
    pub fn take_error(&mut self, location: Location, origin: Origin) -> bool {
        let (text, line) = match origin.call {
            Some(call) => (call.text, call.line),
            None => (origin.text, location.line),
        };
        if self.is_explaining
            && let Some(probe) = self.probe_mut(text)
        {
            if probe.explained_by(line).is_some() {
                return true;
            }
            if let Some(definition) = probe.definition_at(line) {
                definition.is_refused = true;
                return true;
            }
        }
        self.ended_at = Some((text, line));
        false
    }

    /// What the `#include` has that is a line of the probe of the text with this number.
    pub fn asked(&self, text: u32, line: u32) -> Result<Option<Asked<'a>>, AllocError> {
        let Some(rest) = self.probe(text).and_then(|probe| probe.inclusion(line)) else {
            return Ok(None);
        };
        Ok(Some(asked_file(self.alloc, self.texts.text(text), rest)?))
    }

    /// What was found, in all conditions or in those up to one with an error.
    pub fn finish(mut self, is_whole: bool) -> Result<Conditions, AllocError> {
        let mut conditions = Conditions::none(self.alloc);
        let end = self.fill(&mut conditions, is_whole);
        drop(self);
        match end {
            Ok(()) => Ok(conditions),
            Err(error) => {
                drop(conditions);
                Err(error)
            }
        }
    }

    // Moves what was found.
    fn fill(&mut self, conditions: &mut Conditions, is_whole: bool) -> Result<(), AllocError> {
        if let Some((text, line)) = self.ended_at {
            self.forget_after(text, line);
        }
        self.history.end()?;
        mem::swap(&mut conditions.undefined, &mut self.found);
        mem::swap(&mut conditions.history, &mut self.history);
        conditions.are_known = !self.has_line_numbers && (is_whole || self.ended_at.is_some());
        for (number, probe) in self.probes.iter_mut() {
            let mut branches = mem::replace(&mut probe.branches, Vec::new(self.alloc));
            let noted = note_taken(self.alloc, branches.as_mut_slice());
            if !is_consistent(branches.as_slice()) {
                conditions.are_known = false;
            }
            conditions.branches.push((*number, branches))?;
            noted?;
        }
        Ok(())
    }

    // Notes that nothing is known of the branches from a line of the probe of a text on, and of those after the
    // `#include`s for which it is read.
    fn forget_after(&mut self, text: u32, line: u32) {
        let (mut text, mut line) = (text, line);
        for _ in 0..self.probes.len() {
            if let Some(probe) = self.probe_mut(text) {
                probe.forget_after(line);
            }
            if text == SOURCE_TEXT {
                return;
            }
            (text, line) = match self.texts.inclusion(text) {
                Some(inclusion) => (inclusion.text, inclusion.location.line),
                None => (SOURCE_TEXT, 0),
            };
        }
    }
}

// Whether each block that is read was left: otherwise a call went on over its lines.
fn is_consistent(branches: &[Branch]) -> bool {
    for branch in branches {
        if branch.word == BranchWord::Endif
            && branch.is_known
            && let Some(first) = branches.get(branch.first)
            && first.is_reached != branch.is_read
        {
            return false;
        }
    }
    true
}

fn message_of(alloc: Global, name: &str, asked: &str) -> Result<String, AllocError> {
    if name == asked {
        return format!(in alloc; "`{name}` is not defined, and counts as 0");
    }
    format!(in alloc; "`{name}`, which `{asked}` gives, is not defined, and counts as 0")
}
