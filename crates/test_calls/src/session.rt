//! A preprocessor of a source, and what was done with it.

use crate::shown::{
    compared, copy_error, copy_token, print_error, print_item, print_origin, print_reply, refused,
    replies,
};
use pp_reference::run::run_by;
use pp_rs::SOURCE_LIMIT;
use pp_rs::pp::{
    self, Call, IncludeError, IncludeLine, Outcome, Preprocessor, PreprocessorItem, Reply,
    append_all, are_read_afresh, drain, preprocess_all, spell_tokens,
};
use pp_rs::rules::Rules;
use pp_rs::token::{Location, PreprocessorError, Token, out_of_memory};
use std::alloc::Global;
use std::io;
use test_shown::have_room;

// The steps that the plain program may take.
const STEPS: u64 = 200_000;

fn reply_to_definition(answer: Result<(), (PreprocessorError, Location)>) -> Reply {
    match answer {
        Ok(()) => Reply::Added,
        Err(fault) => Reply::Refused(fault),
    }
}

// Prints what a call of `include` answers.
fn print_included(
    rt: &impl Print,
    alloc: Global,
    answer: Result<(), IncludeError>,
) -> io::Result<()> {
    match answer {
        Ok(()) => println!(rt; "Included"),
        Err(IncludeError::TooDeep) => println!(rt; "TooDeep"),
        Err(IncludeError::TooLong | IncludeError::OutOfMemory) => {
            refused(rt, alloc, out_of_memory())
        }
    }
}

// The name on an `#include` line, from the end of its word on: what is between two `"`.
fn name_on(line: &str) -> &str {
    match line.split('"').nth(1) {
        Some(name) => name,
        None => "",
    }
}

/// A preprocessor of a source, the calls that were made, the texts that have a name, and what the calls gave.
#[derive(Drop)]
pub(crate) struct Session<'a> {
    alloc: Global,
    source: &'a str,
    rules: Rules,
    pp: Preprocessor<'a>,
    calls: Vec<Call<'a>>,
    named: Vec<(&'a str, &'a str)>,
    // The texts by their numbers: the source, and then contents and texts.
    texts: Vec<&'a str>,
    tokens: Vec<Token>,
    errors: Vec<PreprocessorError>,
}

impl<'a> Session<'a> {
    /// Nothing was done yet, and all goes by these rules. A source that is too long counts as the empty one.
    pub(crate) fn new(alloc: Global, source: &'a str, rules: Rules) -> Session<'a> {
        let source = if source.len() < SOURCE_LIMIT {
            source
        } else {
            ""
        };
        Session {
            alloc,
            source,
            rules,
            pp: Preprocessor::with_rules(alloc, source, rules),
            calls: Vec::new(alloc),
            named: Vec::new(alloc),
            texts: Vec::new(alloc),
            tokens: Vec::new(alloc),
            errors: Vec::new(alloc),
        }
    }

    /// The rules by which all goes.
    pub(crate) fn rules(&self) -> Rules {
        self.rules
    }

    /// Begins the source anew, by these rules.
    pub(crate) fn begin_anew(&mut self, rules: Rules) {
        *self = Session::new(self.alloc, self.source, rules);
    }

    /// Defines a name with a content.
    pub(crate) fn add(
        &mut self,
        rt: &impl Print,
        name: &'a str,
        content: &'a str,
    ) -> io::Result<()> {
        if content.len() >= SOURCE_LIMIT {
            return Ok(());
        }
        self.calls.push(Call::AddDefine(name, content))?;
        let answer = reply_to_definition(self.pp.add_define(name, content));
        if matches!(answer, Reply::Added) {
            self.texts.push(content)?;
        }
        let shown = print_reply(rt, self.alloc, &answer);
        drop(answer);
        shown
    }

    /// Bounds the steps from here on.
    pub(crate) fn bound(&mut self, rt: &impl Print, steps: u64) -> io::Result<()> {
        match self.pp.set_budget(steps) {
            Ok(()) => Ok(()),
            Err(fault) => refused(rt, self.alloc, fault),
        }
    }

    /// Shows whether more steps were needed, and the place to which the source was read.
    pub(crate) fn budget(&self, rt: &impl Print) -> io::Result<()> {
        let Location { start, end, line } = self.pp.reached();
        println!(rt; "over={} {start}..{end} L{line}", self.pp.is_over_budget())
    }

    // Includes a text, and keeps it.
    fn included(&mut self, text: &'a str) -> io::Result<Result<(), IncludeError>> {
        if text.len() >= SOURCE_LIMIT {
            return Ok(Err(IncludeError::TooLong));
        }
        self.calls.push(Call::Include(text))?;
        let answer = self.pp.include(text);
        if matches!(answer, Ok(())) {
            self.texts.push(text)?;
        }
        Ok(answer)
    }

    /// Includes a text.
    pub(crate) fn include(&mut self, rt: &impl Print, text: &'a str) -> io::Result<()> {
        let answer = self.included(text)?;
        print_included(rt, self.alloc, answer)
    }

    /// Includes a text so often, and shows the last answer.
    pub(crate) fn include_often(
        &mut self,
        rt: &impl Print,
        times: u32,
        text: &'a str,
    ) -> io::Result<()> {
        let mut answer = Ok(());
        for _ in 0..times {
            answer = self.included(text)?;
        }
        print_included(rt, self.alloc, answer)
    }

    /// Gives a text a name, by which an `#include` line asks for it: `NAME:TEXT`.
    pub(crate) fn name_text(&mut self, named: &'a str) -> io::Result<()> {
        if let Some(pair) = named.split_once(':') {
            self.named.push(pair)?;
        }
        Ok(())
    }

    // The text with this number.
    fn text_at(&self, number: usize) -> Option<&'a str> {
        if number == 0 {
            return Some(self.source);
        }
        let text = self.texts.get(number - 1)?;
        Some(*text)
    }

    // The text for which the line asks that was given last, if it asks for one that has a name.
    fn asked(&self) -> Option<&'a str> {
        let rest = self.pp.include_line()?;
        let text = self.text_at(self.pp.origin().text as usize)?;
        let name = name_on(text.get(rest.start as usize..rest.end as usize)?);
        let (_, found) = self.named.iter().find(|(known, _)| *known == name)?;
        Some(found)
    }

    // Shows an item, and keeps it.
    fn keep(&mut self, rt: &impl Print, given: PreprocessorItem) -> io::Result<()> {
        print_item(rt, self.alloc, &given)?;
        match given {
            Ok(token) => self.tokens.push(token)?,
            Err((error, _)) => self.errors.push(error)?,
        }
        Ok(())
    }

    // Shows an item as what `replies` says of it.
    fn show(&mut self, rt: &impl Print, given: PreprocessorItem) -> io::Result<()> {
        match (given, self.pp.include_line()) {
            (Err((_, word)), Some(rest)) => {
                let line = Reply::Given(Outcome::Include(IncludeLine { word, rest }));
                print_reply(rt, self.alloc, &line)
            }
            (given, _) => self.keep(rt, given),
        }
    }

    /// Asks for one item. Returns whether there was one.
    pub(crate) fn next(&mut self, rt: &impl Print) -> io::Result<bool> {
        self.calls.push(Call::Next)?;
        match self.pp.next() {
            Some(given) => {
                self.show(rt, given)?;
                if let Some(text) = self.asked() {
                    self.include(rt, text)?;
                }
                Ok(true)
            }
            None => {
                println!(rt; "None")?;
                Ok(false)
            }
        }
    }

    /// Asks for all items that are left, and then twice more.
    pub(crate) fn rest(&mut self, rt: &impl Print) -> io::Result<()> {
        for _ in 0..u64::MAX {
            if !self.next(rt)? {
                break;
            }
        }
        self.next(rt)?;
        self.next(rt)?;
        Ok(())
    }

    /// Gathers all items that are left.
    pub(crate) fn all(&mut self, rt: &impl Print) -> io::Result<()> {
        match preprocess_all(self.alloc, &mut self.pp) {
            Ok(items) => {
                for given in items {
                    self.keep(rt, given)?;
                }
                Ok(())
            }
            Err(fault) => refused(rt, self.alloc, fault),
        }
    }

    /// Appends all items that are left to a list: if memory runs out, those that came before are shown too.
    pub(crate) fn append(&mut self, rt: &impl Print) -> io::Result<()> {
        let mut items = Vec::new(self.alloc);
        let ended = append_all(&mut self.pp, &mut items);
        for given in items {
            self.keep(rt, given)?;
        }
        match ended {
            Ok(()) => Ok(()),
            Err(fault) => refused(rt, self.alloc, fault),
        }
    }

    /// Drops all items that are left.
    pub(crate) fn drain(&mut self) {
        drain(&mut self.pp);
    }

    /// Asks for all items that are left, and shows each error with its true place in the source.
    pub(crate) fn errors(&mut self, rt: &impl Print) -> io::Result<()> {
        for _ in 0..u64::MAX {
            let Some(given) = self.pp.next() else {
                break;
            };
            print_error(rt, self.alloc, given, self.pp.place())?;
        }
        Ok(())
    }

    /// Asks for all items that are left, and shows each with its text and the call from which it comes.
    pub(crate) fn calls(&mut self, rt: &impl Print) -> io::Result<()> {
        for _ in 0..u64::MAX {
            let Some(given) = self.pp.next() else {
                break;
            };
            print_item(rt, self.alloc, &given)?;
            let origin = self.pp.origin();
            print_origin(rt, origin, self.pp.call_line())?;
            if self.pp.call_place() != origin.call {
                println!(rt; "  another call_place")?;
            }
        }
        Ok(())
    }

    /// Spells the tokens that were given, if all of them are ordinary.
    pub(crate) fn spell(&self, rt: &impl Print) -> io::Result<()> {
        if !self.tokens.iter().all(|token| token.is_ordinary()) {
            return println!(rt; "not all are ordinary");
        }
        match spell_tokens(self.alloc, &self.tokens) {
            Ok(text) => println!(rt; "spelled {}", text.as_str()),
            Err(fault) => refused(rt, self.alloc, fault),
        }
    }

    /// Says whether the text of the tokens that were given gives them again, if all of them are ordinary.
    pub(crate) fn afresh(&self, rt: &impl Print) -> io::Result<()> {
        if !self.tokens.iter().all(|token| token.is_ordinary()) {
            return println!(rt; "not all are ordinary");
        }
        match are_read_afresh(self.alloc, &self.tokens) {
            Ok(answer) => println!(rt; "afresh={answer}"),
            Err(fault) => refused(rt, self.alloc, fault),
        }
    }

    /// Copies what was given.
    pub(crate) fn copy(&self, rt: &impl Print) -> io::Result<()> {
        for token in &self.tokens {
            copy_token(rt, self.alloc, token)?;
        }
        for error in &self.errors {
            copy_error(rt, self.alloc, error)?;
        }
        Ok(())
    }

    /// Makes the same calls once more, by `replies_by`.
    pub(crate) fn replies(&self, rt: &impl Print) -> io::Result<()> {
        if self.source.len() < SOURCE_LIMIT && have_room(&self.calls) {
            let given = match pp::replies_by(self.alloc, self.source, self.rules, &self.calls) {
                Ok(replies) => Ok(Some(replies)),
                Err(error) => Err(error),
            };
            return replies(rt, self.alloc, "replies", given);
        }
        Ok(())
    }

    /// Makes the same calls once more, by `replies_by` and by the plain program, and compares what they reply.
    pub(crate) fn agree(&self, rt: &impl Print) -> io::Result<()> {
        if self.source.len() < SOURCE_LIMIT && have_room(&self.calls) {
            let given = pp::replies_by(self.alloc, self.source, self.rules, &self.calls)?;
            let Some(plain) = run_by(self.alloc, self.source, self.rules, &self.calls, STEPS)?
            else {
                return println!(rt; "plain gives no answer");
            };
            return compared(rt, self.alloc, &given, &plain);
        }
        Ok(())
    }

    /// Makes the same calls once more, by the plain program.
    pub(crate) fn plain(&self, rt: &impl Print) -> io::Result<()> {
        if self.source.len() < SOURCE_LIMIT && have_room(&self.calls) {
            let given = run_by(self.alloc, self.source, self.rules, &self.calls, STEPS);
            return replies(rt, self.alloc, "plain", given);
        }
        Ok(())
    }
}
