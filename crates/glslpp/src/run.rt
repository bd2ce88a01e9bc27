//! A run over the items of a source and of the files that it includes.

ghost use Rattle.std.specs.Prelude.{◌≡◌, ◌-◌, ◌^◌, ◌<◌, Some, false, length, ⊤};
ghost use Rattle.glslpp_parts.specs.Output.{Takes};
ghost use Rattle.pp_rs.specs.Giving.{is_ordinary_token, GivesTokens};
ghost use Rattle.pp_rs.specs.TokenValue.{is_ordinary};

mod included;
mod messages;

use crate::including::Library;
use crate::page::{View, make_page};
use glslpp_parts::arguments::{Arguments, Form};
use glslpp_parts::diagnostic::Diagnostic;
use glslpp_parts::explainer::Explainer;
use glslpp_parts::extensions::{EXTENSION_CONTENT, define_extension, turned_on};
use glslpp_parts::failure::Failure;
use glslpp_parts::fault::FaultFinder;
use glslpp_parts::listing::Listing;
use glslpp_parts::output::Output;
use glslpp_parts::pragma::is_once;
use glslpp_parts::report::Reporter;
use glslpp_parts::rule_set::Setting;
use glslpp_parts::texts::File;
use glslpp_parts::undefined_names::Conditions;
use glslpp_parts::version::has_version;
use glslpp_parts::warning::Warnings;
use pp_rs::SOURCE_LIMIT;
use pp_rs::pp::{Preprocessor, PreprocessorItem, SOURCE_TEXT};
use pp_rs::token::{PreprocessorError, Token, TokenValue};
use std::alloc::{AllocError, Global};
use std::mem;

/// How many texts there may be before a file is included.
pub(crate) const MOST_TEXTS: u32 = 100_000;

// A file that is read, or was read and is not ended yet.
#[derive(Drop)]
struct Reading<'a> {
    // The number of its text.
    text: u32,
    // What the warnings found in it and wasn't said yet, from its end to its start.
    findings: Vec<Diagnostic<'a>>,
}

/// What a run over one source gives.
#[derive(Drop)]
pub(crate) struct Ended {
    /// The output.
    pub(crate) output: String,
    /// What is said of a page in an index, if the output is one.
    pub(crate) summary: String,
    /// The messages.
    pub(crate) reports: String,
    /// The number of errors.
    pub(crate) errors: usize,
    /// The names of the files that were read.
    pub(crate) files: Vec<String>,
}

impl Ended {
    /// Nothing yet.
    pub(crate) fn new(alloc: Global) -> Ended {
        Ended {
            output: String::new(alloc),
            summary: String::new(alloc),
            reports: String::new(alloc),
            errors: 0,
            files: Vec::new(alloc),
        }
    }
}

/// A run over one source and the files that it includes.
#[derive(Drop)]
pub(crate) struct Run<'r, 'a> {
    alloc: Global,
    setting: Setting<'a>,
    warnings: Warnings,
    library: &'r mut Library<'a>,
    explainer: Explainer,
    reporter: Reporter<'a>,
    is_first_error_alone: bool,
    // How many errors are reported at most.
    most_reports: usize,
    output: &'r mut Output<'a>,
    reports: String,
    errors: usize,
    // The text and the byte offset of the last error, if it is in a file.
    fault_start: Option<(u32, usize)>,
    // The number of the text of the last message.
    said_of: u32,
    // The extensions whose macros were defined by the source.
    extensions: Vec<String>,
    // Whether the macros that are defined at the end are listed, and the list.
    is_listing: bool,
    listed: Option<String>,
    // Whether an `#include` was too deep, or one too many: files that include themselves would be read for ages.
    is_too_deep: bool,
    // The errors that the library lets pass.
    finder: FaultFinder,
    // The warnings that a macro of the source isn't used, from its end to its start, if it may include files that use
    // it.
    unused: Vec<Diagnostic<'a>>,
    // What was found in conditions.
    conditions: &'r Conditions,
    // What a page shows, if one is made.
    view: Option<View>,
    // The source, and the files that are open in it, each included by the one before.
    readings: Vec<Reading<'a>>,
}

impl<'r, 'a> Run<'r, 'a> {
    /// A run that has read nothing yet, with the texts of this output before the source.
    pub(crate) fn new(
        alloc: Global,
        reporter: Reporter<'a>,
        arguments: &Arguments<'_>,
        setting: Setting<'a>,
        library: &'r mut Library<'a>,
        conditions: &'r Conditions,
        output: &'r mut Output<'a>,
    ) -> Run<'r, 'a> {
        Run {
            alloc,
            setting,
            warnings: arguments.warnings,
            library,
            explainer: Explainer::new(alloc, setting.rules),
            reporter,
            is_first_error_alone: arguments.is_first_error_alone,
            most_reports: arguments.most_errors,
            output,
            reports: String::new(alloc),
            errors: 0,
            fault_start: None,
            said_of: SOURCE_TEXT,
            extensions: Vec::new(alloc),
            is_listing: arguments.form == Form::Definitions,
            listed: None,
            is_too_deep: false,
            finder: FaultFinder::new(alloc),
            unused: Vec::new(alloc),
            conditions,
            view: if arguments.is_page {
                Some(View::new(alloc))
            } else {
                None
            },
            readings: Vec::new(alloc),
        }
    }

    /// Reads a source, and gives what was found. Returns whether something else than the output of the tokens is
    /// printed.
    pub(crate) fn run(
        &mut self,
        items: &mut Preprocessor<'a>,
        source: File<'a>,
        arguments: &Arguments<'_>,
        ended: &mut Ended,
    ) -> Result<bool, Failure>
        requires { length source.text.now < 2 ^ 32 - 1 }
    {
        if let Some(view) = &mut self.view {
            view.take_changes(arguments.changes.as_slice())?;
        }
        self.open(source, SOURCE_TEXT, arguments.warnings)?;
        self.read_to_end(items, source.text)?;
        Ok(self.finish(ended)?)
    }

    // Takes all items of this source, and says what is left to be said.
    fn read_to_end(&mut self, items: &mut Preprocessor<'a>, source: &str) -> Result<(), Failure>
        requires { length source.now < 2 ^ 32 - 1 }
    {
        if !has_version(self.alloc, source)? {
            self.begin_before(items)?;
        }
        self.read(items)?;
        self.end()?;
        if self.is_listing && self.errors == 0 {
            self.list(items)?;
        }
        Ok(())
    }

    // Gives what the run found. Returns whether there is a page or a list, which is the output then.
    fn finish(&mut self, ended: &mut Ended) -> Result<bool, AllocError> {
        ended.errors = self.errors;
        mem::swap(&mut ended.reports, &mut self.reports);
        self.library.push_names(&mut ended.files)?;
        if self.view.is_some() {
            self.make_page(ended)?;
            return Ok(true);
        }
        match &mut self.listed {
            Some(listed) => {
                mem::swap(&mut ended.output, listed);
                Ok(true)
            }
            None => Ok(false),
        }
    }

    // Makes the page.
    fn make_page(&mut self, ended: &mut Ended) -> Result<(), AllocError> {
        let conditions = self.conditions;
        let definitions = self.setting.definitions;
        let runtime = self.library.runtime();
        let Some(view) = &mut self.view else {
            return Ok(());
        };
        view.trace = self.output.end_trace();
        view.sort()?;
        let texts = self.output.texts();
        let rules = self.setting.rules;
        make_page(
            self.alloc,
            runtime,
            texts,
            rules,
            definitions,
            conditions,
            &*view,
            ended,
        )
    }

    // Takes all items, or those up to the first error.
    fn read(&mut self, items: &mut Preprocessor<'a>) -> Result<(), Failure> {
        // A macro that an `#extension` line defines and a file that is included add to what is left, so the calls are
        // counted.
        for _ in 0..u64::MAX {
            let Some(item) = self.next_item(items) else {
                return Ok(());
            };
            let end = self.take_item(items, &item);
            drop(item);
            if !end? {
                return Ok(());
            }
        }
        Ok(())
    }

    // Puts the next tokens, up to what isn't one: those that `next` would give, after errors too. Returns what comes
    // then.
    fn next_item(&mut self, items: &mut Preprocessor<'a>) -> Option<PreprocessorItem>
        ensures given { GivesTokens Takes (λ _ _. ⊤) (λ _. false) items.old self.old.output.now result items.new
            self.new.output.now }
        ensures no_token { is_ordinary_token result ≡ false }
    {
        items.give_tokens(self.output)
    }

    // Takes what isn't an ordinary token. Returns whether more is read.
    fn take_item(
        &mut self,
        items: &mut Preprocessor<'a>,
        item: &PreprocessorItem,
    ) -> Result<bool, Failure>
        requires { is_ordinary_token (Some item.now) ≡ false }
    {
        match item {
            Ok(token) => self.take_token(items, token)?,
            Err((PreprocessorError::OutOfMemory, _)) => {
                self.end_over_budget(items)?;
                return Ok(false);
            }
            Err((error, _)) => self.take_refusal(items, error)?,
        }
        Ok(!self.is_over() && !self.is_too_deep)
    }

    // Takes a directive, and includes the lines that come behind a `#version`.
    fn take_token(&mut self, items: &mut Preprocessor<'a>, token: &Token) -> Result<(), Failure>
        requires { is_ordinary token.now.value ≡ false }
    {
        self.take_directive(items, token)?;
        if matches!(token.value, TokenValue::Version(_)) {
            self.begin_before(items)?;
        }
        Ok(())
    }

    // Takes what the library refuses: an `#include`, or an error.
    fn take_refusal(
        &mut self,
        items: &mut Preprocessor<'a>,
        error: &PreprocessorError,
    ) -> Result<(), Failure> {
        match items.include_line() {
            Some(line) => self.take_include(items, line),
            None => Ok(self.take_error(error, items.place(), items.origin())?),
        }
    }

    // Lists the macros that are defined.
    fn list(&mut self, items: &mut Preprocessor<'a>) -> Result<(), Failure> {
        let rules = self.setting.rules;
        let texts = self.output.texts();
        let definitions = self.setting.definitions;
        let extensions = self.extensions.as_slice();
        let mut listing = Listing::of(self.alloc, rules, texts, definitions, extensions)?;
        let end = self.fill(&mut listing, items);
        drop(listing);
        end
    }

    // Lists which of the names are defined.
    fn fill(&mut self, listing: &mut Listing, items: &mut Preprocessor<'a>) -> Result<(), Failure> {
        let text = self.library.keep(listing.text.as_str())?;
        if text.len() >= SOURCE_LIMIT || items.include(text).is_err() {
            return Err(Failure::OutOfMemory);
        }
        for _ in 0..u64::MAX {
            let Some(item) = items.next() else {
                break;
            };
            let end = take_listed(listing, items.place().line, &item);
            drop(item);
            end?;
        }
        self.listed = Some(listing.finish()?);
        Ok(())
    }

    // Whether nothing more is to be said: only the first error is, and it was.
    fn is_over(&self) -> bool {
        self.is_first_error_alone && self.errors > 0
    }

    // Says that the budget is spent, if it is, and not the memory.
    fn end_over_budget(&mut self, items: &Preprocessor<'_>) -> Result<(), Failure> {
        if !items.is_over_budget() {
            return Err(Failure::OutOfMemory);
        }
        let steps = self.setting.budget.unwrap_or(u64::MAX);
        let text = self.output.last_text();
        let texts = self.output.texts();
        let fault = self
            .finder
            .over_budget(texts, text, steps, items.reached())?;
        Ok(self.push_fault(fault)?)
    }

    // Takes a directive, or the error that it has and that the library lets pass, unless it is on the line of the last
    // error.
    fn take_directive(
        &mut self,
        items: &mut Preprocessor<'a>,
        token: &Token,
    ) -> Result<(), AllocError>
        requires { is_ordinary token.now.value ≡ false }
    {
        let line = items.call_line().unwrap_or(token.location.line);
        self.put_directive(items.origin().text, token, line)?;
        if define_extension(items, &token.value, self.setting.extensions)? {
            self.output.add_content(EXTENSION_CONTENT)?;
            if let Some(name) = turned_on(&token.value) {
                self.extensions.push(String::from_str(self.alloc, name)?)?;
            }
        }
        Ok(())
    }

    // Puts a directive of this text, or says the error that it has, unless it is on the line of the last error.
    fn put_directive(&mut self, text: u32, token: &Token, line: u32) -> Result<(), AllocError>
        requires { is_ordinary token.now.value ≡ false }
    {
        self.go_back_to(text)?;
        if self.is_over() || self.output.is_left_out(text, line) {
            return Ok(());
        }
        match self.finder.fault_of(self.output.texts(), text, token)? {
            Some(fault) => {
                self.output.leave_out(text, token.location.line);
                self.push_fault(fault)
            }
            None => self.put_faultless(text, token),
        }
    }

    // Puts a directive that has no error, unless it is the `#pragma once` of a file that is included.
    fn put_faultless(&mut self, text: u32, token: &Token) -> Result<(), AllocError>
        requires { is_ordinary token.now.value ≡ false }
    {
        if is_once(&token.value) {
            self.read_once(text);
            if text != SOURCE_TEXT {
                return Ok(());
            }
        }
        self.output.push_directive(text, token)
    }

    // Reads the file of this text no more.
    fn read_once(&mut self, text: u32) {
        if let Some(file) = self.output.texts().file(text) {
            self.library.read_once(file.number);
        }
    }
}

// Takes what the text of a list gives at a line of it.
fn take_listed(
    listing: &mut Listing,
    line: u32,
    item: &PreprocessorItem,
) -> Result<(), AllocError> {
    match item {
        Ok(token) => listing.take_token(token.location.line),
        Err((PreprocessorError::OutOfMemory, _)) => return Err(AllocError),
        Err(_) => listing.take_error(line),
    }
    Ok(())
}
