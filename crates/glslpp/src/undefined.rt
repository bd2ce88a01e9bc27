//! The search of the conditions of a source and of the files that it includes.

use crate::including::{Answer, Library};
use crate::run::MOST_TEXTS;
use glslpp_parts::extensions::define_extension;
use glslpp_parts::failure::Failure;
use glslpp_parts::include_line::{Asked, Header};
use glslpp_parts::pragma::is_once;
use glslpp_parts::rule_set::Setting;
use glslpp_parts::texts::{File, Inclusion};
use glslpp_parts::undefined_names::{Conditions, UndefinedNames};
use pp_rs::SOURCE_LIMIT;
use pp_rs::pp::{IncludeError, Preprocessor, PreprocessorItem, SOURCE_TEXT};
use pp_rs::token::{PreprocessorError, Token};
use std::alloc::{AllocError, Global};

/// Finds the names that are not defined in conditions that are computed, and the branches that are read, up to the
/// first condition with an error, and no further than the budget allows. If they are explained, also what they became,
/// and where macros are defined.
pub(crate) fn search_conditions<'x>(
    alloc: Global,
    library: &mut Library<'x>,
    source: File<'x>,
    setting: Setting<'x>,
    is_explaining: bool,
) -> Result<Conditions, Failure> {
    let mut search = Search {
        library,
        setting,
        names: UndefinedNames::new(alloc, setting.rules, source, is_explaining)?,
    };
    let end = search.run(alloc);
    search.library.forget_once();
    match is_whole(end) {
        Ok(is_whole) => Ok(search.names.finish(is_whole)?),
        Err(error) => {
            drop(search);
            Err(Failure::from(error))
        }
    }
}

// Whether a search came to its end, if memory lasted.
fn is_whole(end: Result<bool, Failure>) -> Result<bool, AllocError> {
    match end {
        Ok(is_whole) => Ok(is_whole),
        Err(Failure::Told(_)) => Ok(false),
        Err(Failure::OutOfMemory) => Err(AllocError),
    }
}

// The search for names.
#[derive(Drop)]
struct Search<'l, 'x> {
    library: &'l mut Library<'x>,
    setting: Setting<'x>,
    names: UndefinedNames<'x>,
}

impl<'l, 'x> Search<'l, 'x> {
    // Asks of the source and what it includes. Returns whether the search came to the end.
    fn run(&mut self, alloc: Global) -> Result<bool, Failure> {
        let text = self.library.keep(self.names.probe_text(SOURCE_TEXT))?;
        if text.len() >= SOURCE_LIMIT {
            return Ok(false);
        }
        let mut items = self.setting.begin(alloc, text)?;
        let end = self.read(&mut items);
        drop(items);
        end
    }

    // Takes what the preprocessor gives for the questions. Returns whether it came to the end.
    fn read(&mut self, items: &mut Preprocessor<'x>) -> Result<bool, Failure> {
        self.names.define(items, self.setting.definitions)?;
        if let Some(before) = self.library.before() {
            let _ = self.include(items, before, None)?;
        }
        // Files that are included add to what is left, so the items are counted.
        for _ in 0..u64::MAX {
            let Some(item) = items.next() else {
                return Ok(true);
            };
            let goes_on = self.take_item(items, &item);
            drop(item);
            if !goes_on? {
                return Ok(false);
            }
        }
        Ok(false)
    }

    // Takes what the preprocessor gives, and returns whether what comes after it can be told.
    fn take_item(
        &mut self,
        items: &mut Preprocessor<'x>,
        item: &PreprocessorItem,
    ) -> Result<bool, Failure> {
        match item {
            Ok(token) => {
                self.take(items, token)?;
                Ok(true)
            }
            Err((PreprocessorError::OutOfMemory, _)) if items.is_over_budget() => Ok(false),
            Err((PreprocessorError::OutOfMemory, _)) => Err(Failure::OutOfMemory),
            Err(_) if items.include_line().is_some() => self.take_include(items),
            Err(_) => Ok(self.names.take_error(items.place(), items.origin())),
        }
    }

    fn take(&mut self, items: &mut Preprocessor<'x>, token: &Token) -> Result<(), AllocError> {
        let origin = items.origin();
        if define_extension(items, &token.value, self.setting.extensions)? {
            self.names.add_extension(origin.text, token.location.line)?;
        }
        if is_once(&token.value)
            && let Some(file) = self.names.texts().file(origin.text)
        {
            self.library.read_once(file.number);
        }
        self.names.take(token, origin)
    }

    // Includes the file that an `#include` asks for, if it is there. Returns whether it isn't too deep or one too many,
    // which is an error of the run.
    fn take_include(&mut self, items: &mut Preprocessor<'x>) -> Result<bool, Failure> {
        let inclusion = Inclusion {
            text: items.origin().text,
            location: items.place(),
        };
        let text = inclusion.text;
        match self.names.asked(text, inclusion.location.line)? {
            Some(Asked::File(header)) => self.include_found(items, header, inclusion),
            Some(Asked::Refused(_)) | None => Ok(true),
        }
    }

    // Includes the file that is found for this name.
    fn include_found(
        &mut self,
        items: &mut Preprocessor<'x>,
        header: Header<'_>,
        inclusion: Inclusion,
    ) -> Result<bool, Failure> {
        let includer = self.names.texts().name(inclusion.text);
        match self.library.find(header, includer)? {
            Answer::Text(file) => self.include(items, file, Some(inclusion)),
            Answer::Nothing | Answer::Refused(_) => Ok(true),
        }
    }

    fn include(
        &mut self,
        items: &mut Preprocessor<'x>,
        file: File<'x>,
        inclusion: Option<Inclusion>,
    ) -> Result<bool, Failure> {
        let number = self.names.include(file, inclusion)?;
        let text = self.library.keep(self.names.probe_text(number))?;
        if number > MOST_TEXTS || text.len() >= SOURCE_LIMIT {
            return Ok(false);
        }
        match items.include(text) {
            Ok(()) => Ok(true),
            Err(IncludeError::OutOfMemory) => Err(Failure::OutOfMemory),
            Err(_) => Ok(false),
        }
    }
}
