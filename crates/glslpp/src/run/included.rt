//! The files that a source includes, as a run reads them.

ghost use Rattle.std.specs.Prelude.{◌-◌, ◌^◌, ◌<◌, length};

use crate::including::Answer;
use crate::run::{MOST_TEXTS, Reading, Run};
use glslpp_parts::diagnostic::Diagnostic;
use glslpp_parts::failure::Failure;
use glslpp_parts::fault::{FaultKind, Refusal};
use glslpp_parts::include_line::{Asked, Header, asked_file};
use glslpp_parts::inspection::inspect;
use glslpp_parts::texts::{File, Inclusion};
use glslpp_parts::used_names::UsedNames;
use glslpp_parts::warning::{Warning, Warnings};
use pp_rs::SOURCE_LIMIT;
use pp_rs::pp::{IncludeError, Preprocessor};
use pp_rs::token::Location;
use std::alloc::AllocError;

impl<'r, 'a> Run<'r, 'a> {
    // Takes an `#include`, of which this is the line after its word.
    pub(super) fn take_include(
        &mut self,
        items: &mut Preprocessor<'a>,
        line: Location,
    ) -> Result<(), Failure> {
        let inclusion = Inclusion {
            text: items.origin().text,
            location: items.place(),
        };
        let text = inclusion.text;
        self.go_back_to(text)?;
        match asked_file(self.alloc, self.output.texts().text(text), line)? {
            Asked::File(header) => self.include_found(items, header, inclusion),
            Asked::Refused(refusal) => Ok(self.refuse_include(text, refusal)?),
        }
    }

    // Includes the file that is found for this name, or says why there is none.
    fn include_found(
        &mut self,
        items: &mut Preprocessor<'a>,
        header: Header<'_>,
        inclusion: Inclusion,
    ) -> Result<(), Failure> {
        let (text, location) = (inclusion.text, header.location);
        match self.library.find(header, self.output.texts().name(text))? {
            Answer::Nothing => Ok(()),
            Answer::Refused(message) => {
                let refusal = Refusal {
                    kind: FaultKind::MissingInclude,
                    location,
                    message,
                };
                Ok(self.refuse_include(text, refusal)?)
            }
            Answer::Text(file) => self.include(items, file, inclusion, location),
        }
    }

    // Includes a file, whose name has this place, or says why it isn't included.
    fn include(
        &mut self,
        items: &mut Preprocessor<'a>,
        file: File<'a>,
        inclusion: Inclusion,
        location: Location,
    ) -> Result<(), Failure> {
        if file.text.len() >= SOURCE_LIMIT || file.read.len() >= SOURCE_LIMIT {
            let refusal = Refusal {
                kind: FaultKind::MissingInclude,
                location,
                message: String::from_str(self.alloc, "the file is too long")?,
            };
            return Ok(self.refuse_include(inclusion.text, refusal)?);
        }
        if self.output.texts().count() > MOST_TEXTS {
            let message = format!(in self.alloc; "more than {MOST_TEXTS} files are included")?;
            return Ok(self.refuse_deep(inclusion.text, location, message)?);
        }
        match items.include(file.read) {
            Ok(()) => Ok(self.begin(file, inclusion)?),
            Err(IncludeError::OutOfMemory) => Err(Failure::OutOfMemory),
            Err(error) => {
                let message = format!(in self.alloc; "{error}")?;
                Ok(self.refuse_deep(inclusion.text, location, message)?)
            }
        }
    }

    // Includes the lines of the command line that come before the source but for its `#version`, the first time.
    pub(super) fn begin_before(&mut self, items: &mut Preprocessor<'a>) -> Result<(), Failure> {
        let Some(file) = self.library.take_before() else {
            return Ok(());
        };
        if file.text.len() >= SOURCE_LIMIT || file.read.len() >= SOURCE_LIMIT {
            return Err(Failure::OutOfMemory);
        }
        if items.include(file.read).is_err() {
            return Err(Failure::OutOfMemory);
        }
        let text = self.output.texts().count();
        self.output.include(file, None)?;
        let findings = Vec::new(self.alloc);
        self.readings.push(Reading { text, findings })?;
        self.forget_used(file.text)?;
        Ok(())
    }

    // Begins with a file that is included.
    fn begin(&mut self, file: File<'a>, inclusion: Inclusion) -> Result<(), AllocError>
        requires { length file.text.now < 2 ^ 32 - 1 }
    {
        self.say_findings_before(inclusion.location.line)?;
        let text = self.output.texts().count();
        self.output.include(file, Some(inclusion))?;
        self.open(file, text, self.warnings.in_included())?;
        if self.warnings.unused_macros {
            self.forget_used(file.text)?;
        }
        Ok(())
    }

    // Begins with a file whose text has this number, in which these warnings are on.
    pub(super) fn open(
        &mut self,
        file: File<'a>,
        text: u32,
        warnings: Warnings,
    ) -> Result<(), AllocError>
        requires { length file.text.now < 2 ^ 32 - 1 }
    {
        let findings = Vec::new(self.alloc);
        self.readings.push(Reading { text, findings })?;
        let undefined = self.conditions.undefined.as_slice();
        let rules = self.setting.rules;
        let mut found = inspect(self.alloc, file, text, warnings, rules, undefined)?;
        let end = self.keep_findings(&mut found, file.text.contains("include"));
        drop(found);
        end
    }

    // Keeps what was found in the last file that is open, from its end to its start.
    fn keep_findings(
        &mut self,
        found: &mut Vec<Diagnostic<'a>>,
        may_include: bool,
    ) -> Result<(), AllocError> {
        for _ in 0..found.len() {
            if let Some(finding) = found.pop() {
                self.keep_finding(finding, may_include)?;
            }
        }
        Ok(())
    }

    // Keeps a finding until its line is passed. That a macro isn't used is said at the end, if a file that is included
    // may use it.
    fn keep_finding(
        &mut self,
        finding: Diagnostic<'a>,
        may_include: bool,
    ) -> Result<(), AllocError> {
        let is_last = may_include && finding.warning == Some(Warning::UnusedMacros);
        match self.readings.last_mut() {
            Some(reading) if !is_last => reading.findings.push(finding)?,
            _ => self.unused.push(finding)?,
        }
        Ok(())
    }

    // Forgets that macros of the source aren't used which an included text uses.
    fn forget_used(&mut self, text: &str) -> Result<(), AllocError>
        requires { length text.now < 2 ^ 32 - 1 }
    {
        let used = UsedNames::of(self.alloc, self.setting.rules, text)?;
        self.unused.retain(|finding| !is_of_used(finding, &used));
        drop(used);
        Ok(())
    }

    // Says that an `#include` is too deep or one too many, and reads no more.
    fn refuse_deep(
        &mut self,
        text: u32,
        location: Location,
        message: String,
    ) -> Result<(), AllocError> {
        self.is_too_deep = true;
        let refusal = Refusal {
            kind: FaultKind::DeepInclude,
            location,
            message,
        };
        self.refuse_include(text, refusal)
    }

    fn refuse_include(&mut self, text: u32, refusal: Refusal) -> Result<(), AllocError> {
        let fault = self
            .finder
            .refused_include(self.output.texts(), text, refusal);
        self.push_fault(fault)
    }
}

// Whether a warning says that a macro isn't used that has one of these names.
fn is_of_used(finding: &Diagnostic<'_>, used: &UsedNames) -> bool {
    match finding.site.name() {
        Some(name) => used.has(name),
        None => false,
    }
}
