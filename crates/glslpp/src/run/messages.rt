//! What a run says of a source and of the files that it includes.

use crate::run::Run;
use glslpp_parts::comment_check::open_comment;
use glslpp_parts::diagnostic::{Diagnostic, Severity, Site};
use glslpp_parts::fault::Fault;
use glslpp_parts::macro_use::MacroUse;
use pp_rs::pp::{Origin, SOURCE_TEXT};
use pp_rs::token::{Location, PreprocessorError};
use std::alloc::AllocError;

impl<'r, 'a> Run<'r, 'a> {
    // Ends the files that were read behind this one, if it is open.
    pub(super) fn go_back_to(&mut self, text: u32) -> Result<(), AllocError> {
        if !self.readings.iter().any(|reading| reading.text == text) {
            return Ok(());
        }
        for _ in 0..self.readings.len() {
            if self.open_text() == Some(text) {
                return Ok(());
            }
            self.end_last()?;
        }
        Ok(())
    }

    // The text of the last file that is open.
    fn open_text(&self) -> Option<u32> {
        match self.readings.last() {
            Some(last) => Some(last.text),
            None => None,
        }
    }

    // Says what is left to be said of the last file that is open, which is ended.
    fn end_last(&mut self) -> Result<(), AllocError> {
        let Some(text) = self.open_text() else {
            return Ok(());
        };
        if !self.is_over() {
            self.say_open_comment(text)?;
        }
        self.say_findings_before(u32::MAX)?;
        drop(self.readings.pop());
        if text == SOURCE_TEXT {
            self.say_unused()?;
        }
        Ok(())
    }

    // Says that a text ends within a comment, if it does.
    fn say_open_comment(&mut self, text: u32) -> Result<(), AllocError> {
        let from = if text == SOURCE_TEXT {
            self.output.read().end as usize
        } else {
            0
        };
        let texts = self.output.texts();
        match open_comment(texts.text(text), from) {
            Some(location) => {
                let fault = self.finder.unterminated_comment(texts, text, location)?;
                self.push_fault(fault)
            }
            None => Ok(()),
        }
    }

    // Says which macros of the source aren't used.
    fn say_unused(&mut self) -> Result<(), AllocError> {
        for _ in 0..self.unused.len() {
            if let Some(finding) = self.unused.pop() {
                self.say_finding(finding)?;
            }
        }
        Ok(())
    }

    // Takes an error that the library let pass.
    pub(super) fn push_fault(&mut self, fault: Fault<'a>) -> Result<(), AllocError> {
        let name = fault.kind.name();
        let end = self.push_error(name, fault.text, fault.location, &fault.diagnostic);
        drop(fault);
        end
    }

    // Takes an error, unless it is on the line of the last one or only follows from another. If it comes from a macro,
    // its line is that on which the macro was used.
    pub(super) fn take_error(
        &mut self,
        error: &PreprocessorError,
        location: Location,
        origin: Origin,
    ) -> Result<(), AllocError> {
        if let Some((text, line)) = self.line_of(location, origin) {
            self.go_back_to(text)?;
            if self.output.is_left_out(text, line) {
                return Ok(());
            }
            self.output.leave_out(text, line);
        }
        let texts = self.output.texts();
        let used = MacroUse::of(self.alloc, texts, origin)?;
        let explained = self
            .explainer
            .explain(texts, error, origin.text, location, used)?;
        let end = match &explained {
            Some(diagnostic) => self.push_error(error.name(), origin.text, location, diagnostic),
            None => Ok(()),
        };
        drop(explained);
        end
    }

    // The text and the line in it that has an item, or the call of the macro that gave it, if it is in a file.
    fn line_of(&self, location: Location, origin: Origin) -> Option<(u32, u32)> {
        match origin.call {
            Some(call) => Some((call.text, call.line)),
            None if self.output.texts().is_file(origin.text) => Some((origin.text, location.line)),
            None => None,
        }
    }

    // Takes an error with this name at a place in this text, after what the warnings found before its line.
    fn push_error(
        &mut self,
        name: &str,
        text: u32,
        location: Location,
        diagnostic: &Diagnostic<'a>,
    ) -> Result<(), AllocError> {
        if let Some(line) = diagnostic.site.line()
            && diagnostic.site.text() == self.open_text()
        {
            self.say_findings_before(line)?;
        }
        if self.is_over() {
            return Ok(());
        }
        self.fault_start = diagnostic.site.point();
        let message = diagnostic.message.as_str();
        self.output.push_error(name, text, location, message)?;
        self.say(diagnostic)
    }

    // Says what the warnings found before a line of the last file that is open.
    pub(super) fn say_findings_before(&mut self, line: u32) -> Result<(), AllocError> {
        for _ in 0..u32::MAX {
            let Some(finding) = self.next_finding(line) else {
                return Ok(());
            };
            self.say_finding(finding)?;
        }
        Ok(())
    }

    // The next finding of the last file that is open, if it is before a line.
    fn next_finding(&mut self, line: u32) -> Option<Diagnostic<'a>> {
        let reading = self.readings.last_mut()?;
        match reading.findings.last() {
            Some(finding) if is_before(finding, line) => reading.findings.pop(),
            _ => None,
        }
    }

    // Says what a warning found, unless it is at the place of the last error.
    fn say_finding(&mut self, finding: Diagnostic<'a>) -> Result<(), AllocError> {
        let end = if self.is_over() || self.is_at_error(&finding) {
            Ok(())
        } else {
            self.say(&finding)
        };
        drop(finding);
        end
    }

    fn is_at_error(&self, finding: &Diagnostic<'_>) -> bool {
        let start = finding.site.point();
        start.is_some() && start == self.fault_start
    }

    // Says a message, unless it is one error too many.
    fn say(&mut self, diagnostic: &Diagnostic<'a>) -> Result<(), AllocError> {
        if diagnostic.severity == Severity::Error {
            self.errors = self.errors.saturating_add(1);
            if self.errors > self.most_reports {
                return Ok(());
            }
        }
        if let Some(view) = &mut self.view {
            view.say(diagnostic)?;
        }
        let text = diagnostic.site.text().unwrap_or(SOURCE_TEXT);
        if text != self.said_of {
            self.said_of = text;
            self.reporter
                .push_inclusions(&mut self.reports, self.output.texts(), text)?;
        }
        self.reporter
            .push(&mut self.reports, self.output.texts(), diagnostic)
    }

    // Says what is left to be said at the end of the source.
    pub(super) fn end(&mut self) -> Result<(), AllocError> {
        for _ in 0..self.readings.len() {
            self.end_last()?;
        }
        self.push_rest()
    }

    // Says how many errors are not reported, if there are any.
    fn push_rest(&mut self) -> Result<(), AllocError> {
        let rest = self.errors.saturating_sub(self.most_reports);
        if rest == 0 {
            return Ok(());
        }
        let plural = if rest == 1 { "" } else { "s" };
        let diagnostic = Diagnostic {
            severity: Severity::Note,
            warning: None,
            message: format!(in self.alloc;
                "{rest} more error{plural}: `--max-errors 0` reports all"
            )?,
            is_of_cause: false,
            site: Site::InFile,
            note: None,
            used: None,
        };
        let end = self
            .reporter
            .push(&mut self.reports, self.output.texts(), &diagnostic);
        drop(diagnostic);
        end
    }
}

// Whether a message is on a line before this one.
fn is_before(diagnostic: &Diagnostic<'_>, line: u32) -> bool {
    match diagnostic.site.line() {
        Some(other) => other < line,
        None => true,
    }
}
