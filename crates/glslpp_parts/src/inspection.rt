//! What the warnings find in a file: it is read in live and dead text alike.

ghost use Rattle.std.specs.Prelude.{◌≡◌, ◌-◌, ◌^◌, ◌<◌, [], IfOk, OnOk, length};
ghost use Rattle.glslpp_parts.specs.Warnings.{no_warnings};

use crate::comment_check::{count_line_ends, is_continued, nested_comment};
use crate::diagnostic::{Diagnostic, Note, Site};
use crate::explainer::is_near;
use crate::findings::Findings;
use crate::reading::{TokenReader, read_tokens};
use crate::texts::File;
use crate::undefined_names::UndefinedName;
use crate::used_names::UsedNames;
use crate::warning::{Warning, Warnings};
use pp_rs::lexer::{Comments, Token, TokenValue};
use pp_rs::rules::Rules;
use pp_rs::token::{Location, Punct};
use std::alloc::{AllocError, Global};

/// Returns what the warnings find in a file whose text has this number and is read by these rules, in its order. These
/// names are not defined in conditions. Without a warning nothing is read.
pub fn inspect<'a>(
    alloc: Global,
    file: File<'a>,
    number: u32,
    warnings: Warnings,
    rules: Rules,
    undefined: &[UndefinedName],
) -> Result<Vec<Diagnostic<'a>>, AllocError>
    requires { length file.text.now < 2 ^ 32 - 1 }
    ensures { warnings ≡ no_warnings → IfOk result (λ found. found.items ≡ []) }
{
    if !warnings.has_any() {
        return Ok(Vec::new(alloc));
    }
    find(alloc, file, number, warnings, rules, undefined)
}

fn find<'a>(
    alloc: Global,
    file: File<'a>,
    number: u32,
    warnings: Warnings,
    rules: Rules,
    undefined: &[UndefinedName],
) -> Result<Vec<Diagnostic<'a>>, AllocError>
    requires { length file.text.now < 2 ^ 32 - 1 }
{
    let mut findings = Findings::new(alloc, file, number, warnings);
    match inspect_text(alloc, file.text, rules, &mut findings, number, undefined) {
        Ok(()) => findings.in_order(),
        Err(error) => {
            drop(findings);
            Err(error)
        }
    }
}

// Finds what the warnings say of a text with this number.
fn inspect_text(
    alloc: Global,
    text: &str,
    rules: Rules,
    findings: &mut Findings<'_>,
    number: u32,
    undefined: &[UndefinedName],
) -> Result<(), AllocError>
    requires { length text.now < 2 ^ 32 - 1 }
{
    if findings.is_looking_for(Warning::Comment) {
        inspect_comments(findings, text)?;
    }
    for name in undefined {
        if name.text == number {
            findings.push(Warning::Undef, name.location, name.message.as_str())?;
        }
    }
    let mut used = UsedNames::none(alloc);
    let end = inspect_tokens(alloc, text, rules, findings, &mut used);
    drop(used);
    end
}

// Finds what the warnings say of the tokens of a text, whose names are noted.
fn inspect_tokens(
    alloc: Global,
    text: &str,
    rules: Rules,
    findings: &mut Findings<'_>,
    used: &mut UsedNames,
) -> Result<(), AllocError>
    requires { length text.now < 2 ^ 32 - 1 }
{
    if findings.is_looking_for(Warning::UnusedMacros) {
        used.read(rules, text)?;
    }
    let mut inspector = Inspector::new(alloc, findings, used);
    let end = read_tokens(alloc, rules, text, &mut inspector);
    drop(inspector);
    end
}

// Finds comments in which text may be lost, at most one on each line.
fn inspect_comments(findings: &mut Findings<'_>, source: &str) -> Result<(), AllocError>
    requires { length source.now < 2 ^ 32 - 1 }
{
    let mut last_line = 0;
    for place in Comments::new(source) {
        let (start, end) = (place.start as usize, place.end as usize);
        let comment = source.get(start..end).unwrap_or("");
        if place.line != last_line && inspect_comment(findings, comment, place)? {
            last_line = place.line;
        }
    }
    Ok(())
}

// Whether text may be lost in a comment.
fn inspect_comment(
    findings: &mut Findings<'_>,
    comment: &str,
    place: Location,
) -> Result<bool, AllocError> {
    if let Some(offset) = nested_comment(comment) {
        let before = comment.get(..offset).unwrap_or("");
        let line = place.line.saturating_add(count_line_ends(before));
        let start = (place.start as usize).saturating_add(offset);
        let end = start.saturating_add(2);
        findings.push_at(Warning::Comment, line, start, end, "`/*` within a comment")?;
        return Ok(true);
    }
    if is_continued(comment) {
        let start = place.start as usize;
        let end = start.saturating_add(2);
        let text = "the comment goes on after the `\\` at the end of its line";
        findings.push_at(Warning::Comment, place.line, start, end, text)?;
        return Ok(true);
    }
    Ok(false)
}

/// How far a line was read.
#[derive(Clone, Copy)]
enum Stage {
    /// Past what is looked at.
    Passed,
    /// Up to the `#`.
    Hash,
    /// Up to the word `define`.
    Define,
    /// Up to the name of a definition.
    Name,
    /// Up to the word `undef`.
    Undef,
    /// Up to the word `ifdef` or `ifndef`.
    Condition,
    /// Up to where the line should end.
    End,
}

/// The name that an include guard tests.
#[derive(Drop)]
struct Guard<'a> {
    name: String,
    site: Site<'a>,
}

/// What is found, and how far the source was read.
#[derive(Drop)]
struct Inspector<'f, 'a> {
    alloc: Global,
    findings: &'f mut Findings<'a>,
    used: &'f mut UsedNames,
    stage: Stage,
    // How many directives were read.
    directives: usize,
    // The name that the first directive tests, if it is an `#ifndef`.
    guard: Option<Guard<'a>>,
}

impl<'f, 'a> TokenReader for Inspector<'f, 'a> {
    fn take(&mut self, token: &Token) -> Result<(), AllocError> {
        let end = self.check(token);
        self.stage = self.next_stage(token);
        end
    }

    fn take_error(&mut self) {
        self.stage = Stage::Passed;
    }
}

impl<'f, 'a> Inspector<'f, 'a> {
    fn new(
        alloc: Global,
        findings: &'f mut Findings<'a>,
        used: &'f mut UsedNames,
    ) -> Inspector<'f, 'a> {
        Inspector {
            alloc,
            findings,
            used,
            stage: Stage::Passed,
            directives: 0,
            guard: None,
        }
    }

    // Looks at a token, up to which the line was read.
    fn check(&mut self, token: &Token) -> Result<(), AllocError> {
        let location = token.location;
        match (self.stage, &token.value) {
            (_, TokenValue::NewLine) => Ok(()),
            (_, TokenValue::Hash) if token.start_of_line => Ok(()),
            (Stage::Define, TokenValue::Ident(name)) => self.take_defined(name.as_str(), location),
            (Stage::Undef, TokenValue::Ident(name)) => self.check_reserved(name.as_str(), location),
            (Stage::Condition, TokenValue::Ident(name)) => {
                self.take_tested(name.as_str(), location)
            }
            (Stage::Name, TokenValue::Punct(Punct::LeftParen)) => Ok(()),
            (Stage::Name, _) if !token.leading_whitespace => {
                let text = "no space between the macro's name and its body";
                self.findings.push(Warning::Space, location, text)
            }
            (Stage::End, _) => {
                let text = "more words than the directive takes";
                self.findings.push(Warning::ExtraTokens, location, text)
            }
            (_, TokenValue::Punct(punct)) if token.start_of_line => {
                self.take_mark(*punct, location)
            }
            _ => Ok(()),
        }
    }

    // How far the line is read with this token.
    fn next_stage(&mut self, token: &Token) -> Stage {
        match (self.stage, &token.value) {
            (_, TokenValue::Hash) if token.start_of_line => Stage::Hash,
            (Stage::Hash, TokenValue::Ident(word)) => self.stage_after(word.as_str()),
            (Stage::Define, TokenValue::Ident(_)) => Stage::Name,
            (Stage::Undef | Stage::Condition, TokenValue::Ident(_)) => Stage::End,
            _ => Stage::Passed,
        }
    }

    // Takes the word of a directive.
    fn stage_after(&mut self, word: &str) -> Stage {
        self.directives = self.directives.saturating_add(1);
        match word {
            "define" => Stage::Define,
            "undef" => Stage::Undef,
            "ifdef" | "ifndef" => Stage::Condition,
            "else" | "endif" => Stage::End,
            _ => Stage::Passed,
        }
    }

    // Takes the name of a `#define`.
    fn take_defined(&mut self, name: &str, location: Location) -> Result<(), AllocError> {
        self.check_reserved(name, location)?;
        self.check_used(name, location)?;
        self.check_guard(name, location)
    }

    fn check_reserved(&mut self, name: &str, location: Location) -> Result<(), AllocError> {
        if !is_reserved(name) {
            return Ok(());
        }
        let text = format!(in self.alloc; "`{name}` is a name of GLSL's own")?;
        self.findings
            .push(Warning::Reserved, location, text.as_str())
    }

    // Looks whether a macro is used, at its first definition.
    fn check_used(&mut self, name: &str, location: Location) -> Result<(), AllocError> {
        if !self.findings.is_looking_for(Warning::UnusedMacros)
            || name.starts_with("GL_")
            || self.used.has(name)
        {
            return Ok(());
        }
        self.used.add(name)?;
        let text = format!(in self.alloc; "macro `{name}` is not used")?;
        self.findings
            .push(Warning::UnusedMacros, location, text.as_str())
    }

    // Keeps the name that the first directive tests.
    fn take_tested(&mut self, name: &str, location: Location) -> Result<(), AllocError> {
        if self.directives != 1 || !self.findings.is_looking_for(Warning::Guard) {
            return Ok(());
        }
        self.guard = Some(Guard {
            name: String::from_str(self.alloc, name)?,
            site: self.findings.site(location),
        });
        Ok(())
    }

    // Compares the name that the second directive defines with the one that the first tests.
    fn check_guard(&mut self, name: &str, location: Location) -> Result<(), AllocError> {
        let Some(guard) = self.guard.take() else {
            return Ok(());
        };
        let end = self.compare_guard(&guard, name, location);
        drop(guard);
        end
    }

    fn compare_guard(
        &mut self,
        guard: &Guard<'a>,
        name: &str,
        location: Location,
    ) -> Result<(), AllocError> {
        let tested = guard.name.as_str();
        if self.directives != 2 || !is_near(name.as_bytes(), tested.as_bytes()) || name == tested {
            return Ok(());
        }
        let text = format!(in self.alloc;
            "`{name}` is not the name that the guard tests, did you mean `{tested}`?"
        )?;
        let note = Note {
            message: "the guard is tested here",
            site: guard.site,
        };
        self.findings
            .push_noted(Warning::Guard, location, text.as_str(), note)
    }

    // Takes a punctuator with which a line begins.
    fn take_mark(&mut self, punct: Punct, location: Location) -> Result<(), AllocError> {
        let mark = match punct {
            Punct::LeftShift => "<<<<<<<",
            Punct::EqualEqual => "=======",
            Punct::RightShift => ">>>>>>>",
            _ => return Ok(()),
        };
        if !self.findings.has_line_mark(location, mark) {
            return Ok(());
        }
        let start = location.start as usize;
        let end = start.saturating_add(mark.len());
        let text = "mark of a merge conflict";
        self.findings
            .push_at(Warning::Conflict, location.line, start, end, text)
    }
}

// Whether a macro's name is GLSL's own (GLSL ES 3.20, 3.4).
fn is_reserved(name: &str) -> bool {
    match name {
        "defined" | "__LINE__" | "__FILE__" | "__VERSION__" => true,
        _ => name.starts_with("GL_"),
    }
}
