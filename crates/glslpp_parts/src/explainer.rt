//! From errors to messages: the library's sentences, and what the source adds to them.

ghost use Rattle.std.specs.Prelude.{◌≡◌, ◌++◌, List, ℕ, IfOk, IfSome, IsTrue, string_bytes};
ghost use Rattle.pp_rs.specs.Sentences.{sentence_of};
ghost use Rattle.glslpp_parts.specs.Reports.{IsErrorMessage};

use crate::causes::{
    Cause, macro_at_end, macro_before, of_early_end, of_float, of_integer, of_unexpected_token,
    of_unfinished_expression, only_operator,
};
use crate::diagnostic::{Diagnostic, Note, Severity, Site};
use crate::directive_line::DirectiveLine;
use crate::macro_use::MacroUse;
use crate::outline::{Define, Outline};
use crate::place::Place;
use crate::quoting::{is_typographic_quote, push_char};
use crate::search::{count_arguments, last_name};
use crate::texts::Texts;
use pp_rs::SOURCE_LIMIT;
use pp_rs::lexer::Token;
use pp_rs::pp::SOURCE_TEXT;
use pp_rs::rules::Rules;
use pp_rs::token::{Location, PreprocessorError, Punct};
use std::alloc::{AllocError, Global};
use std::collections::BTreeMap;

const DEFINED_HERE: &str = "the macro is defined here";

/// The messages for the errors of one source and the files that it includes. What it reads of a whole text it reads
/// once, when it is first needed.
#[derive(Drop)]
pub struct Explainer {
    alloc: Global,
    // The rules by which the texts are read.
    rules: Rules,
    // What the directives say of the texts that were read, by their numbers.
    outlines: BTreeMap<u32, Outline>,
}

impl Explainer {
    /// The messages for the errors of texts that are read by these rules.
    pub fn new(alloc: Global, rules: Rules) -> Explainer
        ensures rules { result.rules ≡ rules }
    {
        Explainer {
            alloc,
            rules,
            outlines: BTreeMap::new(alloc),
        }
    }

    /// Returns the message for an error at this place in this text: the library's sentence, and what the source adds to
    /// it. `used` is the use of the macro from which the error comes. It returns `None` if the error only follows from
    /// another one: an `#elif`, `#else` or `#endif` without `#if`, before which an `#if` with an error stands.
    pub fn explain<'a>(
        &mut self,
        texts: &Texts<'a>,
        error: &PreprocessorError,
        text: u32,
        location: Location,
        used: Option<MacroUse<'a>>,
    ) -> Result<Option<Diagnostic<'a>>, AllocError>
        ensures { IfOk result (λ found. IfSome found (λ diagnostic.
            IsErrorMessage (sentence_of error.now) diagnostic)) }
    {
        match self.explained(texts, error, text, location, &used) {
            Ok(Some(mut diagnostic)) => {
                diagnostic.used = used;
                Ok(Some(diagnostic))
            }
            other => {
                drop(used);
                other
            }
        }
    }

    // The message without the use of the macro.
    fn explained<'a>(
        &mut self,
        texts: &Texts<'a>,
        error: &PreprocessorError,
        text: u32,
        location: Location,
        used: &Option<MacroUse<'a>>,
    ) -> Result<Option<Diagnostic<'a>>, AllocError>
        ensures { IfOk result (λ found. IfSome found (λ diagnostic.
            IsErrorMessage (sentence_of error.now) diagnostic)) }
    {
        if self.is_consequence(texts, error, text, location)? {
            return Ok(None);
        }
        let site = Site::of(texts, text, cause_of(error, location));
        match self.cause(texts, error, text, location, site, used)? {
            Some(cause) => Ok(Some(diagnostic_of(cause, true))),
            None => {
                let said = self.said(texts, error, text, location, site, used)?;
                Ok(Some(said))
            }
        }
    }

    // The library's sentence, with what the source adds to it.
    fn said<'a>(
        &mut self,
        texts: &Texts<'a>,
        error: &PreprocessorError,
        text: u32,
        location: Location,
        site: Site<'a>,
        used: &Option<MacroUse<'a>>,
    ) -> Result<Diagnostic<'a>, AllocError>
        ensures { IfOk result (λ diagnostic. IsErrorMessage (sentence_of error.now) diagnostic) }
    {
        let end = end_of_definitions(texts, text, location, used);
        let note = self.note_on_call(texts, error, end, site)?;
        let more = self.more(texts, error, text, location, site)?;
        let message = sentence_with(self.alloc, error, more.as_str());
        drop(more);
        let said = Cause {
            message: message?,
            site,
            note,
        };
        Ok(diagnostic_of(said, false))
    }

    // What caused an error, if the source shows it.
    fn cause<'a>(
        &mut self,
        texts: &Texts<'a>,
        error: &PreprocessorError,
        text: u32,
        location: Location,
        site: Site<'a>,
        used: &Option<MacroUse<'a>>,
    ) -> Result<Option<Cause<'a>>, AllocError> {
        let Some(place) = site.place() else {
            return Ok(None);
        };
        let end = End {
            text,
            before: location.start,
        };
        let line = DirectiveLine::of(self.alloc, self.rules, site)?;
        let cause = match &line {
            Some(line) => self.cause_on_line(texts, error, line, end, site, place, used),
            None => self.cause_in_text(texts, error, end, site, place),
        };
        drop(line);
        cause
    }

    // The cause of an error on the line of a directive.
    fn cause_on_line<'a>(
        &mut self,
        texts: &Texts<'a>,
        error: &PreprocessorError,
        line: &DirectiveLine<'a>,
        end: End,
        site: Site<'a>,
        place: Place<'a>,
        used: &Option<MacroUse<'a>>,
    ) -> Result<Option<Cause<'a>>, AllocError> {
        match error {
            PreprocessorError::UnexpectedEndOfInput if line.has_expression() => {
                match macro_at_end(line) {
                    Some(name) => self.empty_macro(texts, line, name, end),
                    None => of_unfinished_expression(self.alloc, line, site),
                }
            }
            PreprocessorError::DivisionByZero => self.division(error, line, Punct::Slash),
            PreprocessorError::RemainderByZero => self.division(error, line, Punct::Percent),
            PreprocessorError::UnexpectedToken(value) => match macro_before(line, place) {
                Some(name) => self.empty_macro(texts, line, name, end),
                None => {
                    let message = of_unexpected_token(self.alloc, line, place, value, used)?;
                    Ok(cause_at(site, message))
                }
            },
            PreprocessorError::UnexpectedNewLine => {
                let message = of_early_end(self.alloc, line)?;
                Ok(Some(Cause::new(message, site)))
            }
            PreprocessorError::IntegerOverflow if line.word() == place.here => {
                let word = line.word();
                let message = format!(in self.alloc; "integer out of range in `#{word}`")?;
                Ok(Some(Cause::new(message, site)))
            }
            _ => self.cause_in_text(texts, error, end, site, place),
        }
    }

    // The cause of an error, whether or not it is on the line of a directive.
    fn cause_in_text<'a>(
        &mut self,
        texts: &Texts<'a>,
        error: &PreprocessorError,
        end: End,
        site: Site<'a>,
        place: Place<'a>,
    ) -> Result<Option<Cause<'a>>, AllocError> {
        match error {
            PreprocessorError::UnexpectedEndOfInput => self.unterminated_call(texts, end.text),
            PreprocessorError::DefineRedefined => self.redefinition(texts, end, site, place.here),
            PreprocessorError::IntegerOverflow
                if place.here.starts_with(|c: char| c.is_ascii_digit()) => {
                let message = of_integer(self.alloc, place.here)?;
                Ok(Some(Cause::new(message, site)))
            }
            PreprocessorError::FloatParsingError => {
                let message = of_float(self.alloc, place.here)?;
                Ok(cause_at(site, message))
            }
            _ => Ok(None),
        }
    }

    // The macro call of a text that doesn't end.
    fn unterminated_call<'a>(
        &mut self,
        texts: &Texts<'a>,
        text: u32,
    ) -> Result<Option<Cause<'a>>, AllocError> {
        let Some(location) = self.outline(texts, text)?.unterminated() else {
            return Ok(None);
        };
        let site = Site::of(texts, text, location);
        let name = site.place().map_or("", |place| place.here);
        let end = End {
            text,
            before: location.start,
        };
        let note = self.note_on_macro(texts, name, end, DEFINED_HERE)?;
        let message = format!(in self.alloc; "unterminated call of macro `{name}`")?;
        Ok(Some(Cause {
            message,
            site,
            note,
        }))
    }

    // A macro that is defined again.
    fn redefinition<'a>(
        &mut self,
        texts: &Texts<'a>,
        end: End,
        site: Site<'a>,
        name: &str,
    ) -> Result<Option<Cause<'a>>, AllocError> {
        let note = self.note_on_macro(texts, name, end, "the previous definition is here")?;
        let message = format!(in self.alloc; "macro `{name}` redefined")?;
        Ok(Some(Cause {
            message,
            site,
            note: Some(note.unwrap_or(Note {
                message: "the previous definition is here",
                site: Site::OnCommandLine(None),
            })),
        }))
    }

    // The operator that divides by zero, if the line has only one of its kind.
    fn division<'a>(
        &mut self,
        error: &PreprocessorError,
        line: &DirectiveLine<'a>,
        punct: Punct,
    ) -> Result<Option<Cause<'a>>, AllocError> {
        let Some(operator) = only_operator(line, punct) else {
            return Ok(None);
        };
        let message = format!(in self.alloc; "{error}")?;
        Ok(Some(Cause::new(message, line.site_of(operator))))
    }

    // A macro in an expression that gives no operand.
    fn empty_macro<'a>(
        &mut self,
        texts: &Texts<'a>,
        line: &DirectiveLine<'a>,
        token: &Token,
        end: End,
    ) -> Result<Option<Cause<'a>>, AllocError> {
        let name = line.text_of(token);
        let note = self.note_on_macro(texts, name, end, DEFINED_HERE)?;
        let message = format!(in self.alloc; "macro `{name}` gives no operand")?;
        Ok(Some(Cause {
            message,
            site: line.site_of(token),
            note,
        }))
    }

    // What the directives of a text say. They are read the first time.
    fn outline(&mut self, texts: &Texts<'_>, text: u32) -> Result<&Outline, AllocError> {
        let outline = match self.outlines.remove(&text) {
            Some(outline) => outline,
            None => Outline::of(self.alloc, self.rules, texts.text(text))?,
        };
        let kept = self.outlines.entry(text)?.or_insert(outline);
        Ok(kept)
    }

    // Whether the error says that a block isn't open, and one is: its `#if` line has an error.
    fn is_consequence(
        &mut self,
        texts: &Texts<'_>,
        error: &PreprocessorError,
        text: u32,
        location: Location,
    ) -> Result<bool, AllocError> {
        match error {
            PreprocessorError::ElifOutsideOfBlock
            | PreprocessorError::ElseOutsideOfBlock
            | PreprocessorError::EndifOutsideOfBlock => {
                Ok(!self.outline(texts, text)?.is_stray(location.start))
            }
            _ => Ok(false),
        }
    }

    // The last definition of a macro before a place, and the number of its text: in the text of the place, or else in
    // the files that were read before.
    fn last_define(
        &mut self,
        texts: &Texts<'_>,
        name: &str,
        end: End,
    ) -> Result<Option<(u32, Define)>, AllocError> {
        if let Some(define) = self.outline(texts, end.text)?.last_define(name, end.before) {
            return Ok(Some((end.text, define)));
        }
        for number in (0..texts.count()).rev() {
            if number != end.text && texts.is_file(number) {
                let before = match texts.inclusion_in(number, end.text) {
                    Some(inclusion) => inclusion.location.start,
                    None => u32::MAX,
                };
                if let Some(define) = self.outline(texts, number)?.last_define(name, before) {
                    return Ok(Some((number, define)));
                }
            }
        }
        Ok(None)
    }

    // What follows the library's sentence: the text at its place, and what the author may have meant.
    fn more(
        &mut self,
        texts: &Texts<'_>,
        error: &PreprocessorError,
        text: u32,
        location: Location,
        site: Site<'_>,
    ) -> Result<String, AllocError> {
        let mut more = String::new(self.alloc);
        self.push_more(&mut more, texts, error, text, location, site)?;
        Ok(more)
    }

    // Appends that.
    fn push_more(
        &mut self,
        more: &mut String,
        texts: &Texts<'_>,
        error: &PreprocessorError,
        text: u32,
        location: Location,
        site: Site<'_>,
    ) -> Result<(), AllocError> {
        let Some(place) = site.place() else {
            return Ok(());
        };
        match error {
            PreprocessorError::ErrorDirective => push_reason(more, place.behind.trim()),
            PreprocessorError::UnknownDirective => {
                push_directive_name(more, place.here, self.rules.asks_includes)
            }
            PreprocessorError::UnexpectedHash if is_in_define(place.before) => {
                more.push_str(": GLSL ES has no operators `#` and `##`")
            }
            PreprocessorError::UnexpectedHash if !place.before.trim().is_empty() => {
                more.push_str(": a directive begins its line")
            }
            PreprocessorError::UnexpectedCharacter if is_replaced(texts, site) => {
                more.push_str(": this byte isn't UTF-8")
            }
            PreprocessorError::UnexpectedCharacter => {
                push_character(more, place.here, place.behind)
            }
            PreprocessorError::TooFewDefineArguments | PreprocessorError::TooManyDefineArguments
                if site.line().is_some() => {
                let end = End {
                    text,
                    before: location.start,
                };
                self.push_argument_counts(more, texts, end, place, error)
            }
            _ => Ok(()),
        }
    }

    // What is said beside a call with too few or too many arguments: where its macro is defined.
    fn note_on_call<'a>(
        &mut self,
        texts: &Texts<'a>,
        error: &PreprocessorError,
        end: End,
        site: Site<'_>,
    ) -> Result<Option<Note<'a>>, AllocError> {
        match (error, site.place()) {
            (
                PreprocessorError::TooFewDefineArguments
                | PreprocessorError::TooManyDefineArguments,
                Some(place),
            ) => self.note_on_macro(texts, last_name(place.before), end, DEFINED_HERE),
            _ => Ok(None),
        }
    }

    // Where the macro with this name is defined before a place, with this message.
    fn note_on_macro<'a>(
        &mut self,
        texts: &Texts<'a>,
        name: &str,
        end: End,
        message: &'static str,
    ) -> Result<Option<Note<'a>>, AllocError> {
        Ok(match self.last_define(texts, name, end)? {
            Some((text, define)) => Some(Note {
                message,
                site: Site::of_define(texts, text, define),
            }),
            None => None,
        })
    }

    // Appends the numbers of arguments and parameters of a call in which they differ, if the source shows them.
    fn push_argument_counts(
        &mut self,
        text: &mut String,
        texts: &Texts<'_>,
        end: End,
        place: Place<'_>,
        error: &PreprocessorError,
    ) -> Result<(), AllocError> {
        let name = last_name(place.before);
        let is_too_few = matches!(error, PreprocessorError::TooFewDefineArguments);
        match self.argument_counts(texts, end, name)? {
            Some((wanted, given)) if wanted != given && (given < wanted) == is_too_few => {
                let plural = if wanted == 1 { "" } else { "s" };
                write!(
                    text,
                    ": `{name}` has {wanted} parameter{plural}, and the call gives {given}"
                )
            }
            _ => Ok(()),
        }
    }

    // How many parameters the macro has, and how many arguments the call has.
    fn argument_counts(
        &mut self,
        texts: &Texts<'_>,
        end: End,
        name: &str,
    ) -> Result<Option<(usize, usize)>, AllocError> {
        let Some((_, define)) = self.last_define(texts, name, end)? else {
            return Ok(None);
        };
        let Some(wanted) = define.parameters else {
            return Ok(None);
        };
        let Some(call) = texts.text(end.text).get(end.before as usize..) else {
            return Ok(None);
        };
        if call.len() >= SOURCE_LIMIT {
            return Ok(None);
        }
        Ok(match count_arguments(self.alloc, self.rules, call) {
            Some(given) => Some((wanted, given)),
            None => None,
        })
    }
}

// The library's sentence on an error, with more behind it.
fn sentence_with(alloc: Global, error: &PreprocessorError, more: &str) -> Result<String, AllocError>
    ensures { IfOk result (λ message. string_bytes message ≡ sentence_of error.now ++ more.now) }
{
    format!(in alloc; "{error}{more}")
}

// The message for an error, and whether it says the cause that the source shows.
fn diagnostic_of(said: Cause<'_>, is_of_cause: bool) -> Diagnostic<'_>
    ensures cause { IsTrue is_of_cause → (sentence : List ℕ) → IsErrorMessage sentence result }
    ensures sentence { (sentence more : List ℕ) → string_bytes said.entry.message ≡ sentence ++ more
        → IsErrorMessage sentence result }
{
    Diagnostic {
        severity: Severity::Error,
        warning: None,
        message: said.message,
        is_of_cause,
        site: said.site,
        note: said.note,
        used: None,
    }
}

// What causes an error there, if something is said of it.
fn cause_at(site: Site<'_>, message: Option<String>) -> Option<Cause<'_>> {
    match message {
        Some(message) => Some(Cause::new(message, site)),
        None => None,
    }
}

// A place before which definitions count: the number of its text, and its byte offset there.
#[derive(Clone, Copy)]
struct End {
    text: u32,
    before: u32,
}

// Where the definitions end that count for an error: at it or, if that is in a definition of the command line, at the
// use from which it comes.
fn end_of_definitions(
    texts: &Texts<'_>,
    text: u32,
    location: Location,
    used: &Option<MacroUse<'_>>,
) -> End {
    if texts.is_file(text) {
        return End {
            text,
            before: location.start,
        };
    }
    match used {
        Some(used) => End {
            text: used.text,
            before: u32::try_from(used.site.start().unwrap_or(0)).unwrap_or(u32::MAX),
        },
        None => End {
            text: SOURCE_TEXT,
            before: 0,
        },
    }
}

// Whether a place is that of a byte that isn't UTF-8.
fn is_replaced(texts: &Texts<'_>, site: Site<'_>) -> bool {
    match site {
        Site::InSource(_, _, place) => match texts.file(place.number) {
            Some(file) => file.replaced.binary_search(&place.start).is_ok(),
            None => false,
        },
        Site::OnCommandLine(_) | Site::InFile => false,
    }
}

// The place of an error's cause: of a character that GLSL doesn't have that character alone, without what the lexer
// took with it.
fn cause_of(error: &PreprocessorError, location: Location) -> Location {
    match error {
        PreprocessorError::UnexpectedCharacter => Location {
            end: location.start.saturating_add(1),
            ..location
        },
        _ => location,
    }
}

fn push_reason(text: &mut String, reason: &str) -> Result<(), AllocError> {
    if reason.is_empty() {
        return Ok(());
    }
    write!(text, ": {reason}")
}

// Whether a line begins like a `#define`.
fn is_in_define(before: &str) -> bool {
    match before.trim_start().strip_prefix('#') {
        Some(rest) => rest.trim_start().starts_with("define"),
        None => false,
    }
}

fn push_character(text: &mut String, here: &str, behind: &str) -> Result<(), AllocError> {
    let Some(c) = here.chars().next() else {
        return Ok(());
    };
    text.push(' ')?;
    push_char(text, c)?;
    if c == '"' {
        text.push_str(": GLSL has no strings")
    } else if c == '\'' {
        text.push_str(": GLSL has no characters in quotes")
    } else if c == '\\' && !behind.is_empty() && behind.trim().is_empty() {
        text.push_str(": backslash and newline separated by space")
    } else if is_typographic_quote(c) {
        text.push_str(", a typographic quote, which GLSL doesn't have")
    } else {
        Ok(())
    }
}

// The names of the directives.
const DIRECTIVES: [&str; 14] = [
    "define",
    "undef",
    "ifdef",
    "ifndef",
    "elif",
    "else",
    "endif",
    "error",
    "pragma",
    "extension",
    "version",
    "line",
    "if",
    "include",
];

fn push_directive_name(
    text: &mut String,
    name: &str,
    has_includes: bool,
) -> Result<(), AllocError> {
    write!(text, " `#{name}`")?;
    if name == "include" {
        return text.push_str(if has_includes {
            " in the arguments of a macro"
        } else {
            ", which pp-rs doesn't have"
        });
    }
    match near_directive(name) {
        Some(near) if has_includes || near != "include" => {
            write!(text, ", did you mean `#{near}`?")
        }
        _ => Ok(()),
    }
}

// The directive whose name differs from this one by a typing error.
fn near_directive(name: &str) -> Option<&'static str> {
    for directive in DIRECTIVES {
        if is_near(name.as_bytes(), directive.as_bytes()) {
            return Some(directive);
        }
    }
    None
}

/// Whether one character is too many, missing or different, or two neighbours are swapped.
pub(crate) fn is_near(a: &[u8], b: &[u8]) -> bool {
    let same = same_start(a, b);
    let (Some(a), Some(b)) = (a.get(same..), b.get(same..)) else {
        return false;
    };
    match (a, b) {
        ([_, a @ ..], [_, b @ ..]) if a == b => true,
        ([x, y, a @ ..], [v, w, b @ ..]) if x == w && y == v && a == b => true,
        ([_, a @ ..], _) if a == b => true,
        (_, [_, b @ ..]) if a == b => true,
        _ => false,
    }
}

// The number of equal bytes at the start of two texts.
fn same_start(a: &[u8], b: &[u8]) -> usize {
    let shorter = a.len().min(b.len());
    for index in 0..shorter {
        if a[index] != b[index] {
            return index;
        }
    }
    shorter
}
