//! The output of a source, in each form.

ghost use Rattle.std.specs.Prelude.{◌≡◌, ◌≢◌, ◌<◌, ◌⊎◌, ⊤, [], true, false, None, Some, IsTrue, OnOk, IfOk, pos};
ghost use Rattle.std.specs.Prelude.{string_bytes};
ghost use Rattle.std.specs.Fmt.{decimal};
ghost use Rattle.std.specs.Str.{IsUtf8};
ghost use Rattle.pp_lexer.specs.declared.token.TokenValue.TheVariants as value;
ghost use Rattle.pp_rs.specs.TokenRefs.{token_of};
ghost use Rattle.pp_rs.specs.TokenValue.{is_ordinary};
ghost use Rattle.glslpp_parts.specs.Layout.{finished, on_line, with_directive};
ghost use Rattle.glslpp_parts.specs.Output.{is_closing, is_left_out, line_of, text_of_line, PutsText, PutsWord};
ghost use Rattle.glslpp_parts.specs.Output.{PutsLineWord, PutsDirective, Puts, GoesTo, PutsError, Takes, IsItem};
ghost use Rattle.glslpp_parts.specs.Texts.{source_text, has_marks, is_marked, with_content, with_file};

use crate::arguments::Form;
use crate::columns::ColumnsOfTexts;
use crate::directive_text::directive_text;
use crate::json;
use crate::layout::{Gap, Layout};
use crate::line_names::LineMark;
use crate::quoting::push_quoted;
use crate::texts::{File, Inclusion, Texts};
use crate::trace::Trace;
use crate::words::{made_word, spelled_word, written_word};
use pp_rs::pp::{SOURCE_TEXT, TokenRef, TokenSink, ValueRef};
use pp_rs::rules::Rules;
use pp_rs::token::{Integer, Location, NOWHERE, Punct, Token};
use std::alloc::{AllocError, Global};
use std::marker::Model;

/// The output of a source so far. It is what takes the tokens of `Preprocessor::give_tokens`.
#[derive(Drop)]
pub struct Output<'a> {
    alloc: Global,
    texts: Texts<'a>,
    form: Form,
    // Whether `#line` lines have the names of files, and not their numbers.
    has_names: bool,
    // The rules by which the source is read.
    rules: Rules,
    layout: Layout,
    // The number of the text that the last line is of, and how many of the `#line` lines of that text are before it.
    text: u32,
    passed: usize,
    // Whether that text has such lines.
    has_marks: bool,
    // The lines of JSON.
    lines: String,
    // The columns of the texts.
    columns: ColumnsOfTexts<'a>,
    // The text and the byte offset in it at which the last word ends, if it is written so in a file.
    end: Option<(u32, u32)>,
    // The text and its line whose tokens are left out.
    left_out: Option<(u32, u32)>,
    // The number of the text of the last token, or of the file that was included after it.
    last_text: u32,
    // The place of the last token of the source that no macro gave.
    read: Location,
    // What is noted for a page, if one is made.
    trace: Option<Trace>,
}

impl<'a> Model for Output<'a> {
    ghost use Rattle.std.specs.Prelude.{string_bytes};
    ghost use Rattle.glslpp_parts.specs.Output.{Printed};

    ghost Value = { Printed };

    ghost view = { λ o. record {
      form = o.form;
      rules = o.rules;
      texts = o.texts;
      laid = o.layout;
      text = o.text;
      is_marked = o.has_marks;
      end = o.end;
      items = string_bytes o.lines;
      left_out = o.left_out;
    } };
}

/// Takes an ordinary token, unless it is on the line that is left out. A token that a macro gives is on the line of the
/// macro's call.
impl<'a> TokenSink for Output<'a> {
    ghost takes = { Takes };

    ghost refuses = { λ _ _. ⊤ };

    ghost is_full = { λ _. false };

    #[inline(always)]
    fn take(&mut self, token: TokenRef<'_>) -> Result<(), AllocError> {
        if self.trace.is_some() {
            return self.push_traced(token);
        }
        self.push_token(token)
    }

    #[inline(always)]
    fn is_full(&self) -> bool {
        false
    }
}

impl<'a> Output<'a> {
    /// Returns the output of a source that is read by these rules, before its first item.
    pub fn new(
        alloc: Global,
        form: Form,
        has_names: bool,
        rules: Rules,
        texts: Texts<'a>,
    ) -> Output<'a>
        ensures { result ≡ record {
          form = form;
          rules = rules;
          texts = texts.entry;
          laid = record { text = []; line = 1; is_line_begun = false };
          text = source_text;
          is_marked = is_marked texts.entry source_text;
          end = None;
          items = [];
          left_out = None;
        } }
    {
        let source = texts.source.text;
        let has_marks = !texts.source.marks.is_empty();
        Output {
            alloc,
            texts,
            form,
            has_names,
            rules,
            layout: Layout::new(alloc),
            text: SOURCE_TEXT,
            passed: 0,
            has_marks,
            lines: String::new(alloc),
            columns: ColumnsOfTexts::new(source),
            end: None,
            left_out: None,
            last_text: SOURCE_TEXT,
            read: NOWHERE,
            trace: None,
        }
    }

    /// Notes from now on what a page shows of the tokens.
    pub fn begin_trace(&mut self)
        ensures { self.new ≡ self.old }
    {
        self.trace = Some(Trace::new(self.alloc));
    }

    /// Ends this, and returns what was noted.
    pub fn end_trace(&mut self) -> Trace
        ensures { self.new ≡ self.old }
    {
        match self.trace.take() {
            Some(trace) => trace,
            None => Trace::new(self.alloc),
        }
    }

    /// Returns the texts that tokens come from.
    pub fn texts(&self) -> &Texts<'a>
        ensures { result.now ≡ self.now.texts }
    {
        &self.texts
    }

    /// Returns the number of the text of the last token, or of the file that was included after it.
    pub fn last_text(&self) -> u32 {
        self.last_text
    }

    /// Adds the text of a file to those that tokens come from.
    pub fn include(
        &mut self,
        file: File<'a>,
        inclusion: Option<Inclusion>,
    ) -> Result<(), AllocError>
        ensures { OnOk result (self.new ≡ record self.old {
          texts = with_file self.old.texts file.entry.text.now (has_marks file.entry);
        }) }
    {
        self.last_text = self.texts.count();
        self.texts.include(file, inclusion)
    }

    /// Adds the content of a definition to the texts that tokens come from.
    pub fn add_content(&mut self, content: &'a str) -> Result<(), AllocError>
        ensures { OnOk result (self.new ≡ record self.old { texts = with_content self.old.texts content.now }) }
    {
        self.texts.add(content)
    }

    /// Leaves out the tokens to come of this line of this text, and of no other.
    pub fn leave_out(&mut self, text: u32, line: u32)
        ensures { self.new ≡ record self.old { left_out = Some (text, line) } }
    {
        self.left_out = Some((text, line));
    }

    /// Whether the tokens of this line of this text are left out.
    #[inline(always)]
    pub fn is_left_out(&self, text: u32, line: u32) -> bool
        ensures { result ≡ is_left_out self.now.left_out text line }
    {
        match self.left_out {
            Some((other, left_out)) => other == text && left_out == line,
            None => false,
        }
    }

    // Goes to the text with this number, on whose line something is put, by a `#line` line if another text was before.
    #[inline(always)]
    fn go_to_text(&mut self, text: u32, line: u32) -> Result<(), AllocError>
        ensures form { self.new.form ≡ self.old.form }
        ensures rules { self.new.rules ≡ self.old.rules }
        ensures texts { self.new.texts ≡ self.old.texts }
        ensures left_out { self.new.left_out ≡ self.old.left_out }
        ensures goes { OnOk result (GoesTo self.old text line self.new) }
    {
        if text == self.text && !self.has_marks {
            return Ok(());
        }
        self.go_to_other_text(text, line)
    }

    #[inline(never)]
    fn go_to_other_text(&mut self, text: u32, line: u32) -> Result<(), AllocError>
        requires { text ≡ self.old.text → IsTrue self.old.is_marked }
        ensures form { self.new.form ≡ self.old.form }
        ensures rules { self.new.rules ≡ self.old.rules }
        ensures texts { self.new.texts ≡ self.old.texts }
        ensures left_out { self.new.left_out ≡ self.old.left_out }
        ensures goes { OnOk result (GoesTo self.old text line self.new) }
    {
        let Some(file) = self.texts.file(text) else {
            return Ok(());
        };
        let passed = file.marks.partition_point(|mark| mark.line < line);
        if text == self.text && passed == self.passed {
            return Ok(());
        }
        let mark = match passed.checked_sub(1).and_then(|last| file.marks.get(last)) {
            Some(mark) if !mark.label.is_empty() => written_mark(self.alloc, *mark, line)?,
            _ => mark_of(self.alloc, self.rules, self.has_names, file, line)?,
        };
        self.layout.push_mark(mark.as_str(), line)?;
        self.text = text;
        self.passed = passed;
        self.has_marks = !file.marks.is_empty();
        self.end = None;
        Ok(())
    }

    /// Returns the place in the source of the last token that no macro gave, directives included, and `NOWHERE` before
    /// the first.
    pub fn read(&self) -> Location {
        self.read
    }

    // Takes a token, unless it is on the line that is left out.
    #[inline(always)]
    fn push_token(&mut self, token: TokenRef<'_>) -> Result<(), AllocError>
        ensures { OnOk result (Takes self.old token.entry self.new) }
    {
        if token.origin.call.is_none() && token.origin.text == SOURCE_TEXT {
            self.read = token.location;
        }
        self.last_text = text_of(token);
        if self.is_left_out(self.last_text, line_of(token)) {
            return Ok(());
        }
        match self.form {
            Form::Lines => self.push_on_its_line(token),
            Form::Compact => self.push_on_last_line(token),
            Form::Tokens => self.push_item(token),
            Form::Directives | Form::Definitions => Ok(()),
        }
    }

    // The same, and notes it for a page.
    #[inline(never)]
    fn push_traced(&mut self, token: TokenRef<'_>) -> Result<(), AllocError>
        ensures { OnOk result (Takes self.old token.entry self.new) }
    {
        let start = self.layout.text().len();
        self.push_token(token)?;
        self.note_token(token, start)
    }

    // Notes a token, whose text in the output begins at a byte offset there, or behind it.
    fn note_token(&mut self, token: TokenRef<'_>, start: usize) -> Result<(), AllocError>
        ensures { self.new ≡ self.old }
    {
        let printed = self.layout.text().get(start..).unwrap_or("");
        match &mut self.trace {
            Some(trace) => trace.add(token, text_of(token), line_of(token), printed),
            None => Ok(()),
        }
    }

    // A name and a punctuator are printed by their values, which is their text in the source but for continuations. So
    // are most numbers: those that are as long in the source as the library spells them, without a letter that may be a
    // capital there.
    #[inline(always)]
    fn push_on_its_line(&mut self, token: TokenRef<'_>) -> Result<(), AllocError>
        ensures form { self.new.form ≡ self.old.form }
        ensures rules { self.new.rules ≡ self.old.rules }
        ensures texts { self.new.texts ≡ self.old.texts }
        ensures left_out { self.new.left_out ≡ self.old.left_out }
        ensures puts { OnOk result (PutsLineWord self.old token.entry.origin.text (token_of token.entry)
            (text_of_line token.entry) (line_of token.entry) self.new) }
    {
        let (text, place, line) = (token.origin.text, token.location, line_of(token));
        self.go_to_text(text_of(token), line)?;
        match token.value {
            ValueRef::Ident(name) => self.push_word(text, place, line, false, name),
            ValueRef::Punct(punct) => {
                self.push_mark(text, place, line, is_closing(punct), punct.spelling())
            }
            ValueRef::Float(digits, 32) if is_written(digits, place) => {
                self.push_word(text, place, line, false, digits)
            }
            ValueRef::Integer(integer) if is_digit(integer) && length_of(place) == 1 => {
                self.push_word(text, place, line, false, digit(integer.value))
            }
            ValueRef::Integer(_) | ValueRef::Float(..) => self.push_number(token),
        }
    }

    // Puts a punctuator on its line. Most have one letter, and directly follow the last word on its line and in the
    // source: those are put by a short way, without a call.
    #[inline(never)]
    fn push_mark(
        &mut self,
        text: u32,
        place: Location,
        line: u32,
        is_closing: bool,
        mark: &str,
    ) -> Result<(), AllocError>
        ensures form { self.new.form ≡ self.old.form }
        ensures rules { self.new.rules ≡ self.old.rules }
        ensures texts { self.new.texts ≡ self.old.texts }
        ensures left_out { self.new.left_out ≡ self.old.left_out }
        ensures puts { OnOk result (PutsText self.old text place is_closing line mark.now self.new) }
        ensures text { IsUtf8 mark.now }
    {
        let is_beside = self.end == Some((text, place.start)) && self.texts.is_file(text);
        if is_beside && mark.len() == 1 && self.layout.takes_letter(line) {
            self.end = Some((text, place.end));
            return self.layout.push_beside(mark);
        }
        self.push_word(text, place, line, is_closing, mark)
    }

    // Puts a word on its line. No gap is before a word that directly follows the last word in the source, nor before a
    // closing punctuator that directly follows something there, such as a macro's name; and otherwise a space.
    #[inline(never)]
    fn push_word(
        &mut self,
        text: u32,
        place: Location,
        line: u32,
        is_closing: bool,
        word: &str,
    ) -> Result<(), AllocError>
        ensures form { self.new.form ≡ self.old.form }
        ensures rules { self.new.rules ≡ self.old.rules }
        ensures texts { self.new.texts ≡ self.old.texts }
        ensures left_out { self.new.left_out ≡ self.old.left_out }
        ensures puts { OnOk result (PutsText self.old text place is_closing line word.now self.new) }
        ensures text { IsUtf8 word.now }
    {
        if !self.texts.is_in_file(text, place) {
            return self.push_made_word(line, word);
        }
        let is_beside = self.end == Some((text, place.start));
        let gap = if is_beside || is_closing && !self.texts.is_after_blank(text, place.start) {
            Gap::Nothing
        } else {
            Gap::Space
        };
        self.end = Some((text, place.end));
        self.layout.push_word(line, gap, word)
    }

    // Puts a word on its line that isn't printed as the source has it.
    #[inline(never)]
    fn push_made_word(&mut self, line: u32, word: &str) -> Result<(), AllocError>
        ensures form { self.new.form ≡ self.old.form }
        ensures rules { self.new.rules ≡ self.old.rules }
        ensures texts { self.new.texts ≡ self.old.texts }
        ensures left_out { self.new.left_out ≡ self.old.left_out }
        ensures put { OnOk result (self.new ≡ record self.old {
          laid = on_line self.old.laid line Gap.Space word.now;
          end = None;
        }) }
    {
        self.end = None;
        self.layout.push_word(line, Gap::Space, word)
    }

    // Puts a number on its line, as it is written if the source has it.
    #[inline(never)]
    fn push_number(&mut self, token: TokenRef<'_>) -> Result<(), AllocError>
        ensures form { self.new.form ≡ self.old.form }
        ensures rules { self.new.rules ≡ self.old.rules }
        ensures texts { self.new.texts ≡ self.old.texts }
        ensures left_out { self.new.left_out ≡ self.old.left_out }
        ensures puts { OnOk result (PutsWord self.old token.entry.origin.text (token_of token.entry)
            (line_of token.entry) self.new) }
    {
        let (text, place, line) = (token.origin.text, token.location, line_of(token));
        let spot = self.texts.spot(text, place);
        if let Some(word) = written_word(self.alloc, self.rules, token.value, spot)? {
            return self.push_word(text, place, line, false, word);
        }
        let word = made_word(self.alloc, self.rules, token.value, spot)?;
        self.push_made_word(line, word.as_str())
    }

    #[inline(never)]
    fn push_on_last_line(&mut self, token: TokenRef<'_>) -> Result<(), AllocError>
        ensures form { self.new.form ≡ self.old.form }
        ensures rules { self.new.rules ≡ self.old.rules }
        ensures texts { self.new.texts ≡ self.old.texts }
        ensures left_out { self.new.left_out ≡ self.old.left_out }
        ensures puts { OnOk result (PutsWord self.old token.entry.origin.text (token_of token.entry)
            self.old.laid.line self.new) }
    {
        let word = spelled_word(self.alloc, token.value)?;
        let line = self.layout.line();
        self.end = None;
        self.layout.push_word(line, Gap::Space, word.as_str())
    }

    #[inline(never)]
    fn push_item(&mut self, token: TokenRef<'_>) -> Result<(), AllocError>
        ensures same { self.new ≡ record self.old { items = self.new.items } }
        ensures item { OnOk result (IsItem self.old.items self.new.items) }
    {
        let spot = self.texts.spot(token.origin.text, token.location);
        if let Some(word) = written_word(self.alloc, self.rules, token.value, spot)? {
            return json::push_token(&mut self.lines, &mut self.columns, token, &self.texts, word);
        }
        let word = made_word(self.alloc, self.rules, token.value, spot)?;
        json::push_token(
            &mut self.lines,
            &mut self.columns,
            token,
            &self.texts,
            word.as_str(),
        )
    }

    /// Takes a directive of the text with this number.
    pub fn push_directive(&mut self, text: u32, token: &Token) -> Result<(), AllocError>
        requires { is_ordinary token.now.value ≡ false }
        ensures form { self.new.form ≡ self.old.form }
        ensures rules { self.new.rules ≡ self.old.rules }
        ensures texts { self.new.texts ≡ self.old.texts }
        ensures left_out { self.new.left_out ≡ self.old.left_out }
        ensures puts { OnOk result (Puts self.old.form false self.old text token.now None self.new) }
    {
        let spot = self.texts.spot(text, token.location);
        let line = match self.form {
            Form::Compact => format!(in self.alloc; "{}", token.value)?,
            Form::Definitions => return Ok(()),
            Form::Lines | Form::Tokens | Form::Directives => {
                directive_text(self.alloc, self.rules, &token.value, spot)?
            }
        };
        self.last_text = text;
        if text == SOURCE_TEXT {
            self.read = token.location;
        }
        match self.form {
            Form::Lines => {
                self.go_to_text(text, token.location.line)?;
                self.push_directive_line(token.location.line, line.as_str())?;
                self.note_line(text, token.location.line, line.as_str())
            }
            Form::Compact | Form::Directives => {
                let last = self.layout.line();
                self.push_directive_line(last, line.as_str())
            }
            Form::Definitions => Ok(()),
            Form::Tokens => json::push_directive(
                &mut self.lines,
                &mut self.columns,
                &token.value,
                &self.texts,
                text,
                token.location,
                line.as_str(),
            ),
        }
    }

    // Notes what is printed for a line.
    fn note_line(&mut self, text: u32, line: u32, words: &str) -> Result<(), AllocError>
        ensures { self.new ≡ self.old }
    {
        match &mut self.trace {
            Some(trace) => trace.add_words(text, line, words),
            None => Ok(()),
        }
    }

    // Puts a directive on a line by itself.
    fn push_directive_line(&mut self, line: u32, word: &str) -> Result<(), AllocError>
        ensures form { self.new.form ≡ self.old.form }
        ensures rules { self.new.rules ≡ self.old.rules }
        ensures texts { self.new.texts ≡ self.old.texts }
        ensures left_out { self.new.left_out ≡ self.old.left_out }
        ensures put { OnOk result (self.new ≡ record self.old {
          laid = with_directive self.old.laid line word.now;
          end = None;
        }) }
    {
        self.end = None;
        self.layout.push_directive(line, word)
    }

    /// Takes an error with this name and a place in this text, which is an item of the output if items are printed.
    pub fn push_error(
        &mut self,
        name: &str,
        text: u32,
        location: Location,
        message: &str,
    ) -> Result<(), AllocError>
        ensures same { self.new ≡ record self.old { items = self.new.items } }
        ensures puts { OnOk result (PutsError self.old.form name.now self.old.items self.new.items) }
    {
        if self.form != Form::Tokens {
            return Ok(());
        }
        json::push_error(
            &mut self.lines,
            &mut self.columns,
            name,
            &self.texts,
            text,
            location,
            message,
        )
    }

    /// Returns the output as text.
    pub fn finish(self) -> Result<String, AllocError>
        ensures text { IfOk result (λ text. self.entry.form ≢ Form.Tokens
            → string_bytes text ≡ finished self.entry.laid) }
        ensures items { IfOk result (λ text. self.entry.form ≡ Form.Tokens
            → string_bytes text ≡ self.entry.items) }
    {
        let lines = self.lines;
        if self.form == Form::Tokens {
            return Ok(lines);
        }
        self.layout.finish()
    }
}

// The line of the call that gave the token, or else its own line.
#[inline(always)]
fn line_of(token: TokenRef<'_>) -> u32
    ensures { result ≡ line_of token.entry }
{
    match token.origin.call {
        Some(call) => call.line,
        None => token.location.line,
    }
}

// The number of the text of that line.
#[inline(always)]
fn text_of(token: TokenRef<'_>) -> u32
    ensures { result ≡ text_of_line token.entry }
{
    match token.origin.call {
        Some(call) => call.text,
        None => token.origin.text,
    }
}

// The `#line` line by which the next line is this one after a `#line` of its text.
fn written_mark(alloc: Global, mark: LineMark<'_>, line: u32) -> Result<String, AllocError> {
    let between = line.saturating_sub(mark.line).saturating_sub(1);
    format!(in alloc;
        "#line {} {}",
        mark.number.saturating_add(between),
        mark.label
    )
}

// The `#line` line by which the next line is this one of a file, by the rules of the source's version.
fn mark_of(
    alloc: Global,
    rules: Rules,
    has_names: bool,
    file: File<'_>,
    line: u32,
) -> Result<String, AllocError> {
    let number = if rules.numbers_next_line {
        line
    } else {
        line.saturating_sub(1)
    };
    let mut mark = format!(in alloc; "#line {number} ")?;
    if has_names {
        push_quoted(&mut mark, file.name)?;
    } else {
        write!(mark, "{}", file.number)?;
    }
    Ok(mark)
}

// Whether the punctuator ends what comes before it, and is no part of a longer one.
#[inline(always)]
fn is_closing(punct: Punct) -> bool
    ensures { result ≡ is_closing (value.Punct punct) }
{
    match punct {
        Punct::Semicolon | Punct::Comma | Punct::RightParen | Punct::RightBracket => true,
        _ => false,
    }
}

// How many bytes the place takes.
#[inline(always)]
fn length_of(place: Location) -> usize {
    place.end.saturating_sub(place.start) as usize
}

// Whether the text of a float of 32 bits is as long in the source, and has no exponent, whose letter may be a capital
// there.
#[inline(always)]
fn is_written(digits: &str, place: Location) -> bool {
    if digits.len() != length_of(place) {
        return false;
    }
    for byte in digits.as_bytes() {
        if *byte == b'e' {
            return false;
        }
    }
    true
}

// Whether the library spells the integer by one digit.
#[inline(always)]
fn is_digit(integer: Integer) -> bool
    ensures small { IsTrue result → integer.value < 10 }
    ensures signed { IsTrue result → IsTrue integer.signed }
    ensures width { IsTrue result → integer.width ≡ pos 32 }
{
    integer.value < 10 && integer.signed && integer.width == 32
}

// The digit of a number below ten.
#[inline(always)]
#[tactic(auto, using(std::proofs::lemmas::Fmt::decimal_digit))]
fn digit(number: u64) -> &'static str
    requires { number < 10 }
    ensures text { result.now ≡ decimal number }
    ensures ascii { IsUtf8 result.now }
{
    match number {
        0 => "0",
        1 => "1",
        2 => "2",
        3 => "3",
        4 => "4",
        5 => "5",
        6 => "6",
        7 => "7",
        8 => "8",
        _ => "9",
    }
}
