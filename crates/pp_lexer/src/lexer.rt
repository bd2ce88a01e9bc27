//! The character phases of GLSL ES 3.20, section 3.10, and the tokens after them.
//!
//! [`CharsAndLine`], [`SkipBackslashNewline`] and [`ReplaceComments`] give the characters after phases 4 and 5, 6
//! and 7, each with its line. [`Lexer`] gives the tokens. The rules are those of docs/RULES.md, Characters and Tokens.

ghost use Rattle.std.specs.Prelude.{◌≡◌, ◌-◌, ◌^◌, ◌<◌, ◌+◌, ◌↔◌, length, Ok, Some, true, false, if◌then◌else◌, ⊤};
ghost use Rattle.std.specs.Prelude.{IsSome, IfSome, IfOk, MatchOption, []};
ghost use Rattle.std.specs.Iterator.{at_most};
ghost use Rattle.pp_lexer.specs.declared.rules.Rules.{Rules};
ghost use Rattle.pp_lexer.specs.Reading.{first_char};
ghost use Rattle.pp_lexer.specs.Spots.{spots_of};
ghost use Rattle.pp_lexer.specs.Words.{is_blank};
ghost use Rattle.pp_lexer.specs.Kept.{CanPass};
ghost use Rattle.pp_lexer.specs.Lexed.{start_of, start_by, first_item, after_first_item, after_first, first_place};
ghost use Rattle.pp_lexer.specs.Lexed.{places_after_first, is_newline_lexeme, IsNext};
ghost use Rattle.pp_lexer.specs.inner.Passing.{is_newline_result, newline_seen, lexeme_seen, newline_places};
ghost use Rattle.pp_lexer.specs.inner.Passing.{SeesSame, IsRead};
ghost use Rattle.pp_lexer.specs.inner.AfterSpaces.{IsAfterSpaces};
ghost use Rattle.pp_lexer.specs.PlainItems.{IsNextWord, PassesBlanks, PassesNewline};
ghost use Rattle.pp_lexer.specs.PassedWords.{PassesOthers};

use crate::rules::Rules;
use crate::token::{Location, NOWHERE, PreprocessorError, out_of_memory};
use std::alloc::{AllocError, Global};
use std::marker::Model;

mod char_iterator;
mod chars_and_line;
mod comments;
mod identifier;
mod item;
pub mod laws;
mod look_ahead;
mod number;
mod plain;
mod plain_item;
mod position;
mod punctuation;
mod replace_comments;
mod skip_backslash_newline;
mod word;

pub use char_iterator::NONE_CONSUMED_SENTINEL_VALUE;
use char_iterator::{LexerCharIterator, Spot};
pub use chars_and_line::CharsAndLine;
use chars_and_line::Left;
pub use comments::Comments;
pub use item::{LexerItem, Token, TokenValue};
pub use plain::Form;
use plain::{
    begins_comment, newline_length, plain_comment, plain_word, plain_words, spaces_length,
};
pub use plain_item::{PlainItem, plain_value, without_suffix};
pub use position::line_column;
pub use replace_comments::{COMMENT_SENTINEL_VALUE, ReplaceComments};
pub use skip_backslash_newline::SkipBackslashNewline;
use word::parse_word;

/// A source, and a content that is added, must have fewer bytes than this.
pub const SOURCE_LIMIT: usize = 4294967295;

// So many runs of words are passed at once.
const MOST_RUNS: u32 = 16;

// What the flags of the next token will be, and whether a comment was passed.
#[derive(Clone, Copy)]
struct Flags {
    leading_whitespace: bool,
    start_of_line: bool,
    had_comments: bool,
}

// Whether the character is a blank between tokens.
fn is_blank_char(c: char) -> bool
    ensures { result ≡ is_blank c }
{
    c == ' ' || c == '\t' || c == '\x0b' || c == '\x0c' || c == COMMENT_SENTINEL_VALUE
}

// A lexer in the midst of a source: the characters to come, what the flags of the next token will be, and the place of
// the item that was taken last.
#[derive(Drop)]
struct LexerState<'a> {
    inner: LexerCharIterator<'a>,
    flags: Flags,
    place: Location,
}

// What is left after spaces, which weren't passed.
#[derive(Clone, Copy)]
struct Front<'a> {
    left: Left<'a>,
    // whether there are spaces before it
    spaced: bool,
}

// The newline that is added after a last line without one.
fn final_newline(last: Spot, flags: &mut Flags) -> Option<LexerItem>
    ensures value { result ≡ first_item (newline_seen flags.old last) }
    ensures rest { newline_seen flags.new last ≡ after_first_item (newline_seen flags.old last) }
    ensures places { newline_places flags.new last
        ≡ places_after_first (newline_places flags.old last) }
    ensures comments { flags.new.had_comments ≡ flags.old.had_comments }
{
    if flags.start_of_line {
        return None;
    }
    flags.start_of_line = true;
    Some(Ok(Token {
        value: TokenValue::NewLine,
        location: Location {
            start: last.end,
            end: last.end,
            line: last.line,
        },
        leading_whitespace: flags.leading_whitespace,
        start_of_line: false,
    }))
}

// The place of that newline, or of the last item if no newline is added.
fn place_at_end(flags: Flags, last: Spot, place: Location) -> Location
    ensures { result ≡ first_place (newline_places flags last) place }
{
    let is_newline_due = !flags.start_of_line;
    if is_newline_due {
        return Location {
            start: last.end,
            end: last.end,
            line: last.line,
        };
    }
    place
}

// Whether the item after this one is the first of a line.
fn ends_line(value: &Result<TokenValue, PreprocessorError>) -> bool
    ensures { result ≡ is_newline_result value.now }
{
    match value {
        Ok(TokenValue::NewLine) => true,
        _ => false,
    }
}

// The item of this value, which begins at `first`.
fn item_of(
    value: Result<TokenValue, PreprocessorError>,
    flags: Flags,
    first: Spot,
    last: Spot,
) -> LexerItem
    ensures { result ≡ lexeme_seen flags first last value }
{
    let value = match value {
        Ok(value) => value,
        Err(error) => return Err((error, NOWHERE)),
    };
    Ok(Token {
        value,
        location: Location {
            start: first.begin,
            end: last.end,
            line: first.line,
        },
        leading_whitespace: flags.leading_whitespace,
        start_of_line: flags.start_of_line,
    })
}

impl<'a> LexerState<'a> {
    // Passes the blanks before the next item.
    fn skip_blanks(&mut self)
        ensures same { SeesSame self.old self.new }
        ensures stops { MatchOption (first_char self.new.inner) ⊤ (λ s. is_blank s.c ≡ false) }
    {
        'blanks: loop {
            let Some(c) = self.inner.peek_char() else {
                return;
            };
            if !is_blank_char(c) {
                return;
            }
            self.inner.next_char();
            self.flags.leading_whitespace = true;
            self.flags.had_comments |= c == COMMENT_SENTINEL_VALUE;
        }
    }

    // Passes the spaces of ASCII text before the next item.
    #[inline(always)]
    fn skip_spaces(&mut self)
        ensures { SeesSame self.old self.new }
    {
        let left = self.inner.left();
        let bytes = left.text.as_bytes();
        let count = spaces_length(bytes);
        if count == 0 {
            return;
        }
        let end = left.at + count;
        let last = Spot {
            c: bytes[count - 1] as char,
            line: left.line,
            begin: (end - 1) as u32,
            end: end as u32,
        };
        self.flags.leading_whitespace = true;
        let rest = Left {
            text: &left.text[count..],
            line: left.line,
            at: end,
        };
        self.inner.go(rest, last);
    }

    // Passes the comment at the front if it is plain text, and returns whether it did.
    #[inline(always)]
    fn skip_comment(&mut self) -> bool
        ensures { SeesSame self.old self.new }
    {
        let left = self.inner.left();
        let Some(comment) = plain_comment(left.text.as_bytes()) else {
            return false;
        };
        let mark = Spot {
            c: COMMENT_SENTINEL_VALUE,
            line: left.line,
            begin: left.at as u32,
            end: (left.at + 1) as u32,
        };
        self.flags.leading_whitespace = true;
        self.flags.had_comments = true;
        let rest = Left {
            text: &left.text[comment.taken..],
            line: left.line + comment.newlines as u32,
            at: left.at + comment.taken,
        };
        self.inner.go(rest, mark);
        true
    }

    // Passes the spaces and comments before the next item. It is a function of its own, since most words come without
    // a comment.
    #[inline(never)]
    fn skip_comments(&mut self)
        ensures { SeesSame self.old self.new }
    {
        self.skip_spaces();
        if !begins_comment(self.inner.left().text.as_bytes()) {
            return;
        }
        if self.skip_comment() {
            self.skip_spaces();
        } else {
            self.skip_blanks();
        }
    }

    // What is left after spaces at the front, which aren't passed. Comments are passed, and spaces before these.
    #[inline(always)]
    fn find_front(&mut self) -> Front<'a>
        ensures same { SeesSame self.old self.new }
        ensures front { IsAfterSpaces result.left.line result.left.at result.left.text.now result.spaced
            self.new.inner }
    {
        let left = self.inner.left();
        let count = spaces_length(left.text.as_bytes());
        let front = if count == 0 {
            Front {
                left,
                spaced: false,
            }
        } else {
            Front {
                left: Left {
                    text: &left.text[count..],
                    line: left.line,
                    at: left.at + count,
                },
                spaced: true,
            }
        };
        if !begins_comment(front.left.text.as_bytes()) {
            return front;
        }
        self.skip_comments();
        Front {
            left: self.inner.left(),
            spaced: false,
        }
    }

    // The next item if it is a newline of ASCII text, else `None`.
    #[inline(always)]
    fn next_newline(&mut self) -> Option<LexerItem>
        ensures lexed { MatchOption result (self.new ≡ self.old)
            (λ newline. (rules : Rules) → IsRead rules self.old (Ok (Some newline)) self.new) }
        ensures newline { IfSome result (λ newline. is_newline_lexeme newline ≡ true) }
    {
        let left = self.inner.left();
        let Some(taken) = newline_length(left.text.as_bytes()) else {
            return None;
        };
        let last = Spot {
            c: '\n',
            line: left.line,
            begin: left.at as u32,
            end: (left.at + 1) as u32,
        };
        self.place = Location {
            start: last.begin,
            end: last.end,
            line: left.line,
        };
        let token = Token {
            value: TokenValue::NewLine,
            location: self.place,
            leading_whitespace: self.flags.leading_whitespace,
            start_of_line: self.flags.start_of_line,
        };
        self.flags.leading_whitespace = true;
        self.flags.start_of_line = true;
        let rest = Left {
            text: &left.text[taken..],
            line: left.line + 1,
            at: left.at + taken,
        };
        self.inner.go(rest, last);
        Some(Ok(token))
    }

    // The next item by these rules, or `None` at the end, read character by character.
    fn next_by_characters(
        &mut self,
        alloc: Global,
        rules: Rules,
    ) -> Result<Option<LexerItem>, AllocError>
        ensures { IsRead rules self.old result self.new }
    {
        self.skip_blanks();
        let Some(first) = self.inner.peek_spot() else {
            let last = self.inner.last_consumed();
            self.place = place_at_end(self.flags, last, self.place);
            return Ok(final_newline(last, &mut self.flags));
        };
        let value = parse_word(alloc, rules, &mut self.inner)?;
        let before = self.flags;
        let at_line_end = ends_line(&value);
        self.flags.leading_whitespace = at_line_end;
        self.flags.start_of_line = at_line_end;
        let last = self.inner.last_consumed();
        self.place = Location {
            start: first.begin,
            end: last.end,
            line: first.line,
        };
        Ok(Some(item_of(value, before, first, last)))
    }
}

/// An iterator of the items of a source: tokens with places and flags, and errors.
///
/// Blanks and comments are skipped. Each item is the longest word at its place: a newline, `#`, an identifier, a number
/// or a punctuator. If the last line has no newline, a [`TokenValue::NewLine`] is added after its last item. Places are
/// byte offsets and 1-based lines of the source.
///
/// The errors, each with the place (0, 0, line 1); [`Lexer::place`] returns their place in the source:
///
/// - [`PreprocessorError::UnexpectedCharacter`], if no word begins with the character; it takes that character and, by
///   pp-rs's rules, up to two more;
/// - for a number [`PreprocessorError::IntegerOverflow`] and [`PreprocessorError::FloatParsingError`], and by pp-rs's
///   rules [`PreprocessorError::NotSupported64BitLiteral`] and [`PreprocessorError::NotSupported16BitLiteral`];
/// - [`PreprocessorError::OutOfMemory`], if the text of an identifier or of a float can't be allocated.
///
/// After an `OutOfMemory`, `next` returns `None` from then on. After any other error it goes on.
///
/// From the Rust crate's `Lexer`, which aborts where this one returns `OutOfMemory`. The words are those of GLSL ES
/// 3.20, sections 3.4 to 3.8.
#[derive(Drop)]
pub struct Lexer<'a> {
    alloc: Global,
    rules: Rules,
    state: LexerState<'a>,
    spent: bool,
}

impl<'a> Model for Lexer<'a> {
    ghost use Rattle.pp_lexer.specs.Lexed.{Lexed};

    ghost Value = { Lexed };

    ghost use Rattle.pp_lexer.specs.inner.Passing.{lexed};

    ghost view = { λ s. lexed s.rules s.state.flags s.state.inner s.state.place s.spent };
}

impl<'a> Lexer<'a> {
    /// Returns a lexer at the start of a source of fewer than 2^32 - 1 bytes. It allocates nothing and reads nothing
    /// yet.
    pub fn new(alloc: Global, input: &'a str) -> Lexer<'a>
        requires { length input.now < 2 ^ 32 - 1 }
        ensures { result ≡ start_of (spots_of input.now) }
    {
        Lexer::with_rules(alloc, input, Rules::PP_RS)
    }

    /// Returns a lexer that reads the source by these rules. `new` is this at [`Rules::PP_RS`].
    pub fn with_rules(alloc: Global, input: &'a str, rules: Rules) -> Lexer<'a>
        requires { length input.now < 2 ^ 32 - 1 }
        ensures { result ≡ start_by rules (spots_of input.now) }
    {
        Lexer {
            alloc,
            rules,
            state: LexerState {
                inner: LexerCharIterator::new(input),
                flags: Flags {
                    leading_whitespace: true,
                    start_of_line: true,
                    had_comments: false,
                },
                place: NOWHERE,
            },
            spent: false,
        }
    }

    /// Does the same as `new`, but returns `None` for a longer source.
    pub fn try_new(alloc: Global, input: &'a str) -> Option<Lexer<'a>>
        ensures short { IsSome result ↔ (length input.now < 2 ^ 32 - 1) }
        ensures value { IfSome result (λ lexer. lexer ≡ start_of (spots_of input.now)) }
    {
        Lexer::try_with_rules(alloc, input, Rules::PP_RS)
    }

    /// Does the same as `with_rules`, but returns `None` for a longer source.
    pub fn try_with_rules(alloc: Global, input: &'a str, rules: Rules) -> Option<Lexer<'a>>
        ensures short { IsSome result ↔ (length input.now < 2 ^ 32 - 1) }
        ensures value { IfSome result (λ lexer. lexer ≡ start_by rules (spots_of input.now)) }
    {
        if input.len() >= SOURCE_LIMIT {
            return None;
        }
        Some(Lexer::with_rules(alloc, input, rules))
    }

    /// Returns whether a comment was skipped before the item that `next` returned last or, after a `None`, anywhere in
    /// the source. A comment that an error took doesn't count.
    pub fn had_comments(&self) -> bool
        ensures { result ≡ self.now.had_comments }
    {
        self.state.flags.had_comments
    }

    /// Returns the place of the item that `next` returned last, also of an error: the byte offsets and the 1-based line
    /// of the characters that it took. Before the first item it is [`NOWHERE`]. The `None` at the end leaves it as it
    /// is. After an `OutOfMemory` its value is not specified.
    pub fn place(&self) -> Location
        ensures { result ≡ self.now.place }
    {
        self.state.place
    }

    /// Returns whether the item that `next` returned last was a newline, or it returned none yet. Then the next token
    /// is the first of its line.
    pub fn is_line_over(&self) -> bool
        ensures is { result ≡ self.now.over }
        ensures next { IfSome (first_item self.now.rest)
            (λ item. IfOk item (λ token. token.start_of_line ≡ result)) }
        ensures end { self.now.rest ≡ [] → result ≡ true }
    {
        self.state.flags.start_of_line
    }

    /// Returns whether an allocation failed. Then `next` returns `None`.
    #[inline(always)]
    pub fn is_spent(&self) -> bool
        ensures { result ≡ self.now.spent }
    {
        self.spent
    }

    /// Ends the lexer, as an allocation that failed does.
    pub fn spend(&mut self)
        ensures { self.new ≡ record self.old { spent = true } }
    {
        self.spent = true;
    }

    /// Returns the next item without its memory, if it is a word of plain text: an identifier, a decimal or hexadecimal
    /// number, a punctuator or a `#` of ASCII characters that no line continuation cuts. It isn't taken:
    /// [`Lexer::pass_word`] takes it. At a newline, an error and the end, which `next` returns, it returns `None`.
    /// Comments before the next item may have been passed, which [`Lexer::had_comments`] says. No allocation may have
    /// failed ([`Lexer::is_spent`]).
    #[inline(always)]
    pub fn peek_word(&mut self) -> Option<PlainItem<'a>>
        requires { self.old.spent ≡ false }
        ensures same { PassesBlanks self.old self.new }
        ensures word { IfSome result (IsNextWord self.new) }
        ensures passes { IfSome result (CanPass self.new) }
    {
        let front = self.state.find_front();
        let left = front.left;
        let Some(word) = plain_word(left.text) else {
            if front.spaced {
                self.state.skip_comments();
            }
            return None;
        };
        Some(PlainItem {
            form: word.form,
            spelling: &left.text[..word.taken],
            location: Location {
                start: left.at as u32,
                end: (left.at + word.taken) as u32,
                line: left.line,
            },
            leading_whitespace: self.state.flags.leading_whitespace | front.spaced,
            start_of_line: self.state.flags.start_of_line,
            rest: &left.text[word.taken..],
        })
    }

    /// Takes the word that `peek_word` returned, if nothing was taken since.
    #[inline(always)]
    pub fn pass_word(&mut self, word: &PlainItem<'a>)
        requires { CanPass self.old word.now }
        ensures { self.new ≡ after_first self.old }
    {
        let Location { end, line, .. } = word.location;
        let last = Spot {
            c: word.spelling.as_bytes()[word.spelling.len() - 1] as char,
            line,
            begin: end - 1,
            end,
        };
        self.state.flags.leading_whitespace = false;
        self.state.flags.start_of_line = false;
        self.state.place = word.location;
        let rest = Left {
            text: word.rest,
            line,
            at: end as usize,
        };
        self.state.inner.go(rest, last);
    }

    /// Passes the next item if it is a newline of plain text, with no space or comment before it, and returns whether
    /// it did. Otherwise it changes nothing.
    #[inline(always)]
    pub fn pass_newline(&mut self) -> bool
        ensures { PassesNewline self.old result self.new }
    {
        if self.spent {
            return false;
        }
        self.state.next_newline().is_some()
    }

    // Passes words and newlines of plain text that come next, if their bytes alone show that none of them is an error
    // or a `#`, and returns whether it did. Otherwise it changes nothing. They are some hundred bytes at most, but for
    // the last word.
    #[inline(always)]
    fn pass_run(&mut self) -> bool
        ensures { PassesOthers self.old result self.new }
    {
        if self.spent {
            return false;
        }
        let left = self.state.inner.left();
        let Some(words) = plain_words(left.text) else {
            return false;
        };
        let passed = words.before + words.taken;
        let end = left.at + passed;
        let line = left.line + words.newlines as u32;
        let last = Spot {
            c: left.text.as_bytes()[passed - 1] as char,
            line,
            begin: end as u32 - 1,
            end: end as u32,
        };
        self.state.flags = Flags {
            leading_whitespace: false,
            start_of_line: false,
            had_comments: self.state.flags.had_comments,
        };
        self.state.place = Location {
            start: (left.at + words.before) as u32,
            end: end as u32,
            line,
        };
        let after = Left {
            text: &left.text[passed..],
            line,
            at: end,
        };
        self.state.inner.go(after, last);
        true
    }

    /// Passes words and newlines of plain text that come next, if their bytes alone show that none of them is an error
    /// or a `#`, and returns whether it did. Otherwise it changes nothing. It passes some thousand bytes at most, but
    /// for the last word, and may stop before a word that could be passed. It begins only at the start of a line, and
    /// goes on only behind words that it passed: a row of operators would else be looked at again for each of them.
    #[inline(always)]
    pub fn pass_words(&mut self) -> bool
        ensures { PassesOthers self.old result self.new }
    {
        if !self.state.flags.start_of_line {
            return false;
        }
        let mut runs: u32 = 0;
        'runs: while runs < MOST_RUNS && self.pass_run() {
            runs += 1;
        }
        runs > 0
    }
}

impl<'a> Iterator for Lexer<'a> {
    type Item = LexerItem;

    ghost next_gives = { IsNext };

    ghost remaining = { λ s. at_most (if s.spent then 0 else length s.rest + 1) };

    fn next(&mut self) -> Option<LexerItem> {
        if self.spent {
            return None;
        }
        if let Some(word) = self.peek_word() {
            self.pass_word(&word);
            let Ok(value) = plain_value(self.alloc, word.form, word.spelling) else {
                self.spend();
                return Some(Err(out_of_memory()));
            };
            return Some(Ok(Token {
                value,
                location: word.location,
                leading_whitespace: word.leading_whitespace,
                start_of_line: word.start_of_line,
            }));
        }
        if let Some(newline) = self.state.next_newline() {
            return Some(newline);
        }
        let Ok(item) = self.state.next_by_characters(self.alloc, self.rules) else {
            self.spend();
            return Some(Err(out_of_memory()));
        };
        item
    }
}
