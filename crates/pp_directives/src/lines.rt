//! The lines of directives, read token by token.

ghost use Rattle.std.specs.Prelude.{◌≡◌, ◌≢◌, [], true, false, Some, Ok, IsTrue, All, IfOk, IfSome, OnOk};
ghost use Rattle.std.specs.Prelude.{option_map};
ghost use Rattle.pp_lexer.specs.Lexed.{comments_before};
ghost use Rattle.pp_model.specs.DefineLines.{is_attached_paren, definition_at, defined_on};
ghost use Rattle.pp_model.specs.Lines.{first_token, first_name, ended_line, only_name, line_tokens};
ghost use Rattle.pp_model.specs.Lines.{comments_before_end, line_length};
ghost use Rattle.pp_directives.specs.inner.LineEnds.{goes_on_by, first_end, passed_end};
ghost use Rattle.pp_directives.specs.inner.LineEntries.{line_entries};
ghost use Rattle.pp_directives.specs.inner.DefineReading.{opens_list};
ghost use Rattle.pp_macros.specs.Held.{is_ordinary_leaf};
ghost use Rattle.pp_macros.specs.inner.LineReading as spec;
ghost use Rattle.pp_directives.specs.inner.ReadNames.{as_named, as_placed};
ghost use Rattle.pp_directives.specs.inner.ReadingLines.{AreOrdinary, first_free_name, ReadsPart, ReadsNext};
ghost use Rattle.pp_directives.specs.inner.ReadingLines.{ReadsLine, ReadsBy, ReadsTokens};
ghost use Rattle.pp_directives.specs.inner.Skipping.{PassesRest};
ghost use Rattle.pp_directives.specs.inner.TokenLists.{IsReadable, token_of};
ghost use Rattle.pp_macros.specs.inner.ParameterReading.{function_at};

use crate::parameters::parameters;
use crate::source_lexer::SourceLexer;
use crate::token_list::{LineReads, LineToken, TokenList};
use pp_lexer::lexer::{self, Form};
use pp_lexer::rules::Rules;
use pp_lexer::token::{Location, PreprocessorError, Punct, Text, TokenValue, Tokens};
use pp_macros::define::{Body, Define};
use pp_macros::halt::Halt;
use pp_macros::parameter_names::ParameterNames;
use pp_model::conversion::{convert_lexer_token, refused_token};
use pp_model::names::is_own_name;
use pp_model::place::{Place, SOURCE_TEXT};
use std::alloc::Global;

/// The next token. The end of the source is an error at the directive's word.
#[inline(always)]
pub fn first_token(word: Location, lexer: &mut SourceLexer<'_>) -> Result<lexer::Token, Halt>
    requires { lexer.old.spent ≡ false }
    ensures reads { ReadsNext (λ t. t) (first_token word) lexer.old result lexer.new }
    ensures left { IfOk result (λ token. spec.LeavesSome (Some token) lexer.new.rest) }
{
    match lexer.next_token()? {
        Some(token) => Ok(token),
        None => Err(Halt::Fault((PreprocessorError::UnexpectedEndOfInput, word))),
    }
}

/// A name with its place.
#[derive(Drop)]
pub struct PlacedName {
    pub name: Text,
    pub location: Location,
}

/// The name that comes next. Anything else is an error.
pub fn first_name(word: Location, lexer: &mut SourceLexer<'_>) -> Result<PlacedName, Halt>
    requires { lexer.old.spent ≡ false }
    ensures reads { ReadsNext as_placed (first_name word) lexer.old result lexer.new }
    ensures left { IfOk result (λ name. lexer.new.rest ≢ []) }
{
    let token = first_token(word, lexer)?;
    let location = token.location;
    match token.value {
        lexer::TokenValue::Ident(name) => Ok(PlacedName { name, location }),
        _ => Err(Halt::Fault(refused_token(token))),
    }
}

/// The name that comes next, unless the rules keep it. Anything else is an error.
pub fn free_name(
    rules: Rules,
    word: Location,
    lexer: &mut SourceLexer<'_>,
) -> Result<PlacedName, Halt>
    requires { lexer.old.spent ≡ false }
    ensures reads { ReadsNext as_placed (first_free_name rules word) lexer.old result lexer.new }
    ensures left { IfOk result (λ name. lexer.new.rest ≢ []) }
{
    let first = first_name(word, lexer)?;
    if rules.keeps_own_names && is_own_name(&first.name) {
        let refused = PreprocessorError::UnexpectedToken(TokenValue::Ident(first.name));
        return Err(Halt::Fault((refused, first.location)));
    }
    Ok(first)
}

/// Fails unless the line ends here.
pub fn ended_line(word: Location, lexer: &mut SourceLexer<'_>) -> Result<(), Halt>
    requires { lexer.old.spent ≡ false }
    ensures { ReadsNext (λ t. t) (ended_line word) lexer.old result lexer.new }
{
    if lexer.pass_newline() {
        return Ok(());
    }
    let token = first_token(word, lexer)?;
    match token.value {
        lexer::TokenValue::NewLine => Ok(()),
        _ => Err(Halt::Fault(refused_token(token))),
    }
}

/// The name that is alone on the line. Anything else is an error.
pub fn only_name(word: Location, lexer: &mut SourceLexer<'_>) -> Result<Text, Halt>
    requires { lexer.old.spent ≡ false }
    ensures { ReadsLine (λ t. t) (only_name word) lexer.old result lexer.new }
{
    let first = first_name(word, lexer)?;
    ended_line(word, lexer)?;
    Ok(first.name)
}

// Passes a token. Returns whether the line continues after it.
fn pass_token(lexer: &mut SourceLexer<'_>) -> Result<bool, Halt>
    requires { lexer.old.spent ≡ false }
    ensures reads { ReadsNext (λ t. t) spec.line_goes_on lexer.old result lexer.new }
    ensures fault { spec.FaultTakesSome result lexer.old lexer.new }
{
    if let Some(word) = lexer.peek_word() {
        lexer.pass_word(&word);
        return Ok(true);
    }
    match lexer.next_token()? {
        Some(token) => Ok(!matches!(token.value, lexer::TokenValue::NewLine)),
        None => Ok(false),
    }
}

// Passes a token or an error of the lexer. Returns whether the line continues after it.
fn pass_item(lexer: &mut SourceLexer<'_>) -> Result<bool, Halt>
    requires { lexer.old.spent ≡ false }
    ensures { ReadsPart true (λ t. t) (Ok (spec.item_goes_on lexer.old.rest)) 1 1 lexer.old result lexer.new }
{
    match pass_token(lexer) {
        Err(Halt::Fault(fault)) => {
            drop(fault);
            lexer.take_error_place();
            Ok(true)
        }
        passed => passed,
    }
}

// Passes the rest of the line, and the errors of the lexer on it.
fn pass_line(lexer: &mut SourceLexer<'_>) -> Result<(), Halt>
    requires { lexer.old.spent ≡ false }
    ensures { ReadsBy true (spec.passed_line true) lexer.old result lexer.new }
{
    'line: while pass_item(lexer)? {}
    Ok(())
}

/// Passes the rest of the line, and the errors of the lexer on it, unless the line is over. The place of an error that
/// was read before is kept. The only error is that an allocation failed.
pub fn pass_rest(lexer: &mut SourceLexer<'_>) -> Result<(), Halt>
    requires { lexer.old.spent ≡ false }
    ensures only { spec.Meets (λ t. t) result (Ok tt) }
    ensures passes { IfOk result (λ done. PassesRest lexer.old lexer.new) }
{
    if lexer.is_line_over() {
        return Ok(());
    }
    let place = lexer.take_error_place();
    pass_line(lexer)?;
    lexer.put_error_place(place);
    Ok(())
}

// Passes the rest of the line. An error of the lexer on it is returned.
fn skip_tokens(lexer: &mut SourceLexer<'_>) -> Result<(), Halt>
    requires { lexer.old.spent ≡ false }
    ensures reads { ReadsLine (λ t. t) spec.skipped_line lexer.old result lexer.new }
    ensures fault { spec.FaultTakesSome result lexer.old lexer.new }
{
    'line: while pass_token(lexer)? {}
    Ok(())
}

/// Passes the rest of the line. An error of the lexer on it is passed too, or else returned.
pub fn skip_line(passes: bool, lexer: &mut SourceLexer<'_>) -> Result<(), Halt>
    requires { lexer.old.spent ≡ false }
    ensures reads { ReadsBy passes (spec.passed_line passes) lexer.old result lexer.new }
    ensures fault { spec.FaultTakesSome result lexer.old lexer.new }
{
    if passes {
        pass_line(lexer)
    } else {
        skip_tokens(lexer)
    }
}

// Passes an item of a line, and returns whether the line continues after it. If it is the line's newline, `end` becomes
// where it begins. An error of the lexer is passed too, or else returned.
fn pass_to_end(passes: bool, end: &mut u32, lexer: &mut SourceLexer<'_>) -> Result<bool, Halt>
    requires { lexer.old.spent ≡ false }
    ensures reads { ReadsPart passes (λ t. t) (goes_on_by passes lexer.old.rest) 1 1 lexer.old result lexer.new }
    ensures end { IfOk result (λ _. end.new ≡ first_end end.old lexer.old.rest) }
{
    if let Some(word) = lexer.peek_word() {
        lexer.pass_word(&word);
        return Ok(true);
    }
    match lexer.next_token() {
        Ok(None) => Ok(false),
        Ok(Some(token)) => match token.value {
            lexer::TokenValue::NewLine => {
                *end = token.location.start;
                Ok(false)
            }
            _ => Ok(true),
        },
        Err(Halt::Fault(fault)) if passes => {
            drop(fault);
            lexer.take_error_place();
            Ok(true)
        }
        Err(halt) => Err(halt),
    }
}

/// Passes the rest of the line, and returns where its newline begins, or `from` if it has none. An error of the lexer
/// on it is passed too, or else returned.
pub fn line_end(passes: bool, from: u32, lexer: &mut SourceLexer<'_>) -> Result<u32, Halt>
    requires { lexer.old.spent ≡ false }
    ensures { ReadsPart passes (λ t. t) (passed_end passes from lexer.old.rest) (line_length lexer.old.rest)
        (spec.shown_on (passed_end passes from) lexer.old.rest) lexer.old result lexer.new }
{
    let mut end = from;
    'line: while pass_to_end(passes, &mut end, lexer)? {}
    Ok(end)
}

/// Reads the end of an `#endif` line, or skips it if the block's surroundings are dead.
pub fn endif_end(
    live_around: bool,
    passes: bool,
    word: Location,
    lexer: &mut SourceLexer<'_>,
) -> Result<(), Halt>
    requires { lexer.old.spent ≡ false }
    ensures { ReadsBy passes (spec.endif_end live_around passes word) lexer.old result lexer.new }
{
    if live_around {
        ended_line(word, lexer)
    } else {
        skip_line(passes, lexer)
    }
}

// A token of the line, or `None` if the line ends.
fn line_token<'a>(token: Option<lexer::Token>) -> Result<Option<LineToken<'a>>, Halt>
    ensures is { spec.Meets (option_map token_of) result (spec.line_token token) }
    ensures readable { IfOk result (λ next. IfSome next IsReadable) }
    ensures within { IfOk result (λ next. IfSome next (λ t. spec.IsWithinLine token)) }
{
    match token {
        Some(token) if !matches!(token.value, lexer::TokenValue::NewLine) => {
            Ok(Some(LineToken::Token(convert_lexer_token(token)?)))
        }
        _ => Ok(None),
    }
}

// The next token of the line, or `None` if the line ends.
#[tactic(auto, using(crate::proofs::PlainWordLemmas::word_of_line))]
#[inline(always)]
fn next_line_token<'a>(lexer: &mut SourceLexer<'a>) -> Result<Option<LineToken<'a>>, Halt>
    requires { lexer.old.spent ≡ false }
    ensures reads { ReadsNext (option_map token_of) spec.next_line_token lexer.old result lexer.new }
    ensures readable { IfOk result (λ next. IfSome next IsReadable) }
    ensures comments { IfOk result (λ next. lexer.new.had_comments
        ≡ comments_before lexer.old.rest lexer.old.at_end) }
    ensures left { IfOk result (λ next. IfSome next (λ t. lexer.new.rest ≢ [])) }
{
    if let Some(word) = lexer.peek_word() {
        if !matches!(word.form, Form::Hash) {
            lexer.pass_word(&word);
            return Ok(Some(LineToken::Word(word)));
        }
    }
    line_token(lexer.next_token()?)
}

// Whether it is a `(` without a blank before it.
fn is_attached_paren(token: &lexer::Token) -> bool
    ensures { result ≡ is_attached_paren (Ok token.now) }
{
    matches!(token.value, lexer::TokenValue::Punct(Punct::LeftParen)) && !token.leading_whitespace
}

// Whether the token after a macro's name is a `(` without a blank before it.
fn opens_parameters(token: &Option<lexer::Token>) -> bool
    ensures { result ≡ opens_list token.now }
{
    match token {
        Some(token) => is_attached_paren(token),
        None => false,
    }
}

// Reads the tokens of a line from its first one, which was read already, onto the list. There are none if the line was
// empty.
fn read_line<'a, T: TokenList<'a>>(
    alloc: Global,
    first: Option<LineToken<'a>>,
    lexer: &mut SourceLexer<'a>,
    tokens: &mut T,
) -> Result<(), Halt>
    requires unspent { lexer.old.spent ≡ false }
    requires readable { IfSome first IsReadable }
    requires left { IfSome first (λ t. lexer.old.rest ≢ []) }
    requires empty { T.tokens tokens.old ≡ [] }
    ensures reads { ReadsTokens (λ _. T.tokens tokens.new) (option_map token_of first.entry)
        lexer.old result lexer.new }
    ensures kept { OnOk result (T.kept tokens.new ≡ T.kept tokens.old) }
{
    let mut next = first;
    while let Some(token) = next {
        tokens.put(alloc, token)?;
        next = next_line_token(lexer)?;
    }
    Ok(())
}

// Reads the tokens of the rest of the line onto the list.
fn read_rest<'a, T: TokenList<'a>>(
    alloc: Global,
    lexer: &mut SourceLexer<'a>,
    tokens: &mut T,
) -> Result<(), Halt>
    requires unspent { lexer.old.spent ≡ false }
    requires empty { T.tokens tokens.old ≡ [] }
    ensures reads { ReadsLine (λ _. T.tokens tokens.new) line_tokens lexer.old result lexer.new }
    ensures comments { OnOk result (lexer.old.rest ≢ [] → lexer.new.had_comments
        ≡ comments_before_end lexer.old.rest) }
    ensures ordinary { OnOk result (AreOrdinary (T.tokens tokens.new)) }
    ensures kept { OnOk result (T.kept tokens.new ≡ T.kept tokens.old) }
{
    let first = next_line_token(lexer)?;
    read_line(alloc, first, lexer, tokens)
}

/// The tokens of the rest of the line, for an expander. `directive` is the place of the word before them.
pub fn line_reads<'a>(
    alloc: Global,
    directive: Place,
    lexer: &mut SourceLexer<'a>,
) -> Result<LineReads<'a>, Halt>
    requires { lexer.old.spent ≡ false }
    ensures reads { ReadsLine (λ line. line.tokens) line_tokens lexer.old result lexer.new }
    ensures directive { IfOk result (λ line. line.directive ≡ directive) }
    ensures ordinary { IfOk result (λ line. AreOrdinary line.tokens) }
{
    let mut tokens = LineReads::new(alloc, directive)?;
    read_rest(alloc, lexer, &mut tokens)?;
    Ok(tokens)
}

/// The tokens of the rest of the line, as a directive item holds them.
pub fn line_tokens(alloc: Global, lexer: &mut SourceLexer<'_>) -> Result<Tokens, Halt>
    requires unspent { lexer.old.spent ≡ false }
    requires left { lexer.old.rest ≢ [] }
    ensures reads { ReadsLine (λ t. t) line_entries lexer.old result lexer.new }
    ensures comments { IfOk result (λ tokens. lexer.new.had_comments
        ≡ comments_before_end lexer.old.rest) }
    ensures ordinary { IfOk result
        (λ tokens. All (λ entry. IsTrue (is_ordinary_leaf entry.leaf)) tokens) }
{
    let first = next_line_token(lexer)?;
    let room = if first.is_some() { 16 } else { 0 };
    let mut tokens = Vec::with_capacity(alloc, room)?;
    read_line(alloc, first, lexer, &mut tokens)?;
    tokens.shrink_to_fit();
    Ok(Tokens::from(tokens))
}

/// A `#define` line that was read.
#[derive(Drop)]
pub struct DefineLine {
    pub name: Text,
    pub location: Location,
    pub define: Define,
}

// The definition after a macro's name and the `(` directly after the name.
fn function_after(
    alloc: Global,
    word: Location,
    lexer: &mut SourceLexer<'_>,
) -> Result<Define, Halt>
    requires { lexer.old.spent ≡ false }
    ensures { ReadsLine (λ d. d) (function_at word) lexer.old result lexer.new }
{
    let names = parameters(alloc, word, lexer)?;
    let mut body = Body::new(alloc, names);
    read_rest(alloc, lexer, &mut body)?;
    Ok(Define::function_like(alloc, SOURCE_TEXT, body)?)
}

// The definition after a macro's name.
fn definition(alloc: Global, word: Location, lexer: &mut SourceLexer<'_>) -> Result<Define, Halt>
    requires { lexer.old.spent ≡ false }
    ensures { ReadsLine (λ d. d) (definition_at word) lexer.old result lexer.new }
{
    let token = lexer.next_token()?;
    if opens_parameters(&token) {
        drop(token);
        return function_after(alloc, word, lexer);
    }
    let first = line_token(token)?;
    let mut body = Body::new(alloc, ParameterNames::new(alloc));
    read_line(alloc, first, lexer, &mut body)?;
    Ok(Define::object_like(alloc, SOURCE_TEXT, body)?)
}

/// Reads a `#define` line, after its word.
pub fn define_line(
    alloc: Global,
    rules: Rules,
    word: Location,
    lexer: &mut SourceLexer<'_>,
) -> Result<DefineLine, Halt>
    requires { lexer.old.spent ≡ false }
    ensures { ReadsLine as_named (defined_on rules word) lexer.old result lexer.new }
{
    let PlacedName { name, location } = free_name(rules, word, lexer)?;
    let define = definition(alloc, word, lexer)?;
    Ok(DefineLine {
        name,
        location,
        define,
    })
}
