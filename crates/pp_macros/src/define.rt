//! Macros.

ghost use Rattle.std.specs.Prelude.{◌≡◌, ◌↔◌, ◌∷◌, ◌<◌, ◌^◌, true, false, List, [], None, IsTrue, if◌then◌else◌};
ghost use Rattle.std.specs.Prelude.{IfOk, IfSome, OnOk, MatchOption, drop, length, map};
ghost use Rattle.std.specs.Str.{chars};
ghost use Rattle.pp_lexer.specs.declared.token.Token.{Token};
ghost use Rattle.pp_lexer.specs.declared.token.TokenValue.TheVariants.{Ident};
ghost use Rattle.pp_lexer.specs.TokenValue.{is_ordinary};
ghost use Rattle.pp_lexer.specs.Spelling.{values_of};
ghost use Rattle.pp_model.specs.Names.{Name};
ghost use Rattle.pp_model.specs.Definitions.{IsSameDefinition, object_like};
ghost use Rattle.pp_model.specs.SpliceList.{parameter_of};
ghost use Rattle.pp_macros.specs.inner.Defined.{AreNumbered, names_in};
ghost use Rattle.pp_macros.specs.inner.Bodies.{AreEntries, AreFound, AreSeen, IsEntry, IsEntryAt, IsFound};
ghost use Rattle.pp_macros.specs.inner.Bodies.{body_of, is_same_entry, token_of, unnumbered, noted_at, noted_in};
ghost use Rattle.pp_macros.specs.inner.Bodies.{with_token};
ghost use Rattle.pp_macros.specs.declared.define.BodyEntry.TheVariants.{Parameter};

use crate::names::{Definitions, NameId};
use crate::parameter_names::ParameterNames;
use pp_lexer::token::{Location, Text, Token, TokenValue};
use std::alloc::{AllocError, Global};
use std::marker::Model;
use std::rc::Rc;

/// An entry of a body.
#[derive(Drop)]
pub enum BodyEntry {
    /// A token that is no parameter, and the number of the name that it is, if that had one when the line was read.
    Token(Token, Option<NameId>),
    /// A parameter.
    Parameter {
        /// Its position among the parameters.
        position: usize,
        /// The place of its name in the body.
        location: Location,
        /// Whether the rest of the body hasn't it again.
        is_last: bool,
    },
}

/// The definition of a macro, as its line says it.
#[derive(Drop)]
pub struct Define {
    function_like: bool,
    parameters: Vec<Text>,
    body: Vec<BodyEntry>,
    text: u32,
}

impl Model for Define {
    ghost use Rattle.std.specs.Prelude.{◌≡◌, []};
    ghost use Rattle.pp_model.specs.Definitions.{Definition};
    ghost use Rattle.pp_macros.specs.inner.Bodies.{AreEntries, body_of, noted_in};

    ghost Value = { Definition };

    ghost view = { λ d. record {
      function_like = d.function_like;
      parameters = d.parameters.items;
      body = body_of d.parameters.items d.body.items;
      text = d.text;
    } };

    ghost invariant = { λ d. AreEntries d.parameters.items d.body.items × (noted_in d.body.items ≡ []) };
}

/// A macro that is defined: its name with its number, and its definition. The names in its body that had a number when
/// it was defined are noted with theirs.
#[derive(Drop)]
pub struct Macro {
    name: Rc<Text>,
    number: NameId,
    function_like: bool,
    parameters: Vec<Text>,
    body: Vec<BodyEntry>,
    text: u32,
}

impl Model for Macro {
    ghost use Rattle.std.specs.Prelude.{◌≡◌};
    ghost use Rattle.pp_macros.specs.inner.Bodies.{AreEntries, body_of, noted_in};
    ghost use Rattle.pp_macros.specs.inner.Defined as spec;

    ghost Value = { spec.Macro };

    ghost view = { λ m. record {
      name = m.name.value;
      number = m.number;
      definition = record {
        function_like = m.function_like;
        parameters = m.parameters.items;
        body = body_of m.parameters.items m.body.items;
        text = m.text;
      };
      noted = noted_in m.body.items;
    } };

    ghost invariant = { λ m. AreEntries m.parameters.items m.body.items };
}

// Whether both are the same token, numbers and places aside, or the same parameter.
fn is_same_entry(old: &BodyEntry, new: &BodyEntry) -> bool
    ensures { result ≡ is_same_entry old.now new.now }
{
    match (old, new) {
        (BodyEntry::Token(a, _), BodyEntry::Token(b, _)) => a.value == b.value,
        (BodyEntry::Parameter { position: a, .. }, BodyEntry::Parameter { position: b, .. }) => a
            == b,
        _ => false,
    }
}

// Whether the bodies of two macros with the same parameters have equal values, places aside.
fn have_same_values(old: &[BodyEntry], new: &[BodyEntry]) -> bool
    ensures { (parameters : List Name) → AreEntries parameters old.now → AreEntries parameters new.now
        → IsTrue result ↔ (values_of (body_of parameters old.now) ≡ values_of (body_of parameters new.now)) }
{
    old.len() == new.len() && old.iter().zip(new).all(|(a, b)| is_same_entry(a, b))
}

// Whether the names are the same, in the same order.
#[tactic(auto, using(crate::proofs::defined_names::DefineLemmas::names_decide))]
fn are_same_names(old: &[Text], new: &[Text]) -> bool
    ensures { IsTrue result ↔ (old.now ≡ new.now) }
{
    old == new
}

/// The body of a macro that is being read: the macro's parameters, and the entries of the tokens so far. Contracts see
/// the parameters and the tokens.
#[derive(Drop)]
pub struct Body {
    parameters: ParameterNames,
    // no parameter is marked as the last yet
    entries: Vec<BodyEntry>,
}

impl Model for Body {
    ghost use Rattle.std.specs.Prelude.{◌≡◌, []};
    ghost use Rattle.pp_macros.specs.inner.Bodies.{AreFound, BodyTokens, body_of, noted_in};

    ghost Value = { BodyTokens };

    ghost view = { λ b. record { parameters = b.parameters; tokens = body_of b.parameters b.entries.items } };

    ghost invariant = { λ b. AreFound b.parameters b.entries.items × (noted_in b.entries.items ≡ []) };
}

// The parameter with this position, where the body has its name. It isn't marked as the last.
fn parameter_at(position: usize, location: Location) -> BodyEntry
    ensures { result ≡ Parameter position location false }
{
    BodyEntry::Parameter {
        position,
        location,
        is_last: false,
    }
}

impl Body {
    /// The body of a macro with these parameters before its first token. It allocates nothing.
    pub fn new(alloc: Global, parameters: ParameterNames) -> Body
        ensures { result ≡ record { parameters = parameters; tokens = [] } }
    {
        Body {
            parameters,
            entries: Vec::new(alloc),
        }
    }

    /// Puts a token after the others.
    pub fn push(&mut self, token: Token) -> Result<(), AllocError>
        requires { IsTrue (is_ordinary token.value) }
        ensures { OnOk result (self.new ≡ with_token self.old token) }
    {
        match self.parameters.position_of(&token.value) {
            Some(position) => self.put(parameter_at(position, token.location)),
            None => self.push_other(token),
        }
    }

    /// Puts a token that is no parameter after the others.
    #[inline(always)]
    pub fn push_other(&mut self, token: Token) -> Result<(), AllocError>
        requires ordinary { IsTrue (is_ordinary token.value) }
        requires other { parameter_of self.old.parameters token.value ≡ None }
        ensures { OnOk result (self.new ≡ with_token self.old token) }
    {
        self.put(BodyEntry::Token(token, None))
    }

    /// Puts the parameter of this name after the others, and returns whether there is one. If there is none, nothing
    /// changes.
    pub fn push_parameter(&mut self, name: &str, location: Location) -> Result<bool, AllocError>
        ensures body { IfOk result (λ is_parameter. self.new ≡ (if is_parameter
            then with_token self.old (record { value = Ident (chars name.now); location = location }) else self.old)) }
        ensures other { IfOk result (λ is_parameter. is_parameter ≡ false
            → parameter_of self.old.parameters (Ident (chars name.now)) ≡ None) }
    {
        let Some(position) = self.parameters.position(name) else {
            return Ok(false);
        };
        self.put(parameter_at(position, location))?;
        Ok(true)
    }

    // Puts an entry after the others. With the first comes room for a short body: 14 entries take 1,008 bytes; glibc
    // keeps blocks of up to 1,032 at hand.
    #[inline(always)]
    fn put(&mut self, entry: BodyEntry) -> Result<(), AllocError>
        requires found { IsFound self.old.parameters entry }
        requires bare { noted_at entry ≡ [] }
        ensures { OnOk result (self.new ≡ with_token self.old (token_of self.old.parameters entry)) }
    {
        if self.entries.is_empty() {
            self.entries.reserve(14)?;
        }
        self.entries.push(entry)?;
        Ok(())
    }
}

// Marks a parameter as the last if the rest of its body hasn't it. `seen` marks the parameters that the rest has,
// and afterwards that of the entry too.
fn mark_entry(parameters: &ParameterNames, entry: &mut BodyEntry, seen: &mut [bool])
    requires found { IsFound parameters.now entry.old }
    requires as_parameters { length seen.old ≡ length parameters.now }
    ensures token { token_of parameters.now entry.new ≡ token_of parameters.now entry.old }
    ensures entry { (rest : List Token) → AreSeen parameters.now rest seen.old
        → IsEntry parameters.now entry.new rest }
    ensures bare { noted_at entry.new ≡ noted_at entry.old }
    ensures seen { (rest : List Token) → AreSeen parameters.now rest seen.old
        → AreSeen parameters.now (token_of parameters.now entry.new ∷ rest) seen.new }
{
    if let BodyEntry::Parameter {
        position,
        is_last,
        ..
    } = entry
    {
        *is_last = !seen[*position];
        seen[*position] = true;
    }
}

// Marks each parameter that the rest of the body hasn't again.
fn mark_last(
    alloc: Global,
    parameters: &ParameterNames,
    entries: &mut [BodyEntry],
) -> Result<(), AllocError>
    requires { AreFound parameters.now entries.old }
    ensures entries { OnOk result (AreEntries parameters.now entries.new) }
    ensures body { OnOk result (body_of parameters.now entries.new ≡ body_of parameters.now entries.old) }
    ensures noted { OnOk result (noted_in entries.new ≡ noted_in entries.old) }
{
    let mut seen = vec![in alloc; false; parameters.len()]?;
    for index in (0..entries.len()).rev() {
        mark_entry(parameters, &mut entries[index], &mut seen);
    }
    Ok(())
}

// Notes the numbers of the names in a body.
fn note_numbers(body: &mut [BodyEntry], definitions: &Definitions)
    ensures same { map unnumbered body.new ≡ map unnumbered body.old }
    ensures noted { AreNumbered (names_in definitions.now) (noted_in body.old)
        → AreNumbered (names_in definitions.now) (noted_in body.new) }
{
    for entry in body.iter_mut() {
        if let BodyEntry::Token(token, number) = entry {
            if let TokenValue::Ident(name) = &token.value {
                *number = definitions.find(name.as_str());
            }
        }
    }
}

impl Macro {
    /// The macro of this name, which has this number, with this definition. The numbers of names are those in these
    /// definitions.
    pub fn new(name: Rc<Text>, number: NameId, define: Define, definitions: &Definitions) -> Macro
        ensures is { result ≡ record {
          name = name.value;
          number = number;
          definition = define;
          noted = result.noted;
        } }
        ensures noted { AreNumbered (names_in definitions.now) result.noted }
    {
        let Define {
            function_like,
            parameters,
            mut body,
            text,
        } = define;
        note_numbers(&mut body, definitions);
        Macro {
            name,
            number,
            function_like,
            parameters,
            body,
            text,
        }
    }

    /// Its name.
    #[inline(always)]
    pub fn name(&self) -> &Rc<Text>
        ensures { result.now.value ≡ self.now.name }
    {
        &self.name
    }

    /// Its number.
    #[inline(always)]
    pub fn number(&self) -> NameId
        ensures { result ≡ self.now.number }
    {
        self.number
    }

    /// Whether it has parameters in parentheses.
    pub fn is_function_like(&self) -> bool
        ensures { result ≡ self.now.definition.function_like }
    {
        self.function_like
    }

    /// The names of its parameters.
    pub fn parameters(&self) -> &[Text]
        ensures { result.now ≡ self.now.definition.parameters }
    {
        &self.parameters
    }

    /// The number of the text in which its body is.
    #[inline(always)]
    pub fn text(&self) -> u32
        ensures { result ≡ self.now.definition.text }
    {
        self.text
    }

    /// The number of entries of its body.
    #[inline(always)]
    pub fn len(&self) -> usize
        ensures { result ≡ length self.now.definition.body }
    {
        self.body.len()
    }

    /// The entry of its body at this position.
    #[inline(always)]
    pub fn entry_at(&self, position: usize) -> Option<&BodyEntry>
        ensures entry { MatchOption result (drop position self.now.definition.body ≡ [])
            (λ entry. IsEntryAt self.now.definition position entry.now) }
        ensures noted { IfSome result (λ entry. (names : List Name) → AreNumbered names self.now.noted
            → AreNumbered names (noted_at entry.now)) }
        ensures small { IfSome result (λ _. position < 2 ^ 63) }
    {
        self.body.get(position)
    }

    /// Whether it may be defined so again: kind, parameters and the values of the body are equal.
    pub fn is_same(&self, other: &Define) -> bool
        ensures { IsTrue result ↔ IsSameDefinition self.now.definition other.now }
    {
        self.function_like == other.function_like
            && are_same_names(&self.parameters, &other.parameters)
            && have_same_values(&self.body, &other.body)
    }
}

impl Define {
    /// A macro without parameters, whose body is of this text.
    pub fn object_like(alloc: Global, text: u32, body: Body) -> Result<Define, AllocError>
        requires { body.parameters ≡ [] }
        ensures { IfOk result (λ define. define ≡ object_like text body.tokens) }
    {
        Define::of_kind(alloc, false, text, body)
    }

    /// A macro with the body's parameters, whose body is of this text.
    pub fn function_like(alloc: Global, text: u32, body: Body) -> Result<Define, AllocError>
        ensures { IfOk result (λ define. define ≡ record {
          function_like = true;
          parameters = body.parameters;
          body = body.tokens;
          text = text;
        }) }
    {
        Define::of_kind(alloc, true, text, body)
    }

    // A macro with or without parameters.
    fn of_kind(
        alloc: Global,
        function_like: bool,
        text: u32,
        body: Body,
    ) -> Result<Define, AllocError>
        ensures { IfOk result (λ define. define ≡ record {
          function_like = function_like;
          parameters = body.parameters;
          body = body.tokens;
          text = text;
        }) }
    {
        let Body {
            parameters,
            mut entries,
        } = body;
        mark_last(alloc, &parameters, &mut entries)?;
        entries.shrink_to_fit();
        Ok(Define {
            function_like,
            parameters: parameters.into_names(),
            body: entries,
            text,
        })
    }

    /// The same macro, if its body is of this text.
    pub fn in_text(mut self, text: u32) -> Define
        ensures { result ≡ record self { text = text } }
    {
        self.text = text;
        self
    }
}
