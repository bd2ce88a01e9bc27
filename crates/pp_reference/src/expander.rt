//! Expanders: the next item that is taken, the names that open a macro, and one turn of reading.

ghost use Rattle.std.specs.Prelude.{◌≡◌, ◌≤◌, [], None, IfOk, OnOk};
ghost use Rattle.pp_model.specs.Reading.{opening, masked_names};
ghost use Rattle.pp_model.specs.Painting.{is_one_of, painted_among, taken_among};
ghost use Rattle.pp_model.specs.Taking.{Fetches, Takes, shown_token, shown_outcome, line_number};
ghost use Rattle.pp_model.specs.Calls.{Gathers};
ghost use Rattle.pp_model.specs.Emitting.{with_macro};
ghost use Rattle.pp_reference.specs.inner.Seen.{seen, turn_after_name, Resolves, TakesParen, Finds, TurnsAt, Turns};

use crate::calls::{Gathered, arguments_of, paren_at};
use crate::copies::{copy_definition, copy_names};
use crate::emitted::{Emitted, emitted_among};
use crate::list;
use crate::list::{open_names, outermost_call, take_token};
use crate::lists::ReadLists;
use crate::names::is_among;
use crate::reader::Reader;
use crate::stop::{Budget, Stop};
use pp_lexer::token::{Integer, PreprocessorError, Text, Token, TokenValue};
use pp_model::copies::copy_token;
use pp_model::definition::Definition;
use pp_model::names::is_line_name;
use pp_model::parentheses::{Nesting, nesting_of};
use pp_model::place::{Place, PlacedFault, unasked};
use pp_model::read::{Read, Taken};
use pp_model::splice::{CallPlace, Entry};
use std::alloc::{AllocError, Global};
use std::marker::Model;

/// A token that opens a macro.
#[derive(Drop)]
pub struct Opening {
    /// The number of the text that the token is in.
    pub text: u32,
    /// The token.
    pub token: Token,
    /// Its name.
    pub name: Text,
    /// The definition of the name.
    pub definition: Definition,
}

impl Model for Opening {
    ghost use Rattle.pp_model.specs.Reading as spec;

    ghost Value = { spec.Opening };

    ghost view = { λ m. record {
      text = m.text;
      token = m.token;
      name = m.name;
      definition = m.definition;
    } };
}

/// The parentheses of a call, whose `)` has been taken.
#[derive(Drop)]
pub struct Site {
    /// The place of the `(`.
    pub paren: Place,
    /// The line of the `)`.
    pub line: u32,
    /// The arguments, as they were read.
    pub arguments: ReadLists,
}

/// What follows the name of a function-like macro.
#[derive(Drop)]
pub enum AfterName {
    /// No `(`.
    NoCall,
    /// A call with a fault before its `)`.
    Broken(PlacedFault),
    /// A call.
    Whole(Site),
}

/// A call of a macro.
#[derive(Drop)]
pub struct MacroCall {
    /// The macro.
    pub opening: Opening,
    /// Its parentheses.
    pub site: Site,
}

/// The result of one turn of an expander.
#[derive(Drop)]
pub enum Turn {
    /// An item.
    Item(Emitted),
    /// An object-like macro was replaced.
    Replaced,
    /// A call was gathered.
    Called(MacroCall),
}

/// An expander over a reader.
#[derive(Drop)]
pub struct Expander<R> {
    /// The allocator.
    pub alloc: Global,
    /// An item that was taken too early and is held.
    pub held: Option<Taken>,
    /// The entries that were spliced in and are not read yet.
    pub list: Vec<Entry>,
    /// The reader that comes after the list.
    pub reader: R,
    /// The names that are open in the expanders around this one.
    pub hidden: Vec<Text>,
}

/// A token that opens a macro, copied.
fn opening_of(
    alloc: Global,
    read: &Read,
    name: &Text,
    definition: &Definition,
) -> Result<Opening, AllocError>
    ensures { IfOk result (λ opening. opening ≡ record {
      text = read.now.text;
      token = read.now.token;
      name = name.now;
      definition = definition.now;
    }) }
{
    Ok(Opening {
        text: read.text,
        token: copy_token(alloc, &read.token)?,
        name: name.try_clone(alloc)?,
        definition: copy_definition(alloc, definition)?,
    })
}

/// Whether the macro has parameters in parentheses.
fn is_function_like(opening: &Opening) -> bool
    ensures { result ≡ opening.now.definition.function_like }
{
    let definition = &opening.definition;
    definition.function_like
}

/// The line of the token.
fn line_of(opening: &Opening) -> u32
    ensures { result ≡ opening.now.token.location.line }
{
    opening.token.location.line
}

/// A line number at this place, in place of the token there.
fn line_number(place: Place, shown: Option<Integer>) -> Taken
    ensures { result ≡ line_number place shown }
{
    match shown {
        Some(number) => {
            let value = TokenValue::Integer(number);
            let location = place.location;
            Taken::Token(Read::of_text(Token { value, location }, place.text))
        }
        None => Taken::Fault((PreprocessorError::LineOverflow, place)),
    }
}

/// A token, with `__LINE__` as a number.
fn shown_token<R: Reader>(reader: &R, after: &[Entry], read: Read) -> Taken
    ensures { result ≡ shown_token (R.reading.shown_line (R.state reader.now)) after.now read }
{
    if is_line_name(&read.token.value) {
        let line = match outermost_call(after) {
            Some(call) => call.line,
            None => read.token.location.line,
        };
        line_number(read.place(), reader.shown_line(line))
    } else {
        Taken::Token(read)
    }
}

/// What a reader gave, with `__LINE__` as a number.
fn shown_outcome<R: Reader>(reader: &R, taken: Taken) -> Taken
    ensures { result ≡ shown_outcome (R.reading.shown_line (R.state reader.now)) taken }
{
    match taken {
        Taken::Token(read) => shown_token(reader, &[], read),
        Taken::Fault(fault) => Taken::Fault(fault),
        Taken::End => Taken::End,
    }
}

/// Whether the value is an identifier among the names.
fn is_one_of(names: &[Text], value: &TokenValue) -> bool
    ensures { result ≡ is_one_of names.now value.now }
{
    match value {
        TokenValue::Ident(name) => is_among(name, names),
        _ => false,
    }
}

/// A token that is taken while these names are open, painted if it is an identifier among them.
fn painted_among(names: &[Text], read: Read) -> Read
    ensures { result ≡ painted_among names.now read }
{
    let painted = read.painted || is_one_of(names, &read.token.value);
    Read {
        token: read.token,
        text: read.text,
        painted,
    }
}

/// What is taken while these names are open.
fn taken_among(names: &[Text], taken: Taken) -> Taken
    ensures { result ≡ taken_among names.now taken }
{
    match taken {
        Taken::Token(read) => Taken::Token(painted_among(names, read)),
        Taken::Fault(fault) => Taken::Fault(fault),
        Taken::End => Taken::End,
    }
}

/// The turn at the name of a function-like macro. `name` is the name as an item, `found` is what follows it, and
/// `after` are the entries that are left then.
fn turn_after_name(name: Emitted, opening: Opening, found: AfterName, after: &[Entry]) -> Turn
    ensures { result ≡ turn_after_name name opening found after.now }
{
    match found {
        AfterName::NoCall => {
            drop(opening);
            Turn::Item(name)
        }
        AfterName::Broken(fault) => {
            drop(name);
            drop(opening);
            Turn::Item(emitted_among(after, Taken::Fault(fault)))
        }
        AfterName::Whole(site) => {
            drop(name);
            Turn::Called(MacroCall { opening, site })
        }
    }
}

impl<R: Reader> Expander<R> {
    /// An expander at the start of a reader, with these names open around it.
    pub fn new(alloc: Global, reader: R, hidden: Vec<Text>) -> Self
        ensures { seen R.state result ≡ record {
          held = None;
          list = [];
          reader = R.state reader;
          hidden = hidden.items;
        } }
    {
        Expander {
            alloc,
            held: None,
            list: Vec::new(alloc),
            reader,
            hidden,
        }
    }

    /// Takes the next item, before it is painted.
    fn fetch(&mut self, budget: &mut Budget) -> Result<Taken, Stop>
        ensures fetches { IfOk result (λ taken. Fetches R.reading (seen R.state self.old) taken
            (seen R.state self.new)) }
        ensures budget { budget.new.steps ≤ budget.old.steps }
    {
        if let Some(taken) = self.held.take() {
            return Ok(taken);
        }
        if let Some(read) = take_token(&mut self.list) {
            return Ok(shown_token(&self.reader, &self.list, read));
        }
        let taken = self.reader.read(budget)?;
        Ok(shown_outcome(&self.reader, taken))
    }

    /// Takes the next item, before it is looked up.
    pub fn take(&mut self, budget: &mut Budget) -> Result<Taken, Stop>
        ensures takes { IfOk result (λ taken. Takes R.reading (seen R.state self.old) taken
            (seen R.state self.new)) }
        ensures budget { budget.new.steps ≤ budget.old.steps }
    {
        let taken = self.fetch(budget)?;
        match self.masked() {
            Ok(names) => Ok(taken_among(&names, taken)),
            Err(_) => {
                drop(taken);
                Err(Stop::OutOfMemory)
            }
        }
    }

    /// The names that are open here or around.
    pub fn masked(&self) -> Result<Vec<Text>, AllocError>
        ensures { IfOk result (λ names. names.items ≡ masked_names (seen R.state self.now)) }
    {
        let mut names = open_names(self.alloc, &self.list)?;
        let mut hidden = copy_names(self.alloc, &self.hidden)?;
        names.append(&mut hidden)?;
        Ok(names)
    }

    /// The macro that the taken token opens, if it opens one.
    pub fn opening(&self, taken: &Taken) -> Result<Option<Opening>, AllocError>
        ensures { IfOk result (λ found. found
            ≡ opening R.reading (seen R.state self.now) taken.now) }
    {
        let Taken::Token(read) = taken else {
            return Ok(None);
        };
        let TokenValue::Ident(name) = &read.token.value else {
            return Ok(None);
        };
        if self.reader.is_reserved(name) || read.painted {
            return Ok(None);
        }
        let Some(definition) = self.reader.visible().find(name) else {
            return Ok(None);
        };
        Ok(Some(opening_of(self.alloc, read, name, definition)?))
    }

    /// Puts a macro's replacement before the list.
    pub fn splice(
        &mut self,
        opening: Opening,
        line: u32,
        arguments: &ReadLists,
    ) -> Result<(), AllocError>
        ensures { OnOk result (seen R.state self.new
            ≡ with_macro opening line arguments.now (seen R.state self.old)) }
    {
        let Opening {
            text,
            token,
            name,
            definition,
        } = opening;
        let call = CallPlace {
            name: token.location,
            text,
            line,
        };
        list::splice(
            self.alloc,
            &mut self.list,
            name,
            &definition,
            call,
            arguments,
        )
    }

    /// Replaces a call by its answer, or returns the fault of the answer as an item.
    pub fn resolve(
        &mut self,
        call: MacroCall,
        answer: Result<ReadLists, PlacedFault>,
    ) -> Result<Option<Emitted>, AllocError>
        ensures { IfOk result (λ item. Resolves call answer (seen R.state self.old) item
            (seen R.state self.new)) }
    {
        match answer {
            Ok(arguments) => {
                let MacroCall { opening, site } = call;
                let spliced = self.splice(opening, site.line, &arguments);
                drop(site);
                drop(arguments);
                spliced?;
                Ok(None)
            }
            Err(fault) => {
                drop(call);
                Ok(Some(emitted_among(&self.list, Taken::Fault(fault))))
            }
        }
    }

    /// The tokens up to the `)` of a call whose `(` is at `paren`, or the first fault before it.
    pub fn gather(
        &mut self,
        paren: Place,
        budget: &mut Budget,
    ) -> Result<Result<Gathered, PlacedFault>, Stop>
        ensures gathers { IfOk result (λ gathered. Gathers R.reading 0 paren
            (seen R.state self.old) gathered (seen R.state self.new)) }
        ensures budget { budget.new.steps ≤ budget.old.steps }
    {
        let mut tokens = Vec::new(self.alloc);
        let mut last = paren;
        let mut depth = 0;
        'tokens: loop {
            budget.spend()?;
            let read = match self.take(budget)? {
                Taken::Token(read) => read,
                Taken::Fault(fault) => return Ok(Err(unasked(fault))),
                Taken::End => return Ok(Err((PreprocessorError::UnexpectedEndOfInput, last))),
            };
            last = read.place();
            match nesting_of(depth, &read.token.value) {
                Nesting::Closes => {
                    drop(read);
                    return Ok(Ok(Gathered {
                        tokens,
                        closing: last.location,
                    }));
                }
                Nesting::TooMany => {
                    drop(read);
                    return Ok(Err((PreprocessorError::IntegerOverflow, last)));
                }
                Nesting::Within(deeper) => depth = deeper,
            }
            tokens.push(read)?;
        }
    }

    /// Takes the `(` of a call, or holds anything else that comes.
    fn take_paren(&mut self, budget: &mut Budget) -> Result<Option<Place>, Stop>
        ensures takes { IfOk result (λ paren. TakesParen R.reading (seen R.state self.old) paren
            (seen R.state self.new)) }
        ensures budget { budget.new.steps ≤ budget.old.steps }
    {
        let found = self.take(budget)?;
        match paren_at(&found) {
            Some(paren) => {
                drop(found);
                Ok(Some(paren))
            }
            None => {
                self.held = Some(found);
                Ok(None)
            }
        }
    }

    /// Looks for a call after the name of a function-like macro.
    fn find_call(&mut self, budget: &mut Budget) -> Result<AfterName, Stop>
        ensures finds { IfOk result (λ found. Finds R.reading (seen R.state self.old) found
            (seen R.state self.new)) }
        ensures budget { budget.new.steps ≤ budget.old.steps }
    {
        let Some(paren) = self.take_paren(budget)? else {
            return Ok(AfterName::NoCall);
        };
        match self.gather(paren, budget)? {
            Ok(gathered) => {
                let Gathered { tokens, closing } = gathered;
                let arguments = arguments_of(self.alloc, tokens)?;
                Ok(AfterName::Whole(Site {
                    paren,
                    line: closing.line,
                    arguments,
                }))
            }
            Err(fault) => Ok(AfterName::Broken(fault)),
        }
    }

    /// One turn of reading.
    pub fn turn(&mut self, budget: &mut Budget) -> Result<Turn, Stop>
        ensures turns { IfOk result (λ turn. Turns R.reading (seen R.state self.old) turn
            (seen R.state self.new)) }
        ensures budget { budget.new.steps ≤ budget.old.steps }
    {
        let taken = self.take(budget)?;
        match self.opening(&taken) {
            Ok(None) => Ok(Turn::Item(emitted_among(&self.list, taken))),
            Ok(Some(opening)) => self.turn_at(taken, opening, budget),
            Err(_) => {
                drop(taken);
                Err(Stop::OutOfMemory)
            }
        }
    }

    /// The turn at a token that opens a macro.
    fn turn_at(&mut self, taken: Taken, opening: Opening, budget: &mut Budget) -> Result<Turn, Stop>
        ensures turns { IfOk result (λ turn. TurnsAt R.reading taken opening
            (seen R.state self.old) turn (seen R.state self.new)) }
        ensures budget { budget.new.steps ≤ budget.old.steps }
    {
        if !is_function_like(&opening) {
            drop(taken);
            self.replace(opening)?;
            return Ok(Turn::Replaced);
        }
        let call = outermost_call(&self.list);
        let name = Emitted { taken, call };
        match self.find_call(budget) {
            Ok(found) => Ok(turn_after_name(name, opening, found, &self.list)),
            Err(stop) => {
                drop(name);
                drop(opening);
                Err(stop)
            }
        }
    }

    /// Replaces an object-like macro.
    fn replace(&mut self, opening: Opening) -> Result<(), AllocError>
        ensures { OnOk result (seen R.state self.new
            ≡ with_macro opening opening.token.location.line [] (seen R.state self.old)) }
    {
        let line = line_of(&opening);
        let none = ReadLists {
            items: Vec::new(self.alloc),
        };
        self.splice(opening, line, &none)
    }
}
