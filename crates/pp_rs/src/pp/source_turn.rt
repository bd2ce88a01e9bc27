//! One turn over the reader of a source.

ghost use Rattle.std.specs.Prelude.{◌≡◌, ◌⊎◌, [], Err, IfOk, MatchResult, None};
ghost use Rattle.pp_lexer.specs.PreprocessorError.{out_of_memory};
ghost use Rattle.pp_lexer.specs.declared.token.PreprocessorError.TheVariants.{LineOverflow};
ghost use Rattle.pp_macros.specs.Item.{no_memory};
ghost use Rattle.pp_model.specs.Emitting.{expansion_limit};
ghost use Rattle.pp_model.specs.Painting.{read_in};
ghost use Rattle.pp_model.specs.Places.{in_text};
ghost use Rattle.pp_model.specs.declared.read.Taken.TheVariants as given;
ghost use Rattle.pp_macros.specs.Held.{HoldsOrdinary};
ghost use Rattle.pp_macros.specs.inner.Defined.{names_in};
ghost use Rattle.pp_macros.specs.inner.Idle.{HoldsWord};
ghost use Rattle.pp_macros.specs.inner.Nesting.{AreKnown};
ghost use Rattle.pp_macros.specs.inner.Reader.{of_source};
ghost use Rattle.pp_rs.specs.inner.SourceTurns.{FollowsCall, StepsOver};
ghost use Rattle.pp_macros.specs.inner.Turns.{taken_in};
ghost use Rattle.pp_macros.specs.declared.step.PlacedExit.TheVariants.{Error};

use crate::pp::preprocessor_step::step_source;
use crate::token::Token;
use pp_directives::directives::DirectiveProcessor;
use pp_directives::limit::expansion_limit;
use pp_macros::arguments::finish_call;
use pp_macros::calls::{MacroCall, Taken};
use pp_macros::list_lexer::Scope;
use pp_macros::macro_processor::{MacroProcessor, line_number};
use pp_macros::names::gives_itself;
use pp_macros::reader::MeLexer;
use pp_macros::step::{PlacedExit, PlacedStep};
use pp_model::names::is_line_name;
use pp_model::place::Place;
use pp_model::read::Read;
use std::alloc::Global;

// Finishes a call, over the definitions of the source, with nothing open around. It is a function of its own, so that
// the results of other steps are moved without it.
#[inline(never)]
fn follow_call(
    alloc: Global,
    expander: &mut MacroProcessor,
    source: &DirectiveProcessor<'_>,
    call: MacroCall,
) -> PlacedStep<Read>
    requires alone { expander.old.below ≡ [] }
    requires free { expander.old.here.held ≡ None }
    requires known { AreKnown (names_in source.now.definitions) expander.old }
    ensures follows { FollowsCall expansion_limit source.now call expander.old.here result
        expander.new.here ⊎ (result ≡ Err (Error no_memory)) }
    ensures below { expander.new.below ≡ expander.old.below }
    ensures holds { IfOk result (λ read. HoldsOrdinary read.token.value) }
{
    let scope = Scope {
        numbering: source.list_numbering(),
        definitions: source.definitions(),
    };
    finish_call(alloc, expander, call, &scope, expansion_limit())?;
    Err(PlacedExit::Continue)
}

// One step of the expander over a source. A call that it finds is finished at once.
#[inline(always)]
fn turn_expander(
    alloc: Global,
    expander: &mut MacroProcessor,
    source: &mut DirectiveProcessor<'_>,
) -> PlacedStep<Read>
    requires alone { expander.old.below ≡ [] }
    requires known { AreKnown (names_in source.old.definitions) expander.old }
    ensures turns { StepsOver expansion_limit expander.old.here source.old result expander.new.here source.new }
    ensures below { expander.new.below ≡ expander.old.below }
    ensures holds { IfOk result (λ read. HoldsOrdinary read.token.value) }
{
    match step_source(expander, source)? {
        Taken::Token(read) => Ok(read),
        Taken::Call(call) => follow_call(alloc, expander, &*source, call),
    }
}

// A token of this text as it is taken if no macro is open: `__LINE__` becomes a number at once.
fn take_in(source: &DirectiveProcessor<'_>, text: u32, token: Token) -> PlacedStep<Token>
    requires { HoldsOrdinary token.value }
    ensures taken { MatchResult result
        (λ taken. taken_in [] (of_source source.now) (read_in text token)
        ≡ given.Token (read_in text taken))
        (λ exit. (exit ≡ Error (LineOverflow, in_text text token.location))
        × (taken_in [] (of_source source.now) (read_in text token)
        ≡ given.Fault (LineOverflow, in_text text token.location))) }
    ensures holds { IfOk result (λ token. HoldsOrdinary token.value) }
{
    if !is_line_name(&token.value) {
        return Ok(token);
    }
    let place = Place::in_text(text, token.location);
    drop(token);
    Ok(line_number(place, source.shown_line(place.location.line))?.token)
}

// Holds a token of this text that is `__LINE__` or may open a macro, while no macro is open. The next step of the
// expander then takes it.
#[inline(never)]
fn hold_word(
    expander: &mut MacroProcessor,
    source: &DirectiveProcessor<'_>,
    text: u32,
    word: Token,
) -> PlacedStep<()>
    requires { HoldsOrdinary word.value }
    ensures holds { HoldsWord text word source.now expander.old.here result expander.new.here }
    ensures below { expander.new.below ≡ expander.old.below }
{
    let token = take_in(source, text, word)?;
    expander.put_back(Ok(Read::of_text(token, text)));
    Ok(())
}

/// One step of the expander over a source. A call that it finds is finished at once.
///
/// If no macro is open, an ordinary token of the source that opens none is given at once.
#[inline(always)]
pub fn turn_source(
    alloc: Global,
    expander: &mut MacroProcessor,
    source: &mut DirectiveProcessor<'_>,
) -> PlacedStep<Read>
    requires alone { expander.old.below ≡ [] }
    requires known { AreKnown (names_in source.old.definitions) expander.old }
    ensures turns { StepsOver expansion_limit expander.old.here source.old result expander.new.here source.new }
    ensures below { expander.new.below ≡ expander.old.below }
    ensures holds { IfOk result (λ read. HoldsOrdinary read.token.value) }
{
    if expander.is_idle() {
        let text = source.text();
        let token = source.step()?;
        if gives_itself(source.definitions(), &token.value) {
            return Ok(Read::of_text(token, text));
        }
        hold_word(expander, &*source, text, token)?;
    }
    turn_expander(alloc, expander, source)
}
