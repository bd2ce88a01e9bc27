//! One step over the reader of a source.

ghost use Rattle.std.specs.Prelude.{◌≡◌, [], IfOk};
ghost use Rattle.pp_macros.specs.inner.CallTurns.{TurnsOrRefuses, TakenHoldsOrdinary};
ghost use Rattle.pp_macros.specs.inner.Defined.{names_in};
ghost use Rattle.pp_macros.specs.inner.Nesting.{AreKnown};
ghost use Rattle.pp_macros.specs.inner.Reader.{of_source};

use pp_directives::directives::DirectiveProcessor;
use pp_macros::calls::Taken;
use pp_macros::macro_processor::MacroProcessor;
use pp_macros::step::PlacedStep;

/// One step of the expander, with the source as what follows the frames.
pub fn step_source(
    expander: &mut MacroProcessor,
    source: &mut DirectiveProcessor<'_>,
) -> PlacedStep<Taken>
    requires alone { expander.old.below ≡ [] }
    requires known { AreKnown (names_in source.old.definitions) expander.old }
    ensures turns { TurnsOrRefuses expander.old.here (of_source source.old) result expander.new.here
        (of_source source.new) }
    ensures below { expander.new.below ≡ expander.old.below }
    ensures holds { IfOk result TakenHoldsOrdinary }
{
    expander.step(source)
}
