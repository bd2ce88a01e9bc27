//! A law of what calls give, over the definitions alone. The body does nothing.

ghost use Rattle.pp_c.specs.Fronts.{FrontsStay};

/// The items of a call that stops are the first of those of a call that goes on, over the same source and definitions
/// and by the same rules.
pub fn fronts()
    ensures { FrontsStay }
{
    pp_model::laws::run_to_end()
}
