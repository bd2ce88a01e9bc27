//! The limits of nesting: of expansions, and of included texts.

ghost use Rattle.std.specs.Prelude.{◌≡◌};
ghost use Rattle.pp_model.specs.Emitting.{expansion_limit};

/// How many expansions of arguments may be nested.
pub const EXPANSION_LIMIT: u32 = 128;

/// How many texts may be included inside each other.
pub const INCLUDE_LIMIT: usize = 200;

/// The limit, as a number that is opaque to proofs.
#[tactic(auto, unfolding(pp_model::specs::Emitting::expansion_limit))]
pub fn expansion_limit() -> u32
    ensures { result ≡ expansion_limit }
{
    EXPANSION_LIMIT
}
