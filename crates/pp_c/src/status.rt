//! How a call ends.

ghost use Rattle.std.specs.Prelude.{◌≡◌, ◌≢◌, ◌⊎◌, ◌↔◌, IsOk};
ghost use Rattle.pp_c.specs.Ends.{HasRoom};
ghost use Rattle.pp_c.specs.inner.Making.{is_front};
ghost use Rattle.pp_c.specs.inner.Refusing.{refusal_number};

use crate::items::Sizes;
use std::alloc::AllocError;

/// How a call ends. Its number is the one in the header.
#[derive(Clone, Copy)]
pub(crate) enum Status {
    /// All items and texts were written.
    Done,
    /// There was too little room. `sizes` says how much is needed.
    TooSmall,
    /// The source or the words aren't UTF-8.
    NotUtf8,
    /// The source or a content has 2^32 - 1 bytes or more.
    TooLong,
    /// A definition doesn't lie in the words.
    BadDefinition,
    /// An allocation failed.
    OutOfMemory,
    /// The items need more steps than the budget has.
    OverBudget,
    /// As many items as were asked for were written. The end wasn't reached.
    Partial,
    /// This library doesn't know the options.
    BadOptions,
    /// The last item is an `#include` line that asks for its text.
    Include,
    /// A text is inside of too many others.
    TooDeep,
    /// The stream isn't open.
    Closed,
}

/// Where the items of a call end.
#[derive(Clone, Copy)]
pub(crate) enum End {
    /// With the source's.
    All,
    /// Before the source's.
    Front,
    /// With an `#include` line that asks for its text.
    Include,
}

impl End {
    /// Whether the items don't end yet.
    pub(crate) fn is_front(self) -> bool
        ensures { result ≡ is_front self }
    {
        matches!(self, End::Front)
    }
}

/// Why a call can't give the items.
#[derive(Clone, Copy)]
pub(crate) enum Refusal {
    NotUtf8,
    TooLong,
    BadDefinition,
    OutOfMemory,
    OverBudget,
    TooDeep,
}

/// What ran out, so that a stream gives no items any more.
#[derive(Clone, Copy)]
pub(crate) enum Shortage {
    /// An allocation failed.
    Memory,
    /// The steps of the budget.
    Budget,
}

impl Refusal {
    /// The number of the status that it is.
    pub(crate) fn number(self) -> u32
        ensures { result ≡ refusal_number self }
    {
        let status = match self {
            Refusal::NotUtf8 => Status::NotUtf8,
            Refusal::TooLong => Status::TooLong,
            Refusal::BadDefinition => Status::BadDefinition,
            Refusal::OutOfMemory => Status::OutOfMemory,
            Refusal::OverBudget => Status::OverBudget,
            Refusal::TooDeep => Status::TooDeep,
        };
        status as u32
    }
}

impl From<Shortage> for Refusal {
    ghost use Rattle.std.specs.Prelude.{◌≡◌};
    ghost use Rattle.pp_c.specs.inner.Refusing.{refusal_for};

    ghost from_gives = { λ shortage refusal. refusal ≡ refusal_for shortage };

    fn from(shortage: Shortage) -> Self {
        match shortage {
            Shortage::Memory => Refusal::OutOfMemory,
            Shortage::Budget => Refusal::OverBudget,
        }
    }
}

impl From<AllocError> for Refusal {
    ghost use Rattle.std.specs.Prelude.{◌≡◌};
    ghost use Rattle.pp_c.specs.declared.status.Refusal.TheVariants.{OutOfMemory as out_of_memory};

    ghost from_gives = { λ _ refusal. refusal ≡ out_of_memory };

    fn from(_: AllocError) -> Self {
        Refusal::OutOfMemory
    }
}

/// The status of a call, from where its items end, how much room they take and how much there is.
pub(crate) fn status_after(end: Result<End, Refusal>, sizes: Sizes, room: Sizes) -> Status
    ensures done { result ≡ Status.Done → end ≡ Ok End.All }
    ensures partial { result ≡ Status.Partial → end ≡ Ok End.Front }
    ensures asking { result ≡ Status.Include → end ≡ Ok End.Include }
    ensures too_small { result ≡ Status.TooSmall → IsOk end }
    ensures not_utf8 { (result ≡ Status.NotUtf8) ↔ (end ≡ Err Refusal.NotUtf8) }
    ensures too_long { (result ≡ Status.TooLong) ↔ (end ≡ Err Refusal.TooLong) }
    ensures bad_definition { (result ≡ Status.BadDefinition) ↔ (end ≡ Err Refusal.BadDefinition) }
    ensures out_of_memory { (result ≡ Status.OutOfMemory) ↔ (end ≡ Err Refusal.OutOfMemory) }
    ensures over_budget { (result ≡ Status.OverBudget) ↔ (end ≡ Err Refusal.OverBudget) }
    ensures too_deep { (result ≡ Status.TooDeep) ↔ (end ≡ Err Refusal.TooDeep) }
    ensures good_options { result ≢ Status.BadOptions }
    ensures no_stream { result ≢ Status.Closed }
    ensures room { (result ≡ Status.Done) ⊎ (result ≡ Status.Partial) ⊎ (result ≡ Status.Include)
        → HasRoom room.items room.texts sizes }
    ensures no_room { result ≡ Status.TooSmall → ¬ (HasRoom room.items room.texts sizes) }
{
    match end {
        Ok(end) if sizes.items <= room.items && sizes.texts <= room.texts => match end {
            End::All => Status::Done,
            End::Front => Status::Partial,
            End::Include => Status::Include,
        },
        Ok(_) => Status::TooSmall,
        Err(Refusal::NotUtf8) => Status::NotUtf8,
        Err(Refusal::TooLong) => Status::TooLong,
        Err(Refusal::BadDefinition) => Status::BadDefinition,
        Err(Refusal::OutOfMemory) => Status::OutOfMemory,
        Err(Refusal::OverBudget) => Status::OverBudget,
        Err(Refusal::TooDeep) => Status::TooDeep,
    }
}
