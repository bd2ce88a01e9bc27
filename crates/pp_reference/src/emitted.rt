//! Items, with the calls that they come from.

ghost use Rattle.std.specs.Prelude.{◌≡◌};
ghost use Rattle.pp_model.specs.Emitting.{found_among};
ghost use Rattle.pp_model.specs.ItemCall.{call_among};
ghost use Rattle.pp_reference.specs.inner.Seen.{emitted_among};

use crate::list::outermost_call;
use pp_model::place::fault_in;
use pp_model::read::Taken;
use pp_model::splice::{CallPlace, Entry};

/// An item, and where the outermost macro was called that was open once it was taken, if one was.
#[derive(Drop)]
pub struct Emitted {
    /// The token, the error or the end.
    pub taken: Taken,
    /// The call.
    pub call: Option<CallPlace>,
}

/// What is found while these entries are left. An error is in the call of the outermost macro that is open among them.
fn found_among(entries: &[Entry], taken: Taken) -> Taken
    ensures { result ≡ found_among entries.now taken }
{
    match taken {
        Taken::Token(read) => Taken::Token(read),
        Taken::Fault(fault) => Taken::Fault(fault_in(outermost_call(entries), fault)),
        Taken::End => Taken::End,
    }
}

/// The call that an error has, or else that of the outermost macro that is open among the entries.
fn call_among(entries: &[Entry], taken: &Taken) -> Option<CallPlace>
    ensures { result ≡ call_among entries.now taken.now }
{
    match taken {
        Taken::Fault(fault) => fault.1.call,
        Taken::Token(_) | Taken::End => outermost_call(entries),
    }
}

/// What is found while these entries are left, as an item.
pub fn emitted_among(entries: &[Entry], taken: Taken) -> Emitted
    ensures { result ≡ emitted_among entries.now taken }
{
    let taken = found_among(entries, taken);
    let call = call_among(entries, &taken);
    Emitted { taken, call }
}
