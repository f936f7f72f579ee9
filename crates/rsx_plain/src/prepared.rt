//! An answer of an operator that can still go back.

ghost use Rattle.std.specs.Prelude.{◌≡◌, Some, None};

use rsx_types::{Cause, Ending};

/// At most one item, and then at most one ending. A plain operator answers an emission with an emission.
#[derive(Drop)]
pub struct Emission<T> {
    /// The item, if there is one.
    pub item: Option<T>,
    /// The ending, or `Open` where there is none.
    pub ending: Ending,
}

/// An item that comes in, and the ending behind it, or `Open` where there is none.
#[derive(Drop)]
pub(crate) struct Arrival<T> {
    /// The item.
    pub item: T,
    /// The ending behind it.
    pub ending: Ending,
}

/// What an operator keeps until the operators behind it have taken its answer.
#[derive(Drop)]
pub enum Pending<T> {
    /// No item came in.
    Nothing,
    /// This item came in, and the operator has not moved.
    Kept(T),
    /// The item that came in was put out. `distinct` has noted its key.
    Forwarded,
    /// The item that came in, and the accumulation after it, which `scan` has not kept yet.
    Accumulated(T, T),
    /// The item that came in is the last one that `buffer` has gathered.
    Gathered,
}

/// The answer of an operator, which can still go back.
#[derive(Drop)]
pub struct Prepared<T> {
    /// What is needed to go on or to go back.
    pub pending: Pending<T>,
    /// What comes out.
    pub answer: Emission<T>,
}

/// What an operator answers where it kept the item and failed by a fault of a function.
pub(crate) fn failed<T: Drop>(item: T, code: u32) -> Prepared<T>
    ensures { result ≡
        record { pending = Pending.Kept item; answer = record { item = None; ending = Ending.Failed (Cause.Function code) } } }
{
    kept(item, None, Ending::Failed(Cause::Function(code)))
}

/// What an operator answers where it kept the item and puts out this one, if any.
pub(crate) fn kept<T: Drop>(item: T, out: Option<T>, ending: Ending) -> Prepared<T>
    ensures { result ≡ record { pending = Pending.Kept item; answer = record { item = out; ending = ending } } }
{
    Prepared {
        pending: Pending::Kept(item),
        answer: Emission { item: out, ending },
    }
}

/// What an operator answers where it puts out the item that came in.
pub(crate) fn forwarded<T: Drop>(item: T, ending: Ending) -> Prepared<T>
    ensures { result ≡ record { pending = Pending.Forwarded; answer = record { item = Some item; ending = ending } } }
{
    Prepared {
        pending: Pending::Forwarded,
        answer: Emission {
            item: Some(item),
            ending,
        },
    }
}

/// What an operator answers where no item came in.
pub(crate) fn without_item<T: Drop>(out: Option<T>, ending: Ending) -> Prepared<T>
    ensures { result ≡ record { pending = Pending.Nothing; answer = record { item = out; ending = ending } } }
{
    Prepared {
        pending: Pending::Nothing,
        answer: Emission { item: out, ending },
    }
}
