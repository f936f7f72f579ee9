//! Emissions: what goes from one operator of a chain to the next at once.

ghost use Rattle.std.specs.Prelude.{◌≡◌, ◌<◌, true, [], ◌++◌, length, IfOk};
ghost use Rattle.rsx_types.specs.Stream.{Stream, ending_signals};
ghost use Rattle.rsx_types.specs.declared.signal.Signal.{Signal};
ghost use Rattle.rsx_plain.specs.Emission.{emission_then};
ghost use Rattle.rsx_plain.specs.Moves.{has_ended};
ghost use Rattle.rsx_plain.specs.Emissions.{emission_of, emission_signals, followed_by};

use crate::Emission;
use rsx_sources::OutSlot;
use rsx_types::{Ending, NoMemory, Signal, StreamValue};

/// One signal as an emission.
pub(crate) fn from_signal<T: Drop>(signal: Signal<T>) -> Emission<T>
    ensures { result ≡ emission_of signal }
{
    match signal {
        Signal::Next(item) => Emission {
            item: Some(item),
            ending: Ending::Open,
        },
        Signal::Complete => Emission {
            item: None,
            ending: Ending::Done,
        },
        Signal::Error(cause) => Emission {
            item: None,
            ending: Ending::Failed(cause),
        },
    }
}

/// The signal that this emission was.
pub(crate) fn into_signal<T: Drop>(emission: Emission<T>) -> Signal<T>
    ensures { (signal : Signal T) → emission ≡ emission_of signal → result ≡ signal }
{
    match (emission.item, emission.ending) {
        (Some(item), _) => Signal::Next(item),
        (None, Ending::Failed(cause)) => Signal::Error(cause),
        (None, _) => Signal::Complete,
    }
}

/// Puts the item and the ending into the empty slot.
pub(crate) fn put_into<T: Drop>(emission: Emission<T>, out: &mut OutSlot<T>)
    requires { out.old ≡ [] }
    ensures { out.new ≡ emission_signals emission }
{
    match (emission.item, emission.ending) {
        (Some(item), ending) => {
            out.put(Signal::Next(item));
            put_ending(out, ending);
        }
        (None, ending) => put_ending(out, ending),
    }
}

/// Puts the signal of an ending, if it is one.
fn put_ending<T: Drop>(out: &mut OutSlot<T>, ending: Ending)
    requires { length out.old < 2 }
    ensures { out.new ≡ out.old ++ ending_signals ending }
{
    match ending {
        Ending::Open => {}
        Ending::Done => out.put(Signal::Complete),
        Ending::Failed(cause) => out.put(Signal::Error(cause)),
    }
}

/// Puts the item and the ending behind a stream value, unless that has ended.
pub(crate) fn put_behind<T: Drop>(
    emission: Emission<T>,
    first: StreamValue<T>,
) -> Result<StreamValue<T>, NoMemory>
    ensures joined { IfOk result (λ r. (v : Stream T) → followed_by r v ≡ followed_by first (emission_then emission v)) }
    ensures ended { IfOk result (λ r. has_ended emission.ending ≡ true → has_ended r.ending ≡ true) }
    ensures kept { IfOk result (λ r. has_ended first.ending ≡ true → has_ended r.ending ≡ true) }
{
    let Emission { item, ending } = emission;
    match first.ending() {
        Ending::Open => match item {
            Some(item) => {
                let mut items = first.into_items();
                items.push(item)?;
                Ok(StreamValue::new(items, ending))
            }
            None => Ok(StreamValue::new(first.into_items(), ending)),
        },
        Ending::Done => Ok(first),
        Ending::Failed(_) => Ok(first),
    }
}
