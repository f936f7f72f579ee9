//! `take`: the first items, and then the completion.

ghost use Rattle.std.specs.Prelude.{◌≡◌, ◌≢◌, ◌-◌, true, min, [], ◌∷◌};
ghost use Rattle.rsx_types.specs.Meaning.{Meaning};
ghost use Rattle.rsx_types.specs.Plain.{taken_items};
ghost use Rattle.rsx_types.specs.Stream.{Stream, signals_then};
ghost use Rattle.rsx_plain.specs.Moves.{EndsLast, has_ending};
ghost use Rattle.rsx_plain.specs.Emission.{item_ended};
ghost use Rattle.rsx_plain.specs.Prepared.{IsPrepared};
ghost use Rattle.rsx_plain.specs.declared.state.PlainState.TheVariants.{Take as TakeFrom};

use crate::prepared::{Prepared, forwarded, kept};
use rsx_sources::OutSlot;
use rsx_types::{Ending, Signal};

/// Puts an item of those that are left into the empty slot, and with the last one the completion.
pub(crate) fn react<T: Drop>(left: &mut u64, item: T, out: &mut OutSlot<T>)
    requires some { left.old ≢ 0 }
    requires none { out.old ≡ [] }
    ensures ok { (rest : Stream T) →
        taken_items left.old (item ∷ rest.items) rest.ending ≡ signals_then out.new (taken_items left.new rest.items rest.ending) }
    ensures cut { EndsLast out.new }
    ensures over { left.new ≡ 0 → has_ending out.new ≡ true }
    ensures left { left.new ≡ left.old - 1 }
{
    let fewer = *left - 1;
    *left = fewer;
    out.put(Signal::Next(item));
    if fewer == 0 {
        out.put(Signal::Complete);
    }
}

/// A `take` asks for no more than it lets through.
#[inline]
pub(crate) fn want(asked: u64, count: u64) -> u64
    ensures { result ≡ min asked count }
{
    asked.min(count)
}

/// What a `take` in a chain answers to an item, and to this ending behind it: the item where one is left, and with the last
/// one the completion.
pub(crate) fn prepare<T: Drop>(count: u64, left: u64, item: T, ending: Ending) -> Prepared<T>
    ensures { (m : Meaning T) → IsPrepared m (TakeFrom count left) (item_ended item ending) (TakeFrom count left) result }
{
    match left {
        0 => kept(item, None, Ending::Done),
        1 => forwarded(item, Ending::Done),
        _ => forwarded(item, ending),
    }
}
