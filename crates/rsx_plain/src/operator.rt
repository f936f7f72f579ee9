//! What a plain operator does with the signals of its input.

ghost use Rattle.std.specs.Prelude.{◌≡◌, Bool};
ghost use Rattle.rsx_types.specs.Meaning.{Meaning, Allocates};
ghost use Rattle.rsx_types.specs.Stream.{Stream};
ghost use Rattle.rsx_types.specs.declared.signal.Signal.{Signal};

use rsx_sources::OutSlot;
use rsx_types::{Ending, NoMemory, Ops, Signal, StreamValue};
use std::alloc::Global;

/// A plain operator that has taken some of its input.
///
/// `from` is the operator from here on, as a function of what still comes in, and `after` the operator once it has taken
/// a signal. `over` says where nothing more of the input matters, and `allocates` whether taking a signal may allocate, where
/// these of the caller's functions may.
pub trait Operator<T: Drop> {
    ghost from: { Meaning T → Self → Stream T → Stream T };

    ghost after: { Meaning T → Self → Signal T → Self };

    ghost over: { Self → Bool };

    ghost allocates: { Allocates → Self → Bool };

    ghost use Rattle.std.specs.Prelude.{◌≡◌, true, false, [], OnOk, OnErr, IfOk, IfErr, IsOk};
    ghost use Rattle.rsx_types.specs.Stream.{items_then};
    ghost use Rattle.rsx_plain.specs.Moves.{Moves, EndsLast, has_ending};

    /// Takes a signal of the input, and puts the answer into the empty slot. Where the operator is over now, its ending is
    /// part of the answer. For want of memory the signal comes back, and nothing has changed; that comes only where it
    /// `allocates`.
    fn react<O: Ops<Item = T>>(
        &mut self,
        alloc: Global,
        ops: &O,
        signal: Signal<T>,
        out: &mut OutSlot<T>,
    ) -> Result<(), Signal<T>>
        requires { out.old ≡ [] }
        ensures ok { OnOk result (Moves (from (O.meaning ops.now)) self.old signal out.new self.new) }
        ensures cut { OnOk result (EndsLast out.new) }
        ensures over { OnOk result (over self.new ≡ true → has_ending out.new ≡ true) }
        ensures state { OnOk result (self.new ≡ after (O.meaning ops.now) self.old signal) }
        ensures err { IfErr result (λ s. s ≡ signal) }
        ensures memory { allocates (O.allocates ops.now) self.old ≡ false → IsOk result }
        ensures same { OnErr result (self.new ≡ self.old) }
        ensures none { OnErr result (out.new ≡ []) };

    /// What comes out in all, where `out` came out already and just these items and this ending still come in.
    fn rest<O: Ops<Item = T>>(
        &self,
        alloc: Global,
        ops: &O,
        out: Vec<T>,
        items: &[T],
        ending: Ending,
    ) -> Result<StreamValue<T>, NoMemory>
        ensures { IfOk result (λ v. v ≡ items_then out.items (
            from (O.meaning ops.now) self.now (record { items = items.now; ending = ending }))) };
}
