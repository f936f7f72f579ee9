//! What still comes out of an operator, computed: a copy of it takes all that still comes in.

ghost use Rattle.std.specs.Prelude.{◌≡◌, true, false, List, IfOk};
ghost use Rattle.std.specs.Option.{option_to_list};
ghost use Rattle.rsx_types.specs.Stream.{ending_signals};
ghost use Rattle.rsx_plain.specs.Moves.{IsPutBehind, has_ended, has_ending};
ghost use Rattle.rsx_plain.specs.Collected.{IsCollected, IsAllCollected};
ghost use Rattle.rsx_plain.specs.State.{is_over};

use crate::operator::Operator;
use crate::state::PlainState;
use rsx_sources::OutSlot;
use rsx_types::{Ending, NoMemory, Ops, Signal};
use std::alloc::Global;

/// What came out of an operator so far.
pub(crate) trait Collected<T: Drop> {
    /// The items that came out.
    ghost so_far: { Self → List T };

    /// Has the operator take a signal, and puts the items that come out behind the others. The answer is the ending behind
    /// them, `Open` where none came out.
    fn take_in<O: Ops<Item = T>>(
        &mut self,
        alloc: Global,
        ops: &O,
        state: &mut PlainState<T>,
        signal: Signal<T>,
    ) -> Result<Ending, NoMemory>
        ensures moves { IfOk result (IsCollected (O.meaning ops.now) (so_far self.old) state.old signal (so_far self.new) state.new) }
        ensures over { IfOk result (λ e. is_over state.new ≡ true → has_ended e ≡ true) };

    /// Has the operator take these items and this ending, and puts the items that come out behind the others. The answer is
    /// the ending behind them, `Open` where none came out.
    fn take_all<O: Ops<Item = T>>(
        &mut self,
        alloc: Global,
        ops: &O,
        state: &mut PlainState<T>,
        items: &[T],
        ending: Ending,
    ) -> Result<Ending, NoMemory>
        requires { is_over state.old ≡ false }
        ensures { IfOk result (IsAllCollected (O.meaning ops.now) (so_far self.old) state.old items.now ending (so_far self.new)) };
}

impl<T: Drop> Collected<T> for Vec<T> {
    ghost so_far = { λ v. v.items };

    fn take_in<O: Ops<Item = T>>(
        &mut self,
        alloc: Global,
        ops: &O,
        state: &mut PlainState<T>,
        signal: Signal<T>,
    ) -> Result<Ending, NoMemory>
        ensures moves { IfOk result (IsCollected (O.meaning ops.now) self.old.items state.old signal self.new.items state.new) }
        ensures over { IfOk result (λ e. is_over state.new ≡ true → has_ended e ≡ true) }
    {
        let mut slot = OutSlot::new();
        match state.react(alloc, ops, signal, &mut slot) {
            Err(_) => Err(NoMemory),
            Ok(()) => {
                let last = drain(slot, self)?;
                Ok(last)
            }
        }
    }

    fn take_all<O: Ops<Item = T>>(
        &mut self,
        alloc: Global,
        ops: &O,
        state: &mut PlainState<T>,
        items: &[T],
        ending: Ending,
    ) -> Result<Ending, NoMemory>
        requires { is_over state.old ≡ false }
        ensures { IfOk result (IsAllCollected (O.meaning ops.now) self.old.items state.old items.now ending self.new.items) }
    {
        for item in items {
            let signal = Signal::Next(ops.copy(alloc, item)?);
            match self.take_in(alloc, ops, state, signal)? {
                Ending::Open => {}
                last => return Ok(last),
            }
        }
        match signal_of(ending) {
            None => Ok(Ending::Open),
            Some(signal) => {
                let last = self.take_in(alloc, ops, state, signal)?;
                Ok(last)
            }
        }
    }
}

/// Puts the items of a slot behind the others, and answers its ending, `Open` where it has none.
fn drain<T: Drop>(slot: OutSlot<T>, out: &mut Vec<T>) -> Result<Ending, NoMemory>
    ensures moves { IfOk result (IsPutBehind out.old.items slot out.new.items) }
    ensures ended { IfOk result (λ e. has_ending slot ≡ true → has_ended e ≡ true) }
{
    let mut slot = slot;
    match put_behind(slot.pop(), out)? {
        Ending::Open => put_behind(slot.pop(), out),
        last => Ok(last),
    }
}

/// Puts the item of a signal, if it has one, behind the others, and answers its ending, `Open` where it is none.
fn put_behind<T: Drop>(signal: Option<Signal<T>>, out: &mut Vec<T>) -> Result<Ending, NoMemory>
    ensures moves { IfOk result (IsPutBehind out.old.items (option_to_list signal) out.new.items) }
    ensures ended { IfOk result (λ e. has_ending (option_to_list signal) ≡ true → has_ended e ≡ true) }
{
    match signal {
        Some(Signal::Next(item)) => {
            out.push(item)?;
            Ok(Ending::Open)
        }
        Some(Signal::Complete) => Ok(Ending::Done),
        Some(Signal::Error(cause)) => Ok(Ending::Failed(cause)),
        None => Ok(Ending::Open),
    }
}

/// The signal of an ending, if it is one.
fn signal_of<T>(ending: Ending) -> Option<Signal<T>>
    ensures { option_to_list result ≡ ending_signals ending }
{
    match ending {
        Ending::Open => None,
        Ending::Done => Some(Signal::Complete),
        Ending::Failed(cause) => Some(Signal::Error(cause)),
    }
}
