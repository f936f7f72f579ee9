//! The plain operators as one type: for each call a row or an arm of each operator.

ghost use Rattle.std.specs.Prelude.{◌≡◌, true, false, List, [], None, IfOk, IfErr, IsOk, OnOk, OnErr};
ghost use Rattle.rsx_types.specs.Stream.{items_then};
ghost use Rattle.rsx_types.specs.declared.signal.Signal.{Signal};
ghost use Rattle.rsx_types.specs.declared.stage.Stage.{Stage as StageSpec};
ghost use Rattle.rsx_plain.specs.Moves.{Moves, EndsLast, has_ending};
ghost use Rattle.rsx_plain.specs.Emission.{item_ended};
ghost use Rattle.rsx_plain.specs.Passes.{GoesThrough};
ghost use Rattle.rsx_plain.specs.Prepared.{IsPreparation};
ghost use Rattle.rsx_plain.specs.State.{plain_from, plain_start, after_signal, is_over, allocates_from, wanted_from, IsReaction, committed, rolled_back, taken_back};
ghost use Rattle.rsx_plain.specs.declared.state.PlainState.{PlainState as PlainStateSpec};

use crate::buffer::{BufferAnswer, BufferReaction, GatheredLists};
use crate::distinct::{DistinctAnswer, DistinctReaction};
use crate::filter::{FilterAnswer, FilterReaction};
use crate::map::{MapAnswer, MapReaction};
use crate::operator::Operator;
use crate::pass::Through;
use crate::prepared::{Arrival, Pending, Prepared, without_item};
use crate::rest::Collected;
use crate::scan::{ScanAnswer, ScanReaction};
use crate::{buffer, distinct, filter, scan, take};
use rsx_collections::{Buffered, Copied, Keys};
use rsx_rules::rules;
use rsx_sources::{OutSlot, Passed};
use rsx_types::{Ending, NoMemory, Ops, Signal, Stage, StreamValue};
use std::alloc::Global;

/// A plain operator that has taken some of its input.
#[derive(Drop)]
pub enum PlainState<T> {
    /// The answers of a function.
    Map {
        /// The number of the function.
        function: u16,
    },
    /// The items whose test is true.
    Filter {
        /// The number of the test.
        function: u16,
        /// How many items came in whose test was false, or 2^63 - 1 where there were more.
        dropped: u64,
    },
    /// The first items, and then the completion.
    Take {
        /// How many items come out in all.
        count: u64,
        /// How many of them have not come out yet.
        left: u64,
    },
    /// The accumulations.
    Scan {
        /// The number of the function.
        function: u16,
        /// The seed, or the accumulation that came out last.
        last: T,
    },
    /// Lists of the items.
    Buffer {
        /// How many items a list has.
        size: u64,
        /// The items of the list that is not full yet.
        gathered: Buffered<T>,
    },
    /// The first item of each key.
    Distinct {
        /// The number of the function that answers keys.
        function: u16,
        /// The keys of the items that came out.
        keys: Keys,
        /// How many items came in whose key was known, or 2^63 - 1 where there were more.
        repeated: u64,
    },
}

impl<T: Drop> PlainState<T> {
    /// The operator before it has taken anything. It takes memory for a copy of a seed alone; for want of it the answer is
    /// [`NoMemory`].
    pub fn new<O: Ops<Item = T>>(
        alloc: Global,
        ops: &O,
        stage: &Stage<T>,
    ) -> Result<PlainState<T>, NoMemory>
        ensures { IfOk result (λ s. s ≡ plain_start stage.now) }
    {
        stage.started(alloc, ops)
    }

    /// What is to be asked of the input in all, where `asked` is asked of the operator and `sent` items came out of it:
    /// an item that was dropped is asked for again, `take` asks for no more than it lets through, the seed of `scan` needs
    /// no item, and a list needs as many as it has. It is at most 2^63 - 1 where `asked` is.
    #[inline]
    pub fn want(&self, asked: u64, sent: u64) -> u64
        ensures { result ≡ wanted_from self.now asked sent }
    {
        match self {
            PlainState::Map { function: _ } => asked,
            PlainState::Filter {
                function: _,
                dropped,
            } => filter::want(asked, *dropped),
            PlainState::Take { count, left: _ } => take::want(asked, *count),
            PlainState::Scan {
                function: _,
                last: _,
            } => scan::want(asked),
            PlainState::Buffer { size, gathered: _ } => buffer::want(asked, *size),
            PlainState::Distinct {
                function: _,
                keys: _,
                repeated,
            } => distinct::want(asked, *repeated),
        }
    }

    /// Whether nothing more of the input matters: a `take` has let all its items through, and completes.
    #[inline]
    pub fn is_over(&self) -> bool
        ensures { result ≡ is_over self.now }
    {
        match self {
            PlainState::Take { count: _, left } => *left == 0,
            _ => false,
        }
    }
}

impl<T: Drop> PlainState<T> {
    /// Lets an answer stand: the operator is as it is after it.
    pub fn commit(&mut self, pending: Pending<T>)
        ensures { self.new ≡ committed self.old pending }
    {
        match (self, pending) {
            (PlainState::Take { count: _, left }, Pending::Forwarded) => {
                *left = left.saturating_sub(1);
            }
            (PlainState::Scan { function: _, last }, Pending::Accumulated(_, next)) => *last = next,
            (PlainState::Buffer { size, gathered }, Pending::Gathered) => {
                if gathered.items().len() as u64 >= *size {
                    gathered.clear();
                }
            }
            _ => {}
        }
    }

    /// Undoes an answer, where this item, if any, came out. The operator is as it was before, and the item that came in comes
    /// back.
    #[tactic(auto, using(crate::proofs::Prepares::popped_list, crate::proofs::Prepares::popped_item))]
    pub fn roll_back(&mut self, pending: Pending<T>, out: Option<T>) -> Option<T>
        ensures state { self.new ≡ rolled_back self.old pending }
        ensures item { result ≡ taken_back self.old pending out }
    {
        match pending {
            Pending::Nothing => None,
            Pending::Kept(item) => Some(item),
            Pending::Accumulated(item, _) => Some(item),
            Pending::Forwarded => {
                if let PlainState::Distinct {
                    function: _,
                    keys,
                    repeated: _,
                } = self
                {
                    let _key = keys.pop();
                }
                out
            }
            Pending::Gathered => match self {
                PlainState::Buffer { size: _, gathered } => gathered.pop(),
                _ => None,
            },
        }
    }
}

/// What starts an operator.
pub trait Starting<T: Drop> {
    ghost stage: { Self → StageSpec T };

    /// The operator before it has taken anything. It takes memory for a copy of a seed alone; for want of it the answer is
    /// [`NoMemory`].
    fn started<O: Ops<Item = T>>(&self, alloc: Global, ops: &O) -> Result<PlainState<T>, NoMemory>
        ensures { IfOk result (λ s. s ≡ plain_start (stage self.now)) };
}

impl<T: Drop> Starting<T> for Stage<T> {
    ghost stage = { λ s. s };

    fn started<O: Ops<Item = T>>(&self, alloc: Global, ops: &O) -> Result<PlainState<T>, NoMemory>
        ensures { IfOk result (λ s. s ≡ plain_start self.now) }
    {
        let state = match self {
            Stage::Map(function) => PlainState::Map {
                function: *function,
            },
            Stage::Filter(function) => PlainState::Filter {
                function: *function,
                dropped: 0,
            },
            Stage::Take(count) => PlainState::Take {
                count: *count,
                left: *count,
            },
            Stage::Scan(function, seed) => PlainState::Scan {
                function: *function,
                last: ops.copy(alloc, seed)?,
            },
            Stage::Buffer(size) => PlainState::Buffer {
                size: *size,
                gathered: Buffered::new(alloc),
            },
            Stage::Distinct(function) => PlainState::Distinct {
                function: *function,
                keys: Keys::new(alloc),
                repeated: 0,
            },
        };
        Ok(state)
    }
}

impl<T: Drop> Operator<T> for PlainState<T> {
    ghost from = { plain_from };

    ghost after = { after_signal };

    ghost over = { is_over };

    ghost allocates = { allocates_from };

    fn react<O: Ops<Item = T>>(
        &mut self,
        alloc: Global,
        ops: &O,
        signal: Signal<T>,
        out: &mut OutSlot<T>,
    ) -> Result<(), Signal<T>>
        requires { out.old ≡ [] }
        ensures ok { OnOk result (Moves (plain_from (O.meaning ops.now)) self.old signal out.new self.new) }
        ensures cut { OnOk result (EndsLast out.new) }
        ensures over { OnOk result (is_over self.new ≡ true → has_ending out.new ≡ true) }
        ensures state { OnOk result (self.new ≡ after_signal (O.meaning ops.now) self.old signal) }
        ensures err { IfErr result (λ s. s ≡ signal) }
        ensures memory { allocates_from (O.allocates ops.now) self.old ≡ false → IsOk result }
        ensures same { OnErr result (self.new ≡ self.old) }
        ensures none { OnErr result (out.new ≡ []) }
    {
        out.react(alloc, ops, self, signal)
    }

    fn rest<O: Ops<Item = T>>(
        &self,
        alloc: Global,
        ops: &O,
        out: Vec<T>,
        items: &[T],
        ending: Ending,
    ) -> Result<StreamValue<T>, NoMemory>
        ensures { IfOk result (λ v. v ≡ items_then out.items (
            plain_from (O.meaning ops.now) self.now (record { items = items.now; ending = ending }))) }
    {
        if self.is_over() {
            return Ok(StreamValue::new(out, Ending::Done));
        }
        let mut state = self.copied(alloc, ops)?;
        let mut out = out;
        let last = out.take_all(alloc, ops, &mut state, items, ending)?;
        Ok(StreamValue::new(out, last))
    }
}

/// What the operators put out, as a table over the operator's state and the signal.
trait Reactions<T: Drop> {
    ghost slot: { Self → List (Signal T) };

    /// Has an operator take a signal, and puts the answer into the empty slot. The contract is one sentence, so that it is
    /// proved once for each row of the table.
    fn react<O: Ops<Item = T>>(
        &mut self,
        alloc: Global,
        ops: &O,
        state: &mut PlainState<T>,
        signal: Signal<T>,
    ) -> Result<(), Signal<T>>
        requires { slot self.old ≡ [] }
        ensures { IsReaction (O.meaning ops.now) (O.allocates ops.now) state.old signal result (slot self.new) state.new };
}

impl<T: Drop> Reactions<T> for OutSlot<T> {
    ghost slot = { λ s. s };

    #[tactic(auto, using(crate::proofs::Taken::taken_ended))]
    fn react<O: Ops<Item = T>>(
        &mut self,
        alloc: Global,
        ops: &O,
        state: &mut PlainState<T>,
        signal: Signal<T>,
    ) -> Result<(), Signal<T>>
        requires { self.old ≡ [] }
        ensures { IsReaction (O.meaning ops.now) (O.allocates ops.now) state.old signal result self.new state.new }
    {
        let ((), answer) = rules! { &mut *state, signal;
            PlainState::Map { function }, Signal::Next(item) =>
                (), self.map(alloc, ops, *function, item);
            PlainState::Filter { function, dropped }, Signal::Next(item) =>
                (), self.filter(ops, *function, dropped, item);
            PlainState::Take { count: _, left: 0 }, _ =>
                (), { self.put(Signal::Complete); Ok(()) };
            PlainState::Take { count: _, left }, Signal::Next(item) =>
                (), { take::react(left, item, self); Ok(()) };
            PlainState::Scan { function, last }, Signal::Next(item) =>
                (), self.scan(alloc, ops, *function, last, item);
            PlainState::Buffer { size, gathered }, Signal::Next(item) =>
                (), self.gather(alloc, ops, *size, gathered, item);
            PlainState::Buffer { size, gathered }, Signal::Complete =>
                (), self.complete_list(alloc, ops, *size, gathered);
            PlainState::Buffer { size, gathered }, Signal::Error(cause) =>
                (), self.fail(alloc, ops, *size, gathered, cause);
            PlainState::Distinct { function, keys, repeated }, Signal::Next(item) =>
                (), self.distinct(ops, *function, keys, repeated, item);
            _, ending => (), { self.put(ending); Ok(()) };
        };
        answer
    }
}

/// The answers of an operator, with an item and without one.
pub(crate) trait Answering<T: Drop> {
    ghost state: { Self → PlainStateSpec T };

    /// What the operator answers to an item, and to this ending behind it. For want of memory the item comes back, and nothing
    /// has changed.
    fn to_item<O: Ops<Item = T>>(
        &mut self,
        alloc: Global,
        ops: &O,
        item: T,
        ending: Ending,
    ) -> Result<Prepared<T>, T>
        ensures answer { IsPreparation (O.meaning ops.now) (O.allocates ops.now) (state self.old) (item_ended item ending) result (state self.new) }
        ensures err { IfErr result (λ x. x ≡ item) };

    /// What the operator answers where no item comes in. It does not move.
    fn to_ending<O: Ops<Item = T>>(
        &self,
        alloc: Global,
        ops: &O,
        ending: Ending,
    ) -> Result<Prepared<T>, NoMemory>
        ensures { IsPreparation (O.meaning ops.now) (O.allocates ops.now) (state self.now) (record { item = None; ending = ending }) result (state self.now) };
}

impl<T: Drop> Answering<T> for PlainState<T> {
    ghost state = { λ s. s };

    fn to_item<O: Ops<Item = T>>(
        &mut self,
        alloc: Global,
        ops: &O,
        item: T,
        ending: Ending,
    ) -> Result<Prepared<T>, T> {
        match self {
            PlainState::Take { count, left } => Ok(take::prepare(*count, *left, item, ending)),
            PlainState::Map { function } => {
                Arrival { item, ending }.answer_map(alloc, ops, *function)
            }
            PlainState::Filter { function, dropped } => {
                Arrival { item, ending }.answer_filter(ops, *function, *dropped)
            }
            PlainState::Scan { function, last } => {
                Arrival { item, ending }.answer_scan(alloc, ops, *function, last)
            }
            PlainState::Buffer { size, gathered } => {
                Arrival { item, ending }.answer_buffer(alloc, ops, *size, gathered)
            }
            PlainState::Distinct {
                function,
                keys,
                repeated,
            } => Arrival { item, ending }.answer_distinct(ops, *function, keys, *repeated),
        }
    }

    #[tactic(auto, using(crate::proofs::Prepares::taken_ended, crate::proofs::Prepares::buffered_ended))]
    fn to_ending<O: Ops<Item = T>>(
        &self,
        alloc: Global,
        ops: &O,
        ending: Ending,
    ) -> Result<Prepared<T>, NoMemory> {
        match self {
            PlainState::Take { count: _, left: 0 } => Ok(without_item(None, Ending::Done)),
            PlainState::Buffer { size: _, gathered } => {
                match gathered.list_at_end(alloc, ops, ending) {
                    Ok(list) => Ok(without_item(list, ending)),
                    Err(NoMemory) => Err(NoMemory),
                }
            }
            _ => Ok(without_item(None, ending)),
        }
    }
}

/// An operator that answers an item in one go.
pub(crate) trait Passing<T: Drop> {
    /// The operator's state.
    ghost state: { Self → PlainStateSpec T };

    /// Takes an item in, and answers what is put out for it where that is one item or nothing. A fault of the caller's
    /// function, the last item of a `take` and want of memory are declined: then the item comes back, and nothing has
    /// changed.
    fn pass<O: Ops<Item = T>>(&mut self, alloc: Global, ops: &O, item: T) -> Passed<T>
        ensures { GoesThrough (O.meaning ops.now) (state self.old) item result (state self.new) };
}

impl<T: Drop> Passing<T> for PlainState<T> {
    ghost state = { λ s. s };

    #[inline(always)]
    fn pass<O: Ops<Item = T>>(&mut self, alloc: Global, ops: &O, item: T) -> Passed<T> {
        match self {
            PlainState::Map { function } => item.through_map(alloc, ops, *function),
            PlainState::Filter { function, dropped } => {
                item.through_filter(ops, *function, dropped)
            }
            PlainState::Take { count: _, left } => item.through_take(left),
            PlainState::Scan { function, last } => item.through_scan(alloc, ops, *function, last),
            PlainState::Buffer { size, gathered } => {
                item.through_buffer(alloc, ops, *size, gathered)
            }
            PlainState::Distinct {
                function,
                keys,
                repeated,
            } => item.through_distinct(ops, *function, keys, repeated),
        }
    }
}

impl<T: Drop> Copied<T> for PlainState<T> {
    fn copied<O: Ops<Item = T>>(&self, alloc: Global, ops: &O) -> Result<PlainState<T>, NoMemory> {
        let copy = match self {
            PlainState::Map { function } => PlainState::Map {
                function: *function,
            },
            PlainState::Filter { function, dropped } => PlainState::Filter {
                function: *function,
                dropped: *dropped,
            },
            PlainState::Take { count, left } => PlainState::Take {
                count: *count,
                left: *left,
            },
            PlainState::Scan { function, last } => PlainState::Scan {
                function: *function,
                last: ops.copy(alloc, last)?,
            },
            PlainState::Buffer { size, gathered } => PlainState::Buffer {
                size: *size,
                gathered: gathered.copied(alloc, ops)?,
            },
            PlainState::Distinct {
                function,
                keys,
                repeated,
            } => PlainState::Distinct {
                function: *function,
                keys: keys.copy()?,
                repeated: *repeated,
            },
        };
        Ok(copy)
    }
}

/// Copies of these operators, in their order: the same functions and numbers, and a copy of each seed.
///
/// # Errors
/// [`NoMemory`] where a growth was refused, in `Ops::copy` too.
pub fn copy_stages<T: Drop, O: Ops<Item = T>>(
    alloc: Global,
    ops: &O,
    stages: &[Stage<T>],
) -> Result<Vec<Stage<T>>, NoMemory>
    ensures { IfOk result (λ v. v.items ≡ stages.now) }
{
    let mut copies = Vec::new(alloc);
    for stage in stages {
        let copy = copy_stage(alloc, ops, stage)?;
        copies.push(copy)?;
    }
    Ok(copies)
}

/// The same operator, with a copy of its seed.
fn copy_stage<T: Drop, O: Ops<Item = T>>(
    alloc: Global,
    ops: &O,
    stage: &Stage<T>,
) -> Result<Stage<T>, NoMemory>
    ensures { IfOk result (λ s. s ≡ stage.now) }
{
    match stage {
        Stage::Map(function) => Ok(Stage::Map(*function)),
        Stage::Filter(function) => Ok(Stage::Filter(*function)),
        Stage::Take(count) => Ok(Stage::Take(*count)),
        Stage::Scan(function, seed) => {
            let seed = ops.copy(alloc, seed)?;
            Ok(Stage::Scan(*function, seed))
        }
        Stage::Buffer(count) => Ok(Stage::Buffer(*count)),
        Stage::Distinct(function) => Ok(Stage::Distinct(*function)),
    }
}
