//! What an item is expanded to, through the chain.

ghost use Rattle.std.specs.Prelude.{◌≡◌, ℕ, true, List, ◌++◌, IfOk, OnOk};
ghost use Rattle.rsx_types.specs.Meaning.{Answers};
ghost use Rattle.rsx_types.specs.declared.stage.Stage.{Stage as StageSpec};
ghost use Rattle.rsx_plain.specs.Moves.{has_ended};
ghost use Rattle.rsx_values.specs.Flat.{flat_lane};
ghost use Rattle.rsx_values.specs.Lanes.{main_input};
ghost use Rattle.rsx_merging.specs.Coming.{lane_answer, lanes_to_come};

use rsx_plain::{ChainState, Chaining, NewChain};
use rsx_types::{Cause, Ending, Fault, NoMemory, Ops, Stage, StreamValue};
use rsx_values::{Input, MAIN};
use std::alloc::Global;

/// How an item becomes a lane: the function of the caller that expands it, and the operators of the chain behind that.
#[derive(Drop)]
pub struct Expansion<T> {
    /// The number of the function, for `Ops::expand`.
    pub function: u16,
    /// The operators of the chain, the first one innermost.
    pub stages: Vec<Stage<T>>,
}

/// Puts items behind those that are there.
fn append<T: Drop>(all: &mut Vec<T>, items: Vec<T>) -> Result<(), NoMemory>
    ensures { OnOk result (all.new.items ≡ all.old.items ++ items.items) }
{
    for item in items {
        all.push(item)?;
    }
    Ok(())
}

/// Puts Main, which has this ending, behind the inputs that are there.
fn push_main<T: Drop>(
    alloc: Global,
    ending: Ending,
    inputs: &mut Vec<Input<T>>,
) -> Result<(), NoMemory>
    ensures { OnOk result (inputs.new.items ≡ inputs.old.items ++ main_input ending) }
{
    let main = StreamValue::new(Vec::new(alloc), ending);
    inputs.push(Input::new(alloc, MAIN, main)?)?;
    Ok(())
}

/// What the operators of an expansion give.
trait ThroughStages<T: Drop> {
    ghost stages: { Self → List (StageSpec T) };

    /// What a new chain of the operators gives for this list and the completion behind it.
    ///
    /// # Errors
    /// [`NoMemory`] where a growth was refused, in a function of the caller too.
    fn through_stages<O: Ops<Item = T>>(
        &self,
        alloc: Global,
        ops: &O,
        list: Vec<T>,
    ) -> Result<StreamValue<T>, NoMemory>
        ensures { IfOk result (λ v. v ≡ flat_lane (O.meaning ops.now) (stages self.now) list.items) };
}

impl<T: Drop> ThroughStages<T> for Expansion<T> {
    ghost stages = { λ e. e.stages.items };

    // Not inlined, so that a lane without operators has no room for a chain set up.
    #[inline(never)]
    fn through_stages<O: Ops<Item = T>>(
        &self,
        alloc: Global,
        ops: &O,
        list: Vec<T>,
    ) -> Result<StreamValue<T>, NoMemory>
        ensures { IfOk result (λ v. v ≡ flat_lane (O.meaning ops.now) self.now.stages.items list.items) }
    {
        let NewChain { chain, first } = ChainState::new(alloc, ops, &self.stages)?;
        match first.ending() {
            Ending::Open => {
                let rest = chain.rest(alloc, ops, StreamValue::new(list, Ending::Done))?;
                let ending = rest.ending();
                let mut items = first.into_items();
                append(&mut items, rest.into_items())?;
                Ok(StreamValue::new(items, ending))
            }
            _ => Ok(first),
        }
    }
}

/// What an expansion makes of items.
pub trait Expanding<T: Drop> {
    ghost function: { Self → ℕ };

    ghost stages: { Self → List (StageSpec T) };

    /// What a new chain gives for this list and the completion behind it.
    ///
    /// # Errors
    /// [`NoMemory`] where a growth was refused, in a function of the caller too.
    fn through_chain<O: Ops<Item = T>>(
        &self,
        alloc: Global,
        ops: &O,
        list: Vec<T>,
    ) -> Result<StreamValue<T>, NoMemory>
        ensures { IfOk result (λ v. v ≡ flat_lane (O.meaning ops.now) (stages self.now) list.items) };

    /// The lane of an item: what it is expanded to, through the chain. The item stays.
    ///
    /// # Errors
    /// The fault of the expansion, or want of memory.
    fn lane_of<O: Ops<Item = T>>(
        &self,
        alloc: Global,
        ops: &O,
        item: &T,
    ) -> Result<StreamValue<T>, Fault>
        ensures answer { Answers result (lane_answer (O.meaning ops.now) (function self.now) (stages self.now) item.now) }
        ensures ended { IfOk result (λ v. has_ended v.ending ≡ true) };

    /// Puts the lanes of these items, numbered from this number on, behind the inputs that are there, up to the first fault, and Main
    /// behind them.
    ///
    /// # Errors
    /// [`NoMemory`] where a growth was refused, in a function of the caller too.
    fn push_lanes<O: Ops<Item = T>>(
        &self,
        alloc: Global,
        ops: &O,
        number: u64,
        items: &[T],
        ending: Ending,
        inputs: &mut Vec<Input<T>>,
    ) -> Result<(), NoMemory>
        ensures { OnOk result (inputs.new.items ≡ inputs.old.items ++ lanes_to_come (O.meaning ops.now) (function self.now) (stages self.now) number (record { items = items.now; ending = ending })) };
}

impl<T: Drop> Expanding<T> for Expansion<T> {
    ghost function = { λ e. e.function };

    ghost stages = { λ e. e.stages.items };

    fn through_chain<O: Ops<Item = T>>(
        &self,
        alloc: Global,
        ops: &O,
        list: Vec<T>,
    ) -> Result<StreamValue<T>, NoMemory>
        ensures { IfOk result (λ v. v ≡ flat_lane (O.meaning ops.now) self.now.stages.items list.items) }
    {
        // With no operator the list is the lane, without a copy.
        if self.stages.is_empty() {
            return Ok(StreamValue::new(list, Ending::Done));
        }
        self.through_stages(alloc, ops, list)
    }

    #[inline(always)]
    fn lane_of<O: Ops<Item = T>>(
        &self,
        alloc: Global,
        ops: &O,
        item: &T,
    ) -> Result<StreamValue<T>, Fault>
        ensures answer { Answers result (lane_answer (O.meaning ops.now) self.now.function self.now.stages.items item.now) }
        ensures ended { IfOk result (λ v. has_ended v.ending ≡ true) }
    {
        match ops.expand(alloc, self.function, item) {
            Ok(list) => match self.through_chain(alloc, ops, list) {
                Ok(value) => Ok(value),
                Err(_) => Err(Fault::Memory),
            },
            Err(fault) => Err(fault),
        }
    }

    fn push_lanes<O: Ops<Item = T>>(
        &self,
        alloc: Global,
        ops: &O,
        number: u64,
        items: &[T],
        ending: Ending,
        inputs: &mut Vec<Input<T>>,
    ) -> Result<(), NoMemory>
        ensures { OnOk result (inputs.new.items ≡ inputs.old.items ++ lanes_to_come (O.meaning ops.now) self.now.function self.now.stages.items number (record { items = items.now; ending = ending })) }
    {
        let mut next = number;
        for item in items {
            if next == MAIN {
                return Err(NoMemory);
            }
            match self.lane_of(alloc, ops, item) {
                Ok(value) => inputs.push(Input::new(alloc, next, value)?)?,
                Err(Fault::Code(fault)) => {
                    return push_main(alloc, Ending::Failed(Cause::Function(fault)), inputs);
                }
                Err(Fault::Memory) => return Err(NoMemory),
            }
            next += 1;
        }
        push_main(alloc, ending, inputs)
    }
}
