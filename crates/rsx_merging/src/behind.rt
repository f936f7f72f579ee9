//! What still comes out of the inputs of a concat.

ghost use Rattle.std.specs.Prelude.{◌≡◌, IfOk, List};
ghost use Rattle.rsx_types.specs.Stream.{items_then};
ghost use Rattle.rsx_merging.specs.Concat.{concat_left};
ghost use Rattle.rsx_types.specs.declared.signal.Ending.{Ending as EndingSpec};

use crate::concat_node::ConcatNode;
use rsx_types::{Ending, NoMemory, Ops, StreamValue};
use std::alloc::Global;

/// What still comes out of a node's inputs, one behind the other, copied.
pub(crate) trait LeftBehind<T: Drop> {
    ghost ended: { Self → List EndingSpec };

    ghost use Rattle.std.specs.Prelude.{◌≡◌, ◌++◌, ◌<◌, length, slice_index_or, IfOk, OnOk};
    ghost use Rattle.rsx_types.specs.Stream.{items_then};
    ghost use Rattle.rsx_queued.specs.Values.{value_at};
    ghost use Rattle.rsx_merging.specs.Concat.{concat_left};
    ghost use Rattle.rsx_sources.specs.Endings.{ended_or};

    /// Puts copies of items behind those that are there.
    fn copy_behind<O: Ops<Item = T>>(
        &self,
        alloc: Global,
        ops: &O,
        all: &mut Vec<T>,
        items: &[T],
    ) -> Result<(), NoMemory>
        ensures { OnOk result (all.new.items ≡ all.old.items ++ items.now) };

    /// Puts copies of the items of the input at this place behind those that are there, where these values come in, and answers
    /// its ending; nothing comes where no value is named.
    fn copy_at<O: Ops<Item = T>>(
        &self,
        alloc: Global,
        ops: &O,
        all: &mut Vec<T>,
        at: usize,
        incoming: &[StreamValue<T>],
    ) -> Result<Ending, NoMemory>
        requires { at < length (ended self.now) }
        ensures { IfOk result (λ e. (x : EndingSpec) → x ≡ slice_index_or (ended self.now) at x →
            record { items = all.new.items; ending = e } ≡ items_then all.old.items (ended_or x (value_at incoming.now at))) };

    /// These items, and behind them the concat of the inputs, where these values come in.
    fn left_behind<O: Ops<Item = T>>(
        &self,
        alloc: Global,
        ops: &O,
        items: Vec<T>,
        incoming: &[StreamValue<T>],
    ) -> Result<StreamValue<T>, NoMemory>
        ensures { IfOk result (λ v. v ≡ items_then items.items (concat_left (ended self.now) incoming.now)) };
}

impl<T: Drop> LeftBehind<T> for ConcatNode<T> {
    ghost ended = { λ n. n.endings.items };

    fn copy_behind<O: Ops<Item = T>>(
        &self,
        alloc: Global,
        ops: &O,
        all: &mut Vec<T>,
        items: &[T],
    ) -> Result<(), NoMemory> {
        for item in items {
            let copy = ops.copy(alloc, item)?;
            all.push(copy)?;
        }
        Ok(())
    }

    #[tactic(auto, using(crate::proofs::Copied::copied_value, crate::proofs::Copied::copied_none))]
    fn copy_at<O: Ops<Item = T>>(
        &self,
        alloc: Global,
        ops: &O,
        all: &mut Vec<T>,
        at: usize,
        incoming: &[StreamValue<T>],
    ) -> Result<Ending, NoMemory> {
        match self.endings[at] {
            Ending::Open => match incoming.get(at) {
                Some(value) => {
                    self.copy_behind(alloc, ops, all, value.items())?;
                    Ok(value.ending())
                }
                None => Ok(Ending::Open),
            },
            ending => Ok(ending),
        }
    }

    #[tactic(auto, using(crate::proofs::Copied::all_done))]
    fn left_behind<O: Ops<Item = T>>(
        &self,
        alloc: Global,
        ops: &O,
        items: Vec<T>,
        incoming: &[StreamValue<T>],
    ) -> Result<StreamValue<T>, NoMemory>
        ensures { IfOk result (λ v. v ≡ items_then items.items (concat_left self.now.endings.items incoming.now)) }
    {
        let mut all = items;
        for at in 0..self.endings.len() {
            match self.copy_at(alloc, ops, &mut all, at, incoming)? {
                Ending::Done => {}
                ending => return Ok(StreamValue::new(all, ending)),
            }
        }
        Ok(StreamValue::new(all, Ending::Done))
    }
}
