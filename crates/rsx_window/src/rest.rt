//! What still comes out of a `window`, computed over copies of all that still comes in.

ghost use Rattle.std.specs.Prelude.{◌≡◌, suc, List, take, drop, ◌++◌, IfOk, OnOk};
ghost use Rattle.rsx_types.specs.Plain.{chained};
ghost use Rattle.rsx_types.specs.Stream.{items_then};
ghost use Rattle.rsx_plain.specs.Chain.{chain_from};
ghost use Rattle.rsx_values.specs.Window.{window};
ghost use Rattle.rsx_window.specs.Cut.{window_rest, window_left};
ghost use Rattle.rsx_window.specs.declared.current.CurrentWindow.{CurrentWindow as CurrentWindowSpec};

use crate::current::CurrentWindow;
use rsx_plain::{ChainState, Chaining, NewChain};
use rsx_types::{Ending, NoMemory, Ops, Stage, StreamValue};
use std::alloc::Global;

/// The items of these that come in at a window which takes so many more behind the next one.
fn first_part<T>(items: &[T], more: u64) -> &[T]
    ensures { result.now ≡ take (suc more) items.now }
{
    if items.len() as u64 <= more {
        return items;
    }
    &items[..more as usize + 1]
}

/// The items behind those.
fn behind<T>(items: &[T], more: u64) -> &[T]
    ensures { result.now ≡ drop (suc more) items.now }
{
    if items.len() as u64 <= more {
        return &[];
    }
    &items[more as usize + 1..]
}

/// The items behind so many that are let go.
fn let_go<T>(items: &[T], count: u64) -> &[T]
    ensures { result.now ≡ drop count items.now }
{
    if items.len() as u64 <= count {
        return &[];
    }
    &items[count as usize..]
}

/// Whether so many items, behind which the input ends so, end the window with its completion, or with that ending.
fn window_ending<T>(items: &[T], more: u64, ending: Ending) -> Ending
    ensures { record { items = take (suc more) items.now; ending = result } ≡ window_rest (suc more) (record { items = items.now; ending = ending }) }
{
    if items.len() as u64 <= more {
        return ending;
    }
    Ending::Done
}

/// Puts items behind those that are there.
fn append<T: Drop>(all: &mut Vec<T>, items: Vec<T>) -> Result<(), NoMemory>
    ensures { OnOk result (all.new.items ≡ all.old.items ++ items.items) }
{
    for item in items {
        all.push(item)?;
    }
    Ok(())
}

/// Items that came out so far, and what comes out behind them.
pub(crate) trait Collecting<T: Drop> {
    ghost so_far: { Self → List T };

    /// Puts copies of these items behind.
    fn copy_behind<O: Ops<Item = T>>(
        &mut self,
        alloc: Global,
        ops: &O,
        items: &[T],
    ) -> Result<(), NoMemory>
        ensures { OnOk result (so_far self.new ≡ so_far self.old ++ items.now) };

    /// Puts the items behind that a new chain of these operators gives for a value, and answers their ending.
    fn chain_behind<O: Ops<Item = T>>(
        &mut self,
        alloc: Global,
        ops: &O,
        stages: &[Stage<T>],
        value: StreamValue<T>,
    ) -> Result<Ending, NoMemory>
        ensures { IfOk result (λ e. record { items = so_far self.new; ending = e } ≡ items_then (so_far self.old) (chained (O.meaning ops.now) stages.now value)) };

    /// Puts the items behind that this chain gives for a value, and answers their ending.
    fn rest_behind<O: Ops<Item = T>>(
        &mut self,
        alloc: Global,
        ops: &O,
        chain: &ChainState<T>,
        value: StreamValue<T>,
    ) -> Result<Ending, NoMemory>
        ensures { IfOk result (λ e. record { items = so_far self.new; ending = e } ≡ items_then (so_far self.old) (chain_from (O.meaning ops.now) chain.now value)) };

    /// Puts the items of the windows behind that are cut out of these items, and answers their ending.
    fn windows_behind<O: Ops<Item = T>>(
        &mut self,
        alloc: Global,
        ops: &O,
        size: u64,
        stages: &[Stage<T>],
        items: &[T],
        ending: Ending,
    ) -> Result<Ending, NoMemory>
        ensures { IfOk result (λ e. record { items = so_far self.new; ending = e } ≡ items_then (so_far self.old) (window (O.meaning ops.now) size stages.now (record { items = items.now; ending = ending }))) };

    /// Puts the items behind that still come out of a window where just these items and this ending still come in, and answers their
    /// ending.
    fn left_behind<O: Ops<Item = T>>(
        &mut self,
        alloc: Global,
        ops: &O,
        size: u64,
        stages: &[Stage<T>],
        current: &CurrentWindow<T>,
        items: &[T],
        ending: Ending,
    ) -> Result<Ending, NoMemory>
        ensures { IfOk result (λ e. record { items = so_far self.new; ending = e } ≡ items_then (so_far self.old) (window_left (O.meaning ops.now) size stages.now current.now (record { items = items.now; ending = ending }))) };
}

impl<T: Drop> Collecting<T> for Vec<T> {
    ghost so_far = { λ v. v.items };

    fn copy_behind<O: Ops<Item = T>>(
        &mut self,
        alloc: Global,
        ops: &O,
        items: &[T],
    ) -> Result<(), NoMemory>
        ensures { OnOk result (self.new.items ≡ self.old.items ++ items.now) }
    {
        for item in items {
            let copy = ops.copy(alloc, item)?;
            self.push(copy)?;
        }
        Ok(())
    }

    fn chain_behind<O: Ops<Item = T>>(
        &mut self,
        alloc: Global,
        ops: &O,
        stages: &[Stage<T>],
        value: StreamValue<T>,
    ) -> Result<Ending, NoMemory>
        ensures { IfOk result (λ e. record { items = self.new.items; ending = e } ≡ items_then self.old.items (chained (O.meaning ops.now) stages.now value)) }
    {
        let NewChain { chain, first } = ChainState::new(alloc, ops, stages)?;
        let ending = first.ending();
        append(self, first.into_items())?;
        match ending {
            Ending::Open => self.rest_behind(alloc, ops, &chain, value),
            ending => Ok(ending),
        }
    }

    fn rest_behind<O: Ops<Item = T>>(
        &mut self,
        alloc: Global,
        ops: &O,
        chain: &ChainState<T>,
        value: StreamValue<T>,
    ) -> Result<Ending, NoMemory>
        ensures { IfOk result (λ e. record { items = self.new.items; ending = e } ≡ items_then self.old.items (chain_from (O.meaning ops.now) chain.now value)) }
    {
        let out = chain.rest(alloc, ops, value)?;
        let ending = out.ending();
        append(self, out.into_items())?;
        Ok(ending)
    }

    fn windows_behind<O: Ops<Item = T>>(
        &mut self,
        alloc: Global,
        ops: &O,
        size: u64,
        stages: &[Stage<T>],
        items: &[T],
        ending: Ending,
    ) -> Result<Ending, NoMemory>
        ensures { IfOk result (λ e. record { items = self.new.items; ending = e } ≡ items_then self.old.items (window (O.meaning ops.now) size stages.now (record { items = items.now; ending = ending }))) }
    {
        let more = size.saturating_sub(1);
        let mut left = items;
        while !left.is_empty() {
            let mut copies = Vec::new(alloc);
            copies.copy_behind(alloc, ops, first_part(left, more))?;
            let first = StreamValue::new(copies, window_ending(left, more, ending));
            match self.chain_behind(alloc, ops, stages, first)? {
                Ending::Done => left = behind(left, more),
                last => return Ok(last),
            }
        }
        Ok(ending)
    }

    fn left_behind<O: Ops<Item = T>>(
        &mut self,
        alloc: Global,
        ops: &O,
        size: u64,
        stages: &[Stage<T>],
        current: &CurrentWindow<T>,
        items: &[T],
        ending: Ending,
    ) -> Result<Ending, NoMemory>
        ensures { IfOk result (λ e. record { items = self.new.items; ending = e } ≡ items_then self.old.items (window_left (O.meaning ops.now) size stages.now current.now (record { items = items.now; ending = ending }))) }
    {
        match current {
            CurrentWindow::Running(chain, more) => {
                let mut copies = Vec::new(alloc);
                copies.copy_behind(alloc, ops, first_part(items, *more))?;
                let first = StreamValue::new(copies, window_ending(items, *more, ending));
                match self.rest_behind(alloc, ops, chain, first)? {
                    Ending::Done => {
                        self.windows_behind(alloc, ops, size, stages, behind(items, *more), ending)
                    }
                    last => Ok(last),
                }
            }
            CurrentWindow::Passing(left) => {
                self.windows_behind(alloc, ops, size, stages, let_go(items, *left), ending)
            }
            CurrentWindow::Over => Ok(Ending::Open),
        }
    }
}
