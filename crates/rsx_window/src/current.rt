//! The window that is started.

ghost use Rattle.std.specs.Prelude.{◌≡◌, ℕ, ◌+◌, ◌<◌, ◌≤◌, true, false, [], ◌++◌, length, IfOk, IfErr, OnOk, OnErr};
ghost use Rattle.rsx_types.specs.Stream.{ending_signals};
ghost use Rattle.rsx_plain.specs.Emissions.{item_signals};
ghost use Rattle.rsx_collections.specs.Signals.{HasRoom, SignalsLeft, has_ending};
ghost use Rattle.rsx_types.specs.declared.signal.Signal.TheVariants.{Next};
ghost use Rattle.rsx_plain.specs.Chain.{chain_over};
ghost use Rattle.rsx_plain.specs.Moves.{Moves, has_ended};
ghost use Rattle.rsx_window.specs.Cut.{TakesItem, Begins, unless_done, last_ending, is_over, GoesOn, GoesThrough, window_left, window_after, ClosesWith, EndsWith};
ghost use Rattle.rsx_plain.specs.declared.chain.ChainState.{ChainState as ChainStateSpec};
ghost use Rattle.rsx_window.specs.declared.current.CurrentWindow.{CurrentWindow as CurrentWindowSpec};
ghost use Rattle.rsx_window.specs.declared.current.CurrentWindow.TheVariants.{Running};

use rsx_collections::PendingSignals;
use rsx_plain::{ChainState, Chaining, Emission, NewChain};
use rsx_sources::Passed;
use rsx_types::{Ending, NoMemory, Ops, Signal, Stage};
use std::alloc::Global;

/// Where a `window` is in its input.
#[derive(Drop)]
pub enum CurrentWindow<T> {
    /// A window is started: its chain has taken some items, or has no operators, and it takes so many more behind the next one.
    Running(ChainState<T>, u64),
    /// So many items are let go, the rest of a window whose chain completed before it was full. The item behind them starts a
    /// window.
    Passing(u64),
    /// The ending was put out (rule 1.7).
    Over,
}

/// A window that was started with its first item.
#[derive(Drop)]
pub struct Begun<T> {
    /// The chain of the window.
    pub chain: ChainState<T>,
    /// What came out of the chain at its start.
    pub items: Vec<T>,
    /// What came out of it by the item.
    pub out: Emission<T>,
    /// A list for all that came out, where the one that is there has too little memory.
    pub spare: Option<PendingSignals<T>>,
}

/// What the chain of a started window does with an item.
trait TakingItem<T: Drop> {
    ghost chain: { Self → ChainStateSpec T };

    /// Takes an item, and the completion behind it where the window takes no more.
    fn take_item<O: Ops<Item = T>>(
        &mut self,
        alloc: Global,
        ops: &O,
        more: u64,
        item: T,
    ) -> Result<Emission<T>, T>
        ensures ok { IfOk result (λ out. TakesItem (O.meaning ops.now) (chain self.old) more item out (chain self.new)) }
        ensures last { IfOk result (λ out. more ≡ 0 → has_ended out.ending ≡ true) }
        ensures over { IfOk result (λ out. chain_over (chain self.new) ≡ true → has_ended out.ending ≡ true) }
        ensures err { IfErr result (λ x. x ≡ item) }
        ensures same { OnErr result (self.new ≡ self.old) };
}

impl<T: Drop> TakingItem<T> for ChainState<T> {
    ghost chain = { λ c. c };

    fn take_item<O: Ops<Item = T>>(
        &mut self,
        alloc: Global,
        ops: &O,
        more: u64,
        item: T,
    ) -> Result<Emission<T>, T>
        ensures ok { IfOk result (λ out. TakesItem (O.meaning ops.now) self.old more item out self.new) }
        ensures last { IfOk result (λ out. more ≡ 0 → has_ended out.ending ≡ true) }
        ensures over { IfOk result (λ out. chain_over self.new ≡ true → has_ended out.ending ≡ true) }
        ensures err { IfErr result (λ x. x ≡ item) }
        ensures same { OnErr result (self.new ≡ self.old) }
    {
        let ending = if more == 0 {
            Ending::Done
        } else {
            Ending::Open
        };
        let emission = Emission {
            item: Some(item),
            ending,
        };
        match self.take(alloc, ops, emission) {
            Ok(out) => Ok(out),
            Err(back) => match back.item {
                Some(item) => Err(item),
                None => unreachable!(),
            },
        }
    }
}

/// How a window is started whose signals are to wait in this list.
trait BeginningWindow<T: Drop> {
    ghost list: { Self → SignalsLeft T };

    /// Starts a window with its first item, behind which it takes so many more.
    fn begin<O: Ops<Item = T>>(
        &self,
        alloc: Global,
        ops: &O,
        stages: &[Stage<T>],
        more: u64,
        item: T,
    ) -> Result<Begun<T>, T>
        ensures ok { IfOk result (λ b. Begins (O.meaning ops.now) stages.now more item b) }
        ensures last { IfOk result (λ b. more ≡ 0 → has_ended b.out.ending ≡ true) }
        ensures over { IfOk result (λ b. chain_over b.chain ≡ true → has_ended b.out.ending ≡ true) }
        ensures room { IfOk result (λ b. HasRoom b.spare (list self.now) (length b.items.items + 2)) }
        ensures err { IfErr result (λ x. x ≡ item) };
}

impl<T: Drop> BeginningWindow<T> for PendingSignals<T> {
    ghost list = { λ p. p };

    fn begin<O: Ops<Item = T>>(
        &self,
        alloc: Global,
        ops: &O,
        stages: &[Stage<T>],
        more: u64,
        item: T,
    ) -> Result<Begun<T>, T>
        ensures ok { IfOk result (λ b. Begins (O.meaning ops.now) stages.now more item b) }
        ensures last { IfOk result (λ b. more ≡ 0 → has_ended b.out.ending ≡ true) }
        ensures over { IfOk result (λ b. chain_over b.chain ≡ true → has_ended b.out.ending ≡ true) }
        ensures room { IfOk result (λ b. HasRoom b.spare self.now (length b.items.items + 2)) }
        ensures err { IfErr result (λ x. x ≡ item) }
    {
        let (mut chain, first) = match ChainState::new(alloc, ops, stages) {
            Ok(NewChain { chain, first }) => (chain, first),
            Err(_) => return Err(item),
        };
        let ending = first.ending();
        let mut items = first.into_items();
        if items.reserve(2).is_err() {
            return Err(item);
        }
        let spare = match self.spare(alloc, items.capacity()) {
            Ok(spare) => spare,
            Err(_) => return Err(item),
        };
        let out = match ending {
            Ending::Open => match chain.take_item(alloc, ops, more, item) {
                Ok(out) => out,
                Err(item) => return Err(item),
            },
            ending => Emission { item: None, ending },
        };
        Ok(Begun {
            chain,
            items,
            out,
            spare,
        })
    }
}

/// The ending of a window that other windows may follow: its completion completes nothing but itself.
fn unless_done(ending: Ending) -> Ending
    ensures { result ≡ unless_done ending }
{
    match ending {
        Ending::Open | Ending::Done => Ending::Open,
        Ending::Failed(cause) => Ending::Failed(cause),
    }
}

/// The ending of the whole, where the last window has put out this one and the input ends so.
fn last_ending(window: Ending, input: Ending) -> Ending
    ensures { result ≡ last_ending window input }
{
    match window {
        Ending::Open | Ending::Done => input,
        Ending::Failed(cause) => Ending::Failed(cause),
    }
}

impl<T: Drop> CurrentWindow<T> {
    /// Whether the ending was put out.
    pub fn is_over(&self) -> bool
        ensures { result ≡ is_over self.now }
    {
        matches!(self, CurrentWindow::Over)
    }

    /// Starts a window with an empty chain, which takes so many items more behind the next one.
    // It isn't inlined, so that for most items no state is prepared.
    #[inline(never)]
    fn start_empty(&mut self, more: u64)
        ensures { self.new ≡ CurrentWindow.Running ChainState.End more }
    {
        *self = CurrentWindow::Running(ChainState::End, more);
    }

    /// Goes on from there.
    fn set(&mut self, next: CurrentWindow<T>)
        ensures { self.new ≡ next }
    {
        *self = next;
    }

    /// Takes an item that no operator answers, of windows of so many items through a chain of these operators: one for a window
    /// with an empty chain, which comes out as it is, or one that is let go. Any other item comes back, and nothing has changed.
    pub(crate) fn pass(&mut self, size: u64, stages: &[Stage<T>], item: T) -> Passed<T>
        ensures { GoesThrough size stages.now self.old item result self.new }
    {
        match self {
            CurrentWindow::Running(ChainState::End, more) => {
                if *more > 0 {
                    *more -= 1;
                    return Passed::Item(item);
                }
                if !stages.is_empty() {
                    return Passed::Declined(item);
                }
                // Without operators, the next window before its first item is as a window that is started.
                *more = size.saturating_sub(1);
                Passed::Item(item)
            }
            CurrentWindow::Passing(0) => {
                if !stages.is_empty() {
                    return Passed::Declined(item);
                }
                if size <= 1 {
                    return Passed::Item(item);
                }
                self.start_empty(size - 2);
                Passed::Item(item)
            }
            CurrentWindow::Passing(left) => {
                *left -= 1;
                Passed::Kept
            }
            CurrentWindow::Running(ChainState::Stage(_, _), _) | CurrentWindow::Over => {
                Passed::Declined(item)
            }
        }
    }

    /// Goes on behind an item by which the chain of the started window has put out this ending.
    fn step(&mut self, ending: Ending)
        ensures { (chain : ChainStateSpec T) (more : ℕ) → self.old ≡ Running chain more → self.new ≡ window_after chain more ending }
    {
        let CurrentWindow::Running(_, more) = self else {
            return;
        };
        let left = *more;
        match ending {
            Ending::Open => *more = left.saturating_sub(1),
            Ending::Done => self.set(CurrentWindow::Passing(left)),
            Ending::Failed(_) => self.set(CurrentWindow::Over),
        }
    }
}

/// What a window does with the signals of the input.
pub(crate) trait Windowing<T: Drop> {
    ghost current: { Self → CurrentWindowSpec T };

    /// Takes an item, and puts what comes out into the list, in which nothing waits. For want of memory the item comes back, and
    /// nothing has changed.
    fn take_item<O: Ops<Item = T>>(
        &mut self,
        alloc: Global,
        ops: &O,
        size: u64,
        stages: &[Stage<T>],
        item: T,
        pending: &mut PendingSignals<T>,
    ) -> Result<(), T>
        requires nothing { pending.old.left ≡ [] }
        requires open { is_over (current self.old) ≡ false }
        ensures ok { OnOk result (Moves (window_left (O.meaning ops.now) size stages.now) (current self.old) (Next item) pending.new.left (current self.new)) }
        ensures over { OnOk result (has_ending pending.new.left ≡ is_over (current self.new)) }
        ensures goes_on { OnOk result (GoesOn (current self.new)) }
        ensures err { IfErr result (λ x. x ≡ item) }
        ensures same { OnErr result (self.new ≡ self.old) }
        ensures kept { OnErr result (pending.new ≡ pending.old) };

    /// Has the chain of the window that is started, if there is one, take the ending of the input, and answers what comes out.
    /// For want of memory nothing has changed.
    fn close<O: Ops<Item = T>>(
        &mut self,
        alloc: Global,
        ops: &O,
        ending: Ending,
    ) -> Result<Emission<T>, NoMemory>
        requires ends { has_ended ending ≡ true }
        ensures ok { IfOk result (λ out. ClosesWith (O.meaning ops.now) (current self.old) ending out) }
        ensures same { OnErr result (self.new ≡ self.old) };

    /// Takes the ending of the input, and puts what comes out into the list, in which nothing waits. For want of memory nothing
    /// has changed.
    fn end<O: Ops<Item = T>>(
        &mut self,
        alloc: Global,
        ops: &O,
        ending: Ending,
        pending: &mut PendingSignals<T>,
    ) -> Result<(), NoMemory>
        requires nothing { pending.old.left ≡ [] }
        requires ends { has_ended ending ≡ true }
        ensures ok { OnOk result (EndsWith (O.meaning ops.now) (current self.old) ending pending.new.left) }
        ensures over { OnOk result (is_over (current self.new) ≡ true) }
        ensures out { OnOk result (has_ending pending.new.left ≡ true) }
        ensures same { OnErr result (self.new ≡ self.old) }
        ensures kept { OnErr result (pending.new ≡ pending.old) };
}

impl<T: Drop> Windowing<T> for CurrentWindow<T> {
    ghost current = { λ c. c };

    fn take_item<O: Ops<Item = T>>(
        &mut self,
        alloc: Global,
        ops: &O,
        size: u64,
        stages: &[Stage<T>],
        item: T,
        pending: &mut PendingSignals<T>,
    ) -> Result<(), T>
        requires nothing { pending.old.left ≡ [] }
        requires open { is_over self.old ≡ false }
        ensures ok { OnOk result (Moves (window_left (O.meaning ops.now) size stages.now) self.old (Next item) pending.new.left self.new) }
        ensures over { OnOk result (has_ending pending.new.left ≡ is_over self.new) }
        ensures goes_on { OnOk result (GoesOn self.new) }
        ensures err { IfErr result (λ x. x ≡ item) }
        ensures same { OnErr result (self.new ≡ self.old) }
        ensures kept { OnErr result (pending.new ≡ pending.old) }
    {
        match self {
            CurrentWindow::Passing(0) => {
                let more = size.saturating_sub(1);
                let begun = match pending.begin(alloc, ops, stages, more, item) {
                    Ok(begun) => begun,
                    Err(item) => return Err(item),
                };
                let ending = begun.out.ending;
                pending.take_over(begun.spare);
                pending.put_all(begun.items, begun.out.item, unless_done(ending));
                self.set(CurrentWindow::Running(begun.chain, more));
                self.step(ending);
                Ok(())
            }
            CurrentWindow::Passing(left) => {
                *left -= 1;
                Ok(())
            }
            CurrentWindow::Running(chain, more) => {
                let spare = match pending.spare(alloc, 2) {
                    Ok(spare) => spare,
                    Err(_) => return Err(item),
                };
                let out = match chain.take_item(alloc, ops, *more, item) {
                    Ok(out) => out,
                    Err(item) => return Err(item),
                };
                pending.take_over(spare);
                let ending = out.ending;
                pending.put_all(Vec::new(alloc), out.item, unless_done(ending));
                self.step(ending);
                Ok(())
            }
            CurrentWindow::Over => unreachable!(),
        }
    }

    fn close<O: Ops<Item = T>>(
        &mut self,
        alloc: Global,
        ops: &O,
        ending: Ending,
    ) -> Result<Emission<T>, NoMemory>
        requires ends { has_ended ending ≡ true }
        ensures ok { IfOk result (λ out. ClosesWith (O.meaning ops.now) self.old ending out) }
        ensures same { OnErr result (self.new ≡ self.old) }
    {
        match self {
            CurrentWindow::Running(chain, _) => {
                let emission = Emission { item: None, ending };
                match chain.take(alloc, ops, emission) {
                    Ok(out) => Ok(out),
                    Err(_) => Err(NoMemory),
                }
            }
            _ => Ok(Emission {
                item: None,
                ending: Ending::Done,
            }),
        }
    }

    fn end<O: Ops<Item = T>>(
        &mut self,
        alloc: Global,
        ops: &O,
        ending: Ending,
        pending: &mut PendingSignals<T>,
    ) -> Result<(), NoMemory>
        requires nothing { pending.old.left ≡ [] }
        requires ends { has_ended ending ≡ true }
        ensures ok { OnOk result (EndsWith (O.meaning ops.now) self.old ending pending.new.left) }
        ensures over { OnOk result (is_over self.new ≡ true) }
        ensures out { OnOk result (has_ending pending.new.left ≡ true) }
        ensures same { OnErr result (self.new ≡ self.old) }
        ensures kept { OnErr result (pending.new ≡ pending.old) }
    {
        let spare = pending.spare(alloc, 2)?;
        let out = self.close(alloc, ops, ending)?;
        pending.take_over(spare);
        let last = last_ending(out.ending, ending);
        pending.put_all(Vec::new(alloc), out.item, last);
        self.set(CurrentWindow::Over);
        Ok(())
    }
}
