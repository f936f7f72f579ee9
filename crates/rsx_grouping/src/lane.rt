//! One lane.

ghost use Rattle.std.specs.Prelude.{◌≡◌, ◌+◌, ◌≤◌, true, false, [], ◌∷◌, ◌++◌, length, is_some, vec_len, vec_capacity, IfOk, IfErr, IfSome, IfNone, OnOk, OnErr};
ghost use Rattle.std.specs.Option.{option_to_list};
ghost use Rattle.rsx_plain.specs.Moves.{has_ended};
ghost use Rattle.rsx_plain.specs.declared.chain.ChainState.{ChainState as ChainStateSpec, End};
ghost use Rattle.rsx_sources.specs.Slot.{is_nil};
ghost use Rattle.rsx_values.specs.Record.{written};
ghost use Rattle.rsx_plain.specs.Chain.{chain_over};
ghost use Rattle.rsx_grouping.specs.Lane.{state_after, state_ended, ending_signal, is_gone, is_quiet, can_pick, after_pick, GoesOn, PickGoesOn, TakesItem, Begins, TakesOne, BeginsWith, CompletesWith, IsPrepared, IsItemPicked};
ghost use Rattle.rsx_grouping.specs.declared.lane.Lane.{Lane as LaneSpec};
ghost use Rattle.rsx_grouping.specs.declared.lane.LaneState.TheVariants.{Running, Gone};

use crate::waiting::WaitingItems;
use rsx_plain::{ChainState, Chaining, Emission, NewChain};
use rsx_types::{Cause, Ending, NoMemory, Ops, Signal, Stage, StreamValue};
use rsx_values::Record;
use std::alloc::Global;

/// Where the chain of a lane is.
#[derive(Drop)]
pub enum LaneState<T> {
    /// It has put out no ending.
    Running(ChainState<T>),
    /// It has put out its completion, which stands behind what waits.
    Completed,
    /// It has failed with this cause, which stands behind what waits.
    Failing(Cause),
    /// Its ending was picked: nothing more comes out (rule 1.7).
    Gone,
}

/// One lane of an operator: its chain, and the items that the chain has put out and that aren't picked yet.
#[derive(Drop)]
pub struct Lane<T> {
    /// The chain, or the ending that it has put out.
    pub state: LaneState<T>,
    /// The items that wait.
    pub waiting: WaitingItems<T>,
}

/// What a pick takes out of a lane.
#[derive(Drop)]
pub struct LanePick<T> {
    /// The signal, an item with the tag of the lane's key.
    pub signal: Signal<T>,
    /// The lane as it is then, where the pick completes it; where there is none, the lane without the signal that waited.
    pub lane: Option<Lane<T>>,
}

/// A chain that has taken its first item.
#[derive(Drop)]
pub struct Begun<T> {
    /// The chain.
    pub chain: ChainState<T>,
    /// What came out of it at its start. There is memory for one more.
    pub items: Vec<T>,
    /// What came out of it by the item.
    pub out: Emission<T>,
}

/// Where a chain is that has put out this ending.
pub(crate) fn state_after<T: Drop>(chain: ChainState<T>, ending: Ending) -> LaneState<T>
    ensures { result ≡ state_after chain ending }
{
    match ending {
        Ending::Open => LaneState::Running(chain),
        Ending::Done => LaneState::Completed,
        Ending::Failed(cause) => LaneState::Failing(cause),
    }
}

/// Where a lane is whose chain has put out this ending.
fn state_ended<T: Drop>(ending: Ending) -> LaneState<T>
    ensures { result ≡ state_ended ending }
{
    match ending {
        Ending::Open => LaneState::Gone,
        Ending::Done => LaneState::Completed,
        Ending::Failed(cause) => LaneState::Failing(cause),
    }
}

/// The signal of an ending.
fn ending_signal<T: Drop>(ending: Ending) -> Signal<T>
    ensures { result ≡ ending_signal ending }
{
    match ending {
        Ending::Open | Ending::Done => Signal::Complete,
        Ending::Failed(cause) => Signal::Error(cause),
    }
}

/// Puts an item, if there is one, behind those for which there is memory.
fn with_item<T: Drop>(items: Vec<T>, item: Option<T>) -> Vec<T>
    requires { vec_len items + 1 ≤ vec_capacity items }
    ensures { result.items ≡ items.items ++ option_to_list item }
{
    let mut items = items;
    if let Some(item) = item {
        items.push_reserved(item);
    }
    items
}

/// What the chain of a lane does.
trait TakingItem<T: Drop> {
    ghost chain: { Self → ChainStateSpec T };

    /// Takes an item. For want of memory it comes back, and nothing has changed.
    fn take_one<O: Ops<Item = T>>(
        &mut self,
        alloc: Global,
        ops: &O,
        item: T,
    ) -> Result<Emission<T>, T>
        ensures ok { IfOk result (λ out. TakesItem (O.meaning ops.now) (chain self.old) item out (chain self.new)) }
        ensures over { IfOk result (λ out. chain_over (chain self.new) ≡ true → has_ended out.ending ≡ true) }
        ensures err { IfErr result (λ x. x ≡ item) }
        ensures same { OnErr result (self.new ≡ self.old) };

    /// The chain of these operators that has taken its first item. For want of memory the item comes back.
    fn begun<O: Ops<Item = T>>(
        alloc: Global,
        ops: &O,
        stages: &[Stage<T>],
        item: T,
    ) -> Result<Begun<T>, T>
        ensures ok { IfOk result (λ b. Begins (O.meaning ops.now) stages.now item b) }
        ensures over { IfOk result (λ b. chain_over b.chain ≡ true → has_ended b.out.ending ≡ true) }
        ensures room { IfOk result (λ b. vec_len b.items + 1 ≤ vec_capacity b.items) }
        ensures err { IfErr result (λ x. x ≡ item) };

    /// What a pick takes that completes the lane of this key with this chain. The chain stays as it is.
    fn completion<O: Ops<Item = T>>(
        &self,
        alloc: Global,
        ops: &O,
        key: u64,
    ) -> Result<LanePick<T>, NoMemory>
        ensures ok { IfOk result (λ p. CompletesWith (O.meaning ops.now) key (chain self.now) p) }
        ensures goes_on { IfOk result (λ p. PickGoesOn p.lane) };
}

impl<T: Drop> TakingItem<T> for ChainState<T> {
    ghost chain = { λ c. c };

    fn take_one<O: Ops<Item = T>>(
        &mut self,
        alloc: Global,
        ops: &O,
        item: T,
    ) -> Result<Emission<T>, T>
        ensures ok { IfOk result (λ out. TakesItem (O.meaning ops.now) self.old item out self.new) }
        ensures over { IfOk result (λ out. chain_over self.new ≡ true → has_ended out.ending ≡ true) }
        ensures err { IfErr result (λ x. x ≡ item) }
        ensures same { OnErr result (self.new ≡ self.old) }
    {
        let emission = Emission {
            item: Some(item),
            ending: Ending::Open,
        };
        match self.take(alloc, ops, emission) {
            Ok(out) => Ok(out),
            Err(back) => match back.item {
                Some(item) => Err(item),
                None => unreachable!(),
            },
        }
    }

    fn begun<O: Ops<Item = T>>(
        alloc: Global,
        ops: &O,
        stages: &[Stage<T>],
        item: T,
    ) -> Result<Begun<T>, T>
        ensures ok { IfOk result (λ b. Begins (O.meaning ops.now) stages.now item b) }
        ensures over { IfOk result (λ b. chain_over b.chain ≡ true → has_ended b.out.ending ≡ true) }
        ensures room { IfOk result (λ b. vec_len b.items + 1 ≤ vec_capacity b.items) }
        ensures err { IfErr result (λ x. x ≡ item) }
    {
        let (mut chain, first) = match ChainState::new(alloc, ops, stages) {
            Ok(NewChain { chain, first }) => (chain, first),
            Err(_) => return Err(item),
        };
        let ending = first.ending();
        let mut items = first.into_items();
        if items.reserve(1).is_err() {
            return Err(item);
        }
        let out = match ending {
            Ending::Open => match chain.take_one(alloc, ops, item) {
                Ok(out) => out,
                Err(item) => return Err(item),
            },
            ending => Emission { item: None, ending },
        };
        Ok(Begun { chain, items, out })
    }

    fn completion<O: Ops<Item = T>>(
        &self,
        alloc: Global,
        ops: &O,
        key: u64,
    ) -> Result<LanePick<T>, NoMemory>
        ensures ok { IfOk result (λ p. CompletesWith (O.meaning ops.now) key self.now p) }
        ensures goes_on { IfOk result (λ p. PickGoesOn p.lane) }
    {
        let done = StreamValue::new(Vec::new(alloc), Ending::Done);
        let value = self.rest(alloc, ops, done)?;
        let ending = value.ending();
        let mut waiting = WaitingItems::of(value.into_items());
        match waiting.pop() {
            Some(item) => {
                let tagged = ops.tag(alloc, key, &item)?;
                let state = state_ended(ending);
                Ok(LanePick {
                    signal: Signal::Next(tagged),
                    lane: Some(Lane { state, waiting }),
                })
            }
            None => {
                let state = LaneState::Gone;
                Ok(LanePick {
                    signal: ending_signal(ending),
                    lane: Some(Lane { state, waiting }),
                })
            }
        }
    }
}

impl<T: Drop> Lane<T> {
    /// Whether its ending was picked.
    pub fn is_gone(&self) -> bool
        ensures { result ≡ is_gone self.now }
    {
        matches!(self.state, LaneState::Gone)
    }

    /// Whether its chain runs and has no operators, so that an item comes out of it as it is.
    fn is_bare(&self) -> bool
        ensures { result ≡ true → self.now.state ≡ Running End }
    {
        match &self.state {
            LaneState::Running(ChainState::End) => true,
            LaneState::Running(ChainState::Stage(_, _)) => false,
            LaneState::Completed | LaneState::Failing(_) | LaneState::Gone => false,
        }
    }

    /// Puts what came out of the chain into the list, in which nothing waits.
    fn put_out(&mut self, out: Emission<T>)
        requires { self.old.waiting ≡ [] }
        ensures waiting { self.new.waiting ≡ option_to_list out.item }
        ensures state { (c : ChainStateSpec T) → self.old.state ≡ Running c → self.new.state ≡ state_after c out.ending }
    {
        self.waiting.put(out.item);
        match out.ending {
            Ending::Open => {}
            Ending::Done => self.state = LaneState::Completed,
            Ending::Failed(cause) => self.state = LaneState::Failing(cause),
        }
    }

    /// Nothing more comes out.
    fn leave(&mut self)
        ensures { self.new ≡ record self.old { state = Gone } }
    {
        self.state = LaneState::Gone;
    }

    /// Whether nothing of it waits: no item, and no ending that its chain has put out.
    pub fn is_quiet(&self) -> bool
        ensures { result ≡ is_quiet self.now }
    {
        match &self.state {
            LaneState::Running(_) => self.waiting.is_empty(),
            LaneState::Completed | LaneState::Failing(_) => false,
            LaneState::Gone => true,
        }
    }

    /// Whether it can be picked, where the input is done or not, so much is asked of the operator, and so much was sent by it. An
    /// item, and the completion of the lane, can be picked only where one more may be sent.
    pub fn can_pick(&self, done: bool, asked: u64, sent: u64) -> bool
        ensures { result ≡ can_pick self.now done asked sent }
    {
        let waits = !self.waiting.is_empty();
        match &self.state {
            LaneState::Running(_) => (waits || done) && sent < asked,
            LaneState::Completed | LaneState::Failing(_) => !waits || sent < asked,
            LaneState::Gone => false,
        }
    }

    /// Takes what a pick took: the lane that it completed stands here, or the signal that waited is gone.
    pub fn commit(&mut self, lane: Option<Lane<T>>)
        ensures { self.new ≡ after_pick lane self.old }
    {
        match lane {
            Some(lane) => *self = lane,
            None => {
                if self.waiting.pop().is_none() {
                    self.leave();
                }
            }
        }
    }
}

/// What a lane does with what comes in at it, and what is picked of it.
pub trait Laning<T: Drop> {
    ghost lane: { Self → LaneSpec T };

    /// A lane of these operators that has taken its first item. For want of memory the item comes back.
    fn begin<O: Ops<Item = T>>(
        alloc: Global,
        ops: &O,
        stages: &[Stage<T>],
        item: T,
    ) -> Result<Lane<T>, T>
        ensures ok { IfOk result (λ l. BeginsWith (O.meaning ops.now) stages.now item l) }
        ensures there { IfOk result (λ l. is_gone l ≡ false) }
        ensures goes_on { IfOk result (λ l. GoesOn l.state) }
        ensures err { IfErr result (λ x. x ≡ item) };

    /// Takes an item. Nothing of the lane waits. For want of memory the item comes back, and nothing has changed. An item that comes behind
    /// the ending of the lane's chain is let go.
    fn take_item<O: Ops<Item = T>>(&mut self, alloc: Global, ops: &O, item: T) -> Result<(), T>
        requires { is_quiet (lane self.old) ≡ true }
        ensures ok { OnOk result (TakesOne (O.meaning ops.now) (lane self.old) item (lane self.new)) }
        ensures gone { OnOk result (is_gone (lane self.new) ≡ is_gone (lane self.old)) }
        ensures goes_on { OnOk result (GoesOn (lane self.new).state) }
        ensures err { IfErr result (λ x. x ≡ item) }
        ensures same { OnErr result (self.new ≡ self.old) };

    /// What a pick takes out of the lane of this key. Where no item waits and the chain has put out no ending, the pick completes
    /// the lane. Nothing changes here: [`commit`](Lane::commit) takes it.
    fn prepare<O: Ops<Item = T>>(
        &self,
        alloc: Global,
        ops: &O,
        key: u64,
    ) -> Result<LanePick<T>, NoMemory>
        requires { is_gone (lane self.now) ≡ false }
        ensures ok { IfOk result (λ p. IsPrepared (O.meaning ops.now) key (lane self.now) p) }
        ensures goes_on { IfOk result (λ p. PickGoesOn p.lane) };

    /// Picks the item that waits first, in one go: takes it out with the tag of the lane's key, and records the choice of the lane, which
    /// has this number. Where no item waits, where the ending was picked, and for want of memory it answers nothing, and nothing has
    /// changed.
    fn pick_item<O: Ops<Item = T>>(
        &mut self,
        alloc: Global,
        ops: &O,
        key: u64,
        number: u64,
        choices: &mut Record,
    ) -> Option<T>
        ensures item { IfSome result (λ x. IsItemPicked (O.meaning ops.now) key (lane self.old) x (lane self.new)) }
        ensures choice { IfSome result (λ x. written choices.new ≡ written choices.old ++ number ∷ []) }
        ensures none { IfNone result ((self.new ≡ self.old) × (choices.new ≡ choices.old)) };
}

impl<T: Drop> Laning<T> for Lane<T> {
    ghost lane = { λ l. l };

    fn begin<O: Ops<Item = T>>(
        alloc: Global,
        ops: &O,
        stages: &[Stage<T>],
        item: T,
    ) -> Result<Lane<T>, T>
        ensures ok { IfOk result (λ l. BeginsWith (O.meaning ops.now) stages.now item l) }
        ensures there { IfOk result (λ l. is_gone l ≡ false) }
        ensures goes_on { IfOk result (λ l. GoesOn l.state) }
        ensures err { IfErr result (λ x. x ≡ item) }
    {
        match ChainState::begun(alloc, ops, stages, item) {
            Ok(begun) => {
                let state = state_after(begun.chain, begun.out.ending);
                let waiting = WaitingItems::of(with_item(begun.items, begun.out.item));
                Ok(Lane { state, waiting })
            }
            Err(item) => Err(item),
        }
    }

    fn take_item<O: Ops<Item = T>>(&mut self, alloc: Global, ops: &O, item: T) -> Result<(), T>
        requires { is_quiet self.old ≡ true }
        ensures ok { OnOk result (TakesOne (O.meaning ops.now) self.old item self.new) }
        ensures gone { OnOk result (is_gone self.new ≡ is_gone self.old) }
        ensures goes_on { OnOk result (GoesOn self.new.state) }
        ensures err { IfErr result (λ x. x ≡ item) }
        ensures same { OnErr result (self.new ≡ self.old) }
    {
        if self.is_bare() {
            self.waiting.put(Some(item));
            return Ok(());
        }
        let LaneState::Running(chain) = &mut self.state else {
            return Ok(());
        };
        let out = match chain.take_one(alloc, ops, item) {
            Ok(out) => out,
            Err(item) => return Err(item),
        };
        self.put_out(out);
        Ok(())
    }

    fn prepare<O: Ops<Item = T>>(
        &self,
        alloc: Global,
        ops: &O,
        key: u64,
    ) -> Result<LanePick<T>, NoMemory>
        requires { is_gone self.now ≡ false }
        ensures ok { IfOk result (λ p. IsPrepared (O.meaning ops.now) key self.now p) }
        ensures goes_on { IfOk result (λ p. PickGoesOn p.lane) }
    {
        if let Some(item) = self.waiting.front() {
            let tagged = ops.tag(alloc, key, item)?;
            return Ok(LanePick {
                signal: Signal::Next(tagged),
                lane: None,
            });
        }
        match &self.state {
            LaneState::Running(chain) => chain.completion(alloc, ops, key),
            LaneState::Completed => Ok(LanePick {
                signal: Signal::Complete,
                lane: None,
            }),
            LaneState::Failing(cause) => Ok(LanePick {
                signal: Signal::Error(*cause),
                lane: None,
            }),
            LaneState::Gone => unreachable!(),
        }
    }

    fn pick_item<O: Ops<Item = T>>(
        &mut self,
        alloc: Global,
        ops: &O,
        key: u64,
        number: u64,
        choices: &mut Record,
    ) -> Option<T>
        ensures item { IfSome result (λ x. IsItemPicked (O.meaning ops.now) key self.old x self.new) }
        ensures choice { IfSome result (λ x. written choices.new ≡ written choices.old ++ number ∷ []) }
        ensures none { IfNone result ((self.new ≡ self.old) × (choices.new ≡ choices.old)) }
    {
        if self.is_gone() {
            return None;
        }
        let item = match self.waiting.front() {
            Some(item) => item,
            None => return None,
        };
        let tagged = match ops.tag(alloc, key, item) {
            Ok(tagged) => tagged,
            Err(_) => return None,
        };
        if choices.push(number).is_err() {
            return None;
        }
        let _untagged = self.waiting.pop();
        Some(tagged)
    }
}
