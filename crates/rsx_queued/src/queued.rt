//! A node with the queue of the edge from it to another region.

ghost use Rattle.std.specs.Prelude.{◌≡◌};

use crate::item_queue::{Copied, ItemQueue};
use crate::tail::Tail;
use rsx_sources::{Front, Machine, NotMade, NotTaken, Passed};
use rsx_types::{CAPACITY, Ending, NoMemory, Note, Ops, Signal, StreamValue};
use std::alloc::Global;

/// A node with the queue of the edge from it to another region: at most [`CAPACITY`] signals that went over the edge and
/// that its receiver hasn't taken yet.
///
/// It is a node itself: what it offers is the oldest signal of its queue, and what it takes in goes to the node inside. So
/// the Send of a tree over the edge is the *Take* of the queue, and what that edge counts as sent is what was taken. The
/// *Send* over the edge, which moves the offered signal of the node inside into the queue, is its row. Where the node inside records
/// that signal as it goes, the Send is its pick of input 0 instead, since a row records nothing.
#[derive(Drop)]
pub struct Queued<M, T> {
    /// The node.
    pub node: M,
    /// The items in the queue.
    pub queue: ItemQueue<T>,
    /// The ending behind them.
    pub tail: Tail,
}

impl<M: Machine<Item = T> + Drop, T: Drop> Queued<M, T> {
    ghost use Rattle.std.specs.Prelude.{◌≡◌, [], IfOk};
    ghost use Rattle.rsx_queued.specs.declared.tail.Tail.TheVariants.{Open};

    /// A node with an empty queue behind it.
    ///
    /// # Errors
    /// [`NoMemory`] where memory for the queue was refused.
    pub fn new(alloc: Global, node: M) -> Result<Queued<M, T>, NoMemory>
        ensures node { IfOk result (λ n. n.node ≡ node) }
        ensures queue { IfOk result (λ n. n.queue ≡ []) }
        ensures tail { IfOk result (λ n. n.tail ≡ Open) }
    {
        let queue = ItemQueue::new(alloc)?;
        Ok(Queued {
            node,
            queue,
            tail: Tail::Open,
        })
    }
}

impl<M, T: Drop> Queued<M, T> {
    ghost use Rattle.std.specs.Prelude.{◌≡◌, ◌<◌, length};
    ghost use Rattle.rsx_types.specs.declared.limits.TheConstants.{CAPACITY};
    ghost use Rattle.rsx_queued.specs.Transfer.{IsPushed};
    ghost use Rattle.rsx_queued.specs.declared.tail.Tail.TheVariants.{Open};

    /// Puts a signal that went over the edge at the back of the queue, which has room for it and no ending in it.
    fn put(&mut self, signal: Signal<T>)
        requires open { self.old.tail ≡ Open }
        requires room { length self.old.queue < CAPACITY }
        ensures node { self.new.node ≡ self.old.node }
        ensures pushed { IsPushed self.old.queue signal self.new.queue self.new.tail }
    {
        match signal {
            Signal::Next(item) => self.queue.push(item),
            Signal::Complete => self.tail = Tail::Completion,
            Signal::Error(cause) => self.tail = Tail::Failure(cause),
        }
    }
}

impl<M: Machine<Item = T>, T: Drop> Queued<M, T> {
    ghost use Rattle.std.specs.Prelude.{◌≡◌};
    ghost use Rattle.std.specs.Option.{is_some};
    ghost use Rattle.rsx_queued.specs.Queued.{can_transfer, node_sent, pop_note};

    /// How many items the node inside sent, where `asked` is asked over the edge and `taken` of them were taken; at most
    /// `asked`.
    fn sent(&self, asked: u64, taken: u64) -> u64
        ensures { result ≡ node_sent self.now.queue asked taken }
    {
        let items = self.queue.len() as u64;
        if taken >= asked || items >= asked - taken {
            asked
        } else {
            taken + items
        }
    }

    /// Whether the signal that the node inside offers can go into the queue, where `asked` is asked over the edge and
    /// `taken` items were taken from the queue: the queue holds fewer than [`CAPACITY`] signals and no ending, and the signal is an
    /// ending or an item that was asked for.
    pub fn can_transfer(&self, asked: u64, taken: u64) -> bool
        ensures { result ≡ can_transfer M.Machine self.now asked taken }
    {
        if !self.tail.is_open() || self.queue.len() >= CAPACITY {
            return false;
        }
        match self.node.front() {
            Some(Front::Item) => self.sent(asked, taken) < asked,
            Some(Front::Completion) | Some(Front::Failure(_)) => true,
            None => false,
        }
    }

    /// Whether the node inside records the signal that it offers as that goes over the edge. Then that is a pick of input 0, since a
    /// row records nothing.
    pub fn records_transfer(&self) -> bool
        ensures { result ≡ is_some (pop_note M.Machine self.now.node) }
    {
        if !self.node.records_pop() {
            return false;
        }
        self.node.front().is_some()
    }
}

impl<M: Machine<Item = T>, T: Drop> Machine for Queued<M, T> {
    type Item = T;

    ghost use Rattle.rsx_queued.specs.QueuedLaws.{queued_shows, queued_popped_alike, queued_drops, queued_ends, queued_settles, queued_ending_waits, queued_hungry, queued_ends_reading, queued_done_drops, queued_enough};
    ghost use Rattle.rsx_queued.specs.Queued.{queued_comes_out, queued_waiting, queued_shown, queued_takes, queued_picks, queued_rows, queued_recording, pop_note, queued_ended, queued_done, queued_counted, queued_wanted, queued_accepts, queued_popped, queued_takes_published, queued_allocates, queued_step_allocates, can_transfer, QueuedCountsIn, QueuedCountsStep, QueuedAlike, queued_reads, queued_rooms};
    ghost use Rattle.rsx_queued.specs.declared.queued.Queued.{Queued};
    ghost use Rattle.rsx_sources.specs.Machine.{IsComposed, TakesIn, Keeps, Records, front_of};
    ghost use Rattle.rsx_sources.specs.Steps.{IsNotTaken, IsNotMade, IsSameKind, StaysAlike};
    ghost use Rattle.rsx_queued.specs.Transfer.{IsMovedOver, IsQueueKept, IsQueuedPick, IsQueuedRow, IsTransferred, queued_heard, queued_took};
    ghost use Rattle.rsx_queued.specs.Calls.{NodeTakesIn, NodeReadsOn, NodePicks, QueuedPassed, QueuedSteppedOut};
    ghost use Rattle.rsx_types.specs.Notes.{note_then};
    ghost use Rattle.rsx_sources.specs.Reading.{IsReadOn, takes_published};
    ghost use Rattle.std.specs.Option.{is_some};
    ghost use Rattle.std.specs.Prelude.{◌≡◌, None, true, false, IsOk, OnOk, OnErr, IfErr};

    ghost comes_out = { queued_comes_out M.Machine };

    ghost waiting = { queued_waiting };

    ghost shown = { queued_shown };

    ghost takes = { queued_takes M.Machine };

    ghost picks = { queued_picks M.Machine };

    ghost rows = { queued_rows M.Machine };

    ghost rowed = { IsQueuedRow M.Machine };

    ghost took = { queued_took M.Machine };

    ghost heard = { queued_heard M.Machine };

    ghost picked = { IsQueuedPick M.Machine };

    ghost recording = { queued_recording M.Machine };

    ghost recorded = { λ n. M.recorded n.node };

    // What is in the queue was recorded as it went over the edge.
    ghost popping = { λ n. None };

    ghost ended = { queued_ended M.Machine };

    ghost done = { queued_done M.Machine };

    ghost counted = { queued_counted M.Machine };

    ghost wanted = { queued_wanted M.Machine };

    ghost accepts = { queued_accepts };

    ghost popped = { queued_popped };

    ghost reads = { queued_reads M.Machine };

    ghost rooms = { queued_rooms M.Machine };

    ghost crosses = { λ n. true };

    ghost pop_allocates = { λ a n. false };

    ghost signal_allocates = { queued_allocates M.Machine };

    ghost step_allocates = { queued_step_allocates M.Machine };

    #[inline(never)]
    fn front(&self) -> Option<Front> {
        if self.queue.is_empty() {
            self.tail.front()
        } else {
            Some(Front::Item)
        }
    }

    #[inline(never)]
    fn pop_front<O: Ops<Item = T>>(
        &mut self,
        alloc: Global,
        ops: &O,
    ) -> Result<Option<Signal<T>>, NoMemory> {
        match self.queue.pop() {
            Some(item) => Ok(Some(Signal::Next(item))),
            None => Ok(self.tail.take()),
        }
    }

    fn records_pop(&self) -> bool {
        false
    }

    #[inline(never)]
    fn put_back(&mut self, signal: Signal<T>)
        ensures { (before : Queued M T) → queued_popped before signal self.old → self.new ≡ before }
    {
        match signal {
            Signal::Next(item) => {
                if self.queue.len() < CAPACITY {
                    self.queue.put_back(item);
                }
            }
            Signal::Complete => self.tail = Tail::Completion,
            Signal::Error(cause) => self.tail = Tail::Failure(cause),
        }
    }

    #[inline(never)]
    fn has_ended(&self) -> bool {
        match self.tail {
            Tail::Open => self.node.has_ended(),
            Tail::Completion | Tail::Failure(_) => true,
            Tail::Taken => false,
        }
    }

    #[inline(never)]
    fn can_take(&self, input: u64, front: Front) -> bool {
        self.tail.is_open() && self.node.can_take(input, front)
    }

    #[inline(never)]
    fn on_signal<O: Ops<Item = T>>(
        &mut self,
        alloc: Global,
        ops: &O,
        input: u64,
        signal: Signal<T>,
    ) -> Result<(), NotTaken<T>>
        ensures ok { OnOk result (TakesIn (queued_comes_out M.Machine (O.meaning ops.now)) self.old input signal self.new) }
        ensures enabled { OnOk result (queued_takes M.Machine self.old input (front_of signal) ≡ true) }
        ensures made { OnOk result (queued_took M.Machine self.old input signal self.new) }
        ensures recorded { M.recorded self.new.node ≡ M.recorded self.old.node }
        ensures counts { OnOk result (QueuedCountsIn M.Machine self.old input signal self.new) }
        ensures err { IfErr result (IsNotTaken (queued_takes M.Machine self.old input (front_of signal)) signal) }
        ensures memory { M.signal_allocates (O.allocates ops.now) self.old.node ≡ false → IfErr result (λ e. e ≡ NotTaken.Busy signal) }
        ensures alike { QueuedAlike M.Machine self.old self.new }
        ensures same { OnErr result (self.new ≡ self.old) }

        // Nothing that the node then offers goes over the edge by this call.
        ensures queue { IsQueueKept self.old self.new }
        ensures node { OnOk result (NodeTakesIn M.Machine (O.meaning ops.now) self.old.node input signal self.new.node) }
    {
        if !self.tail.is_open() {
            return Err(NotTaken::Busy(signal));
        }
        match self.node.on_signal(alloc, ops, input, signal) {
            Ok(()) => Ok(()),
            Err(why) => Err(why),
        }
    }

    #[inline(always)]
    fn pop_item<O: Ops<Item = T>>(&mut self, alloc: Global, ops: &O) -> Option<T> {
        self.queue.pop()
    }

    fn pass<O: Ops<Item = T>>(&mut self, alloc: Global, ops: &O, input: u64, item: T) -> Passed<T>
        ensures passed { QueuedPassed M.Machine (O.meaning ops.now) self.old input item result self.new }
        ensures alike { QueuedAlike M.Machine self.old self.new }
        ensures queue { IsQueueKept self.old self.new }
        ensures declined { result ≡ Passed.Declined item }
    {
        Passed::Declined(item)
    }

    #[inline(never)]
    fn hub(&self) -> Option<u64> {
        if !self.tail.is_open() {
            return None;
        }
        self.node.hub()
    }

    #[inline(never)]
    fn has_room(&self) -> bool {
        self.node.has_room()
    }

    #[inline(never)]
    fn on_published(&mut self, signal: Signal<T>) -> Result<(), Signal<T>>
        ensures ok { OnOk result (IsReadOn (queued_comes_out M.Machine) (queued_reads M.Machine) self.old signal self.new) }
        ensures enabled { OnOk result (queued_takes_published M.Machine self.old signal ≡ true) }
        ensures made { OnOk result (queued_heard M.Machine self.old signal self.new) }
        ensures recorded { M.recorded self.new.node ≡ M.recorded self.old.node }
        ensures counts { OnOk result (QueuedCountsStep M.Machine self.old self.new) }
        ensures refused { OnErr result (queued_takes_published M.Machine self.old signal ≡ false) }
        ensures err { IfErr result (λ s. s ≡ signal) }
        ensures alike { IsSameKind (λ n. true) (λ a n. false) (queued_allocates M.Machine) (queued_step_allocates M.Machine) self.old self.new }
        ensures same { OnErr result (self.new ≡ self.old) }
        ensures queue { IsQueueKept self.old self.new }
        ensures node { OnOk result (NodeReadsOn M.Machine self.old.node signal self.new.node) }
    {
        if !self.tail.is_open() {
            return Err(signal);
        }
        self.node.on_published(signal)
    }

    #[inline(never)]
    fn can_pick(&self, input: u64, asked: u64, sent: u64) -> bool {
        if self.records_transfer() {
            return input == 0 && self.can_transfer(asked, sent);
        }
        self.tail.is_open() && self.node.can_pick(input, asked, self.sent(asked, sent))
    }

    #[inline(never)]
    fn next_pick(&self, asked: u64, sent: u64) -> Option<u64> {
        if self.records_transfer() {
            return if self.can_transfer(asked, sent) {
                Some(0)
            } else {
                None
            };
        }
        if !self.tail.is_open() {
            return None;
        }
        self.node.next_pick(asked, self.sent(asked, sent))
    }

    #[inline(never)]
    fn on_pick<O: Ops<Item = T>>(
        &mut self,
        alloc: Global,
        ops: &O,
        input: u64,
        asked: u64,
        sent: u64,
    ) -> Result<(), NotMade>
        ensures ok { OnOk result (Records (queued_comes_out M.Machine (O.meaning ops.now)) self.old (queued_recording M.Machine self.old input) self.new) }
        ensures enabled { OnOk result (queued_picks M.Machine self.old input asked sent ≡ true) }
        ensures made { OnOk result (IsQueuedPick M.Machine self.old input self.new) }
        ensures recorded { OnOk result (M.recorded self.new.node ≡ note_then (M.recorded self.old.node) (queued_recording M.Machine self.old input)) }
        ensures composes { OnOk result (IsComposed (M.recorded self.old.node) (queued_recording M.Machine self.old input)) }
        ensures counts { OnOk result (QueuedCountsStep M.Machine self.old self.new) }
        ensures err { IfErr result (IsNotMade (queued_picks M.Machine self.old input asked sent)) }
        ensures memory { queued_step_allocates M.Machine (O.allocates ops.now) self.old ≡ false →
            IfErr result (λ e. e ≡ NotMade.NotEnabled) }
        ensures alike { QueuedAlike M.Machine self.old self.new }
        ensures same { OnErr result (self.new ≡ self.old) }

        // Where the offered signal is recorded as it goes over the edge, this is the Send over it, and else a pick of the node, of which
        // the queue is none.
        ensures over { is_some (pop_note M.Machine self.old.node) ≡ true → OnOk result (IsMovedOver M.Machine self.old self.new) }
        ensures sent { is_some (pop_note M.Machine self.old.node) ≡ true → queued_picks M.Machine self.old input asked sent ≡ true →
            M.pop_allocates (O.allocates ops.now) self.old.node ≡ false → IsOk result }
        ensures queue { pop_note M.Machine self.old.node ≡ None → IsQueueKept self.old self.new }
        ensures node { pop_note M.Machine self.old.node ≡ None →
            OnOk result (NodePicks M.Machine (O.meaning ops.now) self.old.node input self.new.node) }
    {
        if self.records_transfer() {
            if input != 0 || !self.can_transfer(asked, sent) {
                return Err(NotMade::NotEnabled);
            }
            return match self.node.pop_front(alloc, ops) {
                Ok(Some(signal)) => {
                    self.put(signal);
                    Ok(())
                }
                Ok(None) => Err(NotMade::NotEnabled),
                Err(NoMemory) => Err(NotMade::NoMemory),
            };
        }
        if !self.tail.is_open() {
            return Err(NotMade::NotEnabled);
        }
        let by_node = self.sent(asked, sent);
        match self.node.on_pick(alloc, ops, input, asked, by_node) {
            Ok(()) => Ok(()),
            Err(why) => Err(why),
        }
    }

    #[inline(never)]
    fn can_row(&self, asked: u64, sent: u64) -> bool {
        if self.records_transfer() {
            return false;
        }
        if self.can_transfer(asked, sent) {
            return true;
        }
        self.tail.is_open() && self.node.can_row(asked, self.sent(asked, sent))
    }

    #[inline(never)]
    fn on_row<O: Ops<Item = T>>(
        &mut self,
        alloc: Global,
        ops: &O,
        asked: u64,
        sent: u64,
    ) -> Result<(), NotMade>
        ensures ok { OnOk result (Keeps (queued_comes_out M.Machine (O.meaning ops.now)) self.old self.new) }
        ensures enabled { OnOk result (queued_rows M.Machine self.old asked sent ≡ true) }
        ensures rowed { OnOk result (IsQueuedRow M.Machine self.old asked sent self.new) }
        ensures recorded { M.recorded self.new.node ≡ M.recorded self.old.node }
        ensures counts { OnOk result (QueuedCountsStep M.Machine self.old self.new) }
        ensures err { IfErr result (IsNotMade (queued_rows M.Machine self.old asked sent)) }
        ensures memory { queued_step_allocates M.Machine (O.allocates ops.now) self.old ≡ false →
            IfErr result (λ e. e ≡ NotMade.NotEnabled) }
        ensures alike { QueuedAlike M.Machine self.old self.new }
        ensures same { OnErr result (self.new ≡ self.old) }

        // Where a signal can go over the edge and isn't recorded by that, this is the Send over it, and else a row of the node, of which the
        // queue is none.
        ensures transferred { can_transfer M.Machine self.old asked sent ≡ true →
            OnOk result (IsTransferred M.Machine (O.meaning ops.now) self.old self.new) }
        ensures beside { can_transfer M.Machine self.old asked sent ≡ false → IsQueueKept self.old self.new }
        ensures sent { pop_note M.Machine self.old.node ≡ None → can_transfer M.Machine self.old asked sent ≡ true →
            M.pop_allocates (O.allocates ops.now) self.old.node ≡ false → IsOk result }
    {
        if self.records_transfer() {
            return Err(NotMade::NotEnabled);
        }
        if self.can_transfer(asked, sent) {
            return match self.node.pop_front(alloc, ops) {
                Ok(Some(signal)) => {
                    self.put(signal);
                    Ok(())
                }
                Ok(None) => Err(NotMade::NotEnabled),
                Err(NoMemory) => Err(NotMade::NoMemory),
            };
        }
        if !self.tail.is_open() {
            return Err(NotMade::NotEnabled);
        }
        let by_node = self.sent(asked, sent);
        match self.node.on_row(alloc, ops, asked, by_node) {
            Ok(()) => Ok(()),
            Err(why) => Err(why),
        }
    }

    /// The item that the node offers goes out at once where the queue is empty and the item could go into it. That is a row, so only an
    /// item that isn't recorded goes. Whether it offers one is told by taking it.
    #[inline(never)]
    fn step_item<O: Ops<Item = T>>(
        &mut self,
        alloc: Global,
        ops: &O,
        asked: u64,
        sent: u64,
    ) -> Option<T>
        ensures out { QueuedSteppedOut M.Machine (O.meaning ops.now) self.old asked sent result self.new }
        ensures alike { QueuedAlike M.Machine self.old self.new }
        ensures queue { IsQueueKept self.old self.new }
    {
        if self.node.records_pop() || !self.queue.is_empty() || !self.tail.is_open() {
            return None;
        }
        if self.sent(asked, sent) >= asked {
            return None;
        }
        match self.node.pop_item(alloc, ops) {
            Some(item) => Some(item),
            None => None,
        }
    }

    #[inline(never)]
    fn want(&self, input: u64, asked: u64, sent: u64) -> u64 {
        self.node.want(input, asked, self.sent(asked, sent))
    }

    /// In every state that calls reach, what stands in front of the ending was asked for, so no more demand is accepted as soon as the
    /// ending stands in the queue. Were less asked for, an Ask would have to come first, and so it stays enabled.
    #[cold]
    fn accepts_demand(&self, asked: u64, sent: u64) -> bool {
        match self.tail {
            Tail::Open | Tail::Taken => true,
            Tail::Completion | Tail::Failure(_) => {
                asked < sent || asked - sent < self.queue.len() as u64
            }
        }
    }

    #[inline(never)]
    fn note(&self, alloc: Global) -> Result<Note, NoMemory> {
        self.node.note(alloc)
    }

    #[inline(never)]
    fn residual<O: Ops<Item = T>>(
        &self,
        alloc: Global,
        ops: &O,
        inboxes: &[StreamValue<T>],
        incoming: &[StreamValue<T>],
    ) -> Result<StreamValue<T>, NoMemory> {
        let mut items = self.queue.copied(alloc, ops)?;
        if self.tail.is_open() {
            let rest = self.node.residual(alloc, ops, inboxes, incoming)?;
            let ending = rest.ending();
            let mut behind = rest.into_items();
            items.append(&mut behind)?;
            return Ok(StreamValue::new(items, ending));
        }
        // Once its ending is in the queue, nothing comes into the node any more.
        let none: [StreamValue<T>; 0] = [];
        let rest = self.node.residual(alloc, ops, &none, &none)?;
        match self.tail {
            Tail::Completion => Ok(StreamValue::new(items, Ending::Done)),
            Tail::Failure(cause) => Ok(StreamValue::new(items, Ending::Failed(cause))),
            Tail::Open | Tail::Taken => {
                let ending = rest.ending();
                let mut behind = rest.into_items();
                items.append(&mut behind)?;
                Ok(StreamValue::new(items, ending))
            }
        }
    }

    ghost shows = { queued_shows };

    ghost popped_alike = { λ old s new h. queued_popped_alike M.Machine.own old s new h };

    ghost drops = { λ m n inc other further e. queued_drops M.Machine.own m (M.drops m) n inc other further e };

    ghost ends = { λ m n s inc other further w e. queued_ends M.Machine.own m n s inc other further w e };

    ghost done_drops = { λ m n hubs before after v w further d. queued_done_drops M.Machine.own m (M.done_drops m) n hubs before after v w further d };

    ghost ends_reading = { λ m n s w e. queued_ends_reading M.Machine.own m n s w e };

    ghost settles = { λ m n inc. queued_settles M.Machine.own m (M.settles m) n inc };

    ghost ending_waits = { λ m n asked sent e none more. queued_ending_waits M.Machine.own m (M.shows m) (M.ending_waits m) n asked sent e none more };

    ghost hungry = { λ m n took asked sent going counted none more within. queued_hungry M.Machine.own m (M.shows m) (M.hungry m) n took asked sent going counted none more within };

    ghost asked_enough = { queued_enough };
}
