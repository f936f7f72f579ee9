//! A node whose edge crosses to another region, or doesn't.

ghost use Rattle.std.specs.Prelude.{◌≡◌};

use crate::queued::Queued;
use rsx_sources::{Front, Machine, NotMade, NotTaken, Passed};
use rsx_types::{NoMemory, Note, Ops, Signal, StreamValue};
use std::alloc::Global;

/// A node whose edge crosses to another region, or doesn't. A tree of such nodes has a queue at just those edges that cross.
#[derive(Drop)]
pub enum Sender<M, T> {
    /// Its edge stays in its region, and has no queue.
    Direct(M),
    /// Its edge crosses, and has a queue.
    Crossing(Queued<M, T>),
}

impl<M: Machine<Item = T>, T: Drop> Machine for Sender<M, T> {
    type Item = T;

    ghost use Rattle.rsx_queued.specs.Sender.{is_crossing, sender_comes_out, sender_waiting, sender_shown, sender_takes, sender_picks, sender_rows, sender_rowed, sender_took, sender_heard, sender_picked, sender_recording, sender_recorded, sender_popping, sender_ended, sender_done, sender_counted, sender_wanted, sender_accepts, sender_popped, sender_pop_allocates, sender_signal_allocates, sender_step_allocates, sender_shows, sender_alike, sender_drops, sender_ends, sender_settles, sender_ending_waits, sender_hungry, SenderCountsIn, SenderCountsStep, SenderAlike, SenderSameKind, sender_reads, sender_rooms, sender_takes_published, sender_ends_reading, sender_done_drops, sender_enough};
    ghost use Rattle.rsx_queued.specs.declared.sender.Sender.{Sender};
    ghost use Rattle.rsx_sources.specs.Machine.{TakesIn, front_of};
    ghost use Rattle.rsx_sources.specs.Steps.{IsNotTaken, IsSameKind, StaysAlike};
    ghost use Rattle.rsx_sources.specs.Counts.{CountsIn, CountsStep};
    ghost use Rattle.rsx_sources.specs.Reading.{IsReadOn, takes_published};
    ghost use Rattle.std.specs.Prelude.{◌≡◌, true, false, OnOk, OnErr, IfErr};

    ghost comes_out = { sender_comes_out M.Machine };

    ghost waiting = { sender_waiting M.Machine };

    ghost shown = { sender_shown M.Machine };

    ghost takes = { sender_takes M.Machine };

    ghost picks = { sender_picks M.Machine };

    ghost rows = { sender_rows M.Machine };

    ghost rowed = { sender_rowed M.Machine };

    ghost took = { sender_took M.Machine };

    ghost heard = { sender_heard M.Machine };

    ghost picked = { sender_picked M.Machine };

    ghost recording = { sender_recording M.Machine };

    ghost recorded = { sender_recorded M.Machine };

    ghost popping = { sender_popping M.Machine };

    ghost ended = { sender_ended M.Machine };

    ghost done = { sender_done M.Machine };

    ghost counted = { sender_counted M.Machine };

    ghost wanted = { sender_wanted M.Machine };

    ghost accepts = { sender_accepts M.Machine };

    ghost popped = { sender_popped M.Machine };

    ghost reads = { sender_reads M.Machine };

    ghost rooms = { sender_rooms M.Machine };

    ghost crosses = { is_crossing };

    ghost pop_allocates = { sender_pop_allocates M.Machine };

    ghost signal_allocates = { sender_signal_allocates M.Machine };

    ghost step_allocates = { sender_step_allocates M.Machine };

    #[inline]
    fn front(&self) -> Option<Front> {
        match self {
            Sender::Direct(node) => node.front(),
            Sender::Crossing(node) => node.front(),
        }
    }

    fn pop_front<O: Ops<Item = T>>(
        &mut self,
        alloc: Global,
        ops: &O,
    ) -> Result<Option<Signal<T>>, NoMemory> {
        match self {
            Sender::Direct(node) => node.pop_front(alloc, ops),
            Sender::Crossing(node) => node.pop_front(alloc, ops),
        }
    }

    #[inline]
    fn records_pop(&self) -> bool {
        match self {
            Sender::Direct(node) => node.records_pop(),
            Sender::Crossing(node) => node.records_pop(),
        }
    }

    fn put_back(&mut self, signal: Signal<T>)
        ensures { (before : Sender M T) → sender_popped M.Machine before signal self.old → self.new ≡ before }
    {
        match self {
            Sender::Direct(node) => node.put_back(signal),
            Sender::Crossing(node) => node.put_back(signal),
        }
    }

    #[inline]
    fn has_ended(&self) -> bool {
        match self {
            Sender::Direct(node) => node.has_ended(),
            Sender::Crossing(node) => node.has_ended(),
        }
    }

    #[inline]
    fn can_take(&self, input: u64, front: Front) -> bool {
        match self {
            Sender::Direct(node) => node.can_take(input, front),
            Sender::Crossing(node) => node.can_take(input, front),
        }
    }

    fn on_signal<O: Ops<Item = T>>(
        &mut self,
        alloc: Global,
        ops: &O,
        input: u64,
        signal: Signal<T>,
    ) -> Result<(), NotTaken<T>>
        ensures ok { OnOk result (TakesIn (sender_comes_out M.Machine (O.meaning ops.now)) self.old input signal self.new) }
        ensures enabled { OnOk result (sender_takes M.Machine self.old input (front_of signal) ≡ true) }
        ensures made { OnOk result (sender_took M.Machine self.old input signal self.new) }
        ensures recorded { sender_recorded M.Machine self.new ≡ sender_recorded M.Machine self.old }
        ensures counts { OnOk result (SenderCountsIn M.Machine self.old input signal self.new) }
        ensures err { IfErr result (IsNotTaken (sender_takes M.Machine self.old input (front_of signal)) signal) }
        ensures memory { sender_signal_allocates M.Machine (O.allocates ops.now) self.old ≡ false →
            IfErr result (λ e. e ≡ NotTaken.Busy signal) }
        ensures alike { SenderAlike M.Machine self.old self.new }
        ensures same { OnErr result (self.new ≡ self.old) }
    {
        match self {
            Sender::Direct(node) => node.on_signal(alloc, ops, input, signal),
            Sender::Crossing(node) => node.on_signal(alloc, ops, input, signal),
        }
    }

    #[inline(always)]
    fn pop_item<O: Ops<Item = T>>(&mut self, alloc: Global, ops: &O) -> Option<T> {
        match self {
            Sender::Direct(node) => node.pop_item(alloc, ops),
            Sender::Crossing(node) => node.pop_item(alloc, ops),
        }
    }

    #[inline(always)]
    fn pass<O: Ops<Item = T>>(&mut self, alloc: Global, ops: &O, input: u64, item: T) -> Passed<T> {
        match self {
            Sender::Direct(node) => node.pass(alloc, ops, input, item),
            // What a node takes in waits in its queue.
            Sender::Crossing(_) => Passed::Declined(item),
        }
    }

    fn hub(&self) -> Option<u64> {
        match self {
            Sender::Direct(node) => node.hub(),
            Sender::Crossing(node) => node.hub(),
        }
    }

    fn has_room(&self) -> bool {
        match self {
            Sender::Direct(node) => node.has_room(),
            Sender::Crossing(node) => node.has_room(),
        }
    }

    fn on_published(&mut self, signal: Signal<T>) -> Result<(), Signal<T>>
        ensures ok { OnOk result (IsReadOn (sender_comes_out M.Machine) (sender_reads M.Machine) self.old signal self.new) }
        ensures enabled { OnOk result (sender_takes_published M.Machine self.old signal ≡ true) }
        ensures made { OnOk result (sender_heard M.Machine self.old signal self.new) }
        ensures recorded { sender_recorded M.Machine self.new ≡ sender_recorded M.Machine self.old }
        ensures counts { OnOk result (SenderCountsStep M.Machine self.old self.new) }
        ensures refused { OnErr result (sender_takes_published M.Machine self.old signal ≡ false) }
        ensures err { IfErr result (λ s. s ≡ signal) }
        ensures alike { SenderSameKind M.Machine self.old self.new }
        ensures same { OnErr result (self.new ≡ self.old) }
    {
        match self {
            Sender::Direct(node) => node.on_published(signal),
            Sender::Crossing(node) => node.on_published(signal),
        }
    }

    fn can_pick(&self, input: u64, asked: u64, sent: u64) -> bool {
        match self {
            Sender::Direct(node) => node.can_pick(input, asked, sent),
            Sender::Crossing(node) => node.can_pick(input, asked, sent),
        }
    }

    fn next_pick(&self, asked: u64, sent: u64) -> Option<u64> {
        match self {
            Sender::Direct(node) => node.next_pick(asked, sent),
            Sender::Crossing(node) => node.next_pick(asked, sent),
        }
    }

    fn on_pick<O: Ops<Item = T>>(
        &mut self,
        alloc: Global,
        ops: &O,
        input: u64,
        asked: u64,
        sent: u64,
    ) -> Result<(), NotMade> {
        match self {
            Sender::Direct(node) => node.on_pick(alloc, ops, input, asked, sent),
            Sender::Crossing(node) => node.on_pick(alloc, ops, input, asked, sent),
        }
    }

    fn can_row(&self, asked: u64, sent: u64) -> bool {
        match self {
            Sender::Direct(node) => node.can_row(asked, sent),
            Sender::Crossing(node) => node.can_row(asked, sent),
        }
    }

    fn on_row<O: Ops<Item = T>>(
        &mut self,
        alloc: Global,
        ops: &O,
        asked: u64,
        sent: u64,
    ) -> Result<(), NotMade> {
        match self {
            Sender::Direct(node) => node.on_row(alloc, ops, asked, sent),
            Sender::Crossing(node) => node.on_row(alloc, ops, asked, sent),
        }
    }

    #[inline(always)]
    fn never_steps(&self) -> bool {
        match self {
            Sender::Direct(node) => node.never_steps(),
            Sender::Crossing(_) => false,
        }
    }

    #[inline(always)]
    fn steps_out(&self) -> bool {
        match self {
            Sender::Direct(node) => node.steps_out(),
            Sender::Crossing(_) => true,
        }
    }

    #[inline]
    fn step_item<O: Ops<Item = T>>(
        &mut self,
        alloc: Global,
        ops: &O,
        asked: u64,
        sent: u64,
    ) -> Option<T> {
        match self {
            Sender::Direct(node) => node.step_item(alloc, ops, asked, sent),
            Sender::Crossing(node) => node.step_item(alloc, ops, asked, sent),
        }
    }

    #[inline]
    fn want(&self, input: u64, asked: u64, sent: u64) -> u64 {
        match self {
            Sender::Direct(node) => node.want(input, asked, sent),
            Sender::Crossing(node) => node.want(input, asked, sent),
        }
    }

    #[inline(always)]
    fn accepts_demand(&self, asked: u64, sent: u64) -> bool {
        match self {
            Sender::Direct(node) => node.accepts_demand(asked, sent),
            Sender::Crossing(node) => node.accepts_demand(asked, sent),
        }
    }

    fn note(&self, alloc: Global) -> Result<Note, NoMemory> {
        match self {
            Sender::Direct(node) => node.note(alloc),
            Sender::Crossing(node) => node.note(alloc),
        }
    }

    fn residual<O: Ops<Item = T>>(
        &self,
        alloc: Global,
        ops: &O,
        inboxes: &[StreamValue<T>],
        incoming: &[StreamValue<T>],
    ) -> Result<StreamValue<T>, NoMemory> {
        match self {
            Sender::Direct(node) => node.residual(alloc, ops, inboxes, incoming),
            Sender::Crossing(node) => node.residual(alloc, ops, inboxes, incoming),
        }
    }

    ghost shows = { λ m n. sender_shows M.Machine.own m (M.shows m) n };

    ghost popped_alike = { λ old s new h. sender_alike M.Machine.own M.popped_alike old s new h };

    ghost drops = { λ m n inc other further e. sender_drops M.Machine.own m (M.drops m) n inc other further e };

    ghost ends = { λ m n s inc other further w e. sender_ends M.Machine.own m (M.ends m) n s inc other further w e };

    ghost done_drops = { λ m n hubs before after v w further d. sender_done_drops M.Machine.own m (M.done_drops m) n hubs before after v w further d };

    ghost ends_reading = { λ m n s w e. sender_ends_reading M.Machine.own m (M.ends_reading m) n s w e };

    ghost settles = { λ m n inc. sender_settles M.Machine.own m (M.settles m) n inc };

    ghost ending_waits = { λ m n asked sent e none more. sender_ending_waits M.Machine.own m (M.shows m) (M.ending_waits m) n asked sent e none more };

    ghost hungry = { λ m n took asked sent going counted none more within. sender_hungry M.Machine.own m (M.shows m) (M.hungry m) n took asked sent going counted none more within };

    ghost asked_enough = { λ n asked sent e. sender_enough M.Machine.own M.asked_enough n asked sent e };
}
