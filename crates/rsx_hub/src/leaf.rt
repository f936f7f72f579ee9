//! A member of a hub as a node.

ghost use Rattle.std.specs.Prelude.{◌≡◌};

use crate::{Holds, Member, Remaining};
use rsx_sources::{Front, Machine, NotMade, NotTaken, Passed};
use rsx_types::{Ending, NoMemory, Note, Ops, Signal, StreamValue};
use std::alloc::Global;
use std::marker::Model;

/// The node that reads a hub: it offers the items that were handed to it in their order, and then the hub's ending. Contracts
/// see the number of its hub, the state of its member, which never leaves, and two numbers that its counts begin with.
///
/// It takes memory only when its member is made: from then on each item is moved in and out, and moved back in by
/// [`put_back`](Machine::put_back).
#[derive(Drop)]
pub struct HubLeaf<T> {
    hub: u32,
    member: Member<T>,
    missed: u64,
    before: u64,
}

impl<T> Model for HubLeaf<T> {
    ghost use Rattle.std.specs.Prelude.{◌≡◌, false};
    ghost use Rattle.rsx_hub.specs.Leaf.{LeafState};

    ghost Value = { LeafState T };

    ghost view = { λ n. record { hub = n.hub; queue = n.member.queue; ending = n.member.ending; reached = n.member.reached; capacity = n.member.capacity; places = n.member.places; missed = n.missed; before = n.before } };

    ghost invariant = { λ n. n.member.gone ≡ false };
}

impl<T: Drop> HubLeaf<T> {
    ghost use Rattle.std.specs.Prelude.{◌≡◌, ◌∷◌, [], false, length, drop, min, option_copied, slice_get, IfSome, IfNone};
    ghost use Rattle.rsx_hub.specs.Leaf.{LeafState, member_of, leaf_spaces, leaf_took_all};
    ghost use Rattle.rsx_hub.specs.Member.{AreMoved};

    /// The node that reads the hub with this number by this member, which has not left. Nothing was sent by it yet.
    pub fn new(hub: u32, member: Member<T>) -> HubLeaf<T>
        requires { member.gone ≡ false }
        ensures hub { result.hub ≡ hub }
        ensures member { member_of result ≡ member }
        ensures missed { result.missed ≡ member.reached }
        ensures before { result.before ≡ length member.queue }
    {
        let missed = member.reached();
        let before = member.len() as u64;
        HubLeaf {
            hub,
            member,
            missed,
            before,
        }
    }

    /// The node that reads what comes over a link as it would read the hub with this number, by this member, which has not left.
    /// It takes the place of a node that sent `before` items.
    pub fn of_link(hub: u32, member: Member<T>, before: u64) -> HubLeaf<T>
        requires { member.gone ≡ false }
        ensures hub { result.hub ≡ hub }
        ensures member { member_of result ≡ member }
        ensures missed { result.missed ≡ 0 }
        ensures before { result.before ≡ before }
    {
        HubLeaf {
            hub,
            member,
            missed: 0,
            before,
        }
    }

    /// How many items it holds.
    pub fn len(&self) -> usize
        ensures { result ≡ length self.now.queue }
    {
        self.member.len()
    }

    /// The ending of its hub, where it has taken that in; open as long as it hasn't.
    pub fn ending(&self) -> Ending
        ensures { result ≡ self.now.ending }
    {
        self.member.ending()
    }

    /// For how many items of its hub it has room at once.
    pub fn spaces(&self) -> u64
        ensures { result ≡ leaf_spaces self.now }
    {
        self.member.spaces()
    }

    /// Takes in at most so many items of its hub from the end of a list, the last one first, as far as it has room for them. The others
    /// stay in the list. It takes no memory.
    pub fn take_in_many(&mut self, items: &mut Vec<T>, count: u64)
        ensures { AreMoved (min count (min (leaf_spaces self.old) (length items.old.items))) items.old.items items.new.items (λ xs. self.new ≡ leaf_took_all self.old xs) }
    {
        self.member.take_in_many(items, count);
    }

    /// Takes out the oldest of the items that it holds, if there is one. All else stays. It takes no memory.
    pub fn take(&mut self) -> Option<T>
        ensures some { IfSome result (λ x. self.old ≡ record self.new { queue = x ∷ self.new.queue }) }
        ensures none { IfNone result ((self.old.queue ≡ []) × (self.new ≡ self.old)) }
    {
        self.member.take()
    }

    /// The oldest of the items that it holds, if there is one.
    pub fn first(&self) -> Option<&T>
        ensures { option_copied result ≡ slice_get self.now.queue 0 }
    {
        self.member.first()
    }

    /// Drops the oldest of the items that it holds, at most so many. All else stays. It takes no memory.
    #[inline(never)]
    pub fn skip(&mut self, count: u64)
        ensures { self.new ≡ record self.old { queue = drop count self.old.queue } }
    {
        self.member.skip(count);
    }
}

impl<T: Drop> Holds<T> for HubLeaf<T> {
    ghost use Rattle.rsx_hub.specs.Leaf.{member_of};

    ghost held = { member_of };

    #[inline(never)]
    fn copy_first<O: Ops<Item = T>>(
        &self,
        alloc: Global,
        ops: &O,
        count: u64,
        all: &mut Vec<T>,
    ) -> Result<(), NoMemory> {
        self.member.copy_first(alloc, ops, count, all)
    }
}

impl<T: Drop> Machine for HubLeaf<T> {
    type Item = T;

    ghost use Rattle.std.specs.Prelude.{◌≡◌, ⊤, refl, Some, None, true, false, IfOk, IfErr, OnOk, OnErr};
    ghost use Rattle.rsx_types.specs.declared.note.Note.TheVariants.{Nothing};
    ghost use Rattle.rsx_sources.specs.Counts.{CountsStep};
    ghost use Rattle.rsx_sources.specs.Machine.{TakesIn};
    ghost use Rattle.rsx_sources.specs.Reading.{IsReadOn, IsResidualOf, takes_published};
    ghost use Rattle.rsx_sources.specs.Steps.{IsNotTaken};
    ghost use Rattle.rsx_hub.specs.Leaf.{LeafState, leaf_comes_out, leaf_waiting, leaf_shown, leaf_popped, leaf_reads, leaf_rooms, leaf_counted, leaf_took};
    ghost use Rattle.rsx_hub.specs.Laws.{leaf_shows, leaf_popped_alike, leaf_ends, leaf_ends_reading, leaf_hungry};
    ghost use Rattle.std.proofs.Common.{rules};
    ghost use Rattle.std.proofs.lemmas.Bool.{true≢false};

    ghost comes_out = { leaf_comes_out };

    ghost waiting = { leaf_waiting };

    ghost shown = { leaf_shown };

    ghost takes = { λ n i f. false };

    ghost picks = { λ n i a s. false };

    ghost rows = { λ n a s. false };

    ghost rowed = { λ n a s k. ⊥ };

    ghost took = { λ n i s new. ⊤ };

    ghost heard = { λ n s new. ⊤ };

    ghost picked = { λ n i new. ⊤ };

    ghost recording = { λ n i. Nothing };

    ghost recorded = { λ n. Nothing };

    ghost popping = { λ n. None };

    ghost ended = { λ n. false };

    ghost done = { λ n i. false };

    ghost counted = { leaf_counted };

    ghost wanted = { λ n i a s. 0 };

    ghost accepts = { λ n a s. true };

    ghost popped = { leaf_popped };

    ghost reads = { leaf_reads };

    ghost rooms = { leaf_rooms };

    ghost crosses = { λ n. false };

    ghost pop_allocates = { λ a n. false };

    ghost signal_allocates = { λ a n. false };

    ghost step_allocates = { λ a n. false };

    fn front(&self) -> Option<Front> {
        self.member.front()
    }

    fn pop_front<O: Ops<Item = T>>(
        &mut self,
        alloc: Global,
        ops: &O,
    ) -> Result<Option<Signal<T>>, NoMemory> {
        match self.member.front() {
            Some(Front::Item) => Ok(self.member.advance()),
            Some(Front::Completion) => Ok(Some(Signal::Complete)),
            Some(Front::Failure(cause)) => Ok(Some(Signal::Error(cause))),
            None => Ok(None),
        }
    }

    fn records_pop(&self) -> bool {
        false
    }

    fn put_back(&mut self, signal: Signal<T>)
        ensures { (before : LeafState T) → leaf_popped before signal self.old → self.new ≡ before }
    {
        if let Signal::Next(item) = signal {
            self.member.put_back(Signal::Next(item));
        }
    }

    fn has_ended(&self) -> bool {
        false
    }

    fn can_take(&self, input: u64, front: Front) -> bool {
        false
    }

    fn on_signal<O: Ops<Item = T>>(
        &mut self,
        alloc: Global,
        ops: &O,
        input: u64,
        signal: Signal<T>,
    ) -> Result<(), NotTaken<T>>
        ensures ok { OnOk result (TakesIn (leaf_comes_out (O.meaning ops.now)) self.old input signal self.new) }
        ensures enabled { OnOk result (false ≡ true) }
        ensures err { IfErr result (IsNotTaken false signal) }
        ensures memory { IfErr result (λ e. e ≡ NotTaken.Busy signal) }
        ensures same { OnErr result (self.new ≡ self.old) }
    {
        Err(NotTaken::Busy(signal))
    }

    fn pop_item<O: Ops<Item = T>>(&mut self, alloc: Global, ops: &O) -> Option<T> {
        match self.member.front() {
            Some(Front::Item) => match self.member.advance() {
                Some(Signal::Next(item)) => Some(item),
                _ => None,
            },
            _ => None,
        }
    }

    fn pass<O: Ops<Item = T>>(&mut self, alloc: Global, ops: &O, input: u64, item: T) -> Passed<T> {
        Passed::Declined(item)
    }

    fn hub(&self) -> Option<u64> {
        match self.member.is_reading() {
            true => Some(self.hub as u64),
            false => None,
        }
    }

    fn has_room(&self) -> bool {
        self.member.can_take_in()
    }

    fn on_published(&mut self, signal: Signal<T>) -> Result<(), Signal<T>>
        ensures ok { OnOk result (IsReadOn leaf_comes_out leaf_reads self.old signal self.new) }
        ensures state { OnOk result (self.new ≡ leaf_took self.old signal) }
        ensures enabled { OnOk result (takes_published (leaf_reads self.old) (leaf_rooms self.old) signal ≡ true) }
        ensures counts { OnOk result (CountsStep leaf_counted (λ n. false) (λ n i. false) self.old self.new) }
        ensures refused { OnErr result (takes_published (leaf_reads self.old) (leaf_rooms self.old) signal ≡ false) }
        ensures err { IfErr result (λ s. s ≡ signal) }
        ensures same { OnErr result (self.new ≡ self.old) }
    {
        self.member.take_in(signal)
    }

    fn can_pick(&self, input: u64, asked: u64, sent: u64) -> bool {
        false
    }

    fn next_pick(&self, asked: u64, sent: u64) -> Option<u64> {
        None
    }

    fn on_pick<O: Ops<Item = T>>(
        &mut self,
        alloc: Global,
        ops: &O,
        input: u64,
        asked: u64,
        sent: u64,
    ) -> Result<(), NotMade> {
        Err(NotMade::NotEnabled)
    }

    fn can_row(&self, asked: u64, sent: u64) -> bool {
        false
    }

    fn on_row<O: Ops<Item = T>>(
        &mut self,
        alloc: Global,
        ops: &O,
        asked: u64,
        sent: u64,
    ) -> Result<(), NotMade> {
        Err(NotMade::NotEnabled)
    }

    fn want(&self, input: u64, asked: u64, sent: u64) -> u64 {
        0
    }

    #[inline(always)]
    fn accepts_demand(&self, asked: u64, sent: u64) -> bool {
        true
    }

    fn note(&self, alloc: Global) -> Result<Note, NoMemory> {
        Ok(Note::Nothing)
    }

    fn residual<O: Ops<Item = T>>(
        &self,
        alloc: Global,
        ops: &O,
        inboxes: &[StreamValue<T>],
        incoming: &[StreamValue<T>],
    ) -> Result<StreamValue<T>, NoMemory>
        ensures { IfOk result (λ v.
            IsResidualOf (leaf_comes_out (O.meaning ops.now)) (λ n. Nothing) leaf_reads self.now inboxes.now incoming.now v) }
    {
        match inboxes.get(self.hub as usize) {
            Some(value) => self.member.rest(alloc, ops, value.items(), value.ending()),
            None => self.member.rest(alloc, ops, &[], Ending::Open),
        }
    }

    ghost shows = { leaf_shows };

    ghost popped_alike = { leaf_popped_alike };

    ghost drops = { λ m n inc other further e. Prim.search rules };

    ghost ends = { leaf_ends };

    ghost done_drops = { λ m n hubs before after v w further d. Prim.search rules };

    ghost ends_reading = { leaf_ends_reading };

    ghost settles = { λ m n inc. (_, refl) };

    ghost ending_waits = { λ m n asked sent e none more. Prim.search rules };

    ghost hungry = { leaf_hungry };

    ghost asked_enough = { λ n a s e. absurd (true≢false e) };
}
