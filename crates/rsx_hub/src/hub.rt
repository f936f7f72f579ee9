//! The hub: an inbox, and what it keeps for new members.

ghost use Rattle.std.specs.Prelude.{◌≡◌, ◌≢◌, ◌+◌, ◌<◌, ◌≤◌, ◌↔◌, ◌++◌, [], true, false, length, reverse, vec_len, vec_capacity, IfOk, IfErr, OnOk, OnErr, IsOk, IsTrue, List, option_map, option_copied, slice_get};
ghost use Rattle.circular_buffer.specs.Buffer.{buffer};
ghost use Rattle.rsx_types.specs.declared.signal.Cause.TheVariants.{User};
ghost use Rattle.rsx_types.specs.declared.signal.Ending.TheVariants.{Done, Failed};
ghost use Rattle.rsx_types.specs.declared.signal.Signal.TheVariants.{Next};
ghost use Rattle.rsx_sources.specs.Machine.{front_of};
ghost use Rattle.rsx_hub.specs.Hub as spec;
ghost use Rattle.rsx_hub.specs.Hub.{replayed, fresh_hub, IsNotMade, accepts_items, emitted, IsRejected, ended_with, waiting, taken_in, accepted, all_accepted, takes_signal, AreTakenIn, IsNotTakenIn, HasTakenIn, IsNotCounted, kept_copy, IsNotAdmitted, with_members};
ghost use Rattle.rsx_hub.specs.Member.{fresh_member, ReadsFromJoin};
ghost use Rattle.rsx_hub.specs.Waiting.{is_open};
ghost use Rattle.rsx_hub.specs.declared.TheConstants.{MOST_ACCEPTED, MOST_MEMBERS};

use crate::member::Member;
use crate::refusal::{AdmitRefusal, HasEnded, HubRefusal, Rejected, TakeInRefusal};
use crate::{LARGEST, MOST_ACCEPTED, MOST_MEMBERS, ending};
use circular_buffer::HeapCircularBuffer;
use rsx_sources::Front;
use rsx_types::{Cause, Ending, HubKind, NoMemory, Ops, Signal, StreamValue};
use std::alloc::Global;
use std::marker::Model;

/// A stream that several members read: an inbox of what was emitted, how much was taken in from there, and the last items
/// of that, which a new member gets.
///
/// Contracts see a record: `kind`, `capacity`, the `inbox`, the `ending` of its emitter, the `count` of the items taken in,
/// those of them that are `kept`, whether its ending was taken in (`has_ended`), and how many `members` it has had.
#[derive(Drop)]
pub struct Hub<T> {
    kind: HubKind,
    capacity: u64,
    inbox: HeapCircularBuffer<T>,
    ending: Ending,
    count: u64,
    kept: HeapCircularBuffer<T>,
    has_ended: bool,
    members: u64,
}

impl<T> Model for Hub<T> {
    ghost use Rattle.std.specs.Prelude.{◌≡◌, ◌*◌};
    ghost use Rattle.rsx_hub.specs.Hub.{HubState, IsHub, replayed};

    ghost Value = { HubState T };

    ghost view = { λ h. record { kind = h.kind; capacity = h.capacity; inbox = h.inbox.items; ending = h.ending; count = h.count; kept = h.kept.items; has_ended = h.has_ended; members = h.members } };

    ghost invariant = { λ h. IsHub (record { kind = h.kind; capacity = h.capacity; inbox = h.inbox.items; ending = h.ending; count = h.count; kept = h.kept.items; has_ended = h.has_ended; members = h.members }) × (h.inbox.capacity ≡ 2 * h.capacity) × (h.kept.capacity ≡ replayed h.kind) };
}

/// How many of the items that it took in a hub of this kind keeps.
fn replayed(kind: HubKind) -> u64
    ensures { result ≡ spec.replayed kind }
{
    match kind {
        HubKind::Multicast => 0,
        HubKind::Replay(items) => items,
    }
}

/// Whether the capacity and the number of a replay are in their limits.
fn are_numbers(kind: HubKind, capacity: u64) -> bool
    ensures { result ≡ spec.are_numbers kind capacity }
{
    let is_capacity = 1 <= capacity && capacity <= LARGEST;
    match kind {
        HubKind::Multicast => is_capacity,
        HubKind::Replay(items) => is_capacity && 1 <= items && items <= LARGEST,
    }
}

/// Moves all items of a buffer behind those in the list, the last one first. There is room for them.
fn move_reversed<T: Drop>(from: &mut HeapCircularBuffer<T>, items: &mut Vec<T>)
    requires { vec_len items.old + length from.old.items ≤ vec_capacity items.old }
    ensures items { items.new.items ≡ items.old.items ++ reverse from.old.items }
    ensures empty { from.new ≡ buffer [] from.old.capacity }
{
    while let Some(item) = from.pop_back() {
        items.push_reserved(item);
    }
}

impl<T: Drop> Hub<T> {
    /// A hub into which nothing was emitted yet, with memory for twice as many items as its capacity in its inbox, and for
    /// those that a replay keeps.
    ///
    /// # Errors
    /// - [`HubRefusal::BadNumber`] where the capacity or the number of the replay is not 1 to 1,024.
    /// - [`HubRefusal::NoMemory`] where a growth was refused.
    pub fn new(alloc: Global, kind: HubKind, capacity: u64) -> Result<Hub<T>, HubRefusal>
        ensures made { IfOk result (λ h. h ≡ fresh_hub kind capacity) }
        ensures nothing { IfOk result (λ h. HasTakenIn h []) }
        ensures numbers { OnOk result (spec.are_numbers kind capacity ≡ true) }
        ensures err { IfErr result (λ e. IsNotMade e kind capacity) }
    {
        if !are_numbers(kind, capacity) {
            return Err(HubRefusal::BadNumber);
        }
        let inbox = HeapCircularBuffer::with_capacity(alloc, 2 * capacity as usize)?;
        let kept = HeapCircularBuffer::with_capacity(alloc, replayed(kind) as usize)?;
        Ok(Hub {
            kind,
            capacity,
            inbox,
            ending: Ending::Open,
            count: 0,
            kept,
            has_ended: false,
            members: 0,
        })
    }

    /// Puts an item at the back of the inbox. It takes no memory.
    ///
    /// # Errors
    /// Nothing has changed, and the item comes back, for the first of these reasons:
    /// - [`Rejected::Ended`] where the hub has ended by [`Hub::complete`], [`Hub::fail`] or its feed (rule 1.7).
    /// - [`Rejected::TooMany`] where it has accepted 2^63 - 1 items.
    /// - [`Rejected::Full`] where the inbox holds as many items as the hub's capacity, or more.
    pub fn emit(&mut self, item: T) -> Result<(), Rejected<T>>
        ensures enabled { OnOk result (accepts_items self.old ≡ true) }
        ensures ok { OnOk result (self.new ≡ emitted self.old item) }
        ensures err { IfErr result (λ e. IsRejected self.old item e) }
        ensures same { OnErr result (self.new ≡ self.old) }
    {
        if !ending::is_open(self.ending) {
            return Err(Rejected::Ended(item));
        }
        if self.count + self.len() >= MOST_ACCEPTED {
            return Err(Rejected::TooMany(item));
        }
        if self.len() >= self.capacity {
            return Err(Rejected::Full(item));
        }
        // There is storage for twice the capacity, so the item is not handed back.
        let _ = self.inbox.try_push_back(item);
        Ok(())
    }

    /// Completes the hub: its completion waits behind the items of the inbox (rule 1.5). It takes no memory.
    ///
    /// # Errors
    /// [`HasEnded`] where the hub has ended already (rule 1.7). Nothing has changed.
    pub fn complete(&mut self) -> Result<(), HasEnded>
        ensures enabled { OnOk result (is_open self.old.ending ≡ true) }
        ensures ok { OnOk result (self.new ≡ ended_with self.old Done) }
        ensures err { OnErr result (is_open self.old.ending ≡ false) }
        ensures same { OnErr result (self.new ≡ self.old) }
    {
        self.end(Ending::Done)
    }

    /// Fails the hub with this number: its failure waits behind the items of the inbox (rule 1.4). It takes no memory.
    ///
    /// # Errors
    /// [`HasEnded`] where the hub has ended already (rule 1.7). Nothing has changed.
    pub fn fail(&mut self, number: u32) -> Result<(), HasEnded>
        ensures enabled { OnOk result (is_open self.old.ending ≡ true) }
        ensures ok { OnOk result (self.new ≡ ended_with self.old (Failed (User number))) }
        ensures err { OnErr result (is_open self.old.ending ≡ false) }
        ensures same { OnErr result (self.new ≡ self.old) }
    {
        self.end(Ending::Failed(Cause::User(number)))
    }

    fn end(&mut self, ending: Ending) -> Result<(), HasEnded>
        requires { is_open ending ≡ false }
        ensures enabled { OnOk result (is_open self.old.ending ≡ true) }
        ensures ok { OnOk result (self.new ≡ ended_with self.old ending) }
        ensures err { OnErr result (is_open self.old.ending ≡ false) }
        ensures same { OnErr result (self.new ≡ self.old) }
    {
        if !ending::is_open(self.ending) {
            return Err(HasEnded);
        }
        self.ending = ending;
        Ok(())
    }

    /// Which signal waits in front of the inbox, for [`Hub::accept`]: an item, or the ending where no item waits and the
    /// ending was not taken in yet.
    pub fn front(&self) -> Option<Front>
        ensures { result ≡ option_map front_of (waiting self.now) }
    {
        if !self.inbox.is_empty() {
            return Some(Front::Item);
        }
        if self.has_ended {
            return None;
        }
        ending::front(self.ending)
    }

    /// The item in front of the inbox, if one waits.
    pub fn front_item(&self) -> Option<&T>
        ensures { option_copied result ≡ slice_get self.now.inbox 0 }
    {
        self.inbox.front()
    }

    /// How many items wait in the inbox.
    pub fn len(&self) -> u64
        ensures { result ≡ length self.now.inbox }
    {
        self.inbox.len() as u64
    }

    /// What waits in the inbox: copies of its items, and behind them how the hub's emitter ended, if it did.
    ///
    /// # Errors
    /// [`NoMemory`] where a growth was refused.
    pub fn inbox<O: Ops<Item = T>>(
        &self,
        alloc: Global,
        ops: &O,
    ) -> Result<StreamValue<T>, NoMemory>
        ensures { IfOk result (λ v. v ≡ record { items = self.now.inbox; ending = self.now.ending }) }
    {
        let mut items = Vec::new(alloc);
        for item in &self.inbox {
            let copy = ops.copy(alloc, item)?;
            items.push(copy)?;
        }
        Ok(StreamValue::new(items, self.ending))
    }

    /// Whether the hub keeps no items for new members: it is a multicast hub.
    pub fn keeps_none(&self) -> bool
        ensures { IsTrue result ↔ (replayed self.now.kind ≡ 0) }
    {
        replayed(self.kind) == 0
    }

    /// Puts copies of the items of the inbox behind those in the list, the last one first.
    ///
    /// # Errors
    /// [`NoMemory`] where a growth was refused.
    pub fn copy_inbox<O: Ops<Item = T>>(
        &self,
        alloc: Global,
        ops: &O,
        items: &mut Vec<T>,
    ) -> Result<(), NoMemory>
        ensures { OnOk result (items.new.items ≡ items.old.items ++ reverse self.now.inbox) }
    {
        for item in self.inbox.iter().rev() {
            let copy = ops.copy(alloc, item)?;
            items.push(copy)?;
        }
        Ok(())
    }

    /// Takes all items of the inbox in, one after the other, and puts them behind those in the list, the last one first: the
    /// caller hands them to the members. The hub keeps no items for new members ([`Hub::keeps_none`]).
    ///
    /// # Errors
    /// [`NoMemory`] where room for them in the list was refused. Nothing has changed.
    pub fn accept_all(&mut self, items: &mut Vec<T>) -> Result<(), NoMemory>
        requires multicast { replayed self.old.kind ≡ 0 }
        ensures items { OnOk result (items.new.items ≡ items.old.items ++ reverse self.old.inbox) }
        ensures state { OnOk result (self.new ≡ all_accepted self.old) }
        ensures same { OnErr result ((self.new ≡ self.old) × (items.new.items ≡ items.old.items)) }
    {
        items.reserve(self.inbox.len())?;
        self.count += self.len();
        move_reversed(&mut self.inbox, items);
        Ok(())
    }

    /// Takes the signal in that waits in front of the inbox, if one does, and answers it: the caller hands it to the
    /// members. An item is counted, and a replay keeps a copy of it.
    ///
    /// # Errors
    /// [`NoMemory`] where the copy was refused; a multicast hub copies nothing. Nothing has changed.
    pub fn accept<O: Ops<Item = T>>(
        &mut self,
        alloc: Global,
        ops: &O,
    ) -> Result<Option<Signal<T>>, NoMemory>
        ensures signal { IfOk result (λ s. s ≡ waiting self.old) }
        ensures state { IfOk result (λ s. self.new ≡ accepted self.old s) }
        ensures err { OnErr result (self.new ≡ self.old) }
        ensures allocates { (O.allocates ops.now).copied ≡ false → IsOk result }
        ensures multicast { replayed self.old.kind ≡ 0 → IsOk result }
    {
        match self.front_item() {
            Some(item) => {
                let copy = self.kept_copy(alloc, ops, item)?;
                let taken = self.inbox.pop_front();
                self.keep(copy);
                Ok(taken.map(Signal::Next))
            }
            None => Ok(self.take_ending()),
        }
    }

    /// A copy of an item for those that the hub keeps, if it keeps any.
    fn kept_copy<O: Ops<Item = T>>(
        &self,
        alloc: Global,
        ops: &O,
        item: &T,
    ) -> Result<Option<T>, NoMemory>
        ensures copy { IfOk result (λ c. c ≡ kept_copy self.now.kind item.now) }
        ensures allocates { (O.allocates ops.now).copied ≡ false → IsOk result }
        ensures multicast { replayed self.now.kind ≡ 0 → IsOk result }
    {
        if replayed(self.kind) == 0 {
            return Ok(None);
        }
        let copy = ops.copy(alloc, item)?;
        Ok(Some(copy))
    }

    /// Counts an item, and keeps its copy.
    fn keep(&mut self, copy: Option<T>)
        requires { self.old.count + length self.old.inbox < MOST_ACCEPTED }
        ensures { (item : T) → copy ≡ kept_copy self.old.kind item → self.new ≡ taken_in self.old (Next item) }
    {
        self.count += 1;
        if let Some(item) = copy {
            self.kept.push_back(item);
        }
    }

    /// Takes the ending in that waits, if one does.
    fn take_ending(&mut self) -> Option<Signal<T>>
        requires { self.old.inbox ≡ [] }
        ensures signal { result ≡ waiting self.old }
        ensures state { self.new ≡ accepted self.old result }
    {
        if self.has_ended {
            return None;
        }
        let signal = ending::signal(self.ending);
        self.has_ended = signal.is_some();
        signal
    }

    /// Takes a signal in that the hub's feed sends. It stays with the caller, who hands it to the members. An item is
    /// counted, and a replay keeps a copy of it; an ending ends the hub.
    ///
    /// # Errors
    /// Nothing has changed, for the first of these reasons:
    /// - [`TakeInRefusal::Ended`] where the hub has ended already (rule 1.7).
    /// - [`TakeInRefusal::Waiting`] where items wait in the inbox. A hub has either an emitter or a feed.
    /// - [`TakeInRefusal::TooMany`] where the signal is an item and the hub has accepted 2^63 - 1 of them.
    /// - [`TakeInRefusal::NoMemory`] where the copy of an item was refused; a multicast hub copies nothing.
    pub fn take_in<O: Ops<Item = T>>(
        &mut self,
        alloc: Global,
        ops: &O,
        signal: &Signal<T>,
    ) -> Result<(), TakeInRefusal>
        ensures enabled { OnOk result (takes_signal self.old signal.now ≡ true) }
        ensures ok { OnOk result (self.new ≡ taken_in self.old signal.now) }
        ensures err { IfErr result (λ e. IsNotTakenIn self.old signal.now e) }
        ensures same { OnErr result (self.new ≡ self.old) }
        ensures allocates { (O.allocates ops.now).copied ≡ false → IfErr result (λ e. e ≢ TakeInRefusal.NoMemory) }
        ensures multicast { replayed self.old.kind ≡ 0 → IfErr result (λ e. e ≢ TakeInRefusal.NoMemory) }
    {
        if !ending::is_open(self.ending) {
            return Err(TakeInRefusal::Ended);
        }
        if !self.inbox.is_empty() {
            return Err(TakeInRefusal::Waiting);
        }
        match signal {
            Signal::Next(item) => self.take_in_item(alloc, ops, item),
            Signal::Complete => {
                self.take_in_ending(Ending::Done);
                Ok(())
            }
            Signal::Error(cause) => {
                self.take_in_ending(Ending::Failed(*cause));
                Ok(())
            }
        }
    }

    /// Whether the hub takes so many items in from its feed one after the other, and keeps none of them for new members: it has not
    /// ended, nothing waits in its inbox, and it has accepted at most 2^63 - 1 items with these.
    pub fn takes_many(&self, items: u64) -> bool
        ensures { result ≡ spec.takes_many self.now items }
    {
        if !ending::is_open(self.ending) || !self.inbox.is_empty() || !self.keeps_none() {
            return false;
        }
        items <= MOST_ACCEPTED - self.count
    }

    /// Takes so many items in that the hub's feed sends, one after the other. It takes them in ([`Hub::takes_many`]). They stay with
    /// the caller, who hands them to the members. It takes no memory.
    pub fn take_in_many(&mut self, items: u64)
        requires { spec.takes_many self.old items ≡ true }
        ensures { (xs : List T) → length xs ≡ items → AreTakenIn self.old xs self.new }
    {
        self.count += items;
    }

    /// Whether the hub takes a signal like this in from its feed ([`Hub::take_in`]), memory aside: it has not ended, nothing
    /// waits in its inbox, and for an item it has accepted fewer than 2^63 - 1 of them.
    pub fn takes(&self, front: Front) -> bool
        ensures { (s : Signal T) → front ≡ front_of s → result ≡ takes_signal self.now s }
    {
        if !ending::is_open(self.ending) || !self.inbox.is_empty() {
            return false;
        }
        match front {
            Front::Item => self.count < MOST_ACCEPTED,
            Front::Completion => true,
            Front::Failure(_) => true,
        }
    }

    fn take_in_item<O: Ops<Item = T>>(
        &mut self,
        alloc: Global,
        ops: &O,
        item: &T,
    ) -> Result<(), TakeInRefusal>
        requires { self.old.inbox ≡ [] }
        ensures enabled { OnOk result (self.old.count < MOST_ACCEPTED) }
        ensures ok { OnOk result (self.new ≡ taken_in self.old (Next item.now)) }
        ensures err { IfErr result (λ e. IsNotCounted self.old e) }
        ensures same { OnErr result (self.new ≡ self.old) }
        ensures allocates { (O.allocates ops.now).copied ≡ false → IfErr result (λ e. e ≢ TakeInRefusal.NoMemory) }
        ensures multicast { replayed self.old.kind ≡ 0 → IfErr result (λ e. e ≢ TakeInRefusal.NoMemory) }
    {
        if self.count >= MOST_ACCEPTED {
            return Err(TakeInRefusal::TooMany);
        }
        let copy = self.kept_copy(alloc, ops, item)?;
        self.keep(copy);
        Ok(())
    }

    fn take_in_ending(&mut self, ending: Ending)
        requires open { is_open ending ≡ false }
        requires empty { self.old.inbox ≡ [] }
        ensures { self.new ≡ record self.old { ending = ending; has_ended = true } }
    {
        self.ending = ending;
        self.has_ended = true;
    }

    /// How many items the hub has taken in.
    pub fn count(&self) -> u64
        ensures { result ≡ self.now.count }
    {
        self.count
    }

    /// How many items a member misses that joins now: those taken in, without the last ones that a replay keeps.
    pub fn join(&self) -> u64
        ensures { result ≡ spec.join self.now.kind self.now.count }
    {
        self.count.saturating_sub(replayed(self.kind))
    }

    /// Whether the hub's ending was taken in.
    pub fn has_ended(&self) -> bool
        ensures { result ≡ self.now.has_ended }
    {
        self.has_ended
    }

    /// How many members the hub has had, 0 to 64.
    pub fn members(&self) -> u64
        ensures members { result ≡ self.now.members }
        ensures within { result ≤ MOST_MEMBERS }
    {
        self.members
    }

    /// Whether there is place for so many new members.
    pub fn has_place_for(&self, members: u64) -> bool
        ensures { IsTrue result ↔ (self.now.members + members ≤ MOST_MEMBERS) }
    {
        members <= MOST_MEMBERS - self.members
    }

    /// A member that begins with copies of the items that a replay keeps, and with the hub's ending behind them where that
    /// was taken in. It joins once it is counted in ([`Hub::count_in`]); until then nobody has joined.
    ///
    /// # Errors
    /// [`NoMemory`] where a growth was refused.
    pub fn member<O: Ops<Item = T>>(&self, alloc: Global, ops: &O) -> Result<Member<T>, NoMemory>
        ensures made { IfOk result (λ m. m ≡ fresh_member self.now) }
        // It stands for the hub's whole value without its first items, as many as the join says.
        ensures value { IfOk result (λ m. ReadsFromJoin self.now m) }
    {
        let mut member = Member::empty(alloc, self.capacity, replayed(self.kind), self.count)?;
        for item in &self.kept {
            let copy = ops.copy(alloc, item)?;
            member.replay(copy);
        }
        if self.has_ended {
            member.end(self.ending);
        }
        Ok(member)
    }

    /// Counts new members in. There is place for them ([`Hub::has_place_for`]).
    pub fn count_in(&mut self, members: u64)
        requires { self.old.members + members ≤ MOST_MEMBERS }
        ensures { self.new ≡ with_members self.old members }
    {
        self.members += members;
    }

    /// One new member: [`Hub::has_place_for`], [`Hub::member`] and [`Hub::count_in`] in one.
    ///
    /// # Errors
    /// Nothing has changed:
    /// - [`AdmitRefusal::TooMany`] where the hub has had 64 members.
    /// - [`AdmitRefusal::NoMemory`] where a growth was refused.
    pub fn admit<O: Ops<Item = T>>(
        &mut self,
        alloc: Global,
        ops: &O,
    ) -> Result<Member<T>, AdmitRefusal>
        ensures place { OnOk result (self.old.members < MOST_MEMBERS) }
        ensures made { IfOk result (λ m. m ≡ fresh_member self.old) }
        ensures state { OnOk result (self.new ≡ with_members self.old 1) }
        ensures value { IfOk result (λ m. ReadsFromJoin self.old m) }
        ensures err { IfErr result (λ e. IsNotAdmitted self.old e) }
        ensures same { OnErr result (self.new ≡ self.old) }
    {
        if !self.has_place_for(1) {
            return Err(AdmitRefusal::TooMany);
        }
        let member = self.member(alloc, ops)?;
        self.count_in(1);
        Ok(member)
    }
}
