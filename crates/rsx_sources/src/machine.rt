//! What every node of a tree promises.

ghost use Rattle.std.specs.Prelude.{◌≡◌, ℕ, Bool, List, Option};
ghost use Rattle.rsx_types.specs.Meaning.{Meaning, Allocates};
ghost use Rattle.rsx_types.specs.Stream.{Stream};
ghost use Rattle.rsx_types.specs.declared.note.Note.{Note};
ghost use Rattle.rsx_types.specs.declared.signal.Signal.{Signal};
ghost use Rattle.rsx_sources.specs.Machine.{Incoming};
ghost use Rattle.rsx_sources.specs.Reading.{Reading};
ghost use Rattle.rsx_sources.specs.declared.machine.Front.{Front as FrontSpec};

use rsx_types::{Cause, NoMemory, Note, Ops, Signal, StreamValue};
use std::alloc::Global;

/// Which signal a node offers.
#[derive(Clone, Copy, Debug, PartialEq, Eq)]
pub enum Front {
    /// An item.
    Item,
    /// The completion.
    Completion,
    /// The failure with this cause.
    Failure(Cause),
}

/// Why a node did not take a signal, which comes back.
#[derive(Debug, Drop)]
pub enum NotTaken<T> {
    /// The node can't take a signal of this input now.
    Busy(Signal<T>),
    /// A growth was refused.
    NoMemory(Signal<T>),
}

/// Why a step of a node was not made.
#[derive(Clone, Copy, Debug, PartialEq, Eq)]
pub enum NotMade {
    /// The node can't make it now.
    NotEnabled,
    /// A growth was refused.
    NoMemory,
}

/// What came of an item that was to go through a node in one go.
#[derive(Debug, Drop)]
pub enum Passed<T> {
    /// It was taken in, and this item, the first that the node put out for it, went out again.
    Item(T),
    /// It was taken in, and nothing was put out for it.
    Kept,
    /// It comes back, and the node is as it was.
    Declined(T),
}

/// A node of a tree: it takes the signals of its inputs and offers the signals of its output.
///
/// `comes_out` is the stream value that still comes out, given what still comes in and what is still chosen; it is
/// nothing where the choices don't fit the node. A fresh node's is its operator of what comes in. Each call says how
/// `comes_out` moves, so over any list of calls what came out, followed by what still comes out, is the operator of all
/// that came in under all that was chosen.
pub trait Machine {
    /// An item of the node's streams.
    type Item: Drop;

    /// The stream value that still comes out.
    ghost comes_out: { Meaning Self.Item → Self → Incoming Self.Item → Note → Option (Stream Self.Item) };

    /// The signal that is offered.
    ghost waiting: { Meaning Self.Item → Self → Option (Signal Self.Item) };

    /// Which signal is offered, if one is.
    ghost shown: { Self → Option FrontSpec };

    /// Whether such a signal of an input can be taken.
    ghost takes: { Self → ℕ → FrontSpec → Bool };

    /// Whether an input can be picked, where so much is asked of the node and was sent by it.
    ghost picks: { Self → ℕ → ℕ → ℕ → Bool };

    /// Whether a row can be made, where so much is asked of the node and was sent by it.
    ghost rows: { Self → ℕ → ℕ → Bool };

    /// What a row makes of the node, where so much is asked of it and was sent by it.
    ghost rowed: { Self → ℕ → ℕ → Self → Type 0 };

    /// What the node is once it took in a signal of an input.
    ghost took: { Self → ℕ → Signal Self.Item → Self → Type 0 };

    /// What it is once it took in a signal of the hub that it reads.
    ghost heard: { Self → Signal Self.Item → Self → Type 0 };

    /// What it is once it picked an input.
    ghost picked: { Self → ℕ → Self → Type 0 };

    /// What picking an input adds to what the node recorded.
    ghost recording: { Self → ℕ → Note };

    /// What the node recorded.
    ghost recorded: { Self → Note };

    /// What taking the offered signal out adds to what the node recorded, of a node that records its signals as they go out.
    ghost popping: { Self → Option Note };

    /// Whether the node has put out its ending, so that what still comes in doesn't matter.
    ghost ended: { Self → Bool };

    /// Whether the completion of an input was taken, of a node that has not ended.
    ghost done: { Self → ℕ → Bool };

    /// Whether so many items were taken at each input and so many were sent, of a node that has not ended.
    ghost counted: { Self → List ℕ → ℕ → Type 0 };

    /// What is to be asked of an input in all, where so much is asked of the node and was sent by it.
    ghost wanted: { Self → ℕ → ℕ → ℕ → ℕ };

    /// Whether the node accepts more demand, where so much is asked of it and was sent by it.
    ghost accepts: { Self → ℕ → ℕ → Bool };

    /// The second is the first without the signal that it offered.
    ghost popped: { Self → Signal Self.Item → Self → Type 0 };

    /// How far the node got in the hub that it reads, as long as it takes that hub's signals in.
    ghost reads: { Self → Option Reading };

    /// Whether it has room for an item of that hub.
    ghost rooms: { Self → Bool };

    /// Whether the edge of the node crosses to another region, and has a queue, which belongs to the node.
    ghost crosses: { Self → Bool };

    /// Whether taking the offered signal out may allocate, where these of the caller's functions may.
    ghost pop_allocates: { Allocates → Self → Bool };

    /// Whether taking a signal in may allocate, where these of the caller's functions may.
    ghost signal_allocates: { Allocates → Self → Bool };

    /// Whether a pick or a row may allocate, where these of the caller's functions may.
    ghost step_allocates: { Allocates → Self → Bool };

    ghost use Rattle.std.specs.Prelude.{◌≡◌, ◌<◌, ◌^◌, ◌∷◌, ◌++◌, length, OnOk, OnErr, IfOk, IfErr, IfSome, IfNone, IsOk, Some, None, true, false, option_map};
    ghost use Rattle.std.specs.Option.{is_some};
    ghost use Rattle.rsx_types.specs.Notes.{note_then, unchosen};
    ghost use Rattle.rsx_sources.specs.Counts.{CountsIn, CountsOut, CountsStep, CanStep, IsHungry, NeverSteps, AreWithin, ends_input};
    ghost use Rattle.rsx_sources.specs.Machine.{IsComposed, Keeps, TakesIn, Records, front_of, incoming_of};
    ghost use Rattle.rsx_sources.specs.Offered.{OffersWithin};
    ghost use Rattle.rsx_sources.specs.Passed.{IsPassed, IsSteppedOut};
    ghost use Rattle.rsx_sources.specs.Popping.{IsItemOutBy, IsPoppedBy, IsRecordedBy};
    ghost use Rattle.rsx_sources.specs.Reading.{IsReadOn, IsResidualOf, takes_published, hub_of};
    ghost use Rattle.rsx_sources.specs.Steps.{IsSameKind, StaysAlike, IsNotTaken, IsNotMade};

    /// Which signal is offered, if one is: the first signal that still comes out.
    fn front(&self) -> Option<Front>
        ensures shown { result ≡ shown self.now }
        ensures first { (m : Meaning Self.Item) → result ≡ option_map front_of (waiting m self.now) };

    /// Takes the offered signal out of the node, which records it where `popping` says so. For want of memory it stays, and the
    /// node is unchanged; that comes only where `pop_allocates`.
    fn pop_front<O: Ops<Item = Self::Item>>(
        &mut self,
        alloc: Global,
        ops: &O,
    ) -> Result<Option<Signal<Self::Item>>, NoMemory>
        ensures ok { IfOk result (λ s.
            IsPoppedBy (comes_out (O.meaning ops.now)) popped recorded ended (popping self.old)
            (waiting (O.meaning ops.now) self.old) self.old s self.new) }
        ensures recorded { IsRecordedBy (popping self.old) (recorded self.old) (recorded self.new) }
        ensures counts { IfOk result (λ s. CountsOut counted ended done self.old s self.new) }
        ensures err { OnErr result (self.new ≡ self.old) }
        ensures memory { pop_allocates (O.allocates ops.now) self.old ≡ false → IsOk result }
        ensures alike { StaysAlike reads crosses pop_allocates signal_allocates step_allocates self.old self.new };

    /// Whether taking the offered signal out is recorded.
    fn records_pop(&self) -> bool
        ensures { result ≡ is_some (popping self.now) };

    /// Puts the signal back that was popped last. Then the node is as it was before that.
    fn put_back(&mut self, signal: Signal<Self::Item>)
        ensures { (before : Self) → popped before signal self.old → self.new ≡ before };

    /// Whether the node has put out its ending.
    fn has_ended(&self) -> bool
        ensures { result ≡ ended self.now };

    /// Whether such a signal of this input can be taken.
    fn can_take(&self, input: u64, front: Front) -> bool
        ensures { result ≡ takes self.now input front };

    /// Takes a signal of an input. Where it can't, or for want of memory, the signal comes back and the node is unchanged.
    /// Want of memory comes only where `signal_allocates`.
    fn on_signal<O: Ops<Item = Self::Item>>(
        &mut self,
        alloc: Global,
        ops: &O,
        input: u64,
        signal: Signal<Self::Item>,
    ) -> Result<(), NotTaken<Self::Item>>
        ensures ok { OnOk result (TakesIn (comes_out (O.meaning ops.now)) self.old input signal self.new) }
        ensures enabled { OnOk result (takes self.old input (front_of signal) ≡ true) }
        ensures made { OnOk result (took self.old input signal self.new) }
        ensures recorded { recorded self.new ≡ recorded self.old }
        ensures counts { OnOk result (CountsIn counted ended done self.old input signal self.new) }
        ensures err { IfErr result (IsNotTaken (takes self.old input (front_of signal)) signal) }
        ensures memory { signal_allocates (O.allocates ops.now) self.old ≡ false → IfErr result (λ e. e ≡ NotTaken.Busy signal) }
        ensures alike { StaysAlike reads crosses pop_allocates signal_allocates step_allocates self.old self.new }
        ensures same { OnErr result (self.new ≡ self.old) };

    /// Takes the offered item out, as `pop_front` does. Where it answers nothing the node is unchanged, and `pop_front`
    /// tells the rest: that nothing is offered, an ending, or want of memory.
    fn pop_item<O: Ops<Item = Self::Item>>(&mut self, alloc: Global, ops: &O) -> Option<Self::Item>
        ensures some { IfSome result (λ x.
            IsItemOutBy (comes_out (O.meaning ops.now)) (waiting (O.meaning ops.now))
            popped recorded counted ended done (popping self.old) self.old x self.new) }
        ensures alike { StaysAlike reads crosses pop_allocates signal_allocates step_allocates self.old self.new }
        ensures none { IfNone result (self.new ≡ self.old) };

    /// Takes an item of an input in, as `on_signal` does, and takes the item out that the node puts out for it, as
    /// `pop_front` does; the item doesn't have to wait in the node. A node may decline any item, and declines those by
    /// which it would end and those for which it finds no memory; then the item comes back, the node is unchanged, and the
    /// two calls do the work.
    fn pass<O: Ops<Item = Self::Item>>(
        &mut self,
        alloc: Global,
        ops: &O,
        input: u64,
        item: Self::Item,
    ) -> Passed<Self::Item>
        ensures passed { IsPassed (comes_out (O.meaning ops.now)) (waiting (O.meaning ops.now))
            takes popped recorded counted ended done self.old input item result self.new }
        ensures alike { StaysAlike reads crosses pop_allocates signal_allocates step_allocates self.old self.new };

    /// The number of the hub that the node reads, as long as it takes that hub's signals in.
    fn hub(&self) -> Option<u64>
        ensures { result ≡ option_map hub_of (reads self.now) };

    /// Whether the node has room for an item of the hub that it reads. An ending needs none.
    fn has_room(&self) -> bool
        ensures { result ≡ rooms self.now };

    /// Takes in the next signal of the hub that the node reads. It takes no memory. The signal comes back where the node reads
    /// no hub, and where it has no room for an item; then the node is unchanged.
    fn on_published(&mut self, signal: Signal<Self::Item>) -> Result<(), Signal<Self::Item>>
        ensures ok { OnOk result (IsReadOn comes_out reads self.old signal self.new) }
        ensures enabled { OnOk result (takes_published (reads self.old) (rooms self.old) signal ≡ true) }
        ensures made { OnOk result (heard self.old signal self.new) }
        ensures recorded { recorded self.new ≡ recorded self.old }
        ensures counts { OnOk result (CountsStep counted ended done self.old self.new) }
        ensures refused { OnErr result (takes_published (reads self.old) (rooms self.old) signal ≡ false) }
        ensures err { IfErr result (λ s. s ≡ signal) }
        ensures alike { IsSameKind crosses pop_allocates signal_allocates step_allocates self.old self.new }
        ensures same { OnErr result (self.new ≡ self.old) };

    /// Whether an input can be picked, where `asked` is asked of the node and it sent `sent` items.
    fn can_pick(&self, input: u64, asked: u64, sent: u64) -> bool
        ensures { result ≡ picks self.now input asked sent };

    /// An input that can be picked, if there is one.
    fn next_pick(&self, asked: u64, sent: u64) -> Option<u64>
        ensures some { IfSome result (λ i. picks self.now i asked sent ≡ true) }
        ensures none { IfNone result ((i : ℕ) → i < 2 ^ 64 → picks self.now i asked sent ≡ false) };

    /// Picks an input: takes its next signal, and records the choice. Want of memory comes only where `step_allocates`.
    fn on_pick<O: Ops<Item = Self::Item>>(
        &mut self,
        alloc: Global,
        ops: &O,
        input: u64,
        asked: u64,
        sent: u64,
    ) -> Result<(), NotMade>
        ensures ok { OnOk result (Records (comes_out (O.meaning ops.now)) self.old (recording self.old input) self.new) }
        ensures enabled { OnOk result (picks self.old input asked sent ≡ true) }
        ensures made { OnOk result (picked self.old input self.new) }
        ensures recorded { OnOk result (recorded self.new ≡ note_then (recorded self.old) (recording self.old input)) }
        ensures composes { OnOk result (IsComposed (recorded self.old) (recording self.old input)) }
        ensures counts { OnOk result (CountsStep counted ended done self.old self.new) }
        ensures err { IfErr result (IsNotMade (picks self.old input asked sent)) }
        ensures memory { step_allocates (O.allocates ops.now) self.old ≡ false → IfErr result (λ e. e ≡ NotMade.NotEnabled) }
        ensures alike { StaysAlike reads crosses pop_allocates signal_allocates step_allocates self.old self.new }
        ensures same { OnErr result (self.new ≡ self.old) };

    /// Whether a row can be made, where `asked` is asked of the node and it sent `sent` items.
    fn can_row(&self, asked: u64, sent: u64) -> bool
        ensures { result ≡ rows self.now asked sent };

    /// Makes a row of the next item of each input. Want of memory comes only where `step_allocates`.
    fn on_row<O: Ops<Item = Self::Item>>(
        &mut self,
        alloc: Global,
        ops: &O,
        asked: u64,
        sent: u64,
    ) -> Result<(), NotMade>
        ensures ok { OnOk result (Keeps (comes_out (O.meaning ops.now)) self.old self.new) }
        ensures enabled { OnOk result (rows self.old asked sent ≡ true) }
        ensures rowed { OnOk result (rowed self.old asked sent self.new) }
        ensures recorded { recorded self.new ≡ recorded self.old }
        ensures counts { OnOk result (CountsStep counted ended done self.old self.new) }
        ensures err { IfErr result (IsNotMade (rows self.old asked sent)) }
        ensures memory { step_allocates (O.allocates ops.now) self.old ≡ false → IfErr result (λ e. e ≡ NotMade.NotEnabled) }
        ensures alike { StaysAlike reads crosses pop_allocates signal_allocates step_allocates self.old self.new }
        ensures same { OnErr result (self.new ≡ self.old) };

    /// Whether the node never picks an input nor makes a row, so that nobody has to ask it. The answer no promises nothing.
    #[inline(always)]
    fn never_steps(&self) -> bool
        ensures { result ≡ true → NeverSteps picks rows self.now }
    {
        false
    }

    /// Whether a step of the node mostly gives an item out at once ([`Machine::step_item`]), so that it is worth to try that before a
    /// look for a step. The answer promises nothing.
    #[inline(always)]
    fn steps_out(&self) -> bool {
        false
    }

    /// Makes a pick or a row, as `next_pick` and `on_pick`, or `on_row`, do, and takes the item out that the node then offers, as
    /// `pop_item` does; the item doesn't have to wait in the node. A node may answer nothing to any call; then it is unchanged,
    /// and those calls do the work.
    #[inline(always)]
    fn step_item<O: Ops<Item = Self::Item>>(
        &mut self,
        alloc: Global,
        ops: &O,
        asked: u64,
        sent: u64,
    ) -> Option<Self::Item>
        ensures out { IsSteppedOut (comes_out (O.meaning ops.now)) (waiting (O.meaning ops.now))
            picks rows rowed popped recording recorded counted ended done self.old asked sent result self.new }
        ensures alike { StaysAlike reads crosses pop_allocates signal_allocates step_allocates self.old self.new }
    {
        None
    }

    /// What is to be asked of an input in all, where `asked` is asked of the node and it sent `sent` items.
    fn want(&self, input: u64, asked: u64, sent: u64) -> u64
        ensures { result ≡ wanted self.now input asked sent };

    /// Whether the node accepts more demand, where `asked` is asked of it and it sent `sent` items. A node whose edge crosses to another
    /// region doesn't once its ending stands in the queue of that edge, since no item comes behind the ending. Every other node does.
    fn accepts_demand(&self, asked: u64, sent: u64) -> bool
        ensures { result ≡ accepts self.now asked sent };

    /// What the node recorded.
    fn note(&self, alloc: Global) -> Result<Note, NoMemory>
        ensures { IfOk result (λ n. n ≡ recorded self.now) };

    /// The stream value that still comes out, where just these values come in, just what stands in their inboxes is still
    /// published at the hubs, and nothing more is chosen.
    fn residual<O: Ops<Item = Self::Item>>(
        &self,
        alloc: Global,
        ops: &O,
        inboxes: &[StreamValue<Self::Item>],
        incoming: &[StreamValue<Self::Item>],
    ) -> Result<StreamValue<Self::Item>, NoMemory>
        ensures { IfOk result (λ v. IsResidualOf (comes_out (O.meaning ops.now)) recorded reads self.now inboxes.now incoming.now v) };

    /// What is shown is the signal that waits, whatever the caller's functions mean.
    ghost shows: { (m : Meaning Self.Item) (n : Self) → shown n ≡ option_map front_of (waiting m n) };

    /// Taking the offered signal out, and putting it back, leaves how far the node got in its hub as it is, and what no call
    /// changes: whether its edge crosses, and what may allocate. So of a node none of whose calls may at the start, none ever may.
    ghost popped_alike: { (old : Self) (s : Signal Self.Item) (new : Self) → popped old s new → StaysAlike reads crosses pop_allocates signal_allocates step_allocates old new };

    /// What comes in no longer matters to a node that has ended.
    ghost drops: { (m : Meaning Self.Item) (n : Self) (inc other : Incoming Self.Item) (further : Note) → ended n ≡ true → comes_out m n inc further ≡ comes_out m n other further };

    /// Nor does it matter to a node that offers its ending.
    ghost ends: { (m : Meaning Self.Item) (n : Self) (s : Signal Self.Item) (inc other : Incoming Self.Item) (further : Note) → waiting m n ≡ Some s → ends_input s ≡ true → comes_out m n inc further ≡ comes_out m n other further };

    /// What comes in at an input whose completion was taken no longer matters.
    ghost done_drops: { (m : Meaning Self.Item) (n : Self) (hubs before after : List (Stream Self.Item)) (v w : Stream Self.Item) (further : Note) → done n (length before) ≡ true → comes_out m n (incoming_of hubs (before ++ v ∷ after)) further ≡ comes_out m n (incoming_of hubs (before ++ w ∷ after)) further };

    /// A node that offers its ending reads no hub.
    ghost ends_reading: { (m : Meaning Self.Item) (n : Self) (s : Signal Self.Item) → waiting m n ≡ Some s → ends_input s ≡ true → reads n ≡ None };

    /// Where nothing more is chosen, something comes out.
    ghost settles: { (m : Meaning Self.Item) (n : Self) (inc : Incoming Self.Item) → (v : Stream Self.Item) × (comes_out m n inc (unchosen (recorded n)) ≡ Some v) };

    /// A node that has ended and offers nothing, and of which more is asked than it sent, can make a step: its ending, or an
    /// item in front of that, is still in it.
    ghost ending_waits: { (m : Meaning Self.Item) (n : Self) (asked sent : ℕ) → ended n ≡ true → waiting m n ≡ None → sent < asked → CanStep picks rows n asked sent };

    /// A node that offers nothing, and of which more is asked than it sent, can make a step, or wants more at an input, or
    /// waits for the hub that it reads.
    ghost hungry: { (m : Meaning Self.Item) (n : Self) (taken : List ℕ) (asked sent : ℕ) → ended n ≡ false → counted n taken sent → waiting m n ≡ None → sent < asked → AreWithin taken → IsHungry takes picks rows done wanted reads n taken asked sent };

    /// A node that accepts no more demand was asked for enough: it offers a signal that may go as things stand.
    ghost asked_enough: { (n : Self) (asked sent : ℕ) → accepts n asked sent ≡ false → OffersWithin (shown n) asked sent };
}
