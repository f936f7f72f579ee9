//! The gate, its seats and its pass.

ghost use Rattle.std.specs.Prelude.{◌≡◌};

use crate::plays::{Cut, Entering, GivingUp, Glue, Leaving, Marking};
use crate::rule::{Kept, Serial};
use crate::view::View;
use atomic_table::{Refused, Table};
use std::alloc::{AllocError, Global};

/// What a thread enters by. It takes no bytes, has no lifetime, and can be sent to another thread.
///
/// In the proofs it knows the steps that were made with it and what each found ([`View`]). It may be dropped; then no seat has all parts again.
pub type Seat<T, K> = atomic_table::Seat<T, View<K>>;

/// A value that one holder at a time works on. It is shared by reference, and its value fits its key whenever no one has the pass.
#[derive(Drop)]
pub struct Gate<T: Kept<K>, K> {
    table: Table<T, View<K>, K, Serial<T>, Global>,
    ghost sized: { (table.shared.table_id.words ≡ 1) × (table.shared.table_id.slots ≡ 1) },
}

/// The answer of an enter that found the gate held: the holder will find a note, and its next leave is Missed unless it marks first.
#[derive(Drop)]
pub struct Noted;

/// The answer of a holder that gave up: others may have entered, and someone has to enter again to see to their work.
#[derive(Drop)]
pub struct More;

/// The right to work on the value, which at most one seat has. It borrows that seat.
///
/// It has no `Drop`, and ends by [`Pass::leave`] with Gone or by [`Pass::give_up`], so the gate can't stay held by oversight.
pub struct Pass<'a, T, K> {
    seat: &'a mut Seat<T, K>,
}

/// What a leave found.
pub enum Left<'a, T, K> {
    /// Someone entered since the last mark, or none was made: the pass stays.
    Missed(Pass<'a, T, K>),
    /// No one entered since the last mark: the gate is free.
    Gone,
}

impl<T: Kept<K>, K> Gate<T, K> {
    ghost use Rattle.std.specs.Prelude.{◌∷◌, [], ◌<◌, ◌≤◌, IfOk, IfErr, IsOk, MatchBool, Some};
    ghost use Rattle.rsx_gate.specs.Seats.{IsSeatOf, IsGone, IsMissed, IsNoted, Entered, Marked, GaveUp, Holds, Stands, key_of, lends_of_seat};
    ghost use Rattle.std.specs.Borrow.{sem};
    ghost use Rattle.rsx_gate.specs.Machine.{founder, newcomer, all_parts};
    ghost use Rattle.rsx_gate.specs.Plays.{fewer, joined};

    /// A free gate with this value and key, and its first seat, which has all parts. The key serves the proofs alone, and nothing of it is kept.
    ///
    /// # Errors
    ///
    /// The value comes back as it was, where there was no memory for the gate.
    pub fn new(alloc: Global, value: T, key: &K) -> Result<(Gate<T, K>, Seat<T, K>), T>
        requires { T.fits key.now value }
        ensures ok { IfOk result (λ r. (key_of r.0 ≡ key.now) × IsSeatOf r.0 r.1 × (r.1.me.0 ≡ founder key.now)) }
        ensures err { IfErr result (λ v. v ≡ value) }
    {
        let mut slots = match Vec::with_capacity(alloc, 1) {
            Ok(slots) => slots,
            Err(AllocError) => return Err(value),
        };
        slots.push_reserved(value);
        match Table::new(alloc, &[0], slots, key) {
            Ok((table, seat)) => Ok((Gate { table }, seat)),
            Err(Refused { mut slots }) => {
                let value = slots.pop().unwrap();
                slots.destroy_empty();
                Err(value)
            }
        }
    }

    /// A new seat, which has made no step. It has one part, which comes from the old seat; that must have another one left. The old seat's steps stay as they are.
    pub fn split(&self, seat: &mut Seat<T, K>) -> Seat<T, K>
        requires seat { IsSeatOf self.now seat.old }
        requires parts { 1 < seat.old.me.0.parts }
        ensures old { IsSeatOf self.now seat.new × (seat.new.id ≡ seat.old.id) × (seat.new.me.0 ≡ fewer seat.old.me.0) }
        ensures new { IsSeatOf self.now result × (result.me.0 ≡ newcomer (Some (key_of self.now))) }
    {
        self.table.shared.split_seat::<Cut>(seat)
    }

    /// Ends a seat that has no pass. Its parts and its lists of steps go to the first seat, which keeps its own steps apart from them.
    pub fn join(&self, seat: &mut Seat<T, K>, other: Seat<T, K>)
        requires { IsSeatOf self.now seat.old × IsSeatOf self.now other }
        ensures { IsSeatOf self.now seat.new × (seat.new.id ≡ seat.old.id) × (seat.new.me.0 ≡ joined seat.old.me.0 other.me.0) }
    {
        self.table.shared.join_seat::<Glue>(seat, other);
    }

    /// Ends the gate, and gives the value back, which fits the key; the seat's lists stand in one legal history that ends at a free gate.
    ///
    /// # Errors
    ///
    /// Where some seat that was not joined into this one has the pass: the gate ends, too, and the value comes back, of which nothing is known then. A seat with all parts, or more, gets `Ok`.
    pub fn close(self, seat: Seat<T, K>) -> Result<T, T>
        requires { IsSeatOf self seat }
        ensures ok { IfOk result (λ x. T.fits (key_of self) x × Stands seat.id seat.me.0) }
        ensures all { all_parts ≤ seat.me.0.parts → IsOk result }
    {
        let Gate { table } = self;
        let mut closed = table.close_with(seat);
        let word = closed.word(0);
        let value = closed.take(0);
        closed.free();
        if word == 0 { Ok(value) } else { Err(value) }
    }

    /// The step of [`Pass::enter`] on the seat itself: whether the seat has the value now. It never waits.
    ///
    /// At `false` the gate is held: a note stands there for the holder, and the seat has no pass, as before.
    pub fn take(&self, seat: &mut Seat<T, K>) -> bool
        requires { IsSeatOf self.now seat.old }
        ensures { MatchBool result (Entered T.fits self.now seat.old seat.new) (IsNoted self.now seat.old seat.new) }
    {
        // One step writes the note and tells whom it is for. At 0 no one holds, and this seat does from now on: the value leaves the slot
        // with the same step, so no other enter can find 0. The word is 2 and not 1, since the new holder has not looked for work yet.
        // Else the 2 stays until the holder's next mark, and its leave can't be Gone before.
        self.table.shared.swap::<Entering>(seat, 0, 2) == 0
    }

    /// The step of [`Pass::mark`] on the seat itself: the notes so far count as seen. Look for work after this call.
    ///
    /// The seat keeps its value.
    pub fn mark(&self, seat: &mut Seat<T, K>)
        requires { (x : T) × Holds self.now seat.old x }
        ensures { Marked seat.old seat.new }
    {
        // A swap and no store, so that the seat knows what the step found, as it does of every other. The holder is the only one that
        // writes less than 2, so the word was 1 or 2.
        self.table.shared.swap::<Marking>(seat, 0, 1);
    }

    /// The step of [`Pass::give_up`] on the seat itself: the gate is free, whatever was noted, and the seat has no pass. The value has to
    /// fit the key.
    ///
    /// Others may have entered, and someone has to enter again to see to their work.
    pub fn release(&self, seat: &mut Seat<T, K>)
        requires { (x : T) × Holds self.now seat.old x × T.fits (key_of self.now) x }
        ensures { GaveUp self.now seat.old seat.new }
    {
        // One step frees the gate, and the value goes back into the slot with it. A note that stood at the word is gone then.
        self.table.shared.swap::<GivingUp>(seat, 0, 0);
    }

    /// Lends the value of a seat that has it. When the borrow ends, the seat has what was written through it. It makes no step.
    ///
    /// The value may stop fitting the key; it has to fit again when the seat leaves or gives up.
    pub fn value_of<'b>(seat: &'b mut Seat<T, K>, gate: &'b Gate<T, K>) -> &'b mut T
        requires { (x : T) × Holds gate.now seat.old x }
        ensures* writes_back { sem 𝓛 (lends_of_seat T.row K.row seat.entry result) }
        ensures value { (x : T) → Holds gate.now seat.old x → x ≡ result.now }
    {
        seat.slot_mut(&gate.table.shared, 0)
    }

    /// The step of [`Pass::leave`] on the seat itself: whether the gate is free now. The value has to fit the key.
    ///
    /// It is where no one entered since the last mark, and the seat has no pass then. Else, and also where no mark was made since the
    /// seat got the value, the seat keeps it.
    pub fn try_leave(&self, seat: &mut Seat<T, K>) -> bool
        requires { (x : T) × Holds self.now seat.old x × T.fits (key_of self.now) x }
        ensures { MatchBool result (IsGone self.now seat.old seat.new) (IsMissed seat.old seat.new) }
    {
        // One step looks at the word and frees it. Had it been a load and then a store of 0, an enter between the two would be Noted,
        // and its note lost. At 1 the value goes back into the slot with the same step; at 2 nothing changes.
        self.table.shared.compare_exchange::<Leaving>(seat, 0, 1, 0) == 1
    }
}

impl<'a, T, K> Pass<'a, T, K> {
    ghost use Rattle.std.specs.Prelude.{IfOk};
    ghost use Rattle.std.specs.Borrow.{sem};
    ghost use Rattle.rsx_gate.specs.Seats.{IsSeatOf, Holds, Entered, Marked, GaveUp, IsMissed, OnMissed, key_of, seat_of, lender_of, rests_if_noted, rests_if_gone, lends_value};

    /// The pass, where the gate is free. It never waits.
    ///
    /// Put the work where a holder will find it before the call: at Noted it is the holder that sees to it.
    ///
    /// # Errors
    ///
    /// [`Noted`] where the gate is held: a note stands there for the holder, and the seat is free again at once.
    pub fn enter(seat: &'a mut Seat<T, K>, gate: &Gate<T, K>) -> Result<Pass<'a, T, K>, Noted>
    where
        T: Kept<K>,
        requires { IsSeatOf gate.now seat.old }
        ensures* noted { sem 𝓛 (rests_if_noted T.row K.row gate.now seat.entry result) }
        ensures pass { IfOk result (λ p. (lender_of p ≡ seat.entry.ghost_name) × Entered T.fits gate.now seat.old (seat_of p)) }
    {
        if gate.take(seat) {
            Ok(Pass { seat })
        } else {
            Err(Noted)
        }
    }

    /// Lends the value. When the borrow ends, the pass has what was written through it. It makes no step.
    ///
    /// The value may stop fitting the key while the pass is held; it has to fit again when the pass ends.
    pub fn value<'b>(&'b mut self, gate: &'b Gate<T, K>) -> &'b mut T
    where
        T: Kept<K>,
        requires { (x : T) × Holds gate.now (seat_of self.old) x }
        ensures* writes_back { sem 𝓛 (lends_value T.row K.row self.entry result) }
        ensures value { (x : T) → Holds gate.now (seat_of self.old) x → x ≡ result.now }
    {
        Gate::value_of(self.seat, gate)
    }

    /// Counts the notes so far as seen. Look for work after this call: what was put before an enter that came earlier is there.
    ///
    /// The pass keeps its value. A note that comes later is found by the next [`Pass::leave`].
    pub fn mark(&mut self, gate: &Gate<T, K>)
    where
        T: Kept<K>,
        requires { (x : T) × Holds gate.now (seat_of self.old) x }
        ensures same { lender_of self.new ≡ lender_of self.old }
        ensures marked { Marked (seat_of self.old) (seat_of self.new) }
    {
        gate.mark(self.seat);
    }

    /// Ends the pass where no one entered since the last mark: Gone, and the seat and the gate are free. Else Missed, with the pass and its value as they were.
    ///
    /// It is Missed too where no mark was made since the pass was got. The value has to fit the key.
    pub fn leave(self, gate: &Gate<T, K>) -> Left<'a, T, K>
    where
        T: Kept<K>,
        requires { (x : T) × Holds gate.now (seat_of self) x × T.fits (key_of gate.now) x }
        ensures* gone { sem 𝓛 (rests_if_gone T.row K.row gate.now self.entry result) }
        ensures missed { OnMissed result (λ p. (lender_of p ≡ lender_of self.entry) × IsMissed (seat_of self.entry) (seat_of p)) }
    {
        let Pass { seat } = self;
        if gate.try_leave(seat) {
            return Left::Gone;
        }
        Left::Missed(Pass { seat })
    }

    /// Ends the pass whatever was noted, as a holder does that has worked long enough. The value has to fit the key.
    ///
    /// The seat and the gate are free afterwards.
    pub fn give_up(self, gate: &Gate<T, K>) -> More
    where
        T: Kept<K>,
        requires { (x : T) × Holds gate.now (seat_of self) x × T.fits (key_of gate.now) x }
        ensures { GaveUp gate.now (seat_of self.entry) self.exit.0.now }
    {
        let Pass { seat } = self;
        // A note that stood at the word is gone then, which is why the answer is More in any case.
        gate.release(seat);
        More
    }
}
