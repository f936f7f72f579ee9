//! The memory of the places, and how the ends that were made for them are put there.

ghost use Rattle.std.specs.Prelude.{◌≡◌, ℕ, ◌≤◌, ◌<◌, ◌^◌, IfOk, [], cond, length, map};
ghost use Rattle.std.specs.Vec.{vec_capacity};
ghost use Rattle.std.specs.Slots.{IsFull, slots_items, slots_len};
ghost use Rattle.rsx_link.specs.TakenOut.{IsTakenOut};
ghost use Rattle.rsx_link.specs.declared.place.Place.TheVariants.{Free, Taken};

use crate::place::Place;
use atomic_table::Closed;
use rsx_types::NoMemory;
use std::alloc::Global;
use std::snapshot::Snapshot;

/// The lists that so many places need.
#[derive(Drop)]
pub(crate) struct Room<E, P> {
    /// A word for the counter and for each place, all 0.
    pub(crate) words: Vec<u64>,
    /// For each place whether it was collected from: none was.
    pub(crate) taken: Vec<bool>,
    /// Empty, with room for all places.
    pub(crate) slots: Vec<Place<E, P>>,
    /// The same.
    pub(crate) left: Vec<Place<E, P>>,
}

impl<E: Drop, P: Drop> Room<E, P> {
    ghost use Rattle.std.specs.Prelude.{◌+◌};
    ghost use Rattle.rsx_link.specs.Room.{IsRoomFor};

    pub(crate) fn new(alloc: Global, count: usize) -> Result<Room<E, P>, NoMemory>
        requires { count < 2 ^ 32 }
        ensures { IfOk result (IsRoomFor count) }
    {
        let words = Vec::from_elem(alloc, 0, count + 1)?;
        let taken = Vec::from_elem(alloc, false, count)?;
        let slots = Vec::with_capacity(alloc, count)?;
        let left = Vec::with_capacity(alloc, count)?;
        Ok(Room {
            words,
            taken,
            slots,
            left,
        })
    }
}

/// Puts the ends at the places, in their order. The emptied list keeps its memory.
pub(crate) fn lay<E, P>(ends: &mut Vec<E>, slots: &mut Vec<Place<E, P>>)
    requires empty { slots.old.items ≡ [] }
    requires room { length ends.old.items ≤ vec_capacity slots.old }
    ensures slots { slots.new.items ≡ map Free ends.old.items }
    ensures ends { ends.new.items ≡ [] }
    ensures capacity { vec_capacity ends.new ≡ vec_capacity ends.old }
{
    ends.reverse();
    while let Some(one) = ends.pop() {
        slots.push_reserved(Place::Free(one));
    }
}

/// Puts them back into that list, which they were in when the snapshot was taken.
pub(crate) fn put_back<E, P>(mut slots: Vec<Place<E, P>>, ends: &mut Vec<E>, all: &Snapshot<Vec<E>>)
    requires free { slots.items ≡ map Free all.now.value.items }
    requires empty { ends.old.items ≡ [] }
    requires room { length all.now.value.items ≤ vec_capacity ends.old }
    ensures { ends.new.items ≡ all.now.value.items }
{
    let _ = all;
    while let Some(place) = slots.pop() {
        match place {
            Place::Free(one) => ends.push_reserved(one),
            Place::Offered(_) | Place::Taken => unreachable!(),
        }
    }
    slots.destroy_empty();
    ends.reverse();
}

/// What is left of a place.
fn unless_taken<E: Drop, P: Drop>(place: Place<E, P>, taken: bool) -> Place<E, P>
    ensures { result ≡ cond taken Taken place }
{
    if taken { Place::Taken } else { place }
}

/// Takes what is left out of a table that no thread shares any more: of each place that was collected from it is [`Place::Taken`].
pub(crate) fn take_out<E: Drop, P: Drop>(
    mut closed: Closed<Place<E, P>, Global>,
    taken: &[bool],
    mut left: Vec<Place<E, P>>,
) -> Vec<Place<E, P>>
    requires full { IsFull closed.slots × (slots_len closed.slots ≡ length taken.now) }
    requires room { (left.items ≡ []) × (length taken.now ≤ vec_capacity left) }
    ensures { IsTakenOut taken.now (slots_items closed.slots) result.items }
{
    for at in 0..taken.len() {
        let place = closed.take(at);
        left.push_reserved(unless_taken(place, taken[at]));
    }
    closed.free();
    left
}
