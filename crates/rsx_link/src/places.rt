//! The places for late subscriptions.

ghost use Rattle.std.specs.Prelude.{◌≡◌, ℕ, suc, ◌+◌, ◌<◌, ◌≤◌, ◌^◌, cond, false, get_or, [], length};
ghost use Rattle.std.specs.Vec.{vec_capacity};
ghost use Rattle.rsx_link.specs.PlaceSteps.{collects_at, is_refused, offers_at, refusal_of, ticket_of};
ghost use Rattle.rsx_link.specs.Places.{IsSized, count_in};
ghost use Rattle.rsx_link.specs.Collected.{is_collected};

use crate::place::{Ends, Place, PlaceView};
use crate::place_plays::{Collecting, CutPart, Drawing, GiveParts, GluePlaces, Offering};
use crate::place_room::{Room, lay, put_back, take_out};
use crate::place_rule::PlaceRule;
use atomic_table::{Refused, Table};
use std::alloc::Global;
use std::snapshot::Snapshot;

pub(crate) type Seat<T, P> = atomic_table::Seat<Place<Ends<T>, P>, PlaceView<Ends<T>, P>>;

pub(crate) type PlaceTable<T, P> = Table<
    Place<Ends<T>, P>,
    PlaceView<Ends<T>, P>,
    Snapshot<Vec<Ends<T>>>,
    PlaceRule,
    Global,
>;

/// The word of the counter; behind it is a word for each place.
const COUNTER: usize = 0;

/// A row of places, at each of which the part of one late subscription can be put, and collected by another thread.
///
/// It stays where it is while it is used, and each call takes it by reference.
#[derive(Drop)]
pub struct Places<T, P> {
    // Its key is the ends that were made for the places, which only contracts read.
    pub(crate) table: PlaceTable<T, P>,
    pub ghost sized: { IsSized table.shared.table_id.words table.shared.table_id.slots table.shared.key.value.items },
}

/// What a thread offers parts by. Several threads may each have one for the same places.
#[derive(Drop)]
pub struct PlaceSeat<T, P> {
    pub(crate) seat: Seat<T, P>,
    // It drew a ticket that names no place.
    pub(crate) refused: bool,
    pub ghost alone: { seat.me.1 ≡ [] },
    pub ghost never_collects: { (k : ℕ) → count_in (collects_at k) seat.me.0 ≡ 0 },
    pub ghost settled: { (k : ℕ) → k < seat.table_id.slots → count_in (offers_at k) seat.me.0 ≡ count_in (ticket_of k) seat.me.0 },
    pub ghost tells: { refused ≡ is_refused seat.table_id.slots seat.me.0.steps },
    pub ghost has_part: { count_in (refusal_of seat.table_id.slots) seat.me.0 + cond refused 0 1 ≤ seat.me.0.parts },
}

/// What parts are collected by. There is one for the places.
#[derive(Drop)]
pub struct Collector<T, P> {
    pub(crate) seat: Seat<T, P>,
    // The places that were collected from.
    pub(crate) taken: Vec<bool>,
    // An empty list with room for what is left at the places when they are closed.
    pub(crate) left: Vec<Place<Ends<T>, P>>,
    pub ghost only: { seat.id ≡ 0 },
    pub ghost alone: { seat.me.0.beside ≡ [] },
    pub ghost draws_none: { (k : ℕ) → (count_in (ticket_of k) seat.me.0 ≡ 0) × (count_in (offers_at k) seat.me.0 ≡ 0) },
    pub ghost counts: { length taken.items ≡ seat.table_id.slots },
    pub ghost tells: { (k : ℕ) → k < length taken.items → get_or taken.items k false ≡ is_collected k seat.me.0.steps },
    pub ghost room: { (left.items ≡ []) × (length taken.items ≤ vec_capacity left) },
}

/// The answer to an offer where no place was left.
#[derive(Drop)]
pub struct NoPlace<P> {
    /// The part that was offered.
    pub part: P,
}

impl<T: Drop, P: Drop> Places<T, P> {
    ghost use Rattle.std.specs.Prelude.{IfOk, IfErr, IfSome, IfNone, ◌++◌, ◌∷◌};
    ghost use Rattle.rsx_link.specs.PlaceSeats.{AreBegun, IsPlaceSeatOf, IsCollectorOf, IsHandedOver, IsTurnedAway, IsCollected, IsLeft, places_in, place_steps, place_beside, place_parts, place_refusals, collector_steps};
    ghost use Rattle.rsx_link.specs.Collected.{missed_below};

    /// Makes a place for each of the ends, in their order, with the one collector and the first offering seat, which has all parts
    /// of the right to draw tickets. All memory that the places ever use is taken here.
    ///
    /// # Errors
    ///
    /// The ends come back as they were where there was no memory.
    pub fn new(
        alloc: Global,
        mut ends: Vec<Ends<T>>,
    ) -> Result<(Places<T, P>, Collector<T, P>, PlaceSeat<T, P>), Vec<Ends<T>>>
        requires few { length ends.items < 2 ^ 32 }
        ensures ok { IfOk result (λ r. AreBegun ends.items r.0 r.1 r.2) }
        ensures err { IfErr result (λ back. back.items ≡ ends.items) }
    {
        let Ok(room) = Room::new(alloc, ends.len()) else {
            return Err(ends);
        };
        let Room {
            words,
            taken,
            mut slots,
            left,
        } = room;
        let key = Snapshot::of(&ends);
        lay(&mut ends, &mut slots);
        match Table::new(alloc, words.as_slice(), slots, &key) {
            Ok((table, seat)) => Ok(Places::begin(table, seat, taken, left)),
            Err(Refused { slots }) => {
                put_back(slots, &mut ends, &key);
                Err(ends)
            }
        }
    }

    /// Makes a further seat, which has made no step, for another thread. It gets one of the seat's parts of the right to draw tickets;
    /// enough must be left for the tickets without a place that were drawn, and for one more.
    pub fn split(&self, seat: &mut PlaceSeat<T, P>) -> PlaceSeat<T, P>
        requires seat { IsPlaceSeatOf self.now seat.old }
        requires parts { place_refusals seat.old + 1 < place_parts seat.old }
        ensures same { IsPlaceSeatOf self.now seat.new × (place_steps seat.new ≡ place_steps seat.old) × (place_beside seat.new ≡ place_beside seat.old) }
        ensures new { IsPlaceSeatOf self.now result × (place_steps result ≡ []) × (place_beside result ≡ []) }
        ensures parts { (place_parts result ≡ 1) × (place_parts seat.new + 1 ≡ place_parts seat.old) }
    {
        let other = self.table.shared.split_seat::<CutPart>(&mut seat.seat);
        PlaceSeat {
            seat: other,
            refused: false,
        }
    }

    /// Takes another seat in: its steps stand beside this one's from now on, and its parts are added.
    pub fn join(&self, seat: &mut PlaceSeat<T, P>, other: PlaceSeat<T, P>)
        requires seat { IsPlaceSeatOf self.now seat.old }
        requires other { IsPlaceSeatOf self.now other }
        ensures same { IsPlaceSeatOf self.now seat.new × (place_steps seat.new ≡ place_steps seat.old) }
        ensures beside { place_beside seat.new ≡ place_beside seat.old ++ place_steps other ∷ place_beside other }
        ensures parts { place_parts seat.new ≡ place_parts seat.old + place_parts other }
    {
        self.table
            .shared
            .join_seat::<GluePlaces>(&mut seat.seat, other.seat);
    }

    /// Draws a ticket for the seat and puts the part at the place that it names, by two atomic steps. Answers the place's
    /// number, and the ends that were made for just that place.
    ///
    /// # Errors
    ///
    /// [`NoPlace`] hands the part back, where no place was left. Such a seat draws no further ticket: tried again, it answers the
    /// same and makes no step.
    pub fn offer(&self, seat: &mut PlaceSeat<T, P>, part: P) -> Result<(u64, Ends<T>), NoPlace<P>>
        requires { IsPlaceSeatOf self.now seat.old }
        ensures same { IsPlaceSeatOf self.now seat.new × (place_beside seat.new ≡ place_beside seat.old) × (place_parts seat.new ≡ place_parts seat.old) }
        ensures ok { IfOk result (λ r. IsHandedOver self.now seat.old part r.0 r.1 (place_steps seat.new)) }
        ensures full { IfErr result (λ back. IsTurnedAway (places_in self.now) part (place_steps seat.old) back (place_steps seat.new)) }
    {
        if seat.refused {
            return Err(NoPlace { part });
        }
        let ticket = self.draw(&mut seat.seat);
        if ticket >= self.table.slot_count() as u64 {
            seat.refused = true;
            return Err(NoPlace { part });
        }
        let ends = self.put(&mut seat.seat, ticket as usize, part);
        Ok((ticket, ends))
    }

    /// Looks at the places that were not collected from, in their order, each by one load, until a part is found that was offered.
    /// Answers that part with its place's number, or `None` where at none of them a part was found. A place is collected from once.
    pub fn collect(&self, collector: &mut Collector<T, P>) -> Option<(u64, P)>
        requires { IsCollectorOf self.now collector.old }
        ensures same { IsCollectorOf self.now collector.new }
        ensures some { IfSome result (λ r. IsCollected (places_in self.now) r.0 r.1 (collector_steps collector.old) (collector_steps collector.new)) }
        ensures none { IfNone result (collector_steps collector.new ≡ missed_below (places_in self.now) (collector_steps collector.old)) }
    {
        for at in 0..collector.taken.len() {
            if let Some(part) = self.collect_at(collector, at) {
                return Some((at as u64, part));
            }
        }
        None
    }

    /// Takes the collector and a seat back, and answers what is left, by the numbers of the places: [`Place::Taken`] where a part was
    /// collected, the part where one was offered and not collected, and else the ends, which were never handed out.
    ///
    /// That a place is not known to the seat, and so was not offered by another, is sure only where the seat has all parts of the right
    /// to draw tickets, because all other seats were joined into it.
    pub fn close(self, collector: Collector<T, P>, seat: PlaceSeat<T, P>) -> Vec<Place<Ends<T>, P>>
        requires collector { IsCollectorOf self collector }
        requires seat { IsPlaceSeatOf self seat }
        ensures count { length result.items ≡ places_in self }
        ensures left { (k : ℕ) → k < places_in self → IsLeft self collector seat k result.items }
    {
        let Places { table } = self;
        let Collector {
            seat: mut own,
            taken,
            left,
        } = collector;
        let PlaceSeat {
            seat: other,
            refused: _,
        } = seat;
        table.shared.join_seat::<GluePlaces>(&mut own, other);
        take_out(table.close_with(own), taken.as_slice(), left)
    }
}

impl<T, P> Places<T, P> {
    ghost use Rattle.std.specs.Prelude.{IfSome, IfNone, ◌∷◌, replicate};
    ghost use Rattle.rsx_link.specs.Places.{founder, more};
    ghost use Rattle.rsx_link.specs.Collected.{missed_at};
    ghost use Rattle.rsx_link.specs.PlaceSeats.{AreBegun, IsCollectorOf, IsSeat, Draws, MayDraw, MayPut, MayLook, places_in, collector_steps};
    ghost use Rattle.rsx_link.specs.declared.place.Place.TheVariants.{Free, Taken};
    ghost use Rattle.rsx_link.specs.declared.place.PlaceStep.TheVariants.{Offer, Miss, Collect};

    /// The first seat collects, and gives all parts to a new one.
    fn begin(
        table: PlaceTable<T, P>,
        mut seat: Seat<T, P>,
        taken: Vec<bool>,
        left: Vec<Place<Ends<T>, P>>,
    ) -> (Places<T, P>, Collector<T, P>, PlaceSeat<T, P>)
        requires table { IsSized table.shared.table_id.words table.shared.table_id.slots table.shared.key.value.items }
        requires seat { (seat.table_id ≡ table.shared.table_id) × (seat.id ≡ 0) × (seat.me ≡ (founder table.shared.key.value.items, [])) }
        requires taken { taken.items ≡ replicate table.shared.table_id.slots false }
        requires left { (left.items ≡ []) × (length taken.items ≤ vec_capacity left) }
        ensures { AreBegun table.shared.key.value.items result.0 result.1 result.2 }
    {
        let other = table.shared.split_seat::<GiveParts>(&mut seat);
        let collector = Collector { seat, taken, left };
        let first = PlaceSeat {
            seat: other,
            refused: false,
        };
        (Places { table }, collector, first)
    }

    /// Looks at one place, where it was not collected from.
    fn collect_at(&self, collector: &mut Collector<T, P>, at: usize) -> Option<P>
        requires collector { IsCollectorOf self.now collector.old }
        requires within { at < places_in self.now }
        ensures same { IsCollectorOf self.now collector.new }
        ensures some { IfSome result (λ part. (is_collected at (collector_steps collector.old) ≡ false) × (collector_steps collector.new ≡ Collect at part ∷ collector_steps collector.old)) }
        ensures none { IfNone result (collector_steps collector.new ≡ missed_at at (collector_steps collector.old)) }
    {
        if collector.taken[at] {
            return None;
        }
        match self.look(&mut collector.seat, at) {
            Some(part) => {
                collector.taken[at] = true;
                Some(part)
            }
            None => None,
        }
    }

    /// One `fetch_add`, so that no two seats find the same number. The ends of the place that it names are out with the seat then.
    fn draw(&self, seat: &mut Seat<T, P>) -> u64
        requires { MayDraw self.now seat.old }
        ensures { IsSeat seat.old seat.new × Draws (places_in self.now) seat.old.me result seat.new.me }
    {
        self.table.shared.fetch_add::<Drawing>(seat, COUNTER, 1)
    }

    /// Changes the ends for the part, and gives the place back by one store.
    fn put(&self, seat: &mut Seat<T, P>, at: usize, part: P) -> Ends<T>
        requires { MayPut self.now seat.old at }
        ensures same { IsSeat seat.old seat.new }
        ensures put { (seat.old.me.1 ≡ (at, Free result) ∷ []) × (seat.new.me ≡ (more seat.old.me.0 (Offer at part), [])) }
    {
        let place = self.table.shared.exchange(seat, at, Place::Offered(part));
        self.table.shared.store::<Offering>(seat, at + 1, 1);
        match place {
            Place::Free(ends) => ends,
            Place::Offered(_) | Place::Taken => unreachable!(),
        }
    }

    /// One load. Where a part was offered the place is out with the seat from then on, and the part is taken.
    fn look(&self, seat: &mut Seat<T, P>, at: usize) -> Option<P>
        requires { MayLook self.now seat.old at }
        ensures same { IsSeat seat.old seat.new }
        ensures some { IfSome result (λ part. seat.new.me ≡ (more seat.old.me.0 (Collect at part), (at, Taken) ∷ seat.old.me.1)) }
        ensures none { IfNone result (seat.new.me ≡ (more seat.old.me.0 (Miss at), seat.old.me.1)) }
    {
        if self.table.shared.load::<Collecting>(seat, at + 1) == 0 {
            return None;
        }
        match self.table.shared.exchange(seat, at, Place::Taken) {
            Place::Offered(part) => Some(part),
            Place::Free(_) | Place::Taken => unreachable!(),
        }
    }
}
