//! The link's words, and the steps of their seats.

ghost use Rattle.std.specs.Prelude.{◌≡◌};

use crate::cancel::CancelSeat;
use crate::closed::{Closed, Remaining};
use crate::down::Down;
use crate::plays::{
    Asking, Cancelling, CutCanceller, CutInformed, CutUpstream, GiveCanceller, Glue, Refusing,
    SeeingAsked, SeeingFlags,
};
use crate::rule::Rule;
use crate::up::Up;
use crate::view::View;
use atomic_table::Table;
use rsx_demand::Demand;
use rsx_types::{NoMemory, Signal};
use rtrb::{Consumer, Producer, RingBuffer};
use std::alloc::Global;

pub(crate) type Seat = atomic_table::Seat<(), View>;

/// The total of items asked for: the receiving end stores it.
const ASKED: usize = 0;

/// Flag 1, that the link was cancelled, and flag 2, that the receiving end made a bad request.
const FLAGS: usize = 1;

/// Flag 1.
pub(crate) const CANCELLED: u64 = 1;

/// Flag 2.
pub(crate) const REFUSED: u64 = 2;

/// The two words that both ends of a link share: the total of items asked for, and the flags.
///
/// It stays in one place while the link is used, and each call of an end takes it by reference.
#[derive(Drop)]
pub struct Link<T> {
    // Its key is the queue's sending end as it was made, which only contracts read: it names the queue.
    table: Table<(), View, Producer<Signal<T>>, Rule, Global>,
    ghost sized: { (table.shared.table_id.words ≡ 2) × (table.shared.table_id.slots ≡ 0) },
}

impl<T: Drop> Link<T> {
    ghost use Rattle.std.specs.Prelude.{IfOk, ◌≤◌, length};
    ghost use Rattle.rsx_link.specs.Ends.{capacity_of, AreNew, AreOpened, AreBegun, AreEnds, Closes};

    /// Makes a link whose queue has room for `capacity` signals, with both ends and the seat that has the whole right
    /// to cancel. Nothing is asked for, no flag is set, and nothing was sent. All memory that the link ever uses is
    /// taken here.
    ///
    /// # Errors
    ///
    /// [`NoMemory`] where there was none for the words or for the queue.
    pub fn new(
        alloc: Global,
        capacity: usize,
    ) -> Result<(Link<T>, Up<T>, Down<T>, CancelSeat), NoMemory>
        ensures { IfOk result (λ r. AreNew capacity r.0 r.1 r.2 r.3) }
    {
        let (link, producer, consumer, mut seat) = Link::begin(alloc, capacity)?;
        let up_seat = link.table.shared.split_seat::<CutUpstream>(&mut seat);
        let cancel_seat = link.table.shared.split_seat::<GiveCanceller>(&mut seat);
        let up = Up {
            producer,
            seat: up_seat,
            carried: 0,
            sent: 0,
            seen: 0,
        };
        let down = Down {
            consumer,
            seat,
            carried: 0,
            demand: Demand::new(),
        };
        Ok((link, up, down, CancelSeat { seat: cancel_seat }))
    }

    /// The same for an edge that was in use before: so many items were asked for over it as `demand` says, and so many of
    /// them were sent and taken. Both ends count on from there, and the sending end has seen the total that was asked for.
    /// No flag is set, and the queue is empty.
    ///
    /// # Errors
    ///
    /// [`NoMemory`] where there was none for the words or for the queue.
    pub fn open(
        alloc: Global,
        capacity: usize,
        demand: Demand,
    ) -> Result<(Link<T>, Up<T>, Down<T>, CancelSeat), NoMemory>
        ensures { IfOk result (λ r. AreOpened capacity demand.asked demand.sent r.0 r.1 r.2 r.3) }
    {
        let (link, producer, consumer, mut seat) = Link::begin(alloc, capacity)?;
        link.store_asked(&mut seat, demand.asked);
        let up_seat = link.table.shared.split_seat::<CutInformed>(&mut seat);
        let cancel_seat = link.table.shared.split_seat::<GiveCanceller>(&mut seat);
        let up = Up {
            producer,
            seat: up_seat,
            carried: demand.sent,
            sent: demand.sent,
            seen: demand.asked,
        };
        let down = Down {
            consumer,
            seat,
            carried: demand.sent,
            demand,
        };
        Ok((link, up, down, CancelSeat { seat: cancel_seat }))
    }

    /// The words at 0, the queue's two ends, and the first seat, which is the receiving end's.
    fn begin(
        alloc: Global,
        capacity: usize,
    ) -> Result<(Link<T>, Producer<Signal<T>>, Consumer<Signal<T>>, Seat), NoMemory>
        ensures { IfOk result (λ r. AreBegun capacity r.0 r.1 r.2 r.3) }
    {
        let (producer, consumer) = RingBuffer::new(alloc, capacity)?;
        let (table, seat) = Table::of_words(alloc, &[0, 0], &producer)?;
        Ok((Link { table }, producer, consumer, seat))
    }

    /// Takes both ends and a cancel seat back, and answers what the words say and what remains in the queue.
    ///
    /// What was taken, followed by what remains, is what was sent, and what remains is no more than the queue has room
    /// for. The total is the receiving end's, and flag 2 says whether it made a bad request. Flag 1 is set where the seat
    /// cancelled; where it has the whole right to cancel, because all other seats were joined into it, the flag is set
    /// nowhere else.
    pub fn close(self, up: Up<T>, down: Down<T>, cancel: CancelSeat) -> Closed<T>
        requires { AreEnds self up down cancel }
        ensures closes { Closes up down cancel result }
        ensures within { length result.remaining ≤ capacity_of self }
    {
        let Link { table } = self;
        let Up {
            mut producer,
            seat: up_seat,
            carried: _,
            sent: _,
            seen: _,
        } = up;
        let Down {
            mut consumer,
            mut seat,
            carried: _,
            demand: _,
        } = down;
        // The first shows that what remains fits into the queue, the second what it is.
        producer.slots_beside(&mut consumer);
        consumer.slots_beside(&mut producer);
        table.shared.join_seat::<Glue>(&mut seat, up_seat);
        table.shared.join_seat::<Glue>(&mut seat, cancel.seat);
        let closed = table.close_with(seat);
        let asked = closed.word(ASKED);
        let flags = closed.word(FLAGS);
        closed.free();
        Closed {
            asked,
            cancelled: flags & CANCELLED != 0,
            refused: flags & REFUSED != 0,
            remaining: Remaining { consumer },
        }
    }
}

impl<T> Link<T> {
    ghost use Rattle.std.specs.Prelude.{◌≤◌, []};
    ghost use Rattle.rsx_link.specs.Link.{fresh, joined, with_parts};
    ghost use Rattle.rsx_link.specs.Parts.{halved};
    ghost use Rattle.rsx_link.specs.Plays.{asked, saw_asked, saw_flags, cancelled, refused};
    ghost use Rattle.rsx_link.specs.Ends.{IsSeatFor, IsSeatWith, MayCancel, Stepped};
    ghost use Rattle.rsx_link.specs.Steps.{asked_of};
    ghost use Rattle.rsx_link.specs.declared.view.Role.TheVariants.{Upstream, Downstream, Canceller};

    /// One store, so that a load finds either the old total or the new one.
    pub(crate) fn store_asked(&self, seat: &mut Seat, total: u64)
        requires seat { IsSeatFor Downstream self.now seat.old }
        requires rises { asked_of seat.old.me.0.steps ≤ total }
        ensures { Stepped asked total seat.old seat.new }
    {
        self.table.shared.store::<Asking>(seat, ASKED, total);
    }

    /// One load.
    pub(crate) fn load_asked(&self, seat: &mut Seat) -> u64
        requires { IsSeatFor Upstream self.now seat.old }
        ensures { Stepped saw_asked result seat.old seat.new }
    {
        self.table.shared.load::<SeeingAsked>(seat, ASKED)
    }

    /// One load.
    pub(crate) fn load_flags(&self, seat: &mut Seat) -> u64
        requires { IsSeatFor Upstream self.now seat.old }
        ensures { Stepped saw_flags result seat.old seat.new }
    {
        self.table.shared.load::<SeeingFlags>(seat, FLAGS)
    }

    /// One `fetch_or`, which leaves flag 2 as it is: a bad request may come at the same time.
    pub(crate) fn set_cancelled(&self, seat: &mut Seat) -> u64
        requires { MayCancel self.now seat.old }
        ensures { Stepped cancelled result seat.old seat.new }
    {
        self.table
            .shared
            .fetch_or::<Cancelling>(seat, FLAGS, CANCELLED)
    }

    /// One `fetch_or`, whose answer decides who of a bad request and a cancel came first.
    pub(crate) fn set_refused(&self, seat: &mut Seat) -> u64
        requires { IsSeatFor Downstream self.now seat.old }
        ensures { Stepped refused result seat.old seat.new }
    {
        self.table.shared.fetch_or::<Refusing>(seat, FLAGS, REFUSED)
    }

    /// Takes half of the parts of a seat that may cancel, for a new one.
    pub(crate) fn split_canceller(&self, seat: &mut Seat) -> Seat
        requires { IsSeatFor Canceller self.now seat.old }
        ensures old { IsSeatWith (with_parts seat.old.me.0 (halved seat.old.me.0.parts)) seat.old seat.new }
        ensures new { (result.table_id ≡ seat.old.table_id) × (result.me ≡ (fresh Canceller (halved seat.old.me.0.parts), [])) }
    {
        self.table.shared.split_seat::<CutCanceller>(seat)
    }

    /// Puts a seat that may cancel back into the one that it was taken from, or into another of the same link.
    pub(crate) fn join_canceller(&self, seat: &mut Seat, other: Seat)
        requires seat { IsSeatFor Canceller self.now seat.old }
        requires other { (other.table_id ≡ self.now.table.shared.table_id) × (other.me.0.role ≡ Canceller) × (other.me.1 ≡ []) }
        ensures { IsSeatWith (joined seat.old.me.0 other.me.0) seat.old seat.new }
    {
        self.table.shared.join_seat::<Glue>(seat, other);
    }
}
