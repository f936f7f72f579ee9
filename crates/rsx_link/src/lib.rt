//! The link: what crosses an edge of a graph whose two ends run on different threads.
//!
//! A publisher and its subscriber on one thread need no more than a queue and two counts. Where the edge
//! crosses from one thread to another, three things must cross with it, each in one direction:
//!
//! | what | from | to | how |
//! |---|---|---|---|
//! | signals | [`Up`] | [`Down`] | a ring buffer for one sender and one receiver |
//! | the total of items asked for | [`Down`] | [`Up`] | a word that only the receiving end stores into |
//! | flag 1, cancelled, and flag 2, bad request | [`CancelSeat`], [`Down`] | [`Up`] | a word of flags, which are set and never cleared |
//!
//! [`Link`] owns the two words. The ends and the cancel seats move to whatever thread uses them, and each of their
//! calls takes the link by reference. No call waits, none takes memory once [`Link::new`] or [`Link::open`] has made
//! the link, and each makes at most two atomic steps besides those of the queue.
//!
//! # An edge that was in use before
//!
//! [`Link::open`] takes over an edge over which items were asked for, and some of them sent, before there was a link.
//! Both ends count on from there: [`Down::asked`], [`Down::taken`] and [`Up::room`] are those of the edge as a whole,
//! and what was sent is a number of each end that no call changes. The sending end knows the total from the start, so
//! it can send before it looks. What stood in the edge's queue is sent into the link after it is made.
//!
//! Who has to know beforehand what a call would do asks [`Up::has_room`], after which a send succeeds, or
//! [`Down::is_empty`], after which [`Down::front`] shows what [`Down::take`] would give, and [`Down::take_seen`] takes
//! items without another look.
//!
//! # The total, and why it is a store
//!
//! Demand is a running total of the edge, and never a difference that is added and taken away. So one end alone writes
//! the word, by a plain `store`, and no step of the other end can get between a load and a store of it. The sending end compares the total that it saw last with the items that it has sent. What it saw
//! may be old, and then it is smaller: it may send fewer items than were asked for, until it looks again, and
//! never more (rule 1.1). The total saturates at 2^63 - 1 (rule 3.17), and no later store is smaller, so what was
//! seen stays asked for.
//!
//! # The flags, and why they are a `fetch_or`
//!
//! A cancel (rule 3.5) may come from several threads at once, and a bad request (rule 3.9) beside it. Each sets its
//! own flag by one `fetch_or`, which leaves the other as it is. Its answer is the flags as they were: so a bad
//! request knows whether it came first, and only then is its error given to the subscriber, once. After a cancel no
//! error is given (rule 3.6).
//!
//! # The seats, and what is proved
//!
//! Each end and each canceller has a seat, a token with no bytes, which carries what its thread knows: the list of
//! its own steps, the newest first, each with what it stored or found. The rule in `specs/Link.antt` ties all
//! seats to the two words, and is proved to hold between any two steps of any threads:
//!
//! - the first word is the total that the receiving end stored last, and each total is no smaller than the one before;
//! - flag 2 is set exactly where the receiving end made a bad request, and flag 1 exactly where some seat cancelled;
//! - what the sending end saw is so: its total is at most the word, and a flag that it saw is set.
//!
//! Each call adds just its own steps to its seat, and its answer is what they found. Of the items, `sent <= seen`
//! holds of each [`Up`] and `taken <= asked` of each [`Down`].
//!
//! What the sending end sent is compared with what the receiving end took where both are in one thread again:
//! [`Link::close`] takes both, and then **what was taken, followed by what remains in the queue, is what was sent**. What
//! remains is no more than the queue has room for. It answers the total and the flags, too. Flag 1 is known from both
//! sides there: the right to cancel is one whole, each [`CancelSeat::split`] halves it and each [`CancelSeat::join`]
//! puts it together, and with the whole in hand the flag is set exactly where one of these seats cancelled.
//!
//! # Places for late subscriptions
//!
//! A subscription that is made while other threads run needs a link whose sending end another thread has already. So
//! links are made beforehand, and [`Places`] keep their receiving ends and rights to cancel ([`Ends`]), one pair at each
//! place. They are a table of their own: a counter of tickets, and a word for each place.
//!
//! | step | seat | how |
//! |---|---|---|
//! | ticket | [`PlaceSeat`] | `fetch_add` of 1 on the counter, which takes the ends out of the place with the number that it found |
//! | offer | [`PlaceSeat`] | the part is put there in their place, and a `store` of 1 on the place's word gives it back |
//! | collect | [`Collector`] | a `load` of a place's word, which takes the part where it found 1 |
//!
//! [`Places::offer`] makes the first two, and [`Places::collect`] the third at each place that was not collected from. No
//! call waits, and none takes memory once [`Places::new`] has made the places. Where the number names no place the offer
//! answers [`NoPlace`] and hands the part back. A ticket can't be given back, so such a seat draws no other: the counter
//! stays far below the end of its range.
//!
//! The rule in `specs/Places.antt` ties all seats to the words and to what is at home. A number that names a place is drawn
//! by one seat where it is below the counter, and by none else; the word of a place is 1 just where a part was offered
//! there, and then that part is at home until it is collected, once. The functions `each_ticket_once`,
//! `no_more_refusals_than_seats`, `offered_is_at_home` and `collected_is_offered` say so, each by its contract alone. Each
//! call adds just its own steps to its seat. At [`Places::close`] all is in one thread again, and each place gives back
//! what is left there.
//!
//! # What is not proved
//!
//! That a signal arrives, or how soon; and that a queue which is called empty, or full, was so, which tests show. No
//! clause compares two ends while they are in different threads. Nor is it said that a part which was offered is ever
//! collected.
#![tactic(auto)]

mod cancel;
mod closed;
mod down;
mod link;
mod place;
mod place_laws;
mod place_plays;
mod place_room;
mod place_rule;
mod places;
mod plays;
mod rule;
mod signals;
mod up;
mod view;

pub use cancel::CancelSeat;
pub use closed::{Closed, Remaining};
pub use down::Down;
pub use link::Link;
pub use place::{Ends, Place, PlaceStep, PlaceView};
pub use place_laws::{
    collected_is_offered, each_ticket_once, no_more_refusals_than_seats, offered_is_at_home,
};
pub use place_rule::PlaceRule;
pub use places::{Collector, NoPlace, PlaceSeat, Places};
pub use rule::Rule;
pub use up::{Found, Up};
pub use view::{Role, Step, View};
