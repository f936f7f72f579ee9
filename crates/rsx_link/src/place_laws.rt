//! What the rule of the places says, each the contract of a function that does nothing.

ghost use Rattle.rsx_link.specs.PlaceLaws.{EachTicketOnce, NoMoreRefusalsThanSeats, OfferedIsAtHome, CollectedIsOffered};

/// A number that names a place is drawn by one seat where the counter is beyond it, and else by none.
pub fn each_ticket_once<E, P>()
    ensures { EachTicketOnce E P }
{}

/// The counter exceeds the number of places by no more than the number of seats.
pub fn no_more_refusals_than_seats<E, P>()
    ensures { NoMoreRefusalsThanSeats E P }
{}

/// The word of a place is 1 where a part was offered there, once, and else 0. The part is at home there until one is collected.
pub fn offered_is_at_home<E, P>()
    ensures { OfferedIsAtHome E P }
{}

/// What was collected at a place, by the one seat that collects, once, is what was offered there.
pub fn collected_is_offered<E, P>()
    ensures { CollectedIsOffered E P }
{}
