//! What stands at a place for a late subscription, and what the seats of the places know.

use crate::cancel::CancelSeat;
use crate::down::Down;
use std::collections::LinkedList;

/// The two ends of a link that a late subscription needs: it receives by the one, and cancels by the other.
#[derive(Drop)]
pub struct Ends<T> {
    /// The receiving end.
    pub down: Down<T>,
    /// The right to cancel.
    pub cancel: CancelSeat,
}

/// What stands at a place.
#[derive(Drop)]
pub enum Place<E, P> {
    /// No ticket with the place's number was drawn, and the ends that were made for it are there.
    Free(E),
    /// A part was offered there, and not collected.
    Offered(P),
    /// The part was collected.
    Taken,
}

/// One step on a word of the places, with what it found or stored. No value of it is made: it stands in proofs alone.
pub enum PlaceStep<P> {
    /// A ticket was drawn, and this is its number.
    Ticket(u64),
    /// This part was offered at this place.
    Offer(u64, P),
    /// The collector looked at this place, and found no part offered there.
    Miss(u64),
    /// The collector found that a part was offered at this place, and took it.
    Collect(u64, P),
}

/// What a seat knows. No value of it is made: it stands in proofs alone.
pub struct PlaceView<E, P> {
    /// The ends that were made for the places, by their numbers; none once the seat was joined into another.
    pub ends: Option<LinkedList<E>>,
    /// How many of the 2^32 parts of the right to draw tickets it has.
    pub parts: u64,
    /// Its own steps, the newest first.
    pub steps: LinkedList<PlaceStep<P>>,
    /// The lists of the seats that were joined into it, each as it was.
    pub beside: LinkedList<LinkedList<PlaceStep<P>>>,
}
