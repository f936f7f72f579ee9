//! What the edits and moves of a graph answer.

use crate::refusal::Refusal;
use rsx_types::{HubId, Signal, SubId};

/// What the call of a step answered.
#[derive(Debug, Drop)]
pub enum Answer<T> {
    /// A hub was made.
    Opened(HubId),
    /// The item, the completion or the failure was published.
    Published,
    /// A subscription was made.
    Subscribed(SubId),
    /// The request was taken; the signal is the error of a bad one.
    Requested(Option<Signal<T>>),
    /// The cancel was taken.
    Cancelled,
    /// The move was made; the signal was delivered to this subscriber.
    Made(Option<(SubId, Signal<T>)>),
    /// The call was refused, and nothing changed.
    Refused(Refusal),
}

/// How a `pump` ended.
#[derive(Clone, Copy, Debug, PartialEq, Eq)]
pub enum Pumped {
    /// No move is enabled.
    Idle,
    /// The budget is used up, and a move is enabled.
    Budget,
}
