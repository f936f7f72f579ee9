//! What happens between publishers and subscribers, as a recorder sees it.

use rsx_types::Cause;

/// One thing that happened. The first number names the subscriber that it happened to.
#[derive(Clone, Copy, Debug, PartialEq, Eq)]
pub enum Event {
    /// The subscriber is handed to `subscribe`.
    Subscribe(u32),
    /// `onSubscribe` begins.
    OnSubscribe(u32),
    /// `onNext` begins.
    Next(u32),
    /// `onComplete` begins.
    Complete(u32),
    /// `onError` begins, with its cause.
    Error(u32, Cause),
    /// The signal to this subscriber that began last has returned.
    Exit(u32),
    /// The subscriber requests so many items. Zero and less may be recorded: rule 3.9 forbids them.
    Request(u32, i64),
    /// The subscriber cancels its subscription.
    Cancel(u32),
    /// The subscriber cancels a subscription that a later `onSubscribe` handed it, as rule 2.5 wants.
    CancelNew(u32),
}

/// An event with the number of the worker that it happened on, from 0 to 15.
#[derive(Clone, Copy, Debug, PartialEq, Eq)]
pub struct Stamped {
    /// The worker, from 0 to 15.
    pub worker: u8,
    /// What happened.
    pub event: Event,
}

impl Event {
    ghost use Rattle.std.specs.Prelude.{◌≡◌};
    ghost use Rattle.rsx_tck.specs.Events.{subscriber_of};

    /// The subscriber that the event names.
    pub fn subscriber(&self) -> u32
        ensures { result ≡ subscriber_of self.now }
    {
        match *self {
            Event::Subscribe(s)
            | Event::OnSubscribe(s)
            | Event::Next(s)
            | Event::Complete(s)
            | Event::Error(s, _)
            | Event::Exit(s)
            | Event::Request(s, _)
            | Event::Cancel(s)
            | Event::CancelNew(s) => s,
        }
    }
}
