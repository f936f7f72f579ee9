//! A subscription taken apart: what it is made of, each for itself.

ghost use Rattle.std.specs.Prelude.{◌≡◌};
ghost use Rattle.rsx_subscription.specs.declared.State.TheVariants.{Fresh};

use crate::subscription::Subscription;
use rsx_demand::Demand;
use rsx_pipe::{Part, SignalQueue};
use rsx_subscription::State;

/// What a subscription is made of. [`SubscriptionParts::put_together`] makes the subscription of it again.
///
/// Whoever changes the parts answers for what is said of a subscription in its calls, as of [`Subscription::part_mut`].
#[derive(Drop)]
pub struct SubscriptionParts<N, T> {
    /// Its part.
    pub part: Part<N>,
    /// The signals on the root edge.
    pub queue: SignalQueue<T>,
    /// Where it stands in the subscription table. It was opened.
    pub state: State,
    /// The items that the subscriber requested, and those that it was delivered.
    pub demand: Demand,
    /// Whether the subscriber takes part still: it neither cancelled while it was open nor made a bad request then.
    pub live: bool,
    pub ghost opened: { state ≡ Fresh → ⊥ },
}

impl<N, T> Subscription<N, T> {
    ghost use Rattle.rsx_subscriber.specs.Apart.{ArePartsOf};

    /// The signals on its root edge.
    pub fn queue(&self) -> &SignalQueue<T>
        ensures { result.now ≡ self.now.queue }
    {
        &self.queue
    }

    /// What it is made of, each as it is. It takes no memory.
    pub fn take_apart(self) -> SubscriptionParts<N, T>
        ensures { ArePartsOf self result }
    {
        SubscriptionParts {
            part: self.part,
            queue: self.queue,
            state: self.state,
            demand: self.demand,
            live: self.live,
        }
    }
}

impl<N, T> SubscriptionParts<N, T> {
    ghost use Rattle.rsx_subscriber.specs.Apart.{ArePartsOf};

    /// The subscription that is made of this, each as it is. It takes no memory.
    pub fn put_together(self) -> Subscription<N, T>
        ensures { ArePartsOf result self }
    {
        Subscription {
            part: self.part,
            queue: self.queue,
            state: self.state,
            demand: self.demand,
            live: self.live,
        }
    }
}
