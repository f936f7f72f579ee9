//! Which idle subscriptions a hub wakes: those that read it.

ghost use Rattle.std.specs.Prelude.{◌≡◌, ℕ, ◌<◌, Some, false, length, slice_get};
ghost use Rattle.rsx_pipe.specs.Published.{readers};
ghost use Rattle.rsx_subscriber.specs.declared.subscription.Subscription.{Subscription as SubscriptionOf};
ghost use Rattle.rsx_types.specs.Meaning.{Meaning};
ghost use Rattle.rsx_graph_moves.specs.Resting.{AreIdle};

use crate::IdleSet;
use rsx_graph_state::MOST_IN_SET;
use rsx_pipe::Nodes;
use rsx_subscriber::Subscription;
use rsx_types::{HubId, SubId};

/// Looks at each idle subscription of which it isn't known whether some node of it reads the hub, and notes those of which none does.
/// What is found is known until the subscription moves.
pub(crate) fn look_for_readers<N: Nodes<Item = T>, T: Drop>(
    subscriptions: &Vec<Subscription<N, T>>,
    idle: &mut IdleSet,
    hub: HubId,
)
    ensures { (m : Meaning T) → AreIdle N.Machine m idle.old subscriptions.now.items → AreIdle N.Machine m idle.new subscriptions.now.items }
{
    idle.forget(hub);
    let unknown = idle.idle.without(&idle.apart_from(hub));
    let others = unknown.others();
    let count = subscriptions.len().min(MOST_IN_SET as usize) as u32;
    let mut at = others.next_outside(0);
    'looks: while at < count {
        look_at(subscriptions, idle, SubId(at), hub);
        at = others.next_outside(at + 1);
    }
}

/// Looks at one of them.
fn look_at<N: Nodes<Item = T>, T: Drop>(
    subscriptions: &Vec<Subscription<N, T>>,
    idle: &mut IdleSet,
    sub: SubId,
    hub: HubId,
)
    requires { sub.0 < length subscriptions.now.items }
    ensures { (m : Meaning T) → AreIdle N.Machine m idle.old subscriptions.now.items → AreIdle N.Machine m idle.new subscriptions.now.items }
{
    if !reads(subscriptions, sub, hub) {
        idle.set_apart(hub, sub);
    }
}

/// Whether some node of a subscription reads the hub.
fn reads<N: Nodes<Item = T>, T: Drop>(
    subscriptions: &Vec<Subscription<N, T>>,
    sub: SubId,
    hub: HubId,
) -> bool
    requires { sub.0 < length subscriptions.now.items }
    ensures { result ≡ false → (s : SubscriptionOf N T) → slice_get subscriptions.now.items sub.0 ≡ Some s → readers N.Machine hub.0 s.part ≡ 0 }
{
    let subscription = &subscriptions[sub.0 as usize];
    subscription.readers_up_to(u64::from(hub.0), 1) > 0
}
