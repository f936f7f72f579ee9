//! What subscribers ask for.

ghost use Rattle.std.specs.Prelude.{◌≡◌, ◌<◌, ◌≤◌, List, length, OnOk, OnErr, IfOk, IfErr};
ghost use Rattle.rsx_types.specs.Meaning.{Meaning};
ghost use Rattle.rsx_hub.specs.Hub.{HubState};
ghost use Rattle.rsx_graph_state.specs.Subscriptions.{IsCancelledAt, IsRequestedAt};
ghost use Rattle.rsx_graph_state.specs.declared.feed.Feed.{Feed as FeedOf};
ghost use Rattle.rsx_subscriber.specs.Past.{cancelled, requested};
ghost use Rattle.rsx_graph_state.specs.History.{History};
ghost use Rattle.rsx_graph_state.specs.Moves.{rows_of};
ghost use Rattle.rsx_graph_state.specs.Stands.{StandsFor};
ghost use Rattle.rsx_graph_calls.specs.Requests.{with_past};

use rsx_graph_state::Refusal;
use rsx_pipe::Nodes;
use rsx_subscriber::Subscription;
use rsx_types::{Signal, SubId};

/// Requests `n` items more, at most 2^63-1 in all (rules 3.8, 3.9 and 3.17). The signal is the error of a bad request, which closes
/// the subscription. Where the subscription isn't open, nothing happens. The other subscriptions stay, and so do the hubs and the
/// feeds. It takes no memory.
///
/// # Errors
/// G2 exactly where there is no such subscription; nothing changed.
pub fn request<N: Nodes<Item = T>, T: Drop>(
    subscriptions: &mut Vec<Subscription<N, T>>,
    sub: SubId,
    n: i64,
) -> Result<Option<Signal<T>>, Refusal>
    ensures stands { OnOk result ((m : Meaning T) (hubs : List (HubState T)) (feeds : List (FeedOf N)) (h : History T) →
        StandsFor N.Machine m (rows_of hubs feeds subscriptions.old.items) h →
        StandsFor N.Machine m (rows_of hubs feeds subscriptions.new.items) (with_past (requested n) sub h)) }
    ensures effect { IfOk result (λ o. IsRequestedAt N.Machine sub.0 n subscriptions.old.items subscriptions.new.items o) }
    ensures err { IfErr result (λ r. (r ≡ Refusal.UnknownSub) × (length subscriptions.old.items ≤ sub.0)) }
    ensures same { OnErr result (subscriptions.new.items ≡ subscriptions.old.items) }
{
    let at = sub.0 as usize;
    if at >= subscriptions.len() {
        return Err(Refusal::UnknownSub);
    }
    let subscription = &mut subscriptions[at];
    Ok(subscription.request(n))
}

/// Cancels a subscription (rules 3.5 to 3.7): the edges of its part are closed, and nothing is queued for it. Where it isn't open,
/// nothing happens. The other subscriptions stay, and so do the hubs and the feeds. It takes no memory.
///
/// # Errors
/// G2 exactly where there is no such subscription; nothing changed.
pub fn cancel<N: Nodes<Item = T>, T: Drop>(
    subscriptions: &mut Vec<Subscription<N, T>>,
    sub: SubId,
) -> Result<(), Refusal>
    ensures stands { OnOk result ((m : Meaning T) (hubs : List (HubState T)) (feeds : List (FeedOf N)) (h : History T) →
        StandsFor N.Machine m (rows_of hubs feeds subscriptions.old.items) h →
        StandsFor N.Machine m (rows_of hubs feeds subscriptions.new.items) (with_past cancelled sub h)) }
    ensures effect { OnOk result (IsCancelledAt N.Machine sub.0 subscriptions.old.items subscriptions.new.items) }
    ensures known { OnOk result (sub.0 < length subscriptions.old.items) }
    ensures err { IfErr result (λ r. (r ≡ Refusal.UnknownSub) × (length subscriptions.old.items ≤ sub.0)) }
    ensures same { OnErr result (subscriptions.new.items ≡ subscriptions.old.items) }
{
    let at = sub.0 as usize;
    if at >= subscriptions.len() {
        return Err(Refusal::UnknownSub);
    }
    let subscription = &mut subscriptions[at];
    subscription.cancel();
    Ok(())
}
