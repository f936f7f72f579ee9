//! What a subscriber waits for.

ghost use Rattle.std.specs.Prelude.{◌≡◌, ◌<◌, ◌≤◌, ◌^◌, Some, true, IfOk, IfErr, IfSome, IfNone, OnSome, false, length, slice_get};
ghost use Rattle.rsx_types.specs.Meaning.{Meaning};
ghost use Rattle.rsx_subscriber.specs.Moves.{tree_of};
ghost use Rattle.rsx_subscriber.specs.Pumped.{IsAwake, IsQuiet};
ghost use Rattle.rsx_subscriber.specs.Stands.{move_enabled_in, standing_of};
ghost use Rattle.rsx_subscriber.specs.declared.subscription.Subscription.{Subscription as SubscriptionOf};
ghost use Rattle.rsx_graph_state.specs.Moves.{rows_of};
ghost use Rattle.rsx_graph_state.specs.History.{History};
ghost use Rattle.rsx_graph_state.specs.Stands.{StandsFor};
ghost use Rattle.rsx_graph_moves.specs.Pumped.{IsAllQuiet};
ghost use Rattle.rsx_pipe.specs.Tree.{IsWithin};
ghost use Rattle.rsx_graph_moves.specs.Explained.{IsWait, is_for_pump};

use crate::hub_waits::hub_wait;
use crate::leaf::waiting_leaf;
use rsx_graph_state::{Feed, Refusal};
use rsx_hub::Hub;
use rsx_pipe::Nodes;
use rsx_subscriber::{Subscription, SubscriptionState};
use rsx_types::{HubId, Move, NodeId, SubId, Tree};
use rsx_waits::Wait;

/// What the subscriber of the subscription with this number waits for first. It takes no memory.
///
/// - [`Wait::Enabled`] where a move in its tree is enabled, so in an idle graph never;
/// - else [`Wait::Request`] where it received all that it asked for;
/// - else [`Wait::Hub`], the first node of its tree in pre-order that waits for the hub that it reads, with why nothing comes from
///   there.
///
/// # Errors
/// G2 exactly where there is no such subscription.
pub fn explain<N: Nodes<Item = T>, T: Drop>(
    hubs: &[Hub<T>],
    feeds: &[Feed<N>],
    subscriptions: &[Subscription<N, T>],
    sub: SubId,
) -> Result<Wait, Refusal>
    requires few { length subscriptions.now < 2 ^ 32 }
    requires few_hubs { length hubs.now < 2 ^ 32 }
    ensures waits { (m : Meaning T) → IfOk result (λ wait. IsWait N.Machine N.Nodes.own m (rows_of hubs.now feeds.now subscriptions.now) sub wait) }

    // Where no move of the graph is enabled, it isn't a pump that is waited for.
    ensures idle { (m : Meaning T) → IsAllQuiet N.Machine N.Nodes.own m (rows_of hubs.now feeds.now subscriptions.now) → IfOk result (λ wait. is_for_pump wait ≡ false) }

    // Where the rows stand for a history, and no edge of the tree has carried 2^63-1 items, it is known for what is waited.
    ensures known { (m : Meaning T) (h : History T) (s : SubscriptionOf N T) → StandsFor N.Machine m (rows_of hubs.now feeds.now subscriptions.now) h →
        slice_get subscriptions.now sub.0 ≡ Some s → IsWithin s.part.tree → IfOk result (λ wait. wait ≡ Wait.Unknown → ⊥) }
    ensures err { IfErr result (λ r. (r ≡ Refusal.UnknownSub) × (length subscriptions.now ≤ sub.0)) }
{
    let at = sub.0 as usize;
    if at >= subscriptions.len() {
        return Err(Refusal::UnknownSub);
    }
    match subscriptions[at].standing() {
        SubscriptionState::Open => Ok(open_wait(hubs, feeds, subscriptions, sub)),
        SubscriptionState::Ended => Ok(Wait::Ended),
        SubscriptionState::Cancelled => Ok(Wait::Cancelled),
        SubscriptionState::Refused => Ok(Wait::Refused),
    }
}

/// The same of a subscription that is there and open.
fn open_wait<N: Nodes<Item = T>, T: Drop>(
    hubs: &[Hub<T>],
    feeds: &[Feed<N>],
    subscriptions: &[Subscription<N, T>],
    sub: SubId,
) -> Wait
    requires few { length subscriptions.now < 2 ^ 32 }
    requires few_hubs { length hubs.now < 2 ^ 32 }
    requires there { sub.0 < length subscriptions.now }
    requires state { (s : SubscriptionOf N T) → slice_get subscriptions.now sub.0 ≡ Some s → standing_of s ≡ SubscriptionState.Open }
    ensures { (m : Meaning T) → IsWait N.Machine N.Nodes.own m (rows_of hubs.now feeds.now subscriptions.now) sub result }
{
    let subscription = &subscriptions[sub.0 as usize];
    if let Some(step) = first_move(subscription, sub) {
        return Wait::Enabled(step);
    }
    let asked = subscription.asked();
    if subscription.delivered() == asked {
        return Wait::Request(asked);
    }
    let rooted = subscription.part().rooted();
    let Some(leaf) = waiting_leaf(&rooted.root, &rooted.tree) else {
        return Wait::Unknown;
    };
    if leaf.hub >= hubs.len() as u64 {
        return Wait::Unknown;
    }
    let hub = HubId(leaf.hub as u32);
    let why = hub_wait(hubs, feeds, subscriptions, hub);
    Wait::Hub(NodeId(leaf.node), hub, why)
}

/// The first enabled move of a subscription with this number. None where no move of it is enabled.
fn first_move<N: Nodes<Item = T>, T: Drop>(
    subscription: &Subscription<N, T>,
    sub: SubId,
) -> Option<Move>
    ensures some { (m : Meaning T) → IfSome result (λ step. (tree_of step ≡ Tree.Sub sub) × (move_enabled_in N.Machine N.Nodes.own m subscription.now step ≡ true)) }
    ensures awake { (m : Meaning T) → OnSome result (IsAwake N.Machine m subscription.now) }
    ensures none { (m : Meaning T) → IfNone result (IsQuiet N.Machine m subscription.now) }
{
    if subscription.is_idle() {
        return None;
    }
    subscription.first_enabled(sub)
}
