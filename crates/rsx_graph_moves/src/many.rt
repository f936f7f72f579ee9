//! One move of a graph, made many times in one call.

ghost use Rattle.std.specs.Prelude.{◌≡◌, ◌<◌, ◌≤◌, List, OnOk, OnErr, IfOk, IfErr, length};
ghost use Rattle.rsx_hub.specs.Hub.{HubState};
ghost use Rattle.rsx_graph_state.specs.Answers.{IsSubMoveRefusal};
ghost use Rattle.rsx_graph_state.specs.Moves.{rows_of};
ghost use Rattle.rsx_graph_state.specs.Subscriptions.{enabled_at};
ghost use Rattle.rsx_graph_state.specs.declared.feed.Feed.{Feed as FeedOf};
ghost use Rattle.rsx_graph_state.specs.declared.refusal.Refusal.{Refusal as RefusalOf};
ghost use Rattle.rsx_subscriber.specs.Delivered.{IsFull};
ghost use Rattle.rsx_subscriber.specs.Moves.{delivery};
ghost use Rattle.rsx_types.specs.Meaning.{Meaning};
ghost use Rattle.rsx_graph_moves.specs.Many as spec;
ghost use Rattle.rsx_graph_moves.specs.Many.{IsMadeTimes, IsNextRefused};

use crate::make;
use rsx_graph_state::{Feed, Refusal};
use rsx_hub::Hub;
use rsx_pipe::{MOST_AT_ONCE, Nodes};
use rsx_sources::NotMade;
use rsx_subscriber::{Deliveries, Subscription};
use rsx_types::{Move, Ops, SubId, Tree};
use std::alloc::Global;

/// Makes a move `n` times, as so many calls of [`make`] would: a Send or a Take at most [`MOST_AT_ONCE`] times, and any other move
/// once at most. It ends before that where the move isn't enabled any more or meets want of memory, and answers how many it made.
/// What is delivered is put into `out`, behind what stands there; room for a signal is made before the Take that delivers it. With an
/// `n` of 0 it answers 0, whatever the move names, and nothing changes.
///
/// # Errors
/// Those of [`make`] at the first of them, and [`Refusal::NoMemory`] also where that delivers and `out` has no room for one signal
/// more; nothing changed.
pub fn make_many<N: Nodes<Item = O::Item>, O: Ops>(
    alloc: Global,
    ops: &O,
    hubs: &mut Vec<Hub<O::Item>>,
    feeds: &mut Vec<Feed<N>>,
    subscriptions: &mut Vec<Subscription<N, O::Item>>,
    step: Move,
    n: u32,
    out: &mut Deliveries<O::Item>,
) -> Result<u32, Refusal>
    ensures hubs { length hubs.new.items ≡ length hubs.old.items }
    ensures feeds { length feeds.new.items ≡ length feeds.old.items }
    ensures subscriptions { length subscriptions.new.items ≡ length subscriptions.old.items }
    ensures made { IfOk result (λ k. IsMadeTimes N.Machine N.Nodes.own (O.meaning ops.now) step k (rows_of hubs.old.items feeds.old.items subscriptions.old.items) out.old (rows_of hubs.new.items feeds.new.items subscriptions.new.items) out.new) }
    ensures count { IfOk result (λ k. (k ≤ spec.most_of step n) × (0 < n → 0 < k)) }

    // Where it made fewer than it may, the next one is refused.
    ensures ended { IfOk result (λ k. k < spec.most_of step n → (why : RefusalOf) ×
        IsNextRefused N.Machine N.Nodes.own (O.meaning ops.now) (O.allocates ops.now) step (rows_of hubs.new.items feeds.new.items subscriptions.new.items) out.new why) }
    ensures err { IfErr result (λ why. (0 < n) ×
        IsNextRefused N.Machine N.Nodes.own (O.meaning ops.now) (O.allocates ops.now) step (rows_of hubs.old.items feeds.old.items subscriptions.old.items) out.old why) }
    ensures none { n ≡ 0 → out.new ≡ out.old }
    ensures same { OnErr result ((hubs.new.items ≡ hubs.old.items) × (feeds.new.items ≡ feeds.old.items) × (subscriptions.new.items ≡ subscriptions.old.items) × (out.new ≡ out.old)) }
{
    if n == 0 {
        return Ok(0);
    }
    match make_into(alloc, ops, hubs, feeds, subscriptions, step, out) {
        Ok(()) => {}
        Err(why) => return Err(why),
    }
    let most = most_of(step, n);
    for made in 1..most {
        match make_into(alloc, ops, hubs, feeds, subscriptions, step, out) {
            Ok(()) => {}
            Err(_) => return Ok(made),
        }
    }
    Ok(most)
}

/// How often a call makes a move at most, where `n` are wanted.
fn most_of(step: Move, n: u32) -> u32
    ensures { result ≡ spec.most_of step n }
{
    match step {
        Move::Send(_, _) | Move::Take(_, _) => n.min(MOST_AT_ONCE),
        Move::Ask(_, _) | Move::Pick(_, _, _) | Move::Row(_, _) | Move::Accept(_) => n.min(1),
    }
}

/// Makes a move, and puts what it delivers into `out`.
fn make_into<N: Nodes<Item = O::Item>, O: Ops>(
    alloc: Global,
    ops: &O,
    hubs: &mut Vec<Hub<O::Item>>,
    feeds: &mut Vec<Feed<N>>,
    subscriptions: &mut Vec<Subscription<N, O::Item>>,
    step: Move,
    out: &mut Deliveries<O::Item>,
) -> Result<(), Refusal>
    ensures hubs { length hubs.new.items ≡ length hubs.old.items }
    ensures feeds { length feeds.new.items ≡ length feeds.old.items }
    ensures subscriptions { length subscriptions.new.items ≡ length subscriptions.old.items }
    ensures made { OnOk result (IsMadeTimes N.Machine N.Nodes.own (O.meaning ops.now) step 1 (rows_of hubs.old.items feeds.old.items subscriptions.old.items) out.old (rows_of hubs.new.items feeds.new.items subscriptions.new.items) out.new) }
    ensures err { IfErr result (λ why. IsNextRefused N.Machine N.Nodes.own (O.meaning ops.now) (O.allocates ops.now) step (rows_of hubs.old.items feeds.old.items subscriptions.old.items) out.old why) }
    ensures same { OnErr result ((hubs.new.items ≡ hubs.old.items) × (feeds.new.items ≡ feeds.old.items) × (subscriptions.new.items ≡ subscriptions.old.items) × (out.new ≡ out.old)) }
{
    match subscriber_of(step) {
        Some(sub) => {
            return match take_into(subscriptions, sub, out) {
                Ok(()) => Ok(()),
                Err(why) => Err(why),
            };
        }
        None => {}
    }
    match make(alloc, ops, hubs, feeds, subscriptions, step) {
        Ok(_) => {}
        Err(why) => return Err(why),
    }
    Ok(())
}

/// To whom a move delivers: the subscriber whose root edge it takes from. None where it is another move, which delivers nothing.
fn subscriber_of(step: Move) -> Option<SubId>
    ensures { result ≡ spec.delivers_to step }
{
    match step {
        Move::Take(Tree::Sub(sub), node) => match node.0 == 0 {
            true => Some(sub),
            false => None,
        },
        Move::Take(Tree::Feed(_), _) => None,
        Move::Ask(_, _) | Move::Send(_, _) => None,
        Move::Pick(_, _, _) | Move::Row(_, _) | Move::Accept(_) => None,
    }
}

/// Makes the Take from the root edge of a subscription, and puts its signal into `out`.
fn take_into<N: Nodes<Item = T>, T: Drop>(
    subscriptions: &mut Vec<Subscription<N, T>>,
    sub: SubId,
    out: &mut Deliveries<T>,
) -> Result<(), Refusal>
    ensures count { length subscriptions.new.items ≡ length subscriptions.old.items }
    ensures made { OnOk result ((m : Meaning T) (hubs : List (HubState T)) (feeds : List (FeedOf N)) →
        IsMadeTimes N.Machine N.Nodes.own m (delivery sub) 1 (rows_of hubs feeds subscriptions.old.items) out.old (rows_of hubs feeds subscriptions.new.items) out.new) }
    ensures err { IfErr result (λ why. (m : Meaning T) →
        IsSubMoveRefusal (length subscriptions.old.items) (enabled_at N.Machine N.Nodes.own m subscriptions.old.items sub.0 (delivery sub)) sub why) }
    ensures full { IfErr result (λ why. why ≡ Refusal.NoMemory → IsFull out.old) }
    ensures same { OnErr result ((subscriptions.new.items ≡ subscriptions.old.items) × (out.new ≡ out.old)) }
{
    let at = sub.0 as usize;
    if at >= subscriptions.len() {
        return Err(Refusal::UnknownSub);
    }
    let subscription = &mut subscriptions[at];
    match subscription.take_into(sub, out) {
        Ok(()) => Ok(()),
        Err(NotMade::NotEnabled) => Err(Refusal::NotEnabled),
        Err(NotMade::NoMemory) => Err(Refusal::NoMemory),
    }
}
