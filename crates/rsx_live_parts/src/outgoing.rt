//! The part of a subscription becomes a piece, which sends into a link.

ghost use Rattle.std.specs.Prelude.{◌≡◌, ◌+◌, ◌-◌, ◌<◌, ◌≤◌, ◌++◌, ◌∷◌, [], drop, false, length, true, IfErr, IfOk};
ghost use Rattle.rsx_link.specs.Ends.{IsUpOf, MaySend, SameUp, free_slots, items_sent, seen_total, sent_signals};
ghost use Rattle.rsx_link.specs.Signals.{items_in};
ghost use Rattle.rsx_live_parts.specs.Outgoing.{CountsOn, IsFresh, IsOutOf, IsTapFor, MayGoOut};

use crate::unread::reads_nothing;
use rsx_demand::Demand;
use rsx_link::{Link, Up};
use rsx_pipe::{Nodes, SignalQueue};
use rsx_region::Piece;
use rsx_runtime::Tap;
use rsx_subscriber::{Subscription, SubscriptionParts, SubscriptionState};
use rsx_types::{CAPACITY, Signal, SubId};
use std::alloc::Global;

/// A subscription whose part has become a piece.
#[derive(Drop)]
pub struct Outgoing<N, T> {
    /// Its part, which sends into the link.
    pub piece: Piece<N, T>,
    /// The link. It has room for as many signals as the queue of the subscription.
    pub link: Link<T>,
    /// By which its subscriber requests, takes and cancels.
    pub tap: Tap<T>,
    /// The queue of its root edge. It is empty.
    pub queue: SignalQueue<T>,
}

/// Why a subscription stays as it is.
#[derive(Clone, Copy, Debug, PartialEq, Eq)]
pub enum Stay {
    /// It isn't open, or its root edge isn't live or counts otherwise than its subscriber, or some node of it reads a hub.
    Whole,
    /// A growth was refused.
    NoMemory,
}

/// Makes a piece of the part of a subscription, which sends into a new link with the number `link`, and a tap of the receiving end. What
/// its queue held is sent into the link, which counts on from what the subscriber asked for and was delivered.
/// [`come_back`](crate::come_back) undoes it.
///
/// # Errors
/// The subscription comes back as it was, with the first of these reasons: [`Stay::Whole`] exactly where it isn't open, where its root
/// edge isn't live or counts otherwise than its subscriber with its queue, and where some node reads a hub; [`Stay::NoMemory`] where a
/// growth was refused.
pub fn go_out<N: Nodes<Item = T> + Drop, T: Drop>(
    alloc: Global,
    sub: Subscription<N, T>,
    id: SubId,
    link: u32,
) -> Result<Outgoing<N, T>, (Subscription<N, T>, Stay)>
    ensures out { IfOk result (λ o. IsOutOf N.Machine sub link o.piece o.link) }
    ensures tap { IfOk result (λ o. IsTapFor sub o.link o.tap × (o.tap.link ≡ link)) }
    ensures fresh { IfOk result (λ o. IsFresh sub o.tap) }
    ensures queue { IfOk result (λ o. o.queue ≡ []) }
    ensures err { IfErr result (λ e. e.0 ≡ sub) }
    ensures whole { IfErr result (λ e. e.1 ≡ Stay.Whole → MayGoOut N.Machine sub → ⊥) }
    ensures memory { IfErr result (λ e. e.1 ≡ Stay.NoMemory → MayGoOut N.Machine sub) }
{
    if !may_go_out(&sub) {
        return Err((sub, Stay::Whole));
    }
    let demand = Demand {
        asked: sub.asked(),
        sent: sub.delivered(),
    };
    let Ok((made, mut up, down, seat)) = Link::open(alloc, CAPACITY, demand) else {
        return Err((sub, Stay::NoMemory));
    };
    let SubscriptionParts {
        part,
        mut queue,
        ..
    } = sub.take_apart();
    pour(&mut queue, &mut up, &made);
    Ok(Outgoing {
        piece: Piece::new(alloc, part, link, up),
        link: made,
        tap: Tap::new(id, link, down, seat, true),
        queue,
    })
}

/// Whether a link can count on from where the subscription is, and its part can go on as a piece.
fn may_go_out<N: Nodes<Item = T> + Drop, T: Drop>(sub: &Subscription<N, T>) -> bool
    ensures yes { result ≡ true → MayGoOut N.Machine sub.now }
    ensures no { result ≡ false → MayGoOut N.Machine sub.now → ⊥ }
{
    if !matches!(sub.standing(), SubscriptionState::Open) || !counts_on(sub) {
        return false;
    }
    reads_nothing(&sub.part().rooted().tree)
}

/// Whether the root edge is live, and as much was asked and sent over it as the link will count.
fn counts_on<N: Nodes<Item = T> + Drop, T: Drop>(sub: &Subscription<N, T>) -> bool
    ensures yes { result ≡ true → CountsOn sub.now }
    ensures no { result ≡ false → CountsOn sub.now → ⊥ }
{
    let root = sub.part().root_edge();
    let queue = sub.queue();
    if !root.is_live() || root.demand.asked() != sub.asked() || queue.len() > CAPACITY {
        return false;
    }
    let sent = root.demand.sent();
    sub.delivered() <= sent && sent - sub.delivered() == items_from(queue, 0)
}

/// How many items are in the queue, from this place on. It calls itself at most [`CAPACITY`] deep.
fn items_from<T: Drop>(queue: &SignalQueue<T>, at: usize) -> u64
    ensures items { result ≡ items_in (drop at queue.now) }
    ensures few { result ≤ length queue.now - at }
{
    if at >= queue.len() {
        return 0;
    }
    let others = items_from(queue, at + 1);
    match queue.at(at) {
        Signal::Next(_) => others + 1,
        Signal::Complete | Signal::Error(_) => others,
    }
}

/// Sends all signals of the queue into the link, which has room for them, and where enough was asked for. It calls itself at most
/// [`CAPACITY`] deep.
fn pour<T: Drop>(queue: &mut SignalQueue<T>, up: &mut Up<T>, link: &Link<T>)
    requires end { IsUpOf link.now up.old }
    requires room { length queue.old ≤ free_slots up.old }
    requires asked { items_sent up.old + items_in queue.old ≤ seen_total up.old }
    ensures same { SameUp link.now up.old up.new }
    ensures sent { sent_signals up.new ≡ sent_signals up.old ++ queue.old }
    ensures empty { queue.new ≡ [] }
{
    if let Some(signal) = queue.pop() {
        send(up, link, signal);
        pour(queue, up, link);
    }
}

/// Sends a signal into the link, which has room for it.
fn send<T: Drop>(up: &mut Up<T>, link: &Link<T>, signal: Signal<T>)
    requires end { IsUpOf link.now up.old }
    requires room { 0 < free_slots up.old }
    requires asked { MaySend up.old signal }
    ensures same { SameUp link.now up.old up.new }
    ensures sent { sent_signals up.new ≡ sent_signals up.old ++ signal ∷ [] }
    ensures room { free_slots up.old ≤ free_slots up.new + 1 }
{
    // It doesn't come back.
    let _ = up.send(link, signal);
}
