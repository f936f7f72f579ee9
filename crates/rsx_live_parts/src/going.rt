//! Subscriptions go live.

ghost use Rattle.std.specs.Prelude.{◌≡◌, ◌<◌, ◌≤◌, List, [], false, length, IfErr, IfOk};
ghost use Rattle.std.specs.List.{AllZip};
ghost use Rattle.std.specs.Vec.{vec_capacity};
ghost use Rattle.rsx_gate.specs.Machine.{all_parts};
ghost use Rattle.rsx_gate.specs.Seats.{IsSeatOf};
ghost use Rattle.rsx_live_parts.specs.Kept.{AllMustStay, AreOut, AreTapsFrom};
ghost use Rattle.rsx_live_parts.specs.Lives.{AreAllCut, AreCutOut, ComeBack, HaveGoneOut, IsLiveFor};
ghost use Rattle.rsx_region.specs.Pieces.{Each};
ghost use Rattle.rsx_subscriber.specs.declared.subscription.Subscription.{Subscription as SubscriptionSpec};

use crate::cutting::cut_all;
use crate::kept::{Kept, Parted};
use crate::lives::{LiveSubscriptions, come_back_all, join_trees};
use rsx_pipe::{CrossingNodes, Nodes};
use rsx_region::CutTrees;
use rsx_runtime::{Begun, Live, RegionSeat, Tap};
use rsx_subscriber::Subscription;
use rsx_types::Ops;
use std::alloc::Global;

/// How many numbers there are under which links are read.
const NUMBERS: u64 = 4_294_967_296;

/// Subscriptions that have gone live.
#[derive(Drop)]
pub struct Started<N: Nodes<Item = T>, T: Drop, O: Ops<Item = T>> {
    /// The subscriptions.
    pub live: LiveSubscriptions<N, T, O>,
    /// The taps of those whose parts are in regions, in the order of their numbers.
    pub taps: Vec<Tap<T>>,
    /// A seat for each region, in their order. Each has all parts.
    pub seats: Vec<RegionSeat<N, T, O>>,
}

/// Subscriptions did not go live.
#[derive(Drop)]
pub enum NotLive<N, T, O> {
    /// A growth was refused, or there are more than 2^32 subscriptions. They come back, with the functions.
    NoMemory(O, Vec<Subscription<N, T>>),
    /// The same, and then pieces could not be joined, which is not proved never to come, and no test met it. Nothing comes back.
    NotJoined,
}

/// What becomes of the subscriptions, beside the trees of the pieces.
#[derive(Drop)]
struct Rest<N, T> {
    taps: Vec<Tap<T>>,
    kept: Vec<Kept<N, T>>,
    /// The list in which the subscriptions come back. It is empty, and has room for them.
    room: Vec<Subscription<N, T>>,
    ghost none: { room.items ≡ [] },
    ghost fits: { length kept.items ≤ vec_capacity room },
}

/// Puts the parts of subscriptions into so many regions, where their roots and the senders of their crossing edges are, each of which has
/// a gate. A part goes there exactly where its subscription is open, its root has not ended, and it reads no hub
/// ([`go_out`](crate::go_out) says of each); the others stay as they are until the close. `roots` has the region of each root, and `senders` of each tree those of the senders over its edges below the root
/// that cross, in pre-order; a region that isn't there counts as region 0. [`LiveSubscriptions::close`] undoes it.
///
/// # Errors
/// [`NotLive::NoMemory`] where a growth was refused, or there are more than 2^32 subscriptions. They come back, and stand for what they
/// stood for. [`NotLive::NotJoined`] in place of it only where pieces that were cut can't be joined again
/// ([`CutTrees::join_all`](rsx_region::CutTrees::join_all)). Nothing comes back then.
pub fn go_live<N: CrossingNodes<Item = T> + Drop, T: Drop, O: Ops<Item = T>>(
    alloc: Global,
    ops: O,
    subs: Vec<Subscription<N, T>>,
    roots: &[u8],
    senders: &[Vec<u8>],
    workers: u8,
) -> Result<Started<N, T, O>, NotLive<N, T, O>>
    requires { 0 < workers }
    ensures live { IfOk result (λ s. IsLiveFor N.Machine N.CrossingNodes.own O.meaning subs.items s.live) }
    ensures taps { IfOk result (λ s. AreTapsFrom s.live.live.links.items 0 s.live.kept.items s.taps.items) }
    ensures seats { IfOk result (λ s. AllZip (λ g x. IsSeatOf g x × (all_parts ≤ x.me.0.parts)) s.live.live.gates.items s.seats.items) }
    ensures gates { IfOk result (λ s. (length s.live.live.gates.items ≡ workers) × (s.live.live.ops ≡ ops) × (length s.live.kept.items ≡ length subs.items)) }
    ensures stay { IfOk result (λ s. AllMustStay N.Machine s.live.kept.items) }
    ensures cut { IfOk result (λ s. AreAllCut N.Machine N.CrossingNodes.own subs.items s.live.kept.items s.live.live.links.items) }
    ensures err { IfErr result (λ e. ComeBack N.Machine N.CrossingNodes.own O.meaning ops subs.items e) }
{
    let Ok(room) = Vec::with_capacity(alloc, subs.len()) else {
        return Err(NotLive::NoMemory(ops, subs));
    };
    match Parted::of(alloc, subs) {
        Ok(parted) => part_live(alloc, ops, parted, room, roots, senders, workers),
        Err(subs) => Err(NotLive::NoMemory(ops, subs)),
    }
}

/// Cuts the trees of parted subscriptions, and puts the pieces into regions.
fn part_live<N: CrossingNodes<Item = T> + Drop, T: Drop, O: Ops<Item = T>>(
    alloc: Global,
    ops: O,
    parted: Parted<N, T>,
    room: Vec<Subscription<N, T>>,
    roots: &[u8],
    senders: &[Vec<u8>],
    workers: u8,
) -> Result<Started<N, T, O>, NotLive<N, T, O>>
    requires some { 0 < workers }
    requires none { room.items ≡ [] }
    requires room { length parted.kept.items ≤ vec_capacity room }
    requires out { (subs : List (SubscriptionSpec N T)) × AreOut N.Machine 0 subs parted.kept.items parted.pieces.items parted.links.items parted.taps.items }
    ensures live { IfOk result (λ s. (subs : List (SubscriptionSpec N T)) → AreOut N.Machine 0 subs parted.kept.items parted.pieces.items parted.links.items parted.taps.items → IsLiveFor N.Machine N.CrossingNodes.own O.meaning subs s.live) }
    ensures taps { IfOk result (λ s. AreTapsFrom s.live.live.links.items 0 s.live.kept.items s.taps.items) }
    ensures seats { IfOk result (λ s. AllZip (λ g x. IsSeatOf g x × (all_parts ≤ x.me.0.parts)) s.live.live.gates.items s.seats.items) }
    ensures gates { IfOk result (λ s. (length s.live.live.gates.items ≡ workers) × (s.live.live.ops ≡ ops) × (s.live.kept ≡ parted.kept)) }
    ensures stay { IfOk result (λ s. (parted.refused ≡ false → AllMustStay N.Machine parted.kept.items) → AllMustStay N.Machine s.live.kept.items) }
    ensures cut { IfOk result (λ s. (subs : List (SubscriptionSpec N T)) → AreOut N.Machine 0 subs parted.kept.items parted.pieces.items parted.links.items parted.taps.items → AreAllCut N.Machine N.CrossingNodes.own subs s.live.kept.items s.live.live.links.items) }
    ensures err { IfErr result (λ e. (subs : List (SubscriptionSpec N T)) → AreOut N.Machine 0 subs parted.kept.items parted.pieces.items parted.links.items parted.taps.items → ComeBack N.Machine N.CrossingNodes.own O.meaning ops subs e) }
{
    let Parted {
        pieces,
        links,
        taps,
        kept,
        refused,
    } = parted;
    let mut trees = CutTrees::new(alloc, pieces, links);
    if refused {
        return Err(give_back(ops, trees, Rest { taps, kept, room }));
    }
    let Ok(places) = cut_all(alloc, &mut trees, &taps, roots, senders, workers) else {
        return Err(give_back(ops, trees, Rest { taps, kept, room }));
    };
    begin(
        alloc,
        ops,
        trees,
        places,
        workers,
        Rest { taps, kept, room },
    )
}

/// Puts the pieces of trees that were cut into regions.
fn begin<N: CrossingNodes<Item = T> + Drop, T: Drop, O: Ops<Item = T>>(
    alloc: Global,
    ops: O,
    trees: CutTrees<N, T>,
    places: Vec<u8>,
    workers: u8,
    rest: Rest<N, T>,
) -> Result<Started<N, T, O>, NotLive<N, T, O>>
    requires count { length places.items ≡ length trees.pieces.items }
    requires there { Each (λ p. p < workers) places.items }
    requires from { (subs : List (SubscriptionSpec N T)) × AreCutOut N.Machine N.CrossingNodes.own (O.meaning ops) subs rest.kept.items rest.taps.items trees }
    ensures live { IfOk result (λ s. (subs : List (SubscriptionSpec N T)) → AreCutOut N.Machine N.CrossingNodes.own (O.meaning ops) subs rest.kept.items rest.taps.items trees → IsLiveFor N.Machine N.CrossingNodes.own O.meaning subs s.live) }
    ensures taps { IfOk result (λ s. AreTapsFrom s.live.live.links.items 0 s.live.kept.items s.taps.items) }
    ensures seats { IfOk result (λ s. AllZip (λ g x. IsSeatOf g x × (all_parts ≤ x.me.0.parts)) s.live.live.gates.items s.seats.items) }
    ensures gates { IfOk result (λ s. (length s.live.live.gates.items ≡ workers) × (s.live.live.ops ≡ ops) × (s.live.kept ≡ rest.kept) × (s.live.live.links ≡ trees.links)) }
    ensures err { IfErr result (λ e. (subs : List (SubscriptionSpec N T)) → AreCutOut N.Machine N.CrossingNodes.own (O.meaning ops) subs rest.kept.items rest.taps.items trees → ComeBack N.Machine N.CrossingNodes.own O.meaning ops subs e) }
{
    match Live::begin(alloc, ops, trees, places, workers, NUMBERS) {
        Ok(Begun { live, seats, plan }) => {
            let Rest { taps, kept, room } = rest;
            let live = LiveSubscriptions {
                live,
                plan,
                kept,
                room,
            };
            Ok(Started { live, taps, seats })
        }
        Err((ops, trees, _)) => Err(give_back(ops, trees, rest)),
    }
}

/// Gives the subscriptions back of trees that may be cut.
fn give_back<N: CrossingNodes<Item = T> + Drop, T: Drop, O: Ops<Item = T>>(
    ops: O,
    trees: CutTrees<N, T>,
    rest: Rest<N, T>,
) -> NotLive<N, T, O>
    requires { (subs : List (SubscriptionSpec N T)) × HaveGoneOut N.Machine N.CrossingNodes.own (O.meaning ops) subs rest.kept.items rest.taps.items trees }
    ensures { (subs : List (SubscriptionSpec N T)) → HaveGoneOut N.Machine N.CrossingNodes.own (O.meaning ops) subs rest.kept.items rest.taps.items trees → ComeBack N.Machine N.CrossingNodes.own O.meaning ops subs result }
{
    let mut trees = trees;
    let Rest { taps, kept, room } = rest;
    match join_trees(&mut trees) {
        Ok(()) => NotLive::NoMemory(ops, come_back_all(trees, taps, kept, room)),
        Err(_) => NotLive::NotJoined,
    }
}
