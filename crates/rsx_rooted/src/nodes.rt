//! What a graph asks of its nodes.

ghost use Rattle.std.specs.Prelude.{◌≡◌, ℕ, Bool, List, Option};
ghost use Rattle.rsx_tree.specs.declared.edge.EdgeState.{EdgeState as EdgeStateSpec};
ghost use Rattle.rsx_rooted.specs.declared.nodes.Route.{Route as RouteSpec};
ghost use Rattle.rsx_types.specs.declared.signal.Ending.{Ending as EndingSpec};
ghost use Rattle.rsx_waits.specs.declared.operator.Operator.{Operator as OperatorSpec};

use rsx_hub::Member;
use rsx_queued::ItemQueue;
use rsx_sources::Machine;
use rsx_tree::Edge;
use rsx_types::{Ending, NoMemory};
use rsx_waits::Operator;
use std::alloc::Global;

/// How an edge joins its two ends.
#[derive(Clone, Copy, Debug, PartialEq, Eq)]
pub enum Route {
    /// It stays in its region, and signals go straight to the receiver.
    Straight,
    /// It crosses to another region, and signals go through its queue. Whether the next signal of the sender can go into the queue
    /// now.
    Queued(bool),
    /// It crosses, the next signal of the sender can go into the queue now, and the sender records it as it goes: to the tree that is
    /// a pick of input 0.
    Recorded,
}

/// Nodes of which the trees of a graph are made. Of a tree that was made for an expression `IsBuilt` and `IsPlaced` say what it is.
pub trait Nodes: Machine {
    /// How the edge of a node joins its two ends, where it has this state, and so much was asked and sent over it.
    ghost route_by: { Self → EdgeStateSpec → ℕ → ℕ → RouteSpec };

    /// Which operator a node is.
    ghost operator_of: { Self → OperatorSpec };

    /// How many signals of an input wait in the node's queue for it. None where it has no such queue.
    ghost queued_of: { Self → ℕ → Option ℕ };

    /// How many signals wait in the queue of the node's edge. None where the edge doesn't cross.
    ghost crossing_of: { Self → Option ℕ };

    /// How many items wait in the node's lanes. None of a node without lanes.
    ghost lanes_of: { Self → Option ℕ };

    ghost use Rattle.std.specs.Prelude.{◌≡◌, ◌<◌, ℕ, false, None, Some};
    ghost use Rattle.rsx_hub.specs.declared.TheConstants.{MOST_ACCEPTED};
    ghost use Rattle.rsx_rooted.specs.Local.{IsLocal};
    ghost use Rattle.rsx_sources.specs.Reading.{Reading};
    ghost use Rattle.rsx_tree.specs.Rests.{IsStuck, Rests};
    ghost use Rattle.rsx_types.specs.Meaning.{Meaning};

    /// How the edge of this node joins its two ends.
    fn route(&self, edge: &Edge) -> Route
        ensures { result ≡ route_by self.now edge.now.state edge.now.demand.asked edge.now.demand.sent };

    /// Which operator this node is.
    fn operator(&self) -> Operator
        ensures { result ≡ operator_of self.now };

    /// How many signals of this input wait in this node's queue for it, the input's ending too: they came in over the edge from the
    /// input, and were not taken out yet. None where the node has no queue for such an input.
    fn queued_at(&self, input: u64) -> Option<u64>
        ensures { result ≡ queued_of self.now input };

    /// How many signals wait in the queue of this node's edge, where the edge crosses to another region, its ending too: they went into
    /// it, and the receiver didn't take them yet. None where the edge doesn't cross.
    fn crossing(&self) -> Option<u64>
        ensures { result ≡ crossing_of self.now };

    /// How many items wait in this node's lanes to be picked; at most 2^63-1. None of a node without lanes.
    fn lanes(&self) -> Option<u64>
        ensures { result ≡ lanes_of self.now };

    /// Where a node goes on, offers nothing though more is asked of it, can make no step, and nothing comes in where it waits for
    /// more, nothing comes out of it.
    ghost rests: { (m : Meaning Self.Item) → Rests Self.Machine m };

    /// A node that reads a hub and has no room for an item of it offers something or can make a step, as long as it has not taken
    /// in as many items as there may be.
    ghost full: { (m : Meaning Self.Item) (n : Self) (r : Reading) (asked sent : ℕ) → Self.reads n ≡ Some r → Self.rooms n ≡ false → r.reached < MOST_ACCEPTED → Self.waiting m n ≡ None → sent < asked → IsStuck Self.picks Self.rows n asked sent → ⊥ };

    /// What comes out of a node depends on no hub but the one that it reads.
    ghost local: { (m : Meaning Self.Item) → IsLocal Self.Machine m };
}

/// Nodes with queues at the edges that cross to another region. At such an edge a tree can be cut: the node goes on without its
/// queue, what the queue held goes over a link, and a node that reads the link takes the place of the edge's node.
pub trait CrossingNodes: Nodes {
    /// The items in the queue of a node's edge, where the edge crosses, and no ending is in the queue.
    ghost edge_queue: { Self → Option (List Self.Item) };

    /// The node with a queue of these items at its edge.
    ghost queued: { List Self.Item → Self → Self };

    /// The node with a queue of these items at its edge, and this ending behind them.
    ghost ended_queue: { EndingSpec → List Self.Item → Self → Self };

    /// The items that a node holds which reads a hub or a link, or did so until that had ended.
    ghost held: { Self → Option (List Self.Item) };

    /// The ending that a node took in which read a hub or a link until that had ended.
    ghost read_to: { Self → Option EndingSpec };

    ghost use Rattle.std.specs.Prelude.{◌≡◌, ◌+◌, ◌≤◌, ◌++◌, ◌∷◌, [], ℕ, List, length, map, true, false, None, Some, OnOk, OnErr, IfOk, IfErr, IfSome, IfNone, option_map};
    ghost use Rattle.rsx_hub.specs.Member.{MemberState};
    ghost use Rattle.rsx_rooted.specs.Cutting.{HoldsEnding, endings, items_of};
    ghost use Rattle.rsx_rooted.specs.Flow.{HoldsQueue, ReadsLink};
    ghost use Rattle.rsx_sources.specs.Machine.{LetsGo};
    ghost use Rattle.rsx_sources.specs.Reading.{Reading};
    ghost use Rattle.rsx_types.specs.Meaning.{Meaning};
    ghost use Rattle.rsx_types.specs.declared.limits.TheConstants.{CAPACITY};
    ghost use Rattle.rsx_types.specs.declared.signal.Ending.TheVariants.{Open};
    ghost use Rattle.rsx_types.specs.declared.signal.Signal.{Signal};
    ghost use Rattle.rsx_types.specs.declared.signal.Signal.TheVariants.{Next};

    /// The node that reads what comes over a link as it would read the hub with this number, by a member that took in nothing
    /// else. It takes the place of a node that sent `before` items.
    ///
    /// # Errors
    /// [`NoMemory`] where a growth was refused.
    fn reader(
        alloc: Global,
        hub: u32,
        member: Member<Self::Item>,
        before: u64,
    ) -> Result<Self, NoMemory>
        requires stays { member.gone ≡ false }
        requires open { member.ending ≡ Open }
        ensures held { IfOk result (λ n. held n ≡ Some member.queue) }
        ensures reads { IfOk result (λ n. Self.reads n ≡ Some (record { hub = hub; reached = member.reached; missed = 0; before = before })) }
        ensures straight { IfOk result (λ n. Self.crosses n ≡ false) }
        ensures goes_on { IfOk result (λ n. Self.ended n ≡ false) }
        ensures counted { IfOk result (λ n. (taken : List ℕ) (sent : ℕ) → sent + length member.queue ≡ member.reached + before → Self.counted n taken sent) };

    /// Whether the node's edge crosses, and has a queue.
    fn is_crossing(&self) -> bool
        ensures { result ≡ Self.crosses self.now };

    /// How many items are in the queue of the node's edge. None where the edge doesn't cross, and where an ending is in the queue
    /// or was.
    fn queue_len(&self) -> Option<usize>
        ensures { result ≡ option_map length (edge_queue self.now) };

    /// Takes the queue off the node, with the items in it. Where it answers none, nothing changes.
    fn take_queue(&mut self) -> Option<ItemQueue<Self::Item>>
        ensures taken { result ≡ edge_queue self.old }
        ensures whole { IfSome result (λ q. self.old ≡ queued q self.new) }
        ensures straight { IfSome result (λ q. Self.crosses self.new ≡ false) }
        ensures same { IfNone result (self.new ≡ self.old) };

    /// Puts this queue at the node's edge, so that the edge crosses.
    ///
    /// # Errors
    /// The queue comes back where the edge crosses already. Then nothing changed.
    fn put_queue(&mut self, queue: ItemQueue<Self::Item>) -> Result<(), ItemQueue<Self::Item>>
        ensures ok { OnOk result (self.new ≡ queued queue self.old) }
        ensures enabled { OnOk result (Self.crosses self.old ≡ false) }
        ensures refused { OnErr result (Self.crosses self.old ≡ true) }
        ensures err { IfErr result (λ q. q ≡ queue) }
        ensures same { OnErr result (self.new ≡ self.old) };

    /// Puts this queue at the node's edge, with this ending behind its items, so that the edge crosses.
    ///
    /// # Errors
    /// The queue comes back where the edge crosses already. Then nothing changed.
    fn put_ended_queue(
        &mut self,
        queue: ItemQueue<Self::Item>,
        ending: Ending,
    ) -> Result<(), ItemQueue<Self::Item>>
        ensures ok { OnOk result (self.new ≡ ended_queue ending queue self.old) }
        ensures enabled { OnOk result (Self.crosses self.old ≡ false) }
        ensures refused { OnErr result (Self.crosses self.old ≡ true) }
        ensures err { IfErr result (λ q. q ≡ queue) }
        ensures same { OnErr result (self.new ≡ self.old) };

    /// How many items the node holds, where it reads a hub or a link, or did so until that had ended; none of any other node.
    fn held_len(&self) -> Option<usize>
        ensures { result ≡ option_map length (held self.now) };

    /// The ending that the node took in, where it read a hub or a link until that had ended.
    fn read_ending(&self) -> Option<Ending>
        ensures { result ≡ read_to self.now };

    /// Puts the items that the node holds in front of those in this queue, which has room for them; the node is dropped. Where it
    /// holds none, the queue stays as it is.
    fn release(self, queue: &mut ItemQueue<Self::Item>)
        requires { length (items_of (held self)) + length queue.old ≤ CAPACITY }
        ensures { queue.new ≡ items_of (held self) ++ queue.old };

    /// The items in the queue come out first; all else is as of the node without it.
    ghost holds: { (m : Meaning Self.Item) (q : List Self.Item) (n : Self) → Self.crosses n ≡ false → HoldsQueue Self.Machine m (queued q n) q n };

    /// Where the node is what another one left that let its ending go, the items in the queue come out first, and then that ending. It has
    /// ended, and reads nothing.
    ghost holds_ending: { (m : Meaning Self.Item) (e : EndingSpec) (q : List Self.Item) (s : Signal Self.Item) (before n : Self) → Self.crosses n ≡ false → endings e ≡ s ∷ [] → Self.waiting m before ≡ Some s → LetsGo (Self.comes_out m) before s n →
        HoldsEnding Self.Machine m (ended_queue e q n) (map Next q ++ s ∷ []) n };

    /// Of all that a link carried, a reader that took in so many items gives out those that it holds, and then the others.
    ghost reads_on: { (m : Meaning Self.Item) (n : Self) (items taken : List Self.Item) (others : List (Signal Self.Item)) (r : Reading) → held n ≡ Some items → Self.reads n ≡ Some r → r.reached ≡ length taken → ReadsLink Self.Machine m r.hub n (map Next taken ++ others) (map Next items ++ others) };

    /// One that took in the ending of a hub or a link gives out the items that it holds, and then that ending, whatever was sent.
    ghost reads_ended: { (m : Meaning Self.Item) (n : Self) (items : List Self.Item) (e : EndingSpec) (k : ℕ) (sent : List (Signal Self.Item)) → held n ≡ Some items → read_to n ≡ Some e → ReadsLink Self.Machine m k n sent (map Next items ++ endings e) };

    /// One that reads a hub or a link goes on. What it missed, what it sent and what it holds is what it got to and what was sent before.
    ghost reads_counted: { (n : Self) (items : List Self.Item) (r : Reading) → held n ≡ Some items → Self.reads n ≡ Some r → (Self.ended n ≡ false) × ((taken : List ℕ) (sent : ℕ) → Self.counted n taken sent → r.missed + sent + length items ≡ r.reached + r.before) };

    /// One that reads a hub or a link has taken in no ending of it.
    ghost reads_still: { (n : Self) (r : Reading) → Self.reads n ≡ Some r → read_to n ≡ None };
}
