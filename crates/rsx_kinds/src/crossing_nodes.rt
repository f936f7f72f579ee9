//! The nodes that there are, where a tree is cut at an edge that crosses.

ghost use Rattle.std.specs.Prelude.{◌≡◌, ◌+◌, ◌≤◌, ◌++◌, length, true, false, IfSome, IfNone, IfErr, OnOk, OnErr};
ghost use Rattle.rsx_kinds.specs.Crossings.{is_crossing};
ghost use Rattle.rsx_kinds.specs.Cutting.{queue_of, tail_of, with_ended_queue, with_queue, with_tail};
ghost use Rattle.rsx_types.specs.declared.limits.TheConstants.{CAPACITY};

use crate::{AnyNode, Boxed, SourceNode, TreeNode};
use rsx_hub::{HubLeaf, Member};
use rsx_queued::{ItemQueue, Queued, Sender, Tail};
use rsx_rooted::CrossingNodes;
use rsx_sources::{Machine, RangeNode};
use rsx_types::{Ending, NoMemory};
use std::alloc::Global;

impl<T: Drop> CrossingNodes for TreeNode<T> {
    ghost use Rattle.std.specs.Prelude.{◌≡◌, ◌+◌, ℕ, List, length, true, false, Some, IfOk, IfErr, OnOk, OnErr};
    ghost use Rattle.rsx_kinds.specs.Crossings.{is_crossing};
    ghost use Rattle.rsx_kinds.specs.Cutting.{node_counted, node_ended, node_held, node_read_to, node_reads, queue_of, with_ended_queue, with_queue};
    ghost use Rattle.rsx_types.specs.declared.signal.Ending.TheVariants.{Open};
    ghost use Rattle.rsx_kinds.specs.Local.{any_holds, any_holds_ending, any_reads_counted, any_reads_ended, any_reads_on, any_reads_still};

    ghost edge_queue = { queue_of };

    ghost queued = { with_queue };

    ghost ended_queue = { with_ended_queue };

    ghost held = { node_held };

    ghost read_to = { node_read_to };

    fn reader(
        alloc: Global,
        hub: u32,
        member: Member<T>,
        before: u64,
    ) -> Result<TreeNode<T>, NoMemory>
        requires stays { member.gone ≡ false }
        requires open { member.ending ≡ Open }
        ensures held { IfOk result (λ n. node_held n ≡ Some member.queue) }
        ensures reads { IfOk result (λ n. node_reads n ≡ Some (record { hub = hub; reached = member.reached; missed = 0; before = before })) }
        ensures straight { IfOk result (λ n. is_crossing n ≡ false) }
        ensures goes_on { IfOk result (λ n. node_ended n ≡ false) }
        ensures counted { IfOk result (λ n. (taken : List ℕ) (sent : ℕ) → sent + length member.queue ≡ member.reached + before → node_counted n taken sent) }
    {
        let leaf = HubLeaf::of_link(hub, member, before);
        Boxed::new(
            alloc,
            Sender::Direct(AnyNode::Source(SourceNode::Hub(leaf))),
        )
    }

    fn is_crossing(&self) -> bool {
        match self.node() {
            Sender::Direct(_) => false,
            Sender::Crossing(_) => true,
        }
    }

    fn queue_len(&self) -> Option<usize> {
        match self.node() {
            Sender::Crossing(queued) => match queued.tail {
                Tail::Open => Some(queued.queue.len()),
                Tail::Completion | Tail::Failure(_) | Tail::Taken => None,
            },
            Sender::Direct(_) => None,
        }
    }

    fn take_queue(&mut self) -> Option<ItemQueue<T>> {
        take_off(self, stand_in())
    }

    fn put_queue(&mut self, queue: ItemQueue<T>) -> Result<(), ItemQueue<T>>
        ensures ok { OnOk result (self.new ≡ with_queue queue self.old) }
        ensures enabled { OnOk result (is_crossing self.old ≡ false) }
        ensures refused { OnErr result (is_crossing self.old ≡ true) }
        ensures err { IfErr result (λ q. q ≡ queue) }
        ensures same { OnErr result (self.new ≡ self.old) }
    {
        put_on(self, queue, Tail::Open, stand_in())
    }

    fn put_ended_queue(&mut self, queue: ItemQueue<T>, ending: Ending) -> Result<(), ItemQueue<T>>
        ensures ok { OnOk result (self.new ≡ with_ended_queue ending queue self.old) }
        ensures enabled { OnOk result (is_crossing self.old ≡ false) }
        ensures refused { OnErr result (is_crossing self.old ≡ true) }
        ensures err { IfErr result (λ q. q ≡ queue) }
        ensures same { OnErr result (self.new ≡ self.old) }
    {
        put_on(self, queue, tail_behind(ending), stand_in())
    }

    fn held_len(&self) -> Option<usize> {
        match self.node() {
            Sender::Direct(AnyNode::Source(SourceNode::Hub(leaf))) => Some(leaf.len()),
            _ => None,
        }
    }

    fn read_ending(&self) -> Option<Ending> {
        match self.node() {
            Sender::Direct(AnyNode::Source(SourceNode::Hub(leaf))) => match leaf.ending() {
                Ending::Open => None,
                ending => Some(ending),
            },
            _ => None,
        }
    }

    fn release(self, queue: &mut ItemQueue<T>) {
        if let Sender::Direct(AnyNode::Source(SourceNode::Hub(leaf))) = self.into_node() {
            pour(leaf, queue);
        }
    }

    ghost holds = { any_holds };

    ghost holds_ending = { any_holds_ending };

    ghost reads_on = { any_reads_on };

    ghost reads_ended = { any_reads_ended };

    ghost reads_counted = { any_reads_counted };

    ghost reads_still = { any_reads_still };
}

/// A node that takes no memory. It stands in the place of another while that is changed.
fn stand_in<T: Drop>() -> AnyNode<T> {
    AnyNode::Source(SourceNode::Range(RangeNode::new(0, 0)))
}

/// Takes the queue off a node, where no ending is in it. Meanwhile `other` stands in the node's place.
fn take_off<M: Drop, T: Drop>(place: &mut Boxed<Sender<M, T>>, other: M) -> Option<ItemQueue<T>>
    ensures taken { result ≡ queue_of place.old }
    ensures whole { IfSome result (λ q. place.old ≡ with_queue q place.new) }
    ensures straight { IfSome result (λ q. is_crossing place.new ≡ false) }
    ensures same { IfNone result (place.new ≡ place.old) }
{
    match place.replace(Sender::Direct(other)) {
        Sender::Crossing(
            Queued {
                node,
                queue,
                tail: Tail::Open,
            },
        ) => {
            place.replace(Sender::Direct(node));
            Some(queue)
        }
        whole => {
            place.replace(whole);
            None
        }
    }
}

/// The tail of a queue in which this ending is.
fn tail_behind(ending: Ending) -> Tail
    ensures { result ≡ tail_of ending }
{
    match ending {
        Ending::Open => Tail::Open,
        Ending::Done => Tail::Completion,
        Ending::Failed(cause) => Tail::Failure(cause),
    }
}

/// Puts a queue with this tail at the edge of a node that has none. Meanwhile `other` stands in the node's place.
fn put_on<M: Drop, T: Drop>(
    place: &mut Boxed<Sender<M, T>>,
    queue: ItemQueue<T>,
    tail: Tail,
    other: M,
) -> Result<(), ItemQueue<T>>
    ensures ok { OnOk result (place.new ≡ with_tail tail queue place.old) }
    ensures enabled { OnOk result (is_crossing place.old ≡ false) }
    ensures refused { OnErr result (is_crossing place.old ≡ true) }
    ensures err { IfErr result (λ q. q ≡ queue) }
    ensures same { OnErr result (place.new ≡ place.old) }
{
    match place.replace(Sender::Direct(other)) {
        Sender::Direct(node) => {
            place.replace(Sender::Crossing(Queued { node, queue, tail }));
            Ok(())
        }
        crossing => {
            place.replace(crossing);
            Err(queue)
        }
    }
}

/// Puts the items that a reader holds in front of those in the queue, which has room for them. So it calls itself at most
/// [`CAPACITY`](rsx_queued::CAPACITY) deep.
fn pour<T: Drop>(leaf: HubLeaf<T>, queue: &mut ItemQueue<T>)
    requires { length leaf.queue + length queue.old ≤ CAPACITY }
    ensures { queue.new ≡ leaf.queue ++ queue.old }
{
    let mut others = leaf;
    if let Some(item) = others.take() {
        pour(others, queue);
        queue.put_back(item);
    }
}
