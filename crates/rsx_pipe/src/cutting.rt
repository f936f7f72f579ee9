//! A part is cut at an edge that crosses to another region, and joined there again.

ghost use Rattle.std.specs.Prelude.{◌≡◌, ◌++◌, min, length, Some, None, true, false, IfOk, IfErr, IfSome, IfNone, OnOk, OnErr, option_map};
ghost use Rattle.rsx_pipe.specs.Cutting.{held_in, root_below, root_here, root_with, sender_at};
ghost use Rattle.rsx_pipe.specs.Rejoined.{can_put_here, can_put_in, put_node};
ghost use Rattle.rsx_tree.specs.Edges.{edge_view};
ghost use Rattle.rsx_tree.specs.Inputs.{size};
ghost use Rattle.rsx_tree.specs.Swapped.{put_at};

use crate::part::Part;
use rsx_demand::Demand;
use rsx_queued::{CAPACITY, ItemQueue};
use rsx_rooted::{CrossingNodes, Rooted};
use rsx_tree::{Edge, Inputs, Node};
use rsx_types::Ending;
use std::mem;

/// What was below an edge that a part was cut at.
#[derive(Drop)]
pub struct CutOff<N, T> {
    /// The node over that edge, with all that is below it, as a part of its own. What was asked over the edge is asked of it, and
    /// it sent what went over the edge and what was in the queue there.
    pub part: Part<N>,
    /// What was in the queue of that edge. Where it is joined again, the items that are left of what the part sent.
    pub queue: ItemQueue<T>,
}

impl<N: CrossingNodes + Drop> Part<N> {
    ghost use Rattle.std.specs.Prelude.{not, ◌&&◌, length};
    ghost use Rattle.rsx_pipe.specs.Cutting.{IsCut, can_join, joined, new_root, place_at, with_node};
    ghost use Rattle.rsx_pipe.specs.Rejoined.{can_put_in, can_rejoin_ended, joined_ended, put_node, read_at};

    /// Cuts the part at the edge `at`, 0 for that of its root. The node over that edge goes on, with all that is below it, as the
    /// root of a part of its own, `reader` takes its place, and the queue of the edge is handed out. It takes no memory.
    ///
    /// An edge is cut where it has a queue with no ending in it, it and all edges above it are live, and what was sent over it
    /// with what is in its queue was asked for.
    ///
    /// # Errors
    /// `reader` comes back where the edge isn't one that is cut. Then nothing changed.
    pub fn cut(&mut self, at: u32, reader: N) -> Result<CutOff<N, N::Item>, N>
        ensures ok { IfOk result (λ c. IsCut N.Machine N.CrossingNodes.own self.old at reader c.part c.queue self.new) }
        ensures refused { OnErr result (new_root N.edge_queue self.old at ≡ None) }
        ensures err { IfErr result (λ r. r ≡ reader) }
        ensures same { OnErr result (self.new ≡ self.old) }
    {
        let root = self.rooted.root;
        let tree = &mut self.rooted.tree;
        if at == 0 {
            return cut_here(&root, &mut tree.machine, &mut tree.inputs, reader);
        }
        if !root.is_live() {
            return Err(reader);
        }
        cut_at(&mut tree.inputs, at - 1, reader)
    }

    /// Joins what was cut off at the edge `at` to the part again, with a queue at that edge. In the queue are what the reader there
    /// holds, and then the items of `below.queue`. The reader is dropped. It takes no memory.
    ///
    /// Where the lower part has sent its ending, and that didn't come to the reader, it is put back into the lower part first
    /// ([`Part::put_back`]).
    ///
    /// # Errors
    /// All comes back, and nothing changed, where there is no edge `at`; where its node isn't one that reads the hub with this
    /// number still; where the queue has no room for all these items; and where the edge of the root that is joined has a queue
    /// already.
    pub fn rejoin(
        &mut self,
        at: u32,
        hub: u64,
        below: CutOff<N, N::Item>,
    ) -> Result<(), CutOff<N, N::Item>>
        ensures ok { OnOk result (self.new ≡ joined N.CrossingNodes.own self.old at below.part below.queue) }
        ensures enabled { OnOk result (can_join N.Machine N.CrossingNodes.own self.old at hub below.part.tree.machine below.queue ≡ true) }
        ensures refused { OnErr result (can_join N.Machine N.CrossingNodes.own self.old at hub below.part.tree.machine below.queue ≡ false) }
        ensures err { IfErr result (λ c. c ≡ below) }
        ensures same { OnErr result (self.new ≡ self.old) }
    {
        self.put_again(at, Some(hub), below)
    }

    /// Joins what was cut off at the edge `at` to the part again, where the reader there took in the ending of its link. In the queue at
    /// that edge are what the reader holds, and then that ending. The reader is dropped. The lower part has sent its ending, and is joined
    /// as it is. It takes no memory.
    ///
    /// # Errors
    /// All comes back, and nothing changed, where there is no edge `at`; where its node isn't one that read a hub or a link to its end;
    /// where items are left in `below.queue`; where the queue has no room for what the reader holds; and where the edge of the root that is
    /// joined has a queue already.
    pub fn rejoin_ended(
        &mut self,
        at: u32,
        below: CutOff<N, N::Item>,
    ) -> Result<(), CutOff<N, N::Item>>
        ensures ok { OnOk result (self.new ≡ joined_ended N.CrossingNodes.own self.old at below.part below.queue) }
        ensures enabled { OnOk result (can_rejoin_ended N.Machine N.CrossingNodes.own self.old at below.part.tree.machine below.queue ≡ true) }
        ensures refused { OnErr result (can_rejoin_ended N.Machine N.CrossingNodes.own self.old at below.part.tree.machine below.queue ≡ false) }
        ensures err { IfErr result (λ c. c ≡ below) }
        ensures same { OnErr result (self.new ≡ self.old) }
    {
        self.put_again(at, None, below)
    }

    /// Whether the edge of the root has a queue of its own, as that of a node that sends to another region.
    pub fn is_crossing(&self) -> bool
        ensures { result ≡ N.crosses self.now.tree.machine }
    {
        self.rooted.tree.machine.is_crossing()
    }

    /// Whether what was cut off at the edge `at` can be joined there, with so many items in its queue: by [`Part::rejoin`] where the
    /// reader of this hub is there still, and by [`Part::rejoin_ended`], with no number, where one is there that read to an end. The root
    /// of what is joined must have no queue at its edge.
    pub fn takes_back(&self, at: u32, hub: Option<u64>, items: usize) -> bool
        ensures { result ≡ can_put_in N.Machine N.CrossingNodes.own hub items (place_at at self.now.tree) }
    {
        match self.place(at) {
            Some((machine, under)) => takes_back(machine, under, hub, items),
            None => false,
        }
    }

    /// The ending that the node took in which sends over the edge `at`, where it read a hub or a link until that had ended.
    pub fn read_ending(&self, at: u32) -> Option<Ending>
        ensures { result ≡ read_at N.CrossingNodes.own (place_at at self.now.tree) }
    {
        let (machine, _) = self.place(at)?;
        machine.read_ending()
    }

    /// The node that sends over the edge `at`, with what is below it.
    fn place(&self, at: u32) -> Option<(&N, &Inputs<N>)>
        ensures some { IfSome result (λ p. place_at at self.now.tree ≡ Some (record { node = p.0.now; below = p.1.now })) }
        ensures none { IfNone result (place_at at self.now.tree ≡ None) }
    {
        let tree = &self.rooted.tree;
        if at == 0 {
            return Some((&tree.machine, &tree.inputs));
        }
        place_in(&tree.inputs, at - 1)
    }

    /// Puts what was cut off in the place of a reader of this hub, or, with none, of one that read to an end.
    fn put_again(
        &mut self,
        at: u32,
        from: Option<u64>,
        below: CutOff<N, N::Item>,
    ) -> Result<(), CutOff<N, N::Item>>
        ensures ok { OnOk result (self.new ≡ record self.old { tree = with_node at (put_node N.CrossingNodes.own from (place_at at self.old.tree) below.queue below.part.tree.machine) below.part.tree.inputs self.old.tree }) }
        ensures enabled { OnOk result ((not (N.crosses below.part.tree.machine) && can_put_in N.Machine N.CrossingNodes.own from (length below.queue) (place_at at self.old.tree)) ≡ true) }
        ensures refused { OnErr result ((not (N.crosses below.part.tree.machine) && can_put_in N.Machine N.CrossingNodes.own from (length below.queue) (place_at at self.old.tree)) ≡ false) }
        ensures err { IfErr result (λ c. c ≡ below) }
        ensures same { OnErr result (self.new ≡ self.old) }
    {
        if below.part.is_crossing() {
            return Err(below);
        }
        let tree = &mut self.rooted.tree;
        if at == 0 {
            return join_here(&mut tree.machine, &mut tree.inputs, from, below);
        }
        join_at(&mut tree.inputs, at - 1, from, below)
    }
}

/// The node of a row that sends over the edge `at`, with what is below it.
fn place_in<N>(row: &Inputs<N>, at: u32) -> Option<(&N, &Inputs<N>)>
    ensures some { IfSome result (λ p. sender_at at row.now ≡ Some (record { node = p.0.now; below = p.1.now })) }
    ensures none { IfNone result (sender_at at row.now ≡ None) }
{
    match row {
        Inputs::End => None,
        Inputs::More(_, machine, under, beside) => {
            if at == 0 {
                return Some((machine, under));
            }
            let inside = count_up_to(under, at);
            if at > inside {
                return place_in(beside, at - 1 - inside);
            }
            place_in(under, at - 1)
        }
    }
}

/// How many nodes a row has, but at most `most`.
fn count_up_to<N>(row: &Inputs<N>, most: u32) -> u32
    ensures { result ≡ min (size row.now) most }
{
    match row {
        Inputs::End => 0,
        Inputs::More(_, _, below, beside) => {
            if most == 0 {
                return 0;
            }
            let inside = count_up_to(below, most - 1);
            let others = count_up_to(beside, most - 1 - inside);
            inside + others + 1
        }
    }
}

/// The root edge of what is below this edge, where the node there has a queue that can go over a link.
fn root_over<N: CrossingNodes>(edge: &Edge, node: &N) -> Option<Edge>
    ensures { option_map edge_view result ≡ root_with (edge_view edge.now) (N.edge_queue node.now) }
{
    let items = node.queue_len()? as u64;
    let Demand { asked, sent } = edge.demand;
    if items > asked - sent {
        return None;
    }
    let demand = Demand {
        asked,
        sent: sent + items,
    };
    Some(Edge {
        demand,
        state: edge.state,
    })
}

/// Cuts a row at the edge `at`, where it can be cut there.
fn cut_at<N: CrossingNodes>(
    row: &mut Inputs<N>,
    at: u32,
    reader: N,
) -> Result<CutOff<N, N::Item>, N>
    ensures upper { OnOk result (row.new ≡ put_at at reader Inputs.End row.old) }
    ensures whole { IfOk result (λ c. row.old ≡ put_at at (N.queued c.queue c.part.tree.machine) c.part.tree.inputs row.old) }
    ensures edge { IfOk result (λ c. root_below N.edge_queue at row.old ≡ Some (edge_view c.part.root)) }
    ensures straight { IfOk result (λ c. N.crosses c.part.tree.machine ≡ false) }
    ensures refused { OnErr result (root_below N.edge_queue at row.old ≡ None) }
    ensures err { IfErr result (λ r. r ≡ reader) }
    ensures same { OnErr result (row.new ≡ row.old) }
{
    match row {
        Inputs::End => Err(reader),
        Inputs::More(edge, machine, under, beside) => {
            if at == 0 {
                return cut_here(edge, machine, under, reader);
            }
            let inside = count_up_to(under, at);
            if at > inside {
                return cut_at(beside, at - 1 - inside, reader);
            }
            if !edge.is_live() {
                return Err(reader);
            }
            cut_at(under, at - 1, reader)
        }
    }
}

/// Cuts off a node with what is below it.
fn cut_here<N: CrossingNodes>(
    edge: &Edge,
    machine: &mut N,
    under: &mut Inputs<N>,
    reader: N,
) -> Result<CutOff<N, N::Item>, N>
    ensures node { OnOk result (machine.new ≡ reader) }
    ensures inputs { OnOk result (under.new ≡ Inputs.End) }
    ensures whole { IfOk result (λ c. machine.old ≡ N.queued c.queue c.part.tree.machine) }
    ensures below { IfOk result (λ c. under.old ≡ c.part.tree.inputs) }
    ensures edge { IfOk result (λ c. root_here N.edge_queue edge.now machine.old ≡ Some (edge_view c.part.root)) }
    ensures straight { IfOk result (λ c. N.crosses c.part.tree.machine ≡ false) }
    ensures refused { OnErr result (root_here N.edge_queue edge.now machine.old ≡ None) }
    ensures err { IfErr result (λ r. r ≡ reader) }
    ensures machine { OnErr result (machine.new ≡ machine.old) }
    ensures row { OnErr result (under.new ≡ under.old) }
{
    if !edge.is_live() {
        return Err(reader);
    }
    let Some(root) = root_over(edge, machine) else {
        return Err(reader);
    };
    let Some(queue) = machine.take_queue() else {
        return Err(reader);
    };
    let tree = Node {
        machine: mem::replace(machine, reader),
        inputs: mem::replace(under, Inputs::End),
    };
    let part = Part {
        rooted: Rooted { tree, root },
    };
    Ok(CutOff { part, queue })
}

/// Joins what was cut off to a row at the edge `at`, where it can be joined there. At the edge of its root there is no queue.
fn join_at<N: CrossingNodes + Drop>(
    row: &mut Inputs<N>,
    at: u32,
    from: Option<u64>,
    below: CutOff<N, N::Item>,
) -> Result<(), CutOff<N, N::Item>>
    requires { N.crosses below.part.tree.machine ≡ false }
    ensures ok { OnOk result (row.new ≡ put_at at (put_node N.CrossingNodes.own from (sender_at at row.old) below.queue below.part.tree.machine) below.part.tree.inputs row.old) }
    ensures enabled { OnOk result (can_put_in N.Machine N.CrossingNodes.own from (length below.queue) (sender_at at row.old) ≡ true) }
    ensures refused { OnErr result (can_put_in N.Machine N.CrossingNodes.own from (length below.queue) (sender_at at row.old) ≡ false) }
    ensures err { IfErr result (λ c. c ≡ below) }
    ensures same { OnErr result (row.new ≡ row.old) }
{
    match row {
        Inputs::End => Err(below),
        Inputs::More(_, machine, under, beside) => {
            if at == 0 {
                return join_here(machine, under, from, below);
            }
            let inside = count_up_to(under, at);
            if at > inside {
                return join_at(beside, at - 1 - inside, from, below);
            }
            join_at(under, at - 1, from, below)
        }
    }
}

/// Puts what was cut off in the place of a reader.
fn join_here<N: CrossingNodes + Drop>(
    machine: &mut N,
    under: &mut Inputs<N>,
    from: Option<u64>,
    below: CutOff<N, N::Item>,
) -> Result<(), CutOff<N, N::Item>>
    requires { N.crosses below.part.tree.machine ≡ false }
    ensures node { OnOk result (machine.new ≡ put_node N.CrossingNodes.own from (Some (record { node = machine.old; below = under.old })) below.queue below.part.tree.machine) }
    ensures inputs { OnOk result (under.new ≡ below.part.tree.inputs) }
    ensures enabled { OnOk result (can_put_here N.Machine N.CrossingNodes.own from (length below.queue) machine.old under.old ≡ true) }
    ensures refused { OnErr result (can_put_here N.Machine N.CrossingNodes.own from (length below.queue) machine.old under.old ≡ false) }
    ensures err { IfErr result (λ c. c ≡ below) }
    ensures machine { OnErr result (machine.new ≡ machine.old) }
    ensures row { OnErr result (under.new ≡ under.old) }
{
    if !takes_back(machine, under, from, below.queue.len()) {
        return Err(below);
    }
    let ending = machine.read_ending();
    let CutOff { part, mut queue } = below;
    let Node {
        machine: node,
        inputs,
    } = part.rooted.tree;
    let reader = mem::replace(machine, node);
    reader.release(&mut queue);
    // The node has no queue, so this one isn't handed back.
    let _ = match (from, ending) {
        (None, Some(ending)) => machine.put_ended_queue(queue, ending),
        _ => machine.put_queue(queue),
    };
    *under = inputs;
    Ok(())
}

/// Whether nothing is below the node, whether so many items can come behind what it holds, and whether a queue takes all of that back.
fn takes_back<N: CrossingNodes>(
    machine: &N,
    under: &Inputs<N>,
    from: Option<u64>,
    items: usize,
) -> bool
    ensures { result ≡ can_put_here N.Machine N.CrossingNodes.own from items machine.now under.now }
{
    if !matches!(under, Inputs::End) {
        return false;
    }
    let goes_behind = match from {
        Some(hub) => machine.hub() == Some(hub),
        None => items == 0 && machine.read_ending().is_some(),
    };
    if !goes_behind {
        return false;
    }
    match machine.held_len() {
        Some(held) => held <= CAPACITY && items <= CAPACITY - held,
        None => false,
    }
}
