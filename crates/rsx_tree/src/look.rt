//! Which moves of a row are enabled.

ghost use Rattle.std.specs.Prelude.{◌≡◌, IfSome, IfNone, Some, true};
ghost use Rattle.rsx_types.specs.Meaning.{Meaning};
ghost use Rattle.rsx_tree.specs.Driven.{IsRestOver};
ghost use Rattle.rsx_tree.specs.Edges.{edge_view};
ghost use Rattle.rsx_tree.specs.Inputs.{can_ask_over, can_send_over};
ghost use Rattle.rsx_tree.specs.Look.{IsEnabledOver, IsStepEnabled};
ghost use Rattle.rsx_tree.specs.Stepped.{IsStill, over};

use crate::edge::Edge;
use crate::inputs::Inputs;
use crate::node::Node;
use rsx_sources::Machine;

/// A move inside a tree: over the edge of the node with this number, or of that node itself.
#[derive(Clone, Copy, Debug, PartialEq, Eq)]
pub enum NodeMove {
    /// What is asked of the node's edge rises to what its receiver wants.
    Ask(u32),
    /// The node's next signal goes over its edge.
    Send(u32),
    /// The node picks this input, takes its next signal and records the choice.
    Pick(u32, u64),
    /// The node makes a row of the next item of each input.
    Row(u32),
}

impl<M: Machine> Inputs<M> {
    ghost use Rattle.std.specs.Prelude.{◌≡◌, ◌+◌, ◌<◌, ◌≤◌, ◌^◌, ℕ, IfSome, IfNone, Some, None, true};
    ghost use Rattle.rsx_types.specs.Meaning.{Meaning};
    ghost use Rattle.rsx_tree.specs.Driven.{IsRestAt, IsRowIdle};
    ghost use Rattle.rsx_tree.specs.Inputs.{place, can_ask_in, can_send_in};
    ghost use Rattle.rsx_tree.specs.Look.{IsEnabledIn};
    ghost use Rattle.rsx_tree.specs.Stepped.{can_pick_in, can_row_in, over, station};

    /// Whether an Ask over the edge `at` is enabled, where the first edge is input `input` of `receiver`.
    pub fn can_ask(&self, receiver: &M, input: u64, asked: u64, sent: u64, at: u32) -> bool
        requires { input + at < 2 ^ 64 }
        ensures { result ≡ can_ask_in M.Machine (place receiver.now input asked sent self.now at) }
    {
        match self {
            Inputs::End => false,
            Inputs::More(edge, machine, below, beside) => {
                if at == 0 {
                    return can_ask_sender(receiver, input, asked, sent, edge, machine);
                }
                let inside = below.count_up_to(at);
                if at > inside {
                    return beside.can_ask(receiver, input + 1, asked, sent, at - 1 - inside);
                }
                below.can_ask(machine, 0, edge.demand.asked, edge.demand.sent, at - 1)
            }
        }
    }

    /// Whether a Send over the edge `at` is enabled.
    pub fn can_send(&self, receiver: &M, input: u64, at: u32) -> bool
        requires { input + at < 2 ^ 64 }
        ensures { (m : Meaning M.Item) (asked sent : ℕ) →
            result ≡ can_send_in M.Machine m (place receiver.now input asked sent self.now at) }
    {
        match self {
            Inputs::End => false,
            Inputs::More(edge, machine, below, beside) => {
                if at == 0 {
                    return can_send_signal(receiver, input, edge, machine);
                }
                let inside = below.count_up_to(at);
                if at > inside {
                    return beside.can_send(receiver, input + 1, at - 1 - inside);
                }
                below.can_send(machine, 0, at - 1)
            }
        }
    }

    /// Whether the node `at` of the row can pick an input.
    pub fn can_pick(&self, at: u32, input: u64) -> bool
        ensures { result ≡ can_pick_in M.Machine input (station self.now at) }
    {
        match self {
            Inputs::End => false,
            Inputs::More(edge, machine, below, beside) => {
                if at == 0 {
                    return edge.is_live()
                        && machine.can_pick(input, edge.demand.asked, edge.demand.sent);
                }
                let inside = below.count_up_to(at);
                if at > inside {
                    return beside.can_pick(at - 1 - inside, input);
                }
                below.can_pick(at - 1, input)
            }
        }
    }

    /// Whether the node `at` of the row can make a row.
    pub fn can_row(&self, at: u32) -> bool
        ensures { result ≡ can_row_in M.Machine (station self.now at) }
    {
        match self {
            Inputs::End => false,
            Inputs::More(edge, machine, below, beside) => {
                if at == 0 {
                    return edge.is_live() && machine.can_row(edge.demand.asked, edge.demand.sent);
                }
                let inside = below.count_up_to(at);
                if at > inside {
                    return beside.can_row(at - 1 - inside);
                }
                below.can_row(at - 1)
            }
        }
    }

    /// The node `at` of the row, with its edge; none where the row has fewer nodes.
    pub fn node(&self, at: u32) -> Option<(&Edge, &M)>
        ensures some { IfSome result (λ found. station self.now at ≡ Some (over found.0.now found.1.now)) }
        ensures none { IfNone result (station self.now at ≡ None) }
    {
        match self {
            Inputs::End => None,
            Inputs::More(edge, machine, below, beside) => {
                if at == 0 {
                    return Some((edge, machine));
                }
                let inside = below.count_up_to(at);
                if at > inside {
                    return beside.node(at - 1 - inside);
                }
                below.node(at - 1)
            }
        }
    }

    /// Whether there are no inputs.
    #[inline]
    pub(crate) fn is_end(&self) -> bool
        ensures { result ≡ true → self.now ≡ Inputs.End }
    {
        match self {
            Inputs::End => true,
            Inputs::More(_, _, _, _) => false,
        }
    }

    /// Whether no move of the row is enabled, where its first edge is input `input` of `receiver`. It may be false too where
    /// the row has more inputs than a number can name.
    pub(crate) fn is_idle(&self, receiver: &M, input: u64, asked: u64, sent: u64) -> bool
        ensures { (m : Meaning M.Item) → result ≡ true → IsRowIdle M.Machine m receiver.now input asked sent self.now }
    {
        match self {
            Inputs::End => true,
            Inputs::More(edge, machine, below, beside) => {
                if !rests_over(receiver, input, asked, sent, edge, machine) {
                    return false;
                }
                // Most nodes have one input. The look at what is below it is the last then, so it goes on in a loop.
                if beside.is_end() {
                    return below.is_idle(machine, 0, edge.demand.asked, edge.demand.sent);
                }
                if !below.is_idle(machine, 0, edge.demand.asked, edge.demand.sent) {
                    return false;
                }
                match input.checked_add(1) {
                    Some(next) => beside.is_idle(receiver, next, asked, sent),
                    None => false,
                }
            }
        }
    }

    /// The first enabled move of the row in pre-order, where its first node has the number `at`.
    pub fn first_enabled(
        &self,
        receiver: &M,
        input: u64,
        asked: u64,
        sent: u64,
        at: u32,
    ) -> Option<NodeMove>
        requires { input ≤ at }
        ensures some { (m : Meaning M.Item) → IfSome result (λ e. IsEnabledIn M.Machine m receiver.now input asked sent self.now at e) }
        ensures none { (m : Meaning M.Item) → IfNone result ((k : ℕ) → at + k < 2 ^ 32 →
            IsRestAt M.Machine m receiver.now input asked sent self.now k) }
    {
        match self {
            Inputs::End => None,
            Inputs::More(edge, machine, below, beside) => {
                match first_over(receiver, input, asked, sent, edge, machine, at) {
                    Some(step) => return Some(step),
                    None => {}
                }
                let room = u32::MAX - at;
                if room == 0 {
                    return None;
                }
                match below.first_enabled(machine, 0, edge.demand.asked, edge.demand.sent, at + 1) {
                    Some(step) => return Some(step),
                    None => {}
                }
                let inside = below.count_up_to(room);
                if inside == room {
                    return None;
                }
                beside.first_enabled(receiver, input + 1, asked, sent, at + 1 + inside)
            }
        }
    }
}

impl<M: Machine> Node<M> {
    ghost use Rattle.std.specs.Prelude.{◌≡◌};
    ghost use Rattle.rsx_types.specs.Meaning.{Meaning};
    ghost use Rattle.std.specs.Prelude.{IfSome, IfNone, Some, None, true};
    ghost use Rattle.rsx_tree.specs.Driven.{IsIdle};
    ghost use Rattle.rsx_tree.specs.Edges.{edge_view};
    ghost use Rattle.rsx_tree.specs.Look.{IsStepEnabled};
    ghost use Rattle.rsx_tree.specs.Stepped.{IsStill, can_pick_in, can_row_in, over, station_of};
    ghost use Rattle.rsx_tree.specs.Tree.{can_ask, can_send};

    /// Whether an Ask over the edge `at` below the root is enabled; `asked` and `sent` are those of the root's own edge.
    pub fn can_ask(&self, at: u32, asked: u64, sent: u64) -> bool
        ensures { result ≡ can_ask M.Machine self.now at asked sent }
    {
        self.inputs.can_ask(&self.machine, 0, asked, sent, at)
    }

    /// Whether no move over an edge below the root, nor of a node there, is enabled; `asked` and `sent` are those of the root's
    /// own edge. It looks at each edge once, and names none. It may be false too where a node has more inputs than a number
    /// can name; then [`Node::first_enabled`] tells.
    #[inline]
    pub fn is_idle(&self, asked: u64, sent: u64) -> bool
        ensures { (m : Meaning M.Item) → result ≡ true → IsIdle M.Machine m self.now asked sent }
    {
        self.inputs.is_idle(&self.machine, 0, asked, sent)
    }

    /// Whether a Send over the edge `at` below the root is enabled.
    pub fn can_send(&self, at: u32) -> bool
        ensures { (m : Meaning M.Item) → result ≡ can_send M.Machine m self.now at }
    {
        self.inputs.can_send(&self.machine, 0, at)
    }

    /// The first pick or row of the root that is enabled, where its edge is `root`; the root has the number 0.
    #[inline]
    pub fn first_step(&self, root: &Edge) -> Option<NodeMove>
        ensures some { IfSome result (λ e. IsStepEnabled M.Machine (over root.now self.now.machine) 0 e) }
        ensures none { IfNone result (IsStill M.Machine (Some (over root.now self.now.machine))) }
    {
        first_step(root, &self.machine, 0)
    }

    /// The node `at` with its edge, where the root has the number 0 and the edge `root`; none where the tree has fewer nodes.
    pub fn node<'a>(&'a self, root: &'a Edge, at: u32) -> Option<(&'a Edge, &'a M)>
        ensures some { IfSome result (λ found. station_of self.now (edge_view root.now) at ≡ Some (over found.0.now found.1.now)) }
        ensures none { IfNone result (station_of self.now (edge_view root.now) at ≡ None) }
    {
        if at > 0 {
            return self.inputs.node(at - 1);
        }
        Some((root, &self.machine))
    }

    /// Whether the node `at` can pick an input, where the root has the number 0 and the edge `root`.
    pub fn can_pick(&self, root: &Edge, at: u32, input: u64) -> bool
        ensures { result ≡ can_pick_in M.Machine input (station_of self.now (edge_view root.now) at) }
    {
        if at > 0 {
            return self.inputs.can_pick(at - 1, input);
        }
        root.is_live()
            && self
                .machine
                .can_pick(input, root.demand.asked, root.demand.sent)
    }

    /// Whether the node `at` can make a row, where the root has the number 0 and the edge `root`.
    pub fn can_row(&self, root: &Edge, at: u32) -> bool
        ensures { result ≡ can_row_in M.Machine (station_of self.now (edge_view root.now) at) }
    {
        if at > 0 {
            return self.inputs.can_row(at - 1);
        }
        root.is_live() && self.machine.can_row(root.demand.asked, root.demand.sent)
    }
}

/// Whether the receiver wants more than it asked for, and the sender accepts more demand.
#[inline]
fn can_ask_sender<M: Machine>(
    receiver: &M,
    input: u64,
    asked: u64,
    sent: u64,
    edge: &Edge,
    sender: &M,
) -> bool
    ensures { result ≡ can_ask_over M.Machine receiver.now input asked sent (edge_view edge.now) sender.now }
{
    let demand = &edge.demand;
    edge.can_ask(receiver.want(input, asked, sent))
        && sender.accepts_demand(demand.asked, demand.sent)
}

/// Whether the sender offers a signal that can go over the edge, and the receiver can take it.
#[inline]
fn can_send_signal<M: Machine>(receiver: &M, input: u64, edge: &Edge, sender: &M) -> bool
    ensures { (m : Meaning M.Item) → result ≡ can_send_over M.Machine m receiver.now input (edge_view edge.now) sender.now }
{
    match sender.front() {
        Some(front) => edge.can_carry(front) && receiver.can_take(input, front),
        None => false,
    }
}

/// Whether no move over an edge, nor of its sender, is enabled.
#[inline(always)]
fn rests_over<M: Machine>(
    receiver: &M,
    input: u64,
    asked: u64,
    sent: u64,
    edge: &Edge,
    sender: &M,
) -> bool
    ensures { (m : Meaning M.Item) → result ≡ true → IsRestOver M.Machine m receiver.now input asked sent edge.now sender.now }
{
    if can_ask_sender(receiver, input, asked, sent, edge, sender) {
        return false;
    }
    if can_send_signal(receiver, input, edge, sender) {
        return false;
    }
    match first_step(edge, sender, 0) {
        Some(_) => false,
        None => true,
    }
}

/// The first of the moves over an edge and of its sender, which has the number `at`, that is enabled.
fn first_over<M: Machine>(
    receiver: &M,
    input: u64,
    asked: u64,
    sent: u64,
    edge: &Edge,
    sender: &M,
    at: u32,
) -> Option<NodeMove>
    ensures some { (m : Meaning M.Item) → IfSome result (IsEnabledOver M.Machine m receiver.now input asked sent edge.now sender.now at) }
    ensures none { (m : Meaning M.Item) → IfNone result (IsRestOver M.Machine m receiver.now input asked sent edge.now sender.now) }
{
    if can_ask_sender(receiver, input, asked, sent, edge, sender) {
        return Some(NodeMove::Ask(at));
    }
    if can_send_signal(receiver, input, edge, sender) {
        return Some(NodeMove::Send(at));
    }
    first_step(edge, sender, at)
}

/// The first pick or row of a node, which has the number `at`, that is enabled.
#[inline]
fn first_step<M: Machine>(edge: &Edge, node: &M, at: u32) -> Option<NodeMove>
    ensures some { IfSome result (λ e. IsStepEnabled M.Machine (over edge.now node.now) at e) }
    ensures none { IfNone result (IsStill M.Machine (Some (over edge.now node.now))) }
{
    if node.never_steps() {
        return None;
    }
    if !edge.is_live() {
        return None;
    }
    let asked = edge.demand.asked;
    let sent = edge.demand.sent;
    match node.next_pick(asked, sent) {
        Some(input) => return Some(NodeMove::Pick(at, input)),
        None => {}
    }
    if node.can_row(asked, sent) {
        return Some(NodeMove::Row(at));
    }
    None
}
