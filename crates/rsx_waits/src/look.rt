//! What the nodes of a tree do now.

ghost use Rattle.std.specs.Fmt.{WritesOnOk};
ghost use Rattle.rsx_waits.specs.Looks.{crossing_text, edge_text, head_text, lanes_text, last_text, look_text, looks_text, offer_text, queued_text, waiting_text};

use crate::Operator;
use std::fmt;

/// The nodes of a tree, in pre-order from 0.
#[derive(Debug, Drop)]
pub struct Picture {
    /// The nodes. Each stands behind its receiver.
    pub nodes: Vec<NodeLook>,
}

/// A node of a tree, with the edge over which it sends.
#[derive(Clone, Copy, Debug, PartialEq, Eq)]
pub struct NodeLook {
    /// Which operator it is.
    pub operator: Operator,
    /// The number of the node to which it sends; none of the root.
    pub receiver: Option<u64>,
    /// How many items were asked of it.
    pub asked: u64,
    /// How many items it sent.
    pub sent: u64,
    /// Whether signals still go over its edge.
    pub edge: EdgeLook,
    /// How many signals wait in the queue of its edge, its ending too, where the edge crosses to another region. None where it doesn't,
    /// and none of the root.
    pub crossing: Option<u64>,
    /// How many signals that came over its edge wait in its receiver's queue for them, its ending too; of the root those that wait for
    /// the subscriber. None where the receiver has no such queue.
    pub queued: Option<u64>,
    /// How many items wait in its lanes to be picked; at most 2^63-1. None of a node without lanes.
    pub lanes: Option<u64>,
    /// What it offers.
    pub offer: Offer,
    /// What it recorded last. None where it recorded nothing.
    pub last: Option<Recorded>,
}

/// What a node recorded last.
#[derive(Clone, Copy, Debug, PartialEq, Eq)]
pub enum Recorded {
    /// The input or the lane with this number: a node that picks took a signal of it, and a `zip` its ending.
    /// Of a `publishOnEager` it is 0 for an item, and 1 for the failure.
    From(u64),
    /// The ending of its input: a `flatMap`, a `flatMapDelayError` or a `groupBy` picked it.
    Main,
}

/// Whether signals still go over an edge.
#[derive(Clone, Copy, Debug, PartialEq, Eq)]
pub enum EdgeLook {
    /// They do.
    Live,
    /// The ending went over it.
    Ended,
    /// Its receiver closed it.
    Closed,
}

/// What a node offers.
#[derive(Clone, Copy, Debug, PartialEq, Eq)]
pub enum Offer {
    /// Nothing.
    Nothing,
    /// An item.
    Item,
    /// Its completion.
    Completion,
    /// A failure.
    Failure,
}

/// Each node behind ` | `, as `1 map to 0: asked 2, sent 1, live, 1 queued, offers an item`.
impl fmt::Display for Picture {
    ghost use Rattle.std.specs.Prelude.{Some};
    ghost use Rattle.rsx_waits.specs.Looks.{looks_text};

    ghost output = { λ picture. Some (looks_text 0 picture.nodes.items) };

    fn fmt<W: fmt::Write>(&self, f: &mut fmt::Formatter<W>) -> fmt::Result {
        write_looks(f, &self.nodes)
    }
}

/// These nodes.
fn write_looks<W: fmt::Write>(f: &mut fmt::Formatter<W>, looks: &[NodeLook]) -> fmt::Result
    ensures { WritesOnOk W.write_str_gives f.old result (looks_text 0 looks.now) f.new }
{
    for (node, look) in looks.iter().enumerate() {
        write_look(f, node, look)?;
    }
    Ok(())
}

/// A node with this number, and its edge.
fn write_look<W: fmt::Write>(f: &mut fmt::Formatter<W>, node: usize, look: &NodeLook) -> fmt::Result
    ensures { WritesOnOk W.write_str_gives f.old result (look_text node look.now) f.new }
{
    write_head(f, node, look.operator, look.receiver)?;
    write!(f, ": asked {}, sent {}", look.asked, look.sent)?;
    write_edge(f, look.edge)?;
    write_waiting(f, look)?;
    write_offer(f, look.offer)?;
    write_last(f, look.last)
}

/// The number of a node with its operator, and the number of its receiver, where it has one.
fn write_head<W: fmt::Write>(
    f: &mut fmt::Formatter<W>,
    node: usize,
    operator: Operator,
    receiver: Option<u64>,
) -> fmt::Result
    ensures { WritesOnOk W.write_str_gives f.old result (head_text node operator receiver) f.new }
{
    match receiver {
        Some(receiver) => write!(f, " | {node} {operator} to {receiver}"),
        None => write!(f, " | {node} {operator}"),
    }
}

/// Whether signals still go over an edge.
fn write_edge<W: fmt::Write>(f: &mut fmt::Formatter<W>, edge: EdgeLook) -> fmt::Result
    ensures { WritesOnOk W.write_str_gives f.old result (edge_text edge) f.new }
{
    match edge {
        EdgeLook::Live => f.write_str(", live"),
        EdgeLook::Ended => f.write_str(", ended"),
        EdgeLook::Closed => f.write_str(", closed"),
    }
}

/// What waits in queues and lanes.
fn write_waiting<W: fmt::Write>(f: &mut fmt::Formatter<W>, look: &NodeLook) -> fmt::Result
    ensures { WritesOnOk W.write_str_gives f.old result (waiting_text look.now) f.new }
{
    write_crossing(f, look.crossing)?;
    write_queued(f, look.queued)?;
    write_lanes(f, look.lanes)
}

/// How many signals wait in the queue of an edge, where it crosses.
fn write_crossing<W: fmt::Write>(f: &mut fmt::Formatter<W>, crossing: Option<u64>) -> fmt::Result
    ensures { WritesOnOk W.write_str_gives f.old result (crossing_text crossing) f.new }
{
    match crossing {
        Some(crossing) => write!(f, ", {crossing} crossing"),
        None => Ok(()),
    }
}

/// How many signals wait in a receiver's queue, where it has one.
fn write_queued<W: fmt::Write>(f: &mut fmt::Formatter<W>, queued: Option<u64>) -> fmt::Result
    ensures { WritesOnOk W.write_str_gives f.old result (queued_text queued) f.new }
{
    match queued {
        Some(queued) => write!(f, ", {queued} queued"),
        None => Ok(()),
    }
}

/// How many items wait in the lanes of a node, where it has lanes.
fn write_lanes<W: fmt::Write>(f: &mut fmt::Formatter<W>, lanes: Option<u64>) -> fmt::Result
    ensures { WritesOnOk W.write_str_gives f.old result (lanes_text lanes) f.new }
{
    match lanes {
        Some(lanes) => write!(f, ", {lanes} in lanes"),
        None => Ok(()),
    }
}

/// What a node offers.
fn write_offer<W: fmt::Write>(f: &mut fmt::Formatter<W>, offer: Offer) -> fmt::Result
    ensures { WritesOnOk W.write_str_gives f.old result (offer_text offer) f.new }
{
    match offer {
        Offer::Nothing => Ok(()),
        Offer::Item => f.write_str(", offers an item"),
        Offer::Completion => f.write_str(", offers its completion"),
        Offer::Failure => f.write_str(", offers a failure"),
    }
}

/// What a node recorded last, where it recorded anything.
fn write_last<W: fmt::Write>(f: &mut fmt::Formatter<W>, last: Option<Recorded>) -> fmt::Result
    ensures { WritesOnOk W.write_str_gives f.old result (last_text last) f.new }
{
    match last {
        Some(Recorded::From(number)) => write!(f, ", recorded {number} last"),
        Some(Recorded::Main) => f.write_str(", recorded m last"),
        None => Ok(()),
    }
}
