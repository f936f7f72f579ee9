//! What a subscriber waits for, and what the feed of a hub waits for.

ghost use Rattle.std.specs.Fmt.{WritesOnOk};
ghost use Rattle.rsx_waits.specs.Texts.{at_hub_text, enabled_text, in_tree_text, tree_text};

use rsx_types::{HubId, Move, NodeId, Tree};
use std::fmt;

/// What a subscriber waits for.
#[derive(Clone, Copy, Debug, PartialEq, Eq)]
pub enum Wait {
    /// For nothing: it received its ending.
    Ended,
    /// For nothing: it cancelled.
    Cancelled,
    /// For nothing: a bad request closed its subscription.
    Refused,
    /// For this move in its own tree, which is enabled, and which a pump makes.
    Enabled(Move),
    /// For a request: it asked for so many items in all, and received as many.
    Request(u64),
    /// This node of its tree has nothing to offer and waits for the hub that it reads, and here is why nothing comes from there.
    Hub(NodeId, HubId, HubWait),
    /// For nothing that is known. That is so only where an edge of its tree has carried 2^63-1 items.
    Unknown,
}

/// What the feed of a hub waits for.
#[derive(Clone, Copy, Debug, PartialEq, Eq)]
pub enum FeedWait {
    /// For nothing: its ending went into the hub.
    Ended,
    /// For this move of its own tree, which is enabled, and which a pump makes.
    Enabled(Move),
    /// For room: it has an item for its hub, and a node of this tree, which reads the hub, has no room for it.
    HeldBy(Tree),
    /// This node of its tree has nothing to offer and waits for the hub that it reads, and here is why nothing comes from there.
    Hub(NodeId, HubId, HubWait),
    /// For nothing that is known. That is so only where an edge of its tree has carried 2^63-1 items.
    Unknown,
}

/// Why nothing comes from a hub.
#[derive(Clone, Copy, Debug, PartialEq, Eq)]
pub enum HubWait {
    /// All that was published there has been handed on.
    Nothing,
    /// What feeds the hub has nothing that the hub takes in, and none of its moves is enabled.
    Feed,
    /// This move of the hub, or of what feeds it, is enabled, and a pump makes it.
    Enabled(Move),
    /// An item waits in front of the hub, and a node of this tree, which reads the hub too, has no room for it.
    HeldBy(Tree),
}

impl fmt::Display for Wait {
    ghost use Rattle.std.specs.Prelude.{Some};
    ghost use Rattle.rsx_waits.specs.Texts.{wait_text};

    ghost output = { λ wait. Some (wait_text wait) };

    fn fmt<W: fmt::Write>(&self, f: &mut fmt::Formatter<W>) -> fmt::Result {
        match self {
            Wait::Ended => f.write_str("nothing, it received the ending"),
            Wait::Cancelled => f.write_str("nothing, it cancelled"),
            Wait::Refused => f.write_str("nothing, a bad request closed it"),
            Wait::Enabled(step) => write_enabled(f, *step),
            Wait::Request(count) => write!(
                f,
                "a request, it received all {count} that it asked for"
            ),
            Wait::Hub(node, hub, why) => write_at_hub(f, *node, *hub, *why),
            Wait::Unknown => f.write_str("nothing that is known"),
        }
    }
}

impl fmt::Display for FeedWait {
    ghost use Rattle.std.specs.Prelude.{Some};
    ghost use Rattle.rsx_waits.specs.Texts.{feed_wait_text};

    ghost output = { λ wait. Some (feed_wait_text wait) };

    fn fmt<W: fmt::Write>(&self, f: &mut fmt::Formatter<W>) -> fmt::Result {
        match self {
            FeedWait::Ended => f.write_str("nothing, its ending went into the hub"),
            FeedWait::Enabled(step) => write_enabled(f, *step),
            FeedWait::HeldBy(tree) => {
                f.write_str("room for an item, held back by ")?;
                write_tree(f, *tree)
            }
            FeedWait::Hub(node, hub, why) => write_at_hub(f, *node, *hub, *why),
            FeedWait::Unknown => f.write_str("nothing that is known"),
        }
    }
}

impl fmt::Display for HubWait {
    ghost use Rattle.std.specs.Prelude.{Some};
    ghost use Rattle.rsx_waits.specs.Texts.{hub_wait_text};

    ghost output = { λ wait. Some (hub_wait_text wait) };

    fn fmt<W: fmt::Write>(&self, f: &mut fmt::Formatter<W>) -> fmt::Result {
        match self {
            HubWait::Nothing => f.write_str("nothing more was published there"),
            HubWait::Feed => f.write_str("its feed has nothing for it"),
            HubWait::Enabled(step) => write_enabled(f, *step),
            HubWait::HeldBy(tree) => {
                f.write_str("held back by ")?;
                write_tree(f, *tree)
            }
        }
    }
}

/// That a node waits for a hub, and why nothing comes from there.
fn write_at_hub<W: fmt::Write>(
    f: &mut fmt::Formatter<W>,
    node: NodeId,
    hub: HubId,
    why: HubWait,
) -> fmt::Result
    ensures { WritesOnOk W.write_str_gives f.old result (at_hub_text node.0 hub.0 why) f.new }
{
    write!(f, "node {} for hub {}, {why}", node.0, hub.0)
}

/// That a pump makes a move, which is enabled.
fn write_enabled<W: fmt::Write>(f: &mut fmt::Formatter<W>, step: Move) -> fmt::Result
    ensures { WritesOnOk W.write_str_gives f.old result (enabled_text step) f.new }
{
    write!(f, "a pump, {} is enabled", Name(step))
}

/// The name of a move.
#[derive(Clone, Copy)]
struct Name(Move);

/// As `Send 1 of subscription 0`.
impl fmt::Display for Name {
    ghost use Rattle.std.specs.Prelude.{Some};
    ghost use Rattle.rsx_waits.specs.Texts.{move_text};

    ghost output = { λ name. Some (move_text name.0) };

    fn fmt<W: fmt::Write>(&self, f: &mut fmt::Formatter<W>) -> fmt::Result {
        match self.0 {
            Move::Ask(tree, node) => write_in_tree(f, "Ask", node, tree),
            Move::Send(tree, node) => write_in_tree(f, "Send", node, tree),
            Move::Take(tree, node) => write_in_tree(f, "Take", node, tree),
            Move::Pick(tree, node, _) => write_in_tree(f, "Pick", node, tree),
            Move::Row(tree, node) => write_in_tree(f, "Row", node, tree),
            Move::Accept(hub) => write!(f, "Accept of hub {}", hub.0),
        }
    }
}

/// The name of a move of this kind, of a node of a tree.
fn write_in_tree<W: fmt::Write>(
    f: &mut fmt::Formatter<W>,
    kind: &str,
    node: NodeId,
    tree: Tree,
) -> fmt::Result
    ensures { WritesOnOk W.write_str_gives f.old result (in_tree_text kind.now node.0 tree) f.new }
{
    write!(f, "{kind} {} of ", node.0)?;
    write_tree(f, tree)
}

/// The name of a tree.
fn write_tree<W: fmt::Write>(f: &mut fmt::Formatter<W>, tree: Tree) -> fmt::Result
    ensures { WritesOnOk W.write_str_gives f.old result (tree_text tree) f.new }
{
    match tree {
        Tree::Sub(sub) => write!(f, "subscription {}", sub.0),
        Tree::Feed(hub) => write!(f, "the feed of hub {}", hub.0),
    }
}
