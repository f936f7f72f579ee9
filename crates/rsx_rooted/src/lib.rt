#![tactic(auto)]
//! Trees of nodes of any kind, each with the edge from its root, and what a graph asks of their nodes; and a tree that is cut at
//! one of its edges, and joined again.
//!
//! - [`nodes`]: [`Nodes`], what a graph asks of its nodes. Its contracts are all that the crates above know of them. And
//!   [`CrossingNodes`], what a cut of a tree at an edge asks of them besides.
//! - [`joins`]: [`joins_of`], how many items each leaf of an expression misses that joins its hub now.
//! - [`places`]: [`have_places`], whether each hub has place for its leaves, and [`count_in`], which counts them in.
//! - [`rooted`]: [`Rooted`], a tree with the edge from its root: every move of it, as a [`NodeMove`], `fetch` and `pump`.
//! - [`feeding`]: signals go over the root edge into the hands of the caller.
//! - [`sink`]: [`Sink`], what takes the signals that go over a root edge.
//! - [`batch`]: [`Batches`], a node through which several items can go at once, and [`Batch`], such items on their way.
//! - [`chain`]: [`try_batch`] and [`go_on`], a batch through a tree.
//! - [`resting`]: whether a tree rests, by one look at each of its nodes.
//! - [`taking`]: [`hand_many`], several items of a hub at once into the nodes that read it.
//! - [`law`]: [`put_again`], [`two_regions`], [`root_regions`] and [`stands_on`], what a cut and a join come to.
//!
//! [`Node::swap_at`](rsx_tree::Node::swap_at) cuts a tree, and joins it again. The node over the edge, with all below it, goes on
//! as a tree of its own, and in its place stands a node that reads what comes over a link as it would read a hub. Whatever moves
//! either tree makes, the two that are joined again give what the whole tree gave, without what went out of it meanwhile. That is
//! stated in `law` of nodes of any kind that keep the laws of [`Machine`](rsx_sources::Machine).
//!
//! A batch of items through a straight chain goes over each edge once. It is tried first, and changes nothing: the source at the
//! bottom makes items, and the nodes above it make of them what they would put out, all in lists beside the tree. What the nodes are
//! after it they note. Where a node declines an item, as that of a caller's function that fails, all this is let go of, and single
//! moves go on from there. Else the nodes go on as they noted, and the edges count what went over them. A batch of n items does just
//! what n calls of [`Node::fetch`](rsx_tree::Node::fetch) do, one after the other. Items that wait in a root with nothing below it need
//! no try: no node stands above that could decline one, so they are moved out.
//!
//! What is proved here is proved of all kinds of nodes at once. The definitions stand in `specs/`, apart from the code: `Rooted`
//! (what a tree stands for, which of its moves are enabled, and what they change), `Fetched` (an item that is pulled through
//! it), `Feeding` (what goes out into the hands of the caller), `Tree` (what `rsx_tree` says of the tree), `Output`
//! (what has gone out, and what was published), `Built` (what a tree is that has just begun), `Crossings` (which of its edges
//! have a queue), `Cutting` (what a cut reads off a tree), `Flow`, `Local`, `Splice` and `Regions` (the words in which the laws of
//! cut and join are stated), `Resting` (a node that rests), `Leaves` and `Inboxes` (the places that leaves take at hubs, and what waits in front of these),
//! `Items` (the single calls and moves that do what a batch does), `Made` (what was noted of a tree, and what it is after that),
//! `Machines` and `Went` (what nodes that make batches mean, and what they are after one), `Taking` (several items of a hub at once).

pub mod batch;
pub mod chain;
pub mod feeding;
mod hub_leaf;
pub mod joins;
pub mod law;
pub mod nodes;
pub mod places;
mod plain;
mod range;
pub mod resting;
pub mod rooted;
mod sender;
pub mod sink;
pub mod taking;

pub use batch::{After, Batch, Batches, FEWEST_IN_BATCH, MOST_IN_BATCH, Noted};
pub use chain::{carry_all, go_on, rest_after, room_over, try_batch};
pub use joins::joins_of;
pub use law::{put_again, root_regions, stands_on, two_regions};
pub use nodes::{CrossingNodes, Nodes, Route};
pub use places::{count_in, have_places};
pub use resting::want_of_resting;
pub use rooted::{Pumped, Rooted};
pub use rsx_prefetch::SignalQueue;
pub use rsx_tree::{Edge, EdgeState, NodeMove};
pub use sink::{NoRoom, Sink};
pub use taking::{hand_many, spaces_for};
