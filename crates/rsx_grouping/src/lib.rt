#![tactic(auto)]
//! Lanes with their keys, and the node `groupBy`.
//!
//! # Lanes
//!
//! Lanes: what an operator makes several streams of one with.
//!
//! A [`Lane`] is a chain of plain operators with what it has put out and what waits until it is the lane's turn. The lanes of a
//! `groupBy` are numbered by the order in which their keys come first ([`LaneTable`]). A pick takes the next signal of a lane in two
//! steps: [`Laning::prepare`] makes it ready and can want memory, and [`Lane::commit`] can't. An item that waits can be picked in one go
//! ([`Laning::pick_item`]). The definitions stand in `specs/`: `Lane` (what still comes out of a lane, given what still comes in at it) and
//! `Table` (what still comes out of all lanes, of those that are there and of those that aren't yet). [`Resting`] computes that over
//! copies.
//!
//! # groupBy
//!
//! `groupBy` as a node.
//!
//! [`GroupByNode`] takes the items of one input, each into the lane of its key, and gives the merge of the lanes and Main, which has the
//! ending of the input, in the order in which they are picked. The definitions stand in `specs/`: `GroupBy` (what still comes out of the
//! node) and `Laws`.

pub mod keys;
pub mod lane;
pub mod main_state;
pub mod node;
pub mod rest;
pub mod table;
pub mod waiting;

pub use keys::{KeyPlace, LaneKeys};
pub use lane::{Lane, LanePick, LaneState, Laning};
pub use main_state::MainState;
pub use node::GroupByNode;
pub use rest::{KeyedItems, Resting};
pub use table::{KeyedLane, LaneTable, TakingKeyed};
pub use waiting::WaitingItems;
