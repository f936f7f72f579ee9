#![tactic(auto)]
//! Hubs, their members, and the node of an expression that reads a hub.
//!
//! # Hubs and members
//!
//! Hubs: what a program emits into a graph, or what one expression feeds, read by several members at their own pace.
//!
//! - [`Hub`] has an inbox, into which its emitter emits, and takes the signals in from there one by one. A hub that is fed
//!   by an expression takes them in directly.
//! - [`Member`] is one reader of a hub, with a queue of its own, so that it offers its signals with no access to the hub.
//!
//! A hub's value is the list of the items that its emitter was answered ok for, and its ending behind them. A member stands
//! for what it will still give out: the items of its queue, and then that value without the items that it has taken in
//! already ([`Member::reached`] of them). So a signal that is taken in changes nothing in what a member stands for.
//!
//! Whoever takes a signal out of a hub hands a copy of it to each live member, and does so only where each of them has
//! room: so the slowest live member holds the others back (rule 1.1), and nobody loses an item.
//!
//! The memory of a hub and of a member is taken when it is made, and no later call takes any, but for the copies that the
//! caller's functions make.
//!
//! # The leaf
//!
//! The node of an expression that reads a hub.
//!
//! - [`HubLeaf`]: a member of a hub as a node of a tree. It offers what its member offers, so it needs no access to the hub; the
//!   signals of the hub are handed to it by [`on_published`](rsx_sources::Machine::on_published).
//!
//! What still comes out of it is said over the hub's whole value: the items of its queue, and then that value without its first
//! items, as many as it took in or missed. So a signal of the hub that is taken in changes nothing in what comes out.

pub mod ending;
pub mod hub;
pub mod law;
pub mod leaf;
pub mod member;
pub mod refusal;

pub use hub::Hub;
pub use law::reads_on;
pub use leaf::HubLeaf;
pub use member::{Holds, Member, Remaining};
pub use refusal::{AdmitRefusal, HasEnded, HubRefusal, Rejected, TakeInRefusal};

/// The largest capacity of a hub, and the largest number of items that a new member gets of those taken in before.
pub const LARGEST: u64 = 1_024;

/// How many items a hub accepts in its life, 2^63 - 1.
pub const MOST_ACCEPTED: u64 = 9_223_372_036_854_775_807;

/// How many members a hub has in its life.
pub const MOST_MEMBERS: u64 = 64;
