#![tactic(auto)]
//! Parts of subscriptions go live, over any nodes: they are cut, put into regions, and come back.
//!
//! - [`cutting`]: [`cut_all`], by which trees are cut at all edges that cross, with a region for each piece.
//! - [`going`]: [`go_live`], by which the parts of subscriptions are put into the regions of a live graph.
//! - [`kept`]: [`Parted`], subscriptions of which some have pieces in place of their parts, and [`Kept`], what is kept of them.
//! - [`lives`]: [`LiveSubscriptions`], and [`LiveSubscriptions::close`], by which the subscriptions come back.
//! - [`outgoing`]: [`go_out`], by which the part of a subscription becomes a piece, with a tap for its subscriber.
//! - [`returning`]: [`come_back`], by which the piece becomes the part of a subscription again.
//! - [`tapping`]: the calls of [`LiveSubscriptions`] by which a thread pokes a region, takes, requests and cancels.
//!
//! The definitions stand in `specs/`: `Cursors` (places among the senders of a tree), `Cutting` (trees that are cut, and nothing was done
//! since), `Kept` (subscriptions that are parted, and come back), `Lives` (subscriptions that are live), `Outgoing` (a subscription whose
//! part became a piece), `Returning` (what the subscription stands for that comes back) and `Tapping` (what the calls of one tap among
//! others change).

pub mod cutting;
pub mod going;
pub mod kept;
pub mod lives;
pub mod outgoing;
pub mod returning;
pub mod tapping;
mod unread;

pub use cutting::cut_all;
pub use going::{NotLive, Started, go_live};
pub use kept::{Kept, Parted};
pub use lives::LiveSubscriptions;
pub use outgoing::{Outgoing, Stay, go_out};
pub use returning::come_back;
