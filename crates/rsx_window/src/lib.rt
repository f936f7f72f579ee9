#![tactic(auto)]
//! The node `window`: its input cut into windows of so many items, each through a chain of plain operators of its own, one
//! behind the other.
//!
//! An item goes into the chain of the window that is started, or of a new one, when it arrives, and what comes out of the chain
//! waits in the node. A full window's chain is completed together with its last item. Only one window is started at a time, and
//! the node takes no signal while one waits. So the chain and the signals that wait are all that it keeps.
//!
//! The definitions stand in `specs/`: `Cut` (what still comes out of a `window` that has taken some of its input), `Window` (the
//! node) and `Laws`. What `window` gives for a whole input is `window` of `rsx_values`; that is what a new node gives.

pub mod current;
pub mod node;
mod rest;

pub use current::CurrentWindow;
pub use node::WindowNode;
