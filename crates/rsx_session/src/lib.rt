#![tactic(auto)]
//! A session of a script: a graph over the demonstration's functions, with what was published at its hubs and what each of its
//! subscribers received.
//!
//! [`Session::answer`] does what a command asks for, and writes the answer as text. [`Session::take_apart`] hands out the graph, which
//! may go live meanwhile, and keeps the rest.
//!
//! A [`Recorder`] records what happens to the subscriptions of a script, as a trace. It carries out the same commands as the script,
//! over a graph of its own, and writes down each subscription, request, cancel and signal, in the order in which they happen. A
//! [`Recording`] is a reader whose lines are recorded so.

mod note;
mod parts;
mod published;
mod recorder;
mod recording;
pub mod session;

pub use parts::SessionRest;
pub use recorder::Recorder;
pub use recording::Recording;
pub use session::{Session, Trouble, View};
