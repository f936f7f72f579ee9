#![tactic(auto)]
//! Traces of publishers and subscribers, what happened between them as events and as text, and the rules of Reactive Streams that a
//! trace can show to be broken.
//!
//! A trace is a list of [`Stamped`] events, in the order in which they happened. Positions count from 0.
//! [`parse_trace`] reads one from a text of either format, a [`TraceReader`] reads one line by line, and [`print_trace`] writes one as
//! text. [`judge`] says of one rule whether a trace keeps it, and [`report`] of all 43, which [`print_report`] writes as text, and
//! [`print_explained`] with the event at which a rule is broken and the rule's sentence.
//!
//! Each rule that is judged is a [`pass`]: a state that goes over the events of one subscriber. [`flags`] has the passes
//! that remember whether an event of some kind has stood, [`counts`] those that count items and requests, [`answers`]
//! that of bad requests, and [`running`] those on what stands while a signal is in progress.

mod answers;
mod both;
mod counts;
mod event;
mod explain;
mod flags;
mod line;
mod pass;
mod print;
mod print_events;
mod read;
mod reader;
mod refusal;
mod reports;
mod rule;
mod running;
mod sentence;
mod workers;

pub use event::{Event, Stamped};
pub use explain::{Summary, print_explained};
pub use print::print_report;
pub use print_events::print_trace;
pub use read::parse_trace;
pub use reader::{BadLine, Progress, TraceReader};
pub use refusal::TraceRefusal;
pub use reports::{judge, report};
pub use rule::{Class, Rule, Verdict};
