//! A gate: a value that one holder at a time works on, and seats by which threads enter. No call waits, and none takes memory once the gate is made.
//!
//! Signals to one subscriber must come one after another, whichever threads they come from (rule 1.3), and no caller may be held up for it (rules 3.4 and 3.5). A lock keeps the first rule and breaks the second. The gate keeps both: a thread that finds the gate held leaves a note and goes, and the holder sees to its work.
//!
//! # From the queue-drain loop
//!
//! RxJava does the same by its queue-drain loop. A thread puts its signal into a queue, and adds one to `wip`, the counter of missed work:
//!
//! ```text
//! queue.offer(signal);
//! if (wip.getAndIncrement() != 0) return;   // someone drains, and will see the count
//! int missed = 1;
//! do {
//!     drain the queue;
//!     missed = wip.addAndGet(-missed);      // take off what was seen
//! } while (missed != 0);                    // until no more came
//! ```
//!
//! The counter says two things in one number: above 0, that someone drains, and by how much it is above what the drainer took off, that calls came meanwhile. The drainer goes round again whether one call came or ten, so it needs no number, only whether there was one. The gate keeps just that, as a note beside the fact that the gate is held:
//!
//! | word | meaning | in the queue-drain loop |
//! |---|---|---|
//! | 0 | free: the value is in its slot | `wip` is 0 |
//! | 1 | held, and no one entered since the holder's last mark | `wip` is what the drainer will take off |
//! | 2 | held and noted: someone entered since then, or the holder hasn't marked yet | `wip` is more than that |
//!
//! ```text
//!        enter: a pass           mark
//!   0 ------------------> 2 --------------> 1
//!   ^                    | ^               | |
//!   |      give_up       | |  enter: Noted | |
//!   |<-------------------+ +---------------+ |
//!   |                                        |
//!   +----------------------------------------+
//!                leave: Gone, give_up
//!
//!   at 2: enter is Noted and leave is Missed, and both leave the 2
//!   at 1: mark leaves the 1
//! ```
//!
//! Each call is one atomic step on the word:
//!
//! | call | step | found 0 | found 1 | found 2 |
//! |---|---|---|---|---|
//! | [`Pass::enter`] | swap to 2 | a pass | Noted | Noted |
//! | [`Pass::mark`] | swap to 1 | | | |
//! | [`Pass::leave`] | compare-exchange of 1 by 0 | | Gone | Missed |
//! | [`Pass::give_up`] | swap to 0 | | More | More |
//!
//! The last three are the holder's, and never find 0. The one step `addAndGet(-missed)` stands here as two. `mark`, before the holder looks for work, says that what came so far will be seen. `leave`, after it, asks whether anything came since.
//!
//! # Why no wake-up is lost
//!
//! A thread first puts its work where a holder looks, and then enters. All steps on the word have one order. Where its step finds 0, it has the pass, and sees to its work itself. Else there is a holder, and the word is 2 until that holder's next mark:
//!
//! - the holder marks again: it looks for work after the mark, and so after the work was put there;
//! - it does not: then its `leave` finds 2, is Missed, and the pass stays with it.
//!
//! A pass begins at 2 and not at 1, since its holder has not looked yet. So a `leave` with no mark before it is Missed, as `missed` begins at 1 above. And `leave` is one compare-exchange, since an enter that came between a look at the word and a write of 0 would find the gate held, and no one would see its note.
//!
//! A holder that has worked long enough may `give_up`. The answer is [`More`], whatever was noted: work may be left, and the caller has to see to it that someone enters again.
//!
//! # A holder
//!
//! ```text
//! let mut pass = match Pass::enter(seat, gate) {
//!     Ok(pass) => pass,
//!     Err(Noted) => return,                          // the holder will find the note
//! };
//! for _ in 0..ROUNDS {
//!     pass.mark(gate);                               // what came so far is seen from here on
//!     work(pass.value(gate));
//!     match pass.leave(gate) {
//!         Left::Gone => return,                      // nothing came since
//!         Left::Missed(again) => pass = again,       // something did: once more
//!     }
//! }
//! let More = pass.give_up(gate);
//! ```
//!
//! A [`Pass`] has no `Drop`, since a pass that is dropped would leave the gate held for ever. It borrows its seat, which is free again once the pass has ended, and each call is also passed the gate.
//!
//! # The steps on a seat itself
//!
//! Each call of a pass but [`Pass::value`] is one step of its seat. The same steps stand alone, for a holder that keeps the seat in a struct of its own: a struct that has a `Pass` can't hand that pass's loan on.
//!
//! | on the seat | on the pass |
//! |---|---|
//! | [`Gate::take`] | [`Pass::enter`] |
//! | [`Gate::value_of`] | [`Pass::value`] |
//! | [`Gate::mark`] | [`Pass::mark`] |
//! | [`Gate::try_leave`] | [`Pass::leave`] |
//! | [`Gate::release`] | [`Pass::give_up`] |
//!
//! What the type of a pass says, these calls have as a condition: `take` wants a seat that has no pass, and the others want one that has the value. Don't drop such a seat, since the gate would stay held for ever.
//!
//! # What is proved
//!
//! - Some interleaving of all seats' steps, each seat's own in its order and each once, is a legal history of the word, which ends at the word's value. The value is in its slot exactly where the word is 0.
//! - In a legal history at most one seat has the pass ([`at_most_one_pass`]). Gone is answered only where no enter stands after the holder's last mark ([`gone_has_no_note`]), and Missed only where one does or the holder has made no mark since it got the pass ([`missed_has_note`]).
//! - Each call adds to its seat's steps just the one that it made, and answers by what that step found.
//! - Whoever has the pass has a value that fits the gate's key ([`Kept`]), and hands back one that does.
//! - A seat that all others were joined into closes the gate, and gets the value. To know that its parts are at least all is enough.
//!
//! No clause says that a thread gets the pass in the end, or how soon.
#![tactic(auto)]

mod gate;
mod laws;
mod plays;
mod rule;
mod view;

pub use gate::{Gate, Left, More, Noted, Pass, Seat};
pub use laws::{at_most_one_pass, gone_has_no_note, missed_has_note};
pub use rule::Kept;
pub use view::{Step, View};
