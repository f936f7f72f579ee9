//! The table of one subscription: what each input does in each state.
//!
//! [`step`] makes one step of it. It takes no memory and always returns.
//!
//! | state | subscribe | next | complete | error | request n > 0 | request n <= 0 | cancel |
//! |---|---|---|---|---|---|---|---|
//! | Fresh | to Open, Opened | S1 | S1 | S1 | S1 | S1 | S1 |
//! | Open | S2 | where `sent < asked` Deliver, and sent + 1; else S3 | to Done, Deliver | to Failed, Deliver | Add: asked + n | to Failed, Bad | to Cancelled, Close |
//! | Cancelled | S2 | Drop | Drop | Drop | Nothing | Nothing | Nothing |
//! | Done | S2 | S4 | S4 | S4 | Nothing | Nothing | Nothing |
//! | Failed | S2 | S4 | S4 | S4 | Nothing | Nothing | Nothing |
//!
//! The refusals are S1 [`Refusal::OutOfTurn`], S2 [`Refusal::Twice`], S3 [`Refusal::Overrun`] and S4
//! [`Refusal::AfterEnd`]. The table keeps these rules of Reactive Streams:
//!
//! - 1.1: an item is delivered only within the demand. 3.8, 3.17: a request adds to the demand, which
//!   saturates.
//! - 1.7: after an ending no signal follows. 1.8, 2.8: what still comes after a cancel is let fall.
//! - 1.9, 2.12: `onSubscribe` comes first, and once.
//! - 2.9, 2.10: an ending needs no demand.
//! - 3.5, 3.6, 3.7: a cancel may be repeated, and on a closed subscription a request and a cancel do
//!   nothing.
//! - 3.9: a request of 0 or less closes the subscription with an error.
//!
//! A subscription that was closed by a bad request is Failed, as one is that got an error from what
//! feeds it. Which of the two it was is for the caller to remember.
#![tactic(auto)]

ghost use Rattle.std.specs.Prelude.{◌≡◌, ◌<◌, OnErr};
ghost use Rattle.rsx_subscription.specs.Table.{cell_of, IsClosed, state_after, asked_after, sent_after, answer};

use rsx_demand::Demand;
use rsx_rules::rules;
use thiserror::Error;

/// Where a subscription stands.
#[derive(Clone, Copy, Debug, PartialEq, Eq)]
pub enum State {
    /// `onSubscribe` has not been signalled yet.
    Fresh,
    /// Items may come, within the demand.
    Open,
    /// The subscriber cancelled.
    Cancelled,
    /// Complete was delivered.
    Done,
    /// An error was delivered.
    Failed,
}

/// What can happen to a subscription.
#[derive(Clone, Copy, Debug, PartialEq, Eq)]
pub enum Input {
    /// `onSubscribe`.
    Subscribe,
    /// An item.
    Next,
    /// The ending of a success.
    Complete,
    /// The ending of a failure.
    Error,
    /// A request of so many items. One of 0 or less is a bad request (rule 3.9).
    Request(i64),
    /// A cancel.
    Cancel,
}

/// What a step asks its caller to do.
#[derive(Clone, Copy, Debug, PartialEq, Eq)]
pub enum Effect {
    /// The subscription is open.
    Opened,
    /// The signal goes to the subscriber.
    Deliver,
    /// The demand rose by the number requested.
    Add,
    /// The subscriber gets the error of a bad request, and what feeds it is closed.
    Bad,
    /// What feeds the subscriber is closed.
    Close,
    /// The signal is let fall.
    Drop,
    /// Nothing.
    Nothing,
}

/// Why a step was refused. A refusal changes nothing.
#[derive(Clone, Copy, Debug, PartialEq, Eq, Error)]
pub enum Refusal {
    /// S1: before `onSubscribe` nothing else may come.
    #[error("S1: the subscription is not open yet")]
    OutOfTurn,
    /// S2: `onSubscribe` came before.
    #[error("S2: the subscription was opened before")]
    Twice,
    /// S3: an item came that was not asked for.
    #[error("S3: no demand is left for this item")]
    Overrun,
    /// S4: a signal came after the ending.
    #[error("S4: the subscription has ended")]
    AfterEnd,
}

/// Makes one step: moves the state, counts in the demand, and answers what the caller has to do.
///
/// # Errors
///
/// By the table on the crate's page: S1 in the state Fresh for all but `onSubscribe`, S2 for
/// `onSubscribe` in any other state, S3 for an item with no demand left, and S4 for a signal after an
/// ending. A refusal changes neither the state nor the demand.
pub fn step(state: &mut State, demand: &mut Demand, input: Input) -> Result<Effect, Refusal>
    ensures state { state.new ≡ state_after (cell_of state.old input) state.old }
    ensures asked { demand.new.asked ≡ asked_after (cell_of state.old input) demand.old }
    ensures sent { demand.new.sent ≡ sent_after (cell_of state.old input) demand.old }
    ensures answer { result ≡ answer (cell_of state.old input) demand.old }

    // What the table means: items and endings reach only an open subscription, an item only within
    // its demand, a closed subscription stays as it is, and one that was opened was opened for good.
    ensures delivered { result ≡ Ok Effect.Deliver → state.old ≡ State.Open }
    ensures covered { input ≡ Input.Next → result ≡ Ok Effect.Deliver
        → demand.old.sent < demand.old.asked }
    ensures closed { IsClosed state.old → state.new ≡ state.old }
    ensures opened { (state.old ≡ State.Fresh → ⊥) → state.new ≡ State.Fresh → ⊥ }

    ensures refused { OnErr result ((state.new ≡ state.old) × (demand.new ≡ demand.old)) }
{
    let (next, answer) = rules! { *state, input;
        State::Fresh, Input::Subscribe => State::Open, Ok(Effect::Opened);
        State::Fresh, _ => State::Fresh, Err(Refusal::OutOfTurn);
        same, Input::Subscribe => same, Err(Refusal::Twice);

        State::Open, Input::Next, demand.room() > 0 => State::Open, { demand.spend(); Ok(Effect::Deliver) };
        State::Open, Input::Next => State::Open, Err(Refusal::Overrun);
        State::Open, Input::Complete => State::Done, Ok(Effect::Deliver);
        State::Open, Input::Error => State::Failed, Ok(Effect::Deliver);
        State::Open, Input::Request(n), n > 0 => State::Open, { demand.ask(n.unsigned_abs()); Ok(Effect::Add) };
        State::Open, Input::Request(_) => State::Failed, Ok(Effect::Bad);
        State::Open, Input::Cancel => State::Cancelled, Ok(Effect::Close);

        State::Cancelled, Input::Next | Input::Complete | Input::Error => State::Cancelled, Ok(Effect::Drop);
        ended @ (State::Done | State::Failed), Input::Next | Input::Complete | Input::Error =>
            ended, Err(Refusal::AfterEnd);
        closed, _ => closed, Ok(Effect::Nothing);
    };
    *state = next;
    answer
}
