//! A piece becomes the part of a subscription again.

ghost use Rattle.std.specs.Prelude.{◌≡◌, ◌+◌, ◌≤◌, ◌++◌, ◌||◌, ℕ, [], length, not};
ghost use Rattle.rsx_link.specs.Ends.{IsUpOf, capacity_of};
ghost use Rattle.rsx_live_parts.specs.Outgoing.{IsOutOf, IsTapFor};
ghost use Rattle.rsx_live_parts.specs.Returning.{IsBackOf, IsPutInto, StandsAs, StandsFor, WasStopped, lived_state};
ghost use Rattle.rsx_pipe.specs.Part.{all_edges};
ghost use Rattle.rsx_region.specs.Pieces.{StandsSince, none_taken};
ghost use Rattle.rsx_region.specs.declared.piece.Piece.{Piece as PieceSpec};
ghost use Rattle.rsx_runtime.specs.Tapping.{IsTapOf};
ghost use Rattle.rsx_subscriber.specs.Standing.{live_in, standing};
ghost use Rattle.rsx_subscriber.specs.declared.subscription.Subscription.{Subscription as SubscriptionSpec};
ghost use Rattle.rsx_types.specs.Meaning.{Meaning};
ghost use Rattle.rsx_types.specs.declared.limits.TheConstants.{CAPACITY};
ghost use Rattle.rsx_link.specs.declared.link.Link.{Link as LinkSpec};

use rsx_demand::Demand;
use rsx_link::{Closed, Link, Remaining};
use rsx_pipe::{Nodes, Part, SignalQueue};
use rsx_region::Piece;
use rsx_runtime::{Tap, TapEnds};
use rsx_subscriber::{Subscription, SubscriptionParts};
use rsx_subscription::State;

/// Makes the subscription again of its piece, the link that the piece sends into, the tap of that link, and the queue that it had. What
/// remains of the link stands in the queue. It undoes [`go_out`](crate::go_out), and takes no memory.
///
/// The subscriber got what the tap gave, and asked for what that asked for. It is refused where the tap gave the error of a bad request,
/// has ended where that gave an ending, and is cancelled where a flag of the link was set; `result.1` says whether one was.
pub fn come_back<N: Nodes<Item = T> + Drop, T: Drop>(
    piece: Piece<N, T>,
    link: Link<T>,
    tap: Tap<T>,
    queue: SignalQueue<T>,
) -> (Subscription<N, T>, bool)
    requires ends { IsUpOf link piece.up × IsTapOf link tap }
    requires small { capacity_of link ≤ CAPACITY }
    requires empty { queue ≡ [] }
    ensures back { IsBackOf N.Machine piece tap result.1 result.0 }
    ensures stopped { WasStopped tap result.1 }
    ensures stands { (m : Meaning T) (n number : ℕ) (was : SubscriptionSpec N T) (opening : PieceSpec N T) (made : LinkSpec T) →
        IsOutOf N.Machine was number opening made → IsTapFor was link tap → StandsSince N.Machine m (none_taken n) opening piece → StandsFor N.Machine m was tap result.1 result.0 }
{
    let Piece { mut part, up, .. } = piece;
    let TapEnds {
        down,
        seat,
        error,
        ended,
    } = tap.into_ends();
    let demand = Demand {
        asked: down.asked(),
        sent: down.taken(),
    };
    let Closed {
        asked: _,
        cancelled,
        refused,
        remaining,
    } = link.close(up, down, seat);
    let stopped = is_flagged(cancelled, refused);
    part.request(demand.asked.saturating_sub(part.root_edge().demand.asked()));
    let is_live = is_live_after(error, ended, stopped);
    let (part, queue) = settle(is_live, part, queue, remaining);
    let parts = SubscriptionParts {
        part,
        queue,
        state: state_after(error, ended, stopped),
        demand,
        live: is_live,
    };
    (parts.put_together(), stopped)
}

/// The part and the queue of a subscription that is live still, in whose queue stands what remains of its link. Those of another one are
/// closed and empty.
fn settle<N: Nodes<Item = T> + Drop, T: Drop>(
    is_live: bool,
    part: Part<N>,
    queue: SignalQueue<T>,
    remaining: Remaining<T>,
) -> (Part<N>, SignalQueue<T>)
    requires few { length remaining ≤ CAPACITY }
    requires empty { queue ≡ [] }
    ensures put { IsPutInto is_live part remaining result.0 result.1 }
    ensures part { StandsAs N.Machine part result.0 }
    ensures asked { result.0.root.demand.asked ≡ part.root.demand.asked }
    ensures shape { length (all_edges result.0) ≡ length (all_edges part) }
{
    let mut part = part;
    let mut queue = queue;
    let mut remaining = remaining;
    match is_live {
        true => refill(&mut queue, &mut remaining),
        false => part.close(),
    }
    (part, queue)
}

/// Puts what remains of a link behind what is in the queue, which has room for it. It calls itself at most
/// [`CAPACITY`](rsx_types::CAPACITY) deep.
fn refill<T: Drop>(queue: &mut SignalQueue<T>, remaining: &mut Remaining<T>)
    requires { length queue.old + length remaining.old ≤ CAPACITY }
    ensures { queue.new ≡ queue.old ++ remaining.old }
{
    if let Some(signal) = remaining.pop() {
        queue.push(signal);
        refill(queue, remaining);
    }
}

/// Where a subscription stands in the table that was open.
fn state_after(error: bool, ended: bool, stopped: bool) -> State
    ensures stands { standing result (live_in (lived_state error (not ended) stopped)) ≡ lived_state error (not ended) stopped }
    ensures opened { result ≡ State.Fresh → ⊥ }
{
    if error {
        return State::Failed;
    }
    if ended {
        return State::Done;
    }
    if stopped {
        return State::Cancelled;
    }
    State::Open
}

/// Whether its subscriber takes part still.
fn is_live_after(error: bool, ended: bool, stopped: bool) -> bool
    ensures { result ≡ live_in (lived_state error (not ended) stopped) }
{
    !error && (ended || !stopped)
}

/// Whether one of the two flags of a link is set.
fn is_flagged(cancelled: bool, refused: bool) -> bool
    ensures { result ≡ (cancelled || refused) }
{
    cancelled || refused
}
