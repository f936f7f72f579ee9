//! The seats by which a link is cancelled.

ghost use Rattle.std.specs.Prelude.{◌≡◌, ◌≢◌, []};
ghost use Rattle.rsx_link.specs.declared.view.Role.TheVariants.{Canceller};

use crate::link::{Link, Seat};

/// The right to cancel a link, or a part of it.
///
/// Several threads may each have a seat for one link, and cancel it at the same time.
#[derive(Drop)]
pub struct CancelSeat {
    pub(crate) seat: Seat,
    pub ghost role: { (seat.me.0.role ≡ Canceller) × (seat.me.1 ≡ []) },
    pub ghost has_part: { seat.me.0.parts ≢ [] },
}

impl CancelSeat {
    ghost use Rattle.std.specs.Prelude.{◌∷◌, ◌++◌};
    ghost use Rattle.rsx_link.specs.Ends.{IsCancelSeatOf, KeepsParts, KeepsSteps, AreHalves, cancel_steps, cancel_beside, cancel_parts, Cancels};

    /// Cancels the link (rule 3.5): sets flag 1, by one `fetch_or`, which leaves flag 2 as it is.
    ///
    /// To cancel again changes nothing (rule 3.7). Signals that are in the queue already may still be taken (rule 2.8).
    pub fn cancel<T>(&mut self, link: &Link<T>)
        requires { IsCancelSeatOf link.now self.old }
        ensures same { KeepsParts link.now self.old self.new }
        ensures cancelled { Cancels self.old (cancel_steps self.new) }
    {
        link.set_cancelled(&mut self.seat);
    }

    /// Makes a further seat of the same link, which has cancelled nothing. Each of the two gets half of this seat's part
    /// of the right to cancel.
    pub fn split<T>(&mut self, link: &Link<T>) -> CancelSeat
        requires { IsCancelSeatOf link.now self.old }
        ensures same { KeepsSteps link.now self.old self.new }
        ensures new { IsCancelSeatOf link.now result × (cancel_steps result ≡ []) × (cancel_beside result ≡ []) }
        ensures parts { AreHalves self.old self.new result }
    {
        let seat = link.split_canceller(&mut self.seat);
        CancelSeat { seat }
    }

    /// Takes another seat of the same link in: its steps stand beside this one's from now on, and its part of the right to
    /// cancel is added.
    pub fn join<T>(&mut self, link: &Link<T>, other: CancelSeat)
        requires seat { IsCancelSeatOf link.now self.old }
        requires other { IsCancelSeatOf link.now other }
        ensures same { IsCancelSeatOf link.now self.new × (cancel_steps self.new ≡ cancel_steps self.old) }
        ensures beside { cancel_beside self.new ≡ cancel_beside self.old ++ (cancel_steps other ∷ cancel_beside other) }
        ensures parts { cancel_parts self.new ≡ cancel_parts self.old ++ cancel_parts other }
    {
        link.join_canceller(&mut self.seat, other.seat);
    }
}
