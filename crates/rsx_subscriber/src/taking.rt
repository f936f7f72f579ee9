//! The Take of a subscription's root, whose signal goes into a list of deliveries.

use crate::deliveries::Deliveries;
use crate::subscription::Subscription;
use rsx_pipe::Nodes;
use rsx_sources::NotMade;
use rsx_types::{NoMemory, SubId};

impl<N: Nodes<Item = T>, T: Drop> Subscription<N, T> {
    ghost use Rattle.std.specs.Prelude.{◌≡◌, OnOk, OnErr, IfErr, true};
    ghost use Rattle.rsx_sources.specs.Steps.{IsNotMade};
    ghost use Rattle.rsx_subscriber.specs.Delivered.{IsFull};
    ghost use Rattle.rsx_subscriber.specs.Stands.{take_enabled};
    ghost use Rattle.rsx_subscriber.specs.Taken.{IsTakenInto};

    /// Makes the move Take of the root ([`Subscription::take`]) and puts its signal into `out`, behind what stands there, as one to
    /// the subscriber with this number. It takes no memory but where `out` has no room for one signal more.
    ///
    /// # Errors
    /// [`NotMade::NotEnabled`] exactly where the Take isn't enabled, and [`NotMade::NoMemory`] where `out` has no room for one
    /// signal more and its growth was refused; nothing changed.
    pub fn take_into(&mut self, id: SubId, out: &mut Deliveries<T>) -> Result<(), NotMade>
        ensures taken { OnOk result (IsTakenInto N.Machine id self.old out.old self.new out.new) }
        ensures enabled { OnOk result (take_enabled self.old 0 ≡ true) }
        ensures err { IfErr result (IsNotMade (take_enabled self.old 0)) }
        ensures full { IfErr result (λ why. why ≡ NotMade.NoMemory → IsFull out.old) }
        ensures same { OnErr result ((self.new ≡ self.old) × (out.new ≡ out.old)) }
    {
        if !self.can_take() {
            return Err(NotMade::NotEnabled);
        }
        match out.reserve() {
            Ok(()) => {}
            Err(NoMemory) => return Err(NotMade::NoMemory),
        }
        let signal = self.take(0).unwrap();
        out.push(id, signal);
        Ok(())
    }
}
