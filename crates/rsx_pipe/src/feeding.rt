//! Sends over the root edge of a part, by which a signal comes into the hands of the caller.

use crate::part::Part;
use rsx_rooted::Nodes;
use rsx_sources::{Front, NotMade};
use rsx_types::{Ops, Signal};
use std::alloc::Global;

impl<N: Nodes> Part<N> {
    ghost use Rattle.std.specs.Prelude.{◌≡◌, false, OnErr, IfOk, IfErr, option_map};
    ghost use Rattle.rsx_types.specs.Meaning.{Meaning};
    ghost use Rattle.rsx_sources.specs.Machine.{front_of};
    ghost use Rattle.rsx_sources.specs.Steps.{IsNotMade};
    ghost use Rattle.rsx_tree.specs.Refusals.{OnlyNotEnabled};
    ghost use Rattle.rsx_pipe.specs.Feeding.{IsSentOut, goes_out, next_out};
    ghost use Rattle.rsx_pipe.specs.Part.{Part as PartView};
    ghost use Rattle.rsx_pipe.specs.Tree.{pop_allocates};

    /// Which kind of signal the root edge would carry now: the one that the root offers, where the edge is live and, for an
    /// item, one was asked for.
    pub fn next_out(&self) -> Option<Front>
        ensures { (m : Meaning N.Item) → result ≡ option_map front_of (next_out N.Machine m self.now) }
    {
        self.rooted.next_out()
    }

    /// Makes the Send over the root edge and hands the signal out to the caller, who is its receiver or puts it into what is.
    ///
    /// # Errors
    /// [`NotMade::NotEnabled`] exactly where the root edge carries nothing now ([`Part::next_out`]), and [`NotMade::NoMemory`]
    /// where a growth was refused, as where a function of the caller's makes the item and may allocate. Then nothing changed.
    pub fn send_out<O: Ops<Item = N::Item>>(
        &mut self,
        alloc: Global,
        ops: &O,
    ) -> Result<Signal<N::Item>, NotMade>
        ensures sent { IfOk result (λ s. IsSentOut N.Machine (O.meaning ops.now) self.old s self.new) }
        ensures err { IfErr result (IsNotMade (goes_out N.Machine (O.meaning ops.now) self.old)) }
        ensures memory { pop_allocates N.Machine (O.allocates ops.now) self.old.tree ≡ false → OnlyNotEnabled result }
        ensures same { OnErr result (self.new ≡ self.old) }
    {
        self.rooted.send_out(alloc, ops)
    }

    /// Puts the signal back that [`Part::send_out`] handed out last, for a receiver that had no memory for it: the part is as it
    /// was before. It takes no memory.
    pub fn put_back(&mut self, signal: Signal<N::Item>)
        ensures { (m : Meaning N.Item) (before : PartView N) → IsSentOut N.Machine m before signal self.old → self.new ≡ before }
    {
        self.rooted.put_back(signal);
    }
}
