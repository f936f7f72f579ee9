//! Sends over the root edge of a tree, by which a signal comes into the hands of the caller.

ghost use Rattle.std.specs.Prelude.{◌≡◌};
ghost use Rattle.rsx_sources.specs.Machine.{front_of};
ghost use Rattle.rsx_tree.specs.Edges.{EdgeView, edge_view, passed};

use crate::rooted::Rooted;
use rsx_demand::Demand;
use rsx_sources::{Front, Machine, NotMade};
use rsx_tree::{Edge, EdgeState};
use rsx_types::{NoMemory, Ops, Signal};
use std::alloc::Global;

/// An edge as it was before this signal went over it.
fn before<T>(edge: Edge, signal: &Signal<T>) -> Edge
    ensures { (old : EdgeView) → edge_view edge ≡ passed old (front_of signal.now) → old.state ≡ EdgeState.Live → edge_view result ≡ old }
{
    match signal {
        Signal::Next(_) => Edge {
            demand: Demand {
                asked: edge.demand.asked,
                sent: edge.demand.sent.saturating_sub(1),
            },
            state: edge.state,
        },
        Signal::Complete => Edge {
            demand: edge.demand,
            state: EdgeState::Live,
        },
        Signal::Error(_) => Edge {
            demand: edge.demand,
            state: EdgeState::Live,
        },
    }
}

impl<M: Machine> Rooted<M> {
    ghost use Rattle.std.specs.Prelude.{◌≡◌, false, OnErr, IfOk, IfErr, option_map};
    ghost use Rattle.rsx_types.specs.Meaning.{Meaning};
    ghost use Rattle.rsx_sources.specs.Steps.{IsNotMade};
    ghost use Rattle.rsx_tree.specs.Refusals.{OnlyNotEnabled};
    ghost use Rattle.rsx_rooted.specs.Feeding.{IsSentOut, goes_out, next_out};
    ghost use Rattle.rsx_rooted.specs.Tree.{pop_allocates};

    /// Which kind of signal the root edge would carry now: the one that the root offers, where the edge is live and, for an
    /// item, one was asked for.
    pub fn next_out(&self) -> Option<Front>
        ensures { (m : Meaning M.Item) → result ≡ option_map front_of (next_out M.Machine m self.now) }
    {
        let front = self.tree.front()?;
        match self.root.can_carry(front) {
            true => Some(front),
            false => None,
        }
    }

    /// Makes the Send over the root edge and hands the signal out to the caller, who is its receiver or puts it into what is.
    ///
    /// # Errors
    /// [`NotMade::NotEnabled`] exactly where the root edge carries nothing now ([`Rooted::next_out`]), and [`NotMade::NoMemory`]
    /// where a growth was refused, as where a function of the caller's makes the item and may allocate. Then nothing changed.
    pub fn send_out<O: Ops<Item = M::Item>>(
        &mut self,
        alloc: Global,
        ops: &O,
    ) -> Result<Signal<M::Item>, NotMade>
        ensures sent { IfOk result (λ s. IsSentOut M.Machine (O.meaning ops.now) self.old s self.new) }
        ensures err { IfErr result (IsNotMade (goes_out M.Machine (O.meaning ops.now) self.old)) }
        ensures memory { pop_allocates M.Machine (O.allocates ops.now) self.old.tree ≡ false → OnlyNotEnabled result }
        ensures same { OnErr result (self.new ≡ self.old) }
    {
        let Some(front) = self.tree.front() else {
            return Err(NotMade::NotEnabled);
        };
        if !self.root.can_carry(front) {
            return Err(NotMade::NotEnabled);
        }
        let signal = match self.tree.pop(alloc, ops) {
            Ok(Some(signal)) => signal,
            Ok(None) => return Err(NotMade::NotEnabled),
            Err(NoMemory) => return Err(NotMade::NoMemory),
        };
        self.root.carry(front);
        Ok(signal)
    }

    /// Puts the signal back that [`Rooted::send_out`] handed out last, for a receiver that had no memory for it: the tree is as it
    /// was before. It takes no memory.
    pub fn put_back(&mut self, signal: Signal<M::Item>)
        ensures { (m : Meaning M.Item) (before : Rooted M) → IsSentOut M.Machine m before signal self.old → self.new ≡ before }
    {
        self.root = before(self.root, &signal);
        self.tree.put_back(signal);
    }
}
