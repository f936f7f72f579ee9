//! One move of a part, made many times in one call.

ghost use Rattle.std.specs.Prelude.{◌≡◌};
ghost use Rattle.rsx_pipe.specs.Many as spec;

use crate::part::Part;
use rsx_rooted::{Nodes, Sink};
use rsx_sources::NotMade;
use rsx_tree::NodeMove;
use rsx_types::Ops;
use std::alloc::Global;

/// How many moves one call makes at most ([`Part::make_many`]).
pub const MOST_AT_ONCE: u32 = 32;

impl<N: Nodes> Part<N> {
    ghost use Rattle.std.specs.Prelude.{◌≡◌, ◌<◌, ◌≤◌, OnErr, IfOk, IfErr};
    ghost use Rattle.rsx_sources.specs.declared.machine.NotMade.{NotMade as NotMadeOf};
    ghost use Rattle.rsx_pipe.specs.Many.{IsMadeTimes, IsRefused, most_of};

    /// Makes a move `n` times, as so many calls of [`Part::make`] would: a Send at most [`MOST_AT_ONCE`] times, and any other move
    /// once at most. It ends before that where the move isn't enabled any more or meets want of memory, and answers how many it
    /// made. With an `n` of 0 it answers 0, and nothing changed.
    ///
    /// # Errors
    /// Those of [`Part::make`] at the first of them: [`NotMade::NotEnabled`] exactly where that isn't enabled, and
    /// [`NotMade::NoMemory`] where a growth was refused. Then nothing changed.
    pub fn make_many<O: Ops<Item = N::Item>, S: Sink<N::Item>>(
        &mut self,
        alloc: Global,
        ops: &O,
        step: NodeMove,
        n: u32,
        out: &mut S,
    ) -> Result<u32, NotMade>
        ensures made { IfOk result (λ k. IsMadeTimes N.Machine S.Sink (O.meaning ops.now) step k self.old out.old self.new out.new) }
        ensures count { IfOk result (λ k. (k ≤ most_of step n) × (0 < n → 0 < k)) }

        // Where it made fewer than it may, the next one is refused.
        ensures ended { IfOk result (λ k. k < most_of step n → (why : NotMadeOf) × IsRefused N.Machine S.Sink (O.meaning ops.now) (O.allocates ops.now) step self.new out.new why) }
        ensures err { IfErr result (λ why. (0 < n) × IsRefused N.Machine S.Sink (O.meaning ops.now) (O.allocates ops.now) step self.old out.old why) }
        ensures same { OnErr result ((self.new ≡ self.old) × (out.new ≡ out.old)) }
    {
        let most = most_of(step, n);
        for made in 0..most {
            match self.make(alloc, ops, step, out) {
                Ok(()) => {}
                Err(why) => {
                    if made == 0 {
                        return Err(why);
                    }
                    return Ok(made);
                }
            }
        }
        Ok(most)
    }
}

/// How often a call makes a move at most, where `n` are wanted.
fn most_of(step: NodeMove, n: u32) -> u32
    ensures { result ≡ spec.most_of step n }
{
    match step {
        NodeMove::Send(_) => n.min(MOST_AT_ONCE),
        NodeMove::Ask(_) | NodeMove::Pick(_, _) | NodeMove::Row(_) => n.min(1),
    }
}
