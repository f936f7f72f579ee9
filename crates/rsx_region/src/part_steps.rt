//! Many steps of a part and the ends of its links in a row.

ghost use Rattle.std.specs.Prelude.{◌≡◌, ◌<◌, ◌≤◌, List, false, true, OnErr, IfOk};
ghost use Rattle.rsx_types.specs.Stream.{Stream};
ghost use Rattle.rsx_types.specs.declared.signal.Signal.{Signal};
ghost use Rattle.rsx_tree.specs.declared.node.Node.{Node};
ghost use Rattle.rsx_link.specs.Ends.{IsUpOf, SameUp, sent_signals};
ghost use Rattle.rsx_region.specs.Inlet.{InletStands};
ghost use Rattle.rsx_region.specs.Moves.{HasStepped, IsIdle, IsServed, IsStill};
ghost use Rattle.rsx_region.specs.Piece.{IsInStep, PieceStands};
ghost use Rattle.rsx_region.specs.declared.inlet.Inlet.{Inlet as InletSpec};

use crate::outgoing::{send, work};
use rsx_link::{Link, Up};
use rsx_pipe::{EdgeState, Nodes, Part};
use rsx_types::{NoMemory, Ops};
use std::alloc::Global;

/// Sends the next signal of the root into the link, or else makes the first enabled move inside the part, and answers whether there
/// was one to make. Of a piece whose root edge isn't live nothing changes, and nothing is sent.
///
/// # Errors
/// [`NoMemory`] where a growth was refused. Then no move was made.
pub fn step<N: Nodes<Item = O::Item>, O: Ops>(
    alloc: Global,
    ops: &O,
    part: &mut Part<N>,
    up: &mut Up<O::Item>,
    link: &Link<O::Item>,
) -> Result<bool, NoMemory>
    requires end { IsUpOf link.now up.old }
    requires step { IsInStep part.old up.old }
    ensures end { SameUp link.now up.old up.new }
    ensures step { IsInStep part.new up.new }
    ensures made { IfOk result (λ b. b ≡ true → HasStepped N.Machine (O.meaning ops.now) part.old up.old part.new up.new) }
    ensures still { IfOk result (λ b. b ≡ false → IsStill N.Machine (O.meaning ops.now) part.old up.old part.new up.new) }
    ensures same { OnErr result ((part.new ≡ part.old) × (sent_signals up.new ≡ sent_signals up.old)) }
    ensures after { (part.old.root.state ≡ EdgeState.Live → ⊥) → (part.new ≡ part.old) × (sent_signals up.new ≡ sent_signals up.old) }
    ensures stands { (taken : List (Stream O.Item)) (old : Node N) (queued : List (Signal O.Item)) →
        PieceStands N.Machine (O.meaning ops.now) taken old queued part.old up.old → PieceStands N.Machine (O.meaning ops.now) taken old queued part.new up.new }
    ensures inlets { (taken : List (Stream O.Item)) (i : InletSpec O.Item) → InletStands N.Machine taken part.old i → InletStands N.Machine taken part.new i }
{
    match send(alloc, ops, part, up, link) {
        Ok(true) => Ok(true),
        Ok(false) => work(alloc, ops, part),
        Err(why) => Err(why),
    }
}

/// Makes such steps until there is none to make, but at most `budget`, and answers how many it made. A part of which some node always
/// has a move takes up the whole budget. Of a piece whose root edge isn't live nothing changes, and nothing is sent.
///
/// # Errors
/// [`NoMemory`] where a growth was refused. The moves made before stand.
pub fn serve<N: Nodes<Item = O::Item>, O: Ops>(
    alloc: Global,
    ops: &O,
    part: &mut Part<N>,
    up: &mut Up<O::Item>,
    link: &Link<O::Item>,
    budget: u32,
) -> Result<u32, NoMemory>
    requires end { IsUpOf link.now up.old }
    requires step { IsInStep part.old up.old }
    ensures end { SameUp link.now up.old up.new }
    ensures step { IsInStep part.new up.new }
    ensures served { IfOk result (λ n. IsServed N.Machine (O.meaning ops.now) n part.old up.old part.new up.new) }
    ensures most { IfOk result (λ n. n ≤ budget) }
    ensures idle { IfOk result (λ n. n < budget → IsIdle N.Machine (O.meaning ops.now) part.new up.new) }
    ensures after { (part.old.root.state ≡ EdgeState.Live → ⊥) → (part.new ≡ part.old) × (sent_signals up.new ≡ sent_signals up.old) }
    ensures stands { (taken : List (Stream O.Item)) (old : Node N) (queued : List (Signal O.Item)) →
        PieceStands N.Machine (O.meaning ops.now) taken old queued part.old up.old → PieceStands N.Machine (O.meaning ops.now) taken old queued part.new up.new }
    ensures inlets { (taken : List (Stream O.Item)) (i : InletSpec O.Item) → InletStands N.Machine taken part.old i → InletStands N.Machine taken part.new i }
{
    for made in 0..budget {
        match step(alloc, ops, part, up, link) {
            Ok(true) => {}
            Ok(false) => return Ok(made),
            Err(why) => return Err(why),
        }
    }
    Ok(budget)
}
