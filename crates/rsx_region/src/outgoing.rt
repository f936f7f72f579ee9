//! What a piece does at its root, whose edge leads into a link.

ghost use Rattle.std.specs.Prelude.{◌≡◌, ◌≤◌, ◌||◌, List, false, true, OnErr, IfOk, IfSome, IfNone};
ghost use Rattle.rsx_types.specs.Meaning.{Meaning};
ghost use Rattle.rsx_types.specs.Stream.{Stream};
ghost use Rattle.rsx_types.specs.declared.signal.Signal.{Signal};
ghost use Rattle.rsx_tree.specs.declared.node.Node.{Node};
ghost use Rattle.rsx_pipe.specs.Feeding.{IsMadeInside, IsQuietInside, inside_enabled};
ghost use Rattle.rsx_link.specs.Ends.{IsUpOf, SameUp, sent_signals};
ghost use Rattle.rsx_link.specs.declared.up.Up.{Up as UpSpec};
ghost use Rattle.rsx_region.specs.Inlet.{InletStands};
ghost use Rattle.rsx_region.specs.Moves.{HasKept, HasMoved, HasPulled, HasSent, IsLooked};
ghost use Rattle.rsx_region.specs.Piece.{IsInStep, PieceStands};
ghost use Rattle.rsx_region.specs.declared.inlet.Inlet.{Inlet as InletSpec};

use rsx_link::{Found, Link, Up};
use rsx_pipe::{EdgeState, NoRoom, NodeMove, Nodes, Part};
use rsx_sources::NotMade;
use rsx_types::{NoMemory, Ops, Signal};
use std::alloc::Global;

/// Looks at the link that the root sends into: what is asked of the root rises to the total that was found, and where a flag was
/// found, the part is closed (rules 3.5 and 3.8). It takes no memory.
///
/// It answers what was found. Where the root edge isn't live it answers `None`, and does nothing: of a piece that has sent its
/// ending, or was closed, nothing changes any more.
pub fn look<N: Nodes<Item = T>, T: Drop>(
    part: &mut Part<N>,
    up: &mut Up<T>,
    link: &Link<T>,
) -> Option<Found>
    requires end { IsUpOf link.now up.old }
    requires step { IsInStep part.old up.old }
    ensures end { IsUpOf link.now up.new }
    ensures step { IsInStep part.new up.new }
    ensures looked { (m : Meaning T) → IfSome result (λ f. IsLooked N.Machine m link.now f part.old up.old part.new up.new) }
    ensures live { IfSome result (λ f. part.old.root.state ≡ EdgeState.Live) }
    ensures none { IfNone result ((part.old.root.state ≡ EdgeState.Live → ⊥) × (part.new ≡ part.old) × (up.new ≡ up.old)) }
    ensures after { (part.old.root.state ≡ EdgeState.Live → ⊥) → (part.new ≡ part.old) × (up.new ≡ up.old) }
    ensures stands { (m : Meaning T) (taken : List (Stream T)) (old : Node N) (queued : List (Signal T)) →
        PieceStands N.Machine m taken old queued part.old up.old → PieceStands N.Machine m taken old queued part.new up.new }
    ensures inlets { (taken : List (Stream T)) (i : InletSpec T) → InletStands N.Machine taken part.old i → InletStands N.Machine taken part.new i }
{
    let root = part.root_edge();
    if !root.is_live() {
        return None;
    }
    let found = up.look(link);
    part.request(found.asked - root.demand.asked());
    if !is_flagged(&found) {
        return Some(found);
    }
    part.close();
    Some(found)
}

/// Whether some flag was found.
fn is_flagged(found: &Found) -> bool
    ensures { result ≡ found.now.cancelled || found.now.refused }
{
    found.cancelled || found.refused
}

/// Makes the first enabled move inside the part, from the root down, and answers whether there was one. Of a piece whose root edge
/// isn't live nothing changes, and it answers that there was none.
///
/// # Errors
/// [`NoMemory`] where a growth was refused. Then nothing changed.
pub fn work<N: Nodes<Item = O::Item>, O: Ops>(
    alloc: Global,
    ops: &O,
    part: &mut Part<N>,
) -> Result<bool, NoMemory>
    ensures moved { IfOk result (λ b. b ≡ true → HasMoved N.Machine (O.meaning ops.now) part.old part.new) }
    ensures none { IfOk result (λ b. b ≡ false → (part.new ≡ part.old) × (part.old.root.state ≡ EdgeState.Live → IsQuietInside N.Machine (O.meaning ops.now) part.old)) }
    ensures same { OnErr result (part.new ≡ part.old) }
    ensures after { (part.old.root.state ≡ EdgeState.Live → ⊥) → part.new ≡ part.old }
    ensures step { (up : UpSpec O.Item) → IsInStep part.old up → IsInStep part.new up }
    ensures stands { (taken : List (Stream O.Item)) (old : Node N) (queued : List (Signal O.Item)) (up : UpSpec O.Item) →
        PieceStands N.Machine (O.meaning ops.now) taken old queued part.old up → PieceStands N.Machine (O.meaning ops.now) taken old queued part.new up }
    ensures inlets { (taken : List (Stream O.Item)) (i : InletSpec O.Item) → InletStands N.Machine taken part.old i → InletStands N.Machine taken part.new i }
{
    let Some(step) = part.first_enabled(&NoRoom) else {
        return Ok(false);
    };
    work_at(alloc, ops, part, step)
}

/// Makes this move inside the part, where it is enabled, and answers whether it did. Of a piece whose root edge isn't live nothing
/// changes, and it answers that there was none.
///
/// # Errors
/// [`NoMemory`] where a growth was refused. Then nothing changed.
#[inline]
pub fn work_at<N: Nodes<Item = O::Item>, O: Ops>(
    alloc: Global,
    ops: &O,
    part: &mut Part<N>,
    step: NodeMove,
) -> Result<bool, NoMemory>
    ensures moved { IfOk result (λ b. b ≡ true → HasMoved N.Machine (O.meaning ops.now) part.old part.new) }
    ensures made { IfOk result (λ b. b ≡ true → (inside_enabled N.Machine (O.meaning ops.now) part.old step ≡ true) × IsMadeInside N.Machine (O.meaning ops.now) step part.old part.new) }
    ensures live { IfOk result (λ b. b ≡ true → part.old.root.state ≡ EdgeState.Live) }
    ensures none { IfOk result (λ b. b ≡ false → (part.new ≡ part.old) × (part.old.root.state ≡ EdgeState.Live → inside_enabled N.Machine (O.meaning ops.now) part.old step ≡ false)) }
    ensures same { OnErr result (part.new ≡ part.old) }
    ensures after { (part.old.root.state ≡ EdgeState.Live → ⊥) → part.new ≡ part.old }
    ensures step { (up : UpSpec O.Item) → IsInStep part.old up → IsInStep part.new up }
    ensures stands { (taken : List (Stream O.Item)) (old : Node N) (queued : List (Signal O.Item)) (up : UpSpec O.Item) →
        PieceStands N.Machine (O.meaning ops.now) taken old queued part.old up → PieceStands N.Machine (O.meaning ops.now) taken old queued part.new up }
    ensures inlets { (taken : List (Stream O.Item)) (i : InletSpec O.Item) → InletStands N.Machine taken part.old i → InletStands N.Machine taken part.new i }
{
    if !part.root_edge().is_live() {
        return Ok(false);
    }
    match part.make(alloc, ops, step, &mut NoRoom) {
        Ok(()) => Ok(true),
        Err(NotMade::NoMemory) => Err(NoMemory),
        Err(NotMade::NotEnabled) => Ok(false),
    }
}

/// Sends the next signal of the root over the root edge, into the link, and answers whether it did: where the root edge carries a
/// signal now and the link has room for it. An ending needs no demand (rule 1.1). Over a root edge that isn't live nothing goes.
///
/// # Errors
/// [`NoMemory`] where a growth was refused. Then nothing was sent, and the part is as it was.
pub fn send<N: Nodes<Item = O::Item>, O: Ops>(
    alloc: Global,
    ops: &O,
    part: &mut Part<N>,
    up: &mut Up<O::Item>,
    link: &Link<O::Item>,
) -> Result<bool, NoMemory>
    requires end { IsUpOf link.now up.old }
    requires step { IsInStep part.old up.old }
    ensures end { SameUp link.now up.old up.new }
    ensures step { IsInStep part.new up.new }
    ensures sent { IfOk result (λ b. b ≡ true → HasSent N.Machine (O.meaning ops.now) part.old up.old part.new up.new) }
    ensures kept { IfOk result (λ b. b ≡ false → HasKept N.Machine (O.meaning ops.now) part.old up.old part.new up.new) }
    ensures same { OnErr result ((part.new ≡ part.old) × (sent_signals up.new ≡ sent_signals up.old)) }
    ensures after { (part.old.root.state ≡ EdgeState.Live → ⊥) → (part.new ≡ part.old) × (sent_signals up.new ≡ sent_signals up.old) }
    ensures stands { (taken : List (Stream O.Item)) (old : Node N) (queued : List (Signal O.Item)) →
        PieceStands N.Machine (O.meaning ops.now) taken old queued part.old up.old → PieceStands N.Machine (O.meaning ops.now) taken old queued part.new up.new }
    ensures inlets { (taken : List (Stream O.Item)) (i : InletSpec O.Item) → InletStands N.Machine taken part.old i → InletStands N.Machine taken part.new i }
{
    if !up.has_room(link) {
        return Ok(false);
    }
    match part.send_out(alloc, ops) {
        Ok(signal) => {
            up.put(link, signal);
            Ok(true)
        }
        Err(NotMade::NoMemory) => Err(NoMemory),
        Err(NotMade::NotEnabled) => Ok(false),
    }
}

/// Pulls an item through the part, and sends it over the root edge, into the link: it makes moves inside the part until the root offers
/// an item, and then the Send of that, as [`Part::fetch`] does. It answers how many moves it made, which are at most `budget`.
///
/// With no item the moves that it made stand, and nothing was sent. It looks for one only while the link has room. Of a piece whose root
/// edge isn't live nothing changes, and nothing is sent.
#[inline]
pub fn pull<N: Nodes<Item = O::Item>, O: Ops>(
    alloc: Global,
    ops: &O,
    part: &mut Part<N>,
    up: &mut Up<O::Item>,
    link: &Link<O::Item>,
    budget: u32,
) -> u32
    requires end { IsUpOf link.now up.old }
    requires step { IsInStep part.old up.old }
    ensures end { SameUp link.now up.old up.new }
    ensures step { IsInStep part.new up.new }
    ensures pulled { HasPulled N.Machine (O.meaning ops.now) result part.old up.old part.new up.new }
    ensures most { result ≤ budget }
    ensures after { (part.old.root.state ≡ EdgeState.Live → ⊥) → (result ≡ 0) × (part.new ≡ part.old) × (sent_signals up.new ≡ sent_signals up.old) }
    ensures stands { (taken : List (Stream O.Item)) (old : Node N) (queued : List (Signal O.Item)) →
        PieceStands N.Machine (O.meaning ops.now) taken old queued part.old up.old → PieceStands N.Machine (O.meaning ops.now) taken old queued part.new up.new }
    ensures inlets { (taken : List (Stream O.Item)) (i : InletSpec O.Item) → InletStands N.Machine taken part.old i → InletStands N.Machine taken part.new i }
{
    if !part.root_edge().is_live() || !up.has_room(link) {
        return 0;
    }
    let mut left = budget;
    match part.fetch(alloc, ops, &mut left) {
        Some(item) => {
            up.put(link, Signal::Next(item));
            budget - left
        }
        None => budget - left,
    }
}
