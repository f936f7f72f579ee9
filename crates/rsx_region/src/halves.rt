//! What was cut off a piece is joined to it again.

ghost use Rattle.std.specs.Prelude.{◌≡◌, ◌+◌, ◌≤◌, ◌<◌, ◌∷◌, ◌++◌, ℕ, List, [], length, map, true, false, None, Some, IfErr, IfNone, IfOk, IfSome, OnErr, OnOk};
ghost use Rattle.rsx_link.specs.declared.link.Link.{Link as LinkSpec};
ghost use Rattle.rsx_link.specs.Ends.{AreEnds, capacity_of};
ghost use Rattle.rsx_pipe.specs.Cutting.{place_at};
ghost use Rattle.rsx_pipe.specs.Rejoined.{can_put_in};
ghost use Rattle.rsx_region.specs.Halves.{AreHalves, Halves, halves_of};
ghost use Rattle.rsx_region.specs.Joins.{CanEnd, CanGoOn, CannotJoin, HasNoOther, HaveGone, IsCutFrom, IsJoinedBy, IsJoinedEnded, IsJoinedGoing, IsPutBack, IsShutUnless};
ghost use Rattle.rsx_region.specs.Pieces.{IsPieceOf, StandsSince, hub_of};
ghost use Rattle.rsx_region.specs.declared.halves.TheConstants.{LINK_PLACES};
ghost use Rattle.rsx_region.specs.declared.piece.Incoming.{Incoming as IncomingSpec};
ghost use Rattle.rsx_region.specs.declared.piece.Piece.{Piece as PieceSpec};
ghost use Rattle.rsx_sources.specs.Counts.{ends_input};
ghost use Rattle.rsx_tree.specs.Edges.{edge_view, is_live};
ghost use Rattle.rsx_tree.specs.Stepped.{Station, station_of};
ghost use Rattle.rsx_types.specs.Meaning.{Meaning};
ghost use Rattle.rsx_types.specs.Stream.{Stream};
ghost use Rattle.rsx_types.specs.declared.limits.TheConstants.{CAPACITY};
ghost use Rattle.rsx_types.specs.declared.signal.Signal.TheVariants.{Next};

use crate::piece::{Incoming, Piece};
use rsx_link::{Link, Remaining};
use rsx_pipe::{CrossingNodes, CutOff, Edge, EdgeState, Part};
use rsx_queued::{CAPACITY, ItemQueue};
use rsx_types::{Cause, Ending, Signal};

/// How many items the node that reads a link holds at most, so that it can be handed so many at once.
pub const READER_PLACES: usize = 16;

/// How many signals a link between two pieces holds at most. With those that its reader holds, the queue of an edge takes them back.
pub const LINK_PLACES: usize = CAPACITY - READER_PLACES;

/// What was cut off a piece at an edge: the piece below it, and the link that it sends into.
#[derive(Drop)]
pub struct Below<N, T> {
    /// The piece below the edge.
    pub piece: Piece<N, T>,
    /// The link, which holds at most [`LINK_PLACES`] signals.
    pub link: Link<T>,
    /// The number of the edge in the piece above, 1 at least.
    pub at: u32,
    /// The queue of the edge, which is empty.
    pub queue: ItemQueue<T>,
}

impl<N: CrossingNodes<Item = T> + Drop, T: Drop> Piece<N, T> {
    /// Joins what was cut off to the piece again. What the reader of the link holds, and what the link holds, stands in the queue of the
    /// edge then. Whatever both halves did since they were cut, the piece stands for what it stood for before. It takes no memory.
    ///
    /// # Errors
    /// All comes back, and nothing changed, where it can't be joined. Either the node that read the link isn't there, or its queue
    /// doesn't take all of it back; or the lower half was closed, though the edge of that node is live; or that node took in another
    /// ending than the lower half sent. Halves that only went on by [`Piece::serve`] can always be joined, which is only tested.
    pub fn join(&mut self, below: Below<N, T>) -> Result<(), Below<N, T>>
        requires { AreHalves self.old below }
        ensures joined { OnOk result (IsJoinedBy self.old self.new) }
        ensures ends { OnOk result ((links : List (LinkSpec T)) → IsPieceOf (links ++ below.link ∷ []) self.old → HasNoOther (length links) self.new → IsPieceOf links self.new) }
        ensures stands { OnOk result ((m : Meaning T) (first hubs : List (Stream T)) (was : PieceSpec N T) (opening : Halves N T) →
            IsCutFrom N.Machine N.CrossingNodes.own was opening → HaveGone N.Machine m hubs opening (halves_of self.old below) → StandsSince N.Machine m first was was → StandsSince N.Machine m hubs was self.new) }
        ensures refused { OnErr result (CannotJoin N.Machine N.CrossingNodes.own self.old.part below.at self.old.inlets.items below.piece.part) }
        ensures err { IfErr result (λ b. b ≡ below) }
        ensures same { OnErr result (self.new ≡ self.old) }
    {
        let Some(goes_on) = way(&self.part, below.at, &self.inlets, &below.piece.part) else {
            return Err(below);
        };
        let Some(last) = self.inlets.pop() else {
            return Err(below);
        };
        match goes_on {
            true => join_going(&mut self.part, last, below),
            false => join_ended(&mut self.part, last, below),
        }
        Ok(())
    }
}

/// Whether the node that reads the last link goes on, where the lower half can take its place.
fn way<N: CrossingNodes<Item = T> + Drop, T: Drop>(
    part: &Part<N>,
    at: u32,
    inlets: &[Incoming<T>],
    lower: &Part<N>,
) -> Option<bool>
    ensures going { IfSome result (λ goes_on. (others : List (IncomingSpec T)) (last : IncomingSpec T) → inlets.now ≡ others ++ last ∷ [] → goes_on ≡ true → CanGoOn N.Machine N.CrossingNodes.own part.now at last lower.now) }
    ensures ended { IfSome result (λ goes_on. (others : List (IncomingSpec T)) (last : IncomingSpec T) → inlets.now ≡ others ++ last ∷ [] → goes_on ≡ false → CanEnd N.Machine N.CrossingNodes.own part.now at last lower.now) }
    ensures none { IfNone result (CannotJoin N.Machine N.CrossingNodes.own part.now at inlets.now lower.now) }
{
    let Some(last) = inlets.last() else {
        return None;
    };
    if can_go_on(part, at, last, lower) {
        return Some(true);
    }
    if can_end(part, at, last, lower) {
        return Some(false);
    }
    None
}

/// Whether the lower half can take the place of the node that reads the link still.
fn can_go_on<N: CrossingNodes<Item = T> + Drop, T: Drop>(
    part: &Part<N>,
    at: u32,
    last: &Incoming<T>,
    lower: &Part<N>,
) -> bool
    ensures yes { result ≡ true → CanGoOn N.Machine N.CrossingNodes.own part.now at last.now lower.now }
    ensures no { result ≡ false → CanGoOn N.Machine N.CrossingNodes.own part.now at last.now lower.now → ⊥ }
{
    let Some(reader) = part.edge(at) else {
        return false;
    };
    if at == 0 || last.inlet.ended.is_some() {
        return false;
    }
    may_go_on(reader, lower.root_edge())
        && part.takes_back(at, Some(u64::from(last.inlet.hub)), LINK_PLACES)
}

/// Whether a part with this root edge can be joined over this edge where no ending came over the link.
fn may_go_on(reader: Edge, root: Edge) -> bool
    ensures yes { result ≡ true → is_live reader.state ≡ true → root.state ≡ EdgeState.Closed → ⊥ }
    ensures no { result ≡ false → (is_live reader.state ≡ true) × (root.state ≡ EdgeState.Closed) }
{
    match root.state {
        EdgeState::Closed => !reader.is_live(),
        EdgeState::Live | EdgeState::Ended => true,
    }
}

/// Whether the lower half can take the place of the node that read the link to its end, as it is after that.
fn can_end<N: CrossingNodes<Item = T> + Drop, T: Drop>(
    part: &Part<N>,
    at: u32,
    last: &Incoming<T>,
    lower: &Part<N>,
) -> bool
    ensures yes { result ≡ true → CanEnd N.Machine N.CrossingNodes.own part.now at last.now lower.now }
    ensures no { result ≡ false → CanEnd N.Machine N.CrossingNodes.own part.now at last.now lower.now → ⊥ }
{
    let Some(ending) = last.inlet.ended else {
        return false;
    };
    let Some(read) = part.read_ending(at) else {
        return false;
    };
    let Some(_) = part.edge(at) else {
        return false;
    };
    if at == 0 || !is_same(read, ending) {
        return false;
    }
    has_ended(lower.root_edge()) && part.takes_back(at, None, 0)
}

/// Whether both endings are the same.
fn is_same(one: Ending, other: Ending) -> bool
    ensures yes { result ≡ true → one ≡ other }
    ensures no { result ≡ false → one ≡ other → ⊥ }
{
    match (one, other) {
        (Ending::Open, Ending::Open) | (Ending::Done, Ending::Done) => true,
        (Ending::Failed(one), Ending::Failed(other)) => is_same_cause(one, other),
        _ => false,
    }
}

/// Whether both causes are the same.
fn is_same_cause(one: Cause, other: Cause) -> bool
    ensures yes { result ≡ true → one ≡ other }
    ensures no { result ≡ false → one ≡ other → ⊥ }
{
    match (one, other) {
        (Cause::User(one), Cause::User(other)) => one == other,
        (Cause::Function(one), Cause::Function(other)) => one == other,
        (Cause::NonPositiveRequest, Cause::NonPositiveRequest) => true,
        _ => false,
    }
}

/// Whether an ending went over this edge.
fn has_ended(edge: Edge) -> bool
    ensures yes { result ≡ true → edge.state ≡ EdgeState.Ended }
    ensures no { result ≡ false → edge.state ≡ EdgeState.Ended → ⊥ }
{
    matches!(edge.state, EdgeState::Ended)
}

/// Puts the lower half in the place of the node that reads the link still. What remains of the link goes into the queue there.
fn join_going<N: CrossingNodes<Item = T> + Drop, T: Drop>(
    part: &mut Part<N>,
    last: Incoming<T>,
    below: Below<N, T>,
)
    requires ends { AreEnds below.link below.piece.up last.inlet.down last.inlet.closer }
    requires small { capacity_of below.link ≤ LINK_PLACES }
    requires empty { below.queue ≡ [] }
    requires can { CanGoOn N.Machine N.CrossingNodes.own part.old below.at last below.piece.part }
    ensures put { IsJoinedGoing N.Machine N.CrossingNodes.own part.old below.at last below.piece part.new }
    ensures root { part.new.root ≡ part.old.root }
{
    let Below {
        piece,
        link,
        at,
        queue,
    } = below;
    let is_live = is_live_at(part, at);
    let hub = u64::from(last.inlet.hub);
    let (down, closer) = last.inlet.into_ends();
    let closed = link.close(piece.up, down, closer);
    let lower = shut_unless(is_live, piece.part);
    put_back(part, at, hub, closed.remaining, lower, queue);
}

/// Puts the lower half, as it is after its ending, in the place of the node that took that in.
fn join_ended<N: CrossingNodes<Item = T> + Drop, T: Drop>(
    part: &mut Part<N>,
    last: Incoming<T>,
    below: Below<N, T>,
)
    requires ends { AreEnds below.link below.piece.up last.inlet.down last.inlet.closer }
    requires empty { below.queue ≡ [] }
    requires can { CanEnd N.Machine N.CrossingNodes.own part.old below.at last below.piece.part }
    ensures put { IsJoinedEnded N.Machine N.CrossingNodes.own part.old below.at last below.piece part.new }
    ensures root { part.new.root ≡ part.old.root }
{
    let Below {
        piece,
        link,
        at,
        queue,
    } = below;
    let is_live = is_live_at(part, at);
    let (down, closer) = last.inlet.into_ends();
    let _ = link.close(piece.up, down, closer);
    let lower = shut_unless(is_live, piece.part);
    // The part takes it back, as was seen before.
    let _ = part.rejoin_ended(at, CutOff { part: lower, queue });
}

/// Whether the edge of the node at this place is live.
fn is_live_at<N: CrossingNodes>(part: &Part<N>, at: u32) -> bool
    ensures { (there : Station N) → station_of part.now.tree (edge_view part.now.root) at ≡ Some there → result ≡ is_live there.state }
{
    match part.edge(at) {
        Some(edge) => edge.is_live(),
        None => false,
    }
}

/// Closes a part, unless the edge over it is live.
fn shut_unless<N: CrossingNodes>(is_live: bool, part: Part<N>) -> Part<N>
    ensures { IsShutUnless N.Machine is_live part result }
{
    let mut part = part;
    if !is_live {
        part.close();
    }
    part
}

/// Joins a part to what is below an edge of it, with what remains of a link. An ending that is there is put back first.
fn put_back<N: CrossingNodes<Item = T> + Drop, T: Drop>(
    part: &mut Part<N>,
    at: u32,
    hub: u64,
    remaining: Remaining<T>,
    below: Part<N>,
    queue: ItemQueue<T>,
)
    requires few { length remaining ≤ LINK_PLACES }
    requires empty { queue ≡ [] }
    requires takes { can_put_in N.Machine N.CrossingNodes.own (Some hub) LINK_PLACES (place_at at part.old.tree) ≡ true }
    ensures put { IsPutBack N.Machine N.CrossingNodes.own part.old at hub remaining below part.new }
    ensures root { part.new.root ≡ part.old.root }
{
    let mut remaining = remaining;
    let mut queue = queue;
    let mut below = below;
    if let Some(ending) = pour(&mut remaining, &mut queue) {
        below.put_back(ending);
    }
    // The part takes it back, as was seen before.
    let _ = part.rejoin(at, hub, CutOff { part: below, queue });
}

/// Takes the items out of what remains of a link, into a queue that has room for them, up to an ending, which it answers. It calls itself
/// at most [`LINK_PLACES`] deep.
fn pour<T: Drop>(remaining: &mut Remaining<T>, queue: &mut ItemQueue<T>) -> Option<Signal<T>>
    requires { length queue.old + length remaining.old ≤ CAPACITY }
    ensures some { IfSome result (λ s. (items : List T) × (remaining.old ≡ map Next items ++ s ∷ remaining.new) × (ends_input s ≡ true) × (queue.new ≡ queue.old ++ items)) }
    ensures none { IfNone result ((items : List T) × (remaining.old ≡ map Next items) × (queue.new ≡ queue.old ++ items)) }
{
    match remaining.pop() {
        Some(Signal::Next(item)) => {
            queue.push(item);
            pour(remaining, queue)
        }
        ending => ending,
    }
}
