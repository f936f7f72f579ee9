//! Trees are cut into pieces, each of which is in one region.

ghost use Rattle.std.specs.Prelude.{◌≡◌, ◌+◌, ◌<◌, ◌≤◌, ◌^◌, ◌++◌, ◌∷◌, [], ℕ, List, Some, false, true, if◌then◌else◌, length, map, slice_get, IfOk, OnOk};
ghost use Rattle.rsx_types.specs.Meaning.{Meaning};
ghost use Rattle.rsx_region.specs.Pieces.{Each, none_taken};
ghost use Rattle.rsx_region.specs.Trees.{AreCutFrom, IsOneCut, IsReadUnder, SameStage, Stage, StaysWholeAt, stage_of};
ghost use Rattle.rsx_live_parts.specs.Cursors.{first_of, region_in, root_at, root_in};
ghost use Rattle.rsx_live_parts.specs.Cutting.{AreAllSwept, AreCutStill, CountsCrossing, IsCutOrWhole, IsSwept, crosses_at, sweep_of};
ghost use Rattle.rsx_region.specs.declared.piece.Piece.{Piece as PieceSpec};

use rsx_pipe::{CrossingNodes, Part};
use rsx_region::{CutTrees, NotCut, Piece};
use rsx_runtime::Tap;
use rsx_types::NoMemory;
use std::alloc::Global;

/// A place among the senders of a tree.
#[derive(Clone, Copy)]
struct Cursor {
    /// Which tree it is.
    tree: usize,
    /// How many of its senders come before.
    passed: usize,
}

impl Cursor {
    ghost use Rattle.rsx_live_parts.specs.Cursors.{passed_by, sender_at};

    /// The region of the sender there, 0 where there is none.
    fn region(self, senders: &[Vec<u8>]) -> u8
        ensures { result ≡ sender_at senders.now self }
    {
        let Some(regions) = senders.get(self.tree) else {
            return 0;
        };
        regions.get(self.passed).copied().unwrap_or(0)
    }

    /// The place behind so many senders more.
    fn behind(self, count: usize) -> Cursor
        ensures { result ≡ passed_by count self }
    {
        Cursor {
            tree: self.tree,
            passed: self.passed.saturating_add(count),
        }
    }
}

/// The region of each piece, and where its senders begin.
#[derive(Drop)]
struct Placed {
    /// How many regions there are.
    count: u8,
    /// The regions.
    places: Vec<u8>,
    /// Where the senders begin.
    cursors: Vec<Cursor>,
    ghost some: { 0 < count },
    ghost there: { Each (λ p. p < count) places.items },
    ghost beside: { length cursors.items ≡ length places.items },
}

impl Placed {
    /// Those of whole trees, each of the subscription of its tap. The roots of the subscriptions are in these regions.
    fn of_taps<T: Drop>(
        alloc: Global,
        taps: &[Tap<T>],
        roots: &[u8],
        count: u8,
    ) -> Result<Placed, NoMemory>
        requires { 0 < count }
        ensures count { IfOk result (λ p. p.count ≡ count) }
        ensures beside { IfOk result (λ p. length p.places.items ≡ length taps.now) }
        ensures places { IfOk result (λ p. p.places.items ≡ map (root_in count roots.now) taps.now) }
        ensures cursors { IfOk result (λ p. p.cursors.items ≡ map first_of taps.now) }
    {
        let mut placed = Placed {
            count,
            places: Vec::new(alloc),
            cursors: Vec::new(alloc),
        };
        for place in 0..taps.len() {
            let tree = taps[place].sub().0 as usize;
            placed.push(root_region(roots, tree), Cursor { tree, passed: 0 })?;
        }
        Ok(placed)
    }

    /// Puts a piece behind the others. A region that isn't there counts as region 0.
    fn push(&mut self, region: u8, cursor: Cursor) -> Result<(), NoMemory>
        ensures count { self.new.count ≡ self.old.count }
        ensures beside { OnOk result (length self.new.places.items ≡ length self.old.places.items + 1) }
        ensures places { OnOk result (self.new.places.items ≡ self.old.places.items ++ region_in self.old.count region ∷ []) }
        ensures cursors { OnOk result (self.new.cursors.items ≡ self.old.cursors.items ++ cursor ∷ []) }
    {
        let place = region_there(region, self.count);
        self.places.reserve(1)?;
        self.cursors.reserve(1)?;
        self.places.push_reserved(place);
        self.cursors.push_reserved(cursor);
        Ok(())
    }

    /// Where the senders of the piece at this place begin.
    fn cursor(&self, at: usize) -> Cursor
        requires { at < length self.now.places.items }
        ensures { slice_get self.now.cursors.items at ≡ Some result }
    {
        self.cursors[at]
    }

    /// The regions alone.
    fn into_places(self) -> Vec<u8>
        ensures there { Each (λ p. p < self.count) result.items }
        ensures same { result ≡ self.places }
    {
        let Placed {
            count: _,
            places,
            cursors: _,
        } = self;
        places
    }
}

/// The region of the root of the tree with this number, 0 where there is none.
fn root_region(roots: &[u8], tree: usize) -> u8
    ensures { result ≡ root_at roots.now tree }
{
    roots.get(tree).copied().unwrap_or(0)
}

/// This region, or region 0 where there aren't so many.
fn region_there(region: u8, count: u8) -> u8
    requires { 0 < count }
    ensures there { result < count }
    ensures is { result ≡ region_in count region }
{
    if region < count { region } else { 0 }
}

/// Cuts trees that are not cut yet: each piece at all edges at which it can be cut ([`Piece::cut`] says which), and so is what was cut
/// off. Answers the region of each piece. What was cut off is in the region of the sender over the edge, and its link is read under its
/// own number.
///
/// There are `count` regions. Each tree is that of the subscription of its tap. Of each subscription `roots` has the region of the root,
/// and `senders` those of the senders over the edges that cross, in pre-order: the first is the root where the root's own edge crosses. A
/// sender that is missing is in region 0, and a region that isn't there counts as region 0.
///
/// # Errors
/// [`NoMemory`] where a growth was refused. The trees are cut at some edges then, and nothing else was done.
pub fn cut_all<N: CrossingNodes<Item = T> + Drop, T: Drop>(
    alloc: Global,
    trees: &mut CutTrees<N, T>,
    taps: &[Tap<T>],
    roots: &[u8],
    senders: &[Vec<u8>],
    count: u8,
) -> Result<Vec<u8>, NoMemory>
    requires some { 0 < count }
    requires taps { length taps.now ≡ length trees.old.pieces.items }
    ensures places { IfOk result (λ v. (length v.items ≡ length trees.new.pieces.items) × Each (λ p. p < count) v.items) }
    ensures cut { IfOk result (λ v. AreAllSwept N.Machine N.CrossingNodes.own count senders.now roots.now taps.now trees.old trees.new v.items) }
    ensures from { (m : Meaning T) (n : ℕ) (whole : Stage N T) → 2 ^ 32 ≤ n → AreCutFrom N.Machine N.CrossingNodes.own m (none_taken n) whole trees.old → AreCutFrom N.Machine N.CrossingNodes.own m (none_taken n) whole trees.new }
{
    let mut placed = Placed::of_taps(alloc, taps, roots, count)?;
    for above in 0..u32::MAX as usize {
        if above >= trees.pieces.len() {
            break;
        }
        cut_piece(alloc, trees, &mut placed, senders, above)?;
    }
    Ok(placed.into_places())
}

/// Cuts the piece at the place `above` at all edges at which it can be cut, each before those that come behind it in pre-order.
fn cut_piece<N: CrossingNodes<Item = T> + Drop, T: Drop>(
    alloc: Global,
    trees: &mut CutTrees<N, T>,
    placed: &mut Placed,
    senders: &[Vec<u8>],
    above: usize,
) -> Result<(), NoMemory>
    requires there { above < length trees.old.pieces.items }
    requires beside { length placed.old.places.items ≡ length trees.old.pieces.items }
    ensures beside { OnOk result (length placed.new.places.items ≡ length trees.new.pieces.items) }
    ensures count { placed.new.count ≡ placed.old.count }
    ensures cut { OnOk result (IsSwept N.Machine N.CrossingNodes.own placed.old.count senders.now above (sweep_of trees.old placed.old.places placed.old.cursors) (sweep_of trees.new placed.new.places placed.new.cursors)) }
    ensures from { AreCutStill N.Machine N.CrossingNodes.own trees.old trees.new }
{
    let mut cursor = placed.cursor(above);
    for at in 0..u32::MAX {
        let Some(crosses) = edge_crosses(&trees.pieces[above].part, at) else {
            break;
        };
        if crosses {
            let region = cursor.region(senders);
            cursor = cursor.behind(1);
            let below = cut_at(alloc, trees, placed, above, at, region, cursor)?;
            cursor = cursor.behind(below);
        }
    }
    Ok(())
}

/// Cuts the piece at the place `above` at this edge, where it can be cut there. What was cut off is in this region, and its senders begin
/// there. Answers how many of them it has; where it isn't cut there, none.
fn cut_at<N: CrossingNodes<Item = T> + Drop, T: Drop>(
    alloc: Global,
    trees: &mut CutTrees<N, T>,
    placed: &mut Placed,
    above: usize,
    at: u32,
    region: u8,
    cursor: Cursor,
) -> Result<usize, NoMemory>
    requires there { above < length trees.old.pieces.items }
    requires beside { length placed.old.places.items ≡ length trees.old.pieces.items }
    ensures there { above < length trees.new.pieces.items }
    ensures beside { OnOk result (length placed.new.places.items ≡ length trees.new.pieces.items) }
    ensures count { placed.new.count ≡ placed.old.count }
    ensures cut { IfOk result (λ below. IsCutOrWhole N.Machine N.CrossingNodes.own above at (region_in placed.old.count region) cursor below (sweep_of trees.old placed.old.places placed.old.cursors) (sweep_of trees.new placed.new.places placed.new.cursors)) }
    ensures from { AreCutStill N.Machine N.CrossingNodes.own trees.old trees.new }
{
    if !try_cut(alloc, trees, above, at)? {
        return Ok(0);
    }
    placed.push(region, cursor)?;
    Ok(count_last(&trees.pieces))
}

/// Cuts the piece at the place `above` at this edge, where it can be cut there, and answers whether it was.
fn try_cut<N: CrossingNodes<Item = T> + Drop, T: Drop>(
    alloc: Global,
    trees: &mut CutTrees<N, T>,
    above: usize,
    at: u32,
) -> Result<bool, NoMemory>
    requires { above < length trees.old.pieces.items }
    ensures more { length trees.old.pieces.items ≤ length trees.new.pieces.items }
    ensures count { IfOk result (λ cut. length trees.new.pieces.items ≡ (if cut then length trees.old.pieces.items + 1 else length trees.old.pieces.items)) }
    ensures cut { IfOk result (λ cut. cut ≡ true → IsOneCut N.Machine N.CrossingNodes.own (stage_of trees.old) above at (stage_of trees.new) × IsReadUnder (length trees.old.links.items) above trees.new.pieces.items) }
    ensures whole { IfOk result (λ cut. cut ≡ false → StaysWholeAt N.Machine N.CrossingNodes.own trees.old above at (length trees.old.links.items) × SameStage (stage_of trees.old) (stage_of trees.new)) }
    ensures from { AreCutStill N.Machine N.CrossingNodes.own trees.old trees.new }
{
    let Ok(hub) = u32::try_from(trees.links.len()) else {
        return Ok(false);
    };
    match trees.cut(alloc, above, at, hub) {
        Ok(()) => Ok(true),
        Err(NotCut::Whole) => Ok(false),
        Err(NotCut::NoMemory) => Err(NoMemory),
    }
}

/// Whether the edge of the part with this number crosses; none where it has fewer edges.
fn edge_crosses<N: CrossingNodes<Item = T> + Drop, T: Drop>(part: &Part<N>, at: u32) -> Option<bool>
    ensures { result ≡ crosses_at N.Machine part.now at }
{
    let rooted = part.rooted();
    let (_, node) = rooted.tree.node(&rooted.root, at)?;
    Some(node.is_crossing())
}

/// How many edges of the last piece cross.
fn count_last<N: CrossingNodes<Item = T> + Drop, T: Drop>(pieces: &[Piece<N, T>]) -> usize
    requires { 0 < length pieces.now }
    ensures { (others : List (PieceSpec N T)) × (last : PieceSpec N T) × (pieces.now ≡ others ++ last ∷ []) × CountsCrossing N.Machine last.part result }
{
    count_crossing(&pieces[pieces.len() - 1].part)
}

/// How many edges of the part cross.
fn count_crossing<N: CrossingNodes<Item = T> + Drop, T: Drop>(part: &Part<N>) -> usize
    ensures { CountsCrossing N.Machine part.now result }
{
    let mut count = 0;
    for at in 0..u32::MAX {
        let Some(crosses) = edge_crosses(part, at) else {
            break;
        };
        if crosses {
            count += 1;
        }
    }
    count
}
