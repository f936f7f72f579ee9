//! Pieces are put into regions, and taken out of them again.

ghost use Rattle.std.specs.Prelude.{◌≡◌, ◌+◌, ◌<◌, ◌≤◌, ◌∷◌, ◌++◌, ℕ, List, [], Some, length, slice_get, slice_set, IfErr, IfNone, IfSome, OnErr, OnOk};
ghost use Rattle.std.specs.Vec.{vec_capacity};
ghost use Rattle.rsx_region.specs.Pieces.{Each};
ghost use Rattle.rsx_region.specs.Spread.{AreIn, IsPut, numbers_in, rows_of};
ghost use Rattle.rsx_region.specs.declared.piece.Piece.{Piece as PieceSpec};

use crate::piece::Piece;
use crate::region::Region;
use crate::touched::know_ends;
use rsx_pipe::Nodes;
use rsx_types::NoMemory;
use std::alloc::Global;

/// Puts each piece into the region at its place, the last piece first. So a piece of [`CutTrees`](crate::CutTrees) stands behind those in
/// its region that were cut off it. The list of the pieces keeps its room. There are so many links in all; each region looks which regions
/// are at the other ends of its own.
///
/// # Errors
/// [`NoMemory`] where a growth was refused. All pieces are where they were.
pub fn spread<N: Nodes<Item = T> + Drop, T: Drop>(
    alloc: Global,
    pieces: &mut Vec<Piece<N, T>>,
    places: &[u8],
    regions: &mut [Region<N, T>],
    links: usize,
) -> Result<(), NoMemory>
    requires count { length places.now ≡ length pieces.old.items }
    requires there { Each (λ p. p < length regions.old) places.now }
    ensures ok { OnOk result (AreIn (rows_of regions.old) places.now pieces.old.items (rows_of regions.new) × (pieces.new.items ≡ [])) }
    ensures err { OnErr result ((rows_of regions.new ≡ rows_of regions.old) × (pieces.new.items ≡ pieces.old.items)) }
    ensures numbers { numbers_in regions.new ≡ numbers_in regions.old }
    ensures room { vec_capacity pieces.new ≡ vec_capacity pieces.old }
{
    put_each(pieces, places, regions)?;
    if let Err(why) = know_ends(alloc, regions, links) {
        gather(pieces, places, regions);
        return Err(why);
    }
    Ok(())
}

/// The same, without a look at the links. It calls itself once for each piece.
///
/// # Errors
/// [`NoMemory`] where a growth was refused. All pieces are where they were.
fn put_each<N: Drop, T: Drop>(
    pieces: &mut Vec<Piece<N, T>>,
    places: &[u8],
    regions: &mut [Region<N, T>],
) -> Result<(), NoMemory>
    requires count { length places.now ≡ length pieces.old.items }
    requires there { Each (λ p. p < length regions.old) places.now }
    ensures ok { OnOk result (AreIn (rows_of regions.old) places.now pieces.old.items (rows_of regions.new) × (pieces.new.items ≡ [])) }
    ensures err { OnErr result ((rows_of regions.new ≡ rows_of regions.old) × (pieces.new.items ≡ pieces.old.items)) }
    ensures numbers { numbers_in regions.new ≡ numbers_in regions.old }
    ensures room { vec_capacity pieces.new ≡ vec_capacity pieces.old }
{
    let Some((place, others)) = places.split_last() else {
        return Ok(());
    };
    let Some(piece) = pieces.pop() else {
        return Ok(());
    };
    if let Err(piece) = put_at(regions, *place, piece) {
        pieces.push_reserved(piece);
        return Err(NoMemory);
    }
    if let Err(why) = put_each(pieces, others, regions) {
        if let Some(piece) = take_from(regions, *place) {
            pieces.push_reserved(piece);
        }
        return Err(why);
    }
    Ok(())
}

/// Takes the pieces out of the regions, each out of that at its place, in their order, and puts them behind others, for which there is
/// room. It undoes [`spread`]. It calls itself once for each piece.
pub fn gather<N: Drop, T: Drop>(
    pieces: &mut Vec<Piece<N, T>>,
    places: &[u8],
    regions: &mut [Region<N, T>],
)
    requires spread { (base : List (List (PieceSpec N T))) × (xs : List (PieceSpec N T)) × AreIn base places.now xs (rows_of regions.old) }
    requires room { length pieces.old.items + length places.now ≤ vec_capacity pieces.old }
    ensures gathered { (base : List (List (PieceSpec N T))) (xs : List (PieceSpec N T)) → AreIn base places.now xs (rows_of regions.old) → (pieces.new.items ≡ pieces.old.items ++ xs) × (rows_of regions.new ≡ base) }
    ensures numbers { numbers_in regions.new ≡ numbers_in regions.old }
    ensures room { vec_capacity pieces.new ≡ vec_capacity pieces.old }
{
    let Some((place, others)) = places.split_first() else {
        return;
    };
    let Some(piece) = take_from(regions, *place) else {
        return;
    };
    pieces.push_reserved(piece);
    gather(pieces, others, regions);
}

/// Puts the piece behind those of the region at this place. It comes back where a growth was refused.
fn put_at<N, T>(
    regions: &mut [Region<N, T>],
    place: u8,
    piece: Piece<N, T>,
) -> Result<(), Piece<N, T>>
    requires { place < length regions.old }
    ensures ok { OnOk result (IsPut (rows_of regions.old) place piece (rows_of regions.new)) }
    ensures err { IfErr result (λ p. (p ≡ piece) × (rows_of regions.new ≡ rows_of regions.old)) }
    ensures numbers { numbers_in regions.new ≡ numbers_in regions.old }
{
    put_into(&mut regions[usize::from(place)], piece)
}

/// Puts the piece behind those of the region. It comes back where a growth was refused.
fn put_into<N, T>(region: &mut Region<N, T>, piece: Piece<N, T>) -> Result<(), Piece<N, T>>
    ensures ok { OnOk result (region.new.pieces.items ≡ region.old.pieces.items ++ piece ∷ []) }
    ensures err { IfErr result (λ p. (p ≡ piece) × (region.new.pieces.items ≡ region.old.pieces.items)) }
    ensures number { region.new.number ≡ region.old.number }
{
    if region.pieces.reserve(1).is_err() {
        return Err(piece);
    }
    region.pieces.push_reserved(piece);
    Ok(())
}

/// Takes the last piece out of the region at this place, if there is one.
fn take_from<N, T>(regions: &mut [Region<N, T>], place: u8) -> Option<Piece<N, T>>
    requires { place < length regions.old }
    ensures some { IfSome result (λ p. (row : List (PieceSpec N T)) × (slice_get (rows_of regions.old) place ≡ Some (row ++ p ∷ [])) × (rows_of regions.new ≡ slice_set (rows_of regions.old) place row)) }
    ensures none { IfNone result (slice_get (rows_of regions.old) place ≡ Some []) }
    ensures numbers { numbers_in regions.new ≡ numbers_in regions.old }
{
    regions[usize::from(place)].pieces.pop()
}
