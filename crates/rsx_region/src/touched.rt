//! Which links a region touched.
//!
//! A region knows of each end of its links which region is at the other end, and how far this end had got when it was asked last. So one
//! comparison of each end, once a call, tells which links a call touched, however many items went over them.

ghost use Rattle.std.specs.Prelude.{◌≡◌};
ghost use Rattle.rsx_region.specs.Spread.{numbers_in, rows_of};

use crate::inlet::Inlet;
use crate::piece::Piece;
use crate::region::Region;
use rsx_pipe::{EdgeState, Nodes};
use rsx_types::NoMemory;
use std::alloc::Global;

/// How far an end of a link has got.
#[derive(Clone, Copy, PartialEq, Eq)]
struct EndCount {
    /// How many items went over it.
    items: u64,
    /// Whether an ending did.
    ended: bool,
    /// How many items it asked for. A sending end asks for none.
    asked: u64,
    /// Whether it cancelled the link.
    cancelled: bool,
}

/// How far the sending end of a piece has got.
fn sent_by<N: Nodes<Item = T>, T: Drop>(piece: &Piece<N, T>) -> EndCount {
    let root = piece.part.root_edge();
    EndCount {
        items: root.demand.sent(),
        ended: matches!(root.state, EdgeState::Ended),
        asked: 0,
        cancelled: false,
    }
}

/// How far the receiving end of a link that comes in has got.
fn taken_by<T: Drop>(inlet: &Inlet<T>) -> EndCount {
    EndCount {
        items: inlet.down.taken(),
        ended: inlet.ended.is_some(),
        asked: inlet.down.asked(),
        cancelled: inlet.is_cancelled(),
    }
}

/// What is known of an end of a link.
#[derive(Clone, Copy)]
struct KnownEnd {
    /// The bit of the region at the other end, 0 where no region is there.
    far: u16,
    /// How far this end had got when it was asked last.
    count: EndCount,
}

impl KnownEnd {
    /// The bit of the region at the other end, where this end has got further since it was asked last, and 0 where it hasn't.
    fn touched(&mut self, count: EndCount) -> u16 {
        if self.count == count {
            return 0;
        }
        self.count = count;
        self.far
    }
}

/// What is known of the ends of a piece.
#[derive(Drop)]
pub(crate) struct PieceEnds {
    /// That of the link that goes out.
    up: KnownEnd,
    /// Those of the links that come in, in their order.
    inlets: Vec<KnownEnd>,
}

impl PieceEnds {
    /// Those of a piece, between regions with these bits.
    fn of<N: Nodes<Item = T>, T: Drop>(
        alloc: Global,
        piece: &Piece<N, T>,
        bits: &[LinkBits],
    ) -> Result<PieceEnds, NoMemory> {
        let up = KnownEnd {
            far: bits_at(bits, piece.link).reader,
            count: sent_by(piece),
        };
        let mut inlets = Vec::new(alloc);
        for incoming in &piece.inlets {
            inlets.push(KnownEnd {
                far: bits_at(bits, incoming.link).sender,
                count: taken_by(&incoming.inlet),
            })?;
        }
        Ok(PieceEnds { up, inlets })
    }

    /// The bits of the regions at the other ends of the links that the piece touched since it was asked last.
    fn touched<N: Nodes<Item = T>, T: Drop>(&mut self, piece: &Piece<N, T>) -> u16 {
        let mut bits = self.up.touched(sent_by(piece));
        for (at, incoming) in piece.inlets.iter().enumerate() {
            if at < self.inlets.len() {
                bits |= self.inlets[at].touched(taken_by(&incoming.inlet));
            }
        }
        bits
    }
}

/// The bits of the regions at the two ends of a link, each 0 where no region is there.
#[derive(Clone, Copy)]
struct LinkBits {
    sender: u16,
    reader: u16,
}

/// Those of the link with this number.
fn bits_at(bits: &[LinkBits], link: u32) -> LinkBits {
    match bits.get(link as usize) {
        Some(known) => *known,
        None => LinkBits {
            sender: 0,
            reader: 0,
        },
    }
}

/// The bit of the region with this number: 2^w for region w. There is none for one behind the first 16.
fn bit_of(region: u8) -> u16 {
    1u16.checked_shl(u32::from(region)).unwrap_or(0)
}

/// Those of so many links between these regions.
fn bits_between<N, T>(
    alloc: Global,
    regions: &[Region<N, T>],
    links: usize,
) -> Result<Vec<LinkBits>, NoMemory> {
    let mut bits = Vec::new(alloc);
    for _ in 0..links {
        bits.push(LinkBits {
            sender: 0,
            reader: 0,
        })?;
    }
    note_regions(&mut bits, regions);
    Ok(bits)
}

/// Notes the bits of these regions at the ends of their links.
fn note_regions<N, T>(bits: &mut Vec<LinkBits>, regions: &[Region<N, T>]) {
    for region in regions {
        note_pieces(bits, &region.pieces, bit_of(region.number));
    }
}

/// Notes this bit at the ends of these pieces.
fn note_pieces<N, T>(bits: &mut Vec<LinkBits>, pieces: &[Piece<N, T>], bit: u16) {
    for piece in pieces {
        let link = piece.link as usize;
        if link < bits.len() {
            bits[link].sender = bit;
        }
        note_inlets(bits, piece, bit);
    }
}

/// Notes this bit at the ends of the links that come into a piece.
fn note_inlets<N, T>(bits: &mut Vec<LinkBits>, piece: &Piece<N, T>, bit: u16) {
    for incoming in &piece.inlets {
        let link = incoming.link as usize;
        if link < bits.len() {
            bits[link].reader = bit;
        }
    }
}

/// What is known of the ends of these pieces, in their order.
fn ends_of<N: Nodes<Item = T>, T: Drop>(
    alloc: Global,
    pieces: &[Piece<N, T>],
    bits: &[LinkBits],
) -> Result<Vec<PieceEnds>, NoMemory> {
    let mut ends = Vec::new(alloc);
    for piece in pieces {
        ends.push(PieceEnds::of(alloc, piece, bits)?)?;
    }
    Ok(ends)
}

/// The bits of the regions at the other ends of the links that these pieces touched since they were asked last.
fn touched_by<N: Nodes<Item = T>, T: Drop>(
    ends: &mut Vec<PieceEnds>,
    pieces: &[Piece<N, T>],
) -> u16 {
    let mut bits = 0;
    for (at, piece) in pieces.iter().enumerate() {
        if at < ends.len() {
            bits |= ends[at].touched(piece);
        }
    }
    bits
}

impl<N: Nodes<Item = T>, T: Drop> Region<N, T> {
    /// Looks which regions are at the other ends of its links.
    fn know(&mut self, alloc: Global, bits: &[LinkBits]) -> Result<(), NoMemory>
        ensures { (self.new.pieces ≡ self.old.pieces) × (self.new.number ≡ self.old.number) }
    {
        self.ends = ends_of(alloc, &self.pieces, bits)?;
        Ok(())
    }

    /// The bits of the regions at the other ends of the links that its pieces touched since it was asked last.
    pub(crate) fn touched(&mut self) -> u16
        ensures { (self.new.pieces ≡ self.old.pieces) × (self.new.number ≡ self.old.number) }
    {
        touched_by(&mut self.ends, &self.pieces)
    }
}

/// Has each region know which regions are at the other ends of its links, of which there are so many in all.
///
/// # Errors
/// [`NoMemory`] where a growth was refused. All pieces are where they were.
pub(crate) fn know_ends<N: Nodes<Item = T>, T: Drop>(
    alloc: Global,
    regions: &mut [Region<N, T>],
    links: usize,
) -> Result<(), NoMemory>
    ensures rows { rows_of regions.new ≡ rows_of regions.old }
    ensures numbers { numbers_in regions.new ≡ numbers_in regions.old }
{
    let bits = bits_between(alloc, regions, links)?;
    for at in 0..regions.len() {
        regions[at].know(alloc, &bits)?;
    }
    Ok(())
}
