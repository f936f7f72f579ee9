//! A look for the nodes of a part that read a link.

ghost use Rattle.std.specs.Prelude.{◌≡◌, ◌≢◌, ◌⊎◌, ◌+◌, ◌&&◌, ℕ, Bool, true, false};
ghost use Rattle.rsx_pipe.specs.Published.{has_room_for, readers};
ghost use Rattle.rsx_tree.specs.Handed.{has_room_in, reader_at as reads_at, readers_in as read_in, room_at};
ghost use Rattle.rsx_region.specs.Readers.{AreReaders};

use rsx_pipe::{Nodes, Part};
use rsx_sources::Machine;
use rsx_tree::Inputs;

/// The nodes that read a link, of those that signals still reach.
#[derive(Clone, Copy, Debug, PartialEq, Eq)]
enum Readers {
    /// None does.
    Nobody,
    /// One does, and has room for an item.
    Free,
    /// One does, and has no room for an item.
    Full,
    /// More than one does.
    Several,
}

/// Whether just one node of the part reads the link with this number, of those that signals still reach, and has room for an item.
///
/// [`Part::readers_up_to`] and [`Part::has_room_for`] tell as much. This goes over the tree once.
pub(crate) fn waits_for<N: Nodes>(part: &Part<N>, link: u64) -> bool
    ensures yes { result ≡ true → (readers N.Machine link part.now ≡ 1) × (has_room_for N.Machine link part.now ≡ true) }
    ensures no { result ≡ false → (readers N.Machine link part.now ≢ 1) ⊎ (has_room_for N.Machine link part.now ≡ false) }
{
    matches!(readers_of(part, link), Readers::Free)
}

/// The nodes of the part that read the link.
fn readers_of<N: Nodes>(part: &Part<N>, link: u64) -> Readers
    ensures { AreReaders result (readers N.Machine link part.now) (has_room_for N.Machine link part.now) }
{
    let rooted = part.rooted();
    if !rooted.root.is_live() {
        return Readers::Nobody;
    }
    let here = reader_at(&rooted.tree.machine, link);
    both(here, readers_in(&rooted.tree.inputs, link))
}

/// Those of a row, and below it.
fn readers_in<M: Machine>(row: &Inputs<M>, link: u64) -> Readers
    ensures { AreReaders result (read_in M.Machine link row.now) (has_room_in M.Machine link row.now) }
{
    match row {
        Inputs::End => Readers::Nobody,
        Inputs::More(edge, machine, below, beside) => {
            if !edge.is_live() {
                return readers_in(beside, link);
            }
            let here = reader_at(machine, link);
            let under = both(here, readers_in(below, link));
            both(under, readers_in(beside, link))
        }
    }
}

/// One node.
#[inline]
fn reader_at<M: Machine>(machine: &M, link: u64) -> Readers
    ensures { AreReaders result (reads_at M.Machine link machine.now) (room_at M.Machine link machine.now) }
{
    match machine.hub() {
        Some(number) if number == link => match machine.has_room() {
            true => Readers::Free,
            false => Readers::Full,
        },
        _ => Readers::Nobody,
    }
}

/// Those here and there.
#[inline]
fn both(here: Readers, there: Readers) -> Readers
    ensures { (j k : ℕ) (r s : Bool) → AreReaders here j r → AreReaders there k s → AreReaders result (j + k) (r && s) }
{
    match here {
        Readers::Nobody => there,
        Readers::Free | Readers::Full | Readers::Several => match there {
            Readers::Nobody => here,
            Readers::Free | Readers::Full | Readers::Several => Readers::Several,
        },
    }
}
