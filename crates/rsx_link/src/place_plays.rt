//! What each step on the places tells its seat. These types are for the proofs alone.

ghost use Rattle.std.specs.Prelude.{◌-◌};
ghost use Rattle.rsx_link.specs.PlacePlays.{drew, offered, collected};
ghost use Rattle.rsx_link.specs.Places.{joined, newcomer, spent, with_parts};

use crate::place::{Place, PlaceView};
use atomic_table::{Join, Play, Split};

pub(crate) struct Drawing;

impl<E, P> Play<Place<E, P>, PlaceView<E, P>> for Drawing {
    ghost then = { drew };
}

pub(crate) struct Offering;

impl<E, P> Play<Place<E, P>, PlaceView<E, P>> for Offering {
    ghost then = { offered };
}

pub(crate) struct Collecting;

impl<E, P> Play<Place<E, P>, PlaceView<E, P>> for Collecting {
    ghost then = { collected };
}

// The first offering seat, which gets all parts.
pub(crate) struct GiveParts;

impl<E, P> Split<PlaceView<E, P>> for GiveParts {
    ghost left = { λ v. with_parts v 0 };

    ghost right = { λ v. newcomer v.ends v.parts };
}

// A further offering seat, which gets one part.
pub(crate) struct CutPart;

impl<E, P> Split<PlaceView<E, P>> for CutPart {
    ghost left = { λ v. with_parts v (v.parts - 1) };

    ghost right = { λ v. newcomer v.ends 1 };
}

pub(crate) struct GluePlaces;

impl<E, P> Join<PlaceView<E, P>> for GluePlaces {
    ghost both = { joined };

    ghost spent = { spent };
}
