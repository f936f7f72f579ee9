//! What each step tells its seat. These types are for the proofs alone.

ghost use Rattle.rsx_gate.specs.Plays.{entered, marked, left, gave_up, fewer, joined};
ghost use Rattle.rsx_gate.specs.Machine.{spent, newcomer};

use crate::rule::Kept;
use crate::view::View;
use atomic_table::{Join, Play, Split};

pub(crate) struct Entering;

impl<T: Kept<K>, K> Play<T, View<K>> for Entering {
    ghost then = { entered T.fits };
}

pub(crate) struct Marking;

impl<T, K> Play<T, View<K>> for Marking {
    ghost then = { marked };
}

pub(crate) struct Leaving;

impl<T, K> Play<T, View<K>> for Leaving {
    ghost then = { left };
}

pub(crate) struct GivingUp;

impl<T, K> Play<T, View<K>> for GivingUp {
    ghost then = { gave_up };
}

pub(crate) struct Cut;

impl<K> Split<View<K>> for Cut {
    ghost left = { fewer };

    ghost right = { λ v. newcomer v.key };
}

pub(crate) struct Glue;

impl<K> Join<View<K>> for Glue {
    ghost both = { joined };

    ghost spent = { spent };
}
