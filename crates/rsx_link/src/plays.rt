//! What each step tells its seat. These types are for the proofs alone.

ghost use Rattle.std.specs.Prelude.{[]};
ghost use Rattle.rsx_link.specs.Link.{fresh, informed, joined, with_parts};
ghost use Rattle.rsx_link.specs.Steps.{asked_of};
ghost use Rattle.rsx_link.specs.Parts.{halved};
ghost use Rattle.rsx_link.specs.Plays.{asked, saw_asked, saw_flags, cancelled, refused};
ghost use Rattle.rsx_link.specs.declared.view.Role.TheVariants.{Upstream, Canceller, Joined};

use crate::view::View;
use atomic_table::{Join, Play, Split};

pub(crate) struct Asking;

impl Play<(), View> for Asking {
    ghost then = { asked };
}

pub(crate) struct SeeingAsked;

impl Play<(), View> for SeeingAsked {
    ghost then = { saw_asked };
}

pub(crate) struct SeeingFlags;

impl Play<(), View> for SeeingFlags {
    ghost then = { saw_flags };
}

pub(crate) struct Cancelling;

impl Play<(), View> for Cancelling {
    ghost then = { cancelled };
}

pub(crate) struct Refusing;

impl Play<(), View> for Refusing {
    ghost then = { refused };
}

// A new seat for the sending end.
pub(crate) struct CutUpstream;

impl Split<View> for CutUpstream {
    ghost left = { λ v. v };

    ghost right = { λ _. fresh Upstream [] };
}

// The same, where the new seat is told the total that was stored.
pub(crate) struct CutInformed;

impl Split<View> for CutInformed {
    ghost left = { λ v. v };

    ghost right = { λ v. informed (asked_of v.steps) };
}

// A new seat that gets the whole right to cancel.
pub(crate) struct GiveCanceller;

impl Split<View> for GiveCanceller {
    ghost left = { λ v. with_parts v [] };

    ghost right = { λ v. fresh Canceller v.parts };
}

// A new seat that gets half of a canceller's right.
pub(crate) struct CutCanceller;

impl Split<View> for CutCanceller {
    ghost left = { λ v. with_parts v (halved v.parts) };

    ghost right = { λ v. fresh Canceller (halved v.parts) };
}

pub(crate) struct Glue;

impl Join<View> for Glue {
    ghost both = { joined };

    ghost spent = { fresh Joined [] };
}
