//! The rule of the places' table.

ghost use Rattle.rsx_link.specs.Places.{Kept, founder};

use crate::place::{Place, PlaceView};
use atomic_table::TableRule;
use std::snapshot::Snapshot;

/// What holds of the counter, of the places and of all that the seats know, between any two steps. The key is the ends that were
/// made for the places.
pub struct PlaceRule;

impl<E, P> TableRule<Place<E, P>, PlaceView<E, P>, Snapshot<Vec<E>>> for PlaceRule {
    ghost holds = { λ key. Kept key.value.items };

    ghost first = { λ key. founder key.value.items };
}
