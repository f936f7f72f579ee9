//! The rule of a link's table.

ghost use Rattle.rsx_link.specs.Link.{Linked, newborn};

use crate::view::View;
use atomic_table::TableRule;
use rsx_types::Signal;
use rtrb::Producer;

/// What holds of the two words and of all that the seats know, between any two steps.
pub struct Rule;

impl<T> TableRule<(), View, Producer<Signal<T>>> for Rule {
    ghost holds = { λ _. Linked };

    ghost first = { λ _. newborn };
}
