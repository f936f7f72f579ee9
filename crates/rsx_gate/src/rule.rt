//! The rule of the table.

use crate::view::View;
use atomic_table::TableRule;
use std::marker::PhantomData;

/// A value with a fact of itself and of the gate's key, which holds whenever no one has the pass: whoever gets a pass may rely on it, and owes it when the pass ends.
pub trait Kept<K> {
    /// The value fits the key.
    ghost fits: { (key : K) (value : Self) → Type 0 };
}

/// What holds of the word and of all that the seats know, between any two steps.
pub struct Serial<T> {
    marker: PhantomData<T>,
}

impl<T: Kept<K>, K> TableRule<T, View<K>, K> for Serial<T> {
    ghost use Rattle.rsx_gate.specs.Machine.{Serial, founder};

    ghost holds = { λ key. Serial (T.fits key) key };

    ghost first = { λ key. founder key };
}
