//! What the nodes of a tree recorded.

ghost use Rattle.std.specs.Prelude.{◌≡◌};

use std::marker::Model;

/// What one node recorded. The notes of a tree are a list, in pre-order of its nodes.
#[derive(Debug, Drop)]
pub enum Note {
    /// The node records nothing.
    Nothing,
    /// The choices of a node that picks among its inputs, in their order.
    Picks(Choices),
    /// The input whose ending a `zip` took, if it took one.
    Ended(Option<u32>),
}

/// The choices of one node, in their order. Contracts see a list of numbers.
#[derive(Debug, Drop)]
pub struct Choices {
    numbers: Vec<u64>,
}

impl Model for Choices {
    ghost use Rattle.std.specs.Prelude.{List, ℕ};

    ghost Value = { List ℕ };

    ghost view = { λ c. c.numbers.items };
}

impl Choices {
    /// These choices. It takes no memory.
    pub fn new(numbers: Vec<u64>) -> Choices
        ensures { result ≡ numbers.items }
    {
        Choices { numbers }
    }

    /// The choices, in their order.
    pub fn as_slice(&self) -> &[u64]
        ensures { result.now ≡ self.now }
    {
        self.numbers.as_slice()
    }

    /// The list of the choices. It takes no memory.
    pub fn into_vec(self) -> Vec<u64>
        ensures { result.items ≡ self }
    {
        self.numbers
    }
}
