//! Sets of numbers of subscriptions.

ghost use Rattle.std.specs.Prelude.{◌≡◌, ℕ, ◌<◌, ◌≤◌, ◌⊎◌, ◌↔◌, IsTrue};

use rsx_types::SubId;

/// Numbers from this one on are in no [`SubscriptionSet`].
pub const MOST_IN_SET: u32 = 256;

/// A set of numbers of subscriptions, each below [`MOST_IN_SET`]. It takes no memory, and nothing is refused.
#[derive(Clone, Copy, Debug)]
pub struct SubscriptionSet {
    /// A bit for each number, 64 of them in each word.
    words: [u64; 4],
}

impl SubscriptionSet {
    ghost use Rattle.rsx_graph_state.specs.SubscriptionSet.{IsEmpty, IsIn};

    /// The set with nothing in it.
    pub fn new() -> SubscriptionSet
        ensures { IsEmpty result }
    {
        SubscriptionSet { words: [0; 4] }
    }

    /// Whether a subscription's number is in the set.
    pub fn contains(&self, sub: SubId) -> bool
        ensures { IsTrue result ↔ IsIn self.now sub.0 }
    {
        if sub.0 >= MOST_IN_SET {
            return false;
        }
        let word = self.words[(sub.0 / 64) as usize];
        (word >> (sub.0 % 64)) & 1 == 1
    }

    /// Puts a subscription's number into the set, if it is below [`MOST_IN_SET`].
    pub fn insert(&mut self, sub: SubId)
        ensures { (i : ℕ) → IsIn self.new i ↔ (IsIn self.old i ⊎ ((i ≡ sub.0) × (i < MOST_IN_SET))) }
    {
        if sub.0 < MOST_IN_SET {
            self.words[(sub.0 / 64) as usize] |= 1 << (sub.0 % 64);
        }
    }

    /// Takes a subscription's number out of the set.
    pub fn remove(&mut self, sub: SubId)
        ensures { (i : ℕ) → IsIn self.new i ↔ (IsIn self.old i × (i ≡ sub.0 → ⊥)) }
    {
        if sub.0 < MOST_IN_SET {
            self.words[(sub.0 / 64) as usize] &= !(1 << (sub.0 % 64));
        }
    }

    /// Takes all numbers out of the set.
    pub fn clear(&mut self)
        ensures { IsEmpty self.new }
    {
        self.words = [0; 4];
    }

    /// The numbers that are in both sets.
    pub fn common(&self, other: &SubscriptionSet) -> SubscriptionSet
        ensures { (i : ℕ) → IsIn result i ↔ (IsIn self.now i × IsIn other.now i) }
    {
        let these = &self.words;
        let those = &other.words;
        SubscriptionSet {
            words: [
                these[0] & those[0],
                these[1] & those[1],
                these[2] & those[2],
                these[3] & those[3],
            ],
        }
    }

    /// The numbers that are in this set and not in the other.
    pub fn without(&self, other: &SubscriptionSet) -> SubscriptionSet
        ensures { (i : ℕ) → IsIn result i ↔ (IsIn self.now i × (IsIn other.now i → ⊥)) }
    {
        let these = &self.words;
        let those = &other.words;
        SubscriptionSet {
            words: [
                these[0] ^ (these[0] & those[0]),
                these[1] ^ (these[1] & those[1]),
                these[2] ^ (these[2] & those[2]),
                these[3] ^ (these[3] & those[3]),
            ],
        }
    }

    /// The numbers below [`MOST_IN_SET`] that aren't in the set.
    pub fn others(&self) -> SubscriptionSet
        ensures { (i : ℕ) → IsIn result i ↔ ((i < MOST_IN_SET) × (IsIn self.now i → ⊥)) }
    {
        let these = &self.words;
        SubscriptionSet {
            words: [
                these[0] ^ u64::MAX,
                these[1] ^ u64::MAX,
                these[2] ^ u64::MAX,
                these[3] ^ u64::MAX,
            ],
        }
    }

    /// The first number from `from` on that isn't in the set.
    pub fn next_outside(&self, from: u32) -> u32
        ensures above { from ≤ result }
        ensures outside { IsIn self.now result → ⊥ }
        ensures first { (i : ℕ) → from ≤ i → i < result → IsIn self.now i }
    {
        let mut at = from;
        'words: while at < MOST_IN_SET {
            let word = self.words[(at / 64) as usize];
            let rest = !word >> (at % 64);
            if rest != 0 {
                return at + rest.trailing_zeros();
            }
            at = (at / 64 + 1) * 64;
        }
        at
    }
}
