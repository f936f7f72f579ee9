//! Which subscriptions a walk over the readers of a hub skips.

ghost use Rattle.std.specs.Prelude.{ℕ, ◌<◌, ◌≤◌};

use crate::{MOST_IN_SET, SubscriptionSet};

/// Subscriptions of which it is known that no node reads a hub, so that what is done for its readers skips them: those whose numbers are
/// in a set, and, so that a walk begins at the first of the others and ends behind the last, all before that and behind this.
#[derive(Clone, Copy, Debug)]
pub struct Skipped {
    /// The set.
    set: SubscriptionSet,
    /// The number of the first that isn't skipped.
    first: usize,
    /// The number behind the last that isn't; with `usize::MAX` there may be others behind all.
    end: usize,
}

impl Skipped {
    ghost use Rattle.rsx_graph_state.specs.SubscriptionSet.{IsIn, IsSkipped};

    /// None is skipped.
    pub fn none() -> Skipped
        ensures { (i : ℕ) → IsSkipped result i → ⊥ }
    {
        Skipped {
            set: SubscriptionSet::new(),
            first: 0,
            end: usize::MAX,
        }
    }

    /// Of so many subscriptions those are skipped whose numbers are in a set.
    pub fn those_in(set: SubscriptionSet, count: usize) -> Skipped
        ensures all { (i : ℕ) → IsIn set i → IsSkipped result i }
        ensures only { (i : ℕ) → i < count → IsSkipped result i → IsIn set i }
    {
        let first = set.next_outside(0);
        if count > MOST_IN_SET as usize {
            return Skipped {
                set,
                first: first as usize,
                end: count,
            };
        }
        let mut end = first;
        let mut at = first;
        'others: while at < count as u32 {
            end = at + 1;
            at = set.next_outside(end);
        }
        Skipped {
            set,
            first: first as usize,
            end: end as usize,
        }
    }

    /// The next that a walk looks at, from `from` on: all before it are skipped.
    pub(crate) fn next(&self, from: usize) -> usize
        ensures above { from ≤ result }
        ensures passed { (i : ℕ) → from ≤ i → i < result → IsSkipped self.now i }
    {
        if from < self.first {
            return self.first;
        }
        if from >= self.end {
            return usize::MAX;
        }
        if from >= MOST_IN_SET as usize {
            return from;
        }
        self.set.next_outside(from as u32) as usize
    }
}
