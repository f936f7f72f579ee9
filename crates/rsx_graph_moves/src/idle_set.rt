//! Which subscriptions are known to be idle, and which of them are known not to read a hub.

ghost use Rattle.std.specs.Prelude.{◌≡◌, ℕ, ◌<◌, ◌≤◌, ◌⊎◌, ◌↔◌, IsTrue};

use rsx_graph_state::{MOST_HUBS, MOST_IN_SET, SubscriptionSet};
use rsx_types::{HubId, Move, SubId, Tree};

/// The subscriptions that are known to be idle, each with a number below
/// [`MOST_IN_SET`](rsx_graph_state::MOST_IN_SET), and what is known of them: which of them don't read a hub, as was found when they
/// were looked at. It takes no memory, and nothing is refused.
#[derive(Debug, Drop)]
pub struct IdleSet {
    /// The idle ones.
    pub(crate) idle: SubscriptionSet,
    /// Those that have moved since they were looked at, so that nothing is known of them.
    moved: SubscriptionSet,
    /// For each hub those of which it was found that no node reads it.
    apart: [SubscriptionSet; MOST_HUBS],
    /// Of how many hubs, from the first on, something was found.
    known: u32,
}

impl IdleSet {
    ghost use Rattle.rsx_graph_moves.specs.IdleSet.{IsApart, IsEmpty, IsIn, IsLess, IsStirred};
    ghost use Rattle.rsx_graph_state.specs.SubscriptionSet.{IsIn as IsInSet};

    /// The set with nothing in it.
    pub fn new() -> IdleSet
        ensures { IsEmpty result }
    {
        IdleSet {
            idle: SubscriptionSet::new(),
            moved: SubscriptionSet::new(),
            apart: [SubscriptionSet::new(); MOST_HUBS],
            known: 0,
        }
    }

    /// Whether a subscription's number is in the set.
    pub fn contains(&self, sub: SubId) -> bool
        ensures { IsTrue result ↔ IsIn self.now sub.0 }
    {
        self.idle.contains(sub)
    }

    /// Puts the number of a subscription that has moved into the set, if it is below [`MOST_IN_SET`](rsx_graph_state::MOST_IN_SET). What
    /// was known of it is forgotten.
    pub fn insert(&mut self, sub: SubId)
        ensures idle { (i : ℕ) → IsIn self.new i ↔ (IsIn self.old i ⊎ ((i ≡ sub.0) × (i < MOST_IN_SET))) }
        ensures apart { (h i : ℕ) → IsApart self.new h i → IsApart self.old h i × (i ≡ sub.0 → ⊥) }
    {
        self.idle.insert(sub);
        self.moved.insert(sub);
    }

    /// Takes a subscription's number out of the set.
    pub fn remove(&mut self, sub: SubId)
        ensures { IsLess (λ i. i ≡ sub.0) self.old self.new }
    {
        self.idle.remove(sub);
    }

    /// Takes all numbers out of the set.
    pub fn clear(&mut self)
        ensures empty { IsEmpty self.new }
        ensures apart { (h i : ℕ) → IsApart self.new h i → IsApart self.old h i }
    {
        self.idle.clear();
    }

    /// Takes the numbers of those subscriptions out of the set that a move may wake: the one in whose tree it is, or all of them
    /// where it is a move of a hub or of a hub's feed.
    pub fn wake(&mut self, step: Move)
        ensures { IsLess (IsStirred step) self.old self.new }
    {
        match step {
            Move::Ask(Tree::Sub(sub), _)
            | Move::Send(Tree::Sub(sub), _)
            | Move::Take(Tree::Sub(sub), _)
            | Move::Pick(Tree::Sub(sub), _, _)
            | Move::Row(Tree::Sub(sub), _) => self.remove(sub),
            Move::Ask(Tree::Feed(_), _)
            | Move::Send(Tree::Feed(_), _)
            | Move::Take(Tree::Feed(_), _)
            | Move::Pick(Tree::Feed(_), _, _)
            | Move::Row(Tree::Feed(_), _)
            | Move::Accept(_) => self.clear(),
        }
    }

    /// The first number from `from` on that isn't in the set.
    pub fn next_outside(&self, from: u32) -> u32
        ensures above { from ≤ result }
        ensures outside { IsIn self.now result → ⊥ }
        ensures first { (i : ℕ) → from ≤ i → i < result → IsIn self.now i }
    {
        self.idle.next_outside(from)
    }

    /// The idle ones that are known not to read the hub.
    pub(crate) fn apart_from(&self, hub: HubId) -> SubscriptionSet
        ensures { (i : ℕ) → IsInSet result i → IsIn self.now i × IsApart self.now hub.0 i }
    {
        let at = hub.0 as usize;
        if at >= MOST_HUBS {
            return SubscriptionSet::new();
        }
        if hub.0 >= self.known {
            return SubscriptionSet::new();
        }
        let found = &self.apart[at];
        self.idle.common(found).without(&self.moved)
    }

    /// Notes that an idle subscription doesn't read the hub.
    pub(crate) fn set_apart(&mut self, hub: HubId, sub: SubId)
        ensures idle { (i : ℕ) → IsIn self.new i ↔ IsIn self.old i }
        ensures apart { (h i : ℕ) → IsApart self.new h i → IsApart self.old h i ⊎ ((h ≡ hub.0) × (i ≡ sub.0)) }
    {
        let at = hub.0 as usize;
        if at < MOST_HUBS {
            let found = &mut self.apart[at];
            found.insert(sub);
        }
    }

    /// Leaves those alone in the set that are in another one.
    pub(crate) fn keep(&mut self, those: &SubscriptionSet)
        ensures idle { (i : ℕ) → IsIn self.new i ↔ (IsIn self.old i × IsInSet those.now i) }
        ensures apart { (h i : ℕ) → IsApart self.new h i → IsApart self.old h i }
    {
        self.idle = self.idle.common(those);
    }

    /// Forgets what was found of those that have moved since, so that what is found of them now is kept; and has a place for what is found
    /// of the hub.
    pub(crate) fn forget(&mut self, hub: HubId)
        ensures idle { (i : ℕ) → IsIn self.new i ↔ IsIn self.old i }
        ensures apart { (h i : ℕ) → IsApart self.new h i → IsApart self.old h i }
    {
        self.forget_moved();
        self.begin(hub);
    }

    /// Forgets what was found of those that have moved since.
    fn forget_moved(&mut self)
        ensures idle { (i : ℕ) → IsIn self.new i ↔ IsIn self.old i }
        ensures apart { (h i : ℕ) → IsApart self.new h i → IsApart self.old h i }
    {
        // The first that moved stands outside of all the others.
        if self.moved.others().next_outside(0) >= MOST_IN_SET {
            return;
        }
        let moved = self.moved;
        let count = self.known.min(MOST_HUBS as u32);
        for at in 0..count {
            let found = &mut self.apart[at as usize];
            *found = found.without(&moved);
        }
        self.known = count;
        self.moved.clear();
    }

    /// Has a place for what is found of a hub.
    fn begin(&mut self, hub: HubId)
        ensures idle { (i : ℕ) → IsIn self.new i ↔ IsIn self.old i }
        ensures apart { (h i : ℕ) → IsApart self.new h i → IsApart self.old h i }
    {
        'hubs: while self.known <= hub.0 {
            let at = self.known as usize;
            if at >= MOST_HUBS {
                return;
            }
            let found = &mut self.apart[at];
            found.clear();
            self.known += 1;
        }
    }
}
