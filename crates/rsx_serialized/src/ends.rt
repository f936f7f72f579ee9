//! The ends of links that the holder of a graph has.

ghost use Rattle.std.specs.Prelude.{◌≡◌, ◌||◌};
ghost use Rattle.rsx_types.specs.declared.signal.Signal.{Signal as SignalSpec};

use rsx_demand::UNBOUNDED;
use rsx_link::{CancelSeat, Down, Found, Link, Up};
use rsx_types::{HubId, Signal};

/// The receiving end of an emitter's link.
#[derive(Drop)]
pub struct FromEmitter<T> {
    /// The hub at which is published what comes.
    pub hub: HubId,
    /// The end.
    pub down: Down<T>,
    /// A signal that was taken, and for which the hub had no room yet.
    pub waiting: Option<Signal<T>>,
    /// The right to cancel the link. Nothing is cancelled by it; who closes the link needs it.
    pub seat: CancelSeat,
}

/// The sending end of a tap's link.
#[derive(Drop)]
pub struct ToTap<T> {
    /// The end.
    pub up: Up<T>,
    /// The items that the subscription was asked for in all: what the tap asked for, but for what the link has no room for yet.
    pub asked: u64,
}

/// What a look at a tap's link found.
#[derive(Clone, Copy)]
pub(crate) struct Looked {
    /// How many items more are asked for.
    pub(crate) items: u64,
    /// Whether a flag is set: the tap or a canceller cancelled, or the tap made a bad request.
    pub(crate) stopped: bool,
}

impl<T: Drop> FromEmitter<T> {
    ghost use Rattle.std.specs.Prelude.{◌≡◌, IfNone, IfSome, None};
    ghost use Rattle.rsx_link.specs.Ends.{IsDownOf, TakesNone};
    ghost use Rattle.rsx_serialized.specs.Ends.{Gives};

    /// The signal that comes next: the one that waits, or else the oldest of the link. It is no more in the end's hands.
    pub(crate) fn next(&mut self, link: &Link<T>) -> Option<Signal<T>>
        requires { IsDownOf link.now self.old.down }
        ensures end { IsDownOf link.now self.new.down }
        ensures some { IfSome result (λ s. Gives self.old s self.new) }
        ensures none { IfNone result ((self.new.hub ≡ self.old.hub) × (self.old.waiting ≡ None) × (self.new.waiting ≡ None) × TakesNone self.old.down self.new.down × (self.new.seat ≡ self.old.seat)) }
    {
        match self.waiting.take() {
            Some(signal) => Some(signal),
            None => self.down.take(link),
        }
    }
}

impl<T: Drop> ToTap<T> {
    ghost use Rattle.std.specs.Prelude.{◌≡◌, ◌⊎◌, ◌≤◌, ◌<◌, ◌+◌, ◌-◌, ◌∷◌, ◌++◌, [], false, true};
    ghost use Rattle.rsx_link.specs.Ends.{IsUpOf, MaySend, SameUp, carried_up, free_slots, items_sent, sent_signals, up_steps};
    ghost use Rattle.rsx_link.specs.Signals.{is_item as is_item_signal};
    ghost use Rattle.rsx_demand.specs.declared.TheConstants.{UNBOUNDED as MOST};
    ghost use Rattle.rsx_serialized.specs.Ends.{IsPassedOn, is_flagged};
    ghost use Rattle.rsx_serialized.specs.Resting.{HasNoRoom, IsLook};

    /// Looks at the link: how many items more are to be requested, which then counts as passed on, and whether a flag is set.
    ///
    /// Of what is asked for only so much is passed on as the link has room for, beside an ending. So what is delivered finds room, and a
    /// tap that asked for more than it takes holds up no other one.
    pub(crate) fn look(&mut self, link: &Link<T>) -> Looked
        requires end { IsUpOf link.now self.old.up }
        requires passed { IsPassedOn self.old }
        ensures end { IsUpOf link.now self.new.up }
        ensures passed { IsPassedOn self.new }
        ensures items { self.new.asked ≡ self.old.asked + result.items }
        ensures most { self.new.asked ≤ MOST }
        ensures fits { (self.new.asked ≡ self.old.asked) ⊎ (self.new.asked ≤ items_sent self.new.up + (free_slots self.new.up - 1)) }
        ensures stopped { result.stopped ≡ is_flagged self.new.up }
        ensures stays { is_flagged self.old.up ≡ true → is_flagged self.new.up ≡ true }
        ensures looked { IsLook (up_steps self.old.up) (up_steps self.new.up) }
        ensures same { (sent_signals self.new.up ≡ sent_signals self.old.up) × (carried_up self.new.up ≡ carried_up self.old.up) }
    {
        let found = self.up.look(link);
        let free = self.up.free(link) as u64;
        let sent = found.asked - self.up.room();
        let fits = sent.saturating_add(free.saturating_sub(1));
        let total = UNBOUNDED.min(found.asked).min(fits.max(self.asked));
        let items = total - self.asked;
        self.asked = total;
        Looked {
            items,
            stopped: is_flag(found),
        }
    }

    /// Whether the link takes a signal now, as far as its last look found: an item only where one is asked for.
    pub(crate) fn has_room(&self, item: bool) -> bool
        ensures room { result ≡ true → 0 < free_slots self.now.up }
        ensures none { result ≡ false → HasNoRoom item self.now }
        ensures may { result ≡ true → (s : SignalSpec T) → is_item_signal s ≡ item → MaySend self.now.up s }
    {
        if item && self.up.room() == 0 {
            return false;
        }
        self.up.known_free() > 0
    }

    /// Sends a signal, for which there is room.
    pub(crate) fn send(&mut self, link: &Link<T>, signal: Signal<T>)
        requires end { IsUpOf link.now self.old.up }
        requires room { 0 < free_slots self.old.up }
        requires may { MaySend self.old.up signal }
        ensures same { SameUp link.now self.old.up self.new.up × (self.new.asked ≡ self.old.asked) }
        ensures passed { IsPassedOn self.old → IsPassedOn self.new }
        ensures sent { sent_signals self.new.up ≡ sent_signals self.old.up ++ signal ∷ [] }
    {
        self.up.put(link, signal);
    }
}

/// Whether a flag is set.
fn is_flag(found: Found) -> bool
    ensures { result ≡ (found.cancelled || found.refused) }
{
    found.cancelled || found.refused
}
