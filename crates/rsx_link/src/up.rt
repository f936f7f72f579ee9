//! The sending end.

ghost use Rattle.std.specs.Prelude.{◌≡◌, ◌≤◌, ◌+◌, []};
ghost use Rattle.rtrb.specs.Ring.{sent as sent_into};
ghost use Rattle.rsx_link.specs.Link.{view_cancels};
ghost use Rattle.rsx_link.specs.Steps.{seen_of};
ghost use Rattle.rsx_link.specs.Signals.{items_in};
ghost use Rattle.rsx_link.specs.declared.view.Role.TheVariants.{Upstream};

use crate::link::{CANCELLED, Link, REFUSED, Seat};
use crate::signals::is_item;
use rsx_types::Signal;
use rtrb::{Producer, PushError};

/// What [`Up::look`] found: the total first, and then the flags.
#[derive(Clone, Copy, Debug, PartialEq, Eq)]
pub struct Found {
    /// The items asked for, with those from before the link was made: at most 2^63 - 1.
    pub asked: u64,
    /// Some canceller cancelled.
    pub cancelled: bool,
    /// The receiving end made a bad request.
    pub refused: bool,
}

/// The sending end of a link: it sends the signals of a publisher, and sees what was asked of it.
///
/// Of each one it is known that the items sent are at most the total that it saw last (`covered`, rule 1.1).
#[derive(Drop)]
pub struct Up<T> {
    pub(crate) producer: Producer<Signal<T>>,
    pub(crate) seat: Seat,
    // The items that went over the edge before the link was made.
    pub(crate) carried: u64,
    // The items sent, with those.
    pub(crate) sent: u64,
    // The total that was seen last.
    pub(crate) seen: u64,
    pub ghost alone: { (seat.me.0.role ≡ Upstream) × (seat.me.1 ≡ []) },
    pub ghost never_cancels: { (seat.me.0.parts ≡ []) × (view_cancels seat.me.0 ≡ 0) },
    pub ghost saw: { seen ≡ seen_of seat.me.0.steps },
    pub ghost counts: { sent ≡ carried + items_in (sent_into producer) },
    pub ghost covered: { sent ≤ seen },
}

impl<T> Up<T> {
    ghost use Rattle.std.specs.Prelude.{◌<◌, ◌+◌, ◌-◌, [], ◌∷◌, ◌++◌, OnOk, IfErr, IsOk, IsTrue, ◌↔◌};
    ghost use Rattle.rsx_link.specs.Ends.{IsUpOf, up_steps, sent_signals, free_slots, items_sent, seen_total, MaySend, Looks, SameUp, HasSentNothing, ComesBack};

    /// Reads the total that was asked for, and then the flags, each by one load.
    ///
    /// The total is no smaller than in any answer before, and a flag that was seen is seen again. Either may have
    /// changed by the time that the caller reads the answer, but the total only grows and a flag stays set.
    pub fn look(&mut self, link: &Link<T>) -> Found
        requires { IsUpOf link.now self.old }
        ensures same { HasSentNothing link.now self.old self.new }
        ensures looked { Looks (up_steps self.old) (up_steps self.new) result }
    {
        self.seen = link.load_asked(&mut self.seat);
        let flags = link.load_flags(&mut self.seat);
        Found {
            asked: self.seen,
            cancelled: flags & CANCELLED != 0,
            refused: flags & REFUSED != 0,
        }
    }

    /// How many items may be sent before the next [`Up::look`]: the total that was seen last, less the items sent.
    pub fn room(&self) -> u64
        ensures { result ≡ seen_total self.now - items_sent self.now }
    {
        self.seen - self.sent
    }

    /// Whether the queue has room for a signal: then the next [`Up::send`] succeeds. What it needs of demand [`Up::room`] says.
    pub fn has_room(&mut self, link: &Link<T>) -> bool
        requires { IsUpOf link.now self.old }
        ensures same { SameUp link.now self.old self.new × (sent_signals self.new ≡ sent_signals self.old) }
        ensures known { free_slots self.old ≤ free_slots self.new }
        ensures room { IsTrue result ↔ (0 < free_slots self.new) }
    {
        let _ = link;
        !self.producer.is_full()
    }

    /// How many signals the queue has room for; so many sends succeed then. The receiving end may make room for more at any time.
    pub fn free(&mut self, link: &Link<T>) -> usize
        requires { IsUpOf link.now self.old }
        ensures same { SameUp link.now self.old self.new × (sent_signals self.new ≡ sent_signals self.old) }
        ensures free { result ≡ free_slots self.new }
    {
        let _ = link;
        self.producer.slots()
    }

    /// How many signals the end knows room for: as many as the last look at the queue found, less those sent since.
    pub fn known_free(&self) -> usize
        ensures { result ≡ free_slots self.now }
    {
        self.producer.cached_slots()
    }

    /// Puts a signal into the queue, behind all that were sent before.
    ///
    /// The caller sees to it that an item is sent only while [`Up::room`] is not 0 (rule 1.1). An ending needs no
    /// demand. It takes one place of those that the end knows to be free.
    ///
    /// # Errors
    ///
    /// Where the queue has no room the signal comes back, and nothing was sent.
    pub fn send(&mut self, link: &Link<T>, signal: Signal<T>) -> Result<(), Signal<T>>
        requires end { IsUpOf link.now self.old }
        requires asked { MaySend self.old signal }
        ensures same { SameUp link.now self.old self.new }
        ensures ok { OnOk result (sent_signals self.new ≡ sent_signals self.old ++ signal ∷ []) }
        ensures full { IfErr result (λ back. ComesBack self.old self.new signal back) }
        ensures succeeds { 0 < free_slots self.old → IsOk result }
        ensures room { OnOk result (free_slots self.old ≤ free_slots self.new + 1) }
    {
        let _ = link;
        let is_item = is_item(&signal);
        match self.producer.push(signal) {
            Ok(()) => {
                if is_item {
                    self.sent += 1;
                }
                Ok(())
            }
            Err(PushError::Full(signal)) => Err(signal),
        }
    }

    /// Puts a signal into the queue, as [`Up::send`] does, where [`Up::has_room`] said that there is a place: none comes back.
    pub fn put(&mut self, link: &Link<T>, signal: Signal<T>)
        requires end { IsUpOf link.now self.old }
        requires asked { MaySend self.old signal }
        requires room { 0 < free_slots self.old }
        ensures same { SameUp link.now self.old self.new }
        ensures sent { sent_signals self.new ≡ sent_signals self.old ++ signal ∷ [] }
        ensures room { free_slots self.old ≡ free_slots self.new + 1 }
    {
        let _ = link;
        let counts = is_item(&signal);
        self.producer.push_reserved(signal);
        if counts {
            self.sent += 1;
        }
    }
}
