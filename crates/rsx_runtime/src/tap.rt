//! The tap of a subscription of a live graph.

ghost use Rattle.std.specs.Prelude.{◌≡◌, false, not, true};
ghost use Rattle.rsx_link.specs.Ends.{received_signals};
ghost use Rattle.rsx_sources.specs.Counts.{ends_input};
ghost use Rattle.rsx_runtime.specs.Ordered.{is_orderly, is_unended};
ghost use Rattle.rsx_runtime.specs.Standing.{asks, gives, given_by, is_over, taken_state};

use crate::live::Live;
use rsx_link::{CancelSeat, Down, Link};
use rsx_pipe::Nodes;
use rsx_types::{Ops, Signal, SubId};

/// How a tap's subscription stands, as far as the tap knows.
#[derive(Clone, Copy, Debug, PartialEq, Eq)]
pub enum Tapped {
    /// It gives signals, and requests and cancels.
    Open,
    /// The tap was called to cancel. It gives what waits in the queue (rule 2.8), and neither requests nor cancels.
    Cancelled,
    /// A bad request was made after another seat had cancelled. It gives nothing more.
    Refused,
    /// It gave an ending, or the error of a bad request; or the subscription wasn't open as the graph went live. It gives nothing,
    /// and neither requests nor cancels.
    Over,
}

/// The tap of a subscription of a live graph: a thread requests by it, takes what was delivered, and cancels.
///
/// Of each one it is known that nothing follows an ending that it gave (rule 1.7), and that the items that it gave are at most those
/// asked for (rule 1.1).
#[derive(Drop)]
pub struct Tap<T> {
    sub: SubId,
    // The number of its link.
    link: u32,
    down: Down<T>,
    seat: CancelSeat,
    state: Tapped,
    // Whether it gave the error of a bad request.
    error: bool,
    // Whether it gave the ending of its expression.
    ended: bool,
    // How many cancellers were made of it.
    cancellers: u64,
    pub ghost open: { is_over state ≡ false → (is_unended (received_signals down) ≡ true) × (error ≡ false) },
    pub ghost orderly: { is_orderly (given_by (received_signals down) error) ≡ true },
    pub ghost told: { ended ≡ not (is_unended (received_signals down)) },
}

/// What a tap is made of, for who closes its link.
#[derive(Drop)]
pub struct TapEnds<T> {
    /// The receiving end of its link.
    pub down: Down<T>,
    /// Its seat, by which the link is cancelled.
    pub seat: CancelSeat,
    /// Whether it gave the error of a bad request.
    pub error: bool,
    /// Whether it gave the ending of its expression.
    pub ended: bool,
}

impl<T: Drop> Tap<T> {
    ghost use Rattle.std.specs.Prelude.{◌≡◌, ◌≤◌, ◌+◌, ◌-◌, ◌^◌, ◌∷◌, ◌++◌, min, [], IfNone, IfSome, None};
    ghost use Rattle.rsx_link.specs.Ends.{AreHalves, Cancels, IsCancelSeatOf, KeepsSteps, Requests, Waits, asked_total, cancel_beside, cancel_parts, cancel_steps, down_steps, items_taken, queued};
    ghost use Rattle.rsx_link.specs.Signals.{request_of};
    ghost use Rattle.rsx_region.specs.Pieces.{IsAt};
    ghost use Rattle.rsx_runtime.specs.Standing.{cancelled_state, opened_state, requested_state, signals_of};
    ghost use Rattle.rsx_runtime.specs.Tapping.{IsTapOf, KeepsTap, SameSeat, given};

    /// The tap of this subscription, over the link with this number, whose receiving end and cancel seat these are. `is_open` says
    /// whether the subscription is open.
    pub fn new(sub: SubId, link: u32, down: Down<T>, seat: CancelSeat, is_open: bool) -> Tap<T>
        requires { received_signals down ≡ [] }
        ensures ends { (result.sub ≡ sub) × (result.link ≡ link) × (result.down ≡ down) × (result.seat ≡ seat) }
        ensures state { result.state ≡ opened_state is_open }
        ensures given { given result ≡ [] }
        ensures cancellers { result.cancellers ≡ 0 }
    {
        let state = match is_open {
            true => Tapped::Open,
            false => Tapped::Over,
        };
        Tap {
            sub,
            link,
            down,
            seat,
            state,
            error: false,
            ended: false,
            cancellers: 0,
        }
    }

    /// Its ends, and what it gave last. It takes no memory.
    pub fn into_ends(self) -> TapEnds<T>
        ensures ends { (result.down ≡ self.down) × (result.seat ≡ self.seat) × (result.error ≡ self.error) }
        ensures ended { result.ended ≡ not (is_unended (received_signals self.down)) }
    {
        TapEnds {
            down: self.down,
            seat: self.seat,
            error: self.error,
            ended: self.ended,
        }
    }

    /// The subscription.
    pub fn sub(&self) -> SubId
        ensures { result ≡ self.now.sub }
    {
        self.sub
    }

    /// The number of its link.
    pub fn link(&self) -> u32
        ensures { result ≡ self.now.link }
    {
        self.link
    }

    /// How the subscription stands, as far as the tap knows.
    pub fn state(&self) -> Tapped
        ensures { result ≡ self.now.state }
    {
        self.state
    }

    /// How many items may be taken before the next request: those asked for, less those taken, both with those from before the graph
    /// went live.
    pub fn room(&self) -> u64
        ensures room { result ≡ asked_total self.now.down - items_taken self.now.down }
        ensures within { items_taken self.now.down ≤ asked_total self.now.down }
    {
        self.down.asked() - self.down.taken()
    }

    /// Takes the next signal that was delivered, if one waits. After an ending or a bad request there is none. It gives no more items
    /// than were asked for. No call waits, and none takes memory.
    pub fn take<N: Nodes<Item = T>, O: Ops<Item = T>>(
        &mut self,
        live: &Live<N, T, O>,
    ) -> Option<Signal<T>>
        requires { IsAt live.now.links.items self.old.link (λ l. IsTapOf l self.old) }
        ensures end { IsAt live.now.links.items self.old.link (λ l. KeepsTap l self.old self.new × SameSeat self.old self.new × (down_steps self.new.down ≡ down_steps self.old.down)) }
        ensures some { IfSome result (λ s. (gives self.old.state ≡ true) × (given self.new ≡ given self.old ++ s ∷ []) × (self.new.state ≡ taken_state s self.old.state)) }
        ensures within { items_taken self.new.down ≤ asked_total self.new.down }
        ensures none { IfNone result ((given self.new ≡ given self.old) × (self.new.state ≡ self.old.state) × (gives self.old.state ≡ true → Waits self.new.down (queued self.new.down))) }
        ensures still { gives self.old.state ≡ false → self.new ≡ self.old }
    {
        self.take_over(live.link(self.link))
    }

    /// Requests so many items more (rule 3.8). A request of 0 or less is answered by its error (rule 3.9), which counts as given and ends
    /// the subscription, unless another seat has cancelled; then there is no answer, and nothing more is given. After an ending, after
    /// [`Tap::cancel`], and where the subscription wasn't open as the graph went live, it does nothing (rule 3.6).
    pub fn request<N: Nodes<Item = T>, O: Ops<Item = T>>(
        &mut self,
        live: &Live<N, T, O>,
        n: i64,
    ) -> Option<Signal<T>>
        requires { IsAt live.now.links.items self.old.link (λ l. IsTapOf l self.old) }
        ensures end { IsAt live.now.links.items self.old.link (λ l. KeepsTap l self.old self.new × SameSeat self.old self.new) }
        ensures asked { asks self.old.state ≡ true → Requests (request_of n) (down_steps self.old.down) (down_steps self.new.down) result }
        ensures given { given self.new ≡ given self.old ++ signals_of result }
        ensures state { asks self.old.state ≡ true → self.new.state ≡ requested_state (request_of n) result self.old.state }
        ensures still { asks self.old.state ≡ false → (result ≡ None) × (self.new ≡ self.old) }
    {
        self.request_over(live.link(self.link), n)
    }

    /// Makes a further seat by which the subscription is cancelled, for another thread.
    pub fn canceller<N: Nodes<Item = T>, O: Ops<Item = T>>(
        &mut self,
        live: &Live<N, T, O>,
    ) -> Canceller
        requires { IsAt live.now.links.items self.old.link (λ l. IsTapOf l self.old) }
        ensures end { IsAt live.now.links.items self.old.link (λ l. KeepsSteps l self.old.seat self.new.seat × IsCancelSeatOf l result.seat) }
        ensures new { (result.sub ≡ self.old.sub) × (result.link ≡ self.old.link) × (cancel_steps result.seat ≡ []) × (cancel_beside result.seat ≡ []) }
        ensures parts { AreHalves self.old.seat self.new.seat result.seat }
        ensures count { self.new.cancellers ≡ min (self.old.cancellers + 1) (2 ^ 64 - 1) }
        ensures same { (self.new.sub ≡ self.old.sub) × (self.new.link ≡ self.old.link) × (self.new.down ≡ self.old.down) × (self.new.state ≡ self.old.state) × (given self.new ≡ given self.old) }
    {
        self.canceller_over(live.link(self.link))
    }

    /// Takes a canceller of its link back, so that its steps stand beside those of the tap. Whoever has taken all of them back knows at
    /// the end whether the subscription was cancelled.
    pub fn take_back<N: Nodes<Item = T>, O: Ops<Item = T>>(
        &mut self,
        live: &Live<N, T, O>,
        canceller: Canceller,
    )
        requires { IsAt live.now.links.items self.old.link (λ l. IsTapOf l self.old × IsCancelSeatOf l canceller.seat) }
        ensures end { IsAt live.now.links.items self.old.link (λ l. IsTapOf l self.new) }
        ensures beside { (cancel_steps self.new.seat ≡ cancel_steps self.old.seat) × (cancel_beside self.new.seat ≡ cancel_beside self.old.seat ++ (cancel_steps canceller.seat ∷ cancel_beside canceller.seat)) }
        ensures parts { cancel_parts self.new.seat ≡ cancel_parts self.old.seat ++ cancel_parts canceller.seat }
        ensures same { (self.new.sub ≡ self.old.sub) × (self.new.link ≡ self.old.link) × (self.new.down ≡ self.old.down) × (self.new.state ≡ self.old.state) × (given self.new ≡ given self.old) }
    {
        self.take_back_over(live.link(self.link), canceller);
    }

    /// Cancels the subscription (rule 3.5). What waits in the queue may still be taken (rule 2.8). After an ending, after another call of
    /// it, and where the subscription wasn't open as the graph went live, it does nothing (rule 3.7).
    pub fn cancel<N: Nodes<Item = T>, O: Ops<Item = T>>(&mut self, live: &Live<N, T, O>)
        requires { IsAt live.now.links.items self.old.link (λ l. IsTapOf l self.old) }
        ensures end { IsAt live.now.links.items self.old.link (λ l. KeepsTap l self.old self.new × (self.new.down ≡ self.old.down) × (self.new.cancellers ≡ self.old.cancellers)) }
        ensures cancelled { asks self.old.state ≡ true → Cancels self.old.seat (cancel_steps self.new.seat) }
        ensures given { given self.new ≡ given self.old }
        ensures state { self.new.state ≡ cancelled_state self.old.state }
        ensures still { asks self.old.state ≡ false → self.new ≡ self.old }
    {
        self.cancel_over(live.link(self.link))
    }

    /// Takes the next signal that was delivered, if one waits, as [`Tap::take`] does, over its link.
    pub fn take_over(&mut self, link: &Link<T>) -> Option<Signal<T>>
        requires { IsTapOf link.now self.old }
        ensures end { KeepsTap link.now self.old self.new × SameSeat self.old self.new × (down_steps self.new.down ≡ down_steps self.old.down) }
        ensures some { IfSome result (λ s. (gives self.old.state ≡ true) × (given self.new ≡ given self.old ++ s ∷ []) × (self.new.state ≡ taken_state s self.old.state)) }
        ensures within { items_taken self.new.down ≤ asked_total self.new.down }
        ensures none { IfNone result ((given self.new ≡ given self.old) × (self.new.state ≡ self.old.state) × (gives self.old.state ≡ true → Waits self.new.down (queued self.new.down))) }
        ensures still { gives self.old.state ≡ false → self.new ≡ self.old }
    {
        if !is_giving(self.state) {
            return None;
        }
        let signal = self.down.take(link)?;
        self.ended = is_ending(&signal);
        self.state = state_after(&signal, self.state);
        Some(signal)
    }

    /// Requests so many items more as [`Tap::request`] does, over its link.
    pub fn request_over(&mut self, link: &Link<T>, n: i64) -> Option<Signal<T>>
        requires { IsTapOf link.now self.old }
        ensures end { KeepsTap link.now self.old self.new × SameSeat self.old self.new }
        ensures asked { asks self.old.state ≡ true → Requests (request_of n) (down_steps self.old.down) (down_steps self.new.down) result }
        ensures given { given self.new ≡ given self.old ++ signals_of result }
        ensures state { asks self.old.state ≡ true → self.new.state ≡ requested_state (request_of n) result self.old.state }
        ensures still { asks self.old.state ≡ false → (result ≡ None) × (self.new ≡ self.old) }
    {
        if !is_asking(self.state) {
            return None;
        }
        let answer = self.down.ask(link, n);
        if n > 0 {
            return answer;
        }
        match answer {
            Some(error) => {
                self.error = true;
                self.state = Tapped::Over;
                Some(error)
            }
            None => {
                self.state = Tapped::Refused;
                None
            }
        }
    }

    /// Makes a further seat by which the subscription is cancelled, as [`Tap::canceller`] does, over its link.
    pub fn canceller_over(&mut self, link: &Link<T>) -> Canceller
        requires { IsTapOf link.now self.old }
        ensures end { KeepsSteps link.now self.old.seat self.new.seat × IsCancelSeatOf link.now result.seat }
        ensures new { (result.sub ≡ self.old.sub) × (result.link ≡ self.old.link) × (cancel_steps result.seat ≡ []) × (cancel_beside result.seat ≡ []) }
        ensures parts { AreHalves self.old.seat self.new.seat result.seat }
        ensures count { self.new.cancellers ≡ min (self.old.cancellers + 1) (2 ^ 64 - 1) }
        ensures same { (self.new.sub ≡ self.old.sub) × (self.new.link ≡ self.old.link) × (self.new.down ≡ self.old.down) × (self.new.state ≡ self.old.state) × (given self.new ≡ given self.old) }
    {
        self.cancellers = self.cancellers.saturating_add(1);
        let seat = self.seat.split(link);
        Canceller {
            sub: self.sub,
            link: self.link,
            seat,
        }
    }

    /// Takes a canceller of its link back as [`Tap::take_back`] does, over its link.
    pub fn take_back_over(&mut self, link: &Link<T>, canceller: Canceller)
        requires { IsTapOf link.now self.old × IsCancelSeatOf link.now canceller.seat }
        ensures end { IsTapOf link.now self.new }
        ensures beside { (cancel_steps self.new.seat ≡ cancel_steps self.old.seat) × (cancel_beside self.new.seat ≡ cancel_beside self.old.seat ++ (cancel_steps canceller.seat ∷ cancel_beside canceller.seat)) }
        ensures parts { cancel_parts self.new.seat ≡ cancel_parts self.old.seat ++ cancel_parts canceller.seat }
        ensures same { (self.new.sub ≡ self.old.sub) × (self.new.link ≡ self.old.link) × (self.new.down ≡ self.old.down) × (self.new.state ≡ self.old.state) × (given self.new ≡ given self.old) }
    {
        self.seat.join(link, canceller.seat);
    }

    /// Cancels as [`Tap::cancel`] does, over its link.
    pub fn cancel_over(&mut self, link: &Link<T>)
        requires { IsTapOf link.now self.old }
        ensures end { KeepsTap link.now self.old self.new × (self.new.down ≡ self.old.down) × (self.new.cancellers ≡ self.old.cancellers) }
        ensures cancelled { asks self.old.state ≡ true → Cancels self.old.seat (cancel_steps self.new.seat) }
        ensures given { given self.new ≡ given self.old }
        ensures state { self.new.state ≡ cancelled_state self.old.state }
        ensures still { asks self.old.state ≡ false → self.new ≡ self.old }
    {
        match self.state {
            Tapped::Open => {
                self.seat.cancel(link);
                self.state = Tapped::Cancelled;
            }
            Tapped::Refused => {
                self.seat.cancel(link);
                self.state = Tapped::Over;
            }
            Tapped::Cancelled | Tapped::Over => {}
        }
    }
}

/// Whether a tap that stands so gives signals.
fn is_giving(state: Tapped) -> bool
    ensures { result ≡ gives state }
{
    matches!(state, Tapped::Open | Tapped::Cancelled)
}

/// Whether a tap that stands so requests and cancels.
fn is_asking(state: Tapped) -> bool
    ensures { result ≡ asks state }
{
    matches!(state, Tapped::Open | Tapped::Refused)
}

/// Whether the signal is an ending.
fn is_ending<T>(signal: &Signal<T>) -> bool
    ensures { result ≡ ends_input signal.now }
{
    !matches!(signal, Signal::Next(_))
}

/// How a tap stands that gave this signal, and stood so before.
fn state_after<T>(signal: &Signal<T>, state: Tapped) -> Tapped
    ensures { result ≡ taken_state signal.now state }
{
    match signal {
        Signal::Next(_) => state,
        Signal::Complete | Signal::Error(_) => Tapped::Over,
    }
}

/// A further seat by which a tap's subscription is cancelled.
#[derive(Drop)]
pub struct Canceller {
    sub: SubId,
    // The number of the tap's link.
    link: u32,
    seat: CancelSeat,
}

impl Canceller {
    ghost use Rattle.std.specs.Prelude.{◌≡◌};
    ghost use Rattle.rsx_region.specs.Pieces.{IsAt};
    ghost use Rattle.rsx_link.specs.Ends.{Cancels, IsCancelSeatOf, KeepsParts, cancel_steps};

    /// The subscription.
    pub fn sub(&self) -> SubId
        ensures { result ≡ self.now.sub }
    {
        self.sub
    }

    /// The number of its link.
    pub fn link(&self) -> u32
        ensures { result ≡ self.now.link }
    {
        self.link
    }

    /// Cancels the subscription (rule 3.5). To cancel again changes nothing (rule 3.7). No call waits, and none takes memory.
    pub fn cancel<N: Nodes<Item = T>, T: Drop, O: Ops<Item = T>>(&mut self, live: &Live<N, T, O>)
        requires { IsAt live.now.links.items self.old.link (λ l. IsCancelSeatOf l self.old.seat) }
        ensures end { IsAt live.now.links.items self.old.link (λ l. KeepsParts l self.old.seat self.new.seat × (self.new.sub ≡ self.old.sub) × (self.new.link ≡ self.old.link)) }
        ensures cancelled { Cancels self.old.seat (cancel_steps self.new.seat) }
    {
        self.seat.cancel(live.link(self.link));
    }

    /// Cancels the subscription as [`Canceller::cancel`] does, over its link.
    pub fn cancel_over<T>(&mut self, link: &Link<T>)
        requires { IsCancelSeatOf link.now self.old.seat }
        ensures end { KeepsParts link.now self.old.seat self.new.seat × (self.new.sub ≡ self.old.sub) × (self.new.link ≡ self.old.link) }
        ensures cancelled { Cancels self.old.seat (cancel_steps self.new.seat) }
    {
        self.seat.cancel(link);
    }
}
