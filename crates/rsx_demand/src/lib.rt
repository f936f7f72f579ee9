//! Demand: how many items a subscriber asked for, and how many it was sent.
//!
//! Both are running totals since the subscription began. What was asked saturates at [`UNBOUNDED`],
//! which is 2^63 - 1 (rule 3.17), and never wraps, so that `sent <= asked` stays literally true
//! (rule 1.1). No call takes memory, and none refuses.
//!
//! A proof knows `sent <= asked` (`covered`) and `asked <= 2^63 - 1` (`bounded`) of each [`Demand`]
//! that it meets, with no call: they are facts of the type.
#![tactic(auto)]

ghost use Rattle.std.specs.Prelude.{◌≡◌, ◌+◌, ◌-◌, ◌<◌, ◌≤◌};
ghost use Rattle.rsx_demand.specs.Demand as spec;
ghost use Rattle.rsx_demand.specs.declared.TheConstants.{UNBOUNDED};

/// The largest demand, 2^63 - 1. Who asks for so much takes whatever comes (rule 3.17).
pub const UNBOUNDED: u64 = 9_223_372_036_854_775_807;

/// What was asked for and what was sent, in items since the subscription began.
#[derive(Clone, Copy, Debug, PartialEq, Eq)]
pub struct Demand {
    /// The items asked for, at most [`UNBOUNDED`].
    pub asked: u64,
    /// The items sent, at most those asked for.
    pub sent: u64,
    pub ghost covered: { sent ≤ asked },
    pub ghost bounded: { asked ≤ UNBOUNDED },
}

/// The two totals together, saturating at [`UNBOUNDED`].
pub fn saturating_total(a: u64, b: u64) -> u64
    ensures { result ≡ spec.saturating_total a b }
{
    UNBOUNDED.min(a.saturating_add(b))
}

impl Demand {
    /// Nothing asked and nothing sent.
    pub fn new() -> Self
        ensures asked { result.asked ≡ 0 }
        ensures sent { result.sent ≡ 0 }
    {
        Demand { asked: 0, sent: 0 }
    }

    /// Raises what was asked for by `n` items, saturating at [`UNBOUNDED`] (rules 3.8 and 3.17).
    /// What was sent stays.
    pub fn ask(&mut self, n: u64)
        ensures asked { self.new.asked ≡ spec.saturating_total self.old.asked n }
        ensures sent { self.new.sent ≡ self.old.sent }
    {
        self.asked = saturating_total(self.asked, n);
    }

    /// How many items may still be sent (rule 1.1).
    pub fn room(&self) -> u64
        ensures { result ≡ self.now.asked - self.now.sent }
    {
        self.asked - self.sent
    }

    /// Counts one item as sent. What was asked for stays.
    pub fn spend(&mut self)
        requires { self.old.sent < self.old.asked }
        ensures asked { self.new.asked ≡ self.old.asked }
        ensures sent { self.new.sent ≡ self.old.sent + 1 }
    {
        self.sent += 1;
    }

    /// The items asked for so far.
    pub fn asked(&self) -> u64
        ensures { result ≡ self.now.asked }
    {
        self.asked
    }

    /// The items sent so far.
    pub fn sent(&self) -> u64
        ensures { result ≡ self.now.sent }
    {
        self.sent
    }
}
