//! The rules of Reactive Streams 1.0.4, what a trace can say of each, and what it said.

ghost use Rattle.std.specs.Prelude.{◌≡◌};

use std::fmt;

/// A rule of the standard, by its number: `Rule1_9` is rule 1.9. The order is that of a report.
#[derive(Clone, Copy, Debug, PartialEq, Eq)]
pub enum Rule {
    /// No more items come than were requested.
    Rule1_1,
    /// Fewer items may come than were requested, and the subscription may end.
    Rule1_2,
    /// No signal begins while another is in progress.
    Rule1_3,
    /// A publisher that fails signals `onError`.
    Rule1_4,
    /// A publisher that is done signals `onComplete`.
    Rule1_5,
    /// With `onError` or `onComplete` the subscription counts as cancelled.
    Rule1_6,
    /// After `onError` or `onComplete` no signal follows.
    Rule1_7,
    /// After a cancel the signals stop at some time.
    Rule1_8,
    /// `onSubscribe` comes before every other signal.
    Rule1_9,
    /// A subscriber is handed to `subscribe` at most once.
    Rule1_10,
    /// A publisher may serve several subscribers.
    Rule1_11,
    /// Items come only once some were requested.
    Rule2_1,
    /// A subscriber that would hold up its publisher works elsewhere.
    Rule2_2,
    /// `onComplete` and `onError` call nothing of the subscription.
    Rule2_3,
    /// After `onComplete` and `onError` the subscription counts as cancelled.
    Rule2_4,
    /// A second subscription is cancelled while the first is in use.
    Rule2_5,
    /// A subscription that is no longer needed is cancelled.
    Rule2_6,
    /// Calls of one subscription don't overlap.
    Rule2_7,
    /// Items may still come after a cancel.
    Rule2_8,
    /// `onComplete` may come with or without a request.
    Rule2_9,
    /// `onError` may come with or without a request.
    Rule2_10,
    /// A signal is handled after it was received.
    Rule2_11,
    /// `onSubscribe` is called at most once for one subscriber.
    Rule2_12,
    /// The calls of a subscriber return normally.
    Rule2_13,
    /// `request` and `cancel` are called in the subscriber's context.
    Rule3_1,
    /// `request` may be called inside `onNext` and `onSubscribe`.
    Rule3_2,
    /// Calls of `request` and `onNext` inside one another have a bound.
    Rule3_3,
    /// `request` doesn't hold up its caller.
    Rule3_4,
    /// `cancel` doesn't hold up its caller, and may be called again.
    Rule3_5,
    /// After a cancel a further request asks for nothing.
    Rule3_6,
    /// After a cancel a further cancel does nothing.
    Rule3_7,
    /// A request adds to what was requested before.
    Rule3_8,
    /// A request of 0 or less is answered by `onError`.
    Rule3_9,
    /// `request` may call `onNext` itself.
    Rule3_10,
    /// `request` may call `onComplete` or `onError` itself.
    Rule3_11,
    /// After a cancel the publisher stops signalling at some time.
    Rule3_12,
    /// After a cancel the publisher lets the subscriber go at some time.
    Rule3_13,
    /// A cancel may shut the publisher down.
    Rule3_14,
    /// `cancel` returns normally.
    Rule3_15,
    /// `request` returns normally.
    Rule3_16,
    /// Requests up to 2^63-1 are served, and only a bad request is answered by an error that says so.
    Rule3_17,
    /// A processor obeys the rules of a publisher and those of a subscriber.
    Rule4_1,
    /// A processor passes an error on, or recovers from it.
    Rule4_2,
}

/// Why a rule isn't judged.
#[derive(Clone, Copy, Debug, PartialEq, Eq)]
pub enum Class {
    /// The rule allows something, so nothing that happens breaks it.
    Permits,
    /// The rule asks for something to happen at some time, so no trace shows that it never will.
    Eventual,
    /// The rule speaks of what no trace records.
    Unseen,
}

/// What a trace says of a rule.
#[derive(Clone, Copy, Debug, PartialEq, Eq)]
pub enum Verdict {
    /// Nothing in the trace breaks the rule.
    Held,
    /// The events up to and with this position break the rule, and no fewer do.
    Broken(u64),
    /// The rule isn't judged, for this reason.
    NotJudged(Class),
}

impl Rule {
    ghost use Rattle.std.specs.Prelude.{codes};
    ghost use Rattle.rsx_tck.specs.Rule.{all_rules, class_of, text_of};

    /// What [`Rule::all`] answers.
    pub(crate) const ALL: [Rule; 43] = [
        Rule::Rule1_1,
        Rule::Rule1_2,
        Rule::Rule1_3,
        Rule::Rule1_4,
        Rule::Rule1_5,
        Rule::Rule1_6,
        Rule::Rule1_7,
        Rule::Rule1_8,
        Rule::Rule1_9,
        Rule::Rule1_10,
        Rule::Rule1_11,
        Rule::Rule2_1,
        Rule::Rule2_2,
        Rule::Rule2_3,
        Rule::Rule2_4,
        Rule::Rule2_5,
        Rule::Rule2_6,
        Rule::Rule2_7,
        Rule::Rule2_8,
        Rule::Rule2_9,
        Rule::Rule2_10,
        Rule::Rule2_11,
        Rule::Rule2_12,
        Rule::Rule2_13,
        Rule::Rule3_1,
        Rule::Rule3_2,
        Rule::Rule3_3,
        Rule::Rule3_4,
        Rule::Rule3_5,
        Rule::Rule3_6,
        Rule::Rule3_7,
        Rule::Rule3_8,
        Rule::Rule3_9,
        Rule::Rule3_10,
        Rule::Rule3_11,
        Rule::Rule3_12,
        Rule::Rule3_13,
        Rule::Rule3_14,
        Rule::Rule3_15,
        Rule::Rule3_16,
        Rule::Rule3_17,
        Rule::Rule4_1,
        Rule::Rule4_2,
    ];

    /// The 43 rules in the order of a report, which is that of their numbers in the standard.
    pub fn all() -> [Rule; 43]
        ensures { result ≡ all_rules }
    {
        Rule::ALL
    }

    /// The rule's number in the standard, as `1.10`.
    pub fn text(self) -> &'static str
        ensures { result.now ≡ text_of self }
    {
        match self {
            Rule::Rule1_1 => "1.1",
            Rule::Rule1_2 => "1.2",
            Rule::Rule1_3 => "1.3",
            Rule::Rule1_4 => "1.4",
            Rule::Rule1_5 => "1.5",
            Rule::Rule1_6 => "1.6",
            Rule::Rule1_7 => "1.7",
            Rule::Rule1_8 => "1.8",
            Rule::Rule1_9 => "1.9",
            Rule::Rule1_10 => "1.10",
            Rule::Rule1_11 => "1.11",
            Rule::Rule2_1 => "2.1",
            Rule::Rule2_2 => "2.2",
            Rule::Rule2_3 => "2.3",
            Rule::Rule2_4 => "2.4",
            Rule::Rule2_5 => "2.5",
            Rule::Rule2_6 => "2.6",
            Rule::Rule2_7 => "2.7",
            Rule::Rule2_8 => "2.8",
            Rule::Rule2_9 => "2.9",
            Rule::Rule2_10 => "2.10",
            Rule::Rule2_11 => "2.11",
            Rule::Rule2_12 => "2.12",
            Rule::Rule2_13 => "2.13",
            Rule::Rule3_1 => "3.1",
            Rule::Rule3_2 => "3.2",
            Rule::Rule3_3 => "3.3",
            Rule::Rule3_4 => "3.4",
            Rule::Rule3_5 => "3.5",
            Rule::Rule3_6 => "3.6",
            Rule::Rule3_7 => "3.7",
            Rule::Rule3_8 => "3.8",
            Rule::Rule3_9 => "3.9",
            Rule::Rule3_10 => "3.10",
            Rule::Rule3_11 => "3.11",
            Rule::Rule3_12 => "3.12",
            Rule::Rule3_13 => "3.13",
            Rule::Rule3_14 => "3.14",
            Rule::Rule3_15 => "3.15",
            Rule::Rule3_16 => "3.16",
            Rule::Rule3_17 => "3.17",
            Rule::Rule4_1 => "4.1",
            Rule::Rule4_2 => "4.2",
        }
    }

    /// Why the rule isn't judged, or `None` for one that is.
    pub fn class(self) -> Option<Class>
        ensures { result ≡ class_of self }
    {
        match self {
            Rule::Rule1_1
            | Rule::Rule1_3
            | Rule::Rule1_7
            | Rule::Rule1_9
            | Rule::Rule1_10
            | Rule::Rule2_1
            | Rule::Rule2_3
            | Rule::Rule2_5
            | Rule::Rule2_12
            | Rule::Rule3_6
            | Rule::Rule3_9
            | Rule::Rule3_17
            | Rule::Rule4_1 => None,
            Rule::Rule1_2
            | Rule::Rule1_11
            | Rule::Rule2_8
            | Rule::Rule2_9
            | Rule::Rule2_10
            | Rule::Rule3_10
            | Rule::Rule3_11 => Some(Class::Permits),
            Rule::Rule1_8 | Rule::Rule3_12 | Rule::Rule3_13 => Some(Class::Eventual),
            Rule::Rule1_4
            | Rule::Rule1_5
            | Rule::Rule1_6
            | Rule::Rule2_2
            | Rule::Rule2_4
            | Rule::Rule2_6
            | Rule::Rule2_7
            | Rule::Rule2_11
            | Rule::Rule2_13
            | Rule::Rule3_1
            | Rule::Rule3_2
            | Rule::Rule3_3
            | Rule::Rule3_4
            | Rule::Rule3_5
            | Rule::Rule3_7
            | Rule::Rule3_8
            | Rule::Rule3_14
            | Rule::Rule3_15
            | Rule::Rule3_16
            | Rule::Rule4_2 => Some(Class::Unseen),
        }
    }
}

impl fmt::Display for Rule {
    ghost use Rattle.std.specs.Prelude.{Some};
    ghost use Rattle.rsx_tck.specs.Rule.{text_of};

    ghost output = { λ rule. Some (text_of rule) };

    fn fmt<W: fmt::Write>(&self, f: &mut fmt::Formatter<W>) -> fmt::Result {
        f.write_str(self.text())
    }
}

impl fmt::Display for Class {
    ghost use Rattle.std.specs.Prelude.{Some};
    ghost use Rattle.rsx_tck.specs.Rule.{class_text};

    ghost output = { λ class. Some (class_text class) };

    fn fmt<W: fmt::Write>(&self, f: &mut fmt::Formatter<W>) -> fmt::Result {
        match self {
            Class::Permits => f.write_str("permits"),
            Class::Eventual => f.write_str("eventual"),
            Class::Unseen => f.write_str("unseen"),
        }
    }
}

/// `held`, `broken at 6`, `not judged: permits`.
impl fmt::Display for Verdict {
    ghost use Rattle.std.specs.Prelude.{Some};
    ghost use Rattle.rsx_tck.specs.Rule.{verdict_text};

    ghost output = { λ verdict. Some (verdict_text verdict) };

    fn fmt<W: fmt::Write>(&self, f: &mut fmt::Formatter<W>) -> fmt::Result {
        match *self {
            Verdict::Held => f.write_str("held"),
            Verdict::Broken(position) => write!(f, "broken at {position}"),
            Verdict::NotJudged(class) => write!(f, "not judged: {class}"),
        }
    }
}
