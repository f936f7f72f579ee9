//! What each rule is for, in a sentence.

ghost use Rattle.std.specs.Prelude.{◌≡◌};

use crate::rule::Rule;

impl Rule {
    ghost use Rattle.rsx_tck.specs.Purpose.{sentence_text};

    /// What the rule is for, as a sentence. `docs/CONFORMANCE.md` has the same words.
    pub fn sentence(self) -> &'static str
        ensures { result.now ≡ sentence_text self }
    {
        match self {
            Rule::Rule1_1 => "No subscriber gets more items than it requested.",
            Rule::Rule1_2 => "A publisher may send fewer items than requested, and end.",
            Rule::Rule1_3 => "The signals to one subscriber come one after the other.",
            Rule::Rule1_4 => "A publisher that fails says so by `onError`.",
            Rule::Rule1_5 => "A publisher that has sent all it has says so by `onComplete`.",
            Rule::Rule1_6 => "With `onError` or `onComplete` the subscription is over.",
            Rule::Rule1_7 => "After `onError` or `onComplete` no signal comes.",
            Rule::Rule1_8 => "After a cancel the signals stop at some time.",
            Rule::Rule1_9 => "`onSubscribe` comes first, so the subscriber can request.",
            Rule::Rule1_10 => "One subscriber is handed to `subscribe` once.",
            Rule::Rule1_11 => {
                "A publisher may serve several subscribers, each on its own or all alike."
            }
            Rule::Rule2_1 => "A subscriber gets items only once it asked for some.",
            Rule::Rule2_2 => {
                "A slow subscriber works elsewhere, so that it doesn't hold up the publisher."
            }
            Rule::Rule2_3 => {
                "`onComplete` and `onError` call nothing of the subscription, which keeps the two sides out of a race."
            }
            Rule::Rule2_4 => "After an ending the subscriber takes the subscription as cancelled.",
            Rule::Rule2_5 => "A subscriber with a subscription in use cancels a further one.",
            Rule::Rule2_6 => "A subscriber cancels a subscription that it no longer needs.",
            Rule::Rule2_7 => "A subscriber's calls of `request` and `cancel` don't overlap.",
            Rule::Rule2_8 => "Items that were requested may still come after a cancel.",
            Rule::Rule2_9 => "`onComplete` may come with or without a request.",
            Rule::Rule2_10 => "`onError` may come with or without a request.",
            Rule::Rule2_11 => "A subscriber works on a signal only after it has received it whole.",
            Rule::Rule2_12 => "`onSubscribe` is called once for one subscriber.",
            Rule::Rule2_13 => "The methods of a subscriber return normally.",
            Rule::Rule3_1 => "`request` and `cancel` are called where the subscriber runs.",
            Rule::Rule3_2 => "`request` may be called inside `onNext` and `onSubscribe`.",
            Rule::Rule3_3 => "Calls of `request` and `onNext` inside one another go only so deep.",
            Rule::Rule3_4 => "`request` returns soon.",
            Rule::Rule3_5 => "`cancel` returns soon, and may be called again, by any thread.",
            Rule::Rule3_6 => "A request after a cancel asks for nothing.",
            Rule::Rule3_7 => "A cancel after a cancel does nothing.",
            Rule::Rule3_8 => "A request adds to what was requested before.",
            Rule::Rule3_9 => {
                "A request of 0 or less is answered by `onError`, with the cause that says so."
            }
            Rule::Rule3_10 => "`request` may call `onNext` before it returns.",
            Rule::Rule3_11 => "`request` may call `onComplete` or `onError` before it returns.",
            Rule::Rule3_12 => "After a cancel the publisher stops signalling at some time.",
            Rule::Rule3_13 => {
                "After a cancel the publisher lets go of the subscriber at some time."
            }
            Rule::Rule3_14 => "A cancel may shut the publisher down where nobody else listens.",
            Rule::Rule3_15 => "`cancel` returns normally.",
            Rule::Rule3_16 => "`request` returns normally.",
            Rule::Rule3_17 => {
                "Requests of up to 2^63-1 in all are served, and aren't taken for bad ones."
            }
            Rule::Rule4_1 => "A processor obeys the rules of both sides.",
            Rule::Rule4_2 => "A processor passes an error on at once, or recovers from it.",
        }
    }
}
