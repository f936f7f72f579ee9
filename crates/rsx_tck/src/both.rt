//! Several rules in one pass.

ghost use Rattle.std.specs.Prelude.{◌≡◌, ◌||◌};
ghost use Rattle.rsx_tck.specs.Passes.{is_breach};

use crate::event::Stamped;
use crate::pass::{Effect, Pass};
use rsx_rules::rules;

/// Two rules in one pass: what breaks either breaks this.
#[derive(Drop)]
pub struct Both<A, B> {
    first: A,
    second: B,
}

/// A breach, where one of the two is a breach.
fn either(first: Effect, second: Effect) -> Effect
    ensures { is_breach result ≡ (is_breach first || is_breach second) }
{
    let (_, effect) = rules! { first, second;
        Effect::Breaks, _ => (), Effect::Breaks;
        _, effect => (), effect;
    };
    effect
}

impl<A: Pass, B: Pass> Pass for Both<A, B> {
    ghost keeps = { λ s t. A.keeps s t × B.keeps s t };

    ghost knows = { λ state s t. A.knows state.first s t × B.knows state.second s t };

    fn start() -> Both<A, B> {
        Both {
            first: A::start(),
            second: B::start(),
        }
    }

    fn step(&mut self, stamped: Stamped) -> Effect {
        let first = self.first.step(stamped);
        let second = self.second.step(stamped);
        either(first, second)
    }

    ghost kept_at_first = { λ s. (A.kept_at_first s, B.kept_at_first s) };

    ghost keeps_on = { λ s past e ne kept. (A.keeps_on s past e ne kept.0, B.keeps_on s past e ne kept.1) };

    ghost knows_on = { λ state s past e ne known. (A.knows_on state.first s past e ne known.0, B.knows_on state.second s past e ne known.1) };
}
