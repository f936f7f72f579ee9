//! The lines of a report on several runs.

ghost use Rattle.std.specs.Prelude.{◌≡◌};
ghost use Rattle.rsx_verify.specs.Reports.{AreLines, IsLine, first_broken};

use crate::line::Line;
use rsx_tck::{Rule, Stamped, Verdict, judge};

/// The first of four verdicts by which a rule is broken, with its number; 0 and the first where none is.
fn first_broken(first: Verdict, second: Verdict, third: Verdict, fourth: Verdict) -> (u32, Verdict)
    ensures { result ≡ first_broken first second third fourth }
{
    match (first, second, third, fourth) {
        (Verdict::Broken(_), _, _, _) => (1, first),
        (_, Verdict::Broken(_), _, _) => (2, second),
        (_, _, Verdict::Broken(_), _) => (3, third),
        (_, _, _, Verdict::Broken(_)) => (4, fourth),
        _ => (0, first),
    }
}

/// What four traces say of the rules, in their order.
pub fn judge_runs(
    first: &[Stamped],
    second: &[Stamped],
    third: &[Stamped],
    fourth: &[Stamped],
) -> [Line; 43]
    ensures { AreLines (IsLine first.now second.now third.now fourth.now) result }
{
    let rules = Rule::all();
    let mut lines = [Line {
        rule: Rule::Rule1_1,
        run: 0,
        verdict: Verdict::Held,
    }; 43];
    for position in 0..43 {
        let rule = rules[position];
        let (run, verdict) = first_broken(
            judge(rule, first),
            judge(rule, second),
            judge(rule, third),
            judge(rule, fourth),
        );
        lines[position] = Line { rule, run, verdict };
    }
    lines
}
