//! Answers that explain, of traces and expressions.

use rsx_modes::{Style, judge_input};
use rsx_script::{AppFault, LineRefusal};

/// A trace that breaks a rule, an expression, one that isn't run, a blank line, and a trace that breaks none; then a line that
/// can't be read.
const EXPLAINED: &str =
    "trace 1\nsubscribe 0\non-subscribe 0\nexit 0\ncomplete 0\nexit 0\ncomplete 0\nend\n(range 1 5)\n(hub 0)\n\ntrace 2\nend\nnext\n";

const ANSWERS: &str = "trace at line 1: 11 rules held, 2 broken
1.7 broken at 5, line 7: complete 0 on worker 0
    After `onError` or `onComplete` no signal comes.
4.1 broken at 5, line 7: complete 0 on worker 0
    A processor obeys the rules of both sides.
expression at line 9: 13 rules held, 0 broken
expression at line 10: refused M1, it reads a hub, and none is there
trace at line 12: 13 rules held, 0 broken
";

#[test]
fn answers_explain(rt: HostRuntime) {
    let mut input = EXPLAINED.as_bytes();
    let mut written = Vec::new(rt.alloc());
    let ended = judge_input(rt.alloc(), Style::Explained, &mut input, &mut written);
    assert_eq!(rt; ended, Err(AppFault::Line(14, LineRefusal::Syntax(1))));
    assert_eq!(rt; written.as_slice(), ANSWERS.as_bytes());
}
