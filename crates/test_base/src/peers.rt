//! Peers that break a rule, each with the position where it is broken, and a report as a whole.

use rsx_tck::{Event, Rule, Stamped, Verdict, judge, parse_trace, report};
use rsx_types::Cause;
use std::alloc::{AllocError, Global};
use std::test::Fail;

// The events of subscriber 0, by a letter or two each.
const S: Event = Event::Subscribe(0);

const O: Event = Event::OnSubscribe(0);

const X: Event = Event::Exit(0);

const N: Event = Event::Next(0);

const C: Event = Event::Complete(0);

const E: Event = Event::Error(0, Cause::NonPositiveRequest);

const K: Event = Event::Cancel(0);

const W: Event = Event::CancelNew(0);

const Q0: Event = Event::Request(0, 0);

const Q1: Event = Event::Request(0, 1);

const Q2: Event = Event::Request(0, 2);

/// These events on worker 0.
fn trace_of(alloc: Global, events: &[Event]) -> Result<Vec<Stamped>, AllocError> {
    let mut trace = Vec::new(alloc);
    for event in events {
        trace.push(Stamped {
            worker: 0,
            event: *event,
        })?;
    }
    Ok(trace)
}

/// Peers that break one rule each: their events, the rule, and the position where it is broken.
const BROKEN: [(&[Event], Rule, u64); 12] = [
    (&[S, O, X, Q1, N, X, N, X], Rule::Rule1_1, 6),
    (&[S, O, X, Q2, N, N, X, X], Rule::Rule1_3, 5),
    (&[S, O, X, C, X, C, X], Rule::Rule1_7, 5),
    (&[S, Q1, N, X], Rule::Rule1_9, 2),
    (&[S, O, X, S], Rule::Rule1_10, 3),
    (&[S, O, X, N, X], Rule::Rule2_1, 3),
    (&[S, O, X, C, Q1, X], Rule::Rule2_3, 4),
    (&[S, O, X, O, X], Rule::Rule2_5, 4),
    (&[S, O, X, O, W, X], Rule::Rule2_12, 3),
    (&[S, O, X, Q1, K, Q1, N, X, N, X], Rule::Rule3_6, 8),
    (&[S, O, X, Q0, C, X], Rule::Rule3_9, 4),
    (&[S, O, X, E, X], Rule::Rule3_17, 3),
];

#[test]
fn broken_peers(rt: HostRuntime) -> Result<(), Fail> {
    for (events, rule, position) in &BROKEN {
        let trace = trace_of(rt.alloc(), events)?;
        assert_eq!(rt; judge(*rule, &trace), Verdict::Broken(*position), "{rule}");
    }
    Ok(())
}

/// The lines of a whole report, and a trace that breaks no rule.
#[test]
fn reports(rt: HostRuntime) -> Result<(), Fail> {
    let trace = trace_of(rt.alloc(), &[S, O, X, C, X, C, X, N, X])?;
    for (rule, verdict) in report(&trace) {
        let want = match rule {
            Rule::Rule1_7 | Rule::Rule4_1 => Verdict::Broken(5),
            Rule::Rule1_1 | Rule::Rule2_1 | Rule::Rule3_6 => Verdict::Broken(7),
            rule => match rule.class() {
                None => Verdict::Held,
                Some(class) => Verdict::NotJudged(class),
            },
        };
        assert_eq!(rt; verdict, want, "{rule}");
    }
    let trace = trace_of(rt.alloc(), &[S, O, X, Q2, N, X, Q1, N, X, N, X, C, X])?;
    for (rule, verdict) in report(&trace) {
        assert!(rt; !matches!(verdict, Verdict::Broken(_)), "{rule} {verdict}");
    }
    Ok(())
}

/// What only a text of format 2 can say: the workers of two signals, of an ending and a cancel, and of an exit that
/// another worker than the signal's made. Each comes with the same events on one worker.
const WORKERS: [(&str, Rule, Verdict); 5] = [
    (
        "trace 2\n0 subscribe 0\n0 on-subscribe 0\n0 exit 0\n0 request 0 2\n1 next 0\n2 exit 0\n2 next 0\nend\n",
        Rule::Rule1_3,
        Verdict::Broken(6),
    ),
    (
        "trace 1\nsubscribe 0\non-subscribe 0\nexit 0\nrequest 0 2\nnext 0\nexit 0\nnext 0\nend\n",
        Rule::Rule1_3,
        Verdict::Held,
    ),
    (
        "trace 2\n0 subscribe 0\n0 on-subscribe 0\n0 exit 0\n1 complete 0\n2 cancel 0\n1 exit 0\nend\n",
        Rule::Rule2_3,
        Verdict::Held,
    ),
    (
        "trace 1\nsubscribe 0\non-subscribe 0\nexit 0\ncomplete 0\ncancel 0\nexit 0\nend\n",
        Rule::Rule2_3,
        Verdict::Broken(4),
    ),
    (
        "trace 1\non-subscribe 7\nrequest 7 9223372036854775807\nrequest 7 9223372036854775807\non-subscribe 4294967295\nexit 7\nexit 4294967295\nnext 7\nnext 4294967295\nend\n",
        Rule::Rule1_1,
        Verdict::Broken(7),
    ),
];

#[test]
fn signals_on_several_workers(rt: HostRuntime) -> Result<(), Fail> {
    for (text, rule, want) in &WORKERS {
        let trace = parse_trace(rt.alloc(), text.as_bytes())?;
        assert_eq!(rt; judge(*rule, &trace), *want, "{text}");
    }
    Ok(())
}
