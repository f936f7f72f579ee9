//! Scripts whose subscriptions are recorded, and what the judge says of the traces.

use rsx_session::Recording;
use rsx_tck::{Verdict, parse_trace, report};
use std::alloc::Global;
use std::io;
use std::io::Read;
use std::test::Fail;

/// A script with a worker, a bad request, a refused command, and a line that can't be read.
const SCRIPT: &str =
    "subscribe (publishOn 1 4 (range 1 3))\nsubscribe (hub 0)\nrequest 0 1\npump 9\n\nshow 0\nrequest 0 0\ncancel 1\nsubscribe (items)\npump 9\nshow\nsubscribe (items)\n";

const TRACE: &str = "trace 2
0 subscribe 0
0 on-subscribe 0
0 exit 0
0 request 0 1
1 next 0
1 exit 0
0 request 0 0
0 error 0 bad-request
0 exit 0
0 subscribe 1
0 on-subscribe 1
0 exit 1
0 complete 1
0 exit 1
end
";

/// Scripts of which no trace breaks a rule.
const SCRIPTS: [&str; 3] = [
    "hub replay 2 2\nsubscribe (hub 0)\nsubscribe (map double (hub 0))\nrequest 0 9\nrequest 1 1\nemit 0 1\nemit 0 2\npump 100\nemit 0 3\nemit 0 4\npump 100\ncancel 1\nrequest 1 4\nfail 0 7\npump 100\nrequest 0 1\ncancel 0\n",
    "hub multicast 4\nfeed replay 1 2 (map double (hub 0))\nsubscribe (hub 1)\nsubscribe (buffer 2 (hub 1))\nrequest 0 9\nrequest 1 1\nemit 0 1\nemit 0 2\nemit 0 3\npump 100\ncomplete 0\nrequest 1 -4\npump 100",
    "subscribe (merge 4 (publishOn 3 2 (range 1 9)) (map inc (items 1 9223372036854775807)))\nrequest 0 9223372036854775807\npump 4\npick 0 0 0\npump 65540\nrequest 0 1\n",
];

/// What is recorded of a script that is read so many bytes at a time.
fn trace_of(alloc: Global, script: &str) -> Result<String, Fail> {
    let mut recording = Recording::new(alloc, script.as_bytes())?;
    let mut bytes = [0; 7];
    for _ in 0..u64::MAX {
        let count: io::Result<usize> = recording.read(&mut bytes);
        if count? == 0 {
            break;
        }
    }
    Ok(recording.trace()?)
}

#[test]
fn a_script_is_recorded(rt: HostRuntime) -> Result<(), Fail> {
    let trace = trace_of(rt.alloc(), SCRIPT)?;
    assert_eq!(rt; trace.as_str(), TRACE);
    Ok(())
}

#[test]
fn recorded_scripts_keep_the_rules(rt: HostRuntime) -> Result<(), Fail> {
    for script in &SCRIPTS {
        let trace = trace_of(rt.alloc(), script)?;
        let events = parse_trace(rt.alloc(), trace.as_bytes())?;
        assert!(rt; events.len() > 10, "{trace}");
        for (rule, verdict) in report(&events) {
            assert!(rt; !matches!(verdict, Verdict::Broken(_)), "{rule} {verdict}");
        }
    }
    Ok(())
}
