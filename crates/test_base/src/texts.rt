//! Traces as text, printed and read.

use rsx_tck::{TraceRefusal, parse_trace, print_trace};
use std::alloc::Global;
use std::test::Fail;

/// Texts of traces, and what is printed of the events that were read from each: each kind of cause and the numbers at their limits.
const PRINTED: [(&str, &str); 3] = [
    (
        "trace 1\nsubscribe 0\nerror 00 user 007\nrequest 0 -0\nrequest 0 -9223372036854775808\nend",
        "trace 2\n0 subscribe 0\n0 error 0 user 7\n0 request 0 0\n0 request 0 -9223372036854775808\nend\n",
    ),
    (
        "trace 1\nsubscribe 0\non-subscribe 0\nexit 0\ncomplete 0\nexit 0\ncomplete 0\nexit 0\nend\n",
        "trace 2\n0 subscribe 0\n0 on-subscribe 0\n0 exit 0\n0 complete 0\n0 exit 0\n0 complete 0\n0 exit 0\nend\n",
    ),
    (
        "trace 2\n015 on-subscribe 0\n03 next 4294967295\n3 error 10 user 7\n3 error 0 bad-request\n0 request 0 -3\n0 cancel-new 0\n1 cancel 2\nend\n",
        "trace 2\n15 on-subscribe 0\n3 next 4294967295\n3 error 10 user 7\n3 error 0 bad-request\n0 request 0 -3\n0 cancel-new 0\n1 cancel 2\nend\n",
    ),
];

/// What is printed of the events that are read from this text.
fn printed(alloc: Global, text: &str) -> Result<String, TraceRefusal> {
    let events = parse_trace(alloc, text.as_bytes())?;
    match print_trace(alloc, &events) {
        Ok(printed) => Ok(printed),
        Err(_) => Err(TraceRefusal::NoMemory),
    }
}

/// Where a growth is refused once, the answer is that and no wrong word, and the same call then gives its answer.
#[test]
fn traces_are_read_and_printed(rt: HostRuntime) -> Result<(), Fail> {
    for (text, want) in &PRINTED {
        let answer = match printed(rt.alloc(), text) {
            Err(TraceRefusal::NoMemory) => printed(rt.alloc(), text)?,
            answer => answer?,
        };
        assert_eq!(rt; answer.as_str(), *want);
    }
    Ok(())
}
