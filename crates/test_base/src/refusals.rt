//! Texts that are no traces.

use rsx_tck::{TraceRefusal, parse_trace};

/// Texts that are no traces, and the line and the column of the first wrong word.
const REFUSED: [(&str, u64, u64); 42] = [
    ("", 1, 1),
    ("\n", 1, 1),
    ("trace", 1, 6),
    ("trace ", 1, 6),
    ("trace 3\nend\n", 1, 7),
    ("trace 01\nend\n", 1, 7),
    ("Trace 1\nend\n", 1, 1),
    (" trace 1\nend\n", 1, 1),
    ("trace  1\nend\n", 1, 7),
    ("trace 1 \nend\n", 1, 8),
    ("trace 1 x\nend\n", 1, 9),
    ("trace 1", 2, 1),
    ("trace 1\n", 2, 1),
    ("trace 1\nsubscribe 0\nnext 0\n", 4, 1),
    ("trace 1\nsubscribe 0\nnext 0", 4, 1),
    ("trace 1\n\nend\n", 2, 1),
    ("trace 1\nnext\nend\n", 2, 5),
    ("trace 1\nnext \nend\n", 2, 5),
    ("trace 1\nnext 0 \nend\n", 2, 7),
    ("trace 1\nnext  0\nend\n", 2, 6),
    ("trace 1\n next 0\nend\n", 2, 1),
    ("trace 1\nnext 0 1\nend\n", 2, 8),
    ("trace 1\nnext 4294967296\nend\n", 2, 6),
    ("trace 1\nnext -1\nend\n", 2, 6),
    ("trace 1\nnext +1\nend\n", 2, 6),
    ("trace 1\nnext\t0\nend\n", 2, 1),
    ("trace 1\nnext 0\r\nend\n", 2, 6),
    ("trace 1\nbegin 0\nend\n", 2, 1),
    ("trace 1\nrequest 0\nend\n", 2, 10),
    ("trace 1\nrequest 0 -\nend\n", 2, 11),
    ("trace 1\nrequest 0 9223372036854775808\nend\n", 2, 11),
    ("trace 1\nrequest 0 -9223372036854775809\nend\n", 2, 11),
    ("trace 1\nerror 0\nend\n", 2, 8),
    ("trace 1\nerror 0 user\nend\n", 2, 13),
    ("trace 1\nerror 0 bad-request 1\nend\n", 2, 21),
    ("trace 1\nend \n", 2, 4),
    ("trace 1\nend x\n", 2, 5),
    ("trace 1\nend\n\n", 3, 1),
    ("trace 1\nend\nnext 0\n", 3, 1),
    ("trace 2\n16 next 0\nend\n", 2, 1),
    ("trace 2\nnext 0\nend\n", 2, 1),
    ("trace 2\n0 end\n", 2, 3),
];

#[test]
fn refuses_at_the_first_wrong_word(rt: HostRuntime) {
    for (text, line, column) in &REFUSED {
        let refusal = parse_trace(rt.alloc(), text.as_bytes()).err();
        let place = TraceRefusal::BadTrace(*line, *column);
        assert_eq!(rt; refusal, Some(place), "{text:?}");
    }
}
