//! Whole scripts and traces over readers and writers, and the faults that end them.

use crate::driven::{Full, Limits, NONE, driven};
use rsx_script::{AppFault, LineRefusal, Mode};
use std::alloc::Global;
use std::test::Fail;

/// The script or the traces that each read and each write fails of in turn.
const SCRIPT: &str = "subscribe (items 1)\nrequest 0 1\npump 9\nshow 0\n";

const TRACES: &str = "trace 1\nend\ntrace 2\nend\n";

/// How a run ends: at its end, or at this line, and there at this column or since the line is too long.
#[derive(Clone, Copy)]
enum End {
    Whole,
    At(u64, u64),
    TooLong(u64),
}

impl End {
    fn result(self) -> Result<(), AppFault> {
        match self {
            End::Whole => Ok(()),
            End::At(line, column) => Err(AppFault::Line(line, LineRefusal::Syntax(column))),
            End::TooLong(line) => Err(AppFault::Line(line, LineRefusal::TooLong)),
        }
    }
}

/// Texts, each so many times, one behind the other; how many lines their answers are, how these end, and how the run ends.
type Row = (&'static [(&'static str, u32)], usize, &'static str, End);

/// Blank lines have no answer, but they count; the last line needs no newline. A line of 4,096 bytes is read, and one of 4,097 is
/// not, even where it is blank. Then the deepest expression that a graph takes, one that is deeper, and the deepest that fits a
/// line. A graph has at most 64 hubs, a hub at most 64 readers, and a graph at most 256 subscriptions; where it has them, a bad
/// expression is refused for that first.
const SCRIPTS: [Row; 11] = [
    (&[], 0, "", End::Whole),
    (
        &[("\n   \nsubscribe (items)\n\nasked 0", 1)],
        2,
        "sub 0\nasked 0\n",
        End::Whole,
    ),
    (
        &[("subscribe (items 1)\n\n  \nshow 0\nshow x\nshow 0\n", 1)],
        2,
        "sub 0\nreceived | owed 1 complete\n",
        End::At(5, 6),
    ),
    (&[(" ", 4096)], 0, "", End::Whole),
    (&[(" ", 4097)], 0, "", End::TooLong(1)),
    (
        &[
            ("subscribe ", 1),
            ("(map inc ", 31),
            ("(items)", 1),
            (")", 31),
        ],
        1,
        "sub 0\n",
        End::Whole,
    ),
    (
        &[
            ("subscribe ", 1),
            ("(map inc ", 32),
            ("(items)", 1),
            (")", 32),
        ],
        1,
        "refused G6\n",
        End::Whole,
    ),
    (
        &[("subscribe ", 1), ("(map inc ", 453), ("(items)", 1)],
        0,
        "",
        End::At(1, 4095),
    ),
    (
        &[("hub multicast 1\n", 66)],
        66,
        "hub 63\nrefused G5\nrefused G5\n",
        End::Whole,
    ),
    (
        &[("hub multicast 1\n", 1), ("subscribe (hub 0)\n", 66)],
        67,
        "sub 63\nrefused G5\nrefused G5\n",
        End::Whole,
    ),
    (
        &[
            ("subscribe (items)\n", 257),
            ("subscribe (merge 0 (items))\n", 1),
        ],
        258,
        "sub 255\nrefused G5\nrefused G6\n",
        End::Whole,
    ),
];

/// A trace needs its first and its last line, and nothing else stands between two traces but expressions and blank lines. A line
/// of 4,096 bytes is read inside a trace, and one of 4,097 is not.
const JUDGED: [Row; 9] = [
    (&[("\n   \n", 1)], 0, "", End::Whole),
    (&[("trace 1\nend", 1)], 43, "", End::Whole),
    (
        &[("\ntrace 1\nend\n  \n\ntrace 2\nend\ntrace 1\nend\n", 1)],
        129,
        "",
        End::Whole,
    ),
    (
        &[("trace 1\nend\ntrace 1\n\nend\n", 1)],
        43,
        "",
        End::At(4, 1),
    ),
    (&[("trace 1\nend\n\ntrace 3\n", 1)], 43, "", End::At(4, 7)),
    (
        &[("trace 1\nend\n trace 1\nend\n", 1)],
        43,
        "",
        End::At(3, 1),
    ),
    (&[("trace 1\nend\n(range 1 5)\n", 1)], 86, "", End::Whole),
    (&[("trace 1\nnext ", 1), ("0", 4091)], 0, "", End::At(3, 1)),
    (
        &[("trace 1\nnext ", 1), ("0", 4092)],
        0,
        "",
        End::TooLong(2),
    ),
];

/// Texts, each so many times, one behind the other.
fn repeated(alloc: Global, parts: &[(&str, u32)]) -> Result<String, Fail> {
    let mut whole = String::new(alloc);
    for (part, times) in parts {
        for _ in 0..*times {
            whole.push_str(part)?;
        }
    }
    Ok(whole)
}

/// Whether the input of a row is answered as the row says.
fn is_answered(alloc: Global, mode: Mode, row: &Row) -> Result<bool, Fail> {
    let (parts, lines, last, end) = row;
    let input = repeated(alloc, parts)?;
    let (ended, writer) = driven(alloc, mode, input.as_bytes(), NONE);
    let is_right = writer.lines() == *lines && writer.taken.ends_with(last.as_bytes());
    Ok(is_right && ended == end.result())
}

#[test]
fn inputs(rt: HostRuntime) -> Result<(), Fail> {
    for row in &SCRIPTS {
        assert!(rt; is_answered(rt.alloc(), Mode::Run, row)?, "{}", row.2);
    }
    for row in &JUDGED {
        assert!(rt; is_answered(rt.alloc(), Mode::Tck, row)?, "{}", row.1);
    }
    Ok(())
}

/// An input that is read a byte at a time: how many bytes of it are read until a further answer is there, and how many lines one
/// answer has.
const READ: [(Mode, &str, &[u64], usize); 2] = [
    (Mode::Run, SCRIPT, &[20, 32, 39, 46], 1),
    (Mode::Tck, TRACES, &[12, 24], 43),
];

/// Whether what was written begins what is written where nothing fails.
fn begins(alloc: Global, mode: Mode, input: &str, writer: &Full) -> bool {
    let (_, whole) = driven(alloc, mode, input.as_bytes(), NONE);
    whole.taken.starts_with(writer.taken.as_slice())
}

/// How an input ends where the read after so many fails, and how many lines were written; nothing where what was written doesn't
/// begin the answers.
fn at_read(
    alloc: Global,
    mode: Mode,
    input: &str,
    reads: u64,
) -> Option<(Result<(), AppFault>, usize)> {
    let limits = Limits {
        read_size: 1,
        reads,
        ..NONE
    };
    let (ended, writer) = driven(alloc, mode, input.as_bytes(), limits);
    if begins(alloc, mode, input, &writer) {
        Some((ended, writer.lines()))
    } else {
        None
    }
}

/// Each read fails in turn, after whole lines or traces were answered. The last read says that the input ends.
#[test]
fn each_read_fails(rt: HostRuntime) {
    for (mode, input, answered, lines) in &READ {
        let last = input.len() as u64;
        for reads in 0..last.saturating_add(2) {
            let count = answered.iter().filter(|read| **read <= reads).count();
            let end = if reads > last {
                Ok(())
            } else {
                Err(AppFault::Io)
            };
            let came = at_read(rt.alloc(), *mode, input, reads);
            assert!(rt;
                came == Some((end, count.saturating_mul(*lines))),
                "{reads}"
            );
        }
    }
}

/// An input whose answers are written so many bytes at a time, and how many calls of the writer are tried and are needed.
const WRITTEN: [(Mode, &str, usize, u64, u64); 2] = [
    (Mode::Run, SCRIPT, 5, 12, 10),
    (Mode::Tck, TRACES, 400, 4, 1000),
];

/// How an input ends where the call of the writer after so many fails; nothing where what was written doesn't begin the answers.
fn at_write(
    alloc: Global,
    mode: Mode,
    input: &str,
    write_size: usize,
    writes: u64,
) -> Option<Result<(), AppFault>> {
    let limits = Limits {
        write_size,
        writes,
        ..NONE
    };
    let (ended, writer) = driven(alloc, mode, input.as_bytes(), limits);
    if begins(alloc, mode, input, &writer) {
        Some(ended)
    } else {
        None
    }
}

/// Each call of the writer fails in turn.
#[test]
fn each_write_fails(rt: HostRuntime) {
    for (mode, input, size, tried, needed) in &WRITTEN {
        for writes in 0..*tried {
            let end = if writes < *needed {
                Err(AppFault::Io)
            } else {
                Ok(())
            };
            let came = at_write(rt.alloc(), *mode, input, *size, writes);
            assert!(rt; came == Some(end), "{writes}");
        }
    }
}

/// A script of fifty lines, each with an answer of 35,025 bytes.
const GATHERED: [(&str, u32); 2] = [("subscribe (range 100000 5000)\n", 1), ("show 0\n", 50)];

/// Long answers to short lines are written before the next read, so that few of them wait.
#[test]
fn answers_do_not_gather(rt: HostRuntime) -> Result<(), Fail> {
    let script = repeated(rt.alloc(), &GATHERED)?;
    let (ended, writer) = driven(rt.alloc(), Mode::Run, script.as_bytes(), NONE);
    assert_eq!(rt; ended, Ok(()));
    assert_eq!(rt;
        (writer.taken.len(), writer.most),
        (6 + 50 * 35_025, 6 + 2 * 35_025)
    );
    Ok(())
}

/// How a script of so many newlines ends, each of which is a read.
fn end_of_newlines(alloc: Global, count: u32) -> Result<Result<(), AppFault>, Fail> {
    let limits = Limits {
        read_size: 1,
        ..NONE
    };
    let script = repeated(alloc, &[("\n", count)])?;
    Ok(driven(alloc, Mode::Run, script.as_bytes(), limits).0)
}

/// After 16,777,216 reads that gave bytes there is no further one.
#[test]
fn reads_end(rt: HostRuntime) -> Result<(), Fail> {
    assert_eq!(rt; end_of_newlines(rt.alloc(), 16_777_215)?, Ok(()));
    assert_eq!(rt; end_of_newlines(rt.alloc(), 16_777_216)?, Err(AppFault::Io));
    Ok(())
}

/// Where a growth is refused once, the run ends for want of memory, and the same input is then judged.
#[test]
fn want_of_memory(rt: HostRuntime) {
    let (mut ended, mut writer) = driven(rt.alloc(), Mode::Tck, TRACES.as_bytes(), NONE);
    if ended == Err(AppFault::Memory) {
        (ended, writer) = driven(rt.alloc(), Mode::Tck, TRACES.as_bytes(), NONE);
    }
    assert_eq!(rt; (ended, writer.lines()), (Ok(()), 86));
}
