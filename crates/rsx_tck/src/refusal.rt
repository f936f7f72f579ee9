//! Why a text is no trace.

ghost use Rattle.std.specs.Prelude.{◌≡◌};
ghost use Rattle.rsx_tck.specs.declared.refusal.TraceRefusal.TheVariants.{NoMemory};

use std::alloc::{AllocError, AllocFailed};
use std::error::Error;
use std::fmt;

/// Why a trace couldn't be read.
#[derive(Clone, Copy, Debug, PartialEq, Eq)]
pub enum TraceRefusal {
    /// The text isn't in a format of traces: the line of its first wrong word and the word's column, both counted
    /// from 1, columns in bytes.
    BadTrace(u64, u64),
    /// A growth was refused.
    NoMemory,
}

/// `bad trace at line 2, column 6`, or `out of memory`.
impl fmt::Display for TraceRefusal {
    ghost use Rattle.std.specs.Prelude.{Some};
    ghost use Rattle.rsx_tck.specs.RefusalText.{refusal_text};

    ghost output = { λ refusal. Some (refusal_text refusal) };

    fn fmt<W: fmt::Write>(&self, f: &mut fmt::Formatter<W>) -> fmt::Result {
        match *self {
            TraceRefusal::BadTrace(line, column) => {
                write!(f, "bad trace at line {line}, column {column}")
            }
            TraceRefusal::NoMemory => f.write_str("out of memory"),
        }
    }
}

impl Error for TraceRefusal {}

impl From<AllocError> for TraceRefusal {
    ghost from_gives = { λ _ e. e ≡ NoMemory };

    fn from(_e: AllocError) -> TraceRefusal {
        TraceRefusal::NoMemory
    }
}

impl<T: Drop> From<AllocFailed<T>> for TraceRefusal {
    ghost from_gives = { λ _ e. e ≡ NoMemory };

    fn from(_e: AllocFailed<T>) -> TraceRefusal {
        TraceRefusal::NoMemory
    }
}
