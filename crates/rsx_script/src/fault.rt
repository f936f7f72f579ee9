//! What ends a run before its input does.

ghost use Rattle.std.specs.Prelude.{◌≡◌, IfOk, string_bytes};
ghost use Rattle.rsx_script.specs.Fault.{fault_text, status_of};
ghost use Rattle.rsx_script.specs.declared.fault.AppFault.TheVariants.{Memory};

use crate::LineRefusal;
use rsx_types::NoMemory;
use std::alloc::{AllocError, Global};
use std::error::Error;
use std::fmt;

/// Why a run ended before its input did.
#[derive(Clone, Copy, Debug, PartialEq, Eq)]
pub enum AppFault {
    /// The line with this number, counted from 1, can't be read.
    Line(u64, LineRefusal),
    /// A read or a write failed, or the input took more than 16,777,216 reads.
    Io,
    /// A growth was refused.
    Memory,
}

impl AppFault {
    /// The exit status: 1 for a line, 3 for a read or a write, 4 for want of memory.
    pub fn status(self) -> u8
        ensures { result ≡ status_of self }
    {
        match self {
            AppFault::Line(_, _) => 1,
            AppFault::Io => 3,
            AppFault::Memory => 4,
        }
    }

    /// The line for standard error, without its newline.
    ///
    /// # Errors
    ///
    /// `NoMemory` where a growth was refused.
    pub fn text(self, alloc: Global) -> Result<String, NoMemory>
        ensures { IfOk result (λ text. string_bytes text ≡ fault_text self) }
    {
        Ok(format!(in alloc; "{self}")?)
    }
}

/// The line for standard error, as `rsx: line 3: syntax at column 11`.
impl fmt::Display for AppFault {
    ghost use Rattle.std.specs.Prelude.{Some};

    ghost output = { λ fault. Some (fault_text fault) };

    fn fmt<W: fmt::Write>(&self, f: &mut fmt::Formatter<W>) -> fmt::Result {
        match *self {
            AppFault::Line(number, refusal) => write!(f, "rsx: line {number}: {refusal}"),
            AppFault::Io => f.write_str("rsx: read or write fault"),
            AppFault::Memory => f.write_str("rsx: out of memory"),
        }
    }
}

impl Error for AppFault {}

impl From<AllocError> for AppFault {
    ghost from_gives = { λ _ fault. fault ≡ Memory };

    fn from(_e: AllocError) -> AppFault {
        AppFault::Memory
    }
}

impl From<NoMemory> for AppFault {
    ghost from_gives = { λ _ fault. fault ≡ Memory };

    fn from(_e: NoMemory) -> AppFault {
        AppFault::Memory
    }
}
