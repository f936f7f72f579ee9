//! A reader and a writer that fail, and what a run over them comes to.

use rsx_modes::drive;
use rsx_script::{AppFault, Mode};
use std::alloc::Global;
use std::io;
use std::io::{Read, Write};

/// How much is read and written at a time, and how often.
#[derive(Clone, Copy)]
pub(crate) struct Limits {
    /// The most bytes of a read.
    pub(crate) read_size: usize,
    /// How many reads succeed.
    pub(crate) reads: u64,
    /// The most bytes of a write.
    pub(crate) write_size: usize,
    /// How many calls of the writer succeed.
    pub(crate) writes: u64,
}

/// All at once, and no failure.
pub(crate) const NONE: Limits = Limits {
    read_size: usize::MAX,
    reads: u64::MAX,
    write_size: usize::MAX,
    writes: u64::MAX,
};

/// A reader that gives some bytes at a time, and fails at a read.
#[derive(Drop)]
struct Slow<'a> {
    rest: &'a [u8],
    size: usize,
    left: u64,
}

impl Read for Slow<'_> {
    fn read(&mut self, buf: &mut [u8]) -> io::Result<usize> {
        if self.left == 0 {
            return Err(io::Error::from(io::ErrorKind::TimedOut));
        }
        self.left -= 1;
        let count = self.size.min(buf.len()).min(self.rest.len());
        let (now, rest) = self.rest.split_at(count);
        buf[..count].copy_from_slice(now);
        self.rest = rest;
        Ok(count)
    }
}

/// A writer that takes some bytes at a time, and fails at a call. It knows how many bytes came before a flush, at most.
#[derive(Drop)]
pub(crate) struct Full {
    /// What was written.
    pub(crate) taken: Vec<u8>,
    size: usize,
    left: u64,
    unflushed: usize,
    /// How many bytes waited for a flush, at most.
    pub(crate) most: usize,
}

impl Full {
    fn call(&mut self) -> io::Result<()> {
        if self.left == 0 {
            return Err(io::Error::from(io::ErrorKind::TimedOut));
        }
        self.left -= 1;
        Ok(())
    }

    /// How many lines were written.
    pub(crate) fn lines(&self) -> usize {
        self.taken.iter().filter(|byte| **byte == b'\n').count()
    }
}

impl Write for Full {
    fn write(&mut self, buf: &[u8]) -> io::Result<usize> {
        self.call()?;
        let count = self.size.min(buf.len());
        self.taken.extend_from_slice(&buf[..count])?;
        self.unflushed = self.unflushed.saturating_add(count);
        self.most = self.most.max(self.unflushed);
        Ok(count)
    }

    fn flush(&mut self) -> io::Result<()> {
        self.unflushed = 0;
        self.call()
    }
}

/// Runs the program in this mode over this input. How it ended, and what was written.
pub(crate) fn driven(
    alloc: Global,
    mode: Mode,
    input: &[u8],
    limits: Limits,
) -> (Result<(), AppFault>, Full) {
    let mut reader = Slow {
        rest: input,
        size: limits.read_size,
        left: limits.reads,
    };
    let mut writer = Full {
        taken: Vec::new(alloc),
        size: limits.write_size,
        left: limits.writes,
        unflushed: 0,
        most: 0,
    };
    let ended = drive(alloc, mode, &mut reader, &mut writer);
    (ended, writer)
}
