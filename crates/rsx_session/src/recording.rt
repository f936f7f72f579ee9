//! A reader whose lines are recorded.

use crate::recorder::Recorder;
use rsx_script::{LineRefusal, MOST_BYTES, parse_line};
use rsx_tck::print_trace;
use rsx_types::NoMemory;
use std::alloc::Global;
use std::io;
use std::io::Read;

/// How far a recording has come.
#[derive(Clone, Copy, PartialEq, Eq)]
enum Progress {
    /// Each line so far was carried out.
    Open,
    /// A line can't be read, or the input ended.
    Ended,
    /// Memory was wanted.
    NoMemory,
}

/// A reader that hands on what another one gives, which is a script, and records what happens to its subscriptions. A line is
/// carried out as soon as it was read, up to the first one that can't be read.
#[derive(Drop)]
pub struct Recording<R> {
    reader: R,
    alloc: Global,
    recorder: Recorder,
    /// What was read of the line.
    line: Vec<u8>,
    progress: Progress,
}

impl<R> Recording<R> {
    /// Of which nothing was read so far.
    ///
    /// # Errors
    ///
    /// `NoMemory` where a growth was refused.
    pub fn new(alloc: Global, reader: R) -> Result<Recording<R>, NoMemory>
    where
        R: Drop,
    {
        let recorder = Recorder::new(alloc)?;
        Ok(Recording {
            reader,
            alloc,
            recorder,
            line: Vec::new(alloc),
            progress: Progress::Open,
        })
    }

    /// The reader whose bytes are handed on.
    pub fn reader(&self) -> &R {
        &self.reader
    }

    /// What was recorded, as a trace of format 2.
    ///
    /// # Errors
    ///
    /// `NoMemory` where a growth was refused, also while a line was carried out.
    pub fn trace(&self) -> Result<String, NoMemory> {
        match self.progress {
            Progress::Open | Progress::Ended => print_trace(self.alloc, self.recorder.events()),
            Progress::NoMemory => Err(NoMemory),
        }
    }

    /// Carries out the command of the line, and begins the next.
    fn end_line(&mut self) {
        self.progress = match parse_line(self.alloc, &self.line) {
            Ok(None) => Progress::Open,
            Ok(Some(command)) => match self.recorder.take_in(self.alloc, &command) {
                Ok(()) => Progress::Open,
                Err(NoMemory) => Progress::NoMemory,
            },
            Err(LineRefusal::NoMemory) => Progress::NoMemory,
            Err(_) => Progress::Ended,
        };
        self.line.clear();
    }

    /// Takes in a byte.
    fn take_in(&mut self, byte: u8) {
        if byte == b'\n' {
            self.end_line();
        } else if self.line.len() >= MOST_BYTES {
            self.progress = Progress::Ended;
        } else if self.line.push(byte).is_err() {
            self.progress = Progress::NoMemory;
        }
    }

    /// Takes in these bytes; none at the end of the input, which ends the last line.
    fn take_in_all(&mut self, bytes: &[u8]) {
        if bytes.is_empty() && self.progress == Progress::Open {
            self.end_line();
        }
        for byte in bytes {
            if self.progress == Progress::Open {
                self.take_in(*byte);
            }
        }
    }
}

impl<R: Read> Read for Recording<R> {
    fn read(&mut self, buf: &mut [u8]) -> io::Result<usize> {
        let count = self.reader.read(buf)?;
        self.take_in_all(&buf[..count]);
        Ok(count)
    }
}
