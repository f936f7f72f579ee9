//! A reader that keeps what it read last.

use std::alloc::Global;
use std::io;
use std::io::Read;

/// A reader that hands on what another one gives, and keeps the lines of which bytes came with the last read. Where there is no
/// memory for them, it keeps none from then on.
#[derive(Drop)]
pub struct Remembering<R> {
    reader: R,
    /// The kept lines, from the first byte of the first one on.
    kept: Vec<u8>,
    /// The number of the first one, from 1.
    first: u64,
    /// Whether there was memory for all of them.
    whole: bool,
}

impl<R> Remembering<R> {
    /// Of which nothing was read so far.
    pub fn new(alloc: Global, reader: R) -> Remembering<R> {
        Remembering {
            reader,
            kept: Vec::new(alloc),
            first: 1,
            whole: true,
        }
    }

    /// The line with this number, without its newline, where it is kept.
    pub fn line(&self, number: u64) -> Option<&[u8]> {
        if !self.whole {
            return None;
        }
        let behind = number.checked_sub(self.first)?;
        self.kept.split(|b| *b == b'\n').nth(behind as usize)
    }

    /// Keeps these bytes, and lets the lines go that ended before them.
    fn keep(&mut self, bytes: &[u8]) {
        let ended = match self.kept.iter().rposition(|b| *b == b'\n') {
            Some(place) => place + 1,
            None => 0,
        };
        let lines = self.kept[..ended].iter().filter(|b| **b == b'\n').count();
        self.first = self.first.saturating_add(lines as u64);
        self.kept.drain(..ended);
        if self.kept.extend_from_slice(bytes).is_err() {
            self.whole = false;
            self.kept.clear();
        }
    }
}

impl<R: Read> Read for Remembering<R> {
    fn read(&mut self, buf: &mut [u8]) -> io::Result<usize> {
        let count = self.reader.read(buf)?;
        if self.whole {
            self.keep(&buf[..count]);
        }
        Ok(count)
    }
}
