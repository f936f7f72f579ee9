//! Says how far a run is that takes long.

use std::io;
use std::io::Read;
use std::rt::Clock;
use std::time::{Duration, Instant};

/// After how many seconds it is said how far a run is, and after how many more it is said again.
const SECONDS: u64 = 2;

/// A reader that hands on what another one gives. Before a read it says on standard error how many lines were read, where the run has
/// taken two seconds, and again after two more.
#[derive(Drop)]
pub struct Watching<'a, E, R> {
    rt: &'a E,
    reader: R,
    /// How many lines were read.
    lines: u64,
    /// Since when nothing was said. None where nothing is to be said.
    since: Option<Instant>,
}

impl<'a, E: Eprint + Clock, R> Watching<'a, E, R> {
    /// Of a run that begins now. Where `speaks` is false, nothing is said.
    pub fn new(rt: &'a E, reader: R, speaks: bool) -> Watching<'a, E, R> {
        Watching {
            rt,
            reader,
            lines: 0,
            since: match speaks {
                true => Instant::now(rt).ok(),
                false => None,
            },
        }
    }

    /// Says how far the run is, where it is time to.
    fn tell(&mut self) {
        let Some(since) = &self.since else {
            return;
        };
        match since.elapsed(self.rt) {
            Ok(passed) => {
                if passed < Duration::from_secs(SECONDS) {
                    return;
                }
            }
            Err(_) => return,
        }
        let lines = self.lines;
        let _ = eprintln!(self.rt; "rsx: {lines} lines so far");
        self.since = Instant::now(self.rt).ok();
    }
}

impl<E: Eprint + Clock, R: Read> Read for Watching<'_, E, R> {
    fn read(&mut self, buf: &mut [u8]) -> io::Result<usize> {
        self.tell();
        let count = self.reader.read(buf)?;
        let ended = buf[..count].iter().filter(|b| **b == b'\n').count();
        self.lines = self.lines.saturating_add(ended as u64);
        Ok(count)
    }
}
