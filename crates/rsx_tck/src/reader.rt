//! Reading a trace line by line, so that no more of it is kept than its events.

ghost use Rattle.std.specs.Prelude.{◌≡◌, ◌<◌, ◌+◌, ◌-◌, ◌^◌, ℕ, List, [], ◌∷◌, ◌++◌, length, IfOk, IfErr};
ghost use Rattle.rsx_tck.specs.Opening.{HasTaken, HasCome, IsWrongLast, NamesWrongLast};

use crate::event::Stamped;
use crate::line::{Line, Wrong, first_of, line_of};
use std::alloc::Global;

/// Where a reader stands after a line.
#[derive(Clone, Copy, Debug, PartialEq, Eq)]
pub enum Progress {
    /// In the trace: its `end` hasn't come.
    Open,
    /// Behind the line `end`: the trace is whole.
    Ended,
}

/// Why a line of a trace couldn't be read.
#[derive(Clone, Copy, Debug, PartialEq, Eq)]
pub enum BadLine {
    /// The line's first wrong word stands at this column, counted in bytes from 1.
    At(u64),
    /// A growth was refused.
    NoMemory,
}

/// A trace of either format that is read line by line: its events so far.
#[derive(Drop)]
pub struct TraceReader {
    /// Whether each line has the number of a worker, as in format 2.
    stamped: bool,
    events: Vec<Stamped>,
}

/// The column of a line's wrong word.
fn column_of(line: &[u8], wrong: Wrong) -> u64
    requires { length line.now < 2 ^ 64 - 1 }
    ensures { result ≡ length line.now - wrong.left + 1 }
{
    line.len().saturating_sub(wrong.left) as u64 + 1
}

impl TraceReader {
    /// Begins a trace with its first line, which stands without its newline.
    ///
    /// # Errors
    ///
    /// The column of the line's first wrong word, where it isn't `trace 1` or `trace 2`.
    pub fn new(alloc: Global, line: &[u8]) -> Result<TraceReader, u64>
        requires { length line.now < 2 ^ 64 - 1 }
        ensures taken { IfOk result (λ reader. HasTaken reader (line.now ∷ [])) }
        ensures place { IfErr result (λ column. IsWrongLast (line.now ∷ []) column) }
    {
        match first_of(line) {
            Ok(stamped) => Ok(TraceReader {
                stamped,
                events: Vec::new(alloc),
            }),
            Err(wrong) => Err(column_of(line, wrong)),
        }
    }

    /// Takes in the next line behind the first, which stands without its newline. After `Ended` no line is left to take in.
    ///
    /// # Errors
    ///
    /// `At` where no trace goes on so, with the column of the line's first wrong word; a missing word stands one byte
    /// past the line's end. `NoMemory` where a growth was refused, and only there. The events so far stay.
    pub fn take_in(&mut self, line: &[u8]) -> Result<Progress, BadLine>
        requires { length line.now < 2 ^ 64 - 1 }
        // After the lines so far, this is an event more or the end of a trace of these events.
        ensures taken { (parts : List (List ℕ)) → HasTaken self.old parts →
            IfOk result (λ progress. HasCome progress self.new (parts ++ line.now ∷ [])) }
        // After the lines so far, this line is wrong at just this column.
        ensures place { (parts : List (List ℕ)) → HasTaken self.old parts →
            IfErr result (λ bad. NamesWrongLast (parts ++ line.now ∷ []) bad) }
        ensures same { IfErr result (λ bad. (parts : List (List ℕ)) → HasTaken self.old parts → HasTaken self.new parts) }
    {
        match line_of(self.stamped, line) {
            Err(wrong) => Err(BadLine::At(column_of(line, wrong))),
            Ok(Line::End) => Ok(Progress::Ended),
            Ok(Line::Event(event)) => match self.events.push(event) {
                Ok(()) => Ok(Progress::Open),
                Err(_) => Err(BadLine::NoMemory),
            },
        }
    }

    /// The events of the lines so far.
    pub fn events(&self) -> &[Stamped]
        ensures { result.now ≡ self.now.events.items }
    {
        &self.events
    }
}
