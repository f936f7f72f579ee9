//! Choices kept as runs.

ghost use Rattle.std.specs.Prelude.{◌≡◌, ◌≤◌, [], ◌∷◌, ◌++◌, true, OnOk, OnErr, IfOk, IsOk};
ghost use Rattle.rsx_values.specs.Record.{written, times, joins_last, room_of_last, added_to_last, IsRuns};

use rsx_types::{Choices, NoMemory};
use std::alloc::Global;
use std::marker::Model;

/// The same choice, so many times one after the other.
#[derive(Clone, Copy, Debug, PartialEq, Eq)]
pub struct Run {
    /// The number of the chosen input.
    pub input: u64,
    /// How many times it was chosen.
    pub count: u64,
}

/// The choices of one node, in their order, as runs. No count is 0, and two neighbours have different inputs unless the count
/// of the first is the greatest `u64`. Contracts see the list of the runs.
#[derive(Drop)]
pub struct Record {
    runs: Vec<Run>,
}

impl Model for Record {
    ghost use Rattle.std.specs.Prelude.{List};
    ghost use Rattle.rsx_values.specs.Record.{IsRuns};
    ghost use Rattle.rsx_values.specs.declared.record.Run.{Run};

    ghost Value = { List Run };

    ghost view = { λ r. r.runs.items };

    ghost invariant = { λ r. IsRuns r.runs.items };
}

impl Record {
    /// No choice. It takes no memory.
    pub fn new(alloc: Global) -> Record
        ensures { result ≡ [] }
    {
        Record {
            runs: Vec::new(alloc),
        }
    }

    /// The runs, in their order. It takes no memory.
    pub fn runs(&self) -> &[Run]
        ensures runs { result.now ≡ self.now }
        ensures apart { IsRuns result.now }
    {
        self.runs.as_slice()
    }

    /// Whether a choice of this input is one more of the last run, so that adding it takes no memory.
    #[tactic(auto, using(crate::proofs::Records::joining))]
    pub fn joins_last(&self, input: u64) -> bool
        ensures { result ≡ joins_last self.now input }
    {
        match self.runs.last() {
            Some(last) => last.input == input && last.count < u64::MAX,
            None => false,
        }
    }

    /// Adds a choice behind the others. Where it is one more of the last run it takes no memory.
    ///
    /// # Errors
    /// [`NoMemory`] where the growth for a new run was refused. Nothing has changed.
    #[tactic(auto, using(crate::proofs::Records::pushing))]
    pub fn push(&mut self, input: u64) -> Result<(), NoMemory>
        ensures ok { OnOk result (written self.new ≡ written self.old ++ input ∷ []) }
        ensures err { OnErr result (self.new ≡ self.old) }
        ensures memory { joins_last self.old input ≡ true → IsOk result }
    {
        if self.joins_last(input) {
            let at = self.runs.len() - 1;
            self.runs[at].count += 1;
            return Ok(());
        }
        self.runs.push(Run { input, count: 1 })?;
        Ok(())
    }

    /// How many choices of this input can be added as more of the last run, which takes no memory.
    #[tactic(auto, using(crate::proofs::LastRuns::last_room))]
    pub fn room_of_last(&self, input: u64) -> u64
        ensures { result ≡ room_of_last self.now input }
    {
        match self.runs.last() {
            Some(last) => {
                if last.input == input {
                    u64::MAX - last.count
                } else {
                    0
                }
            }
            None => 0,
        }
    }

    /// Adds so many choices of this input behind the others, each one more of the last run ([`Record::room_of_last`]).
    pub fn push_times(&mut self, input: u64, count: u64)
        requires { count ≤ room_of_last self.old input }
        ensures runs { self.new ≡ added_to_last self.old count }
        ensures choices { written self.new ≡ written self.old ++ times count input }
    {
        if count > 0 {
            let at = self.runs.len() - 1;
            self.runs[at].count += count;
        }
    }

    /// The choices one by one.
    ///
    /// # Errors
    /// [`NoMemory`] where a growth was refused.
    #[tactic(auto, using(crate::proofs::Records::run_next, crate::proofs::Records::all_runs))]
    pub fn choices(&self, alloc: Global) -> Result<Choices, NoMemory>
        ensures { IfOk result (λ c. c ≡ written self.now) }
    {
        let mut numbers = Vec::new(alloc);
        for run in self.runs.iter() {
            add_times(&mut numbers, run.count, run.input)?;
        }
        Ok(Choices::new(numbers))
    }
}

/// Adds so many of one number.
#[tactic(auto, using(crate::proofs::Records::one_time, crate::proofs::Records::no_times))]
fn add_times(numbers: &mut Vec<u64>, count: u64, number: u64) -> Result<(), NoMemory>
    ensures { OnOk result (numbers.new.items ≡ numbers.old.items ++ times count number) }
{
    for _ in 0..count {
        numbers.push(number)?;
    }
    Ok(())
}
