//! Choices kept as at most two runs, for which no call takes memory.

ghost use Rattle.std.specs.Prelude.{◌≡◌, ◌∷◌, ◌++◌, [], true, IfOk, OnOk};
ghost use Rattle.rsx_values.specs.Record.{times, written};
ghost use Rattle.rsx_delayed.specs.TwoRuns.{fits, with_choice, without_choice};

use rsx_types::{Choices, NoMemory};
use rsx_values::Run;
use std::alloc::Global;
use std::marker::Model;

/// The choices of a node that makes one choice any number of times, and then another once at most. No count is 0. Contracts see the
/// list of the runs.
///
/// The memory for them is taken when it is made, and no later call but [`TwoRuns::choices`] takes any.
#[derive(Drop)]
pub struct TwoRuns {
    runs: Vec<Run>,
}

impl Model for TwoRuns {
    ghost use Rattle.std.specs.Prelude.{◌≤◌, List, vec_capacity};
    ghost use Rattle.rsx_values.specs.declared.record.Run.{Run};
    ghost use Rattle.rsx_delayed.specs.TwoRuns.{AreFilled};

    ghost Value = { List Run };

    ghost view = { λ r. r.runs.items };

    ghost invariant = { λ r. (2 ≤ vec_capacity r.runs) × AreFilled r.runs.items };
}

impl TwoRuns {
    /// No choice.
    ///
    /// # Errors
    /// [`NoMemory`] where the growth for the runs was refused.
    pub fn new(alloc: Global) -> Result<TwoRuns, NoMemory>
        ensures { IfOk result (λ r. r ≡ []) }
    {
        let runs = Vec::with_capacity(alloc, 2)?;
        Ok(TwoRuns { runs })
    }

    /// The runs, in their order. It takes no memory.
    pub fn runs(&self) -> &[Run]
        ensures { result.now ≡ self.now }
    {
        self.runs.as_slice()
    }

    /// Whether a choice of this input may be added ([`TwoRuns::push`]): it is the first, or one more of the one run that there is, as
    /// long as the count is less than the greatest `u64`, or the first of another input.
    pub fn fits(&self, input: u64) -> bool
        ensures { result ≡ fits self.now input }
    {
        match self.runs.as_slice() {
            [] => true,
            [run] => run.input != input || run.count < u64::MAX,
            _ => false,
        }
    }

    /// Adds a choice behind the others. It fits there ([`TwoRuns::fits`]).
    pub fn push(&mut self, input: u64)
        requires { fits self.old input ≡ true }
        ensures runs { self.new ≡ with_choice self.old input }
        ensures written { written self.new ≡ written self.old ++ input ∷ [] }
        ensures last { without_choice self.new ≡ self.old }
    {
        if self.runs.len() == 1 && self.runs[0].input == input {
            self.runs[0].count += 1;
            return;
        }
        self.runs.push_reserved(Run { input, count: 1 });
    }

    /// Takes the last choice away, if there is one. It takes no memory.
    pub fn pop(&mut self)
        ensures { self.new ≡ without_choice self.old }
    {
        if let Some(run) = self.runs.pop() {
            if run.count > 1 {
                self.runs.push_reserved(Run {
                    input: run.input,
                    count: run.count - 1,
                });
            }
        }
    }

    /// The choices one by one.
    ///
    /// # Errors
    /// [`NoMemory`] where a growth was refused.
    #[tactic(auto, using(rsx_values::proofs::Records::run_next, rsx_values::proofs::Records::all_runs))]
    pub fn choices(&self, alloc: Global) -> Result<Choices, NoMemory>
        ensures { IfOk result (λ c. c ≡ written self.now) }
    {
        let mut numbers = Vec::new(alloc);
        for run in self.runs.iter() {
            add_times(&mut numbers, run.count, run.input)?;
        }
        Ok(Choices::new(numbers))
    }
}

/// Adds so many of one number.
#[tactic(auto, using(rsx_values::proofs::Records::one_time, rsx_values::proofs::Records::no_times))]
fn add_times(numbers: &mut Vec<u64>, count: u64, number: u64) -> Result<(), NoMemory>
    ensures { OnOk result (numbers.new.items ≡ numbers.old.items ++ times count number) }
{
    for _ in 0..count {
        numbers.push(number)?;
    }
    Ok(())
}
