//! A chain of plain operators that is being built.

ghost use Rattle.std.specs.Prelude.{◌≡◌, [], Some};
ghost use Rattle.rsx.specs.Flow.{Appends, stages_of};
ghost use Rattle.rsx.specs.Built.{chain};
ghost use Rattle.rsx_types.specs.declared.stage.Stage.TheVariants.{Map, Filter, Take, Scan, Buffer, Distinct};

use crate::names::{FoldFn, KeyFn, MapFn, TestFn};
use rsx_types::{NoMemory, Stage};
use std::alloc::Global;

/// A chain of plain operators, the first one that items go through in front. Each lane of a `groupBy`, a `window` or a `flatMap` has
/// one of its own; there it may have 0 to 8 operators. Contracts name it by `chain`: the list of the operators, or
/// nothing where a growth was refused.
#[derive(Drop)]
pub struct Stages<T> {
    stages: Result<Vec<Stage<T>>, NoMemory>,
}

impl<T: Drop> Stages<T> {
    /// A chain of no operators. It takes no memory.
    pub fn new(alloc: Global) -> Stages<T>
        ensures { chain result ≡ Some [] }
    {
        Stages {
            stages: Ok(Vec::new(alloc)),
        }
    }

    /// The answer for each item, by `Ops::map`.
    pub fn map(self, f: MapFn) -> Stages<T>
        ensures { Appends (Map f.0) (chain self) (chain result) }
    {
        self.then(Stage::Map(f.0))
    }

    /// The items whose test is true, by `Ops::test`.
    pub fn filter(self, f: TestFn) -> Stages<T>
        ensures { Appends (Filter f.0) (chain self) (chain result) }
    {
        self.then(Stage::Filter(f.0))
    }

    /// The first items, as many as this, and then the completion: 0 to 1,000,000.
    pub fn take(self, items: u64) -> Stages<T>
        ensures { Appends (Take items) (chain self) (chain result) }
    {
        self.then(Stage::Take(items))
    }

    /// The seed, and then the accumulation after each item, by `Ops::fold`.
    pub fn scan(self, f: FoldFn, seed: T) -> Stages<T>
        ensures { Appends (Scan f.0 seed) (chain self) (chain result) }
    {
        self.then(Stage::Scan(f.0, seed))
    }

    /// Lists of so many items, by `Ops::list`: 1 to 1,024.
    pub fn buffer(self, size: u64) -> Stages<T>
        ensures { Appends (Buffer size) (chain self) (chain result) }
    {
        self.then(Stage::Buffer(size))
    }

    /// The first item of each key, by `Ops::key`.
    pub fn distinct(self, f: KeyFn) -> Stages<T>
        ensures { Appends (Distinct f.0) (chain self) (chain result) }
    {
        self.then(Stage::Distinct(f.0))
    }

    /// This operator behind the others.
    fn then(self, stage: Stage<T>) -> Stages<T>
        ensures { Appends stage (chain self) (chain result) }
    {
        Stages {
            stages: behind(self.stages, stage),
        }
    }

    /// The chain's operators.
    pub(crate) fn into_vec(self) -> Result<Vec<Stage<T>>, NoMemory>
        ensures { stages_of result ≡ chain self }
    {
        self.stages
    }
}

/// A list with this operator at its end.
fn behind<T: Drop>(
    stages: Result<Vec<Stage<T>>, NoMemory>,
    stage: Stage<T>,
) -> Result<Vec<Stage<T>>, NoMemory>
    ensures { Appends stage (stages_of stages) (stages_of result) }
{
    let mut stages = stages?;
    stages.push(stage)?;
    Ok(stages)
}
