//! An expression that is being built.

ghost use Rattle.std.specs.Prelude.{◌≡◌, [], Some, None, MatchResult};
ghost use Rattle.rsx.specs.declared.stages.Stages.{Stages as StagesSpec};
ghost use Rattle.rsx_types.specs.declared.stage.Stage.TheVariants.{Map, Filter, Take, Scan, Buffer, Distinct};
ghost use Rattle.rsx.specs.Built.{built, chain};
ghost use Rattle.rsx.specs.Flow.{IsBoxed, Makes, both, boxed_of, made_of, stages_of, plain as over_plain, group as over_group, window as over_window, flat as over_flat, flat_delay as over_flat_delay, on as over_on, on_eager as over_on_eager};

use crate::names::{Concurrency, ExpandFn, FoldFn, KeyFn, MapFn, Prefetch, TestFn, Worker};
use crate::stages::Stages;
use rsx_model::Expr;
use rsx_types::{NoMemory, Stage};
use std::alloc::Global;

/// An expression that is being built. Contracts name it by `built`: the expression, or nothing where a growth was refused.
#[derive(Drop)]
pub struct Flux<T> {
    alloc: Global,
    expr: Result<Expr<T>, NoMemory>,
}

impl<T: Drop> Flux<T> {
    /// What was built, or that a growth was refused.
    pub(crate) fn new(alloc: Global, expr: Result<Expr<T>, NoMemory>) -> Flux<T>
        ensures { built result ≡ made_of expr }
    {
        Flux { alloc, expr }
    }

    /// The expression.
    ///
    /// # Errors
    /// [`NoMemory`] exactly where a growth was refused while it was built.
    pub fn build(self) -> Result<Expr<T>, NoMemory>
        ensures { MatchResult result (λ e. built self ≡ Some e) (λ _. built self ≡ None) }
    {
        self.expr
    }

    /// The answer for each item, by `Ops::map`.
    pub fn map(self, f: MapFn) -> Flux<T>
        ensures { Makes (over_plain (Map f.0)) (built self) (built result) }
    {
        self.plain(Stage::Map(f.0))
    }

    /// The items whose test is true, by `Ops::test`.
    pub fn filter(self, f: TestFn) -> Flux<T>
        ensures { Makes (over_plain (Filter f.0)) (built self) (built result) }
    {
        self.plain(Stage::Filter(f.0))
    }

    /// The first items, as many as this, and then the completion: 0 to 1,000,000.
    pub fn take(self, items: u64) -> Flux<T>
        ensures { Makes (over_plain (Take items)) (built self) (built result) }
    {
        self.plain(Stage::Take(items))
    }

    /// The seed, and then the accumulation after each item, by `Ops::fold`.
    pub fn scan(self, f: FoldFn, seed: T) -> Flux<T>
        ensures { Makes (over_plain (Scan f.0 seed)) (built self) (built result) }
    {
        self.plain(Stage::Scan(f.0, seed))
    }

    /// Lists of so many items, by `Ops::list`: 1 to 1,024. A shorter last list comes out at the completion alone.
    pub fn buffer(self, size: u64) -> Flux<T>
        ensures { Makes (over_plain (Buffer size)) (built self) (built result) }
    {
        self.plain(Stage::Buffer(size))
    }

    /// The first item of each key, by `Ops::key`.
    pub fn distinct(self, f: KeyFn) -> Flux<T>
        ensures { Makes (over_plain (Distinct f.0)) (built self) (built result) }
    {
        self.plain(Stage::Distinct(f.0))
    }

    /// The items by key, by `Ops::key`: those of a key go through a chain of plain operators of their own, which `lane` makes of the
    /// empty one, and each that comes out is tagged with its key.
    pub fn group_by<F: FnOnce(Stages<T>) -> Stages<T>>(self, f: KeyFn, lane: F) -> Flux<T>
        requires { F.IsAlwaysCallable lane }
        ensures { (first lanes : StagesSpec T) × (chain first ≡ Some []) × F.post lane first lanes × Makes (λ p. over_group f.0 p.1 p.0) (both (built self) (chain lanes)) (built result) }
    {
        let alloc = self.alloc;
        let stages = lane(Stages::new(alloc)).into_vec();
        Flux::new(alloc, group_of(self.boxed(), f.0, stages))
    }

    /// The items in windows of so many, 1 to 1,024, one behind the other: each goes through a chain of plain operators of its own, which
    /// `lane` makes of the empty one.
    pub fn window<F: FnOnce(Stages<T>) -> Stages<T>>(self, size: u64, lane: F) -> Flux<T>
        requires { F.IsAlwaysCallable lane }
        ensures { (first lanes : StagesSpec T) × (chain first ≡ Some []) × F.post lane first lanes × Makes (λ p. over_window size p.1 p.0) (both (built self) (chain lanes)) (built result) }
    {
        let alloc = self.alloc;
        let stages = lane(Stages::new(alloc)).into_vec();
        Flux::new(alloc, window_of(self.boxed(), size, stages))
    }

    /// The lists that `Ops::expand` makes of the items, so many at a time: each goes through a chain of plain operators of its own, which
    /// `lane` makes of the empty one.
    pub fn flat_map<F: FnOnce(Stages<T>) -> Stages<T>>(
        self,
        f: ExpandFn,
        concurrency: Concurrency,
        lane: F,
    ) -> Flux<T>
        requires { F.IsAlwaysCallable lane }
        ensures { (first lanes : StagesSpec T) × (chain first ≡ Some []) × F.post lane first lanes × Makes (λ p. over_flat f.0 concurrency.0 p.1 p.0) (both (built self) (chain lanes)) (built result) }
    {
        let alloc = self.alloc;
        let stages = lane(Stages::new(alloc)).into_vec();
        Flux::new(alloc, flat_of(self.boxed(), f.0, concurrency.0, stages))
    }

    /// As [`flat_map`](Flux::flat_map), but a failure ends its list alone: the first one taken goes out once all lists and the input
    /// have ended.
    pub fn flat_map_delay_error<F: FnOnce(Stages<T>) -> Stages<T>>(
        self,
        f: ExpandFn,
        concurrency: Concurrency,
        lane: F,
    ) -> Flux<T>
        requires { F.IsAlwaysCallable lane }
        ensures { (first lanes : StagesSpec T) × (chain first ≡ Some []) × F.post lane first lanes × Makes (λ p. over_flat_delay f.0 concurrency.0 p.1 p.0) (both (built self) (chain lanes)) (built result) }
    {
        let alloc = self.alloc;
        let stages = lane(Stages::new(alloc)).into_vec();
        Flux::new(
            alloc,
            flat_delay_of(self.boxed(), f.0, concurrency.0, stages),
        )
    }

    /// The same items from a queue of this room; the worker of this number is to serve what stands over it.
    pub fn publish_on(self, worker: Worker, prefetch: Prefetch) -> Flux<T>
        ensures { Makes (over_on worker.0 prefetch.0) (built self) (built result) }
    {
        let alloc = self.alloc;
        Flux::new(alloc, on_of(self.boxed(), worker.0, prefetch.0))
    }

    /// As [`publish_on`](Flux::publish_on), but a failure may overtake the items that wait in the queue, which are then dropped.
    pub fn publish_on_eager(self, worker: Worker, prefetch: Prefetch) -> Flux<T>
        ensures { Makes (over_on_eager worker.0 prefetch.0) (built self) (built result) }
    {
        let alloc = self.alloc;
        Flux::new(alloc, on_eager_of(self.boxed(), worker.0, prefetch.0))
    }

    /// One plain operator over what was built.
    fn plain(self, stage: Stage<T>) -> Flux<T>
        ensures { Makes (over_plain stage) (built self) (built result) }
    {
        let alloc = self.alloc;
        Flux::new(alloc, plain_of(self.boxed(), stage))
    }

    /// What was built, in a place of its own.
    fn boxed(self) -> Result<Box<Expr<T>>, NoMemory>
        ensures { IsBoxed (built self) result }
    {
        let expr = self.expr?;
        Ok(Box::new(self.alloc, expr)?)
    }
}

/// This operator over what was built.
fn plain_of<T: Drop>(
    below: Result<Box<Expr<T>>, NoMemory>,
    stage: Stage<T>,
) -> Result<Expr<T>, NoMemory>
    ensures { Makes (over_plain stage) (boxed_of below) (made_of result) }
{
    Ok(Expr::Plain(stage, below?))
}

/// A `groupBy` over what was built.
fn group_of<T: Drop>(
    below: Result<Box<Expr<T>>, NoMemory>,
    key: u16,
    stages: Result<Vec<Stage<T>>, NoMemory>,
) -> Result<Expr<T>, NoMemory>
    ensures { Makes (λ p. over_group key p.1 p.0) (both (boxed_of below) (stages_of stages)) (made_of result) }
{
    Ok(Expr::Group(key, stages?, below?))
}

/// A `window` over what was built.
fn window_of<T: Drop>(
    below: Result<Box<Expr<T>>, NoMemory>,
    size: u64,
    stages: Result<Vec<Stage<T>>, NoMemory>,
) -> Result<Expr<T>, NoMemory>
    ensures { Makes (λ p. over_window size p.1 p.0) (both (boxed_of below) (stages_of stages)) (made_of result) }
{
    Ok(Expr::Window(size, stages?, below?))
}

/// A `flatMap` over what was built.
fn flat_of<T: Drop>(
    below: Result<Box<Expr<T>>, NoMemory>,
    expand: u16,
    concurrency: u64,
    stages: Result<Vec<Stage<T>>, NoMemory>,
) -> Result<Expr<T>, NoMemory>
    ensures { Makes (λ p. over_flat expand concurrency p.1 p.0) (both (boxed_of below) (stages_of stages)) (made_of result) }
{
    Ok(Expr::Flat(expand, concurrency, stages?, below?))
}

/// A `flatMapDelayError` over what was built.
fn flat_delay_of<T: Drop>(
    below: Result<Box<Expr<T>>, NoMemory>,
    expand: u16,
    concurrency: u64,
    stages: Result<Vec<Stage<T>>, NoMemory>,
) -> Result<Expr<T>, NoMemory>
    ensures { Makes (λ p. over_flat_delay expand concurrency p.1 p.0) (both (boxed_of below) (stages_of stages)) (made_of result) }
{
    Ok(Expr::FlatDelay(expand, concurrency, stages?, below?))
}

/// A `publishOn` over what was built.
fn on_of<T: Drop>(
    below: Result<Box<Expr<T>>, NoMemory>,
    worker: u8,
    prefetch: u64,
) -> Result<Expr<T>, NoMemory>
    ensures { Makes (over_on worker prefetch) (boxed_of below) (made_of result) }
{
    Ok(Expr::On(worker, prefetch, below?))
}

/// A `publishOnEager` over what was built.
fn on_eager_of<T: Drop>(
    below: Result<Box<Expr<T>>, NoMemory>,
    worker: u8,
    prefetch: u64,
) -> Result<Expr<T>, NoMemory>
    ensures { Makes (over_on_eager worker prefetch) (boxed_of below) (made_of result) }
{
    Ok(Expr::OnEager(worker, prefetch, below?))
}
