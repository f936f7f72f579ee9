//! Numbers that operators take, each of a type of its own.

/// A function of `map`: the number that [`Ops::map`](rsx_types::Ops::map) is called with.
#[derive(Clone, Copy, Debug, PartialEq, Eq)]
pub struct MapFn(pub u16);

/// A function of `filter`: the number that [`Ops::test`](rsx_types::Ops::test) is called with.
#[derive(Clone, Copy, Debug, PartialEq, Eq)]
pub struct TestFn(pub u16);

/// A function of `scan`: the number that [`Ops::fold`](rsx_types::Ops::fold) is called with.
#[derive(Clone, Copy, Debug, PartialEq, Eq)]
pub struct FoldFn(pub u16);

/// A function of `distinct` and `groupBy`: the number that [`Ops::key`](rsx_types::Ops::key) is called with.
#[derive(Clone, Copy, Debug, PartialEq, Eq)]
pub struct KeyFn(pub u16);

/// A function of `flatMap`: the number that [`Ops::expand`](rsx_types::Ops::expand) is called with.
#[derive(Clone, Copy, Debug, PartialEq, Eq)]
pub struct ExpandFn(pub u16);

/// How many items of an input are asked for in advance: 1 to 1,024.
#[derive(Clone, Copy, Debug, PartialEq, Eq)]
pub struct Prefetch(pub u64);

/// The number of the worker that is to serve what stands over a `publishOn`: 0 to 15.
#[derive(Clone, Copy, Debug, PartialEq, Eq)]
pub struct Worker(pub u8);

/// How many lists of a `flatMap` are there at a time: 1 to 64.
#[derive(Clone, Copy, Debug, PartialEq, Eq)]
pub struct Concurrency(pub u64);
