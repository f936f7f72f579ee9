//! What is timed: an expression over a range.

use anyhow::{Result, bail};
use rsx_model::Expr;
use rsx_types::{HubId, Ops, Stage};
use std::alloc::Global;

/// The function `double` of `map`.
const DOUBLE: u16 = 2;
/// The function `even` of `test`.
const EVEN: u16 = 1;
/// The function `add` of `fold`.
const ADD: u16 = 1;
/// The function of `key` with 3 keys.
const THREE_KEYS: u16 = 1;
/// The function of `key` that tells all numbers apart.
const ALL_KEYS: u16 = 2;
/// The function of `key` with 1,000 keys, of integers alone.
const THOUSAND_KEYS: u16 = 3;

/// An operator over an expression.
fn over<T: Drop>(alloc: Global, stage: Stage<T>, input: Expr<T>) -> Result<Expr<T>> {
    Ok(Expr::Plain(stage, Box::new(alloc, input)?))
}

/// The total of a range, which begins at 0.
fn total<O: Ops>(alloc: Global, ops: &O, input: Expr<O::Item>) -> Result<Expr<O::Item>> {
    match ops.from_i64(alloc, 0) {
        Ok(seed) => over(alloc, Stage::Scan(ADD, seed), input),
        Err(_) => bail!("no memory"),
    }
}

/// The worker of a `publishOn`.
const WORKER: u8 = 1;

/// The function `twice` of `expand`.
const TWICE: u16 = 2;

/// How many lanes of a `flatMap` run at a time.
const CONCURRENCY: u64 = 4;

/// How many items of each input are asked for in advance.
const PREFETCH: u64 = 64;

/// Two ranges, from 1 to a half of `count`.
fn halves<T: Drop>(alloc: Global, count: u64) -> Result<Vec<Expr<T>>> {
    let mut inputs = Vec::new(alloc);
    inputs.push(Expr::Range(1, count / 2))?;
    inputs.push(Expr::Range(1, count / 2))?;
    Ok(inputs)
}

/// The expression of a case over the numbers from 1 to `count`.
pub fn expression<O: Ops>(alloc: Global, ops: &O, case: &str, count: u64) -> Result<Expr<O::Item>> {
    let range = Expr::Range(1, count);
    match case {
        "range" => Ok(range),
        "map" | "fed" | "fedbeside" => over(alloc, Stage::Map(DOUBLE), range),
        "filter" | "single" | "among" => over(
            alloc,
            Stage::Filter(EVEN),
            over(alloc, Stage::Map(DOUBLE), range)?,
        ),
        "half" => over(
            alloc,
            Stage::Map(DOUBLE),
            over(alloc, Stage::Filter(EVEN), range)?,
        ),
        "buffer" => over(alloc, Stage::Buffer(10), range),
        "scan" => over(alloc, Stage::Take(count), total(alloc, ops, range)?),
        "keys3" => over(alloc, Stage::Distinct(THREE_KEYS), range),
        "keys" => over(alloc, Stage::Distinct(ALL_KEYS), range),
        "concat" => Ok(Expr::Concat(halves(alloc, count)?)),
        "merge" => Ok(Expr::Merge(PREFETCH, halves(alloc, count)?)),
        "zip" => Ok(Expr::Zip(PREFETCH, halves(alloc, count)?)),
        "latest" => Ok(Expr::Latest(PREFETCH, halves(alloc, count)?)),
        "publish" => Ok(Expr::On(WORKER, PREFETCH, Box::new(alloc, range)?)),
        "window" => Ok(Expr::Window(10, Vec::new(alloc), Box::new(alloc, range)?)),
        "group" => Ok(Expr::Group(THREE_KEYS, Vec::new(alloc), Box::new(alloc, range)?)),
        "groups" => Ok(Expr::Group(THOUSAND_KEYS, Vec::new(alloc), Box::new(alloc, range)?)),
        "flat" => Ok(Expr::Flat(TWICE, CONCURRENCY, Vec::new(alloc), Box::new(alloc, range)?)),
        _ => bail!("no such case"),
    }
}

/// The expression of a case over what is published to a hub.
pub fn reading<T: Drop>(alloc: Global, case: &str, hub: HubId) -> Result<Expr<T>> {
    match case {
        "fanmap" => over(alloc, Stage::Map(DOUBLE), Expr::Hub(hub)),
        _ => Ok(Expr::Hub(hub)),
    }
}
