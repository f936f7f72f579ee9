//! Cuts the parts of feeds and of subscriptions at each edge where they can be cut, and joins them at once.

ghost use Rattle.std.specs.Prelude.{◌≡◌, OnOk, length, map};

use anyhow::{Result, bail};
use rsx_graph_state::Feed;
use rsx_hub::Member;
use rsx_pipe::{CrossingNodes, CutOff, Part};
use rsx_subscriber::Subscription;
use std::alloc::Global;

/// The number by which readers of a link name it. No hub of a graph has it.
const LINK: u32 = 1_000;

/// How many items a reader of a link has room for.
const ROOM: u64 = 64;

/// How many edges of a part are tried. No part has a node with a queue behind these.
const EDGES: u32 = 8;

/// What was done to parts.
#[derive(Clone, Copy, Debug)]
pub struct Tally {
    /// Cuts.
    pub cuts: u64,
    /// Items in the queues at the edges that were cut.
    pub items: u64,
    /// Joins that were refused, and handed all back.
    pub refusals: u64,
    /// Joins.
    pub joins: u64,
}

impl Tally {
    /// Nothing was done.
    pub fn new() -> Tally {
        Tally {
            cuts: 0,
            items: 0,
            refusals: 0,
            joins: 0,
        }
    }
}

/// Cuts the part of each feed and of each subscription at each of its first edges where it can be cut, and joins it at once.
///
/// # Errors
/// Where a join is refused that shouldn't be, or isn't that should be, and for want of memory.
pub fn cut_trees<N: CrossingNodes + Drop>(
    alloc: Global,
    feeds: &mut [Feed<N>],
    subs: &mut [Subscription<N, N::Item>],
    of_feeds: &mut Tally,
    of_subs: &mut Tally,
) -> Result<()>
    ensures feeds { OnOk result (map (λ f. f.hub) feeds.new ≡ map (λ f. f.hub) feeds.old) }
    ensures subs { OnOk result (length subs.new ≡ length subs.old) }
{
    cut_feeds(alloc, feeds, of_feeds)?;
    cut_subscriptions(alloc, subs, of_subs)
}

/// Cuts the part of each subscription so.
fn cut_subscriptions<N: CrossingNodes + Drop>(
    alloc: Global,
    subs: &mut [Subscription<N, N::Item>],
    tally: &mut Tally,
) -> Result<()>
    ensures { OnOk result (length subs.new ≡ length subs.old) }
{
    for sub in subs.iter_mut() {
        cut_part(alloc, sub.part_mut(), tally)?;
    }
    Ok(())
}

/// Cuts the part of each feed so.
fn cut_feeds<N: CrossingNodes + Drop>(
    alloc: Global,
    feeds: &mut [Feed<N>],
    tally: &mut Tally,
) -> Result<()>
    ensures { OnOk result (map (λ f. f.hub) feeds.new ≡ map (λ f. f.hub) feeds.old) }
{
    for feed in feeds.iter_mut() {
        cut_part(alloc, &mut feed.part, tally)?;
    }
    Ok(())
}

/// Cuts a part at each of its first edges where it can be cut, and joins it at once.
fn cut_part<N: CrossingNodes + Drop>(
    alloc: Global,
    part: &mut Part<N>,
    tally: &mut Tally,
) -> Result<()> {
    for at in 0..EDGES {
        cut_at(alloc, part, at, tally)?;
    }
    Ok(())
}

/// Cuts a part at this edge, if it can be cut there, and joins it at once.
fn cut_at<N: CrossingNodes + Drop>(
    alloc: Global,
    part: &mut Part<N>,
    at: u32,
    tally: &mut Tally,
) -> Result<()> {
    let reader = N::reader(alloc, LINK, Member::new(alloc, ROOM)?, 0)?;
    let Ok(below) = part.cut(at, reader) else {
        return Ok(());
    };
    tally.cuts = tally.cuts.wrapping_add(1);
    tally.items = tally.items.wrapping_add(below.queue.len() as u64);
    let another_hub = u64::from(LINK) + 1;
    let below = refused(part, at, another_hub, below, tally)?;
    // Where the reader is the root nothing is below it, and else inputs are below the root.
    let another_edge = u32::from(at == 0);
    let below = refused(part, another_edge, u64::from(LINK), below, tally)?;
    if part.rejoin(at, u64::from(LINK), below).is_err() {
        bail!("the join at the edge {at} is refused")
    }
    tally.joins = tally.joins.wrapping_add(1);
    Ok(())
}

/// Tries a join that is refused. What was cut off comes back.
fn refused<N: CrossingNodes + Drop>(
    part: &mut Part<N>,
    at: u32,
    hub: u64,
    below: CutOff<N, N::Item>,
    tally: &mut Tally,
) -> Result<CutOff<N, N::Item>> {
    let items = below.queue.len();
    match part.rejoin(at, hub, below) {
        Ok(()) => bail!("the join at the edge {at} isn't refused"),
        Err(below) => {
            if below.queue.len() != items {
                bail!("of {items} items not all came back")
            }
            tally.refusals = tally.refusals.wrapping_add(1);
            Ok(below)
        }
    }
}
