//! The tree of an expression.

ghost use Rattle.std.specs.Prelude.{◌≡◌, ◌≤◌, ◌<◌, false, IfOk, List, None, length, map};
ghost use Rattle.rsx_hub.specs.Hub.{HubState};
ghost use Rattle.rsx_model.specs.Check.{first_fault, first_of};
ghost use Rattle.rsx_model.specs.declared.check.TheConstants.{MOST_INPUTS, MOST_PREFETCH};
ghost use Rattle.rsx_model.specs.declared.expr.Expr.TheVariants.{Items as ItemsOf, Hub as HubOf};
ghost use Rattle.rsx_kinds.specs.Built.{IsBuilt, AreBuilt, IsBuiltOver, IsPlainOver, starts_ended};
ghost use Rattle.rsx_model.specs.Region.{region_of};
ghost use Rattle.rsx_kinds.specs.Crossings.{ArePlaced, IsAlone, IsPlaced, IsPlacedOver, differ};
ghost use Rattle.rsx_kinds.specs.Made.{IsCrossed, IsFlatMap, IsFlatMapDelay, IsGroupBy, IsInFront, IsOver, IsOverOne, IsPlain, IsPublishOn, IsPublishOnEager, IsSeveral, IsWindow};
ghost use Rattle.rsx_kinds.specs.Kind.{IsWithin};

use crate::{AnyNode, Boxed, SeveralKind, SeveralNode, SourceNode, TreeNode};
use rsx_delayed::{FlatMapDelayNode, PublishOnEagerNode};
use rsx_grouping::GroupByNode;
use rsx_hub::{Hub, HubLeaf};
use rsx_merging::{FlatMapNode, PublishOnNode};
use rsx_model::{Expr, region_of};
use rsx_plain::{PlainNode, copy_stages};
use rsx_queued::{Queued, Sender};
use rsx_sources::{ItemsNode, RangeNode};
use rsx_tree::{Inputs, Node};
use rsx_types::{HubId, NoMemory, Ops, Stage};
use rsx_window::WindowNode;
use std::alloc::Global;

/// The tree of an expression that `check_expr` accepts over these hubs. Each leaf that reads a hub gets a member of it; the
/// members have joined once they are counted in ([`Hub::count_in`]). Where nothing is asked of the tree yet, each node
/// wants as many items of each input as its prefetch says, and none where it has no prefetch. For want of memory the answer is
/// [`NoMemory`].
#[cycle(trees)]
pub fn build<O: Ops>(
    alloc: Global,
    ops: &O,
    expr: &Expr<O::Item>,
    hubs: &[Hub<O::Item>],
) -> Result<Node<TreeNode<O::Item>>, NoMemory>
    requires { first_fault (length hubs.now) expr.now ≡ None }
    ensures built { IfOk result (λ tree. IsBuilt (O.meaning ops.now) hubs.now expr.now tree) }

    // The edges below the root have a queue just where they join two regions, and the root's own has none.
    ensures placed { IfOk result (λ tree. IsPlaced expr.now false tree) }
{
    match expr {
        Expr::Items(items) => build_items(alloc, ops, items),
        Expr::Range(first, count) => {
            let node = RangeNode::new(*first, *count);
            source(alloc, SourceNode::Range(node))
        }
        Expr::Hub(number) => build_leaf(alloc, ops, *number, hubs),
        Expr::Plain(stage, input) => {
            let below = build(alloc, ops, input, hubs)?;
            build_plain(alloc, ops, stage, below)
        }
        Expr::Concat(inputs) => build_over(alloc, ops, SeveralKind::Concat, inputs, hubs),
        Expr::Merge(prefetch, inputs) => {
            build_over(alloc, ops, SeveralKind::Merge(*prefetch), inputs, hubs)
        }
        Expr::MergeDelay(prefetch, inputs) => {
            build_over(alloc, ops, SeveralKind::MergeDelay(*prefetch), inputs, hubs)
        }
        Expr::Zip(prefetch, inputs) => {
            build_over(alloc, ops, SeveralKind::Zip(*prefetch), inputs, hubs)
        }
        Expr::Latest(prefetch, inputs) => {
            build_over(alloc, ops, SeveralKind::Latest(*prefetch), inputs, hubs)
        }
        Expr::Group(function, stages, input) => {
            let below = build(alloc, ops, input, hubs)?;
            over_one(alloc, group_by(alloc, ops, *function, stages), below)
        }
        Expr::Window(size, stages, input) => {
            let below = build(alloc, ops, input, hubs)?;
            over_one(alloc, window(alloc, ops, *size, stages), below)
        }
        Expr::Flat(function, concurrency, stages, input) => {
            let below = build(alloc, ops, input, hubs)?;
            over_one(
                alloc,
                flat_map(alloc, ops, *function, *concurrency, stages),
                below,
            )
        }
        Expr::FlatDelay(function, concurrency, stages, input) => {
            let below = build(alloc, ops, input, hubs)?;
            over_one(
                alloc,
                flat_map_delay(alloc, ops, *function, *concurrency, stages),
                below,
            )
        }
        Expr::On(worker, prefetch, input) => {
            let made = build(alloc, ops, input, hubs);
            let below = crossed(alloc, made, *worker != region_of(input))?;
            over_one(alloc, publish_on(alloc, *prefetch), below)
        }
        Expr::OnEager(worker, prefetch, input) => {
            let made = build(alloc, ops, input, hubs);
            let below = crossed(alloc, made, *worker != region_of(input))?;
            over_one(alloc, publish_on_eager(alloc, *prefetch), below)
        }
    }
}

/// The tree of an expression for a receiver in this region: as [`build`] makes it, and where the root is in another region, the
/// root's own edge crosses, and has a queue.
///
/// # Errors
/// [`NoMemory`] where a growth was refused.
pub fn build_for<O: Ops>(
    alloc: Global,
    ops: &O,
    expr: &Expr<O::Item>,
    hubs: &[Hub<O::Item>],
    region: u8,
) -> Result<Node<TreeNode<O::Item>>, NoMemory>
    requires { first_fault (length hubs.now) expr.now ≡ None }
    ensures built { IfOk result (λ tree. IsBuilt (O.meaning ops.now) hubs.now expr.now tree) }
    ensures placed { IfOk result (λ tree. IsPlaced expr.now (differ region (region_of expr.now)) tree) }
{
    let made = build(alloc, ops, expr, hubs);
    crossed(alloc, made, region != region_of(expr))
}

/// The tree of a node of this kind over those of these expressions.
#[cycle(trees)]
fn build_over<O: Ops>(
    alloc: Global,
    ops: &O,
    kind: SeveralKind,
    inputs: &[Expr<O::Item>],
    hubs: &[Hub<O::Item>],
) -> Result<Node<TreeNode<O::Item>>, NoMemory>
    requires within { IsWithin kind }
    requires some { 1 ≤ length inputs.now }
    requires most { length inputs.now ≤ MOST_INPUTS }
    requires faultless { first_of (map (first_fault (length hubs.now)) inputs.now) ≡ None }
    ensures built { IfOk result (λ tree. IsBuiltOver (O.meaning ops.now) hubs.now kind inputs.now tree) }
    ensures placed { IfOk result (λ tree. IsPlacedOver inputs.now tree) }
{
    let row = build_inputs(alloc, ops, inputs, hubs, region_of(&inputs[0]))?;
    over(alloc, several(alloc, kind, inputs.len() as u32), row, false)
}

/// The trees of these expressions as the inputs of a node in this region, in their order.
#[cycle(trees)]
fn build_inputs<O: Ops>(
    alloc: Global,
    ops: &O,
    exprs: &[Expr<O::Item>],
    hubs: &[Hub<O::Item>],
    region: u8,
) -> Result<Inputs<TreeNode<O::Item>>, NoMemory>
    requires { first_of (map (first_fault (length hubs.now)) exprs.now) ≡ None }
    ensures built { IfOk result (λ row. AreBuilt (O.meaning ops.now) hubs.now exprs.now row) }
    ensures placed { IfOk result (λ row. ArePlaced region exprs.now row) }
{
    match exprs.split_first() {
        Some((first, others)) => {
            let beside = build_inputs(alloc, ops, others, hubs, region)?;
            let made = build(alloc, ops, first, hubs);
            let below = crossed(alloc, made, region != region_of(first));
            in_front(alloc, below, beside)
        }
        None => Ok(Inputs::End),
    }
}

/// The tree of these items.
fn build_items<O: Ops>(
    alloc: Global,
    ops: &O,
    items: &Vec<O::Item>,
) -> Result<Node<TreeNode<O::Item>>, NoMemory>
    ensures built { IfOk result (λ tree. (hubs : List (HubState O.Item)) → IsBuilt (O.meaning ops.now) hubs (ItemsOf items.now) tree) }
    ensures alone { IfOk result (λ tree. IsAlone tree) }
{
    let node = ItemsNode::new(alloc, ops, items)?;
    source(alloc, SourceNode::Items(node))
}

/// The tree of a leaf that reads the hub with this number.
fn build_leaf<O: Ops>(
    alloc: Global,
    ops: &O,
    number: HubId,
    hubs: &[Hub<O::Item>],
) -> Result<Node<TreeNode<O::Item>>, NoMemory>
    requires { number.0 < length hubs.now }
    ensures built { IfOk result (λ tree. IsBuilt (O.meaning ops.now) hubs.now (HubOf number) tree) }
    ensures alone { IfOk result (λ tree. IsAlone tree) }
{
    let hub = &hubs[number.0 as usize];
    let member = hub.member(alloc, ops)?;
    source(alloc, SourceNode::Hub(HubLeaf::new(number.0, member)))
}

/// The tree of a plain operator over this one.
fn build_plain<O: Ops>(
    alloc: Global,
    ops: &O,
    stage: &Stage<O::Item>,
    below: Node<TreeNode<O::Item>>,
) -> Result<Node<TreeNode<O::Item>>, NoMemory>
    ensures { IfOk result (λ tree. IsPlainOver stage.now below tree) }
{
    let row = below.join(alloc, Inputs::End)?;
    over(alloc, plain(alloc, ops, stage), row, is_over_at_once(stage))
}

/// A plain operator as a node of any kind.
fn plain<O: Ops>(
    alloc: Global,
    ops: &O,
    stage: &Stage<O::Item>,
) -> Result<AnyNode<O::Item>, NoMemory>
    ensures { IfOk result (λ n. IsPlain stage.now n) }
{
    Ok(AnyNode::Plain(PlainNode::new(alloc, ops, stage)?))
}

/// Whether a plain operator has put out its ending before it takes anything.
fn is_over_at_once<T>(stage: &Stage<T>) -> bool
    ensures { result ≡ starts_ended stage.now }
{
    match stage {
        Stage::Take(items) => *items == 0,
        _ => false,
    }
}

/// A `publishOn` as a node of any kind.
fn publish_on<T: Drop>(alloc: Global, prefetch: u64) -> Result<AnyNode<T>, NoMemory>
    requires positive { 1 ≤ prefetch }
    requires within { prefetch ≤ MOST_PREFETCH }
    ensures { IfOk result (λ n. IsPublishOn prefetch n) }
{
    let node = PublishOnNode::new(alloc, prefetch as usize)?;
    Ok(AnyNode::PublishOn(node))
}

/// A `publishOnEager` as a node of any kind.
fn publish_on_eager<T: Drop>(alloc: Global, prefetch: u64) -> Result<AnyNode<T>, NoMemory>
    requires positive { 1 ≤ prefetch }
    requires within { prefetch ≤ MOST_PREFETCH }
    ensures { IfOk result (λ n. IsPublishOnEager prefetch n) }
{
    let node = PublishOnEagerNode::new(alloc, prefetch as usize)?;
    Ok(AnyNode::PublishOnEager(node))
}

/// A node of windows as a node of any kind.
fn window<O: Ops>(
    alloc: Global,
    ops: &O,
    size: u64,
    stages: &[Stage<O::Item>],
) -> Result<AnyNode<O::Item>, NoMemory>
    ensures { IfOk result (λ n. IsWindow size stages.now n) }
{
    Ok(AnyNode::Window(WindowNode::new(alloc, ops, size, stages)?))
}

/// A `groupBy` as a node of any kind.
fn group_by<O: Ops>(
    alloc: Global,
    ops: &O,
    function: u16,
    stages: &[Stage<O::Item>],
) -> Result<AnyNode<O::Item>, NoMemory>
    ensures { IfOk result (λ n. IsGroupBy function stages.now n) }
{
    let copies = copy_stages(alloc, ops, stages)?;
    let node = GroupByNode::new(alloc, function, copies);
    Ok(AnyNode::GroupBy(node))
}

/// A `flatMap` as a node of any kind.
fn flat_map<O: Ops>(
    alloc: Global,
    ops: &O,
    function: u16,
    concurrency: u64,
    stages: &[Stage<O::Item>],
) -> Result<AnyNode<O::Item>, NoMemory>
    ensures { IfOk result (λ n. IsFlatMap function concurrency stages.now n) }
{
    let copies = copy_stages(alloc, ops, stages)?;
    let node = FlatMapNode::new(alloc, function, concurrency, copies);
    Ok(AnyNode::FlatMap(node))
}

/// A `flatMapDelayError` as a node of any kind.
fn flat_map_delay<O: Ops>(
    alloc: Global,
    ops: &O,
    function: u16,
    concurrency: u64,
    stages: &[Stage<O::Item>],
) -> Result<AnyNode<O::Item>, NoMemory>
    ensures { IfOk result (λ n. IsFlatMapDelay function concurrency stages.now n) }
{
    let copies = copy_stages(alloc, ops, stages)?;
    let node = FlatMapDelayNode::new(alloc, function, concurrency, copies);
    Ok(AnyNode::FlatMapDelay(node))
}

/// A node of several inputs as a node of any kind.
fn several<T: Drop>(alloc: Global, kind: SeveralKind, inputs: u32) -> Result<AnyNode<T>, NoMemory>
    requires { IsWithin kind }
    ensures { IfOk result (λ n. IsSeveral kind inputs n) }
{
    Ok(AnyNode::Several(SeveralNode::new(alloc, kind, inputs)?))
}

/// The tree of a node over a row of inputs. Where the node has put out its ending already, all below it is closed.
fn over<T: Drop>(
    alloc: Global,
    node: Result<AnyNode<T>, NoMemory>,
    row: Inputs<TreeNode<T>>,
    has_ended: bool,
) -> Result<Node<TreeNode<T>>, NoMemory>
    ensures { IfOk result (λ tree. IsOver node row has_ended tree) }
{
    let mut inputs = row;
    if has_ended {
        inputs.close();
    }
    match node {
        Ok(machine) => {
            let machine = Boxed::new(alloc, Sender::Direct(machine))?;
            Ok(Node { machine, inputs })
        }
        Err(NoMemory) => Err(NoMemory),
    }
}

/// The tree of a node over this one as its only input.
fn over_one<T: Drop>(
    alloc: Global,
    node: Result<AnyNode<T>, NoMemory>,
    below: Node<TreeNode<T>>,
) -> Result<Node<TreeNode<T>>, NoMemory>
    ensures { IfOk result (λ tree. IsOverOne node below tree) }
{
    match node {
        Ok(machine) => {
            let machine = Boxed::new(alloc, Sender::Direct(machine))?;
            let inputs = below.join(alloc, Inputs::End)?;
            Ok(Node { machine, inputs })
        }
        Err(NoMemory) => Err(NoMemory),
    }
}

/// A tree whose root has the queue of its edge, where that crosses to another region.
fn crossed<T: Drop>(
    alloc: Global,
    made: Result<Node<TreeNode<T>>, NoMemory>,
    crosses: bool,
) -> Result<Node<TreeNode<T>>, NoMemory>
    ensures { IfOk result (λ tree. IsCrossed made crosses tree) }
{
    if !crosses {
        return made;
    }
    let Node { machine, inputs } = made?;
    let node = match machine.into_node() {
        Sender::Direct(node) => Queued::new(alloc, node)?,
        Sender::Crossing(node) => node,
    };
    let machine = Boxed::new(alloc, Sender::Crossing(node))?;
    Ok(Node { machine, inputs })
}

/// A tree as an input in front of those beside it.
fn in_front<M: Drop>(
    alloc: Global,
    below: Result<Node<M>, NoMemory>,
    beside: Inputs<M>,
) -> Result<Inputs<M>, NoMemory>
    ensures { IfOk result (λ row. IsInFront below beside row) }
{
    match below {
        Ok(tree) => tree.join(alloc, beside),
        Err(NoMemory) => Err(NoMemory),
    }
}

/// The tree of a source alone.
fn source<T: Drop>(alloc: Global, node: SourceNode<T>) -> Result<Node<TreeNode<T>>, NoMemory>
    ensures machine { IfOk result (λ tree. tree.machine ≡ Sender.Direct (AnyNode.Source node)) }
    ensures inputs { IfOk result (λ tree. tree.inputs ≡ Inputs.End) }
    ensures alone { IfOk result (λ tree. IsAlone tree) }
{
    let machine = Boxed::new(alloc, Sender::Direct(AnyNode::Source(node)))?;
    Ok(Node {
        machine,
        inputs: Inputs::End,
    })
}
