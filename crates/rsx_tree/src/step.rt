//! The steps of one node: a pick, and a row.

ghost use Rattle.std.specs.Prelude.{◌≡◌, OnOk, OnErr, IfOk, IfErr, IsOk, Some, true, false};
ghost use Rattle.rsx_sources.specs.Steps.{IsNotMade};
ghost use Rattle.rsx_tree.specs.Fetched.{IsStepOut};
ghost use Rattle.rsx_tree.specs.Inputs.{size};
ghost use Rattle.rsx_tree.specs.Refusals.{OnlyNotEnabled};
ghost use Rattle.rsx_tree.specs.Stepped.{IsAfterPick, IsPickOver, IsRowOver, IsStepOf, IsStepOver, IsStill, can_pick_in, can_row_in, over};

use crate::edge::Edge;
use crate::inputs::Inputs;
use rsx_sources::{Machine, NotMade};
use rsx_types::{NoMemory, Ops};
use std::alloc::Global;

/// Picks an input at a node over this edge. Where the node ended by it, all below it is closed.
pub(crate) fn pick_over<M: Machine, O: Ops<Item = M::Item>>(
    alloc: Global,
    ops: &O,
    edge: &Edge,
    node: &mut M,
    below: &mut Inputs<M>,
    input: u64,
) -> Result<(), NotMade>
    ensures made { OnOk result (IsPickOver M.Machine (O.meaning ops.now) input edge.now node.old below.old node.new below.new) }
    ensures after { OnOk result (IsStepOver (IsAfterPick M.Machine input) M.ended edge.now node.old below.old node.new below.new) }
    ensures err { IfErr result (IsNotMade (can_pick_in M.Machine input (Some (over edge.now node.old)))) }
    ensures memory { M.step_allocates (O.allocates ops.now) node.old ≡ false → OnlyNotEnabled result }
    ensures same { OnErr result ((node.new ≡ node.old) × (below.new ≡ below.old)) }
    ensures size { size below.new ≡ size below.old }
{
    if !edge.is_live() {
        return Err(NotMade::NotEnabled);
    }
    match node.on_pick(alloc, ops, input, edge.demand.asked, edge.demand.sent) {
        Ok(()) => {
            below.close_if(node.has_ended(), true);
            Ok(())
        }
        Err(why) => Err(why),
    }
}

/// Makes a row at a node over this edge. Where the node ended by it, all below it is closed.
pub(crate) fn row_over<M: Machine, O: Ops<Item = M::Item>>(
    alloc: Global,
    ops: &O,
    edge: &Edge,
    node: &mut M,
    below: &mut Inputs<M>,
) -> Result<(), NotMade>
    ensures made { OnOk result (IsRowOver M.Machine (O.meaning ops.now) edge.now node.old below.old node.new below.new) }
    ensures err { IfErr result (IsNotMade (can_row_in M.Machine (Some (over edge.now node.old)))) }
    ensures memory { M.step_allocates (O.allocates ops.now) node.old ≡ false → OnlyNotEnabled result }
    ensures same { OnErr result ((node.new ≡ node.old) × (below.new ≡ below.old)) }
    ensures size { size below.new ≡ size below.old }
{
    if !edge.is_live() {
        return Err(NotMade::NotEnabled);
    }
    match node.on_row(alloc, ops, edge.demand.asked, edge.demand.sent) {
        Ok(()) => {
            below.close_if(node.has_ended(), true);
            Ok(())
        }
        Err(why) => Err(why),
    }
}

/// Makes a pick or a row at a node over this edge and takes the item out that the node then offers, where the node does both at
/// once. Where the node ended by the step, all below it is closed.
#[inline(always)]
pub(crate) fn step_item_over<M: Machine, O: Ops<Item = M::Item>>(
    alloc: Global,
    ops: &O,
    edge: &Edge,
    node: &mut M,
    below: &mut Inputs<M>,
) -> Option<M::Item>
    ensures out { IsStepOut M.Machine (O.meaning ops.now) edge.now node.old below.old result node.new below.new }
    ensures size { size below.new ≡ size below.old }
{
    if !edge.is_live() {
        return None;
    }
    match node.step_item(alloc, ops, edge.demand.asked, edge.demand.sent) {
        Some(item) => {
            below.close_if(node.has_ended(), true);
            Some(item)
        }
        None => None,
    }
}

/// Makes a pick or a row of a node, where one is enabled, and answers whether it did. Where the node ended by it, all below
/// it is closed.
#[inline(always)]
pub(crate) fn step_over<M: Machine, O: Ops<Item = M::Item>>(
    alloc: Global,
    ops: &O,
    edge: &Edge,
    node: &mut M,
    below: &mut Inputs<M>,
) -> Result<bool, NoMemory>
    ensures made { IfOk result (λ made. made ≡ true →
        IsStepOver (IsStepOf M.Machine (O.meaning ops.now)) M.ended edge.now node.old below.old node.new below.new) }
    ensures still { IfOk result (λ made. made ≡ false → IsStill M.Machine (Some (over edge.now node.old))) }
    ensures same { IfOk result (λ made. made ≡ false → (node.new ≡ node.old) × (below.new ≡ below.old)) }
    ensures err { OnErr result ((node.new ≡ node.old) × (below.new ≡ below.old)) }
    ensures memory { M.step_allocates (O.allocates ops.now) node.old ≡ false → IsOk result }
    ensures size { size below.new ≡ size below.old }
{
    if !edge.is_live() {
        return Ok(false);
    }
    let asked = edge.demand.asked;
    let sent = edge.demand.sent;
    if let Some(input) = node.next_pick(asked, sent) {
        return match node.on_pick(alloc, ops, input, asked, sent) {
            Ok(()) => {
                below.close_if(node.has_ended(), true);
                Ok(true)
            }
            Err(_) => Err(NoMemory),
        };
    }
    match node.on_row(alloc, ops, asked, sent) {
        Ok(()) => {
            below.close_if(node.has_ended(), true);
            Ok(true)
        }
        Err(NotMade::NotEnabled) => Ok(false),
        Err(NotMade::NoMemory) => Err(NoMemory),
    }
}
