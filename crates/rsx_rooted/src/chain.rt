//! A batch of items through a straight chain of a tree.

ghost use Rattle.std.specs.Prelude.{◌≡◌, ◌+◌, ◌≤◌, ℕ, Bool, [], length, true, false, IfSome};
ghost use Rattle.rsx_tree.specs.Edges.{edge_view};
ghost use Rattle.rsx_rooted.specs.Items.{carried, room};
ghost use Rattle.rsx_rooted.specs.Made.{Fits, FitsBelow, HasGoneOn, HaveGoneOn, IsTried, moves_of};

use crate::batch::{Batch, Batches, FEWEST_IN_BATCH, Noted};
use rsx_tree::{Edge, Inputs};
use rsx_types::Ops;
use std::alloc::Global;

/// How many items more may go over an edge.
pub fn room_over(edge: &Edge) -> u64
    ensures { result ≡ room (edge_view edge.now) }
{
    if edge.is_live() {
        edge.demand.room()
    } else {
        0
    }
}

/// Counts so many items as sent over an edge.
pub fn carry_all(edge: &mut Edge, count: u64)
    requires { count ≤ room (edge_view edge.old) }
    ensures { edge_view edge.new ≡ carried (edge_view edge.old) count }
{
    if count > 0 {
        edge.demand.sent += count;
    }
}

/// Makes a batch of at most `most` items of a node with these inputs, over the first live edges on the way down, and leaves these as
/// they are: what calls of [`Node::fetch`](rsx_tree::Node::fetch) would do one after the other, for all of them. It answers no where
/// the way to the items isn't straight, and where a node declines one of them, as for a fault, an ending or want of memory.
#[cycle(try_batch)]
pub fn try_batch<M: Batches, O: Ops<Item = M::Item>>(
    alloc: Global,
    ops: &O,
    node: &M,
    inputs: &Inputs<M>,
    most: u64,
    batch: &mut Batch<M::Item>,
) -> bool
    requires items { batch.old.items.items ≡ [] }
    requires notes { batch.old.notes.items ≡ [] }
    ensures tried { result ≡ true → IsTried M.Machine M.went (O.meaning ops.now) 0 node.now inputs.now batch.new.items.items batch.new.notes.items }
    ensures most { result ≡ true → length batch.new.items.items ≤ most }
{
    let fewer = most.min(node.most());
    if fewer < FEWEST_IN_BATCH {
        return false;
    }
    match inputs {
        Inputs::End => match node.peek(alloc, ops, fewer, &mut batch.items) {
            Some(noted) => batch.notes.push(noted).is_ok(),
            None => false,
        },
        Inputs::More(_, _, _, _) => try_over(alloc, ops, node, inputs, 0, fewer, batch),
    }
}

/// The same over the first live edge of a row, whose first edge is this input of the node.
#[cycle(try_batch)]
fn try_over<M: Batches, O: Ops<Item = M::Item>>(
    alloc: Global,
    ops: &O,
    node: &M,
    row: &Inputs<M>,
    input: u64,
    most: u64,
    batch: &mut Batch<M::Item>,
) -> bool
    requires items { batch.old.items.items ≡ [] }
    requires notes { batch.old.notes.items ≡ [] }
    ensures tried { result ≡ true → IsTried M.Machine M.went (O.meaning ops.now) input node.now row.now batch.new.items.items batch.new.notes.items }
    ensures most { result ≡ true → length batch.new.items.items ≤ most }
{
    match row {
        Inputs::End => false,
        Inputs::More(edge, sender, below, beside) => {
            if !edge.is_live() {
                return match input.checked_add(1) {
                    Some(next) => try_over(alloc, ops, node, beside, next, most, batch),
                    None => false,
                };
            }
            let fewer = most.min(room_over(edge));
            if !try_batch(alloc, ops, sender, below, fewer, batch) {
                return false;
            }
            match node.try_pass(alloc, ops, input, &mut batch.items, &mut batch.spare) {
                Some(noted) => batch.notes.push(noted).is_ok(),
                None => false,
            }
        }
    }
}

/// Has a node with these inputs go on by a batch of which this was noted, each edge with all items at once.
#[cycle(go_on)]
pub fn go_on<M: Batches>(node: &mut M, inputs: &mut Inputs<M>, notes: &mut Vec<Noted<M::Item>>)
    requires { Fits notes.old.items inputs.old }
    ensures went { HasGoneOn M.went notes.old.items node.old inputs.old node.new inputs.new }
    ensures all { notes.new.items ≡ [] }
{
    if let Some(noted) = notes.pop() {
        let took = noted.took;
        node.go_on(noted);
        go_on_below(inputs, took, notes);
    }
}

/// The same of a row, over whose first live edge so many items go.
#[cycle(go_on)]
fn go_on_below<M: Batches>(row: &mut Inputs<M>, took: u64, notes: &mut Vec<Noted<M::Item>>)
    requires { FitsBelow notes.old.items took row.old }
    ensures went { HaveGoneOn M.went notes.old.items took row.old row.new }
    ensures all { notes.new.items ≡ [] }
{
    match row {
        Inputs::End => {}
        Inputs::More(edge, sender, below, beside) => {
            if edge.is_live() {
                carry_all(edge, took);
                go_on(sender, below, notes);
            } else {
                go_on_below(beside, took, notes);
            }
        }
    }
}

/// How much of a budget is left after a batch, where each move takes one of it. None where for each of its items fewer than two moves
/// more are left: it may go over the root's own edge, and be taken from there.
pub fn rest_after<T: Drop>(left: u32, batch: &Batch<T>) -> Option<u32>
    ensures spent { IfSome result (λ rest. rest + moves_of batch.now.notes.items ≡ left) }
    ensures two { IfSome result (λ rest. length batch.now.items.items + length batch.now.items.items ≤ rest) }
{
    let moves = batch.moves()?;
    let count = batch.items.len() as u64;
    let rest = u64::from(left).checked_sub(moves)?;
    let behind = rest.checked_sub(count)?;
    if behind < count {
        return None;
    }
    Some(rest as u32)
}
