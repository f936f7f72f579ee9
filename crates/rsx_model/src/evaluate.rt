//! The slow evaluator.

ghost use Rattle.std.specs.Prelude.{◌≡◌, ◌⊎◌, ◌≤◌, ◌<◌, ◌+◌, ◌^◌, ◌+ℤ◌, ◌≤ℤ◌, pos, length, map, Option, Some, None, option_map, codes};
ghost use Rattle.rsx_types.specs.Stream.{Stream};
ghost use Rattle.rsx_types.specs.Plain.{plain, listed, range_items};
ghost use Rattle.rsx_model.specs.declared.evaluate.Trouble.TheVariants.{OutOfMemory};
ghost use Rattle.rsx_model.specs.Shape.{children, nodes, leaves, sum_of};
ghost use Rattle.rsx_model.specs.declared.expr.Expr.TheViews.{out-Expr};
ghost use Rattle.rsx_model.specs.Check.{first_fault, first_of};
ghost use Rattle.rsx_model.specs.Eval.{environment, meant, in_order, quiet, behind};
ghost use Rattle.rsx_model.specs.Answer.{Gives, GivesAll, IsScratch, alone, name_codes};

use crate::kinds::are_noted;
use crate::lanes::{flat_delay_of, flat_of, group_of, on_eager_of, window_of};
use crate::operators::plain::{apply, copies_of, range_list};
use crate::several::{concat_of, latest_of, merge_delay_of, merge_of, zip_of};
use crate::{
    BadExpr, Below, Expr, MOST_COUNT, MOST_NODES, below_of, leaves_of, nodes_of, refusal_of,
};
use rsx_types::{Ending, NoMemory, Note, Ops, Stage, StreamValue};
use std::alloc::{AllocFailed, Global};
use thiserror::Error;

/// Why an expression has no value.
#[derive(Clone, Copy, Debug, PartialEq, Eq, Error)]
pub enum ScratchRefusal {
    /// M1: `check_expr` refuses the expression, with this kind.
    #[error("bad expression: {0}")]
    BadExpr(BadExpr),
    /// M2: the notes or the joins don't fit the expression: a wrong number of them, a note of the wrong kind, an invalid choice
    /// or an invalid recorded ending.
    #[error("the notes or the joins do not fit the expression")]
    BadNotes,
    /// M3: a growth was refused.
    #[error("out of memory")]
    NoMemory,
}

impl ScratchRefusal {
    /// The name of this refusal: M1, M2 or M3.
    pub fn name(self) -> &'static str
        ensures { result.now ≡ name_codes self }
    {
        match self {
            ScratchRefusal::BadExpr(_) => "M1",
            ScratchRefusal::BadNotes => "M2",
            ScratchRefusal::NoMemory => "M3",
        }
    }
}

/// Why a subtree has no value.
#[derive(Clone, Copy, Debug, PartialEq, Eq)]
pub(crate) enum Trouble {
    BadNotes,
    OutOfMemory,
}

impl From<NoMemory> for Trouble {
    ghost from_gives = { λ _ e. e ≡ OutOfMemory };

    fn from(_e: NoMemory) -> Trouble {
        Trouble::OutOfMemory
    }
}

impl<T: Drop> From<AllocFailed<T>> for Trouble {
    ghost from_gives = { λ _ e. e ≡ OutOfMemory };

    fn from(_e: AllocFailed<T>) -> Trouble {
        Trouble::OutOfMemory
    }
}

/// The value of an expression from scratch: over the hubs' values, in the order of their ids, with the joins of its hub
/// leaves, from left to right, and the notes of its nodes, in pre-order.
///
/// The value of a hub leaf is its hub's value without its first items, as many as the leaf's join says, and with its
/// ending; where the hub's value has fewer items, the ending alone.
///
/// A bad expression is found first, then a wrong number of notes or joins or a note of the wrong kind, and want of memory last. An
/// invalid choice or recorded ending is found where the choices are followed, so that want of memory may come before it.
pub fn scratch<O: Ops>(
    alloc: Global,
    ops: &O,
    expr: &Expr<O::Item>,
    hubs: &[StreamValue<O::Item>],
    joins: &[u64],
    notes: &[Note],
) -> Result<StreamValue<O::Item>, ScratchRefusal>
    ensures { IsScratch (environment (O.meaning ops.now) hubs.now joins.now notes.now) expr.now result }
{
    match refusal_of(expr, hubs.len() as u64) {
        Some(kind) => return Err(ScratchRefusal::BadExpr(kind)),
        None => {}
    }
    if nodes_of(expr) != notes.len() as u64 {
        return Err(ScratchRefusal::BadNotes);
    }
    if leaves_of(expr) != joins.len() as u64 {
        return Err(ScratchRefusal::BadNotes);
    }
    if !are_noted(expr, notes) {
        return Err(ScratchRefusal::BadNotes);
    }
    match value_of(alloc, ops, expr, hubs, joins, notes, 0, 0) {
        Ok(value) => Ok(value),
        Err(Trouble::BadNotes) => Err(ScratchRefusal::BadNotes),
        Err(Trouble::OutOfMemory) => Err(ScratchRefusal::NoMemory),
    }
}

/// The value of the subtree whose root has the number `at` and whose first hub leaf the number `leaf`.
#[cycle(value)]
fn value_of<O: Ops>(
    alloc: Global,
    ops: &O,
    expr: &Expr<O::Item>,
    hubs: &[StreamValue<O::Item>],
    joins: &[u64],
    notes: &[Note],
    at: usize,
    leaf: usize,
) -> Result<StreamValue<O::Item>, Trouble>
    requires sound { first_fault (length hubs.now) expr.now ≡ None }
    requires small { nodes expr.now ≤ MOST_NODES }
    requires noted { at + nodes expr.now ≤ length notes.now }
    requires joined { leaf + leaves expr.now ≤ length joins.now }
    ensures { Gives result ((meant (environment (O.meaning ops.now) hubs.now joins.now notes.now) expr.now).value at leaf) }
{
    let values = match below_of(expr) {
        Below::One(input) => {
            let value = value_of(alloc, ops, input, hubs, joins, notes, at + 1, leaf);
            values_of_one(alloc, value)
        }
        Below::Inputs(inputs) => { values_of(alloc, ops, inputs, hubs, joins, notes, at + 1, leaf) }
    };
    node_value_of(alloc, ops, expr, hubs, joins, notes, at, leaf, values)
}

/// The values of subtrees that stand side by side, the first of which has the number `at` and the first hub leaf `leaf`.
#[cycle(value)]
fn values_of<O: Ops>(
    alloc: Global,
    ops: &O,
    inputs: &[Expr<O::Item>],
    hubs: &[StreamValue<O::Item>],
    joins: &[u64],
    notes: &[Note],
    at: usize,
    leaf: usize,
) -> Result<Vec<StreamValue<O::Item>>, Trouble>
    requires sound { first_of (map (first_fault (length hubs.now)) inputs.now) ≡ None }
    requires small { sum_of (map nodes inputs.now) ≤ MOST_NODES }
    requires noted { at + sum_of (map nodes inputs.now) ≤ length notes.now }
    requires joined { leaf + sum_of (map leaves inputs.now) ≤ length joins.now }
    ensures { GivesAll result (in_order (map (meant (environment (O.meaning ops.now) hubs.now joins.now notes.now)) inputs.now) at leaf) }
{
    let mut values = Vec::new(alloc);
    let mut next = at;
    let mut next_leaf = leaf;
    for input in inputs {
        let value = value_of(alloc, ops, input, hubs, joins, notes, next, next_leaf)?;
        values.push(value)?;
        next += nodes_of(input) as usize;
        next_leaf += leaves_of(input) as usize;
    }
    Ok(values)
}

/// The value of a subtree as the values of an only child.
fn values_of_one<T: Drop>(
    alloc: Global,
    value: Result<StreamValue<T>, Trouble>,
) -> Result<Vec<StreamValue<T>>, Trouble>
    ensures { (o : Option (Stream T)) → Gives value o → GivesAll result (alone o) }
{
    let mut values = Vec::new(alloc);
    values.push(value?)?;
    Ok(values)
}

/// The value of the subtree whose root has the number `at`, from the values of its children.
fn node_value_of<O: Ops>(
    alloc: Global,
    ops: &O,
    expr: &Expr<O::Item>,
    hubs: &[StreamValue<O::Item>],
    joins: &[u64],
    notes: &[Note],
    at: usize,
    leaf: usize,
    values: Result<Vec<StreamValue<O::Item>>, Trouble>,
) -> Result<StreamValue<O::Item>, Trouble>
    requires sound { first_fault (length hubs.now) expr.now ≡ None }
    requires noted { at < length notes.now }
    requires joined { leaf + leaves expr.now ≤ length joins.now }
    requires below { GivesAll values
        (in_order (map (meant (environment (O.meaning ops.now) hubs.now joins.now notes.now)) (children (out-Expr O.Item expr.now))) (at + 1) leaf) }
    ensures { Gives result ((meant (environment (O.meaning ops.now) hubs.now joins.now notes.now) expr.now).value at leaf) }
{
    let note = &notes[at];
    match expr {
        Expr::Items(items) => if_quiet(note, items_of(alloc, ops, items)),
        Expr::Range(first, count) => if_quiet(note, range_of(alloc, ops, *first, *count)),
        Expr::Hub(hub) => {
            let value = &hubs[hub.0 as usize];
            if_quiet(note, behind_of(alloc, ops, value, joins[leaf]))
        }
        Expr::Plain(stage, _) => if_quiet(note, plain_of(alloc, ops, stage, values)),
        Expr::Concat(_) => if_quiet(note, concat_of(alloc, values)),
        Expr::Merge(_, _) => merge_of(alloc, note, values),
        Expr::MergeDelay(_, _) => merge_delay_of(alloc, note, values),
        Expr::Zip(_, _) => zip_of(alloc, ops, note, values),
        Expr::Latest(_, _) => latest_of(alloc, ops, note, values),
        Expr::Group(f, stages, _) => group_of(alloc, ops, *f, stages, note, values),
        Expr::Window(size, stages, _) => {
            if_quiet(note, window_of(alloc, ops, *size, stages, values))
        }
        Expr::Flat(f, _, stages, _) => flat_of(alloc, ops, *f, stages, note, values),
        Expr::FlatDelay(f, _, stages, _) => flat_delay_of(alloc, ops, *f, stages, note, values),
        Expr::On(_, _, _) => if_quiet(note, only_of(values)),
        Expr::OnEager(_, _, _) => on_eager_of(note, values),
    }
}

/// The answer of a node that records nothing; any record is out of place.
fn if_quiet<T: Drop>(
    note: &Note,
    answer: Result<StreamValue<T>, Trouble>,
) -> Result<StreamValue<T>, Trouble>
    ensures { (o : Option (Stream T)) → Gives answer o → Gives result (quiet (Some note.now) o) }
{
    match note {
        Note::Nothing => answer,
        Note::Picks(_) => Err(Trouble::BadNotes),
        Note::Ended(_) => Err(Trouble::BadNotes),
    }
}

/// The value of `items`: copies of the list, and the completion.
fn items_of<O: Ops>(
    alloc: Global,
    ops: &O,
    items: &[O::Item],
) -> Result<StreamValue<O::Item>, Trouble>
    ensures { Gives result (Some (listed items.now)) }
{
    Ok(StreamValue::new(copies_of(alloc, ops, items)?, Ending::Done))
}

/// The value of `range`: the numbers from `first` on, and the completion.
fn range_of<O: Ops>(
    alloc: Global,
    ops: &O,
    first: i64,
    count: u64,
) -> Result<StreamValue<O::Item>, Trouble>
    requires few { count ≤ MOST_COUNT }
    requires fits { (count ≡ 0) ⊎ ((first +ℤ pos count) ≤ℤ pos (2 ^ 63)) }
    ensures { Gives result (Some (listed (range_items (O.meaning ops.now) first count))) }
{
    Ok(StreamValue::new(range_list(alloc, ops, first, count)?, Ending::Done))
}

/// A hub's value without its first items, as many as `join`; without all where it has fewer.
fn behind_of<O: Ops>(
    alloc: Global,
    ops: &O,
    hub: &StreamValue<O::Item>,
    join: u64,
) -> Result<StreamValue<O::Item>, Trouble>
    ensures { Gives result (Some (behind join hub.now)) }
{
    let first = join.min(hub.items().len() as u64) as usize;
    let items = copies_of(alloc, ops, &hub.items()[first..])?;
    Ok(StreamValue::new(items, hub.ending()))
}

/// The value of an operator over the value of its only input; what is wrong with the input is wrong here.
fn plain_of<O: Ops>(
    alloc: Global,
    ops: &O,
    stage: &Stage<O::Item>,
    values: Result<Vec<StreamValue<O::Item>>, Trouble>,
) -> Result<StreamValue<O::Item>, Trouble>
    ensures { (o : Option (Stream O.Item)) → GivesAll values (alone o) → Gives result (option_map (plain (O.meaning ops.now) stage.now) o) }
{
    let mut values = values?;
    match values.pop() {
        Some(value) => Ok(apply(alloc, ops, stage, value)?),
        None => Err(Trouble::BadNotes),
    }
}

/// The value of the only input, unchanged; what is wrong with the input is wrong here.
pub(crate) fn only_of<T: Drop>(
    values: Result<Vec<StreamValue<T>>, Trouble>,
) -> Result<StreamValue<T>, Trouble>
    ensures { (o : Option (Stream T)) → GivesAll values (alone o) → Gives result o }
{
    let mut values = values?;
    match values.pop() {
        Some(value) => Ok(value),
        None => Err(Trouble::BadNotes),
    }
}
