//! `groupBy`: a lane for each key.

ghost use Rattle.std.specs.Prelude.{◌≡◌, IfOk, map, []};
ghost use Rattle.rsx_values.specs.Group.{IsKeyed, group_by, group_lane, items_of_key, keyed_items, keys_after, lane_ending, placed, tagged_items};

use crate::operators::lanes::{chain, merge_lanes};
use rsx_collections::Keys;
use rsx_types::{Cause, Ending, Fault, NoMemory, Ops, Stage, StreamValue};
use rsx_values::{MOST_KEYS, TOO_MANY_KEYS};
use std::alloc::Global;

/// The items with their keys, and how the input ended.
#[derive(Drop)]
pub(crate) struct Keyed<T> {
    /// The keys, in the order in which each came first.
    pub(crate) keys: Keys,
    /// Each item behind its key.
    pub(crate) items: Vec<(u64, T)>,
    /// The ending of the input, or the fault at which it was cut.
    pub(crate) ending: Ending,
}

/// The value that `groupBy` gives for a whole input under these choices. The function `f` says the key of each item. The items
/// of a key go through a chain of these operators, and each that comes out is tagged with the key: that is a lane, and
/// lanes are numbered in the order in which their keys come first. The value is the merge of the lanes and
/// [`MAIN`](rsx_values::MAIN), which has the ending of the input; a fault of `f` is that ending, at its item, and so is a key more
/// than [`MOST_KEYS`], with the number [`TOO_MANY_KEYS`].
///
/// The answer is none where the choices don't fit: one of them finds no signal, or follows a failure.
///
/// # Errors
/// [`NoMemory`] where a growth was refused, in a function of the caller too.
pub(crate) fn group_by<O: Ops>(
    alloc: Global,
    ops: &O,
    f: u16,
    stages: &[Stage<O::Item>],
    choices: &[u64],
    input: StreamValue<O::Item>,
) -> Result<Option<StreamValue<O::Item>>, NoMemory>
    ensures { IfOk result (λ o. o ≡ group_by (O.meaning ops.now) f stages.now choices.now input) }
{
    let ending = input.ending();
    let keyed = key_each(alloc, ops, f, input.into_items(), ending)?;
    let ending = keyed.ending;
    let lanes = group_lanes(
        alloc,
        ops,
        stages,
        keyed.keys.as_slice(),
        keyed.items.as_slice(),
        ending,
    )?;
    merge_lanes(alloc, lanes, ending, choices)
}

/// The items with their keys, up to the first fault.
fn key_each<O: Ops>(
    alloc: Global,
    ops: &O,
    f: u16,
    items: Vec<O::Item>,
    ending: Ending,
) -> Result<Keyed<O::Item>, NoMemory>
    ensures { IfOk result (λ r. IsKeyed (keyed_items ((O.meaning ops.now).keyed f) [] items.items ending) r.keys r.items.items r.ending) }
{
    let mut keys = Keys::new(alloc);
    let mut keyed = Vec::new(alloc);
    for item in items {
        match place(ops, f, &mut keys, &item)? {
            Ok(key) => keyed.push((key, item))?,
            Err(fault) => {
                return Ok(Keyed {
                    keys,
                    items: keyed,
                    ending: Ending::Failed(Cause::Function(fault)),
                });
            }
        }
    }
    Ok(Keyed {
        keys,
        items: keyed,
        ending,
    })
}

/// The key of an item, which is among the keys then; or the fault that it is.
fn place<O: Ops>(
    ops: &O,
    f: u16,
    keys: &mut Keys,
    item: &O::Item,
) -> Result<Result<u64, u32>, NoMemory>
    ensures placed { IfOk result (λ r. r ≡ placed keys.old ((O.meaning ops.now).keyed f item.now)) }
    ensures keys { IfOk result (λ r. keys.new ≡ keys_after keys.old r) }
{
    match ops.key(f, item) {
        Ok(key) => {
            if keys.as_slice().len() >= MOST_KEYS && !keys.contains(key) {
                return Ok(Err(TOO_MANY_KEYS));
            }
            keys.note(key)?;
            Ok(Ok(key))
        }
        Err(Fault::Code(fault)) => Ok(Err(fault)),
        Err(Fault::Memory) => Err(NoMemory),
    }
}

/// The lane of each key.
fn group_lanes<O: Ops>(
    alloc: Global,
    ops: &O,
    stages: &[Stage<O::Item>],
    keys: &[u64],
    keyed: &[(u64, O::Item)],
    ending: Ending,
) -> Result<Vec<StreamValue<O::Item>>, NoMemory>
    ensures { IfOk result (λ vs. vs.items ≡ map (group_lane (O.meaning ops.now) stages.now (record { items = keyed.now; ending = ending })) keys.now) }
{
    let mut lanes = Vec::new(alloc);
    for key in keys {
        let items = with_key(alloc, ops, *key, keyed)?;
        let value = chain(
            alloc,
            ops,
            stages,
            StreamValue::new(items, ending_of_lane(ending)),
        )?;
        lanes.push(tag_each(alloc, ops, *key, value)?)?;
    }
    Ok(lanes)
}

/// How the lanes end: the failure of the input is no lane's.
fn ending_of_lane(ending: Ending) -> Ending
    ensures { result ≡ lane_ending ending }
{
    match ending {
        Ending::Done => Ending::Done,
        Ending::Open | Ending::Failed(_) => Ending::Open,
    }
}

/// Copies of the items of one key.
fn with_key<O: Ops>(
    alloc: Global,
    ops: &O,
    key: u64,
    keyed: &[(u64, O::Item)],
) -> Result<Vec<O::Item>, NoMemory>
    ensures { IfOk result (λ v. v.items ≡ items_of_key key keyed.now) }
{
    let mut items = Vec::new(alloc);
    for pair in keyed {
        if pair.0 == key {
            items.push(ops.copy(alloc, &pair.1)?)?;
        }
    }
    Ok(items)
}

/// Each item of a value with the tag of a key.
fn tag_each<O: Ops>(
    alloc: Global,
    ops: &O,
    key: u64,
    value: StreamValue<O::Item>,
) -> Result<StreamValue<O::Item>, NoMemory>
    ensures { IfOk result (λ v. v ≡ tagged_items (O.meaning ops.now) key value) }
{
    let mut tagged = Vec::new(alloc);
    for item in value.items() {
        tagged.push(ops.tag(alloc, key, item)?)?;
    }
    Ok(StreamValue::new(tagged, value.ending()))
}
