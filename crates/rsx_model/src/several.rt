//! Operators over the values of several inputs.

ghost use Rattle.std.specs.Prelude.{◌≡◌, List, Option, Some, IfOk, option_map, option_and_then};
ghost use Rattle.rsx_types.specs.Stream.{Stream};
ghost use Rattle.rsx_values.specs.Concat.{concat};
ghost use Rattle.rsx_values.specs.Delayed.{merge_delay};
ghost use Rattle.rsx_values.specs.Merge.{merge};
ghost use Rattle.rsx_values.specs.Pick.{numbered};
ghost use Rattle.rsx_values.specs.Latest.{combine_latest, none_yet};
ghost use Rattle.rsx_values.specs.Zip.{zip};
ghost use Rattle.rsx_model.specs.Eval.{chosen, ended_by_record};
ghost use Rattle.rsx_model.specs.Answer.{Gives, GivesAll};

use crate::evaluate::Trouble;
use crate::operators::concatenation::concat;
use rsx_types::{NoMemory, Note, Ops, StreamValue};
use rsx_values::{Input, Latest, Zip, merge, merge_delay};
use std::alloc::Global;

/// The value of `concat` over the values of its inputs.
pub(crate) fn concat_of<T: Drop>(
    alloc: Global,
    values: Result<Vec<StreamValue<T>>, Trouble>,
) -> Result<StreamValue<T>, Trouble>
    ensures { (o : Option (List (Stream T))) → GivesAll values o → Gives result (option_map concat o) }
{
    Ok(concat(alloc, values?)?)
}

/// The value of `merge` over the values of its inputs, by the choices that were recorded; any other record is out of place.
pub(crate) fn merge_of<T: Drop>(
    alloc: Global,
    note: &Note,
    values: Result<Vec<StreamValue<T>>, Trouble>,
) -> Result<StreamValue<T>, Trouble>
    ensures { (o : Option (List (Stream T))) → GivesAll values o → Gives result (chosen (Some note.now) (λ cs. option_and_then (merge cs) o)) }
{
    match note {
        Note::Picks(choices) => if_valid(merge(alloc, values?, choices.as_slice())?),
        Note::Nothing => Err(Trouble::BadNotes),
        Note::Ended(_) => Err(Trouble::BadNotes),
    }
}

/// The value of `mergeDelayError` over the values of its inputs, by the choices that were recorded; any other record is out of place.
pub(crate) fn merge_delay_of<T: Drop>(
    alloc: Global,
    note: &Note,
    values: Result<Vec<StreamValue<T>>, Trouble>,
) -> Result<StreamValue<T>, Trouble>
    ensures { (o : Option (List (Stream T))) → GivesAll values o → Gives result (chosen (Some note.now) (λ cs. option_and_then (merge_delay cs) o)) }
{
    match note {
        Note::Picks(choices) => if_valid(merge_delay(alloc, values?, choices.as_slice())?),
        Note::Nothing => Err(Trouble::BadNotes),
        Note::Ended(_) => Err(Trouble::BadNotes),
    }
}

/// The value of `zip` over the values of its inputs, by the input whose ending was recorded, if one was; any other record is out
/// of place.
pub(crate) fn zip_of<O: Ops>(
    alloc: Global,
    ops: &O,
    note: &Note,
    values: Result<Vec<StreamValue<O::Item>>, Trouble>,
) -> Result<StreamValue<O::Item>, Trouble>
    ensures { (o : Option (List (Stream O.Item))) → GivesAll values o →
        Gives result (ended_by_record (Some note.now) (λ i. option_and_then (zip (O.meaning ops.now).row_of i) o)) }
{
    match note {
        Note::Ended(recorded) => if_valid(values?.zip(alloc, ops, *recorded)?),
        Note::Nothing => Err(Trouble::BadNotes),
        Note::Picks(_) => Err(Trouble::BadNotes),
    }
}

/// The value of `combineLatest` over the values of its inputs, by the choices that were recorded; any other record is out of
/// place.
pub(crate) fn latest_of<O: Ops>(
    alloc: Global,
    ops: &O,
    note: &Note,
    values: Result<Vec<StreamValue<O::Item>>, Trouble>,
) -> Result<StreamValue<O::Item>, Trouble>
    ensures { (o : Option (List (Stream O.Item))) → GivesAll values o →
        Gives result (chosen (Some note.now) (λ cs. option_and_then (combine_latest (O.meaning ops.now).row_of cs) o)) }
{
    match note {
        Note::Picks(choices) => if_valid(combined_of(alloc, ops, values?, choices.as_slice())?),
        Note::Nothing => Err(Trouble::BadNotes),
        Note::Ended(_) => Err(Trouble::BadNotes),
    }
}

/// The value of `combineLatest` over values, by these choices.
fn combined_of<O: Ops>(
    alloc: Global,
    ops: &O,
    values: Vec<StreamValue<O::Item>>,
    choices: &[u64],
) -> Result<Option<StreamValue<O::Item>>, NoMemory>
    ensures { IfOk result (λ o. o ≡ combine_latest (O.meaning ops.now).row_of choices.now values.items) }
{
    let mut latest = no_items_yet(alloc, &values)?;
    let inputs = numbered_inputs(alloc, values)?;
    latest.combine(alloc, ops, inputs, choices)
}

/// The latest item of each of the values, none of which had one.
fn no_items_yet<T: Drop>(
    alloc: Global,
    values: &[StreamValue<T>],
) -> Result<Vec<Option<T>>, NoMemory>
    ensures { IfOk result (λ v. v.items ≡ none_yet values.now) }
{
    let mut latest = Vec::new(alloc);
    for _value in values {
        latest.push(None)?;
    }
    Ok(latest)
}

/// The values as inputs of a pick, numbered from 0 on.
fn numbered_inputs<T: Drop>(
    alloc: Global,
    values: Vec<StreamValue<T>>,
) -> Result<Vec<Input<T>>, NoMemory>
    ensures { IfOk result (λ v. v.items ≡ numbered 0 values.items) }
{
    let mut inputs = Vec::new(alloc);
    for value in values {
        let number = inputs.len() as u64;
        inputs.push(Input::new(alloc, number, value)?)?;
    }
    Ok(inputs)
}

/// The value, unless the choices or the recorded ending that it follows were invalid.
pub(crate) fn if_valid<T: Drop>(value: Option<StreamValue<T>>) -> Result<StreamValue<T>, Trouble>
    ensures { Gives result value }
{
    match value {
        Some(value) => Ok(value),
        None => Err(Trouble::BadNotes),
    }
}
