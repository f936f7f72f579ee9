//! Operators with lanes and `publishOnEager`, over the value of their only input.

ghost use Rattle.std.specs.Prelude.{Option, Some, option_map, option_and_then};
ghost use Rattle.rsx_types.specs.Stream.{Stream};
ghost use Rattle.rsx_values.specs.Eager.{eager_of};
ghost use Rattle.rsx_values.specs.Flat.{flat_map, flat_map_delay};
ghost use Rattle.rsx_values.specs.Group.{group_by};
ghost use Rattle.rsx_values.specs.Window.{window};
ghost use Rattle.rsx_model.specs.Eval.{chosen};
ghost use Rattle.rsx_model.specs.Answer.{Gives, GivesAll, alone};

use crate::evaluate::{Trouble, only_of};
use crate::operators::eager::eager_of;
use crate::operators::flat::{flat_map, flat_map_delay};
use crate::operators::group::group_by;
use crate::operators::windowing::window;
use crate::several::if_valid;
use rsx_types::{Note, Ops, Stage, StreamValue};
use std::alloc::Global;

/// The value of `groupBy` over the value of its only input, by the choices that were recorded; any other record is out of place.
pub(crate) fn group_of<O: Ops>(
    alloc: Global,
    ops: &O,
    f: u16,
    stages: &[Stage<O::Item>],
    note: &Note,
    values: Result<Vec<StreamValue<O::Item>>, Trouble>,
) -> Result<StreamValue<O::Item>, Trouble>
    ensures { (o : Option (Stream O.Item)) → GivesAll values (alone o) →
        Gives result (chosen (Some note.now) (λ cs. option_and_then (group_by (O.meaning ops.now) f stages.now cs) o)) }
{
    match note {
        Note::Picks(choices) => {
            let input = only_of(values)?;
            if_valid(group_by(alloc, ops, f, stages, choices.as_slice(), input)?)
        }
        Note::Nothing => Err(Trouble::BadNotes),
        Note::Ended(_) => Err(Trouble::BadNotes),
    }
}

/// The value of `window` over the value of its only input; what is wrong with the input is wrong here.
pub(crate) fn window_of<O: Ops>(
    alloc: Global,
    ops: &O,
    size: u64,
    stages: &[Stage<O::Item>],
    values: Result<Vec<StreamValue<O::Item>>, Trouble>,
) -> Result<StreamValue<O::Item>, Trouble>
    ensures { (o : Option (Stream O.Item)) → GivesAll values (alone o) → Gives result (option_map (window (O.meaning ops.now) size stages.now) o) }
{
    let input = only_of(values)?;
    Ok(window(alloc, ops, size, stages, input)?)
}

/// The value of `flatMap` over the value of its only input, by the choices that were recorded; any other record is out of place.
pub(crate) fn flat_of<O: Ops>(
    alloc: Global,
    ops: &O,
    f: u16,
    stages: &[Stage<O::Item>],
    note: &Note,
    values: Result<Vec<StreamValue<O::Item>>, Trouble>,
) -> Result<StreamValue<O::Item>, Trouble>
    ensures { (o : Option (Stream O.Item)) → GivesAll values (alone o) →
        Gives result (chosen (Some note.now) (λ cs. option_and_then (flat_map (O.meaning ops.now) f stages.now cs) o)) }
{
    match note {
        Note::Picks(choices) => {
            let input = only_of(values)?;
            if_valid(flat_map(alloc, ops, f, stages, choices.as_slice(), input)?)
        }
        Note::Nothing => Err(Trouble::BadNotes),
        Note::Ended(_) => Err(Trouble::BadNotes),
    }
}

/// The value of `flatMapDelayError` over the value of its only input, by the choices that were recorded; any other record is out of place.
pub(crate) fn flat_delay_of<O: Ops>(
    alloc: Global,
    ops: &O,
    f: u16,
    stages: &[Stage<O::Item>],
    note: &Note,
    values: Result<Vec<StreamValue<O::Item>>, Trouble>,
) -> Result<StreamValue<O::Item>, Trouble>
    ensures { (o : Option (Stream O.Item)) → GivesAll values (alone o) →
        Gives result (chosen (Some note.now) (λ cs. option_and_then (flat_map_delay (O.meaning ops.now) f stages.now cs) o)) }
{
    match note {
        Note::Picks(choices) => {
            let input = only_of(values)?;
            if_valid(flat_map_delay(alloc, ops, f, stages, choices.as_slice(), input)?)
        }
        Note::Nothing => Err(Trouble::BadNotes),
        Note::Ended(_) => Err(Trouble::BadNotes),
    }
}

/// The value of `publishOnEager` over the value of its only input, by the choices that were recorded; any other record is out of place.
pub(crate) fn on_eager_of<T: Drop>(
    note: &Note,
    values: Result<Vec<StreamValue<T>>, Trouble>,
) -> Result<StreamValue<T>, Trouble>
    ensures { (o : Option (Stream T)) → GivesAll values (alone o) → Gives result (chosen (Some note.now) (λ cs. option_and_then (eager_of cs) o)) }
{
    match note {
        Note::Picks(choices) => if_valid(eager_of(only_of(values)?, choices.as_slice())),
        Note::Nothing => Err(Trouble::BadNotes),
        Note::Ended(_) => Err(Trouble::BadNotes),
    }
}
