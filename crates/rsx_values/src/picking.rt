//! The pick: signals taken from numbered inputs, by choices and then input by input.

ghost use Rattle.std.specs.Prelude.{◌≡◌, ◌<◌, ◌++◌, length, IfOk, OnOk, List, slice_index_or, option_map};
ghost use Rattle.rsx_types.specs.Stream.{signals};
ghost use Rattle.rsx_values.specs.Pick.{InputLeft, Taken, is_failure, pick, rest_of, up_to_failure};
ghost use Rattle.rsx_values.specs.Delayed.{all_of, pick_all, rest_of_all};
ghost use Rattle.rsx_values.specs.Steps.{TakesAt, TakesNext, unless_failed};

use rsx_types::{Ending, NoMemory, Signal, StreamValue};
use std::alloc::Global;
use std::collections::VecDeque;
use std::marker::Model;

/// One input of a pick: its number, and the signals that it has left. Contracts see a pair of these.
#[derive(Drop)]
pub struct Input<T> {
    number: u64,
    signals: VecDeque<Signal<T>>,
}

impl<T> Model for Input<T> {
    ghost use Rattle.rsx_values.specs.Pick.{InputLeft};

    ghost Value = { InputLeft T };

    ghost view = { λ i. (i.number, i.signals.items) };
}

impl<T: Drop> Input<T> {
    /// The input with this number and the signals of this value: its items, and then its ending.
    ///
    /// # Errors
    /// [`NoMemory`] where a growth was refused.
    pub fn new(alloc: Global, number: u64, value: StreamValue<T>) -> Result<Input<T>, NoMemory>
        ensures { IfOk result (λ i. i ≡ (number, signals value)) }
    {
        let ending = value.ending();
        let mut signals = VecDeque::new(alloc);
        for item in value.into_items() {
            signals.push_back(Signal::Next(item))?;
        }
        match ending {
            Ending::Open => {}
            Ending::Done => signals.push_back(Signal::Complete)?,
            Ending::Failed(cause) => signals.push_back(Signal::Error(cause))?,
        }
        Ok(Input { number, signals })
    }
}

/// Takes the next signal of the input at this place. An input whose ending was taken is gone.
fn take_at<T: Drop>(inputs: &mut Vec<Input<T>>, at: usize) -> Option<Signal<T>>
    requires { at < length inputs.old.items }
    ensures { (i : InputLeft T) → slice_index_or inputs.old.items at i ≡ i → TakesAt inputs.old.items at i result inputs.new.items }
{
    match inputs[at].signals.front() {
        Some(Signal::Next(_)) => inputs[at].signals.pop_front(),
        Some(_) => inputs.remove(at).signals.pop_front(),
        None => None,
    }
}

/// Takes the next signal of the first input with this number, where there is one.
fn take_next<T: Drop>(inputs: &mut Vec<Input<T>>, choice: u64) -> Option<Signal<T>>
    ensures { TakesNext choice inputs.old.items result inputs.new.items }
{
    let mut at = 0;
    while at < inputs.len() {
        if inputs[at].number == choice {
            return take_at(inputs, at);
        }
        at += 1;
    }
    None
}

fn fails<T>(signal: &Signal<T>) -> bool
    ensures { result ≡ is_failure signal.now }
{
    matches!(signal, Signal::Error(_))
}

/// The signals that are taken, each with the number of its input: those of the choices in their order, and then what is left,
/// input by input, up to the first failure.
///
/// The answer is none where the choices don't fit: one of them finds no signal, or follows a failure.
///
/// # Errors
/// [`NoMemory`] where a growth was refused.
pub fn pick<T: Drop>(
    alloc: Global,
    mut inputs: Vec<Input<T>>,
    choices: &[u64],
) -> Result<Option<Vec<(u64, Signal<T>)>>, NoMemory>
    ensures { IfOk result (λ o. option_map (λ v. v.items) o ≡ pick choices.now inputs.items) }
{
    let mut out = Vec::new(alloc);
    let mut failed = false;
    for choice in choices {
        if failed {
            return Ok(None);
        }
        match take_next(&mut inputs, *choice) {
            None => return Ok(None),
            Some(signal) => {
                failed = fails(&signal);
                out.push((*choice, signal))?;
            }
        }
    }
    if failed {
        return Ok(Some(out));
    }
    drain_all(inputs, &mut out)?;
    Ok(Some(out))
}

/// Takes all that is left, up to the first failure.
fn drain_all<T: Drop>(
    inputs: Vec<Input<T>>,
    out: &mut Vec<(u64, Signal<T>)>,
) -> Result<(), NoMemory>
    ensures { OnOk result (out.new.items ≡ out.old.items ++ rest_of inputs.items) }
{
    for input in inputs {
        if drain(input, out)? {
            return Ok(());
        }
    }
    Ok(())
}

/// Takes an input's signals up to its failure, and says whether there was one.
fn drain<T: Drop>(input: Input<T>, out: &mut Vec<(u64, Signal<T>)>) -> Result<bool, NoMemory>
    ensures { IfOk result (λ failed. (rest : List (Taken T)) →
        out.old.items ++ up_to_failure input.0 input.1 rest ≡ out.new.items ++ unless_failed failed rest) }
{
    let Input {
        number,
        mut signals,
    } = input;
    while let Some(signal) = signals.pop_front() {
        let failed = fails(&signal);
        out.push((number, signal))?;
        if failed {
            return Ok(true);
        }
    }
    Ok(false)
}

/// The signals that are taken, each with the number of its input, where choices may follow a failure: those of the choices in
/// their order, and then all that is left, input by input.
///
/// The answer is none where the choices don't fit: one of them finds no signal.
///
/// # Errors
/// [`NoMemory`] where a growth was refused.
pub(crate) fn pick_all<T: Drop>(
    alloc: Global,
    mut inputs: Vec<Input<T>>,
    choices: &[u64],
) -> Result<Option<Vec<(u64, Signal<T>)>>, NoMemory>
    ensures { IfOk result (λ o. option_map (λ v. v.items) o ≡ pick_all choices.now inputs.items) }
{
    let mut out = Vec::new(alloc);
    for choice in choices {
        match take_next(&mut inputs, *choice) {
            None => return Ok(None),
            Some(signal) => out.push((*choice, signal))?,
        }
    }
    take_each(inputs, &mut out)?;
    Ok(Some(out))
}

/// Takes all that is left, whatever fails.
fn take_each<T: Drop>(
    inputs: Vec<Input<T>>,
    out: &mut Vec<(u64, Signal<T>)>,
) -> Result<(), NoMemory>
    ensures { OnOk result (out.new.items ≡ out.old.items ++ rest_of_all inputs.items) }
{
    for input in inputs {
        take_all(input, out)?;
    }
    Ok(())
}

/// Takes an input's signals.
fn take_all<T: Drop>(input: Input<T>, out: &mut Vec<(u64, Signal<T>)>) -> Result<(), NoMemory>
    ensures { OnOk result ((rest : List (Taken T)) → out.old.items ++ all_of input.0 input.1 rest ≡ out.new.items ++ rest) }
{
    let Input {
        number,
        mut signals,
    } = input;
    while let Some(signal) = signals.pop_front() {
        out.push((number, signal))?;
    }
    Ok(())
}
