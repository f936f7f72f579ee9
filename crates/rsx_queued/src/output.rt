//! The out slot of a node with several inputs.

ghost use Rattle.std.specs.Prelude.{◌≡◌, true, IfSome, option_map};
ghost use Rattle.rsx_types.specs.declared.signal.Signal.TheVariants.{Next};
ghost use Rattle.rsx_sources.specs.Machine.{front_of};
ghost use Rattle.rsx_queued.specs.Output.{out_signal, out_item, is_empty, first_output, has_ending, popped, item_popped, IsOut};
ghost use Rattle.rsx_queued.specs.declared.output.Output.{Output as OutputSpec};
ghost use Rattle.rsx_queued.specs.declared.output.Output.TheVariants.{Waiting};

use rsx_sources::Front;
use rsx_types::Signal;
use std::mem;

/// Which signal this is.
pub fn front_of<T>(signal: &Signal<T>) -> Front
    ensures { result ≡ front_of signal.now }
{
    match signal {
        Signal::Next(_) => Front::Item,
        Signal::Complete => Front::Completion,
        Signal::Error(cause) => Front::Failure(*cause),
    }
}

/// What a node of so many inputs puts out at first: one without inputs completes at once.
pub fn first_output<T: Drop>(inputs: u32) -> Output<T>
    ensures { result ≡ first_output inputs }
{
    if inputs == 0 {
        return Output::Waiting(Signal::Complete);
    }
    Output::Empty
}

/// What a node with several inputs has put out and its receiver has not taken yet: at most one signal. No call takes memory.
#[derive(Drop)]
pub enum Output<T> {
    /// No signal waits.
    Empty,
    /// This signal waits.
    Waiting(Signal<T>),
    /// The ending went out, so nothing follows (rule 1.7).
    Over,
}

impl<T: Drop> Output<T> {
    /// Which signal waits, if one does.
    pub fn front(&self) -> Option<Front>
        ensures { result ≡ option_map front_of (out_signal self.now) }
    {
        match self {
            Output::Waiting(signal) => Some(front_of(signal)),
            Output::Empty | Output::Over => None,
        }
    }

    /// Whether a signal may be put out: none waits, and the ending did not go out.
    pub fn is_empty(&self) -> bool
        ensures { result ≡ is_empty self.now }
    {
        matches!(self, Output::Empty)
    }

    /// Whether the ending waits.
    pub fn has_ending(&self) -> bool
        ensures { result ≡ has_ending self.now }
    {
        match self {
            Output::Waiting(Signal::Complete) | Output::Waiting(Signal::Error(_)) => true,
            Output::Waiting(Signal::Next(_)) | Output::Empty | Output::Over => false,
        }
    }

    /// Puts a signal out. None waits.
    pub fn put(&mut self, signal: Signal<T>)
        requires { is_empty self.old ≡ true }
        ensures { self.new ≡ Waiting signal }
    {
        *self = Output::Waiting(signal);
    }

    /// Takes the signal that waits, if one does. After an ending nothing follows.
    pub fn pop(&mut self) -> Option<Signal<T>>
        ensures signal { result ≡ out_signal self.old }
        ensures state { self.new ≡ popped self.old }
        ensures out { IfSome result (λ s. IsOut self.old s self.new) }
    {
        match mem::replace(self, Output::Empty) {
            Output::Empty => None,
            Output::Waiting(Signal::Next(item)) => Some(Signal::Next(item)),
            Output::Waiting(ending) => {
                *self = Output::Over;
                Some(ending)
            }
            Output::Over => {
                *self = Output::Over;
                None
            }
        }
    }

    /// Takes the item that waits, if one does. An ending stays.
    pub fn pop_item(&mut self) -> Option<T>
        ensures item { result ≡ out_item self.old }
        ensures state { self.new ≡ item_popped self.old }
        ensures out { IfSome result (λ x. IsOut self.old (Next x) self.new) }
    {
        match self {
            Output::Waiting(Signal::Next(_)) => match self.pop() {
                Some(Signal::Next(item)) => Some(item),
                _ => None,
            },
            _ => None,
        }
    }

    /// Puts the signal back that went out last. Then it waits as before.
    pub fn put_back(&mut self, taken: Signal<T>)
        ensures { (before : OutputSpec T) → IsOut before taken self.old → self.new ≡ before }
    {
        *self = Output::Waiting(taken);
    }
}
