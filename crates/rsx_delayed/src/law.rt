//! What the definition of `mergeDelayError` says. Each law is the contract of a function that does nothing.

ghost use Rattle.std.specs.Prelude.{◌≡◌, ℕ, List, [], ◌∷◌, length, Option, Some, None};
ghost use Rattle.rsx_types.specs.Stream.{Stream};
ghost use Rattle.rsx_types.specs.declared.signal.Cause.{Cause};
ghost use Rattle.rsx_types.specs.declared.signal.Signal.{Signal};
ghost use Rattle.rsx_values.specs.Merge.{merge};
ghost use Rattle.rsx_values.specs.Pick.{InputLeft, next_of};
ghost use Rattle.rsx_values.specs.Delayed.{NoneFails, merge_delay, merge_delayed_inputs, taken_first};
ghost use Rattle.rsx_delayed.specs.Rest.{all_values};
ghost use Rattle.rsx_values.specs.WorkedDelayed.{EndsItsInput, FailsChosen, FailsFirst, FailsLast, GoesOn, StaysOpen};

/// Of values of which none fails it is the merge, under the same choices.
pub fn same_as_merge<T: Drop>()
    ensures { (choices : List ℕ) (values : List (Stream T)) → NoneFails values → merge_delay choices values ≡ merge choices values }
{}

/// Where nothing is chosen, the items of the values stand one behind the other. It is open where one of the values is, and else
/// fails with the failure of the first value that fails.
pub fn nothing_chosen<T: Drop>()
    ensures { (values : List (Stream T)) → merge_delay [] values ≡ Some (all_values (length values) None values) }
{}

/// A choice that takes an item puts it in front. One that takes an ending puts nothing out: the others go on, and a failure is
/// kept where it is the first.
pub fn one_choice<T: Drop>()
    ensures { (choice : ℕ) (choices : List ℕ) (inputs others : List (InputLeft T)) (signal : Signal T) (kept : Option Cause) →
        next_of choice inputs ≡ Some (signal, others) → merge_delayed_inputs kept (choice ∷ choices) inputs ≡ taken_first signal kept choices others }
{}

/// A failure comes behind the items of the other values, and choices may follow it. It is held back as long as another value is
/// open. Of two failures the one that was taken first goes out. A value that has failed can't be chosen again.
pub fn merge_delay_worked()
    ensures last { FailsLast }
    ensures goes_on { GoesOn }
    ensures held { StaysOpen }
    ensures first { FailsFirst }
    ensures chosen { FailsChosen }
    ensures gone { EndsItsInput }
{}
