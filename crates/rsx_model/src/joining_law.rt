//! Worked cases of the definitions. Each is the contract of a function that does nothing.

ghost use Rattle.rsx_model.specs.WorkedEager.{FindsNoFailure, FindsNoItem, NoOtherChoice, NothingBehind, Overtakes, OvertakesAll, TakesAll, TakesEach};
ghost use Rattle.rsx_model.specs.WorkedJoins.{CombinesBoth, CombinesUpTo, CombinesUntilStop, CombinesChosen, ZipsShorter, ZipsFailure, ZipsNoOther, ZipsFirstEnding, ZipsOpen};

/// Rows of 1 2 and of 5 6 7 are those of 1 5 and 2 6; the ending is that of the value whose items are used up; it is the one
/// that was recorded, and where none was, that of the first such value; while there is no such value, the rows are Open.
pub fn zip_worked()
    ensures shorter { ZipsShorter }
    ensures failure { ZipsFailure }
    ensures no_other { ZipsNoOther }
    ensures first { ZipsFirstEnding }
    ensures open { ZipsOpen }
{}

/// A row stands at each item once both values have had one; the completion of a value without any item ends them, and a choice
/// behind that has only to find a signal. As a node chooses, nothing is chosen there.
pub fn combine_latest_worked()
    ensures both { CombinesBoth }
    ensures up_to { CombinesUpTo }
    ensures until_stop { CombinesUntilStop }
    ensures chosen { CombinesChosen }
{}

/// With no choice all comes out, and so it does where each item was chosen. The failure overtakes the items that were not chosen
/// before it. A choice that finds no item, or no failure, fits nothing, nor does one behind the failure or with another number.
pub fn eager_worked()
    ensures all { TakesAll }
    ensures each { TakesEach }
    ensures overtakes { Overtakes }
    ensures overtakes_all { OvertakesAll }
    ensures no_item { FindsNoItem }
    ensures no_failure { FindsNoFailure }
    ensures nothing_behind { NothingBehind }
    ensures no_other { NoOtherChoice }
{}
