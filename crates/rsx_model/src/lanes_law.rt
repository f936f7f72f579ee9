//! Worked cases of the definitions. Each is the contract of a function that does nothing.

ghost use Rattle.rsx_values.specs.WorkedLanes.{FlatChosen, FlatFault, FlatLanes, GroupChosen, GroupFault, GroupLanes, GroupLimit, WindowCuts, WindowEnds, WindowSums};

/// The sums 0 1 3 of the window of 1 2, and then 0 3 of the window of 3, which is shorter. A shorter window ends as the input
/// does. No window is empty, a failure of the chain is the last that comes, and a window that is done early lets the
/// others come.
pub fn window_worked()
    ensures sums { WindowSums }
    ensures ends { WindowEnds }
    ensures cuts { WindowCuts }
{}

/// The numbers up to 3, up to 0 and up to 2. A fault is the input's failure at its item. A choice needs a lane that is there and
/// has a signal, and Main has one only once the input has ended.
pub fn flat_map_worked()
    ensures lanes { FlatLanes }
    ensures fault { FlatFault }
    ensures chosen { FlatChosen }
{}

/// The lanes of the keys modulo 3, each with its first item, and lists of two of each key. A fault of the key is the input's
/// failure at its item. A choice needs a lane that is there and has a signal, and none follows a failure. A 1,025th key
/// is a fault.
pub fn group_by_worked()
    ensures lanes { GroupLanes }
    ensures fault { GroupFault }
    ensures chosen { GroupChosen }
    ensures limit { GroupLimit }
{}
