//! What the definition of `flatMapDelayError` says. Each law is the contract of a function that does nothing.

ghost use Rattle.std.specs.Prelude.{◌≡◌, ℕ, false, List, map};
ghost use Rattle.rsx_types.specs.Meaning.{Meaning};
ghost use Rattle.rsx_types.specs.Stream.{Stream};
ghost use Rattle.rsx_types.specs.declared.stage.Stage.{Stage};
ghost use Rattle.rsx_values.specs.Flat.{expanded_items, flat_lane, flat_map};
ghost use Rattle.rsx_values.specs.Delayed.{NoneFails, fails};
ghost use Rattle.rsx_values.specs.Flat.{flat_map_delay};
ghost use Rattle.rsx_delayed.specs.FlatWorked.{FailedLaneIsGone, FaultIsHeld, FirstTakenFails, LaneFailsLast, LaneIsHeld, LanesGoOn};

/// Where no lane fails, no expansion has a fault and the input doesn't fail, it is `flatMap`, under the same choices.
pub fn same_as_flat_map<T: Drop>()
    ensures { (m : Meaning T) (f : ℕ) (stages : List (Stage T)) (choices : List ℕ) (value : Stream T) →
        let lists = expanded_items (m.expanded f) value.items value.ending in
        NoneFails (map (flat_lane m stages) lists.items) → fails lists.ending ≡ false → flat_map_delay m f stages choices value ≡ flat_map m f stages choices value }
{}

/// The failure of a lane comes behind the items of the other lanes, and choices may follow it. It is held back as long as the input
/// is open. Of the failures of a lane and of the input the one that was taken first goes out. A lane that has failed can't be chosen
/// again. A fault of the expansion is the failure of the input, and is held back too.
pub fn flat_map_delay_worked()
    ensures last { LaneFailsLast }
    ensures goes_on { LanesGoOn }
    ensures held { LaneIsHeld }
    ensures first { FirstTakenFails }
    ensures gone { FailedLaneIsGone }
    ensures fault { FaultIsHeld }
{}
