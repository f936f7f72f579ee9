//! The laws of the gate machine, each the contract of a function that does nothing.

ghost use Rattle.rsx_gate.specs.Laws.{AtMostOnePass, GoneHasNoNote, MissedHasNote};

/// In a legal history at most one seat has the pass.
pub fn at_most_one_pass()
    ensures { AtMostOnePass }
{}

/// `leave` answers Gone only where no enter stands after the holder's last mark.
pub fn gone_has_no_note()
    ensures { GoneHasNoNote }
{}

/// `leave` answers Missed only where an enter stands after the holder's last mark, or where the holder has made none since it got the pass.
pub fn missed_has_note()
    ensures { MissedHasNote }
{}
