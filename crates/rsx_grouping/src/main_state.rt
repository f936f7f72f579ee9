//! Where Main is.

ghost use Rattle.std.specs.Prelude.{◌≡◌};
ghost use Rattle.rsx_grouping.specs.MainState.{is_coming, is_done, is_ready, is_taken, ended_by, items_before, ending_behind};

use rsx_types::{Cause, Ending};

/// Where Main is, which has the ending of the input.
#[derive(Clone, Copy, Debug, PartialEq, Eq)]
pub enum MainState {
    /// The ending of the input has not come.
    Coming,
    /// The completion came.
    Completed,
    /// The input failed with this cause, or an item's key was a fault.
    Failing(Cause),
    /// The completion was picked.
    Taken,
}

impl MainState {
    /// Whether the ending of the input has not come.
    pub fn is_coming(&self) -> bool
        ensures { result ≡ is_coming self.now }
    {
        matches!(self, MainState::Coming)
    }

    /// Whether the completion of the input came, so that the lanes can be completed.
    pub fn is_done(&self) -> bool
        ensures { result ≡ is_done self.now }
    {
        matches!(self, MainState::Completed | MainState::Taken)
    }

    /// Whether Main can be picked: the ending came and was not picked.
    pub fn is_ready(&self) -> bool
        ensures { result ≡ is_ready self.now }
    {
        matches!(self, MainState::Completed | MainState::Failing(_))
    }

    /// Where Main is once the input has ended so that it is there then; a second ending changes nothing.
    pub fn ended_by(self, ending: MainState) -> MainState
        ensures { result ≡ ended_by self ending }
    {
        match self {
            MainState::Coming => ending,
            other => other,
        }
    }

    /// Which of the items still come in that stand before it: all of them until it came, and then none.
    pub(crate) fn items_before<'a, T>(&self, items: &'a [T]) -> &'a [T]
        ensures { result.now ≡ items_before self.now items.now }
    {
        match self {
            MainState::Coming => items,
            MainState::Completed | MainState::Failing(_) | MainState::Taken => &[],
        }
    }

    /// How what still comes in ends, where the input ends so unless its ending came.
    pub(crate) fn ending_behind(&self, ending: Ending) -> Ending
        ensures { result ≡ ending_behind self.now ending }
    {
        match self {
            MainState::Coming => ending,
            MainState::Completed | MainState::Taken => Ending::Done,
            MainState::Failing(cause) => Ending::Failed(*cause),
        }
    }

    /// Whether the completion was picked.
    pub fn is_taken(&self) -> bool
        ensures { result ≡ is_taken self.now }
    {
        matches!(self, MainState::Taken)
    }
}
