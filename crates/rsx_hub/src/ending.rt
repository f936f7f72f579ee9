//! Endings that wait behind items.

ghost use Rattle.std.specs.Prelude.{◌≡◌};
ghost use Rattle.rsx_hub.specs.Waiting.{is_open, ending_front, ending_signal};

use rsx_sources::Front;
use rsx_types::{Ending, Signal};

/// Whether more may come.
pub(crate) fn is_open(ending: Ending) -> bool
    ensures { result ≡ is_open ending }
{
    match ending {
        Ending::Open => true,
        Ending::Done | Ending::Failed(_) => false,
    }
}

/// Which signal an ending is.
pub(crate) fn front(ending: Ending) -> Option<Front>
    ensures { result ≡ ending_front ending }
{
    match ending {
        Ending::Open => None,
        Ending::Done => Some(Front::Completion),
        Ending::Failed(cause) => Some(Front::Failure(cause)),
    }
}

/// The signal of an ending.
pub(crate) fn signal<T>(ending: Ending) -> Option<Signal<T>>
    ensures { result ≡ ending_signal ending }
{
    match ending {
        Ending::Open => None,
        Ending::Done => Some(Signal::Complete),
        Ending::Failed(cause) => Some(Signal::Error(cause)),
    }
}
