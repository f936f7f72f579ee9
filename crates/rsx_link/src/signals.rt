//! Signals and requests.

ghost use Rattle.std.specs.Prelude.{◌≡◌};
ghost use Rattle.rsx_link.specs.Signals as spec;

use rsx_types::Signal;

/// Whether the signal is an item, and not an ending.
pub(crate) fn is_item<T>(signal: &Signal<T>) -> bool
    ensures { result ≡ spec.is_item signal.now }
{
    matches!(signal, Signal::Next(_))
}

/// The items of a request, if it is a good one.
pub(crate) fn positive(n: i64) -> Option<u64>
    ensures { result ≡ spec.request_of n }
{
    if n > 0 { Some(n as u64) } else { None }
}
