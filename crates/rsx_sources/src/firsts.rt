//! What comes in at the first input.

ghost use Rattle.std.specs.Prelude.{◌≡◌};
ghost use Rattle.rsx_sources.specs.Heads.{head_of};

use rsx_types::{Ending, StreamValue};

/// The items that come in at the first input; none where no value is named.
pub fn first_items<T>(incoming: &[StreamValue<T>]) -> &[T]
    ensures { result.now ≡ (head_of incoming.now).items }
{
    match incoming.first() {
        Some(value) => value.items(),
        None => &[],
    }
}

/// How the first input ends; it stays open where no value is named.
pub fn first_ending<T>(incoming: &[StreamValue<T>]) -> Ending
    ensures { result ≡ (head_of incoming.now).ending }
{
    match incoming.first() {
        Some(value) => value.ending(),
        None => Ending::Open,
    }
}
