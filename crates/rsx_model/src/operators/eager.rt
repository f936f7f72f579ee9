//! The identity whose failure may overtake items, of a whole stream value under recorded choices.

ghost use Rattle.std.specs.Prelude.{◌≡◌, option_map, take};
ghost use Rattle.rsx_types.specs.Stream.{items_then};
ghost use Rattle.rsx_values.specs.Eager.{eager_of, failure_here};

use rsx_types::{Ending, StreamValue};

/// What `publishOnEager` gives of the value under these choices. A choice of 0 takes the next item, and 1 the failure, past the
/// items before it, which are dropped. What no choice took comes out behind, as it is. It takes no memory.
///
/// The answer is none where the choices don't fit: one of them finds nothing to take, or follows the failure.
pub(crate) fn eager_of<T: Drop>(value: StreamValue<T>, choices: &[u64]) -> Option<StreamValue<T>>
    ensures { result ≡ eager_of choices.now value }
{
    let mut taken = 0;
    while taken < choices.len() {
        match choices[taken] {
            0 => {
                if taken >= value.items().len() {
                    return None;
                }
                taken += 1;
            }
            1 => return failed_behind(value, taken, &choices[taken + 1..]),
            _ => return None,
        }
    }
    Some(value)
}

/// So many items and then the failure, where there is one and no choice is left.
fn failed_behind<T: Drop>(
    value: StreamValue<T>,
    taken: usize,
    choices: &[u64],
) -> Option<StreamValue<T>>
    ensures { result ≡ option_map (items_then (take taken value.items)) (failure_here value.ending choices.now) }
{
    let ending = value.ending();
    if !choices.is_empty() || !matches!(ending, Ending::Failed(_)) {
        return None;
    }
    let mut items = value.into_items();
    items.truncate(taken);
    Some(StreamValue::new(items, ending))
}
