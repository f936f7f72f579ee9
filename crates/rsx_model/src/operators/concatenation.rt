//! The concat of whole stream values.

ghost use Rattle.std.specs.Prelude.{◌≡◌, ◌++◌, IfOk, OnOk};
ghost use Rattle.rsx_values.specs.Concat.{concat};

use rsx_types::{Ending, NoMemory, StreamValue};
use std::alloc::Global;

/// The items of the first value and, where it is done, those of the values behind it. The ending is that of the first value that
/// isn't done; where there is none, the whole is done.
///
/// # Errors
/// [`NoMemory`] where a growth was refused.
pub(crate) fn concat<T: Drop>(
    alloc: Global,
    values: Vec<StreamValue<T>>,
) -> Result<StreamValue<T>, NoMemory>
    ensures { IfOk result (λ v. v ≡ concat values.items) }
{
    let mut items = Vec::new(alloc);
    for value in values {
        let ending = value.ending();
        append(&mut items, value.into_items())?;
        if ending != Ending::Done {
            return Ok(StreamValue::new(items, ending));
        }
    }
    Ok(StreamValue::new(items, Ending::Done))
}

/// Puts items behind those that are there.
fn append<T: Drop>(items: &mut Vec<T>, more: Vec<T>) -> Result<(), NoMemory>
    ensures { OnOk result (items.new.items ≡ items.old.items ++ more.items) }
{
    for item in more {
        items.push(item)?;
    }
    Ok(())
}
