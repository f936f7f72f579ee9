//! Rows of latest items, many at once.

ghost use Rattle.std.specs.Prelude.{◌≡◌, ◌<◌, Some, List, map, length, slice_set, IfSome};
ghost use Rattle.rsx_combining.specs.LatestRows.{last_item};

use rsx_types::Ops;
use std::alloc::Global;
use std::mem;

/// Latest items, one of each input, for many rows.
pub trait LatestRows<T: Drop> {
    /// The items.
    ghost latest: { Self → List T };

    /// Puts into the place of each of these items the row of the latest items with that item at this place, and answers the
    /// last of the items. None where `Ops::row` refused one; what `items` holds then is open.
    fn put_rows<O: Ops<Item = T>>(
        &mut self,
        alloc: Global,
        ops: &O,
        at: usize,
        items: &mut Vec<T>,
    ) -> Option<T>
        requires there { at < length (latest self.old) }
        requires some { 0 < length items.old.items }
        ensures rows { IfSome result (λ last.
            items.new.items ≡ map (λ x. (O.meaning ops.now).row_of (slice_set (latest self.old) at x)) items.old.items) }
        ensures last { IfSome result (λ last. last_item items.old.items ≡ Some last) };
}

impl<T: Drop> LatestRows<T> for Vec<T> {
    ghost latest = { λ v. v.items };

    fn put_rows<O: Ops<Item = T>>(
        &mut self,
        alloc: Global,
        ops: &O,
        at: usize,
        items: &mut Vec<T>,
    ) -> Option<T> {
        for place in 0..items.len() {
            mem::swap(&mut self[at], &mut items[place]);
            match ops.row(alloc, self.as_slice()) {
                Ok(row) => items[place] = row,
                Err(_) => return None,
            }
        }
        Some(self.remove(at))
    }
}
