//! Rows of a zip, many at once.

ghost use Rattle.std.specs.Prelude.{◌≡◌, ◌≤◌, [], false, length, None};
ghost use Rattle.rsx_combining.specs.Zip.{IsZipCounted, IsZipRow, ZipState, zip_comes_out, zip_done, zip_ended, zip_picks, zip_popped, zip_recorded, zip_recording, zip_rows, zip_step_allocates, zip_waiting};
ghost use Rattle.rsx_rooted.specs.Items.{ArePopped};
ghost use Rattle.rsx_sources.specs.Passed.{IsSteppedOut};
ghost use Rattle.rsx_sources.specs.Steps.{StaysAlike};
ghost use Rattle.rsx_kinds.specs.ZipRows.{IsRowOut};

use rsx_combining::ZipNode;
use rsx_sources::Machine;
use rsx_types::Ops;
use std::alloc::Global;

/// Rows that are made and handed out at once.
pub(crate) trait RowsOut<T: Drop> {
    ghost state: { Self → ZipState T };

    /// Makes rows, at most `most`, as long as an item waits at each input, and puts them into the list, which is empty. It is called where
    /// as many were asked of the zip. It answers no where it made none, as for want of memory. Then nothing has changed.
    fn rows_out<O: Ops<Item = T>>(
        &mut self,
        alloc: Global,
        ops: &O,
        most: u64,
        items: &mut Vec<T>,
    ) -> bool
        requires { items.old.items ≡ [] }
        ensures out { ArePopped (IsRowOut (O.meaning ops.now)) (state self.old) items.new.items (state self.new) }
        ensures most { length items.new.items ≤ most }
        ensures no { result ≡ false → (self.new ≡ self.old) × (items.new.items ≡ []) };

    /// As [`Machine::step_item`]. It isn't inlined, so that the steps of other nodes stay short.
    fn row_out<O: Ops<Item = T>>(
        &mut self,
        alloc: Global,
        ops: &O,
        asked: u64,
        sent: u64,
    ) -> Option<T>
        ensures out { IsSteppedOut (zip_comes_out (O.meaning ops.now)) (zip_waiting (O.meaning ops.now))
            zip_picks zip_rows IsZipRow zip_popped zip_recording zip_recorded IsZipCounted zip_ended zip_done (state self.old) asked sent result (state self.new) }
        ensures alike { StaysAlike (λ n. None) (λ n. false) (λ a n. false) (λ a n. false) zip_step_allocates (state self.old) (state self.new) };
}

impl<T: Drop> RowsOut<T> for ZipNode<T> {
    ghost state = { λ n. n };

    fn rows_out<O: Ops<Item = T>>(
        &mut self,
        alloc: Global,
        ops: &O,
        most: u64,
        items: &mut Vec<T>,
    ) -> bool
        requires { items.old.items ≡ [] }
        ensures out { ArePopped (IsRowOut (O.meaning ops.now)) self.old items.new.items self.new }
        ensures most { length items.new.items ≤ most }
        ensures no { result ≡ false → (self.new ≡ self.old) × (items.new.items ≡ []) }
    {
        if items.reserve(most as usize).is_err() {
            return false;
        }
        for made in 0..most {
            match self.step_item(alloc, ops, 1, 0) {
                Some(item) => items.push_reserved(item),
                None => break,
            }
        }
        !items.is_empty()
    }

    #[inline(never)]
    fn row_out<O: Ops<Item = T>>(
        &mut self,
        alloc: Global,
        ops: &O,
        asked: u64,
        sent: u64,
    ) -> Option<T>
        ensures out { IsSteppedOut (zip_comes_out (O.meaning ops.now)) (zip_waiting (O.meaning ops.now))
            zip_picks zip_rows IsZipRow zip_popped zip_recording zip_recorded IsZipCounted zip_ended zip_done self.old asked sent result self.new }
        ensures alike { StaysAlike (λ n. None) (λ n. false) (λ a n. false) (λ a n. false) zip_step_allocates self.old self.new }
    {
        self.step_item(alloc, ops, asked, sent)
    }
}
