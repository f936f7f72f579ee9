//! A flag for each worker.

ghost use Rattle.std.specs.Prelude.{◌≡◌, ℕ, ◌<◌, false, length, slice_index_or, slice_set};

/// A flag for each worker that a `u8` can name.
#[derive(Clone, Copy)]
pub struct Workers {
    pub flags: [bool; 256],
}

impl Workers {
    /// No flag is set.
    pub fn none() -> Workers
        ensures none { (w : ℕ) → w < 256 → slice_index_or result.flags w false ≡ false }
        ensures all { length result.flags ≡ 256 }
    {
        Workers {
            flags: [false; 256],
        }
    }

    /// Whether the worker's flag is set.
    pub fn has(&self, worker: u8) -> bool
        ensures flag { result ≡ slice_index_or self.now.flags worker false }
        ensures named { worker < 256 }
    {
        self.flags[worker as usize]
    }

    /// Sets or clears the worker's flag. The others stay.
    pub fn set(&mut self, worker: u8, flag: bool)
        ensures { self.new.flags ≡ slice_set self.old.flags worker flag }
    {
        self.flags[worker as usize] = flag;
    }
}
