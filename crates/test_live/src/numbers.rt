//! Numbers without a pattern.

/// Makes numbers without a pattern, each from the one before, the same ones in every run.
#[derive(Drop)]
pub struct Numbers {
    last: u32,
}

impl Numbers {
    /// The numbers of this seed.
    pub fn new(seed: u32) -> Numbers {
        // From 0 would come 0 alone.
        Numbers {
            last: seed.wrapping_mul(2_654_435_769).max(1),
        }
    }

    /// The next number: a shift register with exclusive or (xorshift), which comes to each number but 0.
    fn next(&mut self) -> u32 {
        let first = self.last ^ (self.last << 13);
        let second = first ^ (first >> 17);
        self.last = second ^ (second << 5);
        self.last
    }

    /// The next number, made smaller than this; 0 where nothing is.
    pub fn below(&mut self, bound: u32) -> u32 {
        self.next().checked_rem(bound).unwrap_or(0)
    }
}
