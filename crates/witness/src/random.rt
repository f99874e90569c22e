//! Numbers that look like drawn ones, and are the same on every run.

/// A source of numbers: 64 bits, never all 0, that are stirred for each number.
#[derive(Drop)]
pub struct Random {
    state: u64,
}

impl Random {
    /// The numbers of a seed.
    pub fn new(seed: u64) -> Random {
        Random {
            state: seed.wrapping_mul(0x9E37_79B9_7F4A_7C15) | 1,
        }
    }

    /// The next number.
    fn draw(&mut self) -> u64 {
        let mut bits = self.state;
        bits ^= bits >> 12;
        bits ^= bits << 25;
        bits ^= bits >> 27;
        self.state = bits;
        bits.wrapping_mul(0x2545_F491_4F6C_DD1D)
    }

    /// A number below a bound; 0 where the bound is 0.
    pub fn below(&mut self, bound: u8) -> u8 {
        let drawn = (self.draw() >> 32) % u64::from(bound.max(1));
        u8::try_from(drawn).unwrap_or(0)
    }

    /// One of some items; none where there are none.
    pub fn one_of<T: Copy>(&mut self, items: &[T]) -> Option<T> {
        let bound = u8::try_from(items.len()).unwrap_or(u8::MAX);
        items.get(usize::from(self.below(bound))).copied()
    }

    /// Whether a chance of one in so many comes.
    pub fn one_in(&mut self, chances: u8) -> bool {
        self.below(chances) == 0
    }
}
