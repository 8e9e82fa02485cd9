//! Numbers from a seed (SplitMix64).

ghost use Rattle.std.specs.Prelude.{◌<◌};

/// A source of numbers.
#[derive(Drop)]
pub struct Random {
    state: u64,
}

impl Random {
    /// The numbers of a seed.
    pub fn new(seed: u32) -> Random {
        Random {
            state: u64::from(seed) << 32,
        }
    }

    /// The next number.
    #[inline]
    pub fn word(&mut self) -> u64 {
        self.state = self.state.wrapping_add(0x9e37_79b9_7f4a_7c15);
        let mixed = (self.state ^ (self.state >> 30)).wrapping_mul(0xbf58_476d_1ce4_e5b9);
        let mixed = (mixed ^ (mixed >> 27)).wrapping_mul(0x94d0_49bb_1331_11eb);
        mixed ^ (mixed >> 31)
    }

    /// The next number of 32 bits.
    #[inline]
    pub fn half(&mut self) -> u32 {
        (self.word() >> 32) as u32
    }

    /// The next number, below another one.
    #[inline]
    pub fn below(&mut self, count: u32) -> u32
        requires { 0 < count }
        ensures { result < count }
    {
        (u64::from(self.half()) * u64::from(count) >> 32) as u32
    }
}
