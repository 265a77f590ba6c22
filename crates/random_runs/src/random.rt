//! Numbers that look random and are the same for the same seed.

/// A generator by shifts of one word of 32 bits, which is never 0.
#[derive(Drop)]
pub struct Random {
    state: u32,
}

impl Random {
    /// A generator that begins with a seed.
    pub fn new(seed: u32) -> Random {
        Random { state: seed.max(1) }
    }

    /// The next number.
    pub fn number(&mut self) -> u32 {
        let mut state = self.state;
        state ^= state << 13;
        state ^= state >> 17;
        state ^= state << 5;
        self.state = state;
        state
    }

    /// A number below a limit; 0 where the limit is.
    pub fn below(&mut self, limit: u32) -> u32 {
        self.number().checked_rem(limit).unwrap_or(0)
    }

    /// A byte.
    pub fn byte(&mut self) -> u8 {
        let [first, ..] = self.number().to_be_bytes();
        first
    }

    /// Whether one chance in so many has come.
    pub fn once_in(&mut self, times: u32) -> bool {
        self.below(times) == 0
    }
}
