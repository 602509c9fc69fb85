//! Numbers of a fixed row.

/// A row of numbers, which its first one gives.
#[derive(Clone, Copy)]
pub(crate) struct Draws {
    number: u64,
}

impl Draws {
    pub(crate) fn from(number: u64) -> Draws {
        Draws { number }
    }

    /// The next byte.
    pub(crate) fn byte(&mut self) -> u8 {
        self.number = self
            .number
            .wrapping_mul(6_364_136_223_846_793_005)
            .wrapping_add(1_442_695_040_888_963_407);
        let [high, ..] = self.number.to_be_bytes();
        high
    }

    /// The next number below 256 and below this one, or 0.
    pub(crate) fn below(&mut self, limit: u32) -> u32 {
        u32::from(self.byte()).checked_rem(limit).unwrap_or(0)
    }
}
