//! Numbers that look random.

use ucl_word::Kind;
use ucl_word::Kind::{Disallow, FullTime, Goal, KickOff, Red, Reopen, SecondYellow, Yellow};
use ucl_word::Side::{Away, Home};

/// A source of numbers that look random, the same for the same seed (xorshift with 64 bits of state).
#[derive(Clone, Copy)]
pub struct Random(u64);

impl Random {
    /// The source of random numbers with this seed.
    pub fn of(seed: u64) -> Random {
        Random(seed.wrapping_mul(0x9e37_79b9_7f4a_7c15) | 1)
    }

    /// The next number below a bound; 0 where the bound is 0.
    pub fn below(&mut self, bound: u8) -> u8 {
        self.0 ^= self.0 << 13;
        self.0 ^= self.0 >> 7;
        self.0 ^= self.0 << 17;
        let number = self.0.checked_rem(u64::from(bound)).unwrap_or(0);
        u8::try_from(number).unwrap_or(0)
    }

    /// A kind of event. Full time and reopening are rare, so that matches go on.
    pub fn kind(&mut self) -> Kind {
        let side = if self.below(2) == 0 { Home } else { Away };
        match self.below(40) {
            0..8 => KickOff,
            8..18 => Goal(side),
            18..24 => Disallow(side),
            24..29 => Yellow(side),
            29..34 => SecondYellow(side),
            34..37 => Red(side),
            37 | 38 => FullTime,
            _ => Reopen,
        }
    }
}
