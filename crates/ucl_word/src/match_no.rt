//! `MatchNo`, the number of one of the twelve matches of a group.

ghost use Rattle.std.specs.Prelude.{◌≡◌, ℕ, ◌≤◌, ◌↔◌, IsSome, IfSome};

use std::marker::Model;

/// The number of a match in the group, 1 to 12. Contracts see it as that number.
///
/// # Examples
///
/// ```rust
/// assert_eq!(MatchNo::new(12)?.get(), 12);
/// assert!(MatchNo::new(13).is_none());
/// ```
#[derive(Clone, Copy, Debug, PartialEq, Eq)]
pub struct MatchNo {
    number: u8,
}

impl Model for MatchNo {
    ghost Value = { ℕ };

    ghost view = { λ m. m.number };

    ghost invariant = { λ m. (1 ≤ m.number) × (m.number ≤ 12) };

    ghost inverse = { λ n. record { number = n } };
}

impl MatchNo {
    /// Creates the number of a match, or answers `None` if `number` is not 1 to 12.
    pub fn new(number: u8) -> Option<MatchNo>
        ensures exists { IsSome result ↔ ((1 ≤ number) × (number ≤ 12)) }
        ensures value { IfSome result (λ m. m ≡ number) }
    {
        if 1 <= number && number <= 12 {
            Some(MatchNo { number })
        } else {
            None
        }
    }

    /// Returns the number of the match, 1 to 12.
    pub fn get(self) -> u8
        ensures value { result ≡ self }
        ensures within { (1 ≤ result) × (result ≤ 12) }
    {
        self.number
    }
}
