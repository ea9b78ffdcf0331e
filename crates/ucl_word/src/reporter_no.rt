//! `ReporterNo`, the number of a reporter: 1 to 255.

ghost use Rattle.std.specs.Prelude.{◌≡◌, ℕ, ◌≤◌, ◌↔◌, IsSome, IfSome};

use std::marker::Model;

/// The number of a reporter, 1 to 255. Contracts see it as that number.
///
/// # Examples
///
/// ```rust
/// assert_eq!(ReporterNo::new(255)?.get(), 255);
/// assert!(ReporterNo::new(0).is_none());
/// ```
#[derive(Clone, Copy, Debug, PartialEq, Eq)]
pub struct ReporterNo {
    number: u8,
}

impl Model for ReporterNo {
    ghost Value = { ℕ };

    ghost view = { λ r. r.number };

    ghost invariant = { λ r. 1 ≤ r.number };

    ghost inverse = { λ n. record { number = n } };
}

impl ReporterNo {
    /// Creates the number of a reporter, 1 to 255, or answers `None` if `number` is 0.
    pub fn new(number: u8) -> Option<ReporterNo>
        ensures exists { IsSome result ↔ ((1 ≤ number) × (number ≤ 255)) }
        ensures value { IfSome result (λ r. r ≡ number) }
    {
        if 1 <= number {
            Some(ReporterNo { number })
        } else {
            None
        }
    }

    /// Returns the number of the reporter, 1 to 255.
    pub fn get(self) -> u8
        ensures value { result ≡ self }
        ensures within { (1 ≤ result) × (result ≤ 255) }
    {
        self.number
    }
}
