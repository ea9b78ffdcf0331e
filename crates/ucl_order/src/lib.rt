//! The clubs of a group, their order, their marks and the table. How a table is written is in `ucl_screen`.
//!
//! # Examples
//!
//! ```rust
//! let roster = Roster::of_lent(&[
//!     LentClub { name: b"Alpha".as_slice(), coefficient: 60_000 },
//!     LentClub { name: b"Bravo".as_slice(), coefficient: 95_000 },
//!     LentClub { name: b"Charlie".as_slice(), coefficient: 60_000 },
//!     LentClub { name: b"Delta".as_slice(), coefficient: 81_500 },
//! ]).ok()?;
//! let [first, second, third, fourth] = standings(&Board::fresh(), &roster, Profile::Uefa);
//! assert_eq!([first.slot, second.slot, third.slot, fourth.slot], [2, 4, 1, 3]);
//! ```
#![tactic(auto)]

mod game;
mod keys;
mod mark;
mod order;
mod profile;
mod results;
mod roster;
mod table;
mod theorems;

pub use keys::{overall_key, tie_key};
pub use mark::Mark;
pub use profile::{PROFILE_NAMES, Profile};
pub use roster::{BadRoster, Club, LentClub, Roster};
pub use table::{Row, standings};
pub use theorems::{
    boards_fit_keys, classes_are_level, higher_has_greater_key, minus_is_certain,
    order_goes_by_standing, order_has_each_club, order_is_unique, plus_is_certain,
    rankings_are_orders, table_goes_by_coefficients, ties_follow_rule,
};
