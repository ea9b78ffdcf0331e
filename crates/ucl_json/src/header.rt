//! `BoardHeader`: of which group a board is, which profile orders its clubs, and its edition.

use ucl_order::Profile;

/// The header of a board: its group, the order of its clubs, and its edition.
#[derive(Clone, Copy, Debug, PartialEq, Eq)]
pub struct BoardHeader {
    /// The letter of the group, `A` to `H`.
    pub group: u8,
    /// The tie-break order of the clubs.
    pub profile: Profile,
    /// The edition, from 0: it rises with each mend, which puts a mistake right. A board of a later edition is newer, however few events it has.
    pub edition: u16,
}
