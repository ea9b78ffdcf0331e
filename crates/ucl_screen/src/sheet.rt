//! A sheet as a value. How it is read is in `reading`.

use ucl_board::Board;
use ucl_order::Roster;

/// The clubs and the board of a group, read from rows: four of clubs and twelve of match words.
#[derive(Debug, Drop)]
pub struct Sheet {
    /// The clubs of rows 1 to 4.
    pub roster: Roster,
    /// The board of the words of rows 5 to 16.
    pub board: Board,
}
