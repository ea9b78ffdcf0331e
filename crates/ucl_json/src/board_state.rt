//! `BoardState`: the whole state of the board of a group, as a line of JSON carries it.

use crate::header::BoardHeader;
use ucl_board::Board;
use ucl_order::Roster;

/// A board state of a group: the header of its board, the clubs and the board.
#[derive(Drop)]
pub struct BoardState {
    /// The group, the tie-break order of the clubs, and the edition.
    pub header: BoardHeader,
    /// The clubs.
    pub roster: Roster,
    /// The board.
    pub board: Board,
}
