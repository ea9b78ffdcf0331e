//! `Reading`, a copy of a board with its version.

ghost use Rattle.std.specs.Prelude.{◌≡◌};
ghost use Rattle.ucl_board.specs.History.{reading_of};

use crate::board::Board;

/// A copy of a board with its version, which is how many events the board had accepted.
///
/// # Examples
///
/// ```rust
/// assert_eq!(Reading::of(&Board::fresh()).version, 0);
/// ```
#[derive(Clone, Copy, Debug, PartialEq, Eq)]
pub struct Reading {
    /// The copy of the board.
    pub board: Board,
    /// The version of `board`, if the reading was made by [`of`](Reading::of) or by a board that threads share.
    pub version: u16,
}

impl Reading {
    /// Copies a board, and adds its version.
    pub fn of(board: &Board) -> Reading
        ensures { result ≡ reading_of board.now }
    {
        Reading {
            board: *board,
            version: board.version(),
        }
    }
}
