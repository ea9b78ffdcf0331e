//! The table of a group: a row for each place, made from the clubs' results, order and marks.

ghost use Rattle.std.specs.Prelude.{◌≡◌, ◌-◌, ◌≤◌, List, [], ◌∷◌, All, length, map, slice_index};
ghost use Rattle.ucl_board.specs.Fixtures.{IsSlot};
ghost use Rattle.ucl_order.specs.declared.game.Match.{Match};
ghost use Rattle.ucl_order.specs.Counting.{FitsFields, row_by};
ghost use Rattle.ucl_order.specs.Marks.{mark_by};
ghost use Rattle.ucl_order.specs.Matches.{started};
ghost use Rattle.ucl_order.specs.Rounds.{results_of_clubs};
ghost use Rattle.ucl_order.specs.Rows.{IsWithinTable, MarkIsCertain, row_with, rows_of};

use crate::mark::{Mark, marks_of};
use crate::order::order;
use crate::profile::Profile;
use crate::results::Results;
use crate::roster::Roster;
use ucl_board::Board;

/// A club at its place of the table. All numbers but the slot, the place and the mark are of the matches in play and finished.
#[derive(Clone, Copy, Debug, PartialEq, Eq)]
pub struct Row {
    /// The slot of the club, 1 to 4.
    pub slot: u8,
    /// The place, 1 to 4.
    pub place: u8,
    /// Whether the club is sure to be among the first two, sure not to be, or neither. Only finished matches count.
    pub mark: Mark,
    /// Matches in play or finished, 0 to 6.
    pub played: u8,
    /// Matches won, 0 to 6.
    pub wins: u8,
    /// Matches drawn, 0 to 6.
    pub draws: u8,
    /// Matches lost, 0 to 6.
    pub losses: u8,
    /// Goals scored, 0 to 378.
    pub goals_for: u16,
    /// Goals conceded, 0 to 378.
    pub goals_against: u16,
    /// Three for a win, one for a draw, 0 to 18.
    pub points: u8,
}

/// Returns the row of the club in a slot, with its place, its mark and the numbers of its results.
fn row_with(place: u8, slot: u8, mark: Mark, results: &Results) -> Row
    requires { FitsFields results.now }
    ensures { result ≡ row_by place slot mark results.now }
{
    Row {
        slot,
        place,
        mark,
        played: results.played,
        wins: results.wins,
        draws: results.draws,
        losses: results.losses,
        goals_for: results.goals_for,
        goals_against: results.goals_against,
        points: results.points(),
    }
}

/// Returns the row at this place of the order, 1 to 4. Marks are by place; results are by slot, and count matches in play and finished.
fn row_at(place: u8, order: &[u8; 4], marks: &[Mark; 4], results: &[Results; 4]) -> Row
    requires at_least { 1 ≤ place }
    requires at_most { place ≤ 4 }
    requires slots { All IsSlot order.now }
    requires fits { All FitsFields results.now }
    ensures { (matches : List Match) → marks.now ≡ map (mark_by matches order.now) order.now
        → results.now ≡ results_of_clubs (started matches) →
        let slot = slice_index order.now (place - 1) in result
        ≡ row_with place slot (mark_by matches order.now slot) (started matches) }
{
    let index = usize::from(place - 1);
    let slot = order[index];
    row_with(place, slot, marks[index], &results[usize::from(slot - 1)])
}

/// Returns the table of a board, in order of place.
///
/// Clubs stand by points, three for a win and one for a draw, over the matches in play and finished. Clubs that are level on points
/// stand in the order of the Regulations of the UEFA Champions League 2021/22, equality of points in the group stage: (a) points,
/// (b) goal difference and (c) goals scored in the matches among them; (d) the same again among each smaller class that stays level;
/// then, over all matches, (e) goal difference, (f) goals scored, (g) away goals, (h) wins, (i) away wins, (j) the lower
/// disciplinary total and (k) the higher coefficient; and at last by slot. With `AwayInTie` away goals in the matches among the clubs
/// come after (c), also when (d) applies them again.
///
/// Marks go by finished matches. When all twelve are finished, the first two clubs have `Plus` and the others `Minus`. Before, a club can
/// reach its points and three more for each match that it has left: `Plus` if at most one other club can reach the club's points, `Minus`
/// if at least two others have more points than the club can reach, else `Blank`. A club with `Plus` is among the first two, and one with
/// `Minus` is not, however the group ends ([`plus_is_certain`], [`minus_is_certain`]). `Blank` promises nothing, and no mark foresees that
/// a finished match is reopened (`examples/plus_lost.csv`).
pub fn standings(board: &Board, roster: &Roster, profile: Profile) -> [Row; 4]
    ensures rows { result ≡ rows_of profile board.now roster.now }
    ensures four { length result ≡ 4 }
    ensures places { map (λ row. row.place) result ≡ 1 ∷ 2 ∷ 3 ∷ 4 ∷ [] }
    ensures within { All IsWithinTable result }
    ensures certain { All (MarkIsCertain profile board.now roster.now) result }
{
    let (results, ended) = Results::of_clubs(board);
    let order = order(board, &results, roster, profile);
    let marks = marks_of(&ended, &order);
    [
        row_at(1, &order, &marks, &results),
        row_at(2, &order, &marks, &results),
        row_at(3, &order, &marks, &results),
        row_at(4, &order, &marks, &results),
    ]
}
