//! Marks: which clubs are sure of a place among the first two, or sure of none, by finished matches only.

ghost use Rattle.std.specs.Prelude.{◌≡◌, All, List, map};
ghost use Rattle.std.specs.List.{list_all};
ghost use Rattle.ucl_board.specs.Fixtures.{IsSlot};
ghost use Rattle.ucl_order.specs.declared.game.Match.{Match};
ghost use Rattle.ucl_order.specs.Counting.{FitsFields, HasSixEach};
ghost use Rattle.ucl_order.specs.Matches.{IsPairing, finished, has_finished};
ghost use Rattle.ucl_order.specs.Rounds.{results_of_clubs};
ghost use Rattle.ucl_order.specs.Marks.{early_mark, out_of_reach, final_mark, is_out_of_reach, is_rival, mark_by, reach, rivals, sure_points, ArePointBounds};

use crate::game::WIN;
use crate::results::Results;

/// How many matches each club of a group plays.
const MATCHES: u8 = 6;

/// Whether a club is sure of its place among the first two of its group, who go through to the round of 16.
#[derive(Clone, Copy, Debug, PartialEq, Eq)]
pub enum Mark {
    /// However the group ends, the club is among the first two.
    Plus,
    /// However the group ends, the club is not among the first two.
    Minus,
    /// Neither is certain by points yet.
    Blank,
}

/// Bounds of the clubs' points at the end of the group, by slot.
#[derive(Clone, Copy, Debug, PartialEq, Eq)]
struct PointBounds {
    /// The points from finished matches, the least that the club can have.
    sure: [u8; 4],
    /// The points if the club won each match that is not finished, the most that it can have.
    reach: [u8; 4],
}

impl PointBounds {
    /// Returns the bounds of the clubs' points, from their results in finished matches: each club plays six, and the rest are left.
    #[tactic(auto, unfolding(crate::specs::Results::totals))]
    fn of(ended: &[Results; 4]) -> PointBounds
        requires { All FitsFields ended.now }
        ensures { (matches : List Match) → HasSixEach matches
            → ended.now ≡ results_of_clubs (finished matches) → ArePointBounds matches result }
    {
        let first = ended[0].points();
        let second = ended[1].points();
        let third = ended[2].points();
        let fourth = ended[3].points();
        PointBounds {
            sure: [first, second, third, fourth],
            reach: [
                first + WIN * (MATCHES - ended[0].played),
                second + WIN * (MATCHES - ended[1].played),
                third + WIN * (MATCHES - ended[2].played),
                fourth + WIN * (MATCHES - ended[3].played),
            ],
        }
    }

    /// Returns the points of the club from finished matches.
    fn sure_points(&self, club: u8) -> u8
        requires { IsSlot club }
        ensures { (matches : List Match) → ArePointBounds matches self.now
            → result ≡ sure_points matches club }
    {
        self.sure[usize::from(club - 1)]
    }

    /// Returns the points of the club if it won each match that is not finished.
    fn reach(&self, club: u8) -> u8
        requires { IsSlot club }
        ensures { (matches : List Match) → ArePointBounds matches self.now
            → result ≡ reach matches club }
    {
        self.reach[usize::from(club - 1)]
    }

    /// Returns whether the other club can still have as many points as the club has from finished matches.
    fn is_rival(&self, club: u8, other: u8) -> bool
        requires club { IsSlot club }
        requires other { IsSlot other }
        ensures { (matches : List Match) → ArePointBounds matches self.now
            → result ≡ is_rival matches club other }
    {
        (other != club) & (self.sure_points(club) <= self.reach(other))
    }

    /// Returns whether the other club has more points from finished matches than the club can reach.
    fn is_out_of_reach(&self, club: u8, other: u8) -> bool
        requires club { IsSlot club }
        requires other { IsSlot other }
        ensures { (matches : List Match) → ArePointBounds matches self.now
            → result ≡ is_out_of_reach matches club other }
    {
        (other != club) & (self.reach(club) < self.sure_points(other))
    }

    /// Counts the other clubs that can still have as many points as the club has from finished matches.
    fn rivals(&self, club: u8) -> u8
        requires { IsSlot club }
        ensures { (matches : List Match) → ArePointBounds matches self.now
            → result ≡ rivals matches club }
    {
        u8::from(self.is_rival(club, 1))
            + u8::from(self.is_rival(club, 2))
            + u8::from(self.is_rival(club, 3))
            + u8::from(self.is_rival(club, 4))
    }

    /// Counts the other clubs that have more points from finished matches than the club can reach.
    fn out_of_reach(&self, club: u8) -> u8
        requires { IsSlot club }
        ensures { (matches : List Match) → ArePointBounds matches self.now
            → result ≡ out_of_reach matches club }
    {
        u8::from(self.is_out_of_reach(club, 1))
            + u8::from(self.is_out_of_reach(club, 2))
            + u8::from(self.is_out_of_reach(club, 3))
            + u8::from(self.is_out_of_reach(club, 4))
    }

    /// Returns the mark of a club while some match is not finished: plus if at most one other club can still have as many points as it has,
    /// else minus if at least two have more than it can reach, else blank.
    fn early_mark(&self, club: u8) -> Mark
        requires { IsSlot club }
        ensures { (matches : List Match) → ArePointBounds matches self.now
            → result ≡ early_mark matches club }
    {
        if self.rivals(club) <= 1 {
            Mark::Plus
        } else if self.out_of_reach(club) >= 2 {
            Mark::Minus
        } else {
            Mark::Blank
        }
    }
}

/// Returns whether all matches are finished, from what the clubs have done in finished ones.
fn are_all_finished(ended: &[Results; 4]) -> bool
    ensures { (matches : List Match) → All IsPairing matches → HasSixEach matches
        → ended.now ≡ results_of_clubs (finished matches) → result ≡ list_all has_finished matches }
{
    (ended[0].played == MATCHES)
        & (ended[1].played == MATCHES)
        & (ended[2].played == MATCHES)
        & (ended[3].played == MATCHES)
}

/// Returns the mark of a club when all matches are finished: plus if it is among the first two. `order` has the slots by place.
fn final_mark(order: &[u8; 4], club: u8) -> Mark
    ensures { result ≡ final_mark order.now club }
{
    if order[..2].contains(&club) {
        Mark::Plus
    } else {
        Mark::Minus
    }
}

/// Returns the marks of the clubs, by place: the final ones if all matches are finished, else those by points. `ended` is what the clubs
/// have done in finished matches, by slot, and `order` has the slots by place.
#[tactic(auto, using(crate::proofs::Completions::early_marks))]
pub(crate) fn marks_of(ended: &[Results; 4], order: &[u8; 4]) -> [Mark; 4]
    requires fits { All FitsFields ended.now }
    requires slots { All IsSlot order.now }
    ensures { (matches : List Match) → All IsPairing matches → HasSixEach matches
        → ended.now ≡ results_of_clubs (finished matches) → result ≡ map (mark_by matches order.now) order.now }
{
    let [a, b, c, d] = *order;
    if are_all_finished(ended) {
        return [
            final_mark(order, a),
            final_mark(order, b),
            final_mark(order, c),
            final_mark(order, d),
        ];
    }
    let bounds = PointBounds::of(ended);
    [
        bounds.early_mark(a),
        bounds.early_mark(b),
        bounds.early_mark(c),
        bounds.early_mark(d),
    ]
}
