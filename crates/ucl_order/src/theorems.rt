//! Theorems on every order and every mark. The functions do nothing: each is there for its contract.

ghost use Rattle.ucl_order.specs.Theorems.{BoardsFitKeys, ClassesAreLevel, HigherHasGreaterKey, MinusIsCertain, OrderGoesByStanding, OrderHasEachClub, OrderIsUnique, PlusIsCertain, RankingsAreOrders, TableGoesByCoefficients, TiesFollowRule};

/// The order has each of the four clubs once, by any matches, with any roster and under each profile.
#[tactic(auto, using(crate::proofs::Classes::order_permutes))]
pub fn order_has_each_club()
    ensures { OrderHasEachClub }
{}

/// The comparisons by points, head to head and by all matches are total orders of the clubs, and the last leaves no two clubs level.
pub fn rankings_are_orders()
    ensures { RankingsAreOrders }
{}

/// Any total order splits a set of clubs into classes of level clubs, the highest first: of two clubs the higher has fewer clubs above it,
/// and level clubs have equally many.
pub fn classes_are_level()
    ensures { ClassesAreLevel }
{}

/// Clubs that are level on points are ordered by the rule: head to head, again within each smaller class, and by all matches if head to
/// head leaves them all level.
#[tactic(auto, using(crate::proofs::TieBreaks::settled_few, crate::proofs::TieBreaks::settled_level, crate::proofs::TieBreaks::settled_classes, crate::proofs::TieBreaks::bound_unused))]
pub fn ties_follow_rule()
    ensures { TiesFollowRule }
{}

/// Of two clubs the one comes first in the order that stands above the other: by points, head to head among the clubs that are level, or
/// all matches.
pub fn order_goes_by_standing()
    ensures { OrderGoesByStanding }
{}

/// The order is the only list of the four clubs in which each club stands above all that follow, by points, head to head or all matches.
pub fn order_is_unique()
    ensures { OrderIsUnique }
{}

/// Each number of a club of a board has room in its bits of a key, over all matches and over the matches among any set of clubs.
pub fn boards_fit_keys()
    ensures { BoardsFitKeys }
{}

/// Of two clubs of a board the one that is higher by the criteria over all matches has the greater `overall_key`, and the one that is
/// higher head to head in a set of clubs, by the criteria of the profile, has the greater `tie_key` in that set; and the other way round.
pub fn higher_has_greater_key()
    ensures { HigherHasGreaterKey }
{}

/// The rows of the table, with their marks, depend only on the coefficients of the clubs: rosters of other names have the same table.
pub fn table_goes_by_coefficients()
    ensures { TableGoesByCoefficients }
{}

/// A club marked `Plus` is among the first two however the group ends, if finished matches stay as they are.
#[tactic(auto, using(crate::proofs::Completions::plus_is_certain))]
pub fn plus_is_certain()
    ensures { PlusIsCertain }
{}

/// A club marked `Minus` is not among the first two, however the group ends, if finished matches stay as they are.
#[tactic(auto, using(crate::proofs::Completions::minus_is_certain))]
pub fn minus_is_certain()
    ensures { MinusIsCertain }
{}
