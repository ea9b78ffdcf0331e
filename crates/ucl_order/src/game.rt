//! The matches of a group with their scores. An appearance is a match from the side of one of its clubs.

ghost use Rattle.std.specs.Prelude.{◌≡◌, ◌≤◌};
ghost use Rattle.ucl_word.specs.Record.{IsValid};
ghost use Rattle.ucl_order.specs.Rounds.{is_level};
ghost use Rattle.ucl_order.specs.Matches.{HasScore, IsPairing, IsScore, has_finished, has_started, match_at, score_of, is_drawn, is_lost};
ghost use Rattle.ucl_order.specs.Matches.{is_won, disciplinary_points, seen_from_away, seen_from_home};

use ucl_board::{Board, away_of, home_of};
use ucl_word::{MatchNo, MatchRecord, State};

/// The points for a win.
pub(crate) const WIN: u8 = 3;

/// The part of a match record that a table needs: the state, the goals and the cards.
#[derive(Clone, Copy, Debug, Default, PartialEq, Eq)]
pub(crate) struct Score {
    pub(crate) state: State,
    pub(crate) home_goals: u8,
    pub(crate) away_goals: u8,
    pub(crate) home_yellows: u8,
    pub(crate) away_yellows: u8,
    pub(crate) home_expulsions: u8,
    pub(crate) away_expulsions: u8,
}

/// A match of the group: the slots of its clubs, and its score.
#[derive(Clone, Copy, Debug, Default, PartialEq, Eq)]
pub(crate) struct Match {
    pub(crate) home: u8,
    pub(crate) away: u8,
    pub(crate) score: Score,
}

/// A match from the side of one of its clubs.
#[derive(Clone, Copy, Debug, PartialEq, Eq)]
pub(crate) struct Appearance {
    /// Whether the club is the visitor.
    pub(crate) is_away: bool,
    /// Goals of the club.
    pub(crate) scored: u8,
    /// Goals of its opponent.
    pub(crate) conceded: u8,
    /// Yellow cards of the club that no second one turned into an expulsion.
    pub(crate) yellows: u8,
    /// Expulsions of the club.
    pub(crate) expulsions: u8,
}

impl Score {
    /// Returns the part of a match record that a table needs: state, goals and cards.
    #[tactic(auto, using(crate::proofs::KeysFit::score_is))]
    fn of(game: MatchRecord) -> Score
        requires { IsValid game }
        ensures value { result ≡ score_of game }
        ensures valid { IsScore result }
    {
        Score {
            state: game.state,
            home_goals: game.home_goals,
            away_goals: game.away_goals,
            home_yellows: game.home_yellows,
            away_yellows: game.away_yellows,
            home_expulsions: game.home_expulsions,
            away_expulsions: game.away_expulsions,
        }
    }
}

impl Match {
    /// Returns the match of a board with this number.
    pub(crate) fn of(board: &Board, number: MatchNo) -> Match
        ensures value { result ≡ match_at board.now number }
        ensures pairing { IsPairing result }
        ensures score { HasScore result }
    {
        Match {
            home: home_of(number),
            away: away_of(number),
            score: Score::of(board.game(number)),
        }
    }

    /// Returns the match from the side of the home club.
    pub(crate) fn seen_from_home(&self) -> Appearance
        ensures { result ≡ seen_from_home self.now }
    {
        let score = &self.score;
        Appearance {
            is_away: false,
            scored: score.home_goals,
            conceded: score.away_goals,
            yellows: score.home_yellows,
            expulsions: score.home_expulsions,
        }
    }

    /// Returns the match from the side of the visiting club.
    pub(crate) fn seen_from_away(&self) -> Appearance
        ensures { result ≡ seen_from_away self.now }
    {
        let score = &self.score;
        Appearance {
            is_away: true,
            scored: score.away_goals,
            conceded: score.home_goals,
            yellows: score.away_yellows,
            expulsions: score.away_expulsions,
        }
    }

    /// Returns whether the match is in play or finished.
    pub(crate) fn has_started(&self) -> bool
        ensures { result ≡ has_started self.now }
    {
        match self.score.state {
            State::Scheduled => false,
            State::InPlay | State::Finished => true,
        }
    }

    /// Returns whether the match is in play or finished, and its two clubs have the same key. Place i of `keys` is the key of slot i + 1.
    pub(crate) fn is_level(&self, keys: &[u64; 4]) -> bool
        requires { IsPairing self.now }
        ensures { result ≡ is_level keys.now self.now }
    {
        self.has_started() && keys[usize::from(self.home - 1)] == keys[usize::from(self.away - 1)]
    }

    /// Returns whether the match is finished.
    pub(crate) fn has_finished(&self) -> bool
        ensures { result ≡ has_finished self.now }
    {
        match self.score.state {
            State::Scheduled | State::InPlay => false,
            State::Finished => true,
        }
    }
}

impl Appearance {
    /// Returns whether the club scored more than its opponent.
    pub(crate) fn is_won(&self) -> bool
        ensures { result ≡ is_won self.now }
    {
        self.conceded < self.scored
    }

    /// Returns whether the club and its opponent scored the same.
    pub(crate) fn is_drawn(&self) -> bool
        ensures { result ≡ is_drawn self.now }
    {
        self.scored == self.conceded
    }

    /// Returns whether the club scored less than its opponent.
    pub(crate) fn is_lost(&self) -> bool
        ensures { result ≡ is_lost self.now }
    {
        self.scored < self.conceded
    }

    /// Returns what the match adds to the disciplinary total of the club: 1 for each yellow card that no second one turned into an
    /// expulsion, 3 for each expulsion.
    pub(crate) fn disciplinary_points(&self) -> u16
        ensures value { result ≡ disciplinary_points self.now }
        ensures few { result ≤ 1020 }
    {
        u16::from(self.yellows) + 3 * u16::from(self.expulsions)
    }
}
