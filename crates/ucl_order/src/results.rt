//! What a club has done in several matches: wins, goals, cards and points.

ghost use Rattle.std.specs.Prelude.{◌≡◌, ℕ, ◌≤◌, ◌+◌, ◌++◌, ◌∷◌, [], All, List, filter};
ghost use Rattle.ucl_order.specs.declared.game.Match.{Match};
ghost use Rattle.ucl_order.specs.Matches.{IsPairing, finished, matches_of, started, started_of, under_way};
ghost use Rattle.ucl_order.specs.Results.{points_for, results_of};
ghost use Rattle.ucl_order.specs.Counting.{AreOfGroup, FitsFields, IsWithin, with_match};
ghost use Rattle.ucl_order.specs.Rounds.{counted, is_level, results_of_clubs, tied_results};

use crate::game::{Appearance, Match, WIN};
use ucl_board::Board;
use ucl_word::MatchNo;

/// What a club has done in some matches. The fields stand by their width, so that results are read in few pieces as they were written.
#[derive(Clone, Copy, Debug, PartialEq, Eq)]
pub(crate) struct Results {
    pub(crate) goals_for: u16,
    pub(crate) goals_against: u16,
    /// The disciplinary total: 1 for each yellow card that no second one turned into an expulsion, 3 for each expulsion.
    pub(crate) discipline: u16,
    pub(crate) away_goals: u16,
    pub(crate) away_wins: u8,
    pub(crate) wins: u8,
    pub(crate) draws: u8,
    pub(crate) losses: u8,
    pub(crate) played: u8,
}

impl Results {
    /// The results of a club in no match: each number is 0.
    const NONE: Results = Results {
        played: 0,
        wins: 0,
        draws: 0,
        losses: 0,
        goals_for: 0,
        goals_against: 0,
        away_goals: 0,
        away_wins: 0,
        discipline: 0,
    };

    /// Adds one match, given from the side of the club, to its results in at most eleven.
    fn add(&mut self, game: &Appearance)
        requires { IsWithin 11 self.old }
        ensures value { self.new ≡ with_match self.old game.now }
        ensures within { (n : ℕ) → IsWithin n self.old → IsWithin (n + 1) self.new }
    {
        self.played += 1;
        self.wins += u8::from(game.is_won());
        self.draws += u8::from(game.is_drawn());
        self.losses += u8::from(game.is_lost());
        self.goals_for += u16::from(game.scored);
        self.goals_against += u16::from(game.conceded);
        self.discipline += game.disciplinary_points();
        if game.is_away {
            self.away_goals += u16::from(game.scored);
            self.away_wins += u8::from(game.is_won());
        }
    }

    /// Adds one match to the results of the two clubs that play it. Place i of `results` is that of slot i + 1.
    fn add_to_clubs(results: &mut [Results; 4], game: &Match)
        requires pairing { IsPairing game.now }
        requires few { All (IsWithin 11) results.old }
        ensures value { (matches : List Match) → results.old ≡ results_of_clubs matches
            → results.new ≡ results_of_clubs (matches ++ game.now ∷ []) }
        ensures within { (n : ℕ) → All (IsWithin n) results.old
            → All (IsWithin (n + 1)) results.new }
    {
        results[usize::from(game.home - 1)].add(&game.seen_from_home());
        results[usize::from(game.away - 1)].add(&game.seen_from_away());
    }

    /// Adds one match to the results of its clubs if it is in play or finished and they have the same key.
    fn add_level(results: &mut [Results; 4], keys: &[u64; 4], game: &Match)
        requires pairing { IsPairing game.now }
        requires few { All (IsWithin 11) results.old }
        ensures value { (matches : List Match) → results.old ≡ results_of_clubs (filter (is_level keys.now) matches)
            → results.new ≡ results_of_clubs (filter (is_level keys.now) (matches ++ game.now ∷ [])) }
        ensures within { (n : ℕ) → All (IsWithin n) results.old
            → All (IsWithin (n + 1)) results.new }
    {
        if game.is_level(keys) {
            Results::add_to_clubs(results, game);
        }
    }

    /// Returns the results of each club, by slot, in the matches in play and finished whose two clubs have the same key. Place i of `keys`
    /// is the key of slot i + 1.
    pub(crate) fn of_level(keys: &[u64; 4], board: &Board) -> [Results; 4]
        ensures value { result ≡ tied_results (started_of board.now) keys.now }
        ensures fits { All FitsFields result }
    {
        let mut results = [Results::NONE; 4];
        for number in 1..13 {
            if let Some(number) = MatchNo::new(number) {
                Results::add_level(&mut results, keys, &Match::of(board, number));
            }
        }
        results
    }

    /// Adds one match to the results of its clubs: to `states[0]` if it is in play, to `states[1]` if it is finished, and to neither if it
    /// is scheduled. The index is computed without a branch, which would be unpredictable.
    fn add_counted(states: &mut [[Results; 4]; 2], game: &Match)
        requires pairing { IsPairing game.now }
        requires few { All (All (IsWithin 11)) states.old }
        ensures value { (matches : List Match) → states.old ≡ counted matches
            → states.new ≡ counted (matches ++ game.now ∷ []) }
        ensures within { (n : ℕ) → All (All (IsWithin n)) states.old
            → All (All (IsWithin (n + 1))) states.new }
    {
        if game.has_started() {
            Results::add_to_clubs(&mut states[usize::from(game.has_finished())], game);
        }
    }

    /// Returns what a club has done, from its results in matches in play and in finished ones.
    fn together(playing: &Results, ended: &Results) -> Results
        requires playing { IsWithin 12 playing.now }
        requires ended { IsWithin 12 ended.now }
        ensures { (club : ℕ) → (matches : List Match) → playing.now ≡ results_of club (under_way matches)
            → ended.now ≡ results_of club (finished matches) → result ≡ results_of club (started matches) }
    {
        Results {
            played: playing.played + ended.played,
            wins: playing.wins + ended.wins,
            draws: playing.draws + ended.draws,
            losses: playing.losses + ended.losses,
            goals_for: playing.goals_for + ended.goals_for,
            goals_against: playing.goals_against + ended.goals_against,
            away_goals: playing.away_goals + ended.away_goals,
            away_wins: playing.away_wins + ended.away_wins,
            discipline: playing.discipline + ended.discipline,
        }
    }

    /// Returns what each club has done, by slot, in the matches in play, and in the finished ones.
    fn of_states(board: &Board) -> [[Results; 4]; 2]
        ensures value { result ≡ counted (matches_of board.now) }
        ensures within { All (All (IsWithin 12)) result }
        ensures group { AreOfGroup (matches_of board.now) }
    {
        let mut states = [[Results::NONE; 4]; 2];
        for number in 1..13 {
            if let Some(number) = MatchNo::new(number) {
                Results::add_counted(&mut states, &Match::of(board, number));
            }
        }
        states
    }

    /// Returns what each club has done, by slot, in the matches in play and finished, and in the finished ones alone.
    pub(crate) fn of_clubs(board: &Board) -> ([Results; 4], [Results; 4])
        ensures all { result.0 ≡ results_of_clubs (started_of board.now) }
        ensures fits { All FitsFields result.0 }
        ensures ended { result.1 ≡ results_of_clubs (finished (matches_of board.now)) }
        ensures ended_fit { All FitsFields result.1 }
        ensures group { AreOfGroup (matches_of board.now) }
    {
        let [playing, ended] = Results::of_states(board);
        let all = [
            Results::together(&playing[0], &ended[0]),
            Results::together(&playing[1], &ended[1]),
            Results::together(&playing[2], &ended[2]),
            Results::together(&playing[3], &ended[3]),
        ];
        (all, ended)
    }

    /// Returns the points: three for a win, one for a draw.
    pub(crate) fn points(&self) -> u8
        requires { points_for self.now.wins self.now.draws ≤ 48 }
        ensures value { result ≡ points_for self.now.wins self.now.draws }
        ensures few { result ≤ 48 }
    {
        WIN * self.wins + self.draws
    }
}
