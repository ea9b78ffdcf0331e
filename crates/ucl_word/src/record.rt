//! The record of one match: its state and numbers, and which of them a match can have. How it is packed is in `word`.

ghost use Rattle.std.specs.Prelude.{◌≡◌};
ghost use Rattle.ucl_word.specs.Record.{is_valid, is_within_limits, suits_state};

/// The most goals that a side can have in a match.
pub(crate) const MAX_GOALS: u8 = 63;

/// The most standing yellows that a side can have in a match.
pub(crate) const MAX_YELLOWS: u8 = 63;

/// The most expulsions that a side can have in a match.
pub(crate) const MAX_EXPULSIONS: u8 = 31;

/// The greatest event number that a match can have.
const MAX_NUMBER: u16 = 4095;

/// The greatest event number of a match in play. A match that has it accepts only full time, for which one number is left.
pub(crate) const MAX_NUMBER_IN_PLAY: u16 = MAX_NUMBER - 1;

/// The state of a match: before kick-off, in play, or over.
#[derive(Clone, Copy, Debug, Default, PartialEq, Eq)]
pub enum State {
    /// The match has not kicked off.
    #[default]
    Scheduled,
    /// The match has kicked off and is not over.
    InPlay,
    /// The match is over.
    Finished,
}

/// The record of one match: all that is known of it. Any field can hold any value of its type; [`is_valid`](MatchRecord::is_valid)
/// says which records a match can have. The default is the record of a match that has not kicked off.
///
/// # Examples
///
/// ```rust
/// let scheduled = MatchRecord::default();
/// assert!(scheduled.is_valid());
/// let first = apply(&scheduled, ReporterNo::new(1)?, 0, Kind::KickOff).ok()?;
/// assert_eq!((first.state, first.number, first.reporter), (State::InPlay, 1, 1));
/// ```
#[derive(Clone, Copy, Debug, Default, PartialEq, Eq)]
pub struct MatchRecord {
    /// How many events were accepted: 0 before kick-off, 1 to 4094 in play, 2 to 4095 at the end.
    pub number: u16,
    /// The state of the match: scheduled, in play or finished.
    pub state: State,
    /// Goals of the home side that were not disallowed, at most 63.
    pub home_goals: u8,
    /// Goals of the visiting side that were not disallowed, at most 63.
    pub away_goals: u8,
    /// Standing yellows of the home side, at most 63.
    pub home_yellows: u8,
    /// Standing yellows of the visiting side, at most 63.
    pub away_yellows: u8,
    /// Expulsions of the home side, for a red card or a second yellow, at most 31.
    pub home_expulsions: u8,
    /// Expulsions of the visiting side, for a red card or a second yellow, at most 31.
    pub away_expulsions: u8,
    /// Who entered the last accepted event, 1 to 255; 0 before kick-off.
    pub reporter: u8,
}

impl MatchRecord {
    /// Returns whether the record is valid, which means that a match can have it.
    ///
    /// Goals and standing yellows of a side are at most 63 and expulsions at most 31. The record is scheduled with every number 0, or in
    /// play with an event number from 1 to 4094 and a reporter, or finished with an event number from 2 to 4095 and a reporter.
    #[tactic(auto, unfolding(crate::specs::Record::is_valid))]
    pub fn is_valid(&self) -> bool
        ensures { result ≡ is_valid self.now }
    {
        self.is_within_limits() && self.suits_state()
    }

    /// Returns whether each side has at most 63 goals, 63 standing yellows and 31 expulsions.
    fn is_within_limits(&self) -> bool
        ensures { result ≡ is_within_limits self.now }
    {
        self.home_goals <= MAX_GOALS
            && self.away_goals <= MAX_GOALS
            && self.home_yellows <= MAX_YELLOWS
            && self.away_yellows <= MAX_YELLOWS
            && self.home_expulsions <= MAX_EXPULSIONS
            && self.away_expulsions <= MAX_EXPULSIONS
    }

    /// Returns whether the numbers of the record suit its state: all are 0 if it is scheduled; else it has a reporter, and an event number
    /// from 1 to 4094 in play or from 2 to 4095 if finished.
    fn suits_state(&self) -> bool
        ensures { result ≡ suits_state self.now.state self.now }
    {
        // Both cases are worked out, with no jump: the state of the next match that is read can't be foreseen.
        let (first, last) = match self.state {
            State::Scheduled => (0, 0),
            State::InPlay => (1, MAX_NUMBER_IN_PLAY),
            State::Finished => (2, MAX_NUMBER),
        };
        let is_scheduled = *self == MatchRecord::default();
        let has_begun = (self.state != State::Scheduled)
            & (self.reporter != 0)
            & (first <= self.number)
            & (self.number <= last);
        is_scheduled | has_begun
    }
}
