//! What reporters enter: the kinds of events, an event for one match, and the reply to an accepted one. A kind has a name, as in an event
//! file, and a code, as in a call from C. Refusals are in `refusal`, and what an event changes is in `rules`.

ghost use Rattle.std.specs.Prelude.{◌≡◌};
ghost use Rattle.ucl_word.specs.Names.{kind_name, kind_named, kind_with};

use crate::match_no::MatchNo;

/// The home or the visiting side of a match, for which a goal or a card counts.
#[derive(Clone, Copy, Debug, PartialEq, Eq)]
pub enum Side {
    /// The club that plays at home.
    Home,
    /// The visiting club.
    Away,
}

/// The kind of an event: what happened in a match, and for which side, as a reporter enters it.
///
/// # Examples
///
/// ```rust
/// assert_eq!(Kind::from_name(b"goal-home".as_slice()), Some(Kind::Goal(Side::Home)));
/// assert_eq!(Kind::Goal(Side::Home).name(), "goal-home");
/// ```
#[derive(Clone, Copy, Debug, PartialEq, Eq)]
pub enum Kind {
    /// The match begins.
    KickOff,
    /// A goal for a side.
    Goal(Side),
    /// A goal of a side, entered before, does not count.
    Disallow(Side),
    /// A player of a side is cautioned.
    Yellow(Side),
    /// A cautioned player of a side is cautioned again and sent off: one yellow of the side becomes an expulsion.
    SecondYellow(Side),
    /// A player of a side is sent off at once.
    Red(Side),
    /// The match is over.
    FullTime,
    /// The match is not over after all, and is in play again.
    Reopen,
}

/// The kinds of events, each at the index that is its code, 0 to 12.
// A table, so that a kind that can't be foreseen costs no jump.
static KINDS: [Kind; 13] = [
    Kind::KickOff,
    Kind::Goal(Side::Home),
    Kind::Goal(Side::Away),
    Kind::Disallow(Side::Home),
    Kind::Disallow(Side::Away),
    Kind::Yellow(Side::Home),
    Kind::Yellow(Side::Away),
    Kind::SecondYellow(Side::Home),
    Kind::SecondYellow(Side::Away),
    Kind::Red(Side::Home),
    Kind::Red(Side::Away),
    Kind::FullTime,
    Kind::Reopen,
];

impl Kind {
    /// Returns the name of this kind of event in an event file, such as `goal-home`. No other kind has it, nor its code.
    pub fn name(self) -> &'static str
        ensures { result.now ≡ kind_name self }
    {
        match self {
            Kind::KickOff => "kickoff",
            Kind::Goal(Side::Home) => "goal-home",
            Kind::Goal(Side::Away) => "goal-away",
            Kind::Disallow(Side::Home) => "disallow-home",
            Kind::Disallow(Side::Away) => "disallow-away",
            Kind::Yellow(Side::Home) => "yellow-home",
            Kind::Yellow(Side::Away) => "yellow-away",
            Kind::SecondYellow(Side::Home) => "second-yellow-home",
            Kind::SecondYellow(Side::Away) => "second-yellow-away",
            Kind::Red(Side::Home) => "red-home",
            Kind::Red(Side::Away) => "red-away",
            Kind::FullTime => "fulltime",
            Kind::Reopen => "reopen",
        }
    }

    /// Returns the kind of event with this code, or `None` if the code is over 12.
    #[inline]
    pub fn from_code(code: u32) -> Option<Kind>
        ensures { result ≡ kind_with code }
    {
        KINDS.get(code as usize).copied()
    }

    /// Returns the kind of event with this name, such as `goal-home`, or `None` if no kind has it.
    #[tactic(auto, unfolding(crate::specs::Names::kind_named))]
    pub fn from_name(name: &[u8]) -> Option<Kind>
        ensures { result ≡ kind_named name.now }
    {
        if name == b"kickoff".as_slice() {
            Some(Kind::KickOff)
        } else if name == b"goal-home".as_slice() {
            Some(Kind::Goal(Side::Home))
        } else if name == b"goal-away".as_slice() {
            Some(Kind::Goal(Side::Away))
        } else if name == b"disallow-home".as_slice() {
            Some(Kind::Disallow(Side::Home))
        } else if name == b"disallow-away".as_slice() {
            Some(Kind::Disallow(Side::Away))
        } else if name == b"yellow-home".as_slice() {
            Some(Kind::Yellow(Side::Home))
        } else if name == b"yellow-away".as_slice() {
            Some(Kind::Yellow(Side::Away))
        } else if name == b"second-yellow-home".as_slice() {
            Some(Kind::SecondYellow(Side::Home))
        } else if name == b"second-yellow-away".as_slice() {
            Some(Kind::SecondYellow(Side::Away))
        } else if name == b"red-home".as_slice() {
            Some(Kind::Red(Side::Home))
        } else if name == b"red-away".as_slice() {
            Some(Kind::Red(Side::Away))
        } else if name == b"fulltime".as_slice() {
            Some(Kind::FullTime)
        } else if name == b"reopen".as_slice() {
            Some(Kind::Reopen)
        } else {
            None
        }
    }
}

/// An event that a reporter enters for one match, with the event number that the reporter last saw this match have.
///
/// # Examples
///
/// ```rust
/// let call = EventCall { game: MatchNo::new(1)?, expected: 0, kind: Kind::KickOff };
/// ```
#[derive(Clone, Copy, Debug, PartialEq, Eq)]
pub struct EventCall {
    /// The match, 1 to 12.
    pub game: MatchNo,
    /// The event number of the match that the reporter last saw. If the match has another one, the event is refused as stale.
    pub expected: u16,
    /// What has happened.
    pub kind: Kind,
}

/// The reply to an event that was accepted: the event number that its match has now.
#[derive(Clone, Copy, Debug, PartialEq, Eq)]
pub struct Accepted {
    /// The match's event number after the event, 1 to 4095.
    pub number: u16,
}
