//! How far a session of `ucl_live` is: its first rows name its header and its clubs, and then its board is open.

ghost use Rattle.std.specs.Prelude.{◌≡◌, ◌+◌, ◌-◌, ◌<◌, ◌≤◌, ◌++◌, [], ◌∷◌, IfOk, Ok, OnOk, length, map, option_map};
ghost use Rattle.ucl_order.specs.Roster.{bad_slot, club_seen};
ghost use Rattle.ucl_rows.specs.Rows.{fields_seen};
ghost use Rattle.ucl_live_runs.specs.Phases.{IsIfMemory, after_beginning, after_club, bad_row, club_said, missing, fault_row, with_clubs, with_roster};
ghost use Rattle.ucl_live_runs.specs.LiveText.{first_header};

use crate::config::{Config, Line};
use crate::header::{HeaderState, header_said, is_asked, is_group_row};
use crate::live_fault::LiveFault;
use crate::open_board::OpenBoard;
use std::alloc::{AllocError, Global};
use std::marker::Model;
use ucl_mends::StandingEvents;
use ucl_order::{Club, Roster};
use ucl_rows::{RowFields, RunFault};
use ucl_screen::{InputFault, club_of_fields};

/// The clubs that the rows so far name, fewer than four. Contracts see the list of their names and coefficients.
#[derive(Drop)]
pub(crate) struct Clubs {
    named: NamedSoFar,
}

/// The clubs that the rows so far name, none to three, by their slots from 1 on.
#[derive(Drop)]
enum NamedSoFar {
    NoClub,
    One(Club),
    Two(Club, Club),
    Three(Club, Club, Club),
}

impl Model for Clubs {
    ghost use Rattle.std.specs.Prelude.{List};
    ghost use Rattle.ucl_order.specs.Roster.{NamedClub};
    ghost use Rattle.ucl_live_runs.specs.Clubs.{clubs_in};

    ghost Value = { List NamedClub };

    ghost view = { λ c. clubs_in c.named };
}

/// How far a session is in its first rows.
#[derive(Drop)]
pub(crate) enum Phase {
    /// No row came yet: the first names a group or a club.
    AwaitingHeader,
    /// The rows so far name fewer than four clubs.
    AwaitingClubs(Clubs),
    /// The board is open.
    Open(OpenBoard),
}

/// Returns the number of a row as a fault reports it: `row`, or `u32::MAX` if it is greater.
fn fault_row(row: u64) -> u32
    ensures { result ≡ fault_row row }
{
    if row < u64::from(u32::MAX) {
        row as u32
    } else {
        u32::MAX
    }
}

/// Returns the fault of row number `row`, which is missing, or does not name the club or the group that it has to.
fn bad_row(row: u64) -> LiveFault
    ensures { result ≡ bad_row row }
{
    LiveFault::Run(RunFault::Input(InputFault::BadRow {
        row: fault_row(row),
    }))
}

/// Returns the club that a row names for this slot, or None if it does not. Fails only if out of memory.
fn club_said(alloc: Global, slot: u8, row: &RowFields<'_>) -> Result<Option<Club>, AllocError>
    requires { slot ≤ 4 }
    ensures { IfOk result (λ club. option_map club_seen club ≡ club_said slot
        (fields_seen row.now)) }
{
    match row {
        RowFields::Other => Ok(None),
        RowFields::Four(four) => club_of_fields(alloc, slot, four),
    }
}

impl Clubs {
    /// Creates the empty list of clubs, before the first is named.
    fn none() -> Clubs
        ensures { result ≡ [] }
    {
        Clubs {
            named: NamedSoFar::NoClub,
        }
    }

    /// Returns the slot, 1 to 4, of the club that the next row has to name.
    fn next_slot(&self) -> u8
        ensures slot { result ≡ length self.now + 1 }
        ensures small { result ≤ 4 }
    {
        match &self.named {
            NamedSoFar::NoClub => 1,
            NamedSoFar::One(_) => 2,
            NamedSoFar::Two(_, _) => 3,
            NamedSoFar::Three(_, _, _) => 4,
        }
    }

    /// Returns the phase after one club more. With the fourth the board is open, or the session is refused, if no roster takes the clubs, or
    /// if out of memory.
    fn with(self, alloc: Global, club: Club) -> Result<Phase, LiveFault>
        ensures { IsIfMemory (with_clubs (self ++ club_seen club ∷ [])) result }
    {
        let Clubs { named } = self;
        let named = match named {
            NamedSoFar::NoClub => NamedSoFar::One(club),
            NamedSoFar::One(first) => NamedSoFar::Two(first, club),
            NamedSoFar::Two(first, second) => NamedSoFar::Three(first, second, club),
            NamedSoFar::Three(first, second, third) => return opened(
                alloc,
                [first, second, third, club],
            ),
        };
        Ok(Phase::AwaitingClubs(Clubs { named }))
    }
}

/// Returns the phase in which the fresh board of these clubs is open. Fails with the first slot whose club no roster takes, or if out of
/// memory.
fn opened(alloc: Global, clubs: [Club; 4]) -> Result<Phase, LiveFault>
    ensures { IsIfMemory (with_roster (map club_seen clubs) (bad_slot (map club_seen clubs))) result }
{
    match Roster::new(clubs) {
        Ok(roster) => Ok(Phase::Open(OpenBoard {
            roster,
            events: StandingEvents::none(alloc)?,
        })),
        Err(bad) => Err(LiveFault::Run(RunFault::Input(InputFault::BadRoster { slot: bad.slot }))),
    }
}

/// Returns the phase after a line that has to name the next club after `clubs`. Fails if it names none, if four clubs are no roster, or if
/// out of memory.
pub(crate) fn with_club(
    alloc: Global,
    line: &Line<'_, '_>,
    clubs: Clubs,
) -> Result<Phase, LiveFault>
    ensures { IsIfMemory (after_club line.now.row clubs (club_said (length clubs + 1) (fields_seen line.now.said)))
        result }
{
    match club_said(alloc, clubs.next_slot(), &line.said)? {
        None => Err(bad_row(line.row)),
        Some(club) => clubs.with(alloc, club),
    }
}

/// Returns the phase after the first row: it names the first club, or a header, which replaces that in `heading`.
/// Fails if it names neither, if it names another group or tie-break order than the options ask for, or if out of memory.
pub(crate) fn with_first(
    config: &Config,
    line: &Line<'_, '_>,
    heading: &mut HeaderState,
) -> Result<Phase, LiveFault>
    ensures phase { IsIfMemory (after_beginning config.now.options line.now.row (fields_seen line.now.said)) result }
    ensures header { OnOk result (heading.new.header ≡ first_header heading.old.header (fields_seen line.now.said)) }
{
    if !is_group_row(&line.said) {
        return with_club(config.alloc, line, Clubs::none());
    }
    match header_said(&line.said) {
        None => Err(bad_row(line.row)),
        Some(other) if is_asked(config.options.group, config.options.profile, other) => {
            *heading = HeaderState { header: other };
            Ok(Phase::AwaitingClubs(Clubs::none()))
        }
        Some(_) => Err(LiveFault::OtherGroup),
    }
}

impl Phase {
    /// Returns the fault of a session whose input ends before line number `row` with a club missing; None if the board is open.
    pub(crate) fn missing(&self, row: u64) -> Option<LiveFault>
        ensures { result ≡ missing row (Ok self.now) }
    {
        match self {
            Phase::AwaitingHeader | Phase::AwaitingClubs(_) => Some(bad_row(row)),
            Phase::Open(_) => None,
        }
    }
}
