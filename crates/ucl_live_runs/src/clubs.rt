//! The row of a club on an open board: `club,2,Bravo,95000`.

ghost use Rattle.std.specs.Prelude.{◌≡◌, ◌-◌, IfSome, set};
ghost use Rattle.ucl_board.specs.Fixtures.{IsSlot};
ghost use Rattle.ucl_order.specs.Roster.{club_lent, is_club};
ghost use Rattle.ucl_screen.specs.Rows.{four_seen};
ghost use Rattle.ucl_live_runs.specs.Requests.{new_club, slot_in};

use std::marker::Model;
use ucl_order::{LentClub, Roster};
use ucl_screen::{Four, lent_club};

/// A club that a roster takes, and the slot that it is to have. Contracts see the two.
#[derive(Drop)]
pub struct NewClub<'f> {
    slot: u8,
    club: LentClub<'f>,
}

impl<'f> Model for NewClub<'f> {
    ghost use Rattle.ucl_board.specs.Fixtures.{IsSlot};
    ghost use Rattle.ucl_order.specs.Roster.{IsClub, club_lent};
    ghost use Rattle.ucl_live_runs.specs.NewClubs.{ClubInSlot, club_for};

    ghost Value = { ClubInSlot };

    ghost view = { λ s. club_for s.slot (club_lent s.club) };

    ghost invariant = { λ s. IsSlot s.slot × IsClub (club_lent s.club) };
}

/// Returns the slot that a field names, which is one digit, `1` to `4`; else None.
fn slot_in(text: &[u8]) -> Option<u8>
    ensures value { result ≡ slot_in text.now }
    ensures slot { IfSome result IsSlot }
{
    match text {
        [slot] if b'1' <= *slot && *slot <= b'4' => Some(*slot - b'0'),
        _ => None,
    }
}

/// Returns whether a roster takes a club.
fn is_good(club: &LentClub<'_>) -> bool
    ensures { result ≡ is_club (club_lent club.now) }
{
    Roster::of_lent(&[*club, *club, *club, *club]).is_ok()
}

impl<'f> NewClub<'f> {
    /// Returns the club that a row names, for the slot that it names; None if it names none, or one that no roster takes.
    pub(crate) fn of(four: &Four<'f>) -> Option<NewClub<'f>>
        ensures { result ≡ new_club (four_seen four.now) }
    {
        let slot = slot_in(four.second)?;
        let club = lent_club(slot, four)?;
        if is_good(&club) {
            Some(NewClub { slot, club })
        } else {
            None
        }
    }

    /// Puts the club in its slot of a roster.
    pub(crate) fn put(&self, roster: &mut Roster)
        ensures { roster.new ≡ set roster.old (self.now.slot - 1) self.now.club }
    {
        match roster.put(self.slot, &self.club) {
            Ok(()) => {}
            Err(_) => unreachable!(),
        }
    }
}
