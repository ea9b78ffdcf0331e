//! Rosters: the four clubs of a group. A lent name is borrowed; a member is a club as a roster keeps it, with a copy of the name.

ghost use Rattle.std.specs.Prelude.{◌≡◌, ◌-◌, ◌≤◌, None, Some, true, false, IfOk, IfErr, OnOk, length, map, set};
ghost use Rattle.std.specs.List.{list_all};
ghost use Rattle.ucl_board.specs.Fixtures.{IsSlot};
ghost use Rattle.ucl_order.specs.Roster.{club_lent, club_seen, named, is_printed, is_name, is_club, IsClub, bad_slot, name_of, coefficient_of, member_seen};

use arrayvec::ArrayVec;
use std::marker::Model;
use thiserror::Error;

/// The most bytes that the name of a club in a roster has.
const MAX_NAME_BYTES: usize = 20;

/// The first byte of printed ASCII, a space.
const FIRST_PRINTED: u8 = 0x20;

/// The last byte of printed ASCII.
const LAST_PRINTED: u8 = 0x7e;

/// The greatest coefficient of a club in a roster.
const MAX_COEFFICIENT: u32 = 999_999;

/// A club to put in a roster, with a name of its own. Either field can have any value; [`Roster::new`] refuses what no roster takes.
#[derive(Debug, Drop)]
pub struct Club {
    /// The name: 1 to 20 bytes of printed ASCII, 0x20 to 0x7e.
    pub name: Vec<u8>,
    /// The club coefficient in whole thousandths, 0 to 999,999. Two clubs may have the same.
    pub coefficient: u32,
}

/// A club to put in a roster, with a borrowed name. Either field can have any value; [`Roster::of_lent`] refuses what no roster takes.
#[derive(Clone, Copy)]
pub struct LentClub<'a> {
    /// The name: 1 to 20 bytes of printed ASCII, 0x20 to 0x7e.
    pub name: &'a [u8],
    /// The club coefficient in whole thousandths, 0 to 999,999. Two clubs may have the same.
    pub coefficient: u32,
}

/// Error 21: a club that no roster takes in. Its name is not 1 to 20 bytes of printed ASCII, or its coefficient is over 999,999.
#[derive(Clone, Copy, Debug, PartialEq, Eq, Error)]
#[error("bad roster 21: slot {slot}")]
pub struct BadRoster {
    /// The least slot with such a club, 1 to 4.
    pub slot: u8,
}

/// A club as a roster keeps it: with a copy of its name in the value itself, so it takes no memory of the heap.
#[derive(Debug, Drop)]
struct Member {
    name: ArrayVec<u8, MAX_NAME_BYTES>,
    coefficient: u32,
}

/// The four clubs of a group, in slots 1 to 4. In contracts a roster is the list of their names and coefficients, by slot.
///
/// # Examples
///
/// ```rust
/// let club = LentClub { name: b"Alpha".as_slice(), coefficient: 60_000 };
/// let roster = Roster::of_lent(&[club; 4]).ok()?;
/// assert_eq!((roster.name(3), roster.coefficient(3)), (b"Alpha".as_slice(), 60_000));
/// ```
#[derive(Debug, Drop)]
pub struct Roster {
    members: [Member; 4],
}

impl Model for Roster {
    ghost use Rattle.std.specs.Prelude.{List};
    ghost use Rattle.ucl_order.specs.Roster.{NamedClub, IsRoster, members_seen};

    ghost Value = { List NamedClub };

    ghost view = { λ r. members_seen r.members };

    ghost invariant = { λ r. IsRoster (members_seen r.members) };
}

/// Returns whether each byte of a name is printed ASCII, 0x20 to 0x7e.
fn is_printed(name: &[u8]) -> bool
    ensures { result ≡ list_all is_printed name.now }
{
    name.iter()
        .all(|b| FIRST_PRINTED <= *b && *b <= LAST_PRINTED)
}

/// Returns whether a name has 1 to 20 bytes, all of printed ASCII, 0x20 to 0x7e.
fn is_name(name: &[u8]) -> bool
    ensures { result ≡ is_name name.now }
{
    if name.is_empty() || name.len() > MAX_NAME_BYTES {
        return false;
    }
    is_printed(name)
}

/// Creates a member, a club as a roster keeps it, from a name, which is copied, and a coefficient. The slot serves only the error.
///
/// # Errors
///
/// [`BadRoster`] with the slot, if the name is not 1 to 20 bytes of printed ASCII or the coefficient is over 999,999.
#[tactic(auto, unfolding(crate::specs::Roster::is_club))]
fn member_with(slot: u8, name: &[u8], coefficient: u32) -> Result<Member, BadRoster>
    ensures taken { IfOk result (λ m. IsClub (named name.now coefficient)
        × (member_seen m ≡ named name.now coefficient)) }
    ensures refused { IfErr result (λ bad. (is_club (named name.now coefficient) ≡ false)
        × (bad.slot ≡ slot)) }
{
    let bad = BadRoster { slot };
    if !is_name(name) || coefficient > MAX_COEFFICIENT {
        return Err(bad);
    }
    let mut kept = ArrayVec::new();
    match kept.try_extend_from_slice(name) {
        Ok(()) => {}
        Err(_) => return Err(bad),
    }
    Ok(Member {
        name: kept,
        coefficient,
    })
}

/// Creates the member of a roster for a club that owns its name. Fails with the slot, if the name or the coefficient is not allowed.
fn member_of(slot: u8, club: &Club) -> Result<Member, BadRoster>
    ensures taken { IfOk result (λ m. IsClub (club_seen club.now)
        × (member_seen m ≡ club_seen club.now)) }
    ensures refused { IfErr result (λ bad. (is_club (club_seen club.now) ≡ false)
        × (bad.slot ≡ slot)) }
{
    member_with(slot, &club.name, club.coefficient)
}

/// Creates the member of a roster for a club with a borrowed name. Fails with the slot, if the name or the coefficient is not allowed.
fn member_lent(slot: u8, club: &LentClub<'_>) -> Result<Member, BadRoster>
    ensures taken { IfOk result (λ m. IsClub (club_lent club.now)
        × (member_seen m ≡ club_lent club.now)) }
    ensures refused { IfErr result (λ bad. (is_club (club_lent club.now) ≡ false)
        × (bad.slot ≡ slot)) }
{
    member_with(slot, club.name, club.coefficient)
}

impl Roster {
    /// Creates the roster of four clubs, the first of which is in slot 1.
    ///
    /// It takes no memory: the names are copied, and the clubs are dropped, also if they are refused.
    ///
    /// # Errors
    ///
    /// [`BadRoster`] with the least slot of a club whose name is not 1 to 20 bytes of printed ASCII, or whose coefficient is over 999,999.
    #[tactic(auto, unfolding(crate::specs::Roster::bad_slot_from))]
    pub fn new(clubs: [Club; 4]) -> Result<Roster, BadRoster>
        ensures taken { IfOk result (λ roster. (roster ≡ map club_seen clubs)
            × (bad_slot (map club_seen clubs) ≡ None)) }
        ensures refused { IfErr result (λ bad. bad_slot (map club_seen clubs) ≡ Some bad.slot) }
    {
        let members = [
            member_of(1, &clubs[0])?,
            member_of(2, &clubs[1])?,
            member_of(3, &clubs[2])?,
            member_of(4, &clubs[3])?,
        ];
        Ok(Roster { members })
    }

    /// Creates the roster of four clubs with borrowed names, the first of which is in slot 1. It takes no memory: the names are copied.
    ///
    /// # Errors
    ///
    /// [`BadRoster`] with the least slot of a club whose name is not 1 to 20 bytes of printed ASCII, or whose coefficient is over 999,999.
    #[tactic(auto, unfolding(crate::specs::Roster::bad_slot_from))]
    pub fn of_lent(clubs: &[LentClub<'_>; 4]) -> Result<Roster, BadRoster>
        ensures taken { IfOk result (λ roster. (roster ≡ map club_lent clubs.now)
            × (bad_slot (map club_lent clubs.now) ≡ None)) }
        ensures refused { IfErr result (λ bad.
            bad_slot (map club_lent clubs.now) ≡ Some bad.slot) }
    {
        Ok(Roster {
            members: [
                member_lent(1, &clubs[0])?,
                member_lent(2, &clubs[1])?,
                member_lent(3, &clubs[2])?,
                member_lent(4, &clubs[3])?,
            ],
        })
    }

    /// Puts a club, with a borrowed name, in a slot from 1 to 4 in place of the club there. It takes no memory: the name is copied.
    ///
    /// # Errors
    ///
    /// [`BadRoster`] with the slot, if the name is not 1 to 20 bytes of printed ASCII or the coefficient is over 999,999. Then the roster
    /// stays as it was.
    pub fn put(&mut self, slot: u8, club: &LentClub<'_>) -> Result<(), BadRoster>
        requires { IsSlot slot }
        ensures taken { OnOk result ((self.new ≡ set self.old (slot - 1) (club_lent club.now))
            × (is_club (club_lent club.now) ≡ true)) }
        ensures refused { IfErr result (λ bad. (is_club (club_lent club.now) ≡ false)
            × (bad.slot ≡ slot) × (self.new ≡ self.old)) }
    {
        self.members[usize::from(slot - 1)] = member_lent(slot, club)?;
        Ok(())
    }

    /// Returns the name of the club in a slot from 1 to 4: 1 to 20 bytes of printed ASCII.
    #[tactic(auto, using(crate::proofs::Clubs::name_good))]
    pub fn name(&self, slot: u8) -> &[u8]
        requires { IsSlot slot }
        ensures value { result.now ≡ name_of self.now slot }
        ensures name { is_name result.now ≡ true }
        ensures fits { length result.now ≤ 20 }
    {
        self.members[usize::from(slot - 1)].name.as_slice()
    }

    /// Returns the coefficient of the club in a slot from 1 to 4, which is at most 999,999.
    #[tactic(auto, using(crate::proofs::Clubs::coefficient_good))]
    pub fn coefficient(&self, slot: u8) -> u32
        requires { IsSlot slot }
        ensures value { result ≡ coefficient_of self.now slot }
        ensures bound { result ≤ 999999 }
    {
        self.members[usize::from(slot - 1)].coefficient
    }
}
