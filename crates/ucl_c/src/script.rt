//! A script that is played: its events are entered in turn on a fresh board.

ghost use Rattle.std.specs.Prelude.{◌≡◌, ◌≢◌, ◌≤◌, ◌⊎◌, List, length};
ghost use Rattle.ucl_board.specs.Fixtures.{IsSlot};
ghost use Rattle.ucl_board.specs.Words.{max_version};
ghost use Rattle.ucl_board.specs.declared.entry.Entry.{Entry};
ghost use Rattle.ucl_board.specs.History.{after_attempt};
ghost use Rattle.ucl_order.specs.Roster.{club_in};
ghost use Rattle.ucl_screen.specs.Input.{max_bytes};
ghost use Rattle.ucl_screen.specs.Events.{IsBoardAfter, attempt_of};
ghost use Rattle.ucl_c.specs.Faults.{fault_of_play, place_with, status_with};
ghost use Rattle.ucl_c.specs.Replies.{CountsEvents, IsWholeScript, club_written, replies_to, reply_after, words_after};

use crate::fault::Fault;
use crate::group::ClubOfC;
use std::alloc::Global;
use ucl_board::Board;
use ucl_order::Roster;
use ucl_screen::{NightEvent, night_of_bytes};

/// What became of an event of a script when it was entered.
#[repr(C)]
#[derive(Clone, Copy, Debug, PartialEq, Eq)]
pub struct ReplyOfC {
    /// The row of the event, 5 for the first.
    pub row: u32,
    /// The match, 1 to 12.
    pub match_number: u32,
    /// 0 if the event was entered, otherwise the rule that refuses it, 1 to 9.
    pub status: u32,
    /// The match's event number after an event that was entered, the one found by a stale event, or 0.
    pub event_number: u32,
    /// How many events were entered by then.
    pub version: u32,
}

/// Enters the event of a row on a board of this version, and returns what became of it: accepted, with the next version, or refused.
fn reply_to(board: &mut Board, version: u32, row: u32, event: &NightEvent) -> ReplyOfC
    requires { version ≤ max_version }
    ensures reply { (h : List Entry) → IsBoardAfter h board.old version →
        result ≡ reply_after row h event.now }
    ensures after { (h : List Entry) → IsBoardAfter h board.old version →
        IsBoardAfter (after_attempt h (attempt_of event.now)) board.new result.version }
{
    let match_number = u32::from(event.call.game.get());
    match board.report(event.reporter, &event.call) {
        Ok(accepted) => ReplyOfC {
            row,
            match_number,
            status: 0,
            event_number: u32::from(accepted.number),
            version: version + 1,
        },
        Err(refusal) => ReplyOfC {
            row,
            match_number,
            status: u32::from(refusal.code()),
            event_number: u32::from(refusal.found().unwrap_or(0)),
            version,
        },
    }
}

/// Enters the events of a script in turn on a board that has none, writes what becomes of each to `replies`, and returns the board.
fn play(events: &[NightEvent], replies: &mut [ReplyOfC]) -> Board
    requires room { length replies.old ≡ length events.now }
    requires few { length events.now ≤ max_bytes }
    ensures replies { replies.new ≡ replies_to events.now }
    ensures after { result ≡ words_after events.now }
{
    let mut board = Board::fresh();
    let mut version = 0;
    let mut row: u32 = 5;
    for (i, event) in events.iter().enumerate() {
        let reply = reply_to(&mut board, version, row, event);
        replies[i] = reply;
        version = reply.version;
        row += 1;
    }
    board
}

/// Returns the club in a slot of a roster in the form of C, with zeros behind its name.
fn club_of(roster: &Roster, slot: u8) -> ClubOfC
    requires { IsSlot slot }
    ensures { result ≡ club_written (club_in roster.now slot) }
{
    let text = roster.name(slot);
    let mut name = [0; 20];
    name[..text.len()].copy_from_slice(text);
    ClubOfC {
        name,
        length: text.len() as u32,
        coefficient: roster.coefficient(slot),
    }
}

/// Plays a whole script and returns 0, or the number of a fault. Its clubs go to `clubs`, what became of each event to the front of
/// `replies`, the twelve words after the last to `words`, and how many events there are to `count`, also if `replies` has no room for as
/// many (56). The row or the club that is wrong goes to `at`. A fault of the script is the one that `ucl_night feed` has of the same bytes,
/// with the same row.
#[unsafe(no_mangle)]
pub extern "C" fn uclboard_script(
    alloc: Global,
    script: &[u8],
    clubs: &mut [ClubOfC],
    words: &mut [u64],
    replies: &mut [ReplyOfC],
    count: &mut usize,
    at: &mut u32,
) -> u32
    ensures told { result ≢ 23 → result ≡ status_with
        (fault_of_play script.now (length clubs.old) (length words.old) (length replies.old)) }
    ensures placed { result ≢ 23 → at.new ≡ place_with
        (fault_of_play script.now (length clubs.old) (length words.old) (length replies.old))
        at.old }
    ensures done { result ≡ 0 →
        IsWholeScript script.now clubs.new words.new replies.old replies.new }
    ensures counted { (result ≡ 0) ⊎ (result ≡ 56) → CountsEvents script.now count.new }
    ensures unchanged { result ≢ 0 → (clubs.new ≡ clubs.old) × (words.new ≡ words.old)
        × (replies.new ≡ replies.old) }
    ensures uncounted { result ≢ 0 → result ≢ 56 → count.new ≡ count.old }
    ensures no_place { result ≡ 23 → at.new ≡ at.old }
{
    if words.len() != 12 {
        return Fault::NotTwelve.status();
    }
    if clubs.len() != 4 {
        return Fault::NotFour.status();
    }
    let night = match night_of_bytes(alloc, script) {
        Ok(night) => night,
        Err(fault) => return Fault::from(fault).status_at(at),
    };
    let events = night.events.len();
    *count = events;
    if replies.len() < events {
        return Fault::NoRoom.status();
    }
    let board = play(&night.events, &mut replies[..events]);
    words.copy_from_slice(&board.words());
    let roster = &night.roster;
    clubs.copy_from_slice(&[
        club_of(roster, 1),
        club_of(roster, 2),
        club_of(roster, 3),
        club_of(roster, 4),
    ]);
    0
}
