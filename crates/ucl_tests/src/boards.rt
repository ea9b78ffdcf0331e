//! What every live board does, by one and by several threads; and the calls of the word board that cannot wait.

ghost use Rattle.std.specs.Prelude.{◌≡◌, IfSome};

use std::alloc::Global;
use std::sync::Wait;
use std::test::Fail;
use std::thread;
use std::thread::Threads;
use ucl_board::Board;
use ucl_pass::{CellBoard, LiveBoard, Strangers, TooManyReporters, settle};
use ucl_word::Kind::{Disallow, FullTime, Goal, KickOff, Reopen, SecondYellow, Yellow};
use ucl_word::Side::{Away, Home};
use ucl_word::{Accepted, EventCall, Kind, MatchNo, Refusal};
use ucl_words::{WordBoard, WordReaderPass, WordReporterPass};

/// Makes a reporter's pass of the board from a pass that is split off `reader`; nothing if no number is left.
fn enlisted<B: LiveBoard, R: Wait>(
    rt: &R,
    board: &B,
    reader: &mut B::ReaderPass,
) -> Option<B::ReporterPass>
    requires { B.is_reader board.now reader.old }
    ensures own { B.is_reader board.now reader.new }
    ensures enlisted { IfSome result (λ pass. B.is_reporter board.now pass) }
{
    let pass = board.split(rt, reader);
    board.enlist(rt, pass).ok()
}

/// Takes a reading, and returns its version.
fn version_read<B: LiveBoard, R: Wait>(rt: &R, board: &B, pass: &mut B::ReaderPass) -> u16
    requires { B.is_reader board.now pass.old }
    ensures { B.is_reader board.now pass.new }
{
    board.read(rt, pass).version
}

/// Enters an event (match, expected number and kind), and returns the number that it got, or why it was refused.
fn reply_to<B: LiveBoard, R: Wait>(
    rt: &R,
    board: &B,
    pass: &mut B::ReporterPass,
    event: (MatchNo, u16, Kind),
) -> Result<u16, Refusal>
    requires { B.is_reporter board.now pass.old }
    ensures { B.is_reporter board.now pass.new }
{
    let (game, expected, kind) = event;
    let call = EventCall {
        game,
        expected,
        kind,
    };
    Ok(board.report(rt, pass, &call)?.number)
}

/// An event of match 1: the expected number, the kind, the number that it gets or its refusal, and the word of the match after it.
type Answered = (u16, Kind, Result<u16, Refusal>, u64);

static SEVEN_EVENTS: [Answered; 7] = [
    (0, KickOff, Ok(1), 0x2001000000001001),
    (1, Goal(Home), Ok(2), 0x2001000000005002),
    (2, Goal(Away), Ok(3), 0x2001000000105003),
    (3, Yellow(Home), Ok(4), 0x2001000004105004),
    (4, Yellow(Away), Ok(5), 0x2001000104105005),
    (5, Goal(Home), Ok(6), 0x2001000104109006),
    (6, FullTime, Ok(7), 0x200100010410a007),
];

/// A finished match that goes on, and is ended again.
static REOPENED: [Answered; 11] = [
    (0, KickOff, Ok(1), 0x2001000000001001),
    (1, Goal(Home), Ok(2), 0x2001000000005002),
    (2, Yellow(Away), Ok(3), 0x2001000100005003),
    (3, SecondYellow(Away), Ok(4), 0x2001080000005004),
    (4, Disallow(Home), Ok(5), 0x2001080000001005),
    (5, FullTime, Ok(6), 0x2001080000002006),
    (6, Reopen, Ok(7), 0x2001080000001007),
    (
        6,
        Reopen,
        Err(Refusal::Stale { found: 7 }),
        0x2001080000001007,
    ),
    (7, Reopen, Err(Refusal::NotFinished), 0x2001080000001007),
    (7, Goal(Home), Ok(8), 0x2001080000005008),
    (8, FullTime, Ok(9), 0x2001080000006009),
];

/// Enters events, and returns the first that does not get the listed reply, or after which its reporter does not read the listed word of
/// match 1 and, as the version, its event number. It is returned with its own reply and word.
fn first_other<B: LiveBoard, R: Wait>(
    rt: &R,
    board: &B,
    pass: &mut B::ReporterPass,
    game: MatchNo,
    events: &[Answered],
) -> Option<Answered>
    requires { B.is_reporter board.now pass.old }
{
    for &(expected, kind, reply, word) in events {
        let replied = reply_to(rt, board, pass, (game, expected, kind));
        let own = board.read_own(rt, pass);
        let found = own.board.words()[0];
        if replied != reply || found != word || u64::from(own.version) != word % 4096 {
            return Some((expected, kind, replied, found));
        }
    }
    None
}

/// Enters events in match 1. Returns the first whose outcome is not the listed one, and three versions: read before the events, after them,
/// and then by another pass, split off and moved to another thread.
fn read_back_on<B: LiveBoard, R: Threads + Wait + Sync>(
    rt: &R,
    board: &B,
    mut reader: B::ReaderPass,
    events: &[Answered],
) -> Option<(Option<Answered>, [u16; 3])>
    requires { B.is_reader board.now reader }
{
    let mut reporter = enlisted(rt, board, &mut reader)?;
    let before = version_read(rt, board, &mut reader);
    let other = first_other(rt, board, &mut reporter, MatchNo::new(1)?, events);
    let after = version_read(rt, board, &mut reader);
    let pass = board.split(rt, &mut reader);
    let (moved, ()) = thread::join(
        rt,
        move || -> u16
            requires { B.is_reader board.now pass }
        {
            let mut pass = pass;
            version_read(rt, board, &mut pass)
        },
        || {},
    );
    Some((other, [before, after, moved]))
}

/// On both kinds of boards the listed events of match 1 have the listed replies and words, and versions read before and after are right.
#[test]
fn read_back(rt: HostRuntime) -> Result<(), Fail> {
    for (events, version) in [(SEVEN_EVENTS.as_slice(), 7), (&REOPENED, 9)] {
        let (board, reader) = CellBoard::open(&rt, rt.alloc())?;
        let in_cell = read_back_on(&rt, &board, reader, events);
        let (board, reader) = WordBoard::open(&rt, rt.alloc())?;
        let in_words = read_back_on(&rt, &board, reader, events);
        let read = Some((None, [0, version, version]));
        assert_eq!(rt; [in_cell, in_words], [read; 2]);
    }
    Ok(())
}

/// A new reporter, who has entered a kick-off and home goals in a match.
fn enlisted_with<B: LiveBoard, R: Wait>(
    rt: &R,
    board: &B,
    reader: &mut B::ReaderPass,
    game: u8,
    events: u16,
) -> Option<B::ReporterPass>
    requires { B.is_reader board.now reader.old }
    ensures own { B.is_reader board.now reader.new }
    ensures enlisted { IfSome result (λ pass. B.is_reporter board.now pass) }
{
    let mut pass = enlisted(rt, board, reader)?;
    let game = MatchNo::new(game)?;
    for expected in 0..events {
        let kind = if expected == 0 { KickOff } else { Goal(Home) };
        let _reply = reply_to(rt, board, &mut pass, (game, expected, kind));
    }
    Some(pass)
}

/// The answer of settling by two reporters, with 2 and 3 accepted events, on a board on which a third, whose pass was dropped, has entered
/// `others` events: the version, or that there are strangers.
pub(crate) fn settled_on<B: LiveBoard, R: Wait>(
    rt: &R,
    board: &B,
    mut reader: B::ReaderPass,
    others: u16,
) -> Option<Result<u16, Strangers>>
    requires { B.is_reader board.now reader }
{
    drop(enlisted_with(rt, board, &mut reader, 3, others)?);
    let mut first = enlisted_with(rt, board, &mut reader, 1, 2)?;
    let mut second = enlisted_with(rt, board, &mut reader, 2, 3)?;
    let settled = settle(board, rt, &mut first, &mut second);
    Some(settled.map(|reading| reading.version))
}

/// On both kinds of boards two reporters with 5 events settle on version 5; if a third has entered one, they find strangers at version 6.
#[test]
fn settling(rt: HostRuntime) -> Result<(), Fail> {
    for (others, answer) in [(0, Ok(5)), (1, Err(Strangers { version: 6 }))] {
        let (board, reader) = CellBoard::open(&rt, rt.alloc())?;
        let in_cell = settled_on(&rt, &board, reader, others);
        let (board, reader) = WordBoard::open(&rt, rt.alloc())?;
        let in_words = settled_on(&rt, &board, reader, others);
        assert_eq!(rt; [in_cell, in_words], [Some(answer); 2]);
    }
    Ok(())
}

/// The passes of 255 reporters, enlisted one after the other; nothing if one does not get the next number, from 1 to 255, or if there is no
/// memory for them.
fn all_enlisted<B: LiveBoard, R: Wait>(
    rt: &R,
    alloc: Global,
    board: &B,
    reader: &mut B::ReaderPass,
) -> Option<Vec<B::ReporterPass>>
    requires { B.is_reader board.now reader.old }
    ensures { IfSome result (λ _. B.is_reader board.now reader.new) }
{
    let mut kept = Vec::new(alloc);
    for number in 1..=255 {
        match enlisted(rt, board, reader) {
            Some(pass) if B::number_of(&pass).get() == number => kept.push(pass).ok()?,
            _ => return None,
        }
    }
    Some(kept)
}

/// The version that a pass reads which the board could not enlist, having no number left; nothing if it was enlisted.
fn version_where_full<B: LiveBoard, R: Wait>(
    rt: &R,
    board: &B,
    reader: &mut B::ReaderPass,
) -> Option<u16>
    requires { B.is_reader board.now reader.old }
    ensures { B.is_reader board.now reader.new }
{
    let next = board.split(rt, reader);
    match board.enlist(rt, next) {
        Ok(_) => None,
        Err(TooManyReporters(mut back)) => Some(version_read(rt, board, &mut back)),
    }
}

/// Enlists 255 reporters, and then tries to enlist one more, while their passes are kept and after they are dropped. Returns the version
/// that the refused pass reads, each time; nothing where a pass was enlisted, or if one of the 255 got a wrong number or there is no memory.
fn all_numbers_on<B: LiveBoard, R: Wait>(
    rt: &R,
    alloc: Global,
    board: &B,
    mut reader: B::ReaderPass,
) -> Option<[Option<u16>; 2]>
    requires { B.is_reader board.now reader }
{
    let kept = all_enlisted(rt, alloc, board, &mut reader)?;
    let beside = version_where_full(rt, board, &mut reader);
    drop(kept);
    Some([beside, version_where_full(rt, board, &mut reader)])
}

/// Both kinds of boards give each number from 1 to 255 once, and then enlist no reporter, even after all passes are dropped.
#[test]
fn all_numbers(rt: HostRuntime) -> Result<(), Fail> {
    let alloc = rt.alloc();
    let (board, reader) = CellBoard::open(&rt, alloc)?;
    let in_cell = all_numbers_on(&rt, alloc, &board, reader);
    let (board, reader) = WordBoard::open(&rt, alloc)?;
    let in_words = all_numbers_on(&rt, alloc, &board, reader);
    assert_eq!(rt; [in_cell, in_words], [Some([Some(0); 2]); 2]);
    Ok(())
}

/// How many events a match can have, the last of which is full time.
const MOST: u16 = 4095;

/// The kind of the event with this expected number, of as many as a match can have: a kick-off, a home goal and its disallowing in turn, and
/// full time.
fn kind_at(expected: u16) -> Kind {
    match expected {
        0 => KickOff,
        4094 => FullTime,
        _ if expected % 2 == 1 => Goal(Home),
        _ => Disallow(Home),
    }
}

/// Enters the event with this expected number in each match, from match 1 to match 12.
fn enter_round<B: LiveBoard, R: Wait>(rt: &R, board: &B, pass: &mut B::ReporterPass, expected: u16)
    requires { B.is_reporter board.now pass.old }
    ensures { B.is_reporter board.now pass.new }
{
    let kind = kind_at(expected);
    for number in 1..13u8 {
        if let Some(game) = MatchNo::new(number) {
            let _reply = reply_to(rt, board, pass, (game, expected, kind));
        }
    }
}

/// Enters all events that the twelve matches can have, in turn, one of each. Returns how many were accepted, and the version that is read
/// then.
fn enter_all<B: LiveBoard, R: Wait>(rt: &R, board: &B, pass: &mut B::ReporterPass) -> (u16, u16)
    requires { B.is_reporter board.now pass.old }
    ensures { B.is_reporter board.now pass.new }
{
    for expected in 0..MOST {
        enter_round(rt, board, pass, expected);
    }
    (B::accepted_of(pass), board.read_own(rt, pass).version)
}

/// Why a later event of this kind is refused in a match that has all its events: to reopen it for want of an event number, any other since
/// the match is finished.
fn late_refusal(kind: Kind) -> Refusal {
    match kind {
        Reopen => Refusal::NumberFull,
        _ => Refusal::Finished,
    }
}

/// The first kind whose event is not refused as it has to be in a match that has all its events.
fn first_late_in<B: LiveBoard, R: Wait>(
    rt: &R,
    board: &B,
    pass: &mut B::ReporterPass,
    game: MatchNo,
) -> Option<Kind>
    requires { B.is_reporter board.now pass.old }
    ensures { B.is_reporter board.now pass.new }
{
    for code in 0..13u32 {
        let kind = Kind::from_code(code)?;
        if reply_to(rt, board, pass, (game, MOST, kind)) != Err(late_refusal(kind)) {
            return Some(kind);
        }
    }
    None
}

/// On a board on which all matches have all their events, the first match and kind whose event is not refused as it has to be.
fn first_late<B: LiveBoard, R: Wait>(
    rt: &R,
    board: &B,
    pass: &mut B::ReporterPass,
) -> Option<(u8, Kind)>
    requires { B.is_reporter board.now pass.old }
{
    for number in 1..13u8 {
        if let Some(kind) = first_late_in(rt, board, pass, MatchNo::new(number)?) {
            return Some((number, kind));
        }
    }
    None
}

/// Whether a board has the first `version` of the events that `enter_all` enters, and no more: as many of each match as it is its turn.
fn has_first(board: &Board, version: u16) -> bool {
    for (later, game) in (0..12u16).zip((1..13).filter_map(MatchNo::new)) {
        let number = version.saturating_add(11).saturating_sub(later) / 12;
        if board.game(game).number != number {
            return false;
        }
    }
    true
}

/// Takes 1,000 readings while all events are entered, and says whether no version was below the one before, and each board has as many of
/// the events, from the first on, as its version tells.
fn versions_rise<B: LiveBoard, R: Wait>(rt: &R, board: &B, mut pass: B::ReaderPass) -> bool
    requires { B.is_reader board.now pass }
{
    let mut least = 0;
    for _ in 0..1000u16 {
        let reading = board.read(rt, &mut pass);
        if reading.version < least || !has_first(&reading.board, reading.version) {
            return false;
        }
        least = reading.version;
    }
    true
}

/// Has a reporter enter all events that a board can take while two readers read, each in a thread of its own. Returns the accepted events
/// and the version; the first later event that is not refused as it has to be; and whether what each reader read was right.
fn all_events_on<B: LiveBoard, R: Threads + Wait + Sync>(
    rt: &R,
    board: &B,
    mut reader: B::ReaderPass,
) -> Option<((u16, u16), Option<(u8, Kind)>, [bool; 2])>
    requires { B.is_reader board.now reader }
{
    let reporter = enlisted(rt, board, &mut reader)?;
    let other = board.split(rt, &mut reader);
    let ((entered, late), (one, two)) = thread::join(
        rt,
        move || -> ((u16, u16), Option<(u8, Kind)>)
            requires { B.is_reporter board.now reporter }
        {
            let mut reporter = reporter;
            let entered = enter_all(rt, board, &mut reporter);
            (entered, first_late(rt, board, &mut reporter))
        },
        move || -> (bool, bool)
            requires { B.is_reader board.now reader × B.is_reader board.now other }
        {
            thread::join(
                rt,
                move || -> bool
                    requires { B.is_reader board.now reader }
                { versions_rise(rt, board, reader) },
                move || -> bool
                    requires { B.is_reader board.now other }
                { versions_rise(rt, board, other) },
            )
        },
    );
    Some((entered, late, [one, two]))
}

/// Both kinds of boards take 49,140 events, and refuse each later one. What two readers read meanwhile never falls, and is never of two moments.
#[test]
fn all_events_with_two_readers(rt: HostRuntime) -> Result<(), Fail> {
    let (board, reader) = CellBoard::open(&rt, rt.alloc())?;
    let in_cell = all_events_on(&rt, &board, reader);
    let (board, reader) = WordBoard::open(&rt, rt.alloc())?;
    let in_words = all_events_on(&rt, &board, reader);
    let wanted = Some(((49140, 49140), None, [true; 2]));
    assert_eq!(rt; [in_cell, in_words], [wanted; 2]);
    Ok(())
}

/// Makes a reporter's pass of a word board; nothing if no number is left.
fn enlisted_now(board: &WordBoard, reader: &mut WordReaderPass) -> Option<WordReporterPass>
    requires { reader.old.board ≡ board.now }
    ensures own { reader.new.board ≡ board.now }
    ensures enlisted { IfSome result (λ pass. pass.board ≡ board.now) }
{
    let pass = board.split_now(reader);
    board.enlist_now(pass).ok()
}

/// A new reporter of a word board, and the reply to its kick-off of match 3.
fn kicked_off(
    board: &WordBoard,
    reader: &mut WordReaderPass,
) -> Option<(WordReporterPass, Result<Accepted, Refusal>)>
    requires { reader.old.board ≡ board.now }
    ensures own { reader.new.board ≡ board.now }
    ensures enlisted { IfSome result (λ it. it.0.board ≡ board.now) }
{
    let mut pass = enlisted_now(board, reader)?;
    let call = EventCall {
        game: MatchNo::new(3)?,
        expected: 0,
        kind: KickOff,
    };
    let reply = board.report_now(&mut pass, &call);
    Some((pass, reply))
}

/// Both replies to a kick-off, the version and the word of match 3 that the second reporter reads, and whether a reader reads the same.
type KickedOff = ([Result<Accepted, Refusal>; 2], u16, u64, bool);

/// Two reporters enter one kick-off, and meet before the second reads. Makes each of the six calls of a word board that cannot wait.
fn one_kick_off_by_two(board: &WordBoard, reader: &mut WordReaderPass) -> Option<KickedOff>
    requires { reader.old.board ≡ board.now }
{
    let (mut first, accepted) = kicked_off(board, reader)?;
    let (mut second, refused) = kicked_off(board, reader)?;
    board.meet_now(&mut first, &mut second);
    let own = board.read_own_now(&mut second);
    let is_same = board.read_now(reader) == own;
    let word = own.board.words()[2];
    Some(([accepted, refused], own.version, word, is_same))
}

/// If two reporters enter one kick-off by calls that cannot wait, the second is refused as stale, and it and a reader read the same board
/// of version 1.
#[test]
fn calls_that_cannot_wait(rt: HostRuntime) -> Result<(), Fail> {
    let (board, mut reader) = WordBoard::open(&rt, rt.alloc())?;
    let kicked_off = one_kick_off_by_two(&board, &mut reader);
    let replies = [Ok(Accepted { number: 1 }), Err(Refusal::Stale { found: 1 })];
    assert_eq!(rt; kicked_off, Some((replies, 1, 0x2001000000001001, true)));
    Ok(())
}
