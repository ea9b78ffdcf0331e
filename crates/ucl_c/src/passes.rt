//! The calls of C on a board that threads share, by handles.

ghost use Rattle.std.specs.Prelude.{◌≡◌, ◌≢◌, ◌↔◌, IsSome, IfSome, [], ◌∷◌, None, Some, length};
ghost use Rattle.ucl_board.specs.Fixtures.{IsMatch};
ghost use Rattle.ucl_c.specs.declared.board_pass.AnyPass.TheVariants.{Nobody};
ghost use Rattle.ucl_c.specs.declared.fault.Fault.{Fault};
ghost use Rattle.ucl_c.specs.BoardPasses.{IsOpened, IsSplit, IsEnlisted, IsRead, IsReply, IsNumberOf, fault_of_event, fault_of_reading, fault_of_split, fault_of_report, or_memory};
ghost use Rattle.ucl_c.specs.Faults.{fault_code, first_fault};
ghost use Rattle.ucl_c.specs.Handles.{pass_held, fault_of_room, IsNotEnlistedIn};

use crate::board_pass::BoardPass;
use crate::event::expected_told;
use crate::fault::{Fault, or_return, refused};
use crate::handle::Handle;
use std::alloc::Global;
use ucl_word::{EventCall, Kind, MatchNo};

/// Opens a board that has no events, and gives its first pass, a reader's, to a handle that is null. On a fault, the handle is as it was.
/// The pass has seen nothing, and has the whole share of the board. The fault is 59 if the handle is not null, and otherwise can only be
/// lack of memory (23).
#[unsafe(no_mangle)]
pub extern "C" fn uclboard_open(alloc: Global, pass: &mut Handle) -> u32
    ensures opened { result ≡ 0 →
        IsOpened (pass_held pass.new) × (fault_of_room pass.old ≡ None) }
    ensures refused { result ≢ 0 → (pass.new ≡ pass.old)
        × (result ≡ fault_code (or_memory (fault_of_room pass.old))) }
{
    if !pass.is_null() {
        return Fault::InUse.status();
    }
    pass.give(BoardPass::open(alloc))
}

/// Splits the reader's pass of a handle, and gives the second pass, of the same board, to `other`, which has to be null. If it is not done,
/// nothing is split, and `other` stays as it was. Each pass has half of the share then, and has seen as much. The faults are 59, then 60 or
/// 61, then lack of memory.
#[unsafe(no_mangle)]
pub extern "C" fn uclboard_pass_split(alloc: Global, pass: &mut Handle, other: &mut Handle) -> u32
    ensures given { result ≡ 0 →
        IsSplit (pass_held pass.old) (pass_held pass.new) (pass_held other.new)
        × (fault_of_room other.old ≡ None) }
    ensures refused { result ≢ 0 → (pass_held pass.new ≡ pass_held pass.old)
        × (other.new ≡ other.old)
        × (result ≡ fault_code (or_memory (first_fault
        (fault_of_room other.old ∷ fault_of_split (pass_held pass.old) ∷ [])))) }
    ensures null { fault_of_room pass.new ≡ fault_of_room pass.old }
{
    if !other.is_null() {
        return Fault::InUse.status();
    }
    other.give(pass.with_held(alloc, |held| held.split_off(alloc)))
}

/// Enlists a reporter by the reader's pass of a handle, and gives the reporter's pass, of the same board, to `other`, which has to be null.
/// If it is not done, `other` stays as it was, and no number is given. The number is one that no entry and no other reporter has, and takes
/// at most 255 compare and exchanges. The faults are those of a split, and 30 if 255 reporters were seen enlisted: then the reader's pass
/// has given half of its share.
#[unsafe(no_mangle)]
pub extern "C" fn uclboard_pass_enlist(alloc: Global, pass: &mut Handle, other: &mut Handle) -> u32
    ensures given { result ≡ 0 →
        IsEnlisted (pass_held pass.old) (pass_held pass.new) (pass_held other.new)
        × (fault_of_room other.old ≡ None) }
    ensures refused { result ≢ 0 → (other.new ≡ other.old)
        × ((fault : Fault) × (result ≡ fault_code fault)
        × IsNotEnlistedIn (fault_of_room other.old) fault
        (pass_held pass.old) (pass_held pass.new)) }
    ensures null { fault_of_room pass.new ≡ fault_of_room pass.old }
{
    if !other.is_null() {
        return Fault::InUse.status();
    }
    other.give(pass.with_held(alloc, |held| held.enlist_another(alloc)))
}

/// Returns the match with this number, or `None` unless the number is 1 to 12.
fn match_with(number: u32) -> Option<MatchNo>
    ensures exists { IsSome result ↔ IsMatch number }
    ensures value { IfSome result (λ game. game ≡ number) }
{
    match u8::try_from(number) {
        Ok(number) => MatchNo::new(number),
        Err(_) => None,
    }
}

/// Enters an event, of the kind with code `kind`, by the reporter's pass of a handle. `expected` is how many events match `game` had when
/// its reporter saw it last; if that is not so now, the event is stale. The first fault is returned: of the kind (51), the match (62), the
/// pass (60, 63), or the rules. An accepted event is the last that the pass has then seen, and a refusal by the rules is that of a board of
/// one thread after all that it has then seen. Writes to `number` how many events the match has had, if this one is accepted or stale. Asks
/// for no memory.
#[unsafe(no_mangle)]
pub extern "C" fn uclboard_pass_report(
    alloc: Global,
    pass: &mut Handle,
    game: u32,
    expected: u32,
    kind: u32,
    number: &mut u32,
) -> u32
    ensures judged { fault_of_event (pass_held pass.old) game kind ≡ None →
        IsReply (record { game = game; expected = expected; code = kind })
        (pass_held pass.old) (pass_held pass.new) result number.old number.new }
    ensures refused { (fault : Fault) → fault_of_event (pass_held pass.old) game kind ≡ Some fault →
        (result ≡ fault_code fault) × (pass_held pass.new ≡ pass_held pass.old)
        × (number.new ≡ number.old) }
    ensures null { fault_of_room pass.new ≡ fault_of_room pass.old }
{
    let Some(kind) = Kind::from_code(kind) else {
        return Fault::NoKind.status();
    };
    let Some(game) = match_with(game) else {
        return Fault::NoMatch.status();
    };
    let call = EventCall {
        game,
        expected: expected_told(expected),
        kind,
    };
    let reply = or_return!(pass.with_held(alloc, |held| held.report(&call)));
    match reply {
        Ok(accepted) => {
            *number = u32::from(accepted.number);
            0
        }
        Err(refusal) => refused(refusal, number),
    }
}

/// Writes the number of the reporter's pass of a handle to `number`, or nothing if the handle is null (60) or has a reader's pass (63). The
/// pass stays as it was. Asks for no memory.
#[unsafe(no_mangle)]
pub extern "C" fn uclboard_pass_number(alloc: Global, pass: &mut Handle, number: &mut u32) -> u32
    ensures told { fault_of_report (pass_held pass.old) ≡ None →
        (result ≡ 0) × IsNumberOf (pass_held pass.old) number.new }
    ensures refused { (fault : Fault) → fault_of_report (pass_held pass.old) ≡ Some fault →
        (result ≡ fault_code fault) × (number.new ≡ number.old) }
    ensures unchanged { pass_held pass.new ≡ pass_held pass.old }
    ensures null { fault_of_room pass.new ≡ fault_of_room pass.old }
{
    let own = or_return!(pass.with_held(alloc, |held| held.number()));
    *number = u32::from(own.get());
    0
}

/// Reads the board by the pass of a handle, of either kind: its twelve matches, each packed into a word, and its version, which is how many
/// events were entered. If `words` is not twelve long (54) or the handle is null (60), writes nothing. The words are those of the board
/// after so many events, all that the pass had seen among them. Asks for no memory.
#[unsafe(no_mangle)]
pub extern "C" fn uclboard_pass_read(
    alloc: Global,
    pass: &mut Handle,
    words: &mut [u64],
    version: &mut u32,
) -> u32
    ensures read { fault_of_reading (pass_held pass.old) (length words.old) ≡ None →
        (result ≡ 0) × IsRead (pass_held pass.old)
        (record { board = words.new; version = version.new }) (pass_held pass.new) }
    ensures refused { (fault : Fault) →
        fault_of_reading (pass_held pass.old) (length words.old) ≡ Some fault →
        (result ≡ fault_code fault) × (pass_held pass.new ≡ pass_held pass.old)
        × (words.new ≡ words.old) × (version.new ≡ version.old) }
    ensures null { fault_of_room pass.new ≡ fault_of_room pass.old }
{
    if words.len() != 12 {
        return Fault::NotTwelve.status();
    }
    let reading = or_return!(pass.with_held(alloc, |held| held.read()));
    words.copy_from_slice(&reading.board.words());
    *version = u32::from(reading.version);
    0
}

/// Drops the pass of a handle, and with the last pass of a board the board. The handle is null then; if it was null it stays so. It only
/// gives memory back; that it gives back all is tested, not proved.
#[unsafe(no_mangle)]
pub extern "C" fn uclboard_pass_drop(alloc: Global, pass: &mut Handle)
    ensures null { fault_of_room pass.new ≡ None }
    ensures nobody { pass_held pass.new ≡ Nobody }
{
    pass.let_go(alloc);
}
