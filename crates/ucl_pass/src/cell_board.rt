//! A board that threads share, in one cell of thirteen words that is loaded and exchanged as a whole. A pass takes steps by its seat, if it
//! may (`acts`); `cell_view seat` is what contracts know of it. `K: Asking` picks the event of a step, in proofs alone.

ghost use Rattle.std.specs.Prelude.{◌≡◌, ◌<◌, ◌++◌, ◌∷◌, [], take, length, slice_index, IfOk, IsSome, MatchResult};
ghost use Rattle.atomic_table.specs.Seated.{TableId};
ghost use Rattle.crossbeam_utils.specs.Register.{Forks, Merges, Turns};
ghost use Rattle.crossbeam_utils.specs.Seq.{cell_view};
ghost use Rattle.ucl_board.specs.Words.{AreWords};
ghost use Rattle.ucl_live_board.specs.BoardInvariant.{BoardsOpenFresh};
ghost use Rattle.ucl_live_board.specs.Passes.{reporter_figures};
ghost use Rattle.ucl_pass.specs.CellInvariants.{CellInvariant, ImpliesInvariant, cell_pass_view};
ghost use Rattle.ucl_pass.specs.CellSteps.{Answers, LooksOnly, Exchanges, exchanged, StoresEvent, IsNextBoard, entry_at, with_one_more};
ghost use Rattle.ucl_pass.specs.CellRecords.{cell_pass_of, CellOpened, CellReported, CellRead, CellSplit, CellEnlisted, CellFull, CellMet, IsCellPassOf};

use crate::passes::{CellReaderPass, CellReporterPass};
use crate::rule::{Adds, Asking, Cell, CellRule, Enlists, Looks, Note, Reads, Seat, SecondPass};
use atomic_table::{Join, Split};
use crossbeam_utils::rule::{Outcome, Protocol};
use std::alloc::Global;
use std::marker::{Brand, Model};
use std::sync::Wait;
use ucl_board::{Board, Reading};
use ucl_live_board::{BoardRule, LiveBoard, MAX_REPORTERS, TooManyReporters, View};
use ucl_word::{Accepted, EventCall, OutOfMemory, Refusal, ReporterNo};

/// A board of thirteen words that threads share, and load and exchange as a whole, by calls that may wait: the twelve matches, and the
/// number of enlisted reporters. Contracts see which cell it is.
#[derive(Drop)]
pub struct CellBoard {
    cell: Cell,
}

impl Model for CellBoard {
    ghost Value = { TableId };

    ghost view = { λ b. b.cell.table.shared.table_id };
}

/// Returns the board of the twelve match words, which come first among the words of a cell.
fn board_at(words: &[u64; 13]) -> Board
    requires { AreWords (take 12 words.now) }
    ensures { result ≡ take 12 words.now }
{
    let mut matches = [0; 12];
    matches.copy_from_slice(&words[..12]);
    Board::of_packed(&matches)
}

/// Returns the words of a cell: those of a board, then the number of enlisted reporters.
fn words_with(board: &Board, enlisted: u64) -> [u64; 13]
    ensures { result ≡ board.now ++ enlisted ∷ [] }
{
    let mut words = [enlisted; 13];
    words[..12].copy_from_slice(&board.words());
    words
}

/// Returns the words of a cell with one more enlisted reporter.
fn one_more_reporter(words: [u64; 13]) -> [u64; 13]
    requires { slice_index words 12 < 255 }
    ensures { result ≡ with_one_more words }
{
    let mut next = words;
    next[12] += 1;
    next
}

impl CellBoard {
    /// Opens a board of no event, and returns it with the reader's pass from which all its passes come. The invariant of its cell implies
    /// that of cell boards (`tied`), and lets no board open but one of no event, no reporter and no step (`rule`).
    ///
    /// # Errors
    ///
    /// `OutOfMemory` if the memory of the cell is refused; then there is no board.
    ///
    /// ```rust
    /// let (board, mut reader) = CellBoard::open(&rt, rt.alloc())?;
    /// let reading = board.read(&rt, &mut reader);
    /// assert_eq!(rt; reading.version, 0);
    /// ```
    pub fn open<R>(_rt: &R, alloc: Global) -> Result<(CellBoard, CellReaderPass), OutOfMemory>
        ensures own { IfOk result (λ opened. IsCellPassOf opened.0 opened.1) }
        ensures opened { IfOk result (λ opened. CellOpened opened.1) }
        ensures rule { BoardsOpenFresh ⟦<CellRule as BoardRule>⟧.words_after ⟦<CellRule as BoardRule>⟧.may }
        ensures tied { ImpliesInvariant ⟦<CellRule as Protocol<[u64; 13], View>>⟧.holds }
    {
        let (cell, seat) = Cell::ruled(alloc, words_with(&Board::fresh(), 0))?;
        Ok((CellBoard { cell }, CellReaderPass { seat }))
    }

    // Each step on the cell goes through one of the four calls that follow, of any kind: so what the cell asks is stated once.

    /// Loads all words of the cell, in a step of this kind.
    fn load_as<Kind: Outcome<[u64; 13], View>, R: Wait>(&self, rt: &R, seat: &mut Seat) -> [u64; 13]
        requires cell { seat.old.table_id ≡ self.now }
        requires rule { Turns CellInvariant seat.old.id (cell_view seat.old) (λ words. words) Kind.then }
        ensures own { seat.new.table_id ≡ seat.old.table_id }
        ensures step { Kind.then (cell_view seat.old) result result (cell_view seat.new) }
    {
        self.cell.load_as::<Kind, R>(rt, seat)
    }

    /// Stores `next` if the cell has the words `current`, in a step of this kind; else answers `Err` with the words found.
    fn compare_exchange_as<Kind: Outcome<[u64; 13], View>, R: Wait>(
        &self,
        rt: &R,
        seat: &mut Seat,
        current: [u64; 13],
        next: [u64; 13],
    ) -> Result<[u64; 13], [u64; 13]>
        requires cell { seat.old.table_id ≡ self.now }
        requires rule { Turns CellInvariant seat.old.id (cell_view seat.old) (exchanged current next)
            Kind.then }
        ensures own { seat.new.table_id ≡ seat.old.table_id }
        ensures step { Answers Kind.then (cell_view seat.old) current next result (cell_view seat.new) }
    {
        self.cell
            .compare_exchange_as::<Kind, R>(rt, seat, current, next)
    }

    /// Splits a second seat off `seat`, in this way.
    fn split_pass<Way: Split<View>>(&self, seat: &mut Seat) -> Seat
        requires cell { seat.old.table_id ≡ self.now }
        requires rule { Forks CellInvariant seat.old.id (cell_view seat.old)
            (Way.left (cell_view seat.old)) (Way.right (cell_view seat.old)) }
        ensures own { (seat.new.table_id ≡ seat.old.table_id) × (result.table_id ≡ seat.old.table_id) }
        ensures kept { cell_view seat.new ≡ Way.left (cell_view seat.old) }
        ensures given { cell_view result ≡ Way.right (cell_view seat.old) }
        ensures idle { result.me.1 ≡ [] }
    {
        self.cell.split_pass::<Way>(seat)
    }

    /// Joins `other`, a seat that was split off, to `seat`, in this way.
    fn join_pass<Way: Join<View>>(&self, seat: &mut Seat, other: Seat)
        requires cell { seat.old.table_id ≡ self.now }
        requires same { other.table_id ≡ seat.old.table_id }
        requires idle { other.me.1 ≡ [] }
        requires rule { Merges CellInvariant seat.old.id (cell_view seat.old) other.id (cell_view other)
            (Way.both (cell_view seat.old) (cell_view other)) Way.spent }
        ensures own { seat.new.table_id ≡ seat.old.table_id }
        ensures joined { cell_view seat.new ≡ Way.both (cell_view seat.old) (cell_view other) }
    {
        self.cell.join_pass::<Way>(seat, other);
    }

    /// Loads all words of the cell, in a step that is no reading: its version is not among those that the pass has read.
    fn load<R: Wait>(&self, rt: &R, seat: &mut Seat) -> [u64; 13]
        requires cell { seat.old.table_id ≡ self.now }
        requires acts { IsSome (cell_view seat.old).share }
        ensures own { seat.new.table_id ≡ seat.old.table_id }
        ensures looks { LooksOnly (cell_view seat.old) result result (cell_view seat.new) }
    {
        self.load_as::<Looks, R>(rt, seat)
    }

    /// Stores `next`, the words after the event `call`, if the cell has the words `current`; else answers `Err` with the words found.
    fn store_event<K: Asking, R: Wait>(
        &self,
        rt: &R,
        seat: &mut Seat,
        current: [u64; 13],
        next: [u64; 13],
        call: &EventCall,
    ) -> Result<[u64; 13], [u64; 13]>
        requires cell { seat.old.table_id ≡ self.now }
        requires acts { IsSome (cell_view seat.old).share }
        requires asks { K.call ≡ call.now }
        requires next { IsNextBoard (entry_at (cell_view seat.old) call.now) current next }
        ensures own { seat.new.table_id ≡ seat.old.table_id }
        ensures stored { Exchanges (StoresEvent call.now) (cell_view seat.old) current next result
            (cell_view seat.new) }
    {
        // For the prover only: the number of the match is 1 to 12.
        let _number = call.game.get();
        self.compare_exchange_as::<Adds<K>, R>(rt, seat, current, next)
    }

    /// Reads the board and its version, by one load of all words.
    fn read_by<R: Wait>(&self, rt: &R, seat: &mut Seat) -> Reading
        requires cell { seat.old.table_id ≡ self.now }
        requires acts { IsSome (cell_view seat.old).share }
        ensures { CellRead (cell_pass_of seat.old) result (cell_pass_of seat.new) }
    {
        let words = self.load_as::<Reads, R>(rt, seat);
        Reading::of(&board_at(&words))
    }
}

/// Each call promises one record (`CellReported` and others): in `says` what every `LiveBoard` does, in `steps` which steps it takes and in
/// `acts` how many, and in `up_to_date` that the pass has then seen the whole history, up to its last step. The calls may wait inside the
/// cell. A report or an enlistment is tried again, without a bound, but only if another pass changed a word between the load and the exchange.
impl LiveBoard for CellBoard {
    type ReaderPass = CellReaderPass;

    type ReporterPass = CellReporterPass;

    ghost is_reader = { IsCellPassOf };

    ghost is_reporter = { IsCellPassOf };

    ghost reader = { λ pass. cell_pass_view pass.view };

    ghost reporter = { λ pass. cell_pass_view pass.view };

    ghost reported = { CellReported };

    /// Enters the event `call` under the number of the pass: loads the words, and answers the refusal if the rules refuse the event; else
    /// stores the words after it if none has changed since the load, and begins anew if one has.
    fn report<R: Wait>(
        &self,
        rt: &R,
        pass: &mut CellReporterPass,
        call: &EventCall,
    ) -> Result<Accepted, Refusal>
        requires { pass.old.board ≡ self.now }
        ensures { CellReported pass.old call.now result pass.new }
    {
        'retry: for _ in rt.forever() {
            let words = self.load(rt, &mut pass.seat);
            let mut board = board_at(&words);
            let accepted = board.report(pass.number, call)?;
            let next = words_with(&board, words[12]);
            let stored = self.store_event::<Brand, R>(rt, &mut pass.seat, words, next, call);
            if stored.is_ok() {
                pass.accepted += 1;
                return Ok(accepted);
            }
        }
        unreachable!()
    }

    /// Reads the board and its version by a reader's pass, by one load.
    fn read<R: Wait>(&self, rt: &R, pass: &mut CellReaderPass) -> Reading
        requires { pass.old.board ≡ self.now }
        ensures { CellRead pass.old result pass.new }
    {
        self.read_by(rt, &mut pass.seat)
    }

    /// Reads the board and its version by a reporter's pass, by one load.
    fn read_own<R: Wait>(&self, rt: &R, pass: &mut CellReporterPass) -> Reading
        requires { pass.old.board ≡ self.now }
        ensures { CellRead pass.old result pass.new }
    {
        let seat = &mut pass.seat;
        self.read_by(rt, seat)
    }

    /// Splits a second reader's pass, for another thread, off `pass`: it has seen the same events as `pass`.
    fn split<R: Wait>(&self, _rt: &R, pass: &mut CellReaderPass) -> CellReaderPass
        requires { IsCellPassOf self.now pass.old }
        ensures own { IsCellPassOf self.now pass.new × IsCellPassOf self.now result }
        ensures split { CellSplit pass.old pass.new result }
    {
        let seat = self.split_pass::<SecondPass>(&mut pass.seat);
        CellReaderPass { seat }
    }

    /// Makes a reader's pass a reporter's, under the number after those enlisted; returns it as an error if 255 reporters are enlisted.
    fn enlist<R: Wait>(
        &self,
        rt: &R,
        pass: CellReaderPass,
    ) -> Result<CellReporterPass, TooManyReporters<CellReaderPass>>
        requires { pass.board ≡ self.now }
        ensures { MatchResult result (CellEnlisted pass) (λ full. CellFull pass full.0) }
    {
        let CellReaderPass { mut seat } = pass;
        'retry: for _ in rt.forever() {
            let words = self.load(rt, &mut seat);
            let enlisted = words[12];
            if enlisted >= MAX_REPORTERS {
                return Err(TooManyReporters(CellReaderPass { seat }));
            }
            let next = one_more_reporter(words);
            let added = self.compare_exchange_as::<Enlists, R>(rt, &mut seat, words, next);
            if added.is_ok() {
                if let Some(number) = ReporterNo::new((enlisted + 1) as u8) {
                    return Ok(CellReporterPass {
                        seat,
                        number,
                        accepted: 0,
                    });
                }
                unreachable!()
            }
        }
        unreachable!()
    }

    /// Tells the second pass all events that the first has seen, by a note (what the first knows, which the second takes in) and one load.
    fn meet<R: Wait>(&self, rt: &R, first: &mut CellReporterPass, second: &mut CellReporterPass)
        requires { IsCellPassOf self.now first.old × IsCellPassOf self.now second.old }
        ensures own { IsCellPassOf self.now first.new × IsCellPassOf self.now second.new }
        ensures met { CellMet first.old first.new second.old second.new }
    {
        let note = self.split_pass::<Note>(&mut first.seat);
        self.join_pass::<Note>(&mut second.seat, note);
        self.load(rt, &mut second.seat);
    }

    /// Returns the number under which the pass enters events.
    fn number_of(pass: &CellReporterPass) -> ReporterNo
        ensures { result ≡ (reporter_figures (cell_pass_view pass.now.view)).number }
    {
        pass.number
    }

    /// Returns how many events of the pass were accepted.
    fn accepted_of(pass: &CellReporterPass) -> u16
        ensures { result ≡ (reporter_figures (cell_pass_view pass.now.view)).accepted }
    {
        pass.accepted
    }
}
