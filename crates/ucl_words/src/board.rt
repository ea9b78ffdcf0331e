//! A board that threads share, over thirteen atomic words: the number of reporters, and the twelve matches. `seat.me.0` is what contracts
//! know of a pass; `K: Asking` picks, in proofs alone, the seat and the event of a step, `acts` says that the pass may take steps, `next`
//! that this one comes next, and `held` what it keeps of a call under way.

ghost use Rattle.std.specs.Prelude.{◌≡◌, ◌≢◌, ◌<◌, [], length, IfOk, IsSome, MatchResult, MatchBool};
ghost use Rattle.atomic_table.specs.Seated.{TableId};
ghost use Rattle.ucl_board.specs.Fixtures.{IsMatch};
ghost use Rattle.ucl_board.specs.History.{reading_of};
ghost use Rattle.ucl_words.specs.TableInvariants.{words_after, ImpliesInvariant, Occurs, Steps};
ghost use Rattle.ucl_words.specs.CollectSteps.{Collects, FindsAgain, FindsAnother, IsHoldingFor, MayCollect, StaysIn, Completes};
ghost use Rattle.ucl_words.specs.WordCalls.{IsConsistent};
ghost use Rattle.ucl_words.specs.WordRecords.{WordOpened, WordReported, WordRead, WordSplit, WordEnlisted, WordFull, WordMet, IsWordPassOf};
ghost use Rattle.ucl_words.specs.WordViews.{pass_of};
ghost use Rattle.ucl_live_board.specs.BoardInvariant.{BoardsOpenFresh};
ghost use Rattle.ucl_word.specs.Record.{IsReporter};
ghost use Rattle.ucl_steps.specs.Protocol.{NoCall, Collecting, Checking};
ghost use Rattle.ucl_log.specs.Log as logs;
ghost use Rattle.ucl_log.specs.Log.{history_of, number_of};
ghost use Rattle.ucl_steps.specs.LocalState.{local_of, next_match};
ghost use Rattle.ucl_steps.specs.declared.step.Call.TheVariants as calls;
ghost use Rattle.ucl_steps.specs.declared.trace.Reply.TheVariants as replies;

use crate::passes::{WordReaderPass, WordReporterPass};
use crate::rule::{
    Asking, CountEnlisted, Enlist, First, Look, Note, Seat, Second, SecondPass, Swap, Table,
    WordRule,
};
use atomic_table::TableRule;
use std::alloc::Global;
use std::marker::{Brand, Model};
use ucl_board::{Board, Entry, Reading};
use ucl_live_board::{BoardRule, MAX_REPORTERS, TooManyReporters, View};
use ucl_word::{Accepted, EventCall, OutOfMemory, Refusal, ReporterNo, next_word, number_of};

/// The index of the word that counts the enlisted reporters; words 1 to 12 are the matches.
const ENLISTED: usize = 0;

/// A board of thirteen words that threads share and that never waits: each word is loaded or exchanged in one atomic step. Contracts see
/// which table of words it is.
///
/// Each load and exchange of a match word leaves an access on the trail of its pass, in contracts alone: what it did, of which match, the
/// word that it found, and how many events had been accepted. By the invariant of the table the steps of all passes are one log, each the
/// next one of the protocol (`ucl_steps`), and each report and each reading is a call of it, with the answer that was given. None of the
/// six calls whose names end in `_now` can wait.
#[derive(Drop)]
pub struct WordBoard {
    table: Table,
}

impl Model for WordBoard {
    ghost Value = { TableId };

    ghost view = { λ b. b.table.shared.table_id };

    ghost invariant = { λ b. (b.table.shared.table_id.words ≡ 13)
        × (b.table.shared.table_id.slots ≡ 0) };
}

/// Returns the thirteen words of a board of no event, with no reporter enlisted.
fn fresh_words() -> [u64; 13]
    ensures { result ≡ words_after [] 0 }
{
    let mut words = [0; 13];
    words[1..].copy_from_slice(&Board::fresh().words());
    words
}

impl WordBoard {
    /// Opens a board of no event, and returns it with the reader's pass from which all its passes come. The invariant of its table implies
    /// that of word boards (`tied`), and lets no board open but one of no event, reporter or step (`rule`). No other call takes memory.
    ///
    /// # Errors
    ///
    /// `OutOfMemory` if the memory of the table is refused; then there is no board.
    ///
    /// ```rust
    /// let (board, mut reader) = WordBoard::open(&rt, rt.alloc())?;
    /// let reading = board.read_now(&mut reader);
    /// assert_eq!(rt; reading.version, 0);
    /// ```
    pub fn open<R>(_rt: &R, alloc: Global) -> Result<(WordBoard, WordReaderPass), OutOfMemory>
        ensures own { IfOk result (λ opened. IsWordPassOf opened.0 opened.1) }
        ensures opened { IfOk result (λ opened. WordOpened opened.1) }
        ensures rule { BoardsOpenFresh ⟦<WordRule as BoardRule>⟧.words_after ⟦<WordRule as BoardRule>⟧.may }
        ensures tied { ImpliesInvariant (⟦<WordRule as TableRule<Entry, View, ()>>⟧.holds tt) }
    {
        let (table, seat) = Table::of_words(alloc, &fresh_words(), &())?;
        Ok((WordBoard { table }, WordReaderPass { seat }))
    }

    /// Loads the word of the match that the event `call` names: the first step of a report. The pass is a reporter's (`me`).
    fn look<K: Asking>(&self, seat: &mut Seat, call: &EventCall) -> u64
        requires table { seat.old.table_id ≡ self.now }
        requires acts { IsSome seat.old.me.0.share }
        requires place { K.seat ≡ seat.old.id }
        requires call { K.call ≡ call.now }
        requires me { IsReporter (number_of seat.old.me.0.own) }
        requires next { (local_of seat.old.me.0.own).held ≡ NoCall }
        ensures own { seat.new.table_id ≡ seat.old.table_id }
        ensures seat { seat.new.id ≡ seat.old.id }
        ensures game { IsMatch call.now.game }
        ensures looks { Steps seat.new.id (logs.Match (logs.Look call.now) call.now.game result)
            seat.old.me.0 seat.new.me.0 }
    {
        let word = usize::from(call.game.get());
        self.table.shared.load::<Look<K>>(seat, word)
    }

    /// Replaces the word of the entry's match by `next` if it is still `loaded`, and so enters the entry; returns the word that it found.
    fn swap<K: Asking>(&self, seat: &mut Seat, loaded: u64, next: u64, entry: Entry) -> u64
        requires table { seat.old.table_id ≡ self.now }
        requires acts { IsSome seat.old.me.0.share }
        requires place { K.seat ≡ seat.old.id }
        requires next { IsHoldingFor (local_of seat.old.me.0.own).held entry.game loaded next }
        ensures own { seat.new.table_id ≡ seat.old.table_id }
        ensures seat { seat.new.id ≡ seat.old.id }
        ensures swaps { Steps seat.new.id (logs.Match logs.Swap entry.game result) seat.old.me.0
            seat.new.me.0 }
    {
        let word = usize::from(entry.game.get());
        self.table
            .shared
            .compare_exchange_with::<Swap<K>>(seat, word, loaded, next, &entry)
    }

    /// Loads all twelve match words, one after another: the first collect of a reading.
    fn collect(&self, seat: &mut Seat) -> [u64; 12]
        requires table { seat.old.table_id ≡ self.now }
        requires consistent { IsConsistent seat.old.me.0 }
        requires next { MayCollect (local_of seat.old.me.0.own).held }
        ensures own { seat.new.table_id ≡ seat.old.table_id }
        ensures seat { seat.new.id ≡ seat.old.id }
        ensures long { length result ≡ 12 }
        ensures collects { Collects seat.old.me.0 result seat.new.me.0 }
        ensures does { StaysIn seat.old.me.0
            (Checking result 0 (length (history_of seat.new.me.0.log))) seat.new.me.0 }
    {
        let mut words = [0; 12];
        for i in 0..12 {
            words[i] = self.table.shared.load::<First>(seat, i + 1);
        }
        words
    }

    /// Loads a match word again, the next that the second collect of a reading is to compare.
    fn load_again<K: Asking>(&self, seat: &mut Seat, word: usize) -> u64
        requires table { seat.old.table_id ≡ self.now }
        requires acts { IsSome seat.old.me.0.share }
        requires place { K.seat ≡ seat.old.id }
        requires word { IsMatch word }
        requires next { word ≡ next_match logs.Second (local_of seat.old.me.0.own).held }
        ensures own { seat.new.table_id ≡ seat.old.table_id }
        ensures seat { seat.new.id ≡ seat.old.id }
        ensures loads { Steps seat.new.id (logs.Match logs.Second word result) seat.old.me.0
            seat.new.me.0 }
    {
        self.table.shared.load::<Second<K>>(seat, word)
    }

    /// Loads the match words again, up to the first that is not the one in `words`, and returns whether all are: a second collect.
    fn is_clean(&self, seat: &mut Seat, words: &[u64; 12]) -> bool
        requires table { seat.old.table_id ≡ self.now }
        requires consistent { IsConsistent seat.old.me.0 }
        requires next { (local_of seat.old.me.0.own).held
            ≡ Checking words.now 0 (length (history_of seat.old.me.0.log)) }
        ensures own { seat.new.table_id ≡ seat.old.table_id }
        ensures seat { seat.new.id ≡ seat.old.id }
        ensures compared { MatchBool result
            (FindsAgain seat.old.me.0 words.now seat.new.me.0)
            (FindsAnother seat.old.me.0 words.now seat.new.me.0) }
        ensures does { MatchBool result
            (Completes seat.old.me.0 calls.Reading (replies.Copied (reading_of words.now))
            seat.new.me.0)
            (StaysIn seat.old.me.0 (Collecting []) seat.new.me.0) }
        ensures occurs { MatchBool result (Occurs seat.new.id seat.new.me.0) (Unit {0}) }
    {
        for checked in 0..12 {
            if self.load_again::<Brand>(seat, checked + 1) != words[checked] {
                return false;
            }
        }
        true
    }

    /// Reads the board: loads all match words, and loads them again, until none has changed. During each try but the last an event was
    /// accepted, so there are at most as many tries as a history has lengths.
    fn read_by(&self, seat: &mut Seat) -> Reading
        requires table { seat.old.table_id ≡ self.now }
        requires consistent { IsConsistent seat.old.me.0 }
        requires next { (local_of seat.old.me.0.own).held ≡ NoCall }
        ensures consistent { IsConsistent seat.new.me.0 }
        ensures read { WordRead (pass_of seat.old.table_id seat.old.id seat.old.me.0) result
            (pass_of seat.new.table_id seat.new.id seat.new.me.0) }
    {
        'tries: loop {
            let words = self.collect(seat);
            if self.is_clean(seat, &words) {
                return Reading::of(&Board::of_packed(&words));
            }
        }
    }

    /// Adds one to the number of enlisted reporters if it is `tried` (`won`); returns the number found, another if not (`missed`).
    fn add_reporter<K: Asking>(&self, seat: &mut Seat, tried: u64) -> u64
        requires table { seat.old.table_id ≡ self.now }
        requires acts { IsSome seat.old.me.0.share }
        requires reader { number_of seat.old.me.0.own ≡ 0 }
        requires place { K.seat ≡ seat.old.id }
        requires next { (local_of seat.old.me.0.own).held ≡ NoCall }
        requires room { tried < 255 }
        ensures own { seat.new.table_id ≡ seat.old.table_id }
        ensures seat { seat.new.id ≡ seat.old.id }
        ensures won { result ≡ tried
            → Steps seat.new.id (logs.CountRaised result) seat.old.me.0 seat.new.me.0 }
        ensures missed { result ≢ tried
            → Steps seat.new.id (logs.CountRead result) seat.old.me.0 seat.new.me.0 }
    {
        self.table
            .shared
            .compare_exchange::<Enlist<K>>(seat, ENLISTED, tried, tried + 1)
    }

    /// Loads the number of enlisted reporters, in one step of the pass that acts by this seat.
    fn count<K: Asking>(&self, seat: &mut Seat) -> u64
        requires table { seat.old.table_id ≡ self.now }
        requires acts { IsSome seat.old.me.0.share }
        requires place { K.seat ≡ seat.old.id }
        ensures own { seat.new.table_id ≡ seat.old.table_id }
        ensures seat { seat.new.id ≡ seat.old.id }
        ensures counts { Steps seat.new.id (logs.CountRead result) seat.old.me.0 seat.new.me.0 }
    {
        self.table.shared.load::<CountEnlisted<K>>(seat, ENLISTED)
    }

    /// Enters the event `call` under the number of the pass, by one load and at most one compare-and-exchange of its match word. An
    /// accepted event is the last that the pass has then seen.
    ///
    /// # Errors
    ///
    /// The refusal that a board of one thread gives after all events that the pass has then seen: nothing is entered. If another event of
    /// the match came between the load and the exchange, it is `Stale` with the event number that was found. A report takes effect at its
    /// last step: the exchange, or the load on whose word the rules refuse the event.
    ///
    /// ```rust
    /// let (board, pass) = WordBoard::open(&rt, rt.alloc())?;
    /// let mut reporter = board.enlist_now(pass).ok().ok_or("no number")?;
    /// let kick_off = EventCall {
    ///     game: MatchNo::new(1).ok_or("no match")?,
    ///     expected: 0,
    ///     kind: Kind::KickOff,
    /// };
    /// let reply = board.report_now(&mut reporter, &kick_off);
    /// assert_eq!(rt; reply, Ok(Accepted { number: 1 }));
    /// ```
    pub fn report_now(
        &self,
        pass: &mut WordReporterPass,
        call: &EventCall,
    ) -> Result<Accepted, Refusal>
        requires { pass.old.board ≡ self.now }
        ensures { WordReported pass.old call.now result pass.new }
    {
        let loaded = self.look::<Brand>(&mut pass.seat, call);
        let next = next_word(loaded, pass.number, call.expected, call.kind)?;
        let entry = Entry::of(pass.number, call);
        let found = self.swap::<Brand>(&mut pass.seat, loaded, next, entry);
        if found == loaded {
            let number = number_of(next);
            pass.accepted += 1;
            Ok(Accepted { number })
        } else {
            Err(Refusal::Stale {
                found: number_of(found),
            })
        }
    }

    /// Reads the board and its version, as they were at one moment of this call: loads all match words, and loads them again, and begins
    /// anew if one has changed. It takes at most one try more than events are accepted after its first load, each of at most 24 loads, so
    /// at most 1,179,384 loads. That moment is the twelfth load of its last try, which ends the first collect.
    ///
    /// ```rust
    /// let (board, mut reader) = WordBoard::open(&rt, rt.alloc())?;
    /// let reading = board.read_now(&mut reader);
    /// assert_eq!(rt; reading.version, 0);
    /// assert_eq!(rt; reading.board.words(), [0x2000000000000000; 12]);
    /// ```
    pub fn read_now(&self, pass: &mut WordReaderPass) -> Reading
        requires { pass.old.board ≡ self.now }
        ensures { WordRead pass.old result pass.new }
    {
        self.read_by(&mut pass.seat)
    }

    /// Reads the board and its version, as they were at one moment of this call, by a reporter's pass, in the same steps as `read_now`.
    ///
    /// ```rust
    /// let (board, pass) = WordBoard::open(&rt, rt.alloc())?;
    /// let mut reporter = board.enlist_now(pass).ok().ok_or("no number")?;
    /// let kick_off = EventCall {
    ///     game: MatchNo::new(1).ok_or("no match")?,
    ///     expected: 0,
    ///     kind: Kind::KickOff,
    /// };
    /// let accepted = board.report_now(&mut reporter, &kick_off).is_ok();
    /// let reading = board.read_own_now(&mut reporter);
    /// assert_eq!(rt; (accepted, reading.version), (true, 1));
    /// ```
    pub fn read_own_now(&self, pass: &mut WordReporterPass) -> Reading
        requires { pass.old.board ≡ self.now }
        ensures { WordRead pass.old result pass.new }
    {
        let seat = &mut pass.seat;
        self.read_by(seat)
    }

    /// Splits off a second reader's pass, for another thread: it has seen the same events as `pass`, and has, in contracts, its steps. This
    /// is one load of the number of reporters by the kit, which ignores what it finds; it is no step of the log, and no contract counts it.
    ///
    /// ```rust
    /// let (board, mut reader) = WordBoard::open(&rt, rt.alloc())?;
    /// let mut other = board.split_now(&mut reader);
    /// let reading = board.read_now(&mut reader);
    /// assert_eq!(rt; board.read_now(&mut other), reading);
    /// ```
    pub fn split_now(&self, pass: &mut WordReaderPass) -> WordReaderPass
        requires { pass.old.board ≡ self.now }
        ensures { WordSplit pass.old pass.new result }
    {
        let seat = self.table.shared.split_seat::<SecondPass>(&mut pass.seat);
        WordReaderPass { seat }
    }

    /// Makes a reader's pass a reporter's, under a number of its own, by at most 255 compare-and-exchanges of the number of reporters: the
    /// first expects none, and each later one as many as the one before found.
    ///
    /// # Errors
    ///
    /// `TooManyReporters` with the pass, which may have seen more, if 255 reporters are enlisted.
    ///
    /// ```rust
    /// let (board, pass) = WordBoard::open(&rt, rt.alloc())?;
    /// let version = match board.enlist_now(pass) {
    ///     Ok(mut reporter) => board.read_own_now(&mut reporter).version,
    ///     Err(TooManyReporters(mut reader)) => board.read_now(&mut reader).version,
    /// };
    /// assert_eq!(rt; version, 0);
    /// ```
    pub fn enlist_now(
        &self,
        pass: WordReaderPass,
    ) -> Result<WordReporterPass, TooManyReporters<WordReaderPass>>
        requires { pass.board ≡ self.now }
        ensures { MatchResult result (WordEnlisted pass) (λ full. WordFull pass full.0) }
    {
        let WordReaderPass { mut seat } = pass;
        let mut known = 0;
        'tries: while known < MAX_REPORTERS {
            let found = self.add_reporter::<Brand>(&mut seat, known);
            if found == known {
                if let Some(number) = ReporterNo::new((known + 1) as u8) {
                    return Ok(WordReporterPass {
                        seat,
                        number,
                        accepted: 0,
                    });
                }
                unreachable!()
            }
            known = found;
        }
        Err(TooManyReporters(WordReaderPass { seat }))
    }

    /// Tells the second pass all events that the first has seen: afterwards it has seen all that either had seen. The first is as it was.
    /// This is one load of the number of reporters, after two by the kit, which ignores what they find: those are no steps of the log.
    ///
    /// ```rust
    /// let (board, mut pass) = WordBoard::open(&rt, rt.alloc())?;
    /// let other = board.split_now(&mut pass);
    /// let mut first = board.enlist_now(pass).ok().ok_or("no number")?;
    /// let mut second = board.enlist_now(other).ok().ok_or("no number")?;
    /// board.meet_now(&mut first, &mut second);
    /// assert_eq!(rt; board.read_own_now(&mut second).version, 0);
    /// ```
    pub fn meet_now(&self, first: &mut WordReporterPass, second: &mut WordReporterPass)
        requires { (first.old.board ≡ self.now) × (second.old.board ≡ self.now) }
        ensures { WordMet first.old first.new second.old second.new }
    {
        let note = self.table.shared.split_seat::<Note>(&mut first.seat);
        self.table.shared.join_seat::<Note>(&mut second.seat, note);
        self.count::<Brand>(&mut second.seat);
    }
}
