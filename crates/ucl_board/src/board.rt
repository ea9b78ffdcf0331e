//! The board of one thread: twelve words, and the calls on them. The rules by which an event changes a word are in `ucl_word`.

ghost use Rattle.std.specs.Prelude.{◌≡◌, ℕ, ◌+◌, ◌-◌, ◌≤◌, List, [], Ok, Err, IfOk, IfErr};
ghost use Rattle.ucl_word.specs.Record.{IsValid};
ghost use Rattle.ucl_word.specs.Counts.{GainsOne};
ghost use Rattle.ucl_word.specs.Rules.{reply_of};
ghost use Rattle.ucl_board.specs.declared.entry.Entry.{Entry};
ghost use Rattle.ucl_board.specs.Words.{AreWords, game_at, max_version, read_words, version_of};
ghost use Rattle.ucl_board.specs.History.{IsLegal, board_of, board_after, sequential_reply, attempted, entry_of};

use std::marker::Model;
use thiserror::Error;
use ucl_word::{
    Accepted, EventCall, MatchNo, MatchRecord, Refusal, ReporterNo, migrate, next_word, number_of,
    pack, record_of,
};

/// Refusal 10: one of twelve words is the packing of no valid record, neither in the first layout nor in the present one.
#[derive(Clone, Copy, Debug, PartialEq, Eq, Error)]
#[error("bad word 10: word {index}")]
pub struct BadWordAt {
    /// The place of the first such word, 1 to 12, which is the number of its match.
    pub index: u8,
}

/// The twelve matches of a group, each as its packed word. Contracts see the list of these words.
///
/// # Examples
///
/// ```rust
/// let mut board = Board::fresh();
/// let call = EventCall { game: MatchNo::new(4)?, expected: 0, kind: Kind::KickOff };
/// board.report(ReporterNo::new(1)?, &call).ok()?;
/// assert_eq!(board.game(call.game).state, State::InPlay);
/// assert_eq!(Board::of_words(&board.words()), Ok(board));
/// ```
#[derive(Clone, Copy, Debug, PartialEq, Eq)]
pub struct Board {
    /// The words of matches 1 to 12, each the packing of a valid record.
    words: [u64; 12],
}

impl Model for Board {
    ghost use Rattle.std.specs.Prelude.{ℕ, List};
    ghost use Rattle.ucl_board.specs.Words.{AreWords};

    ghost Value = { List ℕ };

    ghost view = { λ b. b.words };

    ghost invariant = { λ b. AreWords b.words };

    ghost inverse = { λ words. record { words = words } };
}

impl Board {
    /// Creates the board before any event: twelve scheduled matches.
    pub fn fresh() -> Board
        ensures { result ≡ board_of [] }
    {
        let scheduled = pack(&MatchRecord::default());
        Board {
            words: [scheduled; 12],
        }
    }

    /// Creates the board of these words for matches 1 to 12, each in the first layout or in the present one, to which [`migrate`] converts
    /// it. From the words that [`words`](Board::words) returns it creates the same board.
    ///
    /// # Errors
    ///
    /// [`BadWordAt`] with the place of the first word that is the packing of no valid record in either layout.
    pub fn of_words(words: &[u64; 12]) -> Result<Board, BadWordAt>
        ensures board { IfOk result (λ b. read_words 1 words.now ≡ Ok b) }
        ensures again { AreWords words.now → result ≡ Ok words.now }
        ensures refused { IfErr result (λ bad. read_words 1 words.now ≡ Err bad.index) }
    {
        let mut read = [0; 12];
        for i in 0..12u8 {
            match migrate(words[usize::from(i)]) {
                Ok(word) => read[usize::from(i)] = word,
                Err(_) => return Err(BadWordAt { index: i + 1 }),
            }
        }
        Ok(Board { words: read })
    }

    /// Creates the board of these words for matches 1 to 12, each of which has to be the packing of a valid record in the present
    /// layout. It does not test them, as [`of_words`](Board::of_words) does.
    pub fn of_packed(words: &[u64; 12]) -> Board
        requires { AreWords words.now }
        ensures { result ≡ words.now }
    {
        let packed = *words;
        Board { words: packed }
    }

    /// Returns the words of matches 1 to 12, each the packing of a valid record.
    pub fn words(&self) -> [u64; 12]
        ensures words { result ≡ self.now }
        ensures valid { AreWords result }
    {
        // Through a reference, so that the prover knows that each word is within its type.
        let words = &self.words;
        *words
    }

    /// Returns the record of a match, which is valid.
    pub fn game(&self, game: MatchNo) -> MatchRecord
        ensures value { result ≡ game_at self.now game }
        ensures valid { IsValid result }
    {
        record_of(self.words[usize::from(game.get() - 1)])
    }

    /// Returns the version of the board: the sum of the event numbers of its matches, at most 49,140.
    ///
    /// If the board came from [`fresh`](Board::fresh) by events, this is how many of them were accepted.
    pub fn version(&self) -> u16
        ensures sum { result ≡ version_of self.now }
        ensures bound { result ≤ max_version }
    {
        let mut version = 0;
        for word in &self.words {
            version += number_of(*word);
        }
        version
    }

    /// Enters an event in its match by the rules of events, and leaves the other eleven matches as they were.
    ///
    /// By counting: if the board is that of a legal history, which is a list of events each accepted after those before it, the reply is
    /// counted from this history; after an accepted event the board is that of the history with the event at its end, which is legal.
    ///
    /// # Errors
    ///
    /// The [`Refusal`] by the first rule that holds. A refusal changes nothing.
    pub fn report(&mut self, reporter: ReporterNo, call: &EventCall) -> Result<Accepted, Refusal>
        ensures reply { result ≡ reply_of (game_at self.old call.now.game) call.now }
        ensures unchanged { IfErr result (λ r. self.new ≡ self.old) }
        ensures board { self.new ≡ board_after self.old (attempted reporter call.now) }
        ensures sequential { (history : List Entry) → IsLegal history → board_of history ≡ self.old
            → result ≡ sequential_reply history call.now }
        ensures counted { IfOk result
            (λ _. GainsOne IsLegal board_of (entry_of reporter call.now) self.old self.new) }
    {
        let at = usize::from(call.game.get() - 1);
        match next_word(self.words[at], reporter, call.expected, call.kind) {
            Ok(next) => {
                self.words[at] = next;
                Ok(Accepted {
                    number: number_of(next),
                })
            }
            Err(refusal) => Err(refusal),
        }
    }
}
