//! Who takes part in a run of the machine, and the steps that each can take. A cast says how many reporters and readers there are.

use ucl_word::{EventCall, ReporterNo};

/// The callers of a run: reporters 1 to `reporters`, and readers 1 to `readers`.
#[derive(Clone, Copy, Debug, PartialEq, Eq)]
pub struct Cast {
    /// How many reporters there are, 0 to 255.
    pub reporters: u8,
    /// How many readers there are, 0 to 65,535.
    pub readers: u16,
}

/// Who takes a step of a run. A caller that the run's `Cast` does not have can take none.
#[derive(Clone, Copy, Debug, PartialEq, Eq)]
pub enum Caller {
    /// The reporter with this number. Reporters enter events, and read.
    Reporter(ReporterNo),
    /// The reader with this number, counted from 1. Readers only read.
    Reader(u16),
}

/// What a caller asks of the board.
#[derive(Clone, Copy, Debug, PartialEq, Eq)]
pub enum Call {
    /// To enter this event. Only a reporter may ask it.
    Event(EventCall),
    /// To read the board. Reporters and readers may ask it.
    Reading,
}

/// A step of a caller. `Look`, `Swap`, `First` and `Second` are atomic steps on one match word; `Begin` and `End` touch none.
#[derive(Clone, Copy, Debug, PartialEq, Eq)]
pub enum Step {
    /// An idle caller begins a call.
    Begin(Caller, Call),
    /// A reporter that wants to enter an event loads the word of its match. If the rules refuse the event, that is the reply.
    Look(Caller),
    /// A reporter that has looked replaces the word that it loaded by the next one, if the word is still there: a compare-and-exchange. If it
    /// is not, the reply is that the event is stale.
    Swap(Caller),
    /// A reading loads the next word of its first collect, from match 1 to match 12.
    First(Caller),
    /// A reading loads the next word of its second collect. If the word differs from that of the first collect, the reading begins anew.
    Second(Caller),
    /// A caller that has its reply ends its call.
    End(Caller),
}
