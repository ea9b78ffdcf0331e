//! Handlers: what answers the lines of an input, one after the other. A handler has a state that each line may change.

ghost use Rattle.std.specs.Prelude.{◌≡◌, ℕ, List, IfErr, OnOk};

/// A buffer for answers. There is one for a whole run: the handler puts each answer into it in place of the one before.
pub trait Text {
    // The bytes of the answer in the buffer.
    ghost bytes: { Self → List ℕ };

    /// Creates the buffer for the answers of a run.
    fn new() -> Self;

    /// Returns the bytes of the answer in the buffer.
    fn text(&self) -> &[u8]
        ensures { result.now ≡ bytes self.now };
}

/// What answers lines, one after the other. It reads and writes nothing itself: `serve_lines` gives it each line and writes the answer.
///
/// Its answers are a relation, not a function, of its states and the lines: other threads may change what it borrows.
pub trait LineHandler {
    /// The buffer for its answers. An answer may be empty.
    type Answer: Text + Drop;

    /// Why it has no answer to a line, at which the run ends.
    type Fault: Drop;

    // Whether the handler can be given a line.
    ghost ready: { Self → Type 0 };

    // In the first state the handler answers the line with this number and these bytes by the last bytes, and is in the second state then.
    ghost answers: { Self → ℕ → List ℕ → Self → List ℕ → Type 0 };

    // In the first state the handler has no answer to the line with this number, for this fault, and is in the second state then.
    ghost stops: { Self → ℕ → List ℕ → Self → Self.Fault → Type 0 };

    // As `answers`, for the bytes after the last line feed when the input has ended.
    ghost ends: { Self → ℕ → List ℕ → Self → List ℕ → Type 0 };

    // As `stops`, for the bytes after the last line feed when the input has ended.
    ghost stops_at_end: { Self → ℕ → List ℕ → Self → Self.Fault → Type 0 };

    /// Answers `line`, which has number `row` and comes without its line feed, and puts the answer into `text`. `Err` if it has none.
    fn answer(&mut self, row: u64, line: &[u8], text: &mut Self::Answer) -> Result<(), Self::Fault>
        requires { ready self.old }
        ensures ready { ready self.new }
        ensures answers { OnOk result
            (answers self.old row line.now self.new (Self.Answer.bytes text.new)) }
        ensures stops { IfErr result (stops self.old row line.now self.new) };

    /// Answers, when the input has ended, the bytes after its last line feed, which may be none. `Err` if it has no answer.
    fn end(&mut self, row: u64, begun: &[u8], text: &mut Self::Answer) -> Result<(), Self::Fault>
        requires { ready self.old }
        ensures ready { ready self.new }
        ensures answers { OnOk result
            (ends self.old row begun.now self.new (Self.Answer.bytes text.new)) }
        ensures stops { IfErr result (stops_at_end self.old row begun.now self.new) };
}
