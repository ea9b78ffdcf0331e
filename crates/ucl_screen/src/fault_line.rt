//! The line that a program prints of a fault: why an input is refused, was not read, or a run failed. It is kept as a text, a number if
//! there is one, and a text after it, so that it takes no memory.

ghost use Rattle.std.specs.Prelude.{◌≡◌, ◌++◌, Some, codes, decimal};
ghost use Rattle.ucl_screen.specs.Texts.{line_text};

use std::fmt;

/// The line of a fault, without its line feed: a text, a number if there is one, and what comes after it.
#[derive(Clone, Copy)]
pub struct FaultLine {
    /// The text before the number.
    pub before: &'static str,
    /// The number, if any.
    pub number: Option<usize>,
    /// The text after the number.
    pub after: &'static str,
}

impl FaultLine {
    /// Creates the line that is just this text, with no number.
    #[tactic(auto, using(crate::proofs::Columns::one_part))]
    pub fn plain(before: &'static str) -> FaultLine
        ensures { line_text result ≡ before.now }
    {
        FaultLine {
            before,
            number: None,
            after: "",
        }
    }

    /// Creates the line that is this text and then a number.
    #[tactic(auto, using(crate::proofs::Columns::two_parts))]
    pub fn ending(before: &'static str, number: usize) -> FaultLine
        ensures { line_text result ≡ before.now ++ decimal number }
    {
        FaultLine {
            before,
            number: Some(number),
            after: "",
        }
    }

    /// Creates the line that is this text, then a number of bytes, then ` bytes`.
    pub fn after_bytes(before: &'static str, bytes: usize) -> FaultLine
        ensures { line_text result ≡ before.now ++ decimal bytes ++ codes " bytes" }
    {
        FaultLine {
            before,
            number: Some(bytes),
            after: " bytes",
        }
    }
}

impl fmt::Display for FaultLine {
    ghost output = { λ line. Some (line_text line) };

    /// Writes the text, the number if there is one, and the text after it.
    #[tactic(auto, using(crate::proofs::Columns::no_number))]
    fn fmt<W: fmt::Write>(&self, f: &mut fmt::Formatter<W>) -> fmt::Result {
        let FaultLine {
            before,
            number,
            after,
        } = *self;
        match number {
            Some(number) => write!(f, "{before}{number}{after}"),
            None => write!(f, "{before}{after}"),
        }
    }
}
