//! Why a mend is refused.

ghost use Rattle.std.specs.Prelude.{◌≡◌, Some};
ghost use Rattle.ucl_mends.specs.MendNames.{mend_refusal_code, mend_refusal_name};

use std::{error, fmt};

/// Why a mend is refused. A refused mend changes nothing.
#[derive(Clone, Copy, Debug, PartialEq, Eq)]
pub enum MendRefusal {
    /// 11: no event that stands has the row that is named.
    NoEvent,
    /// 12: the edition is the last, 65,535, or an edition is named that is not later. It comes before 11.
    LastEdition,
}

impl MendRefusal {
    /// Returns the number that stands for this refusal, 11 or 12.
    pub fn code(self) -> u8
        ensures { result ≡ mend_refusal_code self }
    {
        match self {
            MendRefusal::NoEvent => 11,
            MendRefusal::LastEdition => 12,
        }
    }

    /// Returns the name of this refusal, `no-event` or `last-edition`.
    pub fn name(self) -> &'static str
        ensures { result.now ≡ mend_refusal_name self }
    {
        match self {
            MendRefusal::NoEvent => "no-event",
            MendRefusal::LastEdition => "last-edition",
        }
    }
}

impl fmt::Display for MendRefusal {
    ghost output = { λ refusal. Some (mend_refusal_name refusal) };

    /// Writes the name of the refusal.
    fn fmt<W: fmt::Write>(&self, f: &mut fmt::Formatter<W>) -> fmt::Result {
        f.write_str(self.name())
    }
}

impl error::Error for MendRefusal {}
