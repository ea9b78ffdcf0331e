//! The profiles: by what clubs that are level on points are compared in the matches among them. A code is the number of a profile in C.

ghost use Rattle.std.specs.Prelude.{◌≡◌};
ghost use Rattle.ucl_order.specs.Names.{profile_name, profile_named, profile_with};

/// By what clubs that are level on points are compared in the matches among them. All else of the order is the same for each profile.
#[derive(Clone, Copy, Debug, PartialEq, Eq)]
pub enum Profile {
    /// By points, goal difference and goals scored, as in the Regulations of the UEFA Champions League 2021/22.
    Uefa,
    /// By points, goal difference, goals scored and then away goals, also when the comparison is applied again: this project's own.
    AwayInTie,
}

/// The name of the profile `Uefa` in a command line or a row of input.
const UEFA: &str = "uefa";

/// The name of the profile `AwayInTie` in a command line or a row of input.
const AWAY_IN_TIE: &str = "away-in-tie";

/// The names of the profiles; the index of a name is the code of its profile, 0 or 1.
pub static PROFILE_NAMES: [&str; 2] = [UEFA, AWAY_IN_TIE];

impl Profile {
    /// Returns the name of the profile: `uefa` or `away-in-tie`. No other profile has it.
    pub fn name(self) -> &'static str
        ensures { result.now ≡ profile_name self }
    {
        match self {
            Profile::Uefa => UEFA,
            Profile::AwayInTie => AWAY_IN_TIE,
        }
    }

    /// Returns the profile with this code: `Uefa` for 0, `AwayInTie` for 1, `None` for any other.
    pub fn from_code(code: u32) -> Option<Profile>
        ensures { result ≡ profile_with code }
    {
        match code {
            0 => Some(Profile::Uefa),
            1 => Some(Profile::AwayInTie),
            _ => None,
        }
    }

    /// Returns the profile with this name, or `None` if no profile has it.
    pub fn from_name(name: &[u8]) -> Option<Profile>
        ensures { result ≡ profile_named name.now }
    {
        if name == UEFA.as_bytes() {
            Some(Profile::Uefa)
        } else if name == AWAY_IN_TIE.as_bytes() {
            Some(Profile::AwayInTie)
        } else {
            None
        }
    }
}
