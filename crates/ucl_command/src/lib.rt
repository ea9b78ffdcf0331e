//! The arguments of all programs: what words on the command line ask for, or why they name nothing to do.
//!
//! `clap` reads the words. What it makes of them, and the texts of help and refusals, is tested; proved is what the answers keep to.
//!
//! # Examples
//!
//! ```rust
//! // words: ["ucl_night", "show", "--group", "B"]
//! let line = line_of(rt.alloc(), &words).ok()?;
//! assert!(matches!(line, Line::Show { group: b'B', profile: Profile::Uefa }));
//! ```
#![tactic(auto)]

mod fault;
mod follow;
mod help;
mod live;
mod night;
mod options;

pub use fault::{LineFault, words_of};
pub use follow::{FollowArgs, FollowShape, follow_args};
pub use live::{LiveArgs, live_args};
pub use night::{Line, line_of};
pub use options::Format;
