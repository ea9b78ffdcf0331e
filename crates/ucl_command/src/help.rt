//! The texts of help and of refusals of command lines: what all programs share here, and each program's own in a module.

pub(crate) mod follow;
pub(crate) mod live;
pub(crate) mod night;

/// The text of the version of all programs, with the hash of the logic in which they are proved.
pub(crate) const VERSION: &str = "1.0.0+dev (proved with logic dac8208d650f15bf)";

/// The text of the refusal if a word of the command line is not UTF-8.
pub(crate) const NOT_UTF_8: &str = "error: a word of the command line is not UTF-8\n";

/// The text of the refusal if `clap` refuses without a text, or left out an option that has a default.
pub(crate) const UNREAD: &str = "error: the words of the command line cannot be read; see --help\n";

/// The help of the option `--group`.
pub(crate) const GROUP: &str = "The letter of the group";

/// The help of the option `--order`.
pub(crate) const ORDER: &str = "\
The order of the clubs: that of the Regulations, or
with away goals among tied clubs";

/// The help of the option `--format`.
pub(crate) const FORMAT: &str = "The form of the answers or screens";

/// The help of the option `--readings`. A reading is a snapshot of the board.
pub(crate) const READINGS: &str = "How many readings each of two readers takes, 0 to 1,000";
