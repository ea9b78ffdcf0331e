//! The texts of the help of `ucl_follow`.

/// What the program is.
pub(crate) const PROGRAM: &str = "\
Follows the lines of an evening in JSON, from any distance.
Shows on standard output each moment that is newer than all it has shown.";

/// What goes in and out, how the program ends, and examples.
pub(crate) const PROGRAM_MORE: &str = "\
Input: the answers of `ucl_live --format json`, in any order, doubled, cut, and
with other lines between. A line tells a moment where it is JSON, of at most
4,096 bytes and an end, with the members group, order, clubs and words of a
board, and its edition, where this is not 0: each answer to an accepted event
does, and each screen. A moment of a later edition is newer, whatever its
version. All lines of one group and order are those of one board.

The group and the order are those of --group and --order, else those of the
first moment. A moment of another group or order is passed over, and standard
error tells it at once, by its line: once for each such group and order.

Output: the screen of each moment that is newer than all before, worked out
from its words, by its order; each other line is passed over. No text of a line
is handed on. With --matches the twelve matches in place of the screen, a line
each.

At the end of the input standard error tells how many lines came, were shown
and were passed over.

Exit status:
  0  the input has ended, or help or the version was asked for
  2  the words of the command line are refused
  4  reading or writing failed
  5  there is no memory

Examples:
  tail -n +1 -F evening.csv | ucl_live --format json | ucl_follow

docs/REFERENCE.md has rows, answers and all codes; docs/RULES.md has the rules.";

/// The help of the option `--group`.
pub(crate) const GROUP: &str = "\
Follows this group alone; that of the first moment
without it";

/// The help of the option `--order`.
pub(crate) const ORDER: &str = "\
Follows boards of this order of the clubs alone; that
of the first moment without it";

/// The help of the option `--matches`.
pub(crate) const MATCHES: &str = "\
Writes the twelve matches in place of each screen; does
not go with --format";
