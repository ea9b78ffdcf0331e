//! The texts of the help of `ucl_live`.

/// What the program is.
pub(crate) const PROGRAM: &str = "\
The board of one group of the UEFA Champions League through an evening.
Answers each row of standard input as it comes, on standard output.";

/// What goes in and out, how the program ends, and examples.
pub(crate) const PROGRAM_MORE: &str = "\
Input: rows of four fields separated by commas, one a line, of at most 256
bytes; a line with nothing on it is passed over and counted
  group,GROUP,ORDER,EDITION      first, where it is wanted: the group, A to H, the
                                 order, uefa or away-in-tie, and the edition of
                                 the board, 0 to 65535; as group,C,uefa,1
  club,SLOT,NAME,COEFFICIENT     the first four: the clubs of slots 1 to 4, as
                                 club,1,Alpha,60000; a name is 1 to 20 printable
                                 ASCII characters, and a coefficient in
                                 thousandths 1 to 9 digits, up to 999,999
  REPORTER,MATCH,EXPECTED,EVENT  then, in any order and without an end: who
                                 enters the event, 1 to 255; the match, 1 to 12;
                                 the event number last seen of it; the event; as
                                 1,1,0,kickoff where nothing was seen of match 1
  screen,,,                      the table as it stands
  matches,,,                     the twelve matches as they stand, a line each
  words,,,                       the twelve words as they stand
  mend,LINE,,                    the events that stand, without that of this
                                 line, as a later edition; as mend,17,,
  mend,,EDITION,                 the events that stand, as this later edition
  club,SLOT,NAME,COEFFICIENT     once the board is open: the club takes its slot,
                                 the events stay, and the edition is one later

Events:
  kickoff, goal-home, goal-away, disallow-home, disallow-away, yellow-home,
  yellow-away, second-yellow-home, second-yellow-away, red-home, red-away,
  fulltime, reopen

Output: once the clubs are named, each row is answered before the next is read
  LINE ok MATCH NUMBER VERSION   the event of this line is accepted
  LINE refused CODE NAME         it is refused, for the reason of this name
  LINE refused 1 stale NUMBER    the match has this event number by now: look at
                                 matches,,, first
  LINE refused 20 bad-row        the line asks for nothing that there is
  LINE mended EDITION VERSION    the board is mended, or a club has taken its slot
  LINE refused 11 no-event       no event that stands has this line
  LINE refused 12 last-edition   65535 is reached, or the edition is not later
  the screen, matches or words   where they are asked for

With --format json each answer is one object on one line, whose member reply is
ok, refused, mended, left-out, words, matches or screen; a line left-out comes
before mended for each event that a mend leaves out beside the one it names.

Exit status, with a text on standard error where it is not 0:
  0  the input has ended, or help or the version was asked for
  2  the words of the command line are refused, or differ from the row of a group
  3  the clubs have a fault; nothing was written
  4  reading or writing failed
  5  there is no memory

Examples:
  ucl_live < examples/one_goal.csv
  tail -n +1 -F evening.csv | ucl_live --screens    follows a record of rows

docs/REFERENCE.md has rows, answers and all codes; docs/RULES.md has the rules.";

/// The help of the option `--group`.
pub(crate) const GROUP: &str = "\
The letter of the group; A, where no first row says
one";

/// The help of the option `--order`.
pub(crate) const ORDER: &str = "\
The order of the clubs: that of the Regulations, or
with away goals among tied clubs; uefa, where no first
row says one";

/// The help of the option `--screens`.
pub(crate) const SCREENS: &str = "Writes the screen after each accepted event and mend";
