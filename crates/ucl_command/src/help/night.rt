//! The texts of the help of `ucl_night` and its subcommands.

/// What the program is.
pub(crate) const PROGRAM: &str = "\
The board of one group of the UEFA Champions League: four clubs, twelve matches.
Reads standard input and writes standard output.";

/// What goes in, how the program ends, and an example of each subcommand.
pub(crate) const PROGRAM_MORE: &str = "\
Input: rows of four fields separated by commas, with no header row
  club,SLOT,NAME,COEFFICIENT     rows 1 to 4: the clubs of slots 1 to 4, as
                                 club,1,Alpha,60000; a name is 1 to 20 printable
                                 ASCII characters, and a coefficient in
                                 thousandths 1 to 9 digits, up to 999,999
  REPORTER,MATCH,EXPECTED,EVENT  then, in a script: an event in each row, as
                                 1,1,0,kickoff
  word,MATCH,WORD,               or, in a sheet: the word of each match, 1 to 12
                                 (word,1,2001000000001001,)

Exit status, with a text on standard error where it is not 0:
  0  done, or help or the version was asked for
  2  the words of the command line are refused
  3  the input is refused
  4  reading or writing failed
  5  there is no memory, or no thread
  6  the board refuses its reporters

Examples:
  ucl_night feed < examples/one_goal.csv
  ucl_night show --group B < examples/two_matches_sheet.csv
  ucl_night night --readings 3 < examples/group_a_2021_night.csv

docs/REFERENCE.md has rows, answers and all codes; docs/RULES.md has the rules.";

/// What the subcommand `feed` does.
pub(crate) const FEED: &str = "Enters a script, and writes a reply for each event";

/// What the subcommand `feed` takes and writes.
pub(crate) const FEED_MORE: &str = "\
Input, a script: rows of four fields separated by commas, with no header row
  club,SLOT,NAME,COEFFICIENT     rows 1 to 4: the clubs of slots 1 to 4, as
                                 club,1,Alpha,60000; a name is 1 to 20 printable
                                 ASCII characters, and a coefficient in
                                 thousandths 1 to 9 digits, up to 999,999
  REPORTER,MATCH,EXPECTED,EVENT  each further row: who enters the event, 1 to
                                 255; the match, 1 to 12; the event number that
                                 was last seen of the match; and the event; as
                                 1,1,0,kickoff, where nothing was seen of it

Events:
  kickoff, goal-home, goal-away, disallow-home, disallow-away, yellow-home,
  yellow-away, second-yellow-home, second-yellow-away, red-home, red-away,
  fulltime, reopen

Output:
  ROW ok MATCH NUMBER VERSION    the event of this row is accepted
  ROW refused CODE NAME          it is refused, for the reason of this name
  word,MATCH,WORD,               in the end the word of each match

Example:
  ucl_night feed < examples/one_goal.csv";

/// What the subcommand `show` does.
pub(crate) const SHOW: &str = "Writes the screen of a board that was written down";

/// What the subcommand `show` takes.
pub(crate) const SHOW_MORE: &str = "\
Input, a sheet: rows of four fields separated by commas, with no header row
  club,SLOT,NAME,COEFFICIENT     rows 1 to 4, as in a script
  word,MATCH,WORD,               rows 5 to 16: the word of each match, 1 to 12,
                                 in 16 hexadecimal digits, as `feed` writes it

Example:
  ucl_night show --group B < examples/two_matches_sheet.csv";

/// What the subcommand `night` does.
pub(crate) const NIGHT: &str =
    "Enters a script by two reporters in threads, and writes the screens";

/// What the subcommand `night` takes and writes.
pub(crate) const NIGHT_MORE: &str = "\
Input: a script, as `feed` takes it, whose reporters are 1 and 2

Output: where readings are asked for, the last screen of each of two readers,
headed `READER 1` and `READER 2`; then the closing screen, headed `FINAL`

Example:
  ucl_night night --readings 3 < examples/group_a_2021_night.csv";
