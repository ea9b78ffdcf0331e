//! The lines that a follower passes over for their group or tie-break order, reported to a sink.

ghost use Rattle.std.specs.Prelude.{◌≡◌, ◌<◌};
ghost use Rattle.ucl_screen.specs.Screen.{IsGroup};
ghost use Rattle.ucl_live_runs.specs.FollowerRuns.{Reports, other_line, report_place, unreported};

use arrayvec::ArrayString;
use itoa::Buffer;
use ucl_json::BoardHeader;
use ucl_order::Profile;
use ucl_rows::put_text;
use ucl_screen::Sink;

/// Returns the text which reports that line number `line` is passed over because it has the group and the tie-break order of `header`.
fn other_line(line: u64, header: BoardHeader) -> ArrayString<128>
    requires { IsGroup header.group }
    ensures { result.bytes ≡ other_line line header }
{
    let mut text = ArrayString::new();
    text.push_str("line ");
    text.push_str(Buffer::new().format(line));
    text.push_str(": group ");
    text.push(char::from(header.group));
    text.push_str(", order ");
    text.push_str(header.profile.name());
    text.push_str(", is passed over\n");
    text
}

/// Returns the index, below 16, of a header's group and tie-break order: groups A to H under `uefa`, then under `away-in-tie`.
fn report_place(header: BoardHeader) -> usize
    requires { IsGroup header.group }
    ensures place { result ≡ report_place header.group header.profile }
    ensures within { result < 16 }
{
    let place = usize::from(header.group - b'A');
    match header.profile {
        Profile::Uefa => place,
        Profile::AwayInTie => place + 8,
    }
}

/// Reports to `others` that line `row` is passed over for its header, once for each group and tie-break order, as `reported` marks.
pub(crate) fn report_once<T: Sink>(
    reported: &mut [bool; 16],
    others: &mut T,
    row: u64,
    header: BoardHeader,
)
    requires { IsGroup header.group }
    ensures { Reports T.Sink row (unreported reported.old header)
        reported.old others.old reported.new others.new }
{
    let place = report_place(header);
    if reported[place] {
        return;
    }
    reported[place] = true;
    let line = other_line(row, header);
    let _ = put_text(others, line.as_str().as_bytes());
}
