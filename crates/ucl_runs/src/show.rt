//! The run of `ucl_night show`, which reads a sheet, a board written down with its clubs, and writes its screen, that is its table as text.

ghost use Rattle.ucl_screen.specs.Screen.{IsGroup};
ghost use Rattle.ucl_runs.specs.Program.{IsRun, show_task, streams_at};

use std::alloc::Global;
use ucl_order::Profile;
use ucl_rows::{RunFault, put_text};
use ucl_screen::{Sink, Source, read_words, screen};

/// Reads a sheet from the source, and writes the screen of its board, for a group, by the tie-break rules of the profile, to the sink.
///
/// The whole input is read, by at most 4,194,306 calls of the source, before anything is written.
///
/// # Errors
///
/// If the source has failed, the input is refused or there is no memory, nothing is written. `WriteFailed` comes only if the sink has
/// failed: then exactly the first `written` bytes of the screen went out.
pub fn show_run<S: Source, W: Sink>(
    alloc: Global,
    source: &mut S,
    sink: &mut W,
    group: u8,
    profile: Profile,
) -> Result<(), RunFault>
    requires { IsGroup group }
    ensures { IsRun W.Sink (show_task profile group) (streams_at S.Source source.old sink.old)
        (streams_at S.Source source.new sink.new) result }
{
    let sheet = read_words(alloc, source)?;
    let text = screen(alloc, &sheet.board, &sheet.roster, group, profile)?;
    put_text(sink, text.as_bytes())
}
