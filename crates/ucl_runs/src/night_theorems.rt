//! What holds of every night, in which reporters in threads enter the rows of a script, each an event. The function is there to state it.

ghost use Rattle.ucl_runs.specs.Nights.{ScheduleDoesNotMatter};

/// Proves that, if all events of each match are of one reporter, every history that can come of the rows of a script, whoever wins which
/// race, comes to the same board: that of the rows entered one after the other in script order.
pub fn schedule_does_not_matter()
    ensures { ScheduleDoesNotMatter }
{}
