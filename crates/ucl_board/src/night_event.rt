//! `NightEvent`, an event with the reporter who enters it.

use ucl_word::{EventCall, ReporterNo};

/// An event as a reporter enters it, before it is accepted or refused. Scripts list them, and so do the rows of a night.
#[derive(Clone, Copy, Debug, PartialEq, Eq)]
pub struct NightEvent {
    /// The number of the reporter who enters the event, 1 to 255.
    pub reporter: ReporterNo,
    /// The match, the expected event number and the kind of event.
    pub call: EventCall,
}
