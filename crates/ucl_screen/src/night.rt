//! A script as a value: the four clubs of a group, and the events that reporters enter. How it is read is in `reading`.

use ucl_board::NightEvent;
use ucl_order::Roster;

/// What a script contains: the clubs, and the events that reporters enter. Event i, counted from 1, is row i + 4.
#[derive(Debug, Drop)]
pub struct Night {
    /// The clubs of rows 1 to 4.
    pub roster: Roster,
    /// The events, in the order of their rows.
    pub events: Vec<NightEvent>,
}
