//! The gate of a night, which tests use to count its calls and to hold up its threads.

ghost use Rattle.std.specs.Prelude.{◌≡◌};
ghost use Rattle.ucl_runs.specs.Show.{Style, styled_screen};

use ucl_board::Reading;

/// What the workers of a night call as they go: 1 and 2 are the reporters, 3 and 4 the readers. What a night promises holds whatever a gate
/// does, which may wait, count or write down its calls; but by holding workers up it can decide in which order the events of both reporters
/// come to the board, and whether the night ends.
pub trait Gate: Sync {
    /// Is called before each call on the board of a worker, a reporter (1, 2) or a reader (3, 4). A worker's calls are counted from 0 (and,
    /// past `u32::MAX`, from 0 again).
    fn come(&self, worker: u8, call: u32);

    /// Is called after each screen of a reader, with the reading, a snapshot of the board, of which `text` is the screen.
    fn shown(&self, worker: u8, reading: &Reading, text: &str)
        requires { (style : Style) × (text.now ≡ styled_screen style reading.now.board) };
}

/// The gate that does nothing, and so holds no worker up.
#[derive(Clone, Copy, Debug, Default)]
pub struct OpenGate;

impl Gate for OpenGate {
    /// Lets a worker make its call on the board at once.
    fn come(&self, _worker: u8, _call: u32) {}

    /// Does nothing with the screen that a reader has made of its reading.
    fn shown(&self, _worker: u8, _reading: &Reading, _text: &str) {}
}
