//! What the workers of a night have in common: workers 1 and 2 are reporters, 3 and 4 readers.

ghost use Rattle.std.specs.Prelude.{◌≡◌};
ghost use Rattle.ucl_live_board.specs.Passes.{IsSound, IsReadingOf};
ghost use Rattle.ucl_runs.specs.Nights.{style_of};
ghost use Rattle.ucl_runs.specs.Show.{styled_screen};

use crate::gate::Gate;
use ucl_board::Reading;
use ucl_live_board::LiveBoard;
use ucl_order::Profile;
use ucl_screen::Night;

/// A gate in a private field, so that nothing but `come` and `NightConfig::shown` calls it.
#[derive(Drop)]
pub struct NightGate<'n, G> {
    gate: &'n G,
}

impl<'n, G: Gate> NightGate<'n, G> {
    /// Wraps a gate, which the workers of a night call as they go, in a private field.
    pub fn of(gate: &'n G) -> NightGate<'n, G> {
        NightGate { gate }
    }

    /// Calls the gate before this call of a worker on the board; the calls of each worker are counted from 0.
    pub fn come(&self, worker: u8, call: u32) {
        self.gate.come(worker, call);
    }
}

/// What the workers of a night have in common: the script, how often each reader reads, how it shows what it has read, and the gate.
#[derive(Drop)]
pub struct NightConfig<'n, G> {
    /// The clubs, and the events that the reporters enter.
    pub night: &'n Night,
    /// The letter of the group, `A` to `H`.
    pub group: u8,
    /// How many readings each reader takes.
    pub readings: u32,
    /// The tie-break rules by which all screens order the clubs.
    pub profile: Profile,
    /// The gate that is called on the way.
    pub night_gate: NightGate<'n, G>,
}

impl<G: Gate> NightConfig<'_, G> {
    /// Calls the gate with a reading, the last by a reader's pass of the board, and with its screen, `text`, for the group of the night.
    pub fn shown<B: LiveBoard>(
        &self,
        board: &B,
        worker: u8,
        pass: &B::ReaderPass,
        reading: &Reading,
        text: &str,
    )
        requires own { B.is_reader board.now pass.now }
        requires sound { IsSound (B.reader pass.now) }
        requires read { IsReadingOf (B.reader pass.now) reading.now }
        requires text { text.now ≡ styled_screen (style_of self.now) reading.now.board }
    {
        self.night_gate.gate.shown(worker, reading, text);
    }
}
