//! The runs of `ucl_night`, over any source and any sink: `feed_run` enters a script, `show_run` writes the screen of a sheet, and
//! `night_run` has two reporters enter a script on any live board while two readers look on; `put_night` writes their screens. `run` and
//! `run_night` do what the arguments of `ucl_night` ask for, and `run_words` what its words ask for.
#![tactic(auto)]

mod config;
mod feed;
mod gate;
mod night;
mod night_theorems;
mod program;
mod show;
mod threads;
mod workers;

pub use feed::feed_run;
pub use gate::{Gate, OpenGate};
pub use night::{NightEnd, night_run, put_night};
pub use night_theorems::schedule_does_not_matter;
pub use program::{run, run_night, run_words};
pub use show::show_run;
