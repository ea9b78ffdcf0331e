//! The screen of a board, and the inputs of the programs: scripts and sheets. Lines of a live input, and answers to them, are in
//! `ucl_rows`.
//!
//! # Examples
//!
//! ```rust
//! let script = "club,1,Alpha,60000\nclub,2,Bravo,95000\nclub,3,Charlie,60000\nclub,4,Delta,81500\n1,1,0,kickoff\n";
//! let night = read_night(rt.alloc(), &mut FromRead::new(script.as_bytes())).ok()?;
//! let mut board = Board::fresh();
//! for event in &night.events {
//!     board.report(event.reporter, &event.call).ok()?;
//! }
//! let text = screen(rt.alloc(), &board, &night.roster, b'A', Profile::Uefa).ok()?;
//! assert!(text.starts_with("GROUP A v00001 IN PLAY 1\n"));
//! ```
#![tactic(auto)]

mod fault;
mod fault_line;
mod fields;
mod games;
mod lines;
mod night;
mod plain;
mod reading;
mod rows;
mod sheet;
mod text;
mod theorems;
mod transfer;

pub use fault::InputFault;
pub use fault_line::FaultLine;
pub use fields::{call_of_fields, expected_of_field, hex_word, match_of_field, reporter_of_field};
pub use games::{matches, state_name};
pub use night::Night;
pub use plain::{FirstRow, first_row, without_mark};
pub use reading::{
    FIRST_EVENT_ROW, club_of_fields, event_of_fields, lent_club, night_of_bytes, read_night,
    read_words,
};
pub use rows::{Four, RowFields, four_fields, next_row, open_rows};
pub use sheet::Sheet;
pub use text::{is_group, letter_in, matches_in_play, screen, text_of};
pub use theorems::lines_have_53_columns;
pub use ucl_board::NightEvent;
pub use ucl_io::{FromRead, Sink, Source, ToWrite, give_all};
