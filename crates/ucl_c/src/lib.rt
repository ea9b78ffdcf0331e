//! The board for programs in other languages: functions over numbers, slices, `#[repr(C)]` structs and handles, for C to call. A handle is
//! a pointer that holds a pass, which is a thread's permission on a board that threads share. What C sees is in `uclboard.h`.
//!
//! Each call returns a status, which is the number of a fault if its input is bad. No function asks anything of its caller but what slices
//! and handles themselves need.
//!
//! # Examples
//!
//! ```c
//! uclboard_pass *screen = NULL, *reporter = NULL;
//! uint32_t number;
//! if (uclboard_open(&screen) == UCLBOARD_DONE && uclboard_pass_enlist(&screen, &reporter) == UCLBOARD_DONE
//!     && uclboard_pass_report(&reporter, 1, 0, UCLBOARD_KICK_OFF, &number) == UCLBOARD_DONE)
//!     printf("event %u\n", number);
//! uclboard_pass_drop(&reporter);
//! uclboard_pass_drop(&screen);
//! ```
#![tactic(auto)]

mod board_pass;
mod calls;
mod event;
mod fault;
mod group;
mod handle;
mod passes;
mod raw_box;
mod screen;
mod script;
mod table;
mod text;
mod theorems;
mod word;
