//! What the answer to a line depends on beside the board of a session.

use std::alloc::Global;
use ucl_command::LiveArgs;
use ucl_rows::RowFields;

/// The options of a session, and the allocator of its answers.
#[derive(Drop)]
pub(crate) struct Config {
    pub(crate) alloc: Global,
    pub(crate) options: LiveArgs,
}

/// A line of the input with a row: its number, the fields of the row, and its text without its line feed.
#[derive(Drop)]
pub(crate) struct Line<'s, 't> {
    pub(crate) row: u64,
    pub(crate) said: RowFields<'s>,
    pub(crate) text: &'t [u8],
}
