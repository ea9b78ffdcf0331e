//! Why a shared board refuses a call.

use thiserror::Error;

/// 30: a reader's pass could not become a reporter's, since all 255 numbers are given. The pass comes back, and reads on.
#[derive(Drop, Error)]
#[error("board refused 30")]
pub struct TooManyReporters<P>(pub P);

/// 31: two reporters could not settle, since the reading has an entry of a third reporter or their passes have one number. Both passes
/// stay usable.
#[derive(Clone, Copy, Debug, PartialEq, Eq, Error)]
#[error("board refused 31: version {version}")]
pub struct Strangers {
    /// The version of the reading that was taken.
    pub version: u16,
}
