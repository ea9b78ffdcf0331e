//! A handle for C, which owns a pass and a counted reference to its board, or nothing.

ghost use Rattle.ucl_c.specs.declared.board_pass.BoardPass.{BoardPass};

use std::marker::Model;

/// The opaque type to which a handle points as C sees it. No value of it is ever made: the pointer is one to a `BoardPass`.
#[repr(C)]
pub struct UclboardPass {
    nothing: [u8; 0],
}

/// A pointer that owns a box with a pass and a counted reference to its board, or null. Contracts see as `value` what lies in that box. A
/// call that is lent a handle leaves it null if it was null, and holding a pass if it held one, but for the handle that is given a pass and
/// the one that is dropped.
#[repr(C)]
pub struct Handle {
    pub(crate) at: *mut UclboardPass,
    pub ghost value: { BoardPass },
}

impl Model for Handle {
    ghost use Rattle.std.specs.Box.Ownership.{box_owns};
    ghost use Rattle.ucl_c.specs.contracts.board_pass.BoardPass.{the_row};
    ghost use Rattle.ucl_c.specs.OwnedAt.{freed, owned_at};

    ghost also_owns = { λ h. owned_at (λ p. box_owns freed the_row p h.value) h.at };
}

unsafe impl Send for Handle {}

/// Compiles only for a type whose values may go to another thread.
fn crosses<T: Send>() {}

/// Compiles only if a handle may go to another thread, and does nothing.
pub fn handles_cross() {
    crosses::<Handle>();
}
