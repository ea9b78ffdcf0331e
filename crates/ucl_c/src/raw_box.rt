//! A `Box` that is taken apart into its pointer and its allocator, so that C can keep the pointer.

ghost use Rattle.std.specs.Prelude.{◌≡◌};
ghost use Rattle.std.specs.Box.Ownership.{box_owns};

use std::alloc::Allocator;
use std::marker::Model;

/// The parts of a box: the pointer to its value, and the allocator that frees it. Contracts see as `value` what lies at the pointer.
pub struct RawBox<T, A: Allocator> {
    pub(crate) ptr: *mut T,
    pub(crate) alloc: A,
    pub ghost value: { T },
}

impl<T, A: Allocator> Model for RawBox<T, A> {
    ghost also_owns = { λ p. box_owns (A.dealloc_token p.alloc) T.row p.ptr p.value };
}

impl<T, A: Allocator> RawBox<T, A> {
    /// Takes a box apart into its pointer and its allocator.
    pub fn of(b: Box<T, A>) -> RawBox<T, A>
    where
        T: Drop,
        ensures { result.value ≡ b.value }
    {
        let (ptr, alloc) = Box::into_raw_with_allocator(b);
        RawBox { ptr, alloc }
    }

    /// Makes the box again from its parts.
    pub fn into_box(self) -> Box<T, A>
        ensures { result.value ≡ self.value }
    {
        let RawBox { ptr, alloc } = self;
        unsafe { Box::from_raw(alloc, ptr) }
    }
}
