//! A box in two parts: the place of its value, and the allocator that frees it.
ghost use Rattle.std.specs.Prelude.{◌≡◌};
ghost use Rattle.std_alloc.specs.Box.Ownership.{box_owns};

use std::alloc::Allocator;
use std::marker::Model;

/// The parts of a box, which own what the box owned.
pub struct BoxParts<T, A: Allocator> {
    pub ptr: *mut T,
    pub alloc: A,
    pub ghost value: { T },
}

impl<T, A: Allocator> Model for BoxParts<T, A> {
    ghost also_owns = { λ parts. box_owns (A.dealloc_token parts.alloc) T.row parts.ptr parts.value };
}

impl<T: Drop, A: Allocator> BoxParts<T, A> {
    /// Takes a box apart.
    pub fn of(whole: Box<T, A>) -> BoxParts<T, A>
        ensures { result.value ≡ whole.value }
    {
        let (ptr, alloc) = Box::into_raw_with_allocator(whole);
        BoxParts { ptr, alloc }
    }

    /// Puts the box together.
    pub fn whole(self) -> Box<T, A>
        ensures { result.value ≡ self.value }
    {
        let BoxParts { ptr, alloc } = self;
        unsafe { Box::from_raw(alloc, ptr) }
    }
}
