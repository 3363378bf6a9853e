//! A session as the pointer that C holds.

ghost use Rattle.std.specs.Prelude.{◌≡◌, Option, Some, None, MatchOption};
ghost use Rattle.std.specs.Coded.{coded_option};
ghost use Rattle.mvs_c.specs.Opens.{OpenValue, open_code};

use crate::box_parts::BoxParts;
use crate::open::Open;
use std::alloc::Global;
use std::marker::Model;
use std::ptr;

/// An owned session, or none, where the pointer is null.
#[repr(C)]
pub struct Handle {
    pub(crate) at: *mut u8,
    pub ghost open: { Option OpenValue } by { coded_option open_code },
}

impl Model for Handle {
    ghost use Rattle.mvs_c.specs.Handle.{owned};
    ghost use Rattle.mvs_c.specs.contracts.open.Open.{the_row};

    ghost also_owns = { λ h. owned the_row h.at h.open };
}

impl Handle {
    /// Makes a handle without a session.
    pub fn none() -> Handle
        ensures { result.open ≡ None }
    {
        Handle {
            at: ptr::null_mut(),
        }
    }

    // Returns the session of a box that was taken apart.
    fn of_parts(parts: BoxParts<Open, Global>) -> Handle
        ensures { result.open ≡ Some parts.value }
    {
        let BoxParts { ptr, alloc: _ } = parts;
        Handle { at: ptr as *mut u8 }
    }

    // Returns the parts of the box, if there is a session.
    fn into_parts(self, alloc: Global) -> Option<BoxParts<Open, Global>>
        ensures { MatchOption result (self.open ≡ None) (λ parts. self.open ≡ Some parts.value) }
    {
        let Handle { at } = self;
        if at.is_null() {
            return None;
        }
        Some(BoxParts {
            ptr: at as *mut Open,
            alloc,
        })
    }

    /// Returns the session of a box.
    pub fn of(boxed: Box<Open>) -> Handle
        ensures { result.open ≡ Some boxed.value }
    {
        Handle::of_parts(BoxParts::of(boxed))
    }

    /// Returns the box again, if there is one.
    pub fn into_box(self, alloc: Global) -> Option<Box<Open>>
        ensures { MatchOption result (self.open ≡ None) (λ boxed. self.open ≡ Some boxed.value) }
    {
        Some(self.into_parts(alloc)?.whole())
    }
}
