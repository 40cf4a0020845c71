//! A box as one pointer, which is null where there is no box: what C keeps of a value.
#![tactic(auto)]

ghost use Rattle.std.specs.Prelude.{◌≡◌, [], ◌∷◌, List};
ghost use base.Stored.{coded_list};
ghost use denote.RawPtr.{null_ptr};
ghost use Rattle.boxed_handle.specs.Handles.{handle_owns};

use std::alloc::Allocator;
use std::marker::Model;

/// Null, or the place of a value that it owns. It isn't `Drop`: what it owns is let go as a box, never with the handle.
pub struct Handle<T, A: Allocator> {
    pub at: *mut T,
    pub alloc: A,
    pub ghost owned: { List T } by { coded_list T.code },
}

impl<T, A: Allocator> Model for Handle<T, A> {
    ghost also_owns = { λ h. handle_owns (A.dealloc_token h.alloc) T.row h.at h.owned };
}

impl<T, A: Allocator> Handle<T, A> {
    /// A null pointer, which owns nothing.
    pub fn blank(alloc: A) -> Handle<T, A>
        ensures null { result.at ≡ null_ptr }
        ensures empty { result.owned ≡ [] }
    {
        Handle {
            at: std::ptr::null_mut(),
            alloc,
        }
    }

    /// The handle of this box.
    pub fn new(b: Box<T, A>) -> Handle<T, A>
    where
        T: Drop,
        ensures { result.owned ≡ b.value ∷ [] }
    {
        let (at, alloc) = Box::into_raw_with_allocator(b);
        Handle { at, alloc }
    }

    /// The box of a handle that owns a value.
    pub fn into_box(self) -> Box<T, A>
        requires { (x : T) × (self.owned ≡ x ∷ []) }
        ensures { self.owned ≡ result.value ∷ [] }
    {
        let Handle { at, alloc } = self;
        unsafe { Box::from_raw(alloc, at) }
    }
}

unsafe impl<T: Send, A: Allocator + Send> Send for Handle<T, A> {}
