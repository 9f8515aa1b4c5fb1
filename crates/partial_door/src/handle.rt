//! The handle that the caller keeps: a box of what it holds, or nothing.

ghost use Rattle.std.specs.Prelude.{◌≡◌, IfOk, IfErr, Option};
ghost use Rattle.std.specs.Option.{MatchOption};
ghost use Rattle.std.specs.declared.option.Option.TheVariants.{None, Some};
ghost use Rattle.partial_door.specs.declared.held.Held.{Held as HeldType};
ghost use Rattle.partial_door.specs.Owned.{held_coded, handle_owns};

use crate::held::Held;
use crate::parts::Parts;
use std::alloc::Global;
use std::marker::Model;
use std::mem;
use std::ptr::null_mut;

/// A handle in the caller's memory. It is one pointer, which is null when the handle is empty.
#[repr(C)]
pub struct Handle {
    ptr: *mut u8,
    alloc: Global,
    pub ghost held: { Option HeldType } by { held_coded },
}

impl Model for Handle {
    ghost also_owns = { λ h. handle_owns h.alloc h.ptr h.held };
}

impl Handle {
    // Makes an empty handle.
    fn empty(alloc: Global) -> Handle
        ensures { result.held ≡ None }
    {
        Handle {
            ptr: null_mut(),
            alloc,
        }
    }

    fn of_parts(parts: Parts<Held, Global>) -> Handle
        ensures { result.held ≡ Some parts.value }
    {
        let Parts { ptr, alloc } = parts;
        Handle {
            ptr: ptr.cast::<u8>(),
            alloc,
        }
    }

    fn into_parts(self) -> Option<Parts<Held, Global>>
        ensures { MatchOption result (self.held ≡ None) (λ p. self.held ≡ Some p.value) }
    {
        let Handle { ptr, alloc } = self;
        if ptr.is_null() {
            None
        } else {
            let ptr = ptr.cast::<Held>();
            Some(Parts { ptr, alloc })
        }
    }
}

unsafe impl Send for Handle {}

impl Handle {
    ghost use Rattle.std.specs.Borrow.{sem};
    ghost use Rattle.partial_door.specs.Lending.{LendsHeld};

    /// Borrows what the handle holds.
    pub fn held(&mut self) -> Option<&mut Held>
        ensures* writes_back { sem 𝓛 (LendsHeld self.entry result) }
        ensures lent { MatchOption result (self.old.held ≡ None) (λ r. self.old.held ≡ Some r.now) }
    {
        let ptr = self.ptr.cast::<Held>();
        if ptr.is_null() {
            return None;
        }
        unsafe { Some(&mut *ptr) }
    }

    /// Takes out what the handle holds, and leaves it empty.
    pub fn take(&mut self, alloc: Global) -> Option<Box<Held>>
        ensures left { self.new.held ≡ None }
        ensures taken { MatchOption result (self.old.held ≡ None) (λ b. self.old.held ≡ Some b.value) }
    {
        match mem::replace(self, Handle::empty(alloc)).into_parts() {
            Some(parts) => Some(parts.into_box()),
            None => None,
        }
    }

    /// Puts this into the handle, and frees what it held before.
    pub fn put(&mut self, held: Box<Held>)
        ensures { self.new.held ≡ Some held.value }
    {
        *self = Handle::of_parts(Parts::of(held));
    }
}

impl Drop for Handle {
    fn drop(self) {
        if let Some(parts) = self.into_parts() {
            drop(parts.into_box());
        }
    }
}
