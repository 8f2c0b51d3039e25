//! Handles, which are objects of this library in C. The only module with `unsafe`.
ghost use Rattle.std.specs.Prelude.{◌≡◌, Option, None, Some, option_map, IfOk, IfErr, OnErr};
ghost use Rattle.std.specs.Box.Ownership.{box_owns};
ghost use Rattle.otel_c.specs.Handle.{object_coded, handle_owns};
ghost use Rattle.otel_c.specs.Object.{IsEmpty};
ghost use Rattle.otel_c.specs.declared.object.Object.{Object};

use crate::object::Object;
use crate::status::Status;
use std::alloc::{Allocator, Global};
use std::marker::Model;
use std::{mem, ptr};

/// A box as a raw pointer and its allocator.
pub struct Parts<T, A: Allocator> {
    ptr: *mut T,
    alloc: A,
    ghost value: { T },
}

impl<T, A: Allocator> Model for Parts<T, A> {
    ghost also_owns = { λ p. box_owns (A.dealloc_token p.alloc) T.row p.ptr p.value };
}

impl<T, A: Allocator> Parts<T, A> {
    fn of(b: Box<T, A>) -> Parts<T, A>
    where
        T: Drop,
        ensures { result.value ≡ b.value }
    {
        let (ptr, alloc) = Box::into_raw_with_allocator(b);
        Parts { ptr, alloc }
    }

    fn into_box(self) -> Box<T, A>
        ensures { result.value ≡ self.value }
    {
        let Parts { ptr, alloc } = self;
        // The pointer and the allocator are from a box, as the model states.
        unsafe { Box::from_raw(alloc, ptr) }
    }
}

/// An object in C: the pointer to its box, or null. `otel_handle` in `include/otel.h`.
///
/// Owns the object. It isn't `Drop`, so the check rejects a function that drops one.
#[repr(C)]
pub struct Handle {
    // Points to an `Object`. C sees only the address.
    at: *mut u8,
    /// The object, if any.
    pub ghost object: { Option Object } by { object_coded },
}

impl Model for Handle {
    ghost also_owns = { λ h. handle_owns h.object h.at };
}

impl Handle {
    fn none() -> Handle
        ensures { result.object ≡ None }
    {
        Handle {
            at: ptr::null_mut(),
        }
    }

    fn of_parts(parts: Parts<Object, Global>) -> Handle
        ensures { result.object ≡ Some parts.value }
    {
        let Parts { ptr, alloc: _ } = parts;
        Handle {
            at: ptr.cast::<u8>(),
        }
    }

    fn into_parts(self, alloc: Global) -> Option<Parts<Object, Global>>
        ensures { option_map (λ p. p.value) result ≡ self.object }
    {
        let Handle { at } = self;
        if at.is_null() {
            None
        } else {
            Some(Parts {
                ptr: at.cast::<Object>(),
                alloc,
            })
        }
    }

    /// Takes the object out of the handle, which is then empty.
    ///
    /// # Errors
    ///
    /// `Invalid` if the handle is empty.
    pub fn take(&mut self, alloc: Global) -> Result<Box<Object>, Status>
        ensures empty { self.new.object ≡ None }
        ensures object { IfOk result (λ object. self.old.object ≡ Some object.value) }
        ensures none { OnErr result (self.old.object ≡ None) }
        ensures refused { IfErr result (IsEmpty self.old.object) }
    {
        match mem::replace(self, Handle::none()).into_parts(alloc) {
            Some(parts) => Ok(parts.into_box()),
            None => Err(Status::Invalid),
        }
    }

    /// Puts an object into the handle, and drops the object that the handle held.
    pub fn put(&mut self, alloc: Global, object: Box<Object>)
        ensures { self.new.object ≡ Some object.value }
    {
        match mem::replace(self, Handle::of_parts(Parts::of(object))).into_parts(alloc) {
            Some(parts) => drop(parts.into_box()),
            None => {}
        }
    }
}
