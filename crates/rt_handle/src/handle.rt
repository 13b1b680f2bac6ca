//! Opaque session handles for C.

ghost use Rattle.std.specs.Prelude.{◌≡◌, Option, Some, None, IsSome};
ghost use Rattle.rt_embed.specs.Sessions.{Contents};
ghost use Rattle.rt_handle.specs.Ownership.{holds};

use crate::raw_box::RawBox;
use rt_embed::Session;
use std::alloc::Global;
use std::marker::Model;
use std::mem;

/// A session's type as C sees it: opaque.
#[repr(C)]
pub struct Opaque {
    byte: u8,
}

/// A pointer to a boxed session, or null: in C a struct of one pointer.
///
/// Dropping a handle doesn't free the session: [`Handle::take`] takes it out first.
#[repr(C)]
#[derive(Drop)]
pub struct Handle {
    at: *mut Opaque,
    pub ghost held: { Option Contents },
}

impl Model for Handle {
    ghost also_owns = { λ h. holds h.at h.held };
}

// It may move to another thread: no call writes the tree that sessions share, and the session owns all else.
unsafe impl Send for Handle {}

impl Handle {
    /// Puts a session into a handle that holds none.
    pub fn put(&mut self, session: Box<Session>)
        requires { self.old.held ≡ None }
        ensures { self.new.held ≡ Some session.value }
    {
        *self = Handle::of_raw_box(RawBox::of_box(session));
    }

    /// Takes the session out of a handle that holds one.
    pub fn take(&mut self, alloc: Global) -> Box<Session>
        requires { IsSome self.old.held }
        ensures session { self.old.held ≡ Some result.value }
        ensures none { self.new.held ≡ None }
    {
        mem::replace(self, Handle::empty()).into_box(alloc)
    }

    // A handle that holds no session.
    fn empty() -> Handle
        ensures { result.held ≡ None }
    {
        Handle {
            at: std::ptr::null_mut(),
        }
    }

    // A handle on the session of a raw box.
    fn of_raw_box(session: RawBox<Session>) -> Handle
        ensures { result.held ≡ Some session.value }
    {
        let RawBox { at } = session;
        Handle {
            at: at as *mut Opaque,
        }
    }

    // The box of the session.
    fn into_box(self, alloc: Global) -> Box<Session>
        requires { IsSome self.held }
        ensures { self.held ≡ Some result.value }
    {
        let Handle { at } = self;
        unsafe { Box::from_raw(alloc, at as *mut Session) }
    }
}
