//! A session behind a pointer, as C holds it.

ghost use Rattle.std.specs.Prelude.{◌≡◌, Some, None, Option, option_map};
ghost use Rattle.nm_library.specs.declared.handle.OpenSession.{OpenSession as Contents};

use crate::raw_box::RawBox;
use nm_trace::Session;
use std::alloc::Global;
use std::marker::Model;
use std::mem::replace;
use std::ptr::null_mut;

/// A session, and the lines of the last step that it made.
#[derive(Drop)]
pub struct OpenSession {
    pub session: Session<Global>,
    pub lines: Vec<u8>,
}

/// A session as C holds it: the pointer to its block, or null for none. Contracts see the session, if there is one.
#[repr(C)]
pub struct Handle {
    at: *mut u8,
    alloc: Global,
    pub ghost value: { Option Contents },
}

impl Model for Handle {
    ghost use Rattle.nm_library.specs.Held.{session_cell};
    ghost use Rattle.nm_library.specs.contracts.handle.OpenSession.{the_row};

    ghost also_owns = { λ h. session_cell the_row h.alloc h.at h.value };
}

// C may pass a handle to another thread.
unsafe impl Send for Handle {}

impl Handle {
    /// The handle of a session.
    fn of(raw: RawBox<OpenSession, Global>) -> Handle
        ensures { result.value ≡ Some raw.value }
    {
        let RawBox { at, alloc } = raw;
        Handle {
            at: at as *mut u8,
            alloc,
        }
    }

    /// A handle of no session.
    fn none(alloc: Global) -> Handle
        ensures { result.value ≡ None }
    {
        Handle {
            at: null_mut(),
            alloc,
        }
    }

    /// The block of the session, if there is one.
    fn into_raw(self) -> Option<RawBox<OpenSession, Global>>
        ensures { option_map (λ b. b.value) result ≡ self.value }
    {
        let Handle { at, alloc } = self;
        if at.is_null() {
            None
        } else {
            Some(RawBox {
                at: at as *mut OpenSession,
                alloc,
            })
        }
    }

    /// The session, if there is one.
    fn into_box(self) -> Option<Box<OpenSession>>
        ensures { option_map (λ b. b.value) result ≡ self.value }
    {
        match self.into_raw() {
            Some(raw) => Some(raw.into_box()),
            None => None,
        }
    }

    /// Takes the session out, if there is one.
    pub fn take(&mut self, alloc: Global) -> Option<Box<OpenSession>>
        ensures kept { option_map (λ b. b.value) result ≡ self.old.value }
        ensures none { self.new.value ≡ None }
    {
        replace(self, Handle::none(alloc)).into_box()
    }

    /// Puts a session in. One that was there is closed.
    pub fn put(&mut self, kept: Box<OpenSession>)
        ensures { self.new.value ≡ Some kept.value }
    {
        let before = replace(self, Handle::of(RawBox::of(kept)));
        drop(before.into_box());
    }
}
