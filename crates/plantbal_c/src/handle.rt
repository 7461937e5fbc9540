// What C holds of a session: two words, whose type names nothing that C can't have.
ghost use Rattle.std.specs.Prelude.{◌≡◌, true, false};
ghost use Rattle.plantbal_c.specs.Opened.{Opened};
ghost use Rattle.std.specs.Option.{MatchOption};
ghost use Rattle.plantbal_c.specs.Owned.{handle_owns, opened_coded};

mod parts;

use crate::opened::OpenSession;
use parts::Parts;
use std::alloc::Global;
use std::marker::Model;
use std::ptr::null_mut;

/// What C holds of a session. While it is live, it owns what a `Box<OpenSession>` owns, otherwise nothing; so a handle that was freed
/// holds nothing, and may be freed again.
#[repr(C)]
pub struct SessionHandle {
    at: *mut u8,
    pub live: bool,
    alloc: Global,
    pub ghost value: { Opened } by { opened_coded },
}

impl Model for SessionHandle {
    ghost also_owns = { λ h. handle_owns h.live h.alloc h.at h.value };
}

impl SessionHandle {
    /// The handle of a session.
    pub fn of(session: Box<OpenSession, Global>) -> SessionHandle
        ensures live { result.live ≡ true }
        ensures value { result.value ≡ session.value }
    {
        SessionHandle::of_parts(Parts::of(session))
    }

    /// The session, if the handle holds one.
    pub fn into_box(self) -> Option<Box<OpenSession, Global>>
        ensures { MatchOption result (self.live ≡ false)
            (λ held. (self.live ≡ true) × (held.value ≡ self.value)) }
    {
        match self.into_parts() {
            Some(parts) => Some(parts.into_box()),
            None => None,
        }
    }

    /// A handle that holds no session.
    pub fn none(alloc: Global) -> SessionHandle
        ensures { result.live ≡ false }
    {
        SessionHandle {
            at: null_mut(),
            live: false,
            alloc,
        }
    }

    // The handle of the parts of a box.
    fn of_parts(parts: Parts<OpenSession, Global>) -> SessionHandle
        ensures { (result.live ≡ true) × (result.value ≡ parts.value) }
    {
        let Parts { ptr, alloc } = parts;
        SessionHandle {
            at: ptr as *mut u8,
            live: true,
            alloc,
        }
    }

    // The parts of the box, if the handle holds one.
    fn into_parts(self) -> Option<Parts<OpenSession, Global>>
        ensures { MatchOption result (self.live ≡ false)
            (λ held. (self.live ≡ true) × (held.value ≡ self.value)) }
    {
        let SessionHandle { at, live, alloc } = self;
        if live {
            Some(Parts {
                ptr: at as *mut OpenSession,
                alloc,
            })
        } else {
            None
        }
    }
}

impl Drop for SessionHandle {
    fn drop(self) {
        drop(self.into_box());
    }
}

unsafe impl Send for SessionHandle {}
