// What C holds of a study: two words, whose type names nothing that C can't have.
ghost use Rattle.std.specs.Prelude.{◌≡◌, true, false};
ghost use Rattle.pb_study.specs.declared.results.Study.{Study};
ghost use Rattle.std.specs.Option.{MatchOption};
ghost use Rattle.plantbal_study_c.specs.Owned.{study_handle_owns, study_coded};

mod parts;

use crate::opened::OpenStudy;
use parts::Parts;
use std::alloc::Global;
use std::marker::Model;
use std::ptr::null_mut;

/// What C holds of a study. While it is live, it owns what a `Box<OpenStudy>` owns, otherwise nothing; so a handle that was freed
/// holds nothing, and may be freed again.
#[repr(C)]
pub struct StudyHandle {
    at: *mut u8,
    pub live: bool,
    alloc: Global,
    pub ghost value: { Study } by { study_coded },
}

impl Model for StudyHandle {
    ghost also_owns = { λ h. study_handle_owns h.live h.alloc h.at h.value };
}

impl StudyHandle {
    /// The handle of a study.
    pub fn of(study: Box<OpenStudy, Global>) -> StudyHandle
        ensures live { result.live ≡ true }
        ensures value { result.value ≡ study.value }
    {
        StudyHandle::of_parts(Parts::of(study))
    }

    /// The study, if the handle holds one.
    pub fn into_box(self) -> Option<Box<OpenStudy, Global>>
        ensures { MatchOption result (self.live ≡ false)
            (λ held. (self.live ≡ true) × (held.value ≡ self.value)) }
    {
        match self.into_parts() {
            Some(parts) => Some(parts.into_box()),
            None => None,
        }
    }

    /// A handle that holds no study.
    pub fn none(alloc: Global) -> StudyHandle
        ensures { result.live ≡ false }
    {
        StudyHandle {
            at: null_mut(),
            live: false,
            alloc,
        }
    }

    // The handle of the parts of a box.
    fn of_parts(parts: Parts<OpenStudy, Global>) -> StudyHandle
        ensures { (result.live ≡ true) × (result.value ≡ parts.value) }
    {
        let Parts { ptr, alloc } = parts;
        StudyHandle {
            at: ptr as *mut u8,
            live: true,
            alloc,
        }
    }

    // The parts of the box, if the handle holds one.
    fn into_parts(self) -> Option<Parts<OpenStudy, Global>>
        ensures { MatchOption result (self.live ≡ false)
            (λ held. (self.live ≡ true) × (held.value ≡ self.value)) }
    {
        let StudyHandle { at, live, alloc } = self;
        if live {
            Some(Parts {
                ptr: at as *mut OpenStudy,
                alloc,
            })
        } else {
            None
        }
    }
}

impl Drop for StudyHandle {
    fn drop(self) {
        drop(self.into_box());
    }
}

unsafe impl Send for StudyHandle {}
