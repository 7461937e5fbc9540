// A study that C holds.
ghost use Rattle.std.specs.Prelude.{◌≡◌};

use pb_study::Study;
use std::marker::Model;

/// A study that C holds.
#[derive(Drop)]
pub struct OpenStudy {
    study: Study,
}

impl Model for OpenStudy {
    ghost use Rattle.pb_study.specs.declared.results.Study.{Study};

    ghost Value = { Study };

    ghost view = { λ a. a.study };
}

impl OpenStudy {
    /// A study, to be held.
    pub(crate) fn of(study: Study) -> OpenStudy
        ensures { result ≡ study }
    {
        OpenStudy { study }
    }

    /// The study.
    pub(crate) fn study(&self) -> &Study
        ensures { result.now ≡ self.now }
    {
        &self.study
    }
}
