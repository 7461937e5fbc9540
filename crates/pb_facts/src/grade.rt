// Grades, as assays give them.

ghost use Rattle.std.specs.Prelude.{◌↔◌, IsTrue};
ghost use Rattle.pb_facts.specs.Grade.{IsGrade};

use pb_limits::{MOST_GRADE, MOST_GRADE_VARIANCE};

/// The grade of a component in a stream, as an assay gives it: parts per million of the stream's mass, and the variance of their
/// error, in squares of parts per million.
#[derive(Clone, Copy, Debug, PartialEq, Eq)]
pub struct Grade {
    pub ppm: i64,
    pub variance: i64,
}

impl Grade {
    /// Whether the grade is from 0 to `MOST_GRADE` and its variance from 0 to `MOST_GRADE_VARIANCE`.
    pub fn is_within_limits(&self) -> bool
        ensures { IsTrue result ↔ IsGrade self.now }
    {
        self.ppm >= 0
            && self.ppm <= MOST_GRADE
            && self.variance >= 0
            && self.variance <= MOST_GRADE_VARIANCE
    }
}
