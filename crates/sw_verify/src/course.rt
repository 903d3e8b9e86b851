//! What a scan does, and what it needs for that.

ghost use Rattle.std.specs.Prelude.{◌≡◌, ◌≤◌};
ghost use Rattle.sw_trigger.specs.Counts.{reads};
ghost use Rattle.sw_verify.specs.Items.{items_of};
ghost use Rattle.sw_verify.specs.Course.{CanRun};

use crate::sources::Sources;
use crate::verified::Verified;
use std::marker::Model;
use sw_code::Code;

/// A code that was verified, where its layers' waits take their triggers from, and its room for readings.
///
/// Contracts see the items that the code does, and not its steps.
#[derive(Debug, Drop)]
pub struct Course {
    pub(crate) verified: Verified,
    pub(crate) sources: Sources,
    pub(crate) points: u32,
}

impl Model for Course {
    ghost use Rattle.sw_verify.specs.Course.{CourseSeen};

    ghost Value = { CourseSeen };

    ghost use Rattle.sw_verify.specs.CourseKept.{course_seen, IsCourse};

    ghost view = { course_seen };

    ghost invariant = { IsCourse };
}

impl Course {
    /// How many readings it makes.
    pub fn readings(&self) -> u32
        ensures readings { result ≡ reads self.now.items }
        ensures fits { result ≤ self.now.points }
    {
        self.verified.readings() as u32
    }

    /// Its code, the sources of its waits and its room for readings.
    pub fn into_parts(self) -> (Code, Sources, u32)
        ensures runs { CanRun result.0 }
        ensures items { items_of result.0.steps ≡ self.items }
        ensures meter { result.0.meter ≡ self.meter }
        ensures sources { result.1 ≡ self.sources }
        ensures points { result.2 ≡ self.points }
    {
        let Course {
            verified,
            sources,
            points,
        } = self;
        (verified.into_code(), sources, points)
    }
}
