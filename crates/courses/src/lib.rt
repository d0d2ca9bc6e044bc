// The course on the needles at a frame, where a number of courses pass in a number of frames.
#![tactic(auto)]

ghost use Rattle.std.specs.Prelude.{◌≡◌, ◌/◌, ◌%◌, ◌<◌};
ghost use Rattle.courses.specs.Course.{course_at};

use refusals::Reason;

#[derive(Clone, Copy)]
pub struct Course {
    pub course: u32,
    pub remainder: u32,
}

// The course is the whole part of frame × courses / frames. The product needs no wider type: what is not refused makes at most 65,536 × 65,535, which is below 2^32 (`within`).
pub fn course_at(frame: u32, courses: u32, frames: u32) -> Result<Course, Reason>
    ensures { result ≡ course_at frame courses frames }
{
    let counts = 1..=refusals::MAX_COURSES;
    if !counts.contains(&courses) || !counts.contains(&frames) || refusals::MAX_FRAMES < frame {
        return Err(Reason::BadCourse);
    }
    let product = frame * courses;
    Ok(Course {
        course: product / frames,
        remainder: product % frames,
    })
}
