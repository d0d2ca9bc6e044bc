// Courses of a frame.
ghost use Rattle.std.specs.Prelude.{◌+◌, ◌≤◌};
ghost use Rattle.script.specs.Words.{word_count};

use courses::Course;
use replay_answers::{say_fault, say_refused, say_words};
use script::Record;

// The kind.
pub(crate) const COURSE: u32 = 15;

// The words of a payload: the frame, the courses, and the frames in which they are knitted.
const WORDS: usize = 3;

pub(crate) fn answer(bytes: &[u8], r: Record)
    requires { r.start + r.count ≤ word_count bytes.now }
{
    let start = r.start;
    if r.count != WORDS {
        say_fault(COURSE);
        return;
    }
    let frame = script::word_at(bytes, start);
    let courses = script::word_at(bytes, start + 1);
    let frames = script::word_at(bytes, start + 2);
    match courses::course_at(frame, courses, frames) {
        Ok(Course { course, remainder }) => say_words(&[COURSE, 3, 0, course, remainder]),
        Err(reason) => say_refused(COURSE, reason),
    }
}
