// Reads a script of calls that keep nothing between them, searches, shuffles, courses and lines of refusals, from standard input and writes their answers, both in the binary form of oracle/FORMAT.md.
#![tactic(auto)]

mod course_calls;
mod line_calls;
mod searches;
mod shuffles;

ghost use Rattle.std.specs.Prelude.{◌+◌, ◌≤◌};
ghost use Rattle.script.specs.Words.{word_count};

use course_calls::COURSE;
use line_calls::{LINE, READ_LINE};
use replay_answers::say_fault;
use script::{CutShort, Record};
use searches::SEARCH;
use shuffles::{SHUFFLE, UNSHUFFLE};

// Standard input.
const STDIN_FILENO: i32 = 0;

// The whole script is read at once. One that fills the places may not have ended, and gets a fault for its only answer.
fn main() {
    let mut input = [0u8; 262144];
    let n = io::read_full(STDIN_FILENO, &mut input);
    if n < 262144 && replay(&input[..n]).is_ok() {
        return;
    }
    say_fault(0);
}

// Answers each record in turn, up to the end or to one that is cut short.
#[tactic(auto, using(script::specs::Records::whole_within))]
fn replay(bytes: &[u8]) -> Result<(), CutShort> {
    let mut at = 0;
    while let Some(r) = script::record_at(bytes, at)? {
        at = r.start + r.count;
        answer(bytes, r);
    }
    Ok(())
}

fn answer(bytes: &[u8], r: Record)
    requires { r.start + r.count ≤ word_count bytes.now }
{
    let kind = r.kind;
    match kind {
        SEARCH => searches::answer(bytes, r),
        SHUFFLE | UNSHUFFLE => shuffles::answer(bytes, r),
        COURSE => course_calls::answer(bytes, r),
        LINE => line_calls::write(bytes, r),
        READ_LINE => line_calls::read(bytes, r),
        _ => say_fault(kind),
    }
}
