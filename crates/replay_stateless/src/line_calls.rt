// Lines of refusals, written and read.
ghost use Rattle.std.specs.Prelude.{◌+◌, ◌≤◌, length};
ghost use Rattle.script.specs.Words.{word_count};

use refusals::{Place, Refusal};
use replay_answers::{say_bytes, say_fault, say_refused, say_words};
use script::Record;

// The kinds.
pub(crate) const LINE: u32 = 16;

pub(crate) const READ_LINE: u32 = 17;

// The words of a payload: the length of the slice that is lent, the number, which of the four places, and the two numbers that a place may have.
const WORDS: usize = 5;

// ---- written

pub(crate) fn write(bytes: &[u8], r: Record)
    requires { r.start + r.count ≤ word_count bytes.now }
{
    let start = r.start;
    if r.count != WORDS {
        say_fault(LINE);
        return;
    }
    let room = script::word_at(bytes, start) as usize;
    let number = script::word_at(bytes, start + 1);
    let place = script::word_at(bytes, start + 2);
    let at = script::word_at(bytes, start + 3);
    let arc = script::word_at(bytes, start + 4);
    let Some(place) = place_of(place, at, arc) else {
        say_fault(LINE);
        return;
    };
    let mut line = [0u8; 96];
    call(Refusal { number, place }, room, &mut line);
}

// Which of the four places, with its numbers.
fn place_of(which: u32, at: u32, arc: u32) -> Option<Place> {
    match which {
        0 => Some(Place::Nowhere),
        1 => Some(Place::AtArc(at, arc)),
        2 => Some(Place::AtState(at)),
        3 => Some(Place::AtFrames(at)),
        _ => None,
    }
}

// More bytes than the longest line has are a fault.
fn call(why: Refusal, room: usize, line: &mut [u8])
    requires { length line.old ≤ 96 }
{
    if line.len() < room {
        say_fault(LINE);
        return;
    }
    respond(why, &mut line[..room]);
}

fn respond(why: Refusal, line: &mut [u8])
    requires { length line.old ≤ 96 }
{
    match refusal_lines::write_line(why, line) {
        Ok(n) => say_line(&line[..n]),
        Err(reason) => say_refused(LINE, reason),
    }
}

// The line's length and its bytes, four to a word.
fn say_line(line: &[u8])
    requires { length line.now ≤ 96 }
{
    let n = line.len();
    let words = (n + 3) / 4;
    let left = 4 * words - n;
    let zeros = [0u8; 4];
    say_words(&[LINE, (2 + words) as u32, 0, n as u32]);
    say_bytes(line);
    say_bytes(&zeros[..left]);
}

// ---- read

// The bytes are lent as they stand in the script, and have to fill the payload.
pub(crate) fn read(bytes: &[u8], r: Record)
    requires { r.start + r.count ≤ word_count bytes.now }
{
    let start = r.start;
    let count = r.count;
    if count < 1 {
        say_fault(READ_LINE);
        return;
    }
    let len = script::word_at(bytes, start) as usize;
    if (len + 3) / 4 != count - 1 {
        say_fault(READ_LINE);
        return;
    }
    let from = 4 * (start + 1);
    let end = from + len;
    match refusal_lines::read_line(&bytes[from..end]) {
        Some(why) => say_refusal(why),
        None => say_words(&[READ_LINE, 2, 0, 0]),
    }
}

// A one, then the number, which of the four places, and its two numbers.
fn say_refusal(why: Refusal) {
    let place = why.place;
    let (which, at, arc) = match place {
        Place::Nowhere => (0, 0, 0),
        Place::AtArc(state, arc) => (1, state, arc),
        Place::AtState(state) => (2, state, 0),
        Place::AtFrames(frames) => (3, frames, 0),
    };
    say_words(&[READ_LINE, 6, 0, 1, why.number, which, at, arc]);
}
