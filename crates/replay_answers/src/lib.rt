// The answers to a script of decoder calls, written to standard output in the binary form of oracle/FORMAT.md.
#![tactic(auto)]

mod listed;
mod paths;

pub use listed::say_readings;
pub use paths::{say_best_path, say_paths};
use refusals::{Place, Reason, Refusal};

// Standard output.
const STDOUT_FILENO: i32 = 1;

// The kinds of the calls, which the answers repeat.
pub const GRAPH: u32 = 1;

pub const FIT: u32 = 2;

pub const START: u32 = 3;

pub const FRAME: u32 = 4;

pub const KEEP: u32 = 5;

pub const BEST: u32 = 6;

pub const ALTERNATIVES: u32 = 7;

pub const READINGS: u32 = 8;

pub const RELATIVE: u32 = 9;

pub const ACTIVE: u32 = 10;

pub const FRAMES: u32 = 11;

// ---- numbers

// The item at a place, and another past the last one.
fn item_at<T: Copy>(items: &[T], at: usize, otherwise: T) -> T {
    if at < items.len() {
        items[at]
    } else {
        otherwise
    }
}

// One of these numbers as a word: the greatest where it is greater, and 0 past the last one.
fn number_at(numbers: &[u64], at: usize) -> u32 {
    u32::try_from(item_at(numbers, at, 0)).unwrap_or(u32::MAX)
}

// ---- answers of a few words

// Writes the words of an answer, or of a part of one, sixteen at a time: an answer of a few words is one write.
pub fn say_words(words: &[u32]) {
    let mut out = [0u8; 64];
    let mut n = 0;
    for &w in words {
        script::put_word(&mut out, n, w);
        n += 1;
        if n == 16 {
            say_bytes(&out);
            n = 0;
        }
    }
    say_bytes(&out[..4 * n]);
}

// Writes bytes that are words of an answer.
pub fn say_bytes(bytes: &[u8]) {
    io::write_all(STDOUT_FILENO, bytes);
}

// An answer with the refusal's number alone, 0 for none.
pub fn say(kind: u32, number: u32) {
    say_words(&[kind, 1, number]);
}

// The answer of a call that is refused for this reason.
pub fn say_refused(kind: u32, reason: Reason) {
    say(kind, reason.number());
}

// The answer that the script is at fault.
pub fn say_fault(kind: u32) {
    say_bytes(&script::fault(kind));
}

// An answer of one word.
pub fn say_word(kind: u32, w: u32) {
    say_words(&[kind, 2, 0, w]);
}

// A refusal's number and place.
pub fn say_refusal(kind: u32, why: Refusal) {
    let number = why.number;
    let place = why.place;
    match place {
        Place::Nowhere => say(kind, number),
        Place::AtArc(state, arc) => say_words(&[kind, 3, number, state, arc]),
        Place::AtState(n) | Place::AtFrames(n) => say_words(&[kind, 2, number, n]),
    }
}
