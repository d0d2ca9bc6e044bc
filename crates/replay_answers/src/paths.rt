// Paths: their costs, words, frames and segments.
ghost use Rattle.std.specs.Prelude.{◌≤◌};
ghost use Rattle.replay_answers.specs.Ends.{EndsWithin};

use crate::{ALTERNATIVES, BEST, STDOUT_FILENO, item_at, say_words};
use script::Word;

// Where the words and the segments of the first paths end.
#[derive(Clone, Copy)]
pub struct Ends {
    pub words: usize,
    pub segments: usize,
}

pub fn ends_of(words: u32, segments: u32) -> Ends
    ensures { EndsWithin result }
{
    Ends {
        words: (words as usize).min(16384),
        segments: (segments as usize).min(16384),
    }
}

// Of the first i paths.
fn ends_at(list: &[u32], i: usize) -> Ends
    requires { i ≤ 64 }
    ensures { EndsWithin result }
{
    if i == 0 {
        return ends_of(0, 0);
    }
    ends_of(item_at(list, 2 * i - 2, 0), item_at(list, 2 * i - 1, 0))
}

// The answer of a best path of so many words and segments.
pub fn say_best_path(cost: f32, n: u32, m: u32, words: &[i32], frames: &[u32], segments: &[u32]) {
    let to = ends_of(n, m);
    say_head(BEST, 1, to);
    say_path(cost, words, frames, segments, ends_of(0, 0), to);
}

// The answer of the paths of a list, at most 64: their number, then each.
pub fn say_paths(
    paths: usize,
    words: &[i32],
    frames: &[u32],
    segments: &[u32],
    list: &[u32],
    costs: &[f32],
) {
    let k = paths.min(64);
    say_head(ALTERNATIVES, k, ends_at(list, k));
    for i in 0..k {
        let from = ends_at(list, i);
        let to = ends_at(list, i + 1);
        say_path(item_at(costs, i, 0.0), words, frames, segments, from, to);
    }
}

// The head of an answer of k paths that end there.
fn say_head(kind: u32, k: usize, to: Ends)
    requires { (k ≤ 64) × EndsWithin to }
{
    let count = 2 + 3 * k + 2 * to.words + 3 * to.segments;
    say_words(&[kind, count as u32, 0, k as u32]);
}

// A path: its cost, its words with their frames, and its segments. It has at most one of each for each record.
pub fn say_path(cost: f32, words: &[i32], frames: &[u32], segments: &[u32], from: Ends, to: Ends)
    requires { EndsWithin from × EndsWithin to }
{
    let n = to.words.saturating_sub(from.words).min(8192);
    let m = to.segments.saturating_sub(from.segments).min(8192);
    let mut out = [0u8; 163852];
    script::put_word(&mut out, 0, cost.to_word());
    script::put_word(&mut out, 1, n as u32);
    put_words(&mut out, words, frames, from.words, n);
    script::put_word(&mut out, 2 + 2 * n, m as u32);
    put_segments(&mut out, 3 + 2 * n, segments, from.segments, m);
    io::write_all(STDOUT_FILENO, &out[..12 + 8 * n + 12 * m]);
}

// Puts n words from a place on, each with its frame, behind the first two words.
fn put_words(out: &mut [u8], words: &[i32], frames: &[u32], from: usize, n: usize)
    requires { (from ≤ 16384) × (n ≤ 8192) }
{
    for i in 0..n {
        script::put_word(out, 2 + 2 * i, item_at(words, from + i, 0).to_word());
        script::put_word(out, 3 + 2 * i, item_at(frames, from + i, 0));
    }
}

// Puts the three numbers of each of m segments from a place on.
fn put_segments(out: &mut [u8], at: usize, segments: &[u32], from: usize, m: usize)
    requires { (at ≤ 20000) × (from ≤ 16384) × (m ≤ 8192) }
{
    for i in 0..3 * m {
        script::put_word(out, at + i, item_at(segments, 3 * from + i, 0));
    }
}
