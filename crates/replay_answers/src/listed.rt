// Readings: each with its token, and the paths of the first.
ghost use Rattle.std.specs.Prelude.{◌≤◌, ◌<◌};
ghost use Rattle.replay_answers.specs.Ends.{EndsWithin};

use crate::paths::{Ends, ends_of, say_path};
use crate::{READINGS, STDOUT_FILENO, item_at, number_at, say_words};
use script::Word;

// The answer of the readings of a list, at most 4,096: their number, then each, then the paths of the first `max`.
pub fn say_readings(
    readings: usize,
    max: usize,
    words: &[i32],
    frames: &[u32],
    segments: &[u32],
    numbers: &[u64],
    costs: &[f32],
) {
    let k = readings.min(4096);
    let t = max.min(k);
    say_readings_head(k, t, words_to(numbers, k), traced_to(numbers, t));
    for i in 0..k {
        say_group(i, words, numbers, costs);
    }
    say_traced(t, words, frames, segments, numbers, costs);
}

// The number of them, then each path.
fn say_traced(
    t: usize,
    words: &[i32],
    frames: &[u32],
    segments: &[u32],
    numbers: &[u64],
    costs: &[f32],
)
    requires { t ≤ 4096 }
{
    say_words(&[t as u32]);
    for i in 0..t {
        let from = traced_to(numbers, i);
        let to = traced_to(numbers, i + 1);
        let cost = item_at(costs, 4 * i + 1, 0.0);
        say_path(cost, words, frames, segments, from, to);
    }
}

// Where the words of the first i readings end.
fn words_to(numbers: &[u64], i: usize) -> usize
    requires { i ≤ 4096 }
    ensures { result ≤ 65536 }
{
    if i == 0 {
        return 0;
    }
    (number_at(numbers, 5 * i - 5) as usize).min(65536)
}

// Where the words and the segments of the first i traced readings end.
fn traced_to(numbers: &[u64], i: usize) -> Ends
    requires { i ≤ 4096 }
    ensures { EndsWithin result }
{
    if i == 0 {
        return ends_of(0, 0);
    }
    ends_of(number_at(numbers, 5 * i - 5), number_at(numbers, 5 * i - 4))
}

// The head of an answer of k readings of so many words, t of them traced.
fn say_readings_head(k: usize, t: usize, words: usize, to: Ends)
    requires { (k ≤ 4096) × (t ≤ 4096) × (words ≤ 65536) × EndsWithin to }
{
    let count = 3 + 8 * k + words + 3 * t + 2 * to.words + 3 * to.segments;
    say_words(&[READINGS, count as u32, 0, k as u32]);
}

// The i-th reading: its rank and cost, how many kept histories it takes, its token's cost, graph sum, phone and seq, and its words, at most one for each record.
fn say_group(i: usize, words: &[i32], numbers: &[u64], costs: &[f32])
    requires { i < 4096 }
{
    let from = words_to(numbers, i);
    let n = words_to(numbers, i + 1).saturating_sub(from).min(8192);
    let mut out = [0u8; 32800];
    script::put_word(&mut out, 0, item_at(costs, 4 * i, 0.0).to_word());
    script::put_word(&mut out, 1, item_at(costs, 4 * i + 1, 0.0).to_word());
    script::put_word(&mut out, 2, number_at(numbers, 5 * i + 2));
    script::put_word(&mut out, 3, item_at(costs, 4 * i + 2, 0.0).to_word());
    script::put_word(&mut out, 4, item_at(costs, 4 * i + 3, 0.0).to_word());
    script::put_word(&mut out, 5, number_at(numbers, 5 * i + 3));
    script::put_word(&mut out, 6, number_at(numbers, 5 * i + 4));
    script::put_word(&mut out, 7, n as u32);
    put_labels(&mut out, words, from, n);
    io::write_all(STDOUT_FILENO, &out[..32 + 4 * n]);
}

// Puts n words from a place on behind the first eight words.
fn put_labels(out: &mut [u8], words: &[i32], from: usize, n: usize)
    requires { (from ≤ 65536) × (n ≤ 8192) }
{
    for i in 0..n {
        script::put_word(out, 8 + i, item_at(words, from + i, 0).to_word());
    }
}
