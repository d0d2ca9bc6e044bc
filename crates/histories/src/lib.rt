// What histories read: their words down to the newest join, or down to the start, and the hash of these words.
#![tactic(auto)]

ghost use Rattle.std.specs.Prelude.{◌≡◌, ◌-◌, ◌*◌, ◌^◌, ◌<◌, ◌≤◌, true, length};
ghost use Rattle.joins.specs.Walk.{Chains};
ghost use Rattle.histories.specs.Reading.{is_join_at, older, newer, EndIs, HashIs};

use wrapping::wrapping_mul;

const HASH_BASE: u64 = 0x9e37_79b9_7f4a_7c15;

pub fn is_join(records: &[u32], labels: &[i32], r: u32) -> bool
    requires { (0 < r) × (r * 8 ≤ length records.now) × (r * 2 ≤ length labels.now) }
    ensures { result ≡ is_join_at records.now labels.now (r - 1) }
{
    if records::word_of(labels, r) != 0 {
        return false;
    }
    records::starts_of(records, r) == 0
}

// The newest join from a record on, 0 for none: record numbers stand so in the lent slices of the C interface. The links of the chain are followed, and no index is counted.
pub fn first_join(records: &[u32], labels: &[i32], used: u32, link: u32) -> u32
    requires { (Chains records.now labels.now used) × (link ≤ used) }
    ensures { EndIs records.now labels.now used link true result }
{
    let mut r = link;
    while r != 0 {
        if is_join(records, labels, r) {
            return r;
        }
        r = records::prev_of(records, r);
    }
    r
}

// The hash of words, the factor that shifts a hash past them, and how many there are.
#[derive(Clone, Copy)]
pub struct Hashed {
    pub hash: u64,
    pub shift: u64,
    pub len: u32,
}

// One more word, older than those so far.
fn hash_older(h: Hashed, word: i32) -> Hashed
    requires { h.len < 2 ^ 32 - 1 }
    ensures { result ≡ older h word }
{
    let shifted = wrapping_mul(u64::from(word.cast_unsigned()), h.shift);
    Hashed {
        hash: h.hash.wrapping_add(shifted),
        shift: wrapping_mul(h.shift, HASH_BASE),
        len: h.len + 1,
    }
}

// The Rust's `hash_newest_first`, of the words above the record `end`.
pub fn hash_above(records: &[u32], labels: &[i32], used: u32, link: u32, end: u32) -> Hashed
    requires { (Chains records.now labels.now used) × (link ≤ used) × (end ≤ used) }
    ensures { HashIs records.now labels.now used link end result }
{
    let mut h = Hashed {
        hash: 0,
        shift: 1,
        len: 0,
    };
    let mut r = joins::next_word(records, labels, used, link, end);
    while end < r {
        h = hash_older(h, records::word_of(labels, r));
        r = joins::next_word(records, labels, used, records::prev_of(records, r), end);
    }
    h
}

// The words with one more, newer than all of them; 0 is none.
pub fn with_word(h: Hashed, word: i32) -> Hashed
    requires { h.len < 2 ^ 32 - 1 }
    ensures { result ≡ newer h word }
{
    if word == 0 {
        return h;
    }
    Hashed {
        hash: wrapping_mul(h.hash, HASH_BASE).wrapping_add(u64::from(word.cast_unsigned())),
        shift: wrapping_mul(h.shift, HASH_BASE),
        len: h.len + 1,
    }
}
