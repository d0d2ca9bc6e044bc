// A table of the records' histories, filled once and in ascending order, since the record before a record has a lower number. `history_keys` has two numbers for each record:
// the key of its history's words down to the start, and of those down to its newest join. `history_skips` has two: the first record from it down that has a word or is a join,
// and its newest join. So a key is read and not walked, and a walk passes few records that say nothing.
#![tactic(auto)]

ghost use Rattle.std.specs.Prelude.{◌≡◌, true, ◌||◌, cond, ◌+◌, ◌*◌, ◌≤◌, ◌<◌, length, set};
ghost use Rattle.model.specs.Basics.{nonzero};
ghost use Rattle.joins.specs.Walk.{Chains};
ghost use Rattle.histories.specs.Reading.{SameIs};
ghost use Rattle.summaries.specs.Summed.{key_at, skip_at, join_at, end_at, Skips, SummedTo, Summed};
ghost use Rattle.summaries.specs.Key.{key_over};

use histories::Hashed;

// The key of a record's history: one for histories that read the same. 0 is no record.
pub fn key_at(history_keys: &[u64], r: u32, to_join: bool) -> u64
    requires { r * 2 ≤ length history_keys.now }
    ensures { result ≡ key_at history_keys.now to_join r }
{
    if r == 0 {
        return 0;
    }
    let i = (r - 1) as usize * 2;
    if to_join {
        return history_keys[i + 1];
    }
    history_keys[i]
}

// The first record from it down that has a word or is a join, 0 for none.
pub fn skip_at(history_skips: &[u32], r: u32) -> u32
    requires { r * 2 ≤ length history_skips.now }
    ensures { result ≡ skip_at history_skips.now r }
{
    if r == 0 {
        return 0;
    }
    history_skips[(r - 1) as usize * 2]
}

// Its newest join, 0 for none.
fn join_at(history_skips: &[u32], r: u32) -> u32
    requires { r * 2 ≤ length history_skips.now }
    ensures { result ≡ join_at history_skips.now r }
{
    if r == 0 {
        return 0;
    }
    history_skips[(r - 1) as usize * 2 + 1]
}

// How far down its history is read: to its newest join, or to the start.
fn end_at(history_skips: &[u32], r: u32, to_join: bool) -> u32
    requires { r * 2 ≤ length history_skips.now }
    ensures { result ≡ end_at history_skips.now to_join r }
{
    if to_join {
        return join_at(history_skips, r);
    }
    0
}

// A key with one more word, newer than all of its words; 0 is none.
fn key_over(key: u64, word: i32) -> u64
    ensures { result ≡ key_over key word }
{
    // Of a key only the hash is needed.
    let below = Hashed {
        hash: key,
        shift: 0,
        len: 0,
    };
    let h = histories::with_word(below, word);
    h.hash
}

// The key to the newest join of record r, which is not in the table yet: a join ends the reading, with its own number. `prev` is the record before it.
fn key_from(history_keys: &[u64], r: u32, prev: u32, word: i32, joined: bool) -> u64
    requires { prev * 2 ≤ length history_keys.now }
    ensures { result ≡ cond joined r (key_over (key_at history_keys.now true prev) word) }
{
    if joined {
        return u64::from(r);
    }
    key_over(key_at(history_keys, prev, true), word)
}

// Its skip: itself where it has a word or is a join.
fn skip_from(history_skips: &[u32], r: u32, prev: u32, word: i32, joined: bool) -> u32
    requires { prev * 2 ≤ length history_skips.now }
    ensures { result ≡ cond (nonzero word || joined) r (skip_at history_skips.now prev) }
{
    if word != 0 {
        return r;
    }
    if joined {
        return r;
    }
    skip_at(history_skips, prev)
}

// Its newest join: itself where it is one.
fn join_from(history_skips: &[u32], r: u32, prev: u32, joined: bool) -> u32
    requires { prev * 2 ≤ length history_skips.now }
    ensures { result ≡ cond joined r (join_at history_skips.now prev) }
{
    if joined {
        return r;
    }
    join_at(history_skips, prev)
}

// Writes the places of record number k + 1: the key of the whole history, the key to the newest join, the skip and the join.
fn put_summary(
    history_keys: &mut [u64],
    history_skips: &mut [u32],
    k: u32,
    whole: u64,
    key: u64,
    skip: u32,
    join: u32,
)
    requires { (k * 2 + 2 ≤ length history_keys.old) × (k * 2 + 2 ≤ length history_skips.old) }
    ensures { (history_keys.new ≡ set (set history_keys.old (k * 2) whole) (k * 2 + 1) key) × (history_skips.new ≡ set (set history_skips.old (k * 2) skip) (k * 2 + 1) join) }
{
    let i = k as usize * 2;
    history_keys[i] = whole;
    history_keys[i + 1] = key;
    history_skips[i] = skip;
    history_skips[i + 1] = join;
}

// Puts record number k + 1 into the table, where those below it stand.
fn sum_record(
    records: &[u32],
    labels: &[i32],
    used: u32,
    k: u32,
    history_keys: &mut [u64],
    history_skips: &mut [u32],
)
    requires { (Chains records.now labels.now used) × (k < used) × (SummedTo records.now labels.now used k history_keys.old history_skips.old) }
    ensures { SummedTo records.now labels.now used (k + 1) history_keys.new history_skips.new }
{
    let r = k + 1;
    let prev = records::prev_of(records, r);
    let word = records::word_of(labels, r);
    let joined = histories::is_join(records, labels, r);
    let whole = key_over(key_at(history_keys, prev, false), word);
    let key = key_from(history_keys, r, prev, word, joined);
    let skip = skip_from(history_skips, r, prev, word, joined);
    let join = join_from(history_skips, r, prev, joined);
    put_summary(history_keys, history_skips, k, whole, key, skip, join);
}

// Fills the table.
pub fn fill(
    records: &[u32],
    labels: &[i32],
    used: u32,
    history_keys: &mut [u64],
    history_skips: &mut [u32],
)
    requires { (Chains records.now labels.now used) × (used * 2 ≤ length history_keys.old) × (used * 2 ≤ length history_skips.old) }
    ensures { Summed records.now labels.now used history_keys.new history_skips.new }
{
    for k in 0..used {
        sum_record(records, labels, used, k, history_keys, history_skips);
    }
}

// Whether two histories read the same words, and where they are read to a join, the same join.
pub fn same_at(
    records: &[u32],
    labels: &[i32],
    used: u32,
    history_skips: &[u32],
    a: u32,
    b: u32,
    to_join: bool,
) -> bool
    requires { (Chains records.now labels.now used) × (Skips records.now labels.now used used history_skips.now) × (a ≤ used) × (b ≤ used) }
    ensures { SameIs records.now labels.now used a b to_join result }
{
    let end = end_at(history_skips, a, to_join);
    if end != end_at(history_skips, b, to_join) {
        return false;
    }
    joins::same_above(
        records,
        labels,
        used,
        skip_at(history_skips, a),
        skip_at(history_skips, b),
        end,
    )
}
