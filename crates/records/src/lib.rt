// The record store, in three lent slices: records are numbered from 1 in the order in which they are made, and 0 is none. `records` has eight numbers for each: the
// record before it, its frame, the phone that it starts (0 for none), and of a join the newest record of the kept history, the phone that the losing arc starts, the
// loser's phone and the winner's; and a place for the compaction's marks. `labels` has two: its word (0 for none) and the losing arc's. `gaps` has two: what the kept history
// cost over the winner, and its graph sum likewise. A record with neither word nor phone is a join.
#![tactic(auto)]

ghost use Rattle.std.specs.Prelude.{◌≡◌, ◌+◌, ◌-◌, ◌*◌, ◌≤◌, ◌<◌, length};
ghost use Rattle.records.specs.Layout.{prev_at, frame_at, starts_at, kept_at, word_at, cost_at, kept_word_at, kept_starts_at, kept_phone_at, winner_at, store};
ghost use Rattle.records.specs.Puts.{LinkPut, JoinPut};

pub fn prev_of(records: &[u32], r: u32) -> u32
    requires { (0 < r) × (r * 8 ≤ length records.now) }
    ensures { result ≡ prev_at records.now (r - 1) }
{
    records[(r - 1) as usize * 8]
}

pub fn frame_of(records: &[u32], r: u32) -> u32
    requires { (0 < r) × (r * 8 ≤ length records.now) }
    ensures { result ≡ frame_at records.now (r - 1) }
{
    records[(r - 1) as usize * 8 + 1]
}

pub fn starts_of(records: &[u32], r: u32) -> u32
    requires { (0 < r) × (r * 8 ≤ length records.now) }
    ensures { result ≡ starts_at records.now (r - 1) }
{
    records[(r - 1) as usize * 8 + 2]
}

pub fn kept_of(records: &[u32], r: u32) -> u32
    requires { (0 < r) × (r * 8 ≤ length records.now) }
    ensures { result ≡ kept_at records.now (r - 1) }
{
    records[(r - 1) as usize * 8 + 3]
}

pub fn word_of(labels: &[i32], r: u32) -> i32
    requires { (0 < r) × (r * 2 ≤ length labels.now) }
    ensures { result ≡ word_at labels.now (r - 1) }
{
    labels[(r - 1) as usize * 2]
}

pub fn cost_of(gaps: &[f32], r: u32) -> f32
    requires { (0 < r) × (r * 2 ≤ length gaps.now) }
    ensures { result ≡ cost_at gaps.now (r - 1) }
{
    gaps[(r - 1) as usize * 2]
}

// Puts a link on: its number.
pub fn put_link(
    records: &mut [u32],
    labels: &mut [i32],
    used: u32,
    prev: u32,
    frame: u32,
    word: i32,
    starts: u32,
) -> u32
    requires { (used < 1048576) × (used * 8 + 8 ≤ length records.old) × (used * 2 + 2 ≤ length labels.old) }
    ensures { LinkPut records.old records.new labels.old labels.new used prev frame word starts result }
{
    let i = used as usize * 8;
    records[i] = prev;
    records[i + 1] = frame;
    records[i + 2] = starts;
    records[i + 3] = 0;
    labels[used as usize * 2] = word;
    used + 1
}

// What a join keeps: the newest record of the kept history, and what the Rust holds beside it.
#[derive(Clone, Copy)]
pub struct Kept {
    pub link: u32,
    pub word: i32,
    pub starts: u32,
    pub cost: f32,
    pub graph: f32,
    pub phone: u32,
    pub winner: u32,
}

// Puts a join on: its number.
pub fn put_join(
    records: &mut [u32],
    labels: &mut [i32],
    gaps: &mut [f32],
    used: u32,
    prev: u32,
    frame: u32,
    k: Kept,
) -> u32
    requires { (used < 1048576) × (used * 8 + 8 ≤ length records.old) × (used * 2 + 2 ≤ length labels.old) × (used * 2 + 2 ≤ length gaps.old) }
    ensures { JoinPut (store records.old labels.old gaps.old) (store records.new labels.new gaps.new) used prev frame k result }
{
    let i = used as usize * 8;
    records[i] = prev;
    records[i + 1] = frame;
    records[i + 2] = 0;
    records[i + 3] = k.link;
    records[i + 4] = k.starts;
    records[i + 5] = k.phone;
    records[i + 6] = k.winner;
    let j = used as usize * 2;
    let word = k.word;
    labels[j] = 0;
    labels[j + 1] = word;
    gaps[j] = k.cost;
    gaps[j + 1] = k.graph;
    used + 1
}

// What a join keeps beside its kept history.
pub fn kept_word_of(labels: &[i32], r: u32) -> i32
    requires { (0 < r) × (r * 2 ≤ length labels.now) }
    ensures { result ≡ kept_word_at labels.now (r - 1) }
{
    labels[(r - 1) as usize * 2 + 1]
}

pub fn kept_starts_of(records: &[u32], r: u32) -> u32
    requires { (0 < r) × (r * 8 ≤ length records.now) }
    ensures { result ≡ kept_starts_at records.now (r - 1) }
{
    records[(r - 1) as usize * 8 + 4]
}

pub fn kept_phone_of(records: &[u32], r: u32) -> u32
    requires { (0 < r) × (r * 8 ≤ length records.now) }
    ensures { result ≡ kept_phone_at records.now (r - 1) }
{
    records[(r - 1) as usize * 8 + 5]
}

pub fn winner_of(records: &[u32], r: u32) -> u32
    requires { (0 < r) × (r * 8 ≤ length records.now) }
    ensures { result ≡ winner_at records.now (r - 1) }
{
    records[(r - 1) as usize * 8 + 6]
}
