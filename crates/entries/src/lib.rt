// The entries of the lists below joins: each a path from a join down to the start. They are numbered from 1, and 0 is the path that has reached the start. `hashes` has the
// hash of an entry's words; `nexts` has three numbers for each: how many words, the entry that it goes on with at the next join, and the join whose kept history it takes
// (0 for none); `sums` has two: what it costs over the path that it leaves, and its graph sum likewise.
#![tactic(auto)]

ghost use Rattle.std.specs.Prelude.{◌≡◌, ◌+◌, ◌-◌, ◌*◌, ◌<◌, ◌≤◌, length, if◌then◌else◌};
ghost use Rattle.entries.specs.Entries.{entry_at, SameKeyIs, HasKeyIs, Room, EntryPut, PutNew};
ghost use Rattle.entries.specs.Ways.{by_way, WayAsks, way_entries, WithinIs, NextAsks, PickAsks, own_next, picked, FillAsks, FillIs};

use wrapping::wrapping_mul;

// An entry: the hash and number of its words, its two sums, the entry that it goes on with, and the join whose kept history it takes.
#[derive(Clone, Copy)]
pub struct Entry {
    pub hash: u64,
    pub len: u32,
    pub cost: f32,
    pub graph: f32,
    pub next: u32,
    pub join: u32,
}

// A way from a join down to the next one, or to the start: the list there, what the way costs, its words' hash, the factor past them and their number, and the join whose
// kept history it is (0 for none).
#[derive(Clone, Copy)]
pub struct Way {
    pub first: u32,
    pub count: u32,
    pub cost: f32,
    pub graph: f32,
    pub hash: u64,
    pub shift: u64,
    pub len: u32,
    pub join: u32,
}

pub fn entry_at(hashes: &[u64], nexts: &[u32], sums: &[f32], e: u32) -> Entry
    requires { Room hashes.now nexts.now sums.now e }
    ensures { result ≡ entry_at hashes.now nexts.now sums.now e }
{
    if e == 0 {
        return Entry {
            hash: 0,
            len: 0,
            cost: 0.0,
            graph: 0.0,
            next: 0,
            join: 0,
        };
    }
    let i = (e - 1) as usize;
    Entry {
        hash: hashes[i],
        len: nexts[i * 3],
        cost: sums[i * 2],
        graph: sums[i * 2 + 1],
        next: nexts[i * 3 + 1],
        join: nexts[i * 3 + 2],
    }
}

fn put_entry(hashes: &mut [u64], nexts: &mut [u32], sums: &mut [f32], e: u32, b: Entry)
    requires { (0 < e) × (Room hashes.old nexts.old sums.old e) }
    ensures { EntryPut hashes.old nexts.old sums.old hashes.new nexts.new sums.new (e - 1) b }
{
    let i = (e - 1) as usize;
    hashes[i] = b.hash;
    nexts[i * 3] = b.len;
    nexts[i * 3 + 1] = b.next;
    nexts[i * 3 + 2] = b.join;
    sums[i * 2] = b.cost;
    sums[i * 2 + 1] = b.graph;
}

// The i-th path of a way.
fn by_way(hashes: &[u64], nexts: &[u32], sums: &[f32], w: Way, i: u32) -> Entry
    requires { (WayAsks hashes.now nexts.now sums.now w) × (i < w.count) }
    ensures { result ≡ by_way hashes.now nexts.now sums.now w (w.first + i) }
{
    let e = w.first + i;
    let b = entry_at(hashes, nexts, sums, e);
    Entry {
        hash: wrapping_mul(b.hash, w.shift).wrapping_add(w.hash),
        len: b.len + w.len,
        cost: w.cost + b.cost,
        graph: w.graph + b.graph,
        next: e,
        join: w.join,
    }
}

// How many of a way's paths, from the first on, the margin does not cut.
fn within(hashes: &[u64], nexts: &[u32], sums: &[f32], w: Way, margin: f32) -> u32
    requires { WayAsks hashes.now nexts.now sums.now w }
    ensures { WithinIs (way_entries hashes.now nexts.now sums.now w) margin result }
{
    for i in 0..w.count {
        let b = by_way(hashes, nexts, sums, w, i);
        if margin < b.cost {
            return i;
        }
    }
    w.count
}

fn same_key(hashes: &[u64], nexts: &[u32], e: u32, b: Entry) -> bool
    requires { (0 < e) × (e ≤ length hashes.now) × (e * 3 ≤ length nexts.now) }
    ensures { SameKeyIs hashes.now nexts.now e b result }
{
    let i = (e - 1) as usize;
    if b.hash != hashes[i] {
        return false;
    }
    b.len == nexts[i * 3]
}

// Whether an entry from `from` up to `to` has the words of b, as far as hash and number tell.
fn has_key(hashes: &[u64], nexts: &[u32], from: u32, to: u32, b: Entry) -> bool
    requires { (0 < from) × (from ≤ to) × (to - 1 ≤ length hashes.now) × ((to - 1) * 3 ≤ length nexts.now) }
    ensures { HasKeyIs hashes.now nexts.now from to b result }
{
    for e in from..to {
        if same_key(hashes, nexts, e, b) {
            return true;
        }
    }
    false
}

// Whether the next path of the two ways is the own one: the cheaper, and of equal ones the own.
fn own_next(
    hashes: &[u64],
    nexts: &[u32],
    sums: &[f32],
    own: Way,
    kept: Way,
    i: u32,
    n: u32,
    j: u32,
    m: u32,
) -> bool
    requires { NextAsks hashes.now nexts.now sums.now own kept i n j m }
    ensures { result ≡ own_next hashes.now nexts.now sums.now own kept i n j m }
{
    if i == n {
        return false;
    }
    if j == m {
        return true;
    }
    let a = by_way(hashes, nexts, sums, own, i);
    let b = by_way(hashes, nexts, sums, kept, j);
    !(b.cost < a.cost)
}

// The path that comes next.
fn pick(
    hashes: &[u64],
    nexts: &[u32],
    sums: &[f32],
    own: Way,
    kept: Way,
    i: u32,
    j: u32,
    takes_own: bool,
) -> Entry
    requires { PickAsks hashes.now nexts.now sums.now own kept i j takes_own }
    ensures { result ≡ picked hashes.now nexts.now sums.now own kept i j takes_own }
{
    if takes_own {
        by_way(hashes, nexts, sums, own, i)
    } else {
        by_way(hashes, nexts, sums, kept, j)
    }
}

fn moved(i: u32, on: bool) -> u32
    requires { i < 0xffff_ffff }
    ensures { result ≡ (if on then i + 1 else i) }
{
    if on { i + 1 } else { i }
}

// Puts an entry at `to`, unless one from `from` on has its words: the next free entry, or none where the places are full.
fn put_new(
    hashes: &mut [u64],
    nexts: &mut [u32],
    sums: &mut [f32],
    from: u32,
    to: u32,
    places: u32,
    b: Entry,
) -> Option<u32>
    requires { (0 < from) × (from ≤ to) × (to ≤ places + 1) × (places < 0xffff_fffe) × (Room hashes.old nexts.old sums.old places) }
    ensures { PutNew hashes.old nexts.old sums.old hashes.new nexts.new sums.new from to places b result }
{
    if has_key(hashes, nexts, from, to, b) {
        return Some(to);
    }
    if places < to {
        return None;
    }
    put_entry(hashes, nexts, sums, to, b);
    Some(to + 1)
}

// The list of a join, at the entries from `from` on: of the paths of both ways that the margin does not cut the `cap` cheapest, one for each word list, and on a tie the own
// one. Costs do not fall along a way, so the two are merged. Gives the next free entry, or none where the places are full.
pub fn fill_list(
    hashes: &mut [u64],
    nexts: &mut [u32],
    sums: &mut [f32],
    own: Way,
    kept: Way,
    margin: f32,
    cap: u32,
    from: u32,
    places: u32,
) -> Option<u32>
    requires { FillAsks hashes.old nexts.old sums.old own kept from places }
    ensures { FillIs hashes.old nexts.old sums.old hashes.new nexts.new sums.new own kept margin cap from places result }
{
    let n = within(hashes, nexts, sums, own, margin);
    let m = within(hashes, nexts, sums, kept, margin);
    let mut i: u32 = 0;
    let mut j: u32 = 0;
    let mut to = from;
    // which of i and j moves on is what the costs say: no index is counted
    while i + j < n + m {
        if to - from == cap {
            return Some(to);
        }
        let takes_own = own_next(hashes, nexts, sums, own, kept, i, n, j, m);
        let b = pick(hashes, nexts, sums, own, kept, i, j, takes_own);
        to = put_new(hashes, nexts, sums, from, to, places, b)?;
        i = moved(i, takes_own);
        j = moved(j, !takes_own);
    }
    Some(to)
}
