// Compaction of the record store: records that no root reaches are dropped, and the others move down in their order and get new numbers. The roots are the records that the
// two token tables hold, and one in hand. A record's mark, its eighth number, is 0; then 1 where the record is live; then its new number.
#![tactic(auto)]

ghost use Rattle.std.specs.Prelude.{◌≡◌, ℕ, ◌+◌, ◌-◌, ◌*◌, ◌≤◌, ◌<◌, pos, length};
ghost use Rattle.std.specs.Float.{nan};
ghost use Rattle.tokens.specs.Layout.{held_at};
ghost use Rattle.records.specs.Layout.{store, prev_at, kept_at};
ghost use Rattle.records.specs.Shape.{Shape};
ghost use Rattle.compaction.specs.Marks.{new_of, Marked, Held, Root, Reach, Rooted, Cleared, MarksPut, Named, LiveMarked};
ghost use Rattle.compaction.specs.Slide.{moved_numbers, moved_pair, Slid, SlidOne};
ghost use Rattle.compaction.specs.Carried.{Holds, Renumbered, Compacted, RoomMade};

use records::{kept_of, prev_of};
use tokens::has_token;

// The mark of a record; 0 is none and has none.
fn new_number(records: &[u32], r: u32) -> u32
    requires { r * 8 ≤ length records.now }
    ensures { result ≡ new_of records.now r }
{
    if r == 0 {
        return 0;
    }
    records[(r - 1) as usize * 8 + 7]
}

fn clear_marks(records: &mut [u32], used: u32)
    requires { used * 8 ≤ length records.old }
    ensures { Cleared records.old records.new used }
{
    for k in 0..used {
        records[k as usize * 8 + 7] = 0;
    }
}

// Marks a record; 0 is none.
fn mark(records: &mut [u32], r: u32)
    requires { r * 8 ≤ length records.old }
    ensures { MarksPut (λ j. j ≡ r) records.old records.new }
{
    if r == 0 {
        return;
    }
    records[(r - 1) as usize * 8 + 7] = 1;
}

// Marks the records that the tokens hold.
fn mark_held(records: &mut [u32], tokens: &[u32], places: u32)
    requires { (places * 4 ≤ length tokens.now) × ((p : ℕ) → p < places → held_at tokens.now p * 8 ≤ length records.old + 8) }
    ensures { MarksPut (Held tokens.now places) records.old records.new }
{
    for p in 0..places {
        if has_token(tokens, p) {
            mark(records, tokens[p as usize * 4]);
        }
    }
}

// A marked record marks what it names: the one before it, and the newest of its kept history.
fn hand_on(records: &mut [u32], r: u32)
    requires { (0 < r) × (r * 8 ≤ length records.old) × (prev_at records.old (r - 1) < r) × (kept_at records.old (r - 1) < r) }
    ensures { MarksPut (Named records.old r) records.old records.new }
{
    if new_number(records, r) == 0 {
        return;
    }
    let prev = prev_of(records, r);
    let kept = kept_of(records, r);
    mark(records, prev);
    mark(records, kept);
}

// Marks all that the marked records reach. What a record names has a lower number, so one descending turn does it.
fn spread(records: &mut [u32], used: u32)
    requires { (used * 8 ≤ length records.old) × ((k : ℕ) → k < used → prev_at records.old k ≤ k) × ((k : ℕ) → k < used → kept_at records.old k ≤ k) }
    ensures { MarksPut (Reach records.old used (Marked records.old)) records.old records.new }
{
    for k in (0..used).rev() {
        hand_on(records, k + 1);
    }
}

// Marks just the live records.
fn mark_live(records: &mut [u32], tokens: &[u32], places: u32, used: u32, x: u32)
    requires { Rooted records.old tokens.now places used x }
    ensures { LiveMarked (Root tokens.now places x) records.old records.new used }
{
    clear_marks(records, used);
    mark_held(records, tokens, places);
    mark(records, x);
    spread(records, used);
}

// Record number k + 1 becomes record number n + 1, with other numbers for what it names, and its mark says so.
fn move_numbers(records: &mut [u32], k: u32, n: u32, prev: u32, kept: u32)
    requires { (n ≤ k) × (k < 1048576) × (k * 8 + 8 ≤ length records.old) }
    ensures { records.new ≡ moved_numbers records.old k n prev kept }
{
    let i = k as usize * 8;
    let frame = records[i + 1];
    let starts = records[i + 2];
    let kept_starts = records[i + 4];
    let kept_phone = records[i + 5];
    let winner = records[i + 6];
    let j = n as usize * 8;
    records[j] = prev;
    records[j + 1] = frame;
    records[j + 2] = starts;
    records[j + 3] = kept;
    records[j + 4] = kept_starts;
    records[j + 5] = kept_phone;
    records[j + 6] = winner;
    records[i + 7] = n + 1;
}

// The k-th pair of the labels or the gaps becomes the n-th.
fn move_pair<T: Copy>(pairs: &mut [T], k: u32, n: u32)
    requires { (n ≤ k) × (k * 2 + 2 ≤ length pairs.old) }
    ensures { (d : T) → pairs.new ≡ moved_pair d pairs.old k n }
{
    let i = k as usize * 2;
    let first = pairs[i];
    let second = pairs[i + 1];
    let j = n as usize * 2;
    pairs[j] = first;
    pairs[j + 1] = second;
}

// Record number k + 1 moves down behind the first n, where it is marked: how many stay so far.
fn slide_one(records: &mut [u32], labels: &mut [i32], gaps: &mut [f32], k: u32, n: u32) -> u32
    requires n_le_k { (n ≤ k) × (k < 1048576) × (prev_at records.old k ≤ k) × (kept_at records.old k ≤ k) }
    requires k_in_bounds { (k * 8 + 8 ≤ length records.old) × (k * 2 + 2 ≤ length labels.old) × (k * 2 + 2 ≤ length gaps.old) }
    ensures { SlidOne (store records.old labels.old gaps.old) (store records.new labels.new gaps.new) k n result }
{
    let r = k + 1;
    if new_number(records, r) == 0 {
        return n;
    }
    let prev = prev_of(records, r);
    let kept = kept_of(records, r);
    let new_prev = new_number(records, prev);
    let new_kept = new_number(records, kept);
    move_numbers(records, k, n, new_prev, new_kept);
    move_pair(labels, k, n);
    move_pair(gaps, k, n);
    n + 1
}

// Moves the marked records down, in their order: how many stay.
fn slide(records: &mut [u32], labels: &mut [i32], gaps: &mut [f32], used: u32) -> u32
    requires { (Shape (store records.old labels.old gaps.old) used) × (used ≤ 1048576) }
    ensures { Slid (store records.old labels.old gaps.old) (store records.new labels.new gaps.new) used result }
{
    let mut n = 0;
    for k in 0..used {
        n = slide_one(records, labels, gaps, k, n);
    }
    n
}

// The tokens hold their records by the new numbers.
fn renumber(records: &[u32], tokens: &mut [u32], places: u32)
    requires { (places * 4 ≤ length tokens.old) × ((p : ℕ) → p < places → held_at tokens.old p * 8 ≤ length records.now + 8) }
    ensures { Renumbered records.now tokens.old tokens.new places }
{
    for place in 0..places {
        if has_token(tokens, place) {
            let i = place as usize * 4;
            tokens[i] = new_number(records, tokens[i]);
        }
    }
}

// How many records there are, and the number of the one in hand.
#[derive(Clone, Copy)]
pub struct Made {
    pub used: u32,
    pub x: u32,
}

// Drops the records that no root reaches.
fn compact(
    records: &mut [u32],
    labels: &mut [i32],
    gaps: &mut [f32],
    tokens: &mut [u32],
    places: u32,
    used: u32,
    x: u32,
) -> Made
    requires { Holds (store records.old labels.old gaps.old) tokens.old places used x }
    ensures { Compacted (store records.old labels.old gaps.old) (store records.new labels.new gaps.new) tokens.old tokens.new places used result.used x result.x }
{
    mark_live(records, tokens, places, used, x);
    let left = slide(records, labels, gaps, used);
    renumber(records, tokens, places);
    Made {
        used: left,
        x: new_number(records, x),
    }
}

// Room for two more records among `cap`, an arc's link and its join. It compacts only where fewer than two places are left.
pub fn make_room(
    records: &mut [u32],
    labels: &mut [i32],
    gaps: &mut [f32],
    tokens: &mut [u32],
    places: u32,
    used: u32,
    cap: u32,
    x: u32,
) -> Made
    requires { Holds (store records.old labels.old gaps.old) tokens.old places used x }
    ensures { RoomMade (store records.old labels.old gaps.old) (store records.new labels.new gaps.new) tokens.old tokens.new places used result.used cap x result.x }
{
    if used + 2 <= cap {
        return Made { used, x };
    }
    compact(records, labels, gaps, tokens, places, used, x)
}
