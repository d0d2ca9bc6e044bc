// Joins: what is worth keeping of a loser, and the join that keeps it (the Rust's `worth_keeping`, `keep_lost` and `keep_arrival`).
#![tactic(auto)]

ghost use Rattle.std.specs.Prelude.{◌≡◌, ◌-◌, ◌*◌, ◌≤◌, ◌<◌, pos, length};
ghost use Rattle.records.specs.Layout.{store, rec_at};
ghost use Rattle.records.specs.Shape.{Shape};
ghost use Rattle.joins.specs.Walk.{join_within, Chains, MeetingIs, NextWord, SameWords, WorthIs};
ghost use Rattle.joins.specs.Keep.{KeptIs, KeepAsks, KeepIs};

use records::Kept;
use refusals::Reason;
use tokens::Token;

// Whether the record is a join whose kept history costs at most `slack`.
fn join_within(records: &[u32], labels: &[i32], gaps: &[f32], r: u32, slack: f32) -> bool
    requires { (0 < r) × (r * 8 ≤ length records.now) × (r * 2 ≤ length labels.now) × (r * 2 ≤ length gaps.now) }
    ensures { result ≡ join_within slack (rec_at (store records.now labels.now gaps.now) (r - 1)) }
{
    if records::word_of(labels, r) != 0 {
        return false;
    }
    if records::starts_of(records, r) != 0 {
        return false;
    }
    records::cost_of(gaps, r) <= slack
}

// Where two histories meet: at a record (0 where they share none), unless the loser has a kept history above it that fits. Record numbers fall along a history, so the larger number is stepped, and this walk visits each record at most once; words are compared in another. `used` says how many records the store holds.
fn meet(
    records: &[u32],
    labels: &[i32],
    gaps: &[f32],
    used: u32,
    won: u32,
    lost: u32,
    slack: f32,
) -> Option<u32>
    requires { (Shape (store records.now labels.now gaps.now) used) × (won ≤ used) × (lost ≤ used) }
    ensures { MeetingIs (store records.now labels.now gaps.now) used won lost slack result }
{
    let mut a = won;
    let mut b = lost;
    'apart: loop {
        while a >= b {
            if a == b {
                break 'apart;
            }
            a = records::prev_of(records, a);
        }
        if join_within(records, labels, gaps, b, slack) {
            return None;
        }
        b = records::prev_of(records, b);
    }
    Some(a)
}

// The newest record with a word from `r` down to `met`; `met` or a lower number where there is none.
pub fn next_word(records: &[u32], labels: &[i32], used: u32, r: u32, met: u32) -> u32
    requires { (Chains records.now labels.now used) × (r ≤ used) × (met ≤ used) }
    ensures { NextWord records.now labels.now used r met result }
{
    let mut q = r;
    while met < q {
        if records::word_of(labels, q) != 0 {
            return q;
        }
        q = records::prev_of(records, q);
    }
    q
}

// Whether the two histories read the same words above the record `met`. Once both are at one record, they do from there on.
pub fn same_above(records: &[u32], labels: &[i32], used: u32, won: u32, lost: u32, met: u32) -> bool
    requires { (Chains records.now labels.now used) × (won ≤ used) × (lost ≤ used) × (met ≤ used) }
    ensures { SameWords records.now labels.now used won lost (pos 0) met result }
{
    let mut a = won;
    let mut b = lost;
    loop {
        a = next_word(records, labels, used, a, met);
        b = next_word(records, labels, used, b, met);
        if a == b {
            return true;
        }
        if a <= met {
            return b <= met;
        }
        if b <= met {
            return false;
        }
        if records::word_of(labels, a) != records::word_of(labels, b) {
            return false;
        }
        a = records::prev_of(records, a);
        b = records::prev_of(records, b);
    }
}

// The same with the word `over` on top of the loser, where it is not 0.
fn same_words(
    records: &[u32],
    labels: &[i32],
    used: u32,
    won: u32,
    lost: u32,
    over: i32,
    met: u32,
) -> bool
    requires { (Chains records.now labels.now used) × (won ≤ used) × (lost ≤ used) × (met ≤ used) }
    ensures { SameWords records.now labels.now used won lost over met result }
{
    if over == 0 {
        return same_above(records, labels, used, won, lost, met);
    }
    let a = next_word(records, labels, used, won, met);
    if a <= met {
        return false;
    }
    if records::word_of(labels, a) != over {
        return false;
    }
    same_above(
        records,
        labels,
        used,
        records::prev_of(records, a),
        lost,
        met,
    )
}

// Whether the history of `lost`, with the word `over` on top where it is not 0, reads other words than that of `won` above the record that they share, or has a history kept
// within `slack` there.
pub fn worth_keeping(
    records: &[u32],
    labels: &[i32],
    gaps: &[f32],
    used: u32,
    won: u32,
    lost: u32,
    over: i32,
    slack: f32,
) -> bool
    requires { (Shape (store records.now labels.now gaps.now) used) × (won ≤ used) × (lost ≤ used) }
    ensures { WorthIs (store records.now labels.now gaps.now) used won lost over slack result }
{
    match meet(records, labels, gaps, used, won, lost, slack) {
        Some(met) => !same_words(records, labels, used, won, lost, over, met),
        None => true,
    }
}

// Whether the loser is within the keep margin, if there is one, and worth keeping.
fn is_kept(
    records: &[u32],
    labels: &[i32],
    gaps: &[f32],
    used: u32,
    margin: Option<f32>,
    gap: f32,
    won: Token,
    lost: Token,
    over: i32,
) -> bool
    requires { (Shape (store records.now labels.now gaps.now) used) × (won.link ≤ used) × (lost.link ≤ used) }
    ensures { KeptIs (store records.now labels.now gaps.now) used margin gap won lost over result }
{
    let Some(m) = margin else {
        return false;
    };
    if gap <= m {
        worth_keeping(
            records,
            labels,
            gaps,
            used,
            won.link,
            lost.link,
            over,
            m - gap,
        )
    } else {
        false
    }
}

// Keeps the loser beside the winner where it is within the margin and worth it. Of an arrival that lost, `lost.link` is its source's newest record; its arc's word and the phone
// that the arc starts are `over` and `over_starts`, which are 0 for a token that stood there. Gives the number of its join,
// none where it is dropped; 13 where the join finds the store full.
pub fn keep(
    records: &mut [u32],
    labels: &mut [i32],
    gaps: &mut [f32],
    used: u32,
    cap: u32,
    frame: u32,
    margin: Option<f32>,
    gap: f32,
    won: Token,
    lost: Token,
    over: i32,
    over_starts: u32,
) -> Result<Option<u32>, Reason>
    requires { KeepAsks (store records.old labels.old gaps.old) used cap won lost }
    ensures { KeepIs (store records.old labels.old gaps.old) (store records.new labels.new gaps.new) used cap frame margin gap won lost over over_starts result }
{
    if !is_kept(records, labels, gaps, used, margin, gap, won, lost, over) {
        return Ok(None);
    }
    if used == cap {
        return Err(Reason::RecordsFull);
    }
    let k = Kept {
        link: lost.link,
        word: over,
        starts: over_starts,
        cost: gap,
        graph: lost.graph - won.graph,
        phone: lost.phone,
        winner: won.phone,
    };
    Ok(Some(records::put_join(records, labels, gaps, used, won.link, frame, k)))
}
