// The words of a history along a route, newest first, how many each record's history has, and the routes of entries. At a join on the route the walk goes down the kept history,
// at any other down the winner's.
#![tactic(auto)]

ghost use Rattle.std.specs.Prelude.{◌≡◌, ◌+◌, ◌-◌, ◌*◌, ◌≤◌, ◌<◌, ◌&&◌, ◌||◌, cond, reverse, length};
ghost use Rattle.model.specs.Basics.{eqℤ, ltℤ, nonzero};
ghost use Rattle.model.specs.Path.{same_words};
ghost use Rattle.model.specs.Readings.{words_lt};
ghost use Rattle.summaries.specs.Summed.{Skips};
ghost use Rattle.traceback.specs.Chain.{Walkable};
ghost use Rattle.routes.specs.Back.{back_along, NextOn, Skipped, WordsWritten};
ghost use Rattle.routes.specs.Before.{before_by};
ghost use Rattle.routes.specs.Counts.{count_at, Counts};
ghost use Rattle.routes.specs.Entries.{JoinPut, RouteAsks, RouteIs};

// A word, and the record to go on from; word 0 at the end. With 0, the records' own mark of no word, one test compares two histories that may end; options would take a match of four cases.
#[derive(Clone, Copy)]
pub struct Word {
    pub word: i32,
    pub next: u32,
}

// The next word from a record on.
pub fn next_on(records: &[u32], labels: &[i32], route: &[u32], used: u32, link: u32) -> Word
    requires { (Walkable records.now labels.now used) × (link ≤ used) }
    ensures { NextOn records.now labels.now route.now link result }
{
    let mut r = link;
    // A walk from record to record: no index is counted.
    while r != 0 {
        let s = traceback::step_at(records, labels, route, 0, r);
        let word = s.word;
        if word != 0 {
            return Word { word, next: s.next };
        }
        r = s.next;
    }
    Word { word: 0, next: 0 }
}

// Whether two histories read the same words.
pub fn same_along(
    records: &[u32],
    labels: &[i32],
    used: u32,
    a: u32,
    ra: &[u32],
    b: u32,
    rb: &[u32],
) -> bool
    requires { (Walkable records.now labels.now used) × (a ≤ used) × (b ≤ used) }
    ensures { result ≡ same_words (back_along records.now labels.now ra.now a) (back_along records.now labels.now rb.now b) }
{
    let mut p = a;
    let mut q = b;
    loop {
        let x = next_on(records, labels, ra, used, p);
        let y = next_on(records, labels, rb, used, q);
        let v = x.word;
        let w = y.word;
        if v != w {
            return false;
        }
        if v == 0 {
            return true;
        }
        p = x.next;
        q = y.next;
    }
}

// The record from which the words behind the newest n go on.
fn skip_words(records: &[u32], labels: &[i32], route: &[u32], used: u32, link: u32, n: u32) -> u32
    requires { (Walkable records.now labels.now used) × (link ≤ used) × (n ≤ length (back_along records.now labels.now route.now link)) }
    ensures { Skipped records.now labels.now route.now link n result }
{
    let mut r = link;
    for _ in 0..n {
        r = next_on(records, labels, route, used, r).next;
    }
    r
}

// Whether one list comes before another, where they begin with x and y and this says it of what is behind.
fn is_before(x: i32, y: i32, behind: bool) -> bool
    ensures { result ≡ (ltℤ x y || (eqℤ x y && behind)) }
{
    x < y || (x == y && behind)
}

// Whether the words of a come before those of b, as many, oldest first; `newer` says it of what is newer than these.
fn before_along(
    records: &[u32],
    labels: &[i32],
    used: u32,
    a: u32,
    ra: &[u32],
    b: u32,
    rb: &[u32],
    newer: bool,
) -> bool
    requires { (Walkable records.now labels.now used) × (a ≤ used) × (b ≤ used) × (length (back_along records.now labels.now ra.now a) ≡ length (back_along records.now labels.now rb.now b)) }
    ensures { result ≡ before_by (back_along records.now labels.now ra.now a) (back_along records.now labels.now rb.now b) newer }
{
    let mut before = newer;
    let mut p = a;
    let mut q = b;
    loop {
        let x = next_on(records, labels, ra, used, p);
        let y = next_on(records, labels, rb, used, q);
        let v = x.word;
        let w = y.word;
        if v == 0 {
            return before;
        }
        before = is_before(v, w, before);
        p = x.next;
        q = y.next;
    }
}

// Whether the words of a, m of them, come before those of b, n of them, in the order of Rust's slices, oldest first. The newest words of the longer list are passed over; of the
// differences then the oldest decides.
pub fn words_before(
    records: &[u32],
    labels: &[i32],
    used: u32,
    a: u32,
    ra: &[u32],
    m: u32,
    b: u32,
    rb: &[u32],
    n: u32,
) -> bool
    requires { (Walkable records.now labels.now used) × (a ≤ used) × (b ≤ used) × (m ≡ length (back_along records.now labels.now ra.now a)) × (n ≡ length (back_along records.now labels.now rb.now b)) }
    ensures { result ≡ words_lt (reverse (back_along records.now labels.now ra.now a)) (reverse (back_along records.now labels.now rb.now b)) }
{
    let p = skip_words(records, labels, ra, used, a, m.saturating_sub(n));
    let q = skip_words(records, labels, rb, used, b, n.saturating_sub(m));
    before_along(records, labels, used, p, ra, q, rb, m < n)
}

// How many words there are.
pub fn count_words(
    records: &[u32],
    labels: &[i32],
    route: &[u32],
    used: u32,
    history_skips: &[u32],
    link: u32,
) -> u32
    requires { (Walkable records.now labels.now used) × (link ≤ used) × (Skips records.now labels.now used used history_skips.now) }
    ensures { result ≡ length (back_along records.now labels.now route.now link) }
{
    let mut r = link;
    let mut n = 0;
    loop {
        let x = next_on(
            records,
            labels,
            route,
            used,
            summaries::skip_at(history_skips, r),
        );
        let word = x.word;
        if word == 0 {
            return n;
        }
        n += 1;
        r = x.next;
    }
}

// How many words a record's history has, out of the table. 0 is no record.
pub fn count_at(history_counts: &[u64], r: u32) -> u32
    requires { (r ≤ length history_counts.now) × (count_at history_counts.now r ≤ r) }
    ensures { result ≡ count_at history_counts.now r }
{
    if r == 0 {
        return 0;
    }
    history_counts[(r - 1) as usize] as u32
}

// One more where there is a word; 0 is none.
fn count_over(n: u32, word: i32) -> u32
    requires { n < 1_048_576 }
    ensures { result ≡ n + cond (nonzero word) 1 0 }
{
    if word != 0 {
        return n + 1;
    }
    n
}

// Puts record number k + 1 into the table, where those below it stand.
fn put_count(records: &[u32], labels: &[i32], used: u32, k: u32, history_counts: &mut [u64])
    requires { (Walkable records.now labels.now used) × (k < used) × (Counts records.now labels.now used k history_counts.old) }
    ensures { Counts records.now labels.now used (k + 1) history_counts.new }
{
    let prev = records::prev_of(records, k + 1);
    let word = records::word_of(labels, k + 1);
    let n = count_over(count_at(history_counts, prev), word);
    history_counts[k as usize] = n as u64;
}

// Counts the words of every record's history down to the start, in ascending order, since the record before a record has a lower number.
pub fn fill_counts(records: &[u32], labels: &[i32], used: u32, history_counts: &mut [u64])
    requires { (Walkable records.now labels.now used) × (used ≤ length history_counts.old) }
    ensures { Counts records.now labels.now used used history_counts.new }
{
    for k in 0..used {
        put_count(records, labels, used, k, history_counts);
    }
}

// Writes the words, n of them, to the front, oldest first.
pub fn write_words(
    records: &[u32],
    labels: &[i32],
    route: &[u32],
    used: u32,
    history_skips: &[u32],
    link: u32,
    n: u32,
    words: &mut [i32],
)
    requires { (Walkable records.now labels.now used) × (link ≤ used) × (n ≡ length (back_along records.now labels.now route.now link)) × (n ≤ length words.old) × (Skips records.now labels.now used used history_skips.now) }
    ensures { WordsWritten (back_along records.now labels.now route.now link) n words.old words.new }
{
    let mut r = link;
    for k in (0..n as usize).rev() {
        let x = next_on(
            records,
            labels,
            route,
            used,
            summaries::skip_at(history_skips, r),
        );
        words[k] = x.word;
        r = x.next;
    }
}

// Puts a join (0 for none) behind n others: how many there are then.
fn put_join(route: &mut [u32], n: usize, join: u32) -> usize
    requires { 0 < join → n < length route.old }
    ensures { JoinPut route.old route.new n join result }
{
    if join == 0 {
        return n;
    }
    route[n] = join;
    n + 1
}

// The Rust's `route_of`: the joins whose kept histories an entry's path takes, and how many there are.
pub fn route_of(nexts: &[u32], entry: u32, route: &mut [u32]) -> usize
    requires { RouteAsks nexts.now entry route.old }
    ensures { RouteIs nexts.now entry route.new result }
{
    let mut n: usize = 0;
    let mut e = entry;
    // A walk from entry to entry: no index is counted.
    while e != 0 {
        let i = (e - 1) as usize * 3;
        n = put_join(route, n, nexts[i + 2]);
        e = nexts[i + 1];
    }
    n
}
