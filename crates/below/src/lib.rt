// The lists below joins: from each join that a history leads to, the cheapest paths down to the start, one for each word list. Joins are visited in ascending order, since
// a join's own path and its kept history lead to joins of lower number. `lists` has two numbers for each record: the first entry of its list, and how many there are.
#![tactic(auto)]

ghost use Rattle.std.specs.Prelude.{◌≡◌, ◌*◌, ◌+◌, ◌-◌, ◌≤◌, ◌<◌, cond, length};
ghost use Rattle.model.specs.Basics.{◌≼◌};
ghost use Rattle.joins.specs.Walk.{Chains};
ghost use Rattle.traceback.specs.Chain.{Walkable};
ghost use Rattle.below.specs.Stored.{first_at, count_at};
ghost use Rattle.below.specs.Marks.{OwnReach, KeptReach, Cleared, MarksPut, EndWanted, HeadsAsk, HeadsWanted, KeptWanted, WaysWanted, BelowWanted, head_links};
ghost use Rattle.below.specs.Putting.{ListPut, OneAsks, OneIs, ListsAsk, ListsAre};
ghost use Rattle.below.specs.Filling.{BelowAsks, BelowIs};

use entries::Way;

pub fn first_of(lists: &[u32], join: u32) -> u32
    requires { join * 2 ≤ length lists.now }
    ensures { result ≡ first_at lists.now join }
{
    if join == 0 {
        return 0;
    }
    lists[(join - 1) as usize * 2]
}

pub fn count_of(lists: &[u32], join: u32) -> u32
    requires { join * 2 ≤ length lists.now }
    ensures { result ≡ count_at lists.now join }
{
    if join == 0 {
        return 1;
    }
    lists[(join - 1) as usize * 2 + 1]
}

// The way by the path on which the join stands.
fn own_way(records: &[u32], labels: &[i32], lists: &[u32], used: u32, r: u32) -> Way
    requires { (Chains records.now labels.now used) × (0 < r) × (r ≤ used) × (used * 2 ≤ length lists.now) }
    ensures { OwnReach records.now labels.now used lists.now r result }
{
    let link = records::prev_of(records, r);
    let end = histories::first_join(records, labels, used, link);
    let words = histories::hash_above(records, labels, used, link, end);
    Way {
        first: first_of(lists, end),
        count: count_of(lists, end),
        cost: 0.0,
        graph: 0.0,
        hash: words.hash,
        shift: words.shift,
        len: words.len,
        join: 0,
    }
}

// Of a way that costs this; none where the margin cuts it.
fn count_within(lists: &[u32], join: u32, cost: f32, margin: f32) -> u32
    requires { join * 2 ≤ length lists.now }
    ensures { result ≡ cond (cost ≼ margin) (count_at lists.now join) 0 }
{
    if cost <= margin {
        return count_of(lists, join);
    }
    0
}

// The way by the join's kept history.
fn kept_way(
    records: &[u32],
    labels: &[i32],
    gaps: &[f32],
    lists: &[u32],
    used: u32,
    r: u32,
    margin: f32,
) -> Way
    requires { (Walkable records.now labels.now used) × (used * 2 ≤ length gaps.now) × (0 < r) × (r ≤ used) × (used * 2 ≤ length lists.now) }
    ensures { KeptReach records.now labels.now gaps.now used lists.now r margin result }
{
    let link = records::kept_of(records, r);
    let end = histories::first_join(records, labels, used, link);
    let above = histories::hash_above(records, labels, used, link, end);
    let words = histories::with_word(above, records::kept_word_of(labels, r));
    let cost = records::cost_of(gaps, r);
    Way {
        first: first_of(lists, end),
        count: count_within(lists, end, cost, margin),
        cost,
        graph: gaps[(r - 1) as usize * 2 + 1],
        hash: words.hash,
        shift: words.shift,
        len: words.len,
        join: r,
    }
}

fn clear(lists: &mut [u32], used: u32)
    requires { used * 2 ≤ length lists.old }
    ensures { Cleared lists.new used }
{
    lists[..used as usize * 2].fill(0);
}

// Marks a join whose list is wanted; 0 is none.
fn want(lists: &mut [u32], join: u32)
    requires { join * 2 ≤ length lists.old }
    ensures { MarksPut (λ j. j ≡ join) lists.old lists.new }
{
    if join == 0 {
        return;
    }
    lists[(join - 1) as usize * 2 + 1] = 1;
}

// Marks the newest join of a history.
fn want_end(records: &[u32], labels: &[i32], used: u32, lists: &mut [u32], link: u32)
    requires { (Chains records.now labels.now used) × (link ≤ used) × (used * 2 ≤ length lists.old) }
    ensures { EndWanted records.now labels.now used link lists.old lists.new }
{
    want(lists, histories::first_join(records, labels, used, link));
}

// Marks the newest joins of the first n states' histories.
fn want_heads(
    tokens: &[u32],
    side: u32,
    records: &[u32],
    labels: &[i32],
    used: u32,
    heads: &[u32],
    n: usize,
    lists: &mut [u32],
)
    requires { (HeadsAsk tokens.now records.now labels.now side used heads.now n) × (used * 2 ≤ length lists.old) }
    ensures { HeadsWanted tokens.now records.now labels.now side used heads.now n lists.old lists.new }
{
    for i in 0..n {
        want_end(
            records,
            labels,
            used,
            lists,
            tokens::link_at(tokens, side, heads[i]),
        );
    }
}

// Marks the newest join of a kept history, where the margin does not cut it.
fn want_kept(
    records: &[u32],
    labels: &[i32],
    gaps: &[f32],
    used: u32,
    margin: f32,
    lists: &mut [u32],
    r: u32,
)
    requires { (Walkable records.now labels.now used) × (used * 2 ≤ length gaps.now) × (0 < r) × (r ≤ used) × (used * 2 ≤ length lists.old) }
    ensures { KeptWanted records.now labels.now gaps.now used margin r lists.old lists.new }
{
    if records::cost_of(gaps, r) <= margin {
        want_end(records, labels, used, lists, records::kept_of(records, r));
    }
}

// A wanted join wants what its two ways lead to.
fn want_ways(
    records: &[u32],
    labels: &[i32],
    gaps: &[f32],
    used: u32,
    margin: f32,
    lists: &mut [u32],
    r: u32,
)
    requires { (Walkable records.now labels.now used) × (used * 2 ≤ length gaps.now) × (0 < r) × (r ≤ used) × (used * 2 ≤ length lists.old) }
    ensures { WaysWanted records.now labels.now gaps.now used margin r lists.old lists.new }
{
    if count_of(lists, r) == 0 {
        return;
    }
    want_end(records, labels, used, lists, records::prev_of(records, r));
    want_kept(records, labels, gaps, used, margin, lists, r);
}

// Marks all that the marked joins lead to. A join's ways lead to joins of lower number, so one descending turn does it.
fn want_below(
    records: &[u32],
    labels: &[i32],
    gaps: &[f32],
    used: u32,
    margin: f32,
    lists: &mut [u32],
)
    requires { (Walkable records.now labels.now used) × (used * 2 ≤ length gaps.now) × (used * 2 ≤ length lists.old) }
    ensures { BelowWanted records.now labels.now gaps.now used margin lists.old lists.new }
{
    for k in (0..used).rev() {
        want_ways(records, labels, gaps, used, margin, lists, k + 1);
    }
}

fn put_list(lists: &mut [u32], r: u32, first: u32, count: u32)
    requires { (0 < r) × (r * 2 ≤ length lists.old) }
    ensures { ListPut lists.old lists.new r first count }
{
    lists[(r - 1) as usize * 2] = first;
    lists[(r - 1) as usize * 2 + 1] = count;
}

// The list of record r, if it is wanted, at the entries from `free` on. Gives the next free entry, or none where the places are full.
fn fill_one(
    records: &[u32],
    labels: &[i32],
    gaps: &[f32],
    used: u32,
    margin: f32,
    cap: u32,
    lists: &mut [u32],
    hashes: &mut [u64],
    nexts: &mut [u32],
    sums: &mut [f32],
    places: u32,
    r: u32,
    free: u32,
) -> Option<u32>
    requires { OneAsks records.now labels.now gaps.now used lists.old hashes.old nexts.old sums.old places r free }
    ensures { OneIs records.now labels.now gaps.now used margin cap lists.old hashes.old nexts.old sums.old lists.new hashes.new nexts.new sums.new places r free result }
{
    if count_of(lists, r) == 0 {
        return Some(free);
    }
    let own = own_way(records, labels, lists, used, r);
    let kept = kept_way(records, labels, gaps, lists, used, r, margin);
    let to = entries::fill_list(hashes, nexts, sums, own, kept, margin, cap, free, places)?;
    put_list(lists, r, free, to - free);
    Some(to)
}

// The wanted lists, in ascending order of the joins. Gives the next free entry, or none where the places are full.
fn fill_lists(
    records: &[u32],
    labels: &[i32],
    gaps: &[f32],
    used: u32,
    margin: f32,
    cap: u32,
    lists: &mut [u32],
    hashes: &mut [u64],
    nexts: &mut [u32],
    sums: &mut [f32],
    places: u32,
) -> Option<u32>
    requires { ListsAsk records.now labels.now gaps.now used margin cap lists.old hashes.old nexts.old sums.old places }
    ensures { ListsAre records.now labels.now gaps.now used margin cap lists.old lists.new hashes.new nexts.new sums.new places result }
{
    let mut free: u32 = 1;
    for k in 0..used {
        free = fill_one(
            records,
            labels,
            gaps,
            used,
            margin,
            cap,
            lists,
            hashes,
            nexts,
            sums,
            places,
            k + 1,
            free,
        )?;
    }
    Some(free)
}

// The Rust's `fill_below`, for the histories of the first n states. Gives the next free entry, or none where the places are full.
pub fn fill_below(
    tokens: &[u32],
    side: u32,
    records: &[u32],
    labels: &[i32],
    gaps: &[f32],
    used: u32,
    heads: &[u32],
    n: usize,
    margin: f32,
    cap: u32,
    lists: &mut [u32],
    hashes: &mut [u64],
    nexts: &mut [u32],
    sums: &mut [f32],
    places: u32,
) -> Option<u32>
    requires { (HeadsAsk tokens.now records.now labels.now side used heads.now n) × (BelowAsks records.now labels.now gaps.now used margin (head_links tokens.now side heads.now n) lists.old hashes.old nexts.old sums.old places) }
    ensures { BelowIs records.now labels.now gaps.now used margin cap (head_links tokens.now side heads.now n) lists.new hashes.new nexts.new sums.new places result }
{
    clear(lists, used);
    want_heads(tokens, side, records, labels, used, heads, n, lists);
    want_below(records, labels, gaps, used, margin, lists);
    fill_lists(
        records, labels, gaps, used, margin, cap, lists, hashes, nexts, sums, places,
    )
}
