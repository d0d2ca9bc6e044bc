// The readings that joins kept, as a map: of each hash and number of words the best. `hashes` has the hash of a kept reading's words; `links` has four numbers for each: how
// many words, the state of its token, the entry that its path goes on with below the token's newest join, and the token's seq; `sums` has two: its rank and its cost.
#![tactic(auto)]

ghost use Rattle.std.specs.Prelude.{◌≡◌, ◌+◌, ◌-◌, ◌*◌, ◌^◌, ◌<◌, ◌≤◌, [], ◌∷◌, length, if◌then◌else◌};
ghost use Rattle.model.specs.Basics.{◌⊖◌, ◌⊗◌, 0f, 1f};
ghost use Rattle.model.specs.Reads.{graph_scale};
ghost use Rattle.joins.specs.Walk.{Chains};
ghost use Rattle.entries.specs.Entries.{entry_at, Room as EntryRoom};
ghost use Rattle.kept_readings.specs.Kept.{kept_read_in, Room, same_kept, sooner_kept, sooner_of, KeptPut, FoundAt, Added, within};
ghost use Rattle.kept_readings.specs.Heads.{kept_by, kept_starts_from, EntriesAsk, HeadAsks, HeadAdded, FillAsks, FillIs, best_within, may_rank, StateAsks, IsHeadIs, KeptIf, HeadsAsk, HeadsAre};

use entries::Entry;
use histories::Hashed;
use traceback::Candidate;
use wrapping::wrapping_mul;

#[derive(Clone, Copy)]
pub struct KeptReading {
    pub hash: u64,
    pub len: u32,
    pub state: u32,
    pub entry: u32,
    pub seq: u32,
    pub rank: f32,
    pub cost: f32,
}

pub fn kept_at(hashes: &[u64], links: &[u32], sums: &[f32], i: usize) -> KeptReading
    requires { Room hashes.now links.now sums.now (i + 1) }
    ensures { result ≡ kept_read_in hashes.now links.now sums.now i }
{
    KeptReading {
        hash: hashes[i],
        len: links[i * 4],
        state: links[i * 4 + 1],
        entry: links[i * 4 + 2],
        seq: links[i * 4 + 3],
        rank: sums[i * 2],
        cost: sums[i * 2 + 1],
    }
}

fn put_kept(hashes: &mut [u64], links: &mut [u32], sums: &mut [f32], i: usize, k: KeptReading)
    requires { Room hashes.old links.old sums.old (i + 1) }
    ensures { KeptPut hashes.old links.old sums.old hashes.new links.new sums.new i k }
{
    hashes[i] = k.hash;
    links[i * 4] = k.len;
    links[i * 4 + 1] = k.state;
    links[i * 4 + 2] = k.entry;
    links[i * 4 + 3] = k.seq;
    sums[i * 2] = k.rank;
    sums[i * 2 + 1] = k.cost;
}

fn same_kept(a: KeptReading, b: KeptReading) -> bool
    ensures { result ≡ same_kept a b }
{
    if a.hash != b.hash {
        return false;
    }
    a.len == b.len
}

pub fn kept_sooner(a: KeptReading, b: KeptReading) -> bool
    ensures { result ≡ sooner_kept a b }
{
    traceback::comes_first((a.rank, a.seq), (b.rank, b.seq))
}

// The first place of k's words.
fn find_kept(hashes: &[u64], links: &[u32], sums: &[f32], n: usize, k: KeptReading) -> Option<usize>
    requires { Room hashes.now links.now sums.now n }
    ensures { FoundAt hashes.now links.now sums.now n k result }
{
    for i in 0..n {
        if same_kept(k, kept_at(hashes, links, sums, i)) {
            return Some(i);
        }
    }
    None
}

// Puts k where it comes sooner than the one that is there.
fn put_sooner(hashes: &mut [u64], links: &mut [u32], sums: &mut [f32], i: usize, k: KeptReading)
    requires { Room hashes.old links.old sums.old (i + 1) }
    ensures { KeptPut hashes.old links.old sums.old hashes.new links.new sums.new i (sooner_of k (kept_read_in hashes.old links.old sums.old i)) }
{
    if kept_sooner(k, kept_at(hashes, links, sums, i)) {
        put_kept(hashes, links, sums, i, k);
    }
}

// Adds k to the map of n: how many there are then; none where a new one finds the places full.
fn add_kept(
    hashes: &mut [u64],
    links: &mut [u32],
    sums: &mut [f32],
    n: usize,
    places: usize,
    k: KeptReading,
) -> Option<usize>
    requires { (Room hashes.old links.old sums.old places) × (n ≤ places) }
    ensures { Added hashes.old links.old sums.old n (k ∷ []) places hashes.new links.new sums.new result }
{
    if let Some(i) = find_kept(hashes, links, sums, n, k) {
        put_sooner(hashes, links, sums, i, k);
        return Some(n);
    }
    if n == places {
        return None;
    }
    put_kept(hashes, links, sums, n, k);
    Some(n + 1)
}

// The same where it ranks below the bound; any other is left out.
fn add_within(
    hashes: &mut [u64],
    links: &mut [u32],
    sums: &mut [f32],
    n: usize,
    places: usize,
    bound: f32,
    k: KeptReading,
) -> Option<usize>
    requires { (Room hashes.old links.old sums.old places) × (n ≤ places) }
    ensures { Added hashes.old links.old sums.old n (within bound (k ∷ [])) places hashes.new links.new sums.new result }
{
    if bound <= k.rank {
        return Some(n);
    }
    add_kept(hashes, links, sums, n, places, k)
}

const GRAPH_SCALE: f32 = 0.9;

// What a graph sum takes off a rank.
fn scaled(counts: bool, graph: f32) -> f32
    ensures { result ≡ (if counts then ((1f ⊖ graph_scale) ⊗ graph) else 0f) }
{
    if counts {
        (1.0 - GRAPH_SCALE) * graph
    } else {
        0.0
    }
}

// The kept reading of a token by entry e below its newest join; `above` has the token's words above that.
fn kept_by(c: Candidate, counts: bool, above: Hashed, e: u32, b: Entry) -> KeptReading
    requires { b.len + above.len < 2 ^ 32 }
    ensures { result ≡ kept_by c counts above e b }
{
    KeptReading {
        hash: std::num::wrapping_add_u64(wrapping_mul(b.hash, above.shift), above.hash),
        len: b.len + above.len,
        state: c.state,
        entry: e,
        seq: c.seq,
        rank: c.rank + b.cost - scaled(counts, b.graph),
        cost: c.cost + b.cost,
    }
}

fn add_entry(
    c: Candidate,
    counts: bool,
    bound: f32,
    above: Hashed,
    e: u32,
    hashes: &[u64],
    nexts: &[u32],
    costs: &[f32],
    kept_hashes: &mut [u64],
    kept_links: &mut [u32],
    kept_sums: &mut [f32],
    n: usize,
    places: usize,
) -> Option<usize>
    requires { (EntryRoom hashes.now nexts.now costs.now e) × ((entry_at hashes.now nexts.now costs.now e).len + above.len < 2 ^ 32) × (Room kept_hashes.old kept_links.old kept_sums.old places) × (n ≤ places) }
    ensures { Added kept_hashes.old kept_links.old kept_sums.old n (within bound (kept_by c counts above e (entry_at hashes.now nexts.now costs.now e) ∷ [])) places kept_hashes.new kept_links.new kept_sums.new result }
{
    let b = entries::entry_at(hashes, nexts, costs, e);
    let k = kept_by(c, counts, above, e, b);
    add_within(kept_hashes, kept_links, kept_sums, n, places, bound, k)
}

// Of a list of entries all but the first, which is the token's own path.
fn add_below(
    c: Candidate,
    counts: bool,
    bound: f32,
    above: Hashed,
    first: u32,
    count: u32,
    hashes: &[u64],
    nexts: &[u32],
    costs: &[f32],
    kept_hashes: &mut [u64],
    kept_links: &mut [u32],
    kept_sums: &mut [f32],
    n: usize,
    places: usize,
) -> Option<usize>
    requires { (EntriesAsk hashes.now nexts.now costs.now first count above.len) × (Room kept_hashes.old kept_links.old kept_sums.old places) × (n ≤ places) }
    ensures { Added kept_hashes.old kept_links.old kept_sums.old n (within bound (kept_starts_from hashes.now nexts.now costs.now c counts above (first + 1) (count - 1))) places kept_hashes.new kept_links.new kept_sums.new result }
{
    let mut m = n;
    for i in 1..count {
        m = add_entry(
            c,
            counts,
            bound,
            above,
            first + i,
            hashes,
            nexts,
            costs,
            kept_hashes,
            kept_links,
            kept_sums,
            m,
            places,
        )?;
    }
    Some(m)
}

// The readings below one head.
fn add_head(
    tokens: &[u32],
    sums: &[f32],
    finals: &[f32],
    records: &[u32],
    labels: &[i32],
    side: u32,
    used: u32,
    counts: bool,
    bound: f32,
    s: u32,
    lists: &[u32],
    hashes: &[u64],
    nexts: &[u32],
    costs: &[f32],
    kept_hashes: &mut [u64],
    kept_links: &mut [u32],
    kept_sums: &mut [f32],
    n: usize,
    places: usize,
) -> Option<usize>
    requires { (side ≤ 1) × (Chains records.now labels.now used) × (used * 2 ≤ length lists.now) × (HeadAsks tokens.now sums.now finals.now records.now labels.now side used lists.now hashes.now nexts.now costs.now s) × (Room kept_hashes.old kept_links.old kept_sums.old places) × (n ≤ places) }
    ensures { HeadAdded tokens.now sums.now finals.now records.now labels.now side used counts bound lists.now hashes.now nexts.now costs.now s kept_hashes.old kept_links.old kept_sums.old n places kept_hashes.new kept_links.new kept_sums.new result }
{
    let link = tokens::link_at(tokens, side, s);
    let join = histories::first_join(records, labels, used, link);
    let above = histories::hash_above(records, labels, used, link, join);
    match traceback::candidate_at(tokens, sums, finals, side, s, counts) {
        None => Some(n),
        Some(c) => add_below(
            c,
            counts,
            bound,
            above,
            below::first_of(lists, join),
            below::count_of(lists, join),
            hashes,
            nexts,
            costs,
            kept_hashes,
            kept_links,
            kept_sums,
            n,
            places,
        ),
    }
}

// The Rust's `kept` map of all heads: how many readings there are; none where the places do not hold it.
pub fn fill_kept(
    tokens: &[u32],
    sums: &[f32],
    finals: &[f32],
    records: &[u32],
    labels: &[i32],
    side: u32,
    used: u32,
    counts: bool,
    bound: f32,
    heads: &[u32],
    m: usize,
    lists: &[u32],
    hashes: &[u64],
    nexts: &[u32],
    costs: &[f32],
    kept_hashes: &mut [u64],
    kept_links: &mut [u32],
    kept_sums: &mut [f32],
    places: usize,
) -> Option<usize>
    requires { FillAsks tokens.now sums.now finals.now records.now labels.now side used heads.now m lists.now hashes.now nexts.now costs.now kept_hashes.old kept_links.old kept_sums.old places }
    ensures { FillIs tokens.now sums.now finals.now records.now labels.now side used counts bound heads.now m lists.now hashes.now nexts.now costs.now kept_hashes.old kept_links.old kept_sums.old places kept_hashes.new kept_links.new kept_sums.new result }
{
    let mut n: usize = 0;
    for i in 0..m {
        n = add_head(
            tokens,
            sums,
            finals,
            records,
            labels,
            side,
            used,
            counts,
            bound,
            heads[i],
            lists,
            hashes,
            nexts,
            costs,
            kept_hashes,
            kept_links,
            kept_sums,
            n,
            places,
        )?;
    }
    Some(n)
}

// ---- which tokens are heads

fn best_within(bound: f32, best: Option<Candidate>) -> bool
    ensures { result ≡ best_within bound best }
{
    match best {
        None => false,
        Some(c) => !(bound <= c.rank),
    }
}

// Whether a kept reading of the state's token can rank below the bound. Where finals count, a graph sum may take more off a rank than a gap adds, so that any can.
fn may_rank(
    tokens: &[u32],
    sums: &[f32],
    finals: &[f32],
    side: u32,
    counts: bool,
    bound: f32,
    s: u32,
) -> bool
    requires { (side ≤ 1) × (s * 8 + 8 ≤ length tokens.now) × (s * 4 + 4 ≤ length sums.now) × (s < length finals.now) }
    ensures { result ≡ may_rank tokens.now sums.now finals.now side counts bound s }
{
    if counts {
        return true;
    }
    best_within(
        bound,
        traceback::candidate_at(tokens, sums, finals, side, s, counts),
    )
}

// The walk to the newest join comes last, since few states need it.
fn is_head(
    tokens: &[u32],
    sums: &[f32],
    finals: &[f32],
    records: &[u32],
    labels: &[i32],
    side: u32,
    used: u32,
    counts: bool,
    bound: f32,
    s: u32,
) -> bool
    requires { (side ≤ 1) × (Chains records.now labels.now used) × (StateAsks tokens.now sums.now finals.now side used s) }
    ensures { IsHeadIs tokens.now sums.now finals.now records.now labels.now side used counts bound s result }
{
    if !may_rank(tokens, sums, finals, side, counts, bound, s) {
        return false;
    }
    let link = tokens::link_at(tokens, side, s);
    histories::first_join(records, labels, used, link) != 0
}

// Puts a state behind the first m, if it is kept: how many there are then.
fn keep_if(heads: &mut [u32], m: usize, s: u32, kept: bool) -> usize
    requires { m < length heads.old }
    ensures { KeptIf heads.old heads.new m s kept result }
{
    if kept {
        heads[m] = s;
        return m + 1;
    }
    m
}

// Moves the heads among the first n states to the front: how many there are.
pub fn keep_heads(
    tokens: &[u32],
    sums: &[f32],
    finals: &[f32],
    records: &[u32],
    labels: &[i32],
    side: u32,
    used: u32,
    counts: bool,
    bound: f32,
    heads: &mut [u32],
    n: usize,
) -> usize
    requires { HeadsAsk tokens.now sums.now finals.now records.now labels.now side used heads.old n }
    ensures { HeadsAre tokens.now sums.now finals.now records.now labels.now side used counts bound heads.old heads.new n result }
{
    let mut m: usize = 0;
    for i in 0..n {
        let s = heads[i];
        let kept = is_head(
            tokens, sums, finals, records, labels, side, used, counts, bound, s,
        );
        m = keep_if(heads, m, s, kept);
    }
    m
}
