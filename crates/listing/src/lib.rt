// The list of all readings: own groups and kept readings, one of each word list, in the order in which they are listed.
#![tactic(auto)]

ghost use Rattle.std.specs.Prelude.{◌≡◌, true, ◌&&◌, ◌≤◌, ◌<◌, ltb, length};
ghost use Rattle.summaries.specs.Summed.{Keys, Summed};
ghost use Rattle.merged.specs.Items.{kept_first};
ghost use Rattle.listing_laws.specs.Whole.{same_test};
ghost use Rattle.places.specs.Places.{entry_places, kept_places};
ghost use Rattle.listing.specs.Listed.{scratch, slices, ListingAsks, OwnListAsks, Copied, bound_of, BoundAsks, OwnListed, HeadsListed, FindAsks, FoundIs, WithAsks, WithIs, ListingIs};
ghost use Rattle.listing.specs.Finding.{HeadsListAsks};
ghost use Rattle.listing.specs.Settling.{SettleAsks, Settled};

use refusals::Reason;

// One by one: the library for C then needs no `memmove` from outside.
fn copy(from: &[u32], to: &mut [u32], n: usize)
    requires { (n ≤ length from.now) × (n ≤ length to.old) }
    ensures { Copied from.now to.new n }
{
    for i in 0..n {
        to[i] = from[i];
    }
}

// What a kept reading has to rank below: the rank of the listed-th of the m own groups.
fn bound_of(
    tokens: &[u32],
    sums: &[f32],
    finals: &[f32],
    side: u32,
    counts: bool,
    own: &[u32],
    m: usize,
    listed: usize,
) -> f32
    requires { BoundAsks tokens.now sums.now finals.now side own.now m listed }
    ensures { result ≡ bound_of tokens.now sums.now finals.now side counts own.now m listed }
{
    if m < listed {
        return f32::INFINITY;
    }
    merged::own_rank(tokens, sums, finals, side, counts, own[listed - 1])
}

// How many states are ranked, and how many of them are the first of their word list.
#[derive(Clone, Copy)]
pub struct Ranked {
    pub all: usize,
    pub own: usize,
}

// The states of the tokens that count, best first, in `heads`, and of each word list the first in `own`.
fn list_own(
    tokens: &[u32],
    sums: &[f32],
    finals: &[f32],
    records: &[u32],
    labels: &[i32],
    states: u32,
    side: u32,
    used: u32,
    history_keys: &[u64],
    history_skips: &[u32],
    counts: bool,
    keys: &mut [u64],
    places: &mut [u32],
    own: &mut [u32],
    heads: &mut [u32],
) -> Ranked
    requires { (OwnListAsks tokens.now sums.now finals.now records.now labels.now states side used (length keys.old) (length places.old) (length own.old) (length heads.old)) × (Summed records.now labels.now used history_keys.now history_skips.now) }
    ensures { OwnListed tokens.now sums.now finals.now records.now labels.now side states used counts heads.new own.new result }
{
    let all = ranking::ranked(tokens, sums, finals, states, side, counts, keys, heads);
    copy(heads, own, all);
    let m = groups::firsts(
        tokens,
        records,
        labels,
        side,
        used,
        history_keys,
        history_skips,
        false,
        own,
        all,
        keys,
        places,
    );
    Ranked { all, own: m }
}

// The states whose histories are read below their newest joins: how many there are.
fn list_heads(
    tokens: &[u32],
    sums: &[f32],
    finals: &[f32],
    records: &[u32],
    labels: &[i32],
    side: u32,
    used: u32,
    history_keys: &[u64],
    history_skips: &[u32],
    counts: bool,
    bound: f32,
    heads: &mut [u32],
    n: usize,
    keys: &mut [u64],
    places: &mut [u32],
) -> usize
    requires { (HeadsListAsks tokens.now sums.now finals.now records.now labels.now side used heads.old n (length keys.old) (length places.old)) × (Summed records.now labels.now used history_keys.now history_skips.now) }
    ensures { HeadsListed tokens.now sums.now finals.now records.now labels.now side used counts bound heads.old heads.new n result }
{
    let m = groups::firsts(
        tokens,
        records,
        labels,
        side,
        used,
        history_keys,
        history_skips,
        true,
        heads,
        n,
        keys,
        places,
    );
    kept_readings::keep_heads(
        tokens, sums, finals, records, labels, side, used, counts, bound, heads, m,
    )
}

// The lists below the heads among the n ranked states, and the readings that they keep: how many, if the stores have places for all.
fn find_kept(
    tokens: &[u32],
    sums: &[f32],
    finals: &[f32],
    records: &[u32],
    labels: &[i32],
    gaps: &[f32],
    states: u32,
    side: u32,
    used: u32,
    history_keys: &[u64],
    history_skips: &[u32],
    counts: bool,
    margin: f32,
    listed: usize,
    bound: f32,
    heads: &mut [u32],
    n: usize,
    keys: &mut [u64],
    places: &mut [u32],
    lists: &mut [u32],
    hashes: &mut [u64],
    nexts: &mut [u32],
    costs: &mut [f32],
    kept_hashes: &mut [u64],
    kept_links: &mut [u32],
    kept_sums: &mut [f32],
    most: usize,
) -> Result<usize, Reason>
    requires { (FindAsks tokens.now sums.now finals.now records.now labels.now gaps.now states side used counts margin listed heads.old n (length keys.old) (length places.old) (length lists.old) kept_hashes.old kept_links.old kept_sums.old most) × (Summed records.now labels.now used history_keys.now history_skips.now) }
    ensures { FoundIs tokens.now sums.now finals.now records.now labels.now gaps.now side used margin counts listed bound heads.old n hashes.new nexts.new costs.new (entry_places (length hashes.old) (length nexts.old) (length costs.old)) kept_hashes.new kept_links.new kept_sums.new most result }
{
    let m = list_heads(
        tokens,
        sums,
        finals,
        records,
        labels,
        side,
        used,
        history_keys,
        history_skips,
        counts,
        bound,
        heads,
        n,
        keys,
        places,
    );
    let room = places::entry_places(hashes.len(), nexts.len(), costs.len());
    below::fill_below(
        tokens,
        side,
        records,
        labels,
        gaps,
        used,
        heads,
        m,
        margin,
        listed as u32 + 1,
        lists,
        hashes,
        nexts,
        costs,
        room,
    )
    .ok_or(Reason::ListsFull)?;
    let kept = kept_readings::fill_kept(
        tokens,
        sums,
        finals,
        records,
        labels,
        side,
        used,
        counts,
        bound,
        heads,
        m,
        lists,
        hashes,
        nexts,
        costs,
        kept_hashes,
        kept_links,
        kept_sums,
        most,
    );
    match kept {
        Some(r) => Ok(r),
        None => Err(Reason::ListsFull),
    }
}

// How many own groups and kept readings there are.
#[derive(Clone, Copy)]
struct Counts {
    own: usize,
    kept: usize,
}

// Of a kept reading and the own group of its words one goes; the m own groups and the n kept readings in order, closed up.
fn settle(
    tokens: &[u32],
    sums: &[f32],
    finals: &[f32],
    records: &[u32],
    labels: &[i32],
    side: u32,
    used: u32,
    history_keys: &[u64],
    counts: bool,
    own: &mut [u32],
    m: usize,
    keys: &mut [u64],
    places: &mut [u32],
    gone: &mut [u32],
    nexts: &[u32],
    kept_hashes: &[u64],
    kept_links: &[u32],
    kept_sums: &[f32],
    order: &mut [u32],
    n: usize,
    route: &mut [u32],
) -> Counts
    requires { (SettleAsks tokens.now sums.now finals.now records.now labels.now side used own.old m (length keys.old) (length places.old) gone.old nexts.now kept_hashes.now kept_links.now kept_sums.now order.old n route.old) × (Keys records.now labels.now used used history_keys.now) }
    ensures { Settled (same_test records.now labels.now tokens.now side nexts.now kept_hashes.now kept_links.now kept_sums.now) (kept_first tokens.now sums.now finals.now side counts kept_hashes.now kept_links.now kept_sums.now) own.old own.new m order.old order.new n result }
{
    groups::fill_keys(
        tokens,
        records,
        labels,
        side,
        used,
        history_keys,
        false,
        own,
        m,
        keys,
        places,
    );
    sorting::sort(keys, places, m);
    merged::drop_twins(
        tokens,
        sums,
        finals,
        records,
        labels,
        side,
        used,
        counts,
        own,
        m,
        gone,
        keys,
        places,
        nexts,
        kept_hashes,
        kept_links,
        kept_sums,
        order,
        n,
        route,
    );
    merged::drop_gone(own, gone, m);
    let own_left = groups::close_up(own, m);
    let kept_left = groups::close_up(order, n);
    Counts {
        own: own_left,
        kept: kept_left,
    }
}

// The list of the m own groups with the n kept readings: how many there are.
fn list_with(
    tokens: &[u32],
    sums: &[f32],
    finals: &[f32],
    records: &[u32],
    labels: &[i32],
    states: u32,
    side: u32,
    used: u32,
    history_keys: &[u64],
    counts: bool,
    own: &mut [u32],
    m: usize,
    keys: &mut [u64],
    places: &mut [u32],
    gone: &mut [u32],
    nexts: &[u32],
    kept_hashes: &[u64],
    kept_links: &[u32],
    kept_sums: &[f32],
    order: &mut [u32],
    n: usize,
    ra: &mut [u32],
    rb: &mut [u32],
    list: &mut [u32],
) -> usize
    requires { (WithAsks tokens.now sums.now finals.now records.now labels.now states side used counts own.old m nexts.now kept_hashes.now kept_links.now kept_sums.now n (slices (length keys.old) (length places.old) (length gone.old) (length order.old) (length ra.old) (length rb.old) (length list.old))) × (Keys records.now labels.now used used history_keys.now) }
    ensures { WithIs tokens.now sums.now finals.now records.now labels.now side counts own.old m nexts.now kept_hashes.now kept_links.now kept_sums.now n list.new result }
{
    kept_order::order_kept(
        tokens,
        records,
        labels,
        side,
        used,
        nexts,
        kept_hashes,
        kept_links,
        kept_sums,
        n,
        keys,
        order,
        ra,
        rb,
    );
    let left = settle(
        tokens,
        sums,
        finals,
        records,
        labels,
        side,
        used,
        history_keys,
        counts,
        own,
        m,
        keys,
        places,
        gone,
        nexts,
        kept_hashes,
        kept_links,
        kept_sums,
        order,
        n,
        ra,
    );
    merged::merge_lists(
        tokens,
        sums,
        finals,
        side,
        counts,
        own,
        left.own,
        kept_hashes,
        kept_links,
        kept_sums,
        order,
        left.kept,
        list,
    )
}

fn is_listing(keeps: bool, listed: usize) -> bool
    ensures { result ≡ (keeps && ltb 0 listed) }
{
    keeps && 0 < listed
}

// The list of all readings: an own group is the state of its token, a kept reading is 2³¹ and its number. Gives how many there are, if the stores have places for all.
pub fn list_readings(
    tokens: &[u32],
    sums: &[f32],
    finals: &[f32],
    records: &[u32],
    labels: &[i32],
    gaps: &[f32],
    states: u32,
    side: u32,
    used: u32,
    history_keys: &[u64],
    history_skips: &[u32],
    keeps: bool,
    margin: f32,
    counts: bool,
    listed: usize,
    keys: &mut [u64],
    places: &mut [u32],
    own: &mut [u32],
    heads: &mut [u32],
    list: &mut [u32],
    lists: &mut [u32],
    route: &mut [u32],
    hashes: &mut [u64],
    nexts: &mut [u32],
    costs: &mut [f32],
    kept_hashes: &mut [u64],
    kept_links: &mut [u32],
    kept_sums: &mut [f32],
    order: &mut [u32],
) -> Result<usize, Reason>
    requires { (ListingAsks tokens.now sums.now finals.now records.now labels.now gaps.now states side used keeps margin (kept_places (length kept_hashes.old) (length kept_links.old) (length kept_sums.old)) (scratch (length keys.old) (length places.old) (length own.old) (length heads.old) (length list.old) (length lists.old) (length route.old) (length order.old))) × (listed ≤ 64) × (Summed records.now labels.now used history_keys.now history_skips.now) }
    ensures { ListingIs tokens.now sums.now finals.now records.now labels.now gaps.now states side used keeps margin counts listed (entry_places (length hashes.old) (length nexts.old) (length costs.old)) (kept_places (length kept_hashes.old) (length kept_links.old) (length kept_sums.old)) hashes.new nexts.new costs.new kept_hashes.new kept_links.new kept_sums.new list.new result }
{
    let r = list_own(
        tokens,
        sums,
        finals,
        records,
        labels,
        states,
        side,
        used,
        history_keys,
        history_skips,
        counts,
        keys,
        places,
        own,
        heads,
    );
    if !is_listing(keeps, listed) {
        copy(own, list, r.own);
        return Ok(r.own);
    }
    let bound = bound_of(tokens, sums, finals, side, counts, own, r.own, listed);
    let most = places::kept_places(kept_hashes.len(), kept_links.len(), kept_sums.len());
    let n = find_kept(
        tokens,
        sums,
        finals,
        records,
        labels,
        gaps,
        states,
        side,
        used,
        history_keys,
        history_skips,
        counts,
        margin,
        listed,
        bound,
        heads,
        r.all,
        keys,
        places,
        lists,
        hashes,
        nexts,
        costs,
        kept_hashes,
        kept_links,
        kept_sums,
        most,
    )?;
    Ok(list_with(
        tokens,
        sums,
        finals,
        records,
        labels,
        states,
        side,
        used,
        history_keys,
        counts,
        own,
        r.own,
        keys,
        places,
        heads,
        nexts,
        kept_hashes,
        kept_links,
        kept_sums,
        order,
        n,
        route,
        lists,
        list,
    ))
}
