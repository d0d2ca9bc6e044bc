// The reading list: own groups and kept readings in lent slices, the first of them traced.
#![tactic(auto)]

ghost use Rattle.std.specs.Prelude.{◌⊎◌, ◌≡◌, ◌+◌, ◌*◌, ◌≤◌, ◌<◌, length};
ghost use Rattle.std.proofs.lemmas.List.Edits.{sets};
ghost use Rattle.summaries.specs.Summed.{Skips};
ghost use Rattle.routes.specs.Counts.{Counts};
ghost use Rattle.traceback.specs.Trail.{no_trail};
ghost use Rattle.traceback.specs.Chain.{Walkable, trail_from};
ghost use Rattle.places.specs.Places.{entry_places, kept_places};
ghost use Rattle.listing.specs.Listed.{scratch, ListingAsks};
ghost use Rattle.stores.specs.Lent.{Used};
ghost use Rattle.reading_list.specs.Outputs.{outputs};
ghost use Rattle.reading_list.specs.Scratch.{scratch as worked, ScratchLeft};
ghost use Rattle.reading_list.specs.Right.{ReadingsRight};
ghost use Rattle.reading_list.specs.Items.{own_reading, kept_reading, item_reading, ItemAsks, trail_of, PathAsks};
ghost use Rattle.reading_list.specs.Lines.{view, line_of, lines_in, ListAsks, SizeFor, GrowAsks, grown_by, TotalsAre, too_short, BehindAsks, WrittenBehind, five_of, four_of, LineAsks, LinePut, WriteAsks, Filled, ListWritten};

use kept_readings::KeptReading;
use refusals::Reason;
use tokens::Token;
use traceback::{Candidate, Size};

// A reading: the state of its token, the entry that its path goes on with below the token's newest join (0 for the token's own path), its rank and its cost.
#[derive(Clone, Copy)]
struct Reading {
    state: u32,
    entry: u32,
    rank: f32,
    cost: f32,
}

fn own_reading(best: Option<Candidate>) -> Reading
    ensures { result ≡ own_reading best }
{
    match best {
        None => Reading {
            state: 0,
            entry: 0,
            rank: 0.0,
            cost: 0.0,
        },
        Some(c) => Reading {
            state: c.state,
            entry: 0,
            rank: c.rank,
            cost: c.cost,
        },
    }
}

fn kept_reading(k: KeptReading) -> Reading
    ensures { result ≡ kept_reading k }
{
    Reading {
        state: k.state,
        entry: k.entry,
        rank: k.rank,
        cost: k.cost,
    }
}

// The reading that an item of the list stands for.
fn reading_at(
    tokens: &[u32],
    sums: &[f32],
    finals: &[f32],
    side: u32,
    counts: bool,
    kept_hashes: &[u64],
    kept_links: &[u32],
    kept_sums: &[f32],
    item: u32,
) -> Reading
    requires { ItemAsks tokens.now sums.now finals.now side kept_hashes.now kept_links.now kept_sums.now item }
    ensures { result ≡ item_reading tokens.now sums.now finals.now side counts kept_hashes.now kept_links.now kept_sums.now item }
{
    if item < 0x8000_0000 {
        return own_reading(traceback::candidate_at(tokens, sums, finals, side, item, counts));
    }
    kept_reading(kept_readings::kept_at(
        kept_hashes,
        kept_links,
        kept_sums,
        (item - 0x8000_0000) as usize,
    ))
}

// The size of a path; where it is not traced, of its words alone. Without a kept history they are counted already.
fn measure_path(
    records: &[u32],
    labels: &[i32],
    route: &[u32],
    used: u32,
    history_skips: &[u32],
    history_counts: &[u64],
    n: u32,
    link: u32,
    traced: bool,
) -> Size
    requires { (Walkable records.now labels.now used) × (link ≤ used) × (Skips records.now labels.now used used history_skips.now) × (Counts records.now labels.now used used history_counts.now) }
    ensures { SizeFor traced (trail_from records.now labels.now route.now n link no_trail) used result }
{
    if traced {
        return traceback::measure(records, labels, route, used, n, link);
    }
    if route.is_empty() {
        return Size {
            words: routes::count_at(history_counts, link),
            segments: 0,
        };
    }
    Size {
        words: routes::count_words(records, labels, route, used, history_skips, link),
        segments: 0,
    }
}

// The same of a reading's path.
fn measure_reading(
    tokens: &[u32],
    records: &[u32],
    labels: &[i32],
    side: u32,
    used: u32,
    history_skips: &[u32],
    history_counts: &[u64],
    n: u32,
    nexts: &[u32],
    g: Reading,
    traced: bool,
    route: &mut [u32],
) -> Size
    requires { (PathAsks tokens.now records.now labels.now nexts.now side used g route.old) × (Skips records.now labels.now used used history_skips.now) × (Counts records.now labels.now used used history_counts.now) }
    ensures { SizeFor traced (trail_of tokens.now records.now labels.now nexts.now side n g) used result }
{
    let link = tokens::link_at(tokens, side, g.state);
    let k = routes::route_of(nexts, g.entry, route);
    measure_path(
        records,
        labels,
        &route[..k],
        used,
        history_skips,
        history_counts,
        n,
        link,
        traced,
    )
}

// Words of readings, and of those that are traced words and segments.
#[derive(Clone, Copy)]
struct Totals {
    words: usize,
    traced: usize,
    segments: usize,
}

fn grown(t: Totals, z: Size, traced: bool) -> Totals
    requires { GrowAsks t z }
    ensures { result ≡ grown_by t z traced }
{
    let words = t.words + z.words as usize;
    if traced {
        return Totals {
            words,
            traced: words,
            segments: t.segments + z.segments as usize,
        };
    }
    Totals {
        words,
        traced: t.traced,
        segments: t.segments,
    }
}

// The size of the first k readings together; the first `max` are traced.
fn measure_all(
    tokens: &[u32],
    sums: &[f32],
    finals: &[f32],
    records: &[u32],
    labels: &[i32],
    side: u32,
    used: u32,
    history_skips: &[u32],
    history_counts: &[u64],
    n: u32,
    counts: bool,
    nexts: &[u32],
    kept_hashes: &[u64],
    kept_links: &[u32],
    kept_sums: &[f32],
    list: &[u32],
    k: usize,
    max: usize,
    route: &mut [u32],
) -> Totals
    requires { (ListAsks (view tokens.now sums.now finals.now records.now labels.now nexts.now kept_hashes.now kept_links.now kept_sums.now side used n counts) list.now k route.old) × (Skips records.now labels.now used used history_skips.now) × (Counts records.now labels.now used used history_counts.now) }
    ensures { TotalsAre (view tokens.now sums.now finals.now records.now labels.now nexts.now kept_hashes.now kept_links.now kept_sums.now side used n counts) max list.now k result }
{
    let mut total = Totals {
        words: 0,
        traced: 0,
        segments: 0,
    };
    for i in 0..k {
        let g = reading_at(
            tokens,
            sums,
            finals,
            side,
            counts,
            kept_hashes,
            kept_links,
            kept_sums,
            list[i],
        );
        let z = measure_reading(
            tokens,
            records,
            labels,
            side,
            used,
            history_skips,
            history_counts,
            n,
            nexts,
            g,
            i < max,
            route,
        );
        total = grown(total, z, i < max);
    }
    total
}

// Whether slices with so many places are too short for k readings of this size.
fn too_short(
    total: Totals,
    k: usize,
    words: usize,
    frames: usize,
    segments: usize,
    numbers: usize,
    costs: usize,
) -> bool
    ensures { result ≡ too_short total k words frames segments numbers costs }
{
    words < total.words
        || frames < total.traced
        || segments < total.segments
        || numbers < k
        || costs < k
}

// Writes the words of a path behind `w` words and where it is traced its frames too, and its segments behind `s` segments.
fn write_behind(
    records: &[u32],
    labels: &[i32],
    route: &[u32],
    used: u32,
    history_skips: &[u32],
    n: u32,
    link: u32,
    z: Size,
    traced: bool,
    w: usize,
    s: usize,
    words: &mut [i32],
    frames: &mut [u32],
    segments: &mut [u32],
)
    requires { (Walkable records.now labels.now used) × (link ≤ used) × (BehindAsks (trail_from records.now labels.now route.now n link no_trail) used z traced w s words.old frames.old segments.old) × (Skips records.now labels.now used used history_skips.now) }
    ensures { WrittenBehind traced (trail_from records.now labels.now route.now n link no_trail) w s words.old frames.old segments.old words.new frames.new segments.new }
{
    if traced {
        let from = s * 3;
        traceback::write(
            records,
            labels,
            route,
            used,
            n,
            link,
            z,
            &mut words[w..],
            &mut frames[w..],
            &mut segments[from..],
        );
        return;
    }
    routes::write_words(
        records,
        labels,
        route,
        used,
        history_skips,
        link,
        z.words,
        &mut words[w..],
    );
}

// The numbers of the i-th reading: where its words and its segments end, how many kept histories it takes, and its token's phone and seq.
fn put_numbers(numbers: &mut [u64], i: usize, to: Totals, kept: usize, t: Token)
    requires { i * 5 + 5 ≤ length numbers.old }
    ensures { numbers.new ≡ sets numbers.old (i * 5) (five_of to.words to.segments kept t) }
{
    numbers[i * 5] = to.words as u64;
    numbers[i * 5 + 1] = to.segments as u64;
    numbers[i * 5 + 2] = kept as u64;
    numbers[i * 5 + 3] = u64::from(t.phone);
    numbers[i * 5 + 4] = u64::from(t.seq);
}

// The costs of the i-th reading: its rank and its cost, and its token's cost and graph sum.
fn put_costs(costs: &mut [f32], i: usize, g: Reading, t: Token)
    requires { i * 4 + 4 ≤ length costs.old }
    ensures { costs.new ≡ sets costs.old (i * 4) (four_of g.rank g.cost t) }
{
    costs[i * 4] = g.rank;
    costs[i * 4 + 1] = g.cost;
    costs[i * 4 + 2] = t.cost;
    costs[i * 4 + 3] = t.graph;
}

// The i-th reading, behind those of the size `at`: the size of all then.
fn write_reading(
    tokens: &[u32],
    sums: &[f32],
    records: &[u32],
    labels: &[i32],
    side: u32,
    used: u32,
    history_skips: &[u32],
    history_counts: &[u64],
    n: u32,
    nexts: &[u32],
    g: Reading,
    i: usize,
    traced: bool,
    at: Totals,
    route: &mut [u32],
    words: &mut [i32],
    frames: &mut [u32],
    segments: &mut [u32],
    numbers: &mut [u64],
    costs: &mut [f32],
) -> Totals
    requires { (LineAsks tokens.now sums.now records.now labels.now nexts.now side used n g i traced at route.old (outputs words.old frames.old segments.old numbers.old costs.old)) × (Skips records.now labels.now used used history_skips.now) × (Counts records.now labels.now used used history_counts.now) }
    ensures { LinePut (line_of tokens.now sums.now records.now labels.now nexts.now side n g traced) i at result (outputs words.old frames.old segments.old numbers.old costs.old) (outputs words.new frames.new segments.new numbers.new costs.new) }
{
    let t = tokens::token_at(tokens, sums, side, g.state);
    let k = routes::route_of(nexts, g.entry, route);
    let z = measure_path(
        records,
        labels,
        &route[..k],
        used,
        history_skips,
        history_counts,
        n,
        t.link,
        traced,
    );
    write_behind(
        records,
        labels,
        &route[..k],
        used,
        history_skips,
        n,
        t.link,
        z,
        traced,
        at.words,
        at.segments,
        words,
        frames,
        segments,
    );
    let to = grown(at, z, traced);
    put_numbers(numbers, i, to, k, t);
    put_costs(costs, i, g, t);
    to
}

// The k readings, one after another; the first `max` are traced.
fn write_all(
    tokens: &[u32],
    sums: &[f32],
    finals: &[f32],
    records: &[u32],
    labels: &[i32],
    side: u32,
    used: u32,
    history_skips: &[u32],
    history_counts: &[u64],
    n: u32,
    counts: bool,
    nexts: &[u32],
    kept_hashes: &[u64],
    kept_links: &[u32],
    kept_sums: &[f32],
    list: &[u32],
    k: usize,
    max: usize,
    route: &mut [u32],
    words: &mut [i32],
    frames: &mut [u32],
    segments: &mut [u32],
    numbers: &mut [u64],
    costs: &mut [f32],
)
    requires { (WriteAsks (view tokens.now sums.now finals.now records.now labels.now nexts.now kept_hashes.now kept_links.now kept_sums.now side used n counts) max list.now k route.old (outputs words.old frames.old segments.old numbers.old costs.old)) × (Skips records.now labels.now used used history_skips.now) × (Counts records.now labels.now used used history_counts.now) }
    ensures { Filled (lines_in (view tokens.now sums.now finals.now records.now labels.now nexts.now kept_hashes.now kept_links.now kept_sums.now side used n counts) max list.now k) (outputs words.old frames.old segments.old numbers.old costs.old) (outputs words.new frames.new segments.new numbers.new costs.new) }
{
    let mut at = Totals {
        words: 0,
        traced: 0,
        segments: 0,
    };
    for i in 0..k {
        let g = reading_at(
            tokens,
            sums,
            finals,
            side,
            counts,
            kept_hashes,
            kept_links,
            kept_sums,
            list[i],
        );
        at = write_reading(
            tokens,
            sums,
            records,
            labels,
            side,
            used,
            history_skips,
            history_counts,
            n,
            nexts,
            g,
            i,
            i < max,
            at,
            route,
            words,
            frames,
            segments,
            numbers,
            costs,
        );
    }
}

// The k readings of the list: what is too short for the whole answer is refused before anything is written.
fn write_list(
    tokens: &[u32],
    sums: &[f32],
    finals: &[f32],
    records: &[u32],
    labels: &[i32],
    side: u32,
    used: u32,
    history_skips: &[u32],
    history_counts: &[u64],
    n: u32,
    counts: bool,
    nexts: &[u32],
    kept_hashes: &[u64],
    kept_links: &[u32],
    kept_sums: &[f32],
    list: &[u32],
    k: usize,
    max: usize,
    route: &mut [u32],
    words: &mut [i32],
    frames: &mut [u32],
    segments: &mut [u32],
    numbers: &mut [u64],
    costs: &mut [f32],
) -> Result<usize, Reason>
    requires { (ListAsks (view tokens.now sums.now finals.now records.now labels.now nexts.now kept_hashes.now kept_links.now kept_sums.now side used n counts) list.now k route.old) × (Skips records.now labels.now used used history_skips.now) × (Counts records.now labels.now used used history_counts.now) }
    ensures { ListWritten (view tokens.now sums.now finals.now records.now labels.now nexts.now kept_hashes.now kept_links.now kept_sums.now side used n counts) max list.now k (outputs words.old frames.old segments.old numbers.old costs.old) (outputs words.new frames.new segments.new numbers.new costs.new) result }
{
    let total = measure_all(
        tokens,
        sums,
        finals,
        records,
        labels,
        side,
        used,
        history_skips,
        history_counts,
        n,
        counts,
        nexts,
        kept_hashes,
        kept_links,
        kept_sums,
        list,
        k,
        max,
        route,
    );
    if too_short(
        total,
        k,
        words.len(),
        frames.len(),
        segments.len() / 3,
        numbers.len() / 5,
        costs.len() / 4,
    ) {
        return Err(Reason::TooShort);
    }
    write_all(
        tokens,
        sums,
        finals,
        records,
        labels,
        side,
        used,
        history_skips,
        history_counts,
        n,
        counts,
        nexts,
        kept_hashes,
        kept_links,
        kept_sums,
        list,
        k,
        max,
        route,
        words,
        frames,
        segments,
        numbers,
        costs,
    );
    Ok(k)
}

// The Rust's `readings`, the first `max` of them traced: how many were written. Refused as BadSetting, ListsFull or TooShort.
pub fn readings(
    tokens: &[u32],
    sums: &[f32],
    finals: &[f32],
    records: &[u32],
    labels: &[i32],
    gaps: &[f32],
    states: u32,
    side: u32,
    used: u32,
    n: u32,
    keeps: bool,
    margin: f32,
    use_final: bool,
    listed: usize,
    max: usize,
    keys: &mut [u64],
    places: &mut [u32],
    own: &mut [u32],
    heads: &mut [u32],
    list: &mut [u32],
    lists: &mut [u32],
    route: &mut [u32],
    history_keys: &mut [u64],
    history_skips: &mut [u32],
    entry_hashes: &mut [u64],
    entry_nexts: &mut [u32],
    entry_sums: &mut [f32],
    kept_hashes: &mut [u64],
    kept_links: &mut [u32],
    kept_sums: &mut [f32],
    order: &mut [u32],
    words: &mut [i32],
    frames: &mut [u32],
    segments: &mut [u32],
    numbers: &mut [u64],
    costs: &mut [f32],
) -> Result<usize, Reason>
    requires { (ListingAsks tokens.now sums.now finals.now records.now labels.now gaps.now states side used keeps margin (kept_places (length kept_hashes.old) (length kept_links.old) (length kept_sums.old)) (scratch (length keys.old) (length places.old) (length own.old) (length heads.old) (length list.old) (length lists.old) (length route.old) (length order.old))) × (used * 2 ≤ length history_keys.old) × (used * 2 ≤ length history_skips.old) }
    ensures { (ReadingsRight tokens.now sums.now finals.now records.now labels.now gaps.now states side used keeps margin n use_final listed max (entry_places (length entry_hashes.old) (length entry_nexts.old) (length entry_sums.old)) (kept_places (length kept_hashes.old) (length kept_links.old) (length kept_sums.old)) (outputs words.old frames.old segments.old numbers.old costs.old) (outputs words.new frames.new segments.new numbers.new costs.new) result) × (Used ScratchLeft ((64 < listed) ⊎ (64 < max)) (worked keys.old places.old own.old heads.old list.old lists.old route.old history_keys.old history_skips.old entry_hashes.old entry_nexts.old entry_sums.old kept_hashes.old kept_links.old kept_sums.old order.old) (worked keys.new places.new own.new heads.new list.new lists.new route.new history_keys.new history_skips.new entry_hashes.new entry_nexts.new entry_sums.new kept_hashes.new kept_links.new kept_sums.new order.new)) }
{
    if refusals::MAX_LISTED < listed {
        return Err(Reason::BadSetting);
    }
    if refusals::MAX_LISTED < max {
        return Err(Reason::BadSetting);
    }
    let counts = traceback::finals_count(tokens, finals, states, side, use_final);
    summaries::fill(records, labels, used, history_keys, history_skips);
    let k = listing::list_readings(
        tokens,
        sums,
        finals,
        records,
        labels,
        gaps,
        states,
        side,
        used,
        history_keys,
        history_skips,
        keeps,
        margin,
        counts,
        listed,
        keys,
        places,
        own,
        heads,
        list,
        lists,
        route,
        entry_hashes,
        entry_nexts,
        entry_sums,
        kept_hashes,
        kept_links,
        kept_sums,
        order,
    )?;
    // The keys are not needed any more.
    routes::fill_counts(records, labels, used, history_keys);
    write_list(
        tokens,
        sums,
        finals,
        records,
        labels,
        side,
        used,
        history_skips,
        history_keys,
        n,
        counts,
        entry_nexts,
        kept_hashes,
        kept_links,
        kept_sums,
        list,
        k,
        max,
        route,
        words,
        frames,
        segments,
        numbers,
        costs,
    )
}
