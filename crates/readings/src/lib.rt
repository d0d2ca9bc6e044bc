// Alternatives: the best path of each word list, written one after another.
#![tactic(auto)]

ghost use Rattle.std.specs.Prelude.{◌≡◌, ◌+◌, ◌*◌, ◌≤◌, ◌<◌, length, take};
ghost use Rattle.traceback.specs.Trail.{no_trail};
ghost use Rattle.traceback.specs.Chain.{Walkable, trail_from, SizeIs};
ghost use Rattle.summaries.specs.Summed.{Summed};
ghost use Rattle.stores.specs.Lent.{Used};
ghost use Rattle.readings.specs.Paths.{cost_in, trail_at, tolds_of, sizes, too_short, PathsAsk, FillAsks, TotalIs, PutAsks, PathPut, EntryAsks, EntryPut, WriteAsks, outputs};
ghost use Rattle.readings.specs.Right.{StatesListed, Filled, AlternativesAsk, AlternativesRight, scratch, ScratchLeft};

use refusals::Reason;
use traceback::Size;

// The cost of a state's token with its final weight, or with nothing where finals do not count.
fn end_cost(sums: &[f32], finals: &[f32], side: u32, s: u32, counts: bool) -> f32
    requires { (side ≤ 1) × (s * 4 + 4 ≤ length sums.now) × (s < length finals.now) }
    ensures { result ≡ cost_in sums.now finals.now side counts s }
{
    tokens::cost_at(sums, side, s) + traceback::end_weight(finals, s, counts)
}

// The size of the path of a state's token.
fn measure_at(
    tokens: &[u32],
    records: &[u32],
    labels: &[i32],
    side: u32,
    used: u32,
    n: u32,
    s: u32,
) -> Size
    requires { PathsAsk tokens.now records.now labels.now side used s }
    ensures { SizeIs (trail_at tokens.now records.now labels.now side n s) used result }
{
    let link = tokens::link_at(tokens, side, s);
    traceback::measure(records, labels, &records[..0], used, n, link)
}

// The size of the paths of the first k states together.
fn measure_all(
    tokens: &[u32],
    records: &[u32],
    labels: &[i32],
    side: u32,
    used: u32,
    n: u32,
    order: &[u32],
    k: usize,
) -> Size
    requires { FillAsks tokens.now records.now labels.now side used order.now k }
    ensures { TotalIs tokens.now records.now labels.now side used n order.now k result }
{
    let mut words = 0;
    let mut segments = 0;
    for i in 0..k {
        let z = measure_at(tokens, records, labels, side, used, n, order[i]);
        words += z.words;
        segments += z.segments;
    }
    Size { words, segments }
}

// Writes a path behind those of the size `at`: the size of all then.
fn write_path(
    records: &[u32],
    labels: &[i32],
    route: &[u32],
    used: u32,
    n: u32,
    link: u32,
    at: Size,
    words: &mut [i32],
    frames: &mut [u32],
    segments: &mut [u32],
) -> Size
    requires { (Walkable records.now labels.now used) × (link ≤ used) × (PutAsks (trail_from records.now labels.now route.now n link no_trail) at words.old frames.old segments.old) }
    ensures { PathPut (trail_from records.now labels.now route.now n link no_trail) at result words.old words.new frames.old frames.new segments.old segments.new }
{
    let z = traceback::measure(records, labels, route, used, n, link);
    let w = at.words as usize;
    let s = at.segments as usize * 3;
    traceback::write(
        records,
        labels,
        route,
        used,
        n,
        link,
        z,
        &mut words[w..],
        &mut frames[w..],
        &mut segments[s..],
    );
    Size {
        words: at.words + z.words,
        segments: at.segments + z.segments,
    }
}

// The i-th path: that of a state's token, where its words and segments end, and its cost.
fn write_entry(
    tokens: &[u32],
    sums: &[f32],
    finals: &[f32],
    records: &[u32],
    labels: &[i32],
    side: u32,
    used: u32,
    n: u32,
    counts: bool,
    s: u32,
    i: usize,
    at: Size,
    words: &mut [i32],
    frames: &mut [u32],
    segments: &mut [u32],
    ends: &mut [u32],
    costs: &mut [f32],
) -> Size
    requires { EntryAsks tokens.now sums.now finals.now records.now labels.now side used n s i at (outputs words.old frames.old segments.old ends.old costs.old) }
    ensures { EntryPut (trail_at tokens.now records.now labels.now side n s) (cost_in sums.now finals.now side counts s) i at result (outputs words.old frames.old segments.old ends.old costs.old) (outputs words.new frames.new segments.new ends.new costs.new) }
{
    let link = tokens::link_at(tokens, side, s);
    let to = write_path(
        records,
        labels,
        &records[..0],
        used,
        n,
        link,
        at,
        words,
        frames,
        segments,
    );
    ends[2 * i] = to.words;
    ends[2 * i + 1] = to.segments;
    costs[i] = end_cost(sums, finals, side, s, counts);
    to
}

// The paths of the first k states, one after another.
fn write_all(
    tokens: &[u32],
    sums: &[f32],
    finals: &[f32],
    records: &[u32],
    labels: &[i32],
    side: u32,
    used: u32,
    n: u32,
    counts: bool,
    order: &[u32],
    k: usize,
    words: &mut [i32],
    frames: &mut [u32],
    segments: &mut [u32],
    ends: &mut [u32],
    costs: &mut [f32],
)
    requires { WriteAsks tokens.now sums.now finals.now records.now labels.now side used n counts order.now k (outputs words.old frames.old segments.old ends.old costs.old) }
    ensures { Filled (tolds_of tokens.now records.now labels.now side n (cost_in sums.now finals.now side counts) (take k order.now)) (outputs words.old frames.old segments.old ends.old costs.old) (outputs words.new frames.new segments.new ends.new costs.new) }
{
    let mut at = Size {
        words: 0,
        segments: 0,
    };
    for i in 0..k {
        at = write_entry(
            tokens, sums, finals, records, labels, side, used, n, counts, order[i], i, at, words,
            frames, segments, ends, costs,
        );
    }
}

// Whether slices with so many places are too short for k paths of this size.
fn too_short(
    total: Size,
    k: usize,
    words: usize,
    frames: usize,
    segments: usize,
    entries: usize,
) -> bool
    ensures { result ≡ too_short total k (sizes words frames segments entries) }
{
    if words < total.words as usize {
        return true;
    }
    if frames < total.words as usize {
        return true;
    }
    if segments < total.segments as usize {
        return true;
    }
    entries < k
}

// The states of the best tokens of the first `max` word lists, best first: how many there are.
fn list_states(
    tokens: &[u32],
    sums: &[f32],
    finals: &[f32],
    records: &[u32],
    labels: &[i32],
    states: u32,
    side: u32,
    used: u32,
    history_keys: &[u64],
    history_skips: &[u32],
    counts: bool,
    max: usize,
    keys: &mut [u64],
    places: &mut [u32],
    order: &mut [u32],
) -> usize
    requires { (AlternativesAsk tokens.now sums.now finals.now records.now labels.now states side used keys.old places.old order.old) × (Summed records.now labels.now used history_keys.now history_skips.now) }
    ensures { StatesListed tokens.now sums.now finals.now records.now labels.now states side used counts max order.new result }
{
    let all = ranking::ranked(tokens, sums, finals, states, side, counts, keys, order);
    let m = groups::firsts(
        tokens,
        records,
        labels,
        side,
        used,
        history_keys,
        history_skips,
        false,
        order,
        all,
        keys,
        places,
    );
    max.min(m)
}

// The Rust's `alternatives`: words, their frames, three numbers for each segment, two ends and a cost for each path. What is too short for the whole answer is refused (11)
// before anything is written, more than 64 paths by 6. Gives how many paths were written.
pub fn alternatives(
    tokens: &[u32],
    sums: &[f32],
    finals: &[f32],
    records: &[u32],
    labels: &[i32],
    states: u32,
    side: u32,
    used: u32,
    n: u32,
    use_final: bool,
    max: usize,
    keys: &mut [u64],
    places: &mut [u32],
    order: &mut [u32],
    history_keys: &mut [u64],
    history_skips: &mut [u32],
    words: &mut [i32],
    frames: &mut [u32],
    segments: &mut [u32],
    ends: &mut [u32],
    costs: &mut [f32],
) -> Result<usize, Reason>
    requires { (AlternativesAsk tokens.now sums.now finals.now records.now labels.now states side used keys.old places.old order.old) × (used * 2 ≤ length history_keys.old) × (used * 2 ≤ length history_skips.old) }
    ensures { (AlternativesRight tokens.now sums.now finals.now records.now labels.now states side used n use_final max (outputs words.old frames.old segments.old ends.old costs.old) (outputs words.new frames.new segments.new ends.new costs.new) result) × (Used ScratchLeft (64 < max) (scratch keys.old places.old order.old history_keys.old history_skips.old) (scratch keys.new places.new order.new history_keys.new history_skips.new)) }
{
    if refusals::MAX_LISTED < max {
        return Err(Reason::BadSetting);
    }
    let counts = traceback::finals_count(tokens, finals, states, side, use_final);
    summaries::fill(records, labels, used, history_keys, history_skips);
    let k = list_states(
        tokens,
        sums,
        finals,
        records,
        labels,
        states,
        side,
        used,
        history_keys,
        history_skips,
        counts,
        max,
        keys,
        places,
        order,
    );
    let total = measure_all(tokens, records, labels, side, used, n, order, k);
    if too_short(
        total,
        k,
        words.len(),
        frames.len(),
        segments.len() / 3,
        (ends.len() / 2).min(costs.len()),
    ) {
        return Err(Reason::TooShort);
    }
    write_all(
        tokens, sums, finals, records, labels, side, used, n, counts, order, k, words, frames,
        segments, ends, costs,
    );
    Ok(k)
}
