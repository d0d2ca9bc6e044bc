// Of the tokens that read the same, the first. States are given in the order that counts; what is left is theirs, closed up, in the same order.
#![tactic(auto)]

ghost use Rattle.std.specs.Prelude.{◌≡◌, ◌≤◌, ◌<◌, cond, length, set};
ghost use Rattle.summaries.specs.Summed.{Keys, Skips};
ghost use Rattle.groups.specs.Firsts.{StatesAsk, KeysFilled, RepeatsAsk, RepeatsIs, DropsAsk, dropped, Dropped, KeptAt, ClosedUp, FirstsIs};

use fst::NO_STATE;

// The key of each token's reading, and its place.
pub fn fill_keys(
    tokens: &[u32],
    records: &[u32],
    labels: &[i32],
    side: u32,
    used: u32,
    history_keys: &[u64],
    to_join: bool,
    order: &[u32],
    n: usize,
    keys: &mut [u64],
    places: &mut [u32],
)
    requires { (StatesAsk tokens.now records.now labels.now side used order.now n) × (n ≤ length keys.old) × (n ≤ length places.old) × (Keys records.now labels.now used used history_keys.now) }
    ensures { KeysFilled tokens.now records.now labels.now side used to_join order.now n keys.new places.new }
{
    for i in 0..n {
        let link = tokens::link_at(tokens, side, order[i]);
        keys[i] = summaries::key_at(history_keys, link, to_join);
        places[i] = i as u32;
    }
}

// Whether a token of an earlier place reads the same as the j-th of the sorted ones. Those of its key stand next to it.
fn repeats(
    tokens: &[u32],
    records: &[u32],
    labels: &[i32],
    side: u32,
    used: u32,
    history_skips: &[u32],
    to_join: bool,
    order: &[u32],
    keys: &[u64],
    places: &[u32],
    j: usize,
) -> bool
    requires { (RepeatsAsk tokens.now records.now labels.now side used order.now keys.now places.now j) × (Skips records.now labels.now used used history_skips.now) }
    ensures { RepeatsIs tokens.now records.now labels.now side used to_join order.now keys.now places.now j result }
{
    let link = tokens::link_at(tokens, side, order[places[j] as usize]);
    for i in (0..j).rev() {
        if keys[i] != keys[j] {
            return false;
        }
        let other = tokens::link_at(tokens, side, order[places[i] as usize]);
        if summaries::same_at(records, labels, used, history_skips, link, other, to_join) {
            return true;
        }
    }
    false
}

// The list is lent over the C interface as numbers, so that a dropped state is marked by a number of no state.
fn drop_at(order: &mut [u32], place: u32, again: bool)
    requires { place < length order.old }
    ensures { order.new ≡ cond again (set order.old place dropped) order.old }
{
    if again {
        order[place as usize] = NO_STATE;
    }
}

// From the last to the first, so that those that are compared with still stand.
fn drop_repeats(
    tokens: &[u32],
    records: &[u32],
    labels: &[i32],
    side: u32,
    used: u32,
    history_skips: &[u32],
    to_join: bool,
    order: &mut [u32],
    n: usize,
    keys: &[u64],
    places: &[u32],
)
    requires { (DropsAsk tokens.now records.now labels.now side used order.old n keys.now places.now) × (Skips records.now labels.now used used history_skips.now) }
    ensures { Dropped tokens.now records.now labels.now side used to_join order.old order.new n keys.now places.now }
{
    for j in (0..n).rev() {
        let again = repeats(
            tokens,
            records,
            labels,
            side,
            used,
            history_skips,
            to_join,
            order,
            keys,
            places,
            j,
        );
        drop_at(order, places[j], again);
    }
}

// Puts a state behind the first m, unless it was dropped: how many there are then.
fn keep_at(order: &mut [u32], m: usize, s: u32) -> usize
    requires { m < length order.old }
    ensures { KeptAt order.old order.new m s result }
{
    if s == NO_STATE {
        return m;
    }
    order[m] = s;
    m + 1
}

// Moves what was not dropped to the front: how many there are.
pub fn close_up(order: &mut [u32], n: usize) -> usize
    requires { n ≤ length order.old }
    ensures { ClosedUp order.old order.new n result }
{
    let mut m: usize = 0;
    for i in 0..n {
        let s = order[i];
        m = keep_at(order, m, s);
    }
    m
}

// Of the first n states, those whose token reads otherwise than any before it: how many there are.
pub fn firsts(
    tokens: &[u32],
    records: &[u32],
    labels: &[i32],
    side: u32,
    used: u32,
    history_keys: &[u64],
    history_skips: &[u32],
    to_join: bool,
    order: &mut [u32],
    n: usize,
    keys: &mut [u64],
    places: &mut [u32],
) -> usize
    requires { (StatesAsk tokens.now records.now labels.now side used order.old n) × (n ≤ length keys.old) × (n ≤ length places.old) × (Keys records.now labels.now used used history_keys.now) × (Skips records.now labels.now used used history_skips.now) }
    ensures { FirstsIs tokens.now records.now labels.now side used to_join order.old order.new n result }
{
    fill_keys(
        tokens,
        records,
        labels,
        side,
        used,
        history_keys,
        to_join,
        order,
        n,
        keys,
        places,
    );
    sorting::sort(keys, places, n);
    drop_repeats(
        tokens,
        records,
        labels,
        side,
        used,
        history_skips,
        to_join,
        order,
        n,
        keys,
        places,
    );
    close_up(order, n)
}
