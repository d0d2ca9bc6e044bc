// The small checks of a fitting, a frame and a keep margin.
#![tactic(auto)]

ghost use Rattle.std.specs.Prelude.{◌≡◌, not, ◌||◌, ◌/◌, [], ◌∷◌};
ghost use Rattle.lists.specs.Lists.{all};
ghost use Rattle.real32.specs.Small.{tame};
ghost use Rattle.model.specs.Passes.{fair, fair_margin};
ghost use Rattle.checks.specs.Fit.{least_of, record_places, config_wrong, stores_wrong};
ghost use Rattle.checks.specs.Frame.{frame_number, told};
ghost use Rattle.checks.specs.Margin.{asked};

use cutoff::Config;
use refusals::Reason;

// Not negative, finite and below 2^100.
fn is_fair(x: f32) -> bool
    ensures { result ≡ fair x }
{
    0.0 <= x && real32::is_tame(x)
}

// Of the settings: a beam that is not fair, or no more active states at most than at least.
fn config_wrong(config: Config) -> bool
    ensures { result ≡ config_wrong config }
{
    if !is_fair(config.beam) {
        return true;
    }
    if !is_fair(config.beam_delta) {
        return true;
    }
    config.max_active <= config.min_active
}

// The lengths of the slices that are lent to a fitting.
#[derive(Clone, Copy)]
pub struct Lengths {
    // kept per state
    pub tokens: usize,
    pub sums: usize,
    pub eps: usize,
    pub scratch: usize,
    pub keys: usize,
    pub places: usize,
    pub own: usize,
    pub heads: usize,
    pub list: usize,
    // the record store
    pub records: usize,
    pub labels: usize,
    pub gaps: usize,
    // kept per record
    pub lists: usize,
    pub route: usize,
    pub history_keys: usize,
    pub history_skips: usize,
    // the store for kept readings
    pub kept_hashes: usize,
    pub kept_links: usize,
    pub kept_sums: usize,
    // kept per kept reading, as `keys` is, and `list` behind a place for every state
    pub order: usize,
}

// The places of the record store.
pub fn record_places(l: Lengths) -> usize
    ensures { result ≡ record_places l }
{
    (l.records / 8).min(l.labels / 2).min(l.gaps / 2)
}

// The fewest places of a slice kept per state.
fn fewest_per_state(l: Lengths) -> usize
    ensures { result ≡ least_of (l.tokens / 8) (l.sums / 4 ∷ l.eps ∷ l.scratch ∷ l.keys ∷ l.places ∷ l.own ∷ l.heads ∷ l.list ∷ []) }
{
    (l.tokens / 8)
        .min(l.sums / 4)
        .min(l.eps)
        .min(l.scratch)
        .min(l.keys)
        .min(l.places)
        .min(l.own)
        .min(l.heads)
        .min(l.list)
}

// The fewest places of a slice kept per record.
fn fewest_per_record(l: Lengths) -> usize
    ensures { result ≡ least_of (l.lists / 2) (l.route ∷ l.history_keys / 2 ∷ l.history_skips / 2 ∷ []) }
{
    (l.lists / 2)
        .min(l.route)
        .min(l.history_keys / 2)
        .min(l.history_skips / 2)
}

// Of the stores: a slice kept per state, per record or per kept reading with fewer places than these, or too many records.
fn stores_wrong(l: Lengths, states: usize) -> bool
    ensures { result ≡ stores_wrong states l }
{
    if fewest_per_state(l) < states {
        return true;
    }
    let records = record_places(l);
    if refusals::MAX_RECORDS < records {
        return true;
    }
    if fewest_per_record(l) < records {
        return true;
    }
    let kept = places::kept_places(l.kept_hashes, l.kept_links, l.kept_sums);
    l.keys.min(l.order).min(l.list - states) < kept
}

// Of a fitting: its settings or its stores.
pub fn fit_wrong(config: Config, l: Lengths, states: usize) -> bool
    ensures { result ≡ (config_wrong config || stores_wrong states l) }
{
    if config_wrong(config) {
        return true;
    }
    stores_wrong(l, states)
}

// Whether each log-likelihood is finite and of magnitude below 2^100.
fn all_tame(loglikes: &[f32]) -> bool
    ensures { result ≡ all tame loglikes.now }
{
    loglikes.iter().all(|&x| real32::is_tame(x))
}

// A frame after the last, then one of another length, then one that is not tame.
pub fn check_frame(loglikes: &[f32], frames: u32, pdfs: u32) -> Result<(), Reason>
    ensures { told result ≡ frame_number loglikes.now frames pdfs }
{
    if refusals::MAX_FRAMES <= frames {
        return Err(Reason::TooManyFrames);
    }
    if loglikes.len() != pdfs as usize {
        return Err(Reason::BadFrameLength);
    }
    if !all_tame(loglikes) {
        return Err(Reason::BadLoglike);
    }
    Ok(())
}

// A margin that is negative, not finite, or 2^100 or more.
pub fn margin_wrong(keeps: bool, margin: f32) -> bool
    ensures { result ≡ not (fair_margin (asked keeps margin)) }
{
    if !keeps {
        return false;
    }
    !is_fair(margin)
}
