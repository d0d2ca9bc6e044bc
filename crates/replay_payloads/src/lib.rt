// What the payloads of a script's calls ask for, and how much of that the program `replay` lends. A number that is left off at a record's end asks for no limit.
#![tactic(auto)]

ghost use Rattle.std.specs.Prelude.{◌≡◌, ◌≤◌, ◌<◌, ◌^◌, min};
ghost use Rattle.script.specs.Words.{word_count};
ghost use Rattle.replay_payloads.specs.Payloads.{Inside, asked_for, shaped_as, config_at};
ghost use Rattle.replay_payloads.specs.Lent.{LoanIs, was_cut, LengthsAre, list_fits, all_entries, all_output};

use cutoff::Config;
use refusals::Reason;
use script::{Record, Word};

// A store of more records is refused.
pub const MOST_RECORDS: usize = 1_048_576;

// The greatest number of a script.
pub const NO_LIMIT: usize = u32::MAX as usize;

// The i-th number of a payload, or another where it is left off.
#[tactic(auto, unfolding(crate::specs::Payloads::asked_for))]
pub fn asked(bytes: &[u8], r: Record, i: usize, otherwise: usize) -> usize
    requires { Inside bytes.now r }
    ensures { result ≡ asked_for bytes.now r i otherwise }
{
    if i < r.count {
        return script::word_at(bytes, r.start + i) as usize;
    }
    otherwise
}

// Whether a read's payload has so many words, of which the first says whether finals are used.
#[tactic(auto, unfolding(crate::specs::Payloads::shaped_as))]
pub fn shaped(bytes: &[u8], r: Record, fewest: usize, most: usize) -> bool
    ensures { result ≡ shaped_as bytes.now r fewest most }
{
    fewest <= r.count && r.count <= most && script::word_at(bytes, r.start) < 2
}

// ---- a fit

// The settings that stand from a place on.
pub fn config_of(bytes: &[u8], start: usize) -> Config
    requires { start ≤ word_count bytes.now }
    ensures { result ≡ config_at bytes.now start }
{
    Config {
        beam: f32::from_word(script::word_at(bytes, start)),
        max_active: script::word_at(bytes, start + 1),
        min_active: script::word_at(bytes, start + 2),
        beam_delta: f32::from_word(script::word_at(bytes, start + 3)),
    }
}

// How much of the stores is lent, and whether that is all that the script asks for.
#[derive(Clone, Copy)]
pub struct Loan {
    pub places: usize,
    pub records: usize,
    pub queue: usize,
    pub all_records: bool,
    pub all_queue: bool,
    // what is asked of entries below joins and of kept readings
    pub below: usize,
    pub kept: usize,
}

pub fn loan_of(bytes: &[u8], r: Record) -> Loan
    requires { Inside bytes.now r }
    ensures { LoanIs bytes.now r result }
{
    let places = asked(bytes, r, 4, NO_LIMIT);
    let records = asked(bytes, r, 5, MOST_RECORDS);
    let queue = asked(bytes, r, 6, NO_LIMIT);
    Loan {
        places: places.min(4096),
        records: records.min(8192),
        queue: queue.min(16384),
        all_records: records <= 8192,
        all_queue: queue <= 16384,
        below: asked(bytes, r, 7, NO_LIMIT),
        kept: asked(bytes, r, 8, NO_LIMIT),
    }
}

// Whether a store that is shorter than asked for was full.
#[tactic(auto, unfolding(crate::specs::Lent::was_cut))]
pub fn was_cut(loan: Loan, number: u32) -> bool
    ensures { result ≡ was_cut loan number }
{
    if number == Reason::RecordsFull.number() {
        return !loan.all_records;
    }
    if number == Reason::QueueFull.number() {
        return !loan.all_queue;
    }
    false
}

// ---- alternatives

// Whether the output is as long as asked for, or as long as so many paths of one word and one segment for each record can be.
#[tactic(auto, unfolding(crate::specs::Lent::list_fits))]
pub fn list_fits(bytes: &[u8], r: Record, used: usize) -> bool
    requires { Inside bytes.now r × (used < 2 ^ 32) }
    ensures { result ≡ list_fits bytes.now r used }
{
    let max = (script::word_at(bytes, r.start + 1) as usize).min(64);
    max * used <= 16384
        || (asked(bytes, r, 3, NO_LIMIT) <= 16384
            && asked(bytes, r, 4, NO_LIMIT) <= 16384
            && asked(bytes, r, 5, NO_LIMIT) <= 16384)
}

// ---- readings

// How much of the stores and of the output is lent.
#[derive(Clone, Copy)]
pub struct Lengths {
    pub below: usize,
    pub kept: usize,
    pub entries: usize,
    pub words: usize,
    pub frames: usize,
    pub segments: usize,
}

pub fn lengths_of(bytes: &[u8], r: Record, loan: Loan) -> Lengths
    requires { Inside bytes.now r }
    ensures { LengthsAre bytes.now r loan result }
{
    Lengths {
        below: loan.below.min(65536),
        kept: loan.kept.min(8192),
        entries: asked(bytes, r, 3, NO_LIMIT).min(4096),
        words: asked(bytes, r, 4, NO_LIMIT).min(65536),
        frames: asked(bytes, r, 5, NO_LIMIT).min(16384),
        segments: asked(bytes, r, 6, NO_LIMIT).min(16384),
    }
}

// Whether the stores are as long as asked for.
#[tactic(auto, unfolding(crate::specs::Lent::all_entries))]
pub fn all_entries(loan: Loan) -> bool
    ensures { result ≡ all_entries loan }
{
    loan.below <= 65536 && loan.kept <= 8192
}

// Whether the output is.
#[tactic(auto, unfolding(crate::specs::Lent::all_output))]
pub fn all_output(bytes: &[u8], r: Record) -> bool
    requires { Inside bytes.now r }
    ensures { result ≡ all_output bytes.now r }
{
    asked(bytes, r, 3, NO_LIMIT) <= 4096
        && asked(bytes, r, 4, NO_LIMIT) <= 65536
        && asked(bytes, r, 5, NO_LIMIT) <= 16384
        && asked(bytes, r, 6, NO_LIMIT) <= 16384
}
