// The decoder's reads, each with the scratch that it works in.
ghost use Rattle.decoder.specs.Promises.{FinalsLeft, RelativeLeft};
ghost use Rattle.replay_payloads.specs.Lent.{LengthsWithin};
ghost use Rattle.replay_reads.specs.Reads.{PathsLeft, OutputHere, ListLeft};

use decoder::Decoder;
use refusals::Reason;
use replay_answers::{ACTIVE, BEST, FRAMES, RELATIVE};
use replay_payloads::Lengths;
use script::{Record, Word};
use traceback::BestPath;

// The reads of one number, which have no payload.
pub fn say_number(r: Record, tokens: &[u32], sums: &[f32], finals: &[f32], d: Decoder)
    requires { RelativeLeft tokens.now sums.now finals.now d }
{
    let kind = r.kind;
    if r.count != 0 {
        replay_answers::say_fault(kind);
        return;
    }
    if kind == RELATIVE {
        let cost = decoder_reads::final_relative_cost(tokens, sums, finals, d);
        replay_answers::say_word(kind, cost.to_word());
        return;
    }
    if kind == ACTIVE {
        replay_answers::say_word(kind, decoder_reads::num_active(tokens, d));
        return;
    }
    if kind == FRAMES {
        replay_answers::say_word(kind, decoder_reads::frames_decoded(d));
        return;
    }
    replay_answers::say_fault(kind);
}

pub fn answer_best(
    tokens: &[u32],
    sums: &[f32],
    records: &[u32],
    labels: &[i32],
    finals: &[f32],
    d: Decoder,
    use_final: bool,
    words: &mut [i32],
    frames: &mut [u32],
    segments: &mut [u32],
)
    requires { FinalsLeft tokens.now sums.now records.now labels.now finals.now d }
{
    let path = decoder_reads::best_path(
        tokens, sums, records, labels, finals, d, use_final, words, frames, segments,
    );
    say_best(path, words, frames, segments);
}

fn say_best(
    path: Result<Option<BestPath>, Reason>,
    words: &[i32],
    frames: &[u32],
    segments: &[u32],
) {
    match path {
        Err(reason) => replay_answers::say_refused(BEST, reason),
        Ok(None) => replay_answers::say_word(BEST, 0),
        Ok(Some(BestPath { size, cost })) => {
            replay_answers::say_best_path(cost, size.words, size.segments, words, frames, segments);
        }
    }
}

// Answers with the paths, unless they are refused.
pub fn list_paths(
    tokens: &[u32],
    sums: &[f32],
    records: &[u32],
    labels: &[i32],
    finals: &[f32],
    d: Decoder,
    use_final: bool,
    max: usize,
    words: &mut [i32],
    frames: &mut [u32],
    segments: &mut [u32],
    list: &mut [u32],
    costs: &mut [f32],
) -> Result<usize, Reason>
    requires { PathsLeft tokens.now sums.now records.now labels.now finals.now d }
{
    let mut keys: [u64; 8192] = script::places(0);
    let mut places: [u32; 4096] = script::places(0);
    let mut own: [u32; 4096] = script::places(0);
    let mut history_keys: [u64; 16384] = script::places(0);
    let mut history_skips: [u32; 16384] = script::places(0);
    let listed = decoder_reads::alternatives(
        tokens,
        sums,
        records,
        labels,
        finals,
        d,
        use_final,
        max,
        &mut keys,
        &mut places,
        &mut own,
        &mut history_keys,
        &mut history_skips,
        words,
        frames,
        segments,
        list,
        costs,
    );
    if let Ok(k) = listed {
        replay_answers::say_paths(k, words, frames, segments, list, costs);
    }
    listed
}

// The reading list in the output that is lent.
pub fn list_readings(
    tokens: &[u32],
    sums: &[f32],
    records: &[u32],
    labels: &[i32],
    gaps: &[f32],
    finals: &[f32],
    d: Decoder,
    use_final: bool,
    max: usize,
    traced: usize,
    s: Lengths,
    words: &mut [i32],
    frames: &mut [u32],
    segments: &mut [u32],
    numbers: &mut [u64],
    costs: &mut [f32],
) -> Result<usize, Reason>
    requires list_left { ListLeft tokens.now sums.now records.now labels.now gaps.now finals.now d }
    requires lengths_within { LengthsWithin s × OutputHere words.old frames.old segments.old numbers.old costs.old }
{
    let mut keys: [u64; 8192] = script::places(0);
    let mut places: [u32; 4096] = script::places(0);
    let mut own: [u32; 4096] = script::places(0);
    let mut heads: [u32; 4096] = script::places(0);
    let mut lists: [u32; 16384] = script::places(0);
    let mut route: [u32; 8192] = script::places(0);
    let mut history_keys: [u64; 16384] = script::places(0);
    let mut history_skips: [u32; 16384] = script::places(0);
    let mut hashes: [u64; 65536] = script::places(0);
    let mut nexts: [u32; 196608] = script::places(0);
    let mut gains: [f32; 131072] = script::places(0.0);
    let mut kept_hashes: [u64; 8192] = script::places(0);
    let mut kept_links: [u32; 32768] = script::places(0);
    let mut kept_sums: [f32; 16384] = script::places(0.0);
    let mut numbering: [u32; 8192] = script::places(0);
    let mut list: [u32; 12288] = script::places(0);
    decoder_readings::reading_list(
        tokens,
        sums,
        records,
        labels,
        gaps,
        finals,
        d,
        use_final,
        max,
        traced,
        &mut keys,
        &mut places,
        &mut own,
        &mut heads,
        &mut list,
        &mut lists,
        &mut route,
        &mut history_keys,
        &mut history_skips,
        &mut hashes[..s.below],
        &mut nexts,
        &mut gains,
        &mut kept_hashes[..s.kept],
        &mut kept_links,
        &mut kept_sums,
        &mut numbering,
        &mut words[..s.words],
        &mut frames[..s.frames],
        &mut segments[..3 * s.segments],
        &mut numbers[..5 * s.entries],
        &mut costs[..4 * s.entries],
    )
}
