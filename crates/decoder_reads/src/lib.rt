// The decoder's reads but the reading list: counts, the relative cost, the best path and the alternatives. Each hands the finished table on, and changes no decoder.
#![tactic(auto)]

ghost use Rattle.std.specs.Prelude.{◌≡◌, ◌/◌, [], ◌∷◌, length};
ghost use Rattle.traceback.specs.Right.{parts};
ghost use Rattle.readings.specs.Paths.{outputs};
ghost use Rattle.readings.specs.Right.{scratch};
ghost use Rattle.decoder.specs.Promises.{ActiveLeft, FinalsLeft, RelativeLeft, AlternativesLeft, ActiveIs, RelativeCostIs, BestPathIs, AlternativesIs};

use decoder::Decoder;
use refusals::Reason;
use traceback::BestPath;

// The frames since the latest start.
pub fn frames_decoded(d: Decoder) -> u32
    ensures { result ≡ d.frames }
{
    d.frames
}

// The active tokens of the finished table.
pub fn num_active(tokens: &[u32], decoder: Decoder) -> u32
    requires { ActiveLeft tokens.now decoder }
    ensures { ActiveIs tokens.now decoder result }
{
    traceback::num_active(tokens, decoder.graph.states, 1 - decoder.side)
}

// The least cost with its final weight, over the least cost; +∞ where no active state is final.
pub fn final_relative_cost(tokens: &[u32], sums: &[f32], finals: &[f32], decoder: Decoder) -> f32
    requires { RelativeLeft tokens.now sums.now finals.now decoder }
    ensures { RelativeCostIs tokens.now sums.now finals.now decoder result }
{
    traceback::final_relative_cost(tokens, sums, finals, decoder.graph.states, 1 - decoder.side)
}

// The best path into lent words, frames and segments, three numbers for each.
pub fn best_path(
    tokens: &[u32],
    sums: &[f32],
    records: &[u32],
    labels: &[i32],
    finals: &[f32],
    decoder: Decoder,
    use_final: bool,
    words: &mut [i32],
    frames: &mut [u32],
    segments: &mut [u32],
) -> Result<Option<BestPath>, Reason>
    requires { FinalsLeft tokens.now sums.now records.now labels.now finals.now decoder }
    ensures { BestPathIs tokens.now sums.now records.now labels.now finals.now decoder use_final (parts words.old frames.old segments.old) (parts words.new frames.new segments.new) result }
{
    traceback::best_path(
        tokens,
        sums,
        finals,
        records,
        labels,
        decoder.graph.states,
        1 - decoder.side,
        decoder.used,
        decoder.frames,
        use_final,
        words,
        frames,
        segments,
    )
}

// The best path of each word list, at most `max`, into lent words, frames, segments, two ends and a cost for each path.
pub fn alternatives(
    tokens: &[u32],
    sums: &[f32],
    records: &[u32],
    labels: &[i32],
    finals: &[f32],
    decoder: Decoder,
    use_final: bool,
    max: usize,
    keys: &mut [u64],
    places: &mut [u32],
    own: &mut [u32],
    history_keys: &mut [u64],
    history_skips: &mut [u32],
    words: &mut [i32],
    frames: &mut [u32],
    segments: &mut [u32],
    ends: &mut [u32],
    costs: &mut [f32],
) -> Result<usize, Reason>
    requires { AlternativesLeft tokens.now sums.now records.now labels.now finals.now (length keys.old ∷ length places.old ∷ length own.old ∷ []) (length history_keys.old / 2 ∷ length history_skips.old / 2 ∷ []) decoder }
    ensures { AlternativesIs tokens.now sums.now records.now labels.now finals.now decoder use_final max (scratch keys.old places.old own.old history_keys.old history_skips.old) (scratch keys.new places.new own.new history_keys.new history_skips.new) (outputs words.old frames.old segments.old ends.old costs.old) (outputs words.new frames.new segments.new ends.new costs.new) result }
{
    let finished = 1 - decoder.side;
    readings::alternatives(
        tokens,
        sums,
        finals,
        records,
        labels,
        decoder.graph.states,
        finished,
        decoder.used,
        decoder.frames,
        use_final,
        max,
        keys,
        places,
        own,
        history_keys,
        history_skips,
        words,
        frames,
        segments,
        ends,
        costs,
    )
}
