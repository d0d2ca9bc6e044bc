// The entry points for C: each is a call of `decoder`, `decoder_reads`, `decoder_readings`, `fst`, `silence_weighting`, `reading_search`, `shuffle` or `courses`, with the contract of
// that call, and its answer told by a struct or a number of `c_answers`. `python3 tools/declare.py` writes what C and Rust see of this file, comments included, into
// `include/hirqazhom.h` and `rust/src/ffi.rs`.
#![tactic(auto)]

ghost use Rattle.std.specs.Prelude.{◌≡◌, ◌-◌, ◌/◌, [], ◌∷◌, length};
ghost use Rattle.model.specs.Search.{first_reading};
ghost use Rattle.stores.specs.Rep.{lent};
ghost use Rattle.nonemitting.specs.Expand.{graph_tables};
ghost use Rattle.traceback.specs.Right.{parts};
ghost use Rattle.readings.specs.Paths.{outputs};
ghost use Rattle.readings.specs.Right.{scratch};
ghost use Rattle.places.specs.Places.{entry_places, kept_places};
ghost use Rattle.reading_list.specs.Outputs.{outputs as listOutputs};
ghost use Rattle.reading_list.specs.Scratch.{scratch as listScratch};
ghost use Rattle.fst.specs.Answer.{graph_of, build_of};
ghost use Rattle.silence_weighting.specs.Answers.{NewRight, ActiveRight, TracebackRight, DeltasRight, TrailingRight};
ghost use Rattle.reading_search.specs.Found.{found_of, listing};
ghost use Rattle.shuffle.specs.Block.{shuffled, unshuffled, Rearranged};
ghost use Rattle.courses.specs.Course.{course_at};
ghost use Rattle.refusal_lines.specs.Answer.{WrittenLine, ReadLine};
ghost use Rattle.decoder.specs.Represents.{Left};
ghost use Rattle.decoder.specs.Promises.{StartIs, FrameIs, keep_of, FitIs, FrameLeft, ActiveLeft, FinalsLeft, RelativeLeft, AlternativesLeft, ReadingsLeft, ActiveIs, RelativeCostIs, BestPathIs, AlternativesIs, ReadingsIs};
ghost use Rattle.decoder.specs.Fit.{lengths_of};
ghost use Rattle.c_answers.specs.Forms.{FormOf, answer_of, fitted_answer, built_verdict, path_of, told_count, silence_of, weighed_of, found_index, shuffled_number, course_numbers, refusal_told, line_verdict};

use c_answers::{Answer, Count, CourseAt, Fitting, Index, Path, Silence, Verdict, shuffled_number};
use cutoff::Config;
use decoder::Decoder;
use refusals::Refusal;
use silence_weighting::SilenceWeighting;

// ---- the graph and the decoder

// Whether a graph is accepted: refused by 1 to 5, with the arc or the state.
#[unsafe(no_mangle)]
pub extern "C" fn hirqazhom_build(
    offsets: &[u32],
    ilabels: &[i32],
    olabels: &[i32],
    weights: &[f32],
    nextstates: &[u32],
    finals: &[f32],
    tid2pdf: &[i32],
    tid2phone: &[i32],
    start: u32,
    pdfs: u32,
) -> Verdict
    ensures { result ≡ built_verdict (build_of (graph_of offsets.now ilabels.now olabels.now weights.now nextstates.now finals.now tid2pdf.now tid2phone.now start pdfs)) }
{
    Verdict::from(fst::build(
        offsets, ilabels, olabels, weights, nextstates, finals, tid2pdf, tid2phone, start, pdfs,
    ))
}

// A new decoder over the lent stores, without margin, after its start. Slices that are only read and are no part of the graph are lent for their lengths.
// Refused by 1 to 6: no decoder, and nothing is changed. By 13 or 14: a decoder without tokens.
#[unsafe(no_mangle)]
pub extern "C" fn hirqazhom_fit(
    tokens: &mut [u32],
    sums: &mut [f32],
    records: &mut [u32],
    labels: &mut [i32],
    gaps: &mut [f32],
    queue: &mut [u32],
    scratch: &[f32],
    keys: &[u64],
    places: &[u32],
    own: &[u32],
    heads: &[u32],
    list: &[u32],
    lists: &[u32],
    route: &[u32],
    history_keys: &[u64],
    history_skips: &[u32],
    kept_hashes: &[u64],
    kept_links: &[u32],
    kept_sums: &[f32],
    order: &[u32],
    eps: &mut [u8],
    offsets: &[u32],
    ilabels: &[i32],
    olabels: &[i32],
    weights: &[f32],
    nextstates: &[u32],
    finals: &[f32],
    tid2pdf: &[i32],
    tid2phone: &[i32],
    start: u32,
    pdfs: u32,
    config: Config,
) -> Fitting
    ensures { FormOf (FitIs (graph_of offsets.now ilabels.now olabels.now weights.now nextstates.now finals.now tid2pdf.now tid2phone.now start pdfs) (graph_tables offsets.now ilabels.now olabels.now weights.now nextstates.now tid2pdf.now tid2phone.now) (lent tokens.old sums.old records.old labels.old gaps.old) (lent tokens.new sums.new records.new labels.new gaps.new) (lengths_of (lent tokens.old sums.old records.old labels.old gaps.old) eps.old scratch.now keys.now places.now own.now heads.now list.now lists.now route.now history_keys.now history_skips.now kept_hashes.now kept_links.now kept_sums.now order.now) queue.old queue.new eps.old eps.new config) fitted_answer result }
{
    Fitting::from(decoder::fit(
        tokens,
        sums,
        records,
        labels,
        gaps,
        queue,
        scratch,
        keys,
        places,
        own,
        heads,
        list,
        lists,
        route,
        history_keys,
        history_skips,
        kept_hashes,
        kept_links,
        kept_sums,
        order,
        eps,
        offsets,
        ilabels,
        olabels,
        weights,
        nextstates,
        finals,
        tid2pdf,
        tid2phone,
        start,
        pdfs,
        config,
    ))
}

// Drops all tokens and records: zero frames, and the same margin. Refused by 13 or 14: so too, but without a token.
#[unsafe(no_mangle)]
pub extern "C" fn hirqazhom_start(
    tokens: &mut [u32],
    sums: &mut [f32],
    records: &mut [u32],
    labels: &mut [i32],
    gaps: &mut [f32],
    queue: &mut [u32],
    eps: &[u8],
    offsets: &[u32],
    ilabels: &[i32],
    olabels: &[i32],
    weights: &[f32],
    nextstates: &[u32],
    tid2pdf: &[i32],
    tid2phone: &[i32],
    decoder: Decoder,
) -> Answer
    requires { Left (graph_tables offsets.now ilabels.now olabels.now weights.now nextstates.now tid2pdf.now tid2phone.now) (lent tokens.old sums.old records.old labels.old gaps.old) eps.now (length queue.old) decoder }
    ensures { FormOf (StartIs (graph_tables offsets.now ilabels.now olabels.now weights.now nextstates.now tid2pdf.now tid2phone.now) (lent tokens.old sums.old records.old labels.old gaps.old) (lent tokens.new sums.new records.new labels.new gaps.new) queue.old queue.new eps.now decoder) answer_of result }
{
    Answer::from(decoder::start(
        tokens, sums, records, labels, gaps, queue, eps, offsets, ilabels, olabels, weights,
        nextstates, tid2pdf, tid2phone, decoder,
    ))
}

// One frame, with a log-likelihood for each pdf. Refused by 8 to 10: nothing is changed. By 12 to 14: no later answer is.
#[unsafe(no_mangle)]
pub extern "C" fn hirqazhom_frame(
    tokens: &mut [u32],
    sums: &mut [f32],
    records: &mut [u32],
    labels: &mut [i32],
    gaps: &mut [f32],
    queue: &mut [u32],
    scratch: &mut [f32],
    eps: &[u8],
    offsets: &[u32],
    ilabels: &[i32],
    olabels: &[i32],
    weights: &[f32],
    nextstates: &[u32],
    tid2pdf: &[i32],
    tid2phone: &[i32],
    loglikes: &[f32],
    decoder: Decoder,
) -> Answer
    requires { FrameLeft (graph_tables offsets.now ilabels.now olabels.now weights.now nextstates.now tid2pdf.now tid2phone.now) (lent tokens.old sums.old records.old labels.old gaps.old) eps.now (length queue.old) (length scratch.old) decoder }
    ensures { FormOf (FrameIs (graph_tables offsets.now ilabels.now olabels.now weights.now nextstates.now tid2pdf.now tid2phone.now) (lent tokens.old sums.old records.old labels.old gaps.old) (lent tokens.new sums.new records.new labels.new gaps.new) queue.old queue.new scratch.old scratch.new eps.now loglikes.now decoder) answer_of result }
{
    Answer::from(decoder::frame(
        tokens, sums, records, labels, gaps, queue, scratch, eps, offsets, ilabels, olabels,
        weights, nextstates, tid2pdf, tid2phone, loglikes, decoder,
    ))
}

// The keep margin, or none. Refused by 6: the same decoder.
#[unsafe(no_mangle)]
pub extern "C" fn hirqazhom_set_keep(decoder: Decoder, keeps: bool, margin: f32) -> Answer
    ensures { result ≡ answer_of (keep_of decoder keeps margin) }
{
    Answer::from(decoder::set_keep(decoder, keeps, margin))
}

// Frames since the start.
#[unsafe(no_mangle)]
pub extern "C" fn hirqazhom_frames_decoded(decoder: Decoder) -> u32
    ensures { result ≡ decoder.frames }
{
    decoder_reads::frames_decoded(decoder)
}

// How many tokens are active.
#[unsafe(no_mangle)]
pub extern "C" fn hirqazhom_num_active(tokens: &[u32], decoder: Decoder) -> u32
    requires { ActiveLeft tokens.now decoder }
    ensures { ActiveIs tokens.now decoder result }
{
    decoder_reads::num_active(tokens, decoder)
}

// The least sum of cost and final weight, less the least cost; infinite where no active state is final.
#[unsafe(no_mangle)]
pub extern "C" fn hirqazhom_final_relative_cost(
    tokens: &[u32],
    sums: &[f32],
    finals: &[f32],
    decoder: Decoder,
) -> f32
    requires { RelativeLeft tokens.now sums.now finals.now decoder }
    ensures { RelativeCostIs tokens.now sums.now finals.now decoder result }
{
    decoder_reads::final_relative_cost(tokens, sums, finals, decoder)
}

// The best path: words, a frame for each, and segments of three numbers: phone, start, end. Refused by 11: nothing is written.
#[unsafe(no_mangle)]
pub extern "C" fn hirqazhom_best_path(
    tokens: &[u32],
    sums: &[f32],
    records: &[u32],
    labels: &[i32],
    finals: &[f32],
    decoder: Decoder,
    use_final: bool,
    words: &mut [i32],
    frames: &mut [u32],
    segments: &mut [u32],
) -> Path
    requires { FinalsLeft tokens.now sums.now records.now labels.now finals.now decoder }
    ensures { FormOf (BestPathIs tokens.now sums.now records.now labels.now finals.now decoder use_final (parts words.old frames.old segments.old) (parts words.new frames.new segments.new)) path_of result }
{
    Path::from(decoder_reads::best_path(
        tokens, sums, records, labels, finals, decoder, use_final, words, frames, segments,
    ))
}

// The best path of each word list, best first, at most `max`. The words of path i end before `ends[2i]`, its segments before `ends[2i + 1]`; it costs `costs[i]`.
// Refused by 6: nothing is written. By 11: nothing but scratch.
#[unsafe(no_mangle)]
pub extern "C" fn hirqazhom_alternatives(
    tokens: &[u32],
    sums: &[f32],
    records: &[u32],
    labels: &[i32],
    finals: &[f32],
    decoder: Decoder,
    use_final: bool,
    max: usize,
    keys: &mut [u64],
    places: &mut [u32],
    own: &mut [u32],
    history_keys: &mut [u64],
    history_skips: &mut [u32],
    words: &mut [i32],
    frames: &mut [u32],
    segments: &mut [u32],
    ends: &mut [u32],
    costs: &mut [f32],
) -> Count
    requires { AlternativesLeft tokens.now sums.now records.now labels.now finals.now (length keys.old ∷ length places.old ∷ length own.old ∷ []) (length history_keys.old / 2 ∷ length history_skips.old / 2 ∷ []) decoder }
    ensures { FormOf (AlternativesIs tokens.now sums.now records.now labels.now finals.now decoder use_final max (scratch keys.old places.old own.old history_keys.old history_skips.old) (scratch keys.new places.new own.new history_keys.new history_skips.new) (outputs words.old frames.old segments.old ends.old costs.old) (outputs words.new frames.new segments.new ends.new costs.new)) told_count result }
{
    Count::from(decoder_reads::alternatives(
        tokens,
        sums,
        records,
        labels,
        finals,
        decoder,
        use_final,
        max,
        keys,
        places,
        own,
        history_keys,
        history_skips,
        words,
        frames,
        segments,
        ends,
        costs,
    ))
}

// The reading list, the first `max` of it with frames and segments. Of reading i from `numbers[5i]` on: where its words and its segments end, how many kept histories
// it takes, its token's phone and seq; from `costs[4i]` on: rank, cost, its token's cost and graph sum. Refused by 6: nothing is written. By 15 or 11: nothing but scratch.
#[unsafe(no_mangle)]
pub extern "C" fn hirqazhom_reading_list(
    tokens: &[u32],
    sums: &[f32],
    records: &[u32],
    labels: &[i32],
    gaps: &[f32],
    finals: &[f32],
    decoder: Decoder,
    use_final: bool,
    listed: usize,
    max: usize,
    keys: &mut [u64],
    places: &mut [u32],
    own: &mut [u32],
    heads: &mut [u32],
    list: &mut [u32],
    lists: &mut [u32],
    route: &mut [u32],
    history_keys: &mut [u64],
    history_skips: &mut [u32],
    entry_hashes: &mut [u64],
    entry_nexts: &mut [u32],
    entry_sums: &mut [f32],
    kept_hashes: &mut [u64],
    kept_links: &mut [u32],
    kept_sums: &mut [f32],
    order: &mut [u32],
    words: &mut [i32],
    frames: &mut [u32],
    segments: &mut [u32],
    numbers: &mut [u64],
    costs: &mut [f32],
) -> Count
    requires { ReadingsLeft tokens.now sums.now records.now labels.now gaps.now finals.now (length keys.old ∷ length places.old ∷ length own.old ∷ length heads.old ∷ length list.old ∷ []) (length lists.old / 2 ∷ length route.old ∷ length history_keys.old / 2 ∷ length history_skips.old / 2 ∷ []) (kept_places (length kept_hashes.old) (length kept_links.old) (length kept_sums.old)) (length keys.old ∷ length order.old ∷ (length list.old - decoder.graph.states) ∷ []) decoder }
    ensures { FormOf (ReadingsIs tokens.now sums.now records.now labels.now gaps.now finals.now decoder use_final listed max (entry_places (length entry_hashes.old) (length entry_nexts.old) (length entry_sums.old)) (kept_places (length kept_hashes.old) (length kept_links.old) (length kept_sums.old)) (listScratch keys.old places.old own.old heads.old list.old lists.old route.old history_keys.old history_skips.old entry_hashes.old entry_nexts.old entry_sums.old kept_hashes.old kept_links.old kept_sums.old order.old) (listScratch keys.new places.new own.new heads.new list.new lists.new route.new history_keys.new history_skips.new entry_hashes.new entry_nexts.new entry_sums.new kept_hashes.new kept_links.new kept_sums.new order.new) (listOutputs words.old frames.old segments.old numbers.old costs.old) (listOutputs words.new frames.new segments.new numbers.new costs.new)) told_count result }
{
    Count::from(decoder_readings::reading_list(
        tokens,
        sums,
        records,
        labels,
        gaps,
        finals,
        decoder,
        use_final,
        listed,
        max,
        keys,
        places,
        own,
        heads,
        list,
        lists,
        route,
        history_keys,
        history_skips,
        entry_hashes,
        entry_nexts,
        entry_sums,
        kept_hashes,
        kept_links,
        kept_sums,
        order,
        words,
        frames,
        segments,
        numbers,
        costs,
    ))
}

// ---- silence, and the search of a word

// A silence state with no frames. Refused by 7.
#[unsafe(no_mangle)]
pub extern "C" fn hirqazhom_silence_new(weight: f32, subsampling: u32) -> Silence
    ensures { FormOf (NewRight weight subsampling) silence_of result }
{
    Silence::from(SilenceWeighting::new(weight, subsampling))
}

// Whether the weighting makes a difference.
#[unsafe(no_mangle)]
pub extern "C" fn hirqazhom_silence_active(state: SilenceWeighting, silence_phones: &[i32]) -> bool
    ensures { ActiveRight state silence_phones.now result }
{
    state.active(silence_phones)
}

// Records what the best path's segments say of the decoded frames, one place of `status` and `weights` each. Refused by 7 or 10: nothing is written.
#[unsafe(no_mangle)]
pub extern "C" fn hirqazhom_silence_traceback(
    state: SilenceWeighting,
    silence_phones: &[i32],
    phones: &[i32],
    starts: &[u32],
    ends: &[u32],
    num_frames_decoded: u32,
    status: &mut [u32],
    weights: &mut [f32],
) -> Silence
    ensures { FormOf (λ n. TracebackRight state silence_phones.now phones.now starts.now ends.now num_frames_decoded status.old weights.old n status.new weights.new) silence_of result }
{
    Silence::from(state.compute_current_traceback(
        silence_phones,
        phones,
        starts,
        ends,
        num_frames_decoded,
        status,
        weights,
    ))
}

// The differences of the frames' weights, and the frames. Refused by 7, 10 or 11: nothing is written.
#[unsafe(no_mangle)]
pub extern "C" fn hirqazhom_silence_deltas(
    state: SilenceWeighting,
    num_frames_ready: u64,
    first_decoder_frame: u64,
    status: &mut [u32],
    weights: &mut [f32],
    frames: &mut [u64],
    deltas: &mut [f32],
) -> Silence
    ensures { FormOf (λ w. DeltasRight state num_frames_ready first_decoder_frame (record { status = status.entry.now; weights = weights.old; frames = frames.old; deltas = deltas.old }) w (record { status = status.exit.now; weights = weights.new; frames = frames.new; deltas = deltas.new })) weighed_of result }
{
    Silence::from(state.get_delta_weights(
        num_frames_ready,
        first_decoder_frame,
        status,
        weights,
        frames,
        deltas,
    ))
}

// How many frames the silence at the end has. Refused by 10.
#[unsafe(no_mangle)]
pub extern "C" fn hirqazhom_trailing_silence_frames(
    silence_phones: &[i32],
    phones: &[i32],
    starts: &[u32],
    ends: &[u32],
) -> Count
    ensures { FormOf (TrailingRight silence_phones.now phones.now starts.now ends.now) told_count result }
{
    Count::from(silence_weighting::trailing_silence_frames(silence_phones, phones, starts, ends))
}

// The first reading that has the word, counted from 0. The words of reading i end before `ends[i]`. Refused by 11 where ends fall or pass the words.
#[unsafe(no_mangle)]
pub extern "C" fn hirqazhom_find(word: i32, ends: &[u32], words: &[i32]) -> Index
    ensures { FormOf (λ f. found_of f ≡ first_reading word (listing ends.now words.now)) found_index result }
{
    Index::from(reading_search::find(word, ends, words))
}

// The bytes of a block of four-byte numbers by their place in the number: all first bytes, then all second, third and fourth. Gives 0; or 20, and the output
// is unchanged, where the length is not divisible by four or the output has another.
#[unsafe(no_mangle)]
pub extern "C" fn hirqazhom_shuffle(block: &[u8], output: &mut [u8]) -> u32
    ensures { FormOf (λ s. Rearranged shuffled block.now output.old s output.new) shuffled_number result }
{
    shuffled_number(shuffle::shuffle(block, output))
}

// The way back, refused likewise. Either way after the other restores every block.
#[unsafe(no_mangle)]
pub extern "C" fn hirqazhom_unshuffle(block: &[u8], output: &mut [u8]) -> u32
    ensures { FormOf (λ s. Rearranged unshuffled block.now output.old s output.new) shuffled_number result }
{
    shuffled_number(shuffle::unshuffle(block, output))
}

// The course on the needles at a frame, where `courses` are knitted in `frames`: the whole part of frame * courses / frames, and the remainder. Refused by 22 where
// `courses` or `frames` is outside 1 to 65,535, or the frame above 65,536.
#[unsafe(no_mangle)]
pub extern "C" fn hirqazhom_course(frame: u32, courses: u32, frames: u32) -> CourseAt
    ensures { FormOf (λ c. c ≡ course_at frame courses frames) course_numbers result }
{
    CourseAt::from(courses::course_at(frame, courses, frames))
}

// Writes the line of a refusal, for a fitter to read: its number, its name and its place. Gives its length, at most 96; what lies behind it is unchanged. Refused by 16
// where the slice is shorter than the line: nothing is written. A verdict with number 0, or with a place that its number cannot have, has the empty line.
#[unsafe(no_mangle)]
pub extern "C" fn hirqazhom_write_line(verdict: Verdict, line: &mut [u8]) -> Count
    ensures { FormOf (λ w. WrittenLine (refusal_told verdict) line.old w line.new) told_count result }
{
    Count::from(refusal_lines::write_line(Refusal::from(verdict), line))
}

// The refusal whose line the bytes are; number 0 where they are no refusal's.
#[unsafe(no_mangle)]
pub extern "C" fn hirqazhom_read_line(bytes: &[u8]) -> Verdict
    ensures { FormOf (ReadLine bytes.now) line_verdict result }
{
    Verdict::from(refusal_lines::read_line(bytes))
}
