// The decoder's calls that change it, each with what it works in.
ghost use Rattle.std.specs.Prelude.{◌≡◌, length};
ghost use Rattle.stores.specs.Rep.{lent};
ghost use Rattle.decoder.specs.Represents.{Left};
ghost use Rattle.decoder.specs.Promises.{FrameLeft};
ghost use Rattle.replay_places.specs.Graphs.{tables_of};
ghost use Rattle.replay_places.specs.Held.{HeldFitted};
ghost use Rattle.replay_payloads.specs.Payloads.{Inside};
ghost use Rattle.replay_calls.specs.Held.{GoesOn, GoesOnAll};

use crate::say_called;
use cutoff::Config;
use decoder::{Called, Decoder};
use refusals::Refusal;
use replay_answers::{FRAME, KEEP, START};
use replay_payloads::Loan;
use replay_places::Graph;
use script::{Record, Word};

// A fit with the scratch of the reads, which has to be long enough for them.
pub fn fit(
    tokens: &mut [u32],
    sums: &mut [f32],
    records: &mut [u32],
    labels: &mut [i32],
    gaps: &mut [f32],
    queue: &mut [u32],
    scratch: &[f32],
    eps: &mut [u8],
    graph: Graph<'_>,
    config: Config,
) -> Result<Called, Refusal>
    ensures { HeldFitted (tables_of graph.entry) (lent tokens.new sums.new records.new labels.new gaps.new) graph.entry.finals.now eps.new (length queue.old) (length scratch.now) result }
{
    let keys: [u64; 8192] = script::places(0);
    let history_keys: [u64; 16384] = script::places(0);
    let all: [u32; 16384] = script::places(0);
    let numbers: &[u32] = &all;
    decoder::fit(
        tokens,
        sums,
        records,
        labels,
        gaps,
        queue,
        scratch,
        &keys,
        &numbers[..4096],
        &numbers[..4096],
        &numbers[..4096],
        &numbers[..12288],
        numbers,
        &numbers[..8192],
        &history_keys,
        numbers,
        &[],
        &[],
        &[],
        &[],
        eps,
        graph.offsets,
        graph.ilabels,
        graph.olabels,
        graph.weights,
        graph.nextstates,
        graph.finals,
        graph.tid2pdf,
        graph.tid2phone,
        graph.start,
        graph.pdfs,
        config,
    )
}

pub fn start_again(
    r: Record,
    loan: Loan,
    tokens: &mut [u32],
    sums: &mut [f32],
    records: &mut [u32],
    labels: &mut [i32],
    gaps: &mut [f32],
    queue: &mut [u32],
    eps: &[u8],
    graph: Graph<'_>,
    d: Decoder,
) -> Option<Decoder>
    requires { Left (tables_of graph) (lent tokens.old sums.old records.old labels.old gaps.old) eps.now (length queue.old) d }
    ensures { GoesOn (tables_of graph.entry) (lent tokens.old sums.old records.old labels.old gaps.old) (lent tokens.new sums.new records.new labels.new gaps.new) eps.now (length queue.old) d result }
{
    if r.count != 0 {
        replay_answers::say_fault(START);
        return Some(d);
    }
    let called = decoder::start(
        tokens,
        sums,
        records,
        labels,
        gaps,
        queue,
        eps,
        graph.offsets,
        graph.ilabels,
        graph.olabels,
        graph.weights,
        graph.nextstates,
        graph.tid2pdf,
        graph.tid2phone,
        d,
    );
    say_called(START, loan, called)
}

// The payload is the log-likelihoods.
pub fn frame(
    bytes: &[u8],
    r: Record,
    loan: Loan,
    tokens: &mut [u32],
    sums: &mut [f32],
    records: &mut [u32],
    labels: &mut [i32],
    gaps: &mut [f32],
    queue: &mut [u32],
    scratch: &mut [f32],
    eps: &[u8],
    graph: Graph<'_>,
    d: Decoder,
) -> Option<Decoder>
    requires { FrameLeft (tables_of graph) (lent tokens.old sums.old records.old labels.old gaps.old) eps.now (length queue.old) (length scratch.old) d }
    ensures { GoesOn (tables_of graph.entry) (lent tokens.old sums.old records.old labels.old gaps.old) (lent tokens.new sums.new records.new labels.new gaps.new) eps.now (length queue.old) d result }
{
    if !script::can_fill(bytes, r.start, r.count, 4096) {
        replay_answers::say_fault(FRAME);
        return None;
    }
    let loglikes = loglikes_of(bytes, r);
    let called = decoder::frame(
        tokens,
        sums,
        records,
        labels,
        gaps,
        queue,
        scratch,
        eps,
        graph.offsets,
        graph.ilabels,
        graph.olabels,
        graph.weights,
        graph.nextstates,
        graph.tid2pdf,
        graph.tid2phone,
        &loglikes[..r.count],
        d,
    );
    say_called(FRAME, loan, called)
}

// The log-likelihoods of a frame.
fn loglikes_of(bytes: &[u8], r: Record) -> [f32; 4096]
    ensures { 4096 ≡ length result }
{
    let mut out = script::places(0.0);
    script::fill(bytes, r.start, &mut out, r.count);
    out
}

// The payload is 0, or 1 and a margin.
pub fn keep(bytes: &[u8], r: Record, loan: Loan, d: Decoder) -> Option<Decoder>
    requires { Inside bytes.now r }
    ensures { GoesOnAll d result }
{
    let first = script::word_at(bytes, r.start);
    if r.count == 1 {
        if first == 0 {
            return say_called(KEEP, loan, decoder::set_keep(d, false, 0.0));
        }
    }
    if r.count == 2 {
        if first == 1 {
            let margin = f32::from_word(script::word_at(bytes, r.start + 1));
            return say_called(KEEP, loan, decoder::set_keep(d, true, margin));
        }
    }
    replay_answers::say_fault(KEEP);
    Some(d)
}
