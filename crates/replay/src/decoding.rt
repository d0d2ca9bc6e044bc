// The calls on a decoder.
ghost use Rattle.std.specs.Prelude.{length, IfOk};
ghost use Rattle.stores.specs.Rep.{lent};
ghost use Rattle.replay_places.specs.Held.{Held};
ghost use Rattle.replay_payloads.specs.Payloads.{Inside};
ghost use Rattle.replay_calls.specs.Held.{AnsweredLeft};
ghost use Rattle.replay_places.specs.Graphs.{tables_of};
ghost use Rattle.replay.specs.Places.{Behind};

use crate::Stop;
use crate::graphs::{Turn, try_new};
use decoder::Decoder;
use replay_answers::{FRAME, KEEP, START};
use replay_payloads::Loan;
use replay_places::Graph;
use script::{CutShort, Record};

// Answers each call up to the next decoder or graph.
#[tactic(auto, using(script::specs::Records::whole_within, crate::specs::Places::stops_behind))]
pub fn on_decoder(
    calls: &[u8],
    from: usize,
    loan: Loan,
    tokens: &mut [u32],
    sums: &mut [f32],
    records: &mut [u32],
    labels: &mut [i32],
    gaps: &mut [f32],
    queue: &mut [u32],
    scratch: &mut [f32],
    eps: &[u8],
    graph: Graph<'_>,
    decoder: Decoder,
) -> Result<Stop, CutShort>
    requires { Held (tables_of graph) (lent tokens.old sums.old records.old labels.old gaps.old) graph.finals.now eps.now (length queue.old) (length scratch.old) decoder }
    ensures { IfOk result (Behind calls.now from) }
{
    let mut d = decoder;
    let mut at = from;
    while let Some(r) = script::record_at(calls, at)? {
        at = r.start + r.count;
        match try_new(calls, r, graph) {
            Turn::Stopped(stop) => return Ok(stop),
            Turn::Left => (),
            Turn::Other => {
                let Some(next) = answer(
                    calls, r, loan, tokens, sums, records, labels, gaps, queue, scratch, eps,
                    graph, d,
                ) else {
                    return Ok(Stop::End);
                };
                d = next;
            }
        }
    }
    Ok(Stop::End)
}

// Gives the decoder after a call; none where the call did not fit.
fn answer(
    calls: &[u8],
    r: Record,
    loan: Loan,
    tokens: &mut [u32],
    sums: &mut [f32],
    records: &mut [u32],
    labels: &mut [i32],
    gaps: &mut [f32],
    queue: &mut [u32],
    scratch: &mut [f32],
    eps: &[u8],
    graph: Graph<'_>,
    d: Decoder,
) -> Option<Decoder>
    requires inside { Inside calls.now r }
    requires held { Held (tables_of graph) (lent tokens.old sums.old records.old labels.old gaps.old) graph.finals.now eps.now (length queue.old) (length scratch.old) d }
    ensures { AnsweredLeft (tables_of graph.entry) (lent tokens.new sums.new records.new labels.new gaps.new) graph.entry.finals.now eps.now (length queue.old) (length scratch.old) result }
{
    if r.kind == START {
        return replay_calls::start_again(
            r, loan, tokens, sums, records, labels, gaps, queue, eps, graph, d,
        );
    }
    if r.kind == FRAME {
        return replay_calls::frame(
            calls, r, loan, tokens, sums, records, labels, gaps, queue, scratch, eps, graph, d,
        );
    }
    if r.kind == KEEP {
        return replay_calls::keep(calls, r, loan, d);
    }
    replay_reads::read(
        calls,
        r,
        loan,
        tokens,
        sums,
        records,
        labels,
        gaps,
        graph.finals,
        d,
    )
    .then_some(d)
}
