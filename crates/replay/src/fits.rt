// Fits: one is tried in stores of its own, and made in those that its calls work on.
ghost use Rattle.std.specs.Prelude.{◌+◌, IfOk};
ghost use Rattle.replay_payloads.specs.Payloads.{Inside};
ghost use Rattle.replay.specs.Places.{Behind};

use crate::Stop;
use crate::decoding::on_decoder;
use decoder::Called;
use refusals::{Reason, Refusal};
use replay_answers::FIT;
use replay_graph::Tried;
use replay_payloads::{Loan, MOST_RECORDS};
use replay_places::Graph;
use script::{CutShort, Record};

pub fn try_fit(calls: &[u8], r: Record, graph: Graph<'_>) -> Tried
    requires { Inside calls.now r }
{
    if r.count < 4 {
        replay_answers::say_fault(FIT);
        return Tried::Left;
    }
    if 9 < r.count {
        replay_answers::say_fault(FIT);
        return Tried::Left;
    }
    // the program has no such store to lend, and answers for the library
    if MOST_RECORDS < replay_payloads::asked(calls, r, 5, MOST_RECORDS) {
        replay_answers::say_refused(FIT, Reason::BadSetting);
        return Tried::Left;
    }
    fit_apart(calls, r, graph)
}

// The fit is tried in stores of its own, since one that is refused changes nothing. One that is accepted is answered where it is made.
fn fit_apart(calls: &[u8], r: Record, graph: Graph<'_>) -> Tried
    requires { Inside calls.now r }
{
    let mut tokens: [u32; 32768] = script::places(0);
    let mut sums: [f32; 16384] = script::places(0.0);
    let mut records: [u32; 65536] = script::places(0);
    let mut labels: [i32; 16384] = script::places(0);
    let mut gaps: [f32; 16384] = script::places(0.0);
    let mut queue: [u32; 16384] = script::places(0);
    let scratch: [f32; 4096] = script::places(0.0);
    let mut eps: [u8; 4096] = script::places(0);
    let loan = replay_payloads::loan_of(calls, r);
    let p = loan.places;
    let n = loan.records;
    let q = loan.queue;
    say_unfit(replay_calls::fit(
        &mut tokens[..8 * p],
        &mut sums[..4 * p],
        &mut records[..8 * n],
        &mut labels[..2 * n],
        &mut gaps[..2 * n],
        &mut queue[..q],
        &scratch[..p],
        &mut eps[..p],
        graph,
        replay_payloads::config_of(calls, r.start),
    ))
}

fn say_unfit(fitted: Result<Called, Refusal>) -> Tried {
    match fitted {
        Err(why) => {
            replay_answers::say_refusal(FIT, why);
            Tried::Left
        }
        Ok(_) => Tried::Taken,
    }
}

// The calls on a new decoder.
pub fn with_stores(calls: &[u8], r: Record, graph: Graph<'_>) -> Result<Stop, CutShort>
    requires { Inside calls.now r }
    ensures { IfOk result (Behind calls.now (r.start + r.count)) }
{
    let mut tokens: [u32; 32768] = script::places(0);
    let mut sums: [f32; 16384] = script::places(0.0);
    let mut records: [u32; 65536] = script::places(0);
    let mut labels: [i32; 16384] = script::places(0);
    let mut gaps: [f32; 16384] = script::places(0.0);
    let mut queue: [u32; 16384] = script::places(0);
    let mut scratch: [f32; 4096] = script::places(0.0);
    let mut eps: [u8; 4096] = script::places(0);
    let loan = replay_payloads::loan_of(calls, r);
    let p = loan.places;
    let n = loan.records;
    let q = loan.queue;
    fit(
        calls,
        r,
        loan,
        &mut tokens[..8 * p],
        &mut sums[..4 * p],
        &mut records[..8 * n],
        &mut labels[..2 * n],
        &mut gaps[..2 * n],
        &mut queue[..q],
        &mut scratch[..p],
        &mut eps[..p],
        graph,
    )
}

fn fit(
    calls: &[u8],
    r: Record,
    loan: Loan,
    tokens: &mut [u32],
    sums: &mut [f32],
    records: &mut [u32],
    labels: &mut [i32],
    gaps: &mut [f32],
    queue: &mut [u32],
    scratch: &mut [f32],
    eps: &mut [u8],
    graph: Graph<'_>,
) -> Result<Stop, CutShort>
    requires { Inside calls.now r }
    ensures { IfOk result (Behind calls.now (r.start + r.count)) }
{
    let fitted = replay_calls::fit(
        tokens,
        sums,
        records,
        labels,
        gaps,
        queue,
        scratch,
        eps,
        graph,
        replay_payloads::config_of(calls, r.start),
    );
    match replay_calls::say_fitted(loan, fitted) {
        Some(d) => on_decoder(
            calls,
            r.start + r.count,
            loan,
            tokens,
            sums,
            records,
            labels,
            gaps,
            queue,
            scratch,
            eps,
            graph,
            d,
        ),
        None => Ok(Stop::End),
    }
}
