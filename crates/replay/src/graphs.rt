// The calls on a graph: those before its first decoder, then those on each decoder.
ghost use Rattle.std.specs.Prelude.{◌+◌, IfOk};
ghost use Rattle.replay_payloads.specs.Payloads.{Inside};
ghost use Rattle.replay.specs.Places.{Behind, TurnAt, TurnsTo};

use crate::Stop;
use crate::fits::{try_fit, with_stores};
use replay_answers::{FIT, GRAPH};
use replay_graph::{Tried, slice_of};
use replay_places::Graph;
use script::{CutShort, Record};

// The calls on an accepted graph.
pub fn with_graph(calls: &[u8], r: Record) -> Result<Stop, CutShort>
    requires { Inside calls.now r }
    ensures { IfOk result (Behind calls.now (r.start + r.count)) }
{
    let end = r.start + r.count;
    let g = replay_graph::shape_of(calls, r.start, end);
    let finals: [f32; 4096] = slice_of(calls, g.finals, 0.0);
    let offsets: [u32; 4097] = slice_of(calls, g.offsets, 0);
    let ilabels: [i32; 16384] = slice_of(calls, g.ilabels, 0);
    let olabels: [i32; 16384] = slice_of(calls, g.olabels, 0);
    let weights: [f32; 16384] = slice_of(calls, g.weights, 0.0);
    let nextstates: [u32; 16384] = slice_of(calls, g.nextstates, 0);
    let tid2pdf: [i32; 4096] = slice_of(calls, g.tid2pdf, 0);
    let tid2phone: [i32; 4096] = slice_of(calls, g.tid2phone, 0);
    let graph = Graph {
        offsets: &offsets[..replay_graph::count_of(calls, g.offsets, 4097)],
        ilabels: &ilabels[..replay_graph::count_of(calls, g.ilabels, 16384)],
        olabels: &olabels[..replay_graph::count_of(calls, g.olabels, 16384)],
        weights: &weights[..replay_graph::count_of(calls, g.weights, 16384)],
        nextstates: &nextstates[..replay_graph::count_of(calls, g.nextstates, 16384)],
        finals: &finals[..replay_graph::count_of(calls, g.finals, 4096)],
        tid2pdf: &tid2pdf[..replay_graph::count_of(calls, g.tid2pdf, 4096)],
        tid2phone: &tid2phone[..replay_graph::count_of(calls, g.tid2phone, 4096)],
        start: g.start,
        pdfs: g.pdfs,
    };
    on_graph(calls, end, graph)
}

// The calls before the first fit, then those on each decoder, up to the next graph.
#[tactic(auto, using(crate::specs::Places::behind_from, crate::specs::Places::fewer_ahead))]
fn on_graph(calls: &[u8], from: usize, graph: Graph<'_>) -> Result<Stop, CutShort>
    ensures { IfOk result (Behind calls.now from) }
{
    let mut stop = before_fit(calls, from, graph)?;
    while let Stop::NewFit(r) = stop {
        stop = with_stores(calls, r, graph)?;
    }
    Ok(stop)
}

// Answers each call up to the first fit that makes a decoder, or the next graph.
#[tactic(auto, using(script::specs::Records::whole_within, crate::specs::Places::stops_behind))]
fn before_fit(calls: &[u8], from: usize, graph: Graph<'_>) -> Result<Stop, CutShort>
    ensures { IfOk result (Behind calls.now from) }
{
    let mut at = from;
    while let Some(r) = script::record_at(calls, at)? {
        at = r.start + r.count;
        match try_new(calls, r, graph) {
            Turn::Stopped(stop) => return Ok(stop),
            Turn::Left => (),
            Turn::Other => replay_answers::say_fault(r.kind),
        }
    }
    Ok(Stop::End)
}

// What a record is beside a decoder's calls.
#[derive(Clone, Copy)]
pub enum Turn {
    // a new graph or decoder, or a call that did not fit
    Stopped(Stop),
    // a graph or a fit that changes nothing
    Left,
    Other,
}

fn turn_of(tried: Tried, next: Stop) -> Turn
    ensures { TurnsTo next result }
{
    match tried {
        Tried::Taken => Turn::Stopped(next),
        Tried::Left => Turn::Left,
        Tried::Over => Turn::Stopped(Stop::End),
    }
}

// A graph or a fit is tried.
pub fn try_new(calls: &[u8], r: Record, graph: Graph<'_>) -> Turn
    requires { Inside calls.now r }
    ensures { TurnAt r result }
{
    if r.kind == GRAPH {
        return turn_of(replay_graph::try_graph(calls, r), Stop::NewGraph(r));
    }
    if r.kind == FIT {
        let tried = try_fit(calls, r, graph);
        return turn_of(tried, Stop::NewFit(r));
    }
    Turn::Other
}
