// A script's graphs: one is read into arrays, and tried.
#![tactic(auto)]

mod shape;

ghost use Rattle.std.specs.Prelude.{◌≡◌};
ghost use Rattle.fst.specs.Answer.{build_of};
ghost use Rattle.replay_payloads.specs.Payloads.{Inside};
ghost use Rattle.replay_graph.specs.Slices.{Slice, CountIs};
ghost use Rattle.replay_graph.specs.Tries.{graph_in, tried_by, Tries};

use fst::Graph;
use refusals::Refusal;
use replay_answers::GRAPH;
use script::{Record, Word};
pub use shape::{Part, Shape, shape_of};

// A graph or a fit that was tried.
#[derive(Clone, Copy)]
pub enum Tried {
    Taken,
    // refused or misshapen, and nothing changes
    Left,
    // it did not fit
    Over,
}

// ---- slices

// How many words of a slice an array of so many places holds: all or none.
pub fn count_of(bytes: &[u8], p: Part, places: usize) -> usize
    ensures { CountIs bytes.now p places result }
{
    if script::can_fill(bytes, p.at, p.n, places) {
        p.n
    } else {
        0
    }
}

// A graph's slice at the start of an array, whose other places stay as they were; all do where it does not fit.
#[tactic(auto, using(crate::specs::Slices::filled_slice))]
pub fn slice_of<T: Word + Copy, const N: usize>(bytes: &[u8], p: Part, zero: T) -> [T; N]
    ensures { Slice T.of_word bytes.now p N result }
{
    let mut out = [zero; N];
    script::fill(bytes, p.at, &mut out, p.n);
    out
}

// ---- graphs

// Answers a graph: a fault where its slices do not fill the payload, or where there are no places for it.
pub fn try_graph(bytes: &[u8], r: Record) -> Tried
    requires { Inside bytes.now r }
    ensures { Tries bytes.now r result }
{
    let end = r.start + r.count;
    let g = shape_of(bytes, r.start, end);
    if !shape::fills(g, end) {
        replay_answers::say_fault(GRAPH);
        return Tried::Left;
    }
    if !shape::fits(g) {
        replay_answers::say_fault(GRAPH);
        return Tried::Over;
    }
    build(bytes, g)
}

fn build(bytes: &[u8], g: Shape) -> Tried
    ensures { result ≡ tried_by (build_of (graph_in bytes.now g)) }
{
    let finals: [f32; 4096] = slice_of(bytes, g.finals, 0.0);
    let offsets: [u32; 4097] = slice_of(bytes, g.offsets, 0);
    let ilabels: [i32; 16384] = slice_of(bytes, g.ilabels, 0);
    let olabels: [i32; 16384] = slice_of(bytes, g.olabels, 0);
    let weights: [f32; 16384] = slice_of(bytes, g.weights, 0.0);
    let nextstates: [u32; 16384] = slice_of(bytes, g.nextstates, 0);
    let tid2pdf: [i32; 4096] = slice_of(bytes, g.tid2pdf, 0);
    let tid2phone: [i32; 4096] = slice_of(bytes, g.tid2phone, 0);
    say_built(fst::build(
        &offsets[..count_of(bytes, g.offsets, 4097)],
        &ilabels[..count_of(bytes, g.ilabels, 16384)],
        &olabels[..count_of(bytes, g.olabels, 16384)],
        &weights[..count_of(bytes, g.weights, 16384)],
        &nextstates[..count_of(bytes, g.nextstates, 16384)],
        &finals[..count_of(bytes, g.finals, 4096)],
        &tid2pdf[..count_of(bytes, g.tid2pdf, 4096)],
        &tid2phone[..count_of(bytes, g.tid2phone, 4096)],
        g.start,
        g.pdfs,
    ))
}

fn say_built(built: Result<Graph, Refusal>) -> Tried
    ensures { result ≡ tried_by built }
{
    match built {
        Ok(_) => {
            replay_answers::say(GRAPH, 0);
            Tried::Taken
        }
        Err(why) => {
            replay_answers::say_refusal(GRAPH, why);
            Tried::Left
        }
    }
}
