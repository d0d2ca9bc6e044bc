// Reads a script of decoder calls from standard input and writes their answers, both in the binary form of oracle/FORMAT.md.
//
// The program has places for a script of 327,679 words, graphs of 4,096 states, 16,384 arcs and 4,096 transition ids, 4,096 log-likelihoods a frame, 8,192 records,
// and a queue of 16,384. A store is lent at the length that the script asks for, or at these where they are less. A best path has at most one word and one segment
// for each record, so it always fits. Alternatives have places for 16,384 words and as many segments; a reading list for 65,536 entries below joins, 8,192 kept
// readings, and 4,096 readings with 65,536 words, of which those that are traced have 16,384 words and as many segments. A call that these sizes could answer
// otherwise gets the answer of a faulty script, and the program ends.
#![tactic(auto)]

mod decoding;
mod fits;
mod graphs;

ghost use Rattle.std.specs.Prelude.{IfOk};
ghost use Rattle.replay_payloads.specs.Payloads.{Inside};
ghost use Rattle.replay.specs.Places.{Behind};

use replay_answers::GRAPH;
use replay_graph::Tried;
use script::{CutShort, Record};

// Standard input.
const STDIN_FILENO: i32 = 0;

// Where a run of calls ends.
#[derive(Clone, Copy)]
enum Stop {
    // the script ends, or does not fit
    End,
    // a graph that is accepted, a fit that makes a new decoder
    NewGraph(Record),
    NewFit(Record),
}

// The whole script is read at once. One that fills the places may not have ended, and one that ends within a word is cut short: these get a fault for their only
// answer.
fn main() {
    let mut calls: [u8; 1310720] = script::places(0);
    let n = io::read_full(STDIN_FILENO, &mut calls);
    if n < 1310720 && n % 4 == 0 {
        if replay(&calls[..n]).is_ok() {
            return;
        }
    }
    replay_answers::say_fault(0);
}

// The calls before the first graph, then those on each graph.
#[tactic(auto, using(crate::specs::Places::behind_from, crate::specs::Places::fewer_ahead))]
fn replay(calls: &[u8]) -> Result<(), CutShort> {
    let mut stop = before_graph(calls)?;
    while let Stop::NewGraph(r) = stop {
        stop = graphs::with_graph(calls, r)?;
    }
    Ok(())
}

// Answers each call up to the first graph that is accepted.
#[tactic(auto, using(script::specs::Records::whole_within))]
fn before_graph(calls: &[u8]) -> Result<Stop, CutShort>
    ensures { IfOk result (Behind calls.now 0) }
{
    let mut at = 0;
    while let Some(r) = script::record_at(calls, at)? {
        at = r.start + r.count;
        match without_graph(calls, r) {
            Tried::Taken => return Ok(Stop::NewGraph(r)),
            Tried::Left => (),
            Tried::Over => return Ok(Stop::End),
        }
    }
    Ok(Stop::End)
}

fn without_graph(calls: &[u8], r: Record) -> Tried
    requires { Inside calls.now r }
{
    if r.kind == GRAPH {
        return replay_graph::try_graph(calls, r);
    }
    replay_answers::say_fault(r.kind);
    Tried::Left
}
