// The Rust's `nonemitting`: the epsilon arcs of the tokens of a start or frame, from a queue of states.
#![tactic(auto)]

ghost use Rattle.std.specs.Prelude.{◌*◌, ◌≤◌, ◌<◌, length};
ghost use Rattle.nonemitting.specs.Pushes.{StatePushed, PushesIs};
ghost use Rattle.stores.specs.Rep.{lent};
ghost use Rattle.nonemitting.specs.Expand.{graph_tables, ExpandGiven, ExpandIs};
ghost use Rattle.nonemitting.specs.Drain.{DrainGiven, DrainIs};
ghost use Rattle.nonemitting.specs.Pass.{NonemittingGiven, NonemittingIs};

use arcs::{Pass, Work};
use arrivals::Setting;
use refusals::Reason;
use tokens::next_active;

// A state that has epsilon arcs is pushed.
fn push_state(queue: &mut [u32], eps: &[u8], w: Work, s: u32) -> Result<Work, Reason>
    requires { s < length eps.now }
    ensures { StatePushed eps.now queue.old queue.new w s result }
{
    if eps[s as usize] == 0 {
        return Ok(w);
    }
    arcs::push(queue, w, s)
}

// The active states with epsilon arcs, pushed ascending.
fn push_active(
    tokens: &[u32],
    queue: &mut [u32],
    eps: &[u8],
    setting: Setting,
    before: Work,
) -> Result<Work, Reason>
    requires { (setting.side ≤ 1) × (setting.states * 8 ≤ length tokens.now) × (setting.states ≤ length eps.now) }
    ensures { PushesIs setting tokens.now queue.old queue.new eps.now before result }
{
    let mut w = before;
    let mut s = next_active(tokens, setting.side, 0, setting.states);
    while s < setting.states {
        w = push_state(queue, eps, w, s)?;
        s = next_active(tokens, setting.side, s + 1, setting.states);
    }
    Ok(w)
}

// A popped state's token, copied, unless it is at or above the cutoff. The pass reads no frame: an empty part stands for its log-likelihoods.
fn expand(
    tokens: &mut [u32],
    sums: &mut [f32],
    records: &mut [u32],
    labels: &mut [i32],
    gaps: &mut [f32],
    queue: &mut [u32],
    eps: &[u8],
    offsets: &[u32],
    ilabels: &[i32],
    olabels: &[i32],
    weights: &[f32],
    nextstates: &[u32],
    tid2pdf: &[i32],
    tid2phone: &[i32],
    setting: Setting,
    w: Work,
    s: u32,
) -> Result<Work, Reason>
    requires { ExpandGiven setting (lent tokens.old sums.old records.old labels.old gaps.old) queue.old eps.now (graph_tables offsets.now ilabels.now olabels.now weights.now nextstates.now tid2pdf.now tid2phone.now) w s }
    ensures { ExpandIs setting (lent tokens.old sums.old records.old labels.old gaps.old) (lent tokens.new sums.new records.new labels.new gaps.new) queue.old queue.new eps.now (graph_tables offsets.now ilabels.now olabels.now weights.now nextstates.now tid2pdf.now tid2phone.now) w s result }
{
    if !tokens::is_active(tokens, setting.side, s) {
        return Ok(w);
    }
    let source = tokens::token_at(tokens, sums, setting.side, s);
    if w.cutoff <= source.cost {
        return Ok(w);
    }
    let handed = Work {
        link: source.link,
        ..w
    };
    arcs::arrive_state(
        tokens,
        sums,
        records,
        labels,
        gaps,
        queue,
        eps,
        offsets,
        ilabels,
        olabels,
        weights,
        nextstates,
        tid2pdf,
        tid2phone,
        &weights[..0],
        setting,
        Pass::Nonemitting,
        handed,
        source,
        s,
    )
}

// Last in, first out, until the queue is empty.
fn drain(
    tokens: &mut [u32],
    sums: &mut [f32],
    records: &mut [u32],
    labels: &mut [i32],
    gaps: &mut [f32],
    queue: &mut [u32],
    eps: &[u8],
    offsets: &[u32],
    ilabels: &[i32],
    olabels: &[i32],
    weights: &[f32],
    nextstates: &[u32],
    tid2pdf: &[i32],
    tid2phone: &[i32],
    setting: Setting,
    before: Work,
) -> Result<Work, Reason>
    requires { DrainGiven setting (lent tokens.old sums.old records.old labels.old gaps.old) queue.old eps.now (graph_tables offsets.now ilabels.now olabels.now weights.now nextstates.now tid2pdf.now tid2phone.now) before }
    ensures { DrainIs setting (lent tokens.old sums.old records.old labels.old gaps.old) (lent tokens.new sums.new records.new labels.new gaps.new) queue.old queue.new eps.now (graph_tables offsets.now ilabels.now olabels.now weights.now nextstates.now tid2pdf.now tid2phone.now) before result }
{
    let mut w = before;
    while 0 < w.queued {
        let count = w.queued;
        let s = queue[count - 1];
        let popped = Work {
            queued: count - 1,
            ..w
        };
        w = expand(
            tokens, sums, records, labels, gaps, queue, eps, offsets, ilabels, olabels, weights,
            nextstates, tid2pdf, tid2phone, setting, popped, s,
        )?;
    }
    Ok(w)
}

// The whole pass, from an empty queue.
pub fn nonemitting(
    tokens: &mut [u32],
    sums: &mut [f32],
    records: &mut [u32],
    labels: &mut [i32],
    gaps: &mut [f32],
    queue: &mut [u32],
    eps: &[u8],
    offsets: &[u32],
    ilabels: &[i32],
    olabels: &[i32],
    weights: &[f32],
    nextstates: &[u32],
    tid2pdf: &[i32],
    tid2phone: &[i32],
    setting: Setting,
    before: Work,
) -> Result<Work, Reason>
    requires { NonemittingGiven setting (lent tokens.old sums.old records.old labels.old gaps.old) queue.old eps.now (graph_tables offsets.now ilabels.now olabels.now weights.now nextstates.now tid2pdf.now tid2phone.now) before }
    ensures { NonemittingIs setting (lent tokens.old sums.old records.old labels.old gaps.old) (lent tokens.new sums.new records.new labels.new gaps.new) queue.old queue.new eps.now (graph_tables offsets.now ilabels.now olabels.now weights.now nextstates.now tid2pdf.now tid2phone.now) before result }
{
    let w = push_active(tokens, queue, eps, setting, before)?;
    drain(
        tokens, sums, records, labels, gaps, queue, eps, offsets, ilabels, olabels, weights,
        nextstates, tid2pdf, tid2phone, setting, w,
    )
}
