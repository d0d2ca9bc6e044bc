// The emitting pass: the Rust's `emitting`.
#![tactic(auto)]

ghost use Rattle.std.specs.Prelude.{◌≡◌, ◌-◌, ◌≤◌, ◌<◌, length};
ghost use Rattle.model.specs.Basics.{∞};
ghost use Rattle.stores.specs.Rep.{lent};
ghost use Rattle.arcs.specs.State.{tables};
ghost use Rattle.emitting.specs.Look.{LookAsks, look_step, look_from, outcome_of};
ghost use Rattle.emitting.specs.Emit.{EmitGiven, ActiveAt, EmitStateIs, EmitStatesIs};
ghost use Rattle.emitting.specs.Whole.{LookGiven, LooksIs, offset_in, PassGiven, EmittingIs};

use arcs::{Pass, Work};
use arrivals::Setting;
use cutoff::{Config, Cutoff};
use refusals::Reason;
use tokens::Token;

// The next cutoff after arc i in the first look: another order of sums than the total.
fn look_at(
    ilabels: &[i32],
    weights: &[f32],
    tid2pdf: &[i32],
    loglikes: &[f32],
    offset: f32,
    adaptive: f32,
    cost: f32,
    i: usize,
    next: f32,
) -> Result<f32, Reason>
    requires { LookAsks ilabels.now weights.now tid2pdf.now loglikes.now × (i < length ilabels.now) }
    ensures { outcome_of result ≡ look_step ilabels.now weights.now tid2pdf.now loglikes.now offset adaptive cost i next }
{
    let pass = Pass::Emitting(offset, adaptive);
    if !arcs::takes(ilabels, pass, i) {
        return Ok(next);
    }
    let total = weights[i] + offset - arcs::loglike(ilabels, tid2pdf, loglikes, i) + cost;
    if !real32::is_tame(total) {
        return Err(Reason::SumTooLarge);
    }
    Ok(arcs::lower(pass, total, next))
}

// The first look: the best state's emitting arcs only tighten the next cutoff.
fn first_look(
    ilabels: &[i32],
    weights: &[f32],
    tid2pdf: &[i32],
    loglikes: &[f32],
    offset: f32,
    adaptive: f32,
    cost: f32,
) -> Result<f32, Reason>
    requires { LookAsks ilabels.now weights.now tid2pdf.now loglikes.now }
    ensures { outcome_of result ≡ look_from ilabels.now weights.now tid2pdf.now loglikes.now offset adaptive cost (length ilabels.now) 0 ∞ }
{
    let mut next = real32::infinity();
    for i in 0..ilabels.len() {
        next = look_at(
            ilabels, weights, tid2pdf, loglikes, offset, adaptive, cost, i, next,
        )?;
    }
    Ok(next)
}

// The look at the best state's arcs, if there is one.
fn look(
    offsets: &[u32],
    ilabels: &[i32],
    weights: &[f32],
    tid2pdf: &[i32],
    loglikes: &[f32],
    states: u32,
    cut: Cutoff,
) -> Result<f32, Reason>
    requires { LookGiven offsets.now ilabels.now weights.now tid2pdf.now loglikes.now states cut }
    ensures { LooksIs offsets.now ilabels.now weights.now tid2pdf.now loglikes.now states cut result }
{
    let s = cut.best;
    if states <= s {
        return Ok(real32::infinity());
    }
    let a = fst::first_arc(offsets, s as usize);
    let e = fst::first_arc(offsets, s as usize + 1);
    first_look(
        &ilabels[a..e],
        &weights[a..e],
        tid2pdf,
        loglikes,
        -cut.least,
        cut.adaptive,
        cut.least,
    )
}

// The arcs of one finished token, unless it is above the cutoff.
fn emit_state(
    tokens: &mut [u32],
    sums: &mut [f32],
    records: &mut [u32],
    labels: &mut [i32],
    gaps: &mut [f32],
    queue: &mut [u32],
    eps: &[u8],
    offsets: &[u32],
    ilabels: &[i32],
    olabels: &[i32],
    weights: &[f32],
    nextstates: &[u32],
    tid2pdf: &[i32],
    tid2phone: &[i32],
    loglikes: &[f32],
    setting: Setting,
    pass: Pass,
    cut: f32,
    w: Work,
    s: u32,
) -> Result<Work, Reason>
    requires { EmitGiven setting (lent tokens.old sums.old records.old labels.old gaps.old) queue.old eps.now pass (tables offsets.now ilabels.now olabels.now weights.now nextstates.now tid2pdf.now tid2phone.now loglikes.now) w × ActiveAt setting (lent tokens.old sums.old records.old labels.old gaps.old) s }
    ensures { EmitStateIs setting (lent tokens.old sums.old records.old labels.old gaps.old) (lent tokens.new sums.new records.new labels.new gaps.new) queue.old queue.new eps.now pass (tables offsets.now ilabels.now olabels.now weights.now nextstates.now tid2pdf.now tid2phone.now loglikes.now) cut w s result }
{
    let source = tokens::token_at(tokens, sums, 1 - setting.side, s);
    if cut < source.cost {
        return Ok(w);
    }
    let taken = Work {
        link: source.link,
        ..w
    };
    arcs::arrive_state(
        tokens, sums, records, labels, gaps, queue, eps, offsets, ilabels, olabels, weights,
        nextstates, tid2pdf, tid2phone, loglikes, setting, pass, taken, source, s,
    )
}

// The finished tokens that are not above the cutoff, in ascending order of their states.
fn emit_states(
    tokens: &mut [u32],
    sums: &mut [f32],
    records: &mut [u32],
    labels: &mut [i32],
    gaps: &mut [f32],
    queue: &mut [u32],
    eps: &[u8],
    offsets: &[u32],
    ilabels: &[i32],
    olabels: &[i32],
    weights: &[f32],
    nextstates: &[u32],
    tid2pdf: &[i32],
    tid2phone: &[i32],
    loglikes: &[f32],
    setting: Setting,
    pass: Pass,
    cut: f32,
    before: Work,
) -> Result<Work, Reason>
    requires { EmitGiven setting (lent tokens.old sums.old records.old labels.old gaps.old) queue.old eps.now pass (tables offsets.now ilabels.now olabels.now weights.now nextstates.now tid2pdf.now tid2phone.now loglikes.now) before }
    ensures { EmitStatesIs setting (lent tokens.old sums.old records.old labels.old gaps.old) (lent tokens.new sums.new records.new labels.new gaps.new) queue.old queue.new eps.now pass (tables offsets.now ilabels.now olabels.now weights.now nextstates.now tid2pdf.now tid2phone.now loglikes.now) cut before result }
{
    let side = 1 - setting.side;
    let states = setting.states;
    let mut w = before;
    let mut s = tokens::next_active(tokens, side, 0, states);
    while s < states {
        w = emit_state(
            tokens, sums, records, labels, gaps, queue, eps, offsets, ilabels, olabels, weights,
            nextstates, tid2pdf, tid2phone, loglikes, setting, pass, cut, w, s,
        )?;
        s = tokens::next_active(tokens, side, s + 1, states);
    }
    Ok(w)
}

// The cost offset: minus the best cost, 0 where there is no token.
fn offset_of(states: u32, cut: Cutoff) -> f32
    ensures { result ≡ offset_in states cut }
{
    if states <= cut.best { 0.0 } else { -cut.least }
}

// The emitting pass: the cutoffs, the first look, and the arcs of the tokens that are not above the cutoff, into the emptied other table.
pub fn emitting(
    tokens: &mut [u32],
    sums: &mut [f32],
    records: &mut [u32],
    labels: &mut [i32],
    gaps: &mut [f32],
    queue: &mut [u32],
    scratch: &mut [f32],
    eps: &[u8],
    offsets: &[u32],
    ilabels: &[i32],
    olabels: &[i32],
    weights: &[f32],
    nextstates: &[u32],
    tid2pdf: &[i32],
    tid2phone: &[i32],
    loglikes: &[f32],
    setting: Setting,
    config: Config,
    used: u32,
    seq: u32,
) -> Result<Work, Reason>
    requires { PassGiven setting (lent tokens.old sums.old records.old labels.old gaps.old) queue.old eps.now (tables offsets.now ilabels.now olabels.now weights.now nextstates.now tid2pdf.now tid2phone.now loglikes.now) used seq × (setting.states ≤ length scratch.old) }
    ensures { EmittingIs setting (lent tokens.old sums.old records.old labels.old gaps.old) (lent tokens.new sums.new records.new labels.new gaps.new) queue.old queue.new eps.now (tables offsets.now ilabels.now olabels.now weights.now nextstates.now tid2pdf.now tid2phone.now loglikes.now) config used seq result }
{
    let states = setting.states;
    let cut = cutoff::get_cutoff(config, tokens, sums, 1 - setting.side, states, scratch);
    tokens::clear(tokens, setting.side, states);
    let next = look(offsets, ilabels, weights, tid2pdf, loglikes, states, cut)?;
    let pass = Pass::Emitting(offset_of(states, cut), cut.adaptive);
    let w = Work {
        used,
        seq,
        link: 0,
        cutoff: next,
        queued: 0,
    };
    emit_states(
        tokens, sums, records, labels, gaps, queue, eps, offsets, ilabels, olabels, weights,
        nextstates, tid2pdf, tid2phone, loglikes, setting, pass, cut.cutoff, w,
    )
}
