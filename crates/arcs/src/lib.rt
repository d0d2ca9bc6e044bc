// Every arc of one token that a pass takes, in order. The two passes differ in which arcs they take, in the total and the phone, in the cutoff that a total
// lowers, and in the queue.
#![tactic(auto)]

ghost use Rattle.std.specs.Prelude.{◌≡◌, ◌+◌, ◌*◌, ◌≤◌, ◌<◌, ◌^◌, T, pos, nat_abs, length, get_or};
ghost use Rattle.std.specs.Int.Signed.{non_neg};
ghost use Rattle.model.specs.Basics.{0f};
ghost use Rattle.stores.specs.Rep.{lent};
ghost use Rattle.arcs.specs.Part.{takes_label, part, Taken, by_label, Labelled, HeardAt, PhoneAsks, total_in, phone_in, arrival_in, lower_by};
ghost use Rattle.arcs.specs.Passed.{moved_by, PushIs};
ghost use Rattle.arcs.specs.Finish.{requeues_at, WinnerIs, JoinedIs, FinishIs};
ghost use Rattle.arcs.specs.Whole.{WholeGiven, WholeIs};
ghost use Rattle.arcs.specs.All.{AllGiven, StepIs, AllIs};
ghost use Rattle.arcs.specs.State.{tables, StateGiven, StateIs};

use arrivals::{Arrival, Arrived, Going, Setting};
use refusals::Reason;
use tokens::Token;

// The choice of pass. The emitting one has the cost offset and the adaptive beam.
#[derive(Clone, Copy)]
pub enum Pass {
    Emitting(f32, f32),
    Nonemitting,
}

// How far a pass has got: the records, the latest seq, the newest record of the token in hand, the cutoff, and how many states are in the queue.
#[derive(Clone, Copy)]
pub struct Work {
    pub used: u32,
    pub seq: u32,
    pub link: u32,
    pub cutoff: f32,
    pub queued: usize,
}

// The emitting pass takes the arcs with a label, the other one those without.
pub fn takes(ilabels: &[i32], pass: Pass, i: usize) -> bool
    requires { i < length ilabels.now }
    ensures { result ≡ takes_label pass (get_or ilabels.now i (pos 0)) }
{
    match pass {
        Pass::Emitting(_, _) => ilabels[i] != 0,
        Pass::Nonemitting => ilabels[i] == 0,
    }
}

// A number of a table that has none below zero there.
fn number_at(table: &[i32], i: usize) -> usize
    requires { (i < length table.now) × T (non_neg (get_or table.now i (pos 0))) }
    ensures { (result ≡ nat_abs (get_or table.now i (pos 0))) × (result < 2 ^ 31) }
{
    table[i] as usize
}

pub fn loglike(ilabels: &[i32], tid2pdf: &[i32], loglikes: &[f32], i: usize) -> f32
    requires { Labelled ilabels.now tid2pdf.now i × (by_label ilabels.now tid2pdf.now i < length loglikes.now) }
    ensures { result ≡ get_or loglikes.now (by_label ilabels.now tid2pdf.now i) 0f }
{
    loglikes[number_at(tid2pdf, number_at(ilabels, i))]
}

// An arc's total, each sum rounded once, in this order.
fn total(
    ilabels: &[i32],
    weights: &[f32],
    tid2pdf: &[i32],
    loglikes: &[f32],
    pass: Pass,
    cost: f32,
    i: usize,
) -> f32
    requires { (i < length weights.now) × HeardAt pass ilabels.now tid2pdf.now loglikes.now i }
    ensures { result ≡ total_in pass ilabels.now weights.now tid2pdf.now loglikes.now cost i }
{
    match pass {
        Pass::Emitting(offset, _) => {
            (cost + (offset - loglike(ilabels, tid2pdf, loglikes, i))) + weights[i]
        }
        Pass::Nonemitting => cost + weights[i],
    }
}

// The phone after an arc. An epsilon arc changes no phone.
fn phone_after(ilabels: &[i32], tid2phone: &[i32], pass: Pass, phone: u32, i: usize) -> u32
    requires { PhoneAsks pass ilabels.now tid2phone.now i }
    ensures { result ≡ phone_in pass ilabels.now tid2phone.now phone i }
{
    match pass {
        Pass::Emitting(_, _) => number_at(tid2phone, number_at(ilabels, i)) as u32,
        Pass::Nonemitting => phone,
    }
}

// What arc i brings to its target.
fn arrival_at(
    ilabels: &[i32],
    olabels: &[i32],
    weights: &[f32],
    nextstates: &[u32],
    tid2pdf: &[i32],
    tid2phone: &[i32],
    loglikes: &[f32],
    pass: Pass,
    source: Token,
    i: usize,
) -> Arrival
    requires { Taken pass (part ilabels.now olabels.now weights.now nextstates.now tid2pdf.now tid2phone.now loglikes.now) i }
    ensures { result ≡ arrival_in pass (part ilabels.now olabels.now weights.now nextstates.now tid2pdf.now tid2phone.now loglikes.now) source i }
{
    let total = total(ilabels, weights, tid2pdf, loglikes, pass, source.cost, i);
    let phone = phone_after(ilabels, tid2phone, pass, source.phone, i);
    Arrival {
        total,
        graph: source.graph + weights[i],
        word: olabels[i],
        phone,
        target: nextstates[i],
    }
}

// In the emitting pass, total + adaptive beam may lower the cutoff.
pub fn lower(pass: Pass, total: f32, cutoff: f32) -> f32
    ensures { result ≡ lower_by pass total cutoff }
{
    match pass {
        Pass::Emitting(_, adaptive) => {
            let low = total + adaptive;
            if low < cutoff { low } else { cutoff }
        }
        Pass::Nonemitting => cutoff,
    }
}

// Where a pass stands after an arc that was not cut off.
fn moved(pass: Pass, w: Work, total: f32, y: Going) -> Work
    ensures { result ≡ moved_by pass w total y }
{
    Work {
        used: y.used,
        seq: y.seq,
        link: y.link,
        cutoff: lower(pass, total, w.cutoff),
        ..w
    }
}

// 14 where the queue is full.
pub fn push(queue: &mut [u32], w: Work, s: u32) -> Result<Work, Reason>
    ensures { PushIs queue.old queue.new w s result }
{
    let n = w.queued;
    if queue.len() <= n {
        return Err(Reason::QueueFull);
    }
    queue[n] = s;
    Ok(Work { queued: n + 1, ..w })
}

// A winner goes on from its state, in the nonemitting pass.
fn push_winner(queue: &mut [u32], pass: Pass, w: Work, s: u32) -> Result<Work, Reason>
    ensures { WinnerIs queue.old queue.new w s pass result }
{
    match pass {
        Pass::Emitting(_, _) => Ok(w),
        Pass::Nonemitting => push(queue, w, s),
    }
}

// Whether a join sends the state back to the queue: in the nonemitting pass, where it has epsilon arcs, and at most once.
fn requeues(tokens: &[u32], eps: &[u8], side: u32, pass: Pass, s: u32) -> bool
    requires { (side ≤ 1) × (s * 8 + 8 ≤ length tokens.now) × (s < length eps.now) }
    ensures { result ≡ requeues_at pass tokens.now eps.now side s }
{
    match pass {
        Pass::Emitting(_, _) => false,
        Pass::Nonemitting => eps[s as usize] != 0 && !tokens::was_requeued(tokens, side, s),
    }
}

// A token that a loser was joined to goes on from its state too, where `requeues` says so.
fn push_joined(
    tokens: &mut [u32],
    queue: &mut [u32],
    eps: &[u8],
    side: u32,
    pass: Pass,
    w: Work,
    s: u32,
) -> Result<Work, Reason>
    requires { (side ≤ 1) × (s * 8 + 8 ≤ length tokens.old) × (s < length eps.now) }
    ensures { JoinedIs tokens.old tokens.new eps.now queue.old queue.new side pass w s result }
{
    if !requeues(tokens, eps, side, pass, s) {
        return Ok(w);
    }
    tokens::set_requeued(tokens, side, s);
    push(queue, w, s)
}

// The lowered cutoff, and the push.
fn finish(
    tokens: &mut [u32],
    queue: &mut [u32],
    eps: &[u8],
    side: u32,
    pass: Pass,
    w: Work,
    a: Arrival,
    came: Arrived,
) -> Result<Work, Reason>
    requires { (side ≤ 1) × (a.target * 8 + 8 ≤ length tokens.old) × (a.target < length eps.now) }
    ensures { FinishIs tokens.old tokens.new eps.now queue.old queue.new side pass w a came result }
{
    match came {
        Arrived::Cut => Ok(w),
        Arrived::Stays(y) => Ok(moved(pass, w, a.total, y)),
        Arrived::Wins(y) => push_winner(queue, pass, moved(pass, w, a.total, y), a.target),
        Arrived::Joins(y) => {
            let next = moved(pass, w, a.total, y);
            push_joined(tokens, queue, eps, side, pass, next, a.target)
        }
    }
}

// One arriving arc, whole: what comes of it, the lowered cutoff, and the push.
fn arrive_whole(
    tokens: &mut [u32],
    sums: &mut [f32],
    records: &mut [u32],
    labels: &mut [i32],
    gaps: &mut [f32],
    queue: &mut [u32],
    eps: &[u8],
    setting: Setting,
    pass: Pass,
    w: Work,
    source: Token,
    a: Arrival,
) -> Result<Work, Reason>
    requires { WholeGiven setting (lent tokens.old sums.old records.old labels.old gaps.old) queue.old eps.now pass w source a }
    ensures { WholeIs setting (lent tokens.old sums.old records.old labels.old gaps.old) (lent tokens.new sums.new records.new labels.new gaps.new) queue.old queue.new eps.now pass w source a result }
{
    let going = Going {
        used: w.used,
        seq: w.seq,
        link: w.link,
    };
    let came = arrivals::arrive(
        tokens, sums, records, labels, gaps, setting, w.cutoff, going, source, a,
    )?;
    finish(tokens, queue, eps, setting.side, pass, w, a, came)
}

// Arc i of a token, if the pass takes it.
fn arrive_at(
    tokens: &mut [u32],
    sums: &mut [f32],
    records: &mut [u32],
    labels: &mut [i32],
    gaps: &mut [f32],
    queue: &mut [u32],
    eps: &[u8],
    ilabels: &[i32],
    olabels: &[i32],
    weights: &[f32],
    nextstates: &[u32],
    tid2pdf: &[i32],
    tid2phone: &[i32],
    loglikes: &[f32],
    setting: Setting,
    pass: Pass,
    w: Work,
    source: Token,
    i: usize,
) -> Result<Work, Reason>
    requires { AllGiven setting (lent tokens.old sums.old records.old labels.old gaps.old) queue.old eps.now pass (part ilabels.now olabels.now weights.now nextstates.now tid2pdf.now tid2phone.now loglikes.now) w source × (i < length ilabels.now) }
    ensures { StepIs setting (lent tokens.old sums.old records.old labels.old gaps.old) (lent tokens.new sums.new records.new labels.new gaps.new) queue.old queue.new eps.now pass (part ilabels.now olabels.now weights.now nextstates.now tid2pdf.now tid2phone.now loglikes.now) w source i result }
{
    if !takes(ilabels, pass, i) {
        return Ok(w);
    }
    let a = arrival_at(
        ilabels, olabels, weights, nextstates, tid2pdf, tid2phone, loglikes, pass, source, i,
    );
    arrive_whole(
        tokens, sums, records, labels, gaps, queue, eps, setting, pass, w, source, a,
    )
}

// Every arc of a token that the pass takes, in order. The four tables of arcs are the parts of the token's state.
pub fn arrive_all(
    tokens: &mut [u32],
    sums: &mut [f32],
    records: &mut [u32],
    labels: &mut [i32],
    gaps: &mut [f32],
    queue: &mut [u32],
    eps: &[u8],
    ilabels: &[i32],
    olabels: &[i32],
    weights: &[f32],
    nextstates: &[u32],
    tid2pdf: &[i32],
    tid2phone: &[i32],
    loglikes: &[f32],
    setting: Setting,
    pass: Pass,
    before: Work,
    source: Token,
) -> Result<Work, Reason>
    requires { AllGiven setting (lent tokens.old sums.old records.old labels.old gaps.old) queue.old eps.now pass (part ilabels.now olabels.now weights.now nextstates.now tid2pdf.now tid2phone.now loglikes.now) before source }
    ensures { AllIs setting (lent tokens.old sums.old records.old labels.old gaps.old) (lent tokens.new sums.new records.new labels.new gaps.new) queue.old queue.new eps.now pass (part ilabels.now olabels.now weights.now nextstates.now tid2pdf.now tid2phone.now loglikes.now) before source result }
{
    let mut w = before;
    for i in 0..ilabels.len() {
        w = arrive_at(
            tokens, sums, records, labels, gaps, queue, eps, ilabels, olabels, weights, nextstates,
            tid2pdf, tid2phone, loglikes, setting, pass, w, source, i,
        )?;
    }
    Ok(w)
}

// The arcs of a token in state s, handed on as parts that start in the middle of the arc tables.
pub fn arrive_state(
    tokens: &mut [u32],
    sums: &mut [f32],
    records: &mut [u32],
    labels: &mut [i32],
    gaps: &mut [f32],
    queue: &mut [u32],
    eps: &[u8],
    offsets: &[u32],
    ilabels: &[i32],
    olabels: &[i32],
    weights: &[f32],
    nextstates: &[u32],
    tid2pdf: &[i32],
    tid2phone: &[i32],
    loglikes: &[f32],
    setting: Setting,
    pass: Pass,
    w: Work,
    source: Token,
    s: u32,
) -> Result<Work, Reason>
    requires { StateGiven setting (lent tokens.old sums.old records.old labels.old gaps.old) queue.old eps.now pass (tables offsets.now ilabels.now olabels.now weights.now nextstates.now tid2pdf.now tid2phone.now loglikes.now) w source s }
    ensures { StateIs setting (lent tokens.old sums.old records.old labels.old gaps.old) (lent tokens.new sums.new records.new labels.new gaps.new) queue.old queue.new eps.now pass (tables offsets.now ilabels.now olabels.now weights.now nextstates.now tid2pdf.now tid2phone.now loglikes.now) w source s result }
{
    let a = fst::first_arc(offsets, s as usize);
    let e = fst::first_arc(offsets, s as usize + 1);
    arrive_all(
        tokens,
        sums,
        records,
        labels,
        gaps,
        queue,
        eps,
        &ilabels[a..e],
        &olabels[a..e],
        &weights[a..e],
        &nextstates[a..e],
        tid2pdf,
        tid2phone,
        loglikes,
        setting,
        pass,
        w,
        source,
    )
}
