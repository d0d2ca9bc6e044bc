// The decoder over lent stores: the fitter, starts, frames and the keep margin. The reads are in `decoder_reads` and `decoder_readings`, with contracts that are defined here.
#![tactic(auto)]

ghost use Rattle.std.specs.Prelude.{◌≡◌, ◌⊎◌, cond, ◌*◌, ◌-◌, ◌/◌, ◌≤◌, ◌<◌, length};
ghost use Rattle.model.specs.Basics.{0f};
ghost use Rattle.stores.specs.Rep.{lent};
ghost use Rattle.arcs.specs.State.{tables};
ghost use Rattle.nonemitting.specs.Expand.{graph_tables};
ghost use Rattle.fst.specs.Answer.{graph_of};
ghost use Rattle.refusals.specs.Numbers.{refused_at};
ghost use Rattle.decoder.specs.Represents.{margin_in, setting_of, Left};
ghost use Rattle.decoder.specs.Promises.{Behind, StartIs, FrameIs, with_margin, keep_of, unfit, FitIs, FrameLeft};
ghost use Rattle.decoder.specs.Begin.{moved_to, emptied_of, turned_of, BothCleared, BeginAsks, BeginIs};
ghost use Rattle.decoder.specs.Frame.{NewestIs, BackIs, RunGiven, RunIs};
ghost use Rattle.decoder.specs.Parts.{AdvanceIs};
ghost use Rattle.decoder.specs.Fit.{lengths_of, new_decoder};

use arcs::Work;
use arrivals::Setting;
use checks::Lengths;
use cutoff::Config;
use fst::{Graph, NO_STATE};
use refusals::{Place, Reason, Refusal};
use tokens::Token;

// What the decoder holds beside the lent stores: the graph's counts, the settings, the places for records, the keep margin if there is one, which table the
// next pass writes (the other one is the finished one), the frames decoded, the latest seq and the records in use.
#[repr(C)]
#[derive(Clone, Copy)]
pub struct Decoder {
    pub graph: Graph,
    pub config: Config,
    pub cap: u32,
    pub keeps: bool,
    pub margin: f32,
    pub side: u32,
    pub frames: u32,
    pub seq: u32,
    pub used: u32,
}

// A call that is accepted or refused. No `Result`: the decoder goes on with either, and `?` would lose it.
#[derive(Clone, Copy)]
pub enum Called {
    Done(Decoder),
    Refused(Decoder, Refusal),
}

// The keep margin, if there is one. In C it is a flag and a number.
fn margin_of(d: Decoder) -> Option<f32>
    ensures { result ≡ margin_in d }
{
    if d.keeps { Some(d.margin) } else { None }
}

fn setting_of(d: Decoder) -> Setting
    ensures { result ≡ setting_of d }
{
    Setting {
        side: d.side,
        states: d.graph.states,
        cap: d.cap,
        frame: d.frames,
        margin: margin_of(d),
    }
}

// 6, which has no place.
fn unfit() -> Refusal
    ensures { result ≡ unfit }
{
    Reason::BadSetting.at(Place::Nowhere)
}

// The decoder with another finished table.
fn moved_to(d: Decoder, side: u32, frames: u32, seq: u32, used: u32) -> Decoder
    ensures { result ≡ moved_to d side frames seq used }
{
    Decoder {
        side,
        frames,
        seq,
        used,
        ..d
    }
}

// No tokens, no records and zero frames.
fn emptied(d: Decoder) -> Decoder
    ensures { result ≡ emptied_of d }
{
    moved_to(d, d.side, 0, 0, 0)
}

// The table in progress becomes the finished one.
fn turned(d: Decoder, frames: u32, w: Work) -> Decoder
    requires { d.side ≤ 1 }
    ensures { result ≡ turned_of d frames w }
{
    moved_to(d, 1 - d.side, frames, w.seq, w.used)
}

fn clear_both(tokens: &mut [u32], states: u32)
    requires { states * 8 ≤ length tokens.old }
    ensures { BothCleared tokens.old tokens.new states }
{
    tokens::clear(tokens, 0, states);
    tokens::clear(tokens, 1, states);
}

// All earlier tokens dropped; the start state's token, then the nonemitting pass with the beam as cutoff.
fn begin(
    tokens: &mut [u32],
    sums: &mut [f32],
    records: &mut [u32],
    labels: &mut [i32],
    gaps: &mut [f32],
    queue: &mut [u32],
    eps: &[u8],
    offsets: &[u32],
    ilabels: &[i32],
    olabels: &[i32],
    weights: &[f32],
    nextstates: &[u32],
    tid2pdf: &[i32],
    tid2phone: &[i32],
    decoder: Decoder,
) -> Called
    requires { BeginAsks (graph_tables offsets.now ilabels.now olabels.now weights.now nextstates.now tid2pdf.now tid2phone.now) (lent tokens.old sums.old records.old labels.old gaps.old) eps.now (length queue.old) decoder }
    ensures { BeginIs (graph_tables offsets.now ilabels.now olabels.now weights.now nextstates.now tid2pdf.now tid2phone.now) (lent tokens.old sums.old records.old labels.old gaps.old) (lent tokens.new sums.new records.new labels.new gaps.new) eps.now (length queue.old) decoder result }
{
    let states = decoder.graph.states;
    let first = decoder.graph.start;
    clear_both(tokens, states);
    if first == NO_STATE {
        return Called::Done(emptied(decoder));
    }
    let token = Token {
        cost: 0.0,
        graph: 0.0,
        link: 0,
        phone: 0,
        seq: 0,
    };
    tokens::put_token(tokens, sums, decoder.side, first, token);
    let setting = Setting {
        frame: 0,
        ..setting_of(decoder)
    };
    let w = Work {
        used: 0,
        seq: 0,
        link: 0,
        cutoff: decoder.config.beam,
        queued: 0,
    };
    match nonemitting::nonemitting(
        tokens, sums, records, labels, gaps, queue, eps, offsets, ilabels, olabels, weights,
        nextstates, tid2pdf, tid2phone, setting, w,
    ) {
        Err(reason) => {
            clear_both(tokens, states);
            Called::Refused(emptied(decoder), reason.at(Place::Nowhere))
        }
        Ok(end) => Called::Done(turned(decoder, 0, end)),
    }
}

// A start within the places of the stores: what lies behind them is not handed on.
fn begin_within(
    tokens: &mut [u32],
    sums: &mut [f32],
    records: &mut [u32],
    labels: &mut [i32],
    gaps: &mut [f32],
    queue: &mut [u32],
    eps: &[u8],
    offsets: &[u32],
    ilabels: &[i32],
    olabels: &[i32],
    weights: &[f32],
    nextstates: &[u32],
    tid2pdf: &[i32],
    tid2phone: &[i32],
    d: Decoder,
) -> Called
    requires { BeginAsks (graph_tables offsets.now ilabels.now olabels.now weights.now nextstates.now tid2pdf.now tid2phone.now) (lent tokens.old sums.old records.old labels.old gaps.old) eps.now (length queue.old) d }
    ensures { (BeginIs (graph_tables offsets.now ilabels.now olabels.now weights.now nextstates.now tid2pdf.now tid2phone.now) (lent tokens.old sums.old records.old labels.old gaps.old) (lent tokens.new sums.new records.new labels.new gaps.new) eps.now (length queue.old) d result) × (Behind d.graph.states d.cap (lent tokens.old sums.old records.old labels.old gaps.old) (lent tokens.new sums.new records.new labels.new gaps.new)) }
{
    let t = d.graph.states as usize * 8;
    let s = d.graph.states as usize * 4;
    let r = d.cap as usize * 8;
    let l = d.cap as usize * 2;
    begin(
        &mut tokens[..t],
        &mut sums[..s],
        &mut records[..r],
        &mut labels[..l],
        &mut gaps[..l],
        queue,
        eps,
        offsets,
        ilabels,
        olabels,
        weights,
        nextstates,
        tid2pdf,
        tid2phone,
        d,
    )
}

fn new_decoder(graph: Graph, config: Config, cap: u32) -> Decoder
    ensures { result ≡ new_decoder graph config cap }
{
    Decoder {
        graph,
        config,
        cap,
        keeps: false,
        margin: 0.0,
        side: 0,
        frames: 0,
        seq: 0,
        used: 0,
    }
}

// A new decoder over the lent stores, without margin, after its start, which may be refused; or why graph or settings are.
pub fn fit(
    tokens: &mut [u32],
    sums: &mut [f32],
    records: &mut [u32],
    labels: &mut [i32],
    gaps: &mut [f32],
    queue: &mut [u32],
    scratch: &[f32],
    keys: &[u64],
    places: &[u32],
    own: &[u32],
    heads: &[u32],
    list: &[u32],
    lists: &[u32],
    route: &[u32],
    history_keys: &[u64],
    history_skips: &[u32],
    kept_hashes: &[u64],
    kept_links: &[u32],
    kept_sums: &[f32],
    order: &[u32],
    eps: &mut [u8],
    offsets: &[u32],
    ilabels: &[i32],
    olabels: &[i32],
    weights: &[f32],
    nextstates: &[u32],
    finals: &[f32],
    tid2pdf: &[i32],
    tid2phone: &[i32],
    start: u32,
    pdfs: u32,
    config: Config,
) -> Result<Called, Refusal>
    ensures { FitIs (graph_of offsets.now ilabels.now olabels.now weights.now nextstates.now finals.now tid2pdf.now tid2phone.now start pdfs) (graph_tables offsets.now ilabels.now olabels.now weights.now nextstates.now tid2pdf.now tid2phone.now) (lent tokens.old sums.old records.old labels.old gaps.old) (lent tokens.new sums.new records.new labels.new gaps.new) (lengths_of (lent tokens.old sums.old records.old labels.old gaps.old) eps.old scratch.now keys.now places.now own.now heads.now list.now lists.now route.now history_keys.now history_skips.now kept_hashes.now kept_links.now kept_sums.now order.now) queue.old queue.new eps.old eps.new config result }
{
    let graph = fst::build(
        offsets, ilabels, olabels, weights, nextstates, finals, tid2pdf, tid2phone, start, pdfs,
    )?;
    let lengths = Lengths {
        tokens: tokens.len(),
        sums: sums.len(),
        eps: eps.len(),
        scratch: scratch.len(),
        keys: keys.len(),
        places: places.len(),
        own: own.len(),
        heads: heads.len(),
        list: list.len(),
        records: records.len(),
        labels: labels.len(),
        gaps: gaps.len(),
        lists: lists.len(),
        route: route.len(),
        history_keys: history_keys.len(),
        history_skips: history_skips.len(),
        kept_hashes: kept_hashes.len(),
        kept_links: kept_links.len(),
        kept_sums: kept_sums.len(),
        order: order.len(),
    };
    if checks::fit_wrong(config, lengths, graph.states as usize) {
        return Err(unfit());
    }
    fst::fill_eps(offsets, ilabels, eps);
    let d = new_decoder(graph, config, checks::record_places(lengths) as u32);
    Ok(begin_within(
        tokens, sums, records, labels, gaps, queue, eps, offsets, ilabels, olabels, weights,
        nextstates, tid2pdf, tid2phone, d,
    ))
}

// The Rust's `init_decoding`.
pub fn start(
    tokens: &mut [u32],
    sums: &mut [f32],
    records: &mut [u32],
    labels: &mut [i32],
    gaps: &mut [f32],
    queue: &mut [u32],
    eps: &[u8],
    offsets: &[u32],
    ilabels: &[i32],
    olabels: &[i32],
    weights: &[f32],
    nextstates: &[u32],
    tid2pdf: &[i32],
    tid2phone: &[i32],
    decoder: Decoder,
) -> Called
    requires { Left (graph_tables offsets.now ilabels.now olabels.now weights.now nextstates.now tid2pdf.now tid2phone.now) (lent tokens.old sums.old records.old labels.old gaps.old) eps.now (length queue.old) decoder }
    ensures { StartIs (graph_tables offsets.now ilabels.now olabels.now weights.now nextstates.now tid2pdf.now tid2phone.now) (lent tokens.old sums.old records.old labels.old gaps.old) (lent tokens.new sums.new records.new labels.new gaps.new) queue.old queue.new eps.now decoder result }
{
    begin_within(
        tokens, sums, records, labels, gaps, queue, eps, offsets, ilabels, olabels, weights,
        nextstates, tid2pdf, tid2phone, decoder,
    )
}

// The emitting pass, then the nonemitting one.
fn run_frame(
    tokens: &mut [u32],
    sums: &mut [f32],
    records: &mut [u32],
    labels: &mut [i32],
    gaps: &mut [f32],
    queue: &mut [u32],
    scratch: &mut [f32],
    eps: &[u8],
    offsets: &[u32],
    ilabels: &[i32],
    olabels: &[i32],
    weights: &[f32],
    nextstates: &[u32],
    tid2pdf: &[i32],
    tid2phone: &[i32],
    loglikes: &[f32],
    setting: Setting,
    config: Config,
    used: u32,
    seq: u32,
) -> Result<Work, Reason>
    requires { RunGiven setting (lent tokens.old sums.old records.old labels.old gaps.old) queue.old eps.now (tables offsets.now ilabels.now olabels.now weights.now nextstates.now tid2pdf.now tid2phone.now loglikes.now) config used seq × (setting.states ≤ length scratch.old) }
    ensures { RunIs setting (lent tokens.old sums.old records.old labels.old gaps.old) (lent tokens.new sums.new records.new labels.new gaps.new) queue.old queue.new eps.now (tables offsets.now ilabels.now olabels.now weights.now nextstates.now tid2pdf.now tid2phone.now loglikes.now) config used seq result }
{
    let w = emitting::emitting(
        tokens, sums, records, labels, gaps, queue, scratch, eps, offsets, ilabels, olabels,
        weights, nextstates, tid2pdf, tid2phone, loglikes, setting, config, used, seq,
    )?;
    nonemitting::nonemitting(
        tokens, sums, records, labels, gaps, queue, eps, offsets, ilabels, olabels, weights,
        nextstates, tid2pdf, tid2phone, setting, w,
    )
}

// The newest record of the finished tokens: what a refused frame put on is not used.
fn newest(tokens: &[u32], sums: &[f32], side: u32, states: u32) -> u32
    requires { (side ≤ 1) × (states * 8 ≤ length tokens.now) × (states * 4 ≤ length sums.now) }
    ensures { NewestIs tokens.now sums.now side states result }
{
    let mut most: u32 = 0;
    for s in 0..states {
        most = most.max(tokens::token_at(tokens, sums, side, s).link);
    }
    most
}

// A refused frame leaves the finished table; the records behind its newest are free again.
fn go_back(tokens: &[u32], sums: &[f32], d: Decoder) -> Decoder
    requires { (d.side ≤ 1) × (d.graph.states * 8 ≤ length tokens.now) × (d.graph.states * 4 ≤ length sums.now) }
    ensures { BackIs tokens.now sums.now d result }
{
    let used = newest(tokens, sums, 1 - d.side, d.graph.states);
    moved_to(d, d.side, d.frames, d.seq, used)
}

fn refused(d: Decoder, reason: Reason) -> Called
    ensures { result ≡ Called.Refused d (refused_at reason (Place.AtFrames d.frames)) }
{
    Called::Refused(d, reason.at(Place::AtFrames(d.frames)))
}

// A frame over stores of just their places.
fn advance(
    tokens: &mut [u32],
    sums: &mut [f32],
    records: &mut [u32],
    labels: &mut [i32],
    gaps: &mut [f32],
    queue: &mut [u32],
    scratch: &mut [f32],
    eps: &[u8],
    offsets: &[u32],
    ilabels: &[i32],
    olabels: &[i32],
    weights: &[f32],
    nextstates: &[u32],
    tid2pdf: &[i32],
    tid2phone: &[i32],
    loglikes: &[f32],
    decoder: Decoder,
) -> Called
    requires { FrameLeft (graph_tables offsets.now ilabels.now olabels.now weights.now nextstates.now tid2pdf.now tid2phone.now) (lent tokens.old sums.old records.old labels.old gaps.old) eps.now (length queue.old) (length scratch.old) decoder }
    ensures { AdvanceIs (graph_tables offsets.now ilabels.now olabels.now weights.now nextstates.now tid2pdf.now tid2phone.now) (lent tokens.old sums.old records.old labels.old gaps.old) (lent tokens.new sums.new records.new labels.new gaps.new) queue.old queue.new scratch.old scratch.new eps.now loglikes.now decoder result }
{
    if let Err(reason) = checks::check_frame(loglikes, decoder.frames, decoder.graph.pdfs) {
        return refused(decoder, reason);
    }
    let config = decoder.config;
    match run_frame(
        tokens,
        sums,
        records,
        labels,
        gaps,
        queue,
        scratch,
        eps,
        offsets,
        ilabels,
        olabels,
        weights,
        nextstates,
        tid2pdf,
        tid2phone,
        loglikes,
        setting_of(decoder),
        config,
        decoder.used,
        decoder.seq,
    ) {
        Err(reason) => refused(go_back(tokens, sums, decoder), reason),
        Ok(w) => Called::Done(turned(decoder, decoder.frames + 1, w)),
    }
}

// The Rust's `advance_frame`. A refused frame leaves every later answer as if it had not been sent.
pub fn frame(
    tokens: &mut [u32],
    sums: &mut [f32],
    records: &mut [u32],
    labels: &mut [i32],
    gaps: &mut [f32],
    queue: &mut [u32],
    scratch: &mut [f32],
    eps: &[u8],
    offsets: &[u32],
    ilabels: &[i32],
    olabels: &[i32],
    weights: &[f32],
    nextstates: &[u32],
    tid2pdf: &[i32],
    tid2phone: &[i32],
    loglikes: &[f32],
    decoder: Decoder,
) -> Called
    requires { FrameLeft (graph_tables offsets.now ilabels.now olabels.now weights.now nextstates.now tid2pdf.now tid2phone.now) (lent tokens.old sums.old records.old labels.old gaps.old) eps.now (length queue.old) (length scratch.old) decoder }
    ensures { FrameIs (graph_tables offsets.now ilabels.now olabels.now weights.now nextstates.now tid2pdf.now tid2phone.now) (lent tokens.old sums.old records.old labels.old gaps.old) (lent tokens.new sums.new records.new labels.new gaps.new) queue.old queue.new scratch.old scratch.new eps.now loglikes.now decoder result }
{
    let t = decoder.graph.states as usize * 8;
    let s = decoder.graph.states as usize * 4;
    let r = decoder.cap as usize * 8;
    let l = decoder.cap as usize * 2;
    advance(
        &mut tokens[..t],
        &mut sums[..s],
        &mut records[..r],
        &mut labels[..l],
        &mut gaps[..l],
        queue,
        scratch,
        eps,
        offsets,
        ilabels,
        olabels,
        weights,
        nextstates,
        tid2pdf,
        tid2phone,
        loglikes,
        decoder,
    )
}

// A margin that is not kept is 0.
fn kept_margin(keeps: bool, margin: f32) -> f32
    ensures { result ≡ cond keeps margin 0f }
{
    if keeps { margin } else { 0.0 }
}

fn with_margin(d: Decoder, keeps: bool, margin: f32) -> Decoder
    ensures { result ≡ with_margin d keeps margin }
{
    Decoder {
        keeps,
        margin: kept_margin(keeps, margin),
        ..d
    }
}

// The keep margin, or none.
pub fn set_keep(decoder: Decoder, keeps: bool, margin: f32) -> Called
    ensures { result ≡ keep_of decoder keeps margin }
{
    if checks::margin_wrong(keeps, margin) {
        return Called::Refused(decoder, unfit());
    }
    Called::Done(with_margin(decoder, keeps, margin))
}
