// One arriving arc: what it meets, and what comes of it. The same for both passes, which differ in the total, the phone and what follows.
#![tactic(auto)]

ghost use Rattle.std.specs.Prelude.{◌≡◌, ◌+◌, ◌*◌, ◌<◌, ◌≤◌, length};
ghost use Rattle.tokens.specs.Layout.{place_in, cell_at, token_of};
ghost use Rattle.compaction.specs.Carried.{Holds};
ghost use Rattle.arrivals.specs.Arrival.{starts_of, links, meets_at, is_cut_off};
ghost use Rattle.arrivals.specs.Room.{wants, RoomIs};
ghost use Rattle.stores.specs.Rep.{lent};
ghost use Rattle.arrivals.specs.Stood.{Given};
ghost use Rattle.arrivals.specs.Arrives.{ArriveIs};
ghost use Rattle.records.specs.Layout.{store};
ghost use Rattle.arrivals.specs.PutOn.{RoomFor, PutOnIs};
ghost use Rattle.arrivals.specs.Settled.{with_link, new_token, SettleAsks, FillIs, BeatIs, LoseIs, SettledIs};

use compaction::Made;
use refusals::Reason;
use tokens::Token;

// What an arc brings to its target: its total, the graph sum, its word (0 for none), the phone it is in, and the target.
#[derive(Clone, Copy)]
pub struct Arrival {
    pub total: f32,
    pub graph: f32,
    pub word: i32,
    pub phone: u32,
    pub target: u32,
}

// What stands still during a pass: the table in progress, the number of states, the places for records, the frame, and the keep margin, if there is one.
#[derive(Clone, Copy)]
pub struct Setting {
    pub side: u32,
    pub states: u32,
    pub cap: u32,
    pub frame: u32,
    pub margin: Option<f32>,
}

// What an arc meets: a total at or above the cutoff, a state with no token, or one whose token it beats, or does not, by a gap.
#[derive(Clone, Copy)]
pub enum Meets {
    CutOff,
    Vacant,
    Better(f32),
    NotBetter(f32),
}

pub fn meet(tokens: &[u32], sums: &[f32], side: u32, s: u32, cutoff: f32, total: f32) -> Meets
    requires { (side ≤ 1) × (s * 8 + 8 ≤ length tokens.now) × (s * 4 + 4 ≤ length sums.now) }
    ensures { result ≡ meets_at cutoff total (cell_at tokens.now sums.now (place_in side s)) }
{
    if cutoff <= total {
        return Meets::CutOff;
    }
    if !tokens::is_active(tokens, side, s) {
        return Meets::Vacant;
    }
    let cost = tokens::cost_at(sums, side, s);
    if total < cost {
        Meets::Better(cost - total)
    } else {
        Meets::NotBetter(total - cost)
    }
}

// The phone that an arrival starts, 0 where it does not change.
fn starts(source: Token, a: Arrival) -> u32
    ensures { result ≡ starts_of source a }
{
    if a.phone == source.phone { 0 } else { a.phone }
}

// Whether an arrival makes a record: it has a word, or changes the phone.
fn is_link(source: Token, a: Arrival) -> bool
    ensures { result ≡ links source a }
{
    a.word != 0 || starts(source, a) != 0
}

// A winner's newest record, and how many records there are then.
#[derive(Clone, Copy)]
pub struct Linked {
    pub link: u32,
    pub used: u32,
}

// A winner's graph sum (12), then its record (13) where it has a word or changes the phone.
fn put_on(
    records: &mut [u32],
    labels: &mut [i32],
    setting: Setting,
    used: u32,
    source: Token,
    a: Arrival,
) -> Result<Linked, Reason>
    requires { RoomFor setting.cap used records.old labels.old }
    ensures { PutOnIs records.old records.new labels.old labels.new setting used source a result }
{
    if !real32::is_tame(a.graph) {
        return Err(Reason::SumTooLarge);
    }
    if !is_link(source, a) {
        return Ok(Linked {
            link: source.link,
            used,
        });
    }
    if used == setting.cap {
        return Err(Reason::RecordsFull);
    }
    let link = records::put_link(
        records,
        labels,
        used,
        source.link,
        setting.frame,
        a.word,
        starts(source, a),
    );
    Ok(Linked { link, used: link })
}

// How many records there are, and the latest seq.
#[derive(Clone, Copy)]
pub struct Counts {
    pub used: u32,
    pub seq: u32,
}

// What becomes of the state: its token stays, or it has this token, new or with a loser joined to it.
#[derive(Clone, Copy)]
pub enum Settled {
    Stays,
    Wins(Token, Counts),
    Joins(Token, Counts),
}

fn with_link(t: Token, link: u32) -> Token
    ensures { result ≡ with_link t link }
{
    Token { link, ..t }
}

// The arriving token.
fn new_token(a: Arrival, link: u32, seq: u32) -> Token
    ensures { result ≡ new_token a link seq }
{
    Token {
        cost: a.total,
        graph: a.graph,
        link,
        phone: a.phone,
        seq,
    }
}

// Into an empty state: the arc's token, with the next seq.
fn fill(
    records: &mut [u32],
    labels: &mut [i32],
    setting: Setting,
    counts: Counts,
    source: Token,
    a: Arrival,
) -> Result<Settled, Reason>
    requires { RoomFor setting.cap counts.used records.old labels.old }
    ensures { FillIs records.old records.new labels.old labels.new setting counts source a result }
{
    let seq = counts.seq.wrapping_add(1);
    let on = put_on(records, labels, setting, counts.used, source, a)?;
    Ok(Settled::Wins(new_token(a, on.link, seq), Counts { used: on.used, seq }))
}

// Better: the arc's token with the seq of the one that it beats, and that one kept if it is worth it.
fn beat(
    records: &mut [u32],
    labels: &mut [i32],
    gaps: &mut [f32],
    setting: Setting,
    counts: Counts,
    gap: f32,
    source: Token,
    a: Arrival,
    held: Token,
) -> Result<Settled, Reason>
    requires { SettleAsks (store records.old labels.old gaps.old) setting counts source held }
    ensures { BeatIs (store records.old labels.old gaps.old) (store records.new labels.new gaps.new) setting counts gap source a held result }
{
    let on = put_on(records, labels, setting, counts.used, source, a)?;
    let new = new_token(a, on.link, held.seq);
    let kept = joins::keep(
        records,
        labels,
        gaps,
        on.used,
        setting.cap,
        setting.frame,
        setting.margin,
        gap,
        new,
        held,
        0,
        0,
    )?;
    Ok(match kept {
        None => Settled::Wins(
            new,
            Counts {
                used: on.used,
                ..counts
            },
        ),
        Some(r) => Settled::Wins(with_link(new, r), Counts { used: r, ..counts }),
    })
}

// Not better: the state's token stays, with the arrival kept if it is worth it.
fn lose(
    records: &mut [u32],
    labels: &mut [i32],
    gaps: &mut [f32],
    setting: Setting,
    counts: Counts,
    gap: f32,
    source: Token,
    a: Arrival,
    held: Token,
) -> Result<Settled, Reason>
    requires { SettleAsks (store records.old labels.old gaps.old) setting counts source held }
    ensures { LoseIs (store records.old labels.old gaps.old) (store records.new labels.new gaps.new) setting counts gap source a held result }
{
    let lost = new_token(a, source.link, 0);
    let kept = joins::keep(
        records,
        labels,
        gaps,
        counts.used,
        setting.cap,
        setting.frame,
        setting.margin,
        gap,
        held,
        lost,
        a.word,
        starts(source, a),
    )?;
    Ok(match kept {
        None => Settled::Stays,
        Some(r) => Settled::Joins(with_link(held, r), Counts { used: r, ..counts }),
    })
}

// What comes of an arc whose total passed the cutoff.
fn settle(
    tokens: &[u32],
    sums: &[f32],
    records: &mut [u32],
    labels: &mut [i32],
    gaps: &mut [f32],
    setting: Setting,
    counts: Counts,
    source: Token,
    a: Arrival,
    met: Meets,
) -> Result<Settled, Reason>
    requires side_bound { (setting.side ≤ 1) × (a.target * 8 + 8 ≤ length tokens.now) × (a.target * 4 + 4 ≤ length sums.now) }
    requires settle_asks { SettleAsks (store records.old labels.old gaps.old) setting counts source (token_of (cell_at tokens.now sums.now (place_in setting.side a.target))) }
    ensures { SettledIs (store records.old labels.old gaps.old) (store records.new labels.new gaps.new) setting counts source a (cell_at tokens.now sums.now (place_in setting.side a.target)) met result }
{
    match met {
        Meets::CutOff => Ok(Settled::Stays),
        Meets::Vacant => fill(records, labels, setting, counts, source, a),
        Meets::Better(gap) => {
            let held = tokens::token_at(tokens, sums, setting.side, a.target);
            beat(records, labels, gaps, setting, counts, gap, source, a, held)
        }
        Meets::NotBetter(gap) => {
            let held = tokens::token_at(tokens, sums, setting.side, a.target);
            lose(records, labels, gaps, setting, counts, gap, source, a, held)
        }
    }
}

fn wants_record(setting: Setting, source: Token, a: Arrival) -> bool
    ensures { result ≡ wants setting source a }
{
    is_link(source, a) || setting.margin.is_some()
}

// Room for the records that an arc may want: a link, where it has a word or changes the phone, and a join, where a margin is set.
fn make_room(
    tokens: &mut [u32],
    records: &mut [u32],
    labels: &mut [i32],
    gaps: &mut [f32],
    setting: Setting,
    used: u32,
    source: Token,
    a: Arrival,
) -> Made
    requires { (setting.states ≤ 65535) × Holds (store records.old labels.old gaps.old) tokens.old (setting.states * 2) used source.link }
    ensures { RoomIs (store records.old labels.old gaps.old) (store records.new labels.new gaps.new) tokens.old tokens.new setting used source a result }
{
    let link = source.link;
    if !wants_record(setting, source, a) {
        return Made { used, x: link };
    }
    compaction::make_room(
        records,
        labels,
        gaps,
        tokens,
        setting.states * 2,
        used,
        setting.cap,
        link,
    )
}

// How far a pass has got: the records, the latest seq, and the source's newest record, which a compaction renumbers.
#[derive(Clone, Copy)]
pub struct Going {
    pub used: u32,
    pub seq: u32,
    pub link: u32,
}

// What became of the arc: cut off, the state's token stays, it has the arc's, or the arc's is joined to it.
#[derive(Clone, Copy)]
pub enum Arrived {
    Cut,
    Stays(Going),
    Wins(Going),
    Joins(Going),
}

fn is_cut(met: Meets) -> bool
    ensures { result ≡ is_cut_off met }
{
    matches!(met, Meets::CutOff)
}

// One arriving arc, up to the lowered cutoff or the push: 12 for its total, 12 for a winner's graph sum, 13 for its record, 13 for its join.
pub fn arrive(
    tokens: &mut [u32],
    sums: &mut [f32],
    records: &mut [u32],
    labels: &mut [i32],
    gaps: &mut [f32],
    setting: Setting,
    cutoff: f32,
    going: Going,
    source: Token,
    a: Arrival,
) -> Result<Arrived, Reason>
    requires { Given setting (lent tokens.old sums.old records.old labels.old gaps.old) cutoff going source a }
    ensures { ArriveIs setting (lent tokens.old sums.old records.old labels.old gaps.old) (lent tokens.new sums.new records.new labels.new gaps.new) cutoff going source a result }
{
    let met = meet(tokens, sums, setting.side, a.target, cutoff, a.total);
    if is_cut(met) {
        return Ok(Arrived::Cut);
    }
    if !real32::is_tame(a.total) {
        return Err(Reason::SumTooLarge);
    }
    let made = make_room(
        tokens,
        records,
        labels,
        gaps,
        setting,
        going.used,
        with_link(source, going.link),
        a,
    );
    let link = made.x;
    let counts = Counts {
        used: made.used,
        seq: going.seq,
    };
    let settled = settle(
        tokens,
        sums,
        records,
        labels,
        gaps,
        setting,
        counts,
        with_link(source, link),
        a,
        met,
    )?;
    Ok(match settled {
        Settled::Stays => Arrived::Stays(Going {
            used: made.used,
            seq: going.seq,
            link,
        }),
        Settled::Wins(t, n) => {
            tokens::put_token(tokens, sums, setting.side, a.target, t);
            Arrived::Wins(Going {
                used: n.used,
                seq: n.seq,
                link,
            })
        }
        Settled::Joins(t, n) => {
            tokens::put_token(tokens, sums, setting.side, a.target, t);
            Arrived::Joins(Going {
                used: n.used,
                seq: n.seq,
                link,
            })
        }
    })
}
