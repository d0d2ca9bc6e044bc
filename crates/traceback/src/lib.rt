// What is read between calls, of the finished token table and the record store: how many tokens are active, the relative cost, the best token, and a path's words
// and phones. The stores are lent to be read; a trace is written to the front of three lent parts.
#![tactic(auto)]

ghost use Rattle.std.specs.Prelude.{◌≡◌, ◌+◌, ◌-◌, ◌*◌, ◌≤◌, ◌<◌, ◌^◌, ◌&&◌, ◌||◌, ltb, length};
ghost use Rattle.std.specs.Float.Ieee.{eq};
ghost use Rattle.real32.specs.Least.{fmin};
ghost use Rattle.model.specs.Basics.{◌≺◌};
ghost use Rattle.model.specs.Path.{memℕ};
ghost use Rattle.traceback.specs.Table.{Counted, FinalsCount, LeastsAre, RelativeIs};
ghost use Rattle.traceback.specs.Ranks.{weight_in, rank_in, candidate_at, BestIs, soonest_of};
ghost use Rattle.traceback.specs.Trail.{no_trail};
ghost use Rattle.traceback.specs.Chain.{takes_kept, own_step, goes_on, kept_step, step_of, head_on, back_in, Walkable, trail_from, SizeIs};
ghost use Rattle.traceback.specs.Write.{WordAsks, WordPut, with_head, BegunIn, Wrote};
ghost use Rattle.traceback.specs.Right.{Fits, too_short, parts, TraceRight, ReadAsks, BestPathRight};

use refusals::Reason;
use tokens::next_active;

// The Rust's `num_active`.
pub fn num_active(tokens: &[u32], states: u32, side: u32) -> u32
    requires { (side ≤ 1) × (states * 8 ≤ length tokens.now) }
    ensures { Counted tokens.now side states result }
{
    let mut n = 0;
    let mut s = next_active(tokens, side, 0, states);
    while s < states {
        n += 1;
        s = next_active(tokens, side, s + 1, states);
    }
    n
}

// Whether final weights count: they are asked for, and some active state is final.
pub fn finals_count(tokens: &[u32], finals: &[f32], states: u32, side: u32, use_final: bool) -> bool
    requires { (side ≤ 1) × (states * 8 ≤ length tokens.now) }
    ensures { FinalsCount tokens.now finals.now side states use_final result }
{
    if !use_final {
        return false;
    }
    let mut s = next_active(tokens, side, 0, states);
    while s < states {
        if fst::is_final(finals, s) {
            return true;
        }
        s = next_active(tokens, side, s + 1, states);
    }
    false
}

// The lesser of two costs; the first where they are level, while f32's `min` may give either, as of 0 and -0.
fn lesser(x: f32, y: f32) -> f32
    ensures { result ≡ fmin x y }
{
    if y < x { y } else { x }
}

// The least cost, and the least with its final weight: +∞ where there is none.
#[derive(Clone, Copy)]
struct Leasts {
    cost: f32,
    ending: f32,
}

fn least_costs(tokens: &[u32], sums: &[f32], finals: &[f32], states: u32, side: u32) -> Leasts
    requires { (side ≤ 1) × (states * 8 ≤ length tokens.now) × (states * 4 ≤ length sums.now) × (states ≤ length finals.now) }
    ensures { LeastsAre tokens.now sums.now finals.now side states result }
{
    let mut cost = real32::infinity();
    let mut ending = real32::infinity();
    let mut s = next_active(tokens, side, 0, states);
    while s < states {
        let c = tokens::cost_at(sums, side, s);
        cost = lesser(cost, c);
        ending = lesser(ending, c + finals[s as usize]);
        s = next_active(tokens, side, s + 1, states);
    }
    Leasts { cost, ending }
}

// The Rust's `final_relative_cost`.
pub fn final_relative_cost(
    tokens: &[u32],
    sums: &[f32],
    finals: &[f32],
    states: u32,
    side: u32,
) -> f32
    requires { (side ≤ 1) × (states * 8 ≤ length tokens.now) × (states * 4 ≤ length sums.now) × (states ≤ length finals.now) }
    ensures { RelativeIs tokens.now sums.now finals.now side states result }
{
    let least = least_costs(tokens, sums, finals, states, side);
    if real32::is_finite(least.cost) {
        return least.ending - least.cost;
    }
    if real32::is_finite(least.ending) {
        return least.ending - least.cost;
    }
    real32::infinity()
}

// What is added to the cost of a state's token where it ends there: its final weight, or nothing where finals do not count.
pub fn end_weight(finals: &[f32], s: u32, counts: bool) -> f32
    requires { s < length finals.now }
    ensures { result ≡ weight_in finals.now s counts }
{
    if counts { finals[s as usize] } else { 0.0 }
}

const GRAPH_SCALE: f32 = 0.9;

// The rank of a cost c that already has the final weight.
fn rank_of(c: f32, graph: f32, weight: f32, counts: bool) -> f32
    ensures { result ≡ rank_in c graph weight counts }
{
    if counts {
        c - (1.0 - GRAPH_SCALE) * (graph + weight)
    } else {
        c
    }
}

// A token that may be the best: its state, its newest record and seq, its rank, and its cost with the final weight.
#[derive(Clone, Copy)]
pub struct Candidate {
    pub state: u32,
    pub link: u32,
    pub seq: u32,
    pub rank: f32,
    pub cost: f32,
}

// The token of an active state: nobody where its cost with the final weight is not finite.
pub fn candidate_at(
    tokens: &[u32],
    sums: &[f32],
    finals: &[f32],
    side: u32,
    s: u32,
    counts: bool,
) -> Option<Candidate>
    requires { (side ≤ 1) × (s * 8 + 8 ≤ length tokens.now) × (s * 4 + 4 ≤ length sums.now) × (s < length finals.now) }
    ensures { result ≡ candidate_at tokens.now sums.now finals.now side s counts }
{
    let t = tokens::token_at(tokens, sums, side, s);
    let weight = end_weight(finals, s, counts);
    let cost = t.cost + weight;
    if !real32::is_finite(cost) {
        return None;
    }
    let rank = rank_of(cost, t.graph, weight, counts);
    Some(Candidate {
        state: s,
        link: t.link,
        seq: t.seq,
        rank,
        cost,
    })
}

// Of two ranks with their seqs, whether the first comes first: a lower rank does, and of equal ranks the larger seq.
pub fn comes_first(a: (f32, u32), b: (f32, u32)) -> bool
    ensures { result ≡ (a.0 ≺ b.0 || (eq a.0 b.0 && ltb b.1 a.1)) }
{
    if a.0 < b.0 {
        return true;
    }
    if a.0 == b.0 {
        return b.1 < a.1;
    }
    false
}

pub fn is_sooner(a: Candidate, b: Candidate) -> bool
    ensures { result ≡ (a.rank ≺ b.rank || (eq a.rank b.rank && ltb b.seq a.seq)) }
{
    comes_first((a.rank, a.seq), (b.rank, b.seq))
}

// The sooner of two; `a` where neither is.
fn soonest(a: Option<Candidate>, b: Option<Candidate>) -> Option<Candidate>
    ensures { result ≡ soonest_of a b }
{
    match a {
        None => b,
        Some(x) => match b {
            None => a,
            Some(y) => { if is_sooner(y, x) { b } else { a } }
        },
    }
}

// The Rust's `best_token`. It goes from the last state to the first, so that the best of the states passed is the first of them as the definition sorts them.
pub fn best_token(
    tokens: &[u32],
    sums: &[f32],
    finals: &[f32],
    states: u32,
    side: u32,
    use_final: bool,
) -> Option<Candidate>
    requires { (side ≤ 1) × (states * 8 ≤ length tokens.now) × (states * 4 ≤ length sums.now) × (states ≤ length finals.now) }
    ensures { BestIs tokens.now sums.now finals.now side states use_final result }
{
    let counts = finals_count(tokens, finals, states, side, use_final);
    let mut best = None;
    for s in (0..states).rev() {
        if tokens::is_active(tokens, side, s) {
            best = soonest(candidate_at(tokens, sums, finals, side, s, counts), best);
        }
    }
    best
}

// ---- traces

// What a trace reads of a record: the record to read after it, its frame, word and phone (0 for none); and where a kept history is left, the phone that goes on from the frame `at` (0 for none).
#[derive(Clone, Copy)]
pub struct Step {
    pub next: u32,
    pub frame: u32,
    pub word: i32,
    pub phone: u32,
    pub back: u32,
    pub at: u32,
}

// Whether a record is one of the joins whose kept history is taken.
fn on_route(route: &[u32], r: u32) -> bool
    ensures { result ≡ memℕ r route.now }
{
    for &join in route {
        if join == r {
            return true;
        }
    }
    false
}

fn takes_kept(records: &[u32], labels: &[i32], route: &[u32], r: u32) -> bool
    requires { (0 < r) × (r * 8 ≤ length records.now) × (r * 2 ≤ length labels.now) }
    ensures { result ≡ takes_kept records.now labels.now route.now (r - 1) }
{
    if records::word_of(labels, r) != 0 {
        return false;
    }
    if records::starts_of(records, r) != 0 {
        return false;
    }
    on_route(route, r)
}

// A record on the way itself; a join has neither word nor phone.
fn own_step(records: &[u32], labels: &[i32], r: u32) -> Step
    requires { (0 < r) × (r * 8 ≤ length records.now) × (r * 2 ≤ length labels.now) }
    ensures { result ≡ own_step records.now labels.now (r - 1) }
{
    Step {
        next: records::prev_of(records, r),
        frame: records::frame_of(records, r),
        word: records::word_of(labels, r),
        phone: records::starts_of(records, r),
        back: 0,
        at: 0,
    }
}

// Whether the winner's phone goes on after the frame, of n decoded.
fn goes_on(kept: u32, winner: u32, frame: u32, n: u32) -> bool
    ensures { result ≡ goes_on kept winner frame n }
{
    if kept == winner {
        return false;
    }
    if n <= frame {
        return false;
    }
    frame + 1 < n
}

// A join whose kept history is taken.
fn kept_step(records: &[u32], labels: &[i32], n: u32, r: u32) -> Step
    requires { (0 < r) × (r * 8 ≤ length records.now) × (r * 2 ≤ length labels.now) }
    ensures { result ≡ kept_step records.now labels.now n (r - 1) }
{
    let frame = records::frame_of(records, r);
    let step = Step {
        next: records::kept_of(records, r),
        frame,
        word: records::kept_word_of(labels, r),
        phone: records::kept_starts_of(records, r),
        back: 0,
        at: 0,
    };
    let winner = records::winner_of(records, r);
    if goes_on(records::kept_phone_of(records, r), winner, frame, n) {
        return Step {
            back: winner,
            at: frame + 1,
            ..step
        };
    }
    step
}

pub fn step_at(records: &[u32], labels: &[i32], route: &[u32], n: u32, r: u32) -> Step
    requires { (0 < r) × (r * 8 ≤ length records.now) × (r * 2 ≤ length labels.now) }
    ensures { result ≡ step_of records.now labels.now route.now n (r - 1) }
{
    if takes_kept(records, labels, route, r) {
        kept_step(records, labels, n, r)
    } else {
        own_step(records, labels, r)
    }
}

// The oldest segment so far, and how many there are. Where there is none its phone is 0, and its start the number of frames.
#[derive(Clone, Copy)]
struct Head {
    count: u32,
    phone: u32,
    start: u32,
    end: u32,
}

// A phone (0 for none) that starts at a frame, before all so far. Where the oldest segment is in it already, that one begins earlier.
fn begin(head: Head, phone: u32, frame: u32) -> Head
    requires { head.count < 2 ^ 32 - 1 }
    ensures { result ≡ head_on head phone frame }
{
    if phone == 0 {
        return head;
    }
    if head.phone == phone {
        return Head {
            start: frame,
            ..head
        };
    }
    Head {
        count: head.count + 1,
        phone,
        start: frame,
        end: head.start,
    }
}

// The phone that goes on where a kept history is left, unless one starts there.
fn resumes(head: Head, s: Step) -> u32
    ensures { result ≡ back_in head s }
{
    if head.start == s.at { 0 } else { s.back }
}

// How many words and segments a trace has.
#[derive(Clone, Copy)]
pub struct Size {
    pub words: u32,
    pub segments: u32,
}

// Goes from the newest record back to the oldest.
pub fn measure(records: &[u32], labels: &[i32], route: &[u32], used: u32, n: u32, link: u32) -> Size
    requires { (Walkable records.now labels.now used) × (link ≤ used) }
    ensures { SizeIs (trail_from records.now labels.now route.now n link no_trail) used result }
{
    let mut words = 0;
    let mut head = Head {
        count: 0,
        phone: 0,
        start: n,
        end: n,
    };
    let mut r = link;
    while r != 0 {
        let s = step_at(records, labels, route, n, r);
        if s.word != 0 {
            words += 1;
        }
        head = begin(head, resumes(head, s), s.at);
        head = begin(head, s.phone, s.frame);
        r = s.next;
    }
    Size {
        words,
        segments: head.count,
    }
}

// Puts a word (0 for none) and its frame in front of the place `at`: the place of the first word then.
fn put_word(words: &mut [i32], frames: &mut [u32], at: u32, word: i32, frame: u32) -> u32
    requires { WordAsks words.old frames.old at word }
    ensures { WordPut words.old words.new frames.old frames.new at word frame result }
{
    if word == 0 {
        return at;
    }
    let i = (at - 1) as usize;
    words[i] = word;
    frames[i] = frame;
    at - 1
}

// Puts a segment at its place, of so many in all.
fn put_segment(segments: &mut [u32], total: u32, head: Head)
    requires { (0 < head.count) × (head.count ≤ total) × (total * 3 ≤ length segments.old) }
    ensures { segments.new ≡ with_head segments.old total head }
{
    let i = (total - head.count) as usize * 3;
    segments[i] = head.phone;
    segments[i + 1] = head.start;
    segments[i + 2] = head.end;
}

// `begin`, and a segment that is done then is written.
fn begin_in(segments: &mut [u32], total: u32, head: Head, phone: u32, frame: u32) -> Head
    requires { (head.count ≤ total) × (total < 2 ^ 32 - 1) × (total * 3 ≤ length segments.old) }
    ensures { BegunIn segments.old segments.new total head phone frame result }
{
    let next = begin(head, phone, frame);
    if head.count == 0 {
        return next;
    }
    if next.count == head.count {
        return next;
    }
    put_segment(segments, total, head);
    next
}

// Fills the parts from their ends, from the newest record back to the oldest. `size` is what `measure` gave.
pub fn write(
    records: &[u32],
    labels: &[i32],
    route: &[u32],
    used: u32,
    n: u32,
    link: u32,
    size: Size,
    words: &mut [i32],
    frames: &mut [u32],
    segments: &mut [u32],
)
    requires { (Walkable records.now labels.now used) × (link ≤ used) × (SizeIs (trail_from records.now labels.now route.now n link no_trail) used size) × (Fits size words.old frames.old segments.old) }
    ensures { Wrote (trail_from records.now labels.now route.now n link no_trail) words.old frames.old segments.old words.new frames.new segments.new }
{
    let mut at = size.words;
    let mut head = Head {
        count: 0,
        phone: 0,
        start: n,
        end: n,
    };
    let mut r = link;
    while r != 0 {
        let s = step_at(records, labels, route, n, r);
        at = put_word(words, frames, at, s.word, s.frame);
        head = begin_in(segments, size.segments, head, resumes(head, s), s.at);
        head = begin_in(segments, size.segments, head, s.phone, s.frame);
        r = s.next;
    }
    if head.count != 0 {
        put_segment(segments, size.segments, head);
    }
}

// Whether parts of these lengths are too short for a trace, with room for so many segments.
fn too_short(size: Size, words: usize, frames: usize, segments: usize) -> bool
    ensures { result ≡ too_short size words frames segments }
{
    if words < size.words as usize {
        return true;
    }
    if frames < size.words as usize {
        return true;
    }
    segments < size.segments as usize
}

// The Rust's `trace_route`, from the record `link` on: words, their frames, and three numbers for each segment. `n` are the frames decoded, and the route has the
// records of the joins whose kept histories are taken. What is too short is refused (11) before anything is written.
pub fn trace(
    records: &[u32],
    labels: &[i32],
    route: &[u32],
    used: u32,
    n: u32,
    link: u32,
    words: &mut [i32],
    frames: &mut [u32],
    segments: &mut [u32],
) -> Result<Size, Reason>
    requires { (Walkable records.now labels.now used) × (link ≤ used) }
    ensures { TraceRight records.now labels.now route.now used n link (parts words.old frames.old segments.old) (parts words.new frames.new segments.new) result }
{
    let size = measure(records, labels, route, used, n, link);
    if too_short(size, words.len(), frames.len(), segments.len() / 3) {
        return Err(Reason::TooShort);
    }
    write(
        records, labels, route, used, n, link, size, words, frames, segments,
    );
    Ok(size)
}

// The size and the cost of the best path.
#[derive(Clone, Copy)]
pub struct BestPath {
    pub size: Size,
    pub cost: f32,
}

// The Rust's `best_path`: none where there is no token; what is too short is refused (11).
pub fn best_path(
    tokens: &[u32],
    sums: &[f32],
    finals: &[f32],
    records: &[u32],
    labels: &[i32],
    states: u32,
    side: u32,
    used: u32,
    n: u32,
    use_final: bool,
    words: &mut [i32],
    frames: &mut [u32],
    segments: &mut [u32],
) -> Result<Option<BestPath>, Reason>
    requires { ReadAsks tokens.now sums.now finals.now records.now labels.now states side used }
    ensures { BestPathRight tokens.now sums.now finals.now records.now labels.now states side used n use_final (parts words.old frames.old segments.old) (parts words.new frames.new segments.new) result }
{
    let Some(best) = best_token(tokens, sums, finals, states, side, use_final) else {
        return Ok(None);
    };
    let size = trace(
        records,
        labels,
        &records[..0],
        used,
        n,
        best.link,
        words,
        frames,
        segments,
    )?;
    Ok(Some(BestPath {
        size,
        cost: best.cost,
    }))
}
