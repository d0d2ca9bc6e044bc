// Reads a script of silence calls from standard input and writes their answers, both in the binary form of oracle/FORMAT.md.
#![tactic(auto)]

ghost use Rattle.std.specs.Prelude.{◌≡◌, ◌+◌, ◌*◌, ◌≤◌, length};
ghost use Rattle.script.specs.Words.{word_count};
ghost use Rattle.replay_silence.specs.Shape.{CountWithin, FillUp};

use refusals::Reason;
use replay_answers::{say, say_bytes, say_fault, say_refused, say_word};
use script::{CutShort, Record, Word, places};
use silence_weighting::{SilenceWeighting, Weighed};

// Standard input.
const STDIN_FILENO: i32 = 0;

// The kinds of the calls.
const NEW: u32 = 20;

const TRACEBACK: u32 = 21;

const DELTAS: u32 = 22;

const TRAILING: u32 = 23;

const ACTIVE: u32 = 24;

// A silence state of the script.
#[derive(Clone, Copy)]
struct Held {
    state: SilenceWeighting,
    // how many frames its store holds
    places: usize,
    // where its silence phones stand in the script, and how many there are
    phones: usize,
    count: usize,
}

// Why the program ends before the script does.
#[derive(Clone, Copy)]
enum Stop {
    CutShort,
    // a call did not fit the arrays of this program, and what follows would not be answered as in FORMAT.md
    DoesNotFit,
}

impl From<CutShort> for Stop {
    fn from(_: CutShort) -> Stop {
        Stop::CutShort
    }
}

// The whole script is read at once. One that fills the buffer may not have ended, and gets a fault for its only answer.
fn main() {
    let mut input: [u8; 262144] = places(0);
    // one frame more than there can be, so that it is the library that refuses
    let mut status: [u32; 65537] = places(0);
    let mut weights: [f32; 65537] = places(0.0);
    let n = io::read_full(STDIN_FILENO, &mut input);
    if n < 262144 {
        match replay(&input[..n], &mut status, &mut weights) {
            Err(Stop::CutShort) => say_fault(0),
            Err(Stop::DoesNotFit) | Ok(()) => (),
        }
    } else {
        say_fault(0);
    }
}

// Answers each record in turn, up to the end, to one that is cut short, or to one that does not fit.
#[tactic(auto, using(script::specs::Records::whole_within))]
fn replay(bytes: &[u8], status: &mut [u32], weights: &mut [f32]) -> Result<(), Stop>
    requires { (65537 ≤ length status.old) × (65537 ≤ length weights.old) }
{
    let mut made = None;
    let mut at = 0;
    while let Some(r) = script::record_at(bytes, at)? {
        at = r.start + r.count;
        made = answer(bytes, r, made, status, weights)?;
    }
    Ok(())
}

fn answer(
    bytes: &[u8],
    r: Record,
    made: Option<Held>,
    status: &mut [u32],
    weights: &mut [f32],
) -> Result<Option<Held>, Stop>
    requires { (r.start + r.count ≤ word_count bytes.now) × (65537 ≤ length status.old) × (65537 ≤ length weights.old) }
{
    let kind = r.kind;
    if kind == NEW {
        return Ok(new(bytes, r.start, r.count).or(made));
    }
    if kind == TRAILING {
        trailing(bytes, r.start, r.count)?;
        return Ok(made);
    }
    match made {
        Some(held) => {
            let state = answer_held(bytes, r, held, status, weights)?;
            Ok(Some(Held { state, ..held }))
        }
        None => {
            say_fault(kind);
            Ok(None)
        }
    }
}

// A call on the silence state: the state after it.
fn answer_held(
    bytes: &[u8],
    r: Record,
    held: Held,
    status: &mut [u32],
    weights: &mut [f32],
) -> Result<SilenceWeighting, Stop>
    requires { (r.start + r.count ≤ word_count bytes.now) × (65537 ≤ length status.old) × (65537 ≤ length weights.old) }
{
    let kind = r.kind;
    if kind == TRACEBACK {
        return traceback(bytes, r.start, r.count, held, status, weights);
    }
    if kind == DELTAS {
        return deltas(bytes, r.start, r.count, held, status, weights);
    }
    if kind == ACTIVE {
        return active(bytes, held);
    }
    say_fault(kind);
    Ok(held.state)
}

// ---- the calls

// The payload is a weight, the subsampling, the places, and the silence phones with their number before them. None where it is misshapen or refused.
fn new(bytes: &[u8], start: usize, count: usize) -> Option<Held>
    requires { start + count ≤ word_count bytes.now }
{
    if count < 4 || count - 4 != script::word_at(bytes, start + 3) as usize {
        say_fault(NEW);
        return None;
    }
    let weight = f32::from_word(script::word_at(bytes, start));
    match SilenceWeighting::new(weight, script::word_at(bytes, start + 1)) {
        Err(reason) => {
            say_refused(NEW, reason);
            None
        }
        Ok(state) => {
            say(NEW, 0);
            Some(Held {
                state,
                places: script::word_at(bytes, start + 2) as usize,
                phones: start + 4,
                count: count - 4,
            })
        }
    }
}

// The payload is the number of frames decoded, and the segments.
fn traceback(
    bytes: &[u8],
    start: usize,
    count: usize,
    held: Held,
    status: &mut [u32],
    weights: &mut [f32],
) -> Result<SilenceWeighting, Stop>
    requires { (start + count ≤ word_count bytes.now) × (65537 ≤ length status.old) × (65537 ≤ length weights.old) }
{
    if count % 3 != 1 {
        say_fault(TRACEBACK);
        return Ok(held.state);
    }
    let n = count / 3;
    if 4096 < n {
        return Err(does_not_fit(TRACEBACK));
    }
    tell(bytes, start, n, held, status, weights)
}

// The traceback of n segments.
fn tell(
    bytes: &[u8],
    start: usize,
    n: usize,
    held: Held,
    status: &mut [u32],
    weights: &mut [f32],
) -> Result<SilenceWeighting, Stop>
    requires { (start + 3 * n + 1 ≤ word_count bytes.now) × (n ≤ 4096) × (65537 ≤ length status.old) × (65537 ≤ length weights.old) }
{
    let mut silence = [0i32; 4096];
    let m = held.count;
    if !script::fill(bytes, held.phones, &mut silence, m) {
        return Err(does_not_fit(TRACEBACK));
    }
    let mut phones = [0i32; 4096];
    let mut starts = [0u32; 4096];
    let mut ends = [0u32; 4096];
    fill_segments(bytes, start + 1, n, &mut phones, &mut starts, &mut ends);
    let places = held.places.min(65537);
    let state = held.state;
    let next = state.compute_current_traceback(
        &silence[..m],
        &phones[..n],
        &starts[..n],
        &ends[..n],
        script::word_at(bytes, start),
        &mut status[..places],
        &mut weights[..places],
    );
    match next {
        Err(reason) => {
            say_refused(TRACEBACK, reason);
            Ok(state)
        }
        Ok(next) => {
            say_word(TRACEBACK, next.frames);
            Ok(next)
        }
    }
}

// The payload is the frames that are ready and the first one, two words each, and perhaps the places of the output.
fn deltas(
    bytes: &[u8],
    start: usize,
    count: usize,
    held: Held,
    status: &mut [u32],
    weights: &mut [f32],
) -> Result<SilenceWeighting, Stop>
    requires { (start + count ≤ word_count bytes.now) × (65537 ≤ length status.old) × (65537 ≤ length weights.old) }
{
    if count < 4 || 5 < count {
        say_fault(DELTAS);
        return Ok(held.state);
    }
    let room = room_of(bytes, start, count);
    let mut frames: [u64; 16384] = places(0);
    let mut differences: [f32; 16384] = places(0.0);
    let weighed = weigh(
        held,
        script::long_at(bytes, start),
        script::long_at(bytes, start + 2),
        room.min(16384),
        status,
        weights,
        &mut frames,
        &mut differences,
    );
    after_deltas(held, room, weighed, &frames, &differences)
}

// The differences, into the first `lent` places.
fn weigh(
    held: Held,
    ready: u64,
    first: u64,
    lent: usize,
    status: &mut [u32],
    weights: &mut [f32],
    frames: &mut [u64],
    differences: &mut [f32],
) -> Result<Weighed, Reason>
    requires { (65537 ≤ length status.old) × (65537 ≤ length weights.old) × (lent ≤ length frames.old) × (lent ≤ length differences.old) }
    ensures { CountWithin lent result }
{
    let places = held.places.min(65537);
    let state = held.state;
    state.get_delta_weights(
        ready,
        first,
        &mut status[..places],
        &mut weights[..places],
        &mut frames[..lent],
        &mut differences[..lent],
    )
}

// The places of the output. Where the record does not say, there is no limit.
fn room_of(bytes: &[u8], start: usize, count: usize) -> usize
    requires { start + count ≤ word_count bytes.now }
{
    if count == 5 {
        script::word_at(bytes, start + 4) as usize
    } else {
        u32::MAX as usize
    }
}

fn after_deltas(
    held: Held,
    room: usize,
    weighed: Result<Weighed, Reason>,
    frames: &[u64],
    differences: &[f32],
) -> Result<SilenceWeighting, Stop>
    requires { (length frames.now ≡ 16384) × (length differences.now ≡ 16384) × (CountWithin 16384 weighed) }
{
    match weighed {
        Err(reason) => {
            if reason == Reason::TooShort && frames.len() < room {
                return Err(does_not_fit(DELTAS));
            }
            say_refused(DELTAS, reason);
            Ok(held.state)
        }
        Ok(Weighed { next, count }) => {
            say_deltas(frames, differences, count);
            Ok(next)
        }
    }
}

// The payload of a trailing call is the silence phones with their number before them, and the segments: how many there are of each, where they fill it.
fn lists_of(bytes: &[u8], start: usize, count: usize) -> Option<(usize, usize)>
    requires { start + count ≤ word_count bytes.now }
    ensures { FillUp count result }
{
    let m = script::word_at(bytes, start) as usize;
    let rest = count.checked_sub(1)?.checked_sub(m)?;
    if rest % 3 == 0 {
        Some((m, rest / 3))
    } else {
        None
    }
}

fn trailing(bytes: &[u8], start: usize, count: usize) -> Result<(), Stop>
    requires { start + count ≤ word_count bytes.now }
{
    let Some((m, n)) = lists_of(bytes, start, count) else {
        say_fault(TRAILING);
        return Ok(());
    };
    count_trailing(bytes, start, m, n)
}

// The trailing silence of n segments.
fn count_trailing(bytes: &[u8], start: usize, m: usize, n: usize) -> Result<(), Stop>
    requires { start + (1 + m + 3 * n) ≤ word_count bytes.now }
{
    let mut silence = [0i32; 4096];
    if !script::fill(bytes, start + 1, &mut silence, m) || 4096 < n {
        return Err(does_not_fit(TRAILING));
    }
    let mut phones = [0i32; 4096];
    let mut starts = [0u32; 4096];
    let mut ends = [0u32; 4096];
    fill_segments(bytes, start + 1 + m, n, &mut phones, &mut starts, &mut ends);
    match silence_weighting::trailing_silence_frames(
        &silence[..m],
        &phones[..n],
        &starts[..n],
        &ends[..n],
    ) {
        Err(reason) => say_refused(TRAILING, reason),
        Ok(frames) => say_long(TRAILING, frames),
    }
    Ok(())
}

fn active(bytes: &[u8], held: Held) -> Result<SilenceWeighting, Stop> {
    let mut silence = [0i32; 4096];
    let m = held.count;
    if !script::fill(bytes, held.phones, &mut silence, m) {
        return Err(does_not_fit(ACTIVE));
    }
    let state = held.state;
    say_word(ACTIVE, u32::from(state.active(&silence[..m])));
    Ok(state)
}

// ---- reading

// Copies n segments to the starts of the three slices.
fn fill_segments(
    bytes: &[u8],
    at: usize,
    n: usize,
    phones: &mut [i32],
    starts: &mut [u32],
    ends: &mut [u32],
)
    requires { (at + 3 * n ≤ word_count bytes.now) × (n ≤ length phones.old) × (n ≤ length starts.old) × (n ≤ length ends.old) }
{
    for i in 0..n {
        phones[i] = i32::from_word(script::word_at(bytes, at + 3 * i));
        starts[i] = script::word_at(bytes, at + 3 * i + 1);
        ends[i] = script::word_at(bytes, at + 3 * i + 2);
    }
}

// ---- writing

// The answer to a call that does not fit.
fn does_not_fit(kind: u32) -> Stop {
    say_fault(kind);
    Stop::DoesNotFit
}

// An answer of one 64-bit number.
fn say_long(kind: u32, x: u64) {
    let mut out = [0u8; 20];
    script::put_word(&mut out, 0, kind);
    script::put_word(&mut out, 1, 3);
    script::put_word(&mut out, 2, 0);
    script::put_long(&mut out, 3, x);
    say_bytes(&out);
}

// The differences, each with its frame, all in one write.
fn say_deltas(frames: &[u64], differences: &[f32], count: usize)
    requires { (count ≤ 16384) × (count ≤ length frames.now) × (count ≤ length differences.now) }
{
    let mut out = [0u8; 196624];
    let n = count as u32;
    script::put_word(&mut out, 0, DELTAS);
    script::put_word(&mut out, 1, 2 + 3 * n);
    script::put_word(&mut out, 2, 0);
    script::put_word(&mut out, 3, n);
    put_deltas(&mut out, frames, differences, count);
    say_bytes(&out[..16 + 12 * count]);
}

// Puts each difference behind the first four words.
fn put_deltas(out: &mut [u8], frames: &[u64], differences: &[f32], count: usize)
    requires { (count ≤ 16384) × (count ≤ length frames.now) × (count ≤ length differences.now) }
{
    for i in 0..count {
        script::put_long(out, 4 + 3 * i, frames[i]);
        script::put_word(out, 6 + 3 * i, differences[i].to_word());
    }
}
