// Runs the decoder on a recorded call, three times over, and writes the words heard, a line for each: its frames, from its own first one up to the next word's, and the
// course that was on the needles at the first.
//
// The call is "dropped stitch, carrier two" on a busy floor. In every frame carrier three is as likely as carrier two, so that two paths tie to the last bit. The
// rule for ties decides, each time and on every build the same: states are visited in ascending number, and of equal ranks the newest token wins.
#![tactic(auto)]

ghost use Rattle.std.specs.Prelude.{◌≤◌, ◌<◌, length};
ghost use Rattle.stores.specs.Rep.{lent};
ghost use Rattle.nonemitting.specs.Expand.{graph_tables};
ghost use Rattle.decoder.specs.Promises.{FinalsLeft};
ghost use Rattle.listen.specs.Held.{Hearing};

use courses::Course;
use cutoff::Config;
use decoder::{Called, Decoder};
use refusals::{Place, Refusal};
use traceback::BestPath;

// Standard output.
const STDOUT_FILENO: i32 = 1;

// ---- the recorded call

// The sounds that a frame can be. A word has the number of its sound.
const SILENCE: i32 = 1;

const DROPPED_STITCH: i32 = 2;

const CARRIER_TWO: i32 = 3;

const CARRIER_THREE: i32 = 4;

const SOUNDS: u32 = 4;

const FRAMES: u32 = 8;

// The machine knits so many courses in so many frames.
const COURSES: u32 = 3;

const COURSE_FRAMES: u32 = 4;

// How often the call is heard.
const TIMES: u32 = 3;

// The graph has a state for each sound: 0 silence, 1 carrier three, 2 carrier two, 3 dropped stitch. The call starts in silence and ends in either carrier.
//
//     arc   from to   in the frame     new word
//     0     0    0    silence
//     1     0    3    dropped stitch   dropped stitch
//     2     1    1    carrier three
//     3     2    2    carrier two
//     4     3    3    dropped stitch
//     5     3    2    carrier two      carrier two
//     6     3    1    carrier three    carrier three
fn main() {
    let offsets = [0u32, 2, 3, 4, 7];
    let nextstates = [0u32, 3, 1, 2, 3, 2, 1];
    let ilabels = [
        SILENCE,
        DROPPED_STITCH,
        CARRIER_THREE,
        CARRIER_TWO,
        DROPPED_STITCH,
        CARRIER_TWO,
        CARRIER_THREE,
    ];
    let olabels = [0, DROPPED_STITCH, 0, 0, 0, CARRIER_TWO, CARRIER_THREE];
    let weights = [0.0f32; 7];
    let none = real32::infinity();
    let finals = [none, 0.0, 0.0, none];
    // by sound, of which none has the number 0
    let tid2pdf = [-1i32, 0, 1, 2, 3];
    let tid2phone = [0i32, 1, 2, 3, 4];
    for _ in 0..TIMES {
        write_text(b"heard:\n");
        listen(
            &offsets,
            &ilabels,
            &olabels,
            &weights,
            &nextstates,
            &finals,
            &tid2pdf,
            &tid2phone,
        );
    }
}

// The log-likelihoods of a frame: silence, dropped stitch, carrier two, carrier three.
fn frame_at(i: u32) -> [f32; 4] {
    match i {
        0 => [-0.5, -4.0, -6.0, -6.0],
        1 => [-0.5, -3.0, -6.0, -6.0],
        2 => [-3.0, -0.5, -4.0, -4.0],
        3 => [-4.0, -0.25, -4.0, -4.0],
        4 => [-5.0, -0.5, -2.0, -2.0],
        5 => [-6.0, -3.0, -0.5, -0.5],
        6 => [-6.0, -4.0, -0.25, -0.25],
        _ => [-4.0, -4.0, -0.75, -0.75],
    }
}

fn config() -> Config {
    Config {
        beam: 8.0,
        max_active: 1000,
        min_active: 0,
        beam_delta: 0.5,
    }
}

// ---- the decoder

// Lends stores for 4 states and 32 records, fits a decoder and gives it the call.
fn listen(
    offsets: &[u32],
    ilabels: &[i32],
    olabels: &[i32],
    weights: &[f32],
    nextstates: &[u32],
    finals: &[f32],
    tid2pdf: &[i32],
    tid2phone: &[i32],
) {
    let mut tokens = [0u32; 32];
    let mut sums = [0.0f32; 16];
    let mut records = [0u32; 256];
    let mut labels = [0i32; 64];
    let mut gaps = [0.0f32; 64];
    let mut queue = [0u32; 8];
    let mut scratch = [0.0f32; 4];
    let keys = [0u64; 4];
    let places = [0u32; 4];
    let own = [0u32; 4];
    let heads = [0u32; 4];
    let list = [0u32; 4];
    let lists = [0u32; 64];
    let route = [0u32; 32];
    let history_keys = [0u64; 64];
    let history_skips = [0u32; 64];
    let mut eps = [0u8; 4];
    match decoder::fit(
        &mut tokens,
        &mut sums,
        &mut records,
        &mut labels,
        &mut gaps,
        &mut queue,
        &scratch,
        &keys,
        &places,
        &own,
        &heads,
        &list,
        &lists,
        &route,
        &history_keys,
        &history_skips,
        // no readings are listed
        &[],
        &[],
        &[],
        &[],
        &mut eps,
        offsets,
        ilabels,
        olabels,
        weights,
        nextstates,
        finals,
        tid2pdf,
        tid2phone,
        0,
        SOUNDS,
        config(),
    ) {
        Err(why) | Ok(Called::Refused(_, why)) => write_refusal(why),
        Ok(Called::Done(d)) => hear_frames(
            &mut tokens,
            &mut sums,
            &mut records,
            &mut labels,
            &mut gaps,
            &mut queue,
            &mut scratch,
            &eps,
            offsets,
            ilabels,
            olabels,
            weights,
            nextstates,
            finals,
            tid2pdf,
            tid2phone,
            d,
        ),
    }
}

// Gives each frame in turn, then writes what was heard; or the line of the first refusal.
fn hear_frames(
    tokens: &mut [u32],
    sums: &mut [f32],
    records: &mut [u32],
    labels: &mut [i32],
    gaps: &mut [f32],
    queue: &mut [u32],
    scratch: &mut [f32],
    eps: &[u8],
    offsets: &[u32],
    ilabels: &[i32],
    olabels: &[i32],
    weights: &[f32],
    nextstates: &[u32],
    finals: &[f32],
    tid2pdf: &[i32],
    tid2phone: &[i32],
    fitted: Decoder,
)
    requires { Hearing (graph_tables offsets.now ilabels.now olabels.now weights.now nextstates.now tid2pdf.now tid2phone.now) (lent tokens.old sums.old records.old labels.old gaps.old) finals.now eps.now (length queue.old) (length scratch.old) fitted }
{
    let mut d = fitted;
    for i in 0..FRAMES {
        let loglikes = frame_at(i);
        match decoder::frame(
            tokens, sums, records, labels, gaps, queue, scratch, eps, offsets, ilabels, olabels,
            weights, nextstates, tid2pdf, tid2phone, &loglikes, d,
        ) {
            Called::Done(next) => d = next,
            Called::Refused(_, why) => {
                write_refusal(why);
                return;
            }
        }
    }
    write_best(tokens, sums, records, labels, finals, d);
}

// ---- what was heard

// The words of the best path, with final weights; it has at most one for each record.
fn write_best(
    tokens: &[u32],
    sums: &[f32],
    records: &[u32],
    labels: &[i32],
    finals: &[f32],
    d: Decoder,
)
    requires { FinalsLeft tokens.now sums.now records.now labels.now finals.now d }
{
    let mut words = [0i32; 32];
    let mut frames = [0u32; 32];
    let mut segments = [0u32; 96];
    match decoder_reads::best_path(
        tokens,
        sums,
        records,
        labels,
        finals,
        d,
        true,
        &mut words,
        &mut frames,
        &mut segments,
    ) {
        Err(reason) => write_refusal(reason.at(Place::Nowhere)),
        Ok(None) => write_text(b"nothing was heard\n"),
        Ok(Some(BestPath { size, .. })) => {
            let n = size.words as usize;
            write_words(&words, &frames, n, decoder_reads::frames_decoded(d));
        }
    }
}

fn write_words(words: &[i32], frames: &[u32], n: usize, end: u32)
    requires { (n ≤ length words.now) × (n ≤ length frames.now) }
{
    for i in 0..n {
        write_word(words[i], frames[i], next_start(frames, i, n, end));
    }
}

// Where the next word starts, or the call ends.
fn next_start(frames: &[u32], i: usize, n: usize, end: u32) -> u32
    requires { (i < n) × (n ≤ length frames.now) }
{
    if i + 1 < n { frames[i + 1] } else { end }
}

fn write_word(word: i32, from: u32, to: u32) {
    write_text(b"  frames ");
    io::print_decimal(STDOUT_FILENO, from as u64);
    write_text(b"..");
    io::print_decimal(STDOUT_FILENO, to as u64);
    write_text(b"  course ");
    write_course(from);
    write_text(b"  ");
    write_name(word);
    write_text(b"\n");
}

// The course on the needles in a frame.
fn write_course(frame: u32) {
    match courses::course_at(frame, COURSES, COURSE_FRAMES) {
        Ok(Course { course, .. }) => {
            io::print_decimal(STDOUT_FILENO, u64::from(course));
        }
        Err(_) => write_text(b"unknown"),
    }
}

fn write_name(word: i32) {
    match word {
        DROPPED_STITCH => write_text(b"dropped stitch"),
        CARRIER_TWO => write_text(b"carrier two"),
        CARRIER_THREE => write_text(b"carrier three"),
        _ => write_text(b"unknown word"),
    }
}

// The line of a refusal. It fits.
fn write_refusal(why: Refusal) {
    let mut line = [0u8; refusals::MAX_LINE];
    let Ok(n) = refusal_lines::write_line(why, &mut line) else {
        return;
    };
    write_text(&line[..n]);
    write_text(b"\n");
}

fn write_text(text: &[u8]) {
    io::write_all(STDOUT_FILENO, text);
}
