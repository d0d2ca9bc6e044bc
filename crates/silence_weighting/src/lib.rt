// The Rust's `SilenceWeighting`, and `trailing_silence_frames`: what each frame weighs in the statistics, by what the best path says of it.
// Silence phones, segments and the frame list are lent with each call. There are as many segments as all three of their slices hold, and the
// frame list's store has the frames that fit both of its slices: a status (0 unknown, 1 speech, 2 silence) and a weight for each.
#![tactic(auto)]

ghost use Rattle.std.specs.Prelude.{◌≡◌, false, reverse, ◌+◌, ◌-◌, ◌≤◌, ◌<◌, ◌^◌, length, replicate};
ghost use Rattle.std.proofs.lemmas.List.Edits.{sets};
ghost use Rattle.lists.specs.Lists.{range};
ghost use Rattle.model.specs.Silence.{weighting_wrong, too_many, is_silence, bad_segments, trailing};
ghost use Rattle.refusals.specs.declared.Reason.TheVariants.{BadSilenceSetting, TooManyFrames};
ghost use Rattle.silence_weighting.specs.State.{segment_count, segments_of};
ghost use Rattle.silence_weighting.specs.Answers.{NewRight, ActiveRight, TracebackRight, DeltasRight, TrailingRight};
ghost use Rattle.silence_weighting.specs.Parts.{unless, status_of, told_to, weight_before, info_in, grown_at, weight_of, step_at, deltas_on, window_of, plan_of, Wrote, Sound};

use refusals::Reason;

// The window begins this many frames before the list's end.
const WINDOW: usize = 100;

// The state of the silence weights. A call takes it and gives the next one back.
#[repr(C)]
#[derive(Clone, Copy)]
pub struct SilenceWeighting {
    // the weight of silence
    pub weight: f32,
    // input frames in a decoder frame
    pub subsampling: u32,
    // the length of the frame list
    pub frames: u32,
}

// The next state, with `count` differences in the lent output.
#[derive(Clone, Copy)]
pub struct Weighed {
    pub next: SilenceWeighting,
    pub count: usize,
}

// A frame of the list.
#[derive(Clone, Copy)]
struct Frame {
    known: bool,
    silence: bool,
    weight: f32,
}

// The frames that get a weight: from `begin` up to `total`. The list has `listed` of them all so far.
#[derive(Clone, Copy)]
struct Window {
    // the weight of silence, and of the frame before the window
    silence: f32,
    previous: f32,
    // the window's first frame is unknown
    unknown: bool,
    subsampling: usize,
    first: u64,
    begin: usize,
    listed: usize,
    total: usize,
}

// A frame of the window: its new weight, the difference, and for how many input frames it is told.
#[derive(Clone, Copy)]
struct Step {
    weight: f32,
    delta: f32,
    times: usize,
}

// What a call of `get_delta_weights` is to write.
#[derive(Clone, Copy)]
struct Write {
    window: Window,
    count: usize,
}

// Refuses a subsampling outside 1 to 16, and a weight that is not tame.
#[tactic(auto, unfolding(model::specs::Silence::weighting_wrong))]
fn check_settings(weight: f32, subsampling: u32) -> Result<(), Reason>
    ensures { result ≡ unless (weighting_wrong weight subsampling) BadSilenceSetting }
{
    if subsampling < 1 || refusals::MAX_SUBSAMPLING < subsampling || !real32::is_tame(weight) {
        return Err(Reason::BadSilenceSetting);
    }
    Ok(())
}

// Refuses more frames than 65,536, or than the store holds.
#[tactic(auto, unfolding(model::specs::Silence::too_many))]
fn check_frames(store: usize, frames: usize) -> Result<(), Reason>
    ensures { result ≡ unless (too_many store frames) TooManyFrames }
{
    if refusals::MAX_SILENCE_FRAMES < frames || store < frames {
        return Err(Reason::TooManyFrames);
    }
    Ok(())
}

// Whether the phone is one of the silence phones.
fn is_silence(silence_phones: &[i32], phone: i32) -> bool
    ensures { result ≡ is_silence silence_phones.now phone }
{
    silence_phones.contains(&phone)
}

// The status of the frames of a phone: a number, as C lends them.
#[tactic(auto, unfolding(crate::specs::Parts::status_of))]
fn status_of(silence_phones: &[i32], phone: i32) -> u32
    ensures { result ≡ status_of silence_phones.now phone }
{
    if is_silence(silence_phones, phone) {
        return 2;
    }
    1
}

// As many segments as all three slices hold.
fn segment_count(phones: &[i32], starts: &[u32], ends: &[u32]) -> usize
    ensures { result ≡ segment_count phones.now starts.now ends.now }
{
    phones.len().min(starts.len()).min(ends.len())
}

// Refuses over 65,536 segments, and one that ends before its start or past 65,536.
#[tactic(auto, using(crate::proofs::Segments::over, crate::proofs::Segments::within, crate::proofs::Segments::bad_here, crate::proofs::Segments::good_here, crate::proofs::Segments::good_all))]
fn check_segments(phones: &[i32], starts: &[u32], ends: &[u32]) -> Result<(), Reason>
    ensures { result ≡ unless (bad_segments (segments_of phones.now starts.now ends.now)) TooManyFrames }
{
    let count = segment_count(phones, starts, ends);
    if refusals::MAX_SEGMENTS < count {
        return Err(Reason::TooManyFrames);
    }
    for i in 0..count {
        if ends[i] < starts[i] || refusals::MAX_FRAMES < ends[i] {
            return Err(Reason::TooManyFrames);
        }
    }
    Ok(())
}

// The value at each place from `from` up to `to`; nowhere, where `from` lies past `to`.
// The `fill` of slices asks laws of cloning that Copy does not give.
#[tactic(auto, using(crate::proofs::Runs::fill_more))]
fn fill<T: Copy>(xs: &mut [T], from: usize, to: usize, value: T)
    requires { to ≤ length xs.old }
    ensures { xs.new ≡ sets xs.old from (replicate (to - from) value) }
{
    for i in from..to {
        xs[i] = value;
    }
}

// Numbers from `number` on, stored from `at` on.
#[tactic(auto, using(crate::proofs::Runs::put_more))]
fn put_frames(frames: &mut [u64], at: usize, times: usize, number: u64)
    requires { (at + times ≤ length frames.old) × (number + times < 2 ^ 64) }
    ensures { frames.new ≡ sets frames.old at (range number times) }
{
    for k in 0..times {
        frames[at + k] = number + k as u64;
    }
}

// Stores what each segment says of its frames below `decoded`, one segment after the other.
#[tactic(auto, using(crate::proofs::Segments::all_left, crate::proofs::Told::told_next, crate::proofs::Told::told_done))]
fn tell_segments(
    silence_phones: &[i32],
    phones: &[i32],
    starts: &[u32],
    ends: &[u32],
    decoded: usize,
    status: &mut [u32],
)
    requires { decoded ≤ length status.old }
    ensures { status.new ≡ told_to silence_phones.now (segments_of phones.now starts.now ends.now) decoded status.old }
{
    for k in 0..segment_count(phones, starts, ends) {
        let value = status_of(silence_phones, phones[k]);
        fill(
            status,
            starts[k] as usize,
            (ends[k] as usize).min(decoded),
            value,
        );
    }
}

// Frame f of the list, or an unknown one where the list is shorter.
#[tactic(auto, unfolding(crate::specs::Parts::grown_at))]
fn frame_at(status: &[u32], weights: &[f32], listed: usize, f: usize) -> Frame
    requires { (listed ≤ length status.now) × (listed ≤ length weights.now) }
    ensures { info_in result ≡ grown_at listed status.now weights.now f }
{
    if f < listed {
        Frame {
            known: status[f] != 0,
            silence: status[f] == 2,
            weight: weights[f],
        }
    } else {
        Frame {
            known: false,
            silence: false,
            weight: 0.0,
        }
    }
}

// The weight of the frame before the window, or of silence where there is none.
#[tactic(auto, unfolding(crate::specs::Parts::weight_before))]
fn weight_before(silence: f32, weights: &[f32], begin: usize) -> f32
    requires { begin ≤ length weights.now }
    ensures { result ≡ weight_before silence weights.now begin }
{
    if begin == 0 {
        return silence;
    }
    weights[begin - 1]
}

// The weight that a frame gets, where the frame before it has `previous`.
#[tactic(auto, unfolding(crate::specs::Parts::weight_of))]
fn weight_of(w: Window, previous: f32, i: Frame) -> f32
    ensures { result ≡ weight_of w.silence w.unknown previous (info_in i) }
{
    if i.known {
        if w.unknown {
            return previous;
        }
        if i.silence {
            return w.silence;
        }
        return 1.0;
    }
    previous
}

// Frame f of the window: a difference is told where there is one, and of the last frame.
#[tactic(auto, unfolding(crate::specs::Parts::step_at))]
fn step_at(w: Window, status: &[u32], weights: &[f32], previous: f32, f: usize) -> Step
    requires sound { Sound w status.now weights.now }
    requires f_lt_total { f < w.total }
    ensures { result ≡ step_at w status.now weights.now previous f }
{
    let i = frame_at(status, weights, w.listed, f);
    let weight = weight_of(w, previous, i);
    let delta = weight - i.weight;
    let told = delta != 0.0 || f + 1 == w.total;
    Step {
        weight,
        delta,
        times: if told { w.subsampling } else { 0 },
    }
}

// How many differences the window gives.
#[tactic(auto, using(crate::proofs::Steps::count_next, crate::proofs::Steps::deltas_done, crate::proofs::Steps::times_few), unfolding(crate::specs::Parts::deltas_on))]
fn count_deltas(w: Window, status: &[u32], weights: &[f32]) -> usize
    requires { Sound w status.now weights.now }
    ensures { result ≡ length (deltas_on w status.now weights.now) }
{
    let mut count = 0;
    let mut previous = w.previous;
    for f in w.begin..w.total {
        let s = step_at(w, status, weights, previous, f);
        count += s.times;
        previous = s.weight;
    }
    count
}

// Stores the window's weights, and writes its differences with their frames.
#[tactic(auto, using(crate::proofs::Writing::fits_next, crate::proofs::Writing::sound_same, crate::proofs::Writing::product_few, crate::proofs::Steps::times_few))]
fn write_deltas(
    w: Window,
    status: &[u32],
    weights: &mut [f32],
    frames: &mut [u64],
    deltas: &mut [f32],
)
    requires sound { Sound w status.now weights.old }
    requires weights_in_bounds { (length (deltas_on w status.now weights.old) ≤ length frames.old) × (length (deltas_on w status.now weights.old) ≤ length deltas.old) }
    ensures { Wrote w status.now weights.old frames.old deltas.old weights.new frames.new deltas.new }
{
    let mut at = 0;
    let mut previous = w.previous;
    for f in w.begin..w.total {
        let s = step_at(w, status, &weights[..], previous, f);
        weights[f] = s.weight;
        put_frames(frames, at, s.times, w.first + (f * w.subsampling) as u64);
        fill(deltas, at, at + s.times, s.delta);
        at += s.times;
        previous = s.weight;
    }
}

// The silence at the end of good segments, counted from the last.
#[tactic(auto, using(crate::proofs::Segments::silent_none, crate::proofs::Segments::back_all, crate::proofs::Segments::silent_more, crate::proofs::Segments::silent_stop, crate::proofs::Segments::good_count, crate::proofs::Segments::good_at))]
fn trailing_frames(silence_phones: &[i32], phones: &[i32], starts: &[u32], ends: &[u32]) -> u64
    requires { bad_segments (segments_of phones.now starts.now ends.now) ≡ false }
    ensures { result ≡ trailing silence_phones.now (reverse (segments_of phones.now starts.now ends.now)) }
{
    let mut n: u64 = 0;
    for i in (0..segment_count(phones, starts, ends)).rev() {
        if !is_silence(silence_phones, phones[i]) {
            return n;
        }
        n += u64::from(ends[i] - starts[i]);
    }
    n
}

// The Rust's `trailing_silence_frames`, of the path whose segments these are.
#[tactic(auto, unfolding(model::specs::Silence::trailing_silence_frames))]
pub fn trailing_silence_frames(
    silence_phones: &[i32],
    phones: &[i32],
    starts: &[u32],
    ends: &[u32],
) -> Result<u64, Reason>
    ensures { TrailingRight silence_phones.now phones.now starts.now ends.now result }
{
    check_segments(phones, starts, ends)?;
    Ok(trailing_frames(silence_phones, phones, starts, ends))
}

impl SilenceWeighting {
    // A state with no frames; BadSilenceSetting for settings that cannot be.
    #[tactic(auto, unfolding(model::specs::Silence::new_silence, crate::specs::State::state_of, crate::specs::State::info_of))]
    pub fn new(weight: f32, subsampling: u32) -> Result<SilenceWeighting, Reason>
        ensures { NewRight weight subsampling result }
    {
        check_settings(weight, subsampling)?;
        Ok(SilenceWeighting {
            weight,
            subsampling,
            frames: 0,
        })
    }

    // Whether the weighting makes a difference.
    #[tactic(auto, unfolding(model::specs::Silence::active, crate::specs::State::state_of))]
    pub fn active(self, silence_phones: &[i32]) -> bool
        ensures { ActiveRight self silence_phones.now result }
    {
        !silence_phones.is_empty() && self.weight != 1.0
    }

    // Records what the best path's segments say of the decoded frames.
    #[tactic(auto, using(crate::proofs::Limits::few_frames), unfolding(crate::specs::Answers::brought, model::specs::Silence::compute_current_traceback, crate::specs::State::state_of))]
    pub fn compute_current_traceback(
        self,
        silence_phones: &[i32],
        phones: &[i32],
        starts: &[u32],
        ends: &[u32],
        num_frames_decoded: u32,
        status: &mut [u32],
        weights: &mut [f32],
    ) -> Result<SilenceWeighting, Reason>
        ensures { TracebackRight self silence_phones.now phones.now starts.now ends.now num_frames_decoded status.old weights.old result status.new weights.new }
    {
        let listed = self.frames as usize;
        let decoded = num_frames_decoded as usize;
        let store = status.len().min(weights.len());
        check_settings(self.weight, self.subsampling)?;
        check_frames(store, listed)?;
        check_frames(store, decoded)?;
        check_segments(phones, starts, ends)?;
        fill(status, listed, decoded, 0);
        fill(weights, listed, decoded, 0.0);
        tell_segments(silence_phones, phones, starts, ends, decoded, status);
        let total = listed.max(decoded) as u32;
        Ok(SilenceWeighting {
            frames: total,
            ..self
        })
    }

    // The window of a call that needs so many frames.
    #[tactic(auto, unfolding(crate::specs::Parts::window_of))]
    fn window(self, needed: usize, first: u64, status: &[u32], weights: &[f32]) -> Window
        requires { (self.frames ≤ length status.now) × (self.frames ≤ length weights.now) }
        ensures { result ≡ window_of self needed first status.now weights.now }
    {
        let listed = self.frames as usize;
        let begin = listed.saturating_sub(WINDOW);
        let previous = weight_before(self.weight, weights, begin);
        let subsampling = self.subsampling as usize;
        let i = frame_at(status, weights, listed, begin);
        Window {
            silence: self.weight,
            previous,
            unknown: !i.known,
            subsampling,
            first,
            begin,
            listed,
            total: listed.max(needed),
        }
    }

    // Tests a call of `get_delta_weights`, and counts its differences before anything is written.
    #[tactic(auto, using(crate::proofs::Limits::fair, crate::proofs::Limits::few_frames, crate::proofs::Limits::sound_window), unfolding(crate::specs::Parts::plan_of))]
    fn plan(
        self,
        ready: u64,
        first: u64,
        room: usize,
        status: &[u32],
        weights: &[f32],
    ) -> Result<Option<Write>, Reason>
        ensures { result ≡ plan_of self ready first room status.now weights.now }
    {
        check_settings(self.weight, self.subsampling)?;
        let store = status.len().min(weights.len());
        check_frames(store, self.frames as usize)?;
        if refusals::MAX_FRAME_NAMED < ready || refusals::MAX_FRAME_NAMED < first {
            return Err(Reason::TooManyFrames);
        }
        if ready <= first {
            return Ok(None);
        }
        let fs = self.subsampling as u64;
        let needed = ((ready - first + (fs - 1)) / fs) as usize;
        check_frames(store, needed)?;
        let window = self.window(needed, first, status, weights);
        let count = count_deltas(window, status, weights);
        if room < count {
            return Err(Reason::TooShort);
        }
        Ok(Some(Write { window, count }))
    }

    // Gives the frames of the window their weights, and tells the differences.
    #[tactic(auto, using(crate::proofs::Right::refused_right, crate::proofs::Right::nothing_right))]
    pub fn get_delta_weights(
        self,
        num_frames_ready: u64,
        first_decoder_frame: u64,
        status: &mut [u32],
        weights: &mut [f32],
        frames: &mut [u64],
        deltas: &mut [f32],
    ) -> Result<Weighed, Reason>
        ensures { DeltasRight self num_frames_ready first_decoder_frame (record { status = status.entry.now; weights = weights.old; frames = frames.old; deltas = deltas.old }) result (record { status = status.exit.now; weights = weights.new; frames = frames.new; deltas = deltas.new }) }
    {
        let room = frames.len().min(deltas.len());
        let plan = self.plan(
            num_frames_ready,
            first_decoder_frame,
            room,
            &status[..],
            &weights[..],
        )?;
        let Some(Write { window, count }) = plan else {
            return Ok(Weighed {
                next: self,
                count: 0,
            });
        };
        write_deltas(window, &status[..], weights, frames, deltas);
        fill(status, window.listed, window.total, 0);
        let next = SilenceWeighting {
            frames: window.total as u32,
            ..self
        };
        Ok(Weighed { next, count })
    }
}
