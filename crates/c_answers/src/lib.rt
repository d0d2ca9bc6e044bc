// What an answer is told by in C: an enum has no form there, so a struct of numbers tells it, whose `number` is 0 or the refusal's.
#![tactic(auto)]

ghost use Rattle.std.specs.Prelude.{◌≡◌};
ghost use Rattle.c_answers.specs.Forms.{accepted, no_decoder, verdict_of, answer_of, fitted_answer, built_verdict, no_path, path_of, no_count, told_count, no_silence, silence_at, silence_of, weighed_of, no_index, found_index, shuffled_number, course_numbers, refusal_told, line_verdict};

use courses::Course;
use cutoff::Config;
use decoder::{Called, Decoder};
use fst::Graph;
use refusals::{Place, Reason, Refusal};
use silence_weighting::{SilenceWeighting, Weighed};
use traceback::BestPath;

// A place of a refusal that has none.
pub const NOWHERE: u32 = 0;

// The place is an arc.
pub const AT_ARC: u32 = 1;

// The place is a state.
pub const AT_STATE: u32 = 2;

// The place is the frames decoded.
pub const AT_FRAMES: u32 = 3;

// Whether a call was refused, by which number and where.
#[repr(C)]
#[derive(Clone, Copy)]
pub struct Verdict {
    // 0, or the refusal's
    pub number: u32,
    // which of the four places
    pub place: u32,
    // the state, or the frames decoded
    pub at: u32,
    // counted within its state
    pub arc: u32,
}

// Whether there is a decoder, and if so, the answer of its own start; else why not, and a decoder of zeros.
#[repr(C)]
#[derive(Clone, Copy)]
pub struct Fitting {
    pub fitted: bool,
    pub decoder: Decoder,
    pub verdict: Verdict,
}

// The decoder to go on with, refused or not.
#[repr(C)]
#[derive(Clone, Copy)]
pub struct Answer {
    pub decoder: Decoder,
    pub verdict: Verdict,
}

// A best path's counts and cost. `found` is false where no token counts; then, and after a refusal, the rest is 0.
#[repr(C)]
#[derive(Clone, Copy)]
pub struct Path {
    pub number: u32,
    pub found: bool,
    pub words: u32,
    pub segments: u32,
    pub cost: f32,
}

// How many paths, readings or frames; 0 after a refusal.
#[repr(C)]
#[derive(Clone, Copy)]
pub struct Count {
    pub number: u32,
    pub count: u64,
}

// The next silence state, and how many differences were written. After a refusal all is 0: go on with the state that there was.
#[repr(C)]
#[derive(Clone, Copy)]
pub struct Silence {
    pub state: SilenceWeighting,
    pub number: u32,
    pub count: u64,
}

// A reading's index, from 0. `found` is false where no reading has the word.
#[repr(C)]
#[derive(Clone, Copy)]
pub struct Index {
    pub number: u32,
    pub found: bool,
    pub index: u64,
}

// The course at a frame, and the remainder. Both are 0 after a refusal.
#[repr(C)]
#[derive(Clone, Copy)]
pub struct CourseAt {
    pub number: u32,
    pub course: u32,
    pub remainder: u32,
}

// ---- the forms of the answers

fn accepted_verdict() -> Verdict
    ensures { result ≡ accepted }
{
    Verdict {
        number: 0,
        place: NOWHERE,
        at: 0,
        arc: 0,
    }
}

impl From<Refusal> for Verdict {
    ghost from_gives = { λ why r. r ≡ verdict_of why };

    fn from(why: Refusal) -> Verdict {
        let number = why.number;
        let place = why.place;
        match place {
            Place::Nowhere => Verdict {
                number,
                place: NOWHERE,
                at: 0,
                arc: 0,
            },
            Place::AtArc(s, i) => Verdict {
                number,
                place: AT_ARC,
                at: s,
                arc: i,
            },
            Place::AtState(s) => Verdict {
                number,
                place: AT_STATE,
                at: s,
                arc: 0,
            },
            Place::AtFrames(n) => Verdict {
                number,
                place: AT_FRAMES,
                at: n,
                arc: 0,
            },
        }
    }
}

impl From<Called> for Answer {
    ghost from_gives = { λ called r. r ≡ answer_of called };

    fn from(called: Called) -> Answer {
        match called {
            Called::Done(d) => Answer {
                decoder: d,
                verdict: accepted_verdict(),
            },
            Called::Refused(d, why) => Answer {
                decoder: d,
                verdict: Verdict::from(why),
            },
        }
    }
}

fn no_decoder() -> Decoder
    ensures { result ≡ no_decoder }
{
    let graph = Graph {
        states: 0,
        arcs: 0,
        start: 0,
        pdfs: 0,
    };
    let config = Config {
        beam: 0.0,
        max_active: 0,
        min_active: 0,
        beam_delta: 0.0,
    };
    Decoder {
        graph,
        config,
        cap: 0,
        keeps: false,
        margin: 0.0,
        side: 0,
        frames: 0,
        seq: 0,
        used: 0,
    }
}

impl From<Result<Called, Refusal>> for Fitting {
    ghost from_gives = { λ fitted r. r ≡ fitted_answer fitted };

    fn from(fitted: Result<Called, Refusal>) -> Fitting {
        match fitted {
            Err(why) => Fitting {
                fitted: false,
                decoder: no_decoder(),
                verdict: Verdict::from(why),
            },
            Ok(called) => {
                let answer = Answer::from(called);
                Fitting {
                    fitted: true,
                    decoder: answer.decoder,
                    verdict: answer.verdict,
                }
            }
        }
    }
}

impl From<Result<Graph, Refusal>> for Verdict {
    ghost from_gives = { λ built r. r ≡ built_verdict built };

    fn from(built: Result<Graph, Refusal>) -> Verdict {
        match built {
            Ok(_) => accepted_verdict(),
            Err(why) => Verdict::from(why),
        }
    }
}

fn no_path(number: u32) -> Path
    ensures { result ≡ no_path number }
{
    Path {
        number,
        found: false,
        words: 0,
        segments: 0,
        cost: 0.0,
    }
}

impl From<Result<Option<BestPath>, Reason>> for Path {
    ghost from_gives = { λ best r. r ≡ path_of best };

    fn from(best: Result<Option<BestPath>, Reason>) -> Path {
        match best {
            Err(reason) => no_path(reason.number()),
            Ok(None) => no_path(0),
            Ok(Some(BestPath { size, cost })) => Path {
                number: 0,
                found: true,
                words: size.words,
                segments: size.segments,
                cost,
            },
        }
    }
}

fn no_count(number: u32) -> Count
    ensures { result ≡ no_count number }
{
    Count { number, count: 0 }
}

impl From<Result<u64, Reason>> for Count {
    ghost from_gives = { λ counted r. r ≡ told_count counted };

    fn from(counted: Result<u64, Reason>) -> Count {
        match counted {
            Ok(n) => Count {
                number: 0,
                count: n,
            },
            Err(reason) => no_count(reason.number()),
        }
    }
}

impl From<Result<usize, Reason>> for Count {
    ghost from_gives = { λ counted r. r ≡ told_count counted };

    fn from(counted: Result<usize, Reason>) -> Count {
        Count::from(counted.map(|n| n as u64))
    }
}

fn no_silence(number: u32) -> Silence
    ensures { result ≡ no_silence number }
{
    let state = SilenceWeighting {
        weight: 0.0,
        subsampling: 0,
        frames: 0,
    };
    Silence {
        state,
        number,
        count: 0,
    }
}

fn silence_at(state: SilenceWeighting, count: u64) -> Silence
    ensures { result ≡ silence_at state count }
{
    Silence {
        state,
        number: 0,
        count,
    }
}

impl From<Result<SilenceWeighting, Reason>> for Silence {
    ghost from_gives = { λ next r. r ≡ silence_of next };

    fn from(next: Result<SilenceWeighting, Reason>) -> Silence {
        match next {
            Err(reason) => no_silence(reason.number()),
            Ok(state) => silence_at(state, 0),
        }
    }
}

impl From<Result<Weighed, Reason>> for Silence {
    ghost from_gives = { λ weighed r. r ≡ weighed_of weighed };

    fn from(weighed: Result<Weighed, Reason>) -> Silence {
        match weighed {
            Err(reason) => no_silence(reason.number()),
            Ok(Weighed { next, count }) => silence_at(next, count as u64),
        }
    }
}

fn no_index(number: u32) -> Index
    ensures { result ≡ no_index number }
{
    Index {
        number,
        found: false,
        index: 0,
    }
}

impl From<Result<Option<usize>, Reason>> for Index {
    ghost from_gives = { λ found r. r ≡ found_index found };

    fn from(found: Result<Option<usize>, Reason>) -> Index {
        match found {
            Ok(Some(i)) => Index {
                number: 0,
                found: true,
                index: i as u64,
            },
            Ok(None) => no_index(0),
            Err(reason) => no_index(reason.number()),
        }
    }
}

// 0, or the refusal's number.
pub fn shuffled_number(shuffled: Result<(), Reason>) -> u32
    ensures { result ≡ shuffled_number shuffled }
{
    match shuffled {
        Ok(()) => 0,
        Err(reason) => reason.number(),
    }
}

impl From<Result<Course, Reason>> for CourseAt {
    ghost from_gives = { λ at r. r ≡ course_numbers at };

    fn from(at: Result<Course, Reason>) -> CourseAt {
        match at {
            Ok(Course { course, remainder }) => CourseAt {
                number: 0,
                course,
                remainder,
            },
            Err(reason) => CourseAt {
                number: reason.number(),
                course: 0,
                remainder: 0,
            },
        }
    }
}

// The refusal that a verdict tells. One with none of the four places tells no refusal, as one with the number 0 does.
impl From<Verdict> for Refusal {
    ghost from_gives = { λ verdict r. r ≡ refusal_told verdict };

    fn from(verdict: Verdict) -> Refusal {
        let number = verdict.number;
        let place = verdict.place;
        let at = verdict.at;
        let arc = verdict.arc;
        match place {
            NOWHERE => Refusal {
                number,
                place: Place::Nowhere,
            },
            AT_ARC => Refusal {
                number,
                place: Place::AtArc(at, arc),
            },
            AT_STATE => Refusal {
                number,
                place: Place::AtState(at),
            },
            AT_FRAMES => Refusal {
                number,
                place: Place::AtFrames(at),
            },
            _ => Refusal {
                number: 0,
                place: Place::Nowhere,
            },
        }
    }
}

// The number is 0 where the bytes are no refusal's line.
impl From<Option<Refusal>> for Verdict {
    ghost from_gives = { λ read r. r ≡ line_verdict read };

    fn from(read: Option<Refusal>) -> Verdict {
        match read {
            Some(why) => Verdict::from(why),
            None => accepted_verdict(),
        }
    }
}
