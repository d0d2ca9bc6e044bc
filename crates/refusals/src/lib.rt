// Refusals: their reasons, their places, and the limits that they are judged by.
#![tactic(auto)]

ghost use Rattle.std.specs.Prelude.{◌≡◌};
ghost use Rattle.refusals.specs.Numbers.{number_of, refused_at};

// Where a refusal was met.
#[derive(Clone, Copy, Debug, PartialEq, Eq)]
pub enum Place {
    Nowhere,
    // a state, and an arc counted within it
    AtArc(u32, u32),
    AtState(u32),
    // the frames decoded
    AtFrames(u32),
}

// A refusal as it is recorded and read back: the number of its reason, or one that a later version gave, and where it was met.
#[derive(Clone, Copy, Debug, PartialEq, Eq)]
pub struct Refusal {
    pub number: u32,
    pub place: Place,
}

// ---- the reasons

// Why a call is refused. Each has its number.
#[derive(Clone, Copy, Debug, PartialEq, Eq)]
pub enum Reason {
    // Of the graph builder: its counts, its offsets or the lengths of its slices.
    BadShape = 1,
    // A start or an arc's target that is no state.
    NoSuchState = 2,
    // An input label below 0, past a table, or with a pdf out of range.
    BadLabel = 3,
    // A used label whose phone is below 1.
    BadPhone = 4,
    // An arc weight or a final weight.
    BadWeight = 5,
    // Settings or lent stores of a fitting, a keep margin, or the counts asked of a read.
    BadSetting = 6,
    // Settings of the silence weighting.
    BadSilenceSetting = 7,
    // A frame that is not as long as there are pdfs.
    BadFrameLength = 8,
    // A log-likelihood that is not finite, or of magnitude 2^100 or more.
    BadLoglike = 9,
    // A frame after the last, or a silence call that needs, names or brings too many.
    TooManyFrames = 10,
    // An output slice shorter than the whole answer, or a reading list brought to the search whose parts fall or overrun its words.
    TooShort = 11,
    // A total or a graph sum of magnitude 2^100 or more.
    SumTooLarge = 12,
    // Live records fill the store.
    RecordsFull = 13,
    // The epsilon queue is full.
    QueueFull = 14,
    // The lists below joins, or the kept readings, have more entries than their store.
    ListsFull = 15,
    // An output slice shorter than a refusal's line.
    LineTooLong = 16,
    // A block to shuffle or unshuffle whose length is not divisible by four, or an output of another length.
    BadBlock = 20,
    // Courses, or the frames in which they are knitted, outside their range, or a frame above its limit.
    BadCourse = 22,
}

impl Reason {
    // The number that C and the panel record know it by.
    pub fn number(self) -> u32
        ensures { result ≡ number_of self }
    {
        self as u32
    }

    // The refusal for this reason, met at a place.
    pub fn at(self, place: Place) -> Refusal
        ensures { result ≡ refused_at self place }
    {
        Refusal {
            number: self.number(),
            place,
        }
    }
}

// ---- the limits

// The states of a graph.
pub const MAX_STATES: usize = 65_535;

// The arcs of a graph.
pub const MAX_ARCS: usize = 1_048_576;

// The entries of a transition table: 65,536 ids, which count from 1, and entry 0.
pub const MAX_TRANSITIONS: usize = 65_537;

// The places for records.
pub const MAX_RECORDS: usize = 1_048_576;

// The paths or readings of one read.
pub const MAX_LISTED: usize = 64;

// The frames since a start.
pub const MAX_FRAMES: u32 = 65_536;

// The courses, and the frames in which they are knitted, of a frame's course.
pub const MAX_COURSES: u32 = 65_535;

// The decoder frames of a silence call.
pub const MAX_SILENCE_FRAMES: usize = 65_536;

// The segments of a silence call.
pub const MAX_SEGMENTS: usize = 65_536;

// The input frames in a decoder frame.
pub const MAX_SUBSAMPLING: u32 = 16;

// The ready and the first frame that a silence call names.
pub const MAX_FRAME_NAMED: u64 = 4_294_967_296;

// The bytes of a refusal's line.
pub const MAX_LINE: usize = 96;
