// Where a graph's payload has its numbers and slices: the number of pdfs, the start, and eight slices, each its length and then its words.
ghost use Rattle.std.specs.Prelude.{◌≡◌, ◌+◌, ◌^◌, ◌≤◌, ◌<◌, max, eqb};
ghost use Rattle.script.specs.Words.{word_count};
ghost use Rattle.replay_graph.specs.Shapes.{part_at, ShapeIs, fits_here};

// Where a slice's words stand in the script, and how many there are.
#[derive(Clone, Copy)]
pub struct Part {
    pub at: usize,
    pub n: usize,
}

#[derive(Clone, Copy)]
pub struct Shape {
    pub pdfs: u32,
    pub start: u32,
    pub finals: Part,
    pub offsets: Part,
    pub ilabels: Part,
    pub olabels: Part,
    pub weights: Part,
    pub nextstates: Part,
    pub tid2pdf: Part,
    pub tid2phone: Part,
}

// The slice whose length stands at a place, or one behind the payload's end where it does not end within it.
#[tactic(auto, unfolding(crate::specs::Shapes::part_at))]
fn part_at(bytes: &[u8], at: usize, end: usize) -> Part
    requires { end ≤ word_count bytes.now }
    ensures { (result ≡ part_at bytes.now at end) × (result.at + result.n ≤ end + 1) }
{
    if end <= at {
        return Part { at: end + 1, n: 0 };
    }
    let n = script::word_at(bytes, at) as usize;
    if end - at <= n {
        return Part { at: end + 1, n: 0 };
    }
    Part { at: at + 1, n }
}

fn behind(p: Part) -> usize
    requires { p.at + p.n < 2 ^ 64 }
    ensures { result ≡ p.at + p.n }
{
    p.at + p.n
}

pub fn shape_of(bytes: &[u8], start: usize, end: usize) -> Shape
    requires { (start ≤ end) × (end ≤ word_count bytes.now) }
    ensures { ShapeIs bytes.now start end result }
{
    let finals = part_at(bytes, start + 2, end);
    let offsets = part_at(bytes, behind(finals), end);
    let ilabels = part_at(bytes, behind(offsets), end);
    let olabels = part_at(bytes, behind(ilabels), end);
    let weights = part_at(bytes, behind(olabels), end);
    let nextstates = part_at(bytes, behind(weights), end);
    let tid2pdf = part_at(bytes, behind(nextstates), end);
    let tid2phone = part_at(bytes, behind(tid2pdf), end);
    Shape {
        pdfs: script::word_at(bytes, start),
        start: script::word_at(bytes, start + 1),
        finals,
        offsets,
        ilabels,
        olabels,
        weights,
        nextstates,
        tid2pdf,
        tid2phone,
    }
}

// Whether the slices fill the payload, as they have to.
pub fn fills(g: Shape, end: usize) -> bool
    requires { g.tid2phone.at + g.tid2phone.n < 2 ^ 64 }
    ensures { result ≡ eqb (g.tid2phone.at + g.tid2phone.n) end }
{
    let last = g.tid2phone;
    behind(last) == end
}

// Whether the program has places for a graph.
#[tactic(auto, unfolding(crate::specs::Shapes::fits_here))]
pub fn fits(g: Shape) -> bool
    ensures { result ≡ fits_here g }
{
    g.finals.n <= 4096
        && g.offsets.n <= 4097
        && g.ilabels.n.max(g.olabels.n) <= 16384
        && g.weights.n.max(g.nextstates.n) <= 16384
        && g.tid2pdf.n.max(g.tid2phone.n) <= 4096
}
