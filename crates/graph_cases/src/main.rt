// Builds graphs, most of them faulty, and writes a line for each: its name, and what `fst::build` answers. Document 01 says what each line has to be.
#![tactic(auto)]

ghost use Rattle.std.specs.Prelude.{◌≤◌, ◌≡◌, length};

use fst::{Graph, NO_STATE};
use refusals::{Place, Refusal};

// 2^100, which no weight may reach.
const BOUND: f32 = 1267650600228229401496703205376.0;

fn main() {
    offsets();
    lengths();
    starts();
    labels();
    pdfs_and_phones();
    floats();
    two_faults();
    places();
    epsilons();
    largest();
}

// ---- writing

fn text(t: &[u8]) {
    io::write_all(1, t);
}

fn number(before: &[u8], n: u32) {
    text(before);
    io::print_decimal(1, u64::from(n));
}

fn byte(before: &[u8], b: u8) {
    number(before, u32::from(b));
}

fn tell(name: &[u8], built: Result<Graph, Refusal>) {
    text(name);
    match built {
        Ok(g) => tell_graph(g),
        Err(refusal) => {
            number(b": refused ", refusal.number);
            tell_place(refusal.place);
        }
    }
    text(b"\n");
}

fn tell_graph(g: Graph) {
    number(b": accepted, states ", g.states);
    number(b", arcs ", g.arcs);
    number(b", start ", g.start);
    number(b", pdfs ", g.pdfs);
}

fn tell_place(place: Place) {
    match place {
        Place::Nowhere => text(b", no place"),
        Place::AtArc(state, arc) => {
            number(b", state ", state);
            number(b", arc ", arc);
        }
        Place::AtState(state) => number(b", state ", state),
        Place::AtFrames(frames) => number(b", frames ", frames),
    }
}

// ---- slices of one length or another

// Up to three states and two epsilon arcs, with no transition ids, by the lengths of their slices.
fn shape(
    name: &[u8],
    offsets: &[u32],
    states: usize,
    ilabels: usize,
    olabels: usize,
    weights: usize,
    targets: usize,
    start: u32,
)
    requires { (states ≤ 3) × (ilabels ≤ 2) × (olabels ≤ 2) × (weights ≤ 2) × (targets ≤ 2) }
{
    let inputs = [0i32; 2];
    let outputs = [0i32; 2];
    let costs = [0.0f32; 2];
    let ends = [0u32; 2];
    let finals = [0.0f32; 3];
    let built = fst::build(
        offsets,
        &inputs[..ilabels],
        &outputs[..olabels],
        &costs[..weights],
        &ends[..targets],
        &finals[..states],
        &[],
        &[],
        start,
        0,
    );
    tell(name, built);
}

// Offsets, and graphs with little in them.
fn offsets() {
    shape(b"no states, no start", &[0], 0, 0, 0, 0, 0, NO_STATE);
    shape(b"no states, no offsets", &[], 0, 0, 0, 0, 0, NO_STATE);
    shape(b"no states, two offsets", &[0, 0], 0, 0, 0, 0, 0, NO_STATE);
    shape(b"no arcs", &[0, 0], 1, 0, 0, 0, 0, 0);
    shape(b"one offset too few", &[0], 1, 0, 0, 0, 0, 0);
    shape(b"one offset too many", &[0, 0, 0], 1, 0, 0, 0, 0, 0);
    shape(b"offsets from 1", &[1, 1], 1, 1, 1, 1, 1, 0);
    shape(b"offsets to an arc too few", &[0, 0], 1, 1, 1, 1, 1, 0);
    shape(b"offsets to an arc too many", &[0, 2], 1, 1, 1, 1, 1, 0);
    shape(b"offsets that fall", &[0, 1, 0], 2, 0, 0, 0, 0, 0);
    shape(
        b"offsets that fall and rise",
        &[0, 1, 0, 1],
        3,
        1,
        1,
        1,
        1,
        0,
    );
    shape(b"a greatest offset", &[0, 4294967295, 0], 2, 0, 0, 0, 0, 0);
}

// Arc slices whose lengths disagree.
fn lengths() {
    shape(b"one epsilon arc", &[0, 1], 1, 1, 1, 1, 1, 0);
    shape(b"an input label too few", &[0, 0], 1, 0, 1, 1, 1, 0);
    shape(b"an input label too many", &[0, 2], 1, 2, 1, 1, 1, 0);
    shape(b"an output label too few", &[0, 1], 1, 1, 0, 1, 1, 0);
    shape(b"an output label too many", &[0, 1], 1, 1, 2, 1, 1, 0);
    shape(b"a weight too few", &[0, 1], 1, 1, 1, 0, 1, 0);
    shape(b"a weight too many", &[0, 1], 1, 1, 1, 2, 1, 0);
    shape(b"a target too few", &[0, 1], 1, 1, 1, 1, 0, 0);
    shape(b"a target too many", &[0, 1], 1, 1, 1, 1, 2, 0);
}

fn starts() {
    shape(b"start 0, no states", &[0], 0, 0, 0, 0, 0, 0);
    shape(b"start 1 of one state", &[0, 0], 1, 0, 0, 0, 0, 1);
    shape(b"start 1 of two states", &[0, 0, 0], 2, 0, 0, 0, 0, 1);
    shape(b"start below NO_STATE", &[0, 0], 1, 0, 0, 0, 0, 4294967294);
    shape(b"NO_STATE", &[0, 0], 1, 0, 0, 0, 0, NO_STATE);
}

// ---- one state with one arc

#[derive(Clone, Copy)]
struct Case {
    label: i32,
    // of the arc, and of the state
    weight: f32,
    last: f32,
    target: u32,
    // of transition id 1
    pdf: i32,
    phone: i32,
    start: u32,
    pdfs: u32,
}

fn good() -> Case {
    Case {
        label: 1,
        weight: 0.0,
        last: 0.0,
        target: 0,
        pdf: 0,
        phone: 3,
        start: 0,
        pdfs: 1,
    }
}

fn one_arc(name: &[u8], c: Case) {
    let built = fst::build(
        &[0, 1],
        &[c.label],
        &[7],
        &[c.weight],
        &[c.target],
        &[c.last],
        &[-1, c.pdf],
        &[0, c.phone],
        c.start,
        c.pdfs,
    );
    tell(name, built);
}

// The arc's label, the pdf and the phone of transition id 1, and the pdf count.
fn with_id(name: &[u8], label: i32, pdf: i32, phone: i32, pdfs: u32) {
    let mut c = good();
    c.label = label;
    c.pdf = pdf;
    c.phone = phone;
    c.pdfs = pdfs;
    one_arc(name, c);
}

fn labels() {
    let mut c = good();
    c.target = 1;
    one_arc(b"target past the states", c);
    c.target = NO_STATE;
    one_arc(b"target NO_STATE", c);
    with_id(b"label 1", 1, 0, 3, 1);
    with_id(b"label 0", 0, 0, 3, 1);
    with_id(b"label -1", -1, 0, 3, 1);
    with_id(b"least label", -2147483648, 0, 3, 1);
    with_id(b"label past both tables", 2, 0, 3, 1);
    with_id(b"greatest label", 2147483647, 0, 3, 1);
    uneven(b"label past the pdfs alone", 1, 2);
    uneven(b"label past the phones alone", 2, 1);
    uneven(b"label past empty tables", 0, 0);
    uneven(b"more pdfs than phones", 3, 2);
    uneven(b"more phones than pdfs", 2, 3);
}

fn pdfs_and_phones() {
    with_id(b"pdf -1", 1, -1, 3, 1);
    with_id(b"least pdf", 1, -2147483648, 3, 4294967295);
    with_id(b"pdf 0 of none", 1, 0, 3, 0);
    with_id(b"pdf 1 of one", 1, 1, 3, 1);
    with_id(b"pdf 1 of two", 1, 1, 3, 2);
    with_id(b"greatest pdf, as many pdfs", 1, 2147483647, 3, 2147483647);
    with_id(b"greatest pdf, one pdf more", 1, 2147483647, 3, 2147483648);
    with_id(b"greatest count of pdfs", 1, 0, 3, 4294967295);
    with_id(b"phone 0", 1, 0, 0, 1);
    with_id(b"phone -1", 1, 0, -1, 1);
    with_id(b"least phone", 1, 0, -2147483648, 1);
    with_id(b"phone 1", 1, 0, 1, 1);
    with_id(b"greatest phone", 1, 0, 2147483647, 1);
}

// The transition tables have so many entries.
fn uneven(name: &[u8], pdfs: usize, phones: usize)
    requires { (pdfs ≤ 3) × (phones ≤ 3) }
{
    let pdf_ids = [1i32; 3];
    let phone_ids = [1i32; 3];
    let built = fst::build(
        &[0, 1],
        &[1],
        &[7],
        &[0.0],
        &[0],
        &[0.0],
        &pdf_ids[..pdfs],
        &phone_ids[..phones],
        0,
        2,
    );
    tell(name, built);
}

// The same value as an arc's weight, an epsilon arc's, and a final weight.
fn with_weight(name: &[u8], weight: f32) {
    let mut c = good();
    c.weight = weight;
    text(b"arc weight ");
    one_arc(name, c);
    c.label = 0;
    text(b"epsilon weight ");
    one_arc(name, c);
    let mut d = good();
    d.last = weight;
    text(b"final weight ");
    one_arc(name, d);
    text(b"is_final of ");
    one_final(name, weight, 0);
}

// Whether a state is final, where state 0 is the only one and has this final weight.
fn one_final(name: &[u8], last: f32, state: u32) {
    text(name);
    if fst::is_final(&[last], state) {
        text(b": yes\n");
    } else {
        text(b": no\n");
    }
}

fn floats() {
    with_weight(b"NaN", f32::NAN);
    with_weight(b"infinity", f32::INFINITY);
    with_weight(b"-infinity", f32::NEG_INFINITY);
    with_weight(b"2^100", BOUND);
    with_weight(b"-2^100", -BOUND);
    with_weight(b"below 2^100", BOUND.next_down());
    with_weight(b"above -2^100", -BOUND.next_down());
    with_weight(b"greatest", f32::MAX);
    with_weight(b"-0", -0.0);
    with_weight(b"least above 0", 0.0f32.next_up());
    with_weight(b"greatest below 0", -0.0f32.next_up());
    with_weight(b"-1", -1.0);
    one_final(b"is_final of no state", 0.0, 1);
    one_final(b"is_final of NO_STATE", 0.0, NO_STATE);
}

// ---- two faults

fn two_faults() {
    shape(b"offsets and start", &[1], 0, 0, 0, 0, 0, 0);
    let mut c = good();
    c.start = 1;
    c.label = -1;
    c.last = f32::NAN;
    one_arc(b"start, label and final weight", c);
    c.start = 0;
    one_arc(b"label and final weight", c);
    c.target = 1;
    one_arc(b"target, label and final weight", c);
    c.label = 1;
    c.weight = f32::NAN;
    c.phone = 0;
    one_arc(b"target, phone and weight", c);
    c.target = 0;
    one_arc(b"phone, weight and final weight", c);
    c.pdf = 1;
    one_arc(b"pdf, phone and weight", c);
    c.pdf = 0;
    c.phone = 3;
    one_arc(b"weight and final weight", c);
    c.label = -1;
    one_arc(b"label and weight", c);
}

// ---- three states: one arc, none, and three

#[derive(Clone, Copy)]
struct Arcs {
    labels: [i32; 4],
    weights: [f32; 4],
    targets: [u32; 4],
    finals: [f32; 3],
}

fn all_good() -> Arcs {
    Arcs {
        labels: [1, 0, 1, 0],
        weights: [0.0; 4],
        targets: [2, 1, 0, 2],
        finals: [0.0; 3],
    }
}

fn three_states(name: &[u8], a: Arcs) {
    let labels = a.labels;
    let weights = a.weights;
    let targets = a.targets;
    let finals = a.finals;
    let built = fst::build(
        &[0, 1, 1, 4],
        &labels,
        &[7, 8, 0, 0],
        &weights,
        &targets,
        &finals,
        &[-1, 0],
        &[0, 3],
        2,
        1,
    );
    tell(name, built);
}

fn places() {
    let mut a = all_good();
    three_states(b"three states", a);
    a.finals[1] = f32::NEG_INFINITY;
    a.finals[2] = f32::NAN;
    three_states(b"two final weights", a);
    a.labels[3] = -1;
    three_states(b"final weights and the last arc", a);
    a.weights[2] = f32::NAN;
    three_states(b"two arcs of a state", a);
    a.targets[1] = 3;
    three_states(b"three arcs of a state", a);
    a.weights[0] = f32::NAN;
    three_states(b"arcs of two states", a);
}

// The table of the states with epsilon arcs, for the same arcs, and a place behind it.
fn epsilons() {
    let mut table = [9u8; 4];
    fst::fill_eps(&[0, 1, 1, 4], &[1, 0, 1, 0], &mut table);
    byte(b"epsilon arcs: ", table[0]);
    byte(b", ", table[1]);
    byte(b", ", table[2]);
    byte(b", ", table[3]);
    text(b"\n");
}

// ---- the largest graphs

fn largest() {
    states(b"65535 states", 65535, 65534);
    states(b"65535 states, start past them", 65535, 65535);
    states(b"65536 states", 65536, 0);
    let table = [1; 65538];
    ids(b"65536 ids", &table, 65536, 65537, 65537);
    ids(b"65536 ids, label past them", &table, 65537, 65537, 65537);
    ids(b"65537 pdfs", &table, 1, 65538, 65537);
    ids(b"65537 phones", &table, 1, 65537, 65538);
}

// So many states with no arcs.
fn states(name: &[u8], count: usize, start: u32)
    requires { count ≤ 65536 }
{
    let offsets = [0; 65537];
    let finals = [0.0; 65536];
    let built = fst::build(
        &offsets[..count + 1],
        &[],
        &[],
        &[],
        &[],
        &finals[..count],
        &[],
        &[],
        start,
        0,
    );
    tell(name, built);
}

// Tables with so many entries: transition ids are numbered from 1, so that entry 0 is no id's.
fn ids(name: &[u8], table: &[i32], label: i32, pdfs: usize, phones: usize)
    requires { (pdfs ≤ length table.now) × (phones ≤ length table.now) }
{
    let built = fst::build(
        &[0, 1],
        &[label],
        &[7],
        &[0.0],
        &[0],
        &[0.0],
        &table[..pdfs],
        &table[..phones],
        0,
        2,
    );
    tell(name, built);
}
