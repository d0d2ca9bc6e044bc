// The graph as lent slices of numbers, and its builder, which refuses for the first five reasons.
#![tactic(auto)]

ghost use Rattle.std.specs.Prelude.{◌≡◌, ◌+◌, ◌≤◌, ◌<◌, true, not, [], length, get_or};
ghost use Rattle.lists.specs.Lists.{any};
ghost use Rattle.model.specs.Basics.{0f, nonzero, nowhere};
ghost use Rattle.model.specs.Graph.{Graph as ModelGraph, runs_from0, shape_wrong, start_wrong, weight_wrong, final_wrong, check_arc, check_states, check_finals, is_final};
ghost use Rattle.fst.specs.Epsilons.{EpsFilled};
ghost use Rattle.fst.specs.Answer.{graph_of, tables_of, arc_of, wrong_of, check_label, without_words, check_part, Shaped, found_of, build_of};

use refusals::{Place, Reason, Refusal};

// The start of a graph that has none.
pub const NO_STATE: u32 = 4_294_967_295;

// What is known of an accepted graph beside its slices: the counts of states and arcs, the start, and the count of pdfs.
#[repr(C)]
#[derive(Clone, Copy)]
pub struct Graph {
    pub states: u32,
    pub arcs: u32,
    pub start: u32,
    pub pdfs: u32,
}

// Whether the offsets run from 0 to the arc count without falling.
fn runs(offsets: &[u32], arcs: usize) -> bool
    ensures { result ≡ runs_from0 arcs offsets.now }
{
    if offsets.len() == 0 {
        return false;
    }
    if offsets[0] != 0 {
        return false;
    }
    let mut at: u32 = 0;
    for &next in offsets {
        if next < at {
            return false;
        }
        at = next;
    }
    at as usize == arcs
}

// The number of a state's first arc; behind the last state, the arc count.
pub fn first_arc(offsets: &[u32], state: usize) -> usize
    requires { state < length offsets.now }
    ensures { result ≡ get_or offsets.now state 0 }
{
    offsets[state] as usize
}

// Too many states, arcs or transition ids, lengths that disagree, or offsets that do not run from 0 to the arc count.
fn shape_wrong(
    offsets: &[u32],
    ilabels: &[i32],
    olabels: &[i32],
    weights: &[f32],
    nextstates: &[u32],
    finals: &[f32],
    tid2pdf: &[i32],
    tid2phone: &[i32],
) -> bool
    ensures { result ≡ shape_wrong (graph_of offsets.now ilabels.now olabels.now weights.now nextstates.now finals.now tid2pdf.now tid2phone.now 0 0) }
{
    let states = finals.len();
    let arcs = ilabels.len();
    if states > refusals::MAX_STATES {
        return true;
    }
    if arcs > refusals::MAX_ARCS {
        return true;
    }
    if tid2pdf.len() > refusals::MAX_TRANSITIONS {
        return true;
    }
    if tid2phone.len() > refusals::MAX_TRANSITIONS {
        return true;
    }
    if offsets.len() != states + 1 {
        return true;
    }
    if olabels.len() != arcs {
        return true;
    }
    if weights.len() != arcs {
        return true;
    }
    if nextstates.len() != arcs {
        return true;
    }
    !runs(offsets, arcs)
}

// An input label: its pdf, then its phone.
fn check_label(ilabel: i32, tid2pdf: &[i32], tid2phone: &[i32], pdfs: u32) -> Result<(), Reason>
    ensures { wrong_of result ≡ check_label (tables_of [] tid2pdf.now tid2phone.now pdfs) (arc_of ilabel 0f 0) }
{
    if ilabel < 0 {
        return Err(Reason::BadLabel);
    }
    if ilabel == 0 {
        return Ok(());
    }
    let i = ilabel as usize;
    if tid2pdf.len() <= i {
        return Err(Reason::BadLabel);
    }
    if tid2phone.len() <= i {
        return Err(Reason::BadLabel);
    }
    let pdf = tid2pdf[i];
    if pdf < 0 {
        return Err(Reason::BadLabel);
    }
    if pdfs <= pdf as u32 {
        return Err(Reason::BadLabel);
    }
    if tid2phone[i] < 1 {
        return Err(Reason::BadPhone);
    }
    Ok(())
}

// Of an arc: not tame, or an epsilon arc below zero.
fn weight_wrong(ilabel: i32, weight: f32) -> bool
    ensures { result ≡ weight_wrong (arc_of ilabel weight 0) }
{
    if !real32::is_tame(weight) {
        return true;
    }
    if ilabel != 0 {
        return false;
    }
    weight < 0.0
}

// An arc: its target, its label, its weight.
fn check_arc(
    ilabel: i32,
    weight: f32,
    nextstate: u32,
    finals: &[f32],
    tid2pdf: &[i32],
    tid2phone: &[i32],
    pdfs: u32,
) -> Result<(), Reason>
    ensures { wrong_of result ≡ check_arc (tables_of finals.now tid2pdf.now tid2phone.now pdfs) nowhere (arc_of ilabel weight nextstate) }
{
    if finals.len() <= nextstate as usize {
        return Err(Reason::NoSuchState);
    }
    check_label(ilabel, tid2pdf, tid2phone, pdfs)?;
    if weight_wrong(ilabel, weight) {
        return Err(Reason::BadWeight);
    }
    Ok(())
}

// The arcs of one state, which are parts of the arc tables.
fn check_arcs(
    state: u32,
    ilabels: &[i32],
    weights: &[f32],
    nextstates: &[u32],
    finals: &[f32],
    tid2pdf: &[i32],
    tid2phone: &[i32],
    pdfs: u32,
) -> Result<(), Refusal>
    requires { (length weights.now ≡ length ilabels.now) × (length nextstates.now ≡ length ilabels.now) × (length ilabels.now ≤ 1_048_576) }
    ensures { result ≡ found_of (check_part (without_words [] ilabels.now weights.now nextstates.now finals.now tid2pdf.now tid2phone.now pdfs) state) }
{
    // One index over three slices: they are the C interface's parallel arrays.
    for i in 0..ilabels.len() {
        let checked = check_arc(
            ilabels[i],
            weights[i],
            nextstates[i],
            finals,
            tid2pdf,
            tid2phone,
            pdfs,
        );
        if let Err(reason) = checked {
            return Err(reason.at(Place::AtArc(state, i as u32)));
        }
    }
    Ok(())
}

// The arcs, state by state.
fn check_states(
    offsets: &[u32],
    ilabels: &[i32],
    weights: &[f32],
    nextstates: &[u32],
    finals: &[f32],
    tid2pdf: &[i32],
    tid2phone: &[i32],
    pdfs: u32,
) -> Result<(), Refusal>
    requires { Shaped offsets.now ilabels.now weights.now nextstates.now finals.now }
    ensures { result ≡ found_of (check_states (without_words offsets.now ilabels.now weights.now nextstates.now finals.now tid2pdf.now tid2phone.now pdfs) 0 offsets.now) }
{
    for s in 0..finals.len() {
        let a = first_arc(offsets, s);
        let e = first_arc(offsets, s + 1);
        check_arcs(
            s as u32,
            &ilabels[a..e],
            &weights[a..e],
            &nextstates[a..e],
            finals,
            tid2pdf,
            tid2phone,
            pdfs,
        )?;
    }
    Ok(())
}

// Of a final weight: neither tame nor +∞.
fn final_wrong(weight: f32) -> bool
    ensures { result ≡ final_wrong weight }
{
    if real32::is_tame(weight) {
        return false;
    }
    if weight < real32::infinity() {
        return true;
    }
    !(0.0 < weight)
}

// The final weights, state by state.
fn check_finals(finals: &[f32]) -> Result<(), Refusal>
    requires { length finals.now ≤ 65_535 }
    ensures { result ≡ found_of (check_finals 0 finals.now) }
{
    for (s, &weight) in finals.iter().enumerate() {
        if final_wrong(weight) {
            return Err(Reason::BadWeight.at(Place::AtState(s as u32)));
        }
    }
    Ok(())
}

// Of the start: neither a state nor NO_STATE.
fn start_wrong(start: u32, finals: &[f32]) -> bool
    ensures { result ≡ start_wrong (graph_of [] [] [] [] [] finals.now [] [] start 0) }
{
    if (start as usize) < finals.len() {
        return false;
    }
    start != NO_STATE
}

// The checks in document 01's order: the shape, the start, the arcs in order, the final weights.
pub fn build(
    offsets: &[u32],
    ilabels: &[i32],
    olabels: &[i32],
    weights: &[f32],
    nextstates: &[u32],
    finals: &[f32],
    tid2pdf: &[i32],
    tid2phone: &[i32],
    start: u32,
    pdfs: u32,
) -> Result<Graph, Refusal>
    ensures { result ≡ build_of (graph_of offsets.now ilabels.now olabels.now weights.now nextstates.now finals.now tid2pdf.now tid2phone.now start pdfs) }
{
    if shape_wrong(
        offsets, ilabels, olabels, weights, nextstates, finals, tid2pdf, tid2phone,
    ) {
        return Err(Reason::BadShape.at(Place::Nowhere));
    }
    if start_wrong(start, finals) {
        return Err(Reason::NoSuchState.at(Place::Nowhere));
    }
    check_states(
        offsets, ilabels, weights, nextstates, finals, tid2pdf, tid2phone, pdfs,
    )?;
    check_finals(finals)?;
    Ok(Graph {
        states: finals.len() as u32,
        arcs: ilabels.len() as u32,
        start,
        pdfs,
    })
}

// Whether a state is final, in any graph with these final weights: its weight is finite. What is no state is not final.
pub fn is_final(finals: &[f32], state: u32) -> bool
    ensures { (g : ModelGraph) → g.finals ≡ finals.now → result ≡ is_final g state }
{
    let s = state as usize;
    if finals.len() <= s {
        return false;
    }
    real32::is_finite(finals[s])
}

// Whether one state's arcs, a part of the table, hold an epsilon arc.
fn has_eps(ilabels: &[i32]) -> bool
    ensures { result ≡ any (λ z. not (nonzero z)) ilabels.now }
{
    ilabels.contains(&0)
}

// Which states have epsilon arcs: 1 or 0 for each. What stands behind the states is unchanged. The offsets are those of an accepted shape.
pub fn fill_eps(offsets: &[u32], ilabels: &[i32], table: &mut [u8])
    requires { (runs_from0 (length ilabels.now) offsets.now ≡ true) × (length offsets.now ≤ length table.old + 1) }
    ensures { EpsFilled offsets.now ilabels.now table.old table.new }
{
    for s in 0..offsets.len() - 1 {
        let a = first_arc(offsets, s);
        let e = first_arc(offsets, s + 1);
        table[s] = has_eps(&ilabels[a..e]) as u8;
    }
}
