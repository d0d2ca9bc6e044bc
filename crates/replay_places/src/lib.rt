// What the program `replay` holds between calls: a graph, whose slices it lends to each, and in specs/ what is known of the decoder and the stores.
#![tactic(auto)]

// A graph's slices and numbers, as they are lent.
#[derive(Clone, Copy)]
pub struct Graph<'a> {
    pub offsets: &'a [u32],
    pub ilabels: &'a [i32],
    pub olabels: &'a [i32],
    pub weights: &'a [f32],
    pub nextstates: &'a [u32],
    pub finals: &'a [f32],
    pub tid2pdf: &'a [i32],
    pub tid2phone: &'a [i32],
    pub start: u32,
    pub pdfs: u32,
}
