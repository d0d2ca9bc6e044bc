// The two token tables, in two lent slices: one for the last finished start or frame, one for the start or frame in progress. `side`, 0 or 1, says
// which. `tokens` has eight numbers for each state, four for each table: the token's record number, its seq, its phone, and marks.
// `sums` has four for each state, two for each table: the token's cost and graph sum.
// Sixteen states make a block, and the marks of block k stand at state k: one bit for each of its states that is active, and sixteen bits up one for each that
// was requeued. So a table is emptied block by block, and a pass over the active states skips the blocks that have none.
#![tactic(auto)]

ghost use Rattle.std.specs.Prelude.{◌≡◌, ◌+◌, ◌-◌, ◌*◌, ◌≤◌, ◌<◌, ltb, length};
ghost use Rattle.std.specs.Iterator.{at_most};
ghost use Rattle.tokens.specs.Walk.{Walks, StepsTo, Over};
ghost use Rattle.tokens.specs.Layout.{place_in, active_in, requeued_in, bit_at, held_at, requeued_at, cost_at, cell_at, token_of, marked, TokenPut, Cleared, Requeued, FirstBit, NextBlock, NextActive};

// A token: its two sums, its newest record (0 for none), its phone and its place in the order of making.
#[derive(Clone, Copy)]
pub struct Token {
    pub cost: f32,
    pub graph: f32,
    pub link: u32,
    pub phone: u32,
    pub seq: u32,
}

// ---- marks

// The marks of a block's active states.
fn active_in(tokens: &[u32], side: u32, block: u32) -> u32
    requires { place_in side block * 4 + 4 ≤ length tokens.now }
    ensures { result ≡ active_in tokens.now (place_in side block) }
{
    let p = block as usize * 2 + side as usize;
    tokens[p * 4 + 3] % 65536
}

// The marks of a block's requeued states.
fn requeued_in(tokens: &[u32], side: u32, block: u32) -> u32
    requires { place_in side block * 4 + 4 ≤ length tokens.now }
    ensures { result ≡ requeued_in tokens.now (place_in side block) }
{
    let p = block as usize * 2 + side as usize;
    tokens[p * 4 + 3] / 65536
}

fn has_bit(n: u32, j: u32) -> bool
    requires { j < 16 }
    ensures { result ≡ ltb 0 (bit_at n j) }
{
    0 < (n >> j) % 2
}

// The first bit from `j` on that is set, 16 where there is none: a block that is known to have a mark then needs no second case.
fn first_bit(n: u32, j: u32) -> u32
    requires { (n < 65536) × (j < 16) }
    ensures { FirstBit n j result }
{
    let rest = n >> j;
    if rest == 0 {
        return 16;
    }
    j + u32::trailing_zeros(rest)
}

// Sets a mark of a state: 1 says that it is active, 65536 that it was requeued.
fn set_mark(tokens: &mut [u32], side: u32, s: u32, mark: u32)
    requires { (side ≤ 1) × (s * 8 + 8 ≤ length tokens.old) × (mark ≤ 65536) }
    ensures { tokens.new ≡ marked tokens.old (place_in side s) mark }
{
    let i = (s as usize / 16 * 2 + side as usize) * 4 + 3;
    tokens[i] = tokens[i] | mark << (s % 16);
}

// ---- one place

pub fn is_active(tokens: &[u32], side: u32, s: u32) -> bool
    requires { (side ≤ 1) × (s * 8 + 8 ≤ length tokens.now) }
    ensures { result ≡ ltb 0 (held_at tokens.now (place_in side s)) }
{
    has_bit(active_in(tokens, side, s / 16), s % 16)
}

// The same of a place, for a pass over both tables.
pub fn has_token(tokens: &[u32], place: u32) -> bool
    requires { place * 4 + 4 ≤ length tokens.now }
    ensures { result ≡ ltb 0 (held_at tokens.now place) }
{
    has_bit(active_in(tokens, place % 2, place / 32), place / 2 % 16)
}

// The cost of the token in a place.
pub fn cost_at(sums: &[f32], side: u32, s: u32) -> f32
    requires { (side ≤ 1) × (s * 4 + 4 ≤ length sums.now) }
    ensures { result ≡ cost_at sums.now (place_in side s) }
{
    let place = s as usize * 2 + side as usize;
    sums[place * 2]
}

// The newest record of the token in a place; 0 where there is none.
pub fn link_at(tokens: &[u32], side: u32, s: u32) -> u32
    requires { (side ≤ 1) × (s * 8 + 8 ≤ length tokens.now) }
    ensures { result ≡ held_at tokens.now (place_in side s) - 1 }
{
    if !is_active(tokens, side, s) {
        return 0;
    }
    let p = s as usize * 2 + side as usize;
    tokens[p * 4]
}

// The token in a place; its record is 0 where there is none.
pub fn token_at(tokens: &[u32], sums: &[f32], side: u32, s: u32) -> Token
    requires { (side ≤ 1) × (s * 8 + 8 ≤ length tokens.now) × (s * 4 + 4 ≤ length sums.now) }
    ensures { result ≡ token_of (cell_at tokens.now sums.now (place_in side s)) }
{
    let p = s as usize * 2 + side as usize;
    Token {
        cost: sums[p * 2],
        graph: sums[p * 2 + 1],
        link: link_at(tokens, side, s),
        phone: tokens[p * 4 + 2],
        seq: tokens[p * 4 + 1],
    }
}

pub fn put_token(tokens: &mut [u32], sums: &mut [f32], side: u32, s: u32, t: Token)
    requires { (side ≤ 1) × (s * 8 + 8 ≤ length tokens.old) × (s * 4 + 4 ≤ length sums.old) }
    ensures { TokenPut tokens.old tokens.new sums.old sums.new (place_in side s) t }
{
    set_mark(tokens, side, s, 1);
    let p = s as usize * 2 + side as usize;
    tokens[p * 4] = t.link;
    tokens[p * 4 + 1] = t.seq;
    tokens[p * 4 + 2] = t.phone;
    sums[p * 2] = t.cost;
    sums[p * 2 + 1] = t.graph;
}

// Whether a join has sent the state back to the queue.
pub fn was_requeued(tokens: &[u32], side: u32, s: u32) -> bool
    requires { (side ≤ 1) × (s * 8 + 8 ≤ length tokens.now) }
    ensures { result ≡ ltb 0 (requeued_at tokens.now (place_in side s)) }
{
    has_bit(requeued_in(tokens, side, s / 16), s % 16)
}

pub fn set_requeued(tokens: &mut [u32], side: u32, s: u32)
    requires { (side ≤ 1) × (s * 8 + 8 ≤ length tokens.old) }
    ensures { Requeued tokens.old tokens.new (place_in side s) }
{
    set_mark(tokens, side, s, 65536);
}

// ---- a table

// Empties a table.
pub fn clear(tokens: &mut [u32], side: u32, states: u32)
    requires { (side ≤ 1) × (states * 8 ≤ length tokens.old) }
    ensures { Cleared tokens.old tokens.new side states }
{
    for block in 0..states.div_ceil(16) {
        let p = block as usize * 2 + side as usize;
        tokens[p * 4 + 3] = 0;
    }
}

// The first block from `from` on with an active state, of those that the states make.
fn next_block(tokens: &[u32], side: u32, from: u32, states: u32) -> Option<u32>
    requires { (side ≤ 1) × (states * 8 ≤ length tokens.now) }
    ensures { NextBlock tokens.now side from states result }
{
    for block in from..states.div_ceil(16) {
        if active_in(tokens, side, block) != 0 {
            return Some(block);
        }
    }
    None
}

// The first active state from `s` on, or `states` where there is none, so that a walk of the marks ends there with no second case. `active` gives them one by one.
pub fn next_active(tokens: &[u32], side: u32, s: u32, states: u32) -> u32
    requires { (side ≤ 1) × (s ≤ states) × (states * 8 ≤ length tokens.now) }
    ensures { NextActive tokens.now side s states result }
{
    if s == states {
        return states;
    }
    let here = s / 16;
    let j = first_bit(active_in(tokens, side, here), s % 16);
    if j < 16 {
        return (here * 16 + j).min(states);
    }
    match next_block(tokens, side, here + 1, states) {
        Some(next) => (next * 16 + first_bit(active_in(tokens, side, next), 0)).min(states),
        None => states,
    }
}

// The active states from `next` on, in ascending order.
#[derive(Drop)]
pub struct ActiveStates<'a> {
    tokens: &'a [u32],
    side: u32,
    states: u32,
    next: u32,
}

impl Iterator for ActiveStates<'_> {
    type Item = u32;

    ghost can_next = { Walks };

    ghost next_gives = { StepsTo };

    ghost remaining = { λ a. at_most (a.states - a.next) };

    fn next(&mut self) -> Option<u32> {
        let s = next_active(self.tokens, self.side, self.next, self.states);
        if s == self.states {
            return None;
        }
        self.next = s + 1;
        Some(s)
    }
}

// All active states of a table.
pub fn active(tokens: &[u32], side: u32, states: u32) -> ActiveStates<'_>
    requires { (side ≤ 1) × (states * 8 ≤ length tokens.now) }
    ensures { (Over tokens.now side states result) × (result.next ≡ 0) }
{
    ActiveStates {
        tokens,
        side,
        states,
        next: 0,
    }
}
