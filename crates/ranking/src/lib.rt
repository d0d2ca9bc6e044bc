// The tokens that count, best first.
#![tactic(auto)]

ghost use Rattle.std.specs.Prelude.{◌≡◌, not, T};
ghost use Rattle.std.specs.Float.Ieee.{is_nan};
ghost use Rattle.ranking.specs.Keys.{key_of_rank};
ghost use Rattle.ranking.specs.Listed.{PutAsks, Put, Listed};
ghost use Rattle.ranking.specs.Ranked.{RankAsks, RankedIs};

use traceback::{Candidate, candidate_at};

// A key for each rank and seq, the smaller for what comes first: a lower rank does, and of equal ranks the larger seq.
pub fn key_of_rank(rank: f32, seq: u32) -> u64
    requires { T (not (is_nan rank)) }
    ensures { result ≡ key_of_rank rank seq }
{
    u64::from(sorting::order_key(rank)) * 0x1_0000_0000 + u64::from(u32::MAX - seq)
}

// Puts a token that counts behind the first n.
fn put_ranked(keys: &mut [u64], order: &mut [u32], n: usize, best: Option<Candidate>) -> usize
    requires { PutAsks keys.old order.old n best }
    ensures { Put keys.old keys.new order.old order.new n best result }
{
    match best {
        None => n,
        Some(c) => {
            keys[n] = key_of_rank(c.rank, c.seq);
            order[n] = c.state;
            n + 1
        }
    }
}

// The states of the tokens that count, ascending, with their keys.
fn rank_all(
    tokens: &[u32],
    sums: &[f32],
    finals: &[f32],
    states: u32,
    side: u32,
    counts: bool,
    keys: &mut [u64],
    order: &mut [u32],
) -> usize
    requires { RankAsks tokens.now sums.now finals.now side states counts keys.old order.old }
    ensures { Listed tokens.now sums.now finals.now side counts states keys.new order.new result }
{
    let mut n = 0;
    let mut s = tokens::next_active(tokens, side, 0, states);
    while s < states {
        n = put_ranked(
            keys,
            order,
            n,
            candidate_at(tokens, sums, finals, side, s, counts),
        );
        s = tokens::next_active(tokens, side, s + 1, states);
    }
    n
}

// The states of the tokens that count, best first.
pub fn ranked(
    tokens: &[u32],
    sums: &[f32],
    finals: &[f32],
    states: u32,
    side: u32,
    counts: bool,
    keys: &mut [u64],
    order: &mut [u32],
) -> usize
    requires { RankAsks tokens.now sums.now finals.now side states counts keys.old order.old }
    ensures { RankedIs tokens.now sums.now finals.now side states counts order.new result }
{
    let n = rank_all(tokens, sums, finals, states, side, counts, keys, order);
    sorting::sort(keys, order, n);
    n
}
