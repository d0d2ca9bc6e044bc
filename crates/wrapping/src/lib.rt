// Multiplication that wraps, as the 64-bit hash of word lists uses it.
#![tactic(auto)]

ghost use Rattle.std.specs.Prelude.{◌≡◌, ◌*◌, ◌%◌, ◌^◌};

// a * b modulo 2^64. std's method under a name of its own: the edits that must fail are of this clause, and the hashes of word lists take it. It is proved of the product by halves too.
#[tactic(auto, using(crate::proofs::Halves::product_wrapped))]
pub fn wrapping_mul(a: u64, b: u64) -> u64
    ensures { result ≡ (a * b) % 2 ^ 64 }
{
    a.wrapping_mul(b)
}
