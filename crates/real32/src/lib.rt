// The tests of magnitude, +∞, and the laws of f32 in specs/.
#![tactic(auto)]

ghost use Rattle.std.specs.Prelude.{◌≡◌, false};
ghost use Rattle.std.specs.Float.{inf};
ghost use Rattle.std.specs.Float.Ieee.Scale.{finite};
ghost use Rattle.real32.specs.Small.{tame};

// Whether x is finite and of magnitude below 2^100.
pub fn is_tame(x: f32) -> bool
    ensures { result ≡ tame x }
{
    x < 1267650600228229401496703205376.0 && -1267650600228229401496703205376.0 < x
}

// +∞.
pub fn infinity() -> f32
    ensures { result ≡ inf false }
{
    f32::INFINITY
}

#[tactic(auto, using(crate::proofs::Finite::std_finite, crate::proofs::Finite::above_minus, crate::proofs::Finite::not_below_plus))]
pub fn is_finite(x: f32) -> bool
    ensures { result ≡ finite x }
{
    x.is_finite()
}
