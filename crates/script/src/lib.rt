// Scripts and answers in the binary form of oracle/FORMAT.md, which the replay programs share: a stream of 32-bit little-endian words.
// A word's place is its index among the words.
#![tactic(auto)]

ghost use Rattle.std.specs.Prelude.{◌≡◌, ℕ, length};
ghost use Rattle.std.specs.Int.{w32};
ghost use Rattle.std.proofs.Common.{to_z, of_z};
ghost use Rattle.std.specs.Float.{binary32};
ghost use Rattle.std.specs.Float.Ieee.{of_bits, to_bits};
ghost use Rattle.script.specs.Words.{word_count, word_at, long_at, fitting, Filled, Put, PutLong};
ghost use Rattle.script.specs.Records.{record_at, fault_bytes};

use std::num::{f32_from_bits_with_nan, f32_to_bits_with_nan};

// The refusal that means a faulty script.
pub const FAULT: u32 = 4_294_967_295;

// ---- numbers that travel as words

// A number that a word stands for.
pub trait Word {
    // The number of a word, and a number's word.
    ghost of_word: { ℕ → Self };

    ghost word_of: { Self → ℕ };

    fn from_word(w: u32) -> Self
        ensures { result ≡ of_word w };

    fn to_word(self) -> u32
        ensures { result ≡ word_of self };
}

impl Word for u32 {
    ghost of_word = { λ w. w };

    ghost word_of = { λ w. w };

    fn from_word(w: u32) -> u32 {
        w
    }

    fn to_word(self) -> u32 {
        self
    }
}

// The two's complement.
impl Word for i32 {
    ghost of_word = { to_z w32 };

    ghost word_of = { of_z w32 };

    fn from_word(w: u32) -> i32 {
        w.cast_signed()
    }

    fn to_word(self) -> u32 {
        self.cast_unsigned()
    }
}

// The bits. Every pattern of a NaN gives the one NaN there is, whose bits are 0x7fc00000.
impl Word for f32 {
    ghost of_word = { of_bits binary32 };

    ghost word_of = { to_bits binary32 };

    fn from_word(w: u32) -> f32 {
        f32_from_bits_with_nan(w)
    }

    fn to_word(self) -> u32 {
        f32_to_bits_with_nan(self)
    }
}

// ---- places

// Places for what a program works in, all with one value. The `ensures` gives the length alone, which lending the array as a slice needs.
pub fn places<T: Copy, const N: usize>(value: T) -> [T; N]
    ensures { N ≡ length result }
{
    [value; N]
}

// ---- reading

// How many whole words there are.
pub fn words(bytes: &[u8]) -> usize
    ensures { result ≡ word_count bytes.now }
{
    bytes.len() / 4
}

// The word at a place, and 0 past the last whole word.
#[tactic(auto, unfolding(crate::specs::Words::word_at))]
pub fn word_at(bytes: &[u8], at: usize) -> u32
    ensures { result ≡ word_at bytes.now at }
{
    if words(bytes) <= at {
        return 0;
    }
    let i = 4 * at;
    u32::from_le_bytes([bytes[i], bytes[i + 1], bytes[i + 2], bytes[i + 3]])
}

// The 64-bit number of two words, the low one first.
#[tactic(auto, using(crate::specs::Words::past_words))]
pub fn long_at(bytes: &[u8], at: usize) -> u64
    ensures { result ≡ long_at bytes.now at }
{
    if words(bytes) <= at {
        return 0;
    }
    u64::from(word_at(bytes, at)) + 0x1_0000_0000 * u64::from(word_at(bytes, at + 1))
}

// ---- records

#[derive(Clone, Copy, Debug, PartialEq, Eq)]
pub struct Record {
    pub kind: u32,
    // where its payload starts, and how many words it has
    pub start: usize,
    pub count: usize,
}

// The bytes end within a record.
#[derive(Clone, Copy, Debug, PartialEq, Eq)]
pub struct CutShort;

// The record that starts at a place, or None at the end of the script.
#[tactic(auto, unfolding(crate::specs::Records::record_at))]
pub fn record_at(bytes: &[u8], at: usize) -> Result<Option<Record>, CutShort>
    ensures { result ≡ record_at bytes.now at }
{
    let all = words(bytes);
    if all <= at {
        if bytes.len() % 4 == 0 {
            return Ok(None);
        }
        return Err(CutShort);
    }
    if all - at < 2 {
        return Err(CutShort);
    }
    let start = at + 2;
    let count = word_at(bytes, at + 1) as usize;
    if all - start < count {
        return Err(CutShort);
    }
    Ok(Some(Record {
        kind: word_at(bytes, at),
        start,
        count,
    }))
}

// Whether there are n words from a place on, and places for them.
pub fn can_fill(bytes: &[u8], at: usize, n: usize, places: usize) -> bool
    ensures { result ≡ fitting bytes.now at n places }
{
    let all = words(bytes);
    n <= places && at <= all && n <= all - at
}

// Copies n words to the start of `out`, and tells whether they fitted. If not, nothing is written.
#[tactic(auto, using(crate::proofs::Stores::filling_none))]
pub fn fill<T: Word + Copy>(bytes: &[u8], at: usize, out: &mut [T], n: usize) -> bool
    ensures { Filled T.of_word bytes.now at n out.old result out.new }
{
    if !can_fill(bytes, at, n, out.len()) {
        return false;
    }
    for i in 0..n {
        out[i] = T::from_word(word_at(bytes, at + i));
    }
    true
}

// ---- writing

// Puts a word at a place, and gives the next place. Where there is no room nothing is written and the place stays.
#[tactic(auto, unfolding(crate::specs::Words::place_after, crate::specs::Words::put_word))]
pub fn put_word(out: &mut [u8], at: usize, w: u32) -> usize
    ensures { Put out.old at w result out.new }
{
    if out.len() / 4 <= at {
        return at;
    }
    out[4 * at..4 * at + 4].copy_from_slice(&w.to_le_bytes());
    at + 1
}

// Puts a 64-bit number as two words, the low one first, and gives the next place.
pub fn put_long(out: &mut [u8], at: usize, x: u64) -> usize
    ensures { PutLong out.old at x result out.new }
{
    let next = put_word(out, at, (x % 0x1_0000_0000) as u32);
    put_word(out, next, (x / 0x1_0000_0000) as u32)
}

// The whole answer record to a faulty script or record: its kind, 1, and FAULT.
#[tactic(auto, unfolding(crate::specs::Words::put_word))]
pub fn fault(kind: u32) -> [u8; 12]
    ensures { result ≡ fault_bytes kind }
{
    let mut out = [0u8; 12];
    put_word(&mut out, 0, kind);
    put_word(&mut out, 1, 1);
    put_word(&mut out, 2, FAULT);
    out
}

#[cfg(test)]
mod tests {
    use super::*;

    // At each type `fill` promises what its words stand for.
    fn as_u32(bytes: &[u8], out: &mut [u32]) -> bool
        ensures { Filled (λ w. w) bytes.now 0 1 out.old result out.new }
    {
        fill(bytes, 0, out, 1)
    }

    fn as_i32(bytes: &[u8], out: &mut [i32]) -> bool
        ensures { Filled (to_z w32) bytes.now 0 1 out.old result out.new }
    {
        fill(bytes, 0, out, 1)
    }

    fn as_f32(bytes: &[u8], out: &mut [f32]) -> bool
        ensures { Filled (of_bits binary32) bytes.now 0 1 out.old result out.new }
    {
        fill(bytes, 0, out, 1)
    }

    #[test]
    fn fills_each_type(rt: HostRuntime) {
        let bytes = [0, 0, 0xa0, 0xff];
        let (mut u, mut i, mut f) = ([0u32], [0i32], [0f32]);
        assert!(rt; as_u32(&bytes, &mut u));
        assert!(rt; as_i32(&bytes, &mut i));
        assert!(rt; as_f32(&bytes, &mut f));
        assert_eq!(rt; u[0], 0xffa0_0000);
        assert_eq!(rt; i[0], -6_291_456);
        assert!(rt; f[0].is_nan());
        assert_eq!(rt; f[0].to_word(), 0x7fc0_0000);
    }
}
