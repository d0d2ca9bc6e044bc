// A u32 in decimal, without leading zeros: written, read, and found in a text.
#![tactic(auto)]

ghost use Rattle.std.specs.Prelude.{◌≡◌, ◌+◌, ◌≤◌, length};
ghost use Rattle.decimals.specs.Decimal.{decimal, IsNumber};
ghost use Rattle.decimals.specs.Stored.{Stored};
ghost use Rattle.decimals.specs.Numbers.{grown_by, next_of, numbers_in};

// Writes the digits of a number from a place on, and gives the place behind them.
#[tactic(auto, using(crate::specs::RoundTrip::length_one, crate::specs::RoundTrip::length_more))]
pub fn write_decimal(number: u32, out: &mut [u8], at: usize) -> usize
    requires { at + length (decimal number) ≤ length out.old }
    ensures { Stored out.old at (decimal number) result out.new }
{
    if number < 10 {
        out[at] = b'0' + number as u8;
        return at + 1;
    }
    let last = write_decimal(number / 10, out, at);
    out[last] = b'0' + (number % 10) as u8;
    last + 1
}

// The number whose digits are the bytes, all of them; none for other bytes, as with a leading zero.
pub fn read_decimal(bytes: &[u8]) -> Option<u32>
    ensures { IsNumber bytes.now result }
{
    let number = numbers_in(bytes).third;
    let mut digits = [0u8; 10];
    let end = write_decimal(number, &mut digits, 0);
    if &digits[..end] == bytes {
        Some(number)
    } else {
        None
    }
}

// The last three numbers of a text, each a run of digits, in order; 0 for those that it has not.
#[derive(Clone, Copy, Default)]
pub struct Numbers {
    // whether a run goes on
    pub inside: bool,
    pub first: u32,
    pub second: u32,
    pub third: u32,
}

// The number with one digit more. One that would pass a u32 stays as it is.
#[tactic(auto, unfolding(crate::specs::Numbers::grown_by))]
fn grown(number: u32, digit: u32) -> u32
    ensures { result ≡ grown_by number digit }
{
    number
        .checked_mul(10)
        .and_then(|tens| tens.checked_add(digit))
        .unwrap_or(number)
}

impl Numbers {
    // The numbers with the next byte of the text.
    #[tactic(auto, unfolding(crate::specs::Numbers::next_of))]
    fn next(self, byte: u8) -> Numbers
        ensures { result ≡ next_of self byte }
    {
        if !byte.is_ascii_digit() {
            return Numbers {
                inside: false,
                ..self
            };
        }
        let digit = u32::from(byte - b'0');
        if self.inside {
            return Numbers {
                third: grown(self.third, digit),
                ..self
            };
        }
        Numbers {
            inside: true,
            first: self.second,
            second: self.third,
            third: digit,
        }
    }
}

// A run that would pass a u32 counts as some number.
#[tactic(auto, using(lists::specs::Members::drop_next), unfolding(crate::specs::Numbers::numbers_from))]
pub fn numbers_in(bytes: &[u8]) -> Numbers
    ensures { result ≡ numbers_in bytes.now }
{
    let mut found = Numbers::default();
    for &byte in bytes {
        found = found.next(byte);
    }
    found
}
