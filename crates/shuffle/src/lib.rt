// Bytes of a block of four-byte numbers by their place in the number, and back.
#![tactic(auto)]

ghost use Rattle.std.specs.Prelude.{◌≡◌};
ghost use Rattle.shuffle.specs.Block.{wrong, shuffled, unshuffled, Rearranged};

use refusals::Reason;

// Writes all first bytes, then all second, third and fourth. Refused by 20 where the length is not divisible by four, or the output has another.
pub fn shuffle(block: &[u8], output: &mut [u8]) -> Result<(), Reason>
    ensures { Rearranged shuffled block.now output.old result output.new }
{
    if is_wrong(block.len(), output.len()) {
        return Err(Reason::BadBlock);
    }
    let n = block.len() / 4;
    for i in 0..n {
        let at = i * 4;
        output[i] = block[at];
        output[n + i] = block[at + 1];
        output[2 * n + i] = block[at + 2];
        output[3 * n + i] = block[at + 3];
    }
    Ok(())
}

// The way back: writes the numbers from their first bytes, second, third and fourth. Refused as `shuffle` is.
pub fn unshuffle(block: &[u8], output: &mut [u8]) -> Result<(), Reason>
    ensures { Rearranged unshuffled block.now output.old result output.new }
{
    if is_wrong(block.len(), output.len()) {
        return Err(Reason::BadBlock);
    }
    let n = block.len() / 4;
    let third = 2 * n;
    let fourth = 3 * n;
    let mut i = 0;
    // The later tests follow from the first. With the first alone, and so with a `for`, the compiler takes no vectors, and a block takes up to ten times as long (docs/SPEED.md).
    while i < n && n + i < third && third + i < fourth && fourth + i < block.len() {
        let at = i * 4;
        output[at] = block[i];
        output[at + 1] = block[n + i];
        output[at + 2] = block[third + i];
        output[at + 3] = block[fourth + i];
        i += 1;
    }
    Ok(())
}

// Whether 20 refuses these lengths.
fn is_wrong(block: usize, output: usize) -> bool
    ensures { result ≡ wrong block output }
{
    block % 4 != 0 || output != block
}
