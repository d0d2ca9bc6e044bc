// Shuffles of a block, and the way back.
ghost use Rattle.std.specs.Prelude.{◌+◌, ◌≤◌, length};
ghost use Rattle.script.specs.Words.{word_count};

use refusals::Reason;
use replay_answers::{say_fault, say_refused, say_words};
use script::Record;

// The kinds.
pub(crate) const SHUFFLE: u32 = 13;

pub(crate) const UNSHUFFLE: u32 = 14;

// The words of a payload before the block: the length of the output, and that of the block.
const FIXED: usize = 2;

// The block is lent as it stands in the script, and has to fill the payload.
pub(crate) fn answer(bytes: &[u8], r: Record)
    requires { r.start + r.count ≤ word_count bytes.now }
{
    let start = r.start;
    let count = r.count;
    let kind = r.kind;
    if count < FIXED {
        say_fault(kind);
        return;
    }
    let places = script::word_at(bytes, start) as usize;
    let len = script::word_at(bytes, start + 1) as usize;
    if (len + 3) / 4 != count - FIXED {
        say_fault(kind);
        return;
    }
    let from = 4 * (start + FIXED);
    let end = from + len;
    let mut output = [0u8; 4096];
    call(kind, &bytes[from..end], places, &mut output);
}

// More places than there are is a fault.
fn call(kind: u32, block: &[u8], places: usize, output: &mut [u8])
    requires { length output.old ≤ 4096 }
{
    if output.len() < places {
        say_fault(kind);
        return;
    }
    respond(kind, block, &mut output[..places]);
}

fn respond(kind: u32, block: &[u8], output: &mut [u8])
    requires { length output.old ≤ 4096 }
{
    match rearrange(kind, block, output) {
        Ok(()) => {
            say_words(&[kind, (1 + output.len() / 4) as u32, 0]);
            replay_answers::say_bytes(output);
        }
        Err(reason) => say_refused(kind, reason),
    }
}

fn rearrange(kind: u32, block: &[u8], output: &mut [u8]) -> Result<(), Reason> {
    if kind == SHUFFLE {
        return shuffle::shuffle(block, output);
    }
    shuffle::unshuffle(block, output)
}
