// Alternatives.
ghost use Rattle.std.specs.Prelude.{◌≡◌, true};
ghost use Rattle.replay_payloads.specs.Payloads.{Inside};
ghost use Rattle.replay_payloads.specs.Lent.{list_fits};
ghost use Rattle.replay_reads.specs.Reads.{PathsLeft};

use crate::calls::list_paths;
use decoder::Decoder;
use refusals::Reason;
use replay_answers::ALTERNATIVES;
use replay_payloads::{NO_LIMIT, asked};
use script::Record;

// The payload is whether finals are used, how many paths there are at most, and perhaps the lengths of the output. More than 64 paths are refused, so that 64 entries
// are enough.
pub fn alternatives(
    bytes: &[u8],
    r: Record,
    tokens: &[u32],
    sums: &[f32],
    records: &[u32],
    labels: &[i32],
    finals: &[f32],
    d: Decoder,
) -> bool
    requires inside { Inside bytes.now r }
    requires paths_left { PathsLeft tokens.now sums.now records.now labels.now finals.now d }
    ensures { list_fits bytes.now r d.used ≡ true → result ≡ true }
{
    if !replay_payloads::shaped(bytes, r, 2, 6) {
        replay_answers::say_fault(ALTERNATIVES);
        return true;
    }
    let e = asked(bytes, r, 2, NO_LIMIT).min(64);
    let n = asked(bytes, r, 3, NO_LIMIT).min(16384);
    let f = asked(bytes, r, 4, NO_LIMIT).min(16384);
    let m = asked(bytes, r, 5, NO_LIMIT).min(16384);
    let mut words: [i32; 16384] = script::places(0);
    let mut frames: [u32; 16384] = script::places(0);
    let mut segments: [u32; 49152] = script::places(0);
    let mut list: [u32; 128] = script::places(0);
    let mut costs: [f32; 64] = script::places(0.0);
    let listed = list_paths(
        tokens,
        sums,
        records,
        labels,
        finals,
        d,
        script::word_at(bytes, r.start) == 1,
        script::word_at(bytes, r.start + 1) as usize,
        &mut words[..n],
        &mut frames[..f],
        &mut segments[..3 * m],
        &mut list[..2 * e],
        &mut costs[..e],
    );
    match listed {
        Err(reason) => say_unlisted(bytes, r, reason, d.used),
        Ok(_) => true,
    }
}

// A refusal stands where the output is as long as the script asks for.
fn say_unlisted(bytes: &[u8], r: Record, reason: Reason, used: u32) -> bool
    requires { Inside bytes.now r }
    ensures { list_fits bytes.now r used ≡ true → result ≡ true }
{
    if reason == Reason::TooShort {
        if !replay_payloads::list_fits(bytes, r, used as usize) {
            replay_answers::say_fault(ALTERNATIVES);
            return false;
        }
    }
    replay_answers::say_refused(ALTERNATIVES, reason);
    true
}
