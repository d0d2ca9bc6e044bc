// The best path.
ghost use Rattle.decoder.specs.Promises.{FinalsLeft};
ghost use Rattle.replay_payloads.specs.Payloads.{Inside};

use crate::calls::answer_best;
use decoder::Decoder;
use replay_answers::BEST;
use replay_payloads::{NO_LIMIT, asked};
use script::Record;

// The payload is whether finals are used, and perhaps the lengths of the output.
pub fn best(
    bytes: &[u8],
    r: Record,
    tokens: &[u32],
    sums: &[f32],
    records: &[u32],
    labels: &[i32],
    finals: &[f32],
    d: Decoder,
)
    requires inside { Inside bytes.now r }
    requires finals_left { FinalsLeft tokens.now sums.now records.now labels.now finals.now d }
{
    if !replay_payloads::shaped(bytes, r, 1, 4) {
        replay_answers::say_fault(BEST);
        return;
    }
    let use_final = script::word_at(bytes, r.start) == 1;
    let n = asked(bytes, r, 1, NO_LIMIT).min(8192);
    let f = asked(bytes, r, 2, NO_LIMIT).min(8192);
    let m = asked(bytes, r, 3, NO_LIMIT).min(8192);
    let mut words: [i32; 8192] = script::places(0);
    let mut frames: [u32; 8192] = script::places(0);
    let mut segments: [u32; 24576] = script::places(0);
    answer_best(
        tokens,
        sums,
        records,
        labels,
        finals,
        d,
        use_final,
        &mut words[..n],
        &mut frames[..f],
        &mut segments[..3 * m],
    );
}
