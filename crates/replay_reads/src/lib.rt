// The reads of a script, answered from the decoder's stores.
#![tactic(auto)]

mod alternatives;
mod best;
mod calls;
mod list;

ghost use Rattle.replay_payloads.specs.Payloads.{Inside};
ghost use Rattle.replay_reads.specs.Reads.{ReadsLeft, ReadGoes};

use decoder::Decoder;
use replay_answers::{ALTERNATIVES, BEST, READINGS};
use replay_payloads::Loan;
use script::Record;

// Answers a read. False is for one that was answered as a fault since the program lends less than the script asks for.
pub fn read(
    bytes: &[u8],
    r: Record,
    loan: Loan,
    tokens: &[u32],
    sums: &[f32],
    records: &[u32],
    labels: &[i32],
    gaps: &[f32],
    finals: &[f32],
    d: Decoder,
) -> bool
    requires inside { Inside bytes.now r }
    requires reads_left { ReadsLeft tokens.now sums.now records.now labels.now gaps.now finals.now d }
    ensures { ReadGoes bytes.now r loan d result }
{
    if r.kind == ALTERNATIVES {
        return alternatives::alternatives(bytes, r, tokens, sums, records, labels, finals, d);
    }
    if r.kind == READINGS {
        return list::readings(
            bytes, r, loan, tokens, sums, records, labels, gaps, finals, d,
        );
    }
    if r.kind == BEST {
        best::best(bytes, r, tokens, sums, records, labels, finals, d);
        return true;
    }
    calls::say_number(r, tokens, sums, finals, d);
    true
}
