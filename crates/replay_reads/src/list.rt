// The reading list.
ghost use Rattle.std.specs.Prelude.{◌≡◌, true};
ghost use Rattle.replay_payloads.specs.Payloads.{Inside};
ghost use Rattle.replay_reads.specs.Reads.{ListLeft};
ghost use Rattle.replay_payloads.specs.Lent.{all_entries, all_output};

use crate::calls::list_readings;
use decoder::Decoder;
use refusals::Reason;
use replay_answers::READINGS;
use replay_payloads::Loan;
use script::Record;

// The payload is whether finals are used, how many readings are listed and how many are traced at most, and perhaps the lengths of the output.
pub fn readings(
    bytes: &[u8],
    r: Record,
    loan: Loan,
    tokens: &[u32],
    sums: &[f32],
    records: &[u32],
    labels: &[i32],
    gaps: &[f32],
    finals: &[f32],
    d: Decoder,
) -> bool
    requires inside { Inside bytes.now r }
    requires list_left { ListLeft tokens.now sums.now records.now labels.now gaps.now finals.now d }
    ensures { all_entries loan ≡ true → all_output bytes.now r ≡ true → result ≡ true }
{
    if !replay_payloads::shaped(bytes, r, 3, 7) {
        replay_answers::say_fault(READINGS);
        return true;
    }
    let traced = script::word_at(bytes, r.start + 2) as usize;
    let mut words: [i32; 65536] = script::places(0);
    let mut frames: [u32; 16384] = script::places(0);
    let mut segments: [u32; 49152] = script::places(0);
    let mut numbers: [u64; 20480] = script::places(0);
    let mut costs: [f32; 16384] = script::places(0.0);
    let list = list_readings(
        tokens,
        sums,
        records,
        labels,
        gaps,
        finals,
        d,
        script::word_at(bytes, r.start) == 1,
        script::word_at(bytes, r.start + 1) as usize,
        traced,
        replay_payloads::lengths_of(bytes, r, loan),
        &mut words,
        &mut frames,
        &mut segments,
        &mut numbers,
        &mut costs,
    );
    match list {
        Ok(k) => {
            replay_answers::say_readings(k, traced, &words, &frames, &segments, &numbers, &costs);
            true
        }
        Err(reason) => say_unread(bytes, r, loan, reason),
    }
}

// A refusal stands where what it is for is as long as the script asks for.
fn say_unread(bytes: &[u8], r: Record, loan: Loan, reason: Reason) -> bool
    requires { Inside bytes.now r }
    ensures { all_entries loan ≡ true → all_output bytes.now r ≡ true → result ≡ true }
{
    if reason == Reason::ListsFull {
        if !replay_payloads::all_entries(loan) {
            replay_answers::say_fault(READINGS);
            return false;
        }
    }
    if reason == Reason::TooShort {
        if !replay_payloads::all_output(bytes, r) {
            replay_answers::say_fault(READINGS);
            return false;
        }
    }
    replay_answers::say_refused(READINGS, reason);
    true
}
