// The calls of a script that change the decoder, and their answers.
#![tactic(auto)]

mod calls;

ghost use Rattle.std.specs.Prelude.{◌≡◌, Some};
ghost use Rattle.replay_calls.specs.Held.{NextIs, Goes, GoesFitted};

pub use calls::{fit, frame, keep, start_again};
use decoder::{Called, Decoder};
use refusals::Refusal;
use replay_answers::FIT;
use replay_payloads::Loan;

// Answers a fit, and gives the decoder after it. One that is refused for its settings or its stores ends the calls on them: none.
pub fn say_fitted(loan: Loan, fitted: Result<Called, Refusal>) -> Option<Decoder>
    ensures { GoesFitted fitted result }
{
    match fitted {
        Err(why) => {
            replay_answers::say_refusal(FIT, why);
            None
        }
        Ok(called) => say_called(FIT, loan, called),
    }
}

// Answers a call, and gives the decoder after it; none where the call did not fit.
pub fn say_called(kind: u32, loan: Loan, called: Called) -> Option<Decoder>
    ensures { Goes called result }
{
    match called {
        Called::Done(d) => say_done(kind, d),
        Called::Refused(d, why) => say_refused(kind, loan, d, why),
    }
}

fn say_done(kind: u32, d: Decoder) -> Option<Decoder>
    ensures { result ≡ Some d }
{
    replay_answers::say(kind, 0);
    Some(d)
}

// A store that is shorter than asked for answers for itself alone.
fn say_refused(kind: u32, loan: Loan, d: Decoder, why: Refusal) -> Option<Decoder>
    ensures { NextIs d result }
{
    if replay_payloads::was_cut(loan, why.number) {
        replay_answers::say_fault(kind);
        return None;
    }
    replay_answers::say_refusal(kind, why);
    Some(d)
}
