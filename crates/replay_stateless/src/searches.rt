// Searches of a word in a reading list.
ghost use Rattle.std.specs.Prelude.{◌+◌, ◌^◌, ◌≤◌};
ghost use Rattle.reading_search.specs.Found.{Below};
ghost use Rattle.script.specs.Words.{word_count};
ghost use Rattle.replay_stateless.specs.Shape.{FillUp};

use refusals::Reason;
use replay_answers::{say_fault, say_refused, say_words};
use script::{Record, Word};

// The kind of a search.
pub(crate) const SEARCH: u32 = 12;

// The words of its payload beside the two lists: the word, and the length of each list.
const FIXED: usize = 3;

pub(crate) fn answer(bytes: &[u8], r: Record)
    requires { r.start + r.count ≤ word_count bytes.now }
{
    let start = r.start;
    match lists_of(bytes, start, r.count) {
        Some((n, m)) => search(bytes, start, n, m),
        None => say_fault(SEARCH),
    }
}

// The lengths of a search's two lists, where these fill the payload, as they have to.
fn lists_of(bytes: &[u8], start: usize, count: usize) -> Option<(usize, usize)>
    requires { start + count ≤ word_count bytes.now }
    ensures { FillUp count result }
{
    let rest = count.checked_sub(FIXED)?;
    let n = script::word_at(bytes, start + 1) as usize;
    let rest = rest.checked_sub(n)?;
    let m = script::word_at(bytes, start + 2 + n) as usize;
    if m == rest { Some((n, m)) } else { None }
}

fn search(bytes: &[u8], start: usize, n: usize, m: usize)
    requires { start + (n + m + 3) ≤ word_count bytes.now }
{
    let mut ends = [0u32; 16384];
    let mut words = [0i32; 16384];
    if !script::fill(bytes, start + 2, &mut ends, n) {
        say_fault(SEARCH);
        return;
    }
    if !script::fill(bytes, start + FIXED + n, &mut words, m) {
        say_fault(SEARCH);
        return;
    }
    let word = i32::from_word(script::word_at(bytes, start));
    say_found(reading_search::find(word, &ends[..n], &words[..m]));
}

fn say_found(found: Result<Option<usize>, Reason>)
    requires { Below (2 ^ 32) found }
{
    match found {
        Ok(Some(i)) => say_words(&[SEARCH, 3, 0, 1, i as u32]),
        Ok(None) => say_words(&[SEARCH, 2, 0, 0]),
        Err(reason) => say_refused(SEARCH, reason),
    }
}
