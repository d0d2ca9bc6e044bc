// The search of a word in a reading list: the words of all readings, and where each reading ends.
#![tactic(auto)]

ghost use Rattle.std.specs.Prelude.{◌≡◌, false, length, Ok};
ghost use Rattle.model.specs.Search.{parts_wrong, contains, first_reading};
ghost use Rattle.reading_search.specs.Found.{found_of, listing};

use refusals::Reason;

// Finds the first listed reading that contains the word, and gives its index, counted from 0; 11 where the ends fall or pass the words.
pub fn find(word: i32, ends: &[u32], words: &[i32]) -> Result<Option<usize>, Reason>
    ensures { found_of result ≡ first_reading word (listing ends.now words.now) }
{
    if parts_wrong(ends, words.len()) {
        return Err(Reason::TooShort);
    }
    Ok(search(word, ends, words))
}

// Whether the ends fall, or pass the limit.
fn parts_wrong(ends: &[u32], limit: usize) -> bool
    ensures { result ≡ parts_wrong 0 limit ends.now }
{
    let mut from = 0;
    for &end in ends {
        let end = end as usize;
        if end < from || limit < end {
            return true;
        }
        from = end;
    }
    false
}

// Goes through the readings in order, each a part of the words.
fn search(word: i32, ends: &[u32], words: &[i32]) -> Option<usize>
    requires { parts_wrong 0 (length words.now) ends.now ≡ false }
    ensures { found_of (Ok result) ≡ first_reading word (listing ends.now words.now) }
{
    let mut from = 0;
    for reading in 0..ends.len() {
        let end = ends[reading] as usize;
        if has_word(&word, &words[from..end]) {
            return Some(reading);
        }
        from = end;
    }
    None
}

// The library's test takes several words at a time, and costs more before it begins: up to five words are compared one by one.
fn has_word(word: &i32, reading: &[i32]) -> bool
    ensures { result ≡ contains word.now reading.now }
{
    match reading.len() {
        0 => false,
        1..=5 => few_have_word(word, reading),
        _ => reading.contains(word),
    }
}

fn few_have_word(word: &i32, few: &[i32]) -> bool
    ensures { result ≡ contains word.now few.now }
{
    for i in 0..few.len() {
        if few[i] == *word {
            return true;
        }
    }
    false
}
