// The line of a refusal, for a fitter to read: its number, its name and its place, each part with its label and a semicolon.
#![tactic(auto)]

ghost use Rattle.std.specs.Prelude.{◌≡◌, ◌+◌, ◌≤◌, ◌<◌, length};
ghost use Rattle.decimals.specs.Stored.{Stored};
ghost use Rattle.refusal_lines.specs.Line.{numbered, bare_name, name_of, place_text, between, always_placed, may_have, line_of, refusal_of};
ghost use Rattle.refusals.specs.Numbers.{number_of};
ghost use Rattle.refusal_lines.specs.Answer.{WrittenLine, ReadLine};

use decimals::Numbers;
use refusals::{Place, Reason, Refusal};

// Writes the line of a refusal to the start of `out`, and gives its length. 16 where that is shorter than the line; nothing is then written.
// A value that is no refusal, 0 or a place that its number cannot have, has the empty line.
pub fn write_line(refusal: Refusal, out: &mut [u8]) -> Result<usize, Reason>
    ensures { WrittenLine refusal out.old result out.new }
{
    let mut line = [0u8; refusals::MAX_LINE];
    let end = compose(refusal, &mut line);
    if out.len() < end {
        return Err(Reason::LineTooLong);
    }
    put(&line[..end], out, 0);
    Ok(end)
}

// The refusal whose line the bytes are; none where they are no refusal's.
pub fn read_line(bytes: &[u8]) -> Option<Refusal>
    ensures { ReadLine bytes.now result }
{
    let refusal = refusal_of(decimals::numbers_in(bytes));
    let mut line = [0u8; refusals::MAX_LINE];
    let end = compose(refusal, &mut line);
    if end != 0 && &line[..end] == bytes {
        Some(refusal)
    } else {
        None
    }
}

// The one refusal whose line can have these numbers. Its own number, the first, is not 0.
#[tactic(auto, unfolding(crate::specs::Line::refusal_of))]
fn refusal_of(found: Numbers) -> Refusal
    ensures { result ≡ refusal_of found }
{
    if found.first != 0 {
        return Refusal {
            number: found.first,
            place: Place::AtArc(found.second, found.third),
        };
    }
    if found.second == 0 {
        return Refusal {
            number: found.third,
            place: Place::Nowhere,
        };
    }
    if found.second == Reason::BadWeight.number() {
        return Reason::BadWeight.at(Place::AtState(found.third));
    }
    Refusal {
        number: found.second,
        place: Place::AtFrames(found.third),
    }
}

fn between(low: Reason, high: Reason, number: u32) -> bool
    ensures { result ≡ between (number_of low) (number_of high) number }
{
    (low.number()..=high.number()).contains(&number)
}

// Whether a refusal with this number always has a place.
#[tactic(auto, unfolding(crate::specs::Line::always_placed))]
fn always_placed(number: u32) -> bool
    ensures { result ≡ always_placed number }
{
    between(Reason::BadLabel, Reason::BadWeight, number)
        || between(Reason::BadFrameLength, Reason::BadLoglike, number)
}

// Whether a refusal with this number can have this place.
#[tactic(auto, unfolding(crate::specs::Line::may_have))]
fn may_have(number: u32, place: Place) -> bool
    ensures { result ≡ may_have number place }
{
    match place {
        Place::Nowhere => number != 0 && !always_placed(number),
        Place::AtArc(_, _) => between(Reason::NoSuchState, Reason::BadWeight, number),
        Place::AtState(_) => number == Reason::BadWeight.number(),
        Place::AtFrames(_) => {
            between(Reason::BadFrameLength, Reason::TooManyFrames, number)
                || between(Reason::SumTooLarge, Reason::QueueFull, number)
        }
    }
}

// The name of a reason by its number, and one for every number that is no reason's.
#[tactic(auto, unfolding(crate::specs::Line::names, crate::specs::Line::unnamed, crate::specs::Line::text))]
fn bare_name(number: u32) -> &'static str
    ensures { result.now ≡ bare_name number }
{
    match number {
        1 => "graph too large or misshapen",
        2 => "start or arc target is no state",
        3 => "arc label outside the tables",
        4 => "arc label has no phone",
        5 => "weight out of range",
        6 => "setting or store size out of range",
        7 => "silence setting out of range",
        8 => "frame of the wrong length",
        9 => "frame value out of range",
        10 => "too many frames, or bad segments",
        11 => "output too short, or bad reading ends",
        12 => "cost out of range",
        13 => "record store full",
        14 => "epsilon queue full",
        15 => "reading store full",
        16 => "output shorter than the line",
        20 => "block or output of the wrong length",
        22 => "course setting or frame out of range",
        _ => "not known to this version",
    }
}

// Writes the line from the start on, and gives its length.
#[tactic(auto, unfolding(crate::specs::Line::line_of))]
fn compose(refusal: Refusal, out: &mut [u8]) -> usize
    requires { 96 ≤ length out.old }
    ensures { Stored out.old 0 (line_of refusal) result out.new }
{
    let number = refusal.number;
    let place = refusal.place;
    if !may_have(number, place) {
        return 0;
    }
    let named = put_number(b"refusal ", number, out, 0);
    let placed = put_name(number, out, named);
    put_place(place, out, placed)
}

// The parts of a line, each written from a place on, with the place behind it.

#[tactic(auto, unfolding(crate::specs::Line::place_text, crate::specs::Line::text))]
fn put_place(place: Place, out: &mut [u8], at: usize) -> usize
    requires { at + length (place_text place) ≤ length out.old }
    ensures { Stored out.old at (place_text place) result out.new }
{
    match place {
        Place::Nowhere => at,
        Place::AtArc(state, arc) => {
            let next = put_number(b" state ", state, out, at);
            put_number(b" arc ", arc, out, next)
        }
        Place::AtState(state) => put_number(b" state ", state, out, at),
        Place::AtFrames(frames) => put_number(b" frames decoded ", frames, out, at),
    }
}

#[tactic(auto, using(crate::proofs::Laws::name_parts))]
fn put_name(number: u32, out: &mut [u8], at: usize) -> usize
    requires { at + length (name_of number) ≤ length out.old }
    ensures { Stored out.old at (name_of number) result out.new }
{
    let start = put(b" ", out, at);
    let end = put(bare_name(number).as_bytes(), out, start);
    put(b";", out, end)
}

#[tactic(auto, using(crate::proofs::Laws::numbered_parts))]
fn put_number(label: &[u8], number: u32, out: &mut [u8], at: usize) -> usize
    requires { at + length (numbered label.now number) ≤ length out.old }
    ensures { Stored out.old at (numbered label.now number) result out.new }
{
    let start = put(label, out, at);
    let end = decimals::write_decimal(number, out, start);
    put(b";", out, end)
}

// Copies a part to a place of `out`, and gives the place behind it. Byte by byte: the library for C then needs no `memmove` from outside.
fn put(part: &[u8], out: &mut [u8], at: usize) -> usize
    requires { at + length part.now ≤ length out.old }
    ensures { Stored out.old at part.now result out.new }
{
    for i in 0..part.len() {
        out[at + i] = part[i];
    }
    at + part.len()
}
