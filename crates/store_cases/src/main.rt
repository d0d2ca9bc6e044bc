// Runs the cases of the standard input on a record store, and writes what they leave. A line is a word, whose first letter says what is done, and two numbers:
//   store C P    an empty store of C places, and P token places without tokens
//   link R N     N links, the first on record R and each next on the one before
//   join R K     a join on record R that keeps the history of record K
//   hold P R     the token in place P holds record R
//   empty P 0    no token in place P
//   make X 0     room for two more records, with record X in hand: writes how many records there are, and the number of X
//   tokens 0 0   writes what each place holds: its record's number plus one, 0 for none
//   records A B  writes the records from A to B: number, the one before, frame, the phone that it starts, the kept history, whether it has a word, whether its gap is 1 or more
// A new record's frame is the number of records before it. A line that asks for what is not there does nothing.
#![tactic(auto)]

ghost use Rattle.std.specs.Prelude.{◌≡◌, ◌+◌, ◌*◌, ◌≤◌, ◌<◌, length};
ghost use Rattle.records.specs.Layout.{Store, store};
ghost use Rattle.store_cases.specs.Ready.{Ready, Lent, LinksOn, RecordsPut, HeldPut};

use records::Kept;
use tokens::Token;

// Where the next digit is, or the end.
fn skip(text: &[u8], end: usize, from: usize) -> usize
    requires { (from ≤ end) × (end ≤ length text.now) }
    ensures { (from ≤ result) × (result ≤ end) }
{
    for i in from..end {
        if text[i].is_ascii_digit() {
            return i;
        }
    }
    end
}

#[derive(Clone, Copy)]
struct Number {
    value: u32,
    next: usize,
}

// The next number, of which the first seven digits count.
fn read_number(text: &[u8], end: usize, from: usize) -> Number
    requires { (from ≤ end) × (end ≤ length text.now) }
    ensures { (from ≤ result.next) × (result.next ≤ end) }
{
    let start = skip(text, end, from);
    let mut value: u32 = 0;
    for i in start..end {
        match char::from(text[i]).to_digit(10) {
            None => return Number { value, next: i },
            Some(digit) => {
                if value < 1_000_000 {
                    value = value * 10 + digit;
                }
            }
        }
    }
    Number { value, next: end }
}

#[derive(Clone, Copy)]
struct Line {
    op: u8,
    a: u32,
    b: u32,
    next: usize,
}

fn read_line(text: &[u8], end: usize, from: usize) -> Line
    requires { (from < end) × (end ≤ length text.now) }
    ensures { from < result.next }
{
    let a = read_number(text, end, from);
    let b = read_number(text, end, a.next);
    Line {
        op: text[from],
        a: a.value,
        b: b.value,
        next: b.next + 1,
    }
}

// The number of records after `count` links, where there are places for them.
fn link_on(
    records: &mut [u32],
    labels: &mut [i32],
    used: u32,
    cap: u32,
    prev: u32,
    count: u32,
) -> u32
    requires { (used ≤ cap) × (cap ≤ 32768) × (262144 ≤ length records.old) × (65536 ≤ length labels.old) }
    ensures { LinksOn records.old records.new labels.old labels.new used result cap }
{
    if used < prev {
        return used;
    }
    let mut last = prev;
    let mut n = used;
    for _ in 0..count {
        if n == cap {
            break;
        }
        n = records::put_link(records, labels, n, last, n, 7, n);
        last = n;
    }
    n
}

fn join_on(
    records: &mut [u32],
    labels: &mut [i32],
    gaps: &mut [f32],
    used: u32,
    cap: u32,
    prev: u32,
    kept: u32,
) -> u32
    requires { (used ≤ cap) × (cap ≤ 32768) × (Lent (store records.old labels.old gaps.old)) }
    ensures { RecordsPut (store records.old labels.old gaps.old) (store records.new labels.new gaps.new) used result cap }
{
    if used == cap {
        return used;
    }
    if used < prev {
        return used;
    }
    if used < kept {
        return used;
    }
    let k = Kept {
        link: kept,
        word: 9,
        starts: 4,
        cost: 1.5,
        graph: 0.25,
        phone: 5,
        winner: 6,
    };
    records::put_join(records, labels, gaps, used, prev, used, k)
}

// A line that puts records on: how many there are then.
fn put_on(
    records: &mut [u32],
    labels: &mut [i32],
    gaps: &mut [f32],
    used: u32,
    cap: u32,
    l: Line,
) -> u32
    requires { (used ≤ cap) × (cap ≤ 32768) × (Lent (store records.old labels.old gaps.old)) }
    ensures { RecordsPut (store records.old labels.old gaps.old) (store records.new labels.new gaps.new) used result cap }
{
    match l.op {
        b'l' => link_on(records, labels, used, cap, l.a, l.b),
        b'j' => join_on(records, labels, gaps, used, cap, l.a, l.b),
        _ => used,
    }
}

// A store's records and places, and the tokens' places.
#[derive(Clone, Copy)]
struct Sizes {
    used: u32,
    cap: u32,
    places: u32,
}

fn empty_store(tokens: &mut [u32], cap: u32, places: u32) -> Sizes
    requires { 64 ≤ length tokens.old }
    ensures { (s : Store) → Ready s tokens.new result.used result.cap result.places }
{
    tokens::clear(tokens, 0, 8);
    tokens::clear(tokens, 1, 8);
    Sizes {
        used: 0,
        cap: cap.min(32768),
        places: places.min(16),
    }
}

// A token that holds record `r`. Its sums are nobody's business here.
fn hold(tokens: &mut [u32], place: u32, r: u32)
    requires { 64 ≤ length tokens.old }
    ensures { HeldPut tokens.old tokens.new (r + 1) }
{
    if place < 16 {
        let mut sums = [0.0f32; 32];
        let t = Token {
            cost: 0.0,
            graph: 0.0,
            link: r,
            phone: 0,
            seq: 0,
        };
        tokens::put_token(tokens, &mut sums, place % 2, place / 2, t);
    }
}

// No token in a place: its mark is taken away. The places of each table are one block.
fn release(tokens: &mut [u32], place: u32)
    requires { 64 ≤ length tokens.old }
    ensures { HeldPut tokens.old tokens.new 0 }
{
    if place < 16 {
        let i = (place % 2) as usize * 4 + 3;
        tokens[i] = tokens[i] & !(1 << (place / 2));
    }
}

fn tell_wide(n: u64) {
    io::print_decimal(1, n);
    io::write_all(1, b" ");
}

fn tell(n: u32) {
    tell_wide(u64::from(n));
}

fn tell_token(tokens: &[u32], place: u32)
    requires { place * 4 + 4 ≤ length tokens.now }
{
    if tokens::has_token(tokens, place) {
        tell_wide(u64::from(tokens[place as usize * 4]) + 1);
    } else {
        tell(0);
    }
}

fn tell_tokens(tokens: &[u32], places: u32)
    requires { places * 4 ≤ length tokens.now }
{
    for p in 0..places {
        tell_token(tokens, p);
    }
    io::write_all(1, b"\n");
}

fn tell_record(records: &[u32], labels: &[i32], gaps: &[f32], r: u32)
    requires { (0 < r) × (r * 8 ≤ length records.now) × (r * 2 ≤ length labels.now) × (r * 2 ≤ length gaps.now) }
{
    tell(r);
    tell(records::prev_of(records, r));
    tell(records::frame_of(records, r));
    tell(records::starts_of(records, r));
    tell(records::kept_of(records, r));
    tell(u32::from(records::word_of(labels, r) == 7));
    tell(u32::from(records::cost_of(gaps, r) >= 1.0));
    io::write_all(1, b"\n");
}

fn tell_records(records: &[u32], labels: &[i32], gaps: &[f32], used: u32, from: u32, to: u32)
    requires { (used ≤ 32768) × (Lent (store records.now labels.now gaps.now)) }
{
    for r in from.max(1)..=to.min(used) {
        tell_record(records, labels, gaps, r);
    }
}

// A line that only writes.
fn tell_line(records: &[u32], labels: &[i32], gaps: &[f32], tokens: &[u32], z: Sizes, l: Line)
    requires { (z.used ≤ 32768) × (z.places * 4 ≤ length tokens.now) × (Lent (store records.now labels.now gaps.now)) }
{
    match l.op {
        b't' => tell_tokens(tokens, z.places),
        b'r' => tell_records(records, labels, gaps, z.used, l.a, l.b),
        _ => {}
    }
}

fn make(
    records: &mut [u32],
    labels: &mut [i32],
    gaps: &mut [f32],
    tokens: &mut [u32],
    z: Sizes,
    x: u32,
) -> Sizes
    requires { (Lent (store records.old labels.old gaps.old)) × (64 ≤ length tokens.old) × (Ready (store records.old labels.old gaps.old) tokens.old z.used z.cap z.places) }
    ensures { Ready (store records.new labels.new gaps.new) tokens.new result.used result.cap result.places }
{
    if z.used < x {
        return z;
    }
    let m = compaction::make_room(records, labels, gaps, tokens, z.places, z.used, z.cap, x);
    tell(m.used);
    tell(m.x);
    io::write_all(1, b"\n");
    Sizes { used: m.used, ..z }
}

// A line that changes what the tokens hold.
fn token_line(tokens: &mut [u32], z: Sizes, l: Line) -> Sizes
    requires { (64 ≤ length tokens.old) × (z.used ≤ 32768) }
    ensures { (s : Store) → Ready s tokens.old z.used z.cap z.places → Ready s tokens.new result.used result.cap result.places }
{
    match l.op {
        b's' => empty_store(tokens, l.a, l.b),
        b'e' => {
            release(tokens, l.a);
            z
        }
        b'h' if l.b <= z.used => {
            hold(tokens, l.a, l.b);
            z
        }
        _ => z,
    }
}

fn step(
    records: &mut [u32],
    labels: &mut [i32],
    gaps: &mut [f32],
    tokens: &mut [u32],
    z: Sizes,
    l: Line,
) -> Sizes
    requires { (Lent (store records.old labels.old gaps.old)) × (64 ≤ length tokens.old) × (Ready (store records.old labels.old gaps.old) tokens.old z.used z.cap z.places) }
    ensures { Ready (store records.new labels.new gaps.new) tokens.new result.used result.cap result.places }
{
    if l.op == b'm' {
        return make(records, labels, gaps, tokens, z, l.a);
    }
    tell_line(records, labels, gaps, tokens, z, l);
    let y = token_line(tokens, z, l);
    let used = put_on(records, labels, gaps, y.used, y.cap, l);
    Sizes { used, ..y }
}

fn run(
    text: &[u8],
    end: usize,
    records: &mut [u32],
    labels: &mut [i32],
    gaps: &mut [f32],
    tokens: &mut [u32],
)
    requires { (end ≤ length text.now) × (Lent (store records.old labels.old gaps.old)) × (64 ≤ length tokens.old) }
{
    let mut z = empty_store(tokens, 0, 0);
    let mut at = 0;
    while at < end {
        let l = read_line(text, end, at);
        at = l.next;
        z = step(records, labels, gaps, tokens, z, l);
    }
}

fn main() {
    let mut text = io::large_buffer();
    let end = io::read_full(0, &mut text);
    // Places for 32,768 records.
    let mut records = [0u32; 262144];
    let mut labels = [0i32; 65536];
    let mut gaps = [0.0f32; 65536];
    let mut tokens = [0u32; 64];
    run(
        &text,
        end,
        &mut records,
        &mut labels,
        &mut gaps,
        &mut tokens,
    );
}
