// The list: a pseudo-random word for each call, and the call that a word gives.
ghost use Rattle.std.specs.Prelude.{◌<◌, ◌≤◌};

use bench::call::Call;
use feed::Reading;

// The word after a word: Marsaglia's xorshift by 13, 7 and 17, which goes through all words but 0.
pub(crate) fn shuffled(word: u64) -> u64 {
    let a = word ^ (word << 13);
    let b = a ^ (a >> 7);
    b ^ (b << 17)
}

// The first word of a seed, which is not 0.
pub(crate) fn first(seed: u64) -> u64 {
    (seed << 1) | 1
}

// A call's kind: the chosen one, but at each eighth call, and where 6 is chosen at every one, the
// word's own. 0 event, 1 turn, 2 reading, 3 send, 4 refresh, 5 display.
// It is a number since an argument of the program gives it, and since it joins the checksum as one.
pub(crate) fn kind(word: u64, left: u64, chosen: u64) -> u64
    ensures { result < 6 }
{
    if left % 8 == 0 || 6 <= chosen {
        return word % 6;
    }
    chosen
}

// One in 64 of the words gives an argument that is out of the usual.
pub(crate) fn is_rare(word: u64) -> bool {
    (word >> 8) % 64 == 0
}

// The call of a kind that a word gives.
pub(crate) fn call_of(kind: u64, word: u64) -> Call {
    match kind {
        0 => Call::Event(event_word(word)),
        1 => Call::Turn(knob(word), ((word >> 24) % 256) as u8),
        2 => Call::Reading(reading(word)),
        3 => Call::Send(side(word)),
        4 => Call::Refresh(side(word)),
        _ => Call::Display(side(word)),
    }
}

// An event word: mostly one of the 21 bits; rarely none or many, a bit that no event has among them.
fn event_word(word: u64) -> u32 {
    if !is_rare(word) {
        return 1 << ((word >> 16) % 21);
    }
    let many = (word >> 20) % 4294967296;
    match (word >> 16) % 4 {
        0 => 0,
        1 => many as u32,
        _ => (many % 2097152) as u32,
    }
}

// A knob's number, rarely one that no knob has.
fn knob(word: u64) -> u32
    ensures { result ≤ 4 }
{
    if is_rare(word) {
        4
    } else {
        ((word >> 16) % 4) as u32
    }
}

// A side's number, rarely one that no side has.
fn side(word: u64) -> u32
    ensures { result ≤ 2 }
{
    if is_rare(word) {
        2
    } else {
        ((word >> 16) % 2) as u32
    }
}

// One of the six readings, from two below its range to two above it, or rarely any.
fn reading(word: u64) -> Reading {
    match (word >> 16) % 6 {
        0 => Reading::Altitude(value(-8002.0, 64004, word)),
        1 => Reading::Airspeed(value(-2.0, 604, word)),
        2 => Reading::VerticalSpeed(value(-302.0, 604, word)),
        3 => Reading::Roll(value(-182.0, 363, word)),
        4 => Reading::Pitch(value(-92.0, 183, word)),
        _ => Reading::Heading(value(-2.0, 363, word)),
    }
}

fn value(low: f64, wholes: u32, word: u64) -> f64
    requires { 0 < wholes }
{
    if is_rare(word) {
        return rare_value(word);
    }
    in_eighths(low, wholes, word >> 16)
}

// One of so many whole numbers from low on and some eighths, which a float holds exactly.
pub(crate) fn in_eighths(low: f64, wholes: u32, word: u64) -> f64
    requires { 0 < wholes }
{
    let eighths = ((word >> 4) % 8) as u32;
    let whole = ((word >> 8) % u64::from(wholes)) as u32;
    low + f64::from(whole) + f64::from(eighths) / 8.0
}

// A float of any pattern, or infinity, or no number.
fn rare_value(word: u64) -> f64 {
    match (word >> 14) % 4 {
        0 => f64::INFINITY,
        1 => f64::NAN,
        _ => number_forms::from_pattern(shuffled(word)),
    }
}
