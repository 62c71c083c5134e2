// Lists of frames: writes into a bus area of 2,048 bytes, or reads from it.
//
// Each 64 steps the word makes a bench anew, and the bench goes into the checksum, so that a list without calls makes
// it too. A list of reads begins with 107 frames side by side, which fill the area but for 15 bytes. With seed 2026
// 97 of 100 writes are accepted and 98 of 100 reads.
ghost use Rattle.std.specs.Prelude.{◌<◌};

use crate::checksum::{Sum, pair};
use crate::list;
use bench::starts::power_on;
use bench::{Bench, Shared};
use channels::Channel;
use channels::references::{Reference, References};
use feed::ranges::clamped_sum;
use feed::{Reading, Readings, Wholes};
use modes::ModeSet;
use refusals::{Told, refusal_number};
use sides::{Pair, Side};

// ---- the benches

// A reference that lies so far above the lower end of its range.
fn reference(name: Reference, above: u64) -> i32
    requires { above < 65536 }
{
    let range = name.range();
    clamped_sum(range, range.low, above as i32)
}

fn references_of(word: u64) -> References {
    References {
        heading: reference(Reference::Heading, word % 360),
        preselected: reference(Reference::Preselected, (word >> 8) % 64001),
        held: reference(Reference::Held, (word >> 24) % 64001),
        vertical_speed: reference(Reference::VerticalSpeed, (word >> 40) % 101),
        ias: reference(Reference::Ias, (word >> 48) % 341),
        roll: reference(Reference::Roll, (word >> 32) % 55),
        pitch: reference(Reference::Pitch, (word >> 56) % 41),
    }
}

// A channel with one of the 108 sets.
fn channel_of(word: u64) -> Channel {
    let code = ((word >> 4) % 108) as u32;
    Channel {
        fd: (word >> 20) % 2 == 1,
        set: codes::set_of(code).unwrap_or(ModeSet::Off),
        references: references_of(word),
    }
}

// Readings in their ranges, in steps of an eighth.
fn readings_of(word: u64) -> Readings {
    Readings {
        altitude: list::in_eighths(-8000.0, 64000, word),
        airspeed: list::in_eighths(0.0, 600, word),
        vertical_speed: list::in_eighths(-300.0, 600, word),
        roll: list::in_eighths(-180.0, 359, word),
        pitch: list::in_eighths(-90.0, 179, word),
        heading: list::in_eighths(0.0, 359, word),
    }
}

fn whole(r: Reading) -> i32 {
    r.whole().unwrap_or(0)
}

// Their whole values.
fn wholes_of(w: Readings) -> Wholes {
    Wholes {
        altitude: whole(Reading::Altitude(w.altitude)),
        airspeed: whole(Reading::Airspeed(w.airspeed)),
        vertical_speed: whole(Reading::VerticalSpeed(w.vertical_speed)),
        roll: whole(Reading::Roll(w.roll)),
        pitch: whole(Reading::Pitch(w.pitch)),
        heading: whole(Reading::Heading(w.heading)),
    }
}

// A bench with two sides that have sent: nothing that soundness looks at is the same in all benches. Its PF side
// rarely is none: then the bench is unsound, and never else.
fn bench_of(word: u64) -> Bench {
    let other = list::shuffled(word);
    let left = channel_of(word);
    let right = channel_of(other);
    let readings = readings_of(other);
    let start = power_on();
    Bench {
        shared: Shared {
            pf: if list::is_rare(other) { 2 } else { 0 },
            ..start.shared
        },
        readings,
        wholes: wholes_of(readings),
        sides: Pair { left, right },
        inboxes: Pair {
            left: right,
            right: left,
        },
        ..start
    }
}

// ---- the arguments

// A side's number, and for half the rare words one that no side has.
fn side(word: u64) -> u32 {
    if list::is_rare(word) && (word >> 17) % 2 == 1 {
        2
    } else {
        ((word >> 16) % 2) as u32
    }
}

// A start: rarely one too near the end, past it, or near the largest number.
fn start(word: u64, usual: u64) -> u64 {
    if !list::is_rare(word) {
        return usual;
    }
    let far = word >> 24;
    match (word >> 14) % 4 {
        0 => 2030 + far % 19,
        1 => 2049 + far % 4096,
        2 => 0xffff_ffff_ffff_ffff - far % 32,
        _ => usual,
    }
}

// One of the 107 frames of a list of reads.
fn frame_start(word: u64) -> u64
    ensures { result < 2015 }
{
    (word >> 24) % 107 * 19
}

// Whether a byte of the frame is changed for one read.
fn is_spoiled(word: u64) -> bool {
    list::is_rare(word) && (word >> 14) % 4 == 3
}

// ---- the steps

// A write: start, side and refusal make one word. Where LIVE is false no call is made, here and below.
fn write_step<const LIVE: bool>(area: &mut [u8; 2048], b: Bench, word: u64, sum: Sum) -> Sum {
    let at = start(word, (word >> 24) % 2030);
    let of = side(word);
    let place = at ^ pair(0, of);
    if !LIVE {
        return sum.with(place);
    }
    let refusal = refusal_number(&frames::write(&b, of, area, at as usize));
    sum.with(place ^ (u64::from(refusal) << 40))
}

// A read. Without the call a channel of the bench goes into the sum in place of the frame's, so that the checksum
// takes the same time.
fn read_at<const LIVE: bool>(area: &[u8; 2048], at: u64, instead: Channel, sum: Sum) -> Sum {
    if !LIVE {
        return sum.with(at).with_channel(instead);
    }
    let read = frames::read(area, at as usize);
    let Told {
        refusal,
        value: frame,
    } = Told::of(frames::no_frame(), read);
    sum.with(at ^ pair(0, frame.side.number()) ^ (u64::from(refusal) << 40))
        .with_channel(frame.channel)
}

// A read, rarely one with one byte of the frame changed, which is changed back.
fn read_step<const LIVE: bool>(area: &mut [u8; 2048], b: Bench, word: u64, sum: Sum) -> Sum {
    let c = b
        .sides
        .get(Side::try_from(side(word)).unwrap_or(Side::Right));
    let begin = frame_start(word);
    if !is_spoiled(word) {
        return read_at::<LIVE>(area, start(word, begin), c, sum);
    }
    let at = (begin + (word >> 32) % 19) as usize;
    let old = area[at];
    area[at] = ((word >> 40) % 256) as u8;
    let next = read_at::<LIVE>(area, begin, c, sum);
    area[at] = old;
    next
}

// ---- the lists

// The frames that a list of reads begins with, each of another bench, as far as they are accepted.
fn fill(area: &mut [u8; 2048], seed: u64) {
    let mut word = list::first(seed);
    for frame in area.chunks_exact_mut(19).take(107) {
        word = list::shuffled(word);
        let _ = frames::write(&bench_of(word), ((word >> 16) % 2) as u32, frame, 0);
    }
}

// The steps of a list, over an area as it is. Answers the checksum, with the area at the end in it.
fn run_steps<F: FnMut(&mut [u8; 2048], Bench, u64, Sum) -> Sum>(
    mut area: [u8; 2048],
    seed: u64,
    calls: u64,
    mut step: F,
) -> Sum
    requires { (f : _) (part : _) (b : _) (word : _) (sum : _) → F.pre f part b word sum }
{
    let mut b = power_on();
    let mut sum = Sum(0);
    let mut word = list::first(seed);
    for left in (1..=calls).rev() {
        if left % 64 == 0 {
            b = bench_of(word);
            sum = sum.with_bench(b);
        }
        sum = step(&mut area, b, word, sum);
        word = list::shuffled(word);
    }
    area.iter()
        .fold(sum, |sum, byte| sum.with(u64::from(*byte)))
}

pub(crate) fn write_list<const LIVE: bool>(seed: u64, calls: u64) -> Sum {
    run_steps([0; 2048], seed, calls, write_step::<LIVE>)
}

pub(crate) fn read_list<const LIVE: bool>(seed: u64, calls: u64) -> Sum {
    let mut area = [0; 2048];
    fill(&mut area, seed);
    run_steps(area, seed, calls, read_step::<LIVE>)
}
