// The benches to begin with: that of a starting speed, of which power-on is one.
ghost use Rattle.std.specs.Prelude.{◌≡◌};
ghost use Rattle.bench.specs.Holds.{start_channel, start_readings, start_wholes, bench_at, power_on, started};

use crate::{Bench, Counts, Shared};
use channels::Channel;
use channels::references::References;
use feed::ranges::{Range, is_within};
use feed::{Readings, Wholes};
use modes::ModeSet;
use refusals::Refusal;
use sides::Pair;

// The speeds that a start accepts, in knots.
pub const STARTING_SPEED: Range = Range { low: 60, high: 400 };

// The starting speed of the default bench.
const DEFAULT_SPEED: i32 = 120;

#[tactic(auto, unfolding(crate::specs::Holds::start_channel))]
fn start_channel(speed: i32) -> Channel
    ensures { result ≡ start_channel speed }
{
    Channel {
        fd: false,
        set: ModeSet::Off,
        references: References {
            ias: speed,
            ..References::zero()
        },
    }
}

fn start_readings(speed: i32) -> Readings
    ensures { result ≡ start_readings speed }
{
    Readings {
        altitude: 0.0,
        airspeed: f64::from(speed),
        vertical_speed: 0.0,
        roll: 0.0,
        pitch: 0.0,
        heading: 0.0,
    }
}

fn start_wholes(speed: i32) -> Wholes
    ensures { result ≡ start_wholes speed }
{
    Wholes {
        altitude: 0,
        airspeed: speed,
        vertical_speed: 0,
        roll: 0,
        pitch: 0,
        heading: 0,
    }
}

// The bench that a starting speed makes, whether or not a start accepts it.
#[tactic(auto, unfolding(crate::specs::Holds::bench_at))]
fn bench_at(speed: i32) -> Bench
    ensures { result ≡ bench_at speed }
{
    let side = start_channel(speed);
    let inbox = start_channel(speed);
    Bench {
        shared: Shared {
            pf: 0,
            ap: false,
            overspeed: false,
            independent: false,
        },
        counts: Counts {
            wheel: 0,
            altitude: 0,
            speed: 0,
            heading: 0,
        },
        readings: start_readings(speed),
        wholes: start_wholes(speed),
        sides: Pair {
            left: side,
            right: side,
        },
        inboxes: Pair {
            left: inbox,
            right: inbox,
        },
    }
}

// The bench at power-on, which is the default one.
#[tactic(auto, unfolding(crate::specs::Holds::power_on))]
pub fn power_on() -> Bench
    ensures { result ≡ power_on }
{
    bench_at(DEFAULT_SPEED)
}

// What a start gives: whether its speed was accepted, and the bench to begin with.
#[derive(Clone, Copy)]
pub struct Started {
    pub outcome: Result<(), Refusal>,
    pub bench: Bench,
}

// A start at a speed in knots; one that is refused gives the default bench.
#[tactic(auto, unfolding(crate::specs::Holds::started))]
pub fn start(speed: i32) -> Started
    ensures { result ≡ started speed }
{
    if is_within(STARTING_SPEED, speed) {
        Started {
            outcome: Ok(()),
            bench: bench_at(speed),
        }
    } else {
        Started {
            outcome: Err(Refusal::StartingSpeed),
            bench: bench_at(DEFAULT_SPEED),
        }
    }
}
