// Readings of the air data feed: of which kind they are, their whole values, which are refused, how a
// reading is kept, and when what is kept is sound.
#![tactic(auto)]

pub mod ranges;

ghost use Rattle.std.specs.Prelude.{◌≡◌};
ghost use Rattle.feed.specs.Ranges.{range_of};
ghost use Rattle.feed.specs.Readings.{kind_of, of_kind, float_of, wrapped, whole_reading, feed_refusal, judged, reading_verdict, number_of, with_whole, stored};
ghost use Rattle.feed.specs.Sound.{kept, readings_sound};
ghost use Rattle.feed.specs.Private.{is_wrapped, reads_as};

use ranges::{Range, is_within};
use refusals::Refusal;
use rounding::NoWhole;

// What a reading is of. Whole values and their ranges are in feet, knots, hundreds of feet a minute, and for
// roll, pitch and heading in degrees.
#[derive(Clone, Copy)]
pub enum Kind {
    Altitude,
    Airspeed,
    VerticalSpeed,
    Roll,
    Pitch,
    Heading,
}

impl Kind {
    // The range of whole values that are accepted.
    pub fn range(self) -> Range
        ensures { result ≡ range_of self }
    {
        match self {
            Kind::Altitude => Range {
                low: -8000,
                high: 56000,
            },
            Kind::Airspeed => Range { low: 0, high: 600 },
            Kind::VerticalSpeed => Range {
                low: -300,
                high: 300,
            },
            Kind::Roll => Range {
                low: -180,
                high: 179,
            },
            Kind::Pitch => Range { low: -90, high: 89 },
            Kind::Heading => Range { low: 0, high: 359 },
        }
    }

    // The reading of this kind that has a value.
    pub fn reading(self, x: f64) -> Reading
        ensures { result ≡ of_kind self x }
    {
        match self {
            Kind::Altitude => Reading::Altitude(x),
            Kind::Airspeed => Reading::Airspeed(x),
            Kind::VerticalSpeed => Reading::VerticalSpeed(x),
            Kind::Roll => Reading::Roll(x),
            Kind::Pitch => Reading::Pitch(x),
            Kind::Heading => Reading::Heading(x),
        }
    }

    // What a kind makes of the nearest integer: north is heading 0, and inverted is roll -180.
    fn wrap(self, v: i32) -> i32
        ensures { result ≡ wrapped self v }
    {
        match (self, v) {
            (Kind::Heading, 360) => 0,
            (Kind::Roll, 180) => -180,
            _ => v,
        }
    }
}

// A reading, as it comes.
#[derive(Clone, Copy)]
pub enum Reading {
    Altitude(f64),
    Airspeed(f64),
    VerticalSpeed(f64),
    Roll(f64),
    Pitch(f64),
    Heading(f64),
}

impl Reading {
    pub fn kind(self) -> Kind
        ensures { result ≡ kind_of self }
    {
        match self {
            Reading::Altitude(_) => Kind::Altitude,
            Reading::Airspeed(_) => Kind::Airspeed,
            Reading::VerticalSpeed(_) => Kind::VerticalSpeed,
            Reading::Roll(_) => Kind::Roll,
            Reading::Pitch(_) => Kind::Pitch,
            Reading::Heading(_) => Kind::Heading,
        }
    }

    pub fn float(self) -> f64
        ensures { result ≡ float_of self }
    {
        match self {
            Reading::Altitude(x)
            | Reading::Airspeed(x)
            | Reading::VerticalSpeed(x)
            | Reading::Roll(x)
            | Reading::Pitch(x)
            | Reading::Heading(x) => x,
        }
    }

    // The whole value: the one place for it, for judging and for what is kept.
    #[tactic(auto, unfolding(crate::specs::Readings::whole_reading))]
    pub fn whole(self) -> Result<i32, NoWhole>
        ensures { result ≡ whole_reading self }
    {
        rounding::whole_value(self.float()).map(|v| self.kind().wrap(v))
    }

    // The whole value of a reading that is accepted, and else its refusal, 5 or 6.
    #[tactic(auto, unfolding(crate::specs::Readings::reading_verdict))]
    pub fn verdict(self) -> Result<i32, Refusal>
        ensures { result ≡ reading_verdict self }
    {
        judge(self.kind().range(), self.whole())
    }

    // Whether a number stands for another integer nearest to a reading: 0 for north, and -180 for inverted.
    fn is_wrapped(self, number: i32) -> bool
        ensures { result ≡ is_wrapped self number }
    {
        match (self, number) {
            (Reading::Roll(x), -180) => rounding::is_whole_value(x, 180),
            (Reading::Heading(x), 0) => rounding::is_whole_value(x, 360),
            _ => false,
        }
    }

    // Whether a number is the whole value of a reading, if it lies within the range of the reading's kind.
    fn reads_as(self, number: i32) -> bool
        ensures { result ≡ reads_as self number }
    {
        rounding::is_whole_value(self.float(), number) || self.is_wrapped(number)
    }

    // Whether a reading would be accepted, and this number is its whole value. Nothing is rounded: the range is judged on
    // the number, and then the float by the number.
    #[tactic(auto, using(crate::proofs::Kept::kept_within, crate::proofs::Kept::kept_beyond))]
    fn is_kept(self, number: i32) -> bool
        ensures { result ≡ kept self number }
    {
        is_within(self.kind().range(), number) && self.reads_as(number)
    }
}

// Why a float that has no whole value is refused: infinity and not a number are no reading, and what is larger than
// an answer's integers lies outside every range.
fn feed_refusal(none: NoWhole) -> Refusal
    ensures { result ≡ feed_refusal none }
{
    match none {
        NoWhole::NotFinite => Refusal::NotFinite,
        NoWhole::Beyond => Refusal::OutOfRange,
    }
}

// A whole value if it lies within a range, and else its refusal: 5 where there is none, 6 where it lies outside.
fn judge(range: Range, whole: Result<i32, NoWhole>) -> Result<i32, Refusal>
    ensures { result ≡ judged range whole }
{
    let v = whole.map_err(feed_refusal)?;
    if is_within(range, v) {
        Ok(v)
    } else {
        Err(Refusal::OutOfRange)
    }
}

// A whole value as a number, and 0 where there is none: no such reading is accepted.
pub fn number_of(whole: Result<i32, NoWhole>) -> i32
    ensures { result ≡ number_of whole }
{
    whole.unwrap_or(0)
}

// The last readings, as they came.
#[derive(Clone, Copy)]
pub struct Readings {
    pub altitude: f64,
    pub airspeed: f64,
    pub vertical_speed: f64,
    pub roll: f64,
    pub pitch: f64,
    pub heading: f64,
}

impl Readings {
    // Keeps a reading in the place of the last one of its kind.
    pub fn put(&mut self, r: Reading)
        ensures { self.new ≡ stored r self.old }
    {
        match r {
            Reading::Altitude(x) => self.altitude = x,
            Reading::Airspeed(x) => self.airspeed = x,
            Reading::VerticalSpeed(x) => self.vertical_speed = x,
            Reading::Roll(x) => self.roll = x,
            Reading::Pitch(x) => self.pitch = x,
            Reading::Heading(x) => self.heading = x,
        }
    }
}

// Their whole values.
#[derive(Clone, Copy)]
pub struct Wholes {
    pub altitude: i32,
    pub airspeed: i32,
    pub vertical_speed: i32,
    pub roll: i32,
    pub pitch: i32,
    pub heading: i32,
}

impl Wholes {
    // Keeps a whole value in the place of the last one of its kind.
    pub fn put(&mut self, kind: Kind, x: i32)
        ensures { self.new ≡ with_whole kind x self.old }
    {
        match kind {
            Kind::Altitude => self.altitude = x,
            Kind::Airspeed => self.airspeed = x,
            Kind::VerticalSpeed => self.vertical_speed = x,
            Kind::Roll => self.roll = x,
            Kind::Pitch => self.pitch = x,
            Kind::Heading => self.heading = x,
        }
    }
}

// Whether each reading is kept with its whole value. Joined by `&` the six take a twentieth more instructions a call.
#[tactic(auto, unfolding(crate::specs::Sound::readings_sound))]
pub fn readings_sound(w: &Readings, k: &Wholes) -> bool
    ensures { result ≡ readings_sound w.now k.now }
{
    if !Reading::Altitude(w.altitude).is_kept(k.altitude) {
        return false;
    }
    if !Reading::Airspeed(w.airspeed).is_kept(k.airspeed) {
        return false;
    }
    if !Reading::VerticalSpeed(w.vertical_speed).is_kept(k.vertical_speed) {
        return false;
    }
    if !Reading::Roll(w.roll).is_kept(k.roll) {
        return false;
    }
    if !Reading::Pitch(w.pitch).is_kept(k.pitch) {
        return false;
    }
    Reading::Heading(w.heading).is_kept(k.heading)
}
