// The bench value: what it holds, which sides act, and when it is sound. `starts` has the benches to begin with, and `call`
// the calls on a bench as data.
#![tactic(auto)]

pub mod call;
pub mod starts;

ghost use Rattle.std.specs.Prelude.{◌≡◌};
ghost use Rattle.bench.specs.Counts.{count_of, with_count};
ghost use Rattle.bench.specs.Acting.{acts, inputs, other_side};
ghost use Rattle.bench.specs.Independent.{both_approach, independent_sound};
ghost use Rattle.bench.specs.Sound.{both_sound, sound};

use channels::knobs::Knob;
use channels::{Channel, Inputs};
use feed::{Readings, Wholes};
use modes::sets::engages_approach;
use sides::{Pair, Side};

// What the two sides share and an event can change: the number of the PF side, AP, the overspeed flag, and whether
// independent operation is on, in which both sides act.
#[derive(Clone, Copy)]
pub struct Shared {
    pub pf: u32,
    pub ap: bool,
    pub overspeed: bool,
    pub independent: bool,
}

// The last counts of the four knobs.
#[derive(Clone, Copy)]
pub struct Counts {
    pub wheel: u8,
    pub altitude: u8,
    pub speed: u8,
    pub heading: u8,
}

impl Counts {
    pub fn get(&self, knob: Knob) -> u8
        ensures { result ≡ count_of knob self.now }
    {
        match knob {
            Knob::Wheel => self.wheel,
            Knob::Altitude => self.altitude,
            Knob::Speed => self.speed,
            Knob::Heading => self.heading,
        }
    }

    pub fn put(&mut self, knob: Knob, n: u8)
        ensures { self.new ≡ with_count knob n self.old }
    {
        match knob {
            Knob::Wheel => self.wheel = n,
            Knob::Altitude => self.altitude = n,
            Knob::Speed => self.speed = n,
            Knob::Heading => self.heading = n,
        }
    }
}

// A bench. It can hold damage: `is_sound` tells. An inbox holds the other side's channel as it was last sent.
#[derive(Clone, Copy)]
pub struct Bench {
    pub shared: Shared,
    pub counts: Counts,
    pub readings: Readings,
    pub wholes: Wholes,
    pub sides: Pair<Channel>,
    pub inboxes: Pair<Channel>,
}

// The number of the other side of two: a transfer moves PF there.
pub fn other_side(pf: u32) -> u32
    ensures { result ≡ other_side pf }
{
    match pf {
        0 => 1,
        _ => 0,
    }
}

// Whether both channels of a pair are sound.
#[inline(always)]
fn both_sound(channels: &Pair<Channel>) -> bool
    ensures { result ≡ both_sound channels.now }
{
    channels.left.is_sound() && channels.right.is_sound()
}

impl Bench {
    // Whether a side acts in a call.
    #[tactic(auto, unfolding(crate::specs::Acting::acts))]
    pub fn acts(&self, side: Side) -> bool
        ensures { result ≡ acts self.now side }
    {
        side.number() == self.shared.pf || self.shared.independent
    }

    // What a side's rule may read besides the side's channel, with the overspeed flag as it was handed in.
    pub fn inputs(&self, overspeed: bool, side: Side) -> Inputs
        ensures { result ≡ inputs overspeed self.now side }
    {
        Inputs {
            ap: self.shared.ap,
            overspeed,
            sent_fd: self.inboxes.get(side).fd,
            wholes: self.wholes,
        }
    }

    // Whether both sides have LAPPR and VAPPR engaged.
    #[tactic(auto, unfolding(crate::specs::Independent::both_approach))]
    pub fn both_approach(&self) -> bool
        ensures { result ≡ both_approach self.now }
    {
        engages_approach(self.sides.left.set) && engages_approach(self.sides.right.set)
    }

    // Whether independent operation is off, or both sides have what it needs.
    #[tactic(auto, unfolding(crate::specs::Independent::independent_sound))]
    fn independent_sound(&self) -> bool
        ensures { result ≡ independent_sound self.now }
    {
        !self.shared.independent || self.both_approach()
    }

    // Whether no condition of refusal 1 holds. It only looks at the bench, so that no call copies one to judge it.
    #[tactic(auto, unfolding(crate::specs::Sound::sound))]
    pub fn is_sound(&self) -> bool
        ensures { result ≡ sound self.now }
    {
        self.shared.pf <= 1
            && both_sound(&self.sides)
            && both_sound(&self.inboxes)
            && feed::readings_sound(&self.readings, &self.wholes)
            && self.independent_sound()
    }
}
