// What a turn of a knob makes of a side.
ghost use Rattle.std.specs.Prelude.{◌≡◌, ◌<◌, pos, ◌*ℤ◌};
ghost use Rattle.std.specs.Int.Signed.{mag};
ghost use Rattle.rotation.specs.Rotation.{rotation_of};
ghost use Rattle.modes.specs.Sets.{PITCH, ALTSEL, engage, engaged_in, in_on};
ghost use Rattle.channels.specs.Turns.{knob_number, knob_of, moved, differ, reference_moved, pitched, wheel_turned, altitude_moved, altitude_turned, heading_turned, after_turn};

use crate::references::{Reference, References};
use crate::{Channel, Inputs};
use feed::ranges::clamped_sum;
use modes::{ModeSet, Vertical};
use refusals::Refusal;

#[derive(Clone, Copy)]
pub enum Knob {
    Wheel,
    Altitude,
    Speed,
    Heading,
}

// The knobs are 0 to 3 in this order. Any other number names none, and is refused with 3.
impl TryFrom<u32> for Knob {
    type Error = Refusal;

    ghost try_from_gives = { λ n knob. knob ≡ knob_of n };

    fn try_from(n: u32) -> Result<Knob, Refusal> {
        match n {
            0 => Ok(Knob::Wheel),
            1 => Ok(Knob::Altitude),
            2 => Ok(Knob::Speed),
            3 => Ok(Knob::Heading),
            _ => Err(Refusal::UnknownKnob),
        }
    }
}

impl Knob {
    pub fn number(self) -> u32
        ensures { result ≡ knob_number self }
    {
        match self {
            Knob::Wheel => 0,
            Knob::Altitude => 1,
            Knob::Speed => 2,
            Knob::Heading => 3,
        }
    }
}

// How far a knob was turned: from -128 to 127 (`mag` of -128 is 127), so that a hundred times as much
// fits.
#[derive(Clone, Copy)]
struct Rotation {
    clicks: i32,
    ghost small: { mag clicks < 128 },
}

impl Rotation {
    // From one count to another.
    fn between(old: u8, new: u8) -> Rotation
        ensures { result.clicks ≡ rotation_of old new }
    {
        Rotation {
            clicks: rotation::rotation(old, new),
        }
    }

    fn hundreds(self) -> i32
        ensures { result ≡ self.clicks *ℤ pos 100 }
    {
        self.clicks * 100
    }
}

impl References {
    // An amount is added to a reference, clamped to its range.
    fn move_by(&mut self, name: Reference, amount: i32)
        ensures { self.new ≡ moved name amount self.old }
    {
        let next = clamped_sum(name.range(), self.get(name), amount);
        self.put(name, next);
    }
}

// PITCH in a set that is On.
fn pitch_in(s: ModeSet) -> ModeSet
    ensures { result ≡ in_on (engage PITCH) s }
{
    match s {
        ModeSet::Off => ModeSet::Off,
        ModeSet::On(m) => ModeSet::On(changes::engage_pitch(m)),
    }
}

// Whether ALTSEL is engaged.
#[tactic(auto, unfolding(modes::specs::Sets::engaged))]
fn in_altsel(s: ModeSet) -> bool
    ensures { result ≡ engaged_in ALTSEL s }
{
    match s {
        ModeSet::Off => false,
        ModeSet::On(m) => {
            let engaged = m.vertical;
            matches!(engaged, Vertical::AltselCapture | Vertical::AltselTrack)
        }
    }
}

impl Channel {
    #[tactic(auto, unfolding(crate::specs::Turns::reference_moved))]
    fn move_reference(&mut self, name: Reference, amount: i32)
        ensures { self.new ≡ reference_moved name amount self.old }
    {
        self.references.move_by(name, amount);
    }

    // PITCH engages, with entry.
    #[tactic(auto, unfolding(crate::specs::Turns::pitched))]
    fn engage_pitch(&mut self, inputs: &Inputs)
        ensures { self.new ≡ pitched inputs.now self.old }
    {
        self.enter(pitch_in(self.set), &inputs.wholes);
    }

    // In VS and PITCH the wheel moves the reference; in VAPPR and Off it does nothing; in another mode PITCH
    // engages.
    #[tactic(auto, unfolding(crate::specs::Turns::wheel_turned, modes::specs::Sets::engaged))]
    fn turn_wheel(&mut self, rotation: Rotation, inputs: &Inputs)
        ensures { self.new ≡ wheel_turned rotation.clicks inputs.now self.old }
    {
        let ModeSet::On(m) = self.set else {
            return;
        };
        let engaged = m.vertical;
        match engaged {
            Vertical::Vs => self.move_reference(Reference::VerticalSpeed, rotation.clicks),
            Vertical::Pitch => self.move_reference(Reference::Pitch, rotation.clicks),
            Vertical::Vappr => {}
            _ => self.engage_pitch(inputs),
        }
    }

    fn preselection_differs(&self, was: &Channel) -> bool
        ensures { result ≡ differ was.now.references.preselected self.now.references.preselected }
    {
        was.references.preselected != self.references.preselected
    }

    // The preselected altitude moves; if it is another one then, PITCH ends an engaged ALTSEL.
    #[tactic(auto, unfolding(crate::specs::Turns::altitude_turned))]
    fn turn_altitude(&mut self, rotation: Rotation, inputs: &Inputs)
        ensures { self.new ≡ altitude_turned rotation.clicks inputs.now self.old }
    {
        let was = *self;
        self.move_reference(Reference::Preselected, rotation.hundreds());
        if in_altsel(was.set) & self.preselection_differs(&was) {
            self.engage_pitch(inputs);
        }
    }

    #[tactic(auto, unfolding(crate::specs::Turns::heading_turned))]
    fn turn_heading(&mut self, rotation: Rotation)
        ensures { self.new ≡ heading_turned rotation.clicks self.old }
    {
        self.references.heading = rotation::heading_add(self.references.heading, rotation.clicks);
    }

    // A turn of a knob from one count to another.
    #[tactic(auto, unfolding(crate::specs::Turns::after_turn))]
    pub fn turn(&mut self, knob: Knob, old: u8, new: u8, inputs: &Inputs)
        ensures { self.new ≡ after_turn knob (rotation_of old new) inputs.now self.old }
    {
        let rotation = Rotation::between(old, new);
        match knob {
            Knob::Wheel => self.turn_wheel(rotation, inputs),
            Knob::Altitude => self.turn_altitude(rotation, inputs),
            Knob::Speed => self.move_reference(Reference::Ias, rotation.clicks),
            Knob::Heading => self.turn_heading(rotation),
        }
    }
}
