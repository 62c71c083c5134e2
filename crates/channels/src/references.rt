// The references: what modes aim for.
ghost use Rattle.std.specs.Prelude.{◌≡◌};
ghost use Rattle.channels.specs.References.{range_of, reference_at, with_reference, zero_references};
ghost use Rattle.channels.specs.Sound.{in_range, references_sound};

use feed::ranges::{Range, is_within};

// The references of a side, in degrees, feet, hundreds of feet a minute and knots.
#[derive(Clone, Copy)]
pub struct References {
    pub heading: i32,
    pub preselected: i32,
    pub held: i32,
    pub vertical_speed: i32,
    pub ias: i32,
    pub roll: i32,
    pub pitch: i32,
}

#[derive(Clone, Copy)]
pub enum Reference {
    Heading,
    Preselected,
    Held,
    VerticalSpeed,
    Ias,
    Roll,
    Pitch,
}

impl Reference {
    pub fn range(self) -> Range
        ensures { result ≡ range_of self }
    {
        match self {
            Reference::Heading => Range { low: 0, high: 359 },
            Reference::Preselected | Reference::Held => Range {
                low: -8000,
                high: 56000,
            },
            Reference::VerticalSpeed => Range { low: -50, high: 50 },
            Reference::Ias => Range { low: 60, high: 400 },
            Reference::Roll => Range { low: -27, high: 27 },
            Reference::Pitch => Range { low: -20, high: 20 },
        }
    }
}

impl References {
    pub fn zero() -> References
        ensures { result ≡ zero_references }
    {
        References {
            heading: 0,
            preselected: 0,
            held: 0,
            vertical_speed: 0,
            ias: 0,
            roll: 0,
            pitch: 0,
        }
    }

    pub fn get(self, name: Reference) -> i32
        ensures { result ≡ reference_at name self }
    {
        match name {
            Reference::Heading => self.heading,
            Reference::Preselected => self.preselected,
            Reference::Held => self.held,
            Reference::VerticalSpeed => self.vertical_speed,
            Reference::Ias => self.ias,
            Reference::Roll => self.roll,
            Reference::Pitch => self.pitch,
        }
    }

    pub fn put(&mut self, name: Reference, x: i32)
        ensures { self.new ≡ with_reference name x self.old }
    {
        match name {
            Reference::Heading => self.heading = x,
            Reference::Preselected => self.preselected = x,
            Reference::Held => self.held = x,
            Reference::VerticalSpeed => self.vertical_speed = x,
            Reference::Ias => self.ias = x,
            Reference::Roll => self.roll = x,
            Reference::Pitch => self.pitch = x,
        }
    }

    #[inline(always)]
    fn is_in_range(self, name: Reference) -> bool
        ensures { result ≡ in_range name self }
    {
        is_within(name.range(), self.get(name))
    }

    // Whether each reference is in its range. They come by value, so that four of them are compared at once.
    #[tactic(auto, unfolding(crate::specs::Sound::references_sound))]
    #[inline(always)]
    pub fn are_in_range(self) -> bool
        ensures { result ≡ references_sound self }
    {
        self.is_in_range(Reference::Heading)
            && self.is_in_range(Reference::Preselected)
            && self.is_in_range(Reference::Held)
            && self.is_in_range(Reference::VerticalSpeed)
            && self.is_in_range(Reference::Ias)
            && self.is_in_range(Reference::Roll)
            && self.is_in_range(Reference::Pitch)
    }
}
