// What a side of the bench holds, and its rules: what an event, a refresh and a turn of a knob make of it. A rule is given
// the side's channel and all that it may read besides, so that it can't touch another part of the bench.
#![tactic(auto)]

mod entry;
pub mod knobs;
pub mod references;
mod rules;

ghost use Rattle.std.specs.Prelude.{◌≡◌};
ghost use Rattle.channels.specs.Sound.{channel_sound};

use feed::Wholes;
use modes::ModeSet;
use references::References;

// What a side holds, and what its inbox holds of the other side: flight director, set, references.
#[derive(Clone, Copy)]
pub struct Channel {
    pub fd: bool,
    pub set: ModeSet,
    pub references: References,
}

// What a side's rule reads besides the side's own channel: AP, the overspeed flag as it was handed in, the flight
// director in the side's inbox, and the whole values of the readings.
#[derive(Clone, Copy)]
pub struct Inputs {
    pub ap: bool,
    pub overspeed: bool,
    pub sent_fd: bool,
    pub wholes: Wholes,
}

impl Channel {
    // Whether the set is coherent and each reference in its range.
    #[tactic(auto, unfolding(crate::specs::Sound::channel_sound))]
    #[inline(always)]
    pub fn is_sound(&self) -> bool
        ensures { result ≡ channel_sound self.now }
    {
        modes::sets::set_is_coherent(self.set) && self.references.are_in_range()
    }
}
