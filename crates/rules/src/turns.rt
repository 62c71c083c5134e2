// Turns of a knob.
ghost use Rattle.std.specs.Prelude.{◌≡◌};
ghost use Rattle.rotation.specs.Rotation.{rotation_of};
ghost use Rattle.channels.specs.Turns.{after_turn};
ghost use Rattle.rules.specs.Turns.{turned};

use crate::{Rule, make_on_acting};
use bench::Bench;
use channels::knobs::Knob;
use channels::{Channel, Inputs};

#[derive(Clone, Copy)]
struct Turn {
    knob: Knob,
    old: u8,
    new: u8,
}

impl Rule for Turn {
    ghost rule = { λ t. after_turn t.knob (rotation_of t.old t.new) };

    #[inline(always)]
    fn make(self, channel: &mut Channel, inputs: &Inputs) {
        channel.turn(self.knob, self.old, self.new, inputs);
    }
}

// A knob's new count. The same count again does nothing.
#[tactic(auto, unfolding(crate::specs::Turns::turned))]
pub fn turn_to(b: &mut Bench, knob: Knob, new: u8)
    ensures { b.new ≡ turned knob new b.old }
{
    let old = b.counts.get(knob);
    b.counts.put(knob, new);
    if new == old {
        return;
    }
    let turn = Turn { knob, old, new };
    let overspeed = b.shared.overspeed;
    make_on_acting(turn, overspeed, b);
}
