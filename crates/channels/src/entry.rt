// Entry: what a mode loads when it engages.
ghost use Rattle.std.specs.Prelude.{◌≡◌};
ghost use Rattle.channels.specs.Entry.{loaded, entry, enter};
ghost use Rattle.channels.specs.Private.{lateral_entry, vertical_entry};

use crate::Channel;
use crate::references::{Reference, References};
use feed::Wholes;
use feed::ranges::clamped_sum;
use modes::ModeSet;
use modes::numbers::{lateral_law, vertical_law};

// A reference takes a kept whole value, clamped to its range.
fn load(r: &mut References, name: Reference, whole: i32)
    ensures { r.new ≡ loaded name whole r.old }
{
    r.put(name, clamped_sum(name.range(), whole, 0));
}

// What a newly engaged lateral mode loads: ROLL, law 1, roll.
fn enter_lateral(k: &Wholes, was: u32, law: u32, r: &mut References)
    ensures { r.new ≡ lateral_entry k.now was law r.old }
{
    match (law, was) {
        (1, 1) => {}
        (1, _) => load(r, Reference::Roll, k.roll),
        _ => {}
    }
}

// What a newly engaged vertical mode loads: PITCH, law 1, pitch; VS, 2, vertical speed; FLC, 3,
// airspeed; ALT, 4, altitude.
fn enter_vertical(k: &Wholes, was: u32, law: u32, r: &mut References)
    ensures { r.new ≡ vertical_entry k.now was law r.old }
{
    match (law, was) {
        (1, 1) | (2, 2) | (3, 3) | (4, 4) => {}
        (1, _) => load(r, Reference::Pitch, k.pitch),
        (2, _) => load(r, Reference::VerticalSpeed, k.vertical_speed),
        (3, _) => load(r, Reference::Ias, k.airspeed),
        (4, _) => load(r, Reference::Held, k.altitude),
        _ => {}
    }
}

// The references of a side whose set goes from one to another.
#[tactic(auto, using(crate::proofs::ByLaw::entry_by_law))]
fn enter_references(k: &Wholes, before: ModeSet, after: ModeSet, r: &mut References)
    ensures { r.new ≡ entry k.now before after r.old }
{
    enter_lateral(k, lateral_law(before), lateral_law(after), r);
    enter_vertical(k, vertical_law(before), vertical_law(after), r);
}

impl Channel {
    // The channel takes another set, with entry.
    #[tactic(auto, unfolding(crate::specs::Entry::enter))]
    #[inline(always)]
    pub(crate) fn enter(&mut self, set: ModeSet, k: &Wholes)
        ensures { self.new ≡ enter k.now set self.old }
    {
        enter_references(k, self.set, set, &mut self.references);
        self.set = set;
    }
}
