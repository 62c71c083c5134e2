// Events.
ghost use Rattle.std.specs.Prelude.{◌≡◌, ◌&&◌, ◌||◌, cond};
ghost use Rattle.sides.specs.Sides.{at};
ghost use Rattle.modes.specs.Events.{line_of};
ghost use Rattle.channels.specs.Rules.{after_event};
ghost use Rattle.bench.specs.Acting.{acts};
ghost use Rattle.bench.specs.Independent.{begun};
ghost use Rattle.rules.specs.Steps.{shared_after, toggled_fd, asks_for, is_asked, first_step, three_steps, acted};

use crate::{Rule, make_on_acting};
use bench::{Bench, Shared};
use channels::{Channel, Inputs};
use modes::Event;
use sides::Side;

// AP, flag and PF after an event. A transfer ends independent operation.
#[tactic(auto, unfolding(crate::specs::Steps::shared_after))]
fn shared_after(e: Event, s: Shared) -> Shared
    ensures { result ≡ shared_after e s }
{
    let ap = events::ap_after(e, s.ap);
    let overspeed = events::overspeed_after(e, s.overspeed);
    if events::transfers(e) {
        Shared {
            pf: bench::other_side(s.pf),
            ap,
            overspeed,
            independent: false,
        }
    } else {
        Shared { ap, overspeed, ..s }
    }
}

// Whether a side acts and an event sets its FD On.
#[tactic(auto, unfolding(crate::specs::Steps::asks_for))]
#[inline(always)]
fn asks_for(e: Event, b: &Bench, side: Side) -> bool
    ensures { result ≡ asks_for e b.now side }
{
    b.acts(side) & events::asks_fd(e, b.shared.ap, b.shared.overspeed, b.sides.get(side).set)
}

#[tactic(auto, unfolding(crate::specs::Steps::is_asked))]
#[inline(always)]
fn is_asked(e: Event, b: &Bench) -> bool
    ensures { result ≡ is_asked e b.now }
{
    asks_for(e, b, Side::Left) | asks_for(e, b, Side::Right)
}

// A pressed FD that is On goes Off only with the flag clear.
fn toggle(flag: bool, fd: bool) -> bool
    ensures { result ≡ toggled_fd flag fd }
{
    !fd | flag
}

// A side's FD after the first step, by whether an acting side asks for On.
#[inline(always)]
fn fd_after(e: Event, asked: bool, b: &Bench, side: Side) -> bool
    ensures { result ≡ cond ((line_of e).pressed side) (toggled_fd b.now.shared.overspeed (at side b.now.sides).fd) ((at side b.now.sides).fd || acts b.now side && asked) }
{
    let fd = b.sides.get(side).fd;
    if events::fd_pressed(e, side) {
        return toggle(b.shared.overspeed, fd);
    }
    fd | (b.acts(side) & asked)
}

// The first step: both FDs and the shared part, all decided from the bench that came.
#[tactic(auto, unfolding(crate::specs::Steps::first_step, crate::specs::Steps::fd_after))]
#[inline(always)]
fn first_step(e: Event, b: &mut Bench)
    ensures { b.new ≡ first_step e b.old }
{
    let asked = is_asked(e, b);
    let left = fd_after(e, asked, b, Side::Left);
    let right = fd_after(e, asked, b, Side::Right);
    b.shared = shared_after(e, b.shared);
    b.sides.left.fd = left;
    b.sides.right.fd = right;
}

// The second and the third step.
impl Rule for Event {
    ghost rule = { after_event };

    #[inline(always)]
    fn make(self, channel: &mut Channel, inputs: &Inputs) {
        channel.happen(self, inputs);
    }
}

// The later steps see the overspeed flag as it was handed in.
#[tactic(auto, unfolding(crate::specs::Steps::three_steps))]
fn three_steps(e: Event, b: &mut Bench)
    ensures { b.new ≡ three_steps e b.old }
{
    let overspeed = b.shared.overspeed;
    first_step(e, b);
    make_on_acting(e, overspeed, b);
}

// Independent operation goes on if both sides have LAPPR and VAPPR engaged.
#[tactic(auto, unfolding(bench::specs::Independent::begun))]
fn begin_independent(b: &mut Bench)
    ensures { b.new ≡ begun b.old }
{
    if b.both_approach() {
        b.shared.independent = true;
    }
}

// The bench after an event; where there is none, nothing is done.
#[tactic(auto, unfolding(crate::specs::Steps::acted))]
pub fn act(e: Event, b: &mut Bench)
    ensures { b.new ≡ acted e b.old }
{
    match e {
        Event::NoEvent => {}
        Event::IndependentSwitch => begin_independent(b),
        _ => three_steps(e, b),
    }
}
