// What an accepted call does to a bench: an event, a turn of a knob, a reading, a send and a refresh. Each is made where the
// bench lies, and asks nothing of it.
#![tactic(auto)]

pub mod sends;
pub mod steps;
pub mod turns;

ghost use Rattle.std.specs.Prelude.{◌≡◌};
ghost use Rattle.bench.specs.Acting.{acts, on_acting};
ghost use Rattle.channels.specs.declared.Channel.{Channel};
ghost use Rattle.channels.specs.declared.Inputs.{Inputs};
ghost use Rattle.rules.specs.Private.{made_on};
ghost use Rattle.rules.specs.Readings.{received};

use bench::Bench;
use channels::{Channel, Inputs};
use feed::Reading;
use sides::Side;

// What is made of one side's channel, by what that side may read. It is a trait's method and no closure, since a closure
// has to be callable, and no public function here asks anything of its callers.
pub trait Rule: Copy {
    ghost rule: { Self → Inputs → Channel → Channel };

    fn make(self, channel: &mut Channel, inputs: &Inputs)
        ensures { channel.new ≡ rule self inputs.now channel.old };
}

// A rule made on a side, if that acts.
#[inline(always)]
fn make_on<R: Rule>(rule: R, overspeed: bool, side: Side, b: &mut Bench)
    ensures { b.new ≡ made_on (R.rule rule) overspeed side b.old }
{
    if b.acts(side) {
        let inputs = b.inputs(overspeed, side);
        match side {
            Side::Left => rule.make(&mut b.sides.left, &inputs),
            Side::Right => rule.make(&mut b.sides.right, &inputs),
        }
    }
}

// A rule made on each side that acts, with the overspeed flag that it is to be judged by.
#[tactic(auto, unfolding(bench::specs::Acting::acts))]
#[inline(always)]
pub fn make_on_acting<R: Rule>(rule: R, overspeed: bool, b: &mut Bench)
    ensures { b.new ≡ on_acting (R.rule rule) overspeed b.old }
{
    make_on(rule, overspeed, Side::Left, b);
    make_on(rule, overspeed, Side::Right, b);
}

// Keeps an accepted reading and its whole value.
pub fn receive(b: &mut Bench, r: Reading, whole: i32)
    ensures { b.new ≡ received r whole b.old }
{
    b.readings.put(r);
    b.wholes.put(r.kind(), whole);
}
