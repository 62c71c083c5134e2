// Sends and refreshes.
ghost use Rattle.std.specs.Prelude.{◌≡◌};
ghost use Rattle.rules.specs.Sends.{sent, refreshed};

use bench::Bench;
use sides::Side;

// What a side holds goes to the other side's inbox.
pub fn send(b: &mut Bench, side: Side)
    ensures { b.new ≡ sent side b.old }
{
    b.inboxes.put(side.other(), b.sides.get(side));
}

// A side that acts applies the On rule, and any other takes over what was sent to it last.
pub fn refresh(b: &mut Bench, side: Side)
    ensures { b.new ≡ refreshed side b.old }
{
    if b.acts(side) {
        let inputs = b.inputs(b.shared.overspeed, side);
        match side {
            Side::Left => b.sides.left.refresh(&inputs),
            Side::Right => b.sides.right.refresh(&inputs),
        }
    } else {
        match side {
            Side::Left => b.sides.left.take_over(&b.inboxes.left),
            Side::Right => b.sides.right.take_over(&b.inboxes.right),
        }
    }
}
