// What a side shows.
ghost use Rattle.std.specs.Prelude.{◌≡◌};
ghost use Rattle.calls.specs.Displays.{pf_lamp, lamps, shown};

use crate::reply::Display;
use bench::Bench;
use sides::Side;

fn pf_lamp(pf: u32) -> u32
    ensures { result ≡ pf_lamp pf }
{
    match pf {
        0 => 128,
        _ => 256,
    }
}

// The mode lamps of a side, 64 for AP, and 128 or 256 for the side that has PF.
#[tactic(auto, unfolding(crate::specs::Displays::lamps))]
fn lamps_of(b: &Bench, side: Side) -> u32
    ensures { result ≡ lamps b.now side }
{
    let modes_lit = modes::numbers::mode_lamps(b.sides.get(side).set);
    modes_lit + modes::numbers::worth(b.shared.ap, 64) + pf_lamp(b.shared.pf)
}

#[tactic(auto, unfolding(crate::specs::Displays::shown))]
#[inline(always)]
pub(crate) fn show(b: &Bench, side: Side) -> Display
    ensures { result ≡ shown b.now side }
{
    let c = b.sides.get(side);
    Display {
        fd: c.fd,
        lateral: modes::numbers::lateral_law(c.set),
        vertical: modes::numbers::vertical_law(c.set),
        armed: modes::numbers::armed_sum(c.set),
        references: c.references,
        lamps: lamps_of(b, side),
    }
}
