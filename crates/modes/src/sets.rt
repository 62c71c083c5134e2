// What a mode is in a set, and which sets are coherent.
ghost use Rattle.std.specs.Prelude.{◌≡◌};
ghost use Rattle.modes.specs.Sets.{HDG, NAV, LAPPR, VS, FLC, ALT, basic_modes, coherent, coherent_set, engaged_in, selected_in, approach_engaged};
ghost use Rattle.modes.specs.Private.{is_nav, is_lappr};

use crate::numbers::{arms_lappr, arms_nav, lateral_law, vertical_law};
use crate::row::{NO_CODE, modes_code};
use crate::{ArmedLateral, Lateral, ModeSet, Modes, Vertical};

// ROLL and PITCH with no mode armed but ALTSEL: the set of a side that comes on.
pub fn basic_modes() -> Modes
    ensures { result ≡ basic_modes }
{
    Modes {
        lateral: Lateral::Roll,
        armed: ArmedLateral::Neither,
        vertical: Vertical::Pitch,
        vappr_armed: false,
    }
}

fn is_nav(l: Lateral) -> bool
    ensures { result ≡ is_nav l }
{
    matches!(l, Lateral::Nav)
}

fn is_lappr(l: Lateral) -> bool
    ensures { result ≡ is_lappr l }
{
    matches!(l, Lateral::Lappr)
}

// Whether an On set is coherent.
#[tactic(auto, using(crate::proofs::Joins::coherent_agrees))]
pub fn is_coherent(m: Modes) -> bool
    ensures { result ≡ coherent m }
{
    modes_code(m) != NO_CODE
}

// Whether a set is coherent; Off is.
pub fn set_is_coherent(s: ModeSet) -> bool
    ensures { result ≡ coherent_set s }
{
    match s {
        ModeSet::Off => true,
        ModeSet::On(m) => is_coherent(m),
    }
}

// Whether NAV is armed or engaged.
#[tactic(auto, using(crate::proofs::Joins::nav_selected))]
pub fn selects_nav(s: ModeSet) -> bool
    ensures { result ≡ selected_in NAV s }
{
    match s {
        ModeSet::Off => false,
        ModeSet::On(m) => is_nav(m.lateral) | arms_nav(m.armed),
    }
}

// Whether LAPPR is armed or engaged.
#[tactic(auto, using(crate::proofs::Joins::lappr_selected))]
pub fn selects_lappr(s: ModeSet) -> bool
    ensures { result ≡ selected_in LAPPR s }
{
    match s {
        ModeSet::Off => false,
        ModeSet::On(m) => is_lappr(m.lateral) | arms_lappr(m.armed),
    }
}

pub fn engages_hdg(s: ModeSet) -> bool
    ensures { result ≡ engaged_in HDG s }
{
    let law = lateral_law(s);
    matches!(law, 2)
}

pub fn engages_vs(s: ModeSet) -> bool
    ensures { result ≡ engaged_in VS s }
{
    let law = vertical_law(s);
    matches!(law, 2)
}

pub fn engages_flc(s: ModeSet) -> bool
    ensures { result ≡ engaged_in FLC s }
{
    let law = vertical_law(s);
    matches!(law, 3)
}

pub fn engages_alt(s: ModeSet) -> bool
    ensures { result ≡ engaged_in ALT s }
{
    let law = vertical_law(s);
    matches!(law, 4)
}

// Whether LAPPR, law 4, and VAPPR, law 7, are both engaged.
pub fn engages_approach(s: ModeSet) -> bool
    ensures { result ≡ approach_engaged s }
{
    let lateral = lateral_law(s);
    let vertical = vertical_law(s);
    matches!((lateral, vertical), (4, 7))
}
