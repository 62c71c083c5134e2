// What events do to an On set. Which event makes which change stands in the events' table, in crate `events`; the paper's
// rules are in modes/specs/Events.antt. Here they go by the modes that are engaged and by what is armed.
#![tactic(auto)]

ghost use Rattle.std.specs.Prelude.{◌≡◌, cond};
ghost use Rattle.modes.specs.declared.ArmedLateral.{ArmedLateral};
ghost use Rattle.modes.specs.Sets.{PITCH, NAV, LAPPR, HDG, VS, ALT, ALTSEL, VAPPR, clear, engage};
ghost use Rattle.modes.specs.Events.{overspeed, go_around, take_basic, clear_navigation, capture, capture_vappr, track, switch, switch_nav, switch_appr, switch_flc};
ghost use Rattle.changes.specs.Private.{to_lateral, to_vertical};

use modes::numbers::{arms_lappr, arms_nav};
use modes::sets::basic_modes;
use modes::{ArmedLateral, Lateral, Modes, Vertical};

// The armed lateral mode, and none where its arming ends.
fn armed_unless(ends: bool, a: ArmedLateral) -> ArmedLateral
    ensures { result ≡ cond ends ArmedLateral.Neither a }
{
    if ends { ArmedLateral::Neither } else { a }
}

// VAPPR neither armed nor engaged; where it was engaged, PITCH is.
fn clear_vappr(m: Modes) -> Modes
    ensures { result ≡ clear VAPPR m }
{
    let engaged = m.vertical;
    match engaged {
        Vertical::Vappr => Modes {
            vertical: Vertical::Pitch,
            vappr_armed: false,
            ..m
        },
        _ => Modes {
            vappr_armed: false,
            ..m
        },
    }
}

// LAPPR neither armed nor engaged, and VAPPR with it.
fn clear_lappr(m: Modes) -> Modes
    ensures { result ≡ clear LAPPR m }
{
    let engaged = m.lateral;
    let armed = armed_unless(arms_lappr(m.armed), m.armed);
    match engaged {
        Lateral::Lappr => Modes {
            lateral: Lateral::Roll,
            armed,
            ..clear_vappr(m)
        },
        _ => Modes {
            armed,
            ..clear_vappr(m)
        },
    }
}

// NAV neither armed nor engaged.
fn clear_nav(m: Modes) -> Modes
    ensures { result ≡ clear NAV m }
{
    let engaged = m.lateral;
    let armed = armed_unless(arms_nav(m.armed), m.armed);
    match engaged {
        Lateral::Nav => Modes {
            lateral: Lateral::Roll,
            armed,
            ..m
        },
        _ => Modes { armed, ..m },
    }
}

// The lateral mode that is left is cleared. ROLL, HDG and LGA take nothing with them.
fn to_lateral(m: Modes, l: Lateral) -> Modes
    ensures { result ≡ to_lateral l m }
{
    let left = m.lateral;
    match left {
        Lateral::Nav => Modes {
            lateral: l,
            ..clear_nav(m)
        },
        Lateral::Lappr => Modes {
            lateral: l,
            ..clear_lappr(m)
        },
        _ => Modes { lateral: l, ..m },
    }
}

// The vertical mode that is left is cleared. Only VAPPR has an arming of its own: one that was armed
// stays so, and one that was engaged is cleared.
fn to_vertical(m: Modes, v: Vertical) -> Modes
    ensures { result ≡ to_vertical v m }
{
    let left = m.vertical;
    match left {
        Vertical::Vappr => Modes {
            vertical: v,
            vappr_armed: false,
            ..m
        },
        _ => Modes { vertical: v, ..m },
    }
}

// PITCH engages: what a turned knob can ask for.
#[tactic(auto, using(crate::proofs::Joins::pitch_engaged))]
pub fn engage_pitch(m: Modes) -> Modes
    ensures { result ≡ engage PITCH m }
{
    to_vertical(m, Vertical::Pitch)
}

// FLC, unless ALT or ALTSEL is engaged or the flag was set already.
pub fn overspeed(flag: bool, m: Modes) -> Modes
    ensures { result ≡ overspeed flag m }
{
    let engaged = m.vertical;
    match engaged {
        Vertical::Alt | Vertical::AltselCapture | Vertical::AltselTrack => m,
        _ if flag => m,
        _ => to_vertical(m, Vertical::Flc),
    }
}

// LGA and VGA, over whatever is engaged.
#[tactic(auto, using(crate::proofs::Joins::gone_around))]
pub fn go_around(m: Modes) -> Modes
    ensures { result ≡ go_around m }
{
    to_vertical(to_lateral(m, Lateral::Lga), Vertical::Vga)
}

// ROLL and PITCH, whatever was engaged, and what was armed is cleared.
#[tactic(auto, using(crate::proofs::Joins::basic_taken))]
pub fn take_basic(m: Modes) -> Modes
    ensures { result ≡ take_basic m }
{
    basic_modes()
}

// NAV and the approach, engaged or armed, are cleared.
#[tactic(auto, using(crate::proofs::Joins::navigation_cleared))]
pub fn clear_navigation(m: Modes) -> Modes
    ensures { result ≡ clear_navigation m }
{
    clear_lappr(clear_nav(m))
}

// An armed NAV engages.
pub fn capture_nav(m: Modes) -> Modes
    ensures { result ≡ capture NAV m }
{
    if arms_nav(m.armed) {
        Modes {
            armed: ArmedLateral::Neither,
            ..to_lateral(m, Lateral::Nav)
        }
    } else {
        m
    }
}

// An armed LAPPR engages. The approach goes on, so VAPPR stays as it is.
pub fn capture_lappr(m: Modes) -> Modes
    ensures { result ≡ capture LAPPR m }
{
    if arms_lappr(m.armed) {
        Modes {
            lateral: Lateral::Lappr,
            armed: ArmedLateral::Neither,
            ..m
        }
    } else {
        m
    }
}

// A VAPPR that is armed beside an engaged LAPPR engages, unless the flag is set.
pub fn capture_vappr(flag: bool, m: Modes) -> Modes
    ensures { result ≡ capture_vappr flag m }
{
    let engaged = m.lateral;
    match engaged {
        Lateral::Lappr if m.vappr_armed & !flag => Modes {
            vertical: Vertical::Vappr,
            vappr_armed: false,
            ..m
        },
        _ => m,
    }
}

// ALTSEL, which is armed beside four of the vertical modes, engages in capture.
pub fn capture_altsel(m: Modes) -> Modes
    ensures { result ≡ capture ALTSEL m }
{
    let engaged = m.vertical;
    match engaged {
        Vertical::Pitch | Vertical::Vs | Vertical::Flc | Vertical::Vga => {
            Modes {
                vertical: Vertical::AltselCapture,
                ..m
            }
        }
        _ => m,
    }
}

// ALTSEL goes on from capture to track.
pub fn track(m: Modes) -> Modes
    ensures { result ≡ track m }
{
    let engaged = m.vertical;
    match engaged {
        Vertical::AltselCapture => Modes {
            vertical: Vertical::AltselTrack,
            ..m
        },
        _ => m,
    }
}

// HDG engages, or gives way to ROLL.
pub fn switch_hdg(m: Modes) -> Modes
    ensures { result ≡ switch HDG m }
{
    let engaged = m.lateral;
    match engaged {
        Lateral::Hdg => Modes {
            lateral: Lateral::Roll,
            ..m
        },
        _ => to_lateral(m, Lateral::Hdg),
    }
}

// NAV, engaged or armed, is cleared; else it is armed, in place of LAPPR.
pub fn switch_nav(m: Modes) -> Modes
    ensures { result ≡ switch_nav m }
{
    let engaged = m.lateral;
    let armed = m.armed;
    match (engaged, armed) {
        (Lateral::Nav, _) | (_, ArmedLateral::Nav) => clear_nav(m),
        (_, ArmedLateral::Lappr) => Modes {
            armed: ArmedLateral::Nav,
            ..clear_lappr(m)
        },
        (_, ArmedLateral::Neither) => Modes {
            armed: ArmedLateral::Nav,
            ..m
        },
    }
}

// LAPPR, engaged or armed, is cleared; else it and VAPPR are armed.
pub fn switch_appr(m: Modes) -> Modes
    ensures { result ≡ switch_appr m }
{
    let engaged = m.lateral;
    let armed = m.armed;
    match (engaged, armed) {
        (Lateral::Lappr, _) | (_, ArmedLateral::Lappr) => clear_lappr(m),
        _ => Modes {
            armed: ArmedLateral::Lappr,
            vappr_armed: true,
            ..m
        },
    }
}

// VS engages, or gives way to PITCH.
pub fn switch_vs(m: Modes) -> Modes
    ensures { result ≡ switch VS m }
{
    let engaged = m.vertical;
    match engaged {
        Vertical::Vs => Modes {
            vertical: Vertical::Pitch,
            ..m
        },
        _ => to_vertical(m, Vertical::Vs),
    }
}

// FLC engages, or gives way to PITCH; while the flag is set it is not cleared.
pub fn switch_flc(flag: bool, m: Modes) -> Modes
    ensures { result ≡ switch_flc flag m }
{
    let engaged = m.vertical;
    match engaged {
        Vertical::Flc if flag => m,
        Vertical::Flc => Modes {
            vertical: Vertical::Pitch,
            ..m
        },
        _ => to_vertical(m, Vertical::Flc),
    }
}

// ALT engages, or gives way to PITCH.
pub fn switch_alt(m: Modes) -> Modes
    ensures { result ≡ switch ALT m }
{
    let engaged = m.vertical;
    match engaged {
        Vertical::Alt => Modes {
            vertical: Vertical::Pitch,
            ..m
        },
        _ => to_vertical(m, Vertical::Alt),
    }
}
