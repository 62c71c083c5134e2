// The numbers that a display shows of a set: laws, armed sum, mode lamps.
ghost use Rattle.std.specs.Prelude.{◌≡◌};
ghost use Rattle.std.specs.Result.{result_ok};
ghost use Rattle.modes.specs.Numbers.{lateral_number, vertical_number, lateral_of, armed_of, vertical_of, lateral_law, vertical_law, armed_sum, mode_lamps, worth};
ghost use Rattle.modes.specs.Sets.{arms_nav, arms_lappr};
ghost use Rattle.modes.specs.Every.{armed_number};
ghost use Rattle.modes.specs.Private.{altsel_number, lateral_lamp, armed_lamp, vertical_lamp};

use crate::{ArmedLateral, Lateral, ModeSet, Vertical};

// A number that no mode has.
#[derive(Clone, Copy)]
pub struct NoMode;

impl From<Lateral> for u32 {
    ghost from_gives = { λ l n. n ≡ lateral_number l };

    fn from(l: Lateral) -> u32 {
        match l {
            Lateral::Roll => 1,
            Lateral::Hdg => 2,
            Lateral::Nav => 3,
            Lateral::Lappr => 4,
            Lateral::Lga => 5,
        }
    }
}

// The lateral mode of a law, from 1 to 5.
impl TryFrom<u32> for Lateral {
    type Error = NoMode;

    ghost try_from_gives = { λ n r. result_ok r ≡ lateral_of n };

    fn try_from(n: u32) -> Result<Lateral, NoMode> {
        match n {
            1 => Ok(Lateral::Roll),
            2 => Ok(Lateral::Hdg),
            3 => Ok(Lateral::Nav),
            4 => Ok(Lateral::Lappr),
            5 => Ok(Lateral::Lga),
            _ => Err(NoMode),
        }
    }
}

impl From<Vertical> for u32 {
    ghost from_gives = { λ v n. n ≡ vertical_number v };

    fn from(v: Vertical) -> u32 {
        match v {
            Vertical::Pitch => 1,
            Vertical::Vs => 2,
            Vertical::Flc => 3,
            Vertical::Alt => 4,
            Vertical::AltselCapture => 5,
            Vertical::AltselTrack => 6,
            Vertical::Vappr => 7,
            Vertical::Vga => 8,
        }
    }
}

// The vertical mode of a law, from 1 to 8.
impl TryFrom<u32> for Vertical {
    type Error = NoMode;

    ghost try_from_gives = { λ n r. result_ok r ≡ vertical_of n };

    fn try_from(n: u32) -> Result<Vertical, NoMode> {
        match n {
            1 => Ok(Vertical::Pitch),
            2 => Ok(Vertical::Vs),
            3 => Ok(Vertical::Flc),
            4 => Ok(Vertical::Alt),
            5 => Ok(Vertical::AltselCapture),
            6 => Ok(Vertical::AltselTrack),
            7 => Ok(Vertical::Vappr),
            8 => Ok(Vertical::Vga),
            _ => Err(NoMode),
        }
    }
}

// What the armed lateral mode adds to the armed sum: 1 for NAV, 2 for LAPPR.
impl From<ArmedLateral> for u32 {
    ghost from_gives = { λ a n. n ≡ armed_number a };

    fn from(a: ArmedLateral) -> u32 {
        match a {
            ArmedLateral::Neither => 0,
            ArmedLateral::Nav => 1,
            ArmedLateral::Lappr => 2,
        }
    }
}

// The armed lateral mode of its part of the armed sum, from 0 to 2.
impl TryFrom<u32> for ArmedLateral {
    type Error = NoMode;

    ghost try_from_gives = { λ n r. result_ok r ≡ armed_of n };

    fn try_from(n: u32) -> Result<ArmedLateral, NoMode> {
        match n {
            0 => Ok(ArmedLateral::Neither),
            1 => Ok(ArmedLateral::Nav),
            2 => Ok(ArmedLateral::Lappr),
            _ => Err(NoMode),
        }
    }
}

// The lateral law, and 0 for a set that is Off.
pub fn lateral_law(s: ModeSet) -> u32
    ensures { result ≡ lateral_law s }
{
    match s {
        ModeSet::Off => 0,
        ModeSet::On(m) => u32::from(m.lateral),
    }
}

// The vertical law, and 0 for a set that is Off.
pub fn vertical_law(s: ModeSet) -> u32
    ensures { result ≡ vertical_law s }
{
    match s {
        ModeSet::Off => 0,
        ModeSet::On(m) => u32::from(m.vertical),
    }
}

pub fn arms_nav(a: ArmedLateral) -> bool
    ensures { result ≡ arms_nav a }
{
    matches!(a, ArmedLateral::Nav)
}

pub fn arms_lappr(a: ArmedLateral) -> bool
    ensures { result ≡ arms_lappr a }
{
    matches!(a, ArmedLateral::Lappr)
}

// n where `lit` holds, as a part of a sum.
pub fn worth(lit: bool, n: u32) -> u32
    ensures { result ≡ worth lit n }
{
    if lit { n } else { 0 }
}

// What ALTSEL adds, which is armed beside PITCH, VS, FLC and VGA: 4.
fn altsel_number(v: Vertical) -> u32
    ensures { result ≡ altsel_number v }
{
    match v {
        Vertical::Pitch | Vertical::Vs | Vertical::Flc | Vertical::Vga => 4,
        Vertical::Alt | Vertical::AltselCapture | Vertical::AltselTrack | Vertical::Vappr => 0,
    }
}

// The armed modes as a sum: 1 for NAV, 2 for LAPPR, 4 for ALTSEL, 8 for VAPPR. No two share a bit.
#[tactic(auto, using(crate::proofs::Joins::armed_parts), unfolding(crate::specs::Numbers::armed_sum))]
pub fn armed_sum(s: ModeSet) -> u32
    ensures { result ≡ armed_sum s }
{
    match s {
        ModeSet::Off => 0,
        ModeSet::On(m) => {
            u32::from(m.armed) | altsel_number(m.vertical) | worth(m.vappr_armed, 8)
        }
    }
}

// The lamp of the engaged lateral mode.
fn lateral_lamp(l: Lateral) -> u32
    ensures { result ≡ lateral_lamp l }
{
    match l {
        Lateral::Roll => 0,
        Lateral::Hdg => 1,
        Lateral::Nav => 2,
        Lateral::Lappr => 4,
        Lateral::Lga => 0,
    }
}

// The lamp of the armed lateral mode: the same ones, so that a mode's lamp is one bit.
fn armed_lamp(a: ArmedLateral) -> u32
    ensures { result ≡ armed_lamp a }
{
    match a {
        ArmedLateral::Neither => 0,
        ArmedLateral::Nav => 2,
        ArmedLateral::Lappr => 4,
    }
}

// The lamp of the engaged vertical mode.
fn vertical_lamp(v: Vertical) -> u32
    ensures { result ≡ vertical_lamp v }
{
    match v {
        Vertical::Pitch => 0,
        Vertical::Vs => 8,
        Vertical::Flc => 16,
        Vertical::Alt => 32,
        Vertical::AltselCapture => 0,
        Vertical::AltselTrack => 0,
        Vertical::Vappr => 0,
        Vertical::Vga => 0,
    }
}

// The mode lamps as a sum of bits: HDG is the lowest, then NAV, APPR, VS, FLC and ALT.
#[tactic(auto, using(crate::proofs::Joins::lamp_parts), unfolding(crate::specs::Numbers::mode_lamps))]
pub fn mode_lamps(s: ModeSet) -> u32
    ensures { result ≡ mode_lamps s }
{
    match s {
        ModeSet::Off => 0,
        ModeSet::On(m) => {
            lateral_lamp(m.lateral) | armed_lamp(m.armed) | vertical_lamp(m.vertical)
        }
    }
}
