// Set codes: one number, from 0 to 107, for each coherent set; and all of these sets in a list.
#![tactic(auto)]

ghost use Rattle.std.specs.Prelude.{◌≡◌};
ghost use Rattle.codes.specs.Codes.{set_of};
ghost use Rattle.codes.specs.Numbers.{lateral_by, armed_by, vertical_by, modes_by};
ghost use Rattle.codes.specs.Poster.{set_numbers};
ghost use Rattle.codes.specs.Private.{set_shown};

pub use modes::row::{NO_CODE, set_code};
use modes::{ArmedLateral, Lateral, ModeSet, Modes, Vertical};

// The sets by their codes: lateral law, vertical law and armed sum, a hexadecimal digit each.
const SHOWN: [u16; 108] = [
    0x000, 0x114, 0x124, 0x134, 0x140, 0x150, 0x160, 0x184, 0x115, 0x125, 0x135, 0x141, 0x151,
    0x161, 0x185, 0x11e, 0x12e, 0x13e, 0x14a, 0x15a, 0x16a, 0x18e, 0x214, 0x224, 0x234, 0x240,
    0x250, 0x260, 0x284, 0x215, 0x225, 0x235, 0x241, 0x251, 0x261, 0x285, 0x21e, 0x22e, 0x23e,
    0x24a, 0x25a, 0x26a, 0x28e, 0x314, 0x324, 0x334, 0x340, 0x350, 0x360, 0x384, 0x31e, 0x32e,
    0x33e, 0x34a, 0x35a, 0x36a, 0x38e, 0x414, 0x41c, 0x424, 0x42c, 0x434, 0x43c, 0x440, 0x448,
    0x450, 0x458, 0x460, 0x468, 0x470, 0x484, 0x48c, 0x415, 0x41d, 0x425, 0x42d, 0x435, 0x43d,
    0x441, 0x449, 0x451, 0x459, 0x461, 0x469, 0x471, 0x485, 0x48d, 0x514, 0x524, 0x534, 0x540,
    0x550, 0x560, 0x584, 0x515, 0x525, 0x535, 0x541, 0x551, 0x561, 0x585, 0x51e, 0x52e, 0x53e,
    0x54a, 0x55a, 0x56a, 0x58e,
];

// The lateral mode of a law; LGA where the number is none's. Here and in the two below any number has a mode, while
// the TryFrom of modes refuses one that is no mode's.
fn lateral_by(n: u64) -> Lateral
    ensures { result ≡ lateral_by n }
{
    match n {
        1 => Lateral::Roll,
        2 => Lateral::Hdg,
        3 => Lateral::Nav,
        4 => Lateral::Lappr,
        _ => Lateral::Lga,
    }
}

// The armed lateral mode of a number: 0 is none, 1 NAV and any other LAPPR.
fn armed_by(n: u64) -> ArmedLateral
    ensures { result ≡ armed_by n }
{
    match n {
        0 => ArmedLateral::Neither,
        1 => ArmedLateral::Nav,
        _ => ArmedLateral::Lappr,
    }
}

// The vertical mode of a law; VGA where the number is none's.
fn vertical_by(n: u64) -> Vertical
    ensures { result ≡ vertical_by n }
{
    match n {
        1 => Vertical::Pitch,
        2 => Vertical::Vs,
        3 => Vertical::Flc,
        4 => Vertical::Alt,
        5 => Vertical::AltselCapture,
        6 => Vertical::AltselTrack,
        7 => Vertical::Vappr,
        _ => Vertical::Vga,
    }
}

// The modes of two laws and of the armed lateral mode's number, with VAPPR armed or not.
pub fn modes_by(lateral: u64, armed: u64, vertical: u64, vappr_armed: bool) -> Modes
    ensures { result ≡ modes_by lateral armed vertical vappr_armed }
{
    Modes {
        lateral: lateral_by(lateral),
        armed: armed_by(armed),
        vertical: vertical_by(vertical),
        vappr_armed,
    }
}

// The set that shows two laws and an armed sum. ALTSEL's part of the sum goes by the vertical mode.
fn set_shown(lateral: u64, vertical: u64, armed: u64) -> ModeSet
    ensures { result ≡ set_shown lateral vertical armed }
{
    match lateral {
        0 => ModeSet::Off,
        _ => ModeSet::On(modes_by(lateral, armed % 4, vertical, 8 <= armed)),
    }
}

// All coherent sets in the order of their codes, Off the first, each as lateral law times 256, plus vertical law times 16,
// plus armed sum.
pub fn set_numbers() -> [u16; 108]
    ensures { result ≡ set_numbers }
{
    SHOWN
}

// The set of a code, from 0 to 107.
pub fn set_of(code: u32) -> Option<ModeSet>
    ensures { result ≡ set_of code }
{
    let digits = u64::from(*SHOWN.get(code as usize)?);
    Some(set_shown(digits / 256, digits / 16 % 16, digits % 16))
}
