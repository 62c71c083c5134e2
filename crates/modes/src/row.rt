// The row of the coherent sets: one table says which sets are coherent and what code each has.
ghost use Rattle.std.specs.Prelude.{◌≡◌};
ghost use Rattle.modes.specs.Row.{code_of};
ghost use Rattle.modes.specs.Private.{place_of};

use crate::{ModeSet, Modes};

// The answer for a set that is not coherent: no set has this code. A frame has a code byte for any set, so this is a
// number as the codes are.
pub const NO_CODE: u32 = 108;

// The code of each On set. In a line the vertical modes follow each other, each without VAPPR armed and then with it.
const CODES: [u8; 240] = [
    1, 108, 2, 108, 3, 108, 4, 108, 5, 108, 6, 108, 108, 108, 7, 108, // ROLL, none armed
    8, 108, 9, 108, 10, 108, 11, 108, 12, 108, 13, 108, 108, 108, 14, 108, // ROLL, NAV armed
    108, 15, 108, 16, 108, 17, 108, 18, 108, 19, 108, 20, 108, 108, 108, 21, // ROLL, LAPPR armed
    22, 108, 23, 108, 24, 108, 25, 108, 26, 108, 27, 108, 108, 108, 28, 108, // HDG, none armed
    29, 108, 30, 108, 31, 108, 32, 108, 33, 108, 34, 108, 108, 108, 35, 108, // HDG, NAV armed
    108, 36, 108, 37, 108, 38, 108, 39, 108, 40, 108, 41, 108, 108, 108, 42, // HDG, LAPPR armed
    43, 108, 44, 108, 45, 108, 46, 108, 47, 108, 48, 108, 108, 108, 49, 108, // NAV, none armed
    108, 108, 108, 108, 108, 108, 108, 108, 108, 108, 108, 108, 108, 108, 108, 108, // NAV, NAV armed
    108, 50, 108, 51, 108, 52, 108, 53, 108, 54, 108, 55, 108, 108, 108, 56, // NAV, LAPPR armed
    57, 58, 59, 60, 61, 62, 63, 64, 65, 66, 67, 68, 69, 108, 70, 71, // LAPPR, none armed
    72, 73, 74, 75, 76, 77, 78, 79, 80, 81, 82, 83, 84, 108, 85, 86, // LAPPR, NAV armed
    108, 108, 108, 108, 108, 108, 108, 108, 108, 108, 108, 108, 108, 108, 108, 108, // LAPPR, LAPPR armed
    87, 108, 88, 108, 89, 108, 90, 108, 91, 108, 92, 108, 108, 108, 93, 108, // LGA, none armed
    94, 108, 95, 108, 96, 108, 97, 108, 98, 108, 99, 108, 108, 108, 100, 108, // LGA, NAV armed
    108, 101, 108, 102, 108, 103, 108, 104, 108, 105, 108, 106, 108, 108, 108, 107, // LGA, LAPPR armed
];

// The place of an On set in CODES.
fn place_of(m: Modes) -> usize
    ensures { result ≡ place_of m }
{
    ((m.lateral as usize * 3 + m.armed as usize) * 8 + m.vertical as usize) * 2
        + usize::from(m.vappr_armed)
}

// The code of an On set.
#[tactic(auto, using(crate::proofs::Joins::code_agrees))]
pub fn modes_code(m: Modes) -> u32
    ensures { result ≡ code_of (ModeSet.On m) }
{
    u32::from(CODES[place_of(m)])
}

// The code of a set, from 0 to 107; 108 where the set is not coherent.
#[tactic(auto, using(crate::proofs::Joins::off_code))]
pub fn set_code(s: ModeSet) -> u32
    ensures { result ≡ code_of s }
{
    match s {
        ModeSet::Off => 0,
        ModeSet::On(m) => modes_code(m),
    }
}
