// The whole value of an f64: the integer nearest to its exact value, of two such the even one.
#![tactic(auto)]

ghost use Rattle.std.specs.Prelude.{◌≡◌, ◌^◌, ◌<◌, ◌≤◌};
ghost use Rattle.std.specs.Float.Ieee.{of_bits};
ghost use Rattle.std.specs.Float.{binary64};
ghost use Rattle.std.specs.Float.Ieee.Nearest.{closest};
ghost use Rattle.rounding.specs.Whole.{signed_of, in_answer, whole_of, is_whole};

// Why a float has no whole value.
#[derive(Clone, Copy)]
pub enum NoWhole {
    // An infinity, or a NaN.
    NotFinite,
    // Finite, and the whole value is outside -2147483648 to 2147483647.
    Beyond,
}

// The whole number nearest to digits / 2^places, of two such the even one.
// Binary digits are dropped one at a time. half is whether the last one dropped was 1, rest whether
// one before it was: together they tell a tie from more and from less than a half.
// At most 53 rounds: whole_of_bits answers an exponent below 1022 (a magnitude below one half) and
// one from 1075 on (Beyond) at once, so places is at most 1075 - 1022.
// The bound on digits, 2^53, is that of a float's digits: it keeps the sums from wrapping.
fn nearest(digits: u64, places: u64) -> u64
    requires { digits < 9007199254740992 }
    ensures { result ≡ closest digits (2 ^ places) }
{
    let mut kept = digits;
    let mut half = false;
    let mut rest = false;
    for _ in 0..places {
        rest = half | rest;
        half = kept % 2 == 1;
        kept = kept / 2;
    }
    if half {
        if rest { kept + 1 } else { kept + kept % 2 }
    } else {
        kept
    }
}

// The integer of a magnitude and a sign. A magnitude of a float's digits, at most 2^53, fits i64.
fn signed(negative: bool, magnitude: u64) -> i64
    requires { magnitude ≤ 9007199254740992 }
    ensures { result ≡ signed_of negative magnitude }
{
    let v = magnitude as i64;
    if negative { -v } else { v }
}

// The answer for a whole value, which i32 may not hold.
fn in_answer(value: i64) -> Result<i32, NoWhole>
    ensures { result ≡ in_answer value }
{
    i32::try_from(value).map_err(|_| NoWhole::Beyond)
}

// The whole value of the float that a bit pattern is read as.
#[tactic(auto, using(crate::proofs::Floats::bits_ones, crate::proofs::Floats::bits_large, crate::proofs::Floats::bits_small))]
fn whole_of_bits(bits: u64) -> Result<i32, NoWhole>
    ensures { result ≡ whole_of (of_bits binary64 bits) }
{
    let exponent = bits % 0x8000_0000_0000_0000 / 0x10_0000_0000_0000;
    if exponent == 2047 {
        return Err(NoWhole::NotFinite);
    }
    if 1075 <= exponent {
        return Err(NoWhole::Beyond);
    }
    if exponent < 1022 {
        return Ok(0);
    }
    let digits = 0x10_0000_0000_0000 + bits % 0x10_0000_0000_0000;
    let magnitude = nearest(digits, 1075 - exponent);
    in_answer(signed(0x8000_0000_0000_0000 <= bits, magnitude))
}

// The whole value of x. A NaN has no bit pattern of its own, so it is told first.
#[tactic(auto, using(crate::proofs::Floats::nan_whole, crate::proofs::Floats::float_whole))]
pub fn whole_value(x: f64) -> Result<i32, NoWhole>
    ensures { result ≡ whole_of x }
{
    if x.is_nan() {
        Err(NoWhole::NotFinite)
    } else {
        whole_of_bits(x.to_bits())
    }
}

// 3 * 2^51. Floats between 2^52 and 2^53 lie 1 apart, and so a sum that lies there is rounded to an integer, at a tie to
// the even one; this number is even, so that the sum is even where the integer nearest to the other float is.
const UNITS: f64 = 6755399441055744.0;

// Whether z is the whole value of x. Both sums are exact or rounded to an integer, and no digit is dropped here.
pub fn is_whole_value(x: f64, z: i32) -> bool
    ensures { result ≡ is_whole z (whole_of x) }
{
    x + UNITS == f64::from(z) + UNITS
}
