// Two forms of numbers that programs need to read and write them: a float by its bit pattern, and a
// signed number by its magnitude.
#![tactic(auto)]

ghost use Rattle.std.specs.Prelude.{◌≡◌, nat_abs};
ghost use Rattle.std.specs.Float.Ieee.{of_bits};
ghost use Rattle.std.specs.Float.{binary64};

// The float of a bit pattern. Every NaN's pattern gives a NaN: the language defines `from_bits`
// only off those.
#[tactic(auto, using(crate::proofs::Patterns::pattern_above, crate::proofs::Patterns::pattern_not_above))]
pub fn from_pattern(bits: u64) -> f64
    ensures { result ≡ of_bits binary64 bits }
{
    if 0x7ff0_0000_0000_0000 < bits % 0x8000_0000_0000_0000 {
        return f64::NAN;
    }
    f64::from_bits(bits)
}

// A number without its sign.
pub fn magnitude(x: i32) -> u64
    ensures { result ≡ nat_abs x }
{
    u64::from(x.unsigned_abs())
}
