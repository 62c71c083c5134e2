// Knob arithmetic: how far a knob was turned, and what that does to a reference.
#![tactic(auto)]

ghost use Rattle.std.specs.Prelude.{◌≡◌, pos, ◌+ℤ◌, ◌-ℤ◌};
ghost use Rattle.rotation.specs.Rotation.{rotation_of, clamp_of, mod_of};

// The signed rotation from the count `old` to the count `new`, from -128 to 127.
pub fn rotation(old: u8, new: u8) -> i32
    ensures { result ≡ rotation_of old new }
{
    i32::from(new.wrapping_sub(old).cast_signed())
}

// The sum of two numbers at the wider type, where it always fits.
fn wide_sum(x: i32, y: i32) -> i64
    ensures { result ≡ x +ℤ y }
{
    i64::from(x) + i64::from(y)
}

// reference + amount, brought to the nearer end of low to high where it lies outside.
// Any two ends are taken: where low is above high, `clamp` of std has no answer.
pub fn clamp_add(reference: i32, amount: i32, low: i32, high: i32) -> i32
    ensures { result ≡ clamp_of low high (reference +ℤ amount) }
{
    let sum = wide_sum(reference, amount);
    if sum <= i64::from(low) {
        low
    } else if i64::from(high) <= sum {
        high
    } else {
        sum as i32
    }
}

// heading + amount modulo 360, from 0 to 359.
pub fn heading_add(heading: i32, amount: i32) -> i32
    ensures { result ≡ pos (mod_of (heading +ℤ amount) 360) }
{
    wide_sum(heading, amount).rem_euclid(360) as i32
}
