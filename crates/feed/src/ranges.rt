// Ranges of numbers: whether a number lies within one, and what is brought to its ends.
ghost use Rattle.std.specs.Prelude.{◌≡◌, ◌+ℤ◌};
ghost use Rattle.feed.specs.Ranges.{within, clamped};

// The integers from low to high, both included.
#[derive(Clone, Copy)]
pub struct Range {
    pub low: i32,
    pub high: i32,
}

// Whether a number lies within a range.
pub fn is_within(range: Range, x: i32) -> bool
    ensures { result ≡ within range x }
{
    (range.low..=range.high).contains(&x)
}

// The sum of two numbers, brought to the nearer end of a range where it lies outside.
pub fn clamped_sum(range: Range, x: i32, amount: i32) -> i32
    ensures { result ≡ clamped range (x +ℤ amount) }
{
    rotation::clamp_add(x, amount, range.low, range.high)
}
