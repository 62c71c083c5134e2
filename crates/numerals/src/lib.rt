// Numbers as a script writes them. A word is a slice of bytes, and is read as a number, as clicks, as pairs of
// hexadecimal digits, as a signed number or as a float. specs/Numbers, Pairs, Integers and Values say what
// is read as what, specs/Examples gives words, and specs/Private has what only the private functions promise.
#![tactic(auto)]

ghost use Rattle.std.specs.Prelude.{◌≡◌, ◌^◌, ◌≤◌, false};
ghost use Rattle.std.specs.Float.{binary64};
ghost use Rattle.std.specs.Float.Ieee.{round};
ghost use Rattle.rounding.specs.Whole.{signed_of};
ghost use Rattle.numerals.specs.Digits.{all_digits};
ghost use Rattle.numerals.specs.Numbers.{number_in, clicks_in};
ghost use Rattle.numerals.specs.Pairs.{are_pairs, pair_byte, pair_bytes, laid_over};
ghost use Rattle.numerals.specs.Integers.{signed_in};
ghost use Rattle.numerals.specs.Words.{has_minus, unsigned};
ghost use Rattle.numerals.specs.Values.{name_of, pattern_of, decimal_as, value_in};
ghost use Rattle.numerals.specs.Private.{base_number, digit_in, step, read_on, whole_decimal, fraction_of, pointed_of};

// The largest number of 15 digits.
const LARGEST: u64 = 999_999_999_999_999;

// The bases that specs/Digits knows the digits of.
#[derive(Clone, Copy)]
enum Base {
    Ten = 10,
    Sixteen = 16,
}

impl From<Base> for u32 {
    ghost from_gives = { λ base number. number ≡ base_number base };

    fn from(base: Base) -> u32 {
        base as u32
    }
}

// The digit of a base that a byte is, of either case.
fn digit(b: u8, base: Base) -> Option<u32>
    ensures { result ≡ digit_in (base_number base) b }
{
    char::from(b).to_digit(u32::from(base))
}

// The number v with one digit more behind it, of at most `most`.
fn one_more(base: Base, v: u64, b: u8, most: u64) -> Option<u64>
    ensures { result ≡ step (base_number base) most v b }
{
    let d = digit(b, base)?;
    let next = v
        .checked_mul(u64::from(u32::from(base)))?
        .checked_add(u64::from(d))?;
    (next <= most).then_some(next)
}

// The number `start` with the digits w behind it, of at most `most`.
fn digits_from(base: Base, start: u64, w: &[u8], most: u64) -> Option<u64>
    ensures { result ≡ read_on (base_number base) most start w.now }
{
    let mut v = start;
    for b in w {
        v = one_more(base, v, *b, most)?;
    }
    Some(v)
}

// A number of at most `most`, which 64 bits hold: one or more digits and nothing else.
#[tactic(auto, using(crate::proofs::Numerals::empty_is, crate::proofs::Numerals::digits_are))]
pub fn wide_number(w: &[u8], most: u64) -> Option<u64>
    ensures { result ≡ number_in most w.now }
{
    if w.is_empty() {
        return None;
    }
    digits_from(Base::Ten, 0, w, most)
}

// A number of at most `most`, which 32 bits hold.
#[tactic(auto, using(crate::proofs::Numerals::number_fits))]
pub fn number(w: &[u8], most: u32) -> Option<u32>
    ensures { result ≡ number_in most w.now }
{
    let n = wide_number(w, u64::from(most))?;
    Some(n as u32)
}

// Whether every byte is a hexadecimal digit.
fn all_hexadecimal(w: &[u8]) -> bool
    ensures { result ≡ all_digits 16 w.now }
{
    w.iter().all(|b| digit(*b, Base::Sixteen).is_some())
}

// Whether a word is one or more pairs of hexadecimal digits and nothing else.
#[tactic(auto, using(crate::proofs::Pairs::empty_pairs, crate::proofs::Pairs::odd_pairs, crate::proofs::Pairs::even_pairs))]
pub fn are_pairs(w: &[u8]) -> bool
    ensures { result ≡ are_pairs w.now }
{
    if w.is_empty() || w.len() % 2 == 1 {
        return false;
    }
    all_hexadecimal(w)
}

// The byte of two digits.
// A byte that is no digit counts 16: `put_pairs` has a value for every word.
#[tactic(auto, using(crate::proofs::Pairs::or_sixteen, crate::proofs::Pairs::within_sixteen))]
fn pair(high: u8, low: u8) -> u8
    ensures { result ≡ pair_byte high low }
{
    let high = digit(high, Base::Sixteen).unwrap_or(16);
    let low = digit(low, Base::Sixteen).unwrap_or(16);
    ((high * 16 + low) % 256) as u8
}

// Writes the bytes of a word of pairs over the first bytes of the target, as many as both have.
// No `zip`: after a loop over one, a proof does not know what was written through `iter_mut`.
pub fn put_pairs(w: &[u8], target: &mut [u8])
    ensures { target.new ≡ laid_over (pair_bytes w.now) target.old }
{
    let mut pairs = w.chunks_exact(2);
    for t in target.iter_mut() {
        let Some(p) = pairs.next() else {
            return;
        };
        *t = pair(p[0], p[1]);
    }
}

// Whether a word begins with '-'.
fn has_minus(w: &[u8]) -> bool
    ensures { result ≡ has_minus w.now }
{
    w.starts_with(b"-")
}

// A word without its '-'.
fn unsigned(w: &[u8]) -> &[u8]
    ensures { result.now ≡ unsigned w.now }
{
    w.strip_prefix(b"-").unwrap_or(w)
}

// A number with its sign, at the wider type, where 2147483648 can be negated.
fn with_sign(minus: bool, n: u32) -> i64
    ensures { result ≡ signed_of minus n }
{
    let size = i64::from(n);
    if minus { -size } else { size }
}

// A signed number.
pub fn signed(w: &[u8]) -> Option<i32>
    ensures { result ≡ signed_in w.now }
{
    let size = number(unsigned(w), 2147483648)?;
    i32::try_from(with_sign(has_minus(w), size)).ok()
}

// The clicks of a knob, from -128 to 127, modulo 256: what they add to its count.
#[tactic(auto, using(crate::proofs::Numerals::number_fits), unfolding(crate::specs::Numbers::clicks_in))]
pub fn clicks(w: &[u8]) -> Option<u8>
    ensures { result ≡ clicks_in w.now }
{
    let size = unsigned(w);
    if has_minus(w) {
        let n = number(size, 128)?;
        return Some((n as u8).wrapping_neg());
    }
    let n = number(size, 127)?;
    Some(n as u8)
}

// The floats that have a name.
fn name(w: &[u8]) -> Option<f64>
    ensures { result ≡ name_of w.now }
{
    match w {
        b"nan" => Some(f64::NAN),
        b"inf" => Some(f64::INFINITY),
        b"-inf" => Some(f64::NEG_INFINITY),
        _ => None,
    }
}

// A float by its bit pattern: 16 digits of base 16 behind '0x'.
fn pattern(w: &[u8]) -> Option<f64>
    ensures { result ≡ pattern_of w.now }
{
    let digits = w.strip_prefix(b"0x")?;
    if digits.len() != 16 {
        return None;
    }
    let bits = digits_from(Base::Sixteen, 0, digits, u64::MAX)?;
    Some(number_forms::from_pattern(bits))
}

// The float nearest to n / 10^k. Both are below 2^53 and so exact, and a division rounds once.
fn quotient(n: u64, k: usize) -> f64
    requires few_digits { n ≤ 999999999999999 }
    requires few_places { k ≤ 15 }
    ensures { result ≡ round binary64 false n (10 ^ k) }
{
    let above = std::num::nearest_u64_to_f64(n);
    let below = std::num::nearest_u64_to_f64(10u64.pow(k as u32));
    above / below
}

// A decimal without a point.
#[tactic(auto, using(crate::proofs::Numerals::number_fits))]
fn whole(w: &[u8]) -> Option<f64>
    ensures { result ≡ whole_decimal w.now }
{
    let n = wide_number(w, LARGEST)?;
    Some(quotient(n, 0))
}

// The number n with the digits w behind its point.
#[tactic(auto, using(crate::proofs::Reading::read_fits), unfolding(crate::specs::Private::fraction_of))]
fn fraction(n: u64, w: &[u8]) -> Option<f64>
    requires { n ≤ 999999999999999 }
    ensures { result ≡ fraction_of n w.now }
{
    let k = w.len();
    if !(1..=15).contains(&k) {
        return None;
    }
    let m = digits_from(Base::Ten, n, w, LARGEST)?;
    Some(quotient(m, k))
}

// A decimal with w before its point and v behind it.
#[tactic(auto, using(crate::proofs::Numerals::number_fits))]
fn pointed(w: &[u8], v: &[u8]) -> Option<f64>
    ensures { result ≡ pointed_of w.now v.now }
{
    let n = wide_number(w, LARGEST)?;
    fraction(n, v)
}

// A decimal without a sign.
fn decimal(w: &[u8]) -> Option<f64>
    ensures { result ≡ decimal_as false w.now }
{
    let Some(p) = w.iter().position(|b| *b == b'.') else {
        return whole(w);
    };
    pointed(&w[..p], &w[p + 1..])
}

// A decimal with or without a '-' in front.
#[tactic(auto, using(crate::proofs::Decimals::negated_is))]
fn signed_decimal(w: &[u8]) -> Option<f64>
    ensures { result ≡ decimal_as (has_minus w.now) (unsigned w.now) }
{
    let size = decimal(unsigned(w))?;
    Some(if has_minus(w) { -size } else { size })
}

// A float: its name, its bit pattern or a decimal.
pub fn value(w: &[u8]) -> Option<f64>
    ensures { result ≡ value_in w.now }
{
    name(w).or_else(|| pattern(w)).or_else(|| signed_decimal(w))
}
