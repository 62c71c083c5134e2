// Runs the leaves over the floats of patterns.rt and over all pairs of counts, and writes what they
// answer. The file stdout beside src/ holds what they must answer; tests/vectors made both.
#![tactic(auto)]

mod patterns;

use patterns::PATTERNS;
use rounding::NoWhole;
use std::io;

// A line for a bit pattern: the pattern, and what its float rounds to.
fn print_rounded(rt: &impl Print, bits: u64) -> io::Result<()> {
    match rounding::whole_value(number_forms::from_pattern(bits)) {
        Ok(whole) => println!(rt; "{bits:016x} {whole}"),
        Err(NoWhole::NotFinite) => println!(rt; "{bits:016x} not-finite"),
        Err(NoWhole::Beyond) => println!(rt; "{bits:016x} beyond"),
    }
}

// A line for an old count: the rotation to each new count.
fn print_rotations(rt: &impl Print, old: u8) -> io::Result<()> {
    print!(rt; "{}", rotation::rotation(old, 0))?;
    for new in 1..=255u8 {
        print!(rt; " {}", rotation::rotation(old, new))?;
    }
    println!(rt)
}

fn main(rt: HostRuntime) -> io::Result<()> {
    for bits in PATTERNS {
        print_rounded(&rt, bits)?;
    }
    for old in 0..=255u8 {
        print_rotations(&rt, old)?;
    }
    Ok(())
}
