// The poster: a line for each set code, 0 to 107, with the code, the lateral law, the armed sum and the vertical law. It
// prints from the list of numbers that `codes` hands out, and reads nothing.
#![tactic(auto)]

ghost use Rattle.std.specs.Prelude.{◌≡◌};
ghost use Rattle.codes.specs.Poster.{number_at, lateral_in, armed_sum_in, vertical_in};

use std::io;

fn lateral_in(number: u64) -> u64
    ensures { result ≡ lateral_in number }
{
    number / 256
}

fn armed_sum_in(number: u64) -> u64
    ensures { result ≡ armed_sum_in number }
{
    number % 16
}

fn vertical_in(number: u64) -> u64
    ensures { result ≡ vertical_in number }
{
    number / 16 % 16
}

// The line of a code, from its number in the list.
fn print_line(rt: &impl Print, code: usize, number: u64) -> io::Result<()>
    requires { number ≡ number_at code }
{
    let lateral = lateral_in(number);
    let armed_sum = armed_sum_in(number);
    let vertical = vertical_in(number);
    println!(rt; "{code} {lateral} {armed_sum} {vertical}")
}

fn main(rt: HostRuntime) -> io::Result<()> {
    let numbers = codes::set_numbers();
    for (code, number) in numbers.iter().enumerate() {
        print_line(&rt, code, u64::from(*number))?;
    }
    Ok(())
}
