// Makes a pseudo-random list of calls on one bench from power-on, and writes a checksum of all the
// answers and of the bench at the end; or a list of frames that are written, or read, in one bus area.
// tests/baseline makes the same lists and measures both.
//
// Arguments, in decimal: a seed; how many calls; a kind of call, 6 for a mixed list, 7 for writes of
// frames or 8 for reads; and 1, or 0 to make the list and its sum without the calls, which is the time
// that the calls do not take. With 2 the calls are those of a bench that is known to be sound.
#![tactic(auto)]

mod bus;
mod checksum;
mod list;

use bench::Bench;
use bench::call::Call;
use calls::reply::Reply;
use calls::sound::SoundBench;
use checksum::Sum;
use refusals::Refusal;
use std::io;
use std::rt::Env;

// A bench that a list of calls is made on.
trait Called {
    fn make(&mut self, call: Call) -> Result<Reply, Refusal>;

    fn left(&self) -> Bench;
}

impl Called for Bench {
    #[inline(always)]
    fn make(&mut self, call: Call) -> Result<Reply, Refusal> {
        calls::apply(self, call)
    }

    fn left(&self) -> Bench {
        *self
    }
}

impl Called for SoundBench {
    #[inline(always)]
    fn make(&mut self, call: Call) -> Result<Reply, Refusal> {
        self.apply(call)
    }

    fn left(&self) -> Bench {
        *self.bench()
    }
}

// The bench after some calls, and the checksum of their arguments and answers.
#[derive(Drop)]
struct Run<B> {
    bench: B,
    sum: Sum,
}

impl<B: Called + Drop> Run<B> {
    // One more call. Where LIVE is false no call is made, here and below.
    fn step<const LIVE: bool>(&mut self, call: Call) {
        self.sum = self.sum.with_call(call);
        if !LIVE {
            self.sum = self.sum.with_no_answer(call);
            return;
        }
        let answer = self.bench.make(call);
        self.sum = self.sum.with_answer(call, answer);
    }
}

// The whole list, from its first bench. Answers the checksum, with the bench at the end in it. The kind of
// each call is in the sum too.
fn run_list<B: Called + Drop, const LIVE: bool>(
    bench: B,
    seed: u64,
    calls: u64,
    chosen: u64,
) -> Sum {
    let mut run = Run { bench, sum: Sum(0) };
    let mut word = list::first(seed);
    for left in (1..=calls).rev() {
        let kind = list::kind(word, left, chosen);
        run.sum = Sum(run.sum.0 ^ (kind << 60));
        run.step::<LIVE>(list::call_of(kind, word));
        word = list::shuffled(word);
    }
    run.sum.with_bench(run.bench.left())
}

// One more digit of a number in decimal. What is no digit is passed over, and so is what would
// make the number larger than 64 bits hold.
// u64's parse would refuse what is passed over here.
fn with_digit(value: u64, digit: u8) -> u64 {
    if 100000000000000000 < value {
        return value;
    }
    match digit {
        b'0'..=b'9' => value * 10 + u64::from(digit - b'0'),
        _ => value,
    }
}

// An argument as the number that its digits make; 0 where it is missing or has more than 20 bytes.
fn argument(rt: &impl Env, i: usize) -> u64 {
    // the library writes an argument into a buffer that it is lent, and says how much
    let mut text = [0u8; 20];
    match rt.arg(i, &mut text) {
        Ok(n) => text[..n]
            .iter()
            .fold(0, |value, digit| with_digit(value, *digit)),
        Err(_) => 0,
    }
}

// The checksum of a list of calls, or of frames.
fn sum_of<const LIVE: bool>(seed: u64, calls: u64, chosen: u64) -> Sum {
    match chosen {
        7 => bus::write_list::<LIVE>(seed, calls),
        8 => bus::read_list::<LIVE>(seed, calls),
        _ => run_list::<Bench, LIVE>(bench::starts::power_on(), seed, calls, chosen),
    }
}

// Runs the list that the arguments name, and writes its checksum.
fn main(rt: HostRuntime) -> io::Result<()> {
    let seed = argument(&rt, 1);
    let calls = argument(&rt, 2);
    let chosen = argument(&rt, 3);
    let Sum(sum) = match argument(&rt, 4) {
        1 => sum_of::<true>(seed, calls, chosen),
        2 => run_list::<SoundBench, true>(calls::sound::power_on(), seed, calls, chosen),
        _ => sum_of::<false>(seed, calls, chosen),
    };
    println!(rt; "{sum}")
}
