// Lists of calls that the code makes, with the claim over them: on any bench, and from a start, with the laws that the
// picker names for either side after them.
#![tactic(auto)]

ghost use Rattle.std.specs.Prelude.{◌≡◌, true, false, ◌++◌, length, drop};
ghost use Rattle.bench.specs.Holds.{started};
ghost use Rattle.bench.specs.Sound.{sound};
ghost use Rattle.claim.specs.Lists.{after, replies};
ghost use Rattle.claim.specs.Claim.{Claim, ClaimFrom, Refused};
ghost use Rattle.replay.specs.Made.{made};
ghost use Rattle.replay.specs.Flights.{flight, PageTwelve};

use bench::Bench;
use bench::call::Call;
use calls::reply::Reply;
use calls::sound::{JudgedBench, SoundStart};
use guidance::Laws;
use refusals::Refusal;

// Makes calls one after the other, each on the bench that the one before it left, and puts the answer of each into its
// place.
fn make(b: &mut JudgedBench, calls: &[Call], answers: &mut [Result<Reply, Refusal>])
    ensures bench { b.new ≡ after b.old (made calls.now answers.old) }
    ensures answers { answers.new ≡ replies b.old (made calls.now answers.old) ++ drop (length calls.now) answers.old }
{
    let count = calls.len().min(answers.len());
    for i in 0..count {
        answers[i] = b.apply(calls[i]);
    }
}

// Makes calls on any bench, which is judged once. Calls that have no place for their answer are not made, and places that
// have no call stay.
pub fn run(b: &mut Bench, calls: &[Call], answers: &mut [Result<Reply, Refusal>])
    ensures bench { b.new ≡ after b.old (made calls.now answers.old) }
    ensures answers { answers.new ≡ replies b.old (made calls.now answers.old) ++ drop (length calls.now) answers.old }

    // what demand 3 claims of a list, from any sound bench, and what becomes of a list on any other
    ensures from_sound { sound b.old ≡ true → ClaimFrom b.old (made calls.now answers.old) }
    ensures from_unsound { sound b.old ≡ false → Refused b.old (made calls.now answers.old) }
{
    let mut judged = JudgedBench::of(*b);
    make(&mut judged, calls, answers);
    *b = *judged.bench();
}

// A start and the calls after it: whether the start was accepted, the bench in the end, and what the picker then answers
// for either side.
#[derive(Clone, Copy)]
pub struct Flight {
    pub started: Result<(), Refusal>,
    pub bench: Bench,
    pub left: Result<Laws, Refusal>,
    pub right: Result<Laws, Refusal>,
}

// Starts at a speed in knots and makes the calls, as `run` does. A refused start gives the default bench, and the calls go
// on from there.
#[tactic(auto, unfolding(crate::specs::Flights::flight))]
pub fn fly(speed: i32, calls: &[Call], answers: &mut [Result<Reply, Refusal>]) -> Flight
    // the laws that are picked are laws that the aircraft model can fly
    ensures page_twelve { PageTwelve result }

    ensures flight { result ≡ flight speed (made calls.now answers.old) }
    ensures answers { answers.new ≡ replies (started speed).bench (made calls.now answers.old) ++ drop (length calls.now) answers.old }

    // demand 3, which means by power-on the start that was made
    ensures demand_3 { Claim (started speed).bench (made calls.now answers.old) }
{
    let start = SoundStart::at(speed);
    let started = start.outcome;
    let mut judged = JudgedBench::from(start.bench);
    make(&mut judged, calls, answers);
    let bench = *judged.bench();
    Flight {
        started,
        bench,
        left: guidance::pick(&bench, 0),
        right: guidance::pick(&bench, 1),
    }
}
