// The calls of a bench. Each takes any bench and any arguments, and answers: an unsound bench is refused with 1 first,
// then what the papers name for the call. An accepted call changes the bench where it lies, and a refused one leaves it.
// Here numbers become sides, knobs and events; nothing below takes a number for one. `sound` has the calls of a bench
// that is known to be sound.
#![tactic(auto)]

mod judged;
pub mod reply;
mod shows;
pub mod sound;

ghost use Rattle.std.specs.Prelude.{◌≡◌, cond, Ok, Err};
ghost use Rattle.refusals.specs.declared.Refusal.{Refusal};
ghost use Rattle.bench.specs.declared.call.Call.{Call};
ghost use Rattle.bench.specs.Sound.{sound};
ghost use Rattle.rules.specs.Calls.{verdict, next};
ghost use Rattle.calls.specs.Answers.{event_answer, display_answer, reply};

use bench::Bench;
use bench::call::Call;
use feed::Reading;
use refusals::Refusal;
use reply::{Display, Reply};

// Refusal 1 goes before every other.
fn judge(b: &Bench) -> Result<(), Refusal>
    ensures { result ≡ cond (sound b.now) (Ok tt) (Err Refusal.UnsoundBench) }
{
    if b.is_sound() {
        Ok(())
    } else {
        Err(Refusal::UnsoundBench)
    }
}

// An event word: its lowest set bit names the event, and the answer is that event's number, or 32 where no bit is set.
#[tactic(auto, unfolding(rules::specs::Calls::granted, rules::specs::Calls::next))]
pub fn event(b: &mut Bench, word: u32) -> Result<u32, Refusal>
    ensures answer { result ≡ event_answer b.old word }
    ensures bench { b.new ≡ next b.old (Call.Event word) }
{
    judge(b)?;
    judged::event(b, word)
}

// A knob's new count.
#[tactic(auto, unfolding(rules::specs::Calls::granted, rules::specs::Calls::next))]
pub fn turn(b: &mut Bench, knob: u32, new: u8) -> Result<(), Refusal>
    ensures answer { result ≡ verdict b.old (Call.Turn knob new) }
    ensures bench { b.new ≡ next b.old (Call.Turn knob new) }
{
    judge(b)?;
    judged::turn(b, knob, new)
}

// A reading of the air data feed: its float and its whole value take the place of the last ones of its kind.
#[tactic(auto, unfolding(rules::specs::Calls::granted, rules::specs::Calls::next))]
pub fn reading(b: &mut Bench, r: Reading) -> Result<(), Refusal>
    ensures answer { result ≡ verdict b.old (Call.Reading r) }
    ensures bench { b.new ≡ next b.old (Call.Reading r) }
{
    judge(b)?;
    judged::reading(b, r)
}

// What a side holds goes to the other side's inbox.
#[tactic(auto, unfolding(rules::specs::Calls::granted, rules::specs::Calls::next))]
pub fn send(b: &mut Bench, side: u32) -> Result<(), Refusal>
    ensures answer { result ≡ verdict b.old (Call.Send side) }
    ensures bench { b.new ≡ next b.old (Call.Send side) }
{
    judge(b)?;
    judged::send(b, side)
}

// A side that does not act takes over what was sent to it last; one that acts applies the On rule.
#[tactic(auto, unfolding(rules::specs::Calls::granted, rules::specs::Calls::next))]
pub fn refresh(b: &mut Bench, side: u32) -> Result<(), Refusal>
    ensures answer { result ≡ verdict b.old (Call.Refresh side) }
    ensures bench { b.new ≡ next b.old (Call.Refresh side) }
{
    judge(b)?;
    judged::refresh(b, side)
}

// What a side shows.
pub fn display(b: &Bench, side: u32) -> Result<Display, Refusal>
    ensures { result ≡ display_answer b.now side }
{
    judge(b)?;
    judged::display(b, side)
}

// A call that is data.
#[tactic(auto, unfolding(rules::specs::Calls::granted, rules::specs::Calls::next))]
pub fn apply(b: &mut Bench, call: Call) -> Result<Reply, Refusal>
    ensures answer { result ≡ reply b.old call }
    ensures bench { b.new ≡ next b.old call }
{
    judge(b)?;
    judged::apply(b, call)
}
