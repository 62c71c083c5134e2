// What a command of a script does to the bench, and what it answers.
#![tactic(auto)]

mod damage;

ghost use Rattle.std.specs.Prelude.{◌≡◌};
ghost use Rattle.acts.specs.Acts.{clicked, effect_of, answer_to, bench_after};

use bench::Bench;
use bench::call::Call;
use calls::reply::Reply;
use calls::sound::{JudgedBench, SoundStart};
use channels::knobs::Knob;
use refusals::Refusal;
use scripts::{AreaAct, Command, Mistake};

// The turn of a knob by so many clicks, modulo 256, from its last count.
fn clicked(b: &Bench, knob: Knob, clicks: u8) -> Call
    ensures { result ≡ clicked knob clicks b.now }
{
    Call::Turn(knob.number(), b.counts.get(knob).wrapping_add(clicks))
}

// What a command is for, beside its answer: it shows something, it can change the bench, it turns the watch on
// or off, or it changes the bus area.
#[derive(Clone, Copy)]
pub enum Effect {
    Shows,
    Acts,
    Watches(bool),
    Stores(AreaAct),
}

// A line that is wrong shows what is wrong.
pub fn effect_of(asked: Result<Command, Mistake>) -> Effect
    ensures { result ≡ effect_of asked }
{
    let Ok(command) = asked else {
        return Effect::Shows;
    };
    match command {
        Command::Blank
        | Command::Call(Call::Display(_))
        | Command::Pick(_)
        | Command::Bench
        | Command::Panel
        | Command::Help
        | Command::Read(_)
        | Command::Bytes
        | Command::Codes => Effect::Shows,
        Command::Call(_)
        | Command::Knob(_, _)
        | Command::PowerOn
        | Command::Start(_)
        | Command::DamagePf(_)
        | Command::DamageReading(_)
        | Command::DamageWhole(_, _)
        | Command::DamageSet(_, _)
        | Command::DamageReference(_, _, _)
        | Command::DamageIndependent(_) => Effect::Acts,
        Command::Watch(on) => Effect::Watches(on),
        Command::Area(n) => Effect::Stores(AreaAct::Clears(n)),
        Command::Poke(start) => Effect::Stores(AreaAct::Pokes(start)),
        Command::Write(side, start) => Effect::Stores(AreaAct::Writes(side, start)),
    }
}

// Carries out a command on the bench, and answers what it came to. What only shows is asked for where its line is
// written, and the bus area is no part of the bench.
#[tactic(auto, unfolding(crate::specs::Acts::answer_to, crate::specs::Acts::bench_after))]
pub fn answer_to(b: &mut JudgedBench, asked: Result<Command, Mistake>) -> Result<Reply, Refusal>
    ensures answer { result ≡ answer_to asked b.old }
    ensures bench { b.new ≡ bench_after asked b.old }
{
    let Ok(command) = asked else {
        return Ok(Reply::Done);
    };
    match command {
        Command::Call(call) => return b.apply(call),
        Command::Knob(knob, clicks) => {
            let turn = clicked(b.bench(), knob, clicks);
            return b.apply(turn);
        }
        Command::Start(speed) => {
            let start = SoundStart::at(speed);
            *b = JudgedBench::from(start.bench);
            return start.outcome.and(Ok(Reply::Done));
        }
        Command::PowerOn => *b = JudgedBench::from(calls::sound::power_on()),
        Command::DamagePf(n) => damage::pf(b, n),
        Command::DamageReading(r) => damage::reading(b, r),
        Command::DamageWhole(kind, x) => damage::whole(b, kind, x),
        Command::DamageSet(part, set) => damage::set(b, part, set),
        Command::DamageReference(part, name, x) => damage::reference(b, part, name, x),
        Command::DamageIndependent(on) => damage::independent(b, on),
        Command::Blank
        | Command::Pick(_)
        | Command::Bench
        | Command::Panel
        | Command::Help
        | Command::Watch(_)
        | Command::Area(_)
        | Command::Poke(_)
        | Command::Write(_, _)
        | Command::Read(_)
        | Command::Bytes
        | Command::Codes => {}
    }
    Ok(Reply::Done)
}
