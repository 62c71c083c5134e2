// A bench that is known to be sound: a start's, or one that was judged once. Its calls judge only their own arguments.
ghost use Rattle.std.specs.Prelude.{◌≡◌, true, cond, Ok, Err};
ghost use Rattle.bench.specs.declared.Bench.{Bench};
ghost use Rattle.bench.specs.Holds.{power_on};
ghost use Rattle.bench.specs.Sound.{sound};

use crate::judged;
use crate::reply::{Display, Reply};
use bench::Bench;
use bench::call::Call;
use feed::Reading;
use refusals::Refusal;
use std::marker::Model;

#[derive(Clone, Copy)]
pub struct SoundBench {
    bench: Bench,
}

impl Model for SoundBench {
    ghost Value = { Bench };

    ghost view = { λ s. s.bench };

    ghost inverse = { λ b. record { bench = b } };

    ghost invariant = { λ s. sound s.bench ≡ true };
}

impl SoundBench {
    ghost use Rattle.refusals.specs.declared.Refusal.{Refusal};
    ghost use Rattle.bench.specs.declared.call.Call.{Call};
    ghost use Rattle.rules.specs.Calls.{verdict, next};
    ghost use Rattle.calls.specs.Answers.{event_answer, display_answer, reply};

    // Refusal 1 where the bench is not sound.
    pub fn judge(b: Bench) -> Result<SoundBench, Refusal>
        ensures { result ≡ cond (sound b) (Ok b) (Err Refusal.UnsoundBench) }
    {
        if b.is_sound() {
            Ok(SoundBench { bench: b })
        } else {
            Err(Refusal::UnsoundBench)
        }
    }

    pub fn bench(&self) -> &Bench
        ensures { result.now ≡ self.now }
    {
        &self.bench
    }

    // The six calls, which answer and leave what those over any bench do.
    #[tactic(auto, unfolding(rules::specs::Calls::granted, rules::specs::Calls::next))]
    pub fn event(&mut self, word: u32) -> Result<u32, Refusal>
        ensures answer { result ≡ event_answer self.old word }
        ensures bench { self.new ≡ next self.old (Call.Event word) }
    {
        judged::event(&mut self.bench, word)
    }

    #[tactic(auto, unfolding(rules::specs::Calls::granted, rules::specs::Calls::next))]
    pub fn turn(&mut self, knob: u32, new: u8) -> Result<(), Refusal>
        ensures answer { result ≡ verdict self.old (Call.Turn knob new) }
        ensures bench { self.new ≡ next self.old (Call.Turn knob new) }
    {
        judged::turn(&mut self.bench, knob, new)
    }

    #[tactic(auto, unfolding(rules::specs::Calls::granted, rules::specs::Calls::next))]
    pub fn reading(&mut self, r: Reading) -> Result<(), Refusal>
        ensures answer { result ≡ verdict self.old (Call.Reading r) }
        ensures bench { self.new ≡ next self.old (Call.Reading r) }
    {
        judged::reading(&mut self.bench, r)
    }

    #[tactic(auto, unfolding(rules::specs::Calls::granted, rules::specs::Calls::next))]
    pub fn send(&mut self, side: u32) -> Result<(), Refusal>
        ensures answer { result ≡ verdict self.old (Call.Send side) }
        ensures bench { self.new ≡ next self.old (Call.Send side) }
    {
        judged::send(&mut self.bench, side)
    }

    #[tactic(auto, unfolding(rules::specs::Calls::granted, rules::specs::Calls::next))]
    pub fn refresh(&mut self, side: u32) -> Result<(), Refusal>
        ensures answer { result ≡ verdict self.old (Call.Refresh side) }
        ensures bench { self.new ≡ next self.old (Call.Refresh side) }
    {
        judged::refresh(&mut self.bench, side)
    }

    pub fn display(&self, side: u32) -> Result<Display, Refusal>
        ensures { result ≡ display_answer self.now side }
    {
        judged::display(&self.bench, side)
    }

    // A call that is data.
    #[tactic(auto, unfolding(rules::specs::Calls::granted, rules::specs::Calls::next))]
    pub fn apply(&mut self, call: Call) -> Result<Reply, Refusal>
        ensures answer { result ≡ reply self.old call }
        ensures bench { self.new ≡ next self.old call }
    {
        judged::apply(&mut self.bench, call)
    }
}

// A start that names its speed, as `bench::starts::start`: either way it gives a sound bench.
#[derive(Clone, Copy)]
pub struct SoundStart {
    pub outcome: Result<(), Refusal>,
    pub bench: SoundBench,
}

impl SoundStart {
    ghost use Rattle.calls.specs.Starts.{sound_started};

    // At a speed in knots. One that is refused gives the default bench.
    pub fn at(speed: i32) -> SoundStart
        ensures { result ≡ sound_started speed }
    {
        let start = bench::starts::start(speed);
        SoundStart {
            outcome: start.outcome,
            bench: SoundBench { bench: start.bench },
        }
    }
}

// The bench at power-on.
pub fn power_on() -> SoundBench
    ensures { result ≡ power_on }
{
    SoundBench {
        bench: bench::starts::power_on(),
    }
}

// Any bench, judged once, when it was put here: its calls judge it no more.
#[derive(Clone, Copy)]
pub struct JudgedBench {
    bench: Bench,
    is_sound: bool,
}

impl Model for JudgedBench {
    ghost use Rattle.std.specs.Prelude.{◌≡◌};
    ghost use Rattle.std.proofs.Common.{sym};
    ghost use Rattle.bench.specs.declared.Bench.{Bench};
    ghost use Rattle.bench.specs.Sound.{sound};

    ghost Value = { Bench };

    ghost view = { λ j. j.bench };

    ghost inverse = { λ b. record { bench = b; is_sound = sound b } };

    ghost invariant = { λ j. j.is_sound ≡ sound j.bench };

    ghost inverse_ok = { λ j h i. record { bench = j.bench; is_sound = sym h i } };
}

impl From<SoundBench> for JudgedBench {
    ghost from_gives = { λ known judged. judged ≡ known };

    fn from(known: SoundBench) -> JudgedBench {
        JudgedBench {
            bench: known.bench,
            is_sound: true,
        }
    }
}

impl JudgedBench {
    ghost use Rattle.bench.specs.declared.call.Call.{Call};
    ghost use Rattle.rules.specs.Calls.{next};
    ghost use Rattle.calls.specs.Answers.{reply};

    pub fn of(bench: Bench) -> JudgedBench
        ensures { result ≡ bench }
    {
        JudgedBench {
            is_sound: bench.is_sound(),
            bench,
        }
    }

    pub fn bench(&self) -> &Bench
        ensures { result.now ≡ self.now }
    {
        &self.bench
    }

    // A call that is data. An unsound bench refuses it with 1.
    #[tactic(auto, unfolding(rules::specs::Calls::granted, rules::specs::Calls::next))]
    pub fn apply(&mut self, call: Call) -> Result<Reply, Refusal>
        ensures answer { result ≡ reply self.old call }
        ensures bench { self.new ≡ next self.old call }
    {
        if self.is_sound {
            judged::apply(&mut self.bench, call)
        } else {
            Err(Refusal::UnsoundBench)
        }
    }
}
