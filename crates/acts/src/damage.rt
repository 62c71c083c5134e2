// Changes parts of a bench without asking any rule: a way to try refusal 1. The bench is judged anew.
ghost use Rattle.std.specs.Prelude.{◌≡◌};
ghost use Rattle.acts.specs.Damage.{pf_damaged, independent_damaged, set_damaged, reference_damaged, reading_damaged, whole_damaged, held, with_part};

use bench::Bench;
use calls::sound::JudgedBench;
use channels::Channel;
use channels::references::Reference;
use feed::{Kind, Reading};
use modes::ModeSet;
use scripts::Part;

#[tactic(auto, unfolding(crate::specs::Damage::pf_damaged))]
pub(crate) fn pf(b: &mut JudgedBench, n: u32)
    ensures { b.new ≡ pf_damaged n b.old }
{
    let mut bench = *b.bench();
    bench.shared.pf = n;
    *b = JudgedBench::of(bench);
}

#[tactic(auto, unfolding(crate::specs::Damage::independent_damaged))]
pub(crate) fn independent(b: &mut JudgedBench, on: bool)
    ensures { b.new ≡ independent_damaged on b.old }
{
    let mut bench = *b.bench();
    bench.shared.independent = on;
    *b = JudgedBench::of(bench);
}

// What a part of a bench holds.
fn part_of(b: &Bench, part: Part) -> Channel
    ensures { result ≡ held part b.now }
{
    match part {
        Part::Side(side) => b.sides.get(side),
        Part::Inbox(side) => b.inboxes.get(side),
    }
}

fn put(b: &mut JudgedBench, part: Part, channel: Channel)
    ensures { b.new ≡ with_part part channel b.old }
{
    let mut bench = *b.bench();
    match part {
        Part::Side(side) => bench.sides.put(side, channel),
        Part::Inbox(side) => bench.inboxes.put(side, channel),
    }
    *b = JudgedBench::of(bench);
}

#[tactic(auto, unfolding(crate::specs::Damage::set_damaged))]
pub(crate) fn set(b: &mut JudgedBench, part: Part, set: ModeSet)
    ensures { b.new ≡ set_damaged part set b.old }
{
    let channel = part_of(b.bench(), part);
    put(b, part, Channel { set, ..channel });
}

#[tactic(auto, unfolding(crate::specs::Damage::reference_damaged))]
pub(crate) fn reference(b: &mut JudgedBench, part: Part, name: Reference, x: i32)
    ensures { b.new ≡ reference_damaged part name x b.old }
{
    let mut channel = part_of(b.bench(), part);
    channel.references.put(name, x);
    put(b, part, channel);
}

// The float alone, whatever it is: its whole value stays what it was.
#[tactic(auto, unfolding(crate::specs::Damage::reading_damaged))]
pub(crate) fn reading(b: &mut JudgedBench, r: Reading)
    ensures { b.new ≡ reading_damaged r b.old }
{
    let mut bench = *b.bench();
    bench.readings.put(r);
    *b = JudgedBench::of(bench);
}

// The whole value of a kind alone.
#[tactic(auto, unfolding(crate::specs::Damage::whole_damaged))]
pub(crate) fn whole(b: &mut JudgedBench, kind: Kind, x: i32)
    ensures { b.new ≡ whole_damaged kind x b.old }
{
    let mut bench = *b.bench();
    bench.wholes.put(kind, x);
    *b = JudgedBench::of(bench);
}
