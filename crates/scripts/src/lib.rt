// The commands of the console's scripts: what a line asks for.
#![tactic(auto)]

mod area;
mod damage;
mod places;

ghost use Rattle.std.specs.Prelude.{◌≡◌, ℕ, Bool};
ghost use Rattle.words.specs.Words.{word_of};
ghost use Rattle.scripts.specs.Commands.{beside, knobs, knob_at, one_knob, turn_of, clicks_of, is_signal, is_switch, event_named, Computes, event_if, watch_of, start_of};
ghost use Rattle.scripts.specs.Commands.{command_by, command_in, text_of, command_of, pairs_of};

use bench::call::Call;
use channels::knobs::Knob;
use channels::references::Reference;
use damage::damage;
use feed::{Kind, Reading};
use modes::ModeSet;
use places::{ends_at, number_at, reading_at, with_number, with_side};
use sides::Side;

// A part of the bench with a flight director, a set and references.
#[derive(Clone, Copy)]
pub enum Part {
    Side(Side),
    Inbox(Side),
}

// The sides and knobs of calls, of a pick and of a frame are numbers, since a script may name any number and the calls
// refuse it. Clicks go from the last count of a knob, which four knobs have.
#[derive(Clone, Copy)]
pub enum Command {
    Blank,
    // a call of the bench
    Call(Call),
    Pick(u32),
    // clicks modulo 256
    Knob(Knob, u8),
    PowerOn,
    // at a speed in knots
    Start(i32),
    Bench,
    Panel,
    Help,
    Watch(bool),
    DamagePf(u32),
    DamageReading(Reading),
    // the whole value of a kind
    DamageWhole(Kind, i32),
    DamageSet(Part, ModeSet),
    DamageReference(Part, Reference, i32),
    DamageIndependent(bool),
    // what goes to the bus area and from it; a place there has 64 bits
    Area(u32),
    // the bytes stand in the line: `pairs_of`
    Poke(u64),
    Write(u32, u64),
    Read(u64),
    Bytes,
    // all coherent sets, as numbers in the order of their codes
    Codes,
}

// What is done to the area. A side goes by its number, which may be none.
#[derive(Clone, Copy)]
pub enum AreaAct {
    Clears(u32),
    Pokes(u64),
    Writes(u32, u64),
}

// What is wrong with a line: the place where it went wrong. The console has a text for each.
#[derive(Clone, Copy)]
pub enum Mistake {
    // of who reads the line
    TooLong,
    NoCommand,
    TooManyWords,
    NoWord,
    NoSide,
    NoKnobNumber,
    NoCount,
    NoKnob,
    NoClicks,
    NoSwitch,
    NoSignal,
    NoWatch,
    NoKind,
    NoValue,
    NoDamage,
    NoPf,
    NoReference,
    NoSigned,
    NoSet,
    NoLength,
    NoStart,
    NoPairs,
    // of who holds the bus area
    NoRoom,
    NoFlag,
    NoSpeed,
}

// Word 1 as a knob, by its name or by a number.
#[tactic(auto, unfolding(crate::specs::Commands::knob_at))]
fn knob_at(text: &[u8]) -> Option<u32>
    ensures { result ≡ knob_at text.now }
{
    knob_named(text).or(number_at(text, 1, u32::MAX))
}

// One of the four knobs.
fn one_knob(text: &[u8]) -> Option<Knob>
    ensures { result ≡ one_knob (knob_at text.now) }
{
    Knob::try_from(knob_at(text)?).ok()
}

// The number of the knob that word 1 names.
#[tactic(auto, unfolding(crate::specs::Commands::knobs))]
fn knob_named(text: &[u8]) -> Option<u32>
    ensures { result ≡ beside knobs (word_of text.now 1) }
{
    let w = words::word(text, 1);
    match w {
        _ if w == b"wheel".as_slice() => Some(0),
        _ if w == b"altitude".as_slice() => Some(1),
        _ if w == b"speed".as_slice() => Some(2),
        _ if w == b"heading".as_slice() => Some(3),
        _ => None,
    }
}

// The turn of a knob to the count that word 2 is.
#[tactic(auto, using(numerals::proofs::Numerals::number_fits), unfolding(crate::specs::Commands::turn_of))]
fn turn(text: &[u8]) -> Result<Command, Mistake>
    ensures { result ≡ turn_of text.now }
{
    let knob = knob_at(text).ok_or(Mistake::NoKnobNumber)?;
    let count = number_at(text, 2, 255).ok_or(Mistake::NoCount)?;
    ends_at(text, 3, Command::Call(Call::Turn(knob, count as u8)))
}

// The turn of a knob by the clicks that word 2 is.
#[tactic(auto, unfolding(crate::specs::Commands::clicks_of))]
fn clicks(text: &[u8]) -> Result<Command, Mistake>
    ensures { result ≡ clicks_of text.now }
{
    let knob = one_knob(text).ok_or(Mistake::NoKnob)?;
    let clicks = numerals::clicks(words::word(text, 2)).ok_or(Mistake::NoClicks)?;
    ends_at(text, 3, Command::Knob(knob, clicks))
}

// The events, in the order of their numbers: each goes out as the word that has the bit of its number.
const EVENTS: [&[u8]; 21] = [
    b"ap-disconnect",
    b"ap",
    b"overspeed-begins",
    b"overspeed-ends",
    b"go-around",
    b"transfer",
    b"fd-left",
    b"fd-right",
    b"source-changed",
    b"nav-captured",
    b"lappr-captured",
    b"vappr-captured",
    b"altsel-captured",
    b"altsel-on-track",
    b"hdg",
    b"nav",
    b"appr",
    b"vs",
    b"flc",
    b"alt",
    b"independent",
];

// The event whose name word 1 is, by its number.
#[tactic(auto, unfolding(crate::specs::Commands::event_names, crate::specs::Commands::event_named))]
fn event_named(text: &[u8]) -> Option<usize>
    ensures { result ≡ event_named text.now }
{
    words::lookup(words::word(text, 1), &EVENTS)
}

fn is_signal(n: usize) -> bool
    ensures { result ≡ is_signal n }
{
    matches!(n, 2..=3 | 8..=13)
}

fn is_switch(n: usize) -> bool
    ensures { result ≡ is_switch n }
{
    n <= 20 && !is_signal(n)
}

// The event of word 1, if the command takes it.
#[tactic(auto, using(crate::proofs::Events::named_below), unfolding(crate::specs::Commands::event_if))]
fn event_if<F: Fn(usize) -> bool>(text: &[u8], takes: F, why: Mistake) -> Result<Command, Mistake>
    requires { F.IsAlwaysCallable takes }
    ensures { (test : ℕ → Bool) → Computes (F.post takes) test → result ≡ event_if test why text.now }
{
    let n = event_named(text).ok_or(why)?;
    if !takes(n) {
        return Err(why);
    }
    ends_at(text, 2, Command::Call(Call::Event(1 << n)))
}

#[tactic(auto, unfolding(crate::specs::Commands::watches, crate::specs::Commands::watch_of))]
fn watch(text: &[u8]) -> Result<Command, Mistake>
    ensures { result ≡ watch_of text.now }
{
    let w = words::word(text, 1);
    match w {
        _ if w == b"off".as_slice() => ends_at(text, 2, Command::Watch(false)),
        _ if w == b"on".as_slice() => ends_at(text, 2, Command::Watch(true)),
        _ => Err(Mistake::NoWatch),
    }
}

#[tactic(auto, unfolding(crate::specs::Commands::start_of))]
fn start(text: &[u8]) -> Result<Command, Mistake>
    ensures { result ≡ start_of text.now }
{
    let speed = numerals::signed(words::word(text, 1)).ok_or(Mistake::NoSpeed)?;
    ends_at(text, 2, Command::Start(speed))
}

// The command of a name, from the words of a text. Here, and wherever a word is looked up, a guard compares it: a pattern of
// bytes would be proved byte by byte, in three times the time.
#[tactic(auto, unfolding(crate::specs::Commands::commands, crate::specs::Commands::command_by))]
fn command_by(name: &[u8], text: &[u8]) -> Result<Command, Mistake>
    ensures { result ≡ command_by name.now text.now }
{
    match name {
        _ if name == b"event".as_slice() => with_number(
            text,
            1,
            u32::MAX,
            |word| Command::Call(Call::Event(word)),
            Mistake::NoWord,
        ),
        _ if name == b"send".as_slice() => with_side(text, |side| Command::Call(Call::Send(side))),
        _ if name == b"refresh".as_slice() => with_side(
            text,
            |side| Command::Call(Call::Refresh(side)),
        ),
        _ if name == b"display".as_slice() => with_side(
            text,
            |side| Command::Call(Call::Display(side)),
        ),
        _ if name == b"pick".as_slice() => with_side(text, Command::Pick),
        _ if name == b"turn".as_slice() => turn(text),
        _ if name == b"knob".as_slice() => clicks(text),
        _ if name == b"reading".as_slice() => ends_at(
            text,
            3,
            Command::Call(Call::Reading(reading_at(text, 1)?)),
        ),
        _ if name == b"press".as_slice() => event_if(text, is_switch, Mistake::NoSwitch),
        _ if name == b"signal".as_slice() => event_if(text, is_signal, Mistake::NoSignal),
        _ if name == b"power-on".as_slice() => ends_at(text, 1, Command::PowerOn),
        _ if name == b"bench".as_slice() => ends_at(text, 1, Command::Bench),
        _ if name == b"panel".as_slice() => ends_at(text, 1, Command::Panel),
        _ if name == b"help".as_slice() => ends_at(text, 1, Command::Help),
        _ if name == b"watch".as_slice() => watch(text),
        _ if name == b"damage".as_slice() => damage(text),
        _ if name == b"area".as_slice() => with_number(
            text,
            1,
            2048,
            Command::Area,
            Mistake::NoLength,
        ),
        _ if name == b"poke".as_slice() => area::poke(text),
        _ if name == b"write".as_slice() => area::write(text),
        _ if name == b"read".as_slice() => area::read(text),
        _ if name == b"bytes".as_slice() => ends_at(text, 1, Command::Bytes),
        _ if name == b"start".as_slice() => start(text),
        _ if name == b"codes".as_slice() => ends_at(text, 1, Command::Codes),
        _ => Err(Mistake::NoCommand),
    }
}

#[tactic(auto, unfolding(crate::specs::Commands::command_in))]
fn command_in(text: &[u8]) -> Result<Command, Mistake>
    ensures { result ≡ command_in text.now }
{
    let name = words::word(text, 0);
    if name.is_empty() {
        return Ok(Command::Blank);
    }
    command_by(name, text)
}

// What a line says. What follows '#' is a comment.
fn text_of(line: &[u8]) -> &[u8]
    ensures { result.now ≡ text_of line.now }
{
    words::up_to(line, b'#')
}

// The command of a line.
#[tactic(auto, unfolding(crate::specs::Commands::command_of))]
pub fn command_of(line: &[u8]) -> Result<Command, Mistake>
    ensures { result ≡ command_of line.now }
{
    command_in(text_of(line))
}

// The word of a line that holds the bytes of a `Poke`, as pairs of digits.
#[tactic(auto, unfolding(crate::specs::Commands::pairs_of))]
pub fn pairs_of(line: &[u8]) -> &[u8]
    ensures { result.now ≡ pairs_of line.now }
{
    words::word(text_of(line), 2)
}
