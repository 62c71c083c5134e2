// The words of a line in their places: as numbers, as names, as readings; and the end of a command.
ghost use Rattle.std.specs.Prelude.{◌≡◌, ◌<◌, ℕ, ok_or};
ghost use Rattle.words.specs.Words.{word_of};
ghost use Rattle.scripts.specs.Commands.{beside, sides, ends_at, number_at, with_number, Computes, side_at, with_side, kinds, reading_at};

use crate::{Command, Mistake};
use feed::{Kind, Reading};

// What is asked, if a text has no word behind its first n.
#[tactic(auto, unfolding(crate::specs::Commands::ends_at))]
pub(crate) fn ends_at(text: &[u8], n: usize, asked: Command) -> Result<Command, Mistake>
    ensures { result ≡ ends_at text.now n asked }
{
    if !words::word(text, n).is_empty() {
        return Err(Mistake::TooManyWords);
    }
    Ok(asked)
}

// Word n as a number of at most `most`.
pub(crate) fn number_at(text: &[u8], n: usize, most: u32) -> Option<u32>
    ensures { result ≡ number_at text.now n most }
{
    numerals::number(words::word(text, n), most)
}

// The command of a number of at most `most`, which is word n and the last one.
#[tactic(auto, unfolding(crate::specs::Commands::with_number))]
pub(crate) fn with_number<F: FnOnce(u32) -> Command>(
    text: &[u8],
    n: usize,
    most: u32,
    ask: F,
    why: Mistake,
) -> Result<Command, Mistake>
    requires place { n < 255 }
    requires callable { F.IsAlwaysCallable ask }
    ensures { (command : ℕ → Command) → Computes (F.post ask) command → result ≡ with_number command n most why text.now }
{
    let number = number_at(text, n, most).ok_or(why)?;
    ends_at(text, n + 1, ask(number))
}

// The number of the side that word 1 names.
#[tactic(auto, unfolding(crate::specs::Commands::sides))]
fn side_named(text: &[u8]) -> Option<u32>
    ensures { result ≡ beside sides (word_of text.now 1) }
{
    let w = words::word(text, 1);
    match w {
        _ if w == b"left".as_slice() => Some(0),
        _ if w == b"right".as_slice() => Some(1),
        _ => None,
    }
}

// Word 1 as a side, by its name or by a number.
#[tactic(auto, unfolding(crate::specs::Commands::side_at))]
pub(crate) fn side_at(text: &[u8]) -> Result<u32, Mistake>
    ensures { result ≡ ok_or (side_at text.now) Mistake.NoSide }
{
    side_named(text)
        .or(number_at(text, 1, u32::MAX))
        .ok_or(Mistake::NoSide)
}

// The command of the side that word 1 is, if that is the last one.
#[tactic(auto, unfolding(crate::specs::Commands::with_side))]
pub(crate) fn with_side<F: FnOnce(u32) -> Command>(text: &[u8], ask: F) -> Result<Command, Mistake>
    requires { F.IsAlwaysCallable ask }
    ensures { (command : ℕ → Command) → Computes (F.post ask) command → result ≡ with_side command text.now }
{
    let side = side_at(text)?;
    ends_at(text, 2, ask(side))
}

// The kind that word n names.
#[tactic(auto, unfolding(crate::specs::Commands::kinds))]
pub(crate) fn kind_at(text: &[u8], n: usize) -> Option<Kind>
    ensures { result ≡ beside kinds (word_of text.now n) }
{
    let w = words::word(text, n);
    match w {
        _ if w == b"altitude".as_slice() => Some(Kind::Altitude),
        _ if w == b"airspeed".as_slice() => Some(Kind::Airspeed),
        _ if w == b"vertical-speed".as_slice() => Some(Kind::VerticalSpeed),
        _ if w == b"roll".as_slice() => Some(Kind::Roll),
        _ if w == b"pitch".as_slice() => Some(Kind::Pitch),
        _ if w == b"heading".as_slice() => Some(Kind::Heading),
        _ => None,
    }
}

// The reading of KIND VALUE, the words n and n + 1. What is wrong with the kind comes first.
#[tactic(auto, unfolding(crate::specs::Commands::reading_at))]
pub(crate) fn reading_at(text: &[u8], n: usize) -> Result<Reading, Mistake>
    requires { n < 255 }
    ensures { result ≡ reading_at text.now n }
{
    let kind = kind_at(text, n).ok_or(Mistake::NoKind)?;
    let value = numerals::value(words::word(text, n + 1)).ok_or(Mistake::NoValue)?;
    Ok(kind.reading(value))
}
