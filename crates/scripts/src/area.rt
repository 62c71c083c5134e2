// The commands of the bus area: bytes to be put there, and the frames that go in and out.
ghost use Rattle.std.specs.Prelude.{◌≡◌, ok_or};
ghost use Rattle.scripts.specs.Commands.{start_at, poke_of, write_of, read_of};

use crate::places::{ends_at, side_at};
use crate::{Command, Mistake};

// Word n as a place in the area. Whether it lies inside is for who holds the area.
#[tactic(auto, unfolding(crate::specs::Commands::start_at))]
fn start_at(text: &[u8], n: usize) -> Result<u64, Mistake>
    ensures { result ≡ ok_or (start_at text.now n) Mistake.NoStart }
{
    numerals::wide_number(words::word(text, n), u64::MAX).ok_or(Mistake::NoStart)
}

// The bytes of a poke are word 2.
#[tactic(auto, unfolding(crate::specs::Commands::poke_of))]
pub(crate) fn poke(text: &[u8]) -> Result<Command, Mistake>
    ensures { result ≡ poke_of text.now }
{
    let start = start_at(text, 1)?;
    if !numerals::are_pairs(words::word(text, 2)) {
        return Err(Mistake::NoPairs);
    }
    ends_at(text, 3, Command::Poke(start))
}

// The frame of a side from the place that word 2 is.
#[tactic(auto, unfolding(crate::specs::Commands::write_of))]
pub(crate) fn write(text: &[u8]) -> Result<Command, Mistake>
    ensures { result ≡ write_of text.now }
{
    let side = side_at(text)?;
    let start = start_at(text, 2)?;
    ends_at(text, 3, Command::Write(side, start))
}

#[tactic(auto, unfolding(crate::specs::Commands::read_of))]
pub(crate) fn read(text: &[u8]) -> Result<Command, Mistake>
    ensures { result ≡ read_of text.now }
{
    let start = start_at(text, 1)?;
    ends_at(text, 2, Command::Read(start))
}
