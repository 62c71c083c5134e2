// The `damage` commands: parts of the bench, and what is to be written there.
ghost use Rattle.std.specs.Prelude.{◌≡◌, ok_or};
ghost use Rattle.words.specs.Words.{word_of};
ghost use Rattle.numerals.specs.Integers.{signed_in};
ghost use Rattle.scripts.specs.Commands.{set_by};
ghost use Rattle.scripts.specs.Commands.{damage_set, damage_reference, damage_part, damage_whole, damage_reading, damage_of};

use crate::places::{ends_at, kind_at, number_at, reading_at, with_number};
use crate::{Command, Mistake, Part};
use channels::references::Reference;
use modes::{ArmedLateral, Lateral, ModeSet, Modes, Vertical};
use sides::Side;

// The set of four numbers. Lateral 0 is Off, whatever the other three are.
#[tactic(auto, unfolding(crate::specs::Commands::set_by))]
fn set_by(lateral: u32, armed: u32, vertical: u32, vappr: u32) -> Option<ModeSet>
    ensures { result ≡ set_by lateral armed vertical vappr }
{
    if lateral == 0 {
        return Some(ModeSet::Off);
    }
    Some(ModeSet::On(Modes {
        lateral: Lateral::try_from(lateral).ok()?,
        armed: ArmedLateral::try_from(armed).ok()?,
        vertical: Vertical::try_from(vertical).ok()?,
        vappr_armed: match vappr {
            0 => false,
            1 => true,
            _ => return None,
        },
    }))
}

// A set by the words 3 to 6. A word that is no number gives none.
#[tactic(auto, unfolding(crate::specs::Commands::damage_set))]
fn damage_set(text: &[u8], part: Part) -> Result<Command, Mistake>
    ensures { result ≡ damage_set part text.now }
{
    let lateral = number_at(text, 3, u32::MAX).ok_or(Mistake::NoSet)?;
    let armed = number_at(text, 4, u32::MAX).ok_or(Mistake::NoSet)?;
    let vertical = number_at(text, 5, u32::MAX).ok_or(Mistake::NoSet)?;
    let vappr = number_at(text, 6, u32::MAX).ok_or(Mistake::NoSet)?;
    let set = set_by(lateral, armed, vertical, vappr).ok_or(Mistake::NoSet)?;
    ends_at(text, 7, Command::DamageSet(part, set))
}

// The signed number that goes to a reference or to a whole value.
fn signed_at(text: &[u8]) -> Result<i32, Mistake>
    ensures { result ≡ ok_or (signed_in (word_of text.now 3)) Mistake.NoSigned }
{
    numerals::signed(words::word(text, 3)).ok_or(Mistake::NoSigned)
}

#[tactic(auto, unfolding(crate::specs::Commands::damage_number))]
fn damage_reference(part: Part, name: Reference, text: &[u8]) -> Result<Command, Mistake>
    ensures { result ≡ damage_reference name part text.now }
{
    let x = signed_at(text)?;
    ends_at(text, 4, Command::DamageReference(part, name, x))
}

// Damage to a part: one of its references, or its set.
#[tactic(auto, unfolding(crate::specs::Commands::contents, crate::specs::Commands::damage_part))]
fn damage_part(part: Part, text: &[u8]) -> Result<Command, Mistake>
    ensures { result ≡ damage_part part text.now }
{
    let w = words::word(text, 2);
    match w {
        _ if w == b"heading".as_slice() => damage_reference(part, Reference::Heading, text),
        _ if w == b"preselected".as_slice() => damage_reference(part, Reference::Preselected, text),
        _ if w == b"held".as_slice() => damage_reference(part, Reference::Held, text),
        _ if w == b"vertical-speed".as_slice() => damage_reference(
            part,
            Reference::VerticalSpeed,
            text,
        ),
        _ if w == b"ias".as_slice() => damage_reference(part, Reference::Ias, text),
        _ if w == b"roll".as_slice() => damage_reference(part, Reference::Roll, text),
        _ if w == b"pitch".as_slice() => damage_reference(part, Reference::Pitch, text),
        _ if w == b"set".as_slice() => damage_set(text, part),
        _ => Err(Mistake::NoReference),
    }
}

#[tactic(auto, unfolding(crate::specs::Commands::damage_number, crate::specs::Commands::damage_whole))]
fn damage_whole(text: &[u8]) -> Result<Command, Mistake>
    ensures { result ≡ damage_whole text.now }
{
    let kind = kind_at(text, 2).ok_or(Mistake::NoKind)?;
    let x = signed_at(text)?;
    ends_at(text, 4, Command::DamageWhole(kind, x))
}

#[tactic(auto, unfolding(crate::specs::Commands::damage_reading))]
fn damage_reading(text: &[u8]) -> Result<Command, Mistake>
    ensures { result ≡ damage_reading text.now }
{
    ends_at(text, 4, Command::DamageReading(reading_at(text, 2)?))
}

// What is damaged: a part with a set and references, a whole value, a reading, the pilot flying or independent operation.
#[tactic(auto, unfolding(crate::specs::Commands::damages, crate::specs::Commands::damage_of))]
pub(crate) fn damage(text: &[u8]) -> Result<Command, Mistake>
    ensures { result ≡ damage_of text.now }
{
    let w = words::word(text, 1);
    match w {
        _ if w == b"left".as_slice() => damage_part(Part::Side(Side::Left), text),
        _ if w == b"right".as_slice() => damage_part(Part::Side(Side::Right), text),
        _ if w == b"left-inbox".as_slice() => damage_part(Part::Inbox(Side::Left), text),
        _ if w == b"right-inbox".as_slice() => damage_part(Part::Inbox(Side::Right), text),
        _ if w == b"whole".as_slice() => damage_whole(text),
        _ if w == b"reading".as_slice() => damage_reading(text),
        _ if w == b"pf".as_slice() => with_number(text, 2, 255, Command::DamagePf, Mistake::NoPf),
        _ if w == b"independent".as_slice() => with_number(
            text,
            2,
            1,
            |n| Command::DamageIndependent(n == 1),
            Mistake::NoFlag,
        ),
        _ => Err(Mistake::NoDamage),
    }
}
