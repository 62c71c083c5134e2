// The six calls on a bench that was judged: they judge their own arguments and not the bench.
ghost use Rattle.std.specs.Prelude.{◌≡◌, true, Ok};
ghost use Rattle.std.specs.Result.{result_and};
ghost use Rattle.refusals.specs.Refusals.{result_map};
ghost use Rattle.sides.specs.Sides.{side_of};
ghost use Rattle.bench.specs.declared.call.Call.{Call};
ghost use Rattle.bench.specs.Independent.{ended};
ghost use Rattle.bench.specs.Sound.{sound};
ghost use Rattle.rules.specs.Calls.{word_event, asked, left_by};
ghost use Rattle.calls.specs.Answers.{replied};
ghost use Rattle.calls.specs.Displays.{shown};

use crate::reply::{Display, Reply};
use bench::Bench;
use bench::call::Call;
use channels::knobs::Knob;
use feed::Reading;
use refusals::Refusal;
use sides::Side;

// The first word that has a bit past those of the events, 0 to 20.
const PAST_EVENTS: u32 = 2097152;

// The number of a word's event: that of its lowest set bit, or 32 where none is set.
fn word_event(word: u32) -> Result<u32, Refusal>
    ensures { result ≡ word_event word }
{
    if PAST_EVENTS <= word {
        Err(Refusal::UnknownEvent)
    } else {
        Ok(word.trailing_zeros())
    }
}

// What an accepted call leaves: independent operation is off where a side is without LAPPR or VAPPR
// engaged.
#[tactic(auto, unfolding(bench::specs::Independent::ended))]
fn end_independent(b: &mut Bench)
    ensures { b.new ≡ ended b.old }
{
    b.shared.independent = b.shared.independent && b.both_approach();
}

#[inline(always)]
pub(crate) fn event(b: &mut Bench, word: u32) -> Result<u32, Refusal>
    ensures answer { result ≡ word_event word }
    ensures bench { b.new ≡ left_by b.old (asked (Call.Event word)) }
{
    let number = word_event(word)?;
    rules::steps::act(events::event_at(number), b);
    end_independent(b);
    Ok(number)
}

#[inline(always)]
pub(crate) fn turn(b: &mut Bench, knob: u32, new: u8) -> Result<(), Refusal>
    ensures answer { result ≡ result_and (asked (Call.Turn knob new)) (Ok tt) }
    ensures bench { b.new ≡ left_by b.old (asked (Call.Turn knob new)) }
{
    let knob = Knob::try_from(knob)?;
    rules::turns::turn_to(b, knob, new);
    end_independent(b);
    Ok(())
}

#[inline(always)]
pub(crate) fn reading(b: &mut Bench, r: Reading) -> Result<(), Refusal>
    ensures answer { result ≡ result_and (asked (Call.Reading r)) (Ok tt) }
    ensures bench { b.new ≡ left_by b.old (asked (Call.Reading r)) }
{
    let whole = r.verdict()?;
    rules::receive(b, r, whole);
    end_independent(b);
    Ok(())
}

#[inline(always)]
pub(crate) fn send(b: &mut Bench, side: u32) -> Result<(), Refusal>
    ensures answer { result ≡ result_and (asked (Call.Send side)) (Ok tt) }
    ensures bench { b.new ≡ left_by b.old (asked (Call.Send side)) }
{
    let side = Side::try_from(side)?;
    rules::sends::send(b, side);
    end_independent(b);
    Ok(())
}

#[inline(always)]
pub(crate) fn refresh(b: &mut Bench, side: u32) -> Result<(), Refusal>
    ensures answer { result ≡ result_and (asked (Call.Refresh side)) (Ok tt) }
    ensures bench { b.new ≡ left_by b.old (asked (Call.Refresh side)) }
{
    let side = Side::try_from(side)?;
    rules::sends::refresh(b, side);
    end_independent(b);
    Ok(())
}

#[inline(always)]
pub(crate) fn display(b: &Bench, side: u32) -> Result<Display, Refusal>
    ensures { result ≡ result_map (shown b.now) (side_of side) }
{
    let side = Side::try_from(side)?;
    Ok(crate::shows::show(b, side))
}

// A call that is data. A display leaves the bench as it is, in which nothing is to be ended, since it is sound.
#[inline(always)]
pub(crate) fn apply(b: &mut Bench, call: Call) -> Result<Reply, Refusal>
    ensures answer { result ≡ result_map (replied b.old) (asked call) }
    ensures bench { sound b.old ≡ true → b.new ≡ left_by b.old (asked call) }
{
    match call {
        Call::Event(word) => Ok(Reply::Event(event(b, word)?)),
        Call::Turn(knob, new) => turn(b, knob, new).and(Ok(Reply::Done)),
        Call::Reading(r) => reading(b, r).and(Ok(Reply::Done)),
        Call::Send(side) => send(b, side).and(Ok(Reply::Done)),
        Call::Refresh(side) => refresh(b, side).and(Ok(Reply::Done)),
        Call::Display(side) => Ok(Reply::Shown(display(b, side)?)),
    }
}
