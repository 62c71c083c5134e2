// The events by number, and what each does. That stands in one place, the table in `table`, with a line for each event; each
// function here but the first reads a column of it.
#![tactic(auto)]

mod line;
mod table;

ghost use Rattle.std.specs.Prelude.{◌≡◌};
ghost use Rattle.modes.specs.Events.{event_at, line_of};

use crate::table::line_of;
use modes::{Event, ModeSet, Modes};
use sides::Side;

// The event of a number, and none above 20.
pub fn event_at(number: u32) -> Event
    ensures { result ≡ event_at number }
{
    match number {
        0 => Event::ApDisconnect,
        1 => Event::ApSwitch,
        2 => Event::OverspeedBegins,
        3 => Event::OverspeedEnds,
        4 => Event::GoAround,
        5 => Event::Transfer,
        6 => Event::FdSwitchLeft,
        7 => Event::FdSwitchRight,
        8 => Event::SourceChanged,
        9 => Event::NavCaptured,
        10 => Event::LapprCaptured,
        11 => Event::VapprCaptured,
        12 => Event::AltselCaptured,
        13 => Event::AltselOnTrack,
        14 => Event::HdgSwitch,
        15 => Event::NavSwitch,
        16 => Event::ApprSwitch,
        17 => Event::VsSwitch,
        18 => Event::FlcSwitch,
        19 => Event::AltSwitch,
        20 => Event::IndependentSwitch,
        _ => Event::NoEvent,
    }
}

// Whether AP is engaged after an event, by whether it was before.
#[inline(always)]
pub fn ap_after(e: Event, engaged: bool) -> bool
    ensures { result ≡ (line_of e).ap engaged }
{
    line_of(e).ap.applied_to(engaged)
}

// The overspeed flag after an event.
#[inline(always)]
pub fn overspeed_after(e: Event, flag: bool) -> bool
    ensures { result ≡ (line_of e).flag flag }
{
    line_of(e).flag.applied_to(flag)
}

// Whether the pilot flying changes sides.
#[inline(always)]
pub fn transfers(e: Event) -> bool
    ensures { result ≡ (line_of e).transfers }
{
    line_of(e).pf.moves()
}

// Whether the FD switch of a side is pressed.
#[inline(always)]
pub fn fd_pressed(e: Event, side: Side) -> bool
    ensures { result ≡ (line_of e).pressed side }
{
    line_of(e).pressed.on(side)
}

// Whether a side that acts asks for FD On: by AP, the flag and that side's set as handed in.
#[inline(always)]
pub fn asks_fd(e: Event, ap: bool, flag: bool, s: ModeSet) -> bool
    ensures { result ≡ (line_of e).asks_fd ap flag s }
{
    line_of(e).asks.holds(ap, flag, s)
}

// An On set after the mode change of an event, with the overspeed flag as handed in.
#[inline(always)]
pub fn change(e: Event, flag: bool, m: Modes) -> Modes
    ensures { result ≡ (line_of e).change flag m }
{
    line_of(e).change.make(flag, m)
}
