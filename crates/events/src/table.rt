// The table of the events, in the order of their numbers.
ghost use Rattle.std.specs.Prelude.{◌≡◌};
ghost use Rattle.modes.specs.Events.{line_of};
ghost use Rattle.events.specs.Private.{meaning};

use crate::line::Asks::{
    Always, IfFlagClear, Never, UnlessAltEngaged, UnlessFlcEngaged, UnlessHdgEngaged,
    UnlessLapprSelected, UnlessNavSelected, UnlessVsEngaged, WhenApEngages,
};
use crate::line::Change::{
    CaptureAltsel, CaptureLappr, CaptureNav, CaptureVappr, ClearNavigation, GoAround, Nothing,
    Overspeed, SwitchAlt, SwitchAppr, SwitchFlc, SwitchHdg, SwitchNav, SwitchVs, TakeBasic, Track,
};
use crate::line::Effect::{Off, On, Stays, Toggles};
use crate::line::Pf::{Keeps, Moves};
use crate::line::Pressed::{Left, Nobody, Right};
use crate::line::{Asks, Change, Effect, Line, Pf, Pressed};
use modes::Event;

#[inline(always)]
fn line(ap: Effect, flag: Effect, pf: Pf, pressed: Pressed, asks: Asks, change: Change) -> Line
    ensures { result ≡ record { ap = ap; flag = flag; pf = pf; pressed = pressed; asks = asks; change = change } }
{
    Line {
        ap,
        flag,
        pf,
        pressed,
        asks,
        change,
    }
}

// The columns are AP, the overspeed flag, the pilot flying, whose FD switch is pressed, when a side that acts asks for FD On,
// and the mode change. The last two events go through no steps, and their lines do nothing.
#[inline(always)]
pub(crate) fn line_of(event: Event) -> Line
    ensures { meaning result ≡ line_of event }
{
    match event {
        Event::ApDisconnect => line(Off, Stays, Keeps, Nobody, Never, Nothing),
        Event::ApSwitch => line(Toggles, Stays, Keeps, Nobody, WhenApEngages, Nothing),
        Event::OverspeedBegins => line(Stays, On, Keeps, Nobody, IfFlagClear, Overspeed),
        Event::OverspeedEnds => line(Stays, Off, Keeps, Nobody, Never, Nothing),
        Event::GoAround => line(Off, Stays, Keeps, Nobody, Always, GoAround),
        Event::Transfer => line(Stays, Stays, Moves, Nobody, Never, TakeBasic),
        Event::FdSwitchLeft => line(Stays, Stays, Keeps, Left, Never, Nothing),
        Event::FdSwitchRight => line(Stays, Stays, Keeps, Right, Never, Nothing),
        Event::SourceChanged => line(Stays, Stays, Keeps, Nobody, Never, ClearNavigation),
        Event::NavCaptured => line(Stays, Stays, Keeps, Nobody, Never, CaptureNav),
        Event::LapprCaptured => line(Stays, Stays, Keeps, Nobody, Never, CaptureLappr),
        Event::VapprCaptured => line(Stays, Stays, Keeps, Nobody, Never, CaptureVappr),
        Event::AltselCaptured => line(Stays, Stays, Keeps, Nobody, Never, CaptureAltsel),
        Event::AltselOnTrack => line(Stays, Stays, Keeps, Nobody, Never, Track),
        Event::HdgSwitch => line(Stays, Stays, Keeps, Nobody, UnlessHdgEngaged, SwitchHdg),
        Event::NavSwitch => line(Stays, Stays, Keeps, Nobody, UnlessNavSelected, SwitchNav),
        Event::ApprSwitch => line(Stays, Stays, Keeps, Nobody, UnlessLapprSelected, SwitchAppr),
        Event::VsSwitch => line(Stays, Stays, Keeps, Nobody, UnlessVsEngaged, SwitchVs),
        Event::FlcSwitch => line(Stays, Stays, Keeps, Nobody, UnlessFlcEngaged, SwitchFlc),
        Event::AltSwitch => line(Stays, Stays, Keeps, Nobody, UnlessAltEngaged, SwitchAlt),
        Event::IndependentSwitch => line(Stays, Stays, Keeps, Nobody, Never, Nothing),
        Event::NoEvent => line(Stays, Stays, Keeps, Nobody, Never, Nothing),
    }
}
