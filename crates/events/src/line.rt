// A line of the events' table: a word in each column, and what that word does. The words are those of the definitions' table,
// in modes/specs/Events.antt, and are data so that one match has all that an event does.
ghost use Rattle.std.specs.Prelude.{◌≡◌};
ghost use Rattle.events.specs.Private.{effect, moves, pressed, asked, changed};

use modes::sets::{engages_alt, engages_flc, engages_hdg, engages_vs, selects_lappr, selects_nav};
use modes::{ModeSet, Modes};
use sides::Side;

// What an event does.
#[derive(Clone, Copy)]
pub struct Line {
    pub ap: Effect,
    pub flag: Effect,
    pub pf: Pf,
    pub pressed: Pressed,
    pub asks: Asks,
    pub change: Change,
}

// What becomes of AP or of the overspeed flag.
#[derive(Clone, Copy)]
pub enum Effect {
    Stays,
    Off,
    On,
    Toggles,
}

impl Effect {
    #[inline(always)]
    pub fn applied_to(self, before: bool) -> bool
        ensures { result ≡ effect self before }
    {
        match self {
            Effect::Stays => before,
            Effect::Off => false,
            Effect::On => true,
            Effect::Toggles => !before,
        }
    }
}

// Whether the pilot flying keeps the side or changes it.
#[derive(Clone, Copy)]
pub enum Pf {
    Keeps,
    Moves,
}

impl Pf {
    #[inline(always)]
    pub fn moves(self) -> bool
        ensures { result ≡ moves self }
    {
        matches!(self, Pf::Moves)
    }
}

// Whose FD switch is pressed.
#[derive(Clone, Copy)]
pub enum Pressed {
    Nobody,
    Left,
    Right,
}

impl Pressed {
    // Whether the switch of this side is.
    #[inline(always)]
    pub fn on(self, side: Side) -> bool
        ensures { result ≡ pressed self side }
    {
        match self {
            Pressed::Nobody => false,
            Pressed::Left => matches!(side, Side::Left),
            Pressed::Right => matches!(side, Side::Right),
        }
    }
}

// When a side that acts asks for FD On. A mode that is selected is armed or engaged.
#[derive(Clone, Copy)]
pub enum Asks {
    Never,
    Always,
    WhenApEngages,
    IfFlagClear,
    UnlessHdgEngaged,
    UnlessNavSelected,
    UnlessLapprSelected,
    UnlessVsEngaged,
    UnlessFlcEngaged,
    UnlessAltEngaged,
}

impl Asks {
    // Whether a side with this set does, by AP, the flag and the set as handed in.
    #[inline(always)]
    pub fn holds(self, ap: bool, flag: bool, s: ModeSet) -> bool
        ensures { result ≡ asked self ap flag s }
    {
        match self {
            Asks::Never => false,
            Asks::Always => true,
            Asks::WhenApEngages => !ap,
            Asks::IfFlagClear => !flag,
            Asks::UnlessHdgEngaged => !engages_hdg(s),
            Asks::UnlessNavSelected => !selects_nav(s),
            Asks::UnlessLapprSelected => !selects_lappr(s),
            Asks::UnlessVsEngaged => !engages_vs(s),
            Asks::UnlessFlcEngaged => !engages_flc(s),
            Asks::UnlessAltEngaged => !engages_alt(s),
        }
    }
}

// What is done to an On set.
#[derive(Clone, Copy)]
pub enum Change {
    Nothing,
    Overspeed,
    GoAround,
    TakeBasic,
    ClearNavigation,
    CaptureNav,
    CaptureLappr,
    CaptureVappr,
    CaptureAltsel,
    Track,
    SwitchHdg,
    SwitchNav,
    SwitchAppr,
    SwitchVs,
    SwitchFlc,
    SwitchAlt,
}

impl Change {
    // The set after it, by the flag as handed in.
    #[inline(always)]
    pub fn make(self, flag: bool, m: Modes) -> Modes
        ensures { result ≡ changed self flag m }
    {
        match self {
            Change::Nothing => m,
            Change::Overspeed => changes::overspeed(flag, m),
            Change::GoAround => changes::go_around(m),
            Change::TakeBasic => changes::take_basic(m),
            Change::ClearNavigation => changes::clear_navigation(m),
            Change::CaptureNav => changes::capture_nav(m),
            Change::CaptureLappr => changes::capture_lappr(m),
            Change::CaptureVappr => changes::capture_vappr(flag, m),
            Change::CaptureAltsel => changes::capture_altsel(m),
            Change::Track => changes::track(m),
            Change::SwitchHdg => changes::switch_hdg(m),
            Change::SwitchNav => changes::switch_nav(m),
            Change::SwitchAppr => changes::switch_appr(m),
            Change::SwitchVs => changes::switch_vs(m),
            Change::SwitchFlc => changes::switch_flc(flag, m),
            Change::SwitchAlt => changes::switch_alt(m),
        }
    }
}
