// Mode sets, the events that change them, and the numbers by which a display shows them.
#![tactic(auto)]

pub mod numbers;
pub mod row;
pub mod sets;

// The engaged lateral mode.
#[derive(Clone, Copy)]
pub enum Lateral {
    Roll,
    Hdg,
    Nav,
    Lappr,
    Lga,
}

// The engaged vertical mode. Capture and track are both ALTSEL.
#[derive(Clone, Copy)]
pub enum Vertical {
    Pitch,
    Vs,
    Flc,
    Alt,
    AltselCapture,
    AltselTrack,
    Vappr,
    Vga,
}

// The armed lateral mode: at most one of two.
#[derive(Clone, Copy)]
pub enum ArmedLateral {
    Neither,
    Nav,
    Lappr,
}

// An On set. Whether ALTSEL is armed follows from the vertical mode and is not stored.
#[derive(Clone, Copy)]
pub struct Modes {
    pub lateral: Lateral,
    pub armed: ArmedLateral,
    pub vertical: Vertical,
    pub vappr_armed: bool,
}

// Off is a state of a side, and not an absence.
#[derive(Clone, Copy)]
pub enum ModeSet {
    Off,
    On(Modes),
}

// The events in the order of their numbers, 0 to 20, and none.
// 32, no event, has a number as the others do, and a line in the table that changes nothing (`none_idle`).
#[derive(Clone, Copy)]
pub enum Event {
    ApDisconnect,
    ApSwitch,
    OverspeedBegins,
    OverspeedEnds,
    GoAround,
    Transfer,
    FdSwitchLeft,
    FdSwitchRight,
    SourceChanged,
    NavCaptured,
    LapprCaptured,
    VapprCaptured,
    AltselCaptured,
    AltselOnTrack,
    HdgSwitch,
    NavSwitch,
    ApprSwitch,
    VsSwitch,
    FlcSwitch,
    AltSwitch,
    IndependentSwitch,
    NoEvent,
}
