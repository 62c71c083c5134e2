// What the calls answer besides the bench, and what the papers have beside a refusal.
ghost use Rattle.std.specs.Prelude.{◌≡◌};
ghost use Rattle.calls.specs.Answers.{beside_refusal};
ghost use Rattle.calls.specs.Displays.{blank};

use bench::call::Call;
use channels::references::References;

// What a side shows: its flight director, the numbers of its two laws, the sum of its armed modes, its references and
// the sum of its lamps.
#[derive(Clone, Copy)]
pub struct Display {
    pub fd: bool,
    pub lateral: u32,
    pub vertical: u32,
    pub armed: u32,
    pub references: References,
    pub lamps: u32,
}

// What an accepted call answers.
#[derive(Clone, Copy)]
pub enum Reply {
    // A turn, a reading, a send or a refresh was carried out.
    Done,
    // The event that was acted on, or 32 where no bit of the word was set.
    Event(u32),
    // What a side shows.
    Shown(Display),
}

// What a refused display shows: every number is 0.
pub fn blank() -> Display
    ensures { result ≡ blank }
{
    Display {
        fd: false,
        lateral: 0,
        vertical: 0,
        armed: 0,
        references: References::zero(),
        lamps: 0,
    }
}

// What the papers have beside a call's refusal: 32 for an event, and a display of zeros.
pub fn beside_refusal(call: Call) -> Reply
    ensures { result ≡ beside_refusal call }
{
    match call {
        Call::Event(_) => Reply::Event(32),
        Call::Display(_) => Reply::Shown(blank()),
        Call::Turn(_, _) | Call::Reading(_) | Call::Send(_) | Call::Refresh(_) => Reply::Done,
    }
}
