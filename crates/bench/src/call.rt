// A call as data: which entry is called, and what it is given besides the bench.
use feed::Reading;

#[derive(Clone, Copy)]
pub enum Call {
    // An event word.
    Event(u32),
    // A knob and its new count.
    Turn(u32, u8),
    Reading(Reading),
    // A side.
    Send(u32),
    Refresh(u32),
    Display(u32),
}
