// Why a start, a call or a frame is refused, and what an answer tells by the papers' numbers.
#![tactic(auto)]

ghost use Rattle.std.specs.Prelude.{◌≡◌};
ghost use Rattle.refusals.specs.Refusals.{number_of_refusal, refusal_number};

// Why something is refused, with the papers' numbers. Which of two goes first, each entry says.
#[derive(Clone, Copy, PartialEq, Eq)]
pub enum Refusal {
    UnsoundBench = 1,
    UnknownSide = 2,
    UnknownKnob = 3,
    UnknownEvent = 4,
    NotFinite = 5,
    OutOfRange = 6,
    NoRoom = 7,
    NoFrame = 8,
    FieldOutOfRange = 9,
    StartingSpeed = 10,
}

impl From<Refusal> for u32 {
    ghost from_gives = { λ refusal number. number ≡ number_of_refusal refusal };

    fn from(refusal: Refusal) -> u32 {
        refusal as u32
    }
}

// The papers' number of an answer's refusal: 0 where nothing is refused.
pub fn refusal_number<T>(answer: &Result<T, Refusal>) -> u32
    ensures { result ≡ refusal_number answer.now }
{
    match answer {
        Ok(_) => 0,
        Err(refusal) => u32::from(*refusal),
    }
}

// What an answer tells: its refusal's number, and its value.
#[derive(Clone, Copy)]
pub struct Told<T> {
    pub refusal: u32,
    pub value: T,
}

impl<T: Copy> Told<T> {
    ghost use Rattle.refusals.specs.Told.{told};

    // Where it is refused the value is `beside`, which is what the papers have beside such a refusal.
    pub fn of(beside: T, answer: Result<T, Refusal>) -> Told<T>
        ensures { result ≡ told beside answer }
    {
        Told {
            refusal: refusal_number(&answer),
            value: answer.unwrap_or(beside),
        }
    }
}
