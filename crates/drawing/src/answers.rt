// The answer lines of calls and of picks, without their line ends: a name, a refusal's number, and what is told beside it.
use crate::numbers::Numbers;
use bench::call::Call;
use calls::reply::{Reply, beside_refusal};
use guidance::Laws;
use refusals::{Refusal, Told};
use std::fmt::{self, Display, Formatter};

// A call, and what it answered.
#[derive(Clone, Copy)]
pub struct CallLine {
    pub call: Call,
    pub answer: Result<Reply, Refusal>,
}

impl CallLine {
    fn name(&self) -> &'static str {
        match self.call {
            Call::Event(_) => "event",
            Call::Turn(_, _) => "turn",
            Call::Reading(_) => "reading",
            Call::Send(_) => "send",
            Call::Refresh(_) => "refresh",
            Call::Display(_) => "display",
        }
    }
}

impl Display for CallLine {
    fn fmt<W: fmt::Write>(&self, f: &mut Formatter<W>) -> fmt::Result {
        let told = Told::of(beside_refusal(self.call), self.answer);
        write!(
            f,
            "{} {}{}",
            self.name(),
            told.refusal,
            Numbers(&told.value)
        )
    }
}

// What is picked for a side.
#[derive(Clone, Copy)]
pub struct PickLine(pub Result<Laws, Refusal>);

impl Display for PickLine {
    fn fmt<W: fmt::Write>(&self, f: &mut Formatter<W>) -> fmt::Result {
        let told = Told::of(guidance::no_laws(), self.0);
        write!(f, "pick {}{}", told.refusal, Numbers(&told.value))
    }
}
