// The answer lines.
use crate::messages::{HELP, reason};
use crate::output::Outlet;
use drawing::answers::{CallLine, PickLine};
use drawing::numbers::Numbers;
use drawing::panel::Panels;
use refusals::{Told, refusal_number};
use scripts::Command;
use sessions::{Session, Taken};
use std::fmt::{self, Write};

// The answer to what was asked, and the drawing that follows it while the watch is on.
pub(crate) fn put_answer(out: &mut Outlet, taken: &Taken, session: &Session) -> fmt::Result {
    match taken.asked {
        // most bytes of a script end no line
        Ok(Command::Blank) => return Ok(()),
        Ok(command) => put_reply(out, taken, command, session)?,
        Err(mistake) => writeln!(out, "error {}: {}", session.lines, reason(mistake))?,
    }
    if taken.drawn {
        write!(out, "{}", Panels(session.bench()))?;
    }
    Ok(())
}

// In a line of its own or more.
fn put_reply(out: &mut Outlet, taken: &Taken, command: Command, session: &Session) -> fmt::Result {
    let bench = session.bench();
    let refusal = refusal_number(&taken.answer);
    match command {
        Command::Blank => Ok(()),
        Command::Call(call) => writeln!(
            out,
            "{}",
            CallLine {
                call,
                answer: taken.answer
            }
        ),
        Command::Pick(side) => writeln!(out, "{}", PickLine(guidance::pick(bench, side))),
        Command::Knob(_, _) => writeln!(out, "turn {refusal}"),
        Command::PowerOn => writeln!(out, "power-on {refusal}"),
        Command::Start(_) => writeln!(out, "start {refusal}"),
        Command::Bench => writeln!(out, "bench{}", Numbers(bench)),
        Command::Panel => write!(out, "{}", Panels(bench)),
        Command::Help => out.write_str(HELP),
        Command::Watch(_) => writeln!(out, "watch {refusal}"),
        Command::DamagePf(_)
        | Command::DamageReading(_)
        | Command::DamageWhole(_, _)
        | Command::DamageSet(_, _)
        | Command::DamageReference(_, _, _)
        | Command::DamageIndependent(_) => writeln!(out, "damage {refusal}"),
        Command::Area(_) => writeln!(out, "area {refusal}"),
        Command::Poke(_) => writeln!(out, "poke {refusal}"),
        Command::Write(_, _) => writeln!(out, "write {refusal}"),
        Command::Read(start) => put_read(out, session.area(), start),
        Command::Bytes => put_bytes(out, session.area()),
        Command::Codes => writeln!(out, "codes{}", Numbers(&codes::set_numbers())),
    }
}

// What a frame in the area says.
fn put_read(out: &mut Outlet, area: &[u8], start: u64) -> fmt::Result {
    let told = Told::of(frames::no_frame(), frames::read(area, start as usize));
    writeln!(out, "read {}{}", told.refusal, Numbers(&told.value))
}

// A byte as two hexadecimal digits. To format each as a number would take many times as long.
fn digits(byte: u8) -> [u8; 2] {
    const DIGITS: &[u8; 16] = b"0123456789abcdef";
    [
        DIGITS[usize::from(byte / 16)],
        DIGITS[usize::from(byte % 16)],
    ]
}

// The bytes of the area; an empty one has not even a space.
fn put_bytes(out: &mut Outlet, area: &[u8]) -> fmt::Result {
    out.write_str("bytes")?;
    if !area.is_empty() {
        out.write_str(" ")?;
    }
    for byte in area {
        out.put(&digits(*byte));
    }
    out.write_str("\n")
}
