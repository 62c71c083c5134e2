// The bench sheet's lists of calls, made by the code from a start: each answer, and what the picker then names for either
// side, in the words of the console. tests/sheet.txt is the same as a script, which the second implementation answers.
#![tactic(auto)]

use bench::call::Call;
use calls::reply::Reply;
use drawing::answers::{CallLine, PickLine};
use feed::Reading;
use refusals::refusal_number;
use std::io;

// A start at a speed, at most 16 calls, and the picks for both sides.
fn play(rt: &impl Print, speed: i32, calls: &[Call]) -> io::Result<()> {
    let mut answers = [Ok(Reply::Done); 16];
    let flight = replay::fly(speed, calls, &mut answers);
    println!(rt; "start {}", refusal_number(&flight.started))?;
    for (call, answer) in calls.iter().zip(answers.iter()) {
        let line = CallLine {
            call: *call,
            answer: *answer,
        };
        println!(rt; "{line}")?;
    }
    println!(rt; "{}", PickLine(flight.left))?;
    println!(rt; "{}", PickLine(flight.right))
}

// Cases 2 to 5: readings and knobs.
fn play_numbers(rt: &impl Print) -> io::Result<()> {
    play(
        rt,
        120,
        &[
            Call::Reading(Reading::Heading(359.25)),
            Call::Reading(Reading::Heading(359.5)),
            Call::Reading(Reading::Altitude(56000.5)),
            Call::Reading(Reading::Altitude(56001.0)),
        ],
    )?;
    play(
        rt,
        120,
        &[
            Call::Turn(3, 250),
            Call::Turn(3, 3),
            Call::Display(0),
            Call::Turn(3, 250),
            Call::Display(0),
            Call::Turn(3, 251),
            Call::Turn(3, 4),
            Call::Display(0),
        ],
    )?;
    play(
        rt,
        120,
        &[
            Call::Reading(Reading::VerticalSpeed(48.0)),
            Call::Event(131072),
            Call::Turn(0, 9),
            Call::Display(0),
        ],
    )
}

// Cases 6 to 10: event words.
fn play_events(rt: &impl Print) -> io::Result<()> {
    play(rt, 120, &[Call::Event(16384), Call::Display(0)])?;
    play(rt, 120, &[Call::Event(16400), Call::Display(0)])?;
    play(
        rt,
        120,
        &[
            Call::Event(65536),
            Call::Display(0),
            Call::Event(1024),
            Call::Display(0),
            Call::Event(2048),
            Call::Display(0),
            Call::Event(131072),
            Call::Display(0),
        ],
    )?;
    play(
        rt,
        120,
        &[
            Call::Event(65536),
            Call::Event(1024),
            Call::Event(4),
            Call::Display(0),
            Call::Event(2048),
            Call::Display(0),
        ],
    )?;
    play(rt, 120, &[Call::Event(0), Call::Event(2097152)])
}

// Cases 11 and 12: sends, refreshes and a transfer; then starts at 90 and at 59.
fn play_sides(rt: &impl Print) -> io::Result<()> {
    play(
        rt,
        120,
        &[
            Call::Event(16384),
            Call::Display(1),
            Call::Send(0),
            Call::Refresh(1),
            Call::Display(1),
            Call::Event(32),
            Call::Display(1),
            Call::Display(0),
            Call::Refresh(0),
            Call::Display(0),
            Call::Send(2),
            Call::Turn(4, 0),
        ],
    )?;
    play(rt, 90, &[Call::Event(262144), Call::Display(0)])?;
    play(rt, 59, &[Call::Display(0)])
}

fn main(rt: HostRuntime) -> io::Result<()> {
    play_numbers(&rt)?;
    play_events(&rt)?;
    play_sides(&rt)
}
