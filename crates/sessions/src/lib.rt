// What a script does to a bench and a bus area, from its bytes: lines are put together, and each is carried
// out on what the one before it left. Nothing is read or written here.
#![tactic(auto)]

mod bytes;
mod effects;

ghost use Rattle.std.specs.Prelude.{◌≡◌, take};
ghost use Rattle.areas.specs.Areas.{area_by, area_answer};
ghost use Rattle.sessions.specs.Script.{asked};
ghost use Rattle.sessions.specs.Sessions.{holding, beginning, carried_out, after_line, goes_on, byte_taken, after_byte, script_ended, after_end};

use areas::AreaAnswer;
use bench::Bench;
use bytes::Bytes;
use calls::reply::Reply;
use calls::sound::JudgedBench;
use refusals::Refusal;
use scripts::{AreaAct, Command, Mistake};

// What is kept from one byte of a script to the next.
#[derive(Clone, Copy)]
pub struct Session {
    bench: JudgedBench,
    // line ends so far, modulo 2^64
    pub lines: u64,
    // the bytes of the line that is being read; a line that fills its room is too long
    line: Bytes<256>,
    // while it is on, a drawing follows each answer of a command that can change the bench
    pub watch: bool,
    // the bus area
    area: Bytes<2048>,
}

// What a byte asked for: the command of a line that ended, what it answers, and whether a drawing follows. Inside
// a line it is `Blank`.
#[derive(Clone, Copy)]
pub struct Taken {
    pub asked: Result<Command, Mistake>,
    pub answer: Result<Reply, Refusal>,
    pub drawn: bool,
}

// What a line asks for. One that fills its room is longer than a line may be.
#[tactic(auto, unfolding(crate::specs::Script::asked))]
fn asked_in(line: &Bytes<256>) -> Result<Command, Mistake>
    ensures { result ≡ asked line.now }
{
    if line.is_full() {
        return Err(Mistake::TooLong);
    }
    scripts::command_of(line.as_slice())
}

// Carries out a line's act on the area. Of an area that is longer than its room the room's bytes are kept.
#[tactic(auto, unfolding(areas::specs::Areas::area_answer))]
fn answer_in<const N: usize>(
    act: Option<AreaAct>,
    asked: Result<Command, Mistake>,
    line: &[u8],
    b: &Bench,
    area: &mut Bytes<N>,
) -> AreaAnswer
    ensures answer { result ≡ area_answer act asked line.now b.now area.old }
    ensures new_area { area.new ≡ take N (area_by act line.now b.now area.old) }
{
    let done = areas::answer_in(act, asked, line, b, &mut area.room, area.count);
    let count = done.length.min(N);
    if count != area.count {
        // what is not the area's is zero
        let room = &mut area.room[..];
        room[count..].fill(0);
        area.count = count;
    }
    done
}

// What a byte asks for inside a line.
fn nothing() -> Taken
    ensures { result ≡ goes_on }
{
    Taken {
        asked: Ok(Command::Blank),
        answer: Ok(Reply::Done),
        drawn: false,
    }
}

impl Session {
    // A session in front of a script's first byte.
    pub fn begin() -> Session
        ensures { result ≡ beginning }
    {
        Session {
            bench: JudgedBench::from(calls::sound::power_on()),
            lines: 0,
            line: Bytes::new(),
            watch: false,
            area: Bytes::new(),
        }
    }

    // A session inside a script. Of a line 256 bytes are kept, and of an area 2,048.
    pub fn of(bench: Bench, lines: u64, line: &[u8], watch: bool, area: &[u8]) -> Session
        ensures { result ≡ holding bench lines line.now watch area.now }
    {
        Session {
            bench: JudgedBench::of(bench),
            lines,
            line: Bytes::of(line),
            watch,
            area: Bytes::of(area),
        }
    }

    pub fn bench(&self) -> &Bench
        ensures { result.now ≡ self.now.bench }
    {
        self.bench.bench()
    }

    // The bytes that are kept of the line that is being read.
    pub fn line(&self) -> &[u8]
        ensures { result.now ≡ self.now.line }
    {
        self.line.as_slice()
    }

    // The bytes of the bus area.
    pub fn area(&self) -> &[u8]
        ensures { result.now ≡ self.now.area }
    {
        self.area.as_slice()
    }

    // Carries out the line that was read: it is counted, and the next one begins.
    #[tactic(auto, unfolding(crate::specs::Sessions::carried_out, crate::specs::Sessions::after_line))]
    fn end_line(&mut self) -> Taken
        ensures answer { result ≡ carried_out self.old self.old.line (asked self.old.line) }
        ensures new_session { self.new ≡ after_line self.old self.old.line (asked self.old.line) }
    {
        let line = &self.line;
        let asked = asked_in(line);
        let effect = acts::effect_of(asked);
        let act = effects::area_act(effect);
        // the area is given the bench as it came
        let done = answer_in(
            act,
            asked,
            line.as_slice(),
            self.bench.bench(),
            &mut self.area,
        );
        let answer = acts::answer_to(&mut self.bench, asked);
        let drawn = effects::is_drawn(effect, self.watch);
        self.lines = self.lines.wrapping_add(1);
        self.line.clear();
        self.watch = effects::watch_after(effect, self.watch);
        Taken {
            asked: done.asked,
            answer: done.written.and(answer),
            drawn,
        }
    }

    // One byte more of the script.
    #[tactic(auto, unfolding(crate::specs::Sessions::byte_taken, crate::specs::Sessions::after_byte))]
    pub fn take_byte(&mut self, byte: u8) -> Taken
        ensures answer { result ≡ byte_taken self.old byte }
        ensures new_session { self.new ≡ after_byte self.old byte }
    {
        if byte == b'\n' {
            return self.end_line();
        }
        // one that has no room is dropped: the line is too long without it
        self.line.push(byte);
        nothing()
    }

    // The script's end. A last line without a line end is carried out.
    #[tactic(auto, unfolding(crate::specs::Sessions::script_ended, crate::specs::Sessions::after_end))]
    pub fn end_script(&mut self) -> Taken
        ensures answer { result ≡ script_ended self.old }
        ensures new_session { self.new ≡ after_end self.old }
    {
        if self.line().is_empty() {
            return nothing();
        }
        self.end_line()
    }
}
