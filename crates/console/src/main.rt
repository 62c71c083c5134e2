// The console: a script comes in line by line, its commands are done in turn on a bench that starts
// as power-on's and on a bus area that starts empty, and their answers go out. Nothing is decided here: the calls do that.
#![tactic(auto)]

mod answers;
mod messages;
mod output;

ghost use Rattle.std.specs.Prelude.{◌≡◌, ◌≤◌, length, take};
ghost use Rattle.sessions.specs.Sessions.{after_end, fed};

use answers::put_answer;
use output::Outlet;
use sessions::Session;
use std::io::{Error, Read, Stdin};
use std::marker::Model;

// A session, and where its answers go.
#[derive(Drop)]
struct Console {
    session: Session,
    out: Outlet,
}

// What the proofs see of it: what a script leaves from one byte to the next.
impl Model for Console {
    ghost use Rattle.sessions.specs.declared.Session.{Session as CodeSession};

    ghost Value = { CodeSession };

    ghost view = { λ c. c.session };
}

impl Console {
    // A piece of the script is carried out, and its answers are written.
    fn feed(&mut self, piece: &[u8])
        ensures { self.new ≡ fed self.old piece.now }
    {
        for byte in piece {
            let taken = self.session.take_byte(*byte);
            // the outlet refuses no text
            let _ = put_answer(&mut self.out, &taken, &self.session);
        }
        self.out.flush();
    }

    // The script's end: a last line without a line end is carried out, and its answer is written.
    fn finish(&mut self)
        ensures { self.new ≡ after_end self.old }
    {
        let taken = self.session.end_script();
        let _ = put_answer(&mut self.out, &taken, &self.session);
        self.out.flush();
    }

    // Reads a piece of the script, carries it out, and answers how long it was.
    fn take_piece(&mut self, script: &mut Stdin, input: &mut [u8]) -> usize
        ensures within { result ≤ length input.new }
        ensures answer { self.new ≡ fed self.old (take result input.new) }
    {
        let length = read_piece(script, input);
        self.feed(&input[..length]);
        length
    }
}

// Reads a piece of the script, and answers how long it is. A read that fails counts as the script's end.
fn read_piece(script: &mut Stdin, input: &mut [u8]) -> usize
    ensures { result ≤ length input.new }
{
    script.read(input).unwrap_or(0)
}

// An empty piece is the script's end. A write that failed ends the program with its error.
fn main(rt: HostRuntime) -> Result<(), Error> {
    let mut script = rt.stdin();
    let mut input = io::large_buffer();
    let mut console = Console {
        session: Session::begin(),
        out: Outlet::new(rt.stdout()),
    };
    // every loop has to end, and a script of more pieces there is not
    for _ in 0..u64::MAX {
        let length = console.take_piece(&mut script, &mut input);
        console.out.outcome()?;
        if length == 0 {
            break;
        }
    }
    console.finish();
    console.out.outcome()
}
