// What a line of a script does to the bus area, which is the first bytes of a store that its caller lends.
#![tactic(auto)]

ghost use Rattle.std.specs.Prelude.{◌≡◌, cond, take, replicate, Ok, Err};
ghost use Rattle.numerals.specs.Pairs.{laid_over};
ghost use Rattle.scripts.specs.declared.Mistake.{Mistake};
ghost use Rattle.areas.specs.Areas.{poked_bytes, inside, poked, area_by, area_answer};

use bench::Bench;
use refusals::Refusal;
use scripts::{AreaAct, Command, Mistake};

// Whether the bytes that a poke line holds lie inside the area from a start on.
fn lie_inside(start: u64, line: &[u8], area: &[u8]) -> bool
    ensures { result ≡ inside start (poked_bytes line.now) area.now }
{
    let count = scripts::pairs_of(line).len() / 2;
    count <= area.len() && start as usize <= area.len() - count
}

// Zeros over the first n bytes of a store, as many as it has.
fn clear(store: &mut [u8], n: usize)
    ensures { store.new ≡ laid_over (replicate n 0) store.old }
{
    let n = n.min(store.len());
    store[..n].fill(0);
}

// Puts the bytes that a poke line holds into the area, if they lie inside.
fn poke(start: u64, line: &[u8], area: &mut [u8]) -> Result<(), Mistake>
    ensures answer { result ≡ cond (inside start (poked_bytes line.now) area.old) (Ok tt) (Err Mistake.NoRoom) }
    ensures new_area { area.new ≡ poked start (poked_bytes line.now) area.old }
{
    if !lie_inside(start, line, area) {
        return Err(Mistake::NoRoom);
    }
    numerals::put_pairs(scripts::pairs_of(line), &mut area[start as usize..]);
    Ok(())
}

// What was asked, whether a frame that it writes is refused, and how long the area is then.
#[derive(Clone, Copy)]
pub struct AreaAnswer {
    pub asked: Result<Command, Mistake>,
    pub written: Result<(), Refusal>,
    pub length: usize,
}

// Carries out a line's act, if it has one, on the area, which has so many bytes of the store, or all where there are fewer.
#[tactic(auto, unfolding(crate::specs::Areas::area_answer))]
pub fn answer_in(
    act: Option<AreaAct>,
    asked: Result<Command, Mistake>,
    line: &[u8],
    b: &Bench,
    store: &mut [u8],
    length: usize,
) -> AreaAnswer
    ensures answer { result ≡ area_answer act asked line.now b.now (take length store.old) }
    ensures new_store { store.new ≡ laid_over (area_by act line.now b.now (take length store.old)) store.old }
{
    let n = length.min(store.len());
    let mut answer = AreaAnswer {
        asked,
        written: Ok(()),
        length: n,
    };
    match act {
        None => {}
        Some(AreaAct::Clears(new)) => {
            answer.length = new as usize;
            clear(store, answer.length);
        }
        Some(AreaAct::Pokes(start)) => {
            answer.asked = poke(start, line, &mut store[..n]).and(asked);
        }
        Some(AreaAct::Writes(side, start)) => {
            answer.written = frames::write(b, side, &mut store[..n], start as usize);
        }
    }
    answer
}
