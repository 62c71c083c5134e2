// The two sides of the bench, and what there is one of for each.
#![tactic(auto)]

ghost use Rattle.std.specs.Prelude.{◌≡◌};
ghost use Rattle.sides.specs.Sides.{number, other, side_of};

use refusals::Refusal;

#[derive(Clone, Copy)]
pub enum Side {
    Left,
    Right,
}

// Left is 0 and right is 1. Any other number names no side, and is refused with 2.
impl TryFrom<u32> for Side {
    type Error = Refusal;

    ghost try_from_gives = { λ n side. side ≡ side_of n };

    fn try_from(n: u32) -> Result<Side, Refusal> {
        match n {
            0 => Ok(Side::Left),
            1 => Ok(Side::Right),
            _ => Err(Refusal::UnknownSide),
        }
    }
}

impl Side {
    pub fn number(self) -> u32
        ensures { result ≡ number self }
    {
        match self {
            Side::Left => 0,
            Side::Right => 1,
        }
    }

    pub fn other(self) -> Side
        ensures { result ≡ other self }
    {
        match self {
            Side::Left => Side::Right,
            Side::Right => Side::Left,
        }
    }
}

// One for each side.
#[derive(Clone, Copy)]
pub struct Pair<T> {
    pub left: T,
    pub right: T,
}

impl<T: Copy> Pair<T> {
    ghost use Rattle.sides.specs.Sides.{at, with_at};

    pub fn get(self, side: Side) -> T
        ensures { result ≡ at side self }
    {
        match side {
            Side::Left => self.left,
            Side::Right => self.right,
        }
    }

    pub fn put(&mut self, side: Side, x: T)
        ensures { self.new ≡ with_at side x self.old }
    {
        match side {
            Side::Left => self.left = x,
            Side::Right => self.right = x,
        }
    }
}
