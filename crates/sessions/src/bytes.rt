// Bytes that lie in the value itself, so that what holds them can be copied.
ghost use Rattle.std.specs.Prelude.{◌≡◌, [], ◌∷◌, ◌++◌, length, take, nat_le};

use std::marker::Model;

// At most N bytes: the first of a room, which has zeros behind them.
#[derive(Clone, Copy)]
pub(crate) struct Bytes<const N: usize> {
    pub(crate) room: [u8; N],
    pub(crate) count: usize,
}

impl<const N: usize> Model for Bytes<N> {
    ghost use Rattle.std.specs.Prelude.{◌≡◌, ℕ, ◌≤◌, ◌-◌, ◌++◌, List, length, take, drop, replicate};
    ghost use lib.Seq.{length-take-le};
    ghost use Rattle.sessions.specs.Rooms.{refilled};

    ghost Value = { List ℕ };

    ghost view = { λ b. take b.count b.room };

    ghost inverse = { λ bytes. record { room = bytes ++ replicate (N - length bytes) 0; count = length bytes } };

    ghost invariant = { λ b. (b.count ≤ length b.room) × (drop b.count b.room ≡ replicate (N - b.count) 0) };

    ghost inverse_ok = { λ b h i. record { room = refilled N b.count b.room h.0 h.1 i; count = length-take-le b.count b.room h.0 i } };
}

impl<const N: usize> Bytes<N> {
    pub(crate) fn new() -> Self
        ensures { result ≡ [] }
    {
        Bytes {
            room: [0; N],
            count: 0,
        }
    }

    // As many of these as there is room for.
    pub(crate) fn of(bytes: &[u8]) -> Self
        ensures { result ≡ take N bytes.now }
    {
        let count = bytes.len().min(N);
        let mut room = [0; N];
        room[..count].copy_from_slice(&bytes[..count]);
        Bytes { room, count }
    }

    pub(crate) fn as_slice(&self) -> &[u8]
        ensures { result.now ≡ self.now }
    {
        &self.room[..self.count]
    }

    // Whether one byte more has no room.
    pub(crate) fn is_full(&self) -> bool
        ensures { result ≡ nat_le N (length self.now) }
    {
        N <= self.as_slice().len()
    }

    // One byte more, if it has room.
    pub(crate) fn push(&mut self, byte: u8)
        ensures { self.new ≡ take N (self.old ++ byte ∷ []) }
    {
        if self.count < N {
            self.room[self.count] = byte;
            self.count += 1;
        }
    }

    pub(crate) fn clear(&mut self)
        ensures { self.new ≡ [] }
    {
        self.room[..self.count].fill(0);
        self.count = 0;
    }
}
