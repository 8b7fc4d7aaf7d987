// A short list of bytes, held by value: at most N.
ghost use Rattle.std.specs.Prelude.{◌≡◌, ◌<◌, ◌≤◌, [], ◌∷◌, ◌++◌, length, take, if◌then◌else◌, nat_lt, IfSome, MatchOption};

use std::marker::Model;

// The places past the length are zero, so that a list is held in one way; it is copied freely, as a list of the kit (arrayvec) is not.
#[derive(Clone, Copy)]
pub struct ShortList<const N: usize> {
    items: [u8; N],
    len: usize,
}

impl<const N: usize> Model for ShortList<N> {
    ghost use Rattle.std.specs.Prelude.{ℕ, List, length, take};
    ghost use Rattle.msc.specs.Padded.{padded, Holds};

    ghost Value = { List ℕ };

    ghost view = { λ s. take s.len s.items };

    ghost invariant = { λ s. Holds N s.len s.items };

    ghost use Rattle.msc.specs.Shorts.{same};

    ghost inverse = { λ w. record { items = padded N w; len = length w } };

    ghost inverse_ok = { λ a h. same N a h };
}

impl<const N: usize> ShortList<N> {
    // The empty list.
    pub const fn new() -> Self
        ensures { result ≡ [] }
    {
        ShortList {
            items: [0; N],
            len: 0,
        }
    }

    // The first N of these bytes.
    pub fn prefix(w: &[u8]) -> Self
        ensures { result ≡ take N w.now }
    {
        let len = w.len().min(N);
        let w = &w[0..len];
        let mut items = [0; N];
        let room = &mut items[..];
        room[0..len].copy_from_slice(w);
        ShortList { items, len }
    }

    // The list of these bytes, unless they are more than N.
    pub fn of(w: &[u8]) -> Option<Self>
        ensures is { MatchOption result (N < length w.now) (λ n. n ≡ w.now) }
        ensures few { IfSome result (λ _. length w.now ≤ N) }
    {
        if w.len() > N {
            None
        } else {
            Some(Self::prefix(w))
        }
    }

    pub fn as_slice(&self) -> &[u8]
        ensures is { result.now ≡ self.now }
        ensures few { length self.now ≤ N }
    {
        let all = &self.items[..];
        &all[0..self.len]
    }

    // One byte more at the end, unless there are N; whether it was done is all that there is to tell.
    pub fn push(&mut self, byte: u8) -> bool
        ensures done { result ≡ nat_lt (length self.old) N }
        ensures labels { self.new ≡ (if result then self.old ++ byte ∷ [] else self.old) }
        ensures few { length self.new ≤ N }
    {
        if self.len < N {
            let at = self.len;
            self.items[at] = byte;
            self.len = at + 1;
            true
        } else {
            false
        }
    }
}
