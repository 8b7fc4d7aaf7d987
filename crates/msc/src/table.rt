// A table of at most N items: the list of those that are in use.
// Its room is one blank item repeated, by a rule of the project for tables of more than 64 items, and one type serves the small ones too.
ghost use Rattle.std.specs.Prelude.{◌≡◌, ◌≤◌, List, [], ◌∷◌, ◌++◌, length, take, if◌then◌else◌, nat_lt};

use std::marker::Model;

#[derive(Drop)]
pub struct Table<T: Copy, const N: usize> {
    items: [T; N],
    len: usize,
}

impl<T: Copy, const N: usize> Model for Table<T, N> {
    ghost Value = { List T };

    ghost view = { λ t. take t.len t.items };

    ghost invariant = { λ t. t.len ≤ N };
}

impl<T: Copy, const N: usize> Table<T, N> {
    // An empty table; `blank` fills the room.
    pub fn new(blank: T) -> Self
        ensures { result ≡ [] }
    {
        Table {
            items: [blank; N],
            len: 0,
        }
    }

    // The first N of these items.
    pub fn prefix(blank: T, items: &[T]) -> Self
        ensures { result ≡ take N items.now }
    {
        let mut table = Table::new(blank);
        table.extend(items);
        table
    }

    pub fn len(&self) -> usize
        ensures is { result ≡ length self.now }
        ensures few { length self.now ≤ N }
    {
        self.as_slice().len()
    }

    pub fn as_slice(&self) -> &[T]
        ensures is { result.now ≡ self.now }
        ensures few { length self.now ≤ N }
    {
        let all = &self.items[..];
        &all[0..self.len]
    }

    // One item more at the end, unless the table is full; whether it was done is all that there is to tell.
    pub fn push(&mut self, x: T) -> bool
        ensures done { result ≡ nat_lt (length self.old) N }
        ensures items { self.new ≡ (if result then self.old ++ x ∷ [] else self.old) }
        ensures few { length self.new ≤ N }
    {
        if self.len < N {
            let at = self.len;
            self.items[at] = x;
            self.len = at + 1;
            true
        } else {
            false
        }
    }

    // These items more at the end, as many as there is room for.
    pub fn extend(&mut self, more: &[T])
        ensures { self.new ≡ take N (self.old ++ more.now) }
    {
        let at = self.len;
        let n = more.len().min(N - at);
        let all = &mut self.items[..];
        all[at..at + n].copy_from_slice(&more[0..n]);
        self.len = at + n;
    }

    // The items from place n on are left out.
    pub fn truncate(&mut self, n: usize)
        ensures { self.new ≡ take n self.old }
    {
        if n < self.len {
            self.len = n;
        }
    }

    // A derived clone may fail, and this cannot.
    pub fn copied(&self) -> Self
        ensures { result ≡ self.now }
    {
        Table {
            items: self.items,
            len: self.len,
        }
    }
}
