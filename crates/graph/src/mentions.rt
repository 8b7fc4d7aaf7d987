// At most eight mentions, in the order of a list.
ghost use Rattle.std.specs.Prelude.{◌≡◌, [], ◌∷◌, ◌++◌, ◌≤◌, length, if◌then◌else◌, nat_lt};
ghost use Rattle.msc.specs.Spelling.{has};
ghost use Rattle.forms.specs.Drafts.{mentioned};

use crate::mention::Mention;
use msc::search::contains;
use std::marker::Model;

// A list of mentions and no `ShortList`, which is of bytes: its room is zeros, where this one's is blank mentions.
// The places past the length hold blank mentions, so that a list is held in one way; it is copied freely, as a list of
// the kit (arrayvec) is not.
#[derive(Clone, Copy)]
pub struct Mentions {
    items: [Mention; 8],
    len: usize,
}

impl Model for Mentions {
    ghost use Rattle.std.specs.Prelude.{List, length, take};
    ghost use Rattle.forms.specs.Drafts as drafts;
    ghost use Rattle.graph.specs.Lists.{padded, Holds};

    ghost Value = { List drafts.Mention };

    ghost use Rattle.graph.specs.Fields.{same_list};

    ghost view = { λ a. take a.len a.items };

    ghost invariant = { λ a. Holds 8 a.len a.items };

    ghost inverse = { λ ms. record { items = padded 8 ms; len = length ms } };

    ghost inverse_ok = { λ a h. same_list a h };
}

impl Mentions {
    // The empty list.
    pub fn new() -> Mentions
        ensures { result ≡ [] }
    {
        Mentions {
            items: [Mention::blank(); 8],
            len: 0,
        }
    }

    // A list of one.
    pub fn one(m: Mention) -> Mentions
        ensures { result ≡ m ∷ [] }
    {
        let mut items = [Mention::blank(); 8];
        items[0] = m;
        Mentions { items, len: 1 }
    }

    pub fn as_slice(&self) -> &[Mention]
        ensures is { result.now ≡ self.now }
        ensures few { length self.now ≤ 8 }
    {
        let all = &self.items[..];
        &all[0..self.len]
    }

    // Whether one more fits.
    pub fn has_room(&self) -> bool
        ensures { result ≡ nat_lt (length self.now) 8 }
    {
        self.len < 8
    }

    // One more at the end, unless there are eight; whether it was done is all that there is to tell.
    pub fn push(&mut self, m: Mention) -> bool
        ensures done { result ≡ nat_lt (length self.old) 8 }
        ensures items { self.new ≡ (if result then self.old ++ m ∷ [] else self.old) }
        ensures few { length self.new ≤ 8 }
    {
        if self.len < 8 {
            let at = self.len;
            self.items[at] = m;
            self.len = at + 1;
            true
        } else {
            false
        }
    }

    // Whether the list names w.
    #[tactic(auto, using(crate::proofs::Rows::mention_names))]
    pub fn names(&self, w: &[u8]) -> bool
        ensures { result ≡ has (mentioned self.now) w.now }
    {
        contains(self.as_slice(), w)
    }
}
