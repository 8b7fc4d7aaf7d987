// A tray: a bag of at most 32 letters, in fixed memory, that fills the gap of a letter taken with
// its last one.
#![tactic(auto)]

ghost use Rattle.std.specs.Prelude.{◌≡◌, []};
ghost use Rattle.bag.specs.Held.{put_of};
ghost use Rattle.bag.specs.Calls.{Put, Take};
ghost use Rattle.tray.specs.Tray.{letters_in, space_of, Sound, after_put, after_take};
ghost use Rattle.std.proofs.Common.{rules, arith};

mod table;

use arrayvec::ArrayVec;
use bag::{Bag, Stamped};
use channel::Refusal;
pub use table::Tray;

impl Tray {
    // A tray that holds nothing.
    pub fn new() -> Tray
        ensures sound { Sound result }
        ensures empty { letters_in result ≡ [] }
        ensures limit { space_of result ≡ 32 }
    {
        Tray {
            items: ArrayVec::new(),
        }
    }

    // Adds a letter behind the others, if a place is left.
    fn push(&mut self, item: Stamped) -> Result<(), Refusal>
        ensures answer { result ≡ put_of (letters_in self.old) 32 }
        ensures items { letters_in self.new ≡ after_put (letters_in self.old) item }
    {
        self.items.try_push(item).map_err(|_| Refusal::Full)
    }
}

impl Bag for Tray {
    ghost held = { letters_in };

    ghost space = { space_of };

    ghost sound = { Sound };

    ghost within = { first_of (Prim.search rules, Prim.grind (arith, Self.row.coded.inj)) };

    ghost least = { first_of (Prim.search rules, Prim.grind (arith, Self.row.coded.inj)) };

    ghost most = { first_of (Prim.search rules, Prim.grind (arith, Self.row.coded.inj)) };

    fn limit(&self) -> u16 {
        self.items.capacity() as u16
    }

    fn count(&self) -> u16 {
        self.items.len() as u16
    }

    fn show(&self, i: u16) -> Result<Stamped, Refusal> {
        self.items.get(i as usize).copied().ok_or(Refusal::Empty)
    }

    // The new letter comes last.
    fn put(&mut self, item: Stamped) -> Result<(), Refusal>
        ensures put { Sound self.old → Put Sound letters_in space_of self.old self.new item result }
        ensures exact { letters_in self.new ≡ after_put (letters_in self.old) item }
    {
        self.push(item)
    }

    // The last letter fills the gap.
    fn take(&mut self, i: u16) -> Result<Stamped, Refusal>
        ensures take { Sound self.old → Take Sound letters_in space_of self.old self.new i result }
        ensures exact { letters_in self.new ≡ after_take (letters_in self.old) i }
    {
        let item = self.show(i)?;
        let last = self.items[self.items.len() - 1];
        self.items[i as usize] = last;
        self.items.pop();
        Ok(item)
    }
}

#[cfg(test)]
mod tests {
    use super::*;
    use channel::Letter;
    use std::test::Fail;

    fn item(stamp: u32) -> Stamped {
        Stamped {
            from: 0,
            to: 1,
            stamp,
            letter: Letter::default(),
        }
    }

    #[test]
    fn last_fills_the_gap(rt: HostRuntime) -> Result<(), Fail> {
        let mut tray = Tray::new();
        tray.put(item(5))?;
        tray.put(item(6))?;
        tray.put(item(7))?;
        assert_eq!(rt; tray.take(0)?.stamp, 5);
        assert_eq!(rt; tray.show(0)?.stamp, 7);
        assert_eq!(rt; tray.show(1)?.stamp, 6);
        assert_eq!(rt; tray.count(), 2);
        Ok(())
    }
}
