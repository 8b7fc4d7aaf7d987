// Lanes: a channel of at most 64 letters, in fixed memory, with a first-in-first-out queue for each
// pair.
#![tactic(auto)]

ghost use Rattle.std.specs.Prelude.{◌≡◌, ℕ, ◌-◌, ◌<◌, true, [], length, take, position};
ghost use Rattle.std.specs.List.{remove};
ghost use Rattle.channel.specs.Waits.{is_pair};
ghost use Rattle.lanes.specs.Lanes.{waits_of, room_of, Sound, place_in, push_of, after_push};
ghost use Rattle.lanes.specs.Slots.{is_of};
ghost use Rattle.lanes.specs.Rows.{total-rows, queue_none};
ghost use Rattle.std.proofs.Common.{arith, rules};

mod slot;
mod table;

use arrayvec::ArrayVec;
use channel::{Channel, Letter, Refusal, is_pair};
use slot::Slot;
pub use table::Lanes;

impl Lanes {
    // Lanes in which nothing waits.
    pub fn new() -> Lanes
        ensures sound { Sound result }
        ensures empty { (f t : ℕ) → waits_of result f t ≡ [] }
        ensures limit { room_of result ≡ 64 }
    {
        Lanes {
            slots: ArrayVec::new(),
        }
    }

    // Where the first slot of the pair stands.
    fn first(&self, from: u8, to: u8) -> Option<usize>
        ensures { result ≡ position (is_of from to) self.now.slots.items }
    {
        self.slots.iter().position(|slot| slot.is_of(from, to))
    }

    // The same, or why there is none.
    fn place(&self, from: u8, to: u8) -> Result<usize, Refusal>
        ensures { result ≡ place_in self.now from to }
    {
        if !is_pair(from, to) {
            return Err(Refusal::NotAPair);
        }
        self.first(from, to).ok_or(Refusal::Empty)
    }

    // Adds a slot behind the others, if a place is left.
    fn push(&mut self, slot: Slot) -> Result<(), Refusal>
        requires { is_pair slot.from slot.to ≡ true }
        ensures answer { result ≡ push_of self.old.slots.items }
        ensures slots { self.new.slots.items ≡ after_push self.old.slots.items slot }
    {
        self.slots.try_push(slot).map_err(|_| Refusal::Full)
    }
}

// Moves the slots behind i down by one, over the one at i. Few are copied, since a rotation costs a
// call, which many slots repay.
fn close(slots: &mut [Slot], i: usize)
    requires { i < length slots.old }
    ensures len { length slots.new ≡ length slots.old }
    ensures closed { take (length slots.old - 1) slots.new ≡ remove slots.old i }
{
    if slots.len() - i < 8 {
        slots.copy_within(i + 1.., i);
    } else {
        slots[i..].rotate_left(1);
    }
}

impl Channel for Lanes {
    ghost waiting = { waits_of };

    ghost room = { room_of };

    ghost sound = { Sound };

    ghost within = { λ c _. omega (arith, total-rows c.slots.items c.pairs, c.few) };

    ghost least = { first_of (Prim.search rules, Prim.grind (arith, Self.row.coded.inj)) };

    ghost most = { first_of (Prim.search rules, Prim.grind (arith, Self.row.coded.inj)) };

    ghost nothing = { λ c _ f t none. queue_none c.slots.items c.pairs f t none };

    fn limit(&self) -> u16 {
        self.slots.capacity() as u16
    }

    fn count(&self) -> u16 {
        self.slots.len() as u16
    }

    fn head(&self, from: u8, to: u8) -> Result<Letter, Refusal> {
        let at = self.place(from, to)?;
        Ok(self.slots[at].letter)
    }

    fn put(&mut self, from: u8, to: u8, letter: Letter) -> Result<(), Refusal> {
        if !is_pair(from, to) {
            return Err(Refusal::NotAPair);
        }
        self.push(Slot { from, to, letter })
    }

    fn take(&mut self, from: u8, to: u8) -> Result<Letter, Refusal> {
        let i = self.place(from, to)?;
        let letter = self.slots[i].letter;
        close(self.slots.as_mut_slice(), i);
        self.slots.pop();
        Ok(letter)
    }
}

#[cfg(test)]
mod tests {
    use super::*;
    use std::test::Fail;

    fn letter(name: u8) -> Letter {
        Letter {
            name,
            ..Letter::default()
        }
    }

    #[test]
    fn queues_are_apart(rt: HostRuntime) -> Result<(), Fail> {
        let mut lanes = Lanes::new();
        lanes.put(0, 1, letter(1))?;
        lanes.put(2, 1, letter(2))?;
        lanes.put(0, 1, letter(3))?;
        assert_eq!(rt; lanes.take(2, 1), Ok(letter(2)));
        assert_eq!(rt; lanes.take(0, 1), Ok(letter(1)));
        assert_eq!(rt; lanes.head(0, 1), Ok(letter(3)));
        assert_eq!(rt; lanes.count(), 1);
        Ok(())
    }

    #[test]
    fn refusals_come_in_order(rt: HostRuntime) -> Result<(), Fail> {
        let mut lanes = Lanes::new();
        for i in 0..64 {
            lanes.put(6, 7, letter(i))?;
        }
        assert_eq!(rt; lanes.count(), lanes.limit());
        assert_eq!(rt; lanes.put(7, 7, letter(0)), Err(Refusal::NotAPair));
        assert_eq!(rt; lanes.put(0, 1, letter(0)), Err(Refusal::Full));
        assert_eq!(rt; lanes.take(0, 1), Err(Refusal::Empty));
        assert_eq!(rt; lanes.take(6, 7), Ok(letter(0)));
        Ok(())
    }
}
