// Stamped letters, and what a bag of them means.
#![tactic(auto)]

ghost use Rattle.std.specs.Prelude.{◌≡◌, ℕ, ◌≤◌, List, length};
ghost use Rattle.bag.specs.declared.Stamped.{Stamped};
ghost use Rattle.bag.specs.Held.{shown_at};
ghost use Rattle.bag.specs.Calls.{Put, Take, Emptied};

use channel::{Letter, Refusal};

// A letter with its sender, its receiver and its number in the sequence of their letters.
#[derive(Clone, Copy, Default)]
pub struct Stamped {
    pub from: u8,
    pub to: u8,
    pub stamp: u32,
    pub letter: Letter,
}

// A bag keeps stamped letters under a limit, in an order of its own: a put or a take may reorder
// what it holds. Each call's promise stands under `sound`, the bag's invariant, which each maker
// gives and each call keeps.
pub trait Bag {
    // The letters in the bag, in the order in which it shows them.
    ghost held: { Self → List Stamped };

    // How many letters the bag may hold.
    ghost space: { Self → ℕ };

    ghost sound: { Self → Type 0 };

    // How many letters the bag may hold.
    fn limit(&self) -> u16
        ensures { sound self.now → result ≡ space self.now };

    // How many letters the bag holds.
    fn count(&self) -> u16
        ensures { sound self.now → result ≡ length (held self.now) };

    // The i-th letter, counted from 0.
    fn show(&self, i: u16) -> Result<Stamped, Refusal>
        ensures { sound self.now → result ≡ shown_at (held self.now) i };

    // Adds a letter.
    fn put(&mut self, item: Stamped) -> Result<(), Refusal>
        ensures { sound self.old → Put sound held space self.old self.new item result };

    // Removes the i-th letter, and answers it.
    fn take(&mut self, i: u16) -> Result<Stamped, Refusal>
        ensures { sound self.old → Take sound held space self.old self.new i result };

    ghost within: { (b : Self) → sound b → length (held b) ≤ space b };

    ghost least: { (b : Self) → sound b → 1 ≤ space b };

    ghost most: { (b : Self) → sound b → space b ≤ 1024 };
}

// Takes letters out of the bag until it holds none.
pub fn empty_bag<B: Bag>(bag: &mut B)
    ensures { B.sound bag.old → Emptied B.sound B.held B.space bag.old bag.new }
{
    let n = bag.count();
    for _done in 0..n {
        let _ = bag.take(0);
    }
}
