// A restorer: a channel over any bag. It numbers the letters of each pair, and hands them out in
// the order of their numbers, however the bag has reordered them.
#![tactic(auto)]

ghost use Rattle.std.specs.Prelude.{◌≡◌, ◌<◌, OnOk};
ghost use Rattle.restorer.specs.Stamps.{carries, carries_at, sought_in};
ghost use Rattle.restorer.specs.Windows.{all_from};
ghost use Rattle.restorer.specs.Restored.{waits_in, room_in, place_in, Sound, Made};
ghost use Rattle.std.proofs.Common.{rules};

use bag::{Bag, Stamped, empty_bag};
use channel::{Channel, Letter, Refusal, is_pair};

// The stamps of a pair's letters: the one of its oldest letter, which is due, and the one that its
// next letter gets. Stamps are 32-bit sequence numbers: after 4,294,967,295 comes 0.
#[derive(Clone, Copy)]
struct Window {
    due: u32,
    next: u32,
}

// A window for each sender and receiver.
#[derive(Clone, Copy)]
struct Windows {
    rows: [[Window; 8]; 8],
}

impl Windows {
    // For each pair the same first stamp.
    fn starting_at(stamp: u32) -> Windows
        ensures { result ≡ all_from stamp }
    {
        let window = Window {
            due: stamp,
            next: stamp,
        };
        Windows {
            rows: [[window; 8]; 8],
        }
    }
}

#[derive(Drop)]
pub struct Restorer<B: Bag> {
    windows: Windows,
    bag: B,
}

impl<B: Bag> Restorer<B> {
    // A restorer over the bag, which is emptied.
    pub fn new(bag: B) -> Restorer<B>
        ensures { B.sound bag → Made B.Bag bag 0 result }
    {
        Restorer::starting_at(bag, 0)
    }

    // The same, with another first stamp for each pair.
    pub fn starting_at(mut bag: B, stamp: u32) -> Restorer<B>
        ensures { B.sound bag → Made B.Bag bag stamp result }
    {
        empty_bag(&mut bag);
        Restorer {
            windows: Windows::starting_at(stamp),
            bag,
        }
    }

    // The bag in which the letters wait, to be looked at.
    pub fn bag(&self) -> &B
        ensures { result.now ≡ self.now.bag }
    {
        &self.bag
    }

    // Where the letter of the pair that is due stands in the bag, or why there is none.
    fn place(&self, from: u8, to: u8) -> Result<u16, Refusal>
        ensures place { B.sound self.now.bag → result ≡ place_in B.Bag self.now from to }
        ensures within { OnOk result ((from < 8) × (to < 8)) }
    {
        if !is_pair(from, to) {
            return Err(Refusal::NotAPair);
        }
        let due = self.windows.rows[from as usize][to as usize].due;
        seek(&self.bag, from, to, due).ok_or(Refusal::Empty)
    }
}

// Whether an item of the bag is the letter of the pair with the stamp. The three numbers stay three parameters: a struct
// of them would be made in one place and taken apart in one.
fn is_sought(item: Stamped, from: u8, to: u8, stamp: u32) -> bool
    ensures { result ≡ carries from to stamp item }
{
    from == item.from && to == item.to && stamp == item.stamp
}

// Whether the i-th item of the bag is the letter of the pair with the stamp.
fn is_at<B: Bag>(bag: &B, i: u16, from: u8, to: u8, stamp: u32) -> bool
    ensures { B.sound bag.now → result ≡ carries_at from to stamp (B.held bag.now) i }
{
    matches!(bag.show(i), Ok(item) if is_sought(item, from, to, stamp))
}

// The place of the first item that is the letter of the pair with the stamp.
fn seek<B: Bag>(bag: &B, from: u8, to: u8, stamp: u32) -> Option<u16>
    ensures { B.sound bag.now → result ≡ sought_in from to stamp (B.held bag.now) }
{
    (0..bag.count()).find(|i| is_at(bag, *i, from, to, stamp))
}

impl<B: Bag> Channel for Restorer<B> {
    ghost waiting = { waits_in B.Bag };

    ghost room = { room_in B.Bag };

    ghost sound = { Sound B.Bag };

    ghost within = { Prim.search rules };

    ghost least = { Prim.search rules };

    ghost most = { Prim.search rules };

    ghost nothing = { Prim.search rules };

    fn limit(&self) -> u16 {
        self.bag.limit()
    }

    fn count(&self) -> u16 {
        self.bag.count()
    }

    fn head(&self, from: u8, to: u8) -> Result<Letter, Refusal> {
        let i = self.place(from, to)?;
        Ok(self.bag.show(i)?.letter)
    }

    fn put(&mut self, from: u8, to: u8, letter: Letter) -> Result<(), Refusal> {
        if !is_pair(from, to) {
            return Err(Refusal::NotAPair);
        }
        let stamp = self.windows.rows[from as usize][to as usize].next;
        self.bag.put(Stamped {
            from,
            to,
            stamp,
            letter,
        })?;
        self.windows.rows[from as usize][to as usize].next = stamp.wrapping_add(1);
        Ok(())
    }

    fn take(&mut self, from: u8, to: u8) -> Result<Letter, Refusal> {
        let i = self.place(from, to)?;
        let item = self.bag.take(i)?;
        let due = self.windows.rows[from as usize][to as usize].due;
        self.windows.rows[from as usize][to as usize].due = due.wrapping_add(1);
        Ok(item.letter)
    }
}
