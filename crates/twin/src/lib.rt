// A twin: a bag made of two bags of any make, its links.
#![tactic(auto)]

ghost use Rattle.std.specs.Prelude.{◌≡◌};
ghost use Rattle.bag.specs.Calls.{Put, Take};
ghost use Rattle.twin.specs.Twin.{held_by, space_of, Sound, is_full, first_takes, Made, Placed, Removed};
ghost use Rattle.std.proofs.Common.{rules};

use bag::{Bag, Stamped, empty_bag};
use channel::Refusal;

// The largest limit that a bag may have.
const MOST: u16 = 1024;

#[derive(Drop)]
pub struct Twin<A: Bag, B: Bag> {
    first: A,
    second: B,
}

impl<A: Bag, B: Bag> Twin<A, B> {
    // A twin of two bags, both emptied.
    pub fn new(mut first: A, mut second: B) -> Twin<A, B>
        ensures { A.Bag.sound first → B.Bag.sound second → Made A.Bag B.Bag first second result }
    {
        empty_bag(&mut first);
        empty_bag(&mut second);
        Twin { first, second }
    }

    // Whether the next letter goes to the first link: of the links that have space it is the one
    // with fewer letters, or neither has fewer.
    fn first_takes(&self) -> bool
        ensures { A.Bag.sound self.now.first → B.Bag.sound self.now.second → result ≡ first_takes A.Bag B.Bag self.now }
    {
        let m = self.first.count();
        let n = self.second.count();
        m < self.first.limit() && (n >= self.second.limit() || m <= n)
    }

    // Whether the twin holds as many letters as it may.
    fn is_full(&self) -> bool
        ensures { Sound A.Bag B.Bag self.now → result ≡ is_full A.Bag B.Bag self.now }
    {
        self.count() == self.limit()
    }
}

impl<A: Bag, B: Bag> Bag for Twin<A, B> {
    ghost held = { held_by A.Bag B.Bag };

    ghost space = { space_of A.Bag B.Bag };

    ghost sound = { Sound A.Bag B.Bag };

    ghost within = { Prim.search rules };

    ghost least = { Prim.search rules };

    ghost most = { Prim.search rules };

    fn limit(&self) -> u16 {
        self.first
            .limit()
            .saturating_add(self.second.limit())
            .min(MOST)
    }

    fn count(&self) -> u16 {
        self.first.count().saturating_add(self.second.count())
    }

    fn show(&self, i: u16) -> Result<Stamped, Refusal> {
        let n = self.first.count();
        if i < n {
            self.first.show(i)
        } else {
            self.second.show(i - n)
        }
    }

    // The link that does not get the letter stays as it was.
    fn put(&mut self, item: Stamped) -> Result<(), Refusal>
        ensures put { Sound A.Bag B.Bag self.old → Put (Sound A.Bag B.Bag) (held_by A.Bag B.Bag) (space_of A.Bag B.Bag) self.old self.new item result }
        ensures exact { Sound A.Bag B.Bag self.old → Placed A.Bag B.Bag self.old self.new item result }
    {
        if self.is_full() {
            return Err(Refusal::Full);
        }
        if self.first_takes() {
            self.first.put(item)
        } else {
            self.second.put(item)
        }
    }

    // The link that does not give the letter stays as it was.
    fn take(&mut self, i: u16) -> Result<Stamped, Refusal>
        ensures take { Sound A.Bag B.Bag self.old → Take (Sound A.Bag B.Bag) (held_by A.Bag B.Bag) (space_of A.Bag B.Bag) self.old self.new i result }
        ensures exact { Sound A.Bag B.Bag self.old → Removed A.Bag B.Bag self.old self.new i result }
    {
        let n = self.first.count();
        if i < n {
            self.first.take(i)
        } else {
            self.second.take(i - n)
        }
    }
}
