// A slot of the table.
ghost use Rattle.std.specs.Prelude.{◌≡◌};
ghost use Rattle.channel.specs.Waits.{same_pair};

use channel::Letter;

// A waiting letter, with its sender and receiver.
#[derive(Clone, Copy, Default)]
pub(crate) struct Slot {
    pub(crate) from: u8,
    pub(crate) to: u8,
    pub(crate) letter: Letter,
}

impl Slot {
    // Whether the letter is of the pair.
    pub(crate) fn is_of(&self, from: u8, to: u8) -> bool
        ensures { result ≡ same_pair self.now.from self.now.to from to }
    {
        from == self.from && to == self.to
    }
}
