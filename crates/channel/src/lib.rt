// Letters, and what a channel of letters means.
#![tactic(auto)]

ghost use Rattle.std.specs.Prelude.{◌≡◌, ℕ, ◌≤◌, false, List, []};
ghost use Rattle.channel.specs.declared.Letter.{Letter};
ghost use Rattle.channel.specs.Refusals.{number_of};
ghost use Rattle.channel.specs.Waits.{is_pair, total, head_of};
ghost use Rattle.channel.specs.Calls.{Put, Take};

// A letter is the header of one message on its way: the label and the place of the chart's copy
// that it belongs to, the message name's number, and the sender's turns, one for each instance.
// Letters are equal if all their fields are.
#[derive(Clone, Copy, Debug, Default, PartialEq, Eq)]
pub struct Letter {
    pub label: u8,
    pub name: u8,
    pub place: u16,
    pub turns: [u16; 8],
}

impl Letter {
    // A letter of zeros, which `default` gives too: the value of a constant may call no function.
    pub const BLANK: Letter = Letter {
        label: 0,
        name: 0,
        place: 0,
        turns: [0; 8],
    };
}

// Why a call of a channel or a bag is refused.
#[derive(Clone, Copy, PartialEq, Eq, Debug)]
pub enum Refusal {
    // The two numbers are no sender and receiver.
    NotAPair,
    // As many letters wait as the limit allows.
    Full,
    // No letter is there to be shown or taken.
    Empty,
}

impl Refusal {
    // The number under which the refusal is reported, by a rule of the project.
    pub fn number(self) -> u8
        ensures { result ≡ number_of self }
    {
        match self {
            Refusal::NotAPair => 41,
            Refusal::Full => 42,
            Refusal::Empty => 43,
        }
    }
}

// Whether two numbers are a sender and a receiver: different, and both below 8.
pub fn is_pair(from: u8, to: u8) -> bool
    ensures { result ≡ is_pair from to }
{
    from < 8 && to < 8 && from != to
}

// A channel keeps, for each pair, a first-in-first-out queue of letters under one common limit.
// Each call's promise stands under `sound`, the channel's invariant, which each maker gives and
// each call keeps.
pub trait Channel {
    // The letters that wait, by sender and receiver, the oldest first.
    ghost waiting: { Self → ℕ → ℕ → List Letter };

    // How many letters may wait in all.
    ghost room: { Self → ℕ };

    ghost sound: { Self → Type 0 };

    // How many letters may wait in all.
    fn limit(&self) -> u16
        ensures { sound self.now → result ≡ room self.now };

    // How many letters wait in all.
    fn count(&self) -> u16
        ensures { sound self.now → result ≡ total (waiting self.now) };

    // The oldest letter of a pair.
    fn head(&self, from: u8, to: u8) -> Result<Letter, Refusal>
        ensures { sound self.now → result ≡ head_of (waiting self.now) from to };

    // Adds a letter at the end of its pair's queue.
    fn put(&mut self, from: u8, to: u8, letter: Letter) -> Result<(), Refusal>
        ensures { sound self.old → Put sound waiting room self.old self.new from to letter result };

    // Removes the oldest letter of a pair, and answers it.
    fn take(&mut self, from: u8, to: u8) -> Result<Letter, Refusal>
        ensures { sound self.old → Take sound waiting room self.old self.new from to result };

    ghost within: { (c : Self) → sound c → total (waiting c) ≤ room c };

    ghost least: { (c : Self) → sound c → 1 ≤ room c };

    ghost most: { (c : Self) → sound c → room c ≤ 1024 };

    ghost nothing: { (c : Self) → sound c → (f t : ℕ) → is_pair f t ≡ false → waiting c f t ≡ [] };
}
