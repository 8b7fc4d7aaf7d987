// Where a word stands among rows that have names.
ghost use Rattle.std.specs.Prelude.{◌≡◌, ◌<◌, ℕ, List, map, length, IfSome};
ghost use Rattle.msc.specs.Spelling.{place, has};

use crate::chart::Chart;
use crate::label::Label;
use crate::name::Name;

// A row with a name.
pub trait Named {
    ghost called: { Self → List ℕ };

    fn word(&self) -> &[u8]
        ensures { result.now ≡ called self.now };
}

impl Named for Name {
    ghost called = { λ n. n };

    fn word(&self) -> &[u8] {
        self.as_bytes()
    }
}

impl Named for Chart {
    ghost called = { λ c. c.name };

    fn word(&self) -> &[u8] {
        self.name.as_bytes()
    }
}

impl Named for Label {
    ghost called = { λ l. l.name };

    fn word(&self) -> &[u8] {
        self.name.as_slice()
    }
}

// The first row that is called w.
pub fn find<T: Named>(rows: &[T], w: &[u8]) -> Option<usize>
    ensures is { result ≡ place (map T.called rows.now) w.now }
    ensures within { IfSome result (λ k. k < length rows.now) }
{
    rows.iter().position(|row| w == row.word())
}

// Whether some row is called w.
#[tactic(auto, using(crate::proofs::Places::has_from_place))]
pub fn contains<T: Named>(rows: &[T], w: &[u8]) -> bool
    ensures { result ≡ has (map T.called rows.now) w.now }
{
    find(rows, w).is_some()
}
