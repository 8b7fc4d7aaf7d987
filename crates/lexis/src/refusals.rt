// The number and the value of a refusal, which the program prints: one definition gives them, by a rule of the project.
ghost use Rattle.std.specs.Prelude.{◌≡◌};
ghost use Rattle.lexis.specs.Refusals.{number_of, value_of};

use crate::refusal::Refusal;

impl Refusal {
    pub fn number(self) -> u8
        ensures { result ≡ number_of self }
    {
        match self {
            Refusal::TooLong => 1,
            Refusal::Illegal(_) => 2,
            Refusal::Unexpected(_) => 3,
            Refusal::Limit(_) => 4,
            Refusal::Twice(_) => 5,
            Refusal::Undeclared(_) => 6,
            Refusal::Itself(_) => 7,
            Refusal::Short(_) => 8,
        }
    }

    // The longest text, the spot, or the length needed.
    pub fn value(self) -> usize
        ensures { result ≡ value_of self }
    {
        match self {
            Refusal::TooLong => 32768,
            Refusal::Illegal(p)
            | Refusal::Unexpected(p)
            | Refusal::Limit(p)
            | Refusal::Twice(p)
            | Refusal::Undeclared(p)
            | Refusal::Itself(p) => p,
            Refusal::Short(n) => n,
        }
    }
}
