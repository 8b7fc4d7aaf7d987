// Results about the rules.
ghost use Rattle.std.specs.Prelude.{◌≡◌};
ghost use Rattle.judge.specs.Results.{Determined, Drawings};

// No document that keeps every rule breaks one, and a document has one first break at most. Answers the number of rules.
pub fn judge_is_determined() -> u8
    ensures answer { result ≡ 7 }
    ensures theorem { Determined }
{
    7
}

// Small drawings: two that begin, one alone, two that wait for each other. Answers the number of drawings.
pub fn drawings_stand() -> u8
    ensures answer { result ≡ 3 }
    ensures theorem { Drawings }
{
    3
}
