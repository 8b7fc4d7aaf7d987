// The numbers of refusals, and what they name: one definition gives them, by a rule of the project.
ghost use Rattle.std.specs.Prelude.{◌≡◌};
ghost use Rattle.judge.specs.Rules.{number_of, value_of};

use crate::refusal::Refusal;

impl Refusal {
    pub fn number(self) -> u8
        ensures { result ≡ number_of self }
    {
        match self {
            Refusal::Unmatched(_) => 11,
            Refusal::Cyclic(_) => 12,
            Refusal::NotOneFirst(_) => 13,
            Refusal::EndAtStart(_) => 14,
            Refusal::TwoLeaders(_) => 15,
            Refusal::LeaderAbsent(_) => 16,
            Refusal::NoEnd(_) => 17,
        }
    }

    pub fn value(self) -> u8
        ensures { result ≡ value_of self }
    {
        match self {
            Refusal::Unmatched(chart) | Refusal::Cyclic(chart) | Refusal::NotOneFirst(chart) =>
                chart,
            Refusal::EndAtStart(label)
            | Refusal::TwoLeaders(label)
            | Refusal::LeaderAbsent(label)
            | Refusal::NoEnd(label) => label,
        }
    }
}
