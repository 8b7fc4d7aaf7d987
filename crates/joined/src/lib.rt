// What joins the judge and the order of events: an accepted document gives what the laws of paths, cuts and queues ask for.
#![tactic(auto)]

ghost use Rattle.std.specs.Prelude.{◌≡◌};
ghost use Rattle.msc.specs.Meaning.{meaning_of};
ghost use Rattle.joined.specs.Ping.{ping};
ghost use Rattle.joined.specs.Theorems.{FairGives, SoundKeepsLimits, LabelsBelow, AcceptedGives, Acceptable};

// A well-formed document that breaks no rule gives what is asked. The answer is the number that its labels are below.
pub fn accepted_gives() -> u8
    ensures fair { FairGives }
    ensures limits { SoundKeepsLimits }
    ensures labels { LabelsBelow result }
    ensures given { AcceptedGives }
{
    64
}

// There is such a document. The answer is the number of its instances.
pub fn one_accepted() -> u8
    ensures accepted { Acceptable ping }
    ensures instances { result ≡ (meaning_of ping).instances }
{
    2
}
