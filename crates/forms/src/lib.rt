// The forms of a text: what reading means, and its laws. No code but what names the theorems.
#![tactic(auto)]

ghost use Rattle.std.specs.Prelude.{◌≡◌};
ghost use Rattle.forms.specs.Theorems.{ReadsExactly, ReadsBack, IsShortest, NoShorter, SpotsInside};

// The laws of reading and writing. Answers how many they are.
pub fn forms_stand() -> u8
    ensures answer { result ≡ 5 }
    ensures exactly { ReadsExactly }
    ensures back { ReadsBack }
    ensures shortest { IsShortest }
    ensures no_shorter { NoShorter }
    ensures spots { SpotsInside }
{
    5
}
