// The sixteen reserved words of the language, a value that reading and writing take.
ghost use Rattle.std.specs.Prelude.{◌≡◌, true, ℕ, List, slice_get};
ghost use Rattle.msc.specs.Spelling.{is_vocabulary};
ghost use Rattle.msc.specs.Standard.{standard_words};
ghost use Rattle.msc.specs.Tokens.{keywords, rank};

use crate::name::Name;
use std::marker::Model;

// What a reserved word stands for, whatever its spelling.
#[derive(Clone, Copy, PartialEq, Eq)]
pub enum Keyword {
    Mscdocument,
    Endmscdocument,
    Inst,
    Msc,
    Endmsc,
    Instance,
    Endinstance,
    Out,
    In,
    To,
    From,
    Action,
    Expr,
    Seq,
    Alt,
    End,
}

static KEYWORDS: [Keyword; 16] = [
    Keyword::Mscdocument,
    Keyword::Endmscdocument,
    Keyword::Inst,
    Keyword::Msc,
    Keyword::Endmsc,
    Keyword::Instance,
    Keyword::Endinstance,
    Keyword::Out,
    Keyword::In,
    Keyword::To,
    Keyword::From,
    Keyword::Action,
    Keyword::Expr,
    Keyword::Seq,
    Keyword::Alt,
    Keyword::End,
];

impl Keyword {
    // The keyword at a place of a table of reserved words.
    pub fn at(place: usize) -> Option<Keyword>
        ensures { result ≡ slice_get keywords place }
    {
        KEYWORDS.get(place).copied()
    }
}

// The place of a keyword in such a table.
impl From<Keyword> for usize {
    ghost from_gives = { λ k n. n ≡ rank k };

    fn from(k: Keyword) -> usize {
        k as usize
    }
}

// Sixteen different words, in the order of the keywords: whoever makes a table proves that they are.
#[derive(Clone, Copy)]
pub struct Words {
    pub spellings: [Name; 16],
}

impl Model for Words {
    ghost Value = { List (List ℕ) };

    ghost view = { λ w. w.spellings };

    ghost invariant = { λ w. is_vocabulary w.spellings ≡ true };

    ghost inverse = { λ ws. record { spellings = ws } };
}

impl Words {
    // The table that is in force unless another is given.
    pub fn standard() -> Words
        ensures { result ≡ standard_words }
    {
        Words {
            spellings: [
                Name::prefix(b"mscdocument"),
                Name::prefix(b"endmscdocument"),
                Name::prefix(b"inst"),
                Name::prefix(b"msc"),
                Name::prefix(b"endmsc"),
                Name::prefix(b"instance"),
                Name::prefix(b"endinstance"),
                Name::prefix(b"out"),
                Name::prefix(b"in"),
                Name::prefix(b"to"),
                Name::prefix(b"from"),
                Name::prefix(b"action"),
                Name::prefix(b"expr"),
                Name::prefix(b"seq"),
                Name::prefix(b"alt"),
                Name::prefix(b"end"),
            ],
        }
    }

    pub fn as_slice(&self) -> &[Name]
        ensures is { result.now ≡ self.now }
        ensures sound { is_vocabulary self.now ≡ true }
    {
        &self.spellings[..]
    }
}
