// Which bytes separate, which stand in words, and which are symbols.
ghost use Rattle.std.specs.Prelude.{◌≡◌};
ghost use Rattle.msc.specs.Spelling.{wordy};
ghost use Rattle.lexis.specs.Classes.{separator};
ghost use Rattle.lexis.specs.Readers.{is_separator, is_wordy, sign_of};

use crate::class::{Class, class_of};
use msc::symbol::Symbol;

fn separates(c: Class) -> bool
    ensures { result ≡ is_separator c }
{
    matches!(c, Class::Separator)
}

pub fn is_separator(b: u8) -> bool
    ensures { result ≡ separator b }
{
    separates(class_of(b))
}

fn in_words(c: Class) -> bool
    ensures { result ≡ is_wordy c }
{
    matches!(c, Class::Letter | Class::Inner)
}

pub fn is_wordy(b: u8) -> bool
    ensures { result ≡ wordy b }
{
    in_words(class_of(b))
}

// The symbol that a byte is, if it is one: by its character, which is a rule of the project.
pub fn symbol_of(b: u8) -> Option<Symbol>
    ensures { result ≡ sign_of b }
{
    match b as char {
        '(' => Some(Symbol::Open),
        ')' => Some(Symbol::Close),
        ':' => Some(Symbol::Colon),
        ';' => Some(Symbol::Semi),
        _ => None,
    }
}
