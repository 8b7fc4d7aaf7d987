// Tokens of a kind that a form asks for.
ghost use Rattle.std.specs.Prelude.{◌≡◌};
ghost use Rattle.lexis.specs.Lexing.{is_key, is_sign, is_end, name_at, word_at, sign_at, end_at};
ghost use Rattle.lexis.specs.Readers.{meant, Reads, passed};

use crate::reader::Reader;
use crate::refusal::Refusal;
use crate::token::Token;
use msc::name::Name;
use msc::symbol::Symbol;
use msc::words::Keyword;

impl<'a> Token<'a> {
    // Whether this is the keyword k.
    pub fn is_word(self, k: Keyword) -> bool
        ensures { result ≡ is_key k (meant self.entry) }
    {
        matches!(self, Token::Word(j) if j == k)
    }

    // Whether this is the symbol x.
    pub fn is_sign(self, x: Symbol) -> bool
        ensures { result ≡ is_sign x (meant self.entry) }
    {
        matches!(self, Token::Sign(y) if y == x)
    }

    pub fn is_end(self) -> bool
        ensures { result ≡ is_end (meant self.entry) }
    {
        matches!(self, Token::End)
    }
}

impl<'a, 'w> Reader<'a, 'w> {
    // A name; its place is the reader's.
    pub fn name(&mut self) -> Result<Name, Refusal>
        ensures reads { Reads name_at (λ n. (n, self.new.place)) result self.old self.new }
        ensures moves { self.new ≡ passed self.old }
    {
        match self.next()? {
            Token::Name(w) => Name::of(w).ok_or(Refusal::Unexpected(self.place())),
            Token::Word(_) | Token::Sign(_) | Token::End => Err(Refusal::Unexpected(self.place())),
        }
    }

    // The keyword k.
    pub fn keyword(&mut self, k: Keyword) -> Result<(), Refusal>
        ensures reads { Reads (λ ws. word_at ws k) (λ _. tt) result self.old self.new }
        ensures moves { self.new ≡ passed self.old }
    {
        let t = self.next()?;
        if t.is_word(k) {
            Ok(())
        } else {
            Err(Refusal::Unexpected(self.place()))
        }
    }

    // The symbol x.
    pub fn sign(&mut self, x: Symbol) -> Result<(), Refusal>
        ensures reads { Reads (λ ws. sign_at ws x) (λ _. tt) result self.old self.new }
        ensures moves { self.new ≡ passed self.old }
    {
        let t = self.next()?;
        if t.is_sign(x) {
            Ok(())
        } else {
            Err(Refusal::Unexpected(self.place()))
        }
    }

    // The text's end.
    pub fn end(&mut self) -> Result<(), Refusal>
        ensures reads { Reads end_at (λ _. tt) result self.old self.new }
        ensures moves { self.new ≡ passed self.old }
    {
        let t = self.next()?;
        if t.is_end() {
            Ok(())
        } else {
            Err(Refusal::Unexpected(self.place()))
        }
    }
}
