// The four symbols of the language: ( ) : ;
ghost use Rattle.std.specs.Prelude.{◌≡◌};
ghost use Rattle.msc.specs.Tokens.{sign_byte};

#[derive(Clone, Copy, PartialEq, Eq)]
pub enum Symbol {
    Open,
    Close,
    Colon,
    Semi,
}

// The byte that a symbol is.
impl From<Symbol> for u8 {
    ghost from_gives = { λ x b. b ≡ sign_byte x };

    fn from(x: Symbol) -> u8 {
        match x {
            Symbol::Open => b'(',
            Symbol::Close => b')',
            Symbol::Colon => b':',
            Symbol::Semi => b';',
        }
    }
}
