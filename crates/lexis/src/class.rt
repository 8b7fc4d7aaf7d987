// What each byte of a text is.
ghost use Rattle.std.specs.Prelude.{◌≡◌};
ghost use Rattle.lexis.specs.Classes.{class_of};

#[derive(Clone, Copy)]
pub enum Class {
    Separator,
    Letter,
    // a digit or the underscore
    Inner,
    Open,
    Close,
    Colon,
    Semi,
    Illegal,
}

const L: Class = Class::Letter;

const I: Class = Class::Inner;

const W: Class = Class::Separator;

const O: Class = Class::Open;

const C: Class = Class::Close;

const N: Class = Class::Colon;

const S: Class = Class::Semi;

const B: Class = Class::Illegal;

// A table of all 256 bytes, by a rule of the project; what it says is proved once over all entries.
static CLASSES: [Class; 256] = [
    B, B, B, B, B, B, B, B, B, W, W, B, B, W, B, B, B, B, B, B, B, B, B, B, B, B, B, B, B, B, B, B,
    W, B, B, B, B, B, B, B, O, C, B, B, B, B, B, B, I, I, I, I, I, I, I, I, I, I, N, S, B, B, B, B,
    B, L, L, L, L, L, L, L, L, L, L, L, L, L, L, L, L, L, L, L, L, L, L, L, L, L, L, B, B, B, B, I,
    B, L, L, L, L, L, L, L, L, L, L, L, L, L, L, L, L, L, L, L, L, L, L, L, L, L, L, B, B, B, B, B,
    B, B, B, B, B, B, B, B, B, B, B, B, B, B, B, B, B, B, B, B, B, B, B, B, B, B, B, B, B, B, B, B,
    B, B, B, B, B, B, B, B, B, B, B, B, B, B, B, B, B, B, B, B, B, B, B, B, B, B, B, B, B, B, B, B,
    B, B, B, B, B, B, B, B, B, B, B, B, B, B, B, B, B, B, B, B, B, B, B, B, B, B, B, B, B, B, B, B,
    B, B, B, B, B, B, B, B, B, B, B, B, B, B, B, B, B, B, B, B, B, B, B, B, B, B, B, B, B, B, B, B,
];

// The class of a byte, by the table of all 256.
pub fn class_of(b: u8) -> Class
    ensures { result ≡ class_of b }
{
    CLASSES[b as usize]
}
