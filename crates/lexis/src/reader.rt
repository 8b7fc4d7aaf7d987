// A reader: a lent text with a cursor, and the place of the token that was read last.
ghost use Rattle.std.specs.Prelude.{◌≡◌, ◌<◌, ◌≤◌, length, drop, IfOk};
ghost use Rattle.std.specs.List.{prefix_len};
ghost use Rattle.msc.specs.Spelling.{wordy};
ghost use Rattle.lexis.specs.Classes.{class_of, separator};
ghost use Rattle.lexis.specs.Lexing.{tok_of, word_of, next_of};
ghost use Rattle.lexis.specs.Readers.{meant, step_of, Reads, begun, moved, passed, symbol_of, symbol_at, Short};

use crate::bytes::{is_separator, is_wordy, symbol_of};
use crate::class::{Class, class_of};
use crate::keywords::keyword_at;
use crate::refusal::Refusal;
use crate::token::Token;
use msc::search::find;
use msc::words::Words;
use std::marker::Model;

// A word has at most so many bytes.
pub const LONGEST: usize = 16;

// A clause sees the words in force, the text, where it stands, the bytes that are left, and the place of the token read last.
// Tokens are parts of the text and may outlive the words.
#[derive(Drop)]
pub struct Reader<'a, 'w> {
    words: &'w Words,
    text: &'a [u8],
    at: usize,
    place: usize,
}

impl<'a, 'w> Model for Reader<'a, 'w> {
    ghost use Rattle.std.specs.Prelude.{◌≤◌, length, drop};
    ghost use Rattle.lexis.specs.Spots.{Spot};

    ghost Value = { Spot };

    ghost view = { λ r. record { words = r.words.now; text = r.text.now; at = r.at; rest = drop r.at r.text.now; place = r.place } };

    ghost invariant = { λ r. r.at ≤ length r.text.now };
}

impl<'a, 'w> Reader<'a, 'w> {
    // A reader at the start of a text.
    pub fn new(text: &'a [u8], words: &'w Words) -> Reader<'a, 'w>
        ensures { result ≡ record { words = words.now; text = text.now; at = 0; rest = text.now; place = 0 } }
    {
        Reader {
            words,
            text,
            at: 0,
            place: 0,
        }
    }

    // Another reader at the same place. A derived clone may fail, and this cannot.
    pub fn copied(&self) -> Reader<'a, 'w>
        ensures { result ≡ self.now }
    {
        Reader {
            words: self.words,
            text: self.text,
            at: self.at,
            place: self.place,
        }
    }

    // The whole text; what is left of it begins at the next byte.
    pub fn text(&self) -> &'a [u8]
        ensures is { result.now ≡ self.now.text }
        ensures rest { drop self.now.at result.now ≡ self.now.rest }
        ensures within { self.now.at ≤ length result.now }
    {
        self.text
    }

    // The place of the next byte.
    pub fn at(&self) -> usize
        ensures { result ≡ self.now.at }
    {
        let Reader { at, .. } = self;
        *at
    }

    // The first byte of the token that was read last.
    pub fn place(&self) -> usize
        ensures { result ≡ self.now.place }
    {
        let Reader { place, .. } = self;
        *place
    }

    // The bytes that are left.
    fn rest(&self) -> &'a [u8]
        ensures { result.now ≡ self.now.rest }
    {
        let text = self.text;
        &text[self.at..]
    }

    // Goes on to the first byte that is no separator, where a token begins.
    fn skip(&mut self)
        ensures { self.new ≡ begun self.old }
    {
        self.at += separators(self.rest());
        self.place = self.at;
    }

    // The word that begins here.
    fn word(&mut self) -> Result<Token<'a>, Refusal>
        ensures says { step_of (λ t. (meant t, self.old.at)) result self.new ≡ word_of self.old.words self.old.at self.old.rest (prefix_len wordy self.old.rest) }
        ensures moves { self.new ≡ moved (word_of self.old.words self.old.at self.old.rest (prefix_len wordy self.old.rest)) self.old }
        ensures short { IfOk result (λ t. Short (meant t)) }
    {
        let at = self.at;
        let rest = self.rest();
        let n = word_len(rest);
        if n > LONGEST {
            return Err(Refusal::Illegal(at));
        }
        self.at = at + n;
        Ok(token_of(&rest[..n], self.words))
    }

    // The symbol that stands here.
    #[tactic(auto, using(crate::proofs::Table::signs))]
    fn symbol(&mut self, b: u8) -> Result<Token<'a>, Refusal>
        requires { 0 < length self.old.rest }
        ensures says { step_of (λ t. (meant t, self.old.at)) result self.new ≡ symbol_at (symbol_of (class_of b)) self.old.at (drop 1 self.old.rest) }
        ensures moves { self.new ≡ moved (symbol_at (symbol_of (class_of b)) self.old.at (drop 1 self.old.rest)) self.old }
        ensures short { IfOk result (λ t. Short (meant t)) }
    {
        match symbol_of(b) {
            Some(x) => {
                self.at += 1;
                Ok(Token::Sign(x))
            }
            None => Err(Refusal::Illegal(self.at)),
        }
    }

    // The next token.
    pub fn next(&mut self) -> Result<Token<'a>, Refusal>
        ensures reads { Reads next_of (λ t. (meant t, self.new.place)) result self.old self.new }
        ensures moves { self.new ≡ passed self.old }
        ensures short { IfOk result (λ t. Short (meant t)) }
    {
        self.skip();
        let at = self.at;
        match self.rest() {
            [] => Ok(Token::End),
            [b, ..] => match class_of(*b) {
                Class::Letter => self.word(),
                Class::Open | Class::Close | Class::Colon | Class::Semi => self.symbol(*b),
                Class::Inner | Class::Separator | Class::Illegal => Err(Refusal::Illegal(at)),
            },
        }
    }
}

// How many separators stand in front.
fn separators(text: &[u8]) -> usize
    ensures is { result ≡ prefix_len separator text.now }
    ensures few { result ≤ length text.now }
{
    text.iter().take_while(|b| is_separator(**b)).count()
}

// How many bytes of a word stand in front.
fn word_len(text: &[u8]) -> usize
    ensures { result ≡ prefix_len wordy text.now }
{
    text.iter().take_while(|b| is_wordy(**b)).count()
}

// A word is a keyword or a name.
fn token_of<'a>(w: &'a [u8], words: &Words) -> Token<'a>
    ensures { meant result ≡ tok_of words.now w.now }
{
    match find(words.as_slice(), w) {
        Some(k) => Token::Word(keyword_at(k)),
        None => Token::Name(w),
    }
}
