// A pen: the document that it writes, the text so far, on a page with room for the longest text of a document, and whether a word stands last.
// It writes words and symbols, with a space only where a word follows a word.
ghost use Rattle.std.specs.Prelude.{◌≡◌, ◌≤◌, [], ◌∷◌, length};
ghost use Rattle.msc.specs.Sound.{most};
ghost use Rattle.msc.specs.Stored.{doc_of};
ghost use Rattle.msc.specs.Tokens.{name, word as reserved, sign as symbol};
ghost use Rattle.writing.specs.Pens.{blank, penned};

use msc::document::Document;
use msc::symbol::Symbol;
use msc::table::Table;
use msc::tables::Tables;
use msc::words::Keyword;
use std::marker::Model;

// The longest text of a document.
const MOST: usize = 32768;

// A clause sees the document, the bytes and whether a word stands last.
#[derive(Drop)]
pub(crate) struct Pen<'a> {
    pub(crate) document: &'a Document,
    // a document's text never passes its end
    page: Table<u8, MOST>,
    after: bool,
}

impl<'a> Model for Pen<'a> {
    ghost use Rattle.msc.specs.Stored.{doc_of};
    ghost use Rattle.writing.specs.Pens.{Page};

    ghost Value = { Page };

    ghost view = { λ p. record { document = doc_of p.document.now.tables; bytes = p.page; after = p.after } };
}

impl<'a> Pen<'a> {
    pub(crate) fn new(document: &'a Document) -> Pen<'a>
        ensures { result ≡ blank (doc_of document.now.tables) }
    {
        Pen {
            document,
            page: Table::new(0),
            after: false,
        }
    }

    // The tables of the document.
    pub(crate) fn tables(&self) -> &'a Tables
        ensures { doc_of result.now ≡ self.now.document }
    {
        let document = self.document;
        &document.tables
    }

    pub(crate) fn text(&self) -> &[u8]
        ensures is { result.now ≡ self.now.bytes }
        ensures few { length self.now.bytes ≤ most }
    {
        self.page.as_slice()
    }

    // A word.
    #[tactic(auto, unfolding(crate::specs::Pens::with))]
    pub(crate) fn word(&mut self, w: &[u8])
        ensures { self.new ≡ penned self.old (name w.now ∷ []) }
    {
        if self.after {
            self.page.extend(b" ");
        }
        self.page.extend(w);
        self.after = true;
    }

    // A symbol.
    #[tactic(auto, unfolding(crate::specs::Pens::with))]
    pub(crate) fn sign(&mut self, x: Symbol)
        ensures { self.new ≡ penned self.old (symbol x ∷ []) }
    {
        self.page.extend(&[u8::from(x)]);
        self.after = false;
    }

    // A reserved word, as the table spells it.
    #[tactic(auto, unfolding(crate::specs::Pens::with))]
    pub(crate) fn keyword(&mut self, k: Keyword)
        ensures { self.new ≡ penned self.old (reserved k ∷ []) }
    {
        let tables = self.tables();
        let spellings = tables.words.as_slice();
        self.word(spellings[usize::from(k)].as_bytes());
    }
}
