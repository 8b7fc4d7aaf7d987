// The forms that a document's text repeats.
ghost use Rattle.std.specs.Prelude.{◌≡◌, [], ◌∷◌};
ghost use Rattle.msc.specs.Tokens.{name as named, word as reserved, sign as symbol};
ghost use Rattle.msc.specs.declared.symbol.Symbol.TheVariants.{Semi};
ghost use Rattle.writing.specs.Pens.{penned};

use crate::pen::Pen;
use msc::symbol::Symbol;
use msc::words::Keyword;

impl<'a> Pen<'a> {
    // word name ;
    pub(crate) fn titled(&mut self, k: Keyword, w: &[u8])
        ensures { self.new ≡ penned self.old (reserved k ∷ named w.now ∷ symbol Semi ∷ []) }
    {
        self.keyword(k);
        self.word(w);
        self.sign(Symbol::Semi);
    }

    // word ;
    pub(crate) fn closing(&mut self, k: Keyword)
        ensures { self.new ≡ penned self.old (reserved k ∷ symbol Semi ∷ []) }
    {
        self.keyword(k);
        self.sign(Symbol::Semi);
    }
}
