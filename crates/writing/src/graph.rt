// The text of the graph of labels.
ghost use Rattle.std.specs.Prelude.{◌≡◌};
ghost use Rattle.std.specs.List.{flat_map};
ghost use Rattle.msc.specs.Shortest.{graph_tokens};
ghost use Rattle.writing.specs.Pens.{penned};
ghost use Rattle.writing.specs.Walks.{list_of, body_of, label_of};

use crate::pen::Pen;
use msc::label::{Body, Label};
use msc::symbol::Symbol;
use msc::words::Keyword;

impl<'a> Pen<'a> {
    // names joined by alt
    pub(crate) fn list(&mut self, list: &[u8])
        ensures { self.new ≡ penned self.old (list_of self.old.document list.now) }
    {
        if let [first, others @ ..] = list {
            self.word(self.label_name(*first as usize));
            for other in others {
                self.keyword(Keyword::Alt);
                self.word(self.label_name(*other as usize));
            }
        }
    }

    // end, or (name)seq(list)
    #[tactic(auto, using(crate::proofs::Pages::follow))]
    pub(crate) fn body(&mut self, body: &Body)
        ensures { self.new ≡ penned self.old (body_of self.old.document body.now) }
    {
        match body {
            Body::End => self.keyword(Keyword::End),
            Body::Node { chart, next } => {
                self.sign(Symbol::Open);
                self.word(self.chart_name(*chart as usize));
                self.sign(Symbol::Close);
                self.keyword(Keyword::Seq);
                self.sign(Symbol::Open);
                self.list(next.as_slice());
                self.sign(Symbol::Close);
            }
        }
    }

    // name : body ;
    #[tactic(auto, using(crate::proofs::Pages::follow))]
    pub(crate) fn label(&mut self, label: &Label)
        ensures { self.new ≡ penned self.old (label_of self.old.document label.now) }
    {
        self.word(label.name.as_bytes());
        self.sign(Symbol::Colon);
        self.body(&label.body);
        self.sign(Symbol::Semi);
    }

    // every label's line
    pub(crate) fn labels(&mut self)
        ensures { self.new ≡ penned self.old (flat_map (label_of self.old.document) self.old.document.labels) }
    {
        let tables = self.tables();
        for label in tables.labels.as_slice() {
            self.label(label);
        }
    }

    // msc name ; expr list ; label lines endmsc ;
    #[tactic(auto, using(crate::proofs::Pages::follow))]
    pub(crate) fn graph(&mut self)
        ensures { self.new ≡ penned self.old (graph_tokens self.old.document) }
    {
        let tables = self.tables();
        self.titled(Keyword::Msc, tables.graph.as_bytes());
        self.keyword(Keyword::Expr);
        self.list(tables.start.as_slice());
        self.sign(Symbol::Semi);
        self.labels();
        self.closing(Keyword::Endmsc);
    }
}
