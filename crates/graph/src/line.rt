// A label line as it stands: the labels that it names may come later.
// Line and Rest are msc's Label and Body but for the list, of mentions here and of numbers there: a parameter for the
// list's type would stand in every clause about documents.
use crate::mentions::Mentions;
use msc::name::Name;
use msc::search::Named;
use std::marker::Model;

#[derive(Clone, Copy)]
pub enum Rest {
    End,
    Node { chart: u8, next: Mentions },
}

#[derive(Clone, Copy)]
pub struct Line {
    pub name: Name,
    pub rest: Rest,
}

impl Model for Line {
    ghost use Rattle.forms.specs.Drafts as drafts;

    ghost Value = { drafts.Line };

    ghost use Rattle.graph.specs.Lines.{rest_of, rest_from};
    ghost use Rattle.graph.specs.Fields.{same_line};

    ghost view = { λ l. record { name = l.name; rest = rest_of l.rest } };

    ghost inverse = { λ l. record { name = l.name; rest = rest_from l.rest } };

    ghost inverse_ok = { λ a h. same_line a };
}

impl Named for Line {
    ghost called = { λ l. l.name };

    fn word(&self) -> &[u8] {
        self.name.as_bytes()
    }
}
