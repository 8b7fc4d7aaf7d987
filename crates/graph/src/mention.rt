// A label's name in a list, with its place in the text.
ghost use Rattle.std.specs.Prelude.{◌≡◌};
ghost use Rattle.graph.specs.Lists.{blank};

use msc::name::Name;
use msc::search::Named;
use std::marker::Model;

#[derive(Clone, Copy)]
pub struct Mention {
    pub name: Name,
    pub at: usize,
}

impl Model for Mention {
    ghost use Rattle.forms.specs.Drafts as drafts;

    ghost Value = { drafts.Mention };

    ghost view = { λ m. record { name = m.name; at = m.at } };

    ghost inverse = { λ m. record { name = m.name; at = m.at } };
}

impl Mention {
    // The empty name, which no list has.
    pub fn blank() -> Mention
        ensures { result ≡ blank }
    {
        Mention {
            name: Name::blank(),
            at: 0,
        }
    }
}

impl Named for Mention {
    ghost called = { λ m. m.name };

    fn word(&self) -> &[u8] {
        self.name.as_bytes()
    }
}
