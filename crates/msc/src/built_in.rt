// The built-in document.
ghost use Rattle.std.specs.Prelude.{◌≡◌, [], ◌∷◌, replicate};
ghost use Rattle.msc.specs.declared.label.Body.TheVariants.{End};
ghost use Rattle.msc.specs.BuiltIn.{built_in};
ghost use Rattle.msc.specs.Stored.{doc_of};

use crate::chart::Chart;
use crate::document::Document;
use crate::event::Event;
use crate::label::{Body, Label};
use crate::list::Alternatives;
use crate::name::Name;
use crate::table::Table;
use crate::tables::Tables;
use crate::words::Words;

fn end() -> Label
    ensures { (result.name ≡ 69 ∷ []) × (result.body ≡ End) }
{
    Label {
        name: Name::prefix(b"E"),
        body: Body::End,
    }
}

fn chart() -> Chart
    ensures { (result.name ≡ 67 ∷ []) × (result.ends ≡ replicate 8 1) }
{
    Chart {
        name: Name::prefix(b"C"),
        ends: [1; 8],
    }
}

fn built_in_tables() -> Tables
    ensures { doc_of result ≡ built_in }
{
    let node = Label {
        name: Name::prefix(b"N"),
        body: Body::Node {
            chart: 0,
            next: Alternatives::prefix(&[1]),
        },
    };
    let action = Event::Action { name: 0 };
    Tables {
        words: Words::standard(),
        title: Name::prefix(b"D"),
        instances: Table::prefix(Name::blank(), &[Name::prefix(b"I")]),
        messages: Table::new(Name::blank()),
        actions: Table::prefix(Name::blank(), &[Name::prefix(b"a")]),
        events: Table::prefix(action, &[action]),
        charts: Table::prefix(chart(), &[chart()]),
        graph: Name::prefix(b"H"),
        start: Alternatives::prefix(&[0]),
        labels: Table::prefix(end(), &[node, end()]),
    }
}

impl Document {
    // Document D: instance I plays chart C, an action a, at node N, and the procedure ends at label E of graph H.
    #[tactic(auto, unfolding(crate::specs::Sound::well_formed, crate::specs::Shortest::text_of))]
    pub fn built_in() -> Document
        ensures { doc_of result.tables ≡ built_in }
    {
        Document {
            tables: built_in_tables(),
        }
    }
}
