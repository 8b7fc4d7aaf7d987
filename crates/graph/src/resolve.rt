// Looks up the labels that lists name, once all label lines are read.
ghost use Rattle.std.specs.Prelude.{◌≡◌};
ghost use Rattle.msc.specs.Spelling.{place};
ghost use Rattle.forms.specs.Drafts.{line_names};
ghost use Rattle.forms.specs.Reading.{label_at, resolve, resolve_rest, resolve_lines};
ghost use Rattle.graph.specs.Lines.{rest_of};

use crate::line::{Line, Rest};
use crate::mention::Mention;
use crate::mentions::Mentions;
use lexis::refusal::Refusal;
use msc::label::{Body, Label};
use msc::list::Alternatives;
use msc::name::Name;
use msc::search::{Named, find};
use msc::table::Table;

// The label that is mentioned.
#[tactic(auto, using(crate::proofs::Rows::line_names_lem))]
fn label(lines: &Table<Line, 64>, m: &Mention) -> Result<u8, Refusal>
    ensures { result ≡ label_at (place (line_names lines.now) m.now.name) m.now.at }
{
    match find(lines.as_slice(), m.word()) {
        Some(k) => Ok(k as u8),
        None => Err(Refusal::Undeclared(m.at)),
    }
}

// The labels that a list names, or the first name that no line declares.
pub fn labels(lines: &Table<Line, 64>, list: &Mentions) -> Result<Alternatives, Refusal>
    ensures { result ≡ resolve (line_names lines.now) list.now }
{
    let mut out = Alternatives::new();
    for m in list.as_slice() {
        out.push(label(lines, m)?);
    }
    Ok(out)
}

fn body(lines: &Table<Line, 64>, rest: &Rest) -> Result<Body, Refusal>
    ensures { result ≡ resolve_rest (line_names lines.now) (rest_of rest.now) }
{
    match rest {
        Rest::End => Ok(Body::End),
        Rest::Node { chart, next } => Ok(Body::Node {
            chart: *chart,
            next: labels(lines, next)?,
        }),
    }
}

// The label of each line, its list looked up.
pub fn resolved(lines: &Table<Line, 64>) -> Result<Table<Label, 64>, Refusal>
    ensures { result ≡ resolve_lines (line_names lines.now) lines.now }
{
    let mut out = Table::new(Label {
        name: Name::blank(),
        body: Body::End,
    });
    for line in lines.as_slice() {
        let body = body(lines, &line.rest)?;
        out.push(Label {
            name: line.name,
            body,
        });
    }
    Ok(out)
}
