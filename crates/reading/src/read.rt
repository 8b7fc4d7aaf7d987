// Reads a text.
ghost use Rattle.std.specs.Prelude.{◌≡◌, ◌≤◌, true, length, IfErr, MatchResult};
ghost use Rattle.std.specs.Result.{result_map_both};
ghost use Rattle.msc.specs.Doc.{Doc};
ghost use Rattle.msc.specs.Sound.{well_formed, most};
ghost use Rattle.msc.specs.Stored.{doc_of};
ghost use Rattle.msc.specs.declared.document.Document.{Document};
ghost use Rattle.lexis.specs.Refusals.{value_of};
ghost use Rattle.lexis.specs.Readers.{Reads};
ghost use Rattle.forms.specs.Reading.{read_of};
ghost use Rattle.forms.specs.Writes.{Writes};
ghost use Rattle.graph.specs.Parts.{names_of};
ghost use Rattle.reading.specs.Pieces.{head_at, tail_at};

use charts::charts::charts;
use charts::instances::instances;
use graph::grammar::{lines, list};
use graph::line::Line;
use graph::mentions::Mentions;
use graph::resolve::{labels, resolved};
use lexis::reader::Reader;
use lexis::refusal::Refusal;
use msc::chart::Chart;
use msc::document::Document;
use msc::name::Name;
use msc::symbol::Symbol;
use msc::table::Table;
use msc::tables::Tables;
use msc::words::{Keyword, Words};
use parts::reading::Reading;

// A text has at most so many bytes.
const MOST: usize = 32768;

// mscdocument name ;
#[tactic(auto, unfolding(crate::specs::Pieces::head_at))]
fn head(reader: &mut Reader<'_, '_>) -> Result<Name, Refusal>
    ensures { Reads head_at (λ n. n) result reader.old reader.new }
{
    reader.keyword(Keyword::Mscdocument)?;
    let title = reader.name()?;
    reader.sign(Symbol::Semi)?;
    Ok(title)
}

// list ; label lines endmsc ; endmscdocument ; and the text's end. The lines go by the charts that are declared.
#[tactic(auto, unfolding(crate::specs::Pieces::tail_at))]
fn tail(
    reader: &mut Reader<'_, '_>,
    charts: &Table<Chart, 64>,
) -> Result<(Mentions, Table<Line, 64>), Refusal>
    ensures { Reads (λ ws. tail_at ws (names_of charts.now)) (λ g. g) result reader.old reader.new }
{
    let start = list(reader, Symbol::Semi)?;
    let lines = lines(reader, charts)?;
    reader.sign(Symbol::Semi)?;
    reader.keyword(Keyword::Endmscdocument)?;
    reader.sign(Symbol::Semi)?;
    reader.end()?;
    Ok((start, lines))
}

// The tables of a text, under the reserved words in force. Labels are looked up once all else is read.
fn tables(text: &[u8], words: &Words) -> Result<Tables, Refusal>
    ensures { result_map_both doc_of (λ e. e) result ≡ read_of words.now text.now }
{
    if text.len() > MOST {
        return Err(Refusal::TooLong);
    }
    let mut reader = Reader::new(text, words);
    let title = head(&mut reader)?;
    let draft = instances(&mut reader)?;
    let mut reading = Reading { reader, draft };
    let graph = charts(&mut reading)?;
    let Reading { mut reader, draft } = reading;
    let rows = draft.charts();
    let (list, lines) = tail(&mut reader, rows)?;
    let start = labels(&lines, &list)?;
    let labels = resolved(&lines)?;
    Ok(draft.into_tables(words, title, graph, start, labels))
}

// The document that a text is read as, under the reserved words in force, or why it is refused.
pub fn read(text: &[u8], words: &Words) -> Result<Document, Refusal>
    ensures reads { result_map_both (λ (d : Document). doc_of d.tables) (λ e. e) result ≡ read_of words.now text.now }
    ensures exactly { MatchResult result (λ d. Writes text.now (doc_of d.tables)) (λ _. (d : Doc) → length text.now ≤ most → well_formed d ≡ true → d.words ≡ words.now → Writes text.now d → ⊥) }
    ensures spot { IfErr result (λ e. value_of e ≤ length text.now) }
{
    // the words are a vocabulary
    let _ = words.as_slice();
    let tables = tables(text, words)?;
    Ok(Document { tables })
}
