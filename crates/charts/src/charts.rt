// Reads the charts, up to the word that begins the graph.
ghost use Rattle.std.specs.Prelude.{◌≡◌, true, [], length, nat_lt};
ghost use Rattle.lexis.specs.Readers.{step_of};
ghost use Rattle.forms.specs.Reading.{charts_at};
ghost use Rattle.parts.specs.Readings.{drafted, here};
ghost use Rattle.charts.specs.Turns.{chart_in, chart_turn_in, named};

use crate::blocks::blocks;
use lexis::refusal::Refusal;
use msc::name::Name;
use msc::symbol::Symbol;
use msc::words::Keyword;
use parts::names::new_name;
use parts::reading::Reading;
use std::ops::ControlFlow;

// At most 64 charts, and what ends them.
const TURNS: usize = 65;

// blocks endmsc ; and the word msc, where the draft has room for a chart: its caller has tried that.
fn chart(reading: &mut Reading<'_, '_>, name: Name) -> Result<(), Refusal>
    requires { nat_lt (length reading.old.draft.charts) 64 ≡ true }
    ensures says { step_of (λ _. reading.new.draft) result reading.new.reader ≡ here (λ ws d. chart_in ws d name) reading.old }
    ensures words { reading.new.reader.words ≡ reading.old.reader.words }
    ensures text { reading.new.reader.text ≡ reading.old.reader.text }
{
    blocks(reading)?;
    reading.reader.sign(Symbol::Semi)?;
    reading.reader.keyword(Keyword::Msc)?;
    reading.draft.end_chart(name);
    Ok(())
}

// Behind the word msc: name ; and then the word expr, which begins the graph and gives its name, or a chart.
fn chart_turn(reading: &mut Reading<'_, '_>) -> Result<ControlFlow<Name>, Refusal>
    ensures says { step_of (named reading.new.draft) result reading.new.reader ≡ here (λ ws d. chart_turn_in ws (d, [])) reading.old }
    ensures words { reading.new.reader.words ≡ reading.old.reader.words }
    ensures text { reading.new.reader.text ≡ reading.old.reader.text }
{
    let name = new_name(&mut reading.reader, reading.draft.charts().as_slice())?;
    reading.reader.sign(Symbol::Semi)?;
    let back = reading.reader.copied();
    let token = reading.reader.next()?;
    if token.is_word(Keyword::Expr) {
        return Ok(ControlFlow::Break(name));
    }
    if !reading.draft.has_room_chart() {
        return Err(Refusal::Unexpected(reading.reader.place()));
    }
    reading.reader = back;
    chart(reading, name)?;
    Ok(ControlFlow::Continue(()))
}

// Reads at most 64 charts behind the word msc, up to the graph's word expr; the answer is the graph's name.
pub fn charts(reading: &mut Reading<'_, '_>) -> Result<Name, Refusal>
    ensures says { drafted result reading.new ≡ here charts_at reading.old }
    ensures words { reading.new.reader.words ≡ reading.old.reader.words }
    ensures text { reading.new.reader.text ≡ reading.old.reader.text }
{
    // written out, as the events of a part are
    for _ in 0..TURNS {
        if let ControlFlow::Break(name) = chart_turn(reading)? {
            return Ok(name);
        }
    }
    Err(Refusal::Limit(reading.reader.at()))
}
