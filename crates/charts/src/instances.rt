// Reads the instance lines.
ghost use Rattle.lexis.specs.Readers.{Reads};
ghost use Rattle.forms.specs.Reading.{inst_at, inst_turn, instances_at};
ghost use Rattle.lexis.specs.Steps.{is_last};
ghost use Rattle.charts.specs.Turns.{instances_in};

use draft::draft::Draft;
use lexis::reader::Reader;
use lexis::refusal::Refusal;
use lexis::token::Token;
use msc::symbol::Symbol;
use msc::words::Keyword;
use parts::names::new_name;
use std::ops::ControlFlow;

// At most seven instance lines behind the first, and what ends them.
const TURNS: usize = 8;

// name ; of an instance, behind the word inst at a place.
// Reader and draft stay two parameters here, since the draft begins with the instances: a reading would be made of them only to be taken apart.
fn instance(reader: &mut Reader<'_, '_>, draft: &mut Draft, place: usize) -> Result<(), Refusal>
    ensures { Reads (λ ws. inst_at ws draft.old place) (λ _. draft.new) result reader.old reader.new }
{
    if !draft.has_room_instance() {
        return Err(Refusal::Limit(place));
    }
    let name = new_name(reader, draft.instances())?;
    reader.sign(Symbol::Semi)?;
    draft.push_instance(name);
    Ok(())
}

// Another instance line, or the word msc, which ends them.
fn instance_turn(reader: &mut Reader<'_, '_>, draft: &mut Draft) -> Result<ControlFlow<()>, Refusal>
    ensures { Reads (λ ws. inst_turn ws draft.old) (λ x. (draft.new, is_last x)) result reader.old reader.new }
{
    let token = reader.next()?;
    let place = reader.place();
    match token {
        Token::Word(Keyword::Inst) => {
            instance(reader, draft, place)?;
            Ok(ControlFlow::Continue(()))
        }
        Token::Word(Keyword::Msc) => Ok(ControlFlow::Break(())),
        _ => Err(Refusal::Unexpected(place)),
    }
}

// What is left of the instance lines behind the first, and the word msc.
fn more_instances(reader: &mut Reader<'_, '_>, draft: &mut Draft) -> Result<(), Refusal>
    ensures { Reads (λ ws. instances_in ws draft.old) (λ _. draft.new) result reader.old reader.new }
{
    // written out, as the events of a part are
    for _ in 0..TURNS {
        if instance_turn(reader, draft)?.is_break() {
            return Ok(());
        }
    }
    Err(Refusal::Limit(reader.at()))
}

// Reads one to eight instance lines and the word msc behind them.
pub fn instances(reader: &mut Reader<'_, '_>) -> Result<Draft, Refusal>
    ensures { Reads instances_at (λ d. d) result reader.old reader.new }
{
    reader.keyword(Keyword::Inst)?;
    let mut draft = Draft::new();
    instance(reader, &mut draft, 0)?;
    more_instances(reader, &mut draft)?;
    Ok(draft)
}
