// Reads the blocks of a chart: the part of each instance that has one.
ghost use Rattle.std.specs.Prelude.{◌≡◌, ◌<◌, ◌≤◌, length};
ghost use Rattle.lexis.specs.Readers.{step_of};
ghost use Rattle.parts.specs.Readings.{turned, here};
ghost use Rattle.charts.specs.Turns.{part_in, block_in, block_turn_in, blocks_in, Stays};

use lexis::refusal::Refusal;
use lexis::token::Token;
use msc::symbol::Symbol;
use msc::words::Keyword;
use parts::names::old_name;
use parts::reading::Reading;
use std::ops::ControlFlow;

// At most eight blocks, and what ends them.
const TURNS: usize = 9;

// ; events endinstance ; of instance `own`, which is behind those that had a block: its caller has tried that.
fn part(reading: &mut Reading<'_, '_>, own: usize) -> Result<(), Refusal>
    requires behind { length reading.old.draft.parts ≤ own }
    requires declared { own < 8 }
    ensures says { step_of (λ _. reading.new.draft) result reading.new.reader ≡ here (λ ws. part_in ws own) reading.old }
    ensures stays { Stays reading.old reading.new }
{
    reading.reader.sign(Symbol::Semi)?;
    reading.draft.open_part(own);
    reading.events(own)?;
    reading.reader.sign(Symbol::Semi)?;
    reading.draft.close_part();
    Ok(())
}

// name ; events endinstance ; of an instance behind the last one that had a block.
fn block(reading: &mut Reading<'_, '_>) -> Result<(), Refusal>
    ensures says { step_of (λ _. reading.new.draft) result reading.new.reader ≡ here block_in reading.old }
    ensures stays { Stays reading.old reading.new }
{
    let own = old_name(&mut reading.reader, reading.draft.instances())?;
    if own < reading.draft.parts() {
        return Err(Refusal::Twice(reading.reader.place()));
    }
    part(reading, own)
}

// A block, or the word endmsc, which is the last.
fn block_turn(reading: &mut Reading<'_, '_>) -> Result<ControlFlow<()>, Refusal>
    ensures says { turned result reading.new ≡ here block_turn_in reading.old }
    ensures stays { Stays reading.old reading.new }
{
    let token = reading.reader.next()?;
    let place = reading.reader.place();
    match token {
        Token::Word(Keyword::Instance) => {
            block(reading)?;
            Ok(ControlFlow::Continue(()))
        }
        Token::Word(Keyword::Endmsc) => Ok(ControlFlow::Break(())),
        _ => Err(Refusal::Unexpected(place)),
    }
}

// The blocks of a chart, and the word endmsc.
pub fn blocks(reading: &mut Reading<'_, '_>) -> Result<(), Refusal>
    ensures says { step_of (λ _. reading.new.draft) result reading.new.reader ≡ here blocks_in reading.old }
    ensures stays { Stays reading.old reading.new }
{
    // written out, as the events of a part are
    for _ in 0..TURNS {
        if block_turn(reading)?.is_break() {
            return Ok(());
        }
    }
    Err(Refusal::Limit(reading.reader.at()))
}
