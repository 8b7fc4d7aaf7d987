// Lists, label lines, and the graph.
ghost use Rattle.std.specs.Prelude.{◌≡◌, [], ◌∷◌};
ghost use Rattle.lexis.specs.Readers.{Reads};
ghost use Rattle.lexis.specs.Steps.{repeat, is_last};
ghost use Rattle.forms.specs.Reading.{alt_turn, list_at, rest_at, line_turn, lines_at, old_name_at};
ghost use Rattle.graph.specs.Parts.{another_at, named_at, names_of};
ghost use Rattle.graph.specs.Lines.{rest_of};

use crate::line::{Line, Rest};
use crate::lines::Lines;
use crate::mention::Mention;
use crate::mentions::Mentions;
use lexis::reader::Reader;
use lexis::refusal::Refusal;
use lexis::token::Token;
use msc::chart::Chart;
use msc::name::Name;
use msc::symbol::Symbol;
use msc::table::Table;
use msc::words::Keyword;
use parts::names::old_name;
use std::ops::ControlFlow;

// A list has at most so many labels.
const LONGEST: usize = 8;

// At most 64 label lines, and what ends them.
const TURNS: usize = 65;

impl Mentions {
    // Another name of a list, which then goes on.
    fn another(&mut self, reader: &mut Reader<'_, '_>) -> Result<ControlFlow<()>, Refusal>
        ensures { Reads (λ ws. another_at ws self.old) (λ f. (self.new, is_last f)) result reader.old reader.new }
    {
        let name = reader.name()?;
        let at = reader.place();
        if !self.has_room() {
            return Err(Refusal::Limit(at));
        }
        if self.names(name.as_bytes()) {
            return Err(Refusal::Twice(at));
        }
        self.push(Mention { name, at });
        Ok(ControlFlow::Continue(()))
    }

    // `alt` and another name, or the symbol that ends the list.
    fn turn(
        &mut self,
        reader: &mut Reader<'_, '_>,
        close: Symbol,
    ) -> Result<ControlFlow<()>, Refusal>
        ensures { Reads (λ ws. alt_turn ws close self.old) (λ f. (self.new, is_last f)) result reader.old reader.new }
    {
        let token = reader.next()?;
        if token.is_word(Keyword::Alt) {
            self.another(reader)
        } else if token.is_sign(close) {
            Ok(ControlFlow::Break(()))
        } else {
            Err(Refusal::Unexpected(reader.place()))
        }
    }
}

// The names behind the first, each after `alt`, up to the symbol that ends the list.
fn alts(reader: &mut Reader<'_, '_>, close: Symbol, first: Mention) -> Result<Mentions, Refusal>
    ensures { Reads (λ ws. repeat (alt_turn ws close) 8 (first ∷ [])) (λ ms. ms) result reader.old reader.new }
{
    let mut list = Mentions::one(first);
    // written out, as the events of a part are
    for _ in 0..LONGEST {
        if list.turn(reader, close)?.is_break() {
            return Ok(list);
        }
    }
    Err(Refusal::Limit(reader.at()))
}

// One to eight names joined by `alt`, and the symbol that ends the list.
pub fn list(reader: &mut Reader<'_, '_>, close: Symbol) -> Result<Mentions, Refusal>
    ensures { Reads (λ ws. list_at ws close) (λ ms. ms) result reader.old reader.new }
{
    let name = reader.name()?;
    let at = reader.place();
    alts(reader, close, Mention { name, at })
}

// The number of a chart that is declared.
fn chart_number(reader: &mut Reader<'_, '_>, charts: &Table<Chart, 64>) -> Result<u8, Refusal>
    ensures { Reads (λ ws. old_name_at ws (names_of charts.now)) (λ k. (k, reader.new.place)) result reader.old reader.new }
{
    Ok(old_name(reader, charts.as_slice())? as u8)
}

// `end`, or a chart's name and a list: (name)seq(list).
fn rest(reader: &mut Reader<'_, '_>, charts: &Table<Chart, 64>) -> Result<Rest, Refusal>
    ensures { Reads (λ ws. rest_at ws (names_of charts.now)) rest_of result reader.old reader.new }
{
    let token = reader.next()?;
    if token.is_word(Keyword::End) {
        Ok(Rest::End)
    } else if token.is_sign(Symbol::Open) {
        let chart = chart_number(reader, charts)?;
        reader.sign(Symbol::Close)?;
        reader.keyword(Keyword::Seq)?;
        reader.sign(Symbol::Open)?;
        let next = list(reader, Symbol::Close)?;
        Ok(Rest::Node { chart, next })
    } else {
        Err(Refusal::Unexpected(reader.place()))
    }
}

impl<'a> Lines<'a> {
    // The rest of a label line behind its name, which stands at `at`.
    fn line(
        &mut self,
        reader: &mut Reader<'_, '_>,
        name: Name,
        at: usize,
    ) -> Result<ControlFlow<()>, Refusal>
        ensures reads { Reads (λ ws. named_at ws (names_of self.old.charts.now) self.old.lines name at) (λ f. (self.new.lines, is_last f)) result reader.old reader.new }
        ensures charts { self.new.charts ≡ self.old.charts }
    {
        if !self.has_room() {
            return Err(Refusal::Limit(at));
        }
        if self.declares(&name) {
            return Err(Refusal::Twice(at));
        }
        reader.sign(Symbol::Colon)?;
        let rest = rest(reader, self.charts)?;
        reader.sign(Symbol::Semi)?;
        self.add(Line { name, rest });
        Ok(ControlFlow::Continue(()))
    }

    // A label line, or the word `endmsc` behind one at least.
    fn turn(&mut self, reader: &mut Reader<'_, '_>) -> Result<ControlFlow<()>, Refusal>
        ensures reads { Reads (λ ws. line_turn ws (names_of self.old.charts.now) self.old.lines) (λ f. (self.new.lines, is_last f)) result reader.old reader.new }
        ensures charts { self.new.charts ≡ self.old.charts }
    {
        let token = reader.next()?;
        let at = reader.place();
        match token {
            Token::Name(w) => match Name::of(w) {
                Some(name) => self.line(reader, name, at),
                None => Err(Refusal::Unexpected(at)),
            },
            Token::Word(Keyword::Endmsc) if !self.is_empty() => Ok(ControlFlow::Break(())),
            Token::Word(_) | Token::Sign(_) | Token::End => Err(Refusal::Unexpected(at)),
        }
    }
}

// One to 64 label lines, and the word `endmsc`.
pub fn lines(
    reader: &mut Reader<'_, '_>,
    charts: &Table<Chart, 64>,
) -> Result<Table<Line, 64>, Refusal>
    ensures { Reads (λ ws. lines_at ws (names_of charts.now)) (λ ls. ls) result reader.old reader.new }
{
    let mut lines = Lines::new(charts);
    // written out, as the events of a part are
    for _ in 0..TURNS {
        if lines.turn(reader)?.is_break() {
            return Ok(lines.lines);
        }
    }
    Err(Refusal::Limit(reader.at()))
}
