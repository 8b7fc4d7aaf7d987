// Label lines that are being read, and the charts that they may name.
ghost use Rattle.std.specs.Prelude.{◌≡◌, [], ◌∷◌, ◌++◌, length, if◌then◌else◌, nat_lt, ◌==◌};
ghost use Rattle.msc.specs.Spelling.{has};
ghost use Rattle.forms.specs.Drafts.{line_names};

use crate::line::{Line, Rest};
use msc::chart::Chart;
use msc::name::Name;
use msc::search::contains;
use msc::table::Table;

#[derive(Drop)]
pub struct Lines<'a> {
    pub charts: &'a Table<Chart, 64>,
    pub lines: Table<Line, 64>,
}

impl<'a> Lines<'a> {
    // No line yet.
    pub fn new(charts: &'a Table<Chart, 64>) -> Lines<'a>
        ensures charts { result.charts.now ≡ charts.now }
        ensures lines { result.lines ≡ [] }
    {
        let blank = Line {
            name: Name::blank(),
            rest: Rest::End,
        };
        Lines {
            charts,
            lines: Table::new(blank),
        }
    }

    // Whether one line more fits.
    pub fn has_room(&self) -> bool
        ensures { result ≡ nat_lt (length self.now.lines) 64 }
    {
        self.lines.len() < 64
    }

    // Whether there is no line.
    pub fn is_empty(&self) -> bool
        ensures { result ≡ (length self.now.lines == 0) }
    {
        self.lines.len() == 0
    }

    // Whether a line declares the label.
    #[tactic(auto, using(crate::proofs::Rows::line_names_lem))]
    pub fn declares(&self, label: &Name) -> bool
        ensures { result ≡ has (line_names self.now.lines) label.now }
    {
        contains(self.lines.as_slice(), label.as_bytes())
    }

    // One line more, unless there are 64.
    pub fn add(&mut self, line: Line)
        ensures lines { self.new.lines ≡ (if nat_lt (length self.old.lines) 64 then self.old.lines ++ line ∷ [] else self.old.lines) }
        ensures charts { self.new.charts ≡ self.old.charts }
    {
        self.lines.push(line);
    }
}
