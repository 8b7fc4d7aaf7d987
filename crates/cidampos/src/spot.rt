// A place of a text, for people.
use lexis::refusal::Refusal;
use std::io;
use std::io::Write;

#[derive(Drop)]
pub struct Spot<'a> {
    // counted from 1
    line: usize,
    column: usize,
    // without its line feed
    text: &'a [u8],
}

impl<'a> Spot<'a> {
    // Where byte `at` stands; past the end, where the text ends.
    fn of(text: &'a [u8], at: usize) -> Spot<'a> {
        let (before, after) = text.split_at(at.min(text.len()));
        let start = before
            .iter()
            .rposition(|b| *b == b'\n')
            .map_or(0, |i| i + 1);
        let end = after
            .iter()
            .position(|b| *b == b'\n')
            .unwrap_or(after.len());
        Spot {
            line: before.iter().filter(|b| **b == b'\n').count() + 1,
            column: before.len() - start + 1,
            text: &text[start..before.len() + end],
        }
    }

    // The line and the column, the line itself and a caret, on standard error.
    fn show(&self, rt: &HostRuntime) -> io::Result<()> {
        eprintln!(rt; "line {}, column {}:", self.line, self.column)?;
        rt.stderr().write_all(self.text)?;
        rt.eprintln("")?;
        for _ in 1..self.column {
            eprint!(rt; " ")?;
        }
        rt.eprintln("^")
    }
}

// Shows the spot of a refusal that has one.
pub fn show_spot(rt: &HostRuntime, text: &[u8], refusal: Refusal) -> io::Result<()> {
    match refusal {
        Refusal::TooLong => Ok(()),
        _ => Spot::of(text, refusal.value()).show(rt),
    }
}
