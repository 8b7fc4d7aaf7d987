// Rule 17: which lists lead to an end label.
ghost use Rattle.std.specs.Prelude.{◌≡◌, false, slice_index_or};
ghost use Rattle.std.specs.List.{list_any};
ghost use Rattle.judge.specs.Checks.{leads_on, next_mark, marked};
ghost use Rattle.order.specs.Meant.{meant};

use crate::look::{chart, list};
use msc::document::Document;

// A document and its labels that are marked so far, the start list at 64.
#[derive(Drop)]
pub struct Marking<'a> {
    document: &'a Document,
    marks: [bool; 65],
}

impl<'a> Marking<'a> {
    // Marks labels until nothing more is to be marked.
    // The turns are as in the play of a chart: one function over both, its search and its step two closures, would be longer than the two loops.
    pub fn of(document: &'a Document) -> Marking<'a>
        ensures document { result.document.now ≡ document.now }
        ensures marks { result.marks ≡ marked (meant document.now) }
    {
        let mut marking = Marking {
            document,
            marks: [false; 65],
        };
        for _ in 0..64u8 {
            match marking.next() {
                Some(x) => marking.marks[x as usize] = true,
                None => return marking,
            }
        }
        marking
    }

    // Whether a label is marked.
    pub fn is_marked(&self, label: u8) -> bool
        ensures { result ≡ slice_index_or self.now.marks label false }
    {
        self.marks.get(label as usize).copied().unwrap_or(false)
    }

    // Whether a label is an end label, or marked.
    fn leads_on(&self, label: u8) -> bool
        ensures { result ≡ leads_on (meant self.now.document.now) self.now.marks label }
    {
        chart(self.document, label).is_none() || self.is_marked(label)
    }

    // Whether some label of a list leads on.
    fn some_leads_on(&self, label: u8) -> bool
        ensures { result ≡ list_any (leads_on (meant self.now.document.now) self.now.marks) ((meant self.now.document.now).list label) }
    {
        list(self.document, label).iter().any(|&l| self.leads_on(l))
    }

    // The lowest label that is not marked and whose list leads on.
    fn next(&self) -> Option<u8>
        ensures { result ≡ next_mark (meant self.now.document.now) self.now.marks }
    {
        (0..65u8).find(|&x| !self.is_marked(x) && self.some_leads_on(x))
    }
}
