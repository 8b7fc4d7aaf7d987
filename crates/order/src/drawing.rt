// A chart as a document draws it: a part for each instance.
ghost use Rattle.std.specs.Prelude.{◌≡◌};
ghost use Rattle.order.specs.Meant.{parts};

use msc::document::Document;
use msc::event::Event;

#[derive(Clone, Copy)]
pub struct Drawing<'a> {
    pub document: &'a Document,
    pub chart: u8,
}

impl<'a> Drawing<'a> {
    // The part of an instance.
    #[tactic(auto, unfolding(crate::specs::Meant::meant))]
    pub fn part(&self, instance: u8) -> &'a [Event]
        ensures { result.now ≡ parts self.now instance }
    {
        self.document.part(self.chart as usize, instance as usize)
    }
}
