// Rule 13: which instances of a chart have an event with none before it.
ghost use Rattle.std.specs.Prelude.{◌≡◌};
ghost use Rattle.order.specs.Charts.{starts as starts_of, starters, gathered};
ghost use Rattle.order.specs.Meant.{parts};

use crate::drawing::Drawing;
use crate::leaders::Leaders;
use msc::event::Event;

// Whether a part starts with an event that is no in.
fn starts(events: &[Event]) -> bool
    ensures { result ≡ starts_of events.now }
{
    matches!(events, [Event::Out { .. } | Event::Action { .. }, ..])
}

impl<'a> Drawing<'a> {
    // Those that have an event with none before it, joined to others.
    pub fn leaders(&self, others: Leaders) -> Leaders
        ensures { result ≡ gathered others (starters (parts self.now)) }
    {
        (0..8u8).fold(others, |all, i| {
            if starts(self.part(i)) {
                all.joined(i)
            } else {
                all
            }
        })
    }
}
