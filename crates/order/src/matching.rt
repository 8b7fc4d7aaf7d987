// Rule 11: for every ordered pair the outs and the ins are the same messages in the same order.
ghost use Rattle.std.specs.Prelude.{◌≡◌, Decides};
ghost use Rattle.msc.specs.Choice.{Matched};
ghost use Rattle.order.specs.Charts.{agree as agrees, sends_match, is_matched};
ghost use Rattle.order.specs.Meant.{meant, parts};

use crate::drawing::Drawing;
use crate::messages::{in_from, out_to};
use msc::event::Event;

// Whether the outs to a receiver in one part are the ins from a sender in another.
fn agree(outs: &[Event], receiver: u8, ins: &[Event], sender: u8) -> bool
    ensures { result ≡ agrees outs.now receiver ins.now sender }
{
    let sent = outs.iter().flat_map(|e| out_to(e, receiver));
    let received = ins.iter().flat_map(|e| in_from(e, sender));
    sent.eq(received)
}

impl<'a> Drawing<'a> {
    // Whether all messages of a sender match.
    fn sends_match(&self, sender: u8) -> bool
        ensures { result ≡ sends_match (parts self.now) sender }
    {
        (0..8u8).all(|q| agree(self.part(sender), q, self.part(q), sender))
    }

    // Whether rule 11 holds of the chart.
    pub fn is_matched(&self) -> bool
        ensures test { result ≡ is_matched (parts self.now) }
        ensures rule { Decides result (Matched (meant self.now.document.now) self.now.chart) }
    {
        (0..8u8).all(|p| self.sends_match(p))
    }
}
