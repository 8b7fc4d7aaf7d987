// Rule 12: the events of a chart can be listed with each after all that are before it.
ghost use Rattle.std.specs.Prelude.{◌≡◌, length, take, Decides, slice_index};
ghost use Rattle.std.specs.List.{flat_map};
ghost use Rattle.msc.specs.Choice.{Matched, Listable};
ghost use Rattle.msc.specs.Events.{in_from, out_to};
ghost use Rattle.order.specs.Charts.{can_play, ready as ready_of, played as played_of, is_listable};
ghost use Rattle.order.specs.Meant.{meant, parts};

use crate::drawing::Drawing;
use crate::messages::{in_from, out_to};
use msc::event::Event;

// The first events of a part.
fn front(events: &[Event], n: usize) -> &[Event]
    ensures { result.now ≡ take n events.now }
{
    events.get(..n).unwrap_or(events)
}

// How many messages go out to a receiver.
// One function for this and the next over a closure would have to say in its contract what the closure answers, and is no plainer.
fn sent(events: &[Event], receiver: u8) -> usize
    ensures { result ≡ length (flat_map (out_to receiver) events.now) }
{
    events.iter().fold(0, |n, e| match out_to(e, receiver) {
        Some(_) => n + 1,
        None => n,
    })
}

// How many messages come in from a sender.
fn received(events: &[Event], sender: u8) -> usize
    ensures { result ≡ length (flat_map (in_from sender) events.now) }
{
    events.iter().fold(0, |n, e| match in_from(e, sender) {
        Some(_) => n + 1,
        None => n,
    })
}

// How many events of an instance are done.
fn done_of(done: &[usize; 8], instance: u8) -> usize
    ensures { result ≡ slice_index done.now instance }
{
    done.get(instance as usize).copied().unwrap_or(0)
}

impl<'a> Drawing<'a> {
    // Whether the next event of an instance can be played: an in, if more such messages are sent than received.
    fn can_play(&self, done: &[usize; 8], instance: u8) -> bool
        ensures { result ≡ can_play (parts self.now) done.now instance }
    {
        let events = self.part(instance);
        let at = done_of(done, instance);
        match events.get(at) {
            Some(Event::In { name: _, from }) => {
                let sends = front(self.part(*from), done_of(done, *from));
                received(front(events, at), *from) < sent(sends, instance)
            }
            Some(_) => true,
            None => false,
        }
    }

    // The lowest instance whose next event can be played.
    fn ready(&self, done: &[usize; 8]) -> Option<u8>
        ensures { result ≡ ready_of (parts self.now) done.now }
    {
        (0..8u8).find(|&i| self.can_play(done, i))
    }

    // The number of events of each part that are done when nothing more can be played.
    fn played(&self) -> [usize; 8]
        ensures { result ≡ played_of (parts self.now) }
    {
        let mut done = [0; 8];
        for _ in 0..64u8 {
            match self.ready(&done) {
                Some(i) => done[i as usize] += 1,
                None => return done,
            }
        }
        done
    }

    // Whether rule 12 holds of the chart, where rule 11 does.
    pub fn is_listable(&self) -> bool
        ensures test { result ≡ is_listable (parts self.now) }
        ensures rule { Matched (meant self.now.document.now) self.now.chart → Decides result (Listable (meant self.now.document.now) self.now.chart) }
    {
        let done = self.played();
        (0..8u8).all(|i| self.part(i).len() <= done[i as usize])
    }
}
