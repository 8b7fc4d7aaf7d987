// Counts messages that go out.
ghost use Rattle.std.specs.Prelude.{◌≡◌};
ghost use Rattle.msc.specs.Doc.{out_count};
ghost use Rattle.draft.specs.Outs.{is_out};

use msc::event::Event;

fn is_out(e: Event) -> bool
    ensures { result ≡ is_out e }
{
    matches!(e, Event::Out { name: _, to: _ })
}

// How many of the events are outs: a sum, which has no branch for each event, as `filter` with `count` would.
pub fn outs(events: &[Event]) -> usize
    ensures { result ≡ out_count events.now }
{
    events.iter().map(|e| usize::from(is_out(*e))).sum()
}
