// Messages of events between two instances. Two functions, since each is one case of an event: one for both would take the case as a parameter and match on it as well.
ghost use Rattle.std.specs.Prelude.{◌≡◌};
ghost use Rattle.std.specs.Option.{option_to_list};
ghost use Rattle.msc.specs.Events.{in_from, out_to};

use msc::event::Event;

// The name of a message that goes out to a receiver, if the event is such an out.
pub fn out_to(event: &Event, receiver: u8) -> Option<u8>
    ensures { option_to_list result ≡ out_to receiver event.now }
{
    match event {
        Event::Out { name, to } if *to == receiver => Some(*name),
        _ => None,
    }
}

// The name of a message that comes in from a sender, if the event is such an in.
pub fn in_from(event: &Event, sender: u8) -> Option<u8>
    ensures { option_to_list result ≡ in_from sender event.now }
{
    match event {
        Event::In { name, from } if *from == sender => Some(*name),
        _ => None,
    }
}
