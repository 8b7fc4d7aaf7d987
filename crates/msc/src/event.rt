// An event of a chart, by numbers: a message goes out or comes in, or an action is done.
#[derive(Clone, Copy)]
pub enum Event {
    // a message (by its name's number) goes out to an instance
    Out { name: u8, to: u8 },
    // a message comes in from an instance
    In { name: u8, from: u8 },
    // an action, by its name's number
    Action { name: u8 },
}
