// The laws of the order of events, by name: what the functions answer that say them.
#[derive(Clone, Copy)]
pub enum Law {
    LongerPath,
    OwnLetters,
    HowManyWait,
    OneStep,
    IdleRule,
    NeverStuck,
    InOrder,
    EventByEvent,
    PlaceByPlace,
}
