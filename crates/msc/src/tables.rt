// The tables that a document is made of.
use crate::chart::Chart;
use crate::event::Event;
use crate::label::Label;
use crate::list::Alternatives;
use crate::name::Name;
use crate::table::Table;
use crate::words::Words;

#[derive(Drop)]
pub struct Tables {
    pub words: Words,
    pub title: Name,
    pub instances: Table<Name, 8>,
    pub messages: Table<Name, 128>,
    pub actions: Table<Name, 128>,
    pub events: Table<Event, 1024>,
    pub charts: Table<Chart, 64>,
    pub graph: Name,
    pub start: Alternatives,
    pub labels: Table<Label, 64>,
}
