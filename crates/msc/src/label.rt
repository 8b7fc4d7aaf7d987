// A label's row: its name, and what it stands for.
use crate::list::Alternatives;
use crate::name::Name;

// The end of the procedure, or a node, which plays a chart and goes on with one label of a list.
#[derive(Clone, Copy)]
pub enum Body {
    End,
    Node { chart: u8, next: Alternatives },
}

#[derive(Clone, Copy)]
pub struct Label {
    pub name: Name,
    pub body: Body,
}
