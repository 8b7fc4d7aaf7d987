// A chart's row: its name, and where the part of each of eight instances ends in the table of all events.
// The first part begins where the last one of the chart ahead ends.
ghost use Rattle.std.specs.Prelude.{◌≡◌, length};

use crate::name::Name;

#[derive(Clone, Copy)]
pub struct Chart {
    pub name: Name,
    pub ends: [u16; 8],
    ghost eight: { length ends ≡ 8 },
}
