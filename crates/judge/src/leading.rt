// Rules 15 and 16: who leads a list.
ghost use Rattle.std.specs.Prelude.{◌≡◌};
ghost use Rattle.order.specs.Meant.{meant};
ghost use Rattle.judge.specs.Checks.{list_leaders, leader_takes_part};

use crate::look::{chart, list, takes_part};
use msc::document::Document;
use order::drawing::Drawing;
use order::leaders::Leaders;

// Those who lead the charts of a list's nodes.
pub fn list_leaders(document: &Document, label: u8) -> Leaders
    ensures { result ≡ list_leaders (meant document.now) label }
{
    list(document, label)
        .iter()
        .filter_map(|&l| chart(document, l))
        .fold(
            Leaders::Nobody,
            |all, chart| Drawing { document, chart }.leaders(all),
        )
}

// Whether the leader of a node's list takes part in the node's chart.
pub fn leader_takes_part(document: &Document, label: u8) -> bool
    ensures { result ≡ leader_takes_part (meant document.now) label }
{
    match (list_leaders(document, label), chart(document, label)) {
        (Leaders::One(leader), Some(chart)) => takes_part(document, chart, leader),
        (Leaders::One(_), None) => false,
        _ => true,
    }
}
