// What the judge asks of a document.
#![tactic(auto, unfolding(order::specs::Meant::meant))]

ghost use Rattle.std.specs.Prelude.{◌≡◌, length, nat_lt};
ghost use Rattle.judge.specs.Checks.{is_chart, is_node, is_list};
ghost use Rattle.order.specs.Meant.{meant};

use msc::document::Document;

// The start list counts as label 64.
pub const START: u8 = 64;

// The chart of a node.
pub fn chart(document: &Document, label: u8) -> Option<u8>
    ensures { result ≡ (meant document.now).chart label }
{
    document.chart(label as usize)
}

// The labels that may follow a node, or the start list.
pub fn list(document: &Document, label: u8) -> &[u8]
    ensures { result.now ≡ (meant document.now).list label }
{
    document.list(label as usize)
}

// Whether an instance takes part in a chart.
pub fn takes_part(document: &Document, chart: u8, instance: u8) -> bool
    ensures { result ≡ nat_lt 0 (length ((meant document.now).drawn chart instance)) }
{
    document.part(chart as usize, instance as usize).len() > 0
}

pub fn is_chart(document: &Document, x: u8) -> bool
    ensures { result ≡ is_chart (meant document.now) x }
{
    (x as usize) < document.charts()
}

pub fn is_node(document: &Document, x: u8) -> bool
    ensures { result ≡ is_node (meant document.now) x }
{
    chart(document, x).is_some()
}

// Whether a list is judged: that of a node, or the start list.
pub fn is_list(document: &Document, x: u8) -> bool
    ensures { result ≡ is_list (meant document.now) x }
{
    is_node(document, x) || x == START
}
