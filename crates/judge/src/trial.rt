// Tries each rule at the charts or lists that it covers: the lowest that breaks it.
#![tactic(auto, unfolding(crate::specs::Checks::broken))]

ghost use Rattle.std.specs.Prelude.{◌≡◌};
ghost use Rattle.order.specs.Charts.{is_matched, is_listable};
ghost use Rattle.judge.specs.Checks.{is_chart, is_node, is_list, is_one_first, has_one_leader, leader_takes_part, leads_to_end, broken, end_at_start};
ghost use Rattle.order.specs.Meant.{meant};

use crate::leading::{leader_takes_part, list_leaders};
use crate::look::{START, chart, is_chart, is_list, is_node, list};
use crate::marking::Marking;
use msc::document::Document;
use order::drawing::Drawing;
use order::leaders::Leaders;

// The lowest chart whose messages do not match.
pub fn unmatched(document: &Document) -> Option<u8>
    ensures { result ≡ broken (is_chart (meant document.now)) (λ c. is_matched ((meant document.now).drawn c)) }
{
    (0..65u8).find(|&chart| {
        let drawing = Drawing { document, chart };
        is_chart(document, chart) && !drawing.is_matched()
    })
}

// The lowest chart whose events cannot be listed.
pub fn cyclic(document: &Document) -> Option<u8>
    ensures { result ≡ broken (is_chart (meant document.now)) (λ c. is_listable ((meant document.now).drawn c)) }
{
    (0..65u8).find(|&chart| {
        let drawing = Drawing { document, chart };
        is_chart(document, chart) && !drawing.is_listable()
    })
}

// The lowest chart that not exactly one instance begins.
pub fn not_one_first(document: &Document) -> Option<u8>
    ensures { result ≡ broken (is_chart (meant document.now)) (is_one_first (meant document.now)) }
{
    (0..65u8).find(|&chart| {
        let drawing = Drawing { document, chart };
        is_chart(document, chart) && !drawing.leaders(Leaders::Nobody).is_one()
    })
}

// The first end label of the start list.
pub fn end_at_start(document: &Document) -> Option<u8>
    ensures { result ≡ end_at_start (meant document.now) }
{
    let labels = list(document, START).iter();
    labels.copied().find(|&l| !is_node(document, l))
}

// The lowest list whose nodes have different leaders.
pub fn two_leaders(document: &Document) -> Option<u8>
    ensures { result ≡ broken (is_list (meant document.now)) (has_one_leader (meant document.now)) }
{
    (0..65u8).find(|&x| is_list(document, x) && list_leaders(document, x).is_several())
}

// The lowest node in whose chart the leader of its list takes no part.
pub fn leader_absent(document: &Document) -> Option<u8>
    ensures { result ≡ broken (is_node (meant document.now)) (leader_takes_part (meant document.now)) }
{
    (0..65u8).find(|&l| is_node(document, l) && !leader_takes_part(document, l))
}

// The lowest list that leads to no end label.
pub fn no_end(document: &Document) -> Option<u8>
    ensures { result ≡ broken (is_list (meant document.now)) (leads_to_end (meant document.now)) }
{
    let marking = Marking::of(document);
    (0..65u8).find(|&x| is_list(document, x) && !marking.is_marked(x))
}
