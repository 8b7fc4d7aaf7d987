// Why a document is turned down: the rule that it breaks, and the chart or label that breaks it (64 for the start list).
#[derive(Clone, Copy, PartialEq, Eq, Debug)]
pub enum Refusal {
    // 11: outs and ins of a pair differ in number, or two that belong together differ in name
    Unmatched(u8),
    // 12: the chart's events cannot be listed with each after all that are before it
    Cyclic(u8),
    // 13: not exactly one event of the chart has none before it
    NotOneFirst(u8),
    // 14: the start list holds an end label
    EndAtStart(u8),
    // 15: the nodes of the list have different leaders
    TwoLeaders(u8),
    // 16: the leader of the node's list takes no part in its chart
    LeaderAbsent(u8),
    // 17: the node or the start list leads to no end label
    NoEnd(u8),
}
