// A list of at most eight labels, by number: with what a path may go on.
use crate::short::ShortList;

pub type Alternatives = ShortList<8>;
