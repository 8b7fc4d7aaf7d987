// The judge.
ghost use Rattle.std.specs.Prelude.{◌≡◌};
ghost use Rattle.order.specs.Meant.{meant};
ghost use Rattle.judge.specs.Verdict.{refused, verdict, leaders_of};

use crate::leading::list_leaders;
use crate::refusal::Refusal;
use crate::trial::{
    cyclic, end_at_start, leader_absent, no_end, not_one_first, two_leaders, unmatched,
};
use msc::document::Document;

// Fails where there is a refusal.
fn refused(refusal: Option<Refusal>) -> Result<(), Refusal>
    ensures { result ≡ refused refusal }
{
    refusal.map_or(Ok(()), Err)
}

// Fails with the first rule that is broken, and where: rule by rule, the lowest chart or label that breaks it.
#[tactic(auto, unfolding(crate::specs::Verdict::verdict))]
pub fn verdict(document: &Document) -> Result<(), Refusal>
    ensures { result ≡ verdict (meant document.now) }
{
    refused(unmatched(document).map(Refusal::Unmatched))?;
    refused(cyclic(document).map(Refusal::Cyclic))?;
    refused(not_one_first(document).map(Refusal::NotOneFirst))?;
    refused(end_at_start(document).map(Refusal::EndAtStart))?;
    refused(two_leaders(document).map(Refusal::TwoLeaders))?;
    refused(leader_absent(document).map(Refusal::LeaderAbsent))?;
    refused(no_end(document).map(Refusal::NoEnd))
}

// The leader of each list.
pub fn leaders_of(document: &Document) -> [Option<u8>; 65]
    ensures { result ≡ leaders_of (meant document.now) }
{
    std::array::from_fn(|x| list_leaders(document, x as u8).alone())
}
