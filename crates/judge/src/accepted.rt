// Accepted documents, and the judge that makes them.
ghost use Rattle.std.specs.Prelude.{◌≡◌, true, None, MatchResult, slice_index_or};
ghost use Rattle.msc.specs.BuiltIn.{built_in};
ghost use Rattle.msc.specs.Stored.{doc_of};
ghost use Rattle.order.specs.Meant.{meant};
ghost use Rattle.judge.specs.Rules.{Fair, Breaks, AreLeaders};
ghost use Rattle.judge.specs.Verdict.{is_fair, leaders_of};

use crate::judging::{leaders_of, verdict};
use crate::refusal::Refusal;
use msc::document::Document;

// A document that keeps every rule, with the leader of each label's list, the start list's at 64.
#[derive(Drop)]
pub struct Accepted {
    document: Document,
    leaders: [Option<u8>; 65],
    ghost fair: { is_fair (meant document) ≡ true },
    ghost right: { leaders ≡ leaders_of (meant document) },
}

impl Accepted {
    // The built-in: one instance plays one action, and the procedure ends.
    pub fn built_in() -> Accepted
        ensures { doc_of result.document.tables ≡ built_in }
    {
        let document = Document::built_in();
        let leaders = leaders_of(&document);
        Accepted { document, leaders }
    }

    // The document, which keeps every rule.
    pub fn document(&self) -> &Document
        ensures same { result.now ≡ self.now.document }
        ensures fair { Fair (meant result.now) }
        ensures leaders { AreLeaders (meant result.now) self.now.leaders }
    {
        &self.document
    }

    // The leader of a label's list, or at 64 of the start list; none for a list of end labels only.
    pub fn leader(&self, label: usize) -> Option<u8>
        ensures { result ≡ slice_index_or self.now.leaders label None }
    {
        self.leaders.get(label).copied().flatten()
    }
}

// Accepts a document exactly if it keeps every rule, and then the place holds it; else says which rule it breaks first and where.
pub fn judge(document: &Document, place: &mut Accepted) -> Result<(), Refusal>
    ensures verdict { MatchResult result (λ _. Fair (meant document.now)) (λ e. Breaks (meant document.now) e) }
    ensures kept { MatchResult result (λ _. (doc_of place.new.document.tables ≡ doc_of document.now.tables) × AreLeaders (meant document.now) place.new.leaders) (λ _. place.new ≡ place.old) }
{
    verdict(document)?;
    let copy = document.copied();
    let leaders = leaders_of(&copy);
    *place = Accepted {
        document: copy,
        leaders,
    };
    Ok(())
}
