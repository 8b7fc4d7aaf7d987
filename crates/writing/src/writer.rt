// Writes a document.
ghost use Rattle.std.specs.Prelude.{◌≡◌, ℕ, ◌≤◌, List, length, Ok};
ghost use Rattle.msc.specs.Shortest.{doc_tokens, text_of};
ghost use Rattle.msc.specs.Stored.{doc_of};
ghost use Rattle.forms.specs.Reading.{read_of};
ghost use Rattle.forms.specs.Writes.{Writes};
ghost use Rattle.writing.specs.Pens.{penned};
ghost use Rattle.writing.specs.Writing.{write_of, after_write};

use crate::pen::Pen;
use lexis::refusal::Refusal;
use msc::document::Document;
use msc::words::Keyword;

impl<'a> Pen<'a> {
    // mscdocument name ; instances charts graph endmscdocument ;
    #[tactic(auto, using(crate::proofs::Pages::follow))]
    fn document(&mut self)
        ensures { self.new ≡ penned self.old (doc_tokens self.old.document) }
    {
        let tables = self.tables();
        self.titled(Keyword::Mscdocument, tables.title.as_bytes());
        self.instances(tables.instances.as_slice());
        self.charts();
        self.graph();
        self.closing(Keyword::Endmscdocument);
    }
}

// The shortest text of a document at the front of the output, and its length; where the output is shorter,
// the length that it needs, and the output as it was. The text reads back as the document, and no writing of it is shorter.
pub fn write(document: &Document, out: &mut [u8]) -> Result<usize, Refusal>
    ensures answer { result ≡ write_of (doc_of document.now.tables) out.old }
    ensures output { out.new ≡ after_write (doc_of document.now.tables) out.old }
    ensures back { read_of (doc_of document.now.tables).words (text_of (doc_of document.now.tables)) ≡ Ok (doc_of document.now.tables) }
    ensures shortest { (text : List ℕ) → Writes text (doc_of document.now.tables) → length (text_of (doc_of document.now.tables)) ≤ length text }
{
    let mut pen = Pen::new(document);
    pen.document();
    let text = pen.text();
    let needed = text.len();
    if needed > out.len() {
        return Err(Refusal::Short(needed));
    }
    out[0..needed].copy_from_slice(text);
    Ok(needed)
}

#[cfg(test)]
mod tests {
    use super::*;
    use std::test::Fail;

    #[test]
    fn built_in(rt: HostRuntime) -> Result<(), Fail> {
        let document = Document::built_in();
        let mut out = [b'.'; 128];
        let n = write(&document, &mut out)?;
        assert!(rt; n == 119);
        assert_eq!(rt;
            &out[0..119],
            b"mscdocument D;inst I;msc C;instance I;action a;endinstance;endmsc;msc H;expr N;N:(C)seq(E);E:end;endmsc;endmscdocument;".as_slice()
        );
        assert!(rt; out[119] == b'.');
        Ok(())
    }

    #[test]
    fn short_output(rt: HostRuntime) {
        let document = Document::built_in();
        let mut out = [b'.'; 118];
        assert_eq!(rt; write(&document, &mut out), Err(Refusal::Short(119)));
        assert!(rt; out[0] == b'.');
    }
}
