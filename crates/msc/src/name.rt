// A name or a reserved word, held by value: at most sixteen bytes.
ghost use Rattle.std.specs.Prelude.{◌≡◌, ◌≤◌, [], length};

use crate::short::ShortList;

pub type Name = ShortList<16>;

impl Name {
    // No byte.
    pub fn blank() -> Name
        ensures { result ≡ [] }
    {
        Name::new()
    }

    pub fn as_bytes(&self) -> &[u8]
        ensures is { result.now ≡ self.now }
        ensures few { length self.now ≤ 16 }
    {
        self.as_slice()
    }
}
