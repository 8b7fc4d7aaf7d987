// The keyword that a place of a table of reserved words stands for.
ghost use Rattle.std.specs.Prelude.{◌≡◌, slice_index_or};
ghost use Rattle.msc.specs.Tokens.{keywords};
ghost use Rattle.msc.specs.declared.words.Keyword.TheVariants.{Mscdocument};

use msc::words::Keyword;

// The keyword at a place of the table; past it, the first. A conversion that can fail would leave its caller a case that no table has.
pub fn keyword_at(k: usize) -> Keyword
    ensures { result ≡ slice_index_or keywords k Mscdocument }
{
    Keyword::at(k).unwrap_or(Keyword::Mscdocument)
}
