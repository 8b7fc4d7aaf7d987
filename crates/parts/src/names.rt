// Names that a form declares or refers to, among rows that have names.
ghost use Rattle.std.specs.Prelude.{◌<◌, map, length, IfOk};
ghost use Rattle.lexis.specs.Readers.{Reads};
ghost use Rattle.forms.specs.Reading.{new_name_at, old_name_at};

use lexis::reader::Reader;
use lexis::refusal::Refusal;
use msc::name::Name;
use msc::search::{Named, contains, find};

// A name that no row has.
pub fn new_name<T: Named>(reader: &mut Reader<'_, '_>, rows: &[T]) -> Result<Name, Refusal>
    ensures { Reads (λ ws. new_name_at ws (map T.called rows.now)) (λ n. n) result reader.old reader.new }
{
    let name = reader.name()?;
    if contains(rows, name.as_bytes()) {
        return Err(Refusal::Twice(reader.place()));
    }
    Ok(name)
}

// The number of the row that has the name.
pub fn old_name<T: Named>(reader: &mut Reader<'_, '_>, rows: &[T]) -> Result<usize, Refusal>
    ensures reads { Reads (λ ws. old_name_at ws (map T.called rows.now)) (λ k. (k, reader.new.place)) result reader.old reader.new }
    ensures within { IfOk result (λ k. k < length rows.now) }
{
    let name = reader.name()?;
    find(rows, name.as_bytes()).ok_or(Refusal::Undeclared(reader.place()))
}
