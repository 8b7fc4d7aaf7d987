// What the document calls its parts, by their numbers; empty for what is none of them.
ghost use Rattle.std.specs.Prelude.{◌≡◌, [], map, slice_index_or};
ghost use Rattle.msc.specs.Doc.{chart_names, label_names};

use crate::pen::Pen;
use msc::search::Named;

impl<'a> Pen<'a> {
    pub(crate) fn instance(&self, n: usize) -> &'a [u8]
        ensures { result.now ≡ slice_index_or self.now.document.instances n [] }
    {
        let tables = self.tables();
        name_at(tables.instances.as_slice(), n)
    }

    pub(crate) fn message(&self, n: usize) -> &'a [u8]
        ensures { result.now ≡ slice_index_or self.now.document.messages n [] }
    {
        let tables = self.tables();
        name_at(tables.messages.as_slice(), n)
    }

    pub(crate) fn action(&self, n: usize) -> &'a [u8]
        ensures { result.now ≡ slice_index_or self.now.document.actions n [] }
    {
        let tables = self.tables();
        name_at(tables.actions.as_slice(), n)
    }

    pub(crate) fn chart_name(&self, n: usize) -> &'a [u8]
        ensures { result.now ≡ slice_index_or (chart_names self.now.document.charts) n [] }
    {
        let tables = self.tables();
        name_at(tables.charts.as_slice(), n)
    }

    pub(crate) fn label_name(&self, n: usize) -> &'a [u8]
        ensures { result.now ≡ slice_index_or (label_names self.now.document.labels) n [] }
    {
        let tables = self.tables();
        name_at(tables.labels.as_slice(), n)
    }
}

// The name of a row.
fn name_at<T: Named>(rows: &[T], n: usize) -> &[u8]
    ensures { result.now ≡ slice_index_or (map T.called rows.now) n [] }
{
    rows.get(n).map_or(&[], |row| row.word())
}
