// A text that is being read: a reader, and what has been read so far.
use draft::draft::Draft;
use lexis::reader::Reader;

#[derive(Drop)]
pub struct Reading<'a, 'w> {
    pub reader: Reader<'a, 'w>,
    pub draft: Draft,
}
