// What a text is cut into. A name is a part of the text itself; the reader tells its place.
use msc::symbol::Symbol;
use msc::words::Keyword;

#[derive(Clone, Copy)]
pub enum Token<'a> {
    Name(&'a [u8]),
    Word(Keyword),
    Sign(Symbol),
    // the text's end
    End,
}
