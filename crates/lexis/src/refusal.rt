// Why a text is not read, or not written: a spot is the first byte of the word or byte at fault.
#[derive(Clone, Copy, PartialEq, Eq, Debug)]
pub enum Refusal {
    // 1: the text has more than 32,768 bytes
    TooLong,
    // 2: an illegal byte, a digit or underscore where a token begins, or a word of more than sixteen bytes
    Illegal(usize),
    // 3: a word or symbol that the forms do not allow here, or the text's end
    Unexpected(usize),
    // 4: one item more than a limit
    Limit(usize),
    // 5: a name declared twice, a label twice in a list, a block twice or out of order
    Twice(usize),
    // 6: a name that is not declared
    Undeclared(usize),
    // 7: the partner is the instance itself
    Itself(usize),
    // 8: the output is shorter than the text, whose length this is
    Short(usize),
}
