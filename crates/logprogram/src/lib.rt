// The log program as one function, from the bytes of its input to the bytes that it prints; and its turn, on memory that is lent.
#![tactic(auto)]

pub mod turning;
pub mod writing;

use logeffects::Book;

// Where the program stands, beside the memory lent.
#[derive(Clone, Copy)]
pub struct Bookmark {
    pub book: Book,
    // The offset of the next kind byte.
    pub offset: u64,
    pub going: bool,
}

// A turn, where enough bytes were at hand to tell. Its text is the first `length` bytes of what was lent for it.
#[derive(Clone, Copy)]
pub struct Turned {
    pub mark: Bookmark,
    // How many bytes it took.
    pub used: usize,
    pub length: usize,
}
