// A token of a text, and what a reader finds.
ghost use Rattle.std.specs.Prelude.{◌≡◌};

use std::fmt;

// Its kind, and the offsets of its first byte and of the first byte after it.
#[derive(Clone, Copy, PartialEq, Eq, Default, Debug)]
pub struct Token {
    pub kind: u32,
    pub start: u32,
    pub end: u32,
}

// As the programs print it.
impl fmt::Display for Token {
    fn fmt<W: fmt::Write>(&self, f: &mut fmt::Formatter<W>) -> fmt::Result {
        write!(f, "{} {} {}", self.kind, self.start, self.end)
    }
}

// What a reader finds: the kind, and where it ends. A `Token` is made of it and a start at three places, each of which knows that the offsets fit into 32 bits;
// a function for that would ask it of each, in more words than the three fields.
#[derive(Clone, Copy)]
pub struct Lexed {
    pub kind: u32,
    pub end: usize,
}

impl Lexed {
    pub fn new(kind: u32, end: usize) -> Self
        ensures { result ≡ record { kind = kind; end = end } }
    {
        Self { kind, end }
    }
}
