// Why an entry point refuses. specs/Cases.antt has document 01's number and value of each case, and document 02's.
ghost use Rattle.std.specs.Prelude.{◌≡◌};
ghost use Rattle.rules.specs.Cases.{refusal_number, refusal_value};

use std::fmt;

#[derive(Clone, Copy, PartialEq, Eq, Debug)]
pub enum Refusal {
    // Tokens stored: two by `tokenize`, none by any other.
    TooLong(usize),
    // Bytes of the longest valid prefix.
    NotUtf8(usize),
    // Tokens or bytes needed.
    NoRoom(usize),
    // A cursor or an offset past the text's end.
    Beyond,
    NoPart,
    NoMode,
    OtherLength,
    // A list that can't be saved, or a file that is none.
    Malformed,
    NoVersion,
}

impl Refusal {
    // Its number in the documents.
    pub fn number(self) -> u32
        ensures { result ≡ refusal_number self }
    {
        match self {
            Refusal::TooLong(_) => 1,
            Refusal::NotUtf8(_) => 2,
            Refusal::NoRoom(_) => 3,
            Refusal::Beyond => 4,
            Refusal::NoPart => 5,
            Refusal::NoMode => 6,
            Refusal::OtherLength => 7,
            Refusal::Malformed => 8,
            Refusal::NoVersion => 9,
        }
    }

    // Its value there.
    pub fn value(self) -> usize
        ensures { result ≡ refusal_value self }
    {
        match self {
            Refusal::TooLong(n) | Refusal::NotUtf8(n) | Refusal::NoRoom(n) => n,
            _ => 0,
        }
    }
}

// Number and value, as the programs print them.
impl fmt::Display for Refusal {
    fn fmt<W: fmt::Write>(&self, f: &mut fmt::Formatter<W>) -> fmt::Result {
        write!(f, "{} {}", self.number(), self.value())
    }
}
