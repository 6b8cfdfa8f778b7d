// A walk over a text's tokens, one after another.
ghost use Rattle.std.specs.Prelude.{◌≡◌, ◌-◌, ◌<◌, ◌≤◌, length};
ghost use Rattle.std.proofs.Props.{props};
ghost use Rattle.rules.specs.Limits.{max_query_size};
ghost use Rattle.ahead.specs.Marks.{Marked, look_after};
ghost use Rattle.edges.specs.Left.{Left, Taken};

use crate::{Next, Rest, find, is_long, plain, read, taken};
use ahead::{LOOK_AFTER, Marks, wasted_by};
use lexer::token::Token;

// It stands at the cursor, and stops at `stop`, which comes down to 0 where so much was searched in vain that it pays to look ahead: one number for both,
// since a flag beside it would be one test more for each token.
#[derive(Drop)]
pub struct Walk<'a> {
    pub text: &'a [u8],
    pub cursor: usize,
    pub stop: usize,
    marks: Marks<'a>,
    wasted: usize,
    shy: bool,
    rest: Rest,
    ghost limit: { length text.now ≤ max_query_size },
    ghost inside: { cursor ≤ length text.now },
    ghost upto: { stop ≤ length text.now },
    ghost spared: { 0 < stop → wasted < look_after },
    ghost marked: { Marked text.now cursor marks.until marks.lone.now } by { Prim.hlevel props },
    ghost left: { Left text.now cursor rest } by { Prim.hlevel props },
}

impl<'a> Walk<'a> {
    ghost use Rattle.edges.specs.Walks.{Goes};

    pub fn new(text: &'a [u8], cursor: usize, stop: usize, marks: Marks<'a>) -> Self
        requires limit { length text.now ≤ max_query_size }
        requires inside { cursor ≤ length text.now }
        requires upto { stop ≤ length text.now }
        requires marked { Marked text.now cursor marks.until marks.lone.now }
        ensures going { Goes text.entry.now stop cursor result }
        ensures cursor { result.cursor ≡ cursor }
    {
        Walk {
            text,
            cursor,
            stop,
            marks,
            wasted: 0,
            shy: false,
            rest: Rest { base: 0, bits: 0 },
        }
    }

    // By its first byte and the byte after it, or else by its readers.
    #[inline(always)]
    fn told_or_read(&mut self) -> Next
        requires { self.old.cursor < self.old.stop }
        ensures text { self.new.text.now ≡ self.old.text.now }
        ensures cursor { self.new.cursor ≡ self.old.cursor }
        ensures stop { self.new.stop ≤ self.old.stop }
        ensures taken { Taken self.old.text.now self.old.cursor result }
    {
        let rest = if self.rest.bits == 0 {
            find(self.text, self.cursor, self.shy)
        } else {
            self.rest
        };
        match plain(self.text, self.cursor, rest) {
            Some(next) => next,
            None => self.read_next(rest),
        }
    }

    #[inline(always)]
    fn read_next(&mut self, rest: Rest) -> Next
        requires on { self.old.cursor < self.old.stop }
        requires left { Left self.old.text.now self.old.cursor rest }
        ensures text { self.new.text.now ≡ self.old.text.now }
        ensures cursor { self.new.cursor ≡ self.old.cursor }
        ensures stop { self.new.stop ≤ self.old.stop }
        ensures taken { Taken self.old.text.now self.old.cursor result }
    {
        let found = read(self.text, self.cursor, self.marks);
        self.shy = is_long(self.cursor, found.token.end);
        self.wasted += wasted_by(found, self.text.len());
        if self.wasted >= LOOK_AFTER {
            self.stop = 0;
        }
        taken(found.token, rest)
    }
}

impl Iterator for Walk<'_> {
    type Item = Token;

    ghost use Rattle.std.specs.Iterator.{at_most};
    ghost use Rattle.edges.specs.Walks.{Steps};

    ghost next_gives = { Steps };

    ghost remaining = { λ w. at_most (length w.text.now - w.cursor) };

    // The token at the cursor.
    #[inline(always)]
    fn next(&mut self) -> Option<Token> {
        let start = self.cursor;
        if start >= self.stop {
            return None;
        }
        let next = self.told_or_read();
        self.cursor = next.token.end;
        self.rest = next.rest;
        Some(Token {
            kind: next.token.kind,
            start: start as u32,
            end: next.token.end as u32,
        })
    }
}
