// The first statement of a text: its tokens are read up to the first delimiter and no further.
#![tactic(auto)]

ghost use Rattle.std.specs.Prelude.{◌≡◌, ◌≤◌, length};
ghost use Rattle.rules.specs.Limits.{max_query_size};
ghost use Rattle.rules.specs.Statements.{delimiter, first_statement};
ghost use Rattle.ahead.specs.Marks.{Marked};
ghost use Rattle.statements.specs.First.{first};
ghost use Rattle.statements.specs.Walks.{read_up_to, Open, ReadOn};

use ahead::{Marks, look_ahead};
use edges::walk::Walk;
use lexer::syntax_kind::SyntaxKind;
use rules::max_query_size;
use rules::refusal::Refusal;

// What the first statement is: the tokens read, its delimiter among them, the bytes that stand before the delimiter, and where the delimiter ends.
#[derive(Clone, Copy, PartialEq, Eq, Debug)]
pub struct First {
    pub tokens: usize,
    pub bytes: usize,
    pub end: usize,
}

// How far a text is read: so many tokens, up to a cursor. The bytes are what stands before a delimiter that was read last, and so lie before the
// cursor; until one is read they are all of the text. No Option of them: the definition `found` compares them with the cursor.
#[derive(Clone, Copy)]
pub struct Reading {
    pub cursor: usize,
    pub tokens: usize,
    pub bytes: usize,
}

fn read_up_to(cursor: usize, tokens: usize, bytes: usize) -> Reading
    ensures { result ≡ read_up_to cursor tokens bytes }
{
    Reading {
        cursor,
        tokens,
        bytes,
    }
}

fn is_delimiter(kind: u32) -> bool
    ensures { result ≡ delimiter kind }
{
    (kind == SyntaxKind::Semicolon) | (kind == SyntaxKind::VerticalDelimiter)
}

// Reads on to the first delimiter or the text's end, or until it pays to look ahead.
fn read_some(text: &[u8], from: Reading, marks: Marks) -> Reading
    requires { (length text.now ≤ max_query_size) × Open text.now from × Marked text.now from.cursor marks.until marks.lone.now }
    ensures { ReadOn text.now from result }
{
    let mut walk = Walk::new(text, from.cursor, text.len(), marks);
    let mut tokens = from.tokens;
    while let Some(token) = walk.next() {
        tokens += 1;
        if is_delimiter(token.kind) {
            return read_up_to(walk.cursor, tokens, token.start as usize);
        }
    }
    read_up_to(walk.cursor, tokens, text.len())
}

// Looks ahead, and reads on. Each walk has its own, and read_anew is an edit of its loop: one function for all four would take a closure, which those
// that write cannot be (`mask_more` in masking says why).
#[cold]
#[inline(never)]
fn read_more(text: &[u8], from: Reading) -> Reading
    requires { (length text.now ≤ max_query_size) × Open text.now from }
    ensures { ReadOn text.now from result }
{
    let mut lone = [0; 4096];
    let until = look_ahead(text, from.cursor, &mut lone);
    read_some(text, from, Marks { until, lone: &lone })
}

// The text is not tested for UTF-8.
pub fn first_statement(text: &[u8]) -> Result<First, Refusal>
    ensures { first result ≡ first_statement text.now }
{
    let size = text.len();
    if size > max_query_size() {
        return Err(Refusal::TooLong(0));
    }
    let none = Reading {
        cursor: 0,
        tokens: 0,
        bytes: size,
    };
    let mut at = read_some(text, none, Marks::none());
    while at.cursor < at.bytes {
        at = read_more(text, at);
    }
    Ok(First {
        tokens: at.tokens,
        bytes: at.bytes,
        end: at.cursor,
    })
}
