// A reader: it holds the text and the byte offset of its next token.
ghost use Rattle.std.specs.Prelude.{◌≡◌, ◌+◌, ◌*◌, ◌/◌, ◌≤◌, length};
ghost use Rattle.std.proofs.lemmas.List.Edits.{sets};
ghost use Rattle.rules.specs.Limits.{token_bytes};
ghost use Rattle.rules.specs.Tokens.{token};
ghost use Rattle.rules.specs.Listing.{pack_token};
ghost use Rattle.rules.specs.Answers.{step};
ghost use Rattle.rules.specs.Records.{steps_plan, outcome, packed_by};
ghost use Rattle.rules.specs.Cases.{written};
ghost use Rattle.steps.specs.Stepped.{stepped};
ghost use Rattle.lists.specs.Plans.{Planned};
ghost use Rattle.lists.specs.Picks.{Answered};
ghost use Rattle.forms.specs.Reading.{at_end};

use lexer::token::Token;
use lists::listing::{Choice, Plan};
use lists::packed::put_token;
use lists::picks::{answer_in, stored_by};
use rules::refusal::Refusal;
use rules::{max_query_size, token_bytes};
use steps::step;

#[derive(Clone, Copy)]
pub struct Reader<'a> {
    pub text: &'a [u8],
    pub at: usize,
}

impl<'a> Reader<'a> {
    // At the text's start.
    pub fn open(text: &'a [u8]) -> Self
        ensures { (result.text ≡ text.entry) × (result.at ≡ 0) }
    {
        Self { text, at: 0 }
    }

    // What a step from the reader's offset gives. The reader stays where it is: `moved` to the token's end goes on.
    pub fn next(self) -> Result<Token, Refusal>
        ensures { stepped result self.entry.at ≡ step self.entry.text.now self.entry.at }
    {
        step(self.text, self.at)
    }

    pub fn at_end(self) -> bool
        ensures { result ≡ at_end self.entry.text.now self.entry.at }
    {
        self.at >= self.text.len()
    }

    // The same text from another offset on.
    pub fn moved(mut self, at: usize) -> Self
        ensures { (result.text ≡ self.entry.text) × (result.at ≡ at) }
    {
        self.at = at;
        self
    }
}

// The full list by steps.
fn plan_steps(text: &[u8]) -> Result<Plan, Refusal>
    ensures { Planned result text.now (steps_plan text.now) }
{
    if text.len() > max_query_size() {
        return Err(Refusal::TooLong(0));
    }
    Ok(Plan::List(Choice {
        position: text.len(),
        drop_whitespace: false,
        drop_comment: false,
    }))
}

// What reading a text into so many bytes answers.
fn answer_steps(text: &[u8], bytes: usize) -> Result<usize, Refusal>
    ensures { Answered result (outcome (steps_plan text.now) (bytes / token_bytes)) }
{
    let plan = plan_steps(text);
    answer_in(text, plan, bytes / token_bytes())
}

// Stores a token in the place i of a packed list.
fn put_at(list: &mut [u8], i: usize, found: Token)
    requires { i * token_bytes + token_bytes ≤ length list.old }
    ensures { list.new ≡ sets list.old (i * token_bytes) (pack_token (token found.kind found.start found.end)) }
{
    put_token(list, i * token_bytes(), found.kind, found.start, found.end);
}

// A text read with a reader to its end, into a packed list.
pub fn read_all(text: &[u8], list: &mut [u8]) -> Result<usize, Refusal>
    ensures { written result list.new ≡ packed_by (steps_plan text.now) list.old }
{
    let answer = answer_steps(text, list.len());
    let mut reader = Reader::open(text);
    for i in 0..stored_by(answer) {
        let Ok(found) = reader.next() else {
            unreachable!();
        };
        put_at(list, i, found);
        reader = reader.moved(found.end as usize);
    }
    answer
}
