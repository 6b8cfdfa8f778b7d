// One token at a cursor.
#![tactic(auto)]

ghost use Rattle.std.specs.Prelude.{◌≡◌};
ghost use Rattle.rules.specs.Answers.{step};
ghost use Rattle.steps.specs.Stepped.{stepped};

use lexer::token::Token;
use lexer::tokenizer::next_token;
use rules::max_query_size;
use rules::refusal::Refusal;

// The token at a cursor, whose end is the next cursor. The text is not tested for UTF-8.
pub fn step(text: &[u8], cursor: usize) -> Result<Token, Refusal>
    ensures { stepped result cursor ≡ step text.now cursor }
{
    if text.len() > max_query_size() {
        return Err(Refusal::TooLong(0));
    }
    if cursor > text.len() {
        return Err(Refusal::Beyond);
    }
    let l = next_token(text, cursor);
    Ok(Token {
        kind: l.kind,
        start: cursor as u32,
        end: l.end as u32,
    })
}
