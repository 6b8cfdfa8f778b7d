// A planned list token by token, for what is not packed.
ghost use Rattle.std.specs.Prelude.{◌≡◌, cond, ltb, List, ℕ, ◌≤◌, ◌<◌, length, drop};
ghost use Rattle.rules.specs.Limits.{max_query_size};
ghost use Rattle.rules.specs.Answers.{too_long_list};
ghost use Rattle.rules.specs.Records.{outcome};
ghost use Rattle.rules.specs.declared.refusal.Refusal.TheVariants.{NoRoom};
ghost use Rattle.ahead.specs.Marks.{look_after};
ghost use Rattle.lists.specs.declared.picks.Picking.{Picking};
ghost use Rattle.lists.specs.Choices.{chosen};
ghost use Rattle.lists.specs.Plans.{plan_of, stored_by, Follows};
ghost use Rattle.lists.specs.Picks.{Answered, Fits, Ready, ReadOn, Picks, answer_by, records_from, records_of};

use crate::listing::{Chosen, Plan, count, needed};
use ahead::{LOOK_AFTER, Marks, look_ahead, wasted_by};
use edges::read;
use lexer::syntax_kind::SyntaxKind;
use lexer::token::Token;
use rules::refusal::Refusal;

// How far a list is picked: by which plan, and from where on the next token is looked for. `until` and `wasted` are of the looks ahead. The cursor
// counts the two tokens of a long text too, as `records_from` has it: a count beside it would be one number more in every state.
#[derive(Clone, Copy)]
pub struct Picking {
    pub plan: Result<Plan, Refusal>,
    pub cursor: usize,
    pub until: usize,
    pub wasted: usize,
}

// Whether there is room for so many tokens.
fn check_room(tokens: usize, room: usize) -> Result<(), Refusal>
    ensures { result ≡ cond (ltb room tokens) (Err (NoRoom tokens)) (Ok tt) }
{
    if room < tokens {
        return Err(Refusal::NoRoom(tokens));
    }
    Ok(())
}

// The same plan where there is room for its list. A text is lexed here only where the room is not a token a byte. `Follows`, and `Ready` below, stay
// clauses: they relate a plan, or bits, to a text that the caller lends again at each call.
fn fit(text: &[u8], plan: Plan, room: usize) -> Result<Plan, Refusal>
    requires { Follows (Ok plan) text.now }
    ensures { Fits result text.now (outcome (plan_of (Ok plan) text.now) room) room }
{
    let tokens = match plan {
        Plan::Answered(_) => return Ok(plan),
        Plan::TooLong => 2, // 48 and EndOfStream
        Plan::List(choice) => needed(Chosen { text, choice }, room),
    };
    check_room(tokens, room)?;
    Ok(plan)
}

// Before the first token of a list for which there is room.
pub fn begin(text: &[u8], plan: Result<Plan, Refusal>, room: usize) -> Picking
    requires { Follows plan text.now }
    ensures { Fits result.plan text.now (outcome (plan_of plan text.now) room) room × (result.cursor ≡ 0) × (result.until ≡ 0) }
{
    let plan = match plan {
        Ok(plan) => fit(text, plan, room),
        Err(_) => plan,
    };
    Picking {
        plan,
        cursor: 0,
        until: 0,
        wasted: 0,
    }
}

// What is answered where so many tokens are stored.
fn answer_of(plan: Plan, tokens: usize) -> Result<usize, Refusal>
    ensures { result ≡ answer_by (Ok plan) tokens }
{
    match plan {
        Plan::TooLong => Err(Refusal::TooLong(tokens)),
        Plan::Answered(value) => Ok(value),
        Plan::List(_) => Ok(tokens),
    }
}

pub fn answer_by(picking: Picking, tokens: usize) -> Result<usize, Refusal>
    ensures { result ≡ answer_by picking.plan tokens }
{
    answer_of(picking.plan?, tokens)
}

// What a listing answers where there is room for so many tokens.
pub fn answer_in(text: &[u8], plan: Result<Plan, Refusal>, room: usize) -> Result<usize, Refusal>
    requires { Follows plan text.now }
    ensures { Answered result (outcome (plan_of plan text.now) room) }
{
    let plan = plan?;
    let tokens = match plan {
        Plan::Answered(value) => return Ok(value),
        Plan::TooLong => 2,
        Plan::List(choice) => count(Chosen { text, choice }),
    };
    check_room(tokens, room)?;
    answer_of(plan, tokens)
}

// How many tokens are stored where this is answered.
pub fn stored_by(answer: Result<usize, Refusal>) -> usize
    ensures { result ≡ stored_by answer }
{
    match answer {
        Ok(n) | Err(Refusal::TooLong(n)) => n,
        Err(_) => 0,
    }
}

// Bits that mark nothing: a window of 131,072 bytes. `listing` has twice as many, on a path that few texts take; these are made at every call.
pub fn no_bits() -> [u64; 2048]
    ensures { (s : List ℕ) (at : Picking) → at.until ≡ 0 → Ready s at result }
{
    [0; 2048]
}

// Looks ahead from the cursor on, where that pays. No `Walk`, here and in `read_on`: a list in records is picked one token a call, and a walk's block
// would have to be kept between calls in `Picking`, whose fields are public.
fn look_on(text: &[u8], at: &mut Picking, lone: &mut [u64])
    requires { (length text.now ≤ max_query_size) × (at.old.cursor ≤ length text.now) × Ready text.now at.old lone.old }
    ensures { (at.new.plan ≡ at.old.plan) × (at.new.cursor ≡ at.old.cursor) × (at.new.wasted < look_after) × Ready text.now at.new lone.new }
{
    if at.wasted >= LOOK_AFTER {
        at.until = look_ahead(text, at.cursor, lone);
        at.wasted = 0;
    }
}

// The token at the cursor, kept or not.
fn read_on(text: &[u8], at: &mut Picking, lone: &mut [u64]) -> Token
    requires { (length text.now ≤ max_query_size) × (at.old.cursor < length text.now) × Ready text.now at.old lone.old }
    ensures { ReadOn text.now at.old at.new lone.new result }
{
    look_on(text, at, lone);
    let start = at.cursor;
    let until = at.until;
    let found = read(text, start, Marks { until, lone });
    let end = found.token.end;
    at.cursor = end;
    at.wasted += wasted_by(found, text.len());
    Token {
        kind: found.token.kind,
        start: start as u32,
        end: end as u32,
    }
}

// The first token that is kept from the cursor on.
fn pick_chosen(of: Chosen, at: &mut Picking, lone: &mut [u64]) -> Option<Token>
    requires { Ready of.text.now at.old lone.old }
    ensures { Picks of.entry.text.now at.old at.new lone.new result (λ cursor. records_of (chosen of.entry.choice of.entry.text.now cursor)) }
{
    while at.cursor < of.choice.position {
        let token = read_on(of.text, at, lone);
        if of.choice.keeps(token.kind) {
            return Some(token);
        }
    }
    None
}

// The two tokens of a text that is too long: the cursor counts them.
fn pick_too_long(at: &mut Picking) -> Option<Token>
    ensures { (s lone : List ℕ) → Ready s at.old lone → Picks s at.old at.new lone result (λ cursor. records_of (drop cursor too_long_list)) }
{
    let kind = match at.cursor {
        0 => SyntaxKind::ErrorMaxQuerySizeExceeded,
        1 => SyntaxKind::EndOfStream,
        _ => return None,
    };
    at.cursor += 1;
    Some(Token {
        kind,
        start: 0,
        end: 0,
    })
}

// The next token of the list, if there is one.
pub fn pick(text: &[u8], at: &mut Picking, lone: &mut [u64]) -> Option<Token>
    requires { Follows at.old.plan text.now × Ready text.now at.old lone.old }
    ensures { Picks text.now at.old at.new lone.new result (records_from at.old.plan text.now) }
{
    match at.plan {
        Err(_) | Ok(Plan::Answered(_)) => None,
        Ok(Plan::TooLong) => pick_too_long(at),
        Ok(Plan::List(choice)) => pick_chosen(Chosen { text, choice }, at, lone),
    }
}
