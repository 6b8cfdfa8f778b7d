// The listings into a lent slice of token records, where room is the number of records.
ghost use Rattle.std.specs.Prelude.{◌≡◌};
ghost use Rattle.lists.specs.Plans.{plan_of, Follows};
ghost use Rattle.forms.specs.Records.{recorded, records_by, record_listing, record_listing_up_to, no_records};

use lexer::token::Token;
use lists::listing::{Plan, Settings, plan_up_to, plan_whole};
use lists::picks::{answer_by, begin, no_bits, pick};
use rules::refusal::Refusal;

// Stores a plan's list from the front on. The index is counted by hand, since the number of records is what is answered.
pub fn store_records(
    text: &[u8],
    plan: Result<Plan, Refusal>,
    list: &mut [Token],
) -> Result<usize, Refusal>
    requires { Follows plan text.now }
    ensures { recorded result list.new ≡ records_by (plan_of plan text.now) list.old }
{
    let mut lone = no_bits();
    let mut at = begin(text, plan, list.len());
    let mut i = 0;
    while let Some(token) = pick(text, &mut at, &mut lone) {
        list[i] = token;
        i += 1;
    }
    answer_by(at, i)
}

// The whole listing. This and the next are two as `tokenize` and `tokenize_up_to_position` are: each is one definition's.
pub fn tokenize_records(
    settings: Settings,
    text: &[u8],
    list: &mut [Token],
) -> Result<usize, Refusal>
    ensures { recorded result list.new ≡ record_listing settings.mode text.now list.old }
{
    let plan = plan_whole(settings, text);
    store_records(text, plan, list)
}

// The tokens that start before the position.
pub fn tokenize_up_to_position_records(
    settings: Settings,
    text: &[u8],
    list: &mut [Token],
) -> Result<usize, Refusal>
    ensures { recorded result list.new ≡ record_listing_up_to settings.mode settings.position text.now list.old }
{
    let plan = plan_up_to(settings, text);
    store_records(text, plan, list)
}

// The whole listing in records by value. Those past the list, and all where it is refused, have kind 0.
pub fn records_64(settings: Settings, text: &[u8]) -> [Token; 64]
    ensures { result ≡ (record_listing settings.mode text.now no_records).records }
{
    let mut list = [Token::default(); 64];
    let _ = tokenize_records(settings, text, &mut list);
    list
}

// The same up to the position. Each of the two is one definition's: `record_listing`, and `record_listing_up_to`.
pub fn records_64_up_to(settings: Settings, text: &[u8]) -> [Token; 64]
    ensures { result ≡ (record_listing_up_to settings.mode settings.position text.now no_records).records }
{
    let mut list = [Token::default(); 64];
    let _ = tokenize_up_to_position_records(settings, text, &mut list);
    list
}
