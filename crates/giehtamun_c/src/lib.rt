// The library as C functions: each is the function of giehtamun of its name, with its clauses.
#![tactic(auto)]

ghost use Rattle.std.specs.Prelude.{◌≡◌};
ghost use Rattle.rules.specs.Answers.{listing, listing_up_to, step as step_at, token_text as token_text_of, shown_text as shown_text_of, masked_copy, place_at};
ghost use Rattle.rules.specs.Statements.{first_statement};
ghost use Rattle.rules.specs.Saved.{saving, loading, saved_text as saved_text_of};
ghost use Rattle.giehtamun.specs.Packed.{packed_written, packed_step, packed_part, packed_place, packed_first, packed_text, packed_loaded};

#[unsafe(no_mangle)]
pub extern "C" fn giehtamun_list(text: &[u8], mode: u32, list: &mut [u8]) -> u64
    ensures { packed_written result list.new (listing mode text.now list.old) }
{
    giehtamun::giehtamun_list(text, mode, list)
}

#[unsafe(no_mangle)]
pub extern "C" fn giehtamun_list_up_to(
    text: &[u8],
    mode: u32,
    position: usize,
    list: &mut [u8],
) -> u64
    ensures { packed_written result list.new (listing_up_to mode position text.now list.old) }
{
    giehtamun::giehtamun_list_up_to(text, mode, position, list)
}

#[unsafe(no_mangle)]
pub extern "C" fn giehtamun_step(text: &[u8], cursor: usize) -> u64
    ensures { result ≡ packed_step (step_at text.now cursor) }
{
    giehtamun::giehtamun_step(text, cursor)
}

#[unsafe(no_mangle)]
pub extern "C" fn giehtamun_mask(text: &[u8], copy: &mut [u8]) -> u64
    ensures { packed_written result copy.new (masked_copy text.now copy.old) }
{
    giehtamun::giehtamun_mask(text, copy)
}

#[unsafe(no_mangle)]
pub extern "C" fn giehtamun_token_text(text: &[u8], start: usize, end: usize) -> u64
    ensures { result ≡ packed_part (token_text_of text.now start end) }
{
    giehtamun::giehtamun_token_text(text, start, end)
}

#[unsafe(no_mangle)]
pub extern "C" fn giehtamun_shown_text(
    text: &[u8],
    copy: &[u8],
    kind: u32,
    start: usize,
    end: usize,
) -> u64
    ensures { result ≡ packed_part (shown_text_of text.now copy.now kind start end) }
{
    giehtamun::giehtamun_shown_text(text, copy, kind, start, end)
}

#[unsafe(no_mangle)]
pub extern "C" fn giehtamun_place(text: &[u8], offset: usize) -> u64
    ensures { result ≡ packed_place (place_at text.now offset) }
{
    giehtamun::giehtamun_place(text, offset)
}

#[unsafe(no_mangle)]
pub extern "C" fn giehtamun_first_statement(text: &[u8]) -> u64
    ensures { result ≡ packed_first (first_statement text.now) }
{
    giehtamun::giehtamun_first_statement(text)
}

#[unsafe(no_mangle)]
pub extern "C" fn giehtamun_statement_text(text: &[u8]) -> u64
    ensures { result ≡ packed_text (first_statement text.now) }
{
    giehtamun::giehtamun_statement_text(text)
}

#[unsafe(no_mangle)]
pub extern "C" fn giehtamun_save(text: &[u8], list: &[u8], flag: u32, file: &mut [u8]) -> u64
    ensures { packed_written result file.new (saving text.now list.now flag file.old) }
{
    giehtamun::giehtamun_save(text, list, flag, file)
}

#[unsafe(no_mangle)]
pub extern "C" fn giehtamun_load(file: &[u8], list: &mut [u8]) -> u64
    ensures { packed_loaded result list.new (loading file.now list.old) }
{
    giehtamun::giehtamun_load(file, list)
}

#[unsafe(no_mangle)]
pub extern "C" fn giehtamun_saved_text(file: &[u8]) -> u64
    ensures { result ≡ packed_part (saved_text_of file.now) }
{
    giehtamun::giehtamun_saved_text(file)
}
