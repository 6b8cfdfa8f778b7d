// The functions of probe as C functions, with its clauses.
#![tactic(auto)]

ghost use Rattle.std.specs.Prelude.{◌≡◌, drop};
ghost use Rattle.rules.specs.Utf8.{valid_length};
ghost use Rattle.rules.specs.Classes.{white_space, alphabetic, alphanumeric};
ghost use Rattle.utf8.specs.Units.{unit_at, unit_code, unit_len};

#[unsafe(no_mangle)]
pub extern "C" fn probe_valid_length(text: &[u8]) -> usize
    ensures { result ≡ valid_length text.now }
{
    probe::probe_valid_length(text)
}

#[unsafe(no_mangle)]
pub extern "C" fn probe_code_at(text: &[u8], at: usize) -> u32
    ensures { result ≡ unit_code (unit_at (drop at text.now)) }
{
    probe::probe_code_at(text, at)
}

#[unsafe(no_mangle)]
pub extern "C" fn probe_length_at(text: &[u8], at: usize) -> usize
    ensures { result ≡ unit_len (unit_at (drop at text.now)) }
{
    probe::probe_length_at(text, at)
}

#[unsafe(no_mangle)]
pub extern "C" fn probe_is_white_space(code: u32) -> bool
    ensures { result ≡ white_space code }
{
    probe::probe_is_white_space(code)
}

#[unsafe(no_mangle)]
pub extern "C" fn probe_is_alphabetic(code: u32) -> bool
    ensures { result ≡ alphabetic code }
{
    probe::probe_is_alphabetic(code)
}

#[unsafe(no_mangle)]
pub extern "C" fn probe_is_alphanumeric(code: u32) -> bool
    ensures { result ≡ alphanumeric code }
{
    probe::probe_is_alphanumeric(code)
}
