// Decoding and classes as functions of plain numbers, which probe_c exports to C, for the host's tests of these two alone.
#![tactic(auto)]

ghost use Rattle.std.specs.Prelude.{◌≡◌, drop};
ghost use Rattle.rules.specs.Utf8.{valid_length};
ghost use Rattle.rules.specs.Classes.{white_space, alphabetic, alphanumeric};
ghost use Rattle.utf8.specs.Units.{unit_at, unit_code, unit_len};

pub fn probe_valid_length(text: &[u8]) -> usize
    ensures { result ≡ valid_length text.now }
{
    utf8::valid_length(text)
}

pub fn probe_code_at(text: &[u8], at: usize) -> u32
    ensures { result ≡ unit_code (unit_at (drop at text.now)) }
{
    utf8::unit_code(utf8::unit_at(text, at))
}

pub fn probe_length_at(text: &[u8], at: usize) -> usize
    ensures { result ≡ unit_len (unit_at (drop at text.now)) }
{
    utf8::unit_len(utf8::unit_at(text, at))
}

pub fn probe_is_white_space(code: u32) -> bool
    ensures { result ≡ white_space code }
{
    classes::is_white_space(code)
}

pub fn probe_is_alphabetic(code: u32) -> bool
    ensures { result ≡ alphabetic code }
{
    classes::is_alphabetic(code)
}

pub fn probe_is_alphanumeric(code: u32) -> bool
    ensures { result ≡ alphanumeric code }
{
    classes::is_alphanumeric(code)
}
