// UTF-8, as RFC 3629 has it: what a text has at a position, and how far it is well-formed.
#![tactic(auto)]

ghost use Rattle.std.specs.Prelude.{◌≡◌, true, ◌&&◌, ℕ, ◌+◌, ◌%◌, ◌^◌, ◌≤◌, ◌<◌, length, get_or, drop};
ghost use Rattle.rules.specs.Utf8.{within, utf8_tail, utf8_three, utf8_four, well_formed, broken_length, code_of, valid_length};
ghost use Rattle.utf8.specs.Units.{some_length, unit_at, unit_code, unit_len, Passes, after, takes_tail};

#[derive(Clone, Copy)]
pub enum Unit {
    Char { code: u32, len: usize },
    // No character begins here, but `len` bytes that begin one, or a byte that begins none.
    Broken { len: usize },
    End,
}

// The byte at i, or 0 past the end.
pub fn byte_at(s: &[u8], i: usize) -> u8
    ensures { result ≡ get_or s.now i 0 }
{
    s.get(i).copied().unwrap_or(0)
}

pub fn is_tail(b: u8) -> bool
    ensures { result ≡ utf8_tail b }
{
    matches!(b, 0x80..=0xBF)
}

// The second byte from lo to hi, and a tail after it.
fn one_more(lo: u8, hi: u8, b: u8, c: u8) -> bool
    ensures { result ≡ (within lo hi b && utf8_tail c) }
{
    ((lo <= b) & (b <= hi)) & is_tail(c)
}

// Three bytes of which the first is E0 to EF. E0 and ED bound the second more than a tail is bounded.
fn is_three(a: u8, b: u8, c: u8) -> bool
    requires { (0xE0 ≤ a) × (a < 0xF0) }
    ensures { result ≡ utf8_three a b c }
{
    match a {
        0xE0 => one_more(0xA0, 0xBF, b, c),
        0xED => one_more(0x80, 0x9F, b, c),
        _ => one_more(0x80, 0xBF, b, c),
    }
}

// True only if, after a first byte of F0 or more, the second is such that two tails make the four a character.
fn is_second(a: u8, b: u8) -> bool
    requires { 0xF0 ≤ a }
    ensures { (c d : ℕ) → (result && utf8_tail c && utf8_tail d) ≡ utf8_four a b c d }
{
    match a {
        0xF0 => (0x90 <= b) & (b <= 0xBF),
        0xF1..=0xF3 => is_tail(b),
        0xF4 => (0x80 <= b) & (b <= 0x8F),
        _ => false,
    }
}

// Four bytes of which the first is F0 or more.
fn is_four(a: u8, b: u8, c: u8, d: u8) -> bool
    requires { 0xF0 ≤ a }
    ensures { result ≡ utf8_four a b c d }
{
    is_second(a, b) & is_tail(c) & is_tail(d)
}

// The length of the character at j, if one begins there. A form of four bytes has one test that all are there, which is faster.
#[inline(always)]
fn formed_at(s: &[u8], j: usize) -> Option<usize>
    requires { j < length s.now }
    ensures { result ≡ some_length (well_formed (drop j s.now)) }
{
    let a = s[j];
    match a {
        0..0x80 => Some(1),
        0x80..0xC2 => None,
        0xC2..0xE0 => is_tail(byte_at(s, j + 1)).then_some(2),
        0xE0..0xF0 => is_three(a, byte_at(s, j + 1), byte_at(s, j + 2)).then_some(3),
        _ if s.len() - j < 4 => None,
        _ => is_four(a, s[j + 1], s[j + 2], s[j + 3]).then_some(4),
    }
}

// The length of the broken character at j, where no whole one begins. 80 stands for the tail that would follow.
fn begun_at(s: &[u8], j: usize) -> usize
    requires { j < length s.now }
    ensures { result ≡ broken_length (drop j s.now) }
{
    let a = s[j];
    let b = byte_at(s, j + 1);
    match a {
        0xE0..0xF0 if is_three(a, b, 0x80) => 2,
        0xF0.. if is_second(a, b) => if is_tail(byte_at(s, j + 2)) { 3 } else { 2 },
        _ => 1,
    }
}

// The low six bits of the byte at i, or 0 past the end.
fn low_at(s: &[u8], i: usize) -> u32
    ensures { result ≡ get_or s.now i 0 % 64 }
{
    u32::from(byte_at(s, i)) % 64
}

// The code of the character of n bytes at i.
fn code_at(s: &[u8], i: usize, n: usize) -> u32
    requires { i < length s.now }
    ensures { result ≡ code_of n (drop i s.now) }
{
    let a = u32::from(s[i]);
    let b = low_at(s, i + 1);
    match n {
        1 => a,
        2 => a % 32 * 64 + b,
        3 => a % 16 * 4096 + b * 64 + low_at(s, i + 2),
        _ => a % 8 * 262144 + b * 4096 + low_at(s, i + 2) * 64 + low_at(s, i + 3),
    }
}

// What the text has at i.
pub fn unit_at(s: &[u8], i: usize) -> Unit
    ensures { result ≡ unit_at (drop i s.now) }
{
    if i >= s.len() {
        return Unit::End;
    }
    match formed_at(s, i) {
        Some(len) => Unit::Char {
            code: code_at(s, i, len),
            len,
        },
        None => Unit::Broken {
            len: begun_at(s, i),
        },
    }
}

// The code of a unit; of no character, a code past all of them, as `unit_code` of specs/Units has it: what asks for a class needs no case for it.
pub fn unit_code(u: Unit) -> u32
    ensures { result ≡ unit_code u }
{
    match u {
        Unit::Char { code, .. } => code,
        Unit::Broken { .. } | Unit::End => 0x110000,
    }
}

// The bytes of a unit.
pub fn unit_len(u: Unit) -> usize
    ensures { result ≡ unit_len u }
{
    match u {
        Unit::Char { len, .. } | Unit::Broken { len } => len,
        Unit::End => 0,
    }
}

// The bytes of what the text has at i. No `Unit` stands between, whose length a compiler may compare before it asks whether there is one:
// that is right, but valgrind reports it.
pub fn len_at(s: &[u8], i: usize) -> usize
    ensures { result ≡ unit_len (unit_at (drop i s.now)) }
{
    if i >= s.len() {
        return 0;
    }
    match formed_at(s, i) {
        Some(n) => n,
        None => begun_at(s, i),
    }
}

// True only if the next N bytes are ASCII. No byte ends the loop early, so that they become one test.
fn are_ascii<const N: usize>(s: &[u8], i: usize) -> bool
    requires { i + N ≤ length s.now }
    ensures { result ≡ true → Passes s.now i (i + N) }
{
    let mut all = 0;
    for b in &s[i..i + N] {
        all |= *b;
    }
    all < 0x80
}

// Past the ASCII from j on. A text that goes on with a longer character at once, as after a lone space, leaves before the blocks.
fn ascii_end(s: &[u8], j: usize) -> usize
    requires { j ≤ length s.now }
    ensures { Passes s.now j result }
{
    let mut k = j;
    if byte_at(s, k) >= 0x80 {
        return k;
    }
    // Each loop goes on where the one before it stopped: an iterator over blocks would not hand that back.
    while s.len() - k >= 64 && are_ascii::<64>(s, k) {
        k += 64;
    }
    while s.len() - k >= 8 && are_ascii::<8>(s, k) {
        k += 8;
    }
    let rest = &s[k..];
    k + rest.iter().position(|b| *b >= 0x80).unwrap_or(rest.len())
}

// The first of two bytes stands at i where a tail follows, and a tail or ASCII where none does.
fn pair_at(s: &[u8], i: usize) -> bool
    requires { i + 1 < length s.now }
    ensures { result ≡ true → Passes s.now (after 1 s.now i) (after 1 s.now (i + 1)) }
{
    let b = s[i];
    if is_tail(s[i + 1]) {
        (0xC2 <= b) & (b < 0xE0)
    } else {
        b < 0xC0
    }
}

// Whether a tail, as `b` is, may come after `a`: a tail, or what begins two bytes or three. E0 and ED bound the second.
fn takes_tail(a: u8, b: u8) -> bool
    ensures { result ≡ takes_tail a b }
{
    (is_tail(a) | ((0xC2 <= a) & (a <= 0xEF)))
        & (((a != 0xE0) | (0xA0 <= b)) & ((a != 0xED) | (b <= 0x9F)))
}

// The byte at i may stand before the two after it, where no character is longer than three bytes. No test is a jump, so that 16 become one.
fn triple_at(s: &[u8], i: usize) -> bool
    requires { i + 2 < length s.now }
    ensures { result ≡ true → Passes s.now (after 2 s.now i) (after 2 s.now (i + 1)) }
{
    let a = s[i];
    let b = s[i + 1];
    let tail = is_tail(b);
    let more = is_tail(s[i + 2]);
    let three = (0xE0 <= a) & (a <= 0xEF);
    (!tail & (a < 0xC0)) | (tail & (takes_tail(a, b) & (more == three)))
}

// Each index from i to i + 16 passes the test. None ends the loop early, so that the 16 become one test.
fn all16<F: Fn(usize) -> bool>(i: usize, test: F) -> bool
    requires room { i + 16 < 2 ^ 64 }
    requires call { (k : ℕ) → i ≤ k → k < i + 16 → F.pre test k }
    ensures { result ≡ true → (k : ℕ) → i ≤ k → k < i + 16 → F.post test k true }
{
    let mut all = true;
    for k in i..i + 16 {
        all &= test(k);
    }
    all
}

// Past at most N tails from k on. Where it ends is the answer, and past the text's end there is no tail: an iterator would need a limit and a test more.
fn after_tails<const N: usize>(s: &[u8], k: usize) -> usize
    requires { k ≤ length s.now }
    ensures { result ≡ after N s.now k }
{
    let mut end = k;
    while end - k < N && is_tail(byte_at(s, end)) {
        end += 1;
    }
    end
}

// Past characters of at most N tails from j on, by blocks, where `test` says so byte by byte. A block may end between the bytes of a character; much
// ASCII is left to its own blocks.
fn narrow_end<const N: usize, F: Fn(usize) -> bool>(s: &[u8], j: usize, test: F) -> usize
    requires from { j ≤ length s.now }
    requires few { N ≤ 48 }
    requires call { (i : ℕ) → i + N < length s.now → F.pre test i }
    requires law { (i : ℕ) → i + N < length s.now → F.post test i true → Passes s.now (after N s.now i) (after N s.now (i + 1)) }
    ensures { Passes s.now j result }
{
    if is_tail(byte_at(s, j)) {
        return j;
    }
    let mut k = j;
    // As in `ascii_end`, the index is what is wanted.
    while s.len() - k >= 64 && !are_ascii::<64>(s, k) && all16(k, &test) {
        k += 16;
    }
    after_tails::<N>(s, k)
}

// Past characters of four bytes from j on. A turn of its own tests less than one of `valid_length`, which asks for each length.
fn fours_end(s: &[u8], j: usize) -> usize
    requires { j ≤ length s.now }
    ensures { Passes s.now j result }
{
    let mut k = j;
    while s.len() - k >= 4 && s[k] >= 0xF0 && is_four(s[k], s[k + 1], s[k + 2], s[k + 3]) {
        k += 4;
    }
    k
}

// The length of the longest prefix of well-formed characters.
pub fn valid_length(s: &[u8]) -> usize
    ensures { result ≡ valid_length s.now }
{
    let mut j = 0;
    // A turn goes on where a run ends.
    while j < s.len() {
        if s[j] < 0x80 {
            j = ascii_end(s, j + 1);
        } else {
            j = match formed_at(s, j) {
                None => return j,
                Some(2) => narrow_end::<1, _>(s, j + 2, |i| pair_at(s, i)),
                Some(3) => narrow_end::<2, _>(s, j + 3, |i| triple_at(s, i)),
                Some(n) => fours_end(s, j + n),
            };
        }
    }
    j
}
