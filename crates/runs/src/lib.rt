// Runs of bytes of a class, eight at a time: each ends where eight bytes are no longer left, and its caller goes on byte by byte; and bytes copied.
#![tactic(auto)]

ghost use Rattle.std.specs.Prelude.{◌≡◌, Bool, true, false, ◌&&◌, ◌++◌, ℕ, ◌+◌, ◌-◌, ◌*◌, ◌≤◌, ◌<◌, length, get_or, drop};
ghost use Rattle.runs.specs.Classes.{Ascii, Ascii-prop, inside, passes, Skips, Unpaired};
ghost use Rattle.runs.specs.Lanes.{ones, packed, others};

// A class of bytes of ASCII: from one edge on and below the next, of which there are four pairs. Two equal ones bound nothing.
#[derive(Clone, Copy, PartialEq, Eq, Debug)]
pub struct Class {
    pub edges: [u8; 8],
    pub ghost eight: { length edges ≡ 8 },
    pub ghost ascii: { Ascii edges } by { Ascii-prop edges },
}

impl Class {
    pub const WORDS: Class = Class {
        edges: [b'0', b':', b'A', b'[', b'_', b'`', b'a', b'{'],
    };

    pub const DIGITS: Class = Class {
        edges: [b'0', b':', 0, 0, 0, 0, 0, 0],
    };

    pub const SPACES: Class = Class {
        edges: [b'\t', 14, b' ', b'!', 0, 0, 0, 0],
    };

    // Digits and white space.
    pub const FIGURES: Class = Class {
        edges: [b'\t', 14, b' ', b'!', b'0', b':', 0, 0],
    };
}

// The eight bytes from i on as one number, the first lowest. It becomes one load.
pub fn eight(text: &[u8], i: usize) -> u64
    requires { i + 8 ≤ length text.now }
    ensures { result ≡ packed 8 text.now i }
{
    u64::from_le_bytes([
        text[i],
        text[i + 1],
        text[i + 2],
        text[i + 3],
        text[i + 4],
        text[i + 5],
        text[i + 6],
        text[i + 7],
    ])
}

// Each byte of y is below 80, and so none of the sums runs over into the next.
fn raised(y: u64, edge: u8) -> u64
    requires { (y ≤ 0x7F * ones 8) × (edge ≤ 0x80) }
    ensures { result ≡ y + (0x80 - edge) * ones 8 }
{
    y + (0x80 - edge) as u64 * 0x0101_0101_0101_0101
}

// The high bit of each byte that is not in the class.
pub fn others(x: u64, class: Class) -> u64
    ensures { result ≡ others 8 class.edges x }
{
    let y = x & 0x7F7F_7F7F_7F7F_7F7F;
    let mut outside = 0x8080_8080_8080_8080;
    for edge in class.edges {
        outside ^= raised(y, edge);
    }
    (outside | x) & 0x8080_8080_8080_8080
}

// Where the bytes from `at` on end that are in the class; or, where `out`, those that are not.
pub fn skip(text: &[u8], at: usize, out: bool, class: Class) -> usize
    requires { at ≤ length text.now }
    ensures { Skips (passes out class.edges) text.now at result }
{
    let flip = if out { 0x8080_8080_8080_8080 } else { 0 };
    let mut j = at;
    // The index is the answer, which no iterator over blocks hands back; so in `skip_pairs`.
    while text.len() - j >= 8 {
        let m = others(eight(text, j), class) ^ flip;
        if m != 0 {
            return j + (m.trailing_zeros() / 8) as usize;
        }
        j += 8;
    }
    j
}

// True only if none of the eight bytes from i on is of the first class before one of the second.
fn no_pairs(text: &[u8], i: usize, a: Class, b: Class) -> bool
    requires { i + 9 ≤ length text.now }
    ensures { result ≡ true → (k : ℕ) → k < 8 → (inside a.edges (get_or text.now (i + k) 0) && inside b.edges (get_or text.now (i + 1 + k) 0)) ≡ false }
{
    (others(eight(text, i), a) | others(eight(text, i + 1), b)) == 0x8080_8080_8080_8080
}

// Over bytes none of which is of the first class before one of the second, eight at a time, but of the last eight perhaps none.
pub fn skip_pairs(text: &[u8], at: usize, a: Class, b: Class) -> usize
    requires { at ≤ length text.now }
    ensures { Unpaired (inside a.edges) (inside b.edges) text.now at result }
{
    let mut i = at;
    while text.len() - i >= 9 && no_pairs(text, i, a, b) {
        i += 8;
    }
    i
}

// Bytes copied to the front of others, of which the rest stays. By a loop, which becomes wide code: `copy_from_slice` calls memmove, which a host
// without a C library does not have.
pub fn copy_front(text: &[u8], copy: &mut [u8])
    requires { length text.now ≤ length copy.old }
    ensures { let s = text.now in copy.new ≡ s ++ drop (length s) copy.old }
{
    for i in 0..text.len() {
        copy[i] = text[i];
    }
}
