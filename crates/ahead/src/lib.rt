// The tokens of a text one after another, with few searches that find nothing: docs/BENCH.md has what the worst known texts take.
//
// A search for a here-document's end that finds nothing goes over the whole rest of the text, and a text can ask for many such searches. So the
// bytes that were searched in vain are counted, and now and then one pass over the rest of the text finds out for many `$` at once that they begin no
// here-document. What the pass finds is a number and some bits, and what is proved of them is only that no `$` is marked wrongly: the table that
// the pass makes of the tags may hold anything.
//
// That a text is within the limit is a clause, here and in the crates above, and no type: a text with that fact would be taken apart again at each call
// of the crates below, which take any bytes, and each clause would be longer by a field than it is by the fact.
#![tactic(auto)]

ghost use Rattle.std.proofs.Props.{props};
ghost use Rattle.std.specs.Prelude.{◌≡◌, ℕ, List, ◌+◌, ◌<◌, ◌≤◌, true, length, drop, slice_index};
ghost use Rattle.rules.specs.Dollars.{tag_byte};
ghost use Rattle.rules.specs.Limits.{max_query_size};
ghost use Rattle.rules.specs.Characters.{dollar};
ghost use Rattle.lexer.specs.HereDocs.{TagEnd};
ghost use Rattle.ahead.specs.Slots.{slots, filter_at, key_at, mixed, hash_from, start_of, word_of, may_hold, probed, slot_of, slot_from, IsPlace, Seen};
ghost use Rattle.ahead.specs.Marks.{Lone, LoneWord, LoneWords, LoneUntil, marked, Marked, Lexes, wasted_by};

use lexer::bytes::is_tag_byte;
use lexer::syntax_kind::SyntaxKind;
use lexer::token::Lexed;
use lexer::tokenizer::next_token;
use std::hash::{DefaultHasher, Hasher};
use utf8::byte_at;

// The table holds hashes of tags: one is looked for first at one of `SLOTS` places, and then at up to 63 that follow. Behind them stand words of bits,
// which say that a hash may be there, and behind these two keys.
const SLOTS: usize = 81_920;

const PLACES: usize = 81_984;

const KEYS: usize = 114_752;

const TABLE: usize = 114_754;

// Hashes, bits and keys in one array: a struct of three by value would be moved through the stack.
type Table = [u32; TABLE];

// What is noted of the slot at each place.
type Last = [u32; PLACES];

// One byte more of a hash. Of the old one the lower half is multiplied and the upper half added, so nothing wraps and nothing is lost.
fn mix(k: u32, h: u64, b: u8) -> u64
    ensures { result ≡ mixed k h b }
{
    h % 0x1_0000_0000 * k as u64 + h / 0x1_0000_0000 + b as u64
}

// The hash of a tag with the byte after it, and where its bytes end. The two keys take turns.
#[derive(Clone, Copy)]
struct Hashed {
    hash: u64,
    end: usize,
}

fn hash_at(text: &[u8], at: usize, first: u32, second: u32) -> Hashed
    requires { at ≤ length text.now }
    ensures { (result.hash ≡ hash_from first second first (drop at text.now)) × TagEnd text.now at result.end }
{
    let mut a = first;
    let mut b = second;
    let mut h = first as u64;
    for j in at..text.len() {
        let c = text[j];
        if !is_tag_byte(c) {
            return Hashed {
                hash: mix(b, mix(a, h, c), 0),
                end: j,
            };
        }
        h = mix(a, h, c);
        let next = b;
        b = a;
        a = next;
    }
    Hashed {
        hash: mix(b, mix(a, h, 0), 0),
        end: text.len(),
    }
}

// Where a hash is looked for first, and which bit of which word says that it may be there.
fn start_of(h: u64) -> usize
    ensures { (result ≡ start_of h) × (result < slots) }
{
    (h % 0x1_0000_0000 * SLOTS as u64 / 0x1_0000_0000) as usize
}

fn word_of(h: u64) -> usize
    ensures { (result ≡ word_of h) × (result < key_at) }
{
    PLACES + (h % 0x1_0000_0000 / 0x2_0000) as usize
}

fn may_hold(table: &Table, h: u64) -> bool
    ensures { result ≡ may_hold table.now h }
{
    (table[word_of(h)] >> (h / 0x1000 % 32)) % 2 == 1
}

// Which of 64 places holds a number. An empty one ends the search.
fn probe(table: &Table, f: u32, at: usize) -> Option<usize>
    requires { at < slots }
    ensures { IsPlace result (probed table.now f at 64) }
{
    for i in at..at + 64 {
        let x = table[i];
        if x == f {
            return Some(i);
        }
        if x == 0 {
            return None;
        }
    }
    None
}

// The slot of a hash: where its upper half stands.
fn slot_of(table: &Table, h: u64) -> Option<usize>
    ensures { IsPlace result (slot_of table.now h) }
{
    if !may_hold(table, h) {
        return None;
    }
    probe(table, (h / 0x1_0000_0000) as u32, start_of(h))
}

// The slot of a tag, and where its bytes end.
#[derive(Clone, Copy)]
struct Key {
    slot: Option<usize>,
    end: usize,
}

fn key_at(text: &[u8], at: usize, table: &Table) -> Key
    requires { at ≤ length text.now }
    ensures { IsPlace result.slot (slot_from table.now (drop at text.now)) × TagEnd text.now at result.end }
{
    let hashed = hash_at(text, at, table[KEYS], table[KEYS + 1]);
    Key {
        slot: slot_of(table, hashed.hash),
        end: hashed.end,
    }
}

// What became of a number that was to be put into the table.
#[derive(Clone, Copy, PartialEq, Eq)]
enum Placed {
    Full,
    There,
    New,
}

fn put(table: &mut Table, f: u32, at: usize) -> Placed
    requires { at < slots }
{
    for i in at..at + 64 {
        let x = table[i];
        if x == f {
            return Placed::There;
        }
        if x == 0 {
            table[i] = f;
            return Placed::New;
        }
    }
    Placed::Full
}

// The same for a hash, which is marked.
fn put_hash(table: &mut Table, h: u64) -> Placed {
    let w = word_of(h);
    table[w] |= 1 << (h / 0x1000 % 32);
    put(table, (h / 0x1_0000_0000) as u32, start_of(h))
}

// Puts the tags from an offset on into the table, 49,152 of them at most, and none from 1,048,576 bytes further on.
fn collect(text: &[u8], from: usize, table: &mut Table)
    requires { from ≤ length text.now }
{
    let mut free: usize = 49152;
    let mut j = from;
    // From tag to tag: a turn goes on where a tag ends, so it is no `for`, here and in `note_last`.
    while j < text.len() && j - from < 0x10_0000 && free > 0 {
        if text[j] != b'$' {
            j += 1;
            continue;
        }
        let hashed = hash_at(text, j + 1, table[KEYS], table[KEYS + 1]);
        j = hashed.end;
        match put_hash(table, hashed.hash) {
            Placed::Full => return,
            Placed::There => {}
            Placed::New => free -= 1,
        }
    }
}

// Notes for each slot where its tag is last seen after a `$`.
fn note_last(text: &[u8], from: usize, table: &Table, last: &mut Last)
    requires { length text.now ≤ max_query_size }
    ensures { Seen text.now from table.now last.new (length text.now) }
{
    let mut j = from;
    while j < text.len() {
        if text[j] != b'$' {
            j += 1;
            continue;
        }
        let key = key_at(text, j + 1, table);
        if let Some(slot) = key.slot {
            last[slot] = j as u32;
        }
        j = key.end;
    }
}

// The tags of a text from an offset on, and where each is last seen.
#[derive(Clone, Copy)]
struct Tags<'a> {
    text: &'a [u8],
    from: usize,
    table: &'a Table,
    last: &'a Last,
    ghost noted: { length last.now ≡ filter_at },
    ghost seen: { Seen text.now from table.now last.now (length text.now) } by { Prim.hlevel props },
}

impl Tags<'_> {
    // True only if the `$` at `at` begins no here-document: its tag is not seen after it.
    fn is_lone(self, at: usize) -> bool
        requires { self.from ≤ at }
        ensures { result ≡ true → Lone self.entry.text.now at }
    {
        if byte_at(self.text, at) != b'$' {
            return false;
        }
        let key = key_at(self.text, at + 1, self.table);
        if byte_at(self.text, key.end) != b'$' {
            return true;
        }
        match key.slot {
            Some(slot) => self.last[slot] as usize <= key.end,
            None => false,
        }
    }

    // Up to where no `$` begins a here-document.
    fn lone_until(self) -> usize
        requires { self.from ≤ length self.text.now }
        ensures { let s = self.entry.text.now in LoneUntil s self.entry.from result × (self.entry.from ≤ result) × (result ≤ length s) }
    {
        for i in self.from..self.text.len() {
            if self.text[i] == b'$' && !self.is_lone(i) {
                return i;
            }
        }
        self.text.len()
    }

    // The bits of 64 offsets.
    fn word_at(self, at: usize) -> u64
        requires { (self.from ≤ at) × (at ≤ length self.text.now) }
        ensures { LoneWord self.entry.text.now at result }
    {
        let mut word: u64 = 0;
        for k in (0..64).rev() {
            word = word * 2 + u64::from(self.is_lone(at + k));
        }
        word
    }

    // The words of the window at `at`; those past the text's end are 0.
    fn fill_bits(self, at: usize, lone: &mut [u64])
        requires { (self.from ≤ at) × (at ≤ length self.text.now) }
        ensures { LoneWords self.entry.text.now at lone.new (length lone.new) }
    {
        for (m, word) in lone.iter_mut().enumerate() {
            *word = if (self.text.len() - at) / 64 < m {
                0
            } else {
                self.word_at(at + m * 64)
            };
        }
    }
}

// A digest of all that follows an offset, from which the keys come: a text that is made for some keys has others.
fn digest(text: &[u8], from: usize) -> u64
    requires { from ≤ length text.now }
{
    let mut hasher = DefaultHasher::new();
    hasher.write(&text[from..]);
    hasher.finish()
}

// Looks ahead: marks what it can from an offset on, and says where the window of the bits begins. It takes 787 KB of stack, which no other call is to
// touch: it stays out of line.
#[cold]
#[inline(never)]
pub fn look_ahead(text: &[u8], from: usize, lone: &mut [u64]) -> usize
    requires { (length text.now ≤ max_query_size) × (from ≤ length text.now) }
    ensures { Marked text.now from result lone.new }
{
    let seed = digest(text, from);
    // Hashes, bits and keys in one array of fixed size: there is no heap.
    let mut table = [0; TABLE];
    table[KEYS] = (seed / 0x1_0000_0000) as u32 | 0x8000_0001;
    table[KEYS + 1] = (seed % 0x1_0000_0000) as u32 | 0x8000_0001;
    collect(text, from, &mut table);
    let mut last = [0; PLACES];
    note_last(text, from, &table, &mut last);
    let tags = Tags {
        text,
        from,
        table: &table,
        last: &last,
    };
    let until = tags.lone_until();
    tags.fill_bits(until, lone);
    until
}

// What the last look ahead found out: no `$` before `until` begins a here-document, and none from there on whose bit is set. That they are marks of a text
// is a clause of those who take both, and a ghost field of `edges::walk::Walk`, which has both: a struct for the clauses alone would be made anew at each token.
#[derive(Clone, Copy)]
pub struct Marks<'a> {
    pub until: usize,
    pub lone: &'a [u64],
}

impl Marks<'static> {
    // Before the first look.
    pub fn none() -> Self
        ensures nothing { (result.until ≡ 0) × (length result.lone.now ≡ 0) }
        ensures marked { (s : List ℕ) (from : ℕ) → Marked s from result.until result.lone.now }
    {
        Marks {
            until: 0,
            lone: &[],
        }
    }
}

impl Marks<'_> {
    fn has(self, at: usize) -> bool
        ensures { result ≡ marked self.entry.until self.entry.lone.now at }
    {
        if at < self.until {
            return true;
        }
        let k = at - self.until;
        if self.lone.len() <= k / 64 {
            return false;
        }
        (self.lone[k / 64] >> (k % 64)) % 2 == 1
    }
}

// Whether the tag at `at` is closed, so that a here-document's end was looked for.
fn is_closed(text: &[u8], at: usize) -> bool
    requires { at ≤ length text.now }
{
    text[at..].iter().find(|b| !is_tag_byte(**b)) == Some(&b'$')
}

// A token that was read, and whether a here-document's end was looked for in vain, from the token's end to the text's.
#[derive(Clone, Copy)]
pub struct Found {
    pub token: Lexed,
    pub vain: bool,
}

// What a search in vain counts for, in a text of `size` bytes. A look takes longer in a longer text, so a byte there counts for less: after 125,000 bytes
// of a short text, or some six times the length of a long one, a look costs no more than the searches did.
pub fn wasted_by(found: Found, size: usize) -> usize
    ensures { (result ≡ wasted_by found size) × (result ≤ size) }
{
    if !found.vain {
        return 0;
    }
    size.saturating_sub(found.token.end) / (size / 20_000 + 1)
}

// When the searches in vain count for so much, it pays to look ahead.
pub const LOOK_AFTER: usize = 125_000;

// The token at a `$`, as `lexer::tokenizer::next_token` has it.
pub fn read_dollar(text: &[u8], start: usize, marks: Marks) -> Found
    requires { (length text.now ≤ max_query_size) × (start < length text.now) × (slice_index text.now start ≡ dollar) × Marked text.now start marks.until marks.lone.now }
    ensures { Lexes text.now start result }
{
    if marks.has(start) {
        return Found {
            token: Lexed::new(SyntaxKind::DollarSign, start + 1),
            vain: false,
        };
    }
    let token = next_token(text, start);
    Found {
        token,
        vain: token.kind == SyntaxKind::DollarSign && is_closed(text, token.end),
    }
}
