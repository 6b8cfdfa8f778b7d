// A class by an index of checkpoints and by strides between them.
ghost use Rattle.std.specs.Prelude.{◌+◌, ◌≤◌, ◌<◌, ◌≡◌, length};
ghost use Rattle.rules.specs.Classes.{in_ranges};
ghost use Rattle.classes.specs.Strides.{bound, count, bounds, Form, Reached, Passed};
ghost use Rattle.classes.specs.Rows.{byte_sum};

use crate::tables::{PLACES, STRIDES};
use runs::eight;

// A checkpoint is one number, of a bound and a place, so that a step of the search loads once. From checkpoint `i` on, `by` at a time, to where the next would be past `c`. A search by halves would wait for each load before the next; here
// the processor foresees the jumps, since the characters of a word are mostly of one script.
fn go_on(index: &[u32], i: usize, by: usize, c: u32) -> usize
    requires { (i < count index.now) × (0 < by) × (by ≤ 8) × (bound index.now i ≤ c) }
    ensures { Reached index.now c by result }
{
    let mut i = i;
    while i + by < index.len() - 1 && index[i + by] / PLACES <= c {
        i += by;
    }
    i
}

// The eight bytes of a row in all: four sums of two in lanes of 16 bits, none of which runs over, and then the sum of these. Four steps, where a loop over the
// bytes has eight that wait for one another.
fn row_sum(row: u64) -> u32
    ensures { result ≡ byte_sum 8 row }
{
    let twos = (row & 0x00FF_00FF_00FF_00FF) + (row / 256 & 0x00FF_00FF_00FF_00FF);
    let fours = twos + twos / 0x1_0000_0000;
    ((fours + fours / 0x1_0000) % 0x1_0000) as u32
}

// How far one comes over the strides from `at` to `end` that are in all at most `left`: by eight at once where that fits.
fn pass(at: usize, end: usize, left: u32) -> usize
    requires { (at ≤ end) × (end ≤ length STRIDES) }
    ensures { Passed STRIDES at end left result }
{
    let mut k = at;
    let mut left = left;
    // The second loop goes on from where the first stops, with what is left then.
    while k + 8 <= end {
        let sum = row_sum(eight(&STRIDES, k));
        if left < sum {
            break;
        }
        left -= sum;
        k += 8;
    }
    while k < end {
        let stride = u32::from(STRIDES[k]);
        if left < stride {
            break;
        }
        left -= stride;
        k += 1;
    }
    k
}

// `c` is in a range where the bounds that are at most `c` are odd in number: the checkpoints to `i`, and one for each stride before `k`.
pub(crate) fn in_ranges(index: &[u32], c: u32) -> bool
    requires { Form STRIDES index.now }
    ensures { result ≡ in_ranges (bounds STRIDES index.now) c }
{
    if c < index[0] / PLACES {
        return false;
    }
    let i = go_on(index, go_on(index, 0, 8, c), 1, c);
    let at = index[i] % PLACES;
    let end = index[i + 1] % PLACES;
    let k = pass(at as usize, end as usize, c - index[i] / PLACES);
    (i + 1 + (k - (index[0] % PLACES) as usize)) % 2 == 1
}
