// Reading and writing bytes and numbers at places of lent memory. Every function takes any slice, any place and any width.
#![tactic(auto)]

pub mod refusal;

ghost use Rattle.std.specs.Prelude.{◌≡◌, ◌+◌, min, get_or, set};
ghost use Rattle.std.proofs.lemmas.List.Edits.{sets};
ghost use Rattle.digits.specs.Digits.{number_at, number_text};
ghost use Rattle.digits.specs.Text.{in_set};

// The byte at a place; past the end it is 0.
pub fn byte_at(s: &[u8], at: usize) -> u8
    ensures { result ≡ get_or s.now at 0 }
{
    *s.get(at).unwrap_or(&0)
}

// The number of `width` digits at a place; None if they are not all digits, not all there, or if the width is not 1 to 10.
pub fn number_at(s: &[u8], at: usize, width: usize) -> Option<u64>
    ensures { result ≡ number_at s.now at width }
{
    if width < 1 || 10 < width {
        return None;
    }
    let mut v = 0;
    for b in s.get(at..)?.get(..width)? {
        if !b.is_ascii_digit() {
            return None;
        }
        v = v * 10 + (*b - b'0') as u64;
    }
    Some(v)
}

// Whether a byte is in a set. The set is two numbers: bit b of `low` for bytes below 64, and bit b - 64 of `high` from 64 on.
// This needs no loop over a list.
pub fn in_set(low: u64, high: u64, b: u8) -> bool
    ensures { result ≡ in_set low high b }
{
    match b {
        0..=63 => (low >> b) % 2 == 1,
        64..=127 => (high >> (b - 64)) % 2 == 1,
        _ => false,
    }
}

// Stores a byte at a place; past the end it stores nothing.
pub fn put_byte(out: &mut [u8], at: usize, b: u8)
    ensures { out.new ≡ set out.old at b }
{
    if at < out.len() {
        out[at] = b;
    }
}

// Stores the items from a place on; past the end it stores nothing.
pub fn put_all<T: Copy>(out: &mut [T], at: usize, items: &[T])
    ensures { out.new ≡ sets out.old at items.now }
{
    if out.len() <= at {
        return;
    }
    let n = least(out.len() - at, items.len());
    // Not copy_from_slice: it asks at each call whether the two overlap, and takes memmove from outside.
    for i in 0..n {
        out[at + i] = items[i];
    }
}

// The smaller of two.
pub fn least(a: usize, b: usize) -> usize
    ensures { result ≡ min a b }
{
    a.min(b)
}

// Stores the last `width` digits of n from a place on; past the end nothing, and nothing at all if the width is not 1 to 20.
pub fn put_number(out: &mut [u8], at: usize, width: usize, n: u64)
    ensures { out.new ≡ sets out.old at (number_text width n) }
{
    if width < 1 || 20 < width {
        return;
    }
    let mut m = n;
    for k in (0..width).rev() {
        put_past(out, at, k, b'0' + (m % 10) as u8);
        m /= 10;
    }
}

// Stores a byte k places after `at`. The sum may be past every index; then nothing is stored.
fn put_past(out: &mut [u8], at: usize, k: usize, b: u8)
    ensures { out.new ≡ set out.old (at + k) b }
{
    if let Some(i) = at.checked_add(k) {
        put_byte(out, i, b);
    }
}
