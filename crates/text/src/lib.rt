// Puts bytes one after the other on an output. A call takes output, place and what to put, and returns the place after it.
// Bytes that have no room are dropped but still counted. So the same calls can measure a text.
// Output and place stay two parameters: a struct that held both would need one more clause for each call, that it still holds the same output.
#![tactic(auto)]

ghost use Rattle.std.specs.Prelude.{◌≡◌, [], ◌∷◌};
ghost use Rattle.text.specs.Put.{place_after, Put};
ghost use Rattle.text.specs.Decimal.{width, decimal};
ghost use Rattle.text.specs.Address.{address_shown};

use digits::{put_all, put_byte, put_number};

pub const TAB: u8 = 9;

pub const LF: u8 = 10;

pub fn put_text(out: &mut [u8], at: usize, text: &[u8]) -> usize
    ensures { Put out.old at text.now result out.new }
{
    put_all(out, at, text);
    place_after(at, text.len())
}

pub fn put_one(out: &mut [u8], at: usize, b: u8) -> usize
    ensures { Put out.old at (b ∷ []) result out.new }
{
    put_byte(out, at, b);
    place_after(at, 1)
}

// In decimal, without leading zeros.
pub fn put_decimal(out: &mut [u8], at: usize, n: u64) -> usize
    ensures { Put out.old at (decimal n) result out.new }
{
    let w = width_of(n);
    put_number(out, at, w, n);
    place_after(at, w)
}

// How many digits a number has. The loop counts no index: it ends when no digit is left.
pub fn width_of(n: u64) -> usize
    ensures { result ≡ width n }
{
    let mut m = n;
    let mut w = 1;
    while 9 < m {
        m /= 10;
        w += 1;
    }
    w
}

// The place n bytes further on, or the largest number if that is past every place.
pub fn place_after(at: usize, n: usize) -> usize
    ensures { result ≡ place_after at n }
{
    at.saturating_add(n)
}

// An address that is a space is shown as a minus sign.
pub fn address_shown(b: u8) -> u8
    ensures { result ≡ address_shown b }
{
    if b == b' ' { b'-' } else { b }
}
