// The byte that spoils a wrong field. It is looked for only once a frame is refused.
ghost use Rattle.std.specs.Prelude.{◌≡◌, ◌+◌, ◌<◌, length};
ghost use Rattle.frames.specs.Classes.{first_off};
ghost use Rattle.frames.specs.inside.Spoiled.{in_class, classes_of, looked_in};

use crate::timing::{is_raw, is_sign};
use digits::byte_at;

// The classes of HHMMSSdddd.
pub(crate) const TIME_CLASSES: [u8; 10] = *b"2959599999";

// What can be at a place: a space stands for a raw byte, + for a sign, = for the digit 2, and a digit for the digits up to it.
#[tactic(auto, unfolding(crate::specs::inside::Spoiled::in_class, crate::specs::Rules::between))]
fn in_class(class: u8, b: u8) -> bool
    ensures { result ≡ in_class class b }
{
    match class {
        b' ' => is_raw(b),
        b'+' => is_sign(b),
        b'=' => b == b'2',
        _ => (b'0' <= b) & (b <= class),
    }
}

// The offset of the first byte from `at` on that is not in its class, or `at` if each one is.
fn first_off(s: &[u8], at: usize, text: &[u8]) -> u8
    requires { at + length text.now < 256 }
    ensures { result ≡ first_off (classes_of text.now) s.now at at }
{
    for (i, class) in text.iter().enumerate() {
        let p = at + i;
        if !in_class(*class, byte_at(s, p)) {
            return p as u8;
        }
    }
    at as u8
}

// If the wrong field is the one at `at`, the byte that spoils it, and otherwise what is known already. The text has a class for each byte of the field.
#[tactic(auto, unfolding(crate::specs::inside::Spoiled::looked_in))]
pub(crate) fn looked_in(s: &[u8], wrong: u8, at: usize, text: &[u8], known: u8) -> u8
    requires { at + length text.now < 256 }
    ensures { result ≡ looked_in s.now wrong at text.now known }
{
    if wrong as usize == at {
        first_off(s, at, text)
    } else {
        known
    }
}
