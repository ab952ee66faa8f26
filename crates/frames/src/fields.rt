// What every kind uses to read, test and write its fields.
ghost use Rattle.std.specs.Prelude.{◌≡◌, ◌≤◌, ◌<◌, ◌^◌, IfSome};
ghost use Rattle.digits.specs.Digits.{number_at};
ghost use Rattle.times.specs.Clock.{clock};
ghost use Rattle.frames.specs.Rules as R;
ghost use Rattle.frames.specs.Layout.{wrong_unless};
ghost use Rattle.frames.specs.Refusals.{write_told};
ghost use Rattle.frames.specs.Kind.{write_tried};
ghost use Rattle.frames.specs.inside.Held.{or_none};

use crate::refusals::WriteRefusal;
use digits::number_at;
use times::clock::clock_at;

// What the code holds if there is no number at a place: no rule takes it. The records have plain numbers, since C reads them.
pub const NO_NUMBER: u32 = 4_294_967_295;

// The number at a place, or NO_NUMBER if there is none.
pub fn number_or_none(s: &[u8], at: usize, width: usize) -> u32
    requires { width ≤ 9 }
    ensures { result ≡ or_none (number_at s.now at width) }
{
    or_none(number_at(s, at, width))
}

// The same for a time of day.
pub fn clock_or_none(s: &[u8], at: usize) -> u32
    ensures { result ≡ or_none (clock.got s.now at) }
{
    or_none(clock_at(s, at))
}

fn or_none(found: Option<u64>) -> u32
    requires { IfSome found (λ v. v < 2 ^ 32) }
    ensures { result ≡ or_none found }
{
    match found {
        Some(v) => v as u32,
        None => NO_NUMBER,
    }
}

#[tactic(auto, unfolding(crate::specs::Rules::between))]
pub fn within(lo: u32, hi: u32, v: u32) -> bool
    ensures { result ≡ R.between lo hi v }
{
    (lo <= v) & (v <= hi)
}

// A field's offset if the field is wrong, and otherwise what the fields after it say. 0 stands for none, as in the definition `wrong_in`.
pub fn wrong_unless(ok: bool, at: usize, rest: u8) -> u8
    requires { at < 256 }
    ensures { result ≡ wrong_unless ok at rest }
{
    if ok { rest } else { at as u8 }
}

#[tactic(auto, unfolding(crate::specs::Rules::is_address, crate::specs::Rules::between))]
pub fn is_address(b: u8) -> bool
    ensures { result ≡ R.is_address b }
{
    (b == b' ') | b.is_ascii_digit()
}

#[tactic(auto, unfolding(crate::specs::Rules::is_requester, crate::specs::Rules::between))]
pub fn is_requester(b: u8) -> bool
    ensures { result ≡ R.is_requester b }
{
    b.is_ascii_alphanumeric()
}

// Like the other rules for letters and channels without branches: as a match it was slower.
#[tactic(auto, unfolding(crate::specs::Rules::is_output, digits::specs::Text::one_of))]
pub fn is_output(b: u8) -> bool
    ensures { result ≡ R.is_output b }
{
    (b == b'S') | (b == b'A') | (b == b'B') | (b == b'T')
}

// The refusals of writing, in their order: RECORD, then ROOM.
#[tactic(auto, unfolding(crate::specs::Kind::write_tried))]
pub fn write_tries(wrong: u8, size: usize, room: usize) -> Result<(), WriteRefusal>
    ensures { write_told result ≡ write_tried wrong size room }
{
    if wrong != 0 {
        return Err(WriteRefusal::Record(wrong));
    }
    if room < size {
        return Err(WriteRefusal::Room);
    }
    Ok(())
}
