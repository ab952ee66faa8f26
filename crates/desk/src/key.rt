// Keys: which stopwatch was asked, by whom, and with which number.
ghost use Rattle.std.specs.Prelude.{◌≡◌, ◌<◌};
ghost use Rattle.frames.specs.Rules.{is_address, is_requester};
ghost use Rattle.desk.specs.Key.{key_in, seat_key, is_key};
ghost use Rattle.desk.specs.Seats.{used_bit};

use crate::state::Seat;
use frames::reply::ReplyLabel;

// Address and requester are held by their codes.
#[derive(Clone, Copy, Debug, PartialEq, Eq)]
pub struct Key {
    pub address: u32,
    pub requester: u32,
    pub number: u32,
}

// The keys of a seat and of a reply have names, since a From would not show at a call that the rest is left out.
pub fn key_of(seat: Seat) -> Key
    ensures { result ≡ seat_key seat }
{
    Key {
        address: seat.address,
        requester: seat.requester,
        number: seat.number,
    }
}

pub fn key_in(label: ReplyLabel) -> Key
    ensures { result ≡ key_in label }
{
    Key {
        address: label.address,
        requester: label.requester,
        number: label.number,
    }
}

// A key that a static request can have.
pub fn is_key(k: Key) -> bool
    ensures { result ≡ is_key k }
{
    is_address(k.address) & is_requester(k.requester) & (k.number <= 999)
}

#[tactic(auto, unfolding(frames::specs::Rules::is_address, frames::specs::Rules::between))]
fn is_address(code: u32) -> bool
    ensures { result ≡ is_address code }
{
    matches!(code, 32 | 48..=57)
}

#[tactic(auto, unfolding(frames::specs::Rules::is_requester, frames::specs::Rules::between))]
fn is_requester(code: u32) -> bool
    ensures { result ≡ is_requester code }
{
    matches!(code, 48..=57 | 65..=90 | 97..=122)
}

pub(crate) fn used(bits: u64, i: usize) -> bool
    requires { i < 64 }
    ensures { result ≡ used_bit bits i }
{
    (bits >> i) % 2 == 1
}
