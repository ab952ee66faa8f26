// What the line of a cell holds: its seat, and a frame without its lead byte and its CR.
ghost use Rattle.std.specs.Prelude.{◌≡◌, ◌<◌, length, IfSome};
ghost use Rattle.std.proofs.Math.Seq.{slice};
ghost use Rattle.page.specs.Version.{digit_seat};
ghost use Rattle.page.specs.inside.Machine.{framed};

use frames::reply::{REPLY_LEAD, REPLY_SIZE};

const CR: u8 = b'\r';

// The seat that a digit names.
#[tactic(auto, unfolding(crate::specs::Version::digit_seat))]
pub fn seat_value(b: u8) -> Option<usize>
    ensures named { result ≡ digit_seat b }
    ensures within { IfSome result (λ i. i < 16) }
{
    match b {
        48..=57 => Some((b - 48) as usize),
        65..=70 => Some((b - 55) as usize),
        _ => None,
    }
}

// The frame in the line of a cell.
pub fn framed(line: &[u8]) -> [u8; REPLY_SIZE]
    requires { length line.now ≡ 52 }
    ensures { result ≡ framed (slice 2 51 line.now) }
{
    let mut frame = [CR; REPLY_SIZE];
    frame[0] = REPLY_LEAD;
    frame[1..50].copy_from_slice(&line[2..51]);
    frame
}
