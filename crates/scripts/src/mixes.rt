// Every mix of the replies to two requests, each mix on a desk of its own.
ghost use Rattle.std.specs.Prelude.{◌+◌, ◌≤◌, length};

use crate::desk_asked::{numbers_of, said};
use crate::digest;
use crate::script::Script;
use digits::{least, put_byte, put_number};
use spelling::line::Words;
use std::io::{self, Write};

// What is lent for a mix.
const MIX_BYTES: usize = 408;

const MIX_MARKS: usize = 8;

const REQUEST_A: [u8; 24] = *b"\x11R 100700000P000000000S\r";

// A reply to request A. Its status is at 5, its bib at 12.
const REPLY: [u8; 51] = *b"\x12R SOR10000700040000002000000P000000000000000000  \r";

// The bibs of the replies to A and to B, in the order in which they come.
const BIBS_A: [u64; 4] = [40, 39, 38, 37];

const BIBS_B: [u64; 4] = [30, 29, 28, 27];

// The one byte in which B's frames and the strays differ from A's: where a request and where a reply has it, and its values.
#[derive(Clone, Copy)]
pub struct Apart {
    asked_at: usize,
    told_at: usize,
    of_b: u8,
    of_stray: u8,
}

pub const BY_REQUESTER: Apart = Apart {
    asked_at: 3,
    told_at: 6,
    of_b: b'A',
    of_stray: b'a',
};

pub const BY_ADDRESS: Apart = Apart {
    asked_at: 2,
    told_at: 2,
    of_b: b'0',
    of_stray: b'1',
};

// Prints how many mixes there are, and the digest of all of them. Leaves the desk as it is before a mix.
pub fn playing<W: Write>(
    to: &mut W,
    desk: &mut Script,
    s: &mut Words<'_>,
    apart: Apart,
) -> io::Result<()> {
    let a = statuses(s.word());
    let b = statuses(s.word());
    let mut mixes = 0u32;
    let mut sum = digest::START;
    // A mix is a number with a bit for each letter, which is set for B's.
    for mix in 0..1u32 << (a.len() + b.len()) {
        if mix.count_ones() as usize == b.len() {
            mixes += 1;
            sum = play(desk, apart, a, b, mix, sum);
        }
    }
    desk.lend(MIX_BYTES, MIX_MARKS);
    writeln!(to, "{mixes} {sum}")
}

// The letters of a word, at most four; a dash has none.
fn statuses(word: &[u8]) -> &[u8]
    ensures { length result.now ≤ 4 }
{
    match word {
        b"-" => &[],
        _ => &word[..least(4, word.len())],
    }
}

// Plays one mix, and takes in all answers and all that it leaves.
fn play(desk: &mut Script, apart: Apart, a: &[u8], b: &[u8], mix: u32, digest: u64) -> u64
    requires { length a.now + length b.now ≤ 8 }
{
    desk.lend(MIX_BYTES, MIX_MARKS);
    desk.reset();
    let request_b = with_byte(REQUEST_A, apart.asked_at, apart.of_b);
    let mut sum = digest::take(digest, &said(desk.open(&REQUEST_A)));
    sum = digest::take(sum, &said(desk.open(&request_b)));
    let mut of_a = a.iter().zip(BIBS_A);
    let mut of_b = b.iter().zip(BIBS_B);
    for i in 0..a.len() + b.len() {
        let is_b = (mix >> i) % 2 == 1;
        let next = if is_b { of_b.next() } else { of_a.next() };
        if let Some((status, bib)) = next {
            let frame = reply_with(*status, bib);
            let own = if is_b {
                with_byte(frame, apart.told_at, apart.of_b)
            } else {
                frame
            };
            sum = play_three(desk, apart, own, sum);
        }
    }
    take_desk(desk, sum)
}

fn with_byte<const N: usize>(frame: [u8; N], at: usize, b: u8) -> [u8; N] {
    let mut changed = frame;
    put_byte(&mut changed, at, b);
    changed
}

fn reply_with(status: u8, bib: u64) -> [u8; 51] {
    let mut frame = with_byte(REPLY, 5, status);
    put_number(&mut frame, 12, 5, bib);
    frame
}

// Plays a stray, a damaged frame, and the reply itself.
fn play_three(desk: &mut Script, apart: Apart, frame: [u8; 51], digest: u64) -> u64 {
    let stray = with_byte(frame, apart.told_at, apart.of_stray);
    let damaged = with_byte(frame, 50, 0);
    let mut sum = digest;
    for played in [stray, damaged, frame] {
        sum = digest::take(sum, &said(desk.reply(&played)));
    }
    sum
}

// The digest with all that a mix leaves.
fn take_desk(desk: &Script, digest: u64) -> u64 {
    let mut sum = digest::take(digest, &[desk.desk.bits]);
    sum = digest::take(sum, &[desk.desk.count]);
    for seat in desk.row {
        sum = digest::take(sum, &numbers_of(seat));
    }
    sum = digest::take(sum, desk.cells());
    sum = digest::take(sum, desk.marks());
    digest::take(sum, desk.tally.as_flattened())
}
