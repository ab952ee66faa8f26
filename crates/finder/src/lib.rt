// Cuts a capture into frames. Each call returns the next frame from a cursor on.
#![tactic(auto)]

ghost use Rattle.std.specs.Prelude.{◌≡◌, true, false, ◌<◌, Some, length, get_or};
ghost use Rattle.finder.specs.Leads.{is_lead};
ghost use Rattle.finder.specs.Pieces.{found_from};
ghost use Rattle.finder.specs.inside.Quiet.{block_size, is_stop, Quiet};

use frames::dynamic::DYNAMIC_LEAD;
use frames::reply::REPLY_LEAD;
use frames::request::REQUEST_LEAD;

const CR: u8 = 13;

// So many bytes are tested at once.
const BLOCK: usize = 16;

// A place in the capture. The first call starts at 0.
#[derive(Clone, Copy, Debug, Default, PartialEq, Eq)]
pub struct Cursor {
    pub at: usize,
}

#[derive(Clone, Copy, Debug, PartialEq, Eq)]
pub enum Found {
    // The frame is the bytes from start up to end; the last of them is its CR.
    Whole {
        start: usize,
        end: usize,
        next: Cursor,
    },
    // The frame is the bytes from start up to next.
    Cut {
        start: usize,
        next: Cursor,
    },
}

// The first frame that begins at the cursor or after it; None if no frame does. A cursor past the end finds none.
pub fn next(s: &[u8], from: Cursor) -> Option<Found>
    ensures { result ≡ found_from s.now from.at }
{
    // REQUEST_LEAD begins a frame itself, so only lead bytes are looked for.
    for i in quiet_until(s, from.at, REQUEST_LEAD)..s.len() {
        if is_lead(s[i]) {
            return Some(frame_at(s, i));
        }
    }
    None
}

// The frame whose lead byte is at start.
fn frame_at(s: &[u8], start: usize) -> Found
    requires { (start < length s.now) × (is_lead (get_or s.now start 0) ≡ true) }
    ensures { Some result ≡ found_from s.now start }
{
    for i in quiet_until(s, start + 1, CR)..s.len() {
        let b = s[i];
        let after = i + 1;
        if is_lead(b) {
            return Found::Cut {
                start,
                next: Cursor { at: i },
            };
        }
        if b == CR {
            return Found::Whole {
                start,
                end: after,
                next: Cursor { at: after },
            };
        }
    }
    Found::Cut {
        start,
        next: Cursor { at: s.len() },
    }
}

// A place up to which no byte from `from` on begins a frame or is `also`. Blocks are passed as long as there is no such byte in them.
// The loop stays a `while`, because its last place is the answer: a `for` over the blocks would need that place beside it.
fn quiet_until(s: &[u8], from: usize, also: u8) -> usize
    ensures { Quiet s.now also from result }
{
    if s.len() < BLOCK {
        return from;
    }
    let last = s.len() - BLOCK;
    let mut i = from;
    while i <= last {
        if any_stop(&s[i..i + BLOCK], also) {
            return i;
        }
        i += BLOCK;
    }
    i
}

// Whether a byte of the block begins a frame or is `also`. The loop has no early exit, so that all bytes can be tested at once.
fn any_stop(block: &[u8], also: u8) -> bool
    requires { length block.now ≡ block_size }
    ensures { result ≡ false → Quiet block.now also 0 block_size }
{
    let mut any = false;
    for i in 0..BLOCK {
        any |= is_stop(block[i], also);
    }
    any
}

// Whether a byte begins a frame or is `also`.
fn is_stop(b: u8, also: u8) -> bool
    ensures { result ≡ is_stop also b }
{
    is_lead(b) | (b == also)
}

// The bytes that begin a frame.
fn is_lead(b: u8) -> bool
    ensures { result ≡ is_lead b }
{
    (b == REQUEST_LEAD) | (b == REPLY_LEAD) | (b == DYNAMIC_LEAD)
}
