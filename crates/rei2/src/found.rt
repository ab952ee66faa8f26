// A capture cut into frames.
ghost use Rattle.std.specs.Prelude.{◌≡◌, length};
ghost use Rattle.finder.specs.Pieces.{found_from};
ghost use Rattle.rei2.specs.Calls.{frame_answer};

use finder::{Cursor, Found, next};

// C has no enum that holds values, so `kind` is 1 for a whole frame, 2 for a cut one, 0 for none. The frame is the bytes from start up to end; both are 0 if there is none.
// The next call starts at `next`, which is the length of the capture if nothing is left.
#[repr(C)]
#[derive(Clone, Copy)]
pub struct FrameAnswer {
    pub kind: u32,
    pub start: usize,
    pub end: usize,
    pub next: usize,
}

#[unsafe(no_mangle)]
pub extern "C" fn rei2_next_frame(capture: &[u8], at: usize) -> FrameAnswer
    ensures { result ≡ frame_answer (found_from capture.now at) (length capture.now) }
{
    match next(capture, Cursor { at }) {
        Some(Found::Whole { start, end, next }) => FrameAnswer {
            kind: 1,
            start,
            end,
            next: next.at,
        },
        Some(Found::Cut { start, next }) => FrameAnswer {
            kind: 2,
            start,
            end: next.at,
            next: next.at,
        },
        None => FrameAnswer {
            kind: 0,
            start: 0,
            end: 0,
            next: capture.len(),
        },
    }
}
