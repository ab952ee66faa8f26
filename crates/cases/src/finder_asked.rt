// Cases on the finder.
use finder::{Cursor, Found, next};
use spelling::line::Words;
use std::io::{self, Write};

pub fn find_from<W: Write>(to: &mut W, s: &mut Words<'_>) -> io::Result<()> {
    let at = s.small() as usize;
    let mut capture = [0u8; 400];
    match next(s.bytes(&mut capture), Cursor { at }) {
        Some(Found::Whole { start, end, next }) => writeln!(to, "whole {start} {end} {}", next.at),
        Some(Found::Cut { start, next }) => writeln!(to, "cut {start} {} {}", next.at, next.at),
        None => writeln!(to, "nothing"),
    }
}

pub fn find<W: Write>(to: &mut W, s: &mut Words<'_>) -> io::Result<()> {
    let mut capture = [0u8; 400];
    let capture = s.bytes(&mut capture);
    let mut from = Cursor::default();
    // A frame has at least one byte. So there are no more frames than bytes.
    for _ in 0..capture.len() {
        match next(capture, from) {
            Some(Found::Whole { start, end, next }) => {
                write!(to, "whole {start} {end} ")?;
                from = next;
            }
            Some(Found::Cut { start, next }) => {
                write!(to, "cut {start} {} ", next.at)?;
                from = next;
            }
            None => break,
        }
    }
    writeln!(to, "nothing")
}
