// A line of input, its words, and the numbers and bytes that they spell.
ghost use Rattle.std.specs.Prelude.{◌≡◌, ◌≤◌, ◌≤ℤ◌, IfOk, OnErr, length, pos};

use digits::{least, number_at};
use std::io::{self, Read};

// Fills the buffer with the next line, without its LF, and returns its length.
// It is 0 for an empty line and at the end of the input. An error is the reader's own, and leaves the line's beginning in the buffer.
// The length is returned, and not the line: the clause `err` is about the buffer, which a line would borrow.
pub fn read_line<R: Read>(from: &mut R, buffer: &mut [u8]) -> io::Result<usize>
    ensures ok { IfOk result (λ n. n ≤ length buffer.new) }
    ensures err { OnErr result (length buffer.new ≡ length buffer.old) }
{
    for (n, place) in buffer.iter_mut().enumerate() {
        let mut one = [0u8; 1];
        if from.read(&mut one)? == 0 || one[0] == b'\n' {
            return Ok(n);
        }
        *place = one[0];
    }
    Ok(buffer.len())
}

// The words of a line that are not yet read. Single spaces are between them.
#[derive(Drop)]
pub struct Words<'a> {
    rest: &'a [u8],
}

impl<'a> Words<'a> {
    pub fn of(line: &'a [u8]) -> Self {
        Words { rest: line }
    }

    // The next word; after the last one it is empty.
    pub fn word(&mut self) -> &'a [u8] {
        let mut parts = self.rest.splitn(2, |b| *b == b' ');
        let word = parts.next().unwrap_or(&[]);
        self.rest = parts.next().unwrap_or(&[]);
        word
    }

    // The number that the next word spells, with at most 19 digits.
    pub fn number(&mut self) -> u64 {
        decimal(self.word())
    }

    // The same for a number that fits in 32 bits.
    pub fn small(&mut self) -> u32 {
        (self.number() % 4_294_967_296) as u32
    }

    // The same for a byte.
    pub fn code(&mut self) -> u8 {
        (self.number() % 256) as u8
    }

    // The same for a number with a sign.
    pub fn signed(&mut self) -> i64 {
        match self.word() {
            [b'-', size @ ..] => -size_of(size),
            size => size_of(size),
        }
    }

    // Stores the bytes that the next word spells, and returns them.
    pub fn bytes<'b>(&mut self, out: &'b mut [u8]) -> &'b mut [u8]
        ensures { length result.now ≤ length out.old }
    {
        let word = self.word();
        let n = least(out.len(), word.len() / 2);
        for (place, pair) in out.iter_mut().zip(word.chunks_exact(2)) {
            *place = half(pair[0]) * 16 + half(pair[1]);
        }
        &mut out[..n]
    }

    // As many bytes as are wanted; those that the word does not spell are 0.
    pub fn array<const N: usize>(&mut self) -> [u8; N] {
        let mut out = [0; N];
        self.bytes(&mut out);
        out
    }
}

// The number that a word spells, with at most 19 digits.
fn decimal(word: &[u8]) -> u64 {
    match word.split_last_chunk::<9>() {
        None => digits_of(word),
        Some((high, low)) => {
            digits_of(high) % 10_000_000_000 * 1_000_000_000 + digits_of(low) % 1_000_000_000
        }
    }
}

fn size_of(word: &[u8]) -> i64
    ensures { pos 0 ≤ℤ result }
{
    (decimal(word) % 9_223_372_036_854_775_808) as i64
}

fn digits_of(word: &[u8]) -> u64 {
    number_at(word, 0, word.len()).unwrap_or(0)
}

// The value of a hex digit.
fn half(b: u8) -> u8
    ensures { result ≤ 15 }
{
    if b < 58 { b % 16 } else { (b % 16 + 9) % 16 }
}
