// Cases on the three kinds of frames: reading one, writing one, and every damage of one byte.
use digits::refusal::Refusal;
use frames::refusals::{ReadRefusal, WriteRefusal};
use spelling::line::Words;
use spelling::print::{Bytes, Dotted, Run, Told};
use std::io::{self, Write};

// A record that a frame holds, as the cases read, write, spell and print it.
pub trait Record: Drop {
    fn read(frame: &[u8]) -> Result<Self, ReadRefusal>;

    fn write(self, out: &mut [u8]) -> Result<(), WriteRefusal>;

    // The record that the next words spell.
    fn asked(s: &mut Words<'_>) -> Self;

    // A space before each part.
    fn print<W: Write>(self, to: &mut W) -> io::Result<()>;
}

pub fn reading<R: Record, W: Write>(to: &mut W, s: &mut Words<'_>) -> io::Result<()> {
    let mut frame = [0u8; 100];
    print_read(to, R::read(s.bytes(&mut frame)))
}

pub fn print_read<R: Record, W: Write>(to: &mut W, read: Result<R, ReadRefusal>) -> io::Result<()> {
    match read {
        Ok(record) => {
            write!(to, "{}", Told(Refusal::default()))?;
            record.print(to)?;
            writeln!(to)
        }
        Err(refusal) => writeln!(to, "{}", Told(refusal.into())),
    }
}

pub fn writing<R: Record, W: Write>(to: &mut W, s: &mut Words<'_>) -> io::Result<()> {
    let mut out = [238u8; 100];
    let room = (s.small() % 101) as usize;
    let out = &mut out[..room];
    let answer = R::asked(s).write(out);
    print_written(to, answer, out)
}

// The line of a writing: the answer, and the output after it.
pub fn print_written<W: Write>(
    to: &mut W,
    answer: Result<(), WriteRefusal>,
    out: &[u8],
) -> io::Result<()> {
    let told = answer.map_or_else(Refusal::from, |()| Refusal::default());
    writeln!(to, "{} {}", Told(told), Bytes(out))
}

// A line for each place of the frame, with the runs of equal answers to the 256 values of its byte.
pub fn damage<R: Record, W: Write>(to: &mut W, s: &mut Words<'_>) -> io::Result<()> {
    let mut frame = [0u8; 100];
    let frame = s.bytes(&mut frame);
    for place in 0..frame.len() {
        let own = frame[place];
        write!(to, "{place}")?;
        frame[place] = 0;
        let mut answer = answer_to::<R>(frame);
        let mut count = 1;
        for value in 1..=255 {
            frame[place] = value;
            let next = answer_to::<R>(frame);
            if next == answer {
                count = count % 256 + 1;
            } else {
                write!(to, "{}", Run { answer, count })?;
                answer = next;
                count = 1;
            }
        }
        writeln!(to, "{}", Run { answer, count })?;
        frame[place] = own;
    }
    Ok(())
}

// Done if the record that is read is written again with the frame's own bytes; otherwise an offset of 1.
fn answer_to<R: Record>(frame: &[u8]) -> Dotted<3> {
    match R::read(frame) {
        Err(refusal) => {
            let told = Refusal::from(refusal);
            Dotted([told.number, told.offset, told.spoiled])
        }
        Ok(record) => Dotted([0, u32::from(!is_own(record, frame)), 0]),
    }
}

fn is_own<R: Record>(record: R, frame: &[u8]) -> bool {
    let mut out = [0u8; 100];
    let Some(out) = out.get_mut(..frame.len()) else {
        return false;
    };
    record.write(out).is_ok() && *out == *frame
}
