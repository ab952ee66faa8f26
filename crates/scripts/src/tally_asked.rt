// Looks at the tally of the scripts.
use desk::tally::{LookRefusal, look};
use digits::refusal::NO_SUCH;
use frames::reply::{LETTERS, STATUSES};
use spelling::line::Words;
use spelling::print::{Dotted, Run};
use std::io::{self, Write};

pub fn looking<W: Write>(
    to: &mut W,
    s: &mut Words<'_>,
    tally: &[[u32; STATUSES]; LETTERS],
) -> io::Result<()> {
    let letter = s.code();
    let status = s.code();
    let Looked { number, held } = look_at(tally, letter, status);
    writeln!(to, "{number} 0 0 {held}")
}

// The number of a look's refusal, 0 if there is none, and the number that is found, 0 if refused.
#[derive(Clone, Copy, PartialEq)]
struct Looked {
    number: u32,
    held: u32,
}

fn look_at(tally: &[[u32; STATUSES]; LETTERS], letter: u8, status: u8) -> Looked {
    match look(tally, letter, status) {
        Ok(held) => Looked { number: 0, held },
        Err(LookRefusal::NoSuch) => Looked {
            number: NO_SUCH,
            held: 0,
        },
    }
}

// Every letter with every status.
pub fn looking_at_all<W: Write>(to: &mut W, tally: &[[u32; STATUSES]; LETTERS]) -> io::Result<()> {
    for letter in 0..=255 {
        print_letter(to, letter, tally)?;
    }
    Ok(())
}

// A line of runs of statuses with the same answer.
fn print_letter<W: Write>(
    to: &mut W,
    letter: u8,
    tally: &[[u32; STATUSES]; LETTERS],
) -> io::Result<()> {
    write!(to, "{letter}")?;
    let mut last = look_at(tally, letter, 0);
    let mut count = 0;
    for status in 0..=255 {
        let next = look_at(tally, letter, status);
        if next == last {
            count = count % 256 + 1;
        } else {
            print_run(to, count, last)?;
            last = next;
            count = 1;
        }
    }
    print_run(to, count, last)?;
    writeln!(to)
}

// A step of its own: with the writing inside, the loop over the statuses took twice the time.
fn print_run<W: Write>(to: &mut W, count: u32, answer: Looked) -> io::Result<()> {
    let answer = Dotted([answer.number, answer.held]);
    write!(to, "{}", Run { answer, count })
}
