// Cases that call the desk of the scripts or set a part of it.
use crate::script::Script;
use crate::tally_asked::{looking, looking_at_all};
use desk::held::next_held;
use desk::limits::SEATS;
use desk::state::{Seat, seats_in_use};
use digits::refusal::Refusal;
use frames::reply::{LETTERS, STATUSES};
use spelling::line::Words;
use spelling::print::{Bytes, Numbers};
use std::io::{self, Write};

impl Script {
    // The word is the line's first.
    pub fn answer<W: Write>(
        &mut self,
        to: &mut W,
        word: &[u8],
        s: &mut Words<'_>,
    ) -> io::Result<()> {
        match word {
            b"open" => self.opening(to, s),
            b"reply" => self.replying(to, s),
            b"reset" => self.resetting(to),
            b"used" => writeln!(to, "{}", seats_in_use(self.desk)),
            b"held" => self.holding(to, s),
            b"look" => looking(to, s, &self.tally),
            b"looks" => looking_at_all(to, &self.tally),
            _ => self.setting(to, word, s),
        }
    }

    fn setting<W: Write>(&mut self, to: &mut W, word: &[u8], s: &mut Words<'_>) -> io::Result<()> {
        match word {
            b"bits" => self.desk.bits = s.number(),
            b"count" => self.desk.count = s.small(),
            b"seat" => self.set_seat(s),
            b"mark" => self.set_mark(s),
            b"cell" => self.set_cell(s),
            b"tally" => self.set_tally(s),
            _ => return writeln!(to, "no such case"),
        }
        writeln!(to, "set")
    }

    // An opening can change the state and the seats alone.
    fn opening<W: Write>(&mut self, to: &mut W, s: &mut Words<'_>) -> io::Result<()> {
        let mut frame = [0u8; 100];
        let row = self.row;
        let answer = said(self.open(s.bytes(&mut frame)));
        self.print_answer(to, answer)?;
        self.print_seats(to, &row)?;
        writeln!(to)
    }

    fn replying<W: Write>(&mut self, to: &mut W, s: &mut Words<'_>) -> io::Result<()> {
        let mut frame = [0u8; 100];
        let before = *self;
        let answer = said(self.reply(s.bytes(&mut frame)));
        self.print_answer(to, answer)?;
        self.print_seats(to, &before.row)?;
        self.print_memory(to, &before)?;
        self.print_tally(to, &before.tally)?;
        writeln!(to)
    }

    // Cells and marks are not lent to a reset.
    fn resetting<W: Write>(&mut self, to: &mut W) -> io::Result<()> {
        let row = self.row;
        let tally = self.tally;
        self.reset();
        self.print_answer(to, [0; 4])?;
        self.print_seats(to, &row)?;
        self.print_tally(to, &tally)?;
        writeln!(to)
    }

    fn holding<W: Write>(&self, to: &mut W, s: &mut Words<'_>) -> io::Result<()> {
        let seat = s.small();
        let from = s.small() as usize;
        match next_held(self.desk, self.cells(), self.marks(), seat, from) {
            Some(i) => writeln!(to, "{i}"),
            None => writeln!(to, "none"),
        }
    }

    // How the line of a call begins: the answer and the state. After it comes all that is no longer as it was before.
    fn print_answer<W: Write>(&self, to: &mut W, answer: [u32; 4]) -> io::Result<()> {
        let [number, offset, spoiled, seat] = answer;
        write!(to, "{number} {offset} {spoiled} {seat}")?;
        write!(to, " {} {}", self.desk.bits, self.desk.count)
    }

    fn print_seats<W: Write>(&self, to: &mut W, before: &[Seat; SEATS]) -> io::Result<()> {
        for (i, (was, seat)) in before.iter().zip(&self.row).enumerate() {
            if was != seat {
                write!(to, " seat {i}{}", Numbers(&numbers_of(*seat)))?;
            }
        }
        Ok(())
    }

    fn print_memory<W: Write>(&self, to: &mut W, before: &Script) -> io::Result<()> {
        if let Some((start, cells)) = changed(before.cells(), self.cells()) {
            write!(to, " cells {start} {}", Bytes(cells))?;
        }
        if let Some((start, marks)) = changed(before.marks(), self.marks()) {
            write!(to, " marks {start}{}", Numbers(marks))?;
        }
        Ok(())
    }

    fn print_tally<W: Write>(
        &self,
        to: &mut W,
        before: &[[u32; STATUSES]; LETTERS],
    ) -> io::Result<()> {
        let was = before.as_flattened();
        for (i, (was, n)) in was.iter().zip(self.tally.as_flattened()).enumerate() {
            if was != n {
                write!(to, " tally {} {} {n}", i / STATUSES, i % STATUSES)?;
            }
        }
        Ok(())
    }
}

// The refusal's three numbers, 0 if there is none, and the number that the call returns, 0 if refused.
pub fn said<E: Into<Refusal>>(answer: Result<u32, E>) -> [u32; 4] {
    let (told, n) = match answer {
        Ok(n) => (Refusal::default(), n),
        Err(refusal) => (refusal.into(), 0),
    };
    [told.number, told.offset, told.spoiled, n]
}

pub fn numbers_of(seat: Seat) -> [u32; 5] {
    [
        seat.address,
        seat.requester,
        seat.number,
        seat.held,
        seat.ended,
    ]
}

// The items from the first that differs to the last, and the place of the first.
fn changed<'a, T: PartialEq>(before: &[T], after: &'a [T]) -> Option<(usize, &'a [T])> {
    let start = before.iter().zip(after).position(|(a, b)| a != b)?;
    let last = before.iter().zip(after).rposition(|(a, b)| a != b)?;
    Some((start, after.get(start..=last)?))
}
