// Reading a page: all of it is checked before anything is stored.
ghost use Rattle.std.specs.Prelude.{◌≡◌, ◌+◌, ◌<◌, ◌≤◌, length};
ghost use Rattle.desk.specs.Memory.{memory};
ghost use Rattle.page.specs.Version.{one};
ghost use Rattle.page.specs.Reading.{page_refused, read_told, PageRead, PageChecked};
ghost use Rattle.page.specs.inside.Checking.{CheckedAs, is_last, AtLast, LastChecked};

use crate::line::{CELL_LINE, FIRST, LAST_LINE, put_last_line};
use crate::sofar::Sofar;
use crate::store::store;
use crate::sum::page_sum;
use desk::done::Done;
use desk::limits::{CELL_SIZE, SEATS};
use desk::state::{Desk, Seat};
use digits::refusal as table;
use digits::refusal::{Refusal, of_page, plain};
use frames::reply::{LETTERS, STATUSES};
use lines::next_line;

// Why nothing is read, in the order in which it is tested. A text that is no page has the number of the first line up to which no desk's page begins so.
#[derive(Clone, Copy, Debug, PartialEq, Eq)]
pub enum ReadRefusal {
    Page(u32),
    Room,
}

impl From<ReadRefusal> for Refusal {
    ghost from_gives = { λ refusal f. f ≡ page_refused refusal };

    fn from(refusal: ReadRefusal) -> Refusal {
        match refusal {
            ReadRefusal::Page(line) => of_page(line),
            ReadRefusal::Room => plain(table::ROOM),
        }
    }
}

// The state and the row of the desk that writes a text.
#[derive(Clone, Copy)]
pub(crate) struct Checked {
    pub(crate) desk: Desk,
    pub(crate) row: [Seat; SEATS],
}

// Whether a text is a page; or the number of the first line up to which no desk's page begins so.
#[tactic(auto, using(crate::proofs::DoneLaws::checked_good, crate::proofs::DoneLaws::checked_page))]
pub fn check_page(text: &[u8]) -> Result<(), u32>
    ensures { PageChecked one text.now result }
{
    check(text)?;
    Ok(())
}

// Builds the desk of a page again: state and row are returned, cells, marks and tally are stored. What was there before need not be a desk. Cells and marks
// beyond the count stay. If it is refused, nothing changes.
// Cells, marks and tally are lent one by one, as to each call of a desk: their layouts are those of the C interface.
#[tactic(auto, using(crate::proofs::DoneLaws::fits_in))]
pub fn read_page(
    desk: Desk,
    row: [Seat; SEATS],
    cells: &mut [u8],
    marks: &mut [u32],
    tally: &mut [[u32; STATUSES]; LETTERS],
    text: &[u8],
) -> Done<Result<(), ReadRefusal>>
    ensures { PageRead one (memory desk row cells.old marks.old tally.old) text.now (read_told result.answer) (memory result.desk result.row cells.new marks.new tally.new) }
{
    let found = match check(text) {
        Ok(found) => found,
        Err(line) => {
            return Done {
                answer: Err(ReadRefusal::Page(line)),
                desk,
                row,
            };
        }
    };
    let found_row = found.row;
    let count = found.desk.count as usize;
    if (cells.len() / CELL_SIZE < count) | (marks.len() < count) {
        return Done {
            answer: Err(ReadRefusal::Room),
            desk,
            row,
        };
    }
    store(
        text,
        text.len() - LAST_LINE - count * CELL_LINE,
        count,
        cells,
        marks,
        tally,
    );
    Done {
        answer: Ok(()),
        desk: found.desk,
        row: found_row,
    }
}

// The number of the first wrong line, or the desk.
fn check(text: &[u8]) -> Result<Checked, u32>
    ensures { CheckedAs text.now result }
{
    let first = next_line(text, 0);
    if !first.whole {
        return Err(1);
    }
    let mut at = first.end;
    if FIRST.as_slice() != &text[..at] {
        return Err(1);
    }
    let row = [Seat::default(); SEATS];
    let mut s = Sofar {
        row,
        bits: 0,
        said: 0,
        count: 0,
        waiting: 0,
    };
    let mut n: u32 = 1;
    // Each turn begins where the line before it ends, and each may return: a `while` is the plainest.
    while at < text.len() {
        let line = next_line(text, at);
        n += 1;
        if !line.whole {
            return Err(n);
        }
        let end = line.end;
        if end - at == LAST_LINE {
            return check_last(text, at, n, &s);
        }
        if !s.take_line(&text[at..end]) {
            return Err(n);
        }
        at = end;
    }
    Err(n + 1)
}

// The last line, number n, which begins at `at`. Nothing may follow it.
fn check_last(text: &[u8], at: usize, n: u32, s: &Sofar) -> Result<Checked, u32>
    requires { AtLast text.now at n }
    ensures { LastChecked text.now at n s.now result }
{
    if !is_last(text, at, s) {
        return Err(n);
    }
    if at + LAST_LINE < text.len() {
        return Err(n + 1);
    }
    let row = s.row;
    Ok(Checked {
        desk: Desk {
            bits: s.bits,
            count: s.count,
        },
        row,
    })
}

// Whether this is the last line after what was read so far: with the number of cells and the sum, and no seat waits for its end.
fn is_last(text: &[u8], at: usize, s: &Sofar) -> bool
    requires { at + 11 ≤ length text.now }
    ensures { result ≡ is_last text.now at s.now }
{
    let end = at + LAST_LINE;
    let mut last = [0u8; LAST_LINE];
    put_last_line(&mut last, 0, s.count, page_sum(&text[0..at]));
    (last.as_slice() == &text[at..end]) & (s.waiting == 0)
}
