// Writing a desk as a page.
ghost use Rattle.std.specs.Prelude.{◌≡◌, ◌<◌, true, [], if◌then◌else◌};
ghost use Rattle.text.specs.Put.{Put};
ghost use Rattle.desk.specs.Limits.{seat_count};
ghost use Rattle.desk.specs.Key.{seat_key};
ghost use Rattle.desk.specs.Seats.{used_bit};
ghost use Rattle.desk.specs.Memory.{memory};
ghost use Rattle.page.specs.Version.{one};
ghost use Rattle.page.specs.Page.{seat_line, seat_lines, cell_lines};
ghost use Rattle.page.specs.Writing.{write_refused, PageWritten};
ghost use Rattle.page.specs.inside.Writing.{SeatFits, SeatsFit, CellsFit, of_seats, of_cells};

use crate::line::{
    CELL_LINE, FIRST, FIRST_LINE, LAST_LINE, SEAT_LINE, put_cell_line, put_last_line, put_seat_line,
};
use crate::sum::page_sum;
use desk::clauses::makes_desk;
use desk::key::key_of;
use desk::limits::{CELL_SIZE, CELLS, SEATS};
use desk::state::{Desk, Seat, seats_in_use};
use digits::refusal as table;
use digits::refusal::{Refusal, plain};
use frames::reply::{LETTERS, STATUSES};
use text::put_text;

// The length of the longest page: an output of so many bytes has room for every page.
pub const LONGEST_PAGE: usize = FIRST_LINE + SEATS * SEAT_LINE + CELLS * CELL_LINE + LAST_LINE;

// Why no page is written, in the order in which it is tested.
#[derive(Clone, Copy, Debug, PartialEq, Eq)]
pub enum WriteRefusal {
    Desk,
    Room,
}

impl From<WriteRefusal> for Refusal {
    ghost from_gives = { λ refusal f. f ≡ write_refused refusal };

    fn from(refusal: WriteRefusal) -> Refusal {
        match refusal {
            WriteRefusal::Desk => plain(table::DESK),
            WriteRefusal::Room => plain(table::ROOM),
        }
    }
}

// Writes the page of a desk to the first bytes of out, and says how many; or changes nothing.
pub fn write_page(
    desk: Desk,
    row: [Seat; SEATS],
    cells: &[u8],
    marks: &[u32],
    tally: &[[u32; STATUSES]; LETTERS],
    out: &mut [u8],
) -> Result<usize, WriteRefusal>
    ensures { PageWritten one (memory desk row cells.now marks.now tally.now) out.old result out.new }
{
    if !makes_desk(desk, row, cells, marks, tally) {
        return Err(WriteRefusal::Desk);
    }
    let count = desk.count;
    let seats = seats_in_use(desk) as usize;
    let size = FIRST_LINE + seats * SEAT_LINE + count as usize * CELL_LINE + LAST_LINE;
    if out.len() < size {
        return Err(WriteRefusal::Room);
    }
    let p = put_text(out, 0, &FIRST);
    let p = put_seat_lines(out, p, row, desk.bits);
    let p = put_cell_lines(out, p, count as usize, cells, marks);
    let sum = page_sum(&out[0..p]);
    put_last_line(out, p, count, sum);
    Ok(size)
}

// The lines of the used seats, the lowest first.
#[tactic(auto, using(text::proofs::PutLaws::put_none), unfolding(crate::specs::Page::seat_lines))]
fn put_seat_lines(out: &mut [u8], at: usize, row: [Seat; SEATS], bits: u64) -> usize
    requires { SeatsFit row bits }
    ensures { Put out.old at (seat_lines one (of_seats row bits) seat_count) result out.new }
{
    let mut p = at;
    for s in 0..SEATS {
        p = put_used(out, p, s, bits, row[s]);
    }
    p
}

// Puts the line of a seat if it is in use.
#[tactic(auto, using(text::proofs::PutLaws::put_none))]
fn put_used(out: &mut [u8], at: usize, seat: usize, bits: u64, s: Seat) -> usize
    requires { (seat < seat_count) × (used_bit bits seat ≡ true → SeatFits s) }
    ensures { Put out.old at (if used_bit bits seat then seat_line one seat (seat_key s) s.ended else []) result out.new }
{
    if (bits >> seat) % 2 == 1 {
        put_seat_line(out, at, seat, key_of(s), s.ended)
    } else {
        at
    }
}

// The lines of the held cells, in the order of the store.
#[tactic(auto, using(text::proofs::PutLaws::put_none), unfolding(crate::specs::Page::cell_lines))]
fn put_cell_lines(out: &mut [u8], at: usize, count: usize, cells: &[u8], marks: &[u32]) -> usize
    requires { CellsFit cells.now marks.now count }
    ensures { Put out.old at (cell_lines one (of_cells cells.now marks.now) count) result out.new }
{
    let mut p = at;
    for j in 0..count {
        let a = j * CELL_SIZE;
        p = put_cell_line(out, p, marks[j] as usize, &cells[a..a + CELL_SIZE]);
    }
    p
}
