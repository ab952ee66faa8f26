// The rows of a list: seat by seat, each seat's records in order.
ghost use Rattle.std.specs.Prelude.{◌*◌, ◌≤◌, ◌≡◌, [], cond, length, eqb};
ghost use Rattle.text.specs.Put.{Put};
ghost use Rattle.desk.specs.Limits.{seat_count, cell_size};
ghost use Rattle.desk.specs.Memory.{records_of};
ghost use Rattle.listing.specs.Text.{row_text, rows_text};
ghost use Rattle.listing.specs.inside.Rows.{seats_of};

use crate::line::put_row;
use desk::limits::{CELL_SIZE, SEATS};

pub fn put_seats(out: &mut [u8], at: usize, count: usize, cells: &[u8], marks: &[u32]) -> usize
    requires { (count ≤ length marks.now) × (count * cell_size ≤ length cells.now) }
    ensures { Put out.old at (seats_of cells.now marks.now count seat_count) result out.new }
{
    let mut p = at;
    for s in 0..SEATS {
        p = put_seat(out, p, s, count, cells, marks);
    }
    p
}

fn put_seat(
    out: &mut [u8],
    at: usize,
    seat: usize,
    count: usize,
    cells: &[u8],
    marks: &[u32],
) -> usize
    requires { (count ≤ length marks.now) × (count * cell_size ≤ length cells.now) }
    ensures { Put out.old at (rows_text seat (records_of cells.now marks.now seat count)) result out.new }
{
    let mut p = at;
    for i in 0..count {
        let a = i * CELL_SIZE;
        let e = a + CELL_SIZE;
        p = put_own(out, p, seat, marks[i], &cells[a..e]);
    }
    p
}

// Puts a row if the mark names the seat.
fn put_own(out: &mut [u8], at: usize, seat: usize, mark: u32, frame: &[u8]) -> usize
    requires { length frame.now ≡ cell_size }
    ensures { Put out.old at (cond (eqb mark seat) (row_text seat frame.now) []) result out.new }
{
    if mark as usize == seat {
        put_row(out, at, seat, frame)
    } else {
        at
    }
}
