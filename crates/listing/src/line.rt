// Puts the lines of a list on an output, from a place on.
ghost use Rattle.std.specs.Prelude.{◌≡◌, ◌∷◌, ◌≤◌, ◌<◌, length};
ghost use Rattle.std.proofs.Math.Seq.{slice};
ghost use Rattle.text.specs.Put.{Put};
ghost use Rattle.text.specs.Lines.{TAB};
ghost use Rattle.desk.specs.Limits.{cell_size};
ghost use Rattle.listing.specs.Text.{address, looks, columns, shown, row_text, end_text};

use desk::capture::Counts;
use digits::byte_at;
use frames::reply::field;
use text::{LF, TAB, address_shown, place_after, put_decimal, put_one, put_text, width_of};

const COLUMNS: usize = 12;

// How many bytes a row has after the seat: the columns, each with its tab, and the LF. Together the columns show the address and all
// bytes from the status to the date, except two digits of the number.
const AFTER_SEAT: usize = COLUMNS + 1 + (field::SPARE - field::STATUS - 2) + 1;

// How many digits the last seat has, and how many a count has at most.
const SEAT_DIGITS: usize = 2;

const COUNT_DIGITS: usize = 5;

const END_SIZE: usize = 3;

const END: [u8; END_SIZE] = *b"end";

// The lengths of the longest row and of the longest end line, which has four counts.
pub const LONGEST_ROW: usize = SEAT_DIGITS + AFTER_SEAT;

pub const LONGEST_END: usize = END_SIZE + 4 * (1 + COUNT_DIGITS) + 1;

pub fn put_row(out: &mut [u8], at: usize, seat: usize, frame: &[u8]) -> usize
    requires { length frame.now ≡ cell_size }
    ensures { Put out.old at (row_text seat frame.now) result out.new }
{
    // If the output has ended already, the row is only measured.
    if out.len() <= at {
        return place_after(at, width_of(seat as u64) + AFTER_SEAT);
    }
    // The row is put together at known places, and then copied at once.
    let mut row = [0u8; AFTER_SEAT];
    let q = put_columns(&mut row, frame);
    put_one(&mut row, q, LF);
    let p = put_decimal(out, at, seat as u64);
    put_text(out, p, &row)
}

pub fn put_end(out: &mut [u8], at: usize, c: Counts) -> usize
    ensures { Put out.old at (end_text c) result out.new }
{
    let mut p = put_text(out, at, &END);
    for count in [c.opened, c.collected, c.dynamic, c.refused] {
        p = put_one(out, p, TAB);
        p = put_decimal(out, p, count as u64);
    }
    put_one(out, p, LF)
}

// A call for each column: a table of them would need a look for each as well, since the address is shown in its own way.
// Each column goes up to the next field. A request's number has three digits, so the first two of the reply's five are not shown.
fn put_columns(out: &mut [u8], frame: &[u8]) -> usize
    requires { length frame.now ≡ cell_size }
    ensures { Put out.old 0 (shown frame.now columns) result out.new }
{
    let p = put_column(out, 0, frame, field::REQUESTER, field::NUMBER);
    let p = put_address(out, p, frame);
    let p = put_column(out, p, frame, field::NUMBER + 2, field::BIB);
    let p = put_column(out, p, frame, field::BIB, field::GROUP);
    let p = put_column(out, p, frame, field::GROUP, field::RUN);
    let p = put_column(out, p, frame, field::RUN, field::PHYSICAL);
    let p = put_column(out, p, frame, field::PHYSICAL, field::CHANNEL);
    let p = put_column(out, p, frame, field::CHANNEL, field::INFORMATION);
    let p = put_column(out, p, frame, field::INFORMATION, field::TIME);
    let p = put_column(out, p, frame, field::TIME, field::DATE);
    let p = put_column(out, p, frame, field::DATE, field::SPARE);
    put_column(out, p, frame, field::STATUS, field::REQUESTER)
}

// Puts a column with a tab in front of it.
fn put_column(out: &mut [u8], at: usize, frame: &[u8], from: usize, to: usize) -> usize
    requires { (from < to) × (to ≤ length frame.now) }
    ensures { Put out.old at (TAB ∷ slice from to frame.now) result out.new }
{
    let p = put_one(out, at, TAB);
    put_text(out, p, &frame[from..to])
}

#[tactic(auto, using(crate::proofs::ColumnLaws::address_put))]
fn put_address(out: &mut [u8], at: usize, frame: &[u8]) -> usize
    requires { length frame.now ≡ cell_size }
    ensures { Put out.old at (TAB ∷ looks address (slice 2 3 frame.now)) result out.new }
{
    let p = put_one(out, at, TAB);
    put_one(out, p, address_shown(byte_at(frame, field::ADDRESS)))
}
