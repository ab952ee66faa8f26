// The lines of a page, put on an output from a place on.
ghost use Rattle.std.specs.Prelude.{◌≡◌, ◌<◌, ◌≤◌, length};
ghost use Rattle.text.specs.Put.{Put};
ghost use Rattle.desk.specs.Limits.{cell_size};
ghost use Rattle.page.specs.Version.{one, seat_digit};
ghost use Rattle.page.specs.Page.{seat_line, middle, cell_line, last_line};
ghost use Rattle.page.specs.inside.Taking.{Narrow};

use desk::key::Key;
use digits::put_number;
use text::{LF, TAB, address_shown, put_one, put_text};

pub const FIRST_LINE: usize = 7;

pub const SEAT_LINE: usize = 12;

pub const CELL_LINE: usize = 52;

pub const LAST_LINE: usize = 11;

pub const FIRST: [u8; FIRST_LINE] = *b"page\t1\n";

// 0 to 9, then A to F.
#[tactic(auto, unfolding(crate::specs::Version::seat_digit))]
pub fn seat_digit(seat: usize) -> u8
    requires { seat < 16 }
    ensures { result ≡ seat_digit seat }
{
    if seat < 10 {
        48 + seat as u8
    } else {
        55 + seat as u8
    }
}

pub fn put_seat_line(out: &mut [u8], at: usize, seat: usize, k: Key, ended: u32) -> usize
    requires { (seat < 16) × (Narrow k × (ended ≤ 1)) }
    ensures { Put out.old at (seat_line one seat k ended) result out.new }
{
    // The line is put together at known places, and then copied at once.
    let mut line = [TAB; SEAT_LINE];
    line[0] = seat_digit(seat);
    line[2] = address_shown(k.address as u8);
    line[4] = k.requester as u8;
    put_number(&mut line, 6, 3, k.number as u64);
    line[10] = 48 + ended as u8;
    line[11] = LF;
    put_text(out, at, &line)
}

// The frame without its lead byte and its CR.
pub fn put_cell_line(out: &mut [u8], at: usize, seat: usize, frame: &[u8]) -> usize
    requires { (seat < 16) × (length frame.now ≡ cell_size) }
    ensures { Put out.old at (cell_line one seat (middle frame.now)) result out.new }
{
    let head = [seat_digit(seat), TAB];
    let p = put_text(out, at, &head);
    let p = put_text(out, p, &frame[1..50]);
    put_one(out, p, LF)
}

pub fn put_last_line(out: &mut [u8], at: usize, count: u32, sum: u16) -> usize
    ensures { Put out.old at (last_line count sum) result out.new }
{
    let mut line = [TAB; LAST_LINE];
    put_number(&mut line, 0, 4, count as u64);
    put_number(&mut line, 5, 5, sum as u64);
    line[10] = LF;
    put_text(out, at, &line)
}
