// The list of a capture.
#![tactic(auto)]

mod line;
mod rows;

ghost use Rattle.std.specs.Prelude.{◌≡◌, ◌*◌, ◌≤◌, length};
ghost use Rattle.text.specs.Put.{Put};
ghost use Rattle.desk.specs.Limits.{cell_size};
ghost use Rattle.listing.specs.Listing.{list_refused, Listed};
ghost use Rattle.listing.specs.inside.Rows.{list_lines};
ghost use Rattle.listing.specs.inside.Steps.{TakenAs, WroteAll};

use desk::capture::{Counts, take_capture};
use desk::limits::{CELLS, STORE};
use desk::state::reset;
use digits::refusal::{Refusal, plain};
use digits::{put_all, refusal as table};
use frames::reply::{LETTERS, STATUSES};
use line::{LONGEST_END, LONGEST_ROW, put_end};
use rows::put_seats;
use text::put_text;

pub const HEADING_SIZE: usize = 67;

pub const HEADING: [u8; HEADING_SIZE] =
    *b"seat\tfrom\taddr\tnumber\tbib\tgroup\trun\tphys\tlog\tinfo\ttime\tdate\tstatus\n";

// A longer capture is not listed.
pub const MOST_INPUT: usize = 32768;

// The length of the longest list: an output of so many bytes has room for every list.
pub const LONGEST_LIST: usize = HEADING_SIZE + CELLS * LONGEST_ROW + LONGEST_END;

const TOO_LONG: [u8; 15] = *b"input too long\n";

// The output has no room for all bytes of the list.
#[derive(Clone, Copy, Debug, PartialEq, Eq)]
pub enum ListRefusal {
    Room,
}

impl From<ListRefusal> for Refusal {
    ghost from_gives = { λ refusal r. r ≡ list_refused refusal };

    fn from(refusal: ListRefusal) -> Refusal {
        match refusal {
            ListRefusal::Room => plain(table::ROOM),
        }
    }
}

// How many cells are held after a capture, and the counts of its frames.
#[derive(Clone, Copy)]
struct Taken {
    count: usize,
    counts: Counts,
}

// Writes the list of a capture to the first bytes of out, and returns how many they are. The replies are kept in lent cells and marks, on an emptied desk. If out is
// too short, nothing that is lent changes.
pub fn list(
    capture: &[u8],
    cells: &mut [u8],
    marks: &mut [u32],
    out: &mut [u8],
) -> Result<usize, ListRefusal>
    ensures { Listed cells.old marks.old capture.now out.old result cells.new marks.new out.new }
{
    if capture.len() > MOST_INPUT {
        return write_all(out, &TOO_LONG);
    }
    let mut old_cells = [0u8; STORE];
    let mut old_marks = [0u32; CELLS];
    put_all(&mut old_cells, 0, cells);
    put_all(&mut old_marks, 0, marks);
    let t = take(cells, marks, capture);
    let mut scratch = [0u8; 1];
    let size = put_list(&mut scratch, t, cells, marks);
    if out.len() < size {
        put_all(cells, 0, &old_cells);
        put_all(marks, 0, &old_marks);
        return Err(ListRefusal::Room);
    }
    put_list(out, t, cells, marks);
    Ok(size)
}

fn take(cells: &mut [u8], marks: &mut [u32], capture: &[u8]) -> Taken
    ensures { TakenAs cells.old marks.old capture.now result cells.new marks.new }
{
    let mut tally = [[0u32; STATUSES]; LETTERS];
    let e = reset(&mut tally);
    let state = e.desk;
    let row = e.row;
    let d = take_capture(state, row, cells, marks, &mut tally, capture);
    let answer = d.answer;
    let after = d.desk;
    match answer {
        Ok(counts) => Taken {
            count: after.count as usize,
            counts,
        },
        // An empty desk is a desk, so this case never occurs.
        Err(_) => Taken {
            count: 0,
            counts: Counts {
                opened: 0,
                collected: 0,
                dynamic: 0,
                refused: 0,
            },
        },
    }
}

// Puts heading, rows and end line.
fn put_list(out: &mut [u8], t: Taken, cells: &[u8], marks: &[u32]) -> usize
    requires { (t.count ≤ length marks.now) × (t.count * cell_size ≤ length cells.now) }
    ensures { Put out.old 0 (list_lines cells.now marks.now t) result out.new }
{
    let p = put_text(out, 0, &HEADING);
    let count = t.count;
    let counts = t.counts;
    let q = put_seats(out, p, count, cells, marks);
    put_end(out, q, counts)
}

fn write_all(out: &mut [u8], text: &[u8]) -> Result<usize, ListRefusal>
    ensures { WroteAll text.now out.old result out.new }
{
    if out.len() < text.len() {
        return Err(ListRefusal::Room);
    }
    Ok(put_text(out, 0, text))
}
