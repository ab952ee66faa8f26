// What a host must lend.
ghost use Rattle.std.specs.Prelude.{◌≡◌};
ghost use Rattle.rei2.specs.Limits.{limits};

use desk::limits::{CELL_SIZE, CELLS, SEATS, STORE};
use frames::reply::{LETTERS, STATUSES};
use listing::{LONGEST_LIST, MOST_INPUT};

// The seats of a row; the bytes of cells and the marks that the largest desk uses (any more are left alone); the bytes of a cell; the rows of the tally, one
// for each letter, and the numbers of a row, one for each status; the length of the longest capture that is listed; and the length of an output that has room for every list.
#[repr(C)]
#[derive(Clone, Copy)]
pub struct LimitsAnswer {
    pub seats: usize,
    pub cells: usize,
    pub marks: usize,
    pub cell_size: usize,
    pub letters: usize,
    pub statuses: usize,
    pub most_input: usize,
    pub longest_list: usize,
}

#[unsafe(no_mangle)]
pub extern "C" fn rei2_limits() -> LimitsAnswer
    ensures { result ≡ limits }
{
    LimitsAnswer {
        seats: SEATS,
        cells: STORE,
        marks: CELLS,
        cell_size: CELL_SIZE,
        letters: LETTERS,
        statuses: STATUSES,
        most_input: MOST_INPUT,
        longest_list: LONGEST_LIST,
    }
}
