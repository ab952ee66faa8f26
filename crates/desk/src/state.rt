// The state of a desk, which is passed by value, and the empty desk.
ghost use Rattle.std.specs.Prelude.{◌≡◌};
ghost use Rattle.desk.specs.Seats.{zero_seat};
ghost use Rattle.desk.specs.Memory.{capacity_of};
ghost use Rattle.desk.specs.Calls.{seats_in_use, ResetDid};

use crate::limits::{CELL_SIZE, CELLS, SEATS};
use crate::tally::clear;
use digits::least;
use frames::reply::{LETTERS, STATUSES};

// Five numbers without padding, all zero in a seat that is not in use. Address and requester are held by their codes; `ended` is 0 or 1.
#[repr(C)]
#[derive(Clone, Copy, Debug, PartialEq, Eq, Default)]
pub struct Seat {
    pub address: u32,
    pub requester: u32,
    pub number: u32,
    pub held: u32,
    pub ended: u32,
}

// The seats in use, as bits, and how many cells are held.
#[repr(C)]
#[derive(Clone, Copy, Debug, PartialEq, Eq, Default)]
pub struct Desk {
    pub bits: u64,
    pub count: u32,
}

#[derive(Clone, Copy, Debug, PartialEq, Eq)]
pub struct Emptied {
    pub desk: Desk,
    pub row: [Seat; SEATS],
}

// The empty desk; it replaces any state, and all numbers of the tally are 0, whatever they were. Cells and marks are not touched.
pub fn reset(tally: &mut [[u32; STATUSES]; LETTERS]) -> Emptied
    ensures { ResetDid result tally.new }
{
    clear(tally);
    Emptied {
        desk: Desk::default(),
        row: [Seat::default(); SEATS],
    }
}

// How many seats are in use, including those that have ended.
pub fn seats_in_use(desk: Desk) -> u32
    ensures { result ≡ seats_in_use desk.bits }
{
    u64::count_ones(desk.bits)
}

// How many cells a desk can hold on so many bytes and so many marks.
pub fn capacity(cells: usize, marks: usize) -> usize
    ensures { result ≡ capacity_of cells marks }
{
    least(CELLS, least(cells / CELL_SIZE, marks))
}
