// How much a desk can hold. Each limit is stated once.
use frames::reply::REPLY_SIZE;

pub const SEATS: usize = 16;

// How many cells a desk uses at most.
pub const CELLS: usize = 256;

// A reply fills a cell.
pub const CELL_SIZE: usize = REPLY_SIZE;

// How many bytes all cells of the largest desk have.
pub const STORE: usize = CELLS * CELL_SIZE;
