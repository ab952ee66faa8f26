// What a desk holds: seats in use, capacity, and the cells of a seat.
ghost use Rattle.std.specs.Prelude.{◌≡◌};
ghost use Rattle.desk.specs.Memory.{capacity_of};
ghost use Rattle.desk.specs.Calls.{seats_in_use, next_held};
ghost use Rattle.rei2.specs.Calls.{cell_answer};

use desk::held::next_held;
use desk::state::{Desk, capacity, seats_in_use};

// C has no Option: 1 and the cell, or 0 and 0 if there is none.
#[repr(C)]
#[derive(Clone, Copy)]
pub struct CellAnswer {
    pub found: u32,
    pub cell: usize,
}

#[unsafe(no_mangle)]
pub extern "C" fn rei2_seats_in_use(desk: Desk) -> u32
    ensures { result ≡ seats_in_use desk.bits }
{
    seats_in_use(desk)
}

#[unsafe(no_mangle)]
pub extern "C" fn rei2_capacity(cells: usize, marks: usize) -> usize
    ensures { result ≡ capacity_of cells marks }
{
    capacity(cells, marks)
}

#[unsafe(no_mangle)]
pub extern "C" fn rei2_next_held(
    desk: Desk,
    cells: &[u8],
    marks: &[u32],
    seat: u32,
    from: usize,
) -> CellAnswer
    ensures { result ≡ cell_answer (next_held desk.count cells.now marks.now seat from) }
{
    match next_held(desk, cells, marks, seat, from) {
        Some(cell) => CellAnswer { found: 1, cell },
        None => CellAnswer { found: 0, cell: 0 },
    }
}
