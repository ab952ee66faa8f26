// Storing the cells of a page that was read.
ghost use Rattle.std.specs.Prelude.{◌≡◌, ◌+◌, ◌*◌, ◌≤◌, length};
ghost use Rattle.desk.specs.Limits.{cell_size};
ghost use Rattle.page.specs.inside.Stored.{stored_cells, stored_marks, stored_tally};

use crate::framed::{framed, seat_value};
use crate::line::CELL_LINE;
use desk::limits::CELL_SIZE;
use desk::tally::{clear, count};
use frames::reply::{LETTERS, STATUSES, field};

// The lines of so many cells, which begin at `from`: each frame goes to its cell and its seat to the mark beside it, and the tally counts them anew.
#[tactic(auto, unfolding(crate::specs::inside::Stored::stored_cells, crate::specs::inside::Stored::stored_marks, crate::specs::inside::Stored::stored_tally))]
pub fn store(
    text: &[u8],
    from: usize,
    held: usize,
    cells: &mut [u8],
    marks: &mut [u32],
    tally: &mut [[u32; STATUSES]; LETTERS],
)
    requires { (from + held * 52 ≤ length text.now) × ((held * cell_size ≤ length cells.old) × (held ≤ length marks.old)) }
    ensures { (cells.new ≡ stored_cells text.now from cells.old held) × ((marks.new ≡ stored_marks text.now from marks.old held) × (tally.new ≡ stored_tally text.now from held)) }
{
    clear(tally);
    for j in 0..held {
        let at = from + j * CELL_LINE;
        let frame = framed(&text[at..at + CELL_LINE]);
        let a = j * CELL_SIZE;
        cells[a..a + CELL_SIZE].copy_from_slice(&frame);
        // On a page each of these digits names a seat; that is not known here.
        marks[j] = seat_value(text[at]).unwrap_or(0) as u32;
        count(tally, frame[field::INFORMATION], frame[field::STATUS]);
    }
}
