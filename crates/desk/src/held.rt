// Reading records back: which cells a seat holds.
ghost use Rattle.std.specs.Prelude.{◌≡◌};
ghost use Rattle.desk.specs.Calls.{next_held};

use crate::state::{Desk, capacity};
use digits::least;

// The first held cell from a place on whose mark names the seat. It takes any state, place and length of memory.
pub fn next_held(desk: Desk, cells: &[u8], marks: &[u32], seat: u32, from: usize) -> Option<usize>
    ensures { result ≡ next_held desk.count cells.now marks.now seat from }
{
    let limit = least(desk.count as usize, capacity(cells.len(), marks.len()));
    for i in from..limit {
        if marks[i] == seat {
            return Some(i);
        }
    }
    None
}
