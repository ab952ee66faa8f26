// The clauses of a desk, tested in one pass over the held cells.
ghost use Rattle.std.specs.Prelude.{◌≡◌, true, ◌*◌, ◌≤◌, ◌<◌, length, replicate};
ghost use Rattle.desk.specs.Limits.{seat_count, most_cells, cell_size};
ghost use Rattle.desk.specs.Below.{all_below};
ghost use Rattle.desk.specs.Hearing.{heard};
ghost use Rattle.desk.specs.Memory.{memory};
ghost use Rattle.desk.specs.Desk.{is_desk};
ghost use Rattle.desk.specs.inside.Shown.{shown};
ghost use Rattle.desk.specs.inside.Clauses.{seat_good_at, turn_of, Tracks};
ghost use Rattle.desk.specs.inside.Counted.{row_passes, Whole, Leaves};

use crate::columns::{Columns, key_number};
use crate::key::key_in;
use crate::limits::{CELL_SIZE, SEATS};
use crate::state::{Desk, Seat, capacity};
use crate::step::{Progress, advanced, step};
use crate::tally::{is_clear, is_whole, take_one};
use frames::check::{is_reply, label_at};
use frames::reply::{LETTERS, STATUSES, field};

// The bits of all seats, set.
const ALL: u64 = 18446744073709551615 >> (64 - SEATS);

// Whether state and memory are a desk.
pub fn makes_desk(
    desk: Desk,
    row: [Seat; SEATS],
    cells: &[u8],
    marks: &[u32],
    tally: &[[u32; STATUSES]; LETTERS],
) -> bool
    ensures { result ≡ is_desk (memory desk row cells.now marks.now tally.now) }
{
    let mut columns = Columns::new();
    shows_desk(&mut columns, desk, &row, cells, marks, tally)
}

// Whether state and memory are a desk. If they are, the columns show the row.
pub(crate) fn shows_desk(
    columns: &mut Columns,
    desk: Desk,
    row: &[Seat; SEATS],
    cells: &[u8],
    marks: &[u32],
    tally: &[[u32; STATUSES]; LETTERS],
) -> bool
    requires { length row.now ≡ seat_count }
    ensures desk { result ≡ is_desk (memory desk row.now cells.now marks.now tally.now) }
    ensures shown { result ≡ true → shown columns.new ≡ row.now }
{
    if !columns.show(row, desk.bits) {
        return false;
    }
    is_desk(desk, columns, cells, marks, tally)
}

// Whether state and memory are a desk whose seats the columns show. That all seats are good was tested before.
fn is_desk(
    desk: Desk,
    columns: &Columns,
    cells: &[u8],
    marks: &[u32],
    tally: &[[u32; STATUSES]; LETTERS],
) -> bool
    requires { all_below seat_count (seat_good_at (shown columns.now) desk.bits) ≡ true }
    ensures { result ≡ is_desk (memory desk (shown columns.now) cells.now marks.now tally.now) }
{
    if desk.bits > ALL {
        return false;
    }
    if !columns.all_apart() {
        return false;
    }
    let count = desk.count as usize;
    if count > capacity(cells.len(), marks.len()) {
        return false;
    }
    if !is_whole(*tally) {
        return false;
    }
    let mut reached = columns.without_records();
    // Without rows nothing is replayed, and the tally need not be copied.
    if count == 0 {
        return columns.same_progress(&reached) & is_clear(tally);
    }
    let mut left = *tally;
    if !replay_rows(&mut reached, count, cells, marks, &mut left) {
        return false;
    }
    columns.same_progress(&reached) & is_clear(&left)
}

// ---- the rows: marks, and the cells beside them

// One more row of a seat: how far the seat comes with it, if it is a reply with the seat's key that the seat takes.
fn one_more(p: Progress, key: u32, cell: &[u8]) -> Option<Progress>
    requires { p.held < most_cells }
    ensures { result ≡ turn_of p key (heard cell.now) }
{
    if !is_reply(cell) {
        return None;
    }
    let label = label_at(cell);
    let own = key == key_number(key_in(label));
    let takes = step(p, true, label.status).is_ok();
    (own & takes).then_some(advanced(p, label.status))
}

// Replays all rows: how many records each seat holds after them, and whether it has ended. Each row also takes one from the tally, so that nothing is
// left of a tally that is right. Each mark and each cell is read once. A seat that is not in use has no key, so no row is its own.
fn replay_rows(
    reached: &mut Columns,
    count: usize,
    cells: &[u8],
    marks: &[u32],
    left: &mut [[u32; STATUSES]; LETTERS],
) -> bool
    requires memory { (count ≤ most_cells) × ((count ≤ length marks.now) × (count * cell_size ≤ length cells.now)) }
    requires none_held { (reached.old.held ≡ replicate seat_count 0) × (reached.old.ended ≡ replicate seat_count 0) }
    requires whole { Whole left.old }
    ensures { (result ≡ all_below count (row_passes reached.old.keys left.old cells.now marks.now)) × (result ≡ true → Tracks cells.now marks.now count reached.new.held reached.new.ended × Leaves left.old cells.now count left.new) }
{
    for i in 0..count {
        let m = marks[i];
        if m >= SEATS as u32 {
            return false;
        }
        let s = m as usize;
        let a = i * CELL_SIZE;
        let e = a + CELL_SIZE;
        let Some(p) = one_more(reached.progress(s), reached.keys[s], &cells[a..e]) else {
            return false;
        };
        reached.set_progress(s, p);
        let letter = cells[a + field::INFORMATION];
        let status = cells[a + field::STATUS];
        if !take_one(left, letter, status) {
            return false;
        }
    }
    true
}
