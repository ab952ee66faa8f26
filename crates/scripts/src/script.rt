// The desk of the scripts, which is kept from line to line, with the memory that is lent to it.
use desk::done::Done;
use desk::limits::SEATS;
use desk::opening::{OpenRefusal, open};
use desk::reply::{ReplyRefusal, reply};
use desk::state::{Desk, Emptied, Seat, reset};
use digits::{least, put_all};
use frames::reply::{LETTERS, STATUSES};
use spelling::line::Words;

// How much a script can lend at most.
const MOST_BYTES: usize = 15_400;

const MOST_MARKS: usize = 310;

// What lent memory holds before a script sets it.
const FRESH_BYTE: u8 = 238;

const FRESH_MARK: u32 = 4_008_636_142;

#[derive(Clone, Copy)]
pub struct Script {
    pub desk: Desk,
    pub row: [Seat; SEATS],
    pub tally: [[u32; STATUSES]; LETTERS],
    cells: [u8; MOST_BYTES],
    marks: [u32; MOST_MARKS],
    // How many bytes and how many marks are lent.
    cell_bytes: usize,
    mark_count: usize,
}

impl Script {
    // Nothing is lent. All is zero.
    pub fn empty() -> Self {
        Script {
            desk: Desk::default(),
            row: [Seat::default(); SEATS],
            tally: [[0; STATUSES]; LETTERS],
            cells: [0; MOST_BYTES],
            marks: [0; MOST_MARKS],
            cell_bytes: 0,
            mark_count: 0,
        }
    }

    // From here on so much fresh memory is lent. All else is zero.
    pub fn lend(&mut self, cell_bytes: usize, mark_count: usize) {
        self.desk = Desk::default();
        self.row = [Seat::default(); SEATS];
        self.tally = [[0; STATUSES]; LETTERS];
        self.cell_bytes = cell_bytes;
        self.mark_count = mark_count;
        lent_mut(&mut self.cells, cell_bytes).fill(FRESH_BYTE);
        lent_mut(&mut self.marks, mark_count).fill(FRESH_MARK);
    }

    // Whether all that is lent is there.
    pub fn is_there(&self) -> bool {
        self.cell_bytes <= MOST_BYTES && self.mark_count <= MOST_MARKS
    }

    pub fn cells(&self) -> &[u8] {
        lent(&self.cells, self.cell_bytes)
    }

    pub fn marks(&self) -> &[u32] {
        lent(&self.marks, self.mark_count)
    }

    pub fn open(&mut self, frame: &[u8]) -> Result<u32, OpenRefusal> {
        let done = open(
            self.desk,
            self.row,
            self.cells(),
            self.marks(),
            &self.tally,
            frame,
        );
        self.kept(done)
    }

    pub fn reply(&mut self, frame: &[u8]) -> Result<u32, ReplyRefusal> {
        let done = reply(
            self.desk,
            self.row,
            lent_mut(&mut self.cells, self.cell_bytes),
            lent_mut(&mut self.marks, self.mark_count),
            &mut self.tally,
            frame,
        );
        self.kept(done)
    }

    pub fn reset(&mut self) {
        let Emptied { desk, row } = reset(&mut self.tally);
        self.desk = desk;
        self.row = row;
    }

    // Keeps the state and the row that a call leaves, and returns its answer.
    fn kept<A>(&mut self, done: Done<A>) -> A {
        let Done { answer, desk, row } = done;
        self.desk = desk;
        self.row = row;
        answer
    }

    pub fn set_mark(&mut self, s: &mut Words<'_>) {
        let at = s.small() as usize;
        if let Some(mark) = lent_mut(&mut self.marks, self.mark_count).get_mut(at) {
            *mark = s.small();
        }
    }

    pub fn set_cell(&mut self, s: &mut Words<'_>) {
        let at = s.small() as usize;
        let mut b = [0u8; 100];
        let cells = lent_mut(&mut self.cells, self.cell_bytes);
        put_all(cells, at, s.bytes(&mut b));
    }

    pub fn set_seat(&mut self, s: &mut Words<'_>) {
        let at = s.small() as usize;
        if let Some(seat) = self.row.get_mut(at) {
            *seat = Seat {
                address: s.small(),
                requester: s.small(),
                number: s.small(),
                held: s.small(),
                ended: s.small(),
            };
        }
    }

    pub fn set_tally(&mut self, s: &mut Words<'_>) {
        let row = s.small() as usize;
        let column = s.small() as usize;
        if let Some(row) = self.tally.get_mut(row) {
            if let Some(n) = row.get_mut(column) {
                *n = s.small();
            }
        }
    }
}

// The first n items, or all if there are fewer.
fn lent<T>(items: &[T], n: usize) -> &[T] {
    &items[..least(n, items.len())]
}

fn lent_mut<T>(items: &mut [T], n: usize) -> &mut [T] {
    let count = least(n, items.len());
    &mut items[..count]
}
