// The seats as columns of numbers. A call makes them once from the row.
ghost use Rattle.std.specs.Prelude.{◌≡◌, ◌&&◌, ◌<◌, true, length, set, replicate};
ghost use Rattle.desk.specs.Limits.{seat_count};
ghost use Rattle.desk.specs.Below.{all_below, count_below, first};
ghost use Rattle.desk.specs.inside.Columns.{Short, Sized, key_number, seat_of, row_of, progress_at, found_seat, key_is, is_alone, alone, same_at};
ghost use Rattle.desk.specs.inside.Clauses.{seat_good, seat_good_at};

use crate::key::{Key, is_key, key_of, used};
use crate::limits::SEATS;
use crate::state::Seat;
use crate::step::{Progress, progress_of};

// How many requesters and how many numbers a key has room for.
const REQUESTERS: u32 = 256;

const NUMBERS: u32 = 100_000;

// A key as one number. No key is 0, and two keys differ in it.
pub(crate) fn key_number(k: Key) -> u32
    requires { Short k }
    ensures { result ≡ key_number k }
{
    (k.address * REQUESTERS + k.requester) * NUMBERS + k.number
}

// Each seat's key, 0 if the seat is not in use; the records that it holds; and whether it has ended.
#[derive(Clone, Copy)]
pub(crate) struct Columns {
    pub(crate) keys: [u32; SEATS],
    pub(crate) held: [u32; SEATS],
    pub(crate) ended: [u32; SEATS],
    ghost sized: { Sized keys held ended },
}

impl Columns {
    pub(crate) fn new() -> Columns {
        Columns {
            keys: [0; SEATS],
            held: [0; SEATS],
            ended: [0; SEATS],
        }
    }

    // Whether all seats of a row are good. If they are, the columns show them. Filled in place: as an Option they were copied at every step of a call.
    pub(crate) fn show(&mut self, row: &[Seat; SEATS], bits: u64) -> bool
        requires { length row.now ≡ seat_count }
        ensures good { result ≡ all_below seat_count (seat_good_at row.now bits) }
        ensures shown { result ≡ true → row_of self.new.keys self.new.held self.new.ended ≡ row.now }
    {
        for i in 0..SEATS {
            let s = row[i];
            if !seat_good(s, bits, i) {
                return false;
            }
            self.set_key(i, key_of(s));
            self.set_progress(i, progress_of(s));
        }
        true
    }

    // The row that the columns show.
    pub(crate) fn row(&self) -> [Seat; SEATS]
        ensures { result ≡ row_of self.now.keys self.now.held self.now.ended }
    {
        let mut row = [Seat::default(); SEATS];
        for i in 0..SEATS {
            row[i] = seat_of(self.keys[i], self.held[i], self.ended[i]);
        }
        row
    }

    // The same seats before their first records.
    pub(crate) fn without_records(&self) -> Columns
        ensures keys { result.keys ≡ self.now.keys }
        ensures held { result.held ≡ replicate seat_count 0 }
        ensures ended { result.ended ≡ replicate seat_count 0 }
    {
        Columns {
            keys: self.keys,
            held: [0; SEATS],
            ended: [0; SEATS],
        }
    }

    // How far the request at a seat has come.
    pub(crate) fn progress(&self, seat: usize) -> Progress
        requires { seat < seat_count }
        ensures { result ≡ progress_at self.now.held self.now.ended seat }
    {
        Progress {
            held: self.held[seat],
            ended: self.ended[seat],
        }
    }

    pub(crate) fn set_progress(&mut self, seat: usize, p: Progress)
        requires { seat < seat_count }
        ensures keys { self.new.keys ≡ self.old.keys }
        ensures held { self.new.held ≡ set self.old.held seat p.held }
        ensures ended { self.new.ended ≡ set self.old.ended seat p.ended }
    {
        self.held[seat] = p.held;
        self.ended[seat] = p.ended;
    }

    pub(crate) fn set_key(&mut self, seat: usize, key: Key)
        requires { (seat < seat_count) × Short key }
        ensures keys { self.new.keys ≡ set self.old.keys seat (key_number key) }
        ensures held { self.new.held ≡ self.old.held }
        ensures ended { self.new.ended ≡ self.old.ended }
    {
        self.keys[seat] = key_number(key);
    }

    // The first seat with this key.
    pub(crate) fn find(&self, key: u32) -> Option<usize>
        ensures { result ≡ found_seat (first seat_count (key_is self.now.keys key)) }
    {
        self.keys.iter().position(|k| *k == key)
    }

    // Whether each key is at one seat only.
    pub(crate) fn all_apart(&self) -> bool
        ensures { result ≡ all_below seat_count (alone self.now.keys) }
    {
        for key in &self.keys {
            if !self.is_alone(*key) {
                return false;
            }
        }
        true
    }

    fn is_alone(&self, key: u32) -> bool
        ensures { result ≡ is_alone self.now.keys key }
    {
        key == 0 || self.count(key) == 1
    }

    // How many seats have this key. The loop has no early exit, so that many seats can be tested at once.
    fn count(&self, key: u32) -> u32
        ensures { result ≡ count_below seat_count (key_is self.now.keys key) }
    {
        let mut n: u32 = 0;
        for k in &self.keys {
            n += u32::from(*k == key);
        }
        n
    }

    // Whether all requests have come as far.
    pub(crate) fn same_progress(&self, other: &Columns) -> bool
        ensures { result ≡ all_below seat_count (same_at self.now.held other.now.held) && all_below seat_count (same_at self.now.ended other.now.ended) }
    {
        (self.held == other.held) & (self.ended == other.ended)
    }
}

// ---- a seat

// A used seat has a legal key, an unused one is all zero.
fn seat_good(s: Seat, bits: u64, i: usize) -> bool
    requires { i < 64 }
    ensures { result ≡ seat_good s bits i }
{
    if used(bits, i) {
        is_key(key_of(s))
    } else {
        s == Seat::default()
    }
}

// The seat that three numbers show.
fn seat_of(key: u32, held: u32, ended: u32) -> Seat
    ensures { result ≡ seat_of key held ended }
{
    let asked = key / NUMBERS;
    Seat {
        address: asked / REQUESTERS,
        requester: asked % REQUESTERS,
        number: key % NUMBERS,
        held,
        ended,
    }
}
