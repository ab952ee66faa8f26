// The tally: how many records are held, for each letter of a reply and each status. The host lends it beside cells and marks.
ghost use Rattle.std.specs.Prelude.{◌≡◌, true, ◌<◌, ltb};
ghost use Rattle.frames.specs.Reply.{is_letter, letter_place};
ghost use Rattle.frames.specs.Status.{is_status, status_place};
ghost use Rattle.desk.specs.Tally.{entry_of, counted, counted_in, empty_tally, look_refused, LookAs};
ghost use Rattle.desk.specs.inside.Counted.{uncounted, entry_found, Whole, is_clear};

use digits::refusal as table;
use digits::refusal::{Refusal, plain};
use frames::reply::{LETTERS, STATUSES, letter_place, status_place};

// There is no such letter or no such status.
#[derive(Clone, Copy, Debug, PartialEq, Eq)]
pub enum LookRefusal {
    NoSuch,
}

impl From<LookRefusal> for Refusal {
    ghost from_gives = { λ refusal f. f ≡ look_refused refusal };

    fn from(refusal: LookRefusal) -> Refusal {
        match refusal {
            LookRefusal::NoSuch => plain(table::NO_SUCH),
        }
    }
}

// One look at the table: how many records are held with a letter and a status. Whether the table is that of a desk is not tested.
pub fn look(tally: &[[u32; STATUSES]; LETTERS], letter: u8, status: u8) -> Result<u32, LookRefusal>
    ensures { LookAs tally.now letter status result }
{
    match entry(letter, status) {
        Some((i, j)) => Ok(tally[i][j]),
        None => Err(LookRefusal::NoSuch),
    }
}

// Where a letter and a status are counted.
fn entry(letter: u8, status: u8) -> Option<(usize, usize)>
    ensures { result ≡ entry_found letter status }
{
    Some((letter_place(letter)?, status_place(status)?))
}

fn letter_index(letter: u8) -> usize
    requires { is_letter letter ≡ true }
    ensures { result ≡ letter_place letter }
{
    letter_place(letter).unwrap()
}

// R, E and Z differ in two bits of their codes, and these are their places.
fn status_index(status: u8) -> usize
    requires { is_status status ≡ true }
    ensures { result ≡ status_place status }
{
    status as usize / 4 % 4
}

// One record more with this letter and this status.
pub(crate) fn count_one(tally: &mut [[u32; STATUSES]; LETTERS], letter: u8, status: u8)
    requires { (is_letter letter ≡ true) × ((is_status status ≡ true) × (entry_of tally.old letter status < 4294967295)) }
    ensures { tally.new ≡ counted tally.old letter status }
{
    let i = letter_index(letter);
    let j = status_index(status);
    tally[i][j] = tally[i][j] + 1;
}

// The same for any letter and status: nothing is counted if there is no such letter or status, or if the number is the largest already.
pub fn count(tally: &mut [[u32; STATUSES]; LETTERS], letter: u8, status: u8)
    ensures { tally.new ≡ counted_in tally.old letter status }
{
    if let Some((row, column)) = entry(letter, status) {
        let n = tally[row][column];
        if n < u32::MAX {
            tally[row][column] = n + 1;
        }
    }
}

// One record less, if there is one.
pub(crate) fn take_one(left: &mut [[u32; STATUSES]; LETTERS], letter: u8, status: u8) -> bool
    requires { (is_letter letter ≡ true) × (is_status status ≡ true) }
    ensures { (result ≡ ltb 0 (entry_of left.old letter status)) × (result ≡ true → left.new ≡ uncounted left.old letter status) }
{
    let i = letter_index(letter);
    let j = status_index(status);
    let n = left[i][j];
    if n == 0 {
        return false;
    }
    left[i][j] = n - 1;
    true
}

pub fn clear(tally: &mut [[u32; STATUSES]; LETTERS])
    ensures { tally.new ≡ empty_tally }
{
    *tally = [[0u32; STATUSES]; LETTERS];
}

// A table always has 33 rows of three numbers. A reference does not say so to the proof, a value does. No code is left of this test.
pub(crate) fn is_whole(tally: [[u32; STATUSES]; LETTERS]) -> bool
    ensures { (result ≡ true) × Whole tally }
{
    true
}

// Whether all numbers are 0. Without a way out, so that many are tested at once.
pub(crate) fn is_clear(tally: &[[u32; STATUSES]; LETTERS]) -> bool
    ensures { result ≡ is_clear tally.now }
{
    let mut any: u32 = 0;
    for row in tally {
        any |= row[0] | row[1] | row[2];
    }
    any == 0
}
