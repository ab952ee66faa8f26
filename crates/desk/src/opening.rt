// An opening: a static request takes a seat.
ghost use Rattle.std.specs.Prelude.{◌≡◌, ◌+◌, ◌^◌, ◌<◌, false, length};
ghost use Rattle.desk.specs.Limits.{seat_count};
ghost use Rattle.desk.specs.Memory.{memory};
ghost use Rattle.desk.specs.Key.{request_key};
ghost use Rattle.desk.specs.Seats.{used_bit, lowest_clear};
ghost use Rattle.desk.specs.Calls.{what_is_given, new_seat, open_tried, open_refused, OpenDid, OpenStepDid};
ghost use Rattle.frames.specs.Kind.{read};
ghost use Rattle.frames.specs.Request.{request};
ghost use Rattle.desk.specs.declared.opening.OpenRefusal.TheVariants.{Frame};
ghost use Rattle.desk.specs.inside.Columns.{Short, found_seat};
ghost use Rattle.desk.specs.inside.Judging.{open_judged, column_asked};

use crate::clauses::shows_desk;
use crate::columns::{Columns, key_number};
use crate::done::{Change, Done, Step};
use crate::key::Key;
use crate::limits::SEATS;
use crate::state::{Desk, Seat};
use digits::refusal as table;
use digits::refusal::{Refusal, plain};
use frames::refusals::ReadRefusal;
use frames::reply::{LETTERS, STATUSES};
use frames::request::{StaticRequest, read_request};

// In the order in which they are tested.
#[derive(Clone, Copy, Debug, PartialEq, Eq)]
pub enum OpenRefusal {
    Desk,
    Frame(ReadRefusal),
    NoAnswerDue,
    InUse,
    NoSeat,
}

impl From<ReadRefusal> for OpenRefusal {
    ghost from_gives = { λ refusal r. r ≡ Frame refusal };

    fn from(refusal: ReadRefusal) -> OpenRefusal {
        OpenRefusal::Frame(refusal)
    }
}

impl From<OpenRefusal> for Refusal {
    ghost from_gives = { λ refusal f. f ≡ open_refused refusal };

    fn from(refusal: OpenRefusal) -> Refusal {
        match refusal {
            OpenRefusal::Desk => plain(table::DESK),
            OpenRefusal::Frame(of_frame) => Refusal::from(of_frame),
            OpenRefusal::NoAnswerDue => plain(table::NO_ANSWER_DUE),
            OpenRefusal::InUse => plain(table::IN_USE),
            OpenRefusal::NoSeat => plain(table::NO_SEAT),
        }
    }
}

// The seat that a request gets, and its key.
#[derive(Clone, Copy)]
pub(crate) struct Opening {
    pub(crate) seat: usize,
    pub(crate) key: Key,
}

// State, row, cells, marks and tally stay side by side, as the C interface lends them (rei2_open).
pub fn open(
    desk: Desk,
    row: [Seat; SEATS],
    cells: &[u8],
    marks: &[u32],
    tally: &[[u32; STATUSES]; LETTERS],
    frame: &[u8],
) -> Done<Result<u32, OpenRefusal>>
    ensures { OpenDid (memory desk row cells.now marks.now tally.now) frame.now result }
{
    open_step(desk, row, cells, marks, tally, frame).on(row)
}

// The same for a caller who stores only the seat that changed.
pub fn open_step(
    desk: Desk,
    row: [Seat; SEATS],
    cells: &[u8],
    marks: &[u32],
    tally: &[[u32; STATUSES]; LETTERS],
    frame: &[u8],
) -> Step<Result<u32, OpenRefusal>>
    ensures { OpenStepDid (memory desk row cells.now marks.now tally.now) frame.now result }
{
    match tried(desk, &row, cells, marks, tally, frame) {
        Ok(opening) => {
            let at = opening.seat;
            Step {
                answer: Ok(at as u32),
                desk: opened_state(desk, at),
                changed: Some(Change {
                    at,
                    seat: new_seat(opening.key),
                }),
            }
        }
        Err(refusal) => Step {
            answer: Err(refusal),
            desk,
            changed: None,
        },
    }
}

fn tried(
    desk: Desk,
    row: &[Seat; SEATS],
    cells: &[u8],
    marks: &[u32],
    tally: &[[u32; STATUSES]; LETTERS],
    frame: &[u8],
) -> Result<Opening, OpenRefusal>
    requires { length row.now ≡ seat_count }
    ensures { open_judged result ≡ open_tried (memory desk row.now cells.now marks.now tally.now) frame.now }
{
    let mut columns = Columns::new();
    if !shows_desk(&mut columns, desk, row, cells, marks, tally) {
        return Err(OpenRefusal::Desk);
    }
    judged(&columns, desk.bits, frame)
}

pub(crate) fn judged(columns: &Columns, bits: u64, frame: &[u8]) -> Result<Opening, OpenRefusal>
    ensures { open_judged result ≡ what_is_given (read request frame.now) (column_asked columns.now.keys bits) }
{
    // As in a reply.
    let whole = &frame[0..frame.len()];
    let r = read_request(whole)?;
    request_judged(columns, bits, r)
}

fn request_judged(columns: &Columns, bits: u64, r: StaticRequest) -> Result<Opening, OpenRefusal>
    requires { Short (request_key r) }
    ensures { open_judged result ≡ column_asked columns.now.keys bits r }
{
    if r.information == b'q' {
        return Err(OpenRefusal::NoAnswerDue);
    }
    let key = key_asked(r);
    if columns.find(key_number(key)).is_some() {
        return Err(OpenRefusal::InUse);
    }
    let Some(seat) = free_seat(bits) else {
        return Err(OpenRefusal::NoSeat);
    };
    Ok(Opening { seat, key })
}

// Named, as the key of a seat is.
fn key_asked(r: StaticRequest) -> Key
    ensures { result ≡ request_key r }
{
    Key {
        address: r.address as u32,
        requester: r.requester as u32,
        number: r.number,
    }
}

// The lowest seat that is not in use.
fn free_seat(bits: u64) -> Option<usize>
    ensures { result ≡ found_seat (lowest_clear bits) }
{
    let seat = u64::trailing_zeros(!bits) as usize;
    (seat < SEATS).then_some(seat)
}

fn new_seat(key: Key) -> Seat
    ensures { result ≡ new_seat key }
{
    Seat {
        address: key.address,
        requester: key.requester,
        number: key.number,
        held: 0,
        ended: 0,
    }
}

pub(crate) fn opened_state(desk: Desk, seat: usize) -> Desk
    requires { (seat < seat_count) × ((desk.bits < 2 ^ seat_count) × (used_bit desk.bits seat ≡ false)) }
    ensures { (result.bits ≡ desk.bits + 2 ^ seat) × (result.count ≡ desk.count) }
{
    Desk {
        bits: desk.bits + (1u64 << seat),
        count: desk.count,
    }
}
