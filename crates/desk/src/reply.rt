// A reply: sorted to the seat with its key, and kept.
ghost use Rattle.std.specs.Prelude.{◌≡◌, ◌<◌, length};
ghost use Rattle.desk.specs.Limits.{seat_count, most_cells};
ghost use Rattle.desk.specs.Memory.{memory};
ghost use Rattle.desk.specs.Calls.{what_is_given, grown, reply_tried, reply_refused, of_step, ReplyDid, ReplyStepDid};
ghost use Rattle.desk.specs.Key.{key_in};
ghost use Rattle.desk.specs.Hearing.{heard};
ghost use Rattle.desk.specs.declared.reply.ReplyRefusal.TheVariants.{Frame};
ghost use Rattle.desk.specs.inside.Columns.{Short, Sized};
ghost use Rattle.desk.specs.inside.Judging.{reply_judged, column_tried, RoomFor, PutReply};

use crate::clauses::shows_desk;
use crate::columns::{Columns, key_number};
use crate::done::{Change, Done, Step};
use crate::key::key_in;
use crate::limits::{CELL_SIZE, SEATS};
use crate::state::{Desk, Seat, capacity};
use crate::step::{Progress, StepRefusal, advanced, progress_of, step};
use crate::tally::count_one;
use digits::refusal::{Refusal, plain};
use digits::{byte_at, put_all, refusal as table};
use frames::check::{is_reply, label_at};
use frames::refusals::ReadRefusal;
use frames::reply::{LETTERS, ReplyLabel, STATUSES, check_reply, field};

// In the order in which they are tested.
#[derive(Clone, Copy, Debug, PartialEq, Eq)]
pub enum ReplyRefusal {
    Desk,
    Frame(ReadRefusal),
    Stray,
    Ended,
    OutOfPlace,
    Full,
}

impl From<ReadRefusal> for ReplyRefusal {
    ghost from_gives = { λ refusal r. r ≡ Frame refusal };

    fn from(refusal: ReadRefusal) -> ReplyRefusal {
        ReplyRefusal::Frame(refusal)
    }
}

impl From<StepRefusal> for ReplyRefusal {
    ghost from_gives = { λ refusal r. r ≡ of_step refusal };

    fn from(refusal: StepRefusal) -> ReplyRefusal {
        match refusal {
            StepRefusal::Ended => ReplyRefusal::Ended,
            StepRefusal::OutOfPlace => ReplyRefusal::OutOfPlace,
            StepRefusal::Full => ReplyRefusal::Full,
        }
    }
}

impl From<ReplyRefusal> for Refusal {
    ghost from_gives = { λ refusal f. f ≡ reply_refused refusal };

    fn from(refusal: ReplyRefusal) -> Refusal {
        match refusal {
            ReplyRefusal::Desk => plain(table::DESK),
            ReplyRefusal::Frame(of_frame) => Refusal::from(of_frame),
            ReplyRefusal::Stray => plain(table::STRAY),
            ReplyRefusal::Ended => plain(table::ENDED),
            ReplyRefusal::OutOfPlace => plain(table::OUT_OF_PLACE),
            ReplyRefusal::Full => plain(table::FULL),
        }
    }
}

// The seat that takes a reply, and the reply's status.
#[derive(Clone, Copy)]
pub(crate) struct Taking {
    pub(crate) seat: usize,
    pub(crate) status: u8,
}

// State, row, cells, marks and tally stay side by side, as the C interface lends them (rei2_reply).
pub fn reply(
    desk: Desk,
    row: [Seat; SEATS],
    cells: &mut [u8],
    marks: &mut [u32],
    tally: &mut [[u32; STATUSES]; LETTERS],
    frame: &[u8],
) -> Done<Result<u32, ReplyRefusal>>
    ensures { ReplyDid (memory desk row cells.old marks.old tally.old) frame.now result cells.new marks.new tally.new }
{
    reply_step(desk, row, cells, marks, tally, frame).on(row)
}

// The same for a caller who stores only the seat that changed.
pub fn reply_step(
    desk: Desk,
    row: [Seat; SEATS],
    cells: &mut [u8],
    marks: &mut [u32],
    tally: &mut [[u32; STATUSES]; LETTERS],
    frame: &[u8],
) -> Step<Result<u32, ReplyRefusal>>
    ensures { ReplyStepDid (memory desk row cells.old marks.old tally.old) frame.now result cells.new marks.new tally.new }
{
    match tried(desk, &row, cells, marks, tally, frame) {
        Ok(taking) => {
            let at = taking.seat;
            let after = put_reply(desk, at, cells, marks, frame);
            count_one(tally, byte_at(frame, field::INFORMATION), taking.status);
            Step {
                answer: Ok(at as u32),
                desk: after,
                changed: Some(Change {
                    at,
                    seat: grown_seat(row[at], taking.status),
                }),
            }
        }
        Err(refusal) => Step {
            answer: Err(refusal),
            desk,
            changed: None,
        },
    }
}

fn tried(
    desk: Desk,
    row: &[Seat; SEATS],
    cells: &[u8],
    marks: &[u32],
    tally: &[[u32; STATUSES]; LETTERS],
    frame: &[u8],
) -> Result<Taking, ReplyRefusal>
    requires { length row.now ≡ seat_count }
    ensures { reply_judged result ≡ reply_tried (memory desk row.now cells.now marks.now tally.now) frame.now }
{
    let mut columns = Columns::new();
    if !shows_desk(&mut columns, desk, row, cells, marks, tally) {
        return Err(ReplyRefusal::Desk);
    }
    let free = (desk.count as usize) < capacity(cells.len(), marks.len());
    judged(&columns, free, frame)
}

// The frame goes to the first free cell, and its seat to the mark beside it.
pub(crate) fn put_reply(
    desk: Desk,
    seat: usize,
    cells: &mut [u8],
    marks: &mut [u32],
    frame: &[u8],
) -> Desk
    requires { RoomFor desk seat cells.old marks.old frame.now }
    ensures { PutReply desk seat cells.old marks.old frame.now result cells.new marks.new }
{
    let count = desk.count;
    put_all(cells, count as usize * CELL_SIZE, frame);
    marks[count as usize] = seat as u32;
    Desk {
        count: count + 1,
        ..desk
    }
}

// What becomes of a reply. Why a frame is refused is looked for only if it is.
pub(crate) fn judged(columns: &Columns, free: bool, frame: &[u8]) -> Result<Taking, ReplyRefusal>
    ensures { reply_judged result ≡ what_is_given (heard frame.now) (column_tried columns.now.keys columns.now.held columns.now.ended free) }
{
    // Pointer and length are taken apart here: copied together, they would have to wait until the caller has stored both.
    let whole = &frame[0..frame.len()];
    if is_reply(whole) {
        return label_judged(columns, free, label_at(whole));
    }
    check_reply(whole)?;
    // A frame that is no reply was refused, so this is never reached.
    Err(ReplyRefusal::Stray)
}

fn label_judged(columns: &Columns, free: bool, label: ReplyLabel) -> Result<Taking, ReplyRefusal>
    requires { Short (key_in label) }
    ensures { reply_judged result ≡ column_tried columns.now.keys columns.now.held columns.now.ended free label }
{
    let status = label.status;
    let Some(seat) = columns.find(key_number(key_in(label))) else {
        return Err(ReplyRefusal::Stray);
    };
    step(columns.progress(seat), free, status)?;
    Ok(Taking { seat, status })
}

fn grown_seat(seat: Seat, status: u8) -> Seat
    requires { seat.held < most_cells }
    ensures { result ≡ grown seat status }
{
    let p = advanced(progress_of(seat), status);
    Seat {
        held: p.held,
        ended: p.ended,
        ..seat
    }
}
