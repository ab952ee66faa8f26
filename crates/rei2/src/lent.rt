// The desk's calls on a row that a host lends: the row is loaded, the call by value is made, and what it changed is stored back: the
// whole row, or one seat.
ghost use Rattle.std.specs.Prelude.{◌≡◌, ◌<◌, ◌^◌, IfSome};
ghost use Rattle.digits.specs.Told.{gives, refuses};
ghost use Rattle.desk.specs.Calls.{row_with};
ghost use Rattle.rei2.specs.inside.Place.{place_in};
ghost use Rattle.rei2.specs.Lent.{desk_answer, capture_answer, ResetLent, OpenLent, ReplyLent, CaptureLent};

use desk::capture::{Counts, take_capture};
use desk::done::Change;
use desk::limits::SEATS;
use desk::opening::open_step;
use desk::reply::reply_step;
use desk::state::{Desk, Seat, reset};
use digits::refusal as table;
use digits::refusal::{Refusal, plain};
use frames::reply::{LETTERS, STATUSES};

// C has no Result: the state after the call; the refusal by its number, 0 if the call was done, its offset, and the offset of the spoiled byte; the seat, 0 if the call was refused.
#[repr(C)]
#[derive(Clone, Copy)]
pub struct DeskAnswer {
    pub desk: Desk,
    pub refusal: u32,
    pub offset: u32,
    pub spoiled: u32,
    pub seat: u32,
}

// The state after the call, the refusal, and what became of the frames of the capture: all counts are 0 if the call was refused.
#[repr(C)]
#[derive(Clone, Copy)]
pub struct CapturedAnswer {
    pub desk: Desk,
    pub refusal: u32,
    pub counts: Counts,
}

// ---- answers in numbers

// Done, with this seat.
fn done(desk: Desk, seat: u32) -> DeskAnswer
    ensures { result ≡ desk_answer desk (gives seat) }
{
    DeskAnswer {
        desk,
        refusal: 0,
        offset: 0,
        spoiled: 0,
        seat,
    }
}

fn refused(desk: Desk, why: Refusal) -> DeskAnswer
    ensures { result ≡ desk_answer desk (refuses why) }
{
    DeskAnswer {
        desk,
        refusal: why.number,
        offset: why.offset,
        spoiled: why.spoiled,
        seat: 0,
    }
}

fn not_captured(desk: Desk, why: Refusal) -> CapturedAnswer
    ensures { result ≡ capture_answer desk (refuses why) }
{
    CapturedAnswer {
        desk,
        refusal: why.number,
        counts: Counts {
            opened: 0,
            collected: 0,
            dynamic: 0,
            refused: 0,
        },
    }
}

// Stores the seat that a call changed, if it changed one.
fn put_changed(s: &mut [Seat], changed: Option<Change>)
    ensures { s.new ≡ row_with s.old changed }
{
    if let Some(change) = changed {
        if change.at < s.len() {
            s[change.at] = change.seat;
        }
    }
}

// The seat by its place: the number within the answer would have to be copied out of memory that was just stored.
fn seat_of(changed: Option<Change>) -> u32
    requires { IfSome changed (λ c. c.at < 2 ^ 32) }
    ensures { result ≡ place_in changed }
{
    match changed {
        Some(change) => change.at as u32,
        None => 0,
    }
}

// ---- the calls. A row that does not have SEATS seats is no desk.

#[unsafe(no_mangle)]
pub extern "C" fn rei2_reset(
    seats: &mut [Seat],
    desk: Desk,
    tally: &mut [[u32; STATUSES]; LETTERS],
) -> DeskAnswer
    ensures { ResetLent seats.old desk tally.old result seats.new tally.new }
{
    // One answer for both cases: with one each, it was stored in other pieces than those in which it is read.
    let (after, refusal) = if seats.len() == SEATS {
        let emptied = reset(tally);
        seats.copy_from_slice(&emptied.row);
        (emptied.desk, 0)
    } else {
        (desk, table::DESK)
    };
    DeskAnswer {
        desk: after,
        refusal,
        offset: 0,
        spoiled: 0,
        seat: 0,
    }
}

#[unsafe(no_mangle)]
pub extern "C" fn rei2_open(
    seats: &mut [Seat],
    desk: Desk,
    cells: &[u8],
    marks: &[u32],
    tally: &[[u32; STATUSES]; LETTERS],
    frame: &[u8],
) -> DeskAnswer
    ensures { OpenLent seats.old desk cells.now marks.now tally.now frame.now result seats.new }
{
    let Ok(row) = <&[Seat; SEATS]>::try_from(&*seats) else {
        return refused(desk, plain(table::DESK));
    };
    let opened = open_step(desk, *row, cells, marks, tally, frame);
    put_changed(seats, opened.changed);
    match opened.answer {
        Ok(_) => done(opened.desk, seat_of(opened.changed)),
        Err(why) => refused(opened.desk, Refusal::from(why)),
    }
}

#[unsafe(no_mangle)]
pub extern "C" fn rei2_reply(
    seats: &mut [Seat],
    desk: Desk,
    cells: &mut [u8],
    marks: &mut [u32],
    tally: &mut [[u32; STATUSES]; LETTERS],
    frame: &[u8],
) -> DeskAnswer
    ensures { ReplyLent seats.old desk cells.old marks.old tally.old frame.now result seats.new cells.new marks.new tally.new }
{
    let Ok(row) = <&[Seat; SEATS]>::try_from(&*seats) else {
        return refused(desk, plain(table::DESK));
    };
    let taken = reply_step(desk, *row, cells, marks, tally, frame);
    put_changed(seats, taken.changed);
    match taken.answer {
        Ok(_) => done(taken.desk, seat_of(taken.changed)),
        Err(why) => refused(taken.desk, Refusal::from(why)),
    }
}

#[unsafe(no_mangle)]
pub extern "C" fn rei2_capture(
    seats: &mut [Seat],
    desk: Desk,
    cells: &mut [u8],
    marks: &mut [u32],
    tally: &mut [[u32; STATUSES]; LETTERS],
    capture: &[u8],
) -> CapturedAnswer
    ensures { CaptureLent seats.old desk cells.old marks.old tally.old capture.now result seats.new cells.new marks.new tally.new }
{
    let Ok(row) = <&[Seat; SEATS]>::try_from(&*seats) else {
        return not_captured(desk, plain(table::DESK));
    };
    let taken = take_capture(desk, *row, cells, marks, tally, capture);
    seats.copy_from_slice(&taken.row);
    match taken.answer {
        Ok(counts) => CapturedAnswer {
            desk: taken.desk,
            refusal: 0,
            counts,
        },
        Err(why) => not_captured(taken.desk, Refusal::from(why)),
    }
}
