// A whole capture at once: the desk is tested once, and each frame goes to the call of its lead byte.
ghost use Rattle.std.specs.Prelude.{◌≡◌, true, ◌+◌, ◌<◌};
ghost use Rattle.frames.specs.Kind.{read};
ghost use Rattle.frames.specs.Dynamic.{dynamic};
ghost use Rattle.desk.specs.Memory.{memory};
ghost use Rattle.desk.specs.Desk.{is_desk};
ghost use Rattle.desk.specs.Calls.{replies};
ghost use Rattle.desk.specs.Capture.{dynamic_fate, meets, capture_refused, TookCapture};
ghost use Rattle.desk.specs.inside.Shown.{shown};
ghost use Rattle.desk.specs.inside.Counting.{one_more, Meets, MeetsBy, OnDesk, MeetsRequest};
ghost use Rattle.desk.specs.declared.capture.Fate.TheVariants.{Collected};

use crate::clauses::shows_desk;
use crate::columns::Columns;
use crate::done::Done;
use crate::limits::SEATS;
use crate::opening::{judged as opening_judged, opened_state};
use crate::reply::{judged as reply_judged, put_reply};
use crate::state::{Desk, Seat, capacity};
use crate::step::{Progress, advanced};
use crate::tally::count_one;
use digits::refusal::{Refusal, plain};
use digits::{byte_at, refusal as table};
use finder::{Cursor, Found, next};
use frames::dynamic::read_dynamic;
use frames::reply::{LETTERS, REPLY_LEAD, STATUSES, field};
use frames::request::REQUEST_LEAD;

// What becomes of a frame.
#[derive(Clone, Copy, Debug, PartialEq, Eq)]
pub enum Fate {
    Opened,
    Collected,
    Dynamic,
    Refused,
}

// Requests opened, replies collected, dynamic requests, frames refused.
#[repr(C)]
#[derive(Clone, Copy, Debug, Default, PartialEq, Eq)]
pub struct Counts {
    pub opened: usize,
    pub collected: usize,
    pub dynamic: usize,
    pub refused: usize,
}

// State and memory are not a desk.
#[derive(Clone, Copy, Debug, PartialEq, Eq)]
pub enum CaptureRefusal {
    Desk,
}

impl From<CaptureRefusal> for Refusal {
    ghost from_gives = { λ refusal f. f ≡ capture_refused refusal };

    fn from(refusal: CaptureRefusal) -> Refusal {
        match refusal {
            CaptureRefusal::Desk => plain(table::DESK),
        }
    }
}

impl Counts {
    fn count(&mut self, fate: Fate)
        requires { self.old.opened + self.old.collected + self.old.dynamic + self.old.refused < 18446744073709551615 }
        ensures { self.new ≡ one_more self.old fate }
    {
        match fate {
            Fate::Opened => self.opened += 1,
            Fate::Collected => self.collected += 1,
            Fate::Dynamic => self.dynamic += 1,
            Fate::Refused => self.refused += 1,
        }
    }
}

// Takes the frames of a capture one after the other. Cells, marks and tally change as by one call for each frame. They stay side by side, as the
// C interface lends them (rei2_capture).
pub fn take_capture(
    desk: Desk,
    row: [Seat; SEATS],
    cells: &mut [u8],
    marks: &mut [u32],
    tally: &mut [[u32; STATUSES]; LETTERS],
    capture: &[u8],
) -> Done<Result<Counts, CaptureRefusal>>
    ensures { TookCapture (memory desk row cells.old marks.old tally.old) capture.now result.answer (memory result.desk result.row cells.new marks.new tally.new) }
{
    let mut columns = Columns::new();
    if !shows_desk(&mut columns, desk, &row, cells, marks, tally) {
        return Done {
            answer: Err(CaptureRefusal::Desk),
            desk,
            row,
        }
    };
    let mut desk = desk;
    let mut counts = Counts::default();
    let mut at = 0;
    while let Some(found) = next(capture, Cursor { at }) {
        match found {
            Found::Cut { start: _, next } => {
                counts.count(Fate::Refused);
                at = next.at;
            }
            Found::Whole { start, end, next } => {
                let frame = &capture[start..end];
                let fate = meet(&mut desk, &mut columns, cells, marks, tally, frame);
                counts.count(fate);
                at = next.at;
            }
        }
    }
    Done {
        answer: Ok(counts),
        desk,
        row: columns.row(),
    }
}

// A frame goes to the call of its lead byte. The columns show the seats before and after.
fn meet(
    desk: &mut Desk,
    columns: &mut Columns,
    cells: &mut [u8],
    marks: &mut [u32],
    tally: &mut [[u32; STATUSES]; LETTERS],
    frame: &[u8],
) -> Fate
    requires { is_desk (memory desk.old (shown columns.old) cells.old marks.old tally.old) ≡ true }
    ensures { Meets (meets (memory desk.old (shown columns.old) cells.old marks.old tally.old) frame.now) result (memory desk.new (shown columns.new) cells.new marks.new tally.new) }
{
    let lead = byte_at(frame, 0);
    if lead == REQUEST_LEAD {
        return meet_request(desk, columns, frame);
    }
    if lead == REPLY_LEAD {
        return meet_reply(desk, columns, cells, marks, tally, frame);
    }
    dynamic_fate(frame)
}

// A static request: if it is opened, its seat gets the key.
fn meet_request(desk: &mut Desk, columns: &mut Columns, frame: &[u8]) -> Fate
    requires { OnDesk desk.old columns.old }
    ensures { MeetsRequest desk.old columns.old frame.now result desk.new columns.new }
{
    match opening_judged(columns, desk.bits, frame) {
        Ok(opening) => {
            let at = opening.seat;
            columns.set_key(at, opening.key);
            *desk = opened_state(*desk, at);
            Fate::Opened
        }
        Err(_) => Fate::Refused,
    }
}

// A reply: if it is taken, it is stored, and its seat holds one more record.
fn meet_reply(
    desk: &mut Desk,
    columns: &mut Columns,
    cells: &mut [u8],
    marks: &mut [u32],
    tally: &mut [[u32; STATUSES]; LETTERS],
    frame: &[u8],
) -> Fate
    requires { is_desk (memory desk.old (shown columns.old) cells.old marks.old tally.old) ≡ true }
    ensures { MeetsBy Collected (replies (memory desk.old (shown columns.old) cells.old marks.old tally.old) frame.now) result (memory desk.new (shown columns.new) cells.new marks.new tally.new) }
{
    let free = (desk.count as usize) < capacity(cells.len(), marks.len());
    match reply_judged(columns, free, frame) {
        Ok(taking) => {
            let at = taking.seat;
            let p = advanced(columns.progress(at), taking.status);
            columns.set_progress(at, p);
            count_one(tally, byte_at(frame, field::INFORMATION), taking.status);
            *desk = put_reply(*desk, at, cells, marks, frame);
            Fate::Collected
        }
        Err(_) => Fate::Refused,
    }
}

fn dynamic_fate(frame: &[u8]) -> Fate
    ensures { result ≡ dynamic_fate (read dynamic frame.now) }
{
    match read_dynamic(frame) {
        Ok(_) => Fate::Dynamic,
        Err(_) => Fate::Refused,
    }
}
