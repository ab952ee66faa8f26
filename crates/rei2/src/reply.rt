// The static reply: read from a lent frame, written to lent bytes. Its timing is a code and numbers, since C has no enum that holds values.
ghost use Rattle.std.specs.Prelude.{◌≡◌};
ghost use Rattle.frames.specs.Kind.{read};
ghost use Rattle.frames.specs.Reply.{reply, zero_reply};
ghost use Rattle.rei2.specs.Reply.{numbers_of, timing_of, is_nothing, no_date, left_over, shown, record_of, reply_answer, WroteReplyLent};
ghost use Rattle.rei2.specs.inside.Left.{room_in, or_left};

use crate::request::{WrittenAnswer, not_written, written};
use digits::refusal as table;
use digits::refusal::{Refusal, placed};
use frames::reply::{REPLY_SIZE, ReplyHead, StaticReply, field, read_reply, write_reply};
use frames::timing::Timing;

// The codes of a timing.
const RAW: u32 = 0;

const CLOCK: u32 = 1;

const NET: u32 = 2;

// The offset at which a number left over is reported: that of the CR.
const LEFT_AT: u8 = field::END as u8;

// A timing in numbers: its code; ticks, day, month and year of a clock; the ticks of a net value. What a kind does not use is 0.
#[repr(C)]
#[derive(Clone, Copy)]
pub struct TimingNumbers {
    pub kind: u32,
    pub ticks: u32,
    pub day: u32,
    pub month: u32,
    pub year: u32,
    pub net: i64,
}

#[repr(C)]
#[derive(Clone, Copy)]
pub struct ReplyRecord {
    pub head: ReplyHead,
    pub timing: TimingNumbers,
    pub raw_time: [u8; 10],
    pub raw_date: [u8; 8],
    pub spare: [u8; 2],
}

// The record is all zero if the frame was refused: C has neither Result nor generic structs.
#[repr(C)]
#[derive(Clone, Copy)]
pub struct ReplyAnswer {
    pub refusal: u32,
    pub offset: u32,
    pub spoiled: u32,
    pub reply: ReplyRecord,
}

#[unsafe(no_mangle)]
pub extern "C" fn rei2_read_reply(frame: &[u8]) -> ReplyAnswer
    ensures { result ≡ reply_answer (read reply frame.now) }
{
    match read_reply(frame) {
        Ok(record) => ReplyAnswer {
            refusal: 0,
            offset: 0,
            spoiled: 0,
            reply: shown(record),
        },
        Err(why) => {
            let said = Refusal::from(why);
            ReplyAnswer {
                refusal: said.number,
                offset: said.offset,
                spoiled: said.spoiled,
                reply: no_reply(),
            }
        }
    }
}

#[unsafe(no_mangle)]
pub extern "C" fn rei2_write_reply(record: ReplyRecord, out: &mut [u8]) -> WrittenAnswer
    ensures { WroteReplyLent «record» out.old result out.new }
{
    let timing = record.timing;
    let left = left_over(timing);
    let room = room_in(left, out.len());
    let answer = write_reply(record_of(record), &mut out[..room]);
    or_left(left, written(answer, REPLY_SIZE))
}

// A record with a number left over must not be written. It is tried without room: ROOM then means that nothing else is wrong in it.
fn room_in(left: bool, size: usize) -> usize
    ensures { result ≡ room_in left size }
{
    if left { 0 } else { size }
}

fn or_left(left: bool, answer: WrittenAnswer) -> WrittenAnswer
    ensures { result ≡ or_left left answer }
{
    if left & (answer.refusal == table::ROOM) {
        return not_written(placed(table::RECORD, LEFT_AT));
    }
    answer
}

// The record that comes with a refusal. It is made here, since a copy of the reader's record would have to wait until that is stored.
fn no_reply() -> ReplyRecord
    ensures { result ≡ shown zero_reply }
{
    ReplyRecord {
        head: ReplyHead {
            address: 0,
            program: 0,
            mode: 0,
            status: 0,
            requester: 0,
            number: 0,
            bib: 0,
            group: 0,
            run: 0,
            physical: 0,
            channel: 0,
            information: 0,
        },
        timing: TimingNumbers {
            kind: RAW,
            ticks: 0,
            day: 0,
            month: 0,
            year: 0,
            net: 0,
        },
        raw_time: [0; 10],
        raw_date: [0; 8],
        spare: [0; 2],
    }
}

// ---- the timing in numbers, and back

fn numbers_of(timing: Timing) -> TimingNumbers
    ensures { result ≡ numbers_of timing }
{
    match timing {
        Timing::Clock {
            ticks,
            day,
            month,
            year,
        } => TimingNumbers {
            kind: CLOCK,
            ticks,
            day,
            month,
            year,
            net: 0,
        },
        Timing::Net(net) => TimingNumbers {
            kind: NET,
            ticks: 0,
            day: 0,
            month: 0,
            year: 0,
            net,
        },
        Timing::Raw => TimingNumbers {
            kind: RAW,
            ticks: 0,
            day: 0,
            month: 0,
            year: 0,
            net: 0,
        },
    }
}

// A code that is none of the three becomes a time that is none. Every kind refuses it, at the time's offset.
fn timing_of(n: TimingNumbers) -> Timing
    ensures { result ≡ timing_of n }
{
    match n.kind {
        RAW => Timing::Raw,
        CLOCK => Timing::Clock {
            ticks: n.ticks,
            day: n.day,
            month: n.month,
            year: n.year,
        },
        NET => Timing::Net(n.net),
        _ => Timing::Clock {
            ticks: u32::MAX,
            day: 0,
            month: 0,
            year: 0,
        },
    }
}

// Whether a number that the timing does not use is not 0.
fn left_over(n: TimingNumbers) -> bool
    ensures { result ≡ left_over n }
{
    let nothing = is_nothing(n.net);
    let dateless = no_date(n);
    match n.kind {
        CLOCK => !nothing,
        NET => !dateless,
        _ => !(nothing & dateless),
    }
}

fn is_nothing(v: i64) -> bool
    ensures { result ≡ is_nothing v }
{
    v == 0
}

fn no_date(n: TimingNumbers) -> bool
    ensures { result ≡ no_date n }
{
    (n.ticks == 0) & (n.day == 0) & (n.month == 0) & (n.year == 0)
}

// ---- the record in its form for C, and back

fn shown(r: StaticReply) -> ReplyRecord
    ensures { result ≡ shown r }
{
    let head = r.head;
    let timing = r.timing;
    let raw_time = r.raw_time;
    let raw_date = r.raw_date;
    let spare = r.spare;
    ReplyRecord {
        head,
        timing: numbers_of(timing),
        raw_time,
        raw_date,
        spare,
    }
}

fn record_of(r: ReplyRecord) -> StaticReply
    ensures { result ≡ record_of r }
{
    let head = r.head;
    let timing = r.timing;
    let raw_time = r.raw_time;
    let raw_date = r.raw_date;
    let spare = r.spare;
    StaticReply {
        head,
        timing: timing_of(timing),
        raw_time,
        raw_date,
        spare,
    }
}
