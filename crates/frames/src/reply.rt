// The static reply: 51 bytes, lead byte DC2.
ghost use Rattle.std.specs.Prelude.{◌≡◌, length, replicate, refl};
ghost use Rattle.std.proofs.Common.{lit<};
ghost use Rattle.std.proofs.lemmas.List.Edits.{sets};
ghost use Rattle.frames.specs.Kind.{Wrote};
ghost use Rattle.frames.specs.inside.Reply as I;
ghost use Rattle.frames.specs.inside.Spoiled.{head_byte, reply_byte};
ghost use Rattle.frames.specs.Status.{is_status, status_found};
ghost use Rattle.frames.specs.Reply.{is_letter, letter_found, is_reply_channel, least_run, reply, ReadAs, CheckedAs};

use crate::fields::{is_address, is_requester, number_or_none, within, wrong_unless};
use crate::head::{CR, head_of, put_head};
use crate::record::{Record, judged, read, write};
use crate::refusals::{ReadRefusal, WriteRefusal};
use crate::spoiled::looked_in;
use crate::timing::{
    RawBytes, Timing, TimingKind, is_raw, kind_of, put_timing, seen_at, spare_at, timing_byte,
    timing_wrong, timing_wrong_at,
};
use digits::{byte_at, in_set, put_all, put_byte, put_number};

pub const REPLY_LEAD: u8 = 18;

pub const REPLY_SIZE: usize = 51;

// Where each field begins.
pub mod field {
    pub const ADDRESS: usize = crate::head::ADDRESS;

    pub const PROGRAM: usize = 3;

    pub const MODE: usize = 4;

    pub const STATUS: usize = 5;

    pub const REQUESTER: usize = 6;

    pub const NUMBER: usize = 7;

    pub const BIB: usize = 12;

    pub const GROUP: usize = 17;

    pub const RUN: usize = 20;

    pub const PHYSICAL: usize = 23;

    pub const CHANNEL: usize = 26;

    pub const INFORMATION: usize = 29;

    pub const TIME: usize = 30;

    pub const DATE: usize = 40;

    // Within the date: month and year of a day, and the days after a net time's sign.
    pub const MONTH: usize = DATE + 2;

    pub const YEAR: usize = DATE + 4;

    pub const DAYS: usize = DATE + 1;

    pub const SPARE: usize = 48;

    pub const END: usize = 50;
}

// R is one record of an answer, E its last one, Z means "not available".
pub const STATUS_R: u8 = b'R';

pub const STATUS_E: u8 = b'E';

pub const STATUS_Z: u8 = b'Z';

// The 33 letters of a reply, as a set for in_set.
const LETTERS_LOW: u64 = 0x3ff_0000_0000_0000;

const LETTERS_HIGH: u64 = 0xa9_0f82_019f_0f82;

// How many letters and how many statuses a reply can have.
pub const LETTERS: usize = 33;

pub const STATUSES: usize = 3;

// The parts before time and date. Address, letters, program and mode are held by their codes.
#[repr(C)]
#[derive(Clone, Copy, Debug, PartialEq, Eq)]
pub struct ReplyHead {
    pub address: u8,
    pub program: u8,
    pub mode: u8,
    pub status: u8,
    pub requester: u8,
    pub number: u32,
    pub bib: u32,
    pub group: u32,
    pub run: u32,
    pub physical: u32,
    pub channel: u32,
    pub information: u8,
}

// Raw time and date are zero if the timing is not raw.
#[derive(Clone, Copy, Debug, PartialEq, Eq)]
pub struct StaticReply {
    pub head: ReplyHead,
    pub timing: Timing,
    pub raw_time: [u8; 10],
    pub raw_date: [u8; 8],
    pub spare: [u8; 2],
}

// Where a good reply belongs, and its status. Address and requester are held by their codes, as in a key.
#[derive(Clone, Copy, Debug, PartialEq, Eq)]
pub struct ReplyLabel {
    pub status: u8,
    pub address: u32,
    pub requester: u32,
    pub number: u32,
}

// The frame is all zero if the record was refused. It stands beside the answer, since an `Err` would have no frame and the promise names one.
#[derive(Clone, Copy, Debug, PartialEq, Eq)]
pub struct ReplyFrame {
    pub answer: Result<(), WriteRefusal>,
    pub frame: [u8; 51],
}

pub fn read_reply(s: &[u8]) -> Result<StaticReply, ReadRefusal>
    ensures { ReadAs s.now result }
{
    read(s)
}

// Like read_reply, for a caller who only needs to know where a reply belongs: no record is made.
#[tactic(auto, using(crate::proofs::ReplyLaws::check_as, crate::proofs::ReplyLaws::check_refused))]
pub fn check_reply(s: &[u8]) -> Result<ReplyLabel, ReadRefusal>
    ensures { CheckedAs s.now result }
{
    head_of(s, REPLY_LEAD, REPLY_SIZE)?;
    let wrong = frame_wrong(s, timing_wrong_at(s, kind_at(s)));
    judged::<StaticReply, ReplyLabel>(
        s,
        ReplyLabel {
            status: byte_at(s, field::STATUS),
            address: byte_at(s, field::ADDRESS) as u32,
            requester: byte_at(s, field::REQUESTER) as u32,
            number: number_or_none(s, field::NUMBER, 5),
        },
        wrong,
    )
}

// Writes the frame to the first 51 bytes of out, or changes nothing.
pub fn write_reply(r: StaticReply, out: &mut [u8]) -> Result<(), WriteRefusal>
    ensures { Wrote reply r out.old result out.new }
{
    write(r, out)
}

// The same for a reply that is held as a value.
pub fn read_reply_value(frame: [u8; 51]) -> Result<StaticReply, ReadRefusal>
    ensures { ReadAs frame result }
{
    read_reply(&frame)
}

pub fn write_reply_value(r: StaticReply) -> ReplyFrame
    ensures { Wrote reply r (replicate 51 0) result.answer result.frame }
{
    let mut frame = [0u8; 51];
    let answer = write_reply(r, &mut frame);
    ReplyFrame { answer, frame }
}

impl StaticReply {
    fn raw(self) -> RawBytes
        ensures { result ≡ I.raw_of self }
    {
        let time = self.raw_time;
        let date = self.raw_date;
        RawBytes { time, date }
    }
}

impl Record for StaticReply {
    ghost kind = { reply };

    ghost LEAD = { 18 };

    ghost SIZE = { 51 };

    const LEAD: u8 = REPLY_LEAD;

    const SIZE: usize = REPLY_SIZE;

    ghost spoils = { λ s wrong. reply_byte (I.kind_at s) s wrong };

    ghost some = { (lit< tt, lit< tt) };

    ghost of_kind = { (refl, refl) };

    #[tactic(auto, using(crate::proofs::ReplyLaws::fields_told, crate::proofs::KindLaws::passed_long))]
    fn held(s: &[u8]) -> (StaticReply, u8) {
        let head = head_at(s);
        let seen = seen_at(s, kind_of(head.status, head.information));
        let raw_time = seen.raw.time;
        let raw_date = seen.raw.date;
        let spare = spare_at(s);
        let r = StaticReply {
            head,
            timing: seen.timing,
            raw_time,
            raw_date,
            spare,
        };
        (r, head_wrong(head, seen.wrong))
    }

    // A field of one byte is its own.
    fn spoiled(s: &[u8], wrong: u8) -> u8 {
        let spoiled = timing_byte(s, kind_at(s), wrong, head_byte(s, wrong));
        looked_in(s, wrong, field::SPARE, b"  ", spoiled)
    }

    #[tactic(auto, using(crate::proofs::ReplyLaws::reply_wrong_is))]
    fn wrong(self) -> u8 {
        let kind = kind_of(self.head.status, self.head.information);
        let wrong = timing_wrong(kind, self.timing, self.raw(), self.spare);
        let wrong = head_wrong(self.head, wrong);
        wrong_unless(is_address(self.head.address), field::ADDRESS, wrong)
    }

    #[tactic(auto, using(crate::proofs::ReplyLaws::reply_stores, crate::proofs::ReplyLaws::length_reply, crate::proofs::ReplyLaws::text_is_frame))]
    fn put(self, out: &mut [u8]) {
        put_reply_head(self.head, out);
        put_timing(self.timing, self.raw(), out);
        put_all(out, field::SPARE, &self.spare);
        put_byte(out, field::END, CR);
    }
}

// The kind of time and date that a frame's status and letter ask for.
fn kind_at(s: &[u8]) -> TimingKind
    ensures { result ≡ I.kind_at s.now }
{
    kind_of(byte_at(s, field::STATUS), byte_at(s, field::INFORMATION))
}

fn head_byte(s: &[u8], wrong: u8) -> u8
    ensures { result ≡ head_byte s.now wrong }
{
    let spoiled = looked_in(s, wrong, field::NUMBER, b"99999", wrong);
    let spoiled = looked_in(s, wrong, field::BIB, b"59999", spoiled);
    let spoiled = looked_in(s, wrong, field::GROUP, b"199", spoiled);
    let spoiled = looked_in(s, wrong, field::RUN, b"299", spoiled);
    let spoiled = looked_in(s, wrong, field::PHYSICAL, b"999", spoiled);
    looked_in(s, wrong, field::CHANNEL, b"299", spoiled)
}

// The parts before time and date as they are in a frame, wrong or not.
fn head_at(s: &[u8]) -> ReplyHead
    requires { length s.now ≡ 51 }
    ensures { result ≡ I.head_at s.now }
{
    // The length is always this one. The test tells the compiler so, and then no byte needs a test of its own.
    if s.len() != REPLY_SIZE {
        unreachable!()
    }
    ReplyHead {
        address: byte_at(s, field::ADDRESS),
        program: byte_at(s, field::PROGRAM),
        mode: byte_at(s, field::MODE),
        status: byte_at(s, field::STATUS),
        requester: byte_at(s, field::REQUESTER),
        number: number_or_none(s, field::NUMBER, 5),
        bib: number_or_none(s, field::BIB, 5),
        group: number_or_none(s, field::GROUP, 3),
        run: number_or_none(s, field::RUN, 3),
        physical: number_or_none(s, field::PHYSICAL, 3),
        channel: number_or_none(s, field::CHANNEL, 3),
        information: byte_at(s, field::INFORMATION),
    }
}

// The offset of the first wrong part from the program to the information; otherwise what `rest` says. The address of a frame was tested before.
#[tactic(auto, unfolding(crate::specs::inside::Reply::head_wrong, crate::specs::Rules::up_to))]
fn head_wrong(h: ReplyHead, rest: u8) -> u8
    ensures { result ≡ I.head_wrong h rest }
{
    let wrong = wrong_unless(is_letter(h.information), field::INFORMATION, rest);
    let wrong = wrong_unless(is_reply_channel(h.channel), field::CHANNEL, wrong);
    let wrong = wrong_unless(h.physical <= 999, field::PHYSICAL, wrong);
    let wrong = wrong_unless(within(least_run(h.status), 250, h.run), field::RUN, wrong);
    let wrong = wrong_unless(h.group <= 199, field::GROUP, wrong);
    let wrong = wrong_unless(h.bib <= 59999, field::BIB, wrong);
    let wrong = wrong_unless(h.number <= 99999, field::NUMBER, wrong);
    let wrong = wrong_unless(is_requester(h.requester), field::REQUESTER, wrong);
    let wrong = wrong_unless(is_status(h.status), field::STATUS, wrong);
    let wrong = wrong_unless(is_raw(h.mode), field::MODE, wrong);
    wrong_unless(is_raw(h.program), field::PROGRAM, wrong)
}

// The same over the bytes of a frame: head_wrong over the record of head_at was slower here.
#[tactic(auto, unfolding(crate::specs::inside::Reply::head_wrong, crate::specs::Rules::up_to))]
fn frame_wrong(s: &[u8], rest: u8) -> u8
    ensures { result ≡ I.head_wrong (I.head_at s.now) rest }
{
    let status = byte_at(s, field::STATUS);
    let run = number_or_none(s, field::RUN, 3);
    let letter = is_letter(byte_at(s, field::INFORMATION));
    let wrong = wrong_unless(letter, field::INFORMATION, rest);
    let channel = is_reply_channel(number_or_none(s, field::CHANNEL, 3));
    let wrong = wrong_unless(channel, field::CHANNEL, wrong);
    let physical = number_or_none(s, field::PHYSICAL, 3);
    let wrong = wrong_unless(physical <= 999, field::PHYSICAL, wrong);
    let wrong = wrong_unless(within(least_run(status), 250, run), field::RUN, wrong);
    let group = number_or_none(s, field::GROUP, 3);
    let wrong = wrong_unless(group <= 199, field::GROUP, wrong);
    let bib = number_or_none(s, field::BIB, 5);
    let wrong = wrong_unless(bib <= 59999, field::BIB, wrong);
    let number = number_or_none(s, field::NUMBER, 5);
    let wrong = wrong_unless(number <= 99999, field::NUMBER, wrong);
    let requester = is_requester(byte_at(s, field::REQUESTER));
    let wrong = wrong_unless(requester, field::REQUESTER, wrong);
    let wrong = wrong_unless(is_status(status), field::STATUS, wrong);
    let mode = is_raw(byte_at(s, field::MODE));
    let wrong = wrong_unless(mode, field::MODE, wrong);
    let program = is_raw(byte_at(s, field::PROGRAM));
    wrong_unless(program, field::PROGRAM, wrong)
}

#[tactic(auto, unfolding(crate::specs::Status::is_status, digits::specs::Text::one_of))]
pub(crate) fn is_status(b: u8) -> bool
    ensures { result ≡ is_status b }
{
    (b == STATUS_R) | (b == STATUS_E) | (b == STATUS_Z)
}

pub(crate) fn is_letter(b: u8) -> bool
    ensures { result ≡ is_letter b }
{
    in_set(LETTERS_LOW, LETTERS_HIGH, b)
}

// The place of a letter among the 33. The compiler makes a table of it; is_letter, which is asked more often, needs none.
#[tactic(auto, unfolding(crate::specs::Reply::is_letter, crate::specs::Reply::letter_place, digits::specs::Text::one_of, digits::specs::Text::place_of))]
pub fn letter_place(letter: u8) -> Option<usize>
    ensures { result ≡ letter_found letter }
{
    match letter {
        b'0' => Some(0),
        b'1' => Some(1),
        b'2' => Some(2),
        b'3' => Some(3),
        b'4' => Some(4),
        b'5' => Some(5),
        b'6' => Some(6),
        b'7' => Some(7),
        b'8' => Some(8),
        b'9' => Some(9),
        b'A' => Some(10),
        b'Q' => Some(11),
        b'P' => Some(12),
        b'a' => Some(13),
        b'S' => Some(14),
        b's' => Some(15),
        b'T' => Some(16),
        b'K' => Some(17),
        b'R' => Some(18),
        b'G' => Some(19),
        b'H' => Some(20),
        b'h' => Some(21),
        b'I' => Some(22),
        b'i' => Some(23),
        b'J' => Some(24),
        b'j' => Some(25),
        b'p' => Some(26),
        b'k' => Some(27),
        b'u' => Some(28),
        b'g' => Some(29),
        b'W' => Some(30),
        b'w' => Some(31),
        b'X' => Some(32),
        _ => None,
    }
}

// The place of a status among the three.
#[tactic(auto, unfolding(crate::specs::Status::is_status, crate::specs::Status::status_place, digits::specs::Text::one_of, digits::specs::Text::place_of))]
pub fn status_place(status: u8) -> Option<usize>
    ensures { result ≡ status_found status }
{
    match status {
        STATUS_R => Some(0),
        STATUS_E => Some(1),
        STATUS_Z => Some(2),
        _ => None,
    }
}

#[tactic(auto, unfolding(crate::specs::Reply::is_reply_channel))]
pub(crate) fn is_reply_channel(v: u32) -> bool
    ensures { result ≡ is_reply_channel v }
{
    (v <= 240) | (v == 245) | (v == 248) | (v == 249) | (v == 250) | (v == 255)
}

#[tactic(auto, unfolding(crate::specs::Reply::least_run))]
pub(crate) fn least_run(status: u8) -> u32
    ensures { result ≡ least_run status }
{
    if status == STATUS_Z { 0 } else { 1 }
}

#[tactic(auto, using(crate::proofs::ReplyLaws::head_stores))]
fn put_reply_head(h: ReplyHead, out: &mut [u8])
    ensures { out.new ≡ sets out.old 0 (I.head_text h) }
{
    put_head(out, REPLY_LEAD, h.address);
    put_byte(out, field::PROGRAM, h.program);
    put_byte(out, field::MODE, h.mode);
    put_byte(out, field::STATUS, h.status);
    put_byte(out, field::REQUESTER, h.requester);
    put_number(out, field::NUMBER, 5, h.number as u64);
    put_number(out, field::BIB, 5, h.bib as u64);
    put_number(out, field::GROUP, 3, h.group as u64);
    put_number(out, field::RUN, 3, h.run as u64);
    put_number(out, field::PHYSICAL, 3, h.physical as u64);
    put_number(out, field::CHANNEL, 3, h.channel as u64);
    put_byte(out, field::INFORMATION, h.information);
}
