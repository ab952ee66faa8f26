// Time and date of a reply, by their kind.
ghost use Rattle.std.specs.Prelude.{◌≡◌, ◌+◌, ◌<◌, get_or};
ghost use Rattle.std.proofs.lemmas.List.Edits.{sets};
ghost use Rattle.frames.specs.Rules.{is_raw};
ghost use Rattle.frames.specs.Timing as T;
ghost use Rattle.frames.specs.Shape as S;
ghost use Rattle.frames.specs.inside.Timing as I;
ghost use Rattle.frames.specs.inside.Spoiled as B;

use crate::fields::{clock_or_none, number_or_none, wrong_unless};
use crate::reply::{STATUS_Z, field};
use crate::runs::{all_in, bytes_at};
use crate::spoiled::{TIME_CLASSES, looked_in};
use digits::{byte_at, put_all, put_byte, put_number};
use times::clock::{LAST_TICK, put_clock};
use times::day::is_day;
use times::net::{NetParts, is_net, net_parts, net_value};

const PLUS: u8 = b'+';

const MINUS: u8 = b'-';

#[derive(Clone, Copy, Debug, PartialEq, Eq)]
pub enum TimingKind {
    Clock,
    Net,
    Raw,
}

// A time of day in ticks with a day; a net value in ticks; or raw. Raw bytes are in fields of StaticReply, which the promises of its calls name.
#[derive(Clone, Copy, Debug, PartialEq, Eq)]
pub enum Timing {
    Clock {
        ticks: u32,
        day: u32,
        month: u32,
        year: u32,
    },
    Net(i64),
    Raw,
}

#[tactic(auto, unfolding(crate::specs::Timing::timing_kind, crate::specs::Status::is_z, digits::specs::Text::one_of))]
pub(crate) fn kind_of(status: u8, letter: u8) -> TimingKind
    ensures { result ≡ T.timing_kind status letter }
{
    if status == STATUS_Z {
        return TimingKind::Raw;
    }
    match letter {
        b'0' | b'K' | b'S' | b's' | b'a' => TimingKind::Clock,
        b'1' | b'2' | b'3' => TimingKind::Net,
        _ => TimingKind::Raw,
    }
}

#[tactic(auto, unfolding(crate::specs::Rules::is_raw, crate::specs::Rules::between))]
pub(crate) fn is_raw(b: u8) -> bool
    ensures { result ≡ is_raw b }
{
    (32 <= b) & (b <= 126)
}

// ---- the bytes of a raw time and date

// They are all zero if the timing is not raw.
#[derive(Clone, Copy)]
pub(crate) struct RawBytes {
    pub(crate) time: [u8; 10],
    pub(crate) date: [u8; 8],
}

const UNUSED: RawBytes = RawBytes {
    time: [0; 10],
    date: [0; 8],
};

impl RawBytes {
    fn read(s: &[u8]) -> RawBytes
        ensures { result ≡ I.raw_at s.now }
    {
        RawBytes {
            time: bytes_at(s, field::TIME),
            date: bytes_at(s, field::DATE),
        }
    }

    fn unused_wrong(self) -> u8
        ensures { result ≡ I.unused_wrong self.time self.date }
    {
        let time = all_in(&self.time, |b| b == 0);
        let date = all_in(&self.date, |b| b == 0);
        wrong_unless(time & date, field::END, 0)
    }

    fn wrong(self, rest: u8) -> u8
        ensures { result ≡ I.raw_wrong self.time self.date rest }
    {
        let wrong = wrong_unless(all_in(&self.date, is_raw), field::DATE, rest);
        wrong_unless(all_in(&self.time, is_raw), field::TIME, wrong)
    }

    fn put(self, out: &mut [u8])
        ensures { out.new ≡ sets out.old 30 (I.raw_text self.time self.date) }
    {
        put_all(out, field::TIME, &self.time);
        put_all(out, field::DATE, &self.date);
    }
}

// ---- the parts of time and date, one by one

// The offset of the two spare bytes if they are wrong, and otherwise what `rest` says.
pub(crate) fn spare_wrong(spare: [u8; 2], rest: u8) -> u8
    ensures { result ≡ I.spare_wrong spare rest }
{
    wrong_unless(all_in(&spare, is_raw), field::SPARE, rest)
}

#[tactic(auto, unfolding(crate::specs::inside::Timing::clock_wrong))]
pub(crate) fn clock_wrong(ticks: u32, day: u32, month: u32, year: u32, rest: u8) -> u8
    ensures { result ≡ I.clock_wrong ticks day month year rest }
{
    let wrong = wrong_unless(is_day(day, month, year), field::DATE, rest);
    wrong_unless(ticks <= LAST_TICK, field::TIME, wrong)
}

#[tactic(auto, unfolding(crate::specs::Timing::is_sign, digits::specs::Text::one_of))]
pub(crate) fn is_sign(b: u8) -> bool
    ensures { result ≡ T.is_sign b }
{
    (b == PLUS) | (b == MINUS)
}

#[tactic(auto, unfolding(crate::specs::inside::Timing::net_wrong))]
pub(crate) fn net_wrong(time: u32, sign: u8, days: u64, rest: u8) -> u8
    ensures { result ≡ I.net_wrong time sign days rest }
{
    let parts = NetParts {
        minus: sign == MINUS,
        days,
        time,
    };
    let wrong = wrong_unless(is_sign(sign) & is_net(parts), field::DATE, rest);
    wrong_unless(time <= LAST_TICK, field::TIME, wrong)
}

// ---- a record's timing, compared with the kind that is asked for

// A timing of another kind is reported at the offset of the time.
const OTHER_KIND: u8 = field::TIME as u8;

// The offset of the first wrong part of time, date and spare, or 0 if none is wrong.
pub(crate) fn timing_wrong(kind: TimingKind, timing: Timing, raw: RawBytes, spare: [u8; 2]) -> u8
    ensures { result ≡ I.timing_wrong kind timing raw.time raw.date spare }
{
    match (kind, timing) {
        (
            TimingKind::Clock,
            Timing::Clock {
                ticks,
                day,
                month,
                year,
            },
        ) => clock_wrong(
            ticks,
            day,
            month,
            year,
            spare_wrong(spare, raw.unused_wrong()),
        ),
        (TimingKind::Net, Timing::Net(value)) => {
            net_value_wrong(value, spare_wrong(spare, raw.unused_wrong()))
        }
        (TimingKind::Raw, Timing::Raw) => raw.wrong(spare_wrong(spare, 0)),
        _ => OTHER_KIND,
    }
}

#[tactic(auto, unfolding(crate::specs::inside::Timing::net_value_wrong))]
fn net_value_wrong(value: i64, rest: u8) -> u8
    ensures { result ≡ I.net_value_wrong value rest }
{
    let parts = net_parts(value);
    net_wrong(parts.time, sign_of(parts.minus), parts.days, rest)
}

fn sign_of(minus: bool) -> u8
    ensures { result ≡ T.sign_of minus }
{
    if minus { MINUS } else { PLUS }
}

// ---- a frame's time and date: what they hold, wrong or not, and the offset of the first wrong part

#[derive(Clone, Copy)]
pub(crate) struct Seen {
    pub(crate) timing: Timing,
    pub(crate) raw: RawBytes,
    pub(crate) wrong: u8,
}

pub(crate) fn seen_at(s: &[u8], kind: TimingKind) -> Seen
    ensures { result ≡ I.seen_of kind s.now }
{
    match kind {
        TimingKind::Clock => seen_clock(s),
        TimingKind::Net => seen_net(s),
        TimingKind::Raw => seen_raw(s),
    }
}

// Only the offset of the first wrong part. Like frame_wrong of reply, this is apart so that seen_at has one caller, which takes it in.
#[tactic(auto, unfolding(crate::specs::inside::Timing::seen_clock, crate::specs::inside::Timing::seen_net, crate::specs::inside::Timing::seen_raw))]
pub(crate) fn timing_wrong_at(s: &[u8], kind: TimingKind) -> u8
    ensures { result ≡ (I.seen_of kind s.now).wrong }
{
    let rest = spare_wrong(spare_at(s), 0);
    match kind {
        TimingKind::Clock => clock_wrong(
            clock_or_none(s, field::TIME),
            number_or_none(s, field::DATE, 2),
            number_or_none(s, field::MONTH, 2),
            number_or_none(s, field::YEAR, 4),
            rest,
        ),
        TimingKind::Net => net_wrong(
            clock_or_none(s, field::TIME),
            byte_at(s, field::DATE),
            number_or_none(s, field::DAYS, 7) as u64,
            rest,
        ),
        TimingKind::Raw => RawBytes::read(s).wrong(rest),
    }
}

// The byte that spoils time or date, if one of them is the wrong field; otherwise what is known already.
pub(crate) fn timing_byte(s: &[u8], kind: TimingKind, wrong: u8, known: u8) -> u8
    ensures { result ≡ B.timing_byte kind s.now wrong known }
{
    match kind {
        TimingKind::Clock => {
            let spoiled = looked_in(s, wrong, field::TIME, &TIME_CLASSES, known);
            looked_in(s, wrong, field::DATE, b"3919=099", spoiled)
        }
        TimingKind::Net => {
            let spoiled = looked_in(s, wrong, field::TIME, &TIME_CLASSES, known);
            looked_in(s, wrong, field::DATE, b"+9999999", spoiled)
        }
        TimingKind::Raw => {
            let spoiled = looked_in(s, wrong, field::TIME, b"          ", known);
            looked_in(s, wrong, field::DATE, b"        ", spoiled)
        }
    }
}

#[tactic(auto, unfolding(crate::specs::inside::Timing::seen_clock))]
fn seen_clock(s: &[u8]) -> Seen
    ensures { result ≡ I.seen_clock s.now }
{
    let ticks = clock_or_none(s, field::TIME);
    let day = number_or_none(s, field::DATE, 2);
    let month = number_or_none(s, field::MONTH, 2);
    let year = number_or_none(s, field::YEAR, 4);
    let wrong = clock_wrong(ticks, day, month, year, spare_wrong(spare_at(s), 0));
    Seen {
        timing: Timing::Clock {
            ticks,
            day,
            month,
            year,
        },
        raw: UNUSED,
        wrong,
    }
}

#[tactic(auto, unfolding(crate::specs::inside::Timing::seen_net))]
fn seen_net(s: &[u8]) -> Seen
    ensures { result ≡ I.seen_net s.now }
{
    let time = clock_or_none(s, field::TIME);
    let sign = byte_at(s, field::DATE);
    let days = number_or_none(s, field::DAYS, 7) as u64;
    let wrong = net_wrong(time, sign, days, spare_wrong(spare_at(s), 0));
    let parts = NetParts {
        minus: sign == MINUS,
        days,
        time,
    };
    Seen {
        timing: net_timing(parts),
        raw: UNUSED,
        wrong,
    }
}

// If the parts are no net time, the reply is refused, whatever this returns.
fn net_timing(parts: NetParts) -> Timing
    ensures { result ≡ I.net_timing parts }
{
    match net_value(parts) {
        Some(value) => Timing::Net(value),
        None => Timing::Raw,
    }
}

#[tactic(auto, unfolding(crate::specs::inside::Timing::seen_raw))]
fn seen_raw(s: &[u8]) -> Seen
    ensures { result ≡ I.seen_raw s.now }
{
    let raw = RawBytes::read(s);
    Seen {
        timing: Timing::Raw,
        raw,
        wrong: raw.wrong(spare_wrong(spare_at(s), 0)),
    }
}

pub(crate) fn spare_at(s: &[u8]) -> [u8; 2]
    ensures { result ≡ S.bytes_of s.now 48 2 }
{
    bytes_at(s, field::SPARE)
}

// ---- storing time and date

pub(crate) fn put_timing(timing: Timing, raw: RawBytes, out: &mut [u8])
    ensures { out.new ≡ sets out.old 30 (I.timing_text timing raw.time raw.date) }
{
    match timing {
        Timing::Clock {
            ticks,
            day,
            month,
            year,
        } => put_clock_timing(ticks, day, month, year, out),
        Timing::Net(value) => put_net(value, out),
        Timing::Raw => raw.put(out),
    }
}

#[tactic(auto, using(crate::proofs::TimingLaws::clock_stores))]
fn put_clock_timing(ticks: u32, day: u32, month: u32, year: u32, out: &mut [u8])
    ensures { out.new ≡ sets out.old 30 (I.clock_text ticks day month year) }
{
    put_clock(out, field::TIME, ticks);
    put_number(out, field::DATE, 2, day as u64);
    put_number(out, field::MONTH, 2, month as u64);
    put_number(out, field::YEAR, 4, year as u64);
}

#[tactic(auto, using(crate::proofs::TimingLaws::net_stores))]
fn put_net(value: i64, out: &mut [u8])
    ensures { out.new ≡ sets out.old 30 (I.net_text value) }
{
    let parts = net_parts(value);
    put_clock(out, field::TIME, parts.time);
    put_byte(out, field::DATE, sign_of(parts.minus));
    put_number(out, field::DAYS, 7, parts.days);
}
