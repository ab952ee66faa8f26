// The dynamic request: 46 bytes, lead byte DC3.
ghost use Rattle.std.specs.Prelude.{◌≡◌, refl};
ghost use Rattle.std.proofs.Common.{lit<};
ghost use Rattle.frames.specs.Kind.{Wrote};
ghost use Rattle.frames.specs.inside.Held.{dynamic_at};
ghost use Rattle.frames.specs.inside.Spoiled.{dynamic_byte};
ghost use Rattle.frames.specs.Dynamic.{is_order, is_dynamic_channel, least_period, dynamic, DynamicAs};

use crate::fields::{
    clock_or_none, is_address, is_output, is_requester, number_or_none, within, wrong_unless,
};
use crate::head::{CR, put_head};
use crate::record::{Record, read, write};
use crate::refusals::{ReadRefusal, WriteRefusal};
use crate::spoiled::{TIME_CLASSES, looked_in};
use digits::{byte_at, put_byte, put_number};
use times::clock::{LAST_TICK, put_clock};

pub const DYNAMIC_LEAD: u8 = 19;

pub const DYNAMIC_SIZE: usize = 46;

// Where each field begins.
pub mod field {
    pub const ADDRESS: usize = crate::head::ADDRESS;

    pub const REQUESTER: usize = 3;

    pub const ORDER: usize = 4;

    pub const BIB: usize = 5;

    pub const CHANNEL: usize = 10;

    pub const RUN: usize = 13;

    pub const STOP_BIB: usize = 16;

    pub const STOP_CHANNEL: usize = 21;

    pub const STOP_RUN: usize = 24;

    pub const SIGN: usize = 27;

    pub const TIME: usize = 28;

    pub const DAYS: usize = 38;

    pub const PERIOD: usize = 39;

    pub const OUTPUT: usize = 44;

    pub const END: usize = 45;
}

// Address and letters by their codes. Sign, time in ticks and days are those of Taux; the sign is kept if time and days are zero.
#[repr(C)]
#[derive(Clone, Copy, Debug, PartialEq, Eq)]
pub struct DynamicRequest {
    pub address: u8,
    pub requester: u8,
    pub order: u8,
    pub bib: u32,
    pub channel: u32,
    pub run: u32,
    pub stop_bib: u32,
    pub stop_channel: u32,
    pub stop_run: u32,
    pub sign: u32,
    pub time: u32,
    pub days: u32,
    pub period: u32,
    pub output: u8,
}

pub fn read_dynamic(s: &[u8]) -> Result<DynamicRequest, ReadRefusal>
    ensures { DynamicAs s.now result }
{
    read(s)
}

// Writes the frame to the first 46 bytes of out, or changes nothing.
pub fn write_dynamic(r: DynamicRequest, out: &mut [u8]) -> Result<(), WriteRefusal>
    ensures { Wrote dynamic r out.old result out.new }
{
    write(r, out)
}

impl Record for DynamicRequest {
    ghost kind = { dynamic };

    ghost LEAD = { 19 };

    ghost SIZE = { 46 };

    const LEAD: u8 = DYNAMIC_LEAD;

    const SIZE: usize = DYNAMIC_SIZE;

    ghost spoils = { dynamic_byte };

    ghost some = { (lit< tt, lit< tt) };

    ghost of_kind = { (refl, refl) };

    #[tactic(auto, using(crate::proofs::DynamicLaws::dynamic_reads))]
    fn held(s: &[u8]) -> (DynamicRequest, u8) {
        let r = dynamic_at(s);
        (r, r.wrong())
    }

    // A field of one byte is its own.
    fn spoiled(s: &[u8], wrong: u8) -> u8 {
        let spoiled = looked_in(s, wrong, field::BIB, b"69999", wrong);
        let spoiled = looked_in(s, wrong, field::CHANNEL, b"299", spoiled);
        let spoiled = looked_in(s, wrong, field::RUN, b"299", spoiled);
        let spoiled = looked_in(s, wrong, field::STOP_BIB, b"69999", spoiled);
        let spoiled = looked_in(s, wrong, field::STOP_CHANNEL, b"299", spoiled);
        let spoiled = looked_in(s, wrong, field::STOP_RUN, b"299", spoiled);
        let spoiled = looked_in(s, wrong, field::TIME, &TIME_CLASSES, spoiled);
        looked_in(s, wrong, field::PERIOD, b"99999", spoiled)
    }

    #[tactic(auto, unfolding(crate::specs::Kind::wrong_in, crate::specs::Dynamic::dynamic_fields, crate::specs::Layout::record_wrong, crate::specs::Rules::up_to))]
    fn wrong(self) -> u8 {
        let wrong = wrong_unless(is_output(self.output), field::OUTPUT, 0);
        let wrong = wrong_unless(
            within(least_period(self.order), 99_999, self.period),
            field::PERIOD,
            wrong,
        );
        let wrong = wrong_unless(self.days <= 9, field::DAYS, wrong);
        let wrong = wrong_unless(self.time <= LAST_TICK, field::TIME, wrong);
        let wrong = wrong_unless(self.sign <= 1, field::SIGN, wrong);
        let wrong = wrong_unless(self.stop_run <= 250, field::STOP_RUN, wrong);
        let wrong = wrong_unless(
            is_dynamic_channel(self.stop_channel),
            field::STOP_CHANNEL,
            wrong,
        );
        let wrong = wrong_unless(within(1, 60_000, self.stop_bib), field::STOP_BIB, wrong);
        let wrong = wrong_unless(self.run <= 250, field::RUN, wrong);
        let wrong = wrong_unless(is_dynamic_channel(self.channel), field::CHANNEL, wrong);
        let wrong = wrong_unless(self.bib <= 60_000, field::BIB, wrong);
        let wrong = wrong_unless(is_order(self.order), field::ORDER, wrong);
        let wrong = wrong_unless(is_requester(self.requester), field::REQUESTER, wrong);
        wrong_unless(is_address(self.address), field::ADDRESS, wrong)
    }

    #[tactic(auto, using(crate::proofs::DynamicLaws::stores_frame, crate::proofs::DynamicLaws::length_dynamic), unfolding(crate::specs::Kind::frame_of))]
    fn put(self, out: &mut [u8]) {
        put_head(out, DYNAMIC_LEAD, self.address);
        put_byte(out, field::REQUESTER, self.requester);
        put_byte(out, field::ORDER, self.order);
        put_number(out, field::BIB, 5, self.bib as u64);
        put_number(out, field::CHANNEL, 3, self.channel as u64);
        put_number(out, field::RUN, 3, self.run as u64);
        put_number(out, field::STOP_BIB, 5, self.stop_bib as u64);
        put_number(out, field::STOP_CHANNEL, 3, self.stop_channel as u64);
        put_number(out, field::STOP_RUN, 3, self.stop_run as u64);
        put_number(out, field::SIGN, 1, self.sign as u64);
        put_clock(out, field::TIME, self.time);
        put_number(out, field::DAYS, 1, self.days as u64);
        put_number(out, field::PERIOD, 5, self.period as u64);
        put_byte(out, field::OUTPUT, self.output);
        put_byte(out, field::END, CR);
    }
}

// The values of the fields, wrong or not.
fn dynamic_at(s: &[u8]) -> DynamicRequest
    ensures { result ≡ dynamic_at s.now }
{
    DynamicRequest {
        address: byte_at(s, field::ADDRESS),
        requester: byte_at(s, field::REQUESTER),
        order: byte_at(s, field::ORDER),
        bib: number_or_none(s, field::BIB, 5),
        channel: number_or_none(s, field::CHANNEL, 3),
        run: number_or_none(s, field::RUN, 3),
        stop_bib: number_or_none(s, field::STOP_BIB, 5),
        stop_channel: number_or_none(s, field::STOP_CHANNEL, 3),
        stop_run: number_or_none(s, field::STOP_RUN, 3),
        sign: number_or_none(s, field::SIGN, 1),
        time: clock_or_none(s, field::TIME),
        days: number_or_none(s, field::DAYS, 1),
        period: number_or_none(s, field::PERIOD, 5),
        output: byte_at(s, field::OUTPUT),
    }
}

#[tactic(auto, unfolding(crate::specs::Dynamic::is_order, digits::specs::Text::one_of))]
fn is_order(b: u8) -> bool
    ensures { result ≡ is_order b }
{
    (b == b'A') | (b == b'B') | (b == b'a') | (b == b'b') | (b == b'T') | (b == b't')
}

#[tactic(auto, unfolding(crate::specs::Dynamic::is_dynamic_channel))]
fn is_dynamic_channel(v: u32) -> bool
    ensures { result ≡ is_dynamic_channel v }
{
    (v <= 240) | (v == 250) | (v == 255)
}

#[tactic(auto, unfolding(crate::specs::Dynamic::least_period, digits::specs::Text::one_of))]
fn least_period(order: u8) -> u32
    ensures { result ≡ least_period order }
{
    if (order == b'A') | (order == b'B') {
        1
    } else {
        0
    }
}
