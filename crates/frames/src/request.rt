// The static request: 24 bytes, lead byte DC1.
ghost use Rattle.std.specs.Prelude.{◌≡◌, refl};
ghost use Rattle.std.proofs.Common.{lit<};
ghost use Rattle.frames.specs.Kind.{Wrote};
ghost use Rattle.frames.specs.inside.Held.{request_at};
ghost use Rattle.frames.specs.inside.Spoiled.{request_byte};
ghost use Rattle.frames.specs.Request.{is_information, is_request_channel, request, RequestAs};

use crate::fields::{is_address, is_output, is_requester, number_or_none, wrong_unless};
use crate::head::{CR, put_head};
use crate::record::{Record, read, write};
use crate::refusals::{ReadRefusal, WriteRefusal};
use crate::spoiled::looked_in;
use digits::{byte_at, in_set, put_byte, put_number};

pub const REQUEST_LEAD: u8 = 17;

pub const REQUEST_SIZE: usize = 24;

// Where each field begins.
pub mod field {
    pub const ADDRESS: usize = crate::head::ADDRESS;

    pub const REQUESTER: usize = 3;

    pub const NUMBER: usize = 4;

    pub const BIB: usize = 7;

    pub const INFORMATION: usize = 12;

    pub const CHANNEL: usize = 13;

    pub const RUN: usize = 16;

    pub const GROUP: usize = 19;

    pub const OUTPUT: usize = 22;

    pub const END: usize = 23;
}

// The 41 letters of a request's information, as a set for in_set.
const INFORMATION_LOW: u64 = 0x3ff_0400_0000_0000;

const INFORMATION_HIGH: u64 = 0xbb_1f9e_019f_1f82;

// Address and letters are held by their codes. A number can hold more than its field can show.
#[repr(C)]
#[derive(Clone, Copy, Debug, PartialEq, Eq)]
pub struct StaticRequest {
    pub address: u8,
    pub requester: u8,
    pub number: u32,
    pub bib: u32,
    pub information: u8,
    pub channel: u32,
    pub run: u32,
    pub group: u32,
    pub output: u8,
}

pub fn read_request(s: &[u8]) -> Result<StaticRequest, ReadRefusal>
    ensures { RequestAs s.now result }
{
    read(s)
}

// Writes the frame to the first 24 bytes of out, or changes nothing.
pub fn write_request(r: StaticRequest, out: &mut [u8]) -> Result<(), WriteRefusal>
    ensures { Wrote request r out.old result out.new }
{
    write(r, out)
}

impl Record for StaticRequest {
    ghost kind = { request };

    ghost LEAD = { 17 };

    ghost SIZE = { 24 };

    const LEAD: u8 = REQUEST_LEAD;

    const SIZE: usize = REQUEST_SIZE;

    ghost spoils = { request_byte };

    ghost some = { (lit< tt, lit< tt) };

    ghost of_kind = { (refl, refl) };

    #[tactic(auto, using(crate::proofs::RequestLaws::request_reads))]
    fn held(s: &[u8]) -> (StaticRequest, u8) {
        let r = request_at(s);
        (r, r.wrong())
    }

    // A field of one byte is its own.
    fn spoiled(s: &[u8], wrong: u8) -> u8 {
        let spoiled = looked_in(s, wrong, field::NUMBER, b"999", wrong);
        let spoiled = looked_in(s, wrong, field::BIB, b"59999", spoiled);
        let spoiled = looked_in(s, wrong, field::CHANNEL, b"299", spoiled);
        let spoiled = looked_in(s, wrong, field::RUN, b"299", spoiled);
        looked_in(s, wrong, field::GROUP, b"199", spoiled)
    }

    #[tactic(auto, unfolding(crate::specs::Kind::wrong_in, crate::specs::Request::request_fields, crate::specs::Layout::record_wrong, crate::specs::Rules::up_to))]
    fn wrong(self) -> u8 {
        let wrong = wrong_unless(is_output(self.output), field::OUTPUT, 0);
        let wrong = wrong_unless(self.group <= 199, field::GROUP, wrong);
        let wrong = wrong_unless(self.run <= 250, field::RUN, wrong);
        let wrong = wrong_unless(is_request_channel(self.channel), field::CHANNEL, wrong);
        let wrong = wrong_unless(is_information(self.information), field::INFORMATION, wrong);
        let wrong = wrong_unless(self.bib <= 59999, field::BIB, wrong);
        let wrong = wrong_unless(self.number <= 999, field::NUMBER, wrong);
        let wrong = wrong_unless(is_requester(self.requester), field::REQUESTER, wrong);
        wrong_unless(is_address(self.address), field::ADDRESS, wrong)
    }

    #[tactic(auto, using(crate::proofs::RequestLaws::stores_frame, crate::proofs::RequestLaws::length_request), unfolding(crate::specs::Kind::frame_of))]
    fn put(self, out: &mut [u8]) {
        put_head(out, REQUEST_LEAD, self.address);
        put_byte(out, field::REQUESTER, self.requester);
        put_number(out, field::NUMBER, 3, self.number as u64);
        put_number(out, field::BIB, 5, self.bib as u64);
        put_byte(out, field::INFORMATION, self.information);
        put_number(out, field::CHANNEL, 3, self.channel as u64);
        put_number(out, field::RUN, 3, self.run as u64);
        put_number(out, field::GROUP, 3, self.group as u64);
        put_byte(out, field::OUTPUT, self.output);
        put_byte(out, field::END, CR);
    }
}

// The values of the fields, wrong or not.
fn request_at(s: &[u8]) -> StaticRequest
    ensures { result ≡ request_at s.now }
{
    StaticRequest {
        address: byte_at(s, field::ADDRESS),
        requester: byte_at(s, field::REQUESTER),
        number: number_or_none(s, field::NUMBER, 3),
        bib: number_or_none(s, field::BIB, 5),
        information: byte_at(s, field::INFORMATION),
        channel: number_or_none(s, field::CHANNEL, 3),
        run: number_or_none(s, field::RUN, 3),
        group: number_or_none(s, field::GROUP, 3),
        output: byte_at(s, field::OUTPUT),
    }
}

fn is_information(b: u8) -> bool
    ensures { result ≡ is_information b }
{
    in_set(INFORMATION_LOW, INFORMATION_HIGH, b)
}

#[tactic(auto, unfolding(crate::specs::Request::is_request_channel))]
fn is_request_channel(v: u32) -> bool
    ensures { result ≡ is_request_channel v }
{
    (v <= 240) | (v == 248) | (v == 249) | (v == 251) | (v == 255)
}
