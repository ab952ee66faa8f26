// Cases on the static reply.
use crate::frame::{Record, print_read, print_written};
use frames::refusals::{ReadRefusal, WriteRefusal};
use frames::reply::{
    ReplyHead, StaticReply, read_reply, read_reply_value, write_reply, write_reply_value,
};
use frames::timing::Timing;
use spelling::line::Words;
use spelling::print::Bytes;
use std::io::{self, Write};

impl Record for StaticReply {
    fn read(frame: &[u8]) -> Result<Self, ReadRefusal> {
        read_reply(frame)
    }

    fn write(self, out: &mut [u8]) -> Result<(), WriteRefusal> {
        write_reply(self, out)
    }

    fn asked(s: &mut Words<'_>) -> Self {
        StaticReply {
            head: head_asked(s),
            timing: timing_asked(s),
            raw_time: s.array(),
            raw_date: s.array(),
            spare: s.array(),
        }
    }

    fn print<W: Write>(self, to: &mut W) -> io::Result<()> {
        print_head(to, self.head)?;
        print_timing(to, self.timing)?;
        write!(
            to,
            " {} {} {}",
            Bytes(&self.raw_time),
            Bytes(&self.raw_date),
            Bytes(&self.spare)
        )
    }
}

pub fn reading_value<W: Write>(to: &mut W, s: &mut Words<'_>) -> io::Result<()> {
    print_read(to, read_reply_value(s.array()))
}

pub fn writing_value<W: Write>(to: &mut W, s: &mut Words<'_>) -> io::Result<()> {
    let written = write_reply_value(StaticReply::asked(s));
    print_written(to, written.answer, &written.frame)
}

fn print_head<W: Write>(to: &mut W, r: ReplyHead) -> io::Result<()> {
    write!(
        to,
        " {} {} {} {} {} {} {} {} {} {} {} {}",
        r.address,
        r.program,
        r.mode,
        r.status,
        r.requester,
        r.number,
        r.bib,
        r.group,
        r.run,
        r.physical,
        r.channel,
        r.information
    )
}

fn print_timing<W: Write>(to: &mut W, t: Timing) -> io::Result<()> {
    match t {
        Timing::Clock {
            ticks,
            day,
            month,
            year,
        } => write!(to, " clock {ticks} {day} {month} {year}"),
        Timing::Net(value) => write!(to, " net {value}"),
        Timing::Raw => write!(to, " raw"),
    }
}

fn head_asked(s: &mut Words<'_>) -> ReplyHead {
    ReplyHead {
        address: s.code(),
        program: s.code(),
        mode: s.code(),
        status: s.code(),
        requester: s.code(),
        number: s.small(),
        bib: s.small(),
        group: s.small(),
        run: s.small(),
        physical: s.small(),
        channel: s.small(),
        information: s.code(),
    }
}

fn timing_asked(s: &mut Words<'_>) -> Timing {
    match s.word() {
        b"clock" => Timing::Clock {
            ticks: s.small(),
            day: s.small(),
            month: s.small(),
            year: s.small(),
        },
        b"net" => Timing::Net(s.signed()),
        _ => Timing::Raw,
    }
}
