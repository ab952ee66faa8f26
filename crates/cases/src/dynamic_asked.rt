// Cases on the dynamic request.
use crate::frame::Record;
use frames::dynamic::{DynamicRequest, read_dynamic, write_dynamic};
use frames::refusals::{ReadRefusal, WriteRefusal};
use spelling::line::Words;
use std::io::{self, Write};

impl Record for DynamicRequest {
    fn read(frame: &[u8]) -> Result<Self, ReadRefusal> {
        read_dynamic(frame)
    }

    fn write(self, out: &mut [u8]) -> Result<(), WriteRefusal> {
        write_dynamic(self, out)
    }

    fn asked(s: &mut Words<'_>) -> Self {
        DynamicRequest {
            address: s.code(),
            requester: s.code(),
            order: s.code(),
            bib: s.small(),
            channel: s.small(),
            run: s.small(),
            stop_bib: s.small(),
            stop_channel: s.small(),
            stop_run: s.small(),
            sign: s.small(),
            time: s.small(),
            days: s.small(),
            period: s.small(),
            output: s.code(),
        }
    }

    fn print<W: Write>(self, to: &mut W) -> io::Result<()> {
        write!(
            to,
            " {} {} {} {} {} {} {} {} {} {} {} {} {} {}",
            self.address,
            self.requester,
            self.order,
            self.bib,
            self.channel,
            self.run,
            self.stop_bib,
            self.stop_channel,
            self.stop_run,
            self.sign,
            self.time,
            self.days,
            self.period,
            self.output
        )
    }
}
