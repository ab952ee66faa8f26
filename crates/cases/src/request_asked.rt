// Cases on the static request.
use crate::frame::Record;
use frames::refusals::{ReadRefusal, WriteRefusal};
use frames::request::{StaticRequest, read_request, write_request};
use spelling::line::Words;
use std::io::{self, Write};

impl Record for StaticRequest {
    fn read(frame: &[u8]) -> Result<Self, ReadRefusal> {
        read_request(frame)
    }

    fn write(self, out: &mut [u8]) -> Result<(), WriteRefusal> {
        write_request(self, out)
    }

    fn asked(s: &mut Words<'_>) -> Self {
        StaticRequest {
            address: s.code(),
            requester: s.code(),
            number: s.small(),
            bib: s.small(),
            information: s.code(),
            channel: s.small(),
            run: s.small(),
            group: s.small(),
            output: s.code(),
        }
    }

    fn print<W: Write>(self, to: &mut W) -> io::Result<()> {
        write!(
            to,
            " {} {} {} {} {} {} {} {} {}",
            self.address,
            self.requester,
            self.number,
            self.bib,
            self.information,
            self.channel,
            self.run,
            self.group,
            self.output
        )
    }
}
