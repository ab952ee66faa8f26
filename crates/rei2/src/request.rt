// The static request: read from a lent frame, written to lent bytes.
ghost use Rattle.std.specs.Prelude.{◌≡◌};
ghost use Rattle.frames.specs.Kind.{read};
ghost use Rattle.frames.specs.Request.{request};
ghost use Rattle.frames.specs.Refusals.{write_told};
ghost use Rattle.rei2.specs.Frames.{request_answer, zero_request, written_answer, WroteLent};
ghost use Rattle.rei2.specs.inside.Left.{not_written};

use digits::refusal::Refusal;
use frames::refusals::WriteRefusal;
use frames::request::{REQUEST_SIZE, StaticRequest, read_request, write_request};

// The record is all zero if the frame was refused: C has neither Result nor generic structs, so each call has an answer of its own.
#[repr(C)]
#[derive(Clone, Copy)]
pub struct RequestAnswer {
    pub refusal: u32,
    pub offset: u32,
    pub spoiled: u32,
    pub request: StaticRequest,
}

// The size of the frame, 0 if it was not written.
#[repr(C)]
#[derive(Clone, Copy)]
pub struct WrittenAnswer {
    pub refusal: u32,
    pub offset: u32,
    pub size: usize,
}

#[unsafe(no_mangle)]
pub extern "C" fn rei2_read_request(frame: &[u8]) -> RequestAnswer
    ensures { result ≡ request_answer (read request frame.now) }
{
    match read_request(frame) {
        // Copied part by part: a copy of the whole record would have to wait until its parts are stored.
        Ok(r) => RequestAnswer {
            refusal: 0,
            offset: 0,
            spoiled: 0,
            request: StaticRequest {
                address: r.address,
                requester: r.requester,
                number: r.number,
                bib: r.bib,
                information: r.information,
                channel: r.channel,
                run: r.run,
                group: r.group,
                output: r.output,
            },
        },
        Err(why) => {
            let said = Refusal::from(why);
            RequestAnswer {
                refusal: said.number,
                offset: said.offset,
                spoiled: said.spoiled,
                request: no_request(),
            }
        }
    }
}

#[unsafe(no_mangle)]
pub extern "C" fn rei2_write_request(record: StaticRequest, out: &mut [u8]) -> WrittenAnswer
    ensures { WroteLent request «record» out.old result out.new }
{
    let answer = write_request(record, out);
    written(answer, REQUEST_SIZE)
}

pub(crate) fn written(answer: Result<(), WriteRefusal>, size: usize) -> WrittenAnswer
    ensures { result ≡ written_answer size (write_told answer) }
{
    match answer {
        Ok(()) => WrittenAnswer {
            refusal: 0,
            offset: 0,
            size,
        },
        Err(why) => not_written(Refusal::from(why)),
    }
}

pub(crate) fn not_written(why: Refusal) -> WrittenAnswer
    ensures { result ≡ not_written why }
{
    WrittenAnswer {
        refusal: why.number,
        offset: why.offset,
        size: 0,
    }
}

fn no_request() -> StaticRequest
    ensures { result ≡ zero_request }
{
    StaticRequest {
        address: 0,
        requester: 0,
        number: 0,
        bib: 0,
        information: 0,
        channel: 0,
        run: 0,
        group: 0,
        output: 0,
    }
}
