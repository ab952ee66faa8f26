// The dynamic request: read from a lent frame, written to lent bytes.
ghost use Rattle.std.specs.Prelude.{◌≡◌};
ghost use Rattle.frames.specs.Kind.{read};
ghost use Rattle.frames.specs.Dynamic.{dynamic};
ghost use Rattle.rei2.specs.Frames.{dynamic_answer, zero_dynamic, WroteLent};

use crate::request::{WrittenAnswer, written};
use digits::refusal::Refusal;
use frames::dynamic::{DYNAMIC_SIZE, DynamicRequest, read_dynamic, write_dynamic};

// The record is all zero if the frame was refused: C has neither Result nor generic structs.
#[repr(C)]
#[derive(Clone, Copy)]
pub struct DynamicAnswer {
    pub refusal: u32,
    pub offset: u32,
    pub spoiled: u32,
    pub request: DynamicRequest,
}

#[unsafe(no_mangle)]
pub extern "C" fn rei2_read_dynamic(frame: &[u8]) -> DynamicAnswer
    ensures { result ≡ dynamic_answer (read dynamic frame.now) }
{
    match read_dynamic(frame) {
        // Copied part by part, as in the static request.
        Ok(r) => DynamicAnswer {
            refusal: 0,
            offset: 0,
            spoiled: 0,
            request: DynamicRequest {
                address: r.address,
                requester: r.requester,
                order: r.order,
                bib: r.bib,
                channel: r.channel,
                run: r.run,
                stop_bib: r.stop_bib,
                stop_channel: r.stop_channel,
                stop_run: r.stop_run,
                sign: r.sign,
                time: r.time,
                days: r.days,
                period: r.period,
                output: r.output,
            },
        },
        Err(why) => {
            let said = Refusal::from(why);
            DynamicAnswer {
                refusal: said.number,
                offset: said.offset,
                spoiled: said.spoiled,
                request: no_dynamic(),
            }
        }
    }
}

#[unsafe(no_mangle)]
pub extern "C" fn rei2_write_dynamic(record: DynamicRequest, out: &mut [u8]) -> WrittenAnswer
    ensures { WroteLent dynamic «record» out.old result out.new }
{
    let answer = write_dynamic(record, out);
    written(answer, DYNAMIC_SIZE)
}

fn no_dynamic() -> DynamicRequest
    ensures { result ≡ zero_dynamic }
{
    DynamicRequest {
        address: 0,
        requester: 0,
        order: 0,
        bib: 0,
        channel: 0,
        run: 0,
        stop_bib: 0,
        stop_channel: 0,
        stop_run: 0,
        sign: 0,
        time: 0,
        days: 0,
        period: 0,
        output: 0,
    }
}
