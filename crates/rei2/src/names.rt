// The names of refusals.
ghost use Rattle.rei2.specs.Names.{name_of, NamedLent};

use crate::request::{WrittenAnswer, not_written};
use digits::refusal::plain;
use digits::{put_all, put_byte, refusal as table};

// An output of so many bytes has room for every name with the zero byte after it.
pub const NAME_SIZE: usize = 14;

#[unsafe(no_mangle)]
pub extern "C" fn rei2_refusal_name(refusal: u32, out: &mut [u8]) -> WrittenAnswer
    ensures { NamedLent (name_of refusal) out.old result out.new }
{
    match refusal {
        0 => put_name(out, b"DONE"),
        table::KIND => put_name(out, b"KIND"),
        table::LENGTH => put_name(out, b"LENGTH"),
        table::END => put_name(out, b"END"),
        table::ADDRESS => put_name(out, b"ADDRESS"),
        table::FIELD => put_name(out, b"FIELD"),
        table::RECORD => put_name(out, b"RECORD"),
        table::ROOM => put_name(out, b"ROOM"),
        table::TIME => put_name(out, b"TIME"),
        table::DESK => put_name(out, b"DESK"),
        table::NO_ANSWER_DUE => put_name(out, b"NO ANSWER DUE"),
        table::IN_USE => put_name(out, b"IN USE"),
        table::NO_SEAT => put_name(out, b"NO SEAT"),
        table::STRAY => put_name(out, b"STRAY"),
        table::ENDED => put_name(out, b"ENDED"),
        table::OUT_OF_PLACE => put_name(out, b"OUT OF PLACE"),
        table::FULL => put_name(out, b"FULL"),
        table::NO_SUCH => put_name(out, b"NO SUCH"),
        _ => put_name(out, b"UNKNOWN"),
    }
}

// Puts the name and a zero byte.
fn put_name(out: &mut [u8], name: &[u8]) -> WrittenAnswer
    ensures { NamedLent name.now out.old result out.new }
{
    let size = name.len();
    if out.len() <= size {
        return not_written(plain(table::ROOM));
    }
    put_all(out, 0, name);
    put_byte(out, size, 0);
    WrittenAnswer {
        refusal: 0,
        offset: 0,
        size,
    }
}
