// The list of a capture.
ghost use Rattle.rei2.specs.Calls.{ListLent};

use digits::refusal::Refusal;
use listing::list;

// C has no Result: the refusal, 0 if there is none, and the size of the list, 0 if it was not written.
#[repr(C)]
#[derive(Clone, Copy)]
pub struct ListedAnswer {
    pub refusal: u32,
    pub size: usize,
}

#[unsafe(no_mangle)]
pub extern "C" fn rei2_list(
    capture: &[u8],
    cells: &mut [u8],
    marks: &mut [u32],
    out: &mut [u8],
) -> ListedAnswer
    ensures { ListLent cells.old marks.old capture.now out.old result cells.new marks.new out.new }
{
    match list(capture, cells, marks, out) {
        Ok(size) => ListedAnswer { refusal: 0, size },
        Err(why) => ListedAnswer {
            refusal: Refusal::from(why).number,
            size: 0,
        },
    }
}
