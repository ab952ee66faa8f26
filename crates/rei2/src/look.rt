// A look at the tally.
ghost use Rattle.std.specs.Prelude.{◌≡◌};
ghost use Rattle.desk.specs.Tally.{looks};
ghost use Rattle.rei2.specs.Look.{look_answer};

use desk::tally::look;
use digits::refusal::Refusal;
use frames::reply::{LETTERS, STATUSES};

// C has no Result: the refusal, 0 if there is such a letter and such a status; and how many records are held with them, 0 if refused.
#[repr(C)]
#[derive(Clone, Copy)]
pub struct LookedAnswer {
    pub refusal: u32,
    pub held: u32,
}

#[unsafe(no_mangle)]
pub extern "C" fn rei2_look(
    tally: &[[u32; STATUSES]; LETTERS],
    letter: u8,
    status: u8,
) -> LookedAnswer
    ensures { result ≡ look_answer (looks tally.now letter status) }
{
    match look(tally, letter, status) {
        Ok(held) => LookedAnswer { refusal: 0, held },
        Err(why) => LookedAnswer {
            refusal: Refusal::from(why).number,
            held: 0,
        },
    }
}
