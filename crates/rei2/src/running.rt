// Running time.
ghost use Rattle.std.specs.Prelude.{◌≡◌};
ghost use Rattle.times.specs.Running.{running_time};
ghost use Rattle.rei2.specs.Calls.{running_answer};

use digits::refusal::Refusal;
use times::running::{RunningOf, running_time};

// C has no Result: the ticks are 0 if the running time was refused.
#[repr(C)]
#[derive(Clone, Copy)]
pub struct RunningAnswer {
    pub refusal: u32,
    pub ticks: i64,
}

#[unsafe(no_mangle)]
pub extern "C" fn rei2_running_time(of: RunningOf) -> RunningAnswer
    ensures { result ≡ running_answer (running_time of) }
{
    match running_time(of) {
        Ok(ticks) => RunningAnswer { refusal: 0, ticks },
        Err(why) => RunningAnswer {
            refusal: Refusal::from(why).number,
            ticks: 0,
        },
    }
}
