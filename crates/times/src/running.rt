// Running time: Tnow - Tev - Taux in ticks.
ghost use Rattle.std.specs.Prelude.{◌≡◌};
ghost use Rattle.times.specs.Running.{in_range, running_refused, RunningAs};

use crate::clock::{DAY_TICKS, LAST_TICK};
use crate::signed::diff;
use digits::refusal::{self, Refusal};

// Why there is no running time: a number is out of range.
#[derive(Clone, Copy, Debug, PartialEq, Eq)]
pub enum RunningRefusal {
    Time,
}

impl From<RunningRefusal> for Refusal {
    ghost from_gives = { λ why f. f ≡ running_refused why };

    fn from(why: RunningRefusal) -> Refusal {
        match why {
            RunningRefusal::Time => refusal::plain(refusal::TIME),
        }
    }
}

// The numbers from which running time is computed. Taux is its sign (0 plus, 1 minus), days and time.
// The layout is that of the C interface, so the sign is a number.
#[repr(C)]
#[derive(Clone, Copy, Debug, PartialEq, Eq)]
pub struct RunningOf {
    pub bib: u32,
    pub tnow: u32,
    pub tev: u32,
    pub sign: u32,
    pub days: u32,
    pub time: u32,
}

pub fn running_time(of: RunningOf) -> Result<i64, RunningRefusal>
    ensures { RunningAs of result }
{
    if !in_range(of) {
        return Err(RunningRefusal::Time);
    }
    let taux = of.days as u64 * DAY_TICKS + of.time as u64;
    let tnow = of.tnow as u64;
    let tev = of.tev as u64;
    if of.sign == 1 {
        Ok(diff(tnow + taux, tev))
    } else {
        Ok(diff(tnow, tev + taux))
    }
}

#[tactic(auto, unfolding(crate::specs::Running::in_range))]
fn in_range(of: RunningOf) -> bool
    ensures { result ≡ in_range of }
{
    let times = (of.tnow <= LAST_TICK) & (of.tev <= LAST_TICK) & ((of.bib != 0) | (of.tev == 0));
    times & (of.sign <= 1) & (of.days <= 9) & (of.time <= LAST_TICK)
}
