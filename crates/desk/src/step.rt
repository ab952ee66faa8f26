// What a reply does to the request that it is addressed to. The reply call and the desk's test use this one step.
ghost use Rattle.std.specs.Prelude.{◌≡◌, ◌<◌};
ghost use Rattle.desk.specs.Limits.{most_cells};
ghost use Rattle.desk.specs.Step.{progress_of, advanced, step};
ghost use Rattle.desk.specs.inside.Judging.{step_told};

use crate::hearing::{ended_by, in_place};
use crate::state::Seat;

// How far a request has come: how many records it holds, and whether it has had its E or Z (1) or not (0).
#[derive(Clone, Copy, Debug, PartialEq, Eq)]
pub struct Progress {
    pub held: u32,
    pub ended: u32,
}

// Why a reply is not taken, in the order in which it is tested.
#[derive(Clone, Copy, Debug, PartialEq, Eq)]
pub enum StepRefusal {
    Ended,
    OutOfPlace,
    Full,
}

// Named, as the key of a seat is.
pub fn progress_of(seat: Seat) -> Progress
    ensures { result ≡ progress_of seat }
{
    Progress {
        held: seat.held,
        ended: seat.ended,
    }
}

// The step of a request for a reply with this status, if a cell is free or not.
pub fn step(p: Progress, free: bool, status: u8) -> Result<(), StepRefusal>
    ensures { step_told p status result ≡ step p free status }
{
    if p.ended != 0 {
        return Err(StepRefusal::Ended);
    }
    if !in_place(p.held, status) {
        return Err(StepRefusal::OutOfPlace);
    }
    if free { Ok(()) } else { Err(StepRefusal::Full) }
}

// How far the request has come with that reply, if it is taken. The bound is asked here and not kept in Progress: a seat that the host lends may hold any number.
pub fn advanced(p: Progress, status: u8) -> Progress
    requires { p.held < most_cells }
    ensures { result ≡ advanced p status }
{
    Progress {
        held: p.held + 1,
        ended: ended_by(status),
    }
}
