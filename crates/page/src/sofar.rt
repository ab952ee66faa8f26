// What was read of a page so far.
ghost use Rattle.std.specs.Prelude.{◌+◌, ◌^◌, ◌<◌, ◌≤◌};
ghost use Rattle.page.specs.Version.{one};
ghost use Rattle.page.specs.inside.Held.{HeldMost};

use desk::limits::SEATS;
use desk::state::Seat;

// The row; the seats in use and those that are said to end, as bits; how many cells; and how many of the seats that are said to end have not had their E or Z.
// All these numbers are small enough to be added to. The sum of the bytes is not kept: it is asked for only once, at the last line.
#[derive(Clone, Copy)]
pub(crate) struct Sofar {
    pub(crate) row: [Seat; SEATS],
    pub(crate) bits: u64,
    pub(crate) said: u64,
    pub(crate) count: u32,
    pub(crate) waiting: u32,
    ghost roomy: { count + waiting ≤ one.cells },
    ghost seated: { bits < 2 ^ one.seats },
    ghost in_use: { said ≤ bits },
    ghost held: { HeldMost row count },
}
