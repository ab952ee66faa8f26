// What the status of a reply means: whether it ends its request, and whether it is in its place.
ghost use Rattle.std.specs.Prelude.{◌≡◌};
ghost use Rattle.desk.specs.Hearing.{ends, ended_by, in_place};

use frames::reply::{STATUS_E, STATUS_Z};

// An E or a Z ends a request.
pub fn ends_with(status: u8) -> bool
    ensures { result ≡ ends status }
{
    (status == STATUS_E) | (status == STATUS_Z)
}

// A Z is taken only as first record.
pub fn in_place(held: u32, status: u8) -> bool
    ensures { result ≡ in_place held status }
{
    (status != STATUS_Z) | (held == 0)
}

pub fn ended_by(status: u8) -> u32
    ensures { result ≡ ended_by status }
{
    u32::from(ends_with(status))
}
