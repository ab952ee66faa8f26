// Net times: a sign, days and a time of day, as one value in ticks, and back.
ghost use Rattle.std.specs.Prelude.{◌≡◌};
ghost use Rattle.times.specs.Net.{is_net, net_value, net_parts};

use crate::clock::{DAY_TICKS, LAST_TICK};
use crate::signed::{apart, diff};

// A sign, days, and a time in ticks. They are a net time if is_net takes them.
#[derive(Clone, Copy, Debug, PartialEq, Eq)]
pub struct NetParts {
    pub minus: bool,
    pub days: u64,
    pub time: u32,
}

// Whether a net reply can show these parts. Zero has no minus.
#[tactic(auto, unfolding(crate::specs::Net::is_net))]
pub fn is_net(parts: NetParts) -> bool
    ensures { result ≡ is_net parts }
{
    let zero = (parts.days == 0) & (parts.time == 0);
    (parts.days <= 9_999_999) & (parts.time <= LAST_TICK) & !(parts.minus & zero)
}

// The value of a net time; None if the parts are no net time. The minus covers days and time together.
pub fn net_value(parts: NetParts) -> Option<i64>
    ensures { result ≡ net_value parts }
{
    if !is_net(parts) {
        return None;
    }
    let days = parts.days * DAY_TICKS;
    let time = parts.time as u64;
    if parts.minus {
        Some(diff(0, days + time))
    } else {
        Some(diff(days + time, 0))
    }
}

// The parts of a value: its sign, and the whole days and the time that are left without it.
pub fn net_parts(value: i64) -> NetParts
    ensures { result ≡ net_parts value }
{
    let v = apart(value);
    NetParts {
        minus: v.minus,
        days: v.size / DAY_TICKS,
        time: (v.size % DAY_TICKS) as u32,
    }
}
