// A time of day, HHMMSSdddd, in ticks of a ten-thousandth of a second.
ghost use Rattle.std.specs.Prelude.{◌≡◌, ◌+◌, ◌≤◌, ◌<◌, ◌^◌, leb, length};
ghost use Rattle.std.proofs.lemmas.List.Edits.{sets};
ghost use Rattle.times.specs.Clock.{clock_number, clock};
ghost use Rattle.times.specs.inside.Clock.{ticks_from};

use digits::{number_at, put_number};

// How many ticks a day has, and its last tick, 23:59:59.9999.
pub const DAY_TICKS: u64 = 864_000_000;

pub const LAST_TICK: u32 = (DAY_TICKS - 1) as u32;

// The ticks of the time at a place; None if there are no ten digits of a time. The four parts are read separately, so that none waits for another.
pub fn clock_at(s: &[u8], at: usize) -> Option<u64>
    ensures { result ≡ clock.got s.now at }
{
    if !has_room(s.len(), at) {
        return None;
    }
    let hours = number_at(s, at, 2);
    let minutes = number_at(s, at + 2, 2);
    let seconds = number_at(s, at + 4, 2);
    let fraction = number_at(s, at + 6, 4);
    ticks_of(hours?, minutes?, seconds?, fraction?)
}

// Stores a time from a place on; past the end nothing. If the ticks are no time of day, it stores the last ten digits of the same sum.
pub fn put_clock(out: &mut [u8], at: usize, ticks: u32)
    ensures { out.new ≡ sets out.old at (clock.put ticks) }
{
    if has_room(out.len(), at) {
        put_parts(out, at, ticks as u64);
    } else {
        put_number(out, at, 10, clock_number(ticks as u64));
    }
}

// Whether there are ten bytes from a place on.
fn has_room(len: usize, at: usize) -> bool
    ensures { result ≡ leb (at + 10) len }
{
    10 <= len && at <= len - 10
}

fn ticks_of(hours: u64, minutes: u64, seconds: u64, fraction: u64) -> Option<u64>
    requires { fraction ≤ 9999 }
    ensures { result ≡ ticks_from hours minutes seconds fraction }
{
    if hours <= 23 && minutes <= 59 && seconds <= 59 {
        Some(((hours * 60 + minutes) * 60 + seconds) * 10_000 + fraction)
    } else {
        None
    }
}

fn put_parts(out: &mut [u8], at: usize, ticks: u64)
    requires { at + 10 ≤ length out.old }
    ensures { out.new ≡ sets out.old at (clock.put ticks) }
{
    put_number(out, at, 2, ticks / 36_000_000);
    put_number(out, at + 2, 2, ticks / 600_000 % 60);
    put_number(out, at + 4, 2, ticks / 10_000 % 60);
    put_number(out, at + 6, 4, ticks % 10_000);
}

#[tactic(auto, unfolding(crate::specs::Clock::clock_number))]
fn clock_number(ticks: u64) -> u64
    requires { ticks < 2 ^ 32 }
    ensures { result ≡ clock_number ticks }
{
    let hours = ticks / 36_000_000;
    let minutes = ticks / 600_000 % 60;
    let seconds = ticks / 10_000 % 60;
    ((hours * 100 + minutes) * 100 + seconds) * 10_000 + ticks % 10_000
}
