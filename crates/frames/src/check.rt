// A quick check of a reply: only whether it is good, and where it belongs. Digits are tested first, in runs, so that a number is a plain sum of its bytes.
// A run has no way out, so that many bytes are tested at once. Between the runs and rules there are ways out, so that no rule waits for the one before.
ghost use Rattle.std.specs.Prelude.{true, ◌≡◌, ◌+◌, ◌-◌, ◌%◌, ◌≤◌, eqb, length, get_or};
ghost use Rattle.digits.specs.Digits.{is_digit, number_at};
ghost use Rattle.times.specs.Clock.{clock, is_time};
ghost use Rattle.frames.specs.Rules.{is_raw};
ghost use Rattle.frames.specs.Shape.{all_from};
ghost use Rattle.frames.specs.Kind.{read};
ghost use Rattle.frames.specs.Reply.{reply, is_good, label_at};
ghost use Rattle.frames.specs.inside.Held.{or_none};
ghost use Rattle.frames.specs.inside.Timing as T;
ghost use Rattle.frames.specs.inside.Check as I;

use crate::fields::{is_address, is_requester, within};
use crate::head::{CR, LETTER};
use crate::reply::{
    REPLY_LEAD, REPLY_SIZE, ReplyLabel, field, is_letter, is_reply_channel, is_status, least_run,
};
use crate::runs::all_in;
use crate::timing::{TimingKind, is_raw, kind_of};
use digits::byte_at;
use times::day::is_day;

// Within the time: minutes and seconds.
const MINUTES: usize = field::TIME + 2;

const SECONDS: usize = field::TIME + 4;

// Whether read_reply gives a record.
pub fn is_reply(s: &[u8]) -> bool
    ensures { result ≡ is_good (read reply s.now) }
{
    let Some(s) = s.as_array::<REPLY_SIZE>() else {
        return false;
    };
    // All numbers before the time. Of the number and the physical channel nothing else is asked.
    if !all_in(&s[field::NUMBER..field::INFORMATION], is_digit) {
        return false;
    }
    bounds_good(s)
        && codes_good(s)
        && values_good(s)
        && timing_good(s, kind_of(s[field::STATUS], s[field::INFORMATION]))
}

// The label by the bytes alone, whether the frame is good or not.
#[tactic(auto, unfolding(crate::specs::Reply::label_at))]
pub fn label_at(s: &[u8]) -> ReplyLabel
    ensures { result ≡ label_at s.now }
{
    ReplyLabel {
        status: byte_at(s, field::STATUS),
        address: byte_at(s, field::ADDRESS) as u32,
        requester: byte_at(s, field::REQUESTER) as u32,
        number: digit_at(s, field::NUMBER) * 10_000
            + digit_at(s, field::NUMBER + 1) * 1_000
            + digit_at(s, field::NUMBER + 2) * 100
            + digit_at(s, field::NUMBER + 3) * 10
            + digit_at(s, field::NUMBER + 4),
    }
}

// The low half of a digit's code is its value.
fn digit_at(s: &[u8], at: usize) -> u32
    ensures { result ≡ get_or s.now at 0 % 16 }
{
    byte_at(s, at) as u32 % 16
}

// The bytes with one good value, and two bounds that are bounds of a first digit: bib up to 59999, group up to 199.
#[tactic(auto, unfolding(crate::specs::inside::Check::bounds_good))]
fn bounds_good(s: &[u8; 51]) -> bool
    ensures { result ≡ I.bounds_good s.now }
{
    let fixed = (s[0] == REPLY_LEAD) & (s[1] == LETTER) & (s[field::END] == CR);
    fixed & (s[field::BIB] <= b'5') & (s[field::GROUP] <= b'1')
}

// Address, requester, program and mode.
#[tactic(auto, unfolding(crate::specs::inside::Check::codes_good))]
fn codes_good(s: &[u8; 51]) -> bool
    ensures { result ≡ I.codes_good s.now }
{
    is_address(s[field::ADDRESS])
        && is_requester(s[field::REQUESTER])
        && all_in(&s[field::PROGRAM..field::STATUS], is_raw)
}

// Status, information, run and channel.
#[tactic(auto, unfolding(crate::specs::inside::Check::values_good))]
fn values_good(s: &[u8; 51]) -> bool
    requires { all_from is_digit s.now 7 22 ≡ true }
    ensures { result ≡ I.values_good s.now }
{
    let status = s[field::STATUS];
    let letters = is_status(status) & is_letter(s[field::INFORMATION]);
    letters
        & within(least_run(status), 250, number::<3>(s, field::RUN))
        & is_reply_channel(number::<3>(s, field::CHANNEL))
}

// Time, date and spare.
fn timing_good(s: &[u8; 51], kind: TimingKind) -> bool
    ensures { result ≡ eqb (T.seen_of kind s.now).wrong 0 }
{
    match kind {
        TimingKind::Clock => clock_good(s),
        TimingKind::Net => net_good(s),
        TimingKind::Raw => all_in(&s[field::TIME..field::END], is_raw),
    }
}

fn clock_good(s: &[u8; 51]) -> bool
    ensures { result ≡ eqb (T.seen_clock s.now).wrong 0 }
{
    if !all_in(&s[field::TIME..field::SPARE], is_digit) {
        return false;
    }
    (all_in(&s[field::SPARE..field::END], is_raw) & time_good(s))
        && is_day(
            number::<2>(s, field::DATE),
            number::<2>(s, field::MONTH),
            number::<4>(s, field::YEAR),
        )
}

fn net_good(s: &[u8; 51]) -> bool
    ensures { result ≡ eqb (T.seen_net s.now).wrong 0 }
{
    let digits = all_in(&s[field::TIME..field::DATE], is_digit)
        & all_in(&s[field::DAYS..field::SPARE], is_digit);
    if !digits {
        return false;
    }
    (all_in(&s[field::SPARE..field::END], is_raw) & time_good(s)) && sign_good(s)
}

// Minutes and seconds up to 59: their first digit is at most 5.
fn time_good(s: &[u8; 51]) -> bool
    requires { all_from is_digit s.now 30 10 ≡ true }
    ensures { result ≡ is_time (or_none (clock.got s.now 30)) }
{
    number::<2>(s, field::TIME) <= 23 && (s[MINUTES] <= b'5') & (s[SECONDS] <= b'5')
}

// A plus, or a minus that is not in front of zero.
#[tactic(auto, unfolding(crate::specs::inside::Check::sign_good))]
fn sign_good(s: &[u8; 51]) -> bool
    ensures { result ≡ I.sign_good s.now }
{
    if s[field::DATE] == b'+' {
        return true;
    }
    let zero = all_in(&s[field::TIME..field::DATE], is_zero)
        & all_in(&s[field::DAYS..field::SPARE], is_zero);
    (s[field::DATE] == b'-') & !zero
}

// ---- rules for a byte

fn is_digit(b: u8) -> bool
    ensures { result ≡ is_digit b }
{
    (b'0' <= b) & (b <= b'9')
}

fn is_zero(b: u8) -> bool
    ensures { result ≡ I.is_zero b }
{
    b == b'0'
}

// The number of N tested digits.
fn number<const N: usize>(s: &[u8; 51], at: usize) -> u32
    requires place { at + N ≤ 51 }
    requires width { (1 ≤ N) × (N ≤ 4) }
    requires digits { all_from is_digit s.now at N ≡ true }
    ensures { result ≡ or_none (number_at s.now at N) }
{
    let mut n = 0;
    for k in 0..N {
        n = n * 10 + s[at + k] as u32 - 48;
    }
    n
}
