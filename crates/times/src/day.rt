// Days of the years 2000 to 2099.
ghost use Rattle.std.specs.Prelude.{◌≡◌};
ghost use Rattle.times.specs.Day.{real_day, month_length, february_length, leap};

// Whether day, month and year name a real day of the years 2000 to 2099.
pub fn is_day(day: u32, month: u32, year: u32) -> bool
    ensures { result ≡ real_day day month year }
{
    if year < 2000 || 2099 < year || month < 1 || 12 < month {
        return false;
    }
    1 <= day && day <= month_length(month, year)
}

fn month_length(month: u32, year: u32) -> u32
    ensures { result ≡ month_length month year }
{
    match month {
        2 => february(year),
        4 | 6 | 9 | 11 => 30,
        _ => 31,
    }
}

fn february(year: u32) -> u32
    ensures { result ≡ february_length year }
{
    if is_leap(year) { 29 } else { 28 }
}

#[tactic(auto, unfolding(crate::specs::Day::leap))]
fn is_leap(year: u32) -> bool
    ensures { result ≡ leap year }
{
    (year % 4 == 0) & (year % 100 != 0) | (year % 400 == 0)
}
