ghost use Rattle.std.specs.Prelude.{◌≡◌, ◌<◌, ◌≤◌, ◌+◌, ◌/◌, ◌%◌, pos};
ghost use Rattle.jiff_core.specs.Date.{epoch_day};
ghost use Rattle.rail_time.specs.Days.{day_of};
ghost use Rattle.rail_time.specs.Texts.{moment_text};
ghost use Rattle.rail_time.specs.Moments.{last_second};

use crate::Moment;
use jiff_core::civil::Date;

// A day of the calendar.
struct Civil {
    year: u64,
    month: u64,
    day: u64,
}

/// The text of a moment by RFC 3339: `YYYY-MM-DDThh:mm:ssZ`, in UTC. No memory is taken.
pub fn write_moment(m: Moment) -> [u8; 20]
    ensures text { result ≡ moment_text m }
    ensures in_years { m ≤ last_second }
{
    let seconds = m.seconds();
    let Civil { year, month, day } = civil_day(seconds / 86_400);
    let clock = seconds % 86_400;
    let hour = clock / 3600;
    let minute = clock / 60 % 60;
    let second = clock % 60;
    [
        tens(year / 100),
        ones(year / 100),
        tens(year % 100),
        ones(year % 100),
        b'-',
        tens(month),
        ones(month),
        b'-',
        tens(day),
        ones(day),
        b'T',
        tens(hour),
        ones(hour),
        b':',
        tens(minute),
        ones(minute),
        b':',
        tens(second),
        ones(second),
        b'Z',
    ]
}

// The first of the last two digits.
fn tens(n: u64) -> u8
    requires { n < 100 }
    ensures value { result ≡ 48 + n / 10 }
    ensures ascii { result < 128 }
{
    b'0' + (n / 10) as u8
}

// The last digit.
fn ones(n: u64) -> u8
    ensures value { result ≡ 48 + n % 10 }
    ensures ascii { result < 128 }
{
    b'0' + (n % 10) as u8
}

// The calendar's day of a day number, by the dates of `jiff`.
fn civil_day(number: u64) -> Civil
    requires { number ≤ 47_481 }
    ensures year { result.year ≡ (day_of number).year }
    ensures month { result.month ≡ (day_of number).month }
    ensures day { result.day ≡ (day_of number).day }
    ensures years { result.year < 10_000 }
    ensures months { result.month < 100 }
    ensures days { result.day < 100 }
{
    let date = date_of(number);
    Civil {
        year: date.year as u64,
        month: date.month as u64,
        day: date.day as u64,
    }
}

fn date_of(number: u64) -> Date
    requires { number ≤ 47_481 }
    ensures number { epoch_day result ≡ pos number }
    ensures year { result.year ≡ pos (day_of number).year }
    ensures month { result.month ≡ (day_of number).month }
    ensures day { result.day ≡ (day_of number).day }
{
    Date::from_unix_epoch_day(number as i64).unwrap()
}
