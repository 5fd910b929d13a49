//! Times of the day.

use jiff_core::civil::Date;
use s4_script::parse_number;

/// How many milliseconds a minute and a day have.
const MINUTE: u64 = 60_000;

const DAY: u64 = 86_400_000;

/// The milliseconds since 1970 that a word spells, which is a time in UTC as `2026-11-29T10:03`, with
/// seconds behind it as `:27` where it has them, and their thousandths as `.186`.
pub fn time_in(word: &str) -> Option<u64> {
    let (date, time) = word.split_once('T')?;
    let day = day_in(date)?;
    let (hour, rest) = time.split_once(':')?;
    let (minute, seconds) = match rest.split_once(':') {
        Some((minute, seconds)) => (minute, millis_in(seconds)?),
        None => (rest, 0),
    };
    let minutes = digits(hour, 2, 23)?.checked_mul(60)?;
    let minutes = minutes.checked_add(digits(minute, 2, 59)?)?;
    let begin = day.checked_mul(DAY)?;
    begin
        .checked_add(minutes.checked_mul(MINUTE)?)?
        .checked_add(seconds)
}

/// The days since 1970 of a date, which is none of a year before.
fn day_in(date: &str) -> Option<u64> {
    let (year, rest) = date.split_once('-')?;
    let (month, day) = rest.split_once('-')?;
    let year = i16::try_from(digits(year, 4, 9999)?).ok()?;
    let month = i8::try_from(digits(month, 2, 12)?).ok()?;
    let day = i8::try_from(digits(day, 2, 31)?).ok()?;
    let date = Date::new(year, month, day).ok()?;
    u64::try_from(date.to_unix_epoch_day()).ok()
}

/// The milliseconds of seconds that may have thousandths.
fn millis_in(seconds: &str) -> Option<u64> {
    match seconds.split_once('.') {
        Some((seconds, thousandths)) => {
            let whole = digits(seconds, 2, 59)?.checked_mul(1000)?;
            whole.checked_add(digits(thousandths, 3, 999)?)
        }
        None => digits(seconds, 2, 59)?.checked_mul(1000),
    }
}

/// The number that so many digits spell, which is at most that.
fn digits(word: &str, count: usize, most: u64) -> Option<u64> {
    if word.len() != count {
        return None;
    }
    let plain = match word.trim_start_matches('0') {
        "" => "0",
        plain => plain,
    };
    let number: u64 = parse_number(plain).ok()?;
    if number > most {
        return None;
    }
    Some(number)
}
