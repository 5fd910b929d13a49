//! How long something lasts, as words say it.

ghost use Rattle.std.specs.Prelude.{◌≡◌, ◌≤◌, ◌+◌, ◌-◌, ◌*◌, ◌^◌, true, IsNone, IfSome};
ghost use Rattle.std.specs.Char.{is_ascii_digit};
ghost use Rattle.s4_command_line.specs.Durations.{begins_well, duration_in, of_letter, unit_of};

/// The milliseconds that a word spells: decimal digits without leading zeros, and behind them a unit, or none, which is
/// for milliseconds. None where it spells nothing, or more than there are.
pub fn duration_in(word: &[u8]) -> Option<u64>
    ensures { result ≡ duration_in word.now }
{
    if !begins_well(word) {
        return None;
    }
    let mut count: u64 = 0;
    for place in 0..word.len() {
        let byte = word[place];
        if !byte.is_ascii_digit() {
            return count.checked_mul(unit_of(&word[place..])?);
        }
        match with_digit(count, byte) {
            Some(more) => count = more,
            None => return None,
        }
    }
    Some(count)
}

/// The number that a further digit makes of one; none where that is too great.
fn with_digit(count: u64, digit: u8) -> Option<u64>
    requires { is_ascii_digit digit ≡ true }
    ensures more { IfSome result (λ more. more ≡ count * 10 + (digit - 48)) }
    ensures great { IsNone result → 2 ^ 64 ≤ count * 10 + (digit - 48) }
{
    if count > u64::MAX / 10 {
        return None;
    }
    let tens = count * 10;
    let ones = u64::from(digit - b'0');
    if ones > u64::MAX - tens {
        return None;
    }
    Some(tens + ones)
}

/// Whether it begins with a digit, and with no zero that another one follows.
fn begins_well(word: &[u8]) -> bool
    ensures { result ≡ begins_well word.now }
{
    match word {
        [] => false,
        [first] => first.is_ascii_digit(),
        [first, second, ..] => {
            first.is_ascii_digit() && !(*first == b'0' && second.is_ascii_digit())
        }
    }
}

/// How many milliseconds a unit has.
fn unit_of(unit: &[u8]) -> Option<u64>
    ensures unit { result ≡ unit_of unit.now }
    ensures some { IfSome result (λ milliseconds. 1 ≤ milliseconds) }
{
    match unit {
        [letter] => of_letter(*letter),
        [first, second] if *first == b'm' && *second == b's' => Some(1),
        _ => None,
    }
}

/// How many milliseconds the unit of that letter has.
fn of_letter(letter: u8) -> Option<u64>
    ensures unit { result ≡ of_letter letter }
    ensures some { IfSome result (λ milliseconds. 1 ≤ milliseconds) }
{
    match letter {
        b's' => Some(1000),
        b'm' => Some(60000),
        b'h' => Some(3600000),
        b'd' => Some(86400000),
        _ => None,
    }
}
