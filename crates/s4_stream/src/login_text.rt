//! The lines of a text of logins, and their words.

ghost use Rattle.std.specs.Prelude.{◌≡◌};
ghost use Rattle.s4_stream.specs.LoginText.{before, behind, number_in, is_plain, if_principal, principal_in, secret_in, login_of};

/// The bytes before and behind the first such byte, where there is one.
pub fn split_at_byte(bytes: &[u8], byte: u8) -> (&[u8], &[u8])
    ensures front { result.0.now ≡ before byte bytes.now }
    ensures rest { result.1.now ≡ behind byte bytes.now }
{
    for i in 0..bytes.len() {
        if bytes[i] == byte {
            return (&bytes[..i], &bytes[i + 1..]);
        }
    }
    (bytes, &[])
}

/// The login that a line spells.
pub fn login_in(line: &[u8]) -> Option<(u32, [u8; 16])>
    ensures { result ≡ login_of line.now }
{
    let (principal, secret) = split_at_byte(line, b' ');
    let who = principal_in(principal)?;
    Some((who, secret_in(secret)?))
}

/// The principal that a word spells, in decimal digits without a leading zero.
pub fn principal_in(word: &[u8]) -> Option<u32>
    ensures { result ≡ principal_in word.now }
{
    if !is_plain(word) {
        return None;
    }
    number_in(word)
}

/// Whether something is there, and no zero before other bytes.
fn is_plain(word: &[u8]) -> bool
    ensures { result ≡ is_plain word.now }
{
    match word {
        [] => false,
        [_] => true,
        [first, ..] => *first != b'0',
    }
}

/// The number of a principal that decimal digits spell.
fn number_in(word: &[u8]) -> Option<u32>
    ensures { result ≡ if_principal (number_in 0 word.now) }
{
    let mut value: u64 = 0;
    for digit in word {
        if !digit.is_ascii_digit() {
            return None;
        }
        value = value * 10 + u64::from(*digit - b'0');
        if value >= u64::from(u32::MAX) {
            return None;
        }
    }
    Some(value as u32)
}

/// The secret that 32 hexadecimal digits spell, in either case.
pub fn secret_in(word: &[u8]) -> Option<[u8; 16]>
    ensures { result ≡ secret_in word.now }
{
    let mut secret = [0; 16];
    match hex::decode_to_slice(word, &mut secret) {
        Ok(()) => Some(secret),
        Err(_) => None,
    }
}
