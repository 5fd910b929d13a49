//! The words of a line, by what they spell.

ghost use Rattle.std.specs.Prelude.{◌≡◌, ◌<◌, ◌↔◌, true, false, Err, IfOk, IsOk, codes, take};
ghost use Rattle.std.specs.Prelude.{◌^◌};
ghost use Rattle.std.specs.Char.{is_ascii_digit};
ghost use Rattle.std.specs.List.{list_all};
ghost use Rattle.std.specs.Option.{option_map};
ghost use Rattle.std.specs.Str.{is_utf8};
ghost use Rattle.s4_types.specs.Judgement.{everyone};
ghost use Rattle.s4_script.specs.Readings.{after_in, at_dot, at_in, at_slash, bytes_in, is_plain, name_in, number_below, number_in, object_in, principal_in, purse_in, serial_in, spelled, texts, user_in, words_in, Gives};
ghost use Rattle.s4_script.specs.declared.error.ParseError.TheVariants as parse_error;

use crate::error::ParseError;
use hex::FromHexError;
use s4_types::{
    After, Bytes, Moment, Name, ObjectId, Principal, Purse, PurseNo, Rights, Serial, User,
};
use std::alloc::Global;

/// The most words that a line has.
const MOST_WORDS: usize = 9;

/// The words of a line. Of a line with too many words there is one more than any line has.
pub fn of_line(alloc: Global, line: &[u8]) -> Result<Vec<&str>, ParseError>
    ensures text { IsOk result → is_utf8 line.now ≡ true }
    ensures words { IfOk result (λ words. texts words.items ≡ take 10 (words_in line.now)) }
    ensures bad { result ≡ Err parse_error.Bad → is_utf8 line.now ≡ false }
{
    let Ok(text) = std::str::from_utf8(line) else {
        return Err(ParseError::Bad);
    };
    let words = text.split(' ').take(MOST_WORDS + 1).collect(alloc)?;
    Ok(words)
}

/// A decimal number without sign and without leading zeros, in the range of its type.
pub fn number<T: TryFrom<u64>>(word: &str) -> Result<T, ParseError>
where
    T::Error: Drop,
{
    T::try_from(number_u64(word)?).map_err(|_| ParseError::Bad)
}

/// A decimal number without sign and without leading zeros.
pub fn number_u64(word: &str) -> Result<u64, ParseError>
    ensures { result ≡ spelled (number_in word.now) }
{
    if !is_plain(word.as_bytes()) {
        return Err(ParseError::Bad);
    }
    word.parse::<u64>().ok().ok_or(ParseError::Bad)
}

/// Whether these are digits alone, of which the first is no 0 that others follow.
fn is_plain(text: &[u8]) -> bool
    ensures { result ≡ is_plain text.now }
{
    (text.len() <= 1 || text[0] != b'0') && are_digits(text)
}

fn are_digits(text: &[u8]) -> bool
    ensures { result ≡ list_all is_ascii_digit text.now }
{
    text.iter().all(|byte| byte.is_ascii_digit())
}

pub fn number_u32(word: &str) -> Result<u32, ParseError>
    ensures { result ≡ spelled (number_below (2 ^ 32) word.now) }
{
    u32::try_from(number_u64(word)?).map_err(|_| ParseError::Bad)
}

pub fn number_u16(word: &str) -> Result<u16, ParseError>
    ensures { result ≡ spelled (number_below (2 ^ 16) word.now) }
{
    u16::try_from(number_u64(word)?).map_err(|_| ParseError::Bad)
}

pub fn number_u8(word: &str) -> Result<u8, ParseError>
    ensures { result ≡ spelled (number_below (2 ^ 8) word.now) }
{
    u8::try_from(number_u64(word)?).map_err(|_| ParseError::Bad)
}

pub fn moment(word: &str) -> Result<Moment, ParseError>
    ensures { result ≡ spelled (number_in word.now) }
{
    Ok(Moment::new(number_u64(word)?))
}

/// The moment that the words name, as `at 9`, or none where there are no words.
#[tactic(auto, unfolding(crate::specs::Readings::at_in))]
pub fn at(words: &[&str]) -> Result<Option<Moment>, ParseError>
    ensures { result ≡ spelled (at_in (texts words.now)) }
{
    if words.is_empty() {
        return Ok(None);
    }
    let [word, tick] = words else {
        return Err(ParseError::Bad);
    };
    if *word != "at" {
        return Err(ParseError::Bad);
    }
    Ok(Some(moment(tick)?))
}

pub fn principal(word: &str) -> Result<Principal, ParseError>
    ensures in_range { IfOk result (λ who. who < 4294967295) }
    ensures value { result ≡ spelled (principal_in word.now) }
{
    Principal::new(number_u32(word)?).ok_or(ParseError::Bad)
}

/// Whom an entry of an ACL is for: a principal, or everyone by that word alone.
#[tactic(auto, unfolding(crate::specs::Readings::user_in))]
pub fn user(word: &str) -> Result<User, ParseError>
    ensures word { IfOk result (λ user. (user ≡ everyone) ↔ (word.now ≡ codes "everyone")) }
    ensures value { result ≡ spelled (user_in word.now) }
{
    match word {
        "everyone" => Ok(User::everyone()),
        _ => Ok(User::from(principal(word)?)),
    }
}

pub fn purse_number(word: &str) -> Result<PurseNo, ParseError>
    ensures { result ≡ spelled (number_below 16 word.now) }
{
    PurseNo::new(number_u8(word)?).ok_or(ParseError::Bad)
}

/// The sum of the rights' numbers, 0 to 31.
pub fn rights(word: &str) -> Result<Rights, ParseError>
    ensures { result ≡ spelled (number_below 32 word.now) }
{
    Rights::new(number_u8(word)?).ok_or(ParseError::Bad)
}

#[tactic(auto, unfolding(crate::specs::Readings::serial_in))]
fn serial(word: &str) -> Result<Serial, ParseError>
    ensures { result ≡ spelled (serial_in word.now) }
{
    Serial::new(number_u16(word)?).ok_or(ParseError::Bad)
}

/// The name of a partition.
#[tactic(auto, unfolding(crate::specs::Readings::name_in))]
pub fn name(word: &str) -> Result<Name, ParseError>
    ensures { result ≡ spelled (name_in word.now) }
{
    Name::new(word.as_bytes()).ok_or(ParseError::Bad)
}

/// The place in a list of partitions that a purse number and a name tell.
#[tactic(auto, unfolding(crate::specs::Readings::after_in))]
pub fn after(number: &str, word: &str) -> Result<After, ParseError>
    ensures { result ≡ spelled (after_in number.now word.now) }
{
    Ok(After {
        number: purse_number(number)?,
        name: name(word)?,
    })
}

/// The parts before and behind the first dot.
fn at_dot(word: &str) -> Option<(&str, &str)>
    ensures { option_map (λ parts. (parts.0.now, parts.1.now)) result ≡ at_dot word.now }
{
    word.split_once('.')
}

/// The parts before and behind the first slash.
pub fn at_slash(word: &str) -> Option<(&str, &str)>
    ensures { option_map (λ parts. (parts.0.now, parts.1.now)) result ≡ at_slash word.now }
{
    word.split_once('/')
}

/// A purse, as `7.0`.
#[tactic(auto, unfolding(crate::specs::Readings::purse_in))]
pub fn purse(word: &str) -> Result<Purse, ParseError>
    ensures { result ≡ spelled (purse_in word.now) }
{
    let (creator, number) = at_dot(word).ok_or(ParseError::Bad)?;
    Ok(Purse {
        creator: principal(creator)?,
        number: purse_number(number)?,
    })
}

/// An object, as `7.0.1`.
#[tactic(auto, unfolding(crate::specs::Readings::object_in))]
pub fn object(word: &str) -> Result<ObjectId, ParseError>
    ensures { result ≡ spelled (object_in word.now) }
{
    let (creator, others) = at_dot(word).ok_or(ParseError::Bad)?;
    let creator = principal(creator)?;
    let (number, last) = at_dot(others).ok_or(ParseError::Bad)?;
    let number = purse_number(number)?;
    Ok(ObjectId {
        purse: Purse { creator, number },
        serial: serial(last)?,
    })
}

/// Bytes as hexadecimal digits in either case, or as the word `empty`.
#[tactic(auto, unfolding(crate::specs::Readings::bytes_in))]
pub fn bytes(alloc: Global, word: &str) -> Result<Bytes, ParseError>
    ensures { Gives result (bytes_in word.now) }
{
    match word {
        "empty" => Ok(Bytes::new()),
        "" => Err(ParseError::Bad),
        digits => match hex::decode(alloc, digits) {
            Ok(bytes) => Ok(Bytes::from_vec(bytes)?),
            Err(FromHexError::OutOfMemory) => Err(ParseError::NoMemory),
            Err(_) => Err(ParseError::Bad),
        },
    }
}
