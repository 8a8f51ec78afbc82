// Numbers: decimal digits, and bytes in hex.
ghost use Rattle.std.specs.Prelude.{◌<◌, IfOk, IfSome};

use crate::fail::LineFail;
use std::alloc::Global;

fn is_digit(byte: u8) -> bool {
    matches!(byte, b'0'..=b'9')
}

/// The number that these decimal digits write.
pub(crate) fn number(word: &str) -> Result<u64, LineFail> {
    if !word.bytes().all(is_digit) {
        return Err(LineFail::Malformed);
    }
    match word.parse::<u64>() {
        Ok(value) => Ok(value),
        Err(_) => Err(LineFail::Malformed),
    }
}

/// A number of bytes.
pub(crate) fn count(word: &str) -> Result<usize, LineFail> {
    Ok(number(word)? as usize)
}

/// A number of bytes that isn't 0.
pub(crate) fn positive(word: &str) -> Result<usize, LineFail>
    ensures { IfOk result (λ found. 0 < found) }
{
    match count(word)? {
        0 => Err(LineFail::Malformed),
        found => Ok(found),
    }
}

/// A status.
pub(crate) fn status(word: &str) -> Result<u8, LineFail> {
    match u8::try_from(number(word)?) {
        Ok(value) => Ok(value),
        Err(_) => Err(LineFail::Malformed),
    }
}

/// The numbers, with single spaces between them.
pub(crate) fn numbers(alloc: Global, words: &str) -> Result<Vec<u64>, LineFail> {
    let mut all = Vec::new(alloc);
    for word in words.split(' ') {
        all.push(number(word)?)?;
    }
    Ok(all)
}

fn hex_digit(byte: u8) -> Option<u8>
    ensures { IfSome result (λ digit. digit < 16) }
{
    match byte {
        b'0'..=b'9' => Some(byte - b'0'),
        b'a'..=b'f' => Some(byte - b'a' + 10),
        _ => None,
    }
}

/// The byte that two digits in hex write.
pub(crate) fn hex_byte(word: &str) -> Result<u8, LineFail> {
    match word.as_bytes() {
        [high, low] => match (hex_digit(*high), hex_digit(*low)) {
            (Some(high), Some(low)) => Ok(high * 16 + low),
            _ => Err(LineFail::Malformed),
        },
        _ => Err(LineFail::Malformed),
    }
}
