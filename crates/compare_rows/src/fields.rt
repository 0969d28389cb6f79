//! The written form of encodings, settings, states, bytes and texts in rows.

use crate::unplayed::Unplayed;
use enc_names::{Bom, Encoding, Setting};
use iso2022jp::OutputState;
use std::alloc::{AllocError, Global};

/// The encoding of this name.
pub fn encoding(name: &str) -> Result<Encoding, Unplayed> {
    for encoding in &Encoding::ALL {
        if encoding.name() == name {
            return Ok(*encoding);
        }
    }
    Err(Unplayed::Malformed)
}

/// The setting with the encoding of this name declared. A byte order mark is kept if `keep` follows
/// the name.
pub fn setting(words: &str) -> Result<Setting, Unplayed> {
    match words.strip_suffix(" keep") {
        Some(name) => Ok(Setting::new(encoding(name)?, Bom::Keep)),
        None => Ok(Setting::new(encoding(words)?, Bom::Sniff)),
    }
}

/// The output state of this name.
pub fn output_state(name: &str) -> Result<OutputState, Unplayed> {
    match name {
        "Ascii" => Ok(OutputState::Ascii),
        "Roman" => Ok(OutputState::Roman),
        "Katakana" => Ok(OutputState::Katakana),
        "Jis0208" => Ok(OutputState::Jis0208),
        _ => Err(Unplayed::Malformed),
    }
}

/// Whether a word is the second of two words.
pub fn is_second(word: &str, first: &str, second: &str) -> Result<bool, Unplayed> {
    if word == second {
        return Ok(true);
    }
    if word == first {
        Ok(false)
    } else {
        Err(Unplayed::Malformed)
    }
}

/// The byte of two hexadecimal digits.
fn byte(word: &str) -> Result<u8, Unplayed> {
    u8::from_str_radix(word, 16).map_err(|_| Unplayed::Malformed)
}

/// The bytes of pairs of hexadecimal digits, parted by spaces.
pub fn bytes(alloc: Global, field: &str) -> Result<Vec<u8>, Unplayed> {
    let mut bytes = Vec::new(alloc);
    for word in field.split_whitespace() {
        bytes.push(byte(word)?).map_err(AllocError::from)?;
    }
    Ok(bytes)
}

/// The code point of `U+` and hexadecimal digits.
fn code_point(word: &str) -> Option<char> {
    let number = u32::from_str_radix(word.strip_prefix("U+")?, 16).ok()?;
    char::from_u32(number)
}

/// The text of code points, parted by spaces.
pub fn text(alloc: Global, field: &str) -> Result<String, Unplayed> {
    let mut text = String::new(alloc);
    for word in field.split_whitespace() {
        text.push(code_point(word).ok_or(Unplayed::Malformed)?)?;
    }
    Ok(text)
}

/// Bytes, as they are written in rows.
pub fn hex_of(alloc: Global, bytes: &[u8]) -> Result<String, AllocError> {
    let mut out = String::new(alloc);
    for byte in bytes {
        if !out.is_empty() {
            out.push(' ')?;
        }
        out.push_str(format!(in alloc; "{byte:02X}")?.as_str())?;
    }
    Ok(out)
}
