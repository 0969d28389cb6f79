//! The event on a line of a trace.
ghost use Rattle.std.specs.Prelude.{◌≡◌, ◌+◌, ◌<◌, take, drop, length, None, Some, MatchOption};
ghost use Rattle.std.specs.{Fmt.decimal, Str.bytes_eq};
ghost use Rattle.gateway.specs.Trace.{event_on, bringing, number_in, before_space, after_space};
ghost use Rattle.gateway.specs.Tracing.{Decodes, Reads};

use base64::DecodeAllocError;
use base64::engine::general_purpose::STANDARD;
use itoa::Buffer;
use memchr::memchr;
use std::alloc::{AllocError, Global};
use std::str;

/// The most bytes of a line that isn't skipped, its line feed left out.
pub(super) const TRACE_LIMIT: usize = 6_291_456;

/// An event of a trace, on the connection of this number.
#[derive(Drop)]
pub(crate) enum TraceEvent {
    /// The connection opens.
    Open(u8),
    /// Bytes were received.
    Bytes(u8, Vec<u8>),
    /// The connection closes.
    Close(u8),
}

/// The event on a line, if it has one.
///
/// # Errors
///
/// Memory ran out. This happens only if the line begins with `bytes`.
pub(super) fn event_on_line(alloc: Global, line: &[u8]) -> Result<Option<TraceEvent>, AllocError>
    ensures { Reads (event_on line.now) result }
{
    if line.len() > TRACE_LIMIT {
        return Ok(None);
    }
    if let Some(word) = line.strip_prefix(b"open ") {
        return match number(word) {
            Some(c) => Ok(Some(TraceEvent::Open(c))),
            None => Ok(None),
        };
    }
    if let Some(words) = line.strip_prefix(b"bytes ") {
        return bytes(alloc, words);
    }
    if let Some(word) = line.strip_prefix(b"close ") {
        return match number(word) {
            Some(c) => Ok(Some(TraceEvent::Close(c))),
            None => Ok(None),
        };
    }
    Ok(None)
}

/// The event of a number, a space and base64.
fn bytes(alloc: Global, words: &[u8]) -> Result<Option<TraceEvent>, AllocError>
    ensures { Reads (bringing words.now) result }
{
    let Some(end) = first_space(words) else {
        return Ok(None);
    };
    let Some(c) = number(&words[..end]) else {
        return Ok(None);
    };
    match decoded(alloc, &words[end + 1..])? {
        Some(bytes) => Ok(Some(TraceEvent::Bytes(c, bytes))),
        None => Ok(None),
    }
}

/// The index of the first space.
pub(super) fn first_space(words: &[u8]) -> Option<usize>
    ensures { MatchOption result (after_space words.now ≡ None)
        (λ k. (k < length words.now) × (before_space words.now ≡ take k words.now) × (after_space words.now ≡ Some (drop (k + 1) words.now))) }
{
    memchr(b' ', words)
}

/// The bytes of a base64 text that isn't empty.
pub(super) fn decoded(alloc: Global, text: &[u8]) -> Result<Option<Vec<u8>>, AllocError>
    ensures { Decodes text.now result }
{
    if text.is_empty() {
        return Ok(None);
    }
    match STANDARD.decode(alloc, text) {
        Ok(bytes) => Ok(Some(bytes)),
        Err(DecodeAllocError::DecodeError(_)) => Ok(None),
        Err(DecodeAllocError::OutOfMemory) => Err(AllocError),
    }
}

/// The number that a word writes in decimal. The parser also accepts a sign and leading zeros, but
/// such a word isn't a number here.
fn number(word: &[u8]) -> Option<u8>
    ensures { result ≡ number_in word.now }
{
    let Ok(text) = str::from_utf8(word) else {
        return None;
    };
    let Ok(n) = u8::from_str_radix(text, 10) else {
        return None;
    };
    if is_decimal(n, word) { Some(n) } else { None }
}

/// Whether the word is this number in decimal.
fn is_decimal(n: u8, word: &[u8]) -> bool
    ensures { result ≡ bytes_eq (decimal n) word.now }
{
    Buffer::new().format(n).as_bytes() == word
}
