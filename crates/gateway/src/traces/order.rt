//! The order on a line of a trace's head.
ghost use Rattle.std.specs.Prelude.{◌≡◌, ◌≤◌, ◌&&◌, nat_le, IfSome, length, option_map, string_bytes};
ghost use Rattle.std.specs.{Fmt.decimal, Str.bytes_eq};
ghost use Rattle.desk.specs.Documents.{max_number};
ghost use Rattle.gateway.specs.Head.{adoption, as_name, bom_in, described, described_as, encoding_among, encoding_in};
ghost use Rattle.gateway.specs.Head.{name_in, order_of_words, order_on, revision_in};
ghost use Rattle.gateway.specs.Orders.{ReadsAdoption, ReadsName, ReadsOrder};

use crate::traces::event::{TRACE_LIMIT, decoded, first_space};
use crate::traces::line::begins_comment;
use base64::DecodeAllocError;
use base64::engine::general_purpose::STANDARD;
use desk::MAX_NUMBER;
use enc_names::{Bom, Encoding, Setting};
use itoa::Buffer;
use std::alloc::{AllocError, Global};
use std::str;

/// The most bytes of a document's name.
const MAX_NAME_LEN: usize = 64;

/// What a line of a head says.
#[derive(Drop)]
pub(crate) enum TraceOrder {
    /// Nothing: the line is a comment.
    Comment,
    /// Bytes of the document that is adopted next.
    Part(Vec<u8>),
    /// That a document is adopted.
    Adoption(TraceAdoption),
}

/// A document that is adopted, without its bytes.
#[derive(Drop)]
pub(crate) struct TraceAdoption {
    /// Its name, of 1 to 64 bytes.
    pub(super) name: String,
    /// How its bytes are read.
    pub(super) setting: Setting,
    /// Its revision, at most 2^53 - 1.
    pub(super) revision: u64,
}

/// The order on a line, if it has one.
///
/// # Errors
///
/// Memory ran out.
pub(super) fn order_on_line(alloc: Global, line: &[u8]) -> Result<Option<TraceOrder>, AllocError>
    ensures { ReadsOrder (order_on line.now) result }
{
    if begins_comment(line) {
        return Ok(Some(TraceOrder::Comment));
    }
    order_of_words(alloc, line)
}

/// The order on a line that isn't a comment.
fn order_of_words(alloc: Global, line: &[u8]) -> Result<Option<TraceOrder>, AllocError>
    ensures { ReadsOrder (order_of_words line.now) result }
{
    if line.len() > TRACE_LIMIT {
        return Ok(None);
    }
    if let Some(word) = line.strip_prefix(b"part ") {
        return match decoded(alloc, word)? {
            Some(bytes) => Ok(Some(TraceOrder::Part(bytes))),
            None => Ok(None),
        };
    }
    if let Some(words) = line.strip_prefix(b"adopt ") {
        return match adoption(alloc, words)? {
            Some(adoption) => Ok(Some(TraceOrder::Adoption(adoption))),
            None => Ok(None),
        };
    }
    Ok(None)
}

/// `NAME ENCODING BOM REV`.
fn adoption(alloc: Global, words: &[u8]) -> Result<Option<TraceAdoption>, AllocError>
    ensures { ReadsAdoption (adoption words.now) result }
{
    let Some(end) = first_space(words) else {
        return Ok(None);
    };
    let Some(name) = name(alloc, &words[..end])? else {
        return Ok(None);
    };
    match described(&words[end + 1..]) {
        Some((setting, revision)) => Ok(Some(TraceAdoption {
            name,
            setting,
            revision,
        })),
        None => Ok(None),
    }
}

/// A name in base64.
fn name(alloc: Global, word: &[u8]) -> Result<Option<String>, AllocError>
    ensures { ReadsName (name_in word.now) result }
{
    match STANDARD.decode(alloc, word) {
        Ok(bytes) => Ok(as_name(bytes)),
        Err(DecodeAllocError::DecodeError(_)) => Ok(None),
        Err(DecodeAllocError::OutOfMemory) => Err(AllocError),
    }
}

/// A text of 1 to 64 bytes of UTF-8.
fn as_name(bytes: Vec<u8>) -> Option<String>
    ensures is { option_map string_bytes result ≡ as_name bytes.items }
    ensures bounds { IfSome result (λ s. (1 ≤ length (string_bytes s)) × (length (string_bytes s) ≤ 64)) }
{
    let len = bytes.len();
    if len == 0 || len > MAX_NAME_LEN {
        return None;
    }
    match String::from_utf8(bytes) {
        Ok(name) => Some(name),
        Err(_) => None,
    }
}

/// `ENCODING BOM REV`.
fn described(words: &[u8]) -> Option<(Setting, u64)>
    ensures is { result ≡ described words.now }
    ensures bound { IfSome result (λ d. d.1 ≤ max_number) }
{
    let end = first_space(words)?;
    let given = encoding_in(&words[..end])?;
    described_as(given, &words[end + 1..])
}

/// `BOM REV`, after the encoding.
fn described_as(given: Encoding, words: &[u8]) -> Option<(Setting, u64)>
    ensures is { result ≡ described_as given words.now }
    ensures bound { IfSome result (λ d. d.1 ≤ max_number) }
{
    let end = first_space(words)?;
    let bom = bom_in(&words[..end])?;
    let revision = revision_in(&words[end + 1..])?;
    Some((Setting::new(given, bom), revision))
}

/// The encoding whose name the word is.
#[tactic(auto, unfolding(crate::specs::Head::encoding_in))]
fn encoding_in(word: &[u8]) -> Option<Encoding>
    ensures { result ≡ encoding_in word.now }
{
    encoding_among(&Encoding::ALL, word)
}

/// The first of these whose name the word is.
fn encoding_among(encodings: &[Encoding], word: &[u8]) -> Option<Encoding>
    ensures { result ≡ encoding_among encodings.now word.now }
{
    for encoding in encodings {
        if encoding.name().as_bytes() == word {
            return Some(*encoding);
        }
    }
    None
}

fn bom_in(word: &[u8]) -> Option<Bom>
    ensures { result ≡ bom_in word.now }
{
    match word {
        b"sniff" => Some(Bom::Sniff),
        b"keep" => Some(Bom::Keep),
        _ => None,
    }
}

/// The revision whose decimal digits the word is.
fn revision_in(word: &[u8]) -> Option<u64>
    ensures is { result ≡ revision_in word.now }
    ensures bound { IfSome result (λ n. n ≤ max_number) }
{
    let Ok(text) = str::from_utf8(word) else {
        return None;
    };
    let Ok(n) = u64::from_str_radix(text, 10) else {
        return None;
    };
    if is_revision(n, word) { Some(n) } else { None }
}

/// Whether the word is this number in decimal, and it is a revision.
fn is_revision(n: u64, word: &[u8]) -> bool
    ensures { result ≡ (bytes_eq (decimal n) word.now && nat_le n max_number) }
{
    Buffer::new().format(n).as_bytes() == word && n <= MAX_NUMBER
}
