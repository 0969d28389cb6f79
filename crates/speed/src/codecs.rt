//! The speed of decoding and encoding text, by encoding.

use crate::fastest::Fastest;
use crate::samples::{copies, document, encoding_of};
use codec::{CodecFault, Decoded, decode_whole};
use enc_names::{Bom, Encoding};
use encoders::{EncodeFault, EncodeMode, encode};
use index_files::{EarlyEnd, indexes_in};
use index_loader::Indexes;
use oracle::megabytes_per_second;
use oracle::texts::{EncodingTexts, TEXTS, Text};
use std::alloc::AllocError;
use std::io;
use std::time::{Duration, Instant};

/// The number of times that each document is decoded, and its text encoded.
const ROUNDS: u32 = 20;

/// The measurements of a document.
#[derive(Clone, Copy)]
enum Measured {
    /// The times of decoding it and of encoding its text. The latter needs all index files.
    Speeds(Duration, Option<Duration>),
    /// The number of its errors.
    Errors(usize),
    /// The encoding lacks an index file.
    NoIndex,
}

/// The result of decoding a document.
#[derive(Drop)]
struct DecodedText {
    /// The time of the fastest round.
    time: Duration,
    /// The text.
    text: String,
    /// The number of errors.
    errors: usize,
}

/// Prints how many copies of a text a document has.
fn list_text(rt: &HostRuntime, (kind, text): Text) -> Result<(), EarlyEnd> {
    let times = copies(text);
    let bytes = text.len();
    println!(rt; "  {kind:<9} {times} times {bytes} bytes")?;
    Ok(())
}

/// Prints the name of an encoding, and below it its texts.
fn list_texts(rt: &HostRuntime, texts: &EncodingTexts) -> Result<(), EarlyEnd> {
    let name = texts.name;
    println!(rt; "{name}")?;
    for text in &texts.texts() {
        list_text(rt, *text)?;
    }
    Ok(())
}

/// Prints which texts there are, and how to measure.
pub fn list(rt: &HostRuntime) -> Result<(), EarlyEnd> {
    for texts in &TEXTS {
        list_texts(rt, texts)?;
    }
    println!(rt; "'speed codecs --indexes DIR' measures with the index files in DIR.")?;
    Ok(())
}

/// Prints how fast each text's document is decoded, and its text encoded.
pub fn measure(rt: &HostRuntime, folder: &str) -> Result<(), EarlyEnd> {
    let indexes = indexes_in(rt, rt.alloc(), folder)?;
    measure_over(rt, &indexes)
}

/// Like `measure`, over these index files.
fn measure_over(rt: &HostRuntime, indexes: &Indexes) -> Result<(), EarlyEnd> {
    for texts in &TEXTS {
        measure_texts(rt, indexes, texts)?;
    }
    Ok(())
}

/// Like `measure_over`, for the texts in one encoding.
fn measure_texts(
    rt: &HostRuntime,
    indexes: &Indexes,
    texts: &EncodingTexts,
) -> Result<(), EarlyEnd> {
    let encoding = encoding_of(texts)?;
    for text in &texts.texts() {
        measure_one(rt, indexes, encoding, *text)?;
    }
    Ok(())
}

/// Prints how fast a document is decoded and its text encoded. Both are in bytes of the document.
/// It prints the number of errors too, if the index files don't have all its characters.
fn measure_one(
    rt: &HostRuntime,
    indexes: &Indexes,
    encoding: Encoding,
    (kind, text): Text,
) -> Result<(), EarlyEnd> {
    let bytes = document(rt.alloc(), text)?;
    let measured = speeds_of(rt, indexes, encoding, &bytes)?;
    print_measured(rt, (encoding.name(), kind), bytes.len(), measured)
}

/// Measures a document.
fn speeds_of(
    rt: &HostRuntime,
    indexes: &Indexes,
    encoding: Encoding,
    document: &[u8],
) -> Result<Measured, EarlyEnd> {
    match fastest_decoding(rt, indexes, encoding, document)? {
        Some(decoded) => speeds_of_decoded(rt, indexes, encoding, &decoded),
        None => Ok(Measured::NoIndex),
    }
}

/// Measures a document that was decoded.
fn speeds_of_decoded(
    rt: &HostRuntime,
    indexes: &Indexes,
    encoding: Encoding,
    decoded: &DecodedText,
) -> Result<Measured, EarlyEnd> {
    if decoded.errors > 0 {
        return Ok(Measured::Errors(decoded.errors));
    }
    let back = fastest_encoding(rt, indexes, encoding, decoded.text.as_str())?;
    Ok(Measured::Speeds(decoded.time, back))
}

/// Prints what was measured of a document of `bytes` bytes.
fn print_measured(
    rt: &HostRuntime,
    names: (&str, &str),
    bytes: usize,
    measured: Measured,
) -> Result<(), EarlyEnd> {
    match measured {
        Measured::Speeds(time, back) => {
            let speed = megabytes_per_second(bytes, time);
            let back = back.map_or(0, |time| megabytes_per_second(bytes, time));
            print_speeds(rt, names, speed, back)?;
        }
        Measured::Errors(errors) => print_errors(rt, names, errors)?,
        Measured::NoIndex => print_no_index(rt, names)?,
    }
    Ok(())
}

/// Prints how fast a document is decoded and its text encoded.
fn print_speeds(
    rt: &HostRuntime,
    (name, kind): (&str, &str),
    speed: u128,
    back: u128,
) -> io::Result<()> {
    println!(rt; "{name:<13} {kind:<9} {speed:>6} {back:>6} MB/s decoded, encoded")
}

/// Prints how many errors a document has.
fn print_errors(rt: &HostRuntime, (name, kind): (&str, &str), errors: usize) -> io::Result<()> {
    println!(rt; "{name:<13} {kind:<9} {errors} errors")
}

/// Prints that an encoding lacks an index file.
fn print_no_index(rt: &HostRuntime, (name, kind): (&str, &str)) -> io::Result<()> {
    println!(rt; "{name:<13} {kind:<9} no index")
}

/// Decodes a document. `None` if the encoding lacks an index file.
fn decoded(
    rt: &HostRuntime,
    indexes: &Indexes,
    encoding: Encoding,
    document: &[u8],
) -> Result<Option<Decoded>, AllocError> {
    match decode_whole(rt.alloc(), indexes, encoding, Bom::Sniff, document) {
        Ok(decoded) => Ok(Some(decoded)),
        Err(CodecFault::NoIndex) => Ok(None),
        Err(CodecFault::OutOfMemory) => Err(AllocError),
        Err(CodecFault::Malformed(_)) => unreachable!(),
    }
}

/// Times one decoding of a document. `None` if the encoding lacks an index file.
fn time_decoding(
    rt: &HostRuntime,
    indexes: &Indexes,
    encoding: Encoding,
    document: &[u8],
    best: &mut Fastest,
) -> Result<Option<Decoded>, EarlyEnd> {
    let start = Instant::now(rt)?;
    let found = decoded(rt, indexes, encoding, document)?;
    if let Some(decoded) = &found {
        best.take(rt, start, decoded.text.len())?;
    }
    Ok(found)
}

/// The fastest of some decodings of a document. `None` if the encoding lacks an index file.
fn fastest_decoding(
    rt: &HostRuntime,
    indexes: &Indexes,
    encoding: Encoding,
    document: &[u8],
) -> Result<Option<DecodedText>, EarlyEnd> {
    let mut best = Fastest::new();
    for _ in 1..ROUNDS {
        // Each is freed before the clock is looked at again, so that each round finds the same memory.
        time_decoding(rt, indexes, encoding, document, &mut best)?;
    }
    let last = time_decoding(rt, indexes, encoding, document, &mut best)?;
    let time = best.time;
    Ok(last.map(|decoded| DecodedText {
        time,
        errors: decoded.errors.len(),
        text: decoded.text,
    }))
}

/// The time of the fastest of some encodings of a text. `None` if the encoding lacks an index file.
fn fastest_encoding(
    rt: &HostRuntime,
    indexes: &Indexes,
    encoding: Encoding,
    text: &str,
) -> Result<Option<Duration>, EarlyEnd> {
    let mut best = Fastest::new();
    for _ in 0..ROUNDS {
        if !time_encoding(rt, indexes, encoding, text, &mut best)? {
            return Ok(None);
        }
    }
    Ok(Some(best.time))
}

/// One encoding of a text, timed; says whether the encoding has its index files.
fn time_encoding(
    rt: &HostRuntime,
    indexes: &Indexes,
    encoding: Encoding,
    text: &str,
    best: &mut Fastest,
) -> Result<bool, EarlyEnd> {
    let start = Instant::now(rt)?;
    match encoded(rt, indexes, encoding, text)? {
        Some(bytes) => best.take(rt, start, bytes.len())?,
        None => return Ok(false),
    }
    Ok(true)
}

/// Encodes a text. `None` if the encoding lacks an index file.
fn encoded(
    rt: &HostRuntime,
    indexes: &Indexes,
    encoding: Encoding,
    text: &str,
) -> Result<Option<Vec<u8>>, AllocError> {
    match encode(rt.alloc(), encoding, indexes, EncodeMode::Html, text) {
        Ok(bytes) => Ok(Some(bytes)),
        Err(EncodeFault::OutOfMemory) => Err(AllocError),
        Err(_) => Ok(None),
    }
}
