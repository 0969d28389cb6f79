//! Pieces over small indexes, cut at each byte, against decoding the bytes whole.

use crate::indexes::small_indexes;
use codec::{CodecFault, Prefix, decode_whole};
use decoder_core::{Meter, meter};
use enc_names::{Bom, Encoding};
use index_loader::Indexes;
use state_memo::{
    AnyDecoder, AnyState, Ended, OutOfMemory, Outcome, OutputState, Piece, finish_of, start_of,
};
use std::alloc::Global;
use std::process::Abort;
use std::test::Fail;

mod forgetting;
mod items;

use items::{Turn, is_shaped};

/// Decodes the piece from this state. It has the one call of `Piece::compute` here: proving a
/// function with that call takes half a minute.
fn computed(
    piece: &Piece,
    decoder: &AnyDecoder<'_>,
    entry: AnyState,
    meter: &mut Meter,
) -> Result<Outcome, OutOfMemory> {
    piece.compute(decoder, entry, meter)
}

/// Decodes a piece of the bytes from this state.
fn outcome_from(
    alloc: Global,
    decoder: &AnyDecoder<'_>,
    entry: AnyState,
    bytes: &[u8],
    meter: &mut Meter,
) -> Result<Outcome, OutOfMemory> {
    let piece = Piece::new(alloc, bytes)?;
    computed(&piece, decoder, entry, meter)
}

/// A trial of a decoder.
#[derive(Clone, Copy)]
enum Trial<'a> {
    /// The text of two pieces of the bytes and the end, wherever the cut is.
    Cut(&'a [u8], &'a str),
    /// The decoding of a piece of the second bytes after the first bytes.
    Behind(&'a [u8], &'a [u8], Shape<'a>),
    /// The bytes have no text, and the end gives an error.
    CutShort(&'a [u8]),
    /// A fifth outcome forgets the one that was entered longest ago.
    Forgets,
}

/// The shape of an outcome.
#[derive(Clone, Copy)]
enum Shape<'a> {
    /// One run, whose last item this is.
    OneRun(Ended),
    /// Code points that end there.
    Ends(&'a [i64]),
    /// Two items in turn, and the number of both together.
    Turns(Turn, Turn, u64),
    /// The bytes of memory that text and items take.
    Memory(u64),
    /// A pair of bytes that is two code points, and a letter.
    TwoCodePoints,
    /// A yen sign after an escape.
    Yen,
}

/// Tries it with a decoder of the encoding over small indexes. Here as below a function has one value
/// of a large type, as the indexes, a decoder or an outcome: with several it would be long to prove.
fn is_tried(
    rt: &impl Abort,
    alloc: Global,
    encoding: Encoding,
    trial: Trial<'_>,
) -> Result<(), Fail> {
    let indexes = small_indexes(alloc)?;
    is_tried_over(rt, alloc, &indexes, encoding, trial)
}

fn is_tried_over(
    rt: &impl Abort,
    alloc: Global,
    indexes: &Indexes,
    encoding: Encoding,
    trial: Trial<'_>,
) -> Result<(), Fail> {
    let decoder = AnyDecoder::new(indexes, encoding, Bom::Sniff);
    match &decoder {
        Some(decoder) => Ok(is_tried_by(rt, alloc, decoder, trial)?),
        None => Err(Fail::from(CodecFault::NoIndex)),
    }
}

fn is_tried_by(
    rt: &impl Abort,
    alloc: Global,
    decoder: &AnyDecoder<'_>,
    trial: Trial<'_>,
) -> Result<(), OutOfMemory> {
    match trial {
        Trial::Cut(bytes, text) => decodes_cut(rt, alloc, decoder, bytes, text),
        Trial::Behind(before, bytes, shape) => {
            has_shape(rt, alloc, decoder, (before, bytes), shape)
        }
        Trial::CutShort(bytes) => ends_in_an_error(rt, alloc, decoder, bytes),
        Trial::Forgets => forgetting::forgets_the_first(rt, alloc, decoder),
    }
}

/// Appends the text of a piece of the bytes, and returns the state after it.
fn put_piece(
    alloc: Global,
    decoder: &AnyDecoder<'_>,
    entry: AnyState,
    bytes: &[u8],
    text: &mut String,
    meter: &mut Meter,
) -> Result<AnyState, OutOfMemory> {
    let here = outcome_from(alloc, decoder, entry, bytes, meter)?;
    text.push_str(here.text().as_str())?;
    Ok(here.exit())
}

/// Appends the text that the end gives.
fn put_end(
    alloc: Global,
    decoder: &AnyDecoder<'_>,
    state: AnyState,
    text: &mut String,
) -> Result<(), OutOfMemory> {
    let last = finish_of(alloc, decoder, state)?;
    text.push_str(last.text().as_str())?;
    Ok(())
}

/// The texts of two pieces and of the end, in sequence.
fn text_of_two(
    alloc: Global,
    decoder: &AnyDecoder<'_>,
    (front, back): (&[u8], &[u8]),
    meter: &mut Meter,
) -> Result<String, OutOfMemory> {
    let mut text = String::new(alloc);
    let state = put_piece(alloc, decoder, start_of(decoder), front, &mut text, meter)?;
    let state = put_piece(alloc, decoder, state, back, &mut text, meter)?;
    put_end(alloc, decoder, state, &mut text)?;
    Ok(text)
}

/// Whether two pieces of the bytes and the end have this text. Each byte must be decoded once.
fn is_text_of_two(
    alloc: Global,
    decoder: &AnyDecoder<'_>,
    bytes: &[u8],
    cut: usize,
    text: &str,
) -> Result<bool, OutOfMemory> {
    let mut decoded = meter();
    let whole = text_of_two(
        alloc,
        decoder,
        bytes.split_at(cut.min(bytes.len())),
        &mut decoded,
    )?;
    Ok(whole.as_str() == text && decoded.decoded() == bytes.len() as u64)
}

/// Asserts that two pieces and the end have this text, wherever the cut is.
fn decodes_cut(
    rt: &impl Abort,
    alloc: Global,
    decoder: &AnyDecoder<'_>,
    bytes: &[u8],
    text: &str,
) -> Result<(), OutOfMemory> {
    for cut in 0..bytes.len() {
        let same = is_text_of_two(alloc, decoder, bytes, cut, text)?;
        assert!(rt; same, "cut at {cut}, for {text}");
    }
    Ok(())
}

/// Whether decoding the bytes whole gives this text.
fn is_text_of_whole(
    alloc: Global,
    encoding: Encoding,
    bytes: &[u8],
    text: &str,
) -> Result<bool, Fail> {
    let indexes = small_indexes(alloc)?;
    let whole = decode_whole(alloc, &indexes, encoding, Bom::Sniff, bytes)?;
    Ok(whole.text.as_str() == text)
}

/// Asserts that two pieces and the end have this text, wherever the cut is. Decoding them whole
/// must give it too.
fn decodes(
    rt: &impl Abort,
    alloc: Global,
    encoding: Encoding,
    bytes: &[u8],
    text: &str,
) -> Result<(), Fail> {
    let same = is_text_of_whole(alloc, encoding, bytes, text)?;
    assert!(rt; same, "{text}");
    is_tried(rt, alloc, encoding, Trial::Cut(bytes, text))
}

/// Texts of each family, complete or cut, and of each byte order mark.
const FAMILIES: [(Encoding, &[u8], &str); 16] = [
    (
        Encoding::Utf8,
        b"a\xE2\x82\xACb\xF0\x9F\x98",
        "a\u{20AC}b\u{FFFD}",
    ),
    (Encoding::Windows1252, b"\x80A\x81", "\u{20AC}A\u{FFFD}"),
    (Encoding::ShiftJis, b"A\x82\xA0\x81", "A\u{3042}\u{FFFD}"),
    (
        Encoding::EucJp,
        b"A\x8F\xA2\xAF\xA4\xA2",
        "A\u{2D8}\u{3042}",
    ),
    (Encoding::Iso2022Jp, b"A\x1B$B$\"\x1B(BA", "A\u{3042}A"),
    (Encoding::EucKr, b"A\xB0\xA1\xB0A", "A\u{AC00}\u{FFFD}A"),
    (
        Encoding::Big5,
        b"A\xA4\x40\x88\x62",
        "A\u{4E00}\u{CA}\u{304}",
    ),
    (
        Encoding::Gb18030,
        b"A\x81A\x810\x81A",
        "A\u{4E04}\u{FFFD}0\u{4E04}",
    ),
    (Encoding::Gbk, b"A\x81\x41\x80", "A\u{4E04}\u{20AC}"),
    (Encoding::Utf16Be, b"\0A\x30\x42\xD8", "A\u{3042}\u{FFFD}"),
    (Encoding::Utf16Le, b"A\0\x3D\xD8\0\xDEB\0", "A\u{1F600}B"),
    (Encoding::XUserDefined, b"A\x80", "A\u{F780}"),
    (Encoding::Replacement, b"AB", "\u{FFFD}"),
    (Encoding::Windows1252, b"\xEF\xBB\xBF\xC2\xA3", "\u{A3}"),
    (Encoding::ShiftJis, b"\xFF\xFEA\0B\0", "AB"),
    (Encoding::Utf8, b"\xFE\xFF\0A", "A"),
];

#[test]
fn each_family_of_encodings(rt: HostRuntime) -> Result<(), Fail> {
    for (encoding, bytes, text) in &FAMILIES {
        decodes(&rt, rt.alloc(), *encoding, bytes, text)?;
    }
    Ok(())
}

/// The state after these bytes.
fn exit_of(alloc: Global, decoder: &AnyDecoder<'_>, bytes: &[u8]) -> Result<AnyState, OutOfMemory> {
    let mut text = String::new(alloc);
    put_piece(
        alloc,
        decoder,
        start_of(decoder),
        bytes,
        &mut text,
        &mut meter(),
    )
}

/// Asserts that a piece of the second bytes has this shape after the first.
fn has_shape(
    rt: &impl Abort,
    alloc: Global,
    decoder: &AnyDecoder<'_>,
    (before, bytes): (&[u8], &[u8]),
    shape: Shape<'_>,
) -> Result<(), OutOfMemory> {
    let entry = exit_of(alloc, decoder, before)?;
    let here = outcome_from(alloc, decoder, entry, bytes, &mut meter())?;
    assert!(rt; is_shaped(&here, shape), "{bytes:?}");
    Ok(())
}

/// Asserts that a piece, entered after its first two bytes, has this shape.
fn has_shape_behind_two(
    rt: &impl Abort,
    alloc: Global,
    encoding: Encoding,
    bytes: &[u8],
    shape: Shape<'_>,
) -> Result<(), Fail> {
    let (front, _) = bytes.split_at(bytes.len().min(2));
    is_tried(rt, alloc, encoding, Trial::Behind(front, bytes, shape))
}

/// An item of one code point, which ends there.
fn one(end: i64, error: bool, output: OutputState) -> Ended {
    Ended {
        scalars: 1,
        end,
        error,
        output,
    }
}

/// An error that the end gives, which has no byte.
fn is_error_at_the_end(last: &Outcome) -> bool {
    last.text().as_str() == "\u{FFFD}"
        && last.items().last() == Some(one(0, true, OutputState::Ascii))
        && last.sum().errors == 1
        && last.sum().bytes == 0
}

/// The bytes have no text, and the end gives an error.
fn ends_in_an_error(
    rt: &impl Abort,
    alloc: Global,
    decoder: &AnyDecoder<'_>,
    bytes: &[u8],
) -> Result<(), OutOfMemory> {
    let mut text = String::new(alloc);
    let start = start_of(decoder);
    let exit = put_piece(alloc, decoder, start, bytes, &mut text, &mut meter())?;
    assert!(rt; text.as_str() == "");
    let last = finish_of(alloc, decoder, exit)?;
    assert!(rt; is_error_at_the_end(&last));
    Ok(())
}

#[test]
fn utf8_sequence_cut_short_by_the_end(rt: HostRuntime) -> Result<(), Fail> {
    let trial = Trial::CutShort(b"\xF0\x9F\x98");
    is_tried(&rt, rt.alloc(), Encoding::Utf8, trial)
}
