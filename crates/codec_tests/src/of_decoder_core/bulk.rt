//! Tests of what decoders take in bulk: no clause asks them to take any byte.
ghost use Rattle.std.specs.Prelude.{◌≤◌};

use crate::in_turn::is_in_turn;
use crate::indexes::WINDOWS_1252;
use decoder_core::{
    Bulk, ByteOrder, Decoder, Item, LONGEST_RUN, NO_BULK, Placed, ReplacementDecoder,
    SingleByteDecoder, Stride, Utf8Decoder, Utf16Decoder, XUserDefinedDecoder, decode_parts, meter,
    own_piece,
};
use enc_names::{Encoding, Scalar};
use index_loader::{Index, IndexKind};
use std::alloc::AllocError;
use std::process::Abort;
use std::test::Fail;

/// Letters, more than a lane has bytes.
const LETTERS: [u8; 64] = [0x61; 64];

/// Takes the bytes in bulk in a state.
fn taken<D: Decoder>(decoder: &D, state: D::State, bytes: &[u8]) -> Bulk {
    let mut block = [0; 1024];
    decoder.bulk(state, bytes, &mut block)
}

/// Counts the letters that the decoder takes in its first state.
fn letters_taken<D: Decoder>(decoder: &D) -> usize {
    taken(decoder, decoder.start(), &LETTERS).taken
}

/// Whether the decoder takes all these bytes in its first state. It must write this text for them.
fn takes<D: Decoder>(decoder: &D, bytes: &[u8], text: &str, stride: Stride) -> bool {
    let mut block = [0; 1024];
    let all = Bulk {
        taken: bytes.len(),
        written: text.len(),
        stride,
    };
    let found = decoder.bulk(decoder.start(), bytes, &mut block);
    found == all && block.starts_with(text.as_bytes())
}

#[test]
fn ascii_where_a_character_is_a_byte(rt: HostRuntime) -> Result<(), Fail> {
    let kind = IndexKind::SingleByte(Encoding::Windows1252);
    let index = Index::parse(rt.alloc(), kind, WINDOWS_1252)?;
    assert!(rt; letters_taken(&SingleByteDecoder::new(&index)) == 64);
    assert!(rt; letters_taken(&XUserDefinedDecoder) == 64);
    assert!(rt; letters_taken(&ReplacementDecoder) == 0);
    Ok(())
}

/// Counts the bytes that are their own text in the decoder's first state.
fn own_text<D: Decoder>(decoder: &D, bytes: &[u8]) -> usize {
    decoder.own_text(decoder.start(), bytes)
}

#[test]
fn ascii_is_its_own_text(rt: HostRuntime) -> Result<(), Fail> {
    let kind = IndexKind::SingleByte(Encoding::Windows1252);
    let index = Index::parse(rt.alloc(), kind, WINDOWS_1252)?;
    let decoder = SingleByteDecoder::new(&index);
    assert!(rt; own_text(&decoder, &LETTERS) == 64);
    // A run that a byte above ASCII ends, one too short to pay, and one longer than is taken.
    let mut bytes = [b'a'; LONGEST_RUN + 1];
    assert!(rt; own_text(&decoder, &bytes) == LONGEST_RUN);
    assert!(rt; own_text(&decoder, &bytes[..15]) == 0);
    bytes[63] = 0x80;
    assert!(rt; own_text(&decoder, &bytes) == 63);
    assert!(rt; own_text(&decoder, &bytes[60..]) == 0);
    assert!(rt; own_text(&ReplacementDecoder, &LETTERS) == 0);
    Ok(())
}

/// The decoder takes a byte above ASCII and a letter in turn. It takes up to the first 256, and
/// writes their text.
fn expect_bytes<D: Decoder>(
    rt: &impl Abort,
    decoder: &D,
    byte: u8,
    code_point: char,
) -> Result<(), Fail> {
    let mut bytes = [b'a'; 257];
    for at in 0..=128 {
        bytes[2 * at] = byte;
    }
    for count in 0..=257 {
        let mut block = [0; 1024];
        let bulk = decoder.bulk(decoder.start(), &bytes[..count], &mut block);
        assert!(rt; bulk.taken == count.min(256) && bulk.stride == Stride::Bytes);
        let text = str::from_utf8(&block[..bulk.written])?;
        assert!(rt; is_in_turn(text, bulk.taken, code_point));
    }
    Ok(())
}

#[test]
fn bytes_that_are_characters(rt: HostRuntime) -> Result<(), Fail> {
    let kind = IndexKind::SingleByte(Encoding::Windows1252);
    let index = Index::parse(rt.alloc(), kind, WINDOWS_1252)?;
    let decoder = SingleByteDecoder::new(&index);
    expect_bytes(&rt, &decoder, 0x80, '\u{20AC}')?;
    // A byte without a code point.
    assert!(rt; taken(&decoder, decoder.start(), b"\x80a\x81a").taken == 2);
    expect_bytes(&rt, &XUserDefinedDecoder, 0xFF, '\u{F7FF}')
}

#[test]
fn utf8_is_its_own_text(rt: HostRuntime) {
    let text = "a\u{E9}\u{672C}\u{1F600}".as_bytes();
    // All of it; a character that is cut short isn't.
    for (count, own) in [0, 1, 1, 3, 3, 3, 6, 6, 6, 6, 10].iter().enumerate() {
        assert!(rt; own_text(&Utf8Decoder, &text[..count.min(text.len())]) == *own);
    }
    assert!(rt; own_text(&Utf8Decoder, b"a\xE9b") == 1);
    assert!(rt; own_text(&Utf8Decoder, b"\xE9b") == 0);
    let pending = Utf8Decoder.step(Utf8Decoder.start(), 0xE2).state;
    assert!(rt; Utf8Decoder.own_text(pending, &LETTERS) == 0);
    assert!(rt; taken(&Utf8Decoder, Utf8Decoder.start(), text) == NO_BULK);
}

/// More characters of three bytes than are taken at once.
fn long_utf8() -> [u8; 16_500] {
    let mut bytes = [0x9C; 16_500];
    for at in 0..5500 {
        bytes[3 * at] = 0xE6;
    }
    bytes
}

/// Counts the existing bytes of a range that are their own text in UTF-8.
fn own_in(bytes: &[u8], from: usize, to: usize) -> usize {
    let to = to.min(bytes.len());
    own_text(&Utf8Decoder, &bytes[from.min(to)..to])
}

#[test]
fn long_utf8_is_its_own_text(rt: HostRuntime) {
    let mut bytes = long_utf8();
    // The last character that isn't whole in the bytes that are looked at is left.
    assert!(rt; own_text(&Utf8Decoder, &bytes) == LONGEST_RUN - 1);
    assert!(rt; own_in(&bytes, 0, LONGEST_RUN) == LONGEST_RUN - 1);
    assert!(rt; own_in(&bytes, 0, LONGEST_RUN - 1) == LONGEST_RUN - 1);
    assert!(rt; own_in(&bytes, 3, LONGEST_RUN - 2) == LONGEST_RUN - 7);
    assert!(rt; own_in(&bytes, 1, 16_500) == 0);
    // An error in a later part, and one in the first.
    bytes[9001] = b'a';
    assert!(rt; own_text(&Utf8Decoder, &bytes) == 9000);
    bytes[3] = 0xFF;
    assert!(rt; own_text(&Utf8Decoder, &bytes) == 3);
    assert!(rt; own_in(&bytes, 6, 16_500) == 8994);
}

#[test]
fn a_piece_that_is_its_own_text(rt: HostRuntime) {
    let mut count = meter();
    let start = Utf8Decoder.start();
    let text = "a\u{672C}";
    let own = own_piece(&Utf8Decoder, start, text.as_bytes(), &mut count);
    assert!(rt; own == Some(text) && count.decoded() == 4);
    // Neither a part nor a pending state is counted.
    assert!(rt; own_piece(&Utf8Decoder, start, b"ab\xE9", &mut count).is_none());
    let pending = Utf8Decoder.step(start, 0xE2).state;
    assert!(rt; own_piece(&Utf8Decoder, pending, b"ab", &mut count).is_none());
    assert!(rt; count.decoded() == 4);
    let letters = own_piece(
        &XUserDefinedDecoder,
        XUserDefinedDecoder.start(),
        &LETTERS,
        &mut count,
    );
    assert!(rt;
        letters.is_some_and(|text| text.as_bytes() == LETTERS.as_slice()) && count.decoded() == 68
    );
}

/// A letter, a character of one unit and a pair in UTF-16LE.
const LITTLE: &[u8] = b"\x61\x00\x2C\x67\x3D\xD8\x00\xDE";

#[test]
fn utf16_where_nothing_is_pending(rt: HostRuntime) {
    let text = "a\u{672C}\u{1F600}";
    let rows: [(ByteOrder, &[u8]); 2] = [
        (ByteOrder::BigEndian, b"\x00\x61\x67\x2C\xD8\x3D\xDE\x00"),
        (ByteOrder::LittleEndian, LITTLE),
    ];
    for (order, bytes) in rows {
        assert!(rt; takes(&Utf16Decoder { order }, bytes, text, Stride::Utf16));
    }
    let little = Utf16Decoder {
        order: ByteOrder::LittleEndian,
    };
    let cut = taken(&little, little.start(), LITTLE.get(..6).unwrap_or(&[]));
    assert!(rt; cut.taken == 4);
    let pending = little.step(little.start(), 0x61).state;
    assert!(rt; taken(&little, pending, LITTLE) == NO_BULK);
}

/// Letters in UTF-16LE, more than a block has room for.
fn letters_in_pairs() -> [u8; 2200] {
    let mut bytes = [0; 2200];
    for at in 0..1100 {
        bytes[2 * at] = b'a';
    }
    bytes
}

/// Whether the decoder takes `count` letters in its first state, and writes them.
fn takes_letters(decoder: &Utf16Decoder, bytes: &[u8], count: usize) -> bool
    requires { count ≤ 1024 }
{
    let mut block = [0; 1024];
    let letters = Bulk {
        taken: 2 * count,
        written: count,
        stride: Stride::Utf16,
    };
    let found = decoder.bulk(decoder.start(), bytes, &mut block);
    found == letters && block[..count] == [b'a'; 1024][..count]
}

#[test]
fn utf16_of_letters(rt: HostRuntime) {
    let little = Utf16Decoder {
        order: ByteOrder::LittleEndian,
    };
    let big = Utf16Decoder {
        order: ByteOrder::BigEndian,
    };
    let mut bytes = letters_in_pairs();
    // Whole blocks of 32, as many as there is room for.
    let (some, few) = (&bytes[..200], &bytes[..62]);
    assert!(rt; takes_letters(&little, &bytes, 1024));
    assert!(rt; takes_letters(&little, some, 96) && takes_letters(&little, few, 31));
    assert!(rt; takes_letters(&big, &bytes[1..], 336));
    // In the other byte order each is of three bytes.
    let mut block = [0; 1024];
    let found = big.bulk(big.start(), &bytes, &mut block);
    assert!(rt; found.taken == 672 && found.written == 1008);
    assert!(rt; block.starts_with("\u{6100}\u{6100}".as_bytes()));
    // A character that isn't ASCII is left for the next time, and then taken with those after it.
    bytes[127] = 0x01;
    assert!(rt; takes_letters(&little, &bytes, 32));
    let found = taken(&little, little.start(), &bytes[64..]);
    assert!(rt; found.taken == 672 && found.written == 337);
}

#[test]
fn code_points_of_a_text_are_placed(rt: HostRuntime) -> Result<(), AllocError> {
    let mut count = meter();
    let items = decode_parts(
        rt.alloc(),
        &XUserDefinedDecoder,
        &LETTERS,
        0,
        &[20],
        &mut count,
    )?;
    let letter = |from: u64| Placed {
        item: Item::One(Scalar::from('a')),
        from,
        to: from + 1,
    };
    assert!(rt; items.len() == 64);
    for (from, item) in items.iter().enumerate() {
        assert!(rt; *item == letter(from as u64));
    }
    Ok(())
}
