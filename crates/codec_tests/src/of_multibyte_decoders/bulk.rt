//! ASCII and pairs in bulk: no clause asks a decoder to take any byte.
use crate::in_turn::is_in_turn;
use crate::indexes::{GB18030, JIS0208, JIS0212, RANGES};
use decoder_core::{Decoder, Stride};
use index_loader::{Index, IndexKind, PairEncoding};
use multibyte_decoders::{EucJpDecoder, Gb18030Decoder, PairDecoders, by_pairs};
use std::process::Abort;
use std::test::Fail;

/// Counts the letters, of 64, that the decoder takes once it read some bytes. The second number is
/// that of the letters that it reports as their own text.
fn letters_behind<D: Decoder>(decoder: &D, bytes: &[u8]) -> (usize, usize) {
    let mut state = decoder.start();
    for byte in bytes {
        state = decoder.step(state, *byte).state;
    }
    let mut block = [0; 1024];
    let taken = decoder.bulk(state, &[0x61; 64], &mut block).taken;
    (taken, decoder.own_text(state, &[0x61; 64]))
}

/// The decoder takes letters if nothing is pending, and none after these bytes.
fn expect_bulk<D: Decoder>(rt: &impl Abort, decoder: &D, pending: &[u8]) {
    assert!(rt; letters_behind(decoder, &[]) == (64, 64));
    for count in 1..=pending.len() {
        assert!(rt;
            letters_behind(decoder, &pending[..count]) == (0, 0),
            "behind {count} bytes"
        );
    }
}

/// The number of bytes that the decoder takes if nothing is pending.
fn taken<D: Decoder>(decoder: &D, bytes: &[u8]) -> usize {
    let mut block = [0; 1024];
    decoder.bulk(decoder.start(), bytes, &mut block).taken
}

/// Whether these are all bytes, or all except a last one. The bytes are pairs and letters in turn,
/// and the last one may be a lead.
fn is_all_of(taken: usize, count: usize) -> bool {
    taken <= count && count <= taken.saturating_add(1) && taken % 3 != 1
}

/// The decoder takes a pair and a letter in turn, whatever the number of bytes. It takes all except
/// the last byte, which may be a lead, and writes their text.
fn expect_pairs<D: Decoder>(
    rt: &impl Abort,
    decoder: &D,
    pair: [u8; 2],
    code_point: char,
) -> Result<(), Fail> {
    let unit = [pair[0], pair[1], b'a'];
    let mut bytes = [0; 257];
    for (at, byte) in bytes.iter_mut().enumerate() {
        *byte = unit[at % 3];
    }
    for count in 0..=257 {
        let mut block = [0; 1024];
        let bulk = decoder.bulk(decoder.start(), &bytes[..count], &mut block);
        assert!(rt; is_all_of(bulk.taken, count) && bulk.stride == Stride::Pairs);
        let text = str::from_utf8(&block[..bulk.written])?;
        let characters = bulk.taken.saturating_mul(2).saturating_add(1) / 3;
        assert!(rt; is_in_turn(text, characters, code_point), "{count} bytes");
    }
    Ok(())
}

/// Behind a pair the decoder takes none of these bytes.
fn expect_stop<D: Decoder>(rt: &impl Abort, decoder: &D, pair: [u8; 2], bytes: [u8; 3]) {
    let whole = [pair[0], pair[1], bytes[0], bytes[1], bytes[2], b'a'];
    assert!(rt; taken(decoder, &whole) == 2);
}

/// The decoder takes ASCII and the pair if nothing is pending. After the pair it takes none of the
/// three.
fn expect_all<D: Decoder>(
    rt: &impl Abort,
    decoder: &D,
    pair: [u8; 2],
    code_point: char,
    stops: [[u8; 3]; 3],
) -> Result<(), Fail> {
    expect_bulk(rt, decoder, &pair[..1]);
    for stop in stops {
        expect_stop(rt, decoder, pair, stop);
    }
    expect_pairs(rt, decoder, pair, code_point)
}

/// The arm of each decoder of pairs: it takes ASCII and its pairs.
macro_rules! pairs_taken {
    ($name:ident, $decoder:expr, $rt:expr, $row:expr) => {
        expect_all($rt, $decoder, $row.2, $row.3, $row.4)
    };
}

/// The encodings of pairs, each with an index file and a pair. The pair has its code point, and what
/// isn't taken after it.
const PAIRS: [(PairEncoding, &[u8], [u8; 2], char, [[u8; 3]; 3]); 3] = [
    // Half-width katakana, a pair without a code point, no trail.
    (
        PairEncoding::ShiftJis,
        JIS0208,
        [0x82, 0xA0],
        '\u{3042}',
        [[0xB1, b'a', b'a'], [0x82, 0xA1, b'a'], [0x82, 0x2F, b'a']],
    ),
    // No lead, a pair without a code point, no trail.
    (
        PairEncoding::EucKr,
        b"9026\t0xAC00\n",
        [0xB0, 0xA1],
        '\u{AC00}',
        [[0x80, b'a', b'a'], [0xB0, 0xA2, b'a'], [0xB0, 0x40, b'a']],
    ),
    // Two code points, a pair without a code point, no trail.
    (
        PairEncoding::Big5,
        b"5495\t0x4E00\n",
        [0xA4, 0x40],
        '\u{4E00}',
        [[0x88, 0x62, b'a'], [0xA4, 0x41, b'a'], [0xA4, 0x80, b'a']],
    ),
];

#[test]
fn ascii_and_pairs_are_taken_where_no_lead_is_pending(rt: HostRuntime) -> Result<(), Fail> {
    for row in &PAIRS {
        let index = Index::parse(rt.alloc(), IndexKind::Pair(row.0), row.1)?;
        by_pairs!(&PairDecoders::new(row.0, &index), pairs_taken, &rt, row)?;
    }
    Ok(())
}

#[test]
fn euc_jp_takes_ascii_and_pairs_where_no_lead_is_pending(rt: HostRuntime) -> Result<(), Fail> {
    let jis0208 = Index::parse(rt.alloc(), IndexKind::Jis0208, JIS0208)?;
    let jis0212 = Index::parse(rt.alloc(), IndexKind::Jis0212, JIS0212)?;
    let decoder = EucJpDecoder::new(&jis0208, &jis0212);
    expect_bulk(&rt, &decoder, &[0x8F, 0xA2]);
    // A pair in the other index, half-width katakana, a pair without a code point.
    for stop in [[0x8F, 0xA2, 0xAF], [0x8E, 0xB1, b'a'], [0xA4, 0xA3, b'a']] {
        expect_stop(&rt, &decoder, [0xA4, 0xA2], stop);
    }
    expect_pairs(&rt, &decoder, [0xA4, 0xA2], '\u{3042}')
}

#[test]
fn gb18030_takes_ascii_and_pairs_where_no_lead_is_pending(rt: HostRuntime) -> Result<(), Fail> {
    let index = Index::parse(rt.alloc(), IndexKind::Gb18030, GB18030)?;
    let ranges = Index::parse(rt.alloc(), IndexKind::Gb18030Ranges, RANGES)?;
    let decoder = Gb18030Decoder::new(&index, &ranges);
    expect_bulk(&rt, &decoder, &[0x81, 0x30, 0x81]);
    // Four bytes, the euro sign of GBK, a pair without a code point.
    for stop in [[0x81, 0x30, 0x81], [0x80, b'a', b'a'], [0xB0, 0xA2, b'a']] {
        expect_stop(&rt, &decoder, [0xB0, 0xA1], stop);
    }
    expect_pairs(&rt, &decoder, [0xB0, 0xA1], '\u{554A}')
}

/// The arm of each decoder of pairs: how many bytes it takes.
macro_rules! count_taken {
    ($name:ident, $decoder:expr, $bytes:expr) => {
        taken($decoder, $bytes)
    };
}

#[test]
fn pair_that_is_ascii_is_not_taken(rt: HostRuntime) -> Result<(), Fail> {
    let encoding = PairEncoding::Big5;
    let index = Index::parse(rt.alloc(), IndexKind::Pair(encoding), b"0\t0x0041\n")?;
    let decoder = PairDecoders::new(encoding, &index);
    assert!(rt; by_pairs!(&decoder, count_taken, &[0x81, 0x40, 0x81, 0x40]) == 0);
    Ok(())
}
