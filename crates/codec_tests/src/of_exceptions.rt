//! The encoders of gb18030 and GBK over exceptions: worked examples, as equations over the definitions
//! that computing them proves, and what `encode` writes over a file of them.

ghost use Rattle.std.specs.Prelude.{◌≡◌, [], ◌∷◌, None, Some, false, true};
ghost use Rattle.codec_tests.specs.EncoderEntries.{exceptions, gb18030, gb18030_ranges};
ghost use Rattle.encoders.specs.Gb18030.{gb18030_bytes};

use crate::indexes::{GB18030, small_indexes};
use enc_names::{Encoding, Scalar};
use encoders::{EncodeFault, EncodeMode, Unencodable, encode};
use index_loader::{ExceptionCause, ExceptionFault, Exceptions, Index, IndexKind, Indexes};
use std::alloc::Global;
use std::test::Fail;

/// An exception takes precedence over the index and the ranges. ASCII and the refusal of U+E5E5
/// take precedence over it.
fn in_gb18030()
    ensures before_the_index { gb18030_bytes false exceptions gb18030 gb18030_ranges 0x4E04 ≡ Some (0xB0 ∷ 0xA1 ∷ []) }
    ensures before_the_ranges { gb18030_bytes false exceptions gb18030 gb18030_ranges 0xE7C7 ≡ Some (0xA8 ∷ 0xBC ∷ []) }
    ensures euro { gb18030_bytes false exceptions gb18030 gb18030_ranges 0x20AC ≡ Some (0xA2 ∷ 0xE3 ∷ []) }
    ensures ascii { gb18030_bytes false exceptions gb18030 gb18030_ranges 0x41 ≡ Some (0x41 ∷ []) }
    ensures refused { gb18030_bytes false exceptions gb18030 gb18030_ranges 0xE5E5 ≡ None }
    ensures another { gb18030_bytes false exceptions gb18030 gb18030_ranges 0x554A ≡ Some (0xB0 ∷ 0xA1 ∷ []) }
{}

/// The byte of U+20AC takes precedence over an exception in GBK. The exception takes precedence
/// over the refusal of what the index doesn't have.
fn in_gbk()
    ensures before_the_index { gb18030_bytes true exceptions gb18030 gb18030_ranges 0x4E04 ≡ Some (0xB0 ∷ 0xA1 ∷ []) }
    ensures without_a_pointer { gb18030_bytes true exceptions gb18030 gb18030_ranges 0xE7C7 ≡ Some (0xA8 ∷ 0xBC ∷ []) }
    ensures euro { gb18030_bytes true exceptions gb18030 gb18030_ranges 0x20AC ≡ Some (0x80 ∷ []) }
    ensures refused { gb18030_bytes true exceptions gb18030 gb18030_ranges 0xE5E5 ≡ None }
{}

/// A file of exceptions, in no order.
const FILE: &[u8] =
    b"# exceptions\r\n0xE5E5\tA3A0\n0x4E04\tB0A1\n\n0x20ac \t a2e3\tU+20AC\n0x41\t8140\n0xE7C7\tA8BC";

/// Texts with their bytes over it, in mode fatal.
const ROWS: [(Encoding, &str, &[u8]); 7] = [
    (Encoding::Gb18030, "\u{4E04}", b"\xB0\xA1"),
    (Encoding::Gbk, "\u{4E04}", b"\xB0\xA1"),
    (Encoding::Gb18030, "A\u{20AC}", b"A\xA2\xE3"),
    (Encoding::Gbk, "A\u{20AC}", b"A\x80"),
    (Encoding::Gb18030, "\u{E7C7}\u{4E02}", b"\xA8\xBC\x81\x40"),
    (Encoding::Gbk, "\u{E7C7}\u{554A}", b"\xA8\xBC\xB0\xA1"),
    (Encoding::Big5, "\u{4E00}", b"\xA4\x40"),
];

/// The small index files and these exceptions.
fn with_exceptions(alloc: Global) -> Result<Indexes, Fail> {
    let mut indexes = small_indexes(alloc)?;
    indexes.put(Index::parse(alloc, IndexKind::Gb18030, GB18030)?);
    indexes.put_exceptions(Exceptions::parse(alloc, b"0x4E04\t8140")?);
    indexes.put_exceptions(Exceptions::parse(alloc, FILE)?);
    Ok(indexes)
}

#[test]
fn texts_over_exceptions(rt: HostRuntime) -> Result<(), Fail> {
    in_gb18030();
    in_gbk();
    let indexes = with_exceptions(rt.alloc())?;
    for (encoding, text, wanted) in ROWS.iter() {
        let bytes = encode(rt.alloc(), *encoding, &indexes, EncodeMode::Fatal, text)?;
        assert!(rt; bytes.as_slice() == *wanted);
    }
    Ok(())
}

#[test]
fn an_exception_of_a_refused_code_point_is_none(rt: HostRuntime) -> Result<(), Fail> {
    let indexes = with_exceptions(rt.alloc())?;
    let html = encode(
        rt.alloc(),
        Encoding::Gb18030,
        &indexes,
        EncodeMode::Html,
        "\u{E5E5}",
    )?;
    assert!(rt; html.as_slice() == b"&#58853;".as_slice());
    let fatal = encode(
        rt.alloc(),
        Encoding::Gbk,
        &indexes,
        EncodeMode::Fatal,
        "\u{4E04}\u{E5E5}",
    );
    let refused = Unencodable {
        index: 1,
        code_point: '\u{E5E5}',
    };
    assert!(rt; matches!(fatal, Err(EncodeFault::Unencodable(found)) if found == refused));
    Ok(())
}

/// Files with their first fault.
const FAULTY: [(&[u8], u64, ExceptionCause); 3] = [
    (b"0x4E04\t417F\n", 1, ExceptionCause::BadBytes),
    (
        b"0x4E04\tB0A1\n0x4E04\tB0A1\n",
        2,
        ExceptionCause::DuplicateCodePoint,
    ),
    (
        b"#\n4E04\t417F\n0x4E04\t417F\n",
        2,
        ExceptionCause::BadCodePoint,
    ),
];

#[test]
fn the_first_fault_is_reported(rt: HostRuntime) -> Result<(), Fail> {
    for (file, line, cause) in FAULTY.iter() {
        let wanted = ExceptionFault {
            line: *line,
            cause: *cause,
        };
        let parsed = Exceptions::parse(rt.alloc(), file);
        assert!(rt; matches!(parsed, Err(fault) if fault == wanted));
    }
    let parsed = Exceptions::parse(rt.alloc(), FILE)?;
    assert!(rt; parsed.bytes_of(Scalar::from('\u{E7C7}')) == Some([0xA8, 0xBC]));
    assert!(rt; parsed.bytes_of(Scalar::from('\u{4E02}')).is_none());
    Ok(())
}
