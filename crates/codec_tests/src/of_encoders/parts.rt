//! Texts that are encoded part by part.

use crate::indexes::small_indexes;
use enc_names::Encoding;
use encoders::{EncodeFault, EncodeMode, Part, encode, encode_part};
use index_loader::Indexes;
use iso2022jp::OutputState;
use std::alloc::Global;
use std::test::Fail;

/// A text of ASCII and JIS X 0208, for which ISO-2022-JP has escapes.
const TEXT: &str = "a\u{3042}\u{3042}b\u{3042}";

/// The same text in two parts.
const CUTS: [(&str, &str); 6] = [
    ("", "a\u{3042}\u{3042}b\u{3042}"),
    ("a", "\u{3042}\u{3042}b\u{3042}"),
    ("a\u{3042}", "\u{3042}b\u{3042}"),
    ("a\u{3042}\u{3042}", "b\u{3042}"),
    ("a\u{3042}\u{3042}b", "\u{3042}"),
    ("a\u{3042}\u{3042}b\u{3042}", ""),
];

/// Whether two parts of the text have the bytes of the whole.
fn is_whole_in_parts(
    alloc: Global,
    encoding: Encoding,
    indexes: &Indexes,
    (front, rest): (&str, &str),
) -> Result<bool, EncodeFault> {
    let first = Part {
        text: front,
        state: OutputState::Ascii,
        is_last: false,
    };
    let (mut bytes, state) = encode_part(alloc, encoding, indexes, EncodeMode::Fatal, first)?;
    let last = Part {
        text: rest,
        state,
        is_last: true,
    };
    let (others, _) = encode_part(alloc, encoding, indexes, EncodeMode::Fatal, last)?;
    bytes.extend_from_slice(&others)?;
    let whole = encode(alloc, encoding, indexes, EncodeMode::Fatal, TEXT)?;
    Ok(bytes.as_slice() == whole.as_slice())
}

#[test]
fn parts_are_the_whole(rt: HostRuntime) -> Result<(), Fail> {
    let indexes = small_indexes(rt.alloc())?;
    for encoding in [Encoding::Iso2022Jp, Encoding::EucJp, Encoding::Utf16Le] {
        for cut in CUTS {
            assert!(rt; is_whole_in_parts(rt.alloc(), encoding, &indexes, cut)?);
        }
    }
    Ok(())
}
