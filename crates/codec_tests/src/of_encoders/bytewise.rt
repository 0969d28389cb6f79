//! Texts in a single-byte encoding, which are taken in blocks and in runs of ASCII.

use crate::indexes::small_indexes;
use enc_names::Encoding;
use encoders::{EncodeFault, EncodeMode, Unencodable, encode};
use index_loader::Indexes;
use std::alloc::{AllocError, Global};
use std::test::Fail;

/// A text, and its bytes in windows-1252.
#[derive(Drop)]
struct Sample {
    text: String,
    bytes: Vec<u8>,
}

impl Sample {
    /// No text.
    fn empty(alloc: Global) -> Sample {
        Sample {
            text: String::new(alloc),
            bytes: Vec::new(alloc),
        }
    }

    /// Appends a code point and its bytes to the text.
    fn put(&mut self, code_point: char, bytes: &[u8]) -> Result<(), AllocError> {
        self.text.push(code_point)?;
        self.bytes.extend_from_slice(bytes)
    }

    /// Appends `count` code points of one byte, in UTF-8 two or three.
    fn put_letters(&mut self, count: usize) -> Result<(), AllocError> {
        for n in 0..count {
            if n % 3 == 0 {
                self.put('\u{20AC}', b"\x80")?;
            } else {
                self.put('\u{BB}', b"\xBB")?;
            }
        }
        Ok(())
    }

    /// Puts `count` letters of ASCII.
    fn put_ascii(&mut self, count: usize) -> Result<(), AllocError> {
        for _ in 0..count {
            self.put('a', b"a")?;
        }
        Ok(())
    }
}

/// `letters` letters, `ascii` characters of ASCII, and a letter.
fn with_ascii(alloc: Global, letters: usize, ascii: usize) -> Result<Sample, AllocError> {
    let mut sample = Sample::empty(alloc);
    sample.put_letters(letters)?;
    sample.put_ascii(ascii)?;
    sample.put_letters(1)?;
    Ok(sample)
}

/// A code point that windows-1252 doesn't have, between `letters` letters on each side.
fn with_a_reference(alloc: Global, letters: usize) -> Result<Sample, AllocError> {
    let mut sample = Sample::empty(alloc);
    sample.put_letters(letters)?;
    sample.put('\u{3042}', b"&#12354;")?;
    sample.put_letters(letters)?;
    Ok(sample)
}

/// Whether a text has these bytes in this mode.
fn is_put(
    alloc: Global,
    indexes: &Indexes,
    mode: EncodeMode,
    sample: &Sample,
) -> Result<bool, EncodeFault> {
    let bytes = encode(alloc, Encoding::Windows1252, indexes, mode, &sample.text)?;
    Ok(bytes.as_slice() == sample.bytes.as_slice())
}

/// Whether a text is refused at code point U+3042, which is number `index`.
fn is_refused_at(alloc: Global, indexes: &Indexes, text: &str, index: usize) -> bool {
    let refused = Unencodable {
        index: index as u64,
        code_point: '\u{3042}',
    };
    let fatal = encode(
        alloc,
        Encoding::Windows1252,
        indexes,
        EncodeMode::Fatal,
        text,
    );
    matches!(fatal, Err(EncodeFault::Unencodable(found)) if found == refused)
}

#[test]
fn blocks_and_runs_of_ascii(rt: HostRuntime) -> Result<(), Fail> {
    let indexes = small_indexes(rt.alloc())?;
    for letters in 0..131 {
        for ascii in 0..6 {
            let sample = with_ascii(rt.alloc(), letters, ascii)?;
            assert!(rt; is_put(rt.alloc(), &indexes, EncodeMode::Fatal, &sample)?);
        }
    }
    Ok(())
}

#[test]
fn a_code_point_without_a_byte_between_blocks(rt: HostRuntime) -> Result<(), Fail> {
    let indexes = small_indexes(rt.alloc())?;
    for letters in 0..131 {
        let sample = with_a_reference(rt.alloc(), letters)?;
        assert!(rt; is_put(rt.alloc(), &indexes, EncodeMode::Html, &sample)?);
        assert!(rt; is_refused_at(rt.alloc(), &indexes, &sample.text, letters));
    }
    Ok(())
}
