//! CR LF at every place round the border of two pieces.

use crate::compare::compare;
use crate::tally::CallTally;
use decoder_core::meter;
use enc_names::{Bom, Encoding, Setting};
use index_loader::Indexes;
use piece_rope::{Doc, LONGEST_PIECE};
use rand::rngs::SmallRng;
use std::alloc::Global;

/// A letter and a line end in an encoding.
pub struct LineEnd {
    /// The encoding.
    pub given: Encoding,
    letter: &'static [u8],
    line_end: &'static [u8],
}

/// Line ends among letters of one byte, of two, and among errors. A third of the errors have no
/// bytes.
pub const LINE_ENDS: [LineEnd; 4] = [
    LineEnd {
        given: Encoding::Utf8,
        letter: b"a",
        line_end: b"\r\n",
    },
    LineEnd {
        given: Encoding::Utf16Le,
        letter: b"a\0",
        line_end: b"\r\0\n\0",
    },
    LineEnd {
        given: Encoding::Utf16Be,
        letter: b"\0a",
        line_end: b"\0\r\0\n",
    },
    LineEnd {
        given: Encoding::Iso2022Jp,
        letter: b"\x1B$B$\x1BA",
        line_end: b"\x1B(B\r\n",
    },
];

/// The least bytes of a document, which has two pieces, cut in its middle.
const LEAST: usize = LONGEST_PIECE + 4;

/// The number of lengths: the middle may be inside a character.
const LENGTHS: usize = 32;

/// The most letters between the line end and the middle.
const NEAR: usize = 4;

impl LineEnd {
    /// Makes `len` bytes: letters, and a line end after `letters` of them.
    fn bytes(&self, alloc: Global, letters: usize, len: usize) -> Option<Vec<u8>> {
        let mut bytes = Vec::new(alloc);
        for _ in 0..letters {
            bytes.extend_from_slice(self.letter).ok()?;
        }
        bytes.extend_from_slice(self.line_end).ok()?;
        for _ in 0..len {
            bytes.extend_from_slice(self.letter).ok()?;
            if bytes.len() >= len {
                break;
            }
        }
        Vec::from_slice(alloc, bytes.get(..len)?).ok()
    }
}

/// Compares the calls on a document with a line end before its middle. It has `len` bytes, and
/// `near` letters are between the line end and the middle. `None` if a call is refused.
fn one_document(
    alloc: Global,
    indexes: &Indexes,
    rng: &mut SmallRng,
    case: &LineEnd,
    near: usize,
    len: usize,
    tally: &mut CallTally,
) -> Option<()> {
    let middle = (len / 2).checked_div(case.letter.len())?;
    let bytes = case.bytes(alloc, middle.saturating_sub(near), len)?;
    let bom = Bom::Sniff;
    let doc = Doc::open(alloc, indexes, case.given, bom, &bytes, &mut meter()).ok()?;
    let setting = Setting::new(case.given, bom);
    compare(alloc, rng, &doc, setting, &bytes, tally)
}

/// Compares the calls on documents with a line end near a border of pieces. Each place around the
/// border is tried. `None` if a call is refused.
pub fn line_ends(
    alloc: Global,
    indexes: &Indexes,
    rng: &mut SmallRng,
    case: &LineEnd,
) -> Option<CallTally> {
    let mut tally = CallTally::new();
    for more in 0..LENGTHS {
        for near in 0..NEAR {
            one_document(alloc, indexes, rng, case, near, LEAST + more, &mut tally)?;
        }
    }
    Some(tally)
}
