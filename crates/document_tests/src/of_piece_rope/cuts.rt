//! The places where bytes are cut into pieces. In UTF-8 they are before a character, so that no
//! piece keeps a text besides equal bytes.

use super::scripts::{Opening, Step, play};
use super::*;

/// An insert at the start is too large for the first piece. So the piece is cut in two.
const CUT: [Step; 4] = [
    Step::Whole,
    Step::Splice(0, 0, b"aaaaaa"),
    Step::Whole,
    Step::Sized,
];

/// A document of `count` letters `a`, and then 4,000 times this one.
fn is_cut_between(rt: &impl Abort, alloc: Global, count: usize, letter: &str) -> Result<(), Fail> {
    let mut bytes = behind_letters(alloc, count, &[])?;
    for _ in 0..4_000 {
        bytes.extend_from_slice(letter.as_bytes())?;
    }
    let opening = Opening {
        given: Encoding::Utf8,
        bom: Bom::Sniff,
        bytes: &bytes,
    };
    play(rt, alloc, &opening, &CUT)?;
    Ok(())
}

#[test]
fn no_character_of_utf_8_is_cut(rt: HostRuntime) -> Result<(), Fail> {
    for letter in ["\u{e9}", "\u{3042}", "\u{1f600}"] {
        for count in 0..letter.len() {
            is_cut_between(&rt, rt.alloc(), count, letter)?;
        }
    }
    Ok(())
}
