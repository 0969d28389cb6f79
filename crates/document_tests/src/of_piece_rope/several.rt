//! Edits of several parts, in documents of several pieces.

use super::scripts::{Opening, Step, play};
use super::*;

/// An edit begins, with its parts. The first part moves every unit after it by a byte, so all pieces
/// are entered in another state. The others overlap it and each other.
macro_rules! parts {
    ($($then:expr),*) => {
        [
            Step::Begin,
            Step::Splice(4, 0, &[0x00]),
            Step::Splice(30_000, 20_000, b"abc"),
            Step::Splice(29_999, 9_000, &[0x42; 6_000]),
            Step::Splice(0, 5, &[]),
            $($then),*
        ]
    };
}

/// The edit is taken back, and then another one made.
const TAKEN_BACK: [Step; 9] = parts!(
    Step::RollBack,
    Step::AsOpened,
    Step::Sized,
    Step::Splice(4, 0, &[0x00])
);

/// The step of another edit alone.
const FRESH: [Step; 1] = [Step::Splice(4, 0, &[0x00])];

/// The edit is kept, and is then not taken back any more.
const COMMITTED: [Step; 9] = parts!(
    Step::Commit,
    Step::RollBack,
    Step::Bytes(65_536 + 1 - 20_000 + 3 - 9_000 + 6_000 - 5),
    Step::Sized
);

/// A document of letters in UTF-16LE.
fn of_letters(bytes: &[u8]) -> Opening<'_> {
    Opening {
        given: Encoding::Utf16Le,
        bom: Bom::Sniff,
        bytes,
    }
}

#[test]
fn taken_back_with_what_pieces_remember(rt: HostRuntime) -> Result<(), Fail> {
    let bytes = letters(rt.alloc(), 32_768)?;
    // If a piece kept what it remembered during the edit, this would decode less than the document
    // that had no edit.
    let again = play(&rt, rt.alloc(), &of_letters(&bytes), &TAKEN_BACK)?;
    let once = play(&rt, rt.alloc(), &of_letters(&bytes), &FRESH)?;
    assert!(&rt; again == once, "{again} bytes decoded, and {once}");
    Ok(())
}

#[test]
fn committed(rt: HostRuntime) -> Result<(), Fail> {
    let bytes = letters(rt.alloc(), 32_768)?;
    play(&rt, rt.alloc(), &of_letters(&bytes), &COMMITTED)?;
    Ok(())
}
