//! Copies of a document, of several pieces.

use super::scripts::{Opening, Step, play_with_copy};
use super::*;

/// Steps on the document.
const EDITED: [Step; 2] = [Step::Splice(10, 5000, &[]), Step::Text(1000, 1001, "b")];

/// Steps on the copy.
const LEFT: [Step; 2] = [Step::AsOpened, Step::Text(6000, 6001, "b")];

#[test]
fn an_edit_of_one_leaves_the_other(rt: HostRuntime) -> Result<(), Fail> {
    let bytes = behind_letters(rt.alloc(), 6000, b"b")?;
    let opening = Opening {
        given: Encoding::Utf8,
        bom: Bom::Sniff,
        bytes: &bytes,
    };
    play_with_copy(&rt, rt.alloc(), &opening, &EDITED, &LEFT)?;
    Ok(())
}
