//! Documents whose byte order marks are kept.
ghost use Rattle.std.specs.Prelude.{ℕ, List, [], ◌∷◌};
ghost use Rattle.piece_rope.specs.Examples.{in_utf8_keeping};
ghost use Rattle.piece_rope.specs.Kept.{Resyncs};

use super::scripts::{Opening, Step, play, play_with_copy};
use super::*;

/// A letter before any bytes leaves the state after it unchanged: the resync distance is 0.
#[tactic(auto, unfolding(decoder_core::specs::Queue::feed, decoder_core::specs::Queue::feed_for, codec::specs::Behind::state_behind))]
fn letter_in_front()
    ensures { (bytes : List ℕ) → Resyncs (in_utf8_keeping bytes) 0 0 (0x61 ∷ []) 0 }
{}

/// A document in UTF-8 whose marks are kept.
fn keeping(bytes: &[u8]) -> Opening<'_> {
    Opening {
        given: Encoding::Utf8,
        bom: Bom::Keep,
        bytes,
    }
}

/// Steps on the copy of a mark and a letter.
const COPIED: [Step; 3] = [
    Step::AllText("\u{FEFF}A", 2),
    Step::Splice(0, 0, b"\xEF\xBB\xBF"),
    Step::AllText("\u{FEFF}\u{FEFF}A", 3),
];

#[test]
fn copy_keeps_marks(rt: HostRuntime) -> Result<(), Fail> {
    let opening = keeping(b"\xEF\xBB\xBFA");
    play_with_copy(&rt, rt.alloc(), &opening, &[], &COPIED)?;
    Ok(())
}

/// A letter gives way to a mark and another one.
const PUT_IN_FRONT: [Step; 2] = [
    Step::Kept(0, 1, b"\xEF\xBB\xBFx", 0, 1, "\u{FEFF}x"),
    Step::AllText("\u{FEFF}x", 2),
];

#[test]
fn mark_put_in_front_is_text(rt: HostRuntime) -> Result<(), Fail> {
    play(&rt, rt.alloc(), &keeping(b"A"), &PUT_IN_FRONT)?;
    Ok(())
}
