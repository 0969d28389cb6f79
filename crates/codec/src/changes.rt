//! The change of a text by a change of its bytes.
ghost use Rattle.std.specs.Prelude.{◌≡◌, ℕ, ◌+◌, ◌≤◌, List, ◌++◌, length, ◌↔◌};
ghost use Rattle.decoder_core.specs.Queue.{feed};
ghost use Rattle.codec.specs.Texts.{run_text, fed_text, replaced};

use decoder_core::{Decoder, law_one_run};

/// States the law of a change's window. The call does nothing.
///
/// Bytes are replaced by others, between unchanged bytes. If the decoder's states after the old and
/// the new bytes agree, look at the text of these bytes alone. The whole text is the old one with
/// code points replaced exactly if that is so of this text (`agreed`). In any case the same holds
/// of the text from these bytes to the end (`to_end`).
pub fn law_one_window<D: Decoder>(_decoder: &D)
    ensures agreed { (s : D.State) (front old new back put : List ℕ) (i j : ℕ) → let at = (feed (D.table _decoder.now) s front).state in
        i ≤ length (fed_text (D.table _decoder.now) at old) → j ≤ length (fed_text (D.table _decoder.now) at old)
        → (feed (D.table _decoder.now) at new).state ≡ (feed (D.table _decoder.now) at old).state
        → (run_text (D.table _decoder.now) s (front ++ (new ++ back))
        ≡ replaced (run_text (D.table _decoder.now) s (front ++ (old ++ back))) (length (fed_text (D.table _decoder.now) s front) + i)
        (length (fed_text (D.table _decoder.now) s front) + j) put)
        ↔ (fed_text (D.table _decoder.now) at new ≡ replaced (fed_text (D.table _decoder.now) at old) i j put) }
    ensures to_end { (s : D.State) (front old new put : List ℕ) (i j : ℕ) → let at = (feed (D.table _decoder.now) s front).state in
        (run_text (D.table _decoder.now) s (front ++ new) ≡ replaced (run_text (D.table _decoder.now) s (front ++ old))
        (length (fed_text (D.table _decoder.now) s front) + i) (length (fed_text (D.table _decoder.now) s front) + j) put)
        ↔ (run_text (D.table _decoder.now) at new ≡ replaced (run_text (D.table _decoder.now) at old) i j put) }
{
    law_one_run(_decoder);
}
