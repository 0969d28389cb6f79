//! The laws of the one decoder's states and their output states.
ghost use Rattle.std.specs.Prelude.{◌≡◌, ℕ, ◌+◌, ◌-◌, ◌≤◌, List, [], ◌∷◌, ◌++◌, length, take, Some, All, is_some, true};
ghost use Rattle.decoder_core.specs.Queue.{feed, run};
ghost use Rattle.enc_names.specs.declared.setting.Setting.{Setting};
ghost use Rattle.index_loader.specs.Files.{Files, has_files};
ghost use Rattle.codec.specs.Any.{AnyDecoding, any, any_start, decoder_in, output_of};
ghost use Rattle.codec.specs.{declared.state.AnyState.AnyState, Behind.state_behind, Mark.in_force, Mark.mark_length, Output.output_behind};
ghost use Rattle.iso2022jp.specs.declared.output.OutputState.TheVariants.{Ascii};

use crate::decoder::AnyDecoder;
use crate::law_standing::law_standing;
use decoder_core::{law_all_among, law_all_runs};
use iso2022jp::Iso2022JpDecoder;

/// States the laws of the output states after a document's bytes, taken literally. The call does
/// nothing.
///
/// The output state of the state after the bytes is the one that the definition names (`state`).
/// After a byte that gives an item (`byte`), and after the end (`end`), the output state is the one
/// at the item's end. This holds even if bytes were restored and the item ends before that byte.
/// After a byte order mark it is ASCII (`mark`), and a mark is no longer than the bytes
/// (`mark_fits`).
///
/// The decoder exists if the files of the declared encoding are loaded (`there`), and then so are
/// those of the effective encoding (`in_force`). The state before the first byte is the definition's
/// state after no bytes (`start`). The state after the bytes is reached from it (`behind`), one part
/// after another (`parts`).
pub fn law_output_at_the_end()
    ensures state { (files : Files) (setting : Setting) (bytes : List ℕ) → output_of (state_behind files setting bytes) ≡ output_behind files setting bytes }
    ensures mark { (files : Files) (setting : Setting) (bytes : List ℕ)
        → output_of (state_behind files setting (take (mark_length setting bytes) bytes)) ≡ Ascii }
    ensures mark_fits { (setting : Setting) (bytes : List ℕ) → mark_length setting bytes ≤ length bytes }
    ensures there { (files : Files) (setting : Setting) → is_some (decoder_in files setting) ≡ has_files files setting.given }
    ensures in_force { (files : Files) (setting : Setting) (bytes : List ℕ) → has_files files setting.given ≡ true
        → has_files files (in_force setting bytes) ≡ true }
    ensures start { (files : Files) (setting : Setting) (d : AnyDecoding) → decoder_in files setting ≡ Some d → any_start d ≡ state_behind files setting [] }
    ensures behind { (files : Files) (setting : Setting) (d : AnyDecoding) (bytes : List ℕ) → decoder_in files setting ≡ Some d
        → (feed (any d) (any_start d) bytes).state ≡ state_behind files setting bytes }
    ensures parts { (d : AnyDecoding) (s : AnyState) (p q : List ℕ) → (feed (any d) s (p ++ q)).state ≡ (feed (any d) (feed (any d) s p).state q).state }
    ensures byte { (files : Files) (setting : Setting) (d : AnyDecoding) (p : List ℕ) (b : ℕ) → decoder_in files setting ≡ Some d
        → All (λ e. output_of (state_behind files setting (take (length p + 1 - e.back) (p ++ b ∷ [])))
        ≡ output_of (state_behind files setting (p ++ b ∷ []))) (feed (any d) (state_behind files setting p) (b ∷ [])).items }
    ensures end { (files : Files) (setting : Setting) (d : AnyDecoding) (p : List ℕ) → decoder_in files setting ≡ Some d
        → All (λ e. output_of (state_behind files setting (take (length p - e.back) p)) ≡ output_of (state_behind files setting p))
        (run (any d) (state_behind files setting p) []) }
{
    law_standing();
    iso2022jp::law_output_at_the_end();
    law_all_runs::<AnyDecoder<'_>>();
    law_all_among::<Iso2022JpDecoder<'_>, AnyDecoder<'_>>();
}
