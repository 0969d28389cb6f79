//! The laws of the decoder's output states.
ghost use Rattle.std.specs.Prelude.{◌≡◌, ℕ, ◌+◌, ◌-◌, ◌≤◌, List, [], ◌∷◌, ◌++◌, length, take, All};
ghost use Rattle.index_loader.specs.Index.{Loaded, code_point_of};
ghost use Rattle.decoder_core.specs.Queue.{feed, run};
ghost use Rattle.iso2022jp.specs.Iso2022Jp.{iso_2022_jp, iso_2022_jp_start, output_of};
ghost use Rattle.iso2022jp.specs.Iso2022JpLaws.{iso_2022_jp_bytes};

use crate::decoder::Iso2022JpDecoder;
use decoder_core::law_all_runs;

/// States the laws of the decoder's output states. The call does nothing.
///
/// After a byte that gives an item, the output state is the one at the item's end, even if bytes
/// were restored and the item ends before that byte (`byte`). The same holds at the end of the
/// bytes (`end`). A byte that isn't the third of an escape leaves the output state unchanged
/// (`stays`).
pub fn law_output_at_the_end()
    ensures byte { (jis0208 : Loaded) (p : List ℕ) (b : ℕ) → let table = iso_2022_jp (code_point_of jis0208) in
        let after = feed table iso_2022_jp_start (p ++ b ∷ []) in
        All (λ e. output_of (feed table iso_2022_jp_start (take (length p + 1 - e.back) (p ++ b ∷ []))).state ≡ output_of after.state)
        (feed table (feed table iso_2022_jp_start p).state (b ∷ [])).items }
    ensures end { (jis0208 : Loaded) (p : List ℕ) → let table = iso_2022_jp (code_point_of jis0208) in
        let after = feed table iso_2022_jp_start p in
        All (λ e. output_of (feed table iso_2022_jp_start (take (length p - e.back) p)).state ≡ output_of after.state) (run table after.state []) }
    ensures stays { (jis0208 : Loaded) (p : List ℕ) (b : ℕ) → let table = iso_2022_jp (code_point_of jis0208) in
        iso_2022_jp_bytes (feed table iso_2022_jp_start p).state ≤ 1 → output_of (feed table iso_2022_jp_start (p ++ b ∷ [])).state
        ≡ output_of (feed table iso_2022_jp_start p).state }
{
    law_all_runs::<Iso2022JpDecoder<'_>>();
}
