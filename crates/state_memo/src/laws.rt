//! The laws by which pieces in a row make up a document.
ghost use Rattle.std.specs.Prelude.{◌≡◌, ℕ, Bool, ◌≤◌, ◌+◌, ◌<◌, ◌^◌, ◌++◌, true, List, [], length, Some};
ghost use Rattle.std.specs.Str.{chars, IsUtf8};
ghost use Rattle.lane_ascii.specs.Marks.{marks, ends_cr};
ghost use Rattle.decoder_core.specs.Queue.{feed, run, further};
ghost use Rattle.decoder_core.specs.Shown.{shown_from, shown_items, ended_at};
ghost use Rattle.codec.specs.{Any.any, Near.AreNear, declared.state.AnyState.AnyState};
ghost use Rattle.state_memo.specs.{declared.ended.Ended.Ended, declared.outcome.Outcome.Outcome, declared.sum.Sum.Sum, Facts.IsSumOf, Fitting.total_of};
ghost use Rattle.state_memo.specs.{Items.all_scalars, Items.errors_in, Items.item_of, Memo.same_state, Outcome.outcome_of, Runs.items_of_runs, Sums.Fits};
ghost use Rattle.state_memo.specs.{Sums.joined, declared.run.Run.Run};

use codec::{AnyDecoder, law_few_items};
use decoder_core::law_one_run;

/// States the laws by which the outcomes of pieces in a row are a document's. The call does nothing.
///
/// Over no byte the state stays (`none`). If two parts follow each other, each is decoded from the
/// state in which the part before it ends (`parts`, `runs`, `shown`). The number of items of a part
/// is bounded by that of its bytes (`few`), and so is the distance of their ends (`near`). States
/// that the code finds equal are identical, and each is equal to itself (`exact`, `same`). An
/// outcome's exit and the bytes of its sum are those of the definition (`exit`, `bytes`). The numbers
/// of two texts in a row are the join of theirs (`joined`). The joins of the sums of outcomes fit if
/// there are few bytes (`fit`).
pub fn law_pieces(_decoder: &AnyDecoder<'_>)
    ensures none { (s : AnyState) → (feed (any _decoder.now) s []).state ≡ s }
    ensures parts { (s : AnyState) (p q : List ℕ)
        → (feed (any _decoder.now) s (p ++ q)).state ≡ (feed (any _decoder.now) (feed (any _decoder.now) s p).state q).state }
    ensures runs { (s : AnyState) (p q : List ℕ)
        → run (any _decoder.now) s (p ++ q) ≡ further (length q) (feed (any _decoder.now) s p).items
        ++ run (any _decoder.now) (feed (any _decoder.now) s p).state q }
    ensures shown { (s : AnyState) (q : List ℕ) → shown_items (shown_from (any _decoder.now) 0 s q) ≡ ended_at (length q) (feed (any _decoder.now) s q).items }
    ensures few { (read : ℕ) (s : AnyState) (q : List ℕ) → length (shown_from (any _decoder.now) read s q) ≤ length q + 7 }
    ensures near { (s : AnyState) (q : List ℕ) → AreNear (length q + 7) (run (any _decoder.now) s q) }
    ensures exact { (a b : AnyState) → same_state a b ≡ true → a ≡ b }
    ensures same { (a : AnyState) → same_state a a ≡ true }
    ensures exit { (entry : AnyState) (bytes : List ℕ) → (outcome_of _decoder.now entry bytes).exit ≡ (feed (any _decoder.now) entry bytes).state }
    ensures bytes { (entry : AnyState) (bytes : List ℕ) → (outcome_of _decoder.now entry bytes).sum.bytes ≡ length bytes }
    ensures joined { (a b : List ℕ) (is js : List Ended) (s t : Sum) → IsSumOf a is s → IsSumOf b js t → IsSumOf (a ++ b) (is ++ js) (joined s t) }
    ensures fit { (os : List Outcome) → (total_of os).bytes + length os < 2 ^ 26 → Fits (total_of os) }
{
    law_one_run(_decoder);
    law_few_items(_decoder);
}

/// States that two texts in a row have the join of their numbers (`joined`). It is for proofs that
/// have no decoder; the call does nothing.
pub fn law_sums()
    ensures joined { (a b : List ℕ) (is js : List Ended) (s t : Sum) → IsSumOf a is s → IsSumOf b js t → IsSumOf (a ++ b) (is ++ js) (joined s t) }
{}

/// States that a text's bytes have the line marks of its code points (`marks`). Its bytes end in CR
/// if and only if its code points do (`ends`). The call does nothing.
pub fn law_marks()
    ensures marks { (f : Bool) (bytes : List ℕ) → IsUtf8 bytes → marks f bytes ≡ marks f (chars bytes) }
    ensures ends { (f : Bool) (bytes : List ℕ) → IsUtf8 bytes → ends_cr f bytes ≡ ends_cr f (chars bytes) }
{}

/// States two laws of the items of runs. They have no more errors than code points (`sparse`), and
/// an item that is found by a code point is one of them (`within`). The call does nothing.
pub fn law_items()
    ensures sparse { (rs : List Run) → errors_in (items_of_runs rs) ≤ all_scalars (items_of_runs rs) }
    ensures within { (es : List Ended) (n k : ℕ) → item_of es n ≡ Some k → k < length es }
{}
