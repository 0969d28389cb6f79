//! The laws of runs, for whoever has no decoder at hand.
ghost use Rattle.std.specs.Prelude.{◌≡◌, ℕ, List, [], ◌∷◌, ◌++◌, length, Some};
ghost use Rattle.decoder_core.specs.Queue.{run, feed, further, reported, fed_after, turn_at, queue_after};
ghost use Rattle.decoder_core.specs.Lift.{IsLifted, lift_fed};

use crate::decoder::Decoder;

/// The laws of the runs of every decoder of a type; the call does nothing.
///
/// The run and what a feed does are said turn by turn (`turn`, `feed_empty`, `feed_turn`), and over
/// two queues in a row (`feed_parts`), as `law_one_run` has it of one decoder.
pub fn law_all_runs<D: Decoder>()
    ensures turn { (decoder : D) (s : D.State) (q : List ℕ) → let t = turn_at (D.table decoder) s q in
        let left = queue_after (D.table decoder) s q in run (D.table decoder) s q ≡ reported t.answer (length left) (run (D.table decoder) t.state left) }
    ensures feed_empty { (decoder : D) (s : D.State) → feed (D.table decoder) s [] ≡ record { state = s; items = [] } }
    ensures feed_turn { (decoder : D) (s : D.State) (b : ℕ) (q : List ℕ) → let t = D.table decoder s (Some b) in let left = t.back ++ q in
        feed (D.table decoder) s (b ∷ q) ≡ fed_after t.answer (length left) t.state (feed (D.table decoder) t.state left) }
    ensures feed_parts { (decoder : D) (s : D.State) (p q : List ℕ) → let first = feed (D.table decoder) s p in
        let second = feed (D.table decoder) first.state q in
        feed (D.table decoder) s (p ++ q) ≡ record { state = second.state; items = further (length q) first.items ++ second.items } }
{}

/// States the laws of each decoder that includes another, like `law_among` for two. The runs of the
/// two are the same (`runs`), and so is what feeding bytes does, apart from the mapping of states
/// (`feeds`). The call does nothing.
pub fn law_all_among<D: Decoder, E: Decoder>()
    ensures runs { (small : D) (big : E) (f : D.State → E.State) → IsLifted f (D.table small) (E.table big) → (s : D.State) (q : List ℕ)
        → run (E.table big) (f s) q ≡ run (D.table small) s q }
    ensures feeds { (small : D) (big : E) (f : D.State → E.State) → IsLifted f (D.table small) (E.table big) → (s : D.State) (q : List ℕ)
        → feed (E.table big) (f s) q ≡ lift_fed f (feed (D.table small) s q) }
{}
