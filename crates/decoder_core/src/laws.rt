//! The laws of runs.
ghost use Rattle.std.specs.Prelude.{◌≡◌, ℕ, ◌+◌, List, [], ◌∷◌, ◌++◌, length, Some, true};
ghost use Rattle.decoder_core.specs.Queue.{Runs, run, feed, further, reported, fed_after, turn_at, queue_after};
ghost use Rattle.decoder_core.specs.Shown.{shown_from, shown_items, ended_at};
ghost use Rattle.decoder_core.specs.{declared.handler.Answer.TheVariants.Finished, declared.item.Ended.Ended, Lift.IsLifted, Lift.lift_fed};

use crate::decoder::Decoder;

/// The laws of a decoder's runs; the call does nothing.
///
/// From each state each queue has a run, and no other (`exists`, `only`). The run and what a feed
/// does are said turn by turn (`turn`, `feed_empty`, `feed_turn`), and over two queues in a row
/// (`parts`, `feed_parts`). What a sink is shown step by step are the feed's items (`shown`,
/// `shown_parts`). A decoder that is finished before the end stays in its state and gives nothing
/// more (`finished`). States that the code finds equal are identical (`exact`).
pub fn law_one_run<D: Decoder>(_decoder: &D)
    ensures exists { (s : D.State) (q : List ℕ) → Runs (D.table _decoder.now) s q (run (D.table _decoder.now) s q) }
    ensures only { (s : D.State) (q : List ℕ) (out : List Ended) → Runs (D.table _decoder.now) s q out → out ≡ run (D.table _decoder.now) s q }
    ensures turn { (s : D.State) (q : List ℕ) → let t = turn_at (D.table _decoder.now) s q in
        let left = queue_after (D.table _decoder.now) s q in
        run (D.table _decoder.now) s q ≡ reported t.answer (length left) (run (D.table _decoder.now) t.state left) }
    ensures feed_empty { (s : D.State) → feed (D.table _decoder.now) s [] ≡ record { state = s; items = [] } }
    ensures feed_turn { (s : D.State) (b : ℕ) (q : List ℕ) → let t = D.table _decoder.now s (Some b) in let left = t.back ++ q in
        feed (D.table _decoder.now) s (b ∷ q) ≡ fed_after t.answer (length left) t.state (feed (D.table _decoder.now) t.state left) }
    ensures parts { (s : D.State) (p q : List ℕ) → let first = feed (D.table _decoder.now) s p in
        run (D.table _decoder.now) s (p ++ q) ≡ further (length q) first.items ++ run (D.table _decoder.now) first.state q }
    ensures feed_parts { (s : D.State) (p q : List ℕ) → let first = feed (D.table _decoder.now) s p in
        let second = feed (D.table _decoder.now) first.state q in
        feed (D.table _decoder.now) s (p ++ q) ≡ record { state = second.state; items = further (length q) first.items ++ second.items } }
    ensures shown { (s : D.State) (q : List ℕ) → shown_items (shown_from (D.table _decoder.now) 0 s q)
        ≡ ended_at (length q) (feed (D.table _decoder.now) s q).items }
    ensures shown_parts { (read : ℕ) (s : D.State) (p q : List ℕ) → shown_from (D.table _decoder.now) read s (p ++ q)
        ≡ shown_from (D.table _decoder.now) read s p ++ shown_from (D.table _decoder.now) (read + length p) (feed (D.table _decoder.now) s p).state q }
    ensures finished { (s : D.State) (b : ℕ) (q : List ℕ) → (D.table _decoder.now s (Some b)).answer ≡ Finished
        → let done = (D.table _decoder.now s (Some b)).state in (feed (D.table _decoder.now) done q ≡ record { state = done; items = [] })
        × (run (D.table _decoder.now) done q ≡ []) }
    ensures exact { (a b : D.State) → D.State.eq a b ≡ true → a ≡ b }
{}

/// States the laws of a decoder that includes another one. The call does nothing.
///
/// `f` maps each state of the smaller decoder to a state of the larger one, and the larger decoder
/// does there what the smaller does. Then the runs of the two are the same (`runs`). What they do
/// over bytes that are fed is the same too, apart from `f` (`feeds`).
pub fn law_among<D: Decoder, E: Decoder>(_small: &D, _big: &E)
    ensures runs { (f : D.State → E.State) → IsLifted f (D.table _small.now) (E.table _big.now) → (s : D.State) (q : List ℕ)
        → run (E.table _big.now) (f s) q ≡ run (D.table _small.now) s q }
    ensures feeds { (f : D.State → E.State) → IsLifted f (D.table _small.now) (E.table _big.now) → (s : D.State) (q : List ℕ)
        → feed (E.table _big.now) (f s) q ≡ lift_fed f (feed (D.table _small.now) s q) }
{}
