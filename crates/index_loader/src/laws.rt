//! Laws of look-ups by code point.
ghost use Rattle.std.specs.Prelude.{◌≡◌, ◌≤◌, ◌<◌, ◌+◌, ◌&&◌, ℕ, Bool, true, not, nat_le, List, filter, Some, None};
ghost use Rattle.index_loader.specs.Pairs.{greatest, least};

/// States how excluding pointers affects the smallest and the greatest. An encoder excludes some of
/// a code point's pointers. If there is no smallest (`least_none`) or greatest pointer
/// (`greatest_none`), there is none among the rest. If the smallest (`least_kept`) or the greatest
/// (`greatest_kept`) isn't excluded, it stays. If the smallest pointer is at or after the start of
/// an excluded range, the smallest outside the range is the smallest after it (`least_behind`). If
/// the greatest is below a bound, no pointer is at or above the bound (`greatest_below`). The call
/// does nothing.
pub fn law_pointer_exclusion()
    ensures least_none { (test : ℕ → Bool) (ns : List ℕ) → None ≡ least ns → None ≡ least (filter test ns) }
    ensures least_kept { (test : ℕ → Bool) (ns : List ℕ) (n : ℕ) → Some n ≡ least ns → test n ≡ true → Some n ≡ least (filter test ns) }
    ensures least_behind { (low high : ℕ) (ns : List ℕ) (n : ℕ) → Some n ≡ least ns → low ≤ n
        → least (filter (nat_le (high + 1)) ns) ≡ least (filter (λ p. not (nat_le low p && nat_le p high)) ns) }
    ensures greatest_none { (test : ℕ → Bool) (ns : List ℕ) → None ≡ greatest ns → None ≡ greatest (filter test ns) }
    ensures greatest_kept { (test : ℕ → Bool) (ns : List ℕ) (n : ℕ) → Some n ≡ greatest ns → test n ≡ true → Some n ≡ greatest (filter test ns) }
    ensures greatest_below { (bound : ℕ) (ns : List ℕ) (n : ℕ) → Some n ≡ greatest ns → n < bound → None ≡ greatest (filter (nat_le bound) ns) }
{}
