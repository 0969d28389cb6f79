//! Laws of the sums of lists, for users of the tree.
ghost use Rattle.std.specs.Prelude.{◌≡◌, List, ◌++◌};
ghost use Rattle.sum_tree.specs.Sums.{total, AllRunsFit};

use crate::summary::{Summary, Summed};

/// States how sums of lists join and fit. The sum of two lists in a row is the join of their sums
/// (`joined`). If the sum of a whole list fits, all its runs fit (`runs`), and the converse holds
/// (`whole`). If all runs of a list fit, so do those of each front (`front`) and each back
/// (`back`). The call does nothing.
pub fn law_sums_of_lists<T: Summed<S>, S: Summary>()
    ensures joined { (xs ys : List T) → total S.empty S.op T.sum_of (xs ++ ys)
        ≡ S.op (total S.empty S.op T.sum_of xs) (total S.empty S.op T.sum_of ys) }
    ensures runs { (xs : List T) → S.fits (total S.empty S.op T.sum_of xs)
        → AllRunsFit S.fits S.empty S.op T.sum_of xs }
    ensures whole { (xs : List T) → AllRunsFit S.fits S.empty S.op T.sum_of xs
        → S.fits (total S.empty S.op T.sum_of xs) }
    ensures front { (xs ys : List T) → AllRunsFit S.fits S.empty S.op T.sum_of (xs ++ ys)
        → AllRunsFit S.fits S.empty S.op T.sum_of xs }
    ensures back { (xs ys : List T) → AllRunsFit S.fits S.empty S.op T.sum_of (xs ++ ys)
        → AllRunsFit S.fits S.empty S.op T.sum_of ys }
{}
