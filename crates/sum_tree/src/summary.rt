//! The traits of sums of elements, and of the quantities by which sums are searched.
ghost use Rattle.std.specs.Prelude.{◌≡◌, ℕ, ◌≤◌, IfOk};
ghost use Rattle.sum_tree.specs.Sums.{MonoidLaws};

use crate::memory::OutOfMemory;

/// A sum of elements. Joins are over unbounded numbers; a join can be computed where its result
/// fits, so where each of its numbers is below 2^64.
pub trait Summary: Copy {
    ghost empty: { Self };

    ghost op: { Self → Self → Self };

    ghost fits: { Self → Type 0 };

    /// The sum of no element.
    fn unit() -> Self
        ensures { result ≡ empty };

    /// Joins this sum and the sum of what follows.
    fn join(self, other: Self) -> Self
        requires { fits (op self other) }
        ensures { result ≡ op self other };

    ghost laws: { MonoidLaws empty op };

    ghost empty_fits: { fits empty };

    ghost fits_left: { (a b : Self) → fits (op a b) → fits a };

    ghost fits_right: { (a b : Self) → fits (op a b) → fits b };
}

/// An element that has a sum.
pub trait Summed<S: Summary> {
    ghost sum_of: { Self → S };

    /// The element's sum.
    fn sum(&self) -> S
        ensures { result ≡ sum_of self.now };
}

/// An element that can be copied. A copy may take memory.
pub trait TryCopy {
    /// An element that is the same.
    fn copy(&self) -> Result<Self, OutOfMemory>
        ensures { IfOk result (λ x. x ≡ self.now) };
}

/// A number of a sum that elements are sought by. It is 0 of no element and never falls where
/// more is joined.
pub trait Dimension<S: Summary> {
    ghost measure: { Self → S → ℕ };

    /// The number of this sum.
    fn of(&self, sum: &S) -> u64
        ensures { result ≡ measure self.now sum.now };

    /// The dimension of the join of two sums, without joining them. A search needs no more of the
    /// sums that it passes by.
    fn of_join(&self, sum: &S, other: &S) -> u64
        requires { S.fits (S.op sum.now other.now) }
        ensures { result ≡ measure self.now (S.op sum.now other.now) };

    ghost zero: { (d : Self) → measure d S.empty ≡ 0 };

    ghost monotone: { (d : Self) (a b : S) → measure d a ≤ measure d (S.op a b) };
}
