//! Sums of parts of a document as sums of a tree.
ghost use Rattle.std.specs.Prelude.{◌≡◌, ◌+◌, ◌<◌, ◌^◌};
ghost use Rattle.state_memo.specs.Sums.{joined, no_sum, Fits, measure};
ghost use Rattle.state_memo.specs.SumLaws.{law_sums, no_sum-fits, fits-left, fits-right, measure-more, measure-zero};

use crate::sum::Sum;
use sum_tree::{Dimension, Summary};

/// The quantity by which a document is counted.
#[derive(Clone, Copy, PartialEq, Eq, Debug)]
pub enum Axis {
    /// Bytes of the document.
    Byte,
    /// Code points.
    Scalar,
    /// Code units in UTF-16.
    Utf16,
    /// Bytes in UTF-8.
    Utf8,
    /// Line marks.
    Mark,
}

/// The line marks of two parts in a row: CR and LF that meet are one.
// On each level of a search.
#[inline(always)]
fn marks_of_both(sum: &Sum, other: &Sum) -> u32
    requires { sum.now.marks + other.now.marks < 2 ^ 32 }
    ensures { result ≡ (joined sum.now other.now).marks }
{
    sum.marks + other.marks - u32::from(sum.cr_last && other.lf_first)
}

impl Summary for Sum {
    ghost empty = { no_sum };

    ghost op = { joined };

    ghost fits = { Fits };

    fn unit() -> Sum {
        Sum {
            bytes: 0,
            scalars: 0,
            utf16: 0,
            utf8: 0,
            errors: 0,
            marks: 0,
            lf_first: false,
            cr_last: false,
        }
    }

    fn join(self, other: Sum) -> Sum {
        Sum {
            bytes: self.bytes + other.bytes,
            scalars: self.scalars + other.scalars,
            utf16: self.utf16 + other.utf16,
            utf8: self.utf8 + other.utf8,
            errors: self.errors + other.errors,
            marks: marks_of_both(&self, &other),
            lf_first: if self.scalars == 0 {
                other.lf_first
            } else {
                self.lf_first
            },
            cr_last: if other.scalars == 0 {
                self.cr_last
            } else {
                other.cr_last
            },
        }
    }

    ghost laws = { law_sums };

    ghost empty_fits = { no_sum-fits };

    ghost fits_left = { fits-left };

    ghost fits_right = { fits-right };
}

impl Dimension<Sum> for Axis {
    ghost measure = { measure };

    fn of(&self, sum: &Sum) -> u64 {
        match *self {
            Axis::Byte => sum.bytes as u64,
            Axis::Scalar => sum.scalars as u64,
            Axis::Utf16 => sum.utf16 as u64,
            Axis::Utf8 => sum.utf8 as u64,
            Axis::Mark => sum.marks as u64,
        }
    }

    fn of_join(&self, sum: &Sum, other: &Sum) -> u64 {
        match *self {
            Axis::Mark => marks_of_both(sum, other) as u64,
            axis => axis.of(sum) + axis.of(other),
        }
    }

    ghost zero = { measure-zero };

    ghost monotone = { measure-more };
}
