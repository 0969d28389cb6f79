//! The start of a page of errors.

/// The start of a page of the op `diagnostics`.
#[derive(Clone, Copy, PartialEq, Eq, Debug)]
pub enum PageStart {
    /// The error of this number, counted from 0.
    Number(u64),
    /// The first error on this line or after it.
    Line(u64),
}
