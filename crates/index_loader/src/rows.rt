//! The ranges of gb18030.
ghost use Rattle.std.specs.Prelude.{◌≡◌, ◌≤◌, true, false, [], length, nat_le, option_and_then, All, IfOk, None, OnOk};
ghost use Rattle.std.specs.List.Sorted.{IsPartitionPoint};
ghost use Rattle.index_loader.specs.Pairs.{code_point_at, inserted};
ghost use Rattle.index_loader.specs.Ranges.{code_point_in_row, is_in_gap, range_code_point, row_pointer};
ghost use Rattle.index_loader.specs.Rows.{IsLastRowUpTo, IsRising};

use enc_names::Scalar;
use std::alloc::{AllocError, Global};
use std::marker::Model;

/// The rows of the ranges, in the order of their pointers. Contracts see the list of the rows.
#[derive(Drop)]
pub(crate) struct Rows {
    rows: Vec<(u32, Scalar)>,
}

impl Model for Rows {
    ghost use Rattle.index_loader.specs.Pairs.{Pairs};
    ghost use Rattle.index_loader.specs.Rows.{AreRows};

    ghost Value = { Pairs };

    ghost view = { λ s. s.rows.items };

    ghost invariant = { λ s. AreRows s.rows.items };
}

/// Whether a pointer lies between those of the BMP and those above. No code point has such a
/// pointer. The BMP is the Basic Multilingual Plane; the planes above it follow.
pub(crate) fn is_in_gap(pointer: u32) -> bool
    ensures { result ≡ is_in_gap pointer }
{
    39_420 <= pointer && pointer <= 188_999
}

/// The number of rows whose pointer isn't above this one.
fn count_up_to(rows: &[(u32, Scalar)], pointer: u32) -> usize
    requires { IsRising rows.now }
    ensures bound { result ≤ length rows.now }
    ensures place { IsPartitionPoint (λ y. nat_le y.0 pointer ≡ true) (λ y. nat_le y.0 pointer ≡ false) rows.now result }
{
    rows.partition_point(|row| row.0 <= pointer)
}

impl Rows {
    /// No row.
    pub(crate) fn new(alloc: Global) -> Rows
        ensures { result ≡ [] }
    {
        Rows {
            rows: Vec::new(alloc),
        }
    }

    /// Puts a row at its place. No other row has its pointer.
    pub(crate) fn put(&mut self, pointer: u32, code_point: Scalar) -> Result<(), AllocError>
        requires small { pointer ≤ 189000 }
        requires other { code_point_at self.old pointer ≡ None }
        ensures { OnOk result (self.new ≡ inserted (pointer, code_point) self.old) }
    {
        let at = count_up_to(&self.rows, pointer);
        self.rows.insert(at, (pointer, code_point))?;
        Ok(())
    }

    /// The code point of the row of this pointer, if there is such a row.
    pub(crate) fn find(&self, pointer: u32) -> Option<Scalar>
        ensures { result ≡ code_point_at self.now pointer }
    {
        let (start, first) = self.at_or_below(pointer)?;
        if start == pointer { Some(first) } else { None }
    }

    /// The rows, copied.
    pub(crate) fn pairs(&self, alloc: Global) -> Result<Vec<(u32, Scalar)>, AllocError>
        ensures pairs { IfOk result (λ pairs. pairs.items ≡ self.now) }
        ensures small { All (λ row. row.0 ≤ 189000) self.now }
    {
        Vec::from_slice(alloc, &self.rows)
    }

    /// The code point of a pointer (Encoding Standard, "index gb18030 ranges code point").
    pub(crate) fn code_point(&self, pointer: u32) -> Option<Scalar>
        ensures { result ≡ range_code_point self.now pointer }
    {
        if is_in_gap(pointer) || pointer > 1_237_575 {
            return None;
        }
        if pointer == 7457 {
            return Scalar::new(0xE7C7);
        }
        self.code_point_in_row(pointer)
    }

    /// The code point that is as far from its row's start as the pointer is.
    fn code_point_in_row(&self, pointer: u32) -> Option<Scalar>
        requires { pointer ≤ 1237575 }
        ensures { result ≡ option_and_then (code_point_in_row self.now pointer) (row_pointer self.now pointer) }
    {
        let (start, first) = self.at_or_below(pointer)?;
        Scalar::new(first.get() + (pointer - start))
    }

    /// The last row whose pointer isn't above this one.
    fn at_or_below(&self, pointer: u32) -> Option<(u32, Scalar)>
        ensures row { IsLastRowUpTo self.now pointer result }
        ensures order { IsRising self.now }
    {
        let at = count_up_to(&self.rows, pointer);
        if at == 0 {
            None
        } else {
            Some(self.rows[at - 1])
        }
    }
}
