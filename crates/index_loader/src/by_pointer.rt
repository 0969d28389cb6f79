//! The pairs of an index by pointer.
ghost use Rattle.std.specs.Prelude.{◌≡◌, ◌<◌, ◌≤◌, All, IfOk, IfSome, None, OnOk, is_some};
ghost use Rattle.std.specs.List.Sorted.{IsPermutation};
ghost use Rattle.index_loader.specs.Form.{IsByteTable};
ghost use Rattle.index_loader.specs.Index.{is_ranges};
ghost use Rattle.index_loader.specs.Inside.{IsEmptyFor, keeps_rows, limit_of, pairs_by_pointer, places_of};
ghost use Rattle.index_loader.specs.Pairs.{code_point_at, inserted};

use crate::by_code_point::ByCodePoint;
use crate::kind::IndexKind;
use crate::of_bytes::ByteForms;
use crate::rows::Rows;
use crate::table::PointerTable;
use enc_names::Scalar;
use std::alloc::{AllocError, Global};

/// Pairs in the order of their pointers.
#[derive(Drop)]
pub(crate) enum ByPointer {
    Table(PointerTable),
    Ranges(Rows),
}

impl ByPointer {
    /// No pair, for files of this kind.
    pub(crate) fn new(alloc: Global, kind: IndexKind) -> Result<ByPointer, AllocError>
        ensures { IfOk result (λ pairs. IsEmptyFor kind pairs) }
    {
        if kind.is_ranges() {
            return Ok(ByPointer::Ranges(Rows::new(alloc)));
        }
        let len = kind.greatest_pointer() as usize + 1;
        Ok(ByPointer::Table(PointerTable::new(alloc, len)?))
    }

    /// The code point of a pointer.
    pub(crate) fn find(&self, pointer: u32) -> Option<Scalar>
        ensures { result ≡ code_point_at (pairs_by_pointer self.now) pointer }
    {
        match self {
            ByPointer::Table(table) => table.code_point(pointer),
            ByPointer::Ranges(rows) => rows.find(pointer),
        }
    }

    /// Whether the pointer has a code point.
    // In the loop over the lines of a file.
    #[inline(always)]
    pub(crate) fn has(&self, pointer: u32) -> bool
        ensures { result ≡ is_some (code_point_at (pairs_by_pointer self.now) pointer) }
    {
        match self {
            ByPointer::Table(table) => table.has(pointer),
            ByPointer::Ranges(rows) => rows.find(pointer).is_some(),
        }
    }

    /// Puts a pair at its place. No other pair has its pointer.
    pub(crate) fn put(&mut self, pointer: u32, code_point: Scalar) -> Result<(), AllocError>
        requires room { pointer < limit_of self.old }
        requires other { code_point_at (pairs_by_pointer self.old) pointer ≡ None }
        ensures limit { OnOk result (limit_of self.new ≡ limit_of self.old) }
        ensures rows { OnOk result (keeps_rows self.new ≡ keeps_rows self.old) }
        ensures pairs { OnOk result (pairs_by_pointer self.new ≡ inserted (pointer, code_point) (pairs_by_pointer self.old)) }
    {
        match self {
            ByPointer::Table(table) => table.set(pointer, code_point),
            ByPointer::Ranges(rows) => rows.put(pointer, code_point)?,
        }
        Ok(())
    }

    /// The same pairs by code point.
    pub(crate) fn by_code_point(&self, alloc: Global) -> Result<ByCodePoint, AllocError>
        requires { limit_of self.now ≤ 189001 }
        ensures same { IfOk result (λ held. IsPermutation (pairs_by_pointer self.now) held) }
        ensures small { IfOk result (λ held. All (λ pair. pair.0 < limit_of self.now) held) }
    {
        match self {
            ByPointer::Table(table) => ByCodePoint::of_table(alloc, table),
            ByPointer::Ranges(rows) => ByCodePoint::of_rows(alloc, rows),
        }
    }

    /// The UTF-8 forms of all bytes, at a table of 128 places.
    pub(crate) fn bytes(&self, alloc: Global) -> Result<Option<ByteForms>, AllocError>
        ensures { IfOk result (λ bytes. IfSome bytes (λ forms. IsByteTable (places_of self.now) forms)) }
    {
        match self {
            ByPointer::Table(table) => table.bytes(alloc),
            ByPointer::Ranges(_) => Ok(None),
        }
    }
}
