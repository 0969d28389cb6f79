//! The smallest pointers by code point.
ghost use Rattle.std.specs.Prelude.{◌≡◌, ◌<◌, IfOk, IfSome, []};
ghost use Rattle.index_loader.specs.FirstPointers.{IsPut, first_in, pairs_in_cells, pointer_in};
ghost use Rattle.index_loader.specs.Ranges.{row_code_point};

use enc_names::Scalar;
use std::alloc::{AllocError, Global};
use std::marker::Model;

/// A table of the smallest pointers up to the greatest code point of an index. Each has a cell of
/// 16 bits, so a look-up is one read. A cell without a pointer says nothing about its code point:
/// pointers of 65,535 and above have no place in a cell. Contracts see the cells.
#[derive(Drop)]
pub(crate) struct FirstPointers {
    cells: Vec<u16>,
}

impl Model for FirstPointers {
    ghost use Rattle.std.specs.Prelude.{List, ℕ};

    ghost Value = { List ℕ };

    ghost view = { λ s. s.cells.items };
}

impl FirstPointers {
    /// A table of `len` cells, none of which holds a pointer.
    pub(crate) fn new(alloc: Global, len: usize) -> Result<FirstPointers, AllocError>
        ensures { IfOk result (λ firsts. pairs_in_cells 0 firsts ≡ []) }
    {
        let cells = vec![in alloc; 0; len]?;
        Ok(FirstPointers { cells })
    }

    /// The smallest pointer of a code point, where its cell holds one.
    #[inline(always)]
    pub(crate) fn get(&self, code_point: u32) -> Option<u32>
        ensures value { result ≡ first_in self.now code_point }
        ensures small { IfSome result (λ pointer. pointer < 0xFFFF) }
    {
        match self.cells.get(code_point as usize) {
            Some(cell) => held_in(*cell),
            None => None,
        }
    }

    /// Puts a pair into the cell of its code point, if it fits there. Returns the pointer of that
    /// code point that has no cell: the cell's old one, or the pair's own.
    pub(crate) fn put(&mut self, pair: (u32, Scalar)) -> Option<u32>
        ensures { IsPut pair self.old self.new result }
    {
        let (pointer, code_point) = pair;
        let before = self.get(code_point.get());
        let at = code_point.get() as usize;
        if at >= self.cells.len() {
            return Some(pointer);
        }
        if pointer >= 0xFFFF {
            return Some(pointer);
        }
        self.cells[at] = pointer as u16 + 1;
        before
    }

    /// The greatest code point up to this one whose cell holds a pointer.
    pub(crate) fn last_up_to(&self, code_point: u32) -> Option<u32>
        ensures { result ≡ row_code_point (pairs_in_cells 0 self.now) code_point }
    {
        last_up_to(&self.cells, code_point)
    }
}

/// The greatest code point up to this one whose cell holds a pointer.
fn last_up_to(cells: &[u16], code_point: u32) -> Option<u32>
    ensures { result ≡ row_code_point (pairs_in_cells 0 cells.now) code_point }
{
    let mut at = cells.len().min(code_point as usize + 1);
    while at > 0 {
        at -= 1;
        if cells[at] > 0 {
            return Some(at as u32);
        }
    }
    None
}

/// The pointer that a cell holds.
fn held_in(cell: u16) -> Option<u32>
    ensures value { result ≡ pointer_in cell }
    ensures small { IfSome result (λ pointer. pointer < 0xFFFF) }
{
    if cell > 0 {
        Some(u32::from(cell) - 1)
    } else {
        None
    }
}
