//! Runs by the numbers of their shapes, one after the other.
ghost use Rattle.std.specs.Prelude.{◌≡◌, ◌^◌, [], ◌<◌, true, false, drop, length, slice_get, pos, ◌+ℤ◌, ◌<ℤ◌};
ghost use Rattle.state_memo.specs.Shaped.{AreNamed, all_gaps, shapes_of, shaped_runs};

use crate::run::Run;
use crate::shape::Shape;
use std::marker::Model;

/// Runs by the numbers of their shapes. Contracts see the list of those that are left.
#[derive(Drop)]
pub(crate) struct ShapedRuns<'r> {
    shapes: &'r [Shape],
    numbers: &'r [u8],
    /// The end from which the first gap is counted.
    end: i16,
}

impl<'r> Model for ShapedRuns<'r> {
    ghost use Rattle.std.specs.Prelude.{◌^◌, List, length, pos, ◌+ℤ◌, ◌<ℤ◌};
    ghost use Rattle.state_memo.specs.declared.run.Run.{Run};
    ghost use Rattle.state_memo.specs.Shaped.{AreNamed, all_gaps, shapes_of, shaped_runs};

    ghost Value = { List Run };

    ghost view = { λ r. shaped_runs r.end (shapes_of r.shapes.now r.numbers.now) };

    ghost invariant = { λ r. record {
      named : AreNamed (length r.shapes.now) r.numbers.now;
      within : (r.end +ℤ pos (all_gaps (shapes_of r.shapes.now r.numbers.now))) <ℤ pos (2 ^ 15);
    } };
}

impl<'r> ShapedRuns<'r> {
    /// The runs whose shapes have these numbers, after a run that ends at `end`.
    pub(crate) fn new(shapes: &'r [Shape], numbers: &'r [u8], end: i16) -> ShapedRuns<'r>
        requires named { AreNamed (length shapes.now) numbers.now }
        requires within { (end +ℤ pos (all_gaps (shapes_of shapes.now numbers.now))) <ℤ pos (2 ^ 15) }
        ensures { result ≡ shaped_runs end (shapes_of shapes.now numbers.now) }
    {
        ShapedRuns {
            shapes,
            numbers,
            end,
        }
    }

    /// No run.
    pub(crate) fn none() -> ShapedRuns<'r>
        ensures { result ≡ [] }
    {
        ShapedRuns {
            shapes: &[],
            numbers: &[],
            end: 0,
        }
    }

    /// Whether none is left.
    #[inline(always)]
    pub(crate) fn is_done(&self) -> bool
        ensures none { result ≡ true → self.now ≡ [] }
        ensures some { result ≡ false → 0 < length self.now }
    {
        self.numbers.is_empty()
    }

    /// The first one.
    // In the loops over runs.
    #[inline(always)]
    pub(crate) fn first(&self) -> Option<Run>
        ensures { result ≡ slice_get self.now 0 }
    {
        let number = *self.numbers.first()?;
        let shape = self.shapes[usize::from(number)];
        Some(shape.behind(self.end))
    }

    /// Goes past the first one, if there is any.
    // In the loops over runs.
    #[inline(always)]
    pub(crate) fn advance(&mut self)
        ensures { self.new ≡ drop 1 self.old }
    {
        let Some((number, rest)) = self.numbers.split_first() else {
            return;
        };
        let shape = self.shapes[usize::from(*number)];
        self.end = shape.behind(self.end).last;
        self.numbers = rest;
    }
}
