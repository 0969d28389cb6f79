//! Runs by the numbers of their shapes.
ghost use Rattle.std.specs.Prelude.{◌≡◌, ◌++◌, ◌∷◌, ◌-◌, [], length, slice_get, IfSome};

use crate::run::Run;
use crate::shape::{Recent, Shape};
use crate::shaped_runs::ShapedRuns;
use std::alloc::Global;
use std::marker::Model;

/// Runs in order, each by the number of its shape: a byte a run, and `SHAPE` for each of the few
/// shapes. Contracts see the list.
#[derive(Drop)]
pub(crate) struct Shaped {
    shapes: Vec<Shape>,
    numbers: Vec<u8>,
    /// The end from which the first gap is counted.
    from: i16,
    /// The end of the last run.
    last: i16,
}

impl Model for Shaped {
    ghost use Rattle.std.specs.Prelude.{◌≡◌, List, length, pos, ◌+ℤ◌};
    ghost use Rattle.state_memo.specs.Shaped.{AreNamed, all_gaps, shapes_of, shaped_runs};
    ghost use Rattle.state_memo.specs.declared.run.Run.{Run};

    ghost Value = { List Run };

    ghost view = { λ s. shaped_runs s.from (shapes_of s.shapes.items s.numbers.items) };

    ghost invariant = { λ s. record {
      named : AreNamed (length s.shapes.items) s.numbers.items;
      last : s.last ≡ s.from +ℤ pos (all_gaps (shapes_of s.shapes.items s.numbers.items));
    } };
}

/// The bytes of memory that a shape takes.
const SHAPE: u64 = 6;

/// The number of shapes of the first allocation while they are found: text of words has fewer.
const FEW: usize = 32;

impl Shaped {
    /// Keeps these runs by their shapes, if that is possible. There must be memory for them, few
    /// shapes, and each run must end at the end of the one before it or later.
    pub(crate) fn of(alloc: Global, runs: &[Run]) -> Option<Shaped>
        ensures { IfSome result (λ shaped. shaped ≡ runs.now) }
    {
        let from = runs.first()?.last;
        let mut numbers = Vec::with_capacity(alloc, runs.len()).ok()?;
        let mut found = Vec::with_capacity(alloc, FEW).ok()?;
        let mut recent = Recent::none();
        let mut last = from;
        'runs: for run in runs {
            let shape = Shape::of(*run, last)?;
            let number = recent.number_of(&mut found, shape)?;
            numbers.push_reserved(number);
            last = run.last;
        }
        let shapes = Vec::from_slice(alloc, found.as_slice()).ok()?;
        Some(Shaped {
            shapes,
            numbers,
            from,
            last,
        })
    }

    /// The bytes of memory that they take.
    pub(crate) fn memory(&self) -> u64 {
        (self.numbers.len() as u64).saturating_add((self.shapes.len() as u64).saturating_mul(SHAPE))
    }

    /// The last run.
    pub(crate) fn last(&self) -> Option<Run>
        ensures { result ≡ slice_get self.now (length self.now - 1) }
    {
        let number = *self.numbers.last()?;
        let shapes = self.shapes.as_slice();
        let shape = shapes[usize::from(number)];
        Some(Run {
            last: self.last,
            more: shape.more,
            step: shape.step,
            kind: shape.kind,
        })
    }

    /// The runs one after the other.
    pub(crate) fn runs(&self) -> ShapedRuns<'_>
        ensures { result ≡ self.now }
    {
        let _last = self.last;
        ShapedRuns::new(self.shapes.as_slice(), self.numbers.as_slice(), self.from)
    }
}
