//! Shapes of runs.
ghost use Rattle.std.specs.Prelude.{◌≡◌, ◌^◌, ◌<◌, List, ◌++◌, get_or, length, pos, ◌+ℤ◌, ◌<ℤ◌, IfSome, IfNone};
ghost use Rattle.state_memo.specs.Shaped.{no_shape, run_behind};

use crate::kind::ItemKind;
use crate::run::{Run, end_behind_all};

/// A run, except the end of the run before it.
#[derive(Clone, Copy, PartialEq, Eq, Debug)]
pub struct Shape {
    /// The number of bytes from that end to its own.
    pub gap: u16,
    /// The number of items before its last one.
    pub more: u16,
    /// The number of bytes between two ends.
    pub step: u8,
    /// The kind of each item.
    pub kind: ItemKind,
}

impl Shape {
    /// The shape of a run after one that ends at `end`. It has one if it ends there or later.
    // Once for each run.
    #[inline(always)]
    pub(crate) fn of(run: Run, end: i16) -> Option<Shape>
        ensures { IfSome result (λ s. run_behind end s ≡ run) }
    {
        let gap = u16::try_from(i32::from(run.last) - i32::from(end)).ok()?;
        Some(Shape {
            gap,
            more: run.more,
            step: run.step,
            kind: run.kind,
        })
    }

    /// The run of this shape after one that ends at `end`.
    // In the loops over runs.
    #[inline(always)]
    pub(crate) fn behind(self, end: i16) -> Run
        requires { (end +ℤ pos self.gap) <ℤ pos (2 ^ 15) }
        ensures { result ≡ run_behind end self }
    {
        Run {
            last: end_behind_all(end, self.gap, 1),
            more: self.more,
            step: self.step,
            kind: self.kind,
        }
    }
}

/// The number of places at which the number of a shape is looked up.
const PLACES: usize = 64;

/// The number at a place for which no shape was looked up yet. It is also the number of the last of
/// 256 shapes.
const NONE: u8 = u8::MAX;

/// The place of a shape. In ordinary text two shapes rarely share one.
// Once for each run.
#[inline(always)]
fn place_of(shape: Shape) -> usize
    ensures { result < 64 }
{
    let (gap, more, kind) = (
        usize::from(shape.gap),
        usize::from(shape.more),
        shape.kind as usize,
    );
    (gap + 4 * more + 2 * kind) % PLACES
}

/// The shapes that were met last, by their places.
#[derive(Drop)]
pub(crate) struct Recent {
    numbers: [u8; PLACES],
}

impl Recent {
    /// None yet.
    pub(crate) fn none() -> Recent {
        Recent {
            numbers: [NONE; PLACES],
        }
    }

    /// The number of a shape, which is added to the others if it is new. There is none if there are
    /// 256 others, or no memory.
    // Once for each run.
    #[inline(always)]
    pub(crate) fn number_of(&mut self, shapes: &mut Vec<Shape>, shape: Shape) -> Option<u8>
        ensures more { (more : List Shape) × (shapes.new.items ≡ shapes.old.items ++ more) }
        ensures named { IfSome result (λ k. (k < length shapes.new.items) × (get_or shapes.new.items k no_shape ≡ shape)) }
        ensures none { IfNone result (shapes.new.items ≡ shapes.old.items) }
    {
        let wanted = shape;
        let place = place_of(shape);
        let recent = self.numbers[place];
        if let Some(known) = shapes.get(usize::from(recent))
            && *known == wanted
        {
            return Some(recent);
        }
        let number = searched(shapes, wanted, recent)?;
        self.numbers[place] = number;
        Some(number)
    }
}

/// Like `number_of`, if another shape or none has its place. Each shape that was met before has left its number there,
/// or a later one has. So all shapes are compared only if the place has a number.
// Once for each shape.
#[inline(never)]
fn searched(shapes: &mut Vec<Shape>, shape: Shape, recent: u8) -> Option<u8>
    ensures more { (more : List Shape) × (shapes.new.items ≡ shapes.old.items ++ more) }
    ensures named { IfSome result (λ k. (k < length shapes.new.items) × (get_or shapes.new.items k no_shape ≡ shape)) }
    ensures none { IfNone result (shapes.new.items ≡ shapes.old.items) }
{
    let wanted = shape;
    let count = shapes.len();
    let known = if recent == NONE { 0 } else { count };
    'shapes: for at in 0..known {
        if shapes[at] == wanted {
            return u8::try_from(at).ok();
        }
    }
    let number = u8::try_from(count).ok()?;
    shapes.push(wanted).ok()?;
    Some(number)
}
