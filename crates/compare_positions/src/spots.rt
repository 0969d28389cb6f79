//! The numbers at which calls are compared.

use piece_rope::{Axis, Doc, Sum};
use rand::RngExt;
use rand::rngs::SmallRng;
use std::alloc::Global;
use sum_tree::visits;

/// The number of drawn numbers of a document. Those near its pieces' borders come in addition.
const DRAWN: usize = 32;

/// The bytes for which one more border is skipped between two. So the calls of a document of the
/// greatest length are those of one of a seventh.
const SKIPPED: u64 = 2_500_000;

/// Numbers at which calls are compared, and what the pieces' borders cut.
#[derive(Drop)]
pub struct Spots {
    /// The numbers.
    pub numbers: Vec<u64>,
    /// Numbers of errors at which calls for these are compared.
    pub errors: Vec<u64>,
    /// The number of borders.
    pub borders: usize,
    /// The number of them between CR and LF.
    pub cut: usize,
}

/// The numbers next to this one, up to two away.
fn push_near(numbers: &mut Vec<u64>, number: u64) -> Option<()> {
    for n in number.saturating_sub(2)..=number.saturating_add(2) {
        numbers.push(n).ok()?;
    }
    Some(())
}

impl Spots {
    /// Draws numbers up to the document's end and slightly past it. One of them is far past it.
    fn drawn(alloc: Global, rng: &mut SmallRng, doc: &Doc<'_>) -> Option<Spots> {
        let lengths = doc.lengths();
        let end = lengths.utf8.max(lengths.bytes).saturating_add(3);
        let mut numbers = Vec::new(alloc);
        for _ in 0..DRAWN {
            numbers.push(rng.random_range(0..=end)).ok()?;
        }
        numbers.push(u64::MAX).ok()?;
        Some(Spots {
            numbers,
            errors: Vec::new(alloc),
            borders: 0,
            cut: 0,
        })
    }

    /// Takes the numbers near these sums.
    fn push(&mut self, before: Sum) -> Option<()> {
        push_near(&mut self.numbers, before.bytes as u64)?;
        push_near(&mut self.numbers, before.scalars as u64)?;
        push_near(&mut self.numbers, before.utf16 as u64)?;
        push_near(&mut self.numbers, before.utf8 as u64)?;
        push_near(&mut self.numbers, before.marks as u64)?;
        push_near(&mut self.errors, before.errors as u64)
    }

    /// Counts the border after a part with these sums. The next text may begin with LF.
    fn count(&mut self, before: Sum, lf_first: bool) {
        if before.bytes > 0 {
            self.borders = self.borders.saturating_add(1);
        }
        if before.cr_last && lf_first {
            self.cut = self.cut.saturating_add(1);
        }
    }

    /// Numbers near the borders of pieces, and others. In a large document only some of the borders
    /// are used, up to its end. `None` if memory is refused, or if the pieces don't end with the
    /// document.
    pub fn of(alloc: Global, rng: &mut SmallRng, doc: &Doc<'_>) -> Option<Spots> {
        let mut spots = Spots::drawn(alloc, rng, doc)?;
        let finder = doc.finder();
        let mut at = 0;
        let len = doc.lengths().bytes;
        let every = len / SKIPPED + 1;
        // No document has more pieces than bytes.
        for n in 0..=len {
            let (before, found) = finder.find(&Axis::Byte, at, &mut visits());
            let Some(piece) = found else {
                spots.push(before)?;
                return Some(spots);
            };
            let sum = piece.here().sum();
            if n % every == 0 {
                spots.push(before)?;
                spots.count(before, sum.lf_first);
            }
            at = before.bytes.saturating_add(sum.bytes) as u64;
        }
        None
    }
}
